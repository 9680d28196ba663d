//! The command of `clap`.

ghost use Rattle.std.specs.Prelude.{◌≡◌, IfOk, codes};
ghost use Rattle.clap.specs.Walk.{rule_of};
ghost use Rattle.clap.specs.Simple.{app_of, with_rule};
ghost use Rattle.command_words.specs.Command.{positional, several, optional, with_documents, run_app, generate_app, lizdrog_app};

use clap::{Arg, Command};
use std::alloc::{AllocError, Global};

/// A positional word more.
fn with_word<'a>(
    alloc: Global,
    command: Command<'a>,
    id: &'a str,
) -> Result<Command<'a>, AllocError>
    ensures { IfOk result
        (λ made. app_of made ≡ with_rule (app_of command.entry) (positional id.entry.now)) }
{
    command.arg(Arg::new(alloc, id).required(true))
}

/// An option with one value, which may be left out.
fn with_option<'a>(
    alloc: Global,
    command: Command<'a>,
    id: &'a str,
    name: &'a str,
) -> Result<Command<'a>, AllocError>
    ensures { IfOk result
        (λ made. app_of made
        ≡ with_rule (app_of command.entry) (optional id.entry.now name.entry.now)) }
{
    command.arg(Arg::new(alloc, id).long(name))
}

/// One positional word or more behind the others.
fn with_words<'a>(
    alloc: Global,
    command: Command<'a>,
    id: &'a str,
) -> Result<Command<'a>, AllocError>
    ensures { IfOk result
        (λ made. app_of made ≡ with_rule (app_of command.entry) (several id.entry.now)) }
{
    command.arg(Arg::new(alloc, id).required(true).num_args(1usize..))
}

/// The names of the documents of a design.
fn with_documents<'a>(alloc: Global, command: Command<'a>) -> Result<Command<'a>, AllocError>
    ensures { IfOk result (λ made. app_of made ≡ with_documents (app_of command.entry)) }
{
    let command = with_word(alloc, command, "EARLY")?;
    let command = with_word(alloc, command, "LATE")?;
    let command = with_word(alloc, command, "NETLIST")?;
    let command = with_word(alloc, command, "SDC")?;
    with_word(alloc, command, "SPEF")
}

fn run_command<'a>(alloc: Global) -> Result<Command<'a>, AllocError>
    ensures { IfOk result (λ made. app_of made ≡ run_app) }
{
    let command = with_documents(alloc, Command::new(alloc, "run"))?;
    let command = with_word(alloc, command, "WORKERS")?;
    let command = with_words(alloc, command, "SCRIPT")?;
    with_option(alloc, command, "JOURNAL", "journal")
}

fn generate_command<'a>(alloc: Global) -> Result<Command<'a>, AllocError>
    ensures { IfOk result (λ made. app_of made ≡ generate_app) }
{
    let command = with_word(alloc, Command::new(alloc, "generate"), "NUMBER")?;
    let command = with_word(alloc, command, "GATES")?;
    with_word(alloc, command, "EDITS")
}

/// The whole command.
pub(crate) fn lizdrog<'a>(alloc: Global) -> Result<Command<'a>, AllocError>
    ensures { IfOk result (λ made. app_of made ≡ lizdrog_app) }
{
    let runs = run_command(alloc)?;
    let generates = generate_command(alloc)?;
    Command::new(alloc, "lizdrog")
        .no_binary_name(true)
        .subcommand(runs)?
        .subcommand(generates)
}
