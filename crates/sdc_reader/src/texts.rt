//! The commands of a text.

ghost use Rattle.std.specs.Prelude.{◌≡◌, ◌≤◌, ◌<◌, ◌∷◌, ◌++◌, [], true, false, codes, length, IfOk, IsTrue, MatchResult, if◌then◌else◌, Option, Some, None};
ghost use Rattle.sta_text.specs.Tokens.{Tok, tok_of};
ghost use Rattle.sdc_reader.specs.Words.{is_word};
ghost use Rattle.sdc_reader.specs.Grammar.{step, command, passed_over, variable, command_step, known_step, events_of};
ghost use Rattle.sdc_reader.specs.Commands.{command_of};
ghost use Rattle.sdc_reader.specs.Reads.{whole, Reads, ReadsAny, Takes, passed_place};

use crate::arguments::arguments;
use crate::commands::{Line, command_of, is_left_out, is_passed_over};
use crate::cursor::{Stop, any, leave_out, refuse, unfit};
use crate::events::Event;
use crate::words::{ends_command, is, is_bad, is_variable, is_word};
use sta_text::{Cursor, Token};
use sta_units::Memory;
use std::alloc::Global;
use timing_defs::{Code, Style};

/// Takes a token of a command that is passed over; whether the command goes on.
#[tactic(auto, unfolding(crate::specs::Grammar::events))]
fn pass(cursor: &mut Cursor<'_>, out: &mut Vec<Event>) -> Result<bool, Stop>
    ensures reads { ReadsAny result passed_over passed_place cursor.old cursor.new out.old.items
        out.new.items }
    ensures shorter { IfOk result (λ more. IsTrue more → length cursor.new < length cursor.old) }
{
    match cursor.next() {
        None => Ok(false),
        Some(token) => {
            if ends_command(&token) {
                return Ok(false);
            }
            if is_bad(&token) {
                return Err(unfit(out, token.start));
            }
            Ok(true)
        }
    }
}

/// Passes over the rest of a command.
fn passed_over(cursor: &mut Cursor<'_>, out: &mut Vec<Event>) -> Result<(), Stop>
    ensures { ReadsAny result passed_over (λ _. command) cursor.old cursor.new out.old.items
        out.new.items }
{
    'each: while pass(cursor, out)? {}
    Ok(())
}

/// Takes the variable that a command sets.
#[tactic(auto, unfolding(crate::specs::Grammar::events))]
fn variable(cursor: &mut Cursor<'_>, size: usize, out: &mut Vec<Event>) -> Result<(), Stop>
    ensures { Reads result size variable (λ _. passed_over) cursor.old cursor.new out.old.items
        out.new.items }
{
    let token = any(cursor, size, out)?;
    if !is_word(&token) {
        return Err(unfit(out, token.start));
    }
    if is_variable(token.text) {
        return Err(leave_out(out, token.start));
    }
    if is(token.text, b"sdc_version") {
        return Ok(());
    }
    Err(unfit(out, token.start))
}

/// Takes a command that is read, of which the word was taken.
fn known(
    alloc: Global,
    cursor: &mut Cursor<'_>,
    size: usize,
    out: &mut Vec<Event>,
    word: &[u8],
    at: usize,
) -> Result<(), Stop>
    ensures { Takes result size (known_step (command_of word.now) at) (λ _. command) cursor.old
        cursor.new out.old.items out.new.items }
{
    match command_of(word) {
        None => Err(refuse(out, Code::SdcUnknownCommand, at)),
        Some(command) => {
            out.push(Event::Begin(command, at))?;
            arguments(alloc, cursor, size, out, Line::new(command))
        }
    }
}

/// Takes a command, of which the word was taken.
fn command_named(
    alloc: Global,
    cursor: &mut Cursor<'_>,
    size: usize,
    out: &mut Vec<Event>,
    word: &[u8],
    at: usize,
) -> Result<(), Stop>
    ensures { Takes result size (command_step word.now at) (λ _. command) cursor.old cursor.new
        out.old.items out.new.items }
{
    if is_variable(word) || is_left_out(word) {
        return Err(leave_out(out, at));
    }
    if is(word, b"set") {
        variable(cursor, size, out)?;
        return passed_over(cursor, out);
    }
    if is_passed_over(word) {
        return passed_over(cursor, out);
    }
    known(alloc, cursor, size, out, word, at)
}

/// Takes a command, or an empty one, of which the first token was taken.
fn command(
    alloc: Global,
    cursor: &mut Cursor<'_>,
    size: usize,
    out: &mut Vec<Event>,
    token: &Token<'_>,
) -> Result<(), Stop>
    ensures { Takes result size (step command (tok_of token.now)) (λ _. command) cursor.old
        cursor.new out.old.items out.new.items }
{
    if ends_command(token) {
        return Ok(());
    }
    if is_word(token) {
        return command_named(alloc, cursor, size, out, token.text, token.start);
    }
    Err(unfit(out, token.start))
}

/// Takes all commands.
#[tactic(auto, unfolding(crate::specs::Grammar::events))]
fn commands(
    alloc: Global,
    cursor: &mut Cursor<'_>,
    size: usize,
    out: &mut Vec<Event>,
) -> Result<(), Stop>
    ensures { MatchResult result (λ _. out.new.items ≡ whole size command cursor.old out.old.items)
        (λ stop. stop ≡ Stop.Refused → out.new.items
        ≡ whole size command cursor.old out.old.items) }
{
    'each: while let Some(token) = cursor.next() {
        command(alloc, cursor, size, out, &token)?;
    }
    Ok(())
}

/// What the text writes, up to its end or to its first token that does not fit.
pub(crate) fn events_of(alloc: Global, bytes: &[u8]) -> Result<Vec<Event>, Memory>
    ensures { IfOk result (λ found. found.items ≡ events_of bytes.now) }
{
    let mut cursor = Cursor::new(bytes, Style::Tcl);
    let mut out = Vec::new(alloc);
    match commands(alloc, &mut cursor, bytes.len(), &mut out) {
        Ok(()) | Err(Stop::Refused) => Ok(out),
        Err(Stop::Memory) => Err(Memory),
    }
}
