//! The arguments of a command: options, plain words, lists and brackets.

ghost use Rattle.std.specs.Prelude.{◌≡◌, ◌&&◌, not, ◌≤◌, ◌<◌, ◌∷◌, ◌++◌, [], ℕ, List, true, false, codes, length, IfOk, OnSome, MatchResult, if◌then◌else◌, Option, Some, None};
ghost use Rattle.sta_text.specs.Tokens.{Tok, tok_of};
ghost use Rattle.sdc_reader.specs.declared.commands.Asked.TheVariants as asks;
ghost use Rattle.sdc_reader.specs.Words.{is_word, is_option, ends_command};
ghost use Rattle.sdc_reader.specs.Commands.{clash, asked, unpaired};
ghost use Rattle.sdc_reader.specs.Grammar.{argument, command, end_step, flag_step, has_value, option_step, plain_step, surplus_step, argument_step};
ghost use Rattle.sdc_reader.specs.Reads.{stepped, Reads, Takes, Steps, more_place, place_behind};

use crate::commands::{Asked, Choice, Flag, Line, More, Quantity};
use crate::cursor::{Stop, leave_out, refuse, unfit};
use crate::events::Event;
use crate::objects::{named, objects};
use crate::values::{capacitance, name, period, time, waveform};
use crate::words::{ends_command, is_mark, is_option, is_variable, is_word, name_of};
use sta_text::{Cursor, Token};
use std::alloc::Global;

impl Line {
    /// More of the command.
    fn more(self) -> More
        ensures { result ≡ record { line = self; passes_word = false } }
    {
        More {
            line: self,
            passes_word: false,
        }
    }
}

/// Ends a command.
fn end(out: &mut Vec<Event>, line: Line) -> Result<(), Stop>
    ensures { Steps result (end_step (unpaired line)) (λ _. command) out.old.items out.new.items }
{
    match line.unpaired() {
        None => {
            out.push(Event::End)?;
            Ok(())
        }
        Some(at) => Err(unfit(out, at)),
    }
}

/// Takes an option without a value.
fn flag(out: &mut Vec<Event>, line: Line, flag: Flag, at: usize) -> Result<Line, Stop>
    ensures { Steps result (flag_step (clash line flag) line flag at) (λ l. argument l)
        out.old.items out.new.items }
{
    match line.clash(flag) {
        None => {
            out.push(Event::Flag(flag))?;
            Ok(line.with_flag(flag, at))
        }
        Some(code) => Err(refuse(out, code, at)),
    }
}

/// Takes the value of an option that has one.
fn valued(
    alloc: Global,
    cursor: &mut Cursor<'_>,
    size: usize,
    out: &mut Vec<Event>,
    line: Line,
    choice: Choice,
    at: usize,
) -> Result<Line, Stop>
    requires { has_value choice ≡ true }
    ensures { Takes result size (option_step choice line at) (λ l. argument l) cursor.old cursor.new
        out.old.items out.new.items }
{
    match choice {
        Choice::Name => name(alloc, cursor, size, out, line),
        Choice::Period => period(alloc, cursor, size, out, line),
        Choice::Waveform => waveform(alloc, cursor, size, out, line),
        Choice::Objects(role) => objects(alloc, cursor, size, out, line, role),
        Choice::TimeUnit => time(cursor, size, out, line),
        Choice::CapacitanceUnit => capacitance(cursor, size, out, line),
        _ => unreachable!(),
    }
}

/// Takes an option, of which the word was taken.
fn option(
    alloc: Global,
    cursor: &mut Cursor<'_>,
    size: usize,
    out: &mut Vec<Event>,
    line: Line,
    choice: Choice,
    at: usize,
) -> Result<More, Stop>
    ensures { Takes result size (option_step choice line at) more_place cursor.old cursor.new
        out.old.items out.new.items }
{
    match choice {
        Choice::Flag(option) => Ok(flag(out, line, option, at)?.more()),
        Choice::NoEffect => Ok(line.more()),
        Choice::PassedOver => Ok(More {
            line,
            passes_word: true,
        }),
        Choice::LeftOut => Err(leave_out(out, at)),
        Choice::Unknown => Err(unfit(out, at)),
        _ => {
            let valued = valued(alloc, cursor, size, out, line, choice, at)?;
            Ok(valued.more())
        }
    }
}

/// Refuses what a command has no place for.
fn surplus(out: &mut Vec<Event>, line: Line, token: &Token<'_>) -> Stop
    ensures { (size : ℕ) (tokens : List Tok) → result ≡ Stop.Refused → out.new.items
        ≡ stepped size (surplus_step line (tok_of token.now)) tokens out.old.items }
{
    if line.command.is_derate() && is_word(token) {
        return leave_out(out, token.start);
    }
    unfit(out, token.start)
}

/// Takes a number, which was taken as a token.
fn number(
    alloc: Global,
    out: &mut Vec<Event>,
    line: Line,
    quantity: Quantity,
    token: &Token<'_>,
) -> Result<Line, Stop>
    ensures { Steps result (plain_step (asks.Number quantity) line (tok_of token.now))
        (λ l. argument l) out.old.items out.new.items }
{
    if !is_word(token) {
        return Err(unfit(out, token.start));
    }
    let text = name_of(alloc, token.text)?;
    out.push(Event::Number(quantity, text, token.start))?;
    Ok(line.with_number())
}

/// Takes a plain word, a list or brackets, of which the first token was taken.
fn plain(
    alloc: Global,
    cursor: &mut Cursor<'_>,
    size: usize,
    out: &mut Vec<Event>,
    line: Line,
    token: &Token<'_>,
) -> Result<Line, Stop>
    ensures { Takes result size (plain_step (asked line) line (tok_of token.now)) (λ l. argument l)
        cursor.old cursor.new out.old.items out.new.items }
{
    match line.asked() {
        Asked::Number(quantity) => {
            let l = number(alloc, out, line, quantity, token)?;
            Ok(l)
        }
        Asked::Objects(role) => named(alloc, cursor, size, out, line.with_objects(), role, token),
        Asked::Nothing => Err(surplus(out, line, token)),
    }
}

/// Takes an argument that begins with a word, which was taken as a token.
fn word(
    alloc: Global,
    cursor: &mut Cursor<'_>,
    size: usize,
    out: &mut Vec<Event>,
    line: Line,
    token: &Token<'_>,
) -> Result<More, Stop>
    requires word { is_word (tok_of token.now) ≡ true }
    requires more { ends_command (tok_of token.now) ≡ false }
    ensures { Takes result size (argument_step line (tok_of token.now)) more_place cursor.old
        cursor.new out.old.items out.new.items }
{
    if is_variable(token.text) {
        return Err(leave_out(out, token.start));
    }
    if is_option(token.text) {
        let choice = line.command.choice_of(token.text);
        return option(alloc, cursor, size, out, line, choice, token.start);
    }
    Ok(plain(alloc, cursor, size, out, line, token)?.more())
}

/// Takes an argument that begins with a mark, which was taken as a token.
fn mark(
    alloc: Global,
    cursor: &mut Cursor<'_>,
    size: usize,
    out: &mut Vec<Event>,
    line: Line,
    token: &Token<'_>,
) -> Result<More, Stop>
    requires word { is_word (tok_of token.now) ≡ false }
    requires more { ends_command (tok_of token.now) ≡ false }
    ensures { Takes result size (argument_step line (tok_of token.now)) more_place cursor.old
        cursor.new out.old.items out.new.items }
{
    if line.command.is_derate() && is_mark(token, b"[") {
        return Err(leave_out(out, token.start));
    }
    Ok(plain(alloc, cursor, size, out, line, token)?.more())
}

/// Takes what a command goes on with, of which the first token was taken; none where the command has
/// ended.
fn argument_from(
    alloc: Global,
    cursor: &mut Cursor<'_>,
    size: usize,
    out: &mut Vec<Event>,
    line: Line,
    token: &Token<'_>,
) -> Result<Option<More>, Stop>
    ensures { Takes result size (argument_step line (tok_of token.now)) place_behind cursor.old
        cursor.new out.old.items out.new.items }
{
    if ends_command(token) {
        end(out, line)?;
        return Ok(None);
    }
    if is_word(token) {
        return Ok(Some(word(alloc, cursor, size, out, line, token)?));
    }
    Ok(Some(mark(alloc, cursor, size, out, line, token)?))
}

/// Whether the token is a word that is passed over.
fn passes_over(more: More, token: &Token<'_>) -> bool
    ensures { result
        ≡
        (more.passes_word && is_word (tok_of token.now) && not
        (is_option (tok_of token.now).text)) }
{
    more.passes_word && is_word(token) && !is_option(token.text)
}

/// Takes what a command goes on with; none where the command has ended.
#[tactic(auto, unfolding(crate::specs::Grammar::events))]
fn argument(
    alloc: Global,
    cursor: &mut Cursor<'_>,
    size: usize,
    out: &mut Vec<Event>,
    more: More,
) -> Result<Option<More>, Stop>
    ensures reads { Reads result size (more_place more) place_behind cursor.old cursor.new
        out.old.items out.new.items }
    ensures shorter { IfOk result (λ found. OnSome found (length cursor.new < length cursor.old)) }
{
    match cursor.next() {
        None => {
            end(out, more.line)?;
            Ok(None)
        }
        Some(token) => {
            if passes_over(more, &token) {
                return Ok(Some(more.line.more()));
            }
            argument_from(alloc, cursor, size, out, more.line, &token)
        }
    }
}

/// Takes the arguments of a command and its end.
pub(crate) fn arguments(
    alloc: Global,
    cursor: &mut Cursor<'_>,
    size: usize,
    out: &mut Vec<Event>,
    line: Line,
) -> Result<(), Stop>
    ensures { Reads result size (argument line) (λ _. command) cursor.old cursor.new out.old.items
        out.new.items }
{
    let mut more = line.more();
    'each: while let Some(next) = argument(alloc, cursor, size, out, more)? {
        more = next;
    }
    Ok(())
}
