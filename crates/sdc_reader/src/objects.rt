//! Objects of a command: words, lists, and what is got in brackets.

ghost use Rattle.std.specs.Prelude.{◌≡◌, ◌≤◌, ◌<◌, ◌∷◌, ◌++◌, [], Bool, ℕ, List, true, false, codes, length, IfOk, IsTrue, MatchResult, if◌then◌else◌, Option, Some, None};
ghost use Rattle.sta_text.specs.Tokens.{Tok, tok_of};
ghost use Rattle.sdc_reader.specs.Words.{is_mark};
ghost use Rattle.sdc_reader.specs.Grammar.{named_step, listed_step, objects, argument, listed, getting, got, closing};
ghost use Rattle.sdc_reader.specs.Reads.{Reads, Takes, Steps, list_place};

use crate::commands::{Getter, Line, Listing, Role, getter_of, is_left_out_getter};
use crate::cursor::{
    Stop, any, check_object, check_value, leave_out, push_object, refuse, unfit, value_code,
};
use crate::events::Event;
use crate::words::{is_mark, is_word};
use sta_text::{Cursor, Token};
use std::alloc::Global;

/// Takes a word of a list, which was taken as a token.
fn listed_word(
    alloc: Global,
    out: &mut Vec<Event>,
    list: Listing,
    filled: bool,
    token: &Token<'_>,
) -> Result<(), Stop>
    requires { is_mark (tok_of token.now) (codes "}") ≡ false }
    ensures { Steps result (listed_step list filled (tok_of token.now)) (λ _. listed list true)
        out.old.items out.new.items }
{
    if !is_word(token) || (list.role.is_single() && filled) {
        return Err(unfit(out, token.start));
    }
    check_object(out, list.getter, token)?;
    push_object(alloc, out, list.role, list.getter, token)
}

/// Takes a word of a list or its end; whether the list goes on.
#[tactic(auto, unfolding(crate::specs::Grammar::events))]
fn more_listed(
    alloc: Global,
    cursor: &mut Cursor<'_>,
    size: usize,
    out: &mut Vec<Event>,
    list: Listing,
    filled: bool,
) -> Result<bool, Stop>
    ensures reads { Reads result size (listed list filled) (λ more. list_place list more) cursor.old
        cursor.new out.old.items out.new.items }
    ensures shorter { IfOk result (λ _. length cursor.new < length cursor.old) }
{
    let token = any(cursor, size, out)?;
    if !is_mark(&token, b"}") {
        listed_word(alloc, out, list, filled, &token)?;
        return Ok(true);
    }
    if list.role.is_single() && !filled {
        return Err(unfit(out, token.start));
    }
    Ok(false)
}

/// Takes the closing bracket.
#[tactic(auto, unfolding(crate::specs::Grammar::events))]
fn closing(
    cursor: &mut Cursor<'_>,
    size: usize,
    out: &mut Vec<Event>,
    line: Line,
) -> Result<Line, Stop>
    ensures { Reads result size (closing line) (λ l. argument l) cursor.old cursor.new out.old.items
        out.new.items }
{
    let token = any(cursor, size, out)?;
    if is_mark(&token, b"]") {
        return Ok(line);
    }
    Err(refuse(out, value_code(&token), token.start))
}

/// Takes a list of objects, of which the opening brace was taken, and the closing bracket where it
/// stands in brackets.
fn list(
    alloc: Global,
    cursor: &mut Cursor<'_>,
    size: usize,
    out: &mut Vec<Event>,
    list: Listing,
) -> Result<Line, Stop>
    ensures { Reads result size (listed list false) (λ l. argument l) cursor.old cursor.new
        out.old.items out.new.items }
{
    let mut filled = false;
    'each: while more_listed(alloc, cursor, size, out, list, filled)? {
        filled = true;
    }
    if list.bracketed {
        return closing(cursor, size, out, list.line);
    }
    Ok(list.line)
}

/// Takes what is got in brackets, a word or a list, and the closing bracket.
#[tactic(auto, unfolding(crate::specs::Grammar::events))]
fn got(
    alloc: Global,
    cursor: &mut Cursor<'_>,
    size: usize,
    out: &mut Vec<Event>,
    line: Line,
    role: Role,
    getter: Getter,
) -> Result<Line, Stop>
    ensures { Reads result size (got line role getter) (λ l. argument l) cursor.old cursor.new
        out.old.items out.new.items }
{
    let token = any(cursor, size, out)?;
    if is_mark(&token, b"{") {
        let listing = Listing {
            line,
            role,
            getter,
            bracketed: true,
        };
        return list(alloc, cursor, size, out, listing);
    }
    check_value(out, &token)?;
    check_object(out, getter, &token)?;
    push_object(alloc, out, role, getter, &token)?;
    closing(cursor, size, out, line)
}

/// Takes objects in brackets, of which the opening bracket was taken.
#[tactic(auto, unfolding(crate::specs::Grammar::events))]
fn brackets(
    alloc: Global,
    cursor: &mut Cursor<'_>,
    size: usize,
    out: &mut Vec<Event>,
    line: Line,
    role: Role,
) -> Result<Line, Stop>
    ensures { Reads result size (getting line role) (λ l. argument l) cursor.old cursor.new
        out.old.items out.new.items }
{
    let token = any(cursor, size, out)?;
    check_value(out, &token)?;
    match getter_of(token.text) {
        None => {
            if is_left_out_getter(token.text) {
                return Err(leave_out(out, token.start));
            }
            Err(unfit(out, token.start))
        }
        Some(getter) => {
            if !role.is_asked(getter) {
                return Err(unfit(out, token.start));
            }
            got(alloc, cursor, size, out, line, role, getter)
        }
    }
}

/// Takes an object that is a word, which was taken as a token.
fn named_word(
    alloc: Global,
    out: &mut Vec<Event>,
    line: Line,
    role: Role,
    token: &Token<'_>,
) -> Result<Line, Stop>
    requires list { is_mark (tok_of token.now) (codes "{") ≡ false }
    requires brackets { is_mark (tok_of token.now) (codes "[") ≡ false }
    ensures { Steps result (named_step line role (tok_of token.now)) (λ l. argument l) out.old.items
        out.new.items }
{
    check_value(out, token)?;
    check_object(out, Getter::Plain, token)?;
    out.push(Event::Objects(role))?;
    push_object(alloc, out, role, Getter::Plain, token)?;
    Ok(line)
}

/// Takes objects, of which the first token was taken.
pub(crate) fn named(
    alloc: Global,
    cursor: &mut Cursor<'_>,
    size: usize,
    out: &mut Vec<Event>,
    line: Line,
    role: Role,
    token: &Token<'_>,
) -> Result<Line, Stop>
    ensures { Takes result size (named_step line role (tok_of token.now)) (λ l. argument l)
        cursor.old cursor.new out.old.items out.new.items }
{
    if is_mark(token, b"{") {
        out.push(Event::Objects(role))?;
        let listing = Listing {
            line,
            role,
            getter: Getter::Plain,
            bracketed: false,
        };
        return list(alloc, cursor, size, out, listing);
    }
    if is_mark(token, b"[") {
        out.push(Event::Objects(role))?;
        return brackets(alloc, cursor, size, out, line, role);
    }
    let l = named_word(alloc, out, line, role, token)?;
    Ok(l)
}

/// Takes the objects behind an option.
#[tactic(auto, unfolding(crate::specs::Grammar::events))]
pub(crate) fn objects(
    alloc: Global,
    cursor: &mut Cursor<'_>,
    size: usize,
    out: &mut Vec<Event>,
    line: Line,
    role: Role,
) -> Result<Line, Stop>
    ensures { Reads result size (objects line role) (λ l. argument l) cursor.old cursor.new
        out.old.items out.new.items }
{
    let token = any(cursor, size, out)?;
    named(alloc, cursor, size, out, line, role, &token)
}
