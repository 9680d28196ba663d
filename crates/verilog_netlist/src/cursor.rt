//! Steps that take one token.

ghost use Rattle.std.specs.Prelude.{◌≡◌, ◌++◌, ◌∷◌, [], true, MatchResult};
ghost use Rattle.sta_text.specs.Tokens.{tok_of};
ghost use Rattle.verilog_netlist.specs.Lexicon.{is_identifier, is_number};
ghost use Rattle.verilog_netlist.specs.Grammar.{fault, is_text, left_out, unexpected};
ghost use Rattle.verilog_netlist.specs.Reads.{Unfit};

use crate::events::Event;
use crate::lexicon::{is_identifier, is_number};
use sta_text::{Cursor, Token, Wrong};
use sta_units::Memory;
use std::alloc::AllocFailed;
use timing_defs::Code;

/// Why the reading of a text stops: want of memory, or a fault, which is the last event.
#[derive(Clone, Copy, Drop)]
pub(crate) enum Stop {
    Memory,
    Refused,
}

impl From<Memory> for Stop {
    ghost use Rattle.std.specs.Prelude.{◌≡◌};
    ghost use Rattle.verilog_netlist.specs.declared.cursor.Stop.TheVariants as stop;

    ghost from_gives = { λ _ told. told ≡ stop.Memory };

    fn from(_wanting: Memory) -> Stop {
        Stop::Memory
    }
}

impl<T: Drop> From<AllocFailed<T>> for Stop {
    ghost use Rattle.std.specs.Prelude.{◌≡◌};
    ghost use Rattle.verilog_netlist.specs.declared.cursor.Stop.TheVariants as stop;

    ghost from_gives = { λ _ told. told ≡ stop.Memory };

    fn from(_refused: AllocFailed<T>) -> Stop {
        Stop::Memory
    }
}

/// Writes an event.
pub(crate) fn write(out: &mut Vec<Event>, event: Event) -> Result<(), Stop>
    ensures { MatchResult result (λ _. out.new.items ≡ out.old.items ++ event ∷ [])
        (λ stop. stop ≡ Stop.Memory) }
{
    match out.push(event) {
        Ok(()) => Ok(()),
        Err(refused) => {
            drop(refused);
            Err(Stop::Memory)
        }
    }
}

/// Writes a fault, the last event.
fn refuse(out: &mut Vec<Event>, code: Code, at: usize) -> Stop
    ensures { result ≡ Stop.Refused → out.new.items ≡ out.old.items ++ fault code at ∷ [] }
{
    match write(out, Event::Fault(Wrong { code, at })) {
        Ok(()) => Stop::Refused,
        Err(stop) => stop,
    }
}

/// The text ends too early.
pub(crate) fn missing(out: &mut Vec<Event>, size: usize) -> Stop
    ensures { result ≡ Stop.Refused → out.new.items
        ≡ out.old.items ++ fault Code.VerilogBadToken size ∷ [] }
{
    refuse(out, Code::VerilogBadToken, size)
}

/// The text has no module.
pub(crate) fn no_module(out: &mut Vec<Event>, size: usize) -> Stop
    ensures { result ≡ Stop.Refused → out.new.items
        ≡ out.old.items ++ fault Code.VerilogNoModule size ∷ [] }
{
    refuse(out, Code::VerilogNoModule, size)
}

/// A construct is left out.
pub(crate) fn leave_out(out: &mut Vec<Event>, at: usize) -> Stop
    ensures { result ≡ Stop.Refused → out.new.items ≡ out.old.items ++ left_out at }
{
    refuse(out, Code::VerilogLeftOut, at)
}

/// A token does not fit.
pub(crate) fn unexpected(out: &mut Vec<Event>, size: usize, token: &Token<'_>) -> Stop
    ensures { result ≡ Stop.Refused → out.new.items
        ≡ out.old.items ++ unexpected size (tok_of token.now) }
{
    let at = if token.is_unclosed() {
        size
    } else {
        token.start
    };
    refuse(out, Code::VerilogBadToken, at)
}

/// Whether the token is these bytes.
pub(crate) fn is(token: &Token<'_>, text: &[u8]) -> bool
    ensures { result ≡ is_text (tok_of token.now) text.now }
{
    token.text == text
}

/// Takes the next token.
pub(crate) fn any<'a>(
    cursor: &mut Cursor<'a>,
    size: usize,
    out: &mut Vec<Event>,
) -> Result<Token<'a>, Stop>
    ensures { MatchResult result
        (λ t. (cursor.old ≡ tok_of t ∷ cursor.new) × (out.new.items ≡ out.old.items))
        (λ stop. stop ≡ Stop.Refused → (cursor.old ≡ [])
        × (out.new.items ≡ out.old.items ++ fault Code.VerilogBadToken size ∷ [])) }
{
    match cursor.next() {
        Some(token) => Ok(token),
        None => Err(missing(out, size)),
    }
}

/// Takes a token of these bytes.
pub(crate) fn text<'a>(
    cursor: &mut Cursor<'a>,
    size: usize,
    out: &mut Vec<Event>,
    wanted: &[u8],
) -> Result<Token<'a>, Stop>
    ensures { MatchResult result
        (λ t. (cursor.old ≡ tok_of t ∷ cursor.new) × (is_text (tok_of t) wanted.now ≡ true)
        × (out.new.items ≡ out.old.items))
        (λ stop. Unfit stop (λ t. is_text t wanted.now) size cursor.old out.old.items
        out.new.items) }
{
    match cursor.next() {
        Some(token) => {
            if is(&token, wanted) {
                return Ok(token);
            }
            Err(unexpected(out, size, &token))
        }
        None => Err(missing(out, size)),
    }
}

/// Takes an identifier.
pub(crate) fn identifier<'a>(
    cursor: &mut Cursor<'a>,
    size: usize,
    out: &mut Vec<Event>,
) -> Result<Token<'a>, Stop>
    ensures { MatchResult result
        (λ t. (cursor.old ≡ tok_of t ∷ cursor.new) × (is_identifier (tok_of t).text ≡ true)
        × (out.new.items ≡ out.old.items))
        (λ stop. Unfit stop (λ t. is_identifier t.text) size cursor.old out.old.items
        out.new.items) }
{
    match cursor.next() {
        Some(token) => {
            if is_identifier(token.text) {
                return Ok(token);
            }
            Err(unexpected(out, size, &token))
        }
        None => Err(missing(out, size)),
    }
}

/// Takes a number.
pub(crate) fn number<'a>(
    cursor: &mut Cursor<'a>,
    size: usize,
    out: &mut Vec<Event>,
) -> Result<Token<'a>, Stop>
    ensures { MatchResult result
        (λ t. (cursor.old ≡ tok_of t ∷ cursor.new) × (is_number (tok_of t).text ≡ true)
        × (out.new.items ≡ out.old.items))
        (λ stop. Unfit stop (λ t. is_number t.text) size cursor.old out.old.items out.new.items) }
{
    match cursor.next() {
        Some(token) => {
            if is_number(token.text) {
                return Ok(token);
            }
            Err(unexpected(out, size, &token))
        }
        None => Err(missing(out, size)),
    }
}
