//! Steps that take one token.

ghost use Rattle.std.specs.Prelude.{◌≡◌, ◌++◌, ◌∷◌, [], true, false, MatchResult};
ghost use Rattle.sta_text.specs.Tokens.{tok_of};
ghost use Rattle.sdc_reader.specs.Words.{is_word};
ghost use Rattle.sdc_reader.specs.Grammar.{fault, is_value, value_code, is_object, object_code};
ghost use Rattle.sdc_reader.specs.declared.events.Event.TheVariants as event;

use crate::commands::{Getter, Role};
use crate::events::Event;
use crate::words::{is_option, is_pin, is_variable, is_wild, is_word, name_of};
use sta_text::{Cursor, Token, Wrong};
use sta_units::Memory;
use std::alloc::{AllocFailed, Global};
use timing_defs::Code;

/// Why the reading of a text stops: want of memory, or a fault, which is the last event.
#[derive(Clone, Copy, Drop)]
pub(crate) enum Stop {
    Memory,
    Refused,
}

impl From<Memory> for Stop {
    ghost use Rattle.std.specs.Prelude.{◌≡◌};
    ghost use Rattle.sdc_reader.specs.declared.cursor.Stop.TheVariants as stop;

    ghost from_gives = { λ _ told. told ≡ stop.Memory };

    fn from(_wanting: Memory) -> Stop {
        Stop::Memory
    }
}

impl<T: Drop> From<AllocFailed<T>> for Stop {
    ghost use Rattle.std.specs.Prelude.{◌≡◌};
    ghost use Rattle.sdc_reader.specs.declared.cursor.Stop.TheVariants as stop;

    ghost from_gives = { λ _ told. told ≡ stop.Memory };

    fn from(_refused: AllocFailed<T>) -> Stop {
        Stop::Memory
    }
}

/// Writes a fault, the last event.
pub(crate) fn refuse(out: &mut Vec<Event>, code: Code, at: usize) -> Stop
    ensures { result ≡ Stop.Refused → out.new.items ≡ out.old.items ++ fault code at ∷ [] }
{
    match out.push(Event::Fault(Wrong { code, at })) {
        Ok(()) => Stop::Refused,
        Err(_) => Stop::Memory,
    }
}

/// A word does not fit, or is missing.
pub(crate) fn unfit(out: &mut Vec<Event>, at: usize) -> Stop
    ensures { result ≡ Stop.Refused → out.new.items
        ≡ out.old.items ++ fault Code.SdcBadWord at ∷ [] }
{
    refuse(out, Code::SdcBadWord, at)
}

/// A command or an option is left out.
pub(crate) fn leave_out(out: &mut Vec<Event>, at: usize) -> Stop
    ensures { result ≡ Stop.Refused → out.new.items
        ≡ out.old.items ++ fault Code.SdcLeftOut at ∷ [] }
{
    refuse(out, Code::SdcLeftOut, at)
}

/// Takes the next token.
pub(crate) fn any<'a>(
    cursor: &mut Cursor<'a>,
    size: usize,
    out: &mut Vec<Event>,
) -> Result<Token<'a>, Stop>
    ensures { MatchResult result
        (λ t. (cursor.old ≡ tok_of t ∷ cursor.new) × (out.new.items ≡ out.old.items))
        (λ stop. stop ≡ Stop.Refused → (cursor.old ≡ [])
        × (out.new.items ≡ out.old.items ++ fault Code.SdcBadWord size ∷ [])) }
{
    match cursor.next() {
        Some(token) => Ok(token),
        None => Err(unfit(out, size)),
    }
}

#[tactic(auto, unfolding(crate::specs::Grammar::is_value))]
fn is_value(token: &Token<'_>) -> bool
    ensures { result ≡ is_value (tok_of token.now) }
{
    is_word(token) && !is_variable(token.text) && !is_option(token.text)
}

/// What is wrong with a token that is no value: it is a variable, or does not fit.
pub(crate) fn value_code(token: &Token<'_>) -> Code
    ensures { result ≡ value_code (tok_of token.now) }
{
    if is_word(token) && is_variable(token.text) {
        Code::SdcLeftOut
    } else {
        Code::SdcBadWord
    }
}

/// Checks that the token is a word where a value is asked, outside lists.
#[tactic(auto, unfolding(crate::specs::Grammar::is_value))]
pub(crate) fn check_value(out: &mut Vec<Event>, token: &Token<'_>) -> Result<(), Stop>
    ensures { MatchResult result
        (λ _. (is_value (tok_of token.now) ≡ true) × (is_word (tok_of token.now) ≡ true)
        × (out.new.items ≡ out.old.items))
        (λ stop. stop ≡ Stop.Refused → (is_value (tok_of token.now) ≡ false)
        ×
        (out.new.items
        ≡ out.old.items ++ fault (value_code (tok_of token.now)) token.now.start ∷ [])) }
{
    if is_value(token) {
        return Ok(());
    }
    Err(refuse(out, value_code(token), token.start))
}

#[tactic(auto, unfolding(crate::specs::Grammar::is_object))]
fn is_object(getter: Getter, word: &[u8]) -> bool
    ensures { result ≡ is_object getter word.now }
{
    !is_wild(word) && (!getter.is_pins() || is_pin(word))
}

fn object_code(word: &[u8]) -> Code
    ensures { result ≡ object_code word.now }
{
    if is_wild(word) {
        Code::SdcLeftOut
    } else {
        Code::SdcBadWord
    }
}

/// Checks that a word is that of an object.
pub(crate) fn check_object(
    out: &mut Vec<Event>,
    getter: Getter,
    token: &Token<'_>,
) -> Result<(), Stop>
    ensures { MatchResult result
        (λ _. (is_object getter token.now.text.now ≡ true) × (out.new.items ≡ out.old.items))
        (λ stop. stop ≡ Stop.Refused → (is_object getter token.now.text.now ≡ false)
        ×
        (out.new.items
        ≡ out.old.items ++ fault (object_code token.now.text.now) token.now.start ∷ [])) }
{
    if is_object(getter, token.text) {
        return Ok(());
    }
    Err(refuse(out, object_code(token.text), token.start))
}

/// Writes an object, of which the word was checked.
pub(crate) fn push_object(
    alloc: Global,
    out: &mut Vec<Event>,
    role: Role,
    getter: Getter,
    token: &Token<'_>,
) -> Result<(), Stop>
    requires { is_word (tok_of token.now) ≡ true }
    ensures { MatchResult result
        (λ _. out.new.items
        ≡ out.old.items ++ event.Object role getter token.now.text.now token.now.start ∷ [])
        (λ stop. stop ≡ Stop.Memory) }
{
    let name = name_of(alloc, token.text)?;
    out.push(Event::Object(role, getter, name, token.start))?;
    Ok(())
}
