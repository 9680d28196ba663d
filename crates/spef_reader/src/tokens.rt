//! Steps that take tokens.

ghost use Rattle.std.specs.Prelude.{◌≡◌, ◌++◌, ◌∷◌, [], List, Bool, true, false, ◌&&◌, drop, is_some, MatchResult, MatchOption, IfOk};
ghost use Rattle.sta_units.specs.Decimal.{is_whole};
ghost use Rattle.sta_text.specs.Tokens.{Tok, tok_of, tokens_of, is_bad};
ghost use Rattle.timing_defs.specs.declared.texts.Style.TheVariants as style;
ghost use Rattle.spef_reader.specs.declared.events.Event.{Event};
ghost use Rattle.spef_reader.specs.Ahead.{first_fits};
ghost use Rattle.spef_reader.specs.Words.{is_header_word, is_index, is_pin_row, mark_of};
ghost use Rattle.spef_reader.specs.Grammar.{fault, is_text, is_word, is_string, left_out, unexpected, misfit_at, noted};

use crate::context::Context;
use crate::events::Event;
use crate::scan::Scan;
use crate::words::{is_header_word, is_index, is_pin_row, is_text, is_whole, mark_of};
use sta_text::{Token, Wrong, begins};
use sta_units::Memory;
use std::alloc::AllocFailed;
use std::marker::Model;
use timing_defs::{Code, Sort};

/// Why the reading of a text stops: want of memory, or a fault, which is the last event.
#[derive(Clone, Copy, Drop)]
pub(crate) enum Stop {
    Memory,
    Refused,
}

impl From<Memory> for Stop {
    ghost use Rattle.std.specs.Prelude.{◌≡◌};
    ghost use Rattle.spef_reader.specs.declared.tokens.Stop.TheVariants as stop;

    ghost from_gives = { λ _ told. told ≡ stop.Memory };

    fn from(_wanting: Memory) -> Stop {
        Stop::Memory
    }
}

impl<T: Drop> From<AllocFailed<T>> for Stop {
    ghost use Rattle.std.specs.Prelude.{◌≡◌};
    ghost use Rattle.spef_reader.specs.declared.tokens.Stop.TheVariants as stop;

    ghost from_gives = { λ _ told. told ≡ stop.Memory };

    fn from(_refused: AllocFailed<T>) -> Stop {
        Stop::Memory
    }
}

/// The tokens that are left, with a look at the first. Contracts see their list.
#[derive(Drop)]
pub(crate) struct Tokens<'a> {
    first: Option<Token<'a>>,
    behind: Scan<'a>,
}

impl<'a> Model for Tokens<'a> {
    ghost use Rattle.std.specs.Prelude.{List};
    ghost use Rattle.sta_text.specs.Tokens.{Tok};
    ghost use Rattle.spef_reader.specs.Ahead.{ahead};

    ghost Value = { List Tok };

    ghost view = { λ s. ahead s.first s.behind };
}

/// Whether the token is these bytes.
pub(crate) fn is(token: &Token<'_>, text: &[u8]) -> bool
    ensures { result ≡ is_text (tok_of token.now) text.now }
{
    is_text(token.text, text)
}

pub(crate) fn is_word(token: &Token<'_>) -> bool
    ensures { result ≡ is_word (tok_of token.now) }
{
    match token.sort {
        Sort::Word => true,
        _ => false,
    }
}

pub(crate) fn is_string(token: &Token<'_>) -> bool
    ensures { result ≡ is_string (tok_of token.now) }
{
    match token.sort {
        Sort::Quoted => true,
        _ => false,
    }
}

/// Whether no style of token has it: an unclosed string or comment, or a byte that stands nowhere.
pub(crate) fn is_bad(token: &Token<'_>) -> bool
    ensures { result ≡ is_bad (tok_of token.now).sort }
{
    match token.sort {
        Sort::Bad => true,
        _ => false,
    }
}

fn is_mark_word(token: &Token<'_>) -> bool
    ensures { result ≡ (is_word (tok_of token.now) && is_some (mark_of token.now.text.now)) }
{
    is_word(token) && mark_of(token.text).is_some()
}

impl<'a> Tokens<'a> {
    /// The tokens of a text.
    pub(crate) fn new(bytes: &'a [u8]) -> Tokens<'a>
        ensures { result ≡ tokens_of style.Spef bytes.entry.now }
    {
        let mut behind = Scan::new(bytes);
        Tokens {
            first: behind.next(),
            behind,
        }
    }

    /// The first token; none exactly where no token is left.
    pub(crate) fn peek(&self) -> Option<Token<'a>>
        ensures { MatchOption result (self.now ≡ []) (λ t. self.now ≡ tok_of t ∷ drop 1 self.now) }
    {
        self.first
    }

    /// Takes the first token; none exactly where no token is left.
    pub(crate) fn next(&mut self) -> Option<Token<'a>>
        ensures { MatchOption result ((self.old ≡ []) × (self.new ≡ []))
            (λ t. self.old ≡ tok_of t ∷ self.new) }
    {
        match self.first {
            None => None,
            Some(token) => {
                self.first = self.behind.next();
                Some(token)
            }
        }
    }

    /// Takes the first token where it is these bytes.
    pub(crate) fn take_text(&mut self, wanted: &[u8]) -> Option<Token<'a>>
        ensures { MatchOption result
            ((first_fits (λ t. is_text t wanted.now) self.old ≡ false) × (self.new ≡ self.old))
            (λ t. (self.old ≡ tok_of t ∷ self.new) × (is_text (tok_of t) wanted.now ≡ true)) }
    {
        match self.peek() {
            Some(token) if is(&token, wanted) => self.next(),
            _ => None,
        }
    }

    /// Takes the first token where it is a string.
    pub(crate) fn take_string(&mut self) -> Option<Token<'a>>
        ensures { MatchOption result
            ((first_fits is_string self.old ≡ false) × (self.new ≡ self.old))
            (λ t. (self.old ≡ tok_of t ∷ self.new) × (is_string (tok_of t) ≡ true)) }
    {
        match self.peek() {
            Some(token) if is_string(&token) => self.next(),
            _ => None,
        }
    }

    /// Takes the first token where it is a mark of buses.
    pub(crate) fn take_mark(&mut self) -> Option<Token<'a>>
        ensures { MatchOption result
            ((first_fits (λ t. is_word t && is_some (mark_of t.text)) self.old ≡ false)
            × (self.new ≡ self.old))
            (λ t. (self.old ≡ tok_of t ∷ self.new)
            × ((is_word (tok_of t) && is_some (mark_of (tok_of t).text)) ≡ true)) }
    {
        match self.peek() {
            Some(token) if is_mark_word(&token) => self.next(),
            _ => None,
        }
    }

    /// Takes the first token where it is decimal digits.
    pub(crate) fn take_digits(&mut self) -> Option<Token<'a>>
        ensures { MatchOption result
            ((first_fits (λ t. is_whole t.text) self.old ≡ false) × (self.new ≡ self.old))
            (λ t. (self.old ≡ tok_of t ∷ self.new) × (is_whole (tok_of t).text ≡ true)) }
    {
        match self.peek() {
            Some(token) if is_whole(token.text) => self.next(),
            _ => None,
        }
    }

    /// Takes the first token where it begins a line of the header.
    pub(crate) fn take_header_word(&mut self) -> Option<Token<'a>>
        ensures { MatchOption result
            ((first_fits (λ t. is_header_word t.text) self.old ≡ false) × (self.new ≡ self.old))
            (λ t. (self.old ≡ tok_of t ∷ self.new) × (is_header_word (tok_of t).text ≡ true)) }
    {
        match self.peek() {
            Some(token) if is_header_word(token.text) => self.next(),
            _ => None,
        }
    }

    /// Takes the first token where it begins a connection of a pin.
    pub(crate) fn take_pin_row(&mut self) -> Option<Token<'a>>
        ensures { MatchOption result
            ((first_fits (λ t. is_pin_row t.text) self.old ≡ false) × (self.new ≡ self.old))
            (λ t. (self.old ≡ tok_of t ∷ self.new) × (is_pin_row (tok_of t).text ≡ true)) }
    {
        match self.peek() {
            Some(token) if is_pin_row(token.text) => self.next(),
            _ => None,
        }
    }

    /// Takes the first token where it is an index.
    pub(crate) fn take_index(&mut self) -> Option<Token<'a>>
        ensures { MatchOption result
            ((first_fits (λ t. is_index t.text) self.old ≡ false) × (self.new ≡ self.old))
            (λ t. (self.old ≡ tok_of t ∷ self.new) × (is_index (tok_of t).text ≡ true)) }
    {
        match self.peek() {
            Some(token) if is_index(token.text) => self.next(),
            _ => None,
        }
    }
}

/// Writes an event.
pub(crate) fn push(out: &mut Vec<Event>, event: Event) -> Result<(), Memory>
    ensures { IfOk result (λ _. out.new.items ≡ out.old.items ++ event ∷ []) }
{
    match out.push(event) {
        Ok(()) => Ok(()),
        Err(_) => Err(Memory),
    }
}

/// Writes a fault, the last event.
fn refuse(out: &mut Vec<Event>, code: Code, at: usize) -> Stop
    ensures { result ≡ Stop.Refused → out.new.items ≡ out.old.items ++ fault code at ∷ [] }
{
    match out.push(Event::Fault(Wrong { code, at })) {
        Ok(()) => Stop::Refused,
        Err(_) => Stop::Memory,
    }
}

/// Writes a fault where there is one, and reading goes on.
pub(crate) fn note(out: &mut Vec<Event>, flawed: bool, code: Code, at: usize) -> Result<(), Memory>
    ensures { IfOk result
        (λ _. (rest : List Event) → out.new.items ++ rest
        ≡ out.old.items ++ noted flawed (fault code at) rest) }
{
    if !flawed {
        return Ok(());
    }
    push(out, Event::Fault(Wrong { code, at }))
}

/// The text ends too early, or its header lacks something.
pub(crate) fn missing(context: &Context<'_>, out: &mut Vec<Event>) -> Stop
    ensures { result ≡ Stop.Refused → out.new.items
        ≡ out.old.items ++ fault Code.SpefBadHeader context.now.size ∷ [] }
{
    refuse(out, Code::SpefBadHeader, context.size)
}

/// A construct is left out.
pub(crate) fn leave_out(out: &mut Vec<Event>, at: usize) -> Stop
    ensures { result ≡ Stop.Refused → out.new.items ≡ out.old.items ++ left_out at }
{
    refuse(out, Code::SpefLeftOut, at)
}

fn misfit_at(context: &Context<'_>, strings: bool, token: &Token<'_>) -> usize
    ensures { result ≡ misfit_at context.now strings (tok_of token.now) }
{
    if token.is_unclosed() && (strings || !begins(b'"', token.text)) {
        context.size
    } else {
        token.start
    }
}

/// A token does not fit, where strings may stand or may not.
pub(crate) fn unexpected(
    context: &Context<'_>,
    out: &mut Vec<Event>,
    strings: bool,
    token: &Token<'_>,
) -> Stop
    ensures { result ≡ Stop.Refused → out.new.items
        ≡ out.old.items ++ unexpected context.now strings (tok_of token.now) }
{
    refuse(out, Code::SpefBadHeader, misfit_at(context, strings, token))
}

/// Takes the next token.
pub(crate) fn any<'a>(
    context: &Context<'_>,
    tokens: &mut Tokens<'a>,
    out: &mut Vec<Event>,
) -> Result<Token<'a>, Stop>
    ensures { MatchResult result
        (λ t. (tokens.old ≡ tok_of t ∷ tokens.new) × (out.new.items ≡ out.old.items))
        (λ stop. stop ≡ Stop.Refused → (tokens.old ≡ [])
        × (out.new.items ≡ out.old.items ++ fault Code.SpefBadHeader context.now.size ∷ [])) }
{
    match tokens.next() {
        Some(token) => Ok(token),
        None => Err(missing(context, out)),
    }
}
