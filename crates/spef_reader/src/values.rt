//! The values of a text of parasitics, and the factors of its units.

ghost use Rattle.std.specs.Prelude.{◌≡◌, ◌≤◌, ◌++◌, List, length, Some, None, is_some, true, false, option_and_then, not, take, IfOk, IfSome, MatchOption};
ghost use Rattle.std.specs.List.{list_all, prefix_len};
ghost use Rattle.sta_units.specs.Decimal.{decimal_of};
ghost use Rattle.sta_text.specs.Tokens.{tok_of};
ghost use Rattle.spef_reader.specs.declared.events.Event.{Event};
ghost use Rattle.spef_reader.specs.Words.{is_decimal, is_no_colon, before_colon, behind_colon, is_triplet, written, size_of, size_in, value_of, is_too_long, is_sizeless, lacks_size, is_no_value, is_nought, is_of_mantissa, is_one, behind_noughts, has_one, power, power_of};
ghost use Rattle.spef_reader.specs.Grammar.{bad_number, noted};

use crate::events::Event;
use crate::sizes::Size;
use crate::tokens::note;
use sta_text::Token;
use sta_units::{DecFault, Memory, Unit, decimal};
use timing_defs::Code;

/// Whether the word is a decimal, which is the same in all units; in this one values of common lengths are not divided.
#[tactic(auto, using(crate::proofs::ValueLemmas::decimal_in_any))]
fn is_decimal(word: &[u8]) -> bool
    ensures { result ≡ is_decimal word.now }
{
    match decimal(word, Unit { ten: 40 }) {
        Err(DecFault::NotDecimal) => false,
        _ => true,
    }
}

fn colon_place(word: &[u8]) -> usize
    ensures value { result ≡ prefix_len is_no_colon word.now }
    ensures within { result ≤ length word.now }
{
    word.iter().take_while(|byte| **byte != b':').count()
}

fn before_colon(word: &[u8]) -> &[u8]
    ensures { result.now ≡ before_colon word.now }
{
    word.split_at(colon_place(word)).0
}

fn behind_colon(word: &[u8]) -> &[u8]
    ensures { result.now ≡ behind_colon word.now }
{
    let place = colon_place(word);
    if place < word.len() {
        word.split_at(place + 1).1
    } else {
        &[]
    }
}

fn is_triplet(word: &[u8]) -> bool
    ensures { result ≡ is_triplet word.now }
{
    let behind = behind_colon(word);
    is_decimal(before_colon(word))
        && is_decimal(before_colon(behind))
        && is_decimal(behind_colon(behind))
}

/// The decimal that a value gives: a decimal alone, or the second of three with colons between.
#[tactic(auto, unfolding(crate::specs::Words::written))]
pub(crate) fn written(word: &[u8]) -> Option<&[u8]>
    ensures { MatchOption result (written word.now ≡ None)
        (λ found. written word.now ≡ Some found.now) }
{
    if is_decimal(word) {
        return Some(word);
    }
    if is_triplet(word) {
        return Some(before_colon(behind_colon(word)));
    }
    None
}

/// The size of a decimal in a unit; none where it is too long, too great or negative.
fn size(text: &[u8], unit: Unit) -> Option<Size>
    ensures { result ≡ size_of (decimal_of text.now unit.ten) }
{
    match decimal(text, unit) {
        Ok(number) if 0 <= number => Some(Size::new(number.unsigned_abs())),
        _ => None,
    }
}

fn size_in(unit: Option<Unit>, text: &[u8]) -> Option<Size>
    ensures { result ≡ size_in unit text.now }
{
    match unit {
        None => None,
        Some(unit) => size(text, unit),
    }
}

/// The size of a value in a unit; none where it is no value, or the unit is not known. A decimal alone is looked at once.
#[tactic(auto, using(crate::proofs::ValueLemmas::sized_value))]
pub(crate) fn value_of(unit: Option<Unit>, word: &[u8]) -> Option<Size>
    ensures { result ≡ value_of unit word.now }
{
    match size_in(unit, word) {
        Some(size) => Some(size),
        None => written_size(unit, word),
    }
}

fn written_size(unit: Option<Unit>, word: &[u8]) -> Option<Size>
    ensures { result ≡ value_of unit word.now }
{
    match written(word) {
        None => None,
        Some(text) => size_in(unit, text),
    }
}

/// The size of a word that has the form of a value; none where it has not.
#[tactic(auto, using(crate::proofs::ValueLemmas::sized_form))]
pub(crate) fn formed_value(unit: Option<Unit>, word: &[u8]) -> Option<Option<Size>>
    ensures { MatchOption result (is_some (written word.now) ≡ false)
        (λ size. (is_some (written word.now) ≡ true) × (size ≡ value_of unit word.now)) }
{
    let size = value_of(unit, word);
    if size.is_some() || written(word).is_some() {
        Some(size)
    } else {
        None
    }
}

fn is_sizeless(unit: Option<Unit>, text: &[u8]) -> bool
    ensures { result ≡ is_sizeless unit text.now }
{
    match unit {
        None => match decimal(text, Unit { ten: 0 }) {
            Err(DecFault::TooLong) => true,
            _ => false,
        },
        Some(unit) => size(text, unit).is_none(),
    }
}

/// Whether the word is no value in the unit; where the unit is not known its size is not looked at.
fn is_no_value(unit: Option<Unit>, word: &[u8]) -> bool
    ensures { result ≡ is_no_value unit word.now }
{
    match written(word) {
        None => true,
        Some(text) => is_sizeless(unit, text),
    }
}

/// Notes the fault of a value, of which this is the size.
#[tactic(auto, using(crate::proofs::ValueLemmas::flawed_unsized))]
pub(crate) fn note_value(
    out: &mut Vec<Event>,
    unit: Option<Unit>,
    token: &Token<'_>,
    size: &Option<Size>,
) -> Result<(), Memory>
    requires { size.now ≡ value_of unit (tok_of token.now).text }
    ensures { IfOk result
        (λ _. (rest : List Event) → out.new.items ++ rest
        ≡ out.old.items ++ noted (is_no_value unit (tok_of token.now).text)
        (bad_number token.now.start) rest) }
{
    let flawed = size.is_none() && is_no_value(unit, token.text);
    note(out, flawed, Code::SpefBadNumber, token.start)
}

/// Reads a value, and notes its fault.
pub(crate) fn value(
    out: &mut Vec<Event>,
    unit: Option<Unit>,
    token: &Token<'_>,
) -> Result<Option<Size>, Memory>
    ensures { IfOk result
        (λ size. (size ≡ value_of unit (tok_of token.now).text)
        ×
        ((rest : List Event) → out.new.items ++ rest
        ≡ out.old.items ++ noted (is_no_value unit (tok_of token.now).text)
        (bad_number token.now.start) rest)) }
{
    let size = value_of(unit, token.text);
    note_value(out, unit, token, &size)?;
    Ok(size)
}

fn is_of_mantissa(byte: u8) -> bool
    ensures { result ≡ is_of_mantissa byte }
{
    !(byte == b'e' || byte == b'E')
}

fn mantissa_len(word: &[u8]) -> usize
    ensures value { result ≡ prefix_len is_of_mantissa word.now }
    ensures within { result ≤ length word.now }
{
    word.iter()
        .take_while(|byte| is_of_mantissa(**byte))
        .count()
}

fn mantissa(word: &[u8]) -> &[u8]
    ensures { result.now ≡ take (prefix_len is_of_mantissa word.now) word.now }
{
    word.split_at(mantissa_len(word)).0
}

fn is_nought(byte: u8) -> bool
    ensures { result ≡ is_nought byte }
{
    byte == b'0' || byte == b'.' || byte == b'+'
}

fn noughts_len(bytes: &[u8]) -> usize
    ensures value { result ≡ prefix_len is_nought bytes.now }
    ensures within { result ≤ length bytes.now }
{
    bytes.iter().take_while(|byte| is_nought(**byte)).count()
}

fn behind_noughts(bytes: &[u8]) -> &[u8]
    ensures { result.now ≡ behind_noughts bytes.now }
{
    bytes.split_at(noughts_len(bytes)).1
}

fn are_noughts(bytes: &[u8]) -> bool
    ensures { result ≡ list_all is_nought bytes.now }
{
    bytes.iter().all(|byte| is_nought(*byte))
}

fn is_one(bytes: &[u8]) -> bool
    ensures { result ≡ is_one bytes.now }
{
    match bytes.split_first() {
        None => false,
        Some((first, rest)) => *first == b'1' && are_noughts(rest),
    }
}

fn has_one(word: &[u8]) -> bool
    ensures { result ≡ has_one word.now }
{
    is_one(behind_noughts(mantissa(word)))
}

fn power(number: u64) -> Option<u8>
    ensures { result ≡ power number }
{
    if number == 1 {
        Some(0)
    } else if number == 10 {
        Some(1)
    } else if number == 100 {
        Some(2)
    } else if number == 1_000 {
        Some(3)
    } else if number == 10_000 {
        Some(4)
    } else if number == 100_000 {
        Some(5)
    } else if number == 1_000_000 {
        Some(6)
    } else {
        None
    }
}

/// The power of ten of a thousand times a factor, where the factor is a power of ten from 0.001 to
/// 1000.
#[tactic(auto, unfolding(crate::specs::Words::power_of))]
pub(crate) fn power_of(word: &[u8]) -> Option<u8>
    ensures value { result ≡ power_of word.now }
    ensures bound { IfSome result (λ k. k ≤ 6) }
{
    if !has_one(word) {
        return None;
    }
    match size(word, Unit { ten: 3 }) {
        None => None,
        Some(size) => power(size.get()),
    }
}
