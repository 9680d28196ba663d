//! Numbers and names among the words of a line.

ghost use Rattle.std.specs.Prelude.{◌≡◌, ◌<◌, ◌≤◌, ◌^◌, map, true, false, length, Some, None, MatchOption, IfOk, MatchResult};
ghost use Rattle.std.specs.Char.{is_ascii_digit};
ghost use Rattle.std.specs.List.{list_all};
ghost use Rattle.std.specs.Str.{bytes_eq};
ghost use Rattle.sta_units.specs.Decimal.{number_on};
ghost use Rattle.timing_defs.specs.Names.{is_name};
ghost use Rattle.eco_journal.specs.Lines.{part_of};
ghost use Rattle.eco_journal.specs.Words.{text as text_of, at as place_of, says, number_of, within};
ghost use Rattle.eco_journal.specs.Stops.{Unfits};

use crate::lines::Span;
use crate::stops::Stop;
use sta_units::Memory;
use std::alloc::Global;
use timing_defs::{Name, is_name};

fn all_digits(text: &[u8]) -> bool
    ensures { result ≡ list_all is_ascii_digit text.now }
{
    text.iter().all(|byte| byte.is_ascii_digit())
}

fn number_on(digits: &[u8]) -> u128
    requires { number_on 0 digits.now < 10 ^ 20 }
    ensures { result ≡ number_on 0 digits.now }
{
    let mut number = 0u128;
    for digit in digits {
        number = 10 * number + u128::from(digit.saturating_sub(b'0'));
    }
    number
}

/// The number that 1 to 20 decimal digits write; none exactly where the text is not such. Takes no
/// memory.
#[tactic(auto, using(crate::proofs::NumberLemmas::short))]
pub fn number_of(text: &[u8]) -> Option<u128>
    ensures { result ≡ number_of text.now }
{
    if text.is_empty() || text.len() > 20 || !all_digits(text) {
        return None;
    }
    Some(number_on(text))
}

/// The number, where it lies from `low` to `high`. Takes no memory.
pub fn within(low: u64, high: u64, number: Option<u128>) -> Option<u64>
    ensures { result ≡ within low high number }
{
    match number {
        Some(number) if u128::from(low) <= number && number <= u128::from(high) => {
            Some(number as u64)
        }
        _ => None,
    }
}

/// Whether the text is this one.
pub(crate) fn is(text: &[u8], wanted: &[u8]) -> bool
    ensures { result ≡ bytes_eq text.now wanted.now }
{
    text == wanted
}

/// The word at a place, from 0; an empty one where there is none. Takes no memory.
pub fn text_at<'a>(words: &[Span<'a>], k: usize) -> &'a [u8]
    ensures { result.now ≡ text_of (map part_of words.now) k }
{
    match words.get(k) {
        Some(word) => word.text,
        None => &[],
    }
}

/// Where the word at a place begins.
pub(crate) fn begin_of(words: &[Span<'_>], k: usize) -> usize
    ensures { result ≡ place_of (map part_of words.now) k }
{
    match words.get(k) {
        Some(word) => word.at,
        None => 0,
    }
}

/// Whether the word at a place, from 0, is this one. Takes no memory.
pub fn says(words: &[Span<'_>], k: usize, wanted: &[u8]) -> bool
    ensures { result ≡ says (map part_of words.now) k wanted.now }
{
    is(text_at(words, k), wanted)
}

/// The name that the bytes make.
pub(crate) fn name_of(alloc: Global, text: &[u8]) -> Result<Name, Stop>
    ensures { MatchResult result (λ name. (is_name text.now ≡ true) × (name ≡ text.now))
        (λ stop. Unfits stop (is_name text.now ≡ false)) }
{
    match Name::from_bytes(alloc, text)? {
        Some(name) => Ok(name),
        None => Err(Stop::Unfit),
    }
}

/// The name at a place.
pub(crate) fn name_at(alloc: Global, words: &[Span<'_>], k: usize) -> Result<Name, Stop>
    ensures { let text = text_of (map part_of words.now) k in MatchResult result
        (λ name. (is_name text ≡ true) × (name ≡ text))
        (λ stop. Unfits stop (is_name text ≡ false)) }
{
    name_of(alloc, text_at(words, k))
}
