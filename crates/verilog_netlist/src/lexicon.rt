//! The words of a netlist.

ghost use Rattle.std.specs.Prelude.{◌≡◌, ◌<◌, ◌^◌, true, length, IfOk};
ghost use Rattle.std.specs.Char.{is_ascii_digit};
ghost use Rattle.std.specs.List.{list_all, list_any};
ghost use Rattle.sta_units.specs.Decimal.{number_on};
ghost use Rattle.timing_defs.specs.Names.{is_name};
ghost use Rattle.verilog_netlist.specs.Lexicon.{is_escaped, spelled, begins_simple, begins_number, is_read_keyword, is_left_out_declaration, is_behaviour, is_left_out_item, is_variable_type, is_identifier, is_number, is_constant, has_colon, begins_expression};

use sta_units::Memory;
use std::alloc::Global;
use timing_defs::{Name, is_name};

fn is_escaped(word: &[u8]) -> bool
    ensures { result ≡ is_escaped word.now }
{
    match word.split_first() {
        None => false,
        Some((first, _)) => *first == b'\\',
    }
}

/// The bytes of the name that a word spells.
pub(crate) fn spelled(word: &[u8]) -> &[u8]
    ensures { result.now ≡ spelled word.now }
{
    match word.split_first() {
        None => word,
        Some((first, rest)) => { if *first == b'\\' { rest } else { word } }
    }
}

fn begins_simple(word: &[u8]) -> bool
    ensures { result ≡ begins_simple word.now }
{
    match word.split_first() {
        None => false,
        Some((first, _)) => first.is_ascii_alphabetic() || *first == b'_',
    }
}

fn begins_number(word: &[u8]) -> bool
    ensures { result ≡ begins_number word.now }
{
    match word.split_first() {
        None => false,
        Some((first, _)) => first.is_ascii_digit(),
    }
}

fn is_read_keyword(word: &[u8]) -> bool
    ensures { result ≡ is_read_keyword word.now }
{
    word == b"module".as_slice()
        || word == b"endmodule".as_slice()
        || word == b"input".as_slice()
        || word == b"output".as_slice()
        || word == b"wire".as_slice()
}

fn is_left_out_declaration(word: &[u8]) -> bool
    ensures { result ≡ is_left_out_declaration word.now }
{
    word == b"inout".as_slice()
        || word == b"parameter".as_slice()
        || word == b"localparam".as_slice()
        || word == b"defparam".as_slice()
        || word == b"supply0".as_slice()
        || word == b"supply1".as_slice()
        || word == b"reg".as_slice()
        || word == b"integer".as_slice()
        || word == b"real".as_slice()
        || word == b"realtime".as_slice()
        || word == b"time".as_slice()
        || word == b"event".as_slice()
}

fn is_behaviour(word: &[u8]) -> bool
    ensures { result ≡ is_behaviour word.now }
{
    word == b"assign".as_slice()
        || word == b"always".as_slice()
        || word == b"initial".as_slice()
        || word == b"function".as_slice()
        || word == b"task".as_slice()
        || word == b"specify".as_slice()
        || word == b"generate".as_slice()
        || word == b"genvar".as_slice()
}

/// Whether the word begins an item that is left out.
#[tactic(auto, unfolding(crate::specs::Lexicon::is_left_out_item))]
pub(crate) fn is_left_out_item(word: &[u8]) -> bool
    ensures { result ≡ is_left_out_item word.now }
{
    is_left_out_declaration(word) || is_behaviour(word)
}

/// Whether the word is the type of a variable.
pub(crate) fn is_variable_type(word: &[u8]) -> bool
    ensures { result ≡ is_variable_type word.now }
{
    word == b"reg".as_slice() || word == b"integer".as_slice() || word == b"time".as_slice()
}

/// Whether the word is an identifier.
#[tactic(auto, unfolding(crate::specs::Lexicon::is_identifier))]
pub(crate) fn is_identifier(word: &[u8]) -> bool
    ensures { result ≡ is_identifier word.now }
{
    is_name(spelled(word))
        && (is_escaped(word)
            || begins_simple(word) && !(is_read_keyword(word) || is_left_out_item(word)))
}

/// The name that an identifier spells.
#[tactic(auto, unfolding(crate::specs::Lexicon::is_identifier))]
pub(crate) fn name_of(alloc: Global, word: &[u8]) -> Result<Name, Memory>
    requires { is_identifier word.now ≡ true }
    ensures { IfOk result (λ name. name ≡ spelled word.now) }
{
    match Name::from_bytes(alloc, spelled(word))? {
        Some(name) => Ok(name),
        None => unreachable!(),
    }
}

pub(crate) fn all_digits(word: &[u8]) -> bool
    ensures { result ≡ list_all is_ascii_digit word.now }
{
    word.iter().all(|byte| byte.is_ascii_digit())
}

/// Whether the word is a number of a range or a bit.
#[tactic(auto, unfolding(crate::specs::Lexicon::is_number))]
pub(crate) fn is_number(word: &[u8]) -> bool
    ensures { result ≡ is_number word.now }
{
    0 < word.len() && word.len() <= 9 && all_digits(word)
}

/// Whether the word is a constant that ties a pin.
pub(crate) fn is_constant(word: &[u8]) -> bool
    ensures { result ≡ is_constant word.now }
{
    word == b"1'b0".as_slice()
        || word == b"1'b1".as_slice()
        || word == b"1'h0".as_slice()
        || word == b"1'h1".as_slice()
}

/// Whether a colon stands in the name.
pub(crate) fn has_colon(name: &[u8]) -> bool
    ensures { result ≡ has_colon name.now }
{
    name.iter().any(|byte| *byte == b':')
}

/// Whether the word begins a connection by position.
#[tactic(auto, unfolding(crate::specs::Lexicon::begins_expression))]
pub(crate) fn begins_expression(word: &[u8]) -> bool
    ensures { result ≡ begins_expression word.now }
{
    is_identifier(word) || begins_number(word) || word == b"{".as_slice()
}

/// The number that at most ten digits write.
pub(crate) fn digits_value(digits: &[u8]) -> u64
    requires { number_on 0 digits.now < 10 ^ 10 }
    ensures { result ≡ number_on 0 digits.now }
{
    let mut number: u64 = 0;
    for digit in digits {
        number = 10 * number + u64::from(digit.saturating_sub(b'0'));
    }
    number
}

/// The value of a number.
#[tactic(auto, using(crate::proofs::LexiconLemmas::number_small))]
pub(crate) fn number_of(word: &[u8]) -> u32
    requires { is_number word.now ≡ true }
    ensures { result ≡ number_on 0 word.now }
{
    digits_value(word) as u32
}
