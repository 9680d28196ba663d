//! The words of a text of constraints.

ghost use Rattle.std.specs.Prelude.{◌≡◌, true, IfOk};
ghost use Rattle.std.specs.List.{list_any};
ghost use Rattle.sta_text.specs.Tokens.{tok_of, is_bad};
ghost use Rattle.timing_defs.specs.Names.{is_name};
ghost use Rattle.timing_defs.specs.Names.{is_split};
ghost use Rattle.sdc_reader.specs.Words.{is_word_sort, is_mark_sort, is_line_end_sort, is_word, is_mark, ends_command, is_text, is_variable, begins_number, is_option, is_wild_byte, is_wild, ends_split, is_pin, gets_objects};

use sta_text::{Token, begins};
use sta_units::Memory;
use std::alloc::Global;
use timing_defs::{Name, Sort, is_name};

fn is_word_sort(sort: Sort) -> bool
    ensures { result ≡ is_word_sort sort }
{
    match sort {
        Sort::Word => true,
        _ => false,
    }
}

fn is_mark_sort(sort: Sort) -> bool
    ensures { result ≡ is_mark_sort sort }
{
    match sort {
        Sort::Mark => true,
        _ => false,
    }
}

fn is_line_end_sort(sort: Sort) -> bool
    ensures { result ≡ is_line_end_sort sort }
{
    match sort {
        Sort::LineEnd => true,
        _ => false,
    }
}

/// Whether no token of the style may have the byte.
pub(crate) fn is_bad(token: &Token<'_>) -> bool
    ensures { result ≡ is_bad token.now.sort }
{
    match token.sort {
        Sort::Bad => true,
        _ => false,
    }
}

/// Whether the token is a word.
pub(crate) fn is_word(token: &Token<'_>) -> bool
    ensures { result ≡ is_word (tok_of token.now) }
{
    is_word_sort(token.sort) && is_name(token.text)
}

/// Whether the word is this text.
pub(crate) fn is(word: &[u8], text: &[u8]) -> bool
    ensures { result ≡ is_text word.now text.now }
{
    word == text
}

/// Whether the token is this mark.
pub(crate) fn is_mark(token: &Token<'_>, mark: &[u8]) -> bool
    ensures { result ≡ is_mark (tok_of token.now) mark.now }
{
    is_mark_sort(token.sort) && is(token.text, mark)
}

/// Whether the token ends a command.
pub(crate) fn ends_command(token: &Token<'_>) -> bool
    ensures { result ≡ ends_command (tok_of token.now) }
{
    is_line_end_sort(token.sort) || is_mark(token, b";")
}

/// Whether the word is a variable of Tcl.
pub(crate) fn is_variable(word: &[u8]) -> bool
    ensures { result ≡ is_variable word.now }
{
    begins(b'$', word)
}

fn begins_number(word: &[u8]) -> bool
    ensures { result ≡ begins_number word.now }
{
    match word.split_first() {
        None => false,
        Some((first, _)) => first.is_ascii_digit() || *first == b'.',
    }
}

/// Whether the word is an option, and no number.
pub(crate) fn is_option(word: &[u8]) -> bool
    ensures { result ≡ is_option word.now }
{
    match word.split_first() {
        None => false,
        Some((first, rest)) => *first == b'-' && !begins_number(rest),
    }
}

fn is_wild_byte(byte: u8) -> bool
    ensures { result ≡ is_wild_byte byte }
{
    byte == b'*' || byte == b'?'
}

/// Whether the word is a pattern.
pub(crate) fn is_wild(word: &[u8]) -> bool
    ensures { result ≡ is_wild word.now }
{
    word.iter().any(|byte| is_wild_byte(*byte))
}

/// Whether the byte may split a pin into its instance and its pin of the cell.
pub(crate) fn is_split(byte: u8) -> bool
    ensures { result ≡ is_split byte }
{
    byte == b'/' || byte == b':'
}

fn has_split(word: &[u8]) -> bool
    ensures { result ≡ list_any is_split word.now }
{
    word.iter().any(|byte| is_split(*byte))
}

fn ends_split(word: &[u8]) -> bool
    ensures { result ≡ ends_split word.now }
{
    match word.last() {
        None => false,
        Some(byte) => is_split(*byte),
    }
}

/// Whether the word is that of a pin.
pub(crate) fn is_pin(word: &[u8]) -> bool
    ensures { result ≡ is_pin word.now }
{
    match word.split_first() {
        None => false,
        Some((_, rest)) => has_split(rest) && !ends_split(word),
    }
}

/// Whether the word is a command that gets objects from the netlist.
pub(crate) fn gets_objects(word: &[u8]) -> bool
    ensures { result ≡ gets_objects word.now }
{
    word.starts_with(b"get_") || word.starts_with(b"all_")
}

/// The name that a word is.
pub(crate) fn name_of(alloc: Global, word: &[u8]) -> Result<Name, Memory>
    requires { is_name word.now ≡ true }
    ensures { IfOk result (λ name. name ≡ word.now) }
{
    match Name::from_bytes(alloc, word)? {
        Some(name) => Ok(name),
        None => unreachable!(),
    }
}
