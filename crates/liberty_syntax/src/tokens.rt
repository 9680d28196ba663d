//! Tests of tokens, their parts of the tree, and their faults.

ghost use Rattle.std.specs.Prelude.{◌≡◌, [], ◌++◌, ◌∷◌, length, take, IfOk, MatchOption};
ghost use Rattle.sta_text.specs.Tokens.{tok_of, is_bad};
ghost use Rattle.liberty_syntax.specs.Grammar.{is_quoted, is_lexeme_sort, is_mark_sort, is_line_end_sort, is_lexeme, is_mark, is_line_end, is_skip, is_part, inside, joined, lex, is_called, unfit, unfit_in_list, cut_off};
ghost use Rattle.liberty_syntax.specs.Parts.{left};

use sta_text::{Cursor, Token, Wrong, begins, continues, line_end_len};
use sta_units::Memory;
use std::alloc::Global;
use timing_defs::{Code, Items, Lexeme, Sort};

fn is_quoted(sort: Sort) -> bool
    ensures { result ≡ is_quoted sort }
{
    match sort {
        Sort::Quoted => true,
        _ => false,
    }
}

fn is_lexeme_sort(sort: Sort) -> bool
    ensures { result ≡ is_lexeme_sort sort }
{
    match sort {
        Sort::Word | Sort::Quoted => true,
        _ => false,
    }
}

fn is_mark_sort(sort: Sort) -> bool
    ensures { result ≡ is_mark_sort sort }
{
    match sort {
        Sort::Mark => true,
        _ => false,
    }
}

fn is_line_end_sort(sort: Sort) -> bool
    ensures { result ≡ is_line_end_sort sort }
{
    match sort {
        Sort::LineEnd => true,
        _ => false,
    }
}

fn is_bad(sort: Sort) -> bool
    ensures { result ≡ is_bad sort }
{
    match sort {
        Sort::Bad => true,
        _ => false,
    }
}

/// Whether the token is a word or a quoted string.
pub(crate) fn is_lexeme(token: Token<'_>) -> bool
    ensures { result ≡ is_lexeme (tok_of token.entry) }
{
    is_lexeme_sort(token.sort)
}

pub(crate) fn is_mark(token: Token<'_>, byte: u8) -> bool
    ensures { result ≡ is_mark (tok_of token.entry) byte }
{
    is_mark_sort(token.sort) && begins(byte, token.text)
}

pub(crate) fn is_line_end(token: Token<'_>) -> bool
    ensures { result ≡ is_line_end (tok_of token.entry) }
{
    is_line_end_sort(token.sort)
}

/// Whether the token may stand between statements.
pub(crate) fn is_skip(token: Token<'_>) -> bool
    ensures { result ≡ is_skip (tok_of token.entry) }
{
    is_mark(token, b';') || is_line_end(token)
}

/// Whether the token is part of a simple attribute's value.
pub(crate) fn is_part(token: Token<'_>) -> bool
    ensures { result ≡ is_part (tok_of token.entry) }
{
    is_lexeme(token) || is_mark(token, b',') || is_mark(token, b':')
}

/// What stands between the quotes of a string.
fn inside(text: &[u8]) -> &[u8]
    ensures { result.now ≡ inside text.now }
{
    match text.split_first() {
        None => text,
        Some((_, rest)) => rest.split_at(rest.len().saturating_sub(1)).0,
    }
}

/// Adds a byte to a text unless it belongs to a continuation of a line; gives how many bytes behind
/// it belong to one.
#[tactic(auto, unfolding(crate::specs::Grammar::joined), using(crate::proofs::GrammarLemmas::join_skip, crate::proofs::GrammarLemmas::join_keep, crate::proofs::GrammarLemmas::join_over))]
fn join_byte(text: &mut Items<u8>, skip: usize, byte: u8, rest: &[u8]) -> Result<usize, Memory>
    ensures { IfOk result
        (λ left. text.new ++ joined left rest.now ≡ text.old ++ joined skip (byte ∷ rest.now)) }
{
    if 0 < skip {
        return Ok(skip - 1);
    }
    if continues(byte, rest) {
        return Ok(line_end_len(rest));
    }
    text.push(byte)?;
    Ok(0)
}

/// The bytes of a string without the continuations of its lines.
#[tactic(auto, unfolding(crate::specs::Grammar::joined), using(std::proofs::lemmas::List::drop_more))]
fn joined(alloc: Global, bytes: &[u8]) -> Result<Items<u8>, Memory>
    ensures { IfOk result (λ text. text ≡ joined 0 bytes.now) }
{
    let mut text = Items::with_room(alloc, bytes.len())?;
    let mut skip = 0;
    for (i, byte) in bytes.iter().enumerate() {
        skip = join_byte(&mut text, skip, *byte, bytes.split_at(i + 1).1)?;
    }
    Ok(text)
}

fn text_of(alloc: Global, token: Token<'_>) -> Result<Items<u8>, Memory>
    ensures { IfOk result (λ text. text ≡ (lex (tok_of token.entry)).text) }
{
    if is_quoted(token.sort) {
        joined(alloc, inside(token.text))
    } else {
        Items::from_slice(alloc, token.text)
    }
}

/// The token as a part of the tree.
pub(crate) fn lexeme(alloc: Global, token: Token<'_>) -> Result<Lexeme, Memory>
    ensures { IfOk result (λ word. word ≡ lex (tok_of token.entry)) }
{
    Ok(Lexeme {
        text: text_of(alloc, token)?,
        quoted: is_quoted(token.sort),
        offset: token.start as u64,
    })
}

pub(crate) fn is_called(word: &Lexeme, name: &[u8]) -> bool
    ensures { result ≡ is_called word.now name.now }
{
    word.text.as_slice() == name
}

/// The fault of a token that may not stand at its place, within a group or not, where a string may
/// stand or not. The text has `size` bytes.
pub(crate) fn unfit(size: usize, within: bool, may_quote: bool, token: Token<'_>) -> Wrong
    ensures { result ≡ unfit size within may_quote (tok_of token.entry) }
{
    let start = token.start;
    if token.is_unclosed() {
        if begins(b'"', token.text) && !may_quote {
            return wrong(Code::LibertyBadToken, start);
        }
        return wrong(Code::LibertyUnbalanced, size);
    }
    if is_bad(token.sort) {
        wrong(Code::LibertyEncoding, start)
    } else if is_mark(token, b')') || (is_mark(token, b'}') && !within) {
        wrong(Code::LibertyUnbalanced, start)
    } else {
        wrong(Code::LibertyBadToken, start)
    }
}

/// The fault of a token that may not stand in a list of arguments.
pub(crate) fn unfit_in_list(size: usize, within: bool, token: Token<'_>) -> Wrong
    ensures { result ≡ unfit_in_list size within (tok_of token.entry) }
{
    if is_mark(token, b')') {
        wrong(Code::LibertyBadToken, token.start)
    } else {
        unfit(size, within, true, token)
    }
}

/// The fault of a text that ends within a group, or before its group has begun.
pub(crate) fn cut_off(size: usize, within: bool) -> Wrong
    ensures { result ≡ cut_off size within }
{
    if within {
        wrong(Code::LibertyUnbalanced, size)
    } else {
        wrong(Code::LibertyBadToken, size)
    }
}

pub(crate) fn wrong(code: Code, at: usize) -> Wrong
    ensures { result ≡ record { code = code; at = at } }
{
    Wrong { code, at }
}

/// Takes the token that was taken and not used, or the next one.
pub(crate) fn take_next<'a>(
    pending: Option<Token<'a>>,
    cursor: &mut Cursor<'a>,
) -> Option<Token<'a>>
    ensures { MatchOption result ((left pending.entry cursor.old ≡ []) × (cursor.new ≡ []))
        (λ t. left pending.entry cursor.old ≡ tok_of t ∷ cursor.new) }
{
    match pending {
        Some(token) => Some(token),
        None => cursor.next(),
    }
}
