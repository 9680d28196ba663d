//! The pieces of a text: tokens, and what is passed over between them.

ghost use Rattle.std.specs.Prelude.{◌≡◌, ◌≤◌, length};
ghost use Rattle.sta_text.specs.Pieces.{is_fresh, passed, made, string_piece, comment_piece, word_piece, liberty_piece, verilog_piece, tcl_listed, tcl_bracketed, tcl_plain, tcl_inner, tcl_piece, spef_piece, script_piece, piece};

use crate::bytes::{
    WordSort, begins, closing, comment_len, continues, graphic_len, identifier_len, inside_len,
    is_blank, is_graphic, is_identifier_start, is_liberty_mark, is_white, line_end_len, line_len,
    number_len, word_len,
};
use timing_defs::{Sort, Style};

/// Where a piece stands: at the begin of a line (in Tcl, where a command may begin), within it, in
/// a list in braces, in brackets, or in a list in brackets.
#[derive(Clone, Copy, Drop)]
pub(crate) enum Context {
    Fresh,
    Within,
    InList,
    InBrackets,
    InBracketList,
}

/// A piece of a text: how many bytes it has behind its first one, its sort where it is a token, and
/// where the next piece stands.
#[derive(Clone, Copy, Drop)]
pub(crate) struct Piece {
    pub more: usize,
    pub sort: Option<Sort>,
    pub context: Context,
}

fn is_fresh(context: Context) -> bool
    ensures { result ≡ is_fresh context }
{
    match context {
        Context::Fresh => true,
        _ => false,
    }
}

fn passed(more: usize, context: Context) -> Piece
    ensures { result ≡ passed more context }
{
    Piece {
        more,
        sort: None,
        context,
    }
}

fn made(sort: Sort, more: usize, context: Context) -> Piece
    ensures { result ≡ made sort more context }
{
    Piece {
        more,
        sort: Some(sort),
        context,
    }
}

fn string_piece(rest: &[u8]) -> Piece
    ensures value { result ≡ string_piece rest.now }
    ensures within { result.more ≤ length rest.now }
{
    let len = inside_len(rest);
    if len < rest.len() {
        made(Sort::Quoted, len + 1, Context::Within)
    } else {
        made(Sort::Bad, rest.len(), Context::Within)
    }
}

fn comment_piece(last: u8, rest: &[u8]) -> Piece
    ensures value { result ≡ comment_piece last rest.now }
    ensures within { result.more ≤ length rest.now }
{
    match rest.split_first() {
        None => made(Sort::Bad, 0, Context::Within),
        Some((_, inner)) => match closing(last, inner) {
            None => made(Sort::Bad, inner.len() + 1, Context::Within),
            Some(len) => passed(len + 1, Context::Within),
        },
    }
}

fn word_piece(kind: WordSort, first: u8, rest: &[u8], context: Context) -> Piece
    ensures value { result ≡ word_piece kind first rest.now context }
    ensures within { result.more ≤ length rest.now }
{
    made(Sort::Word, word_len(kind, first, rest), context)
}

#[tactic(auto, unfolding(crate::specs::Pieces::liberty_piece))]
fn liberty_piece(first: u8, rest: &[u8]) -> Piece
    ensures value { result ≡ liberty_piece first rest.now }
    ensures within { result.more ≤ length rest.now }
{
    if is_blank(first) || first == b'\r' {
        passed(0, Context::Within)
    } else if first == b'\n' {
        made(Sort::LineEnd, 0, Context::Within)
    } else if first == b'"' {
        string_piece(rest)
    } else if first == b'/' && begins(b'*', rest) {
        comment_piece(b'/', rest)
    } else if continues(first, rest) {
        passed(line_end_len(rest), Context::Within)
    } else if is_liberty_mark(first) {
        made(Sort::Mark, 0, Context::Within)
    } else if is_graphic(first) {
        word_piece(WordSort::Attribute, first, rest, Context::Within)
    } else {
        made(Sort::Bad, 0, Context::Within)
    }
}

#[tactic(auto, unfolding(crate::specs::Pieces::verilog_piece))]
fn verilog_piece(context: Context, first: u8, rest: &[u8]) -> Piece
    ensures value { result ≡ verilog_piece context first rest.now }
    ensures within { result.more ≤ length rest.now }
{
    if first == b'\n' {
        passed(0, Context::Fresh)
    } else if is_white(first) {
        passed(0, Context::Within)
    } else if first == b'`' && is_fresh(context) {
        passed(line_len(rest), Context::Within)
    } else if first == b'/' && begins(b'/', rest) {
        passed(line_len(rest), Context::Within)
    } else if first == b'/' && begins(b'*', rest) {
        comment_piece(b'/', rest)
    } else if first == b'(' && begins(b'*', rest) {
        comment_piece(b')', rest)
    } else if first == b'\\' && 0 < graphic_len(rest) {
        made(Sort::Word, graphic_len(rest), Context::Within)
    } else if is_identifier_start(first) {
        made(Sort::Word, identifier_len(rest), Context::Within)
    } else if first.is_ascii_digit() {
        made(Sort::Word, number_len(rest), Context::Within)
    } else if is_graphic(first) {
        made(Sort::Mark, 0, Context::Within)
    } else {
        made(Sort::Bad, 0, Context::Within)
    }
}

fn tcl_listed(here: Context, outside: Context, first: u8, rest: &[u8]) -> Piece
    ensures value { result ≡ tcl_listed here outside first rest.now }
    ensures within { result.more ≤ length rest.now }
{
    if first == b'}' {
        made(Sort::Mark, 0, outside)
    } else if first == b'{' || first == b']' {
        made(Sort::Mark, 0, here)
    } else {
        word_piece(WordSort::Listed, first, rest, here)
    }
}

fn tcl_bracketed(first: u8, rest: &[u8]) -> Piece
    ensures value { result ≡ tcl_bracketed first rest.now }
    ensures within { result.more ≤ length rest.now }
{
    if first == b']' {
        made(Sort::Mark, 0, Context::Within)
    } else if first == b'{' {
        made(Sort::Mark, 0, Context::InBracketList)
    } else if first == b'[' || first == b'}' {
        made(Sort::Mark, 0, Context::InBrackets)
    } else {
        word_piece(WordSort::Bracketed, first, rest, Context::InBrackets)
    }
}

fn tcl_plain(first: u8, rest: &[u8]) -> Piece
    ensures value { result ≡ tcl_plain first rest.now }
    ensures within { result.more ≤ length rest.now }
{
    if first == b'{' {
        made(Sort::Mark, 0, Context::InList)
    } else if first == b'[' {
        made(Sort::Mark, 0, Context::InBrackets)
    } else if first == b']' || first == b'}' {
        made(Sort::Mark, 0, Context::Within)
    } else {
        word_piece(WordSort::Command, first, rest, Context::Within)
    }
}

fn tcl_inner(context: Context, first: u8, rest: &[u8]) -> Piece
    ensures value { result ≡ tcl_inner context first rest.now }
    ensures within { result.more ≤ length rest.now }
{
    match context {
        Context::InList => tcl_listed(Context::InList, Context::Within, first, rest),
        Context::InBracketList => {
            tcl_listed(Context::InBracketList, Context::InBrackets, first, rest)
        }
        Context::InBrackets => tcl_bracketed(first, rest),
        Context::Fresh | Context::Within => tcl_plain(first, rest),
    }
}

#[tactic(auto, unfolding(crate::specs::Pieces::tcl_piece))]
fn tcl_piece(context: Context, first: u8, rest: &[u8]) -> Piece
    ensures value { result ≡ tcl_piece context first rest.now }
    ensures within { result.more ≤ length rest.now }
{
    if is_blank(first) {
        passed(0, context)
    } else if first == b'\n' {
        made(Sort::LineEnd, 0, Context::Fresh)
    } else if first == b'\r' && begins(b'\n', rest) {
        made(Sort::LineEnd, 1, Context::Fresh)
    } else if continues(first, rest) {
        passed(line_end_len(rest), context)
    } else if first == b'#' && is_fresh(context) {
        passed(comment_len(first, rest), Context::Fresh)
    } else if first == b';' {
        made(Sort::Mark, 0, Context::Fresh)
    } else if is_graphic(first) {
        tcl_inner(context, first, rest)
    } else {
        made(Sort::Bad, 0, context)
    }
}

#[tactic(auto, unfolding(crate::specs::Pieces::spef_piece))]
fn spef_piece(first: u8, rest: &[u8]) -> Piece
    ensures value { result ≡ spef_piece first rest.now }
    ensures within { result.more ≤ length rest.now }
{
    if is_white(first) {
        passed(0, Context::Within)
    } else if first == b'"' {
        string_piece(rest)
    } else if first == b'/' && begins(b'/', rest) {
        passed(line_len(rest), Context::Within)
    } else if first == b'/' && begins(b'*', rest) {
        comment_piece(b'/', rest)
    } else if is_graphic(first) {
        word_piece(WordSort::Hierarchical, first, rest, Context::Within)
    } else {
        made(Sort::Bad, 0, Context::Within)
    }
}

#[tactic(auto, unfolding(crate::specs::Pieces::script_piece))]
fn script_piece(first: u8, rest: &[u8]) -> Piece
    ensures value { result ≡ script_piece first rest.now }
    ensures within { result.more ≤ length rest.now }
{
    if is_blank(first) {
        passed(0, Context::Within)
    } else if first == b'\n' {
        made(Sort::LineEnd, 0, Context::Within)
    } else if is_graphic(first) {
        made(Sort::Word, graphic_len(rest), Context::Within)
    } else {
        made(Sort::Bad, 0, Context::Within)
    }
}

/// The piece at the front of a text, given its first byte and the others.
pub(crate) fn front(style: Style, context: Context, first: u8, rest: &[u8]) -> Piece
    ensures value { result ≡ piece style context first rest.now }
    ensures within { result.more ≤ length rest.now }
{
    match style {
        Style::Liberty => liberty_piece(first, rest),
        Style::Verilog => verilog_piece(context, first, rest),
        Style::Tcl => tcl_piece(context, first, rest),
        Style::Spef => spef_piece(first, rest),
        Style::Script => script_piece(first, rest),
    }
}
