//! The tokens of a text, a line each: the sort, the place of the first byte and of the one behind the last.

use crate::texts::Text;
use sta_text::{Cursor, Token, tokens_in_order};
use timing_defs::{Sort, Style};

fn sort_word(sort: Sort) -> &'static [u8] {
    match sort {
        Sort::Word => b"word",
        Sort::Quoted => b"quoted",
        Sort::Mark => b"mark",
        Sort::LineEnd => b"line end",
        Sort::Bad => b"bad",
    }
}

/// Whether a token's text stands in the document at its place.
fn is_in_place(token: &Token<'_>, document: &[u8]) -> bool {
    match document.get(token.start..token.end) {
        Some(there) => there == token.text,
        None => false,
    }
}

fn show_token(token: &Token<'_>, document: &[u8], out: &mut Text) {
    out.add(sort_word(token.sort));
    out.count(b" ", token.start as u64);
    out.count(b" ", token.end as u64);
    if token.is_unclosed() {
        out.add(b" unclosed");
    }
    if !is_in_place(token, document) {
        out.add(b" with another text");
    }
    out.end();
}

pub(crate) fn answer_tokens(style: Style, document: &[u8], out: &mut Text) {
    tokens_in_order();
    let mut cursor = Cursor::new(document, style);
    for _ in 0..u64::MAX {
        match cursor.next() {
            Some(token) => show_token(&token, document, out),
            None => return,
        }
    }
}
