//! Tokens with their places.

ghost use Rattle.std.specs.Prelude.{◌≡◌};
ghost use Rattle.sta_text.specs.Tokens.{tok_of, is_bad, is_unclosed};

use crate::bytes::begins;
use timing_defs::Sort;

/// A token: its slice of the source, the offsets of its first byte and of the one behind its last,
/// and its sort. A quoted string has its quotes in its text.
#[derive(Clone, Copy, Drop)]
pub struct Token<'a> {
    pub text: &'a [u8],
    pub start: usize,
    pub end: usize,
    pub sort: Sort,
}

fn is_bad(sort: Sort) -> bool
    ensures { result ≡ is_bad sort }
{
    match sort {
        Sort::Bad => true,
        _ => false,
    }
}

impl<'a> Token<'a> {
    /// Whether this is a string or a comment that the text does not close. Any other token of sort
    /// `Bad` is one byte that the style does not allow.
    pub fn is_unclosed(&self) -> bool
        ensures { result ≡ is_unclosed (tok_of self.now) }
    {
        is_bad(self.sort) && (1 < self.text.len() || begins(b'"', self.text))
    }
}
