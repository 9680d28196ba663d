//! A place in a text, which gives the text's tokens one by one.

ghost use Rattle.std.specs.Prelude.{◌≡◌, ◌<◌, ◌∷◌, [], ℕ, List, length, MatchOption};
ghost use Rattle.timing_defs.specs.declared.texts.Style.{Style};
ghost use Rattle.sta_text.specs.Tokens.{tok_of, tokens_of, Follow};

use crate::pieces::{Context, front};
use crate::token::Token;
use std::marker::Model;
use timing_defs::{Sort, Style};

/// A place in a text. Contracts see it as the list of the tokens that are left.
///
/// Every style passes over space, tab and carriage return (but see Tcl). A byte that no token of the
/// style may have is a token of sort `Bad` by itself, and ends a word before it. A string or comment
/// that the text does not close is one `Bad` token up to the text's end. `Sort::Mark` is one byte.
///
/// - Liberty: words, strings in quotes (which may hold line ends, and of which a backslash escapes
///   none), the marks `( ) { } : ; ,`, and line feeds as line ends. Comments `/* */` end a word,
///   unless behind a backslash, and their line ends are none. A backslash at a line's end is passed
///   over with that end; any other is a byte of a word.
/// - Verilog: identifiers and keywords; escaped identifiers, of which the text keeps the backslash;
///   numbers with their base, as `1'b0`, which begin with a digit; every other graphic byte is a
///   mark. Line feeds are white space. Comments `//` and `/* */`, attributes `(* *)`, and lines
///   whose first byte is a backquote are passed over.
/// - Tcl: a line feed, or a carriage return and a line feed, is a line's end; a carriage return
///   alone is `Bad`. `;` is a mark, and ends a word, a list and brackets, as a line's end does. The
///   marks `{ } [ ]` stand where a word may begin. In a list every word ends before a brace; in
///   brackets a word ends before the bracket that balances; elsewhere braces and brackets within a
///   word are bytes of it, as quotes and backslashes are everywhere. In a list `[` begins a word.
///   A `#` where a command may begin is a comment, up to a line's end without a backslash before it.
///   A backslash at a line's end is passed over with that end.
/// - SPEF: words, and strings in quotes where a word may begin. Line feeds are white space. Comments
///   `//` and `/* */` begin also within a word, unless behind a backslash.
/// - Script: words of graphic bytes, and line feeds as line ends. A carriage return is `Bad`.
///   Comments are the reader's.
#[derive(Drop)]
pub struct Cursor<'a> {
    style: Style,
    context: Context,
    at: usize,
    rest: &'a [u8],
}

impl<'a> Model for Cursor<'a> {
    ghost use Rattle.std.specs.Prelude.{List, ◌+◌, ◌<◌, ◌^◌, length};
    ghost use Rattle.sta_text.specs.Tokens.{Tok, tokens};

    ghost Value = { List Tok };

    ghost view = { λ c. tokens c.style 0 c.context c.at c.rest.now };

    ghost invariant = { λ c. c.at + length c.rest.now < 2 ^ 64 };
}

impl<'a> Cursor<'a> {
    /// The begin of a text. Takes no memory.
    pub fn new(bytes: &'a [u8], style: Style) -> Cursor<'a>
        ensures { result ≡ tokens_of style bytes.entry.now }
    {
        Cursor {
            style,
            context: Context::Fresh,
            at: 0,
            rest: bytes,
        }
    }

    /// Takes the next token; none exactly where no token is left. Takes no memory.
    #[tactic(auto, using(crate::proofs::TokensLemmas::skipped), unfolding(crate::specs::Tokens::tokens))]
    pub fn next(&mut self) -> Option<Token<'a>>
        ensures { MatchOption result ((self.old ≡ []) × (self.new ≡ []))
            (λ t. self.old ≡ tok_of t ∷ self.new) }
    {
        while let Some((first, behind)) = self.rest.split_first() {
            let piece = front(self.style, self.context, *first, behind);
            let (text, rest) = self.rest.split_at(piece.more + 1);
            let start = self.at;
            self.at = start + text.len();
            self.context = piece.context;
            self.rest = rest;
            if let Some(sort) = piece.sort {
                return Some(Token {
                    text,
                    start,
                    end: self.at,
                    sort,
                });
            }
        }
        None
    }
}

/// The tokens of a text are slices of it, none is empty, and none begins before the one before it
/// has ended.
#[tactic(auto, using(crate::proofs::OrderLemmas::in_order))]
pub fn tokens_in_order()
    ensures { (style : Style) (bytes : List ℕ) → Follow 0 bytes (tokens_of style bytes) }
{}
