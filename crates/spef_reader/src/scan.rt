//! A place in a text, where a common word is found by one look at its bytes.

ghost use Rattle.std.specs.Prelude.{◌≡◌, ◌≤◌, ◌∷◌, [], ℕ, length, MatchOption};
ghost use Rattle.std.specs.List.{prefix_len};
ghost use Rattle.sta_text.specs.Bytes.{is_white};
ghost use Rattle.sta_text.specs.Tokens.{tok_of, tokens_of};
ghost use Rattle.timing_defs.specs.declared.texts.Style.TheVariants as style;
ghost use Rattle.spef_reader.specs.Scans.{is_common, tokens_at, IsFirst};

use sta_text::{Cursor, Token, begins};
use std::marker::Model;
use timing_defs::{Sort, Style};

fn is_white(byte: u8) -> bool
    ensures { result ≡ is_white byte }
{
    byte == b' ' || byte == b'\t' || byte == b'\n' || byte == b'\r'
}

/// Whether the byte may stand in a word and begins no comment.
fn is_common(byte: u8) -> bool
    ensures { result ≡ is_common byte }
{
    33 <= byte && byte <= 126 && byte != b'/'
}

fn white_len(bytes: &[u8]) -> usize
    ensures value { result ≡ prefix_len is_white bytes.now }
    ensures within { result ≤ length bytes.now }
{
    bytes.iter().take_while(|byte| is_white(**byte)).count()
}

fn common_len(bytes: &[u8]) -> usize
    ensures value { result ≡ prefix_len is_common bytes.now }
    ensures within { result ≤ length bytes.now }
{
    bytes.iter().take_while(|byte| is_common(**byte)).count()
}

/// The first token of a text; none where it has none.
fn first_of(bytes: &[u8]) -> Option<Token<'_>>
    ensures { MatchOption result ((at : ℕ) → tokens_at at bytes.now ≡ [])
        (λ t. IsFirst bytes.now (tok_of t)) }
{
    let mut cursor = Cursor::new(bytes, Style::Spef);
    cursor.next()
}

/// A place in a text. Contracts see it as the list of the tokens that are left.
#[derive(Drop)]
pub(crate) struct Scan<'a> {
    at: usize,
    rest: &'a [u8],
}

impl<'a> Model for Scan<'a> {
    ghost use Rattle.std.specs.Prelude.{List, ◌+◌, ◌<◌, ◌^◌, length};
    ghost use Rattle.sta_text.specs.Tokens.{Tok};
    ghost use Rattle.spef_reader.specs.Scans.{tokens_at};

    ghost Value = { List Tok };

    ghost view = { λ c. tokens_at c.at c.rest.now };

    ghost invariant = { λ c. c.at + length c.rest.now < 2 ^ 64 };
}

impl<'a> Scan<'a> {
    /// The begin of a text.
    pub(crate) fn new(bytes: &'a [u8]) -> Scan<'a>
        ensures { result ≡ tokens_of style.Spef bytes.entry.now }
    {
        Scan { at: 0, rest: bytes }
    }

    /// Passes over white space.
    #[tactic(auto, using(crate::proofs::ScanLemmas::white_passed))]
    fn pass_white(&mut self)
        ensures { self.new ≡ self.old }
    {
        let white = white_len(self.rest);
        self.rest = self.rest.split_at(white).1;
        self.at += white;
    }

    /// Takes a word without a slash; none where another thing stands here.
    #[tactic(auto, using(crate::proofs::ScanLemmas::common_word))]
    fn common_word(&mut self) -> Option<Token<'a>>
        ensures { MatchOption result (self.new ≡ self.old) (λ t. self.old ≡ tok_of t ∷ self.new) }
    {
        let run = common_len(self.rest);
        let (text, rest) = self.rest.split_at(run);
        if run == 0 || begins(b'"', self.rest) || begins(b'/', rest) {
            return None;
        }
        let start = self.at;
        self.at = start + text.len();
        self.rest = rest;
        Some(Token {
            text,
            start,
            end: self.at,
            sort: Sort::Word,
        })
    }

    /// Takes a token of any form; none exactly where no token is left.
    fn any_token(&mut self) -> Option<Token<'a>>
        ensures { MatchOption result ((self.old ≡ []) × (self.new ≡ []))
            (λ t. self.old ≡ tok_of t ∷ self.new) }
    {
        match first_of(self.rest) {
            None => None,
            Some(token) => {
                let place = self.at;
                self.rest = self.rest.split_at(token.end).1;
                self.at = place + token.end;
                Some(Token {
                    text: token.text,
                    start: place + token.start,
                    end: self.at,
                    sort: token.sort,
                })
            }
        }
    }

    /// Takes the next token; none exactly where no token is left.
    pub(crate) fn next(&mut self) -> Option<Token<'a>>
        ensures { MatchOption result ((self.old ≡ []) × (self.new ≡ []))
            (λ t. self.old ≡ tok_of t ∷ self.new) }
    {
        self.pass_white();
        match self.common_word() {
            Some(token) => Some(token),
            None => self.any_token(),
        }
    }
}
