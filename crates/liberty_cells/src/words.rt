//! Words and numbers of a string.

ghost use Rattle.std.specs.Prelude.{◌≡◌, ◌∷◌, [], ◌≤◌, length, true, false, not, MatchOption};
ghost use Rattle.std.specs.List.{prefix_len, list_any};
ghost use Rattle.sta_text.specs.Bytes.{is_white};
ghost use Rattle.liberty_cells.specs.Tables.{separates, joins, begins_word, words_on, is_comma, filled_on, has_all};

use std::marker::Model;

fn is_white(b: u8) -> bool
    ensures { result ≡ is_white b }
{
    b == b' ' || b == b'\t' || b == b'\n' || b == b'\r'
}

fn separates(commas: bool, b: u8) -> bool
    ensures { result ≡ separates commas b }
{
    is_white(b) || (commas && b == b',')
}

fn joins(commas: bool, b: u8) -> bool
    ensures { result ≡ joins commas b }
{
    !separates(commas, b)
}

/// How many bytes that separate words a text begins with.
fn space_len(commas: bool, text: &[u8]) -> usize
    ensures value { result ≡ prefix_len (separates commas) text.now }
    ensures within { result ≤ length text.now }
{
    text.iter().take_while(|b| separates(commas, **b)).count()
}

/// How many bytes the word has that a text begins with.
fn word_len(commas: bool, text: &[u8]) -> usize
    ensures value { result ≡ prefix_len (joins commas) text.now }
    ensures within { result ≤ length text.now }
{
    text.iter().take_while(|b| joins(commas, **b)).count()
}

/// The text behind the bytes that separate words.
#[tactic(auto, using(crate::proofs::WordsLemmas::after_space, crate::proofs::WordsLemmas::before_word))]
fn after_space<'a>(commas: bool, text: &'a [u8]) -> &'a [u8]
    ensures words { words_on commas [] result.now ≡ words_on commas [] text.entry.now }
    ensures start { begins_word commas result.now ≡ true }
{
    text.split_at(space_len(commas, text)).1
}

/// The first word of a text and what follows it; none where the text has no word.
#[tactic(auto, using(crate::proofs::WordsLemmas::no_word, crate::proofs::WordsLemmas::first_word))]
fn first_word<'a>(commas: bool, text: &'a [u8]) -> Option<(&'a [u8], &'a [u8])>
    ensures { MatchOption result (words_on commas [] text.entry.now ≡ [])
        (λ p. words_on commas [] text.entry.now ≡ p.0.now ∷ words_on commas [] p.1.now) }
{
    let start = after_space(commas, text);
    match start.split_first() {
        None => None,
        Some(_) => Some(start.split_at(word_len(commas, start))),
    }
}

/// The words of a string that are left. Contracts see their list.
#[derive(Drop)]
pub(crate) struct Words<'a> {
    text: &'a [u8],
    commas: bool,
}

impl<'a> Model for Words<'a> {
    ghost use Rattle.std.specs.Prelude.{List, ℕ, []};
    ghost use Rattle.liberty_cells.specs.Tables.{words_on};

    ghost Value = { List (List ℕ) };

    ghost view = { λ w. words_on w.commas [] w.text.now };
}

impl<'a> Words<'a> {
    /// The words of a string, separated by white space and perhaps by commas.
    pub(crate) fn new(text: &'a [u8], commas: bool) -> Words<'a>
        ensures { result ≡ words_on commas [] text.entry.now }
    {
        Words { text, commas }
    }

    /// Takes the next word; none where none is left.
    pub(crate) fn next(&mut self) -> Option<&'a [u8]>
        ensures { MatchOption result ((self.old ≡ []) × (self.new ≡ []))
            (λ word. self.old ≡ word.now ∷ self.new) }
    {
        match first_word(self.commas, self.text) {
            None => None,
            Some((word, rest)) => {
                self.text = rest;
                Some(word)
            }
        }
    }
}

fn is_comma(b: u8) -> bool
    ensures { result ≡ is_comma b }
{
    b == b','
}

fn has_comma(text: &[u8]) -> bool
    ensures { result ≡ list_any is_comma text.now }
{
    text.iter().any(|b| is_comma(*b))
}

/// Whether something stands before and behind each comma.
#[tactic(auto, unfolding(crate::specs::Tables::filled_on), using(std::proofs::lemmas::List::drop_more))]
fn is_filled(text: &[u8]) -> bool
    ensures { result ≡ filled_on false text.now }
{
    let mut seen = false;
    for b in text {
        if is_comma(*b) {
            if !seen {
                return false;
            }
            seen = false;
        } else {
            seen = seen || !is_white(*b);
        }
    }
    seen
}

/// Whether no number is missing beside a comma.
pub(crate) fn has_all(text: &[u8]) -> bool
    ensures { result ≡ has_all text.now }
{
    !has_comma(text) || is_filled(text)
}
