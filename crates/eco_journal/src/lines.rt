//! Lines of a text, and the words of a line.

ghost use Rattle.std.specs.Prelude.{◌≡◌, ◌+◌, ◌^◌, ◌≤◌, ◌<◌, ◌==◌, ◌++◌, ◌∷◌, [], not, map, length, IfOk, IfSome, MatchOption};
ghost use Rattle.std.specs.List.{prefix_len, slice_split};
ghost use Rattle.eco_journal.specs.Lines.{Part, part_of, cut_lines, placed, lines_of, is_space, words_of};

use sta_units::Memory;
use std::alloc::Global;
use std::marker::Model;
use timing_defs::Items;

/// A part of a text, and the place of its first byte in it.
#[derive(Clone, Copy, Drop)]
pub struct Span<'a> {
    pub text: &'a [u8],
    pub at: usize,
}

fn line_len(bytes: &[u8]) -> usize
    ensures value { result ≡ prefix_len (λ b. not (b == 10)) bytes.now }
    ensures within { result ≤ length bytes.now }
{
    bytes.iter().take_while(|byte| **byte != b'\n').count()
}

fn word_len(bytes: &[u8]) -> usize
    ensures value { result ≡ prefix_len (λ b. not (b == 32)) bytes.now }
    ensures within { result ≤ length bytes.now }
{
    bytes.iter().take_while(|byte| **byte != b' ').count()
}

/// The lines of a text that are left. Contracts see them as a list.
#[derive(Drop)]
pub struct Lines<'a> {
    rest: &'a [u8],
    at: usize,
}

impl<'a> Model for Lines<'a> {
    ghost use Rattle.std.specs.Prelude.{◌+◌, ◌<◌, ◌^◌, List, length};
    ghost use Rattle.eco_journal.specs.Lines.{Part, cut_lines, placed};

    ghost Value = { List Part };

    ghost view = { λ c. placed c.at (cut_lines c.rest.now) };

    ghost invariant = { λ c. c.at + length c.rest.now < 2 ^ 64 };
}

impl<'a> Lines<'a> {
    /// All lines of a text. Takes no memory.
    pub fn new(text: &'a [u8]) -> Lines<'a>
        ensures { result ≡ lines_of text.entry.now }
    {
        Lines { rest: text, at: 0 }
    }

    /// Takes the next line, without its line feed; none at the end. Takes no memory.
    #[tactic(auto, using(crate::proofs::LinesLemmas::only_line, crate::proofs::LinesLemmas::first_line), unfolding(crate::specs::Lines::placed, crate::specs::Lines::cut_lines))]
    pub fn next(&mut self) -> Option<Span<'a>>
        ensures next { MatchOption result ((self.old ≡ []) × (self.new ≡ []))
            (λ line. self.old ≡ part_of line ∷ self.new) }
        ensures within { IfSome result (λ line. line.at + length line.text.now < 2 ^ 64) }
    {
        if self.rest.is_empty() {
            return None;
        }
        let at = self.at;
        let len = line_len(self.rest);
        let (text, behind) = self.rest.split_at(len);
        match behind.split_first() {
            None => {
                self.rest = &[];
                self.at = at + len;
                Some(Span { text, at })
            }
            Some((_, tail)) => {
                self.rest = tail;
                self.at = at + len + 1;
                Some(Span { text, at })
            }
        }
    }
}

/// The words of a line that are left. Contracts see them as a list.
#[derive(Drop)]
struct Words<'a> {
    rest: &'a [u8],
    at: usize,
    ended: bool,
}

impl<'a> Model for Words<'a> {
    ghost use Rattle.std.specs.Prelude.{◌+◌, ◌<◌, ◌^◌, List, [], length, if◌then◌else◌};
    ghost use Rattle.std.specs.List.{slice_split};
    ghost use Rattle.eco_journal.specs.Lines.{Part, placed, is_space};

    ghost Value = { List Part };

    ghost view = { λ c. (if c.ended then [] else placed c.at (slice_split is_space c.rest.now)) };

    ghost invariant = { λ c. c.at + length c.rest.now < 2 ^ 64 };
}

impl<'a> Words<'a> {
    #[tactic(auto, using(crate::proofs::LinesLemmas::only_word, crate::proofs::LinesLemmas::first_word), unfolding(crate::specs::Lines::placed))]
    fn next(&mut self) -> Option<Span<'a>>
        ensures { MatchOption result ((self.old ≡ []) × (self.new ≡ []))
            (λ word. self.old ≡ part_of word ∷ self.new) }
    {
        if self.ended {
            return None;
        }
        let at = self.at;
        let len = word_len(self.rest);
        let (text, behind) = self.rest.split_at(len);
        match behind.split_first() {
            None => {
                self.ended = true;
                self.rest = behind;
                self.at = at + len;
                Some(Span { text, at })
            }
            Some((_, tail)) => {
                self.rest = tail;
                self.at = at + len + 1;
                Some(Span { text, at })
            }
        }
    }
}

/// The words of a line, which single blanks join: an empty one stands before, between or behind
/// blanks that join nothing.
///
/// # Errors
///
/// Want of memory alone.
pub fn words_of<'a>(alloc: Global, line: &Span<'a>) -> Result<Items<Span<'a>>, Memory>
    requires { line.now.at + length line.now.text.now < 2 ^ 64 }
    ensures { IfOk result (λ found. map part_of found ≡ words_of (part_of line.now)) }
{
    let mut words = Words {
        rest: line.text,
        at: line.at,
        ended: false,
    };
    let mut found = Items::new(alloc);
    while let Some(word) = words.next() {
        found.push(word)?;
    }
    Ok(found)
}
