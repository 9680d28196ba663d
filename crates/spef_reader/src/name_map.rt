//! The name map: words that stand for indexes.

ghost use Rattle.std.specs.Prelude.{◌≡◌, [], true, false, Some, None, OnOk, IfOk, IfSome, MatchOption, option_map};
ghost use Rattle.spef_reader.specs.Names.{told, with_row, rows_at};
ghost use Rattle.spef_reader.specs.Words.{spelled, read_as};

use crate::context::Bus;
use crate::words::{Reading, is_text, spelled};
use indexmap::IndexMap;
use sta_units::Memory;
use std::alloc::Global;
use std::marker::Model;

fn is_alike(mark: Option<u8>, other: Option<u8>) -> bool
    ensures { result ≡ true → mark ≡ other }
{
    match (mark, other) {
        (None, None) => true,
        (Some(mark), Some(other)) => mark == other,
        _ => false,
    }
}

/// A word with the name that it spells where these are the marks of buses. Contracts see the marks and the word.
#[derive(Drop)]
struct Spelling<'a> {
    word: &'a [u8],
    bus: Bus,
    name: Vec<u8>,
}

impl<'a> Model for Spelling<'a> {
    ghost use Rattle.std.specs.Prelude.{◌≡◌, List, ℕ, false};
    ghost use Rattle.spef_reader.specs.declared.context.Bus.{Bus};
    ghost use Rattle.spef_reader.specs.Words.{spelled};

    ghost Value = { Bus × List ℕ };

    ghost view = { λ s. (s.bus, s.word.now) };

    ghost invariant = { λ s. s.name.items ≡ spelled s.bus false s.word.now };
}

impl<'a> Spelling<'a> {
    fn new(alloc: Global, bus: Bus, word: &'a [u8]) -> Result<Spelling<'a>, Memory>
        ensures { IfOk result (λ made. made ≡ (bus, word.entry.now)) }
    {
        let name = spelled(alloc, bus, word)?;
        Ok(Spelling { word, bus, name })
    }

    /// The name of the word, where these are the marks of its spelling; else the word.
    #[tactic(auto, using(crate::proofs::NameMapLemmas::spelled_same))]
    fn reading(&self, bus: Bus) -> Reading<'_>
        ensures { read_as bus result ≡ spelled bus false self.now.1 }
    {
        if is_alike(self.bus.opening, bus.opening) && is_alike(self.bus.closing, bus.closing) {
            Reading::Name(self.name.as_slice())
        } else {
            Reading::Word(self.word)
        }
    }
}

fn map_find<'b, 'a>(
    rows: &'b IndexMap<&'a [u8], Spelling<'a>>,
    index: &[u8],
) -> Option<&'b Spelling<'a>>
    ensures { MatchOption result (told (rows_at rows.now.entries) index.now ≡ None)
        (λ found. told (rows_at rows.now.entries) index.now ≡ Some found.now.1) }
{
    rows.get(index)
}

/// The spelling of the row at a place, where the row is of this index.
fn spelling_at<'b, 'a>(
    rows: &'b IndexMap<&'a [u8], Spelling<'a>>,
    place: usize,
    index: &[u8],
) -> Option<&'b Spelling<'a>>
    ensures { IfSome result
        (λ found. told (rows_at rows.now.entries) index.now ≡ Some found.now.1) }
{
    match rows.get_index(place) {
        Some((key, spelling)) if is_text(*key, index) => Some(spelling),
        _ => None,
    }
}

/// The place of the row of an index where the rows are numbered from 1 in their order.
fn place_of(index: &[u8]) -> usize {
    let mut number: usize = 0;
    for digit in index {
        let more = usize::from(digit.saturating_sub(b'0'));
        number = number.wrapping_mul(10).wrapping_add(more);
    }
    number.wrapping_sub(1)
}

/// The spelling of the word of an index; none exactly where it stands for none.
fn spelling_of<'b, 'a>(
    rows: &'b IndexMap<&'a [u8], Spelling<'a>>,
    index: &[u8],
) -> Option<&'b Spelling<'a>>
    ensures { MatchOption result (told (rows_at rows.now.entries) index.now ≡ None)
        (λ found. told (rows_at rows.now.entries) index.now ≡ Some found.now.1) }
{
    match spelling_at(rows, place_of(index), index) {
        Some(spelling) => Some(spelling),
        None => map_find(rows, index),
    }
}

fn map_set<'a>(
    rows: &mut IndexMap<&'a [u8], Spelling<'a>>,
    index: &'a [u8],
    spelling: Spelling<'a>,
) -> Result<(), Memory>
    ensures { OnOk result
        (rows_at rows.new.entries
        ≡ with_row (rows_at rows.old.entries) index.entry.now spelling.entry.1) }
{
    match rows.insert(index, spelling) {
        Ok(_) => Ok(()),
        Err(_) => Err(Memory),
    }
}

/// The words that indexes stand for, each spelled once as it is set. Contracts see the list of its
/// rows. A look-up takes constant time on average, and no hash where the indexes are numbered from 1
/// in the order of the rows.
#[derive(Drop)]
pub(crate) struct NameMap<'a> {
    rows: IndexMap<&'a [u8], Spelling<'a>>,
}

impl<'a> Model for NameMap<'a> {
    ghost use Rattle.std.specs.Prelude.{List, ℕ};
    ghost use Rattle.spef_reader.specs.Names.{rows_at};

    ghost Value = { List (List ℕ × List ℕ) };

    ghost view = { λ s. rows_at s.rows.entries };
}

impl<'a> NameMap<'a> {
    /// The empty map. Takes no memory.
    pub(crate) fn new(alloc: Global) -> NameMap<'a>
        ensures { result ≡ [] }
    {
        NameMap {
            rows: IndexMap::new(alloc),
        }
    }

    /// What the word of an index reads as with these marks of buses; none exactly where the index
    /// stands for no word. Takes no memory.
    pub(crate) fn find(&self, bus: Bus, index: &[u8]) -> Option<Reading<'_>>
        ensures { option_map (read_as bus) result
            ≡ option_map (spelled bus false) (told self.now index.now) }
    {
        match spelling_of(&self.rows, index) {
            None => None,
            Some(spelling) => Some(spelling.reading(bus)),
        }
    }

    /// Lets an index stand for a word, in place of the word before, and spells it with these marks of buses.
    pub(crate) fn set(
        &mut self,
        alloc: Global,
        bus: Bus,
        index: &'a [u8],
        word: &'a [u8],
    ) -> Result<(), Memory>
        ensures { OnOk result (self.new ≡ with_row self.old index.entry.now word.entry.now) }
    {
        let spelling = Spelling::new(alloc, bus, word)?;
        map_set(&mut self.rows, index, spelling)
    }
}
