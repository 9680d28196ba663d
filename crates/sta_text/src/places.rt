//! Maps from names to numbers.

ghost use Rattle.std.specs.Prelude.{◌≡◌, ◌∷◌, ◌++◌, [], ℕ, List, Some, None, OnOk, if◌then◌else◌};
ghost use Rattle.std.specs.Str.{bytes_eq};
ghost use Rattle.sta_text.specs.Names.{pairs, said};

use indexmap::IndexMap;
use sta_units::Memory;
use std::alloc::{AllocFailed, Global};
use std::marker::Model;

fn map_find(numbers: &IndexMap<&[u8], usize>, name: &[u8]) -> Option<usize>
    ensures { result ≡ said (pairs numbers.now.entries) name.now }
{
    numbers.get(name).copied()
}

fn map_set<'a>(
    numbers: &mut IndexMap<&'a [u8], usize>,
    name: &'a [u8],
    number: usize,
) -> Result<Option<usize>, AllocFailed<(&'a [u8], usize)>>
    ensures any { OnOk result
        ((q : List ℕ) → said (pairs numbers.new.entries) q
        ≡ (if bytes_eq q name.entry.now then Some number else said (pairs numbers.old.entries) q)) }
    ensures list { OnOk result
        (said (pairs numbers.old.entries) name.entry.now ≡ None → pairs numbers.new.entries
        ≡ pairs numbers.old.entries ++ (name.entry.now, number) ∷ []) }
{
    numbers.insert(name, number)
}

/// A map from names that are kept elsewhere, as slices of a text, to numbers. Contracts see the list
/// of its pairs in the order in which the names were first set. A look-up takes constant time on
/// average.
#[derive(Drop)]
pub struct Places<'a> {
    numbers: IndexMap<&'a [u8], usize>,
}

impl<'a> Model for Places<'a> {
    ghost use Rattle.std.specs.Prelude.{List, ℕ};
    ghost use Rattle.sta_text.specs.Names.{pairs};

    ghost Value = { List (List ℕ × ℕ) };

    ghost view = { λ s. pairs s.numbers.entries };
}

impl<'a> Places<'a> {
    /// The empty map. Takes no memory.
    pub fn new(alloc: Global) -> Places<'a>
        ensures { result ≡ [] }
    {
        Places {
            numbers: IndexMap::new(alloc),
        }
    }

    /// The number of the name; none exactly where it was not set. Takes no memory.
    pub fn find(&self, name: &[u8]) -> Option<usize>
        ensures { result ≡ said self.now name.now }
    {
        map_find(&self.numbers, name)
    }

    /// Sets the number of the name, in the place of the one before.
    pub fn set(&mut self, name: &'a [u8], number: usize) -> Result<(), Memory>
        ensures any { OnOk result
            ((q : List ℕ) → said self.new q
            ≡ (if bytes_eq q name.entry.now then Some number else said self.old q)) }
        ensures list { OnOk result
            (said self.old name.entry.now ≡ None → self.new
            ≡ self.old ++ (name.entry.now, number) ∷ []) }
    {
        match map_set(&mut self.numbers, name, number) {
            Ok(_) => Ok(()),
            Err(_) => Err(Memory),
        }
    }
}
