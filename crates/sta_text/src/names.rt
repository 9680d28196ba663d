//! Sets of names, which keep them in the order in which they came.

ghost use Rattle.std.specs.Prelude.{◌≡◌, ◌∷◌, ◌++◌, [], ℕ, List, ◌||◌, IfOk, not, if◌then◌else◌};
ghost use Rattle.std.specs.Str.{bytes_eq};
ghost use Rattle.sta_text.specs.Names.{stands, texts};

use indexmap::IndexSet;
use sta_units::Memory;
use std::alloc::{AllocFailed, Global};
use std::marker::Model;

fn set_has(names: &IndexSet<&[u8]>, name: &[u8]) -> bool
    ensures { result ≡ stands (texts names.now.keys) name.now }
{
    names.contains(name)
}

#[tactic(auto, using(crate::proofs::NamesLemmas::any_texts, crate::proofs::NamesLemmas::texts_push))]
fn set_insert<'a>(
    names: &mut IndexSet<&'a [u8]>,
    name: &'a [u8],
) -> Result<bool, AllocFailed<&'a [u8]>>
    ensures found { IfOk result (λ new. new ≡ not (stands (texts names.old.keys) name.entry.now)) }
    ensures list { IfOk result
        (λ new. texts names.new.keys
        ≡ (if new then texts names.old.keys ++ name.entry.now ∷ [] else texts names.old.keys)) }
{
    names.insert(name)
}

/// Adds a name; whether it was new.
fn set_add<'a>(names: &mut IndexSet<&'a [u8]>, name: &'a [u8]) -> Result<bool, Memory>
    ensures found { IfOk result (λ new. new ≡ not (stands (texts names.old.keys) name.entry.now)) }
    ensures list { IfOk result
        (λ new. texts names.new.keys
        ≡ (if new then texts names.old.keys ++ name.entry.now ∷ [] else texts names.old.keys)) }
{
    match set_insert(names, name) {
        Ok(new) => Ok(new),
        Err(_) => Err(Memory),
    }
}

/// A set of names that are kept elsewhere, as slices of a text. Contracts see the list of its names
/// in the order in which they were added. A look-up takes constant time on average.
#[derive(Drop)]
pub struct Names<'a> {
    names: IndexSet<&'a [u8]>,
}

impl<'a> Model for Names<'a> {
    ghost use Rattle.std.specs.Prelude.{List, ℕ};
    ghost use Rattle.sta_text.specs.Names.{texts};

    ghost Value = { List (List ℕ) };

    ghost view = { λ s. texts s.names.keys };
}

impl<'a> Names<'a> {
    /// The empty set. Takes no memory.
    pub fn new(alloc: Global) -> Names<'a>
        ensures { result ≡ [] }
    {
        Names {
            names: IndexSet::new(alloc),
        }
    }

    /// Whether the name is in the set. Takes no memory.
    pub fn has(&self, name: &[u8]) -> bool
        ensures { result ≡ stands self.now name.now }
    {
        set_has(&self.names, name)
    }

    /// Adds a name; whether it was new.
    pub fn add(&mut self, name: &'a [u8]) -> Result<bool, Memory>
        ensures found { IfOk result (λ new. new ≡ not (stands self.old name.entry.now)) }
        ensures list { IfOk result
            (λ new. self.new ≡ (if new then self.old ++ name.entry.now ∷ [] else self.old)) }
        ensures any { IfOk result
            (λ new. (q : List ℕ) → stands self.new q
            ≡ (bytes_eq q name.entry.now || stands self.old q)) }
    {
        set_add(&mut self.names, name)
    }
}
