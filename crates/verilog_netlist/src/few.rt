//! Sets of names of which most are small.

ghost use Rattle.std.specs.Prelude.{◌≡◌, ◌<◌, ◌++◌, ◌∷◌, [], false, length, not, IfOk, if◌then◌else◌};
ghost use Rattle.sta_text.specs.Names.{stands, texts};
ghost use Rattle.verilog_netlist.specs.Faults.{with_name};

use sta_text::Names;
use sta_units::Memory;
use std::alloc::Global;
use std::marker::Model;

/// So many names are looked through; those behind them are found by their hashes.
const FEW: usize = 16;

#[tactic(auto, using(std::proofs::lemmas::List::drop_more))]
fn is_among(names: &[&[u8]], name: &[u8]) -> bool
    ensures { result ≡ stands (texts names.now) name.now }
{
    for known in names {
        if name == *known {
            return true;
        }
    }
    false
}

/// Whether a name stands among the first ones or behind them.
#[tactic(auto, using(crate::proofs::FewLemmas::first_or_behind))]
fn is_in(first: &[&[u8]], behind: &Names<'_>, name: &[u8]) -> bool
    requires { length first.now < 16 → behind.now ≡ [] }
    ensures { result ≡ stands (texts first.now ++ behind.now) name.now }
{
    if first.len() < FEW {
        return is_among(first, name);
    }
    is_among(first, name) || behind.has(name)
}

/// Adds a name that is new.
#[tactic(auto, using(crate::proofs::FewLemmas::one_first, crate::proofs::FewLemmas::is_behind))]
fn put<'a>(first: &mut Vec<&'a [u8]>, behind: &mut Names<'a>, name: &'a [u8]) -> Result<(), Memory>
    requires few { length first.old.items < 16 → behind.old ≡ [] }
    requires new { stands (texts first.old.items ++ behind.old) name.now ≡ false }
    ensures few { length first.new.items < 16 → behind.new ≡ [] }
    ensures list { IfOk result
        (λ _. texts first.new.items ++ behind.new
        ≡ (texts first.old.items ++ behind.old) ++ name.entry.now ∷ []) }
{
    if FEW <= first.len() {
        let _ = behind.add(name)?;
        return Ok(());
    }
    match first.push(name) {
        Ok(()) => Ok(()),
        Err(_) => Err(Memory),
    }
}

/// A set of names that are kept elsewhere, as slices of a text. Contracts see the list of its names
/// in the order in which they were added. A look-up takes constant time on average, and where there are
/// few names it hashes nothing.
#[derive(Drop)]
pub(crate) struct FewNames<'a> {
    first: Vec<&'a [u8]>,
    behind: Names<'a>,
}

impl<'a> Model for FewNames<'a> {
    ghost use Rattle.std.specs.Prelude.{◌≡◌, ◌<◌, ◌++◌, [], List, ℕ, length};
    ghost use Rattle.sta_text.specs.Names.{texts};

    ghost Value = { List (List ℕ) };

    ghost view = { λ s. texts s.first.items ++ s.behind };

    ghost invariant = { λ s. length s.first.items < 16 → s.behind ≡ [] };
}

impl<'a> FewNames<'a> {
    /// The empty set. Takes no memory.
    pub(crate) fn new(alloc: Global) -> FewNames<'a>
        ensures { result ≡ [] }
    {
        FewNames {
            first: Vec::new(alloc),
            behind: Names::new(alloc),
        }
    }

    /// Whether the name is in the set. Takes no memory.
    pub(crate) fn has(&self, name: &[u8]) -> bool
        ensures { result ≡ stands self.now name.now }
    {
        is_in(self.first.as_slice(), &self.behind, name)
    }

    /// Adds a name; whether it was new.
    pub(crate) fn add(&mut self, name: &'a [u8]) -> Result<bool, Memory>
        ensures found { IfOk result (λ new. new ≡ not (stands self.old name.entry.now)) }
        ensures list { IfOk result (λ new. self.new ≡ with_name self.old name.entry.now) }
    {
        if self.has(name) {
            return Ok(false);
        }
        match put(&mut self.first, &mut self.behind, name) {
            Ok(()) => Ok(true),
            Err(wanting) => Err(wanting),
        }
    }

    /// Takes all names out. Keeps the room of the first ones.
    pub(crate) fn clear(&mut self, alloc: Global)
        ensures { self.new ≡ [] }
    {
        if FEW <= self.first.len() {
            *self = FewNames::new(alloc);
        } else {
            self.first.clear();
        }
    }
}
