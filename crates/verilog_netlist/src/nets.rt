//! Sets of nets.

ghost use Rattle.std.specs.Prelude.{◌≡◌, ◌<◌, ◌^◌, ◌++◌, ◌∷◌, [], length, Some, IfOk, if◌then◌else◌};
ghost use Rattle.std.specs.List.{list_any};
ghost use Rattle.sta_text.specs.Names.{stands};
ghost use Rattle.verilog_netlist.specs.Nets.{nets_of};
ghost use Rattle.verilog_netlist.specs.Faults.{with_name, with_names, clashes};

use crate::events::Span;
use crate::names::is_bit;
use indexmap::IndexSet;
use sta_units::Memory;
use std::alloc::{AllocFailed, Global};
use std::marker::Model;
use timing_defs::{Items, Name};

fn set_has(names: &IndexSet<Name>, name: &Name) -> bool
    ensures { result ≡ stands names.now.keys name.now }
{
    names.contains(name)
}

fn set_add(names: &mut IndexSet<Name>, name: Name) -> Result<bool, AllocFailed<Name>>
    ensures { IfOk result (λ new. names.new.keys ≡ with_name names.old.keys name) }
{
    names.insert(name)
}

/// The nets of a set, in its order.
fn taken(alloc: Global, names: IndexSet<Name>) -> Result<Items<Name>, Memory>
    ensures { IfOk result (λ found. found ≡ names.keys) }
{
    let mut found = Items::with_room(alloc, names.len())?;
    for name in names {
        found.push(name)?;
    }
    Ok(found)
}

/// Whether one of the nets is a bit of a vector.
#[tactic(auto, using(std::proofs::lemmas::List::drop_more))]
fn any_bit(alloc: Global, nets: &[Name], span: Span, name: &Name) -> Result<bool, Memory>
    ensures { IfOk result
        (λ found. found ≡ list_any (stands (nets_of (Some span) name.now)) nets.now) }
{
    for net in nets {
        if is_bit(alloc, span, name, net)? {
            return Ok(true);
        }
    }
    Ok(false)
}

/// A set of nets. Contracts see the list of their names, in the order in which they were added. A
/// look-up takes constant time on average.
#[derive(Drop)]
pub(crate) struct NetSet {
    names: IndexSet<Name>,
}

impl Model for NetSet {
    ghost use Rattle.std.specs.Prelude.{List, ℕ};

    ghost Value = { List (List ℕ) };

    ghost view = { λ s. s.names.keys };
}

impl NetSet {
    /// The empty set. Takes no memory.
    pub(crate) fn new(alloc: Global) -> NetSet
        ensures { result ≡ [] }
    {
        NetSet {
            names: IndexSet::new(alloc),
        }
    }

    /// How many nets the set has.
    pub(crate) fn len(&self) -> usize
        ensures { result ≡ length self.now }
    {
        self.names.len()
    }

    /// Whether the net is in the set.
    pub(crate) fn has(&self, name: &Name) -> bool
        ensures { result ≡ stands self.now name.now }
    {
        set_has(&self.names, name)
    }

    /// Adds a net.
    pub(crate) fn add(&mut self, name: Name) -> Result<(), Memory>
        ensures { IfOk result (λ _. self.new ≡ with_name self.old name) }
    {
        match set_add(&mut self.names, name) {
            Ok(_) => Ok(()),
            Err(refused) => {
                drop(refused);
                Err(Memory)
            }
        }
    }

    /// Whether one of the nets is in the set.
    pub(crate) fn has_any(&self, names: &[Name]) -> bool
        ensures { result ≡ clashes self.now names.now }
    {
        names.iter().any(|name| self.has(name))
    }

    /// Whether a bit of a vector is in the set. It looks through the set, not through the bits.
    #[tactic(auto, using(crate::proofs::BitLemmas::clash_swap))]
    pub(crate) fn has_bit(&self, alloc: Global, span: Span, name: &Name) -> Result<bool, Memory>
        ensures { IfOk result (λ found. found ≡ clashes self.now (nets_of (Some span) name.now)) }
    {
        any_bit(alloc, self.names.as_slice(), span, name)
    }

    /// Adds copies of the nets.
    #[tactic(auto, unfolding(crate::specs::Faults::with_names), using(std::proofs::lemmas::List::drop_more))]
    pub(crate) fn add_all(&mut self, alloc: Global, names: &[Name]) -> Result<(), Memory>
        ensures { IfOk result (λ _. self.new ≡ with_names self.old names.now) }
    {
        for name in names {
            self.add(name.copied(alloc)?)?;
        }
        Ok(())
    }

    /// Adds the nets.
    #[tactic(auto, unfolding(crate::specs::Faults::with_names), using(crate::proofs::SetLemmas::with_none))]
    pub(crate) fn take_all(&mut self, names: Items<Name>) -> Result<(), Memory>
        ensures { IfOk result (λ _. self.new ≡ with_names self.old names) }
    {
        for name in names.into_vec() {
            self.add(name)?;
        }
        Ok(())
    }

    /// The nets, in the order in which they were added.
    pub(crate) fn into_items(self, alloc: Global) -> Result<Items<Name>, Memory>
        ensures { IfOk result (λ nets. nets ≡ self) }
    {
        let NetSet { names } = self;
        taken(alloc, names)
    }
}
