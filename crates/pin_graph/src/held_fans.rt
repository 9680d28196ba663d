//! The arcs of each node: those that were found at first, and beside them the lists that ECOs changed.

ghost use Rattle.std.specs.Prelude.{◌≡◌, ◌<◌, ◌≤◌, None, length, replicate, IfOk, OnOk};
ghost use Rattle.pin_graph.specs.HeldFans.{with_list, longer, IsHeldFan};
ghost use Rattle.pin_graph.specs.Graphs.{fan_at, IsFans};

use crate::arcs::GraphArc;
use crate::fans::Fan;
use cow_table::{CowTable, Held};
use sta_units::Memory;
use std::alloc::Global;
use timing_defs::Items;

/// The arcs of each node: of the list that it was given later, else those that it had at first. Copies
/// share all lists.
#[derive(Drop)]
pub(crate) struct Fans {
    pub(crate) first: Held<Fan>,
    pub(crate) later: CowTable<Option<Held<Items<GraphArc>>>>,
}

/// A table of that many lists, none of which is there.
fn no_lists(alloc: Global, n: u32) -> Result<CowTable<Option<Held<Items<GraphArc>>>>, Memory>
    ensures { IfOk result (λ lists. lists ≡ replicate n None) }
{
    let mut lists = CowTable::new(alloc);
    for node in 0..n {
        let _ = node;
        lists.push(None)?;
    }
    Ok(lists)
}

impl Fans {
    /// The arcs of a fan of so many nodes.
    pub(crate) fn of(alloc: Global, n: u32, fan: Fan) -> Result<Fans, Memory>
        ensures { IfOk result (IsHeldFan n fan) }
    {
        let first = Held::of(alloc, fan)?;
        match no_lists(alloc, n) {
            Ok(later) => Ok(Fans { first, later }),
            Err(wanting) => {
                first.discard();
                Err(wanting)
            }
        }
    }

    /// A copy, which shares all lists.
    pub(crate) fn copy(&self) -> Result<Fans, Memory>
        ensures { IfOk result (λ fans. fans ≡ self.now) }
    {
        let first = self.first.share()?;
        match self.later.copy() {
            Ok(later) => Ok(Fans { first, later }),
            Err(wanting) => {
                first.discard();
                Err(wanting)
            }
        }
    }

    /// The arcs of a node.
    pub(crate) fn at(&self, node: u32) -> &[GraphArc]
        requires fans { IsFans (length self.now.later) self.now }
        requires node { node < length self.now.later }
        ensures { result.now ≡ fan_at self.now node }
    {
        match self.later.get(node as usize) {
            Some(arcs) => arcs.get().as_slice(),
            None => self.first.get().at(node),
        }
    }

    /// Gives a node other arcs.
    pub(crate) fn set(
        &mut self,
        alloc: Global,
        node: u32,
        arcs: Items<GraphArc>,
    ) -> Result<(), Memory>
        requires { node < length self.old.later }
        ensures { OnOk result (self.new ≡ with_list self.old node arcs) }
    {
        let arcs = Held::of(alloc, arcs)?;
        self.later.set(node as usize, Some(arcs))
    }

    /// Adds nodes without arcs, up to that number.
    pub(crate) fn lengthen(&mut self, alloc: Global, n: u32) -> Result<(), Memory>
        requires { length self.old.later ≤ n }
        ensures { OnOk result (self.new ≡ longer self.old n) }
    {
        let none = Held::of(alloc, Items::new(alloc))?;
        for at in self.later.len()..n as usize {
            let _ = at;
            self.later.push(Some(none.share()?))?;
        }
        Ok(())
    }
}
