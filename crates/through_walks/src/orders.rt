//! The order of layered nodes by that of their places.

ghost use Rattle.std.specs.Prelude.{◌≡◌, ◌+◌, ◌<◌, map, IfOk};
ghost use Rattle.through_walks.specs.Layers.{place_of, past};

use sta_units::Memory;
use std::alloc::Global;
use timing_defs::Items;
use worst_walks::WalkOrder;

/// Layered nodes, below `count`, in the order of their places. The numbers from `count` on are those
/// of the order of places.
#[derive(Drop)]
pub(crate) struct Layered<'a, O> {
    pub(crate) order: &'a O,
    pub(crate) stages: u32,
    pub(crate) count: u32,
}

/// The place of a layered node, and the number in the order of places of one past them.
fn place_of(stages: u32, count: u32, node: u32) -> u32
    requires { node < count → 0 < stages }
    ensures { result ≡ place_of stages count node }
{
    if node < count {
        node / stages
    } else {
        node - count
    }
}

/// A number past the layered nodes. Fails where it takes more than 32 bits, as no graph that memory
/// has room for.
fn past(count: u32, node: u32) -> Result<u32, Memory>
    ensures { IfOk result (λ n. n ≡ past count node) }
{
    match node.checked_add(count) {
        Some(number) => Ok(number),
        None => Err(Memory),
    }
}

/// Nodes by numbers past the layered nodes.
fn all_past(alloc: Global, count: u32, nodes: &[u32]) -> Result<Items<u32>, Memory>
    ensures { IfOk result (λ moved. moved ≡ map (past count) nodes.now) }
{
    let mut moved = Items::with_room(alloc, nodes.len())?;
    for node in nodes {
        let number = past(count, *node)?;
        moved.push(number)?;
    }
    Ok(moved)
}

impl<O: WalkOrder> WalkOrder for Layered<'_, O> {
    ghost use Rattle.through_walks.specs.Layers.{known_on, rank_on, before_on};

    ghost count = { λ layered. known_on layered.stages layered.count (O.count layered.order.now) };

    ghost rank = { λ layered. rank_on layered.stages layered.count (O.rank layered.order.now) };

    ghost before = { λ layered. before_on layered.stages layered.count
        (O.before layered.order.now) };

    #[tactic(auto, using(crate::proofs::Knowing::place_known, crate::proofs::Knowing::stages_there))]
    fn comes_first(&self, one: u32, other: u32) -> bool {
        let one = place_of(self.stages, self.count, one);
        let other = place_of(self.stages, self.count, other);
        self.order.comes_first(one, other)
    }

    #[tactic(auto, using(crate::proofs::Knowing::place_known, crate::proofs::Knowing::stages_there))]
    fn nodes_before(&self, alloc: Global, launch: u32) -> Result<Items<u32>, Memory> {
        let place = place_of(self.stages, self.count, launch);
        let nodes = self.order.nodes_before(alloc, place)?;
        all_past(alloc, self.count, nodes.as_slice())
    }
}
