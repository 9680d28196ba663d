//! What the arcs into a node give it: its level.

ghost use Rattle.std.specs.Prelude.{◌≡◌, ◌<◌, All, length, map, IfOk};
ghost use Rattle.settling.specs.Settled.{AreLow};
ghost use Rattle.pin_graph.specs.Graphs.{to_of};
ghost use Rattle.pin_graph.specs.NodeValues.{level_behind};

use crate::arcs::GraphArc;
use crate::held_fans::Fans;
use crate::nodes::pin_under;
use crate::pin_rules::value_at;
use cow_table::CowTable;
use settling::Rule;
use sta_units::Memory;
use std::alloc::Global;
use timing_defs::Items;

/// One more than the greatest level from which some arcs lead, 0 of none.
fn level_behind(levels: &CowTable<u32>, arcs: &[GraphArc]) -> u32
    requires within { All (λ arc. arc.from < length levels.now) arcs.now }
    requires low { AreLow levels.now }
    ensures { result ≡ level_behind levels.now arcs.now }
{
    let mut level = 0;
    for arc in arcs {
        level = level.max(value_at(levels, arc.from) + 1);
    }
    level
}

/// The nodes to which some arcs lead.
fn heads(alloc: Global, arcs: &[GraphArc]) -> Result<Items<u32>, Memory>
    ensures { IfOk result (λ nodes. nodes ≡ map to_of arcs.now) }
{
    let mut nodes = Items::with_room(alloc, arcs.len())?;
    for arc in arcs {
        nodes.push(arc.to)?;
    }
    Ok(nodes)
}

/// The levels of nodes over the arcs into and out of them: 0 without arcs in, else one more than the greatest of
/// those before. The work goes by rising levels of the nodes' pins.
#[derive(Drop)]
pub(crate) struct NodeLevels<'a> {
    pub(crate) ins: &'a Fans,
    pub(crate) outs: &'a Fans,
    pub(crate) pin_levels: &'a CowTable<u32>,
}

impl Rule for NodeLevels<'_> {
    ghost use Rattle.std.specs.Prelude.{length};
    ghost use Rattle.pin_graph.specs.NodeValues.{node_level, nodes_behind, AreOpposite};

    ghost count = { λ r. length r.ins.now.later };

    ghost is_ready = { λ r. AreOpposite (length r.ins.now.later) r.ins.now r.outs.now
        r.pin_levels.now };

    ghost value = { λ r. node_level r.ins.now };

    ghost behind = { λ r. nodes_behind r.outs.now };

    fn value(&self, _alloc: Global, values: &CowTable<u32>, at: u32) -> Result<u32, Memory> {
        Ok(level_behind(values, self.ins.at(at)))
    }

    fn behind(&self, alloc: Global, at: u32) -> Result<Items<u32>, Memory> {
        heads(alloc, self.outs.at(at))
    }

    fn key(&self, _values: &CowTable<u32>, at: u32) -> u32 {
        value_at(self.pin_levels, pin_under(at))
    }
}
