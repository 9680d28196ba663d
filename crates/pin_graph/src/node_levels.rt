//! Levels of nodes.

ghost use Rattle.std.specs.Prelude.{◌≡◌, map, IfOk};
ghost use Rattle.levelizer.specs.Levels.{AreLevels, HasNoCycle};
ghost use Rattle.pin_graph.specs.NodeArcs.{AreNodes, node_link};

use crate::arcs::GraphArc;
use levelizer::{LevelFault, Link, levels};
use sta_units::Memory;
use std::alloc::Global;
use timing_defs::Items;

/// Arcs without what they are of.
fn node_links(alloc: Global, arcs: &[GraphArc]) -> Result<Items<Link>, Memory>
    ensures { IfOk result (λ links. links ≡ map node_link arcs.now) }
{
    let mut links = Items::with_room(alloc, arcs.len())?;
    for arc in arcs {
        links.push(Link {
            from: arc.from,
            to: arc.to,
        })?;
    }
    Ok(links)
}

/// The level of each node below `n`: 0 without arcs in, else one more than its greatest predecessor's.
/// Takes as many steps as there are nodes and arcs.
pub(crate) fn node_levels(alloc: Global, n: u32, arcs: &[GraphArc]) -> Result<Items<u32>, Memory>
    requires within { AreNodes n arcs.now }
    requires no_cycle { HasNoCycle (map node_link arcs.now) }
    ensures { IfOk result (AreLevels n (map node_link arcs.now)) }
{
    let links = node_links(alloc, arcs)?;
    match levels(alloc, n, links.as_slice()) {
        Ok(levels) => Ok(levels),
        Err(LevelFault::Cycle(_)) => unreachable!(),
        Err(LevelFault::Memory) => Err(Memory),
    }
}
