//! The arcs that are followed into one node, by the numbers of nodes.

ghost use Rattle.std.specs.Prelude.{◌≡◌, ◌<◌, IfOk};
ghost use Rattle.pin_graph.specs.Nodes.{node_bound};
ghost use Rattle.pin_graph.specs.Graphs.{IsArc};
ghost use Rattle.arc_delays.specs.Delays.{AreDelays};
ghost use Rattle.path_cones.specs.Following.{numbered_arc, arcs_followed};

use crate::delays::{delay_along, signed};
use crate::listing::{Sources, add_arc};
use crate::reaching::followed;
use arc_delays::ArcDelays;
use pin_graph::{Graph, GraphArc};
use sta_units::Memory;
use std::alloc::Global;
use timing_defs::{Items, Kind};
use worst_walks::WalkArc;

/// An arc by the number of the node from which it leads, with its delay; none where it has no delay.
fn numbered_arc(sources: &Sources<'_>, kind: Kind, arc: GraphArc) -> Option<WalkArc>
    requires delays { AreDelays sources.now.graph.now.stored sources.now.delays.now }
    requires arc { IsArc sources.now.graph.now.stored arc }
    ensures { result ≡ numbered_arc sources.now.graph.now.stored kind arc }
{
    let delay = delay_along(sources.graph, sources.delays, kind, &arc)?;
    Some(WalkArc {
        from: arc.from,
        delay: signed(kind, delay),
    })
}

/// The arcs that a walk follows into a node, by the numbers of the nodes from which they lead, each with
/// its delay in fs: of setup tests the late one, of hold tests the early one with its sign turned. None
/// are followed into a node of the clock network. Takes the time of these arcs and of looking up their
/// delays. The one error is want of memory.
pub fn arcs_into(
    alloc: Global,
    graph: &Graph,
    delays: &ArcDelays,
    kind: Kind,
    node: u32,
) -> Result<Items<WalkArc>, Memory>
    requires delays { AreDelays graph.now.stored delays.now }
    requires node { node < node_bound graph.now.stored }
    ensures { IfOk result (λ arcs. arcs ≡ arcs_followed graph.now kind node) }
{
    let sources = Sources { graph, delays };
    let into = followed(graph, node);
    let mut arcs = Items::with_room(alloc, into.len())?;
    for arc in into {
        add_arc(&mut arcs, numbered_arc(&sources, kind, *arc))?;
    }
    Ok(arcs)
}
