//! The arcs into each node of a cone, by the places of nodes.

ghost use Rattle.std.specs.Prelude.{◌≡◌, ◌++◌, ◌∷◌, ◌<◌, ◌^◌, [], All, length, nat_eq, position, IfOk, OnOk};
ghost use Rattle.std.specs.Option.{option_to_list};
ghost use Rattle.std.specs.List.{filter_map};
ghost use Rattle.pin_graph.specs.Nodes.{node_bound};
ghost use Rattle.pin_graph.specs.Graphs.{IsArc};
ghost use Rattle.arc_delays.specs.Delays.{AreDelays};
ghost use Rattle.path_cones.specs.Delays.{walk_arc, arcs_placed};
ghost use Rattle.path_cones.specs.FanIns.{AreParts};

use crate::delays::{delay_along, signed};
use crate::reaching::followed;
use arc_delays::ArcDelays;
use indexmap::IndexSet;
use pin_graph::{Graph, GraphArc};
use sta_units::Memory;
use std::alloc::Global;
use timing_defs::{Items, Kind};
use worst_walks::WalkArc;

/// Where the arcs of a cone and their delays are.
#[derive(Clone, Copy, Drop)]
pub(crate) struct Sources<'a> {
    pub(crate) graph: &'a Graph,
    pub(crate) delays: &'a ArcDelays,
}

/// The place of the node from which an arc leads.
fn from_place(nodes: &IndexSet<u32>, arc: GraphArc) -> Option<u32>
    requires { length nodes.now.keys < 2 ^ 22 }
    ensures { result ≡ position (λ n. nat_eq arc.from n) nodes.now.keys }
{
    let place = nodes.get_index_of(&arc.from)?;
    Some(place as u32)
}

/// An arc from a place, where there is one and the arc has a delay.
fn walk_arc(
    sources: &Sources<'_>,
    kind: Kind,
    nodes: &IndexSet<u32>,
    arc: GraphArc,
    place: Option<u32>,
) -> Option<WalkArc>
    requires delays { AreDelays sources.now.graph.now.stored sources.now.delays.now }
    requires arc { IsArc sources.now.graph.now.stored arc }
    requires place { place ≡ position (λ n. nat_eq arc.from n) nodes.now.keys }
    ensures { result ≡ walk_arc sources.now.graph.now.stored kind nodes.now.keys arc }
{
    // The nodes are asked for by the contract alone.
    let _ = nodes;
    let delay = delay_along(sources.graph, sources.delays, kind, &arc)?;
    let from = place?;
    Some(WalkArc {
        from,
        delay: signed(kind, delay),
    })
}

/// Adds an arc, where it is there.
pub(crate) fn add_arc(arcs: &mut Items<WalkArc>, arc: Option<WalkArc>) -> Result<(), Memory>
    ensures { OnOk result (arcs.new ≡ arcs.old ++ option_to_list arc) }
{
    match arc {
        Some(arc) => arcs.push(arc),
        None => Ok(()),
    }
}

/// Adds these arcs, by the places of nodes.
#[tactic(auto, using(crate::proofs::PartLaws::walked_more))]
fn add_arcs(
    sources: &Sources<'_>,
    kind: Kind,
    nodes: &IndexSet<u32>,
    arcs: &mut Items<WalkArc>,
    into: &[GraphArc],
) -> Result<(), Memory>
    requires delays { AreDelays sources.now.graph.now.stored sources.now.delays.now }
    requires few { length nodes.now.keys < 2 ^ 22 }
    requires into { All (IsArc sources.now.graph.now.stored) into.now }
    ensures { OnOk result
        (arcs.new
        ≡ arcs.old ++ filter_map (walk_arc sources.now.graph.now.stored kind nodes.now.keys)
        into.now) }
{
    for arc in into {
        let place = from_place(nodes, *arc);
        let walked = walk_arc(sources, kind, nodes, *arc, place);
        add_arc(arcs, walked)?;
    }
    Ok(())
}

/// The arcs that are followed into each node, side by side.
#[derive(Drop)]
pub(crate) struct Listed {
    pub(crate) starts: Items<u32>,
    pub(crate) arcs: Items<WalkArc>,
}

/// The number of arcs so far. Fails where it does not fit.
fn start_after(arcs: &Items<WalkArc>) -> Result<u32, Memory>
    ensures { IfOk result (λ start. start ≡ length arcs.now) }
{
    u32::try_from(arcs.len()).map_err(|_| Memory)
}

/// Ends the part of a node.
fn end_part(starts: &mut Items<u32>, arcs: &Items<WalkArc>) -> Result<(), Memory>
    ensures { OnOk result (starts.new ≡ starts.old ++ length arcs.now ∷ []) }
{
    starts.push(start_after(arcs)?)
}

/// A list of starts before the first part, with room for those of some nodes.
fn first_start(alloc: Global, count: usize) -> Result<Items<u32>, Memory>
    requires { count < 2 ^ 22 }
    ensures { IfOk result (λ starts. starts ≡ 0 ∷ []) }
{
    let mut starts = Items::with_room(alloc, count + 1)?;
    starts.push(0)?;
    Ok(starts)
}

/// Lists the arcs into each node of a cone, in time of the arcs. Fails for want of memory, and where there
/// are `2^32` arcs or more.
pub(crate) fn list_arcs(
    alloc: Global,
    sources: &Sources<'_>,
    nodes: &IndexSet<u32>,
    kind: Kind,
) -> Result<Listed, Memory>
    requires delays { AreDelays sources.now.graph.now.stored sources.now.delays.now }
    requires few { length nodes.now.keys < 2 ^ 22 }
    requires below { All (λ n. n < node_bound sources.now.graph.now.stored) nodes.now.keys }
    ensures { IfOk result
        (λ l. AreParts (length nodes.now.keys)
        (arcs_placed sources.now.graph.now kind nodes.now.keys) l.starts l.arcs) }
{
    sources.graph.laws();
    let count = nodes.len();
    let mut starts = first_start(alloc, count)?;
    let mut arcs = Items::with_room(alloc, 2 * count)?;
    for node in nodes.as_slice() {
        let into = followed(sources.graph, *node);
        add_arcs(sources, kind, nodes, &mut arcs, into)?;
        end_part(&mut starts, &arcs)?;
    }
    Ok(Listed { starts, arcs })
}
