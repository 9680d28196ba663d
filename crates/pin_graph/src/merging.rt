//! One arc for several between the same two nodes.

ghost use Rattle.std.specs.Prelude.{◌≡◌, ◌++◌, ◌<◌, [], ◌∷◌, List, All, length, IfOk, OnOk};
ghost use Rattle.pin_graph.specs.declared.arcs.GraphArc.{GraphArc};
ghost use Rattle.pin_graph.specs.NodeArcs.{joined_arc, joined_kind, noted_place, AreJoined, AreMerged, AreNodes, AreNoted, IsJoinedTo};

use crate::arcs::{GraphArc, GraphKind};
use crate::fans::{End, Fan};
use sta_units::Memory;
use std::alloc::Global;
use timing_defs::Items;

fn joined_kind(a: GraphKind, b: GraphKind) -> GraphKind
    ensures { result ≡ joined_kind a b }
{
    match b {
        GraphKind::Cell => GraphKind::Cell,
        GraphKind::Net | GraphKind::Register => a,
    }
}

/// One arc for two between the same nodes.
pub(crate) fn joined_arc(a: GraphArc, b: GraphArc) -> GraphArc
    ensures { result ≡ joined_arc a b }
{
    GraphArc {
        from: a.from,
        to: a.to,
        kind: joined_kind(a.kind, b.kind),
        edge: a.edge || b.edge,
    }
}

/// The place of the arc from a node, where there is one: each arc's place is noted at its node, and
/// what is noted at other nodes is of earlier use.
fn place_from(arcs: &[GraphArc], places: &[usize], from: u32) -> Option<usize>
    requires { from < length places.now }
    ensures { result ≡ noted_place arcs.now places.now from }
{
    let place = places[from as usize];
    if place < arcs.len() && arcs[place].from == from {
        Some(place)
    } else {
        None
    }
}

/// Adds an arc.
pub(crate) fn push_arc(arcs: &mut Vec<GraphArc>, arc: GraphArc) -> Result<(), Memory>
    ensures { OnOk result (arcs.new.items ≡ arcs.old.items ++ arc ∷ []) }
{
    match arcs.push(arc) {
        Ok(()) => Ok(()),
        Err(_) => Err(Memory),
    }
}

/// Joins an arc to the one from the same node, or adds it.
fn join(arcs: &mut Vec<GraphArc>, places: &mut [usize], arc: GraphArc) -> Result<(), Memory>
    requires from { arc.from < length places.old }
    requires noted { AreNoted arcs.old.items places.old }
    ensures noted { OnOk result (AreNoted arcs.new.items places.new) }
    ensures joined { OnOk result
        ((xs : List GraphArc) → AreJoined xs arcs.old.items
        → AreJoined (xs ++ arc ∷ []) arcs.new.items) }
{
    match place_from(arcs.as_slice(), places, arc.from) {
        Some(place) => {
            arcs[place] = joined_arc(arcs[place], arc);
            Ok(())
        }
        None => {
            places[arc.from as usize] = arcs.len();
            push_arc(arcs, arc)
        }
    }
}

/// One arc for all from the same node, of arcs into one node.
fn joined(alloc: Global, places: &mut [usize], fan: &[GraphArc]) -> Result<Vec<GraphArc>, Memory>
    requires { All (λ arc. arc.from < length places.old) fan.now }
    ensures { IfOk result (λ arcs. AreJoined fan.now arcs.items) }
{
    let mut arcs = Vec::new(alloc);
    for arc in fan {
        join(&mut arcs, places, *arc)?;
    }
    Ok(arcs)
}

/// Adds arcs.
fn add_all(all: &mut Items<GraphArc>, arcs: &[GraphArc]) -> Result<(), Memory>
    ensures { OnOk result (all.new ≡ all.old ++ arcs.now) }
{
    for arc in arcs {
        all.push(*arc)?;
    }
    Ok(())
}

/// Adds one arc for all from the same node, of arcs into a node.
fn add_joined(
    alloc: Global,
    arcs: &mut Items<GraphArc>,
    places: &mut [usize],
    fan: &[GraphArc],
) -> Result<(), Memory>
    requires { All (λ arc. arc.from < length places.old) fan.now }
    ensures { OnOk result (IsJoinedTo fan.now arcs.old arcs.new) }
{
    let joined = joined(alloc, places, fan)?;
    add_all(arcs, joined.as_slice())
}

/// One arc for all between the same two nodes below `n`. Takes as many steps as there are nodes and arcs.
pub(crate) fn merged(alloc: Global, n: u32, raw: &[GraphArc]) -> Result<Items<GraphArc>, Memory>
    requires { AreNodes n raw.now }
    ensures { IfOk result (AreMerged n raw.now) }
{
    let fan = Fan::of(alloc, n, End::To, raw)?;
    let mut places = vec![in alloc; 0usize; n as usize]?;
    let mut arcs = Items::new(alloc);
    for node in 0..n {
        add_joined(alloc, &mut arcs, &mut places, fan.at(node))?;
    }
    Ok(arcs)
}
