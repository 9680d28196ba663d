//! The arcs of a layered cone.

ghost use Rattle.std.specs.Prelude.{◌≡◌, ◌+◌, ◌*◌, ◌^◌, ◌<◌, ◌≤◌, ◌++◌, ◌∷◌, [], All, map, length, IfOk, OnOk};
ghost use Rattle.worst_walks.specs.Walks.{most_nodes, count_of, IsCone};
ghost use Rattle.worst_walks.specs.Tables.{AreFirst};
ghost use Rattle.through_walks.specs.Layers.{arc_on, arcs_from, arcs_onto, arcs_layered, AreParts};

use crate::stops::{Stop, next_stop};
use sta_units::Memory;
use std::alloc::Global;
use timing_defs::Items;
use worst_walks::{Cone, WalkArc, arcs_at};

/// The number of a place at a stage.
pub(crate) fn number(stages: u32, place: u32, stage: u32) -> u32
    requires stage { stage < stages }
    requires low { place * stages + stages ≤ most_nodes }
    ensures { result ≡ place * stages + stage }
{
    place * stages + stage
}

fn arc_on(stages: u32, stage: u32, arc: WalkArc) -> WalkArc
    requires stage { stage < stages }
    requires low { arc.from * stages + stages ≤ most_nodes }
    ensures { result ≡ arc_on stages stage arc }
{
    WalkArc {
        from: number(stages, arc.from, stage),
        delay: arc.delay,
    }
}

/// Adds arcs as they lead from a stage.
fn push_arcs(
    arcs: &mut Items<WalkArc>,
    listed: &[WalkArc],
    stages: u32,
    stage: u32,
) -> Result<(), Memory>
    requires stage { stage < stages }
    requires low { All (λ arc. arc.from * stages + stages ≤ most_nodes) listed.now }
    ensures { OnOk result (arcs.new ≡ arcs.old ++ map (arc_on stages stage) listed.now) }
{
    for arc in listed {
        arcs.push(arc_on(stages, stage, *arc))?;
    }
    Ok(())
}

/// Adds the arcs into a place from one stage to another, where that stage is followed by this one there.
fn push_from(
    arcs: &mut Items<WalkArc>,
    listed: &[WalkArc],
    stops: &[Stop],
    stages: u32,
    place: u32,
    from: u32,
    to: u32,
) -> Result<(), Memory>
    requires stops { length stops.now < most_nodes }
    requires stage { from < stages }
    requires low { All (λ arc. arc.from * stages + stages ≤ most_nodes) listed.now }
    ensures { OnOk result
        (arcs.new ≡ arcs.old ++ arcs_from stops.now stages listed.now place from to) }
{
    if next_stop(stops, from, place) == to {
        return push_arcs(arcs, listed, stages, from);
    }
    Ok(())
}

/// Adds the arcs into a place at a stage.
fn push_onto(
    arcs: &mut Items<WalkArc>,
    listed: &[WalkArc],
    stops: &[Stop],
    stages: u32,
    place: u32,
    stage: u32,
) -> Result<(), Memory>
    requires stops { length stops.now < most_nodes }
    requires stage { stage < stages }
    requires low { All (λ arc. arc.from * stages + stages ≤ most_nodes) listed.now }
    ensures { OnOk result
        (arcs.new ≡ arcs.old ++ arcs_onto stops.now stages listed.now place stage) }
{
    push_from(arcs, listed, stops, stages, place, stage, stage)?;
    if stage == 0 {
        return Ok(());
    }
    push_from(arcs, listed, stops, stages, place, stage - 1, stage)
}

/// Adds the arcs into a layered node.
fn push_node(
    arcs: &mut Items<WalkArc>,
    cone: &Cone,
    marks: &[bool],
    stops: &[Stop],
    stages: u32,
    node: u32,
) -> Result<(), Memory>
    requires cone { IsCone cone.now }
    requires marks { AreFirst cone.now marks.now }
    requires stops { length stops.now < stages }
    requires few { count_of cone.now * stages < most_nodes }
    requires node { node < count_of cone.now * stages }
    ensures { OnOk result (arcs.new ≡ arcs.old ++ arcs_layered stops.now stages cone.now node) }
{
    let place = node / stages;
    let listed = arcs_at(cone, marks, place);
    push_onto(arcs, listed, stops, stages, place, node % stages)
}

/// The arcs into each node, side by side.
#[derive(Drop)]
pub(crate) struct Listed {
    pub(crate) starts: Items<u32>,
    pub(crate) arcs: Items<WalkArc>,
}

/// The number of arcs so far. Fails where it does not fit.
fn start_after(arcs: &Items<WalkArc>) -> Result<u32, Memory>
    ensures { IfOk result (λ start. start ≡ length arcs.now) }
{
    u32::try_from(arcs.len()).map_err(|_| Memory)
}

/// Ends the part of a node.
fn end_part(starts: &mut Items<u32>, arcs: &Items<WalkArc>) -> Result<(), Memory>
    ensures { OnOk result (starts.new ≡ starts.old ++ length arcs.now ∷ []) }
{
    starts.push(start_after(arcs)?)
}

/// A list of starts before the first part, with room for those of some nodes.
fn first_start(alloc: Global, count: u32) -> Result<Items<u32>, Memory>
    requires { count < most_nodes }
    ensures { IfOk result (λ starts. starts ≡ 0 ∷ []) }
{
    let mut starts = Items::with_room(alloc, count as usize + 1)?;
    starts.push(0)?;
    Ok(starts)
}

/// Lists the arcs into each layered node. Takes a step for each arc and stage. Fails for want of
/// memory, and where there are `2^32` arcs or more.
pub(crate) fn list_arcs(
    alloc: Global,
    cone: &Cone,
    marks: &[bool],
    stops: &[Stop],
    stages: u32,
) -> Result<Listed, Memory>
    requires cone { IsCone cone.now }
    requires marks { AreFirst cone.now marks.now }
    requires stops { length stops.now < stages }
    requires few { count_of cone.now * stages < most_nodes }
    ensures { IfOk result
        (λ l. AreParts (count_of cone.now * stages) (arcs_layered stops.now stages cone.now)
        l.starts l.arcs) }
{
    let count = cone.count * stages;
    let mut starts = first_start(alloc, count)?;
    let mut arcs = Items::new(alloc);
    for node in 0..count {
        push_node(&mut arcs, cone, marks, stops, stages, node)?;
        end_part(&mut starts, &arcs)?;
    }
    Ok(Listed { starts, arcs })
}
