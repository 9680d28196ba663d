//! The worst walk that passes given stops.

ghost use Rattle.std.specs.Prelude.{◌≡◌, ◌*◌, ◌/◌, ◌<◌, map, length, option_map, IfOk};
ghost use Rattle.worst_walks.specs.Walks.{most_nodes, count_of, IsCone, IsOrdered, IsWorst};
ghost use Rattle.through_walks.specs.Layers.{known_on, rank_on, before_on, unlayered, AreStages, IsLayered};
ghost use Rattle.through_walks.specs.Through.{IsWorstThrough};

use crate::ends::layered;
use crate::orders::Layered;
use crate::stops::Stop;
use sta_units::Memory;
use std::alloc::Global;
use timing_defs::Items;
use worst_walks::{Cone, Walk, WalkOrder, worst_walk};

/// A layered cone has fewer nodes.
const MOST_NODES: u64 = 8_000_000;

/// As many stages as walks can be at: one more than there are stops, and one for walks that begin with
/// more passed.
fn stage_count(stops: &[Stop], begun: &[u32]) -> u32
    requires { length stops.now < most_nodes }
    ensures { AreStages stops.now begun.now result }
{
    let last = stops.len() as u32;
    for stage in begun {
        if *stage > last {
            return last + 2;
        }
    }
    last + 1
}

/// The number of stages. Fails where there would be too many layered nodes.
fn stages_for(cone: &Cone, stops: &[Stop], begun: &[u32]) -> Result<u32, Memory>
    ensures stages { IfOk result (AreStages stops.now begun.now) }
    ensures few { IfOk result (λ stages. count_of cone.now * stages < most_nodes) }
{
    if stops.len() as u64 >= MOST_NODES {
        return Err(Memory);
    }
    let stages = stage_count(stops, begun);
    if u64::from(cone.count) * u64::from(stages) >= MOST_NODES {
        return Err(Memory);
    }
    Ok(stages)
}

/// The places of layered nodes.
fn places_of(alloc: Global, stages: u32, nodes: &[u32]) -> Result<Items<u32>, Memory>
    requires { 0 < stages }
    ensures { IfOk result (λ places. places ≡ map (λ n. n / stages) nodes.now) }
{
    let mut places = Items::with_room(alloc, nodes.len())?;
    for node in nodes {
        places.push(*node / stages)?;
    }
    Ok(places)
}

/// The walk of a cone under a layered walk.
fn unlayered(alloc: Global, stages: u32, walk: Option<Walk>) -> Result<Option<Walk>, Memory>
    requires { 0 < stages }
    ensures { IfOk result (λ under. under ≡ option_map (unlayered stages) walk) }
{
    match walk {
        None => Ok(None),
        Some(walk) => {
            let nodes = places_of(alloc, stages, walk.nodes.as_slice())?;
            Ok(Some(Walk {
                slack: walk.slack,
                launch: walk.launch,
                end: walk.end,
                nodes,
            }))
        }
    }
}

/// The worst walk of a layered cone.
fn worst_in<O: WalkOrder>(
    alloc: Global,
    layers: &Cone,
    stages: u32,
    order: &O,
) -> Result<Option<Walk>, Memory>
    requires layers { IsCone layers.now }
    requires order { IsOrdered layers.now
        (known_on stages (count_of layers.now) (O.count order.now))
        (rank_on stages (count_of layers.now) (O.rank order.now)) }
    ensures { IfOk result
        (IsWorst (rank_on stages (count_of layers.now) (O.rank order.now))
        (before_on stages (count_of layers.now) (O.before order.now)) layers.now) }
{
    let order = Layered {
        order,
        stages,
        count: layers.count,
    };
    worst_walk(alloc, layers, &order)
}

/// The worst walk of a cone that passes these stops in their order: of least slack, and of those the
/// first in an order by the nodes before its launch and its own; none where there is no such walk.
/// `begun` tells for each place how many stops are passed when a walk begins at that place, with this
/// node and what stands before it; it is asked at launches alone.
///
/// Takes the steps of `worst_walk` for each count of stops passed, from none to all, and once more
/// where `begun` tells of more. The one error is want of memory; it is answered too where the nodes of
/// the cone, taken once for each of these counts, are 8,000,000 or more, or the stops are, or where
/// there are `2^32` arcs between these nodes or more.
pub fn through_walk<O: WalkOrder>(
    alloc: Global,
    cone: &Cone,
    order: &O,
    stops: &[Stop],
    begun: &[u32],
) -> Result<Option<Walk>, Memory>
    requires cone { IsCone cone.now }
    requires order { IsOrdered cone.now (O.count order.now) (O.rank order.now) }
    requires begun { length begun.now ≡ count_of cone.now }
    ensures { IfOk result
        (IsWorstThrough (O.rank order.now) (O.before order.now) cone.now stops.now begun.now) }
{
    let stages = stages_for(cone, stops, begun)?;
    let layers = layered(alloc, cone, stops, stages, begun)?;
    let worst = worst_in(alloc, &layers, stages, order)?;
    unlayered(alloc, stages, worst)
}
