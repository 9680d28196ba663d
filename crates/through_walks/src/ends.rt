//! The ends and launches of a layered cone.

ghost use Rattle.std.specs.Prelude.{◌≡◌, ◌+◌, ◌*◌, ◌<◌, ◌≤◌, All, map, length, IfOk};
ghost use Rattle.worst_walks.specs.Walks.{most_nodes, count_of, IsCone};
ghost use Rattle.through_walks.specs.Layers.{first_stage, launch_on, end_on, AreBelow, AreStages, IsLayered};

use crate::layers::{list_arcs, number};
use crate::stops::Stop;
use sta_units::Memory;
use std::alloc::Global;
use timing_defs::Items;
use worst_walks::{Cone, Launch, WalkEnd, first_nodes};

/// The stage at which a walk begins at a place.
fn first_stage(stops: &[Stop], begun: &[u32], place: u32) -> u32
    requires stops { length stops.now < most_nodes }
    requires place { place < length begun.now }
    ensures { result ≡ first_stage stops.now begun.now place }
{
    begun[place as usize].min(stops.len() as u32 + 1)
}

/// A launch at the stage at which walks begin there.
fn launch_on(stops: &[Stop], stages: u32, begun: &[u32], launch: &Launch) -> Launch
    requires stages { AreStages stops.now begun.now stages }
    requires few { length begun.now * stages < most_nodes }
    requires launch { launch.now.node < length begun.now }
    ensures { result ≡ launch_on stops.now stages begun.now launch.now }
{
    let stage = first_stage(stops, begun, launch.node);
    Launch {
        node: number(stages, launch.node, stage),
        offer: launch.offer,
    }
}

fn launches_on(
    alloc: Global,
    stops: &[Stop],
    stages: u32,
    begun: &[u32],
    launches: &[Launch],
) -> Result<Items<Launch>, Memory>
    requires stages { AreStages stops.now begun.now stages }
    requires few { length begun.now * stages < most_nodes }
    requires launches { All (λ launch. launch.node < length begun.now) launches.now }
    ensures { IfOk result (λ made. made ≡ map (launch_on stops.now stages begun.now) launches.now) }
{
    let mut made = Items::with_room(alloc, launches.len())?;
    for launch in launches {
        made.push(launch_on(stops, stages, begun, launch))?;
    }
    Ok(made)
}

/// An end where all stops are passed.
fn end_on(
    alloc: Global,
    stops: &[Stop],
    stages: u32,
    begun: &[u32],
    end: &WalkEnd,
) -> Result<WalkEnd, Memory>
    requires stages { AreStages stops.now begun.now stages }
    requires few { length begun.now * stages < most_nodes }
    requires end { AreBelow (length begun.now) end.now }
    ensures { IfOk result (λ made. made ≡ end_on stops.now stages begun.now end.now) }
{
    let launches = launches_on(alloc, stops, stages, begun, end.launches.as_slice())?;
    Ok(WalkEnd {
        node: number(stages, end.node, stops.len() as u32),
        launches,
    })
}

fn ends_on(
    alloc: Global,
    stops: &[Stop],
    stages: u32,
    begun: &[u32],
    ends: &[WalkEnd],
) -> Result<Items<WalkEnd>, Memory>
    requires stages { AreStages stops.now begun.now stages }
    requires few { length begun.now * stages < most_nodes }
    requires ends { All (AreBelow (length begun.now)) ends.now }
    ensures { IfOk result (λ made. made ≡ map (end_on stops.now stages begun.now) ends.now) }
{
    let mut made = Items::with_room(alloc, ends.len())?;
    for end in ends {
        made.push(end_on(alloc, stops, stages, begun, end)?)?;
    }
    Ok(made)
}

/// The layered cone. Takes a step for each arc and launch at each stage. Fails for want of memory,
/// and where there are `2^32` arcs or more.
pub(crate) fn layered(
    alloc: Global,
    cone: &Cone,
    stops: &[Stop],
    stages: u32,
    begun: &[u32],
) -> Result<Cone, Memory>
    requires cone { IsCone cone.now }
    requires begun { length begun.now ≡ count_of cone.now }
    requires stages { AreStages stops.now begun.now stages }
    requires few { count_of cone.now * stages < most_nodes }
    ensures { IfOk result (IsLayered cone.now stops.now begun.now stages) }
{
    let marks = first_nodes(alloc, cone)?;
    let listed = list_arcs(alloc, cone, &marks, stops, stages)?;
    let ends = ends_on(alloc, stops, stages, begun, cone.ends.as_slice())?;
    Ok(Cone {
        count: cone.count * stages,
        starts: listed.starts,
        arcs: listed.arcs,
        ends,
    })
}
