//! The worst walk of a cone.

ghost use Rattle.std.specs.Prelude.{◌≡◌, ◌<◌, int_lt, length, slice_get, IfOk, Some};
ghost use Rattle.worst_walks.specs.Best.{BestOf};
ghost use Rattle.worst_walks.specs.Walks.{comes_before, IsCone, IsEnd, IsOrdered, IsWorst};
ghost use Rattle.worst_walks.specs.Tables.{AreFirst, IsTable};
ghost use Rattle.worst_walks.specs.Searches.{IsTo, IsSlackTo, IsTied};

use crate::cones::{Cone, Walk, WalkEnd};
use crate::firsts::first_nodes;
use crate::orders::WalkOrder;
use crate::slacks::{least_offer, slack_at};
use crate::tables::{Entry, table_to};
use crate::tracing::{former, nodes_from};
use sta_units::Memory;
use std::alloc::Global;

/// The first walk of this slack from a launch to the end node at a place, where the least slack of
/// the walks to that end node is this one.
#[tactic(auto, using(crate::proofs::Offers::bounded_there, crate::proofs::Offers::launch_fine, crate::proofs::Offers::is_falling, crate::proofs::Offers::has_row))]
fn tied_walk<O: WalkOrder>(
    alloc: Global,
    cone: &Cone,
    order: &O,
    place: u32,
    end: &WalkEnd,
    rows: &[Option<Entry>],
    launch: u32,
    least: i64,
) -> Result<Option<Walk>, Memory>
    requires cone { IsCone cone.now }
    requires order { IsOrdered cone.now (O.count order.now) (O.rank order.now) }
    requires place { slice_get cone.now.ends place ≡ Some end.now }
    requires end { IsEnd cone.now end.now }
    requires rows { IsTable (O.rank order.now) cone.now end.now.node rows.now }
    requires launch { launch < length end.now.launches }
    requires least { BestOf int_lt (IsSlackTo cone.now place) (Some least) }
    ensures { IfOk result
        (BestOf (comes_before (O.rank order.now) (O.before order.now))
        (IsTied cone.now place least launch)) }
{
    let begin = end.launch_at(launch);
    let Some(slack) = slack_at(rows, begin) else {
        return Ok(None);
    };
    if slack != least {
        return Ok(None);
    }
    let nodes = nodes_from(alloc, rows, begin.node, end.node)?;
    Ok(Some(Walk {
        slack,
        launch,
        end: place,
        nodes,
    }))
}

/// The first of the walks of least slack to the end node at a place.
#[tactic(auto, using(crate::proofs::Ties::launch_none, crate::proofs::Ties::launch_more, crate::proofs::Ties::launch_all, crate::proofs::Knowing::tied_known, crate::proofs::Knowing::tied_before_known))]
fn first_tied<O: WalkOrder>(
    alloc: Global,
    cone: &Cone,
    order: &O,
    place: u32,
    end: &WalkEnd,
    rows: &[Option<Entry>],
    least: i64,
) -> Result<Option<Walk>, Memory>
    requires cone { IsCone cone.now }
    requires order { IsOrdered cone.now (O.count order.now) (O.rank order.now) }
    requires place { slice_get cone.now.ends place ≡ Some end.now }
    requires end { IsEnd cone.now end.now }
    requires rows { IsTable (O.rank order.now) cone.now end.now.node rows.now }
    requires least { BestOf int_lt (IsSlackTo cone.now place) (Some least) }
    ensures { IfOk result
        (BestOf (comes_before (O.rank order.now) (O.before order.now)) (IsTo cone.now place)) }
{
    let mut first = None;
    for launch in 0..end.launches.len() {
        let tied = tied_walk(alloc, cone, order, place, end, rows, launch as u32, least)?;
        first = former(alloc, order, first, tied)?;
    }
    Ok(first)
}

/// The worst walk to the end node at a place.
#[tactic(auto, using(crate::proofs::Offers::to_best_as, crate::proofs::Ties::to_none, crate::proofs::Offers::bounded_there))]
fn worst_to<O: WalkOrder>(
    alloc: Global,
    cone: &Cone,
    order: &O,
    marks: &[bool],
    place: u32,
) -> Result<Option<Walk>, Memory>
    requires cone { IsCone cone.now }
    requires order { IsOrdered cone.now (O.count order.now) (O.rank order.now) }
    requires marks { AreFirst cone.now marks.now }
    requires place { place < length cone.now.ends }
    ensures { IfOk result
        (BestOf (comes_before (O.rank order.now) (O.before order.now)) (IsTo cone.now place)) }
{
    let end = cone.end_at(place);
    let rows = table_to(alloc, cone, order, marks, end.node)?;
    match least_offer(cone, end, rows.as_slice()) {
        None => Ok(None),
        Some(least) => first_tied(alloc, cone, order, place, end, rows.as_slice(), least),
    }
}

/// The worst walk of a cone: of least slack, and of those the first in an order by the nodes before
/// its launch and its own; none where there is no walk. Takes a step for each node, arc and launch of
/// the cone, for each end node, and asks the order only where sums or slacks tie, and lists
/// the nodes of one walk for each launch of least slack. The
/// one error is want of memory; the memory taken is a table of the nodes and the lists compared.
#[tactic(auto, using(crate::proofs::Ties::end_none, crate::proofs::Ties::end_more, crate::proofs::Ties::end_all, crate::proofs::Knowing::to_known, crate::proofs::Knowing::before_known))]
pub fn worst_walk<O: WalkOrder>(
    alloc: Global,
    cone: &Cone,
    order: &O,
) -> Result<Option<Walk>, Memory>
    requires cone { IsCone cone.now }
    requires order { IsOrdered cone.now (O.count order.now) (O.rank order.now) }
    ensures { IfOk result (IsWorst (O.rank order.now) (O.before order.now) cone.now) }
{
    let marks = first_nodes(alloc, cone)?;
    let mut worst = None;
    for place in 0..cone.ends.len() {
        let found = worst_to(alloc, cone, order, &marks, place as u32)?;
        worst = former(alloc, order, worst, found)?;
    }
    Ok(worst)
}
