//! The walks to which branches lead, and the first of them.

ghost use Rattle.std.specs.Prelude.{ℕ, ◌≡◌, ◌++◌, ◌<◌, ◌≤◌, int_lt, take, length, slice_get, IfOk, Some};
ghost use Rattle.std.specs.List.{AllByRecursion};
ghost use Rattle.worst_walks.specs.Walks.{count_of, IsCone};
ghost use Rattle.ranked_walks.specs.Branches.{kept_of};
ghost use Rattle.ranked_walks.specs.Outs.{AreTables};
ghost use Rattle.ranked_walks.specs.Searching.{IsFront, IsOpen, IsTold, IsWalkOf};

use crate::branches::{Branch, Tables};
use sta_units::Memory;
use std::alloc::Global;
use timing_defs::Items;
use worst_walks::{Cone, Walk, WalkOrder, comes_before, nodes_from};

/// The first nodes of a list, at most so many.
#[tactic(auto, using(crate::proofs::Leading::taken_least))]
fn front_of(nodes: &[u32], count: usize) -> &[u32]
    ensures { result.now ≡ take count nodes.now }
{
    &nodes[..count.min(nodes.len())]
}

/// The nodes of a given walk that a branch keeps.
#[tactic(auto, using(crate::proofs::Leading::none_taken))]
fn kept_of<'a>(given: &'a [Walk], branch: &Branch) -> &'a [u32]
    ensures { result.now ≡ kept_of given.now branch.now }
{
    match given.get(branch.source) {
        None => &[],
        Some(walk) => front_of(walk.nodes.as_slice(), branch.kept),
    }
}

/// One list and then another.
fn joined(alloc: Global, front: &[u32], back: &[u32]) -> Result<Items<u32>, Memory>
    ensures { IfOk result (λ all. all ≡ front.now ++ back.now) }
{
    let mut all = Items::from_slice(alloc, front)?;
    for node in back {
        all.push(*node)?;
    }
    Ok(all)
}

/// The walk to which a branch leads. Takes a step for each of its nodes.
pub(crate) fn walk_of<O: WalkOrder>(
    alloc: Global,
    cone: &Cone,
    order: &O,
    tables: &Tables,
    given: &[Walk],
    branch: &Branch,
) -> Result<Walk, Memory>
    requires cone { IsCone cone.now }
    requires tables { AreTables (O.rank order.now) cone.now tables.now }
    requires open { IsOpen (O.rank order.now) (O.before order.now) cone.now tables.now given.now
        branch.now }
    ensures { IfOk result (IsWalkOf cone.now tables.now given.now branch.now) }
{
    let _ = order;
    let end = cone.end_at(branch.end);
    let tail = nodes_from(alloc, tables.rows_of(branch.end), branch.next, end.node)?;
    let nodes = joined(alloc, kept_of(given, branch), tail.as_slice())?;
    Ok(Walk {
        slack: branch.slack,
        launch: branch.launch,
        end: branch.end,
        nodes,
    })
}

/// Whether the walk to which a branch leads comes before that of another. Lists the two only where
/// their slacks tie.
#[inline(never)]
fn precedes<O: WalkOrder>(
    alloc: Global,
    cone: &Cone,
    order: &O,
    tables: &Tables,
    given: &[Walk],
    one: &Branch,
    other: &Branch,
) -> Result<bool, Memory>
    requires cone { IsCone cone.now }
    requires order { count_of cone.now ≤ O.count order.now }
    requires tables { AreTables (O.rank order.now) cone.now tables.now }
    requires one { IsOpen (O.rank order.now) (O.before order.now) cone.now tables.now given.now
        one.now }
    requires other { IsOpen (O.rank order.now) (O.before order.now) cone.now tables.now given.now
        other.now }
    ensures { IfOk result
        (IsTold (O.rank order.now) (O.before order.now) cone.now tables.now given.now one.now
        other.now) }
{
    if one.slack != other.slack {
        return Ok(one.slack < other.slack);
    }
    let left = walk_of(alloc, cone, order, tables, given, one)?;
    let right = walk_of(alloc, cone, order, tables, given, other)?;
    comes_before(alloc, order, &left, &right)
}

/// Whether the slack of a branch is greater than that of another.
fn is_behind(one: &Branch, other: &Branch) -> bool
    ensures { result ≡ int_lt other.now.slack one.now.slack }
{
    other.slack < one.slack
}

/// Whether the walk to which a branch leads comes before that of another. Most branches are behind the
/// first by their slacks alone: `precedes` is called, and not built in, so that the look over all
/// branches stays short.
fn is_ahead<O: WalkOrder>(
    alloc: Global,
    cone: &Cone,
    order: &O,
    tables: &Tables,
    given: &[Walk],
    one: &Branch,
    other: &Branch,
) -> Result<bool, Memory>
    requires cone { IsCone cone.now }
    requires order { count_of cone.now ≤ O.count order.now }
    requires tables { AreTables (O.rank order.now) cone.now tables.now }
    requires one { IsOpen (O.rank order.now) (O.before order.now) cone.now tables.now given.now
        one.now }
    requires other { IsOpen (O.rank order.now) (O.before order.now) cone.now tables.now given.now
        other.now }
    ensures { IfOk result
        (IsTold (O.rank order.now) (O.before order.now) cone.now tables.now given.now one.now
        other.now) }
{
    if is_behind(one, other) {
        return Ok(false);
    }
    precedes(alloc, cone, order, tables, given, one, other)
}

/// The branch at a place.
pub(crate) fn nth(branches: &[Branch], place: usize) -> &Branch
    requires { place < length branches.now }
    ensures { slice_get branches.now place ≡ Some result.now }
{
    &branches[place]
}

/// The place of the branch whose walk comes first. Takes a step for each branch, and lists walks only
/// where slacks tie.
pub(crate) fn first_open<O: WalkOrder>(
    alloc: Global,
    cone: &Cone,
    order: &O,
    tables: &Tables,
    given: &[Walk],
    branches: &[Branch],
) -> Result<usize, Memory>
    requires cone { IsCone cone.now }
    requires order { count_of cone.now ≤ O.count order.now }
    requires tables { AreTables (O.rank order.now) cone.now tables.now }
    requires each { AllByRecursion
        (IsOpen (O.rank order.now) (O.before order.now) cone.now tables.now given.now)
        branches.now }
    requires some { 0 < length branches.now }
    ensures { IfOk result
        (IsFront (O.rank order.now) (O.before order.now) cone.now tables.now given.now branches.now
        (length branches.now)) }
{
    let mut at = 0;
    for place in 1..branches.len() {
        let next = nth(branches, place);
        let first = nth(branches, at);
        let told = is_ahead(alloc, cone, order, tables, given, next, first)?;
        if told {
            at = place;
        }
    }
    Ok(at)
}
