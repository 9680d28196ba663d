//! The turns of the search: each gives the first walk that is left.

ghost use Rattle.std.specs.Prelude.{◌≡◌, ◌+◌, ◌<◌, ◌≤◌, length, OnOk};
ghost use Rattle.worst_walks.specs.Walks.{count_of, IsCone, IsOrdered};
ghost use Rattle.ranked_walks.specs.Outs.{AreTables};
ghost use Rattle.ranked_walks.specs.Searching.{IsSearched, Nothing};

use crate::branches::{Branch, Tables};
use crate::splitting::split;
use crate::walking::{first_open, nth, walk_of};
use sta_units::Memory;
use std::alloc::Global;
use timing_defs::Items;
use worst_walks::{Cone, Walk, WalkOrder};

/// Gives the first of the walks that are left, and splits its branch.
pub(crate) fn turn<O: WalkOrder>(
    alloc: Global,
    cone: &Cone,
    order: &O,
    tables: &Tables,
    given: &mut Items<Walk>,
    branches: &mut Vec<Branch>,
) -> Result<(), Memory>
    requires cone { IsCone cone.now }
    requires order { IsOrdered cone.now (O.count order.now) (O.rank order.now) }
    requires tables { AreTables (O.rank order.now) cone.now tables.now }
    requires searched { IsSearched (O.rank order.now) (O.before order.now) cone.now tables.now
        given.old branches.old.items Nothing }
    requires some { 0 < length branches.old.items }
    ensures searched { OnOk result
        (IsSearched (O.rank order.now) (O.before order.now) cone.now tables.now given.new
        branches.new.items Nothing) }
    ensures more { OnOk result (length given.new ≡ length given.old + 1) }
{
    let at = first_open(
        alloc,
        cone,
        order,
        tables,
        given.as_slice(),
        branches.as_slice(),
    )?;
    let walk = walk_of(
        alloc,
        cone,
        order,
        tables,
        given.as_slice(),
        nth(branches.as_slice(), at),
    )?;
    let branch = branches.swap_remove(at);
    split(
        alloc,
        cone,
        order,
        tables,
        given.as_slice(),
        &walk,
        branch,
        branches,
    )?;
    given.push(walk)
}
