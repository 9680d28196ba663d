//! The first walks of a cone.

ghost use Rattle.std.specs.Prelude.{◌≡◌, ◌≤◌, [], length, IfOk, OnOk};
ghost use Rattle.timing_defs.specs.Firsts.{AreFirst};
ghost use Rattle.worst_walks.specs.Walks.{comes_before, IsCone, IsOrdered, IsWalk};
ghost use Rattle.ranked_walks.specs.Outs.{AreTables};

use crate::branches::Tables;
use crate::starts::{start, tables_of};
use crate::turns::turn;
use sta_units::Memory;
use std::alloc::Global;
use timing_defs::Items;
use worst_walks::{Cone, Walk, WalkOrder};

/// Gives the first walks, at most so many.
fn give<O: WalkOrder>(
    alloc: Global,
    cone: &Cone,
    order: &O,
    tables: &Tables,
    count: u32,
    given: &mut Items<Walk>,
) -> Result<(), Memory>
    requires cone { IsCone cone.now }
    requires order { IsOrdered cone.now (O.count order.now) (O.rank order.now) }
    requires tables { AreTables (O.rank order.now) cone.now tables.now }
    requires none { given.old ≡ [] }
    ensures { OnOk result
        (AreFirst (comes_before (O.rank order.now) (O.before order.now)) count (IsWalk cone.now)
        given.new) }
{
    let mut branches = Vec::new(alloc);
    start(alloc, cone, order, tables, &mut branches)?;
    while given.len() < count as usize && !branches.is_empty() {
        turn(alloc, cone, order, tables, given, &mut branches)?;
    }
    Ok(())
}

/// The first walks of a cone, at most `count`: by slack, and walks of one slack in an order by the
/// nodes before their launches and their own. Fewer only where there are no more. Takes a step for each
/// node and arc of the cone for each end node, and then for each walk given its nodes and the arcs
/// beside them, and a look over the classes of walks that are left. Asks the order only where sums or
/// slacks tie. The one error is want of memory.
pub fn ranked_walks<O: WalkOrder>(
    alloc: Global,
    cone: &Cone,
    order: &O,
    count: u32,
) -> Result<Items<Walk>, Memory>
    requires cone { IsCone cone.now }
    requires order { IsOrdered cone.now (O.count order.now) (O.rank order.now) }
    ensures { IfOk result
        (AreFirst (comes_before (O.rank order.now) (O.before order.now)) count (IsWalk cone.now)) }
{
    let tables = tables_of(alloc, cone, order)?;
    let mut given = Items::new(alloc);
    give(alloc, cone, order, &tables, count, &mut given)?;
    Ok(given)
}
