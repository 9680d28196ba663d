//! The tables of a cone, and the branches by which a search begins.

ghost use Rattle.std.specs.Prelude.{◌≡◌, ◌+◌, ◌<◌, ◌≤◌, [], length, slice_get, IfOk, OnOk, Some};
ghost use Rattle.worst_walks.specs.Walks.{count_of, IsCone, IsEnd, IsOrdered};
ghost use Rattle.worst_walks.specs.Tables.{IsTable, AreFirst};
ghost use Rattle.ranked_walks.specs.Outs.{AreEndTables, AreTables, rows_at};
ghost use Rattle.ranked_walks.specs.Searching.{IsSearched, Nothing, WaitsFrom};

use crate::branches::{Branch, Tables, add, start_by};
use crate::outs::arcs_out;
use sta_units::Memory;
use std::alloc::Global;
use timing_defs::Items;
use worst_walks::{Cone, Entry, WalkEnd, WalkOrder, first_nodes, table_to};

/// The table of each end node.
fn end_tables<O: WalkOrder>(
    alloc: Global,
    cone: &Cone,
    order: &O,
    marks: &[bool],
) -> Result<Items<Items<Option<Entry>>>, Memory>
    requires cone { IsCone cone.now }
    requires order { count_of cone.now ≤ O.count order.now }
    requires marks { AreFirst cone.now marks.now }
    ensures { IfOk result (AreEndTables (O.rank order.now) cone.now (length cone.now.ends)) }
{
    let mut tables = Items::new(alloc);
    for place in 0..cone.ends.len() {
        let end = cone.end_at(place as u32);
        let rows = table_to(alloc, cone, order, marks, end.node)?;
        tables.push(Items::from_vec(rows))?;
    }
    Ok(tables)
}

/// The tables of a cone. Takes a step for each node and arc of the cone for each end node, and one
/// for each to list the arcs out.
pub(crate) fn tables_of<O: WalkOrder>(
    alloc: Global,
    cone: &Cone,
    order: &O,
) -> Result<Tables, Memory>
    requires cone { IsCone cone.now }
    requires order { IsOrdered cone.now (O.count order.now) (O.rank order.now) }
    ensures { IfOk result (AreTables (O.rank order.now) cone.now) }
{
    let marks = first_nodes(alloc, cone)?;
    let rows = end_tables(alloc, cone, order, &marks)?;
    let outs = arcs_out(alloc, cone, &marks)?;
    Ok(Tables {
        outs: Items::from_vec(outs),
        rows,
    })
}

/// Adds the branches of the walks from each launch to the end node at a place.
fn start_at<O: WalkOrder>(
    alloc: Global,
    cone: &Cone,
    order: &O,
    tables: &Tables,
    place: u32,
    end: &WalkEnd,
    branches: &mut Vec<Branch>,
) -> Result<(), Memory>
    requires cone { IsCone cone.now }
    requires order { IsOrdered cone.now (O.count order.now) (O.rank order.now) }
    requires tables { AreTables (O.rank order.now) cone.now tables.now }
    requires there { slice_get cone.now.ends place ≡ Some end.now }
    requires end { IsEnd cone.now end.now }
    requires searched { IsSearched (O.rank order.now) (O.before order.now) cone.now tables.now []
        branches.old.items (WaitsFrom cone.now place 0) }
    ensures { OnOk result
        (IsSearched (O.rank order.now) (O.before order.now) cone.now tables.now []
        branches.new.items (WaitsFrom cone.now (place + 1) 0)) }
{
    let _ = order;
    for launch in 0..end.launches.len() {
        let made = start_by(
            alloc,
            tables.rows_of(place),
            place,
            launch as u32,
            end.launch_at(launch as u32),
        );
        add(branches, made)?;
    }
    Ok(())
}

/// The branches of the walks from each launch to each end node.
pub(crate) fn start<O: WalkOrder>(
    alloc: Global,
    cone: &Cone,
    order: &O,
    tables: &Tables,
    branches: &mut Vec<Branch>,
) -> Result<(), Memory>
    requires cone { IsCone cone.now }
    requires order { IsOrdered cone.now (O.count order.now) (O.rank order.now) }
    requires tables { AreTables (O.rank order.now) cone.now tables.now }
    requires none { branches.old.items ≡ [] }
    ensures { OnOk result
        (IsSearched (O.rank order.now) (O.before order.now) cone.now tables.now []
        branches.new.items Nothing) }
{
    for place in 0..cone.ends.len() {
        start_at(
            alloc,
            cone,
            order,
            tables,
            place as u32,
            cone.end_at(place as u32),
            branches,
        )?;
    }
    Ok(())
}
