//! The table of a search: the best walk from each node to one end node.

ghost use Rattle.std.specs.Prelude.{◌≡◌, ◌*◌, ◌^◌, ◌<◌, ◌≤◌, unsigned_abs, All, replicate, length, IfOk, None, Some};
ghost use Rattle.sta_units.specs.Numbers.{Within};
ghost use Rattle.worst_walks.specs.Best.{better};
ghost use Rattle.worst_walks.specs.Walks.{most_nodes, count_of, IsArcInto, IsCone};
ghost use Rattle.worst_walks.specs.Tables.{row_in, ahead, through, relaxed, pushed, spread, IsBounded, IsKnown, IsTable, AreFirst};

use crate::cones::{Cone, WalkArc};
use crate::firsts::arcs_at;
use crate::orders::WalkOrder;
use sta_units::Memory;
use std::alloc::Global;

/// The best walk from a node to the end node: its delay sum in fs and the node that follows, which
/// at the end node is itself.
#[derive(Clone, Copy, Drop)]
pub struct Entry {
    pub total: i64,
    pub next: u32,
}

/// The entry of a node, if there is a walk from it.
pub fn row_at(rows: &[Option<Entry>], node: u32) -> Option<Entry>
    ensures { result ≡ row_in rows.now node }
{
    match rows.get(node as usize) {
        Some(row) => *row,
        None => None,
    }
}

fn is_ahead<O: WalkOrder>(order: &O, one: Entry, other: Entry) -> bool
    requires one { one.next < O.count order.now }
    requires other { other.next < O.count order.now }
    ensures { result ≡ ahead (O.rank order.now) one other }
{
    one.total > other.total || (one.total == other.total && order.comes_first(one.next, other.next))
}

fn better_row<O: WalkOrder>(order: &O, row: Option<Entry>, entry: Entry) -> Entry
    requires row { IsKnown (O.count order.now) row }
    requires entry { entry.next < O.count order.now }
    ensures value { Some result ≡ better (ahead (O.rank order.now)) row (Some entry) }
    ensures known { result.next < O.count order.now }
{
    match row {
        None => entry,
        Some(old) => if is_ahead(order, entry, old) {
            entry
        } else {
            old
        },
    }
}

/// The walk by an arc to a node from which there is a walk.
fn entry_by(node: u32, after: Entry, arc: WalkArc) -> Entry
    requires delay { Within arc.delay }
    requires total { unsigned_abs after.total ≤ most_nodes * 10 ^ 12 }
    ensures value { Some result ≡ through node (Some after) (Some arc.delay) }
    ensures next { result.next ≡ node }
{
    Entry {
        total: arc.delay + after.total,
        next: node,
    }
}

/// Offers the node from which an arc leads the walk by this arc.
fn relax<O: WalkOrder>(order: &O, rows: &mut [Option<Entry>], node: u32, after: Entry, arc: WalkArc)
    requires node { node < O.count order.now }
    requires from { arc.from < length rows.old }
    requires delay { Within arc.delay }
    requires total { unsigned_abs after.total ≤ most_nodes * 10 ^ 12 }
    requires known { All (IsKnown (O.count order.now)) rows.old }
    ensures value { rows.new ≡ relaxed (O.rank order.now) node after rows.old arc }
    ensures known { All (IsKnown (O.count order.now)) rows.new }
{
    let entry = entry_by(node, after, arc);
    let row = better_row(order, row_at(rows, arc.from), entry);
    rows[arc.from as usize] = Some(row);
}

/// Offers each node from which one of these arcs leads the walk by this arc.
fn push_arcs<O: WalkOrder>(
    cone: &Cone,
    order: &O,
    rows: &mut [Option<Entry>],
    node: u32,
    after: Entry,
    arcs: &[WalkArc],
)
    requires node { node < O.count order.now }
    requires rows { length rows.old ≡ count_of cone.now }
    requires arcs { All (IsArcInto cone.now node) arcs.now }
    requires total { unsigned_abs after.total ≤ most_nodes * 10 ^ 12 }
    requires known { All (IsKnown (O.count order.now)) rows.old }
    ensures { rows.new ≡ pushed (O.rank order.now) node after rows.old arcs.now }
{
    for arc in arcs {
        relax(order, rows, node, after, *arc);
    }
}

/// Goes over the arcs into a node, where there is a walk from it.
fn visit<O: WalkOrder>(
    cone: &Cone,
    order: &O,
    marks: &[bool],
    rows: &mut [Option<Entry>],
    node: u32,
)
    requires cone { IsCone cone.now }
    requires order { count_of cone.now ≤ O.count order.now }
    requires marks { AreFirst cone.now marks.now }
    requires node { node < count_of cone.now }
    requires rows { length rows.old ≡ count_of cone.now }
    requires bounded { IsBounded (most_nodes) (row_in rows.old node) }
    requires known { All (IsKnown (O.count order.now)) rows.old }
    ensures { rows.new ≡ spread (O.rank order.now) cone.now node (row_in rows.old node) rows.old }
{
    if let Some(after) = row_at(rows, node) {
        push_arcs(cone, order, rows, node, after, arcs_at(cone, marks, node));
    }
}

/// Rows without an entry.
fn empty_rows(alloc: Global, count: usize) -> Result<Vec<Option<Entry>>, Memory>
    ensures { IfOk result (λ rows. rows.items ≡ replicate count None) }
{
    Ok(vec![in alloc; None; count]?)
}

/// The table for an end node: for each node of the cone the entry of its best walk to the end node,
/// where there is one. Takes a step for each node and each arc of the cone. The one error is want
/// of memory.
#[tactic(auto, using(crate::proofs::Knowing::rows_known))]
pub fn table_to<O: WalkOrder>(
    alloc: Global,
    cone: &Cone,
    order: &O,
    marks: &[bool],
    end: u32,
) -> Result<Vec<Option<Entry>>, Memory>
    requires cone { IsCone cone.now }
    requires order { count_of cone.now ≤ O.count order.now }
    requires marks { AreFirst cone.now marks.now }
    requires end { end < count_of cone.now }
    ensures { IfOk result (λ rows. IsTable (O.rank order.now) cone.now end rows.items) }
{
    let count = cone.count as usize;
    let mut rows = empty_rows(alloc, count)?;
    rows[end as usize] = Some(Entry {
        total: 0,
        next: end,
    });
    for node in 0..count {
        visit(cone, order, marks, &mut rows, node as u32);
    }
    Ok(rows)
}
