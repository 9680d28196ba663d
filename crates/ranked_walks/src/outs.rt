//! The arcs out of each node of a cone, and the best way on by one of them.

ghost use Rattle.std.specs.Prelude.{ℕ, ◌≡◌, ◌++◌, ◌∷◌, ◌<◌, ◌≤◌, [], All, replicate, length, slice_set, unsigned_abs, ◌*◌, ◌^◌, IfOk, OnOk, None, Some};
ghost use Rattle.sta_units.specs.Numbers.{Within};
ghost use Rattle.worst_walks.specs.Best.{better};
ghost use Rattle.worst_walks.specs.Walks.{most_nodes, count_of, IsArcInto, IsCone};
ghost use Rattle.worst_walks.specs.Tables.{row_in, ahead, through, IsBounded, IsKnown, AreFirst};
ghost use Rattle.ranked_walks.specs.Branches.{is_barred};
ghost use Rattle.ranked_walks.specs.Outs.{listed, outs_in, free_entry, best_free, AreListed, IsOut};

use crate::branches::{OutArc, OutArcs};
use sta_units::Memory;
use std::alloc::Global;
use worst_walks::{Cone, Entry, WalkArc, WalkOrder, arcs_at, row_at};

/// That many nodes without arcs.
fn no_outs(alloc: Global, count: usize) -> Result<Vec<OutArcs>, Memory>
    ensures { IfOk result (λ outs. outs.items ≡ replicate count []) }
{
    let mut outs = Vec::new(alloc);
    for node in 0..count {
        let _ = node;
        outs.push(OutArcs::new(alloc))?;
    }
    Ok(outs)
}

/// Adds an arc to those out of a node.
fn add_out(outs: &mut Vec<OutArcs>, from: u32, arc: OutArc) -> Result<(), Memory>
    requires { from < length outs.old.items }
    ensures { OnOk result
        (outs.new.items ≡ slice_set outs.old.items from (outs_in outs.old.items from ++ arc ∷ [])) }
{
    outs[from as usize].push(arc)
}

/// Adds the arcs into a node, each to those out of the node from which it leads.
fn add_outs(cone: &Cone, outs: &mut Vec<OutArcs>, node: u32, arcs: &[WalkArc]) -> Result<(), Memory>
    requires arcs { All (IsArcInto cone.now node) arcs.now }
    requires outs { length outs.old.items ≡ count_of cone.now }
    ensures { OnOk result (outs.new.items ≡ listed node outs.old.items arcs.now) }
{
    for arc in arcs {
        add_out(
            outs,
            arc.from,
            OutArc {
                to: node,
                delay: arc.delay,
            },
        )?;
    }
    Ok(())
}

/// The arcs out of each node that a walk can follow. Takes a step for each node and arc of the cone.
#[tactic(auto, using(crate::proofs::OutLaws::listed_none, crate::proofs::OutLaws::listed_more))]
pub(crate) fn arcs_out(alloc: Global, cone: &Cone, marks: &[bool]) -> Result<Vec<OutArcs>, Memory>
    requires cone { IsCone cone.now }
    requires marks { AreFirst cone.now marks.now }
    ensures { IfOk result (λ outs. AreListed cone.now (count_of cone.now) outs.items) }
{
    let count = cone.count as usize;
    let mut outs = no_outs(alloc, count)?;
    for node in 0..count {
        add_outs(
            cone,
            &mut outs,
            node as u32,
            arcs_at(cone, marks, node as u32),
        )?;
    }
    Ok(outs)
}

fn is_barred(barred: &[u32], node: u32) -> bool
    ensures { result ≡ is_barred barred.now node }
{
    barred.iter().any(|other| *other == node)
}

/// The walk by an arc to a node from which there is a walk.
fn entry_by(arc: OutArc, after: Entry) -> Entry
    requires delay { Within arc.delay }
    requires total { unsigned_abs after.total ≤ most_nodes * 10 ^ 12 }
    ensures { Some result ≡ through arc.to (Some after) (Some arc.delay) }
{
    Entry {
        total: arc.delay + after.total,
        next: arc.to,
    }
}

/// The best walk by an arc, where the arc's node is not barred.
fn free_entry(rows: &[Option<Entry>], barred: &[u32], arc: OutArc) -> Option<Entry>
    requires delay { Within arc.delay }
    requires bounded { IsBounded most_nodes (row_in rows.now arc.to) }
    ensures { result ≡ free_entry rows.now barred.now arc }
{
    if is_barred(barred, arc.to) {
        return None;
    }
    match row_at(rows, arc.to) {
        Some(after) => Some(entry_by(arc, after)),
        None => None,
    }
}

fn is_ahead<O: WalkOrder>(order: &O, one: Entry, other: Entry) -> bool
    requires one { one.next < O.count order.now }
    requires other { other.next < O.count order.now }
    ensures { result ≡ ahead (O.rank order.now) one other }
{
    one.total > other.total || (one.total == other.total && order.comes_first(one.next, other.next))
}

/// The better of two entries of a node, where there are two.
fn better_entry<O: WalkOrder>(order: &O, best: Option<Entry>, next: Option<Entry>) -> Option<Entry>
    requires best { IsKnown (O.count order.now) best }
    requires next { IsKnown (O.count order.now) next }
    ensures value { result ≡ better (ahead (O.rank order.now)) best next }
    ensures known { IsKnown (O.count order.now) result }
{
    match (best, next) {
        (None, second) => second,
        (Some(x), None) => Some(x),
        (Some(x), Some(y)) => if is_ahead(order, y, x) {
            Some(y)
        } else {
            Some(x)
        },
    }
}

/// The best of the walks by these arcs to nodes that are not barred.
#[tactic(auto, using(crate::proofs::OutLaws::free_known))]
pub(crate) fn best_free<O: WalkOrder>(
    order: &O,
    rows: &[Option<Entry>],
    barred: &[u32],
    arcs: &[OutArc],
) -> Option<Entry>
    requires arcs { All (IsOut (O.count order.now)) arcs.now }
    requires bounded { (n : ℕ) → IsBounded most_nodes (row_in rows.now n) }
    ensures { result ≡ best_free (O.rank order.now) rows.now barred.now None arcs.now }
{
    let mut best = None;
    for arc in arcs {
        best = better_entry(order, best, free_entry(rows, barred, *arc));
    }
    best
}
