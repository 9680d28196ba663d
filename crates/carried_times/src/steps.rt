//! Steps of paths along arcs, before and after an edit.

ghost use Rattle.std.specs.Prelude.{◌≡◌, IfSome};
ghost use Rattle.timing_rules.specs.Rows.{outer_some};
ghost use Rattle.timing_defs.specs.RowTimes.{plus_some};
ghost use Rattle.carried_times.specs.Sides.{arrival_told, delay_by, whole_told, step_told, carried_step, sided, IsSided};

use crate::carried::{Carried, arrival_in, later, same_time};
use arc_delays::Delayed;
use node_rows::outer_some;
use pin_graph::GraphArc;
use std::marker::Model;
use timing_defs::{Rows, Split};

/// The rows and delays of a design, of so many nodes.
#[derive(Drop)]
pub(crate) struct Side<'a, A: Rows + Delayed> {
    rows: &'a A,
    count: u32,
}

impl<'a, A: Rows + Delayed> Model for Side<'a, A> {
    ghost use Rattle.carried_times.specs.Sides.{Sided, sided, IsSided};

    ghost Value = { Sided };

    ghost view = { λ s. sided (A.rows s.rows.now) (A.delays s.rows.now) s.count };

    ghost invariant = { λ s. IsSided (A.rows s.rows.now) (A.delays s.rows.now) s.count };
}

impl<'a, A: Rows + Delayed> Side<'a, A> {
    /// The rows and delays of so many nodes.
    pub(crate) fn new(rows: &'a A, count: u32) -> Side<'a, A>
        requires { IsSided (A.rows rows.now) (A.delays rows.now) count }
        ensures { result ≡ sided (A.rows rows.now) (A.delays rows.now) count }
    {
        Side { rows, count }
    }

    /// The outermost arrival of a node; none of a number that is of no node.
    pub(crate) fn arrival(&self, split: Split, node: u32) -> Option<i64>
        ensures { result ≡ arrival_told self.now split node }
    {
        if node < self.count {
            arrival_in(self.rows.row(node), split)
        } else {
            None
        }
    }

    /// The outermost arrivals of a node.
    pub(crate) fn whole(&self, node: u32) -> Carried
        ensures { result ≡ whole_told self.now node }
    {
        Carried {
            early: self.arrival(Split::Early, node),
            late: self.arrival(Split::Late, node),
        }
    }

    /// The delay of an arc between two nodes.
    fn delay(&self, split: Split, from: u32, to: u32) -> Option<i64>
        ensures { result ≡ delay_by self.now split from to }
    {
        if to < self.count {
            self.rows.delays().along(split, from, to)
        } else {
            None
        }
    }
}

/// The outermost time behind a step whose delay is another, by the outermost arrivals before it; gives up where a
/// time is far from 0.
fn turned(
    split: Split,
    was: Option<i64>,
    now: Option<i64>,
    before: Option<i64>,
    after: Option<i64>,
) -> Option<Option<i64>>
    ensures { IfSome result
        (λ time. time ≡ outer_some split (plus_some before was) (plus_some after now)) }
{
    let before = later(before, was)?;
    let after = later(after, now)?;
    Some(outer_some(split, before, after))
}

/// The time behind an arc in a split, by the time carried to the node before it.
fn step_in<A: Rows + Delayed>(
    before: &Side<'_, A>,
    after: &Side<'_, A>,
    split: Split,
    arc: &GraphArc,
    time: Option<i64>,
) -> Option<Option<i64>>
    ensures { IfSome result
        (λ behind. behind ≡ step_told before.now after.now split arc.now.from arc.now.to time) }
{
    let was = before.delay(split, arc.from, arc.to);
    let now = after.delay(split, arc.from, arc.to);
    if same_time(was, now) {
        return later(time, now);
    }
    let arrived = before.arrival(split, arc.from);
    let arrives = after.arrival(split, arc.from);
    turned(split, was, now, arrived, arrives)
}

/// The times behind an arc, by those carried to the node before it.
pub(crate) fn step<A: Rows + Delayed>(
    before: &Side<'_, A>,
    after: &Side<'_, A>,
    arc: &GraphArc,
    times: Carried,
) -> Option<Carried>
    ensures { IfSome result
        (λ behind. behind ≡ carried_step before.now after.now arc.now.from arc.now.to times) }
{
    let early = step_in(before, after, Split::Early, arc, times.early)?;
    let late = step_in(before, after, Split::Late, arc, times.late)?;
    Some(Carried { early, late })
}
