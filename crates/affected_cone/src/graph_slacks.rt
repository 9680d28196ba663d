//! The graph slack of a node: the least over the launch edges that have an arrival and a required time.

ghost use Rattle.std.specs.Prelude.{◌≡◌, ◌≤◌, ◌∷◌, [], true, None, length};
ghost use Rattle.timing_rules.specs.Rows.{outermost, clock_edges};
ghost use Rattle.timing_rules.specs.Required.{less_some};
ghost use Rattle.timing_rules.specs.Range.{within_some};
ghost use Rattle.node_rows.specs.Evaluation.{is_row_within};
ghost use Rattle.required_engine.specs.Worked.{is_back_within};
ghost use Rattle.affected_cone.specs.GraphSlacks.{slack_between};

use node_rows::{outer_some, time_on};
use timing_defs::{BackRow, Clock, NodeRow, Split, Tran};

/// A time less another, where both are there.
fn less_some(time: Option<i64>, other: Option<i64>) -> Option<i64>
    requires time { within_some time ≡ true }
    requires other { within_some other ≡ true }
    ensures { result ≡ less_some time other }
{
    match (time, other) {
        (Some(time), Some(other)) => Some(time - other),
        _ => None,
    }
}

/// The graph slack on a launch edge.
fn slack_between(row: &NodeRow, back: &BackRow, split: Split, clock: u32, tran: Tran) -> Option<i64>
    requires row { is_row_within row.now ≡ true }
    requires back { is_back_within back.now ≡ true }
    ensures { result ≡ slack_between split row.now back.now (clock, tran) }
{
    match split {
        Split::Late => less_some(
            time_on(back.late.as_slice(), clock, tran),
            time_on(row.late.as_slice(), clock, tran),
        ),
        Split::Early => less_some(
            time_on(row.early.as_slice(), clock, tran),
            time_on(back.early.as_slice(), clock, tran),
        ),
    }
}

/// The lesser of a slack and those on both edges of a clock.
fn with_clock(
    best: Option<i64>,
    row: &NodeRow,
    back: &BackRow,
    split: Split,
    clock: u32,
) -> Option<i64>
    requires row { is_row_within row.now ≡ true }
    requires back { is_back_within back.now ≡ true }
    ensures { result
        ≡ outermost Split.Early (slack_between split row.now back.now) best
        ((clock, Tran.Rise) ∷ (clock, Tran.Fall) ∷ []) }
{
    let rise = slack_between(row, back, split, clock, Tran::Rise);
    let fall = slack_between(row, back, split, clock, Tran::Fall);
    outer_some(Split::Early, outer_some(Split::Early, best, rise), fall)
}

/// The graph slack of a node in fs, over the edges of these clocks.
pub(crate) fn graph_slack(
    clocks: &[Clock],
    row: &NodeRow,
    back: &BackRow,
    split: Split,
) -> Option<i64>
    requires clocks { length clocks.now ≤ 8 }
    requires row { is_row_within row.now ≡ true }
    requires back { is_back_within back.now ≡ true }
    ensures { result
        ≡ outermost Split.Early (slack_between split row.now back.now) None
        (clock_edges 0 clocks.now) }
{
    let mut best = None;
    for (at, _) in clocks.iter().enumerate() {
        best = with_clock(best, row, back, split, at as u32);
    }
    best
}
