//! The required times that the arcs out of a node give.

ghost use Rattle.std.specs.Prelude.{◌≡◌, All};
ghost use Rattle.timing_rules.specs.Required.{less_some};
ghost use Rattle.required_engine.specs.Behinds.{IsTabled, over_arc, over_arcs};

use crate::limits::{difference, outer_some, wide};
use arc_delays::ArcDelays;
use cow_table::CowTable;
use node_rows::time_on;
use pin_graph::GraphArc;
use timing_defs::{BackRow, Split, Tran};

/// The arcs out of a node, with the required times of all nodes and the delays of all arcs.
#[derive(Clone, Copy, Drop)]
pub(crate) struct ArcsOut<'a> {
    pub(crate) rows: &'a CowTable<BackRow>,
    pub(crate) delays: &'a ArcDelays,
    pub(crate) arcs: &'a [GraphArc],
}

/// A time less a delay, where both are there.
fn less_some(time: Option<i64>, delay: Option<i64>) -> Option<i128>
    ensures { result ≡ less_some time delay }
{
    match (time, delay) {
        (Some(time), Some(delay)) => Some(difference(wide(time), wide(delay))),
        _ => None,
    }
}

/// The required time on a launch edge at the node to which an arc leads, less the delay of the arc, in
/// fs; none where the node has none or the arc brings nothing.
fn over_arc(out: &ArcsOut<'_>, split: Split, arc: &GraphArc, clock: u32, tran: Tran) -> Option<i128>
    requires { IsTabled out.now arc.now }
    ensures { result ≡ over_arc out.now split (clock, tran) arc.now }
{
    let row = out.rows.get(arc.to as usize);
    let time = time_on(row.times(split).as_slice(), clock, tran);
    less_some(time, out.delays.along(split, arc.from, arc.to))
}

/// The required time on a launch edge over the arcs out of a node, in fs: the least for late data, the
/// greatest for early data.
pub(crate) fn over_arcs(out: &ArcsOut<'_>, split: Split, clock: u32, tran: Tran) -> Option<i128>
    requires { All (IsTabled out.now) out.now.arcs.now }
    ensures { result ≡ over_arcs out.now split (clock, tran) }
{
    let merged = split.other();
    let mut best = None;
    for arc in out.arcs {
        best = outer_some(merged, best, over_arc(out, split, arc, clock, tran));
    }
    best
}
