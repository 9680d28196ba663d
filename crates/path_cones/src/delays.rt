//! The delays along the arcs of a cone.

ghost use Rattle.std.specs.Prelude.{◌≡◌, IfSome};
ghost use Rattle.sta_units.specs.Numbers.{Within};
ghost use Rattle.timing_defs.specs.Kinds.{data_split};
ghost use Rattle.pin_graph.specs.Graphs.{IsArc};
ghost use Rattle.arc_delays.specs.Delays.{AreDelays, delay_numbered};
ghost use Rattle.path_cones.specs.Delays.{signed};

use arc_delays::ArcDelays;
use pin_graph::{Graph, GraphArc};
use timing_defs::Kind;

/// The delay along an arc in fs, where there is one, in the split that a kind of tests has of data.
/// Takes no memory.
pub(crate) fn delay_along(
    graph: &Graph,
    delays: &ArcDelays,
    kind: Kind,
    arc: &GraphArc,
) -> Option<i64>
    requires delays { AreDelays graph.now.stored delays.now }
    requires arc { IsArc graph.now.stored arc.now }
    ensures delay { result
        ≡ delay_numbered graph.now.stored (data_split kind) arc.now.from arc.now.to }
    ensures within { IfSome result (λ delay. Within delay) }
{
    // The graph is asked for by the contract alone.
    let _ = graph;
    delays.along(kind.data_split(), arc.from, arc.to)
}

/// A delay as it adds up against a test.
pub(crate) fn signed(kind: Kind, delay: i64) -> i64
    requires { Within delay }
    ensures value { result ≡ signed kind delay }
    ensures within { Within result }
{
    match kind {
        Kind::Setup => delay,
        Kind::Hold => -delay,
    }
}
