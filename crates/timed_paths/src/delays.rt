//! Delays and slews along a path, by the numbers of its nodes.

ghost use Rattle.std.specs.Prelude.{◌≡◌, ◌<◌, nat_eq, Option, option_and_then, IfSome};
ghost use Rattle.std.specs.List.{list_any};
ghost use Rattle.timing_rules.specs.Paths.{Named, node_named, delay_between};
ghost use Rattle.timing_rules.specs.Rows.{as_fs, slew};
ghost use Rattle.pin_graph.specs.Nodes.{node_bound};
ghost use Rattle.pin_graph.specs.RowTables.{AreRows};
ghost use Rattle.arc_delays.specs.Delays.{AreDelays};
ghost use Rattle.path_cones.specs.Delays.{arc_numbered};
ghost use Rattle.timed_paths.specs.Numbers.{number_named};

use arc_delays::ArcDelays;
use netlist_store::Store;
use node_rows::slew_in;
use pin_graph::{Graph, GraphArc};
use sta_units::Fs;
use timing_defs::{PathNode, Rows, Split};

/// The number of a node of a path; none where its pin is not there.
pub(crate) fn number_of(graph: &Graph, node: &PathNode) -> Option<u32>
    ensures value { result ≡ number_named graph.now.stored (node.now.pin, node.now.tran) }
    ensures below { IfSome result (λ n. n < node_bound graph.now.stored) }
{
    graph.node(&node.pin, node.tran)
}

/// Whether one of some arcs leads from a node.
fn leads_from(arcs: &[GraphArc], from: u32) -> bool
    ensures { result ≡ list_any (λ arc. nat_eq arc.from from) arcs.now }
{
    arcs.iter().any(|arc| arc.from == from)
}

/// The delay of the arc from one node to another in fs; none where no arc leads there or it brings nothing.
fn delay_along(graph: &Graph, delays: &ArcDelays, split: Split, from: u32, to: u32) -> Option<i64>
    requires delays { AreDelays graph.now.stored delays.now }
    requires to { to < node_bound graph.now.stored }
    ensures { result ≡ arc_numbered graph.now.stored split from to }
{
    graph.laws();
    graph.store().laws();
    if leads_from(graph.arcs_in(to), from) {
        delays.along(split, from, to)
    } else {
        None
    }
}

/// The delay into a node of a path in fs, by the number of the node before it and its own.
pub(crate) fn delay_into(
    graph: &Graph,
    delays: &ArcDelays,
    split: Split,
    before: Option<u32>,
    number: Option<u32>,
) -> Option<i64>
    requires delays { AreDelays graph.now.stored delays.now }
    requires number { IfSome number (λ n. n < node_bound graph.now.stored) }
    ensures { (from : Option Named) (to : Named)
        → before ≡ option_and_then (number_named graph.now.stored) from
        → number ≡ number_named graph.now.stored to
        → result
        ≡ option_and_then (λ f. delay_between graph.now.stored.design split f to) from }
{
    graph.store().laws();
    let Some(from) = before else {
        return None;
    };
    let Some(to) = number else {
        return None;
    };
    delay_along(graph, delays, split, from, to)
}

/// The slew of a node of a path in fs, by its number.
pub(crate) fn slew_at<A: Rows>(
    store: &Store,
    arrivals: &A,
    split: Split,
    number: Option<u32>,
) -> Option<i64>
    requires rows { AreRows store.now (A.rows arrivals.now) }
    requires number { IfSome number (λ n. n < node_bound store.now) }
    ensures { (to : Named) → number ≡ number_named store.now to
        → result ≡ option_and_then (slew store.now.design split) (node_named store.now.design to) }
{
    store.laws();
    match number {
        Some(node) => slew_in(arrivals.row(node), split),
        None => None,
    }
}

/// A time in fs.
pub(crate) fn in_fs(time: Option<i64>) -> Option<Fs>
    ensures { result ≡ as_fs time }
{
    match time {
        Some(value) => Some(Fs(value)),
        None => None,
    }
}
