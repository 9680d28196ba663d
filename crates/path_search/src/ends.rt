//! The tests of an end node.

ghost use Rattle.std.specs.Prelude.{◌≡◌, ◌<◌, true, false, option_and_then, All, IfOk, IfSome, OnOk};
ghost use Rattle.timing_rules.specs.Range.{NoOrigin};
ghost use Rattle.netlist_store.specs.Numbering.{is_number};
ghost use Rattle.pin_graph.specs.Nodes.{node_bound, pin_under};
ghost use Rattle.pin_graph.specs.Graphs.{place_at};
ghost use Rattle.pin_graph.specs.RowTables.{AreRows};
ghost use Rattle.node_tests.specs.NodeTests.{AreTests, tests_numbered, is_wide_numbered};
ghost use Rattle.path_search.specs.Slacks.{IsToldTest, AreToldTests, AreEndTestsOf};

use crate::names::pin_names;
use netlist_store::Store;
use node_tests::{NodeTest, node_tests};
use pin_graph::Graph;
use sta_units::Memory;
use std::alloc::Global;
use timing_defs::{Capture, Fault, Items, Kind, Rows};

/// A test of an end node: what captures there, and the place of the clock pin's node in the clock tree
/// (none at an output port).
#[derive(Drop)]
pub(crate) struct EndTest {
    pub(crate) test: NodeTest,
    pub(crate) capture: Capture,
    pub(crate) place: Option<u32>,
}

/// What a fault that is want of memory says.
fn want_of_memory(fault: Fault) -> Memory
    requires { fault ≡ Fault.Memory }
{
    match fault {
        Fault::Memory => Memory,
        _ => unreachable!(),
    }
}

/// The tests of a node where no time leaves its limit.
fn fine_tests<A: Rows>(
    alloc: Global,
    store: &Store,
    graph: &Graph,
    arrivals: &A,
    kind: Kind,
    end: u32,
) -> Result<Items<NodeTest>, Memory>
    requires graph { graph.now.stored ≡ store.now }
    requires rows { AreRows store.now (A.rows arrivals.now) }
    requires none { NoOrigin store.now.design }
    requires end { end < node_bound store.now }
    ensures tests { IfOk result
        (λ tests. AreTests store.now tests (tests_numbered store.now kind end)) }
    ensures fine { OnOk result (is_wide_numbered store.now kind end ≡ false) }
{
    store.laws();
    graph.laws();
    match node_tests(alloc, store, graph, arrivals, end, kind) {
        Ok(tests) => Ok(tests),
        Err(fault) => Err(want_of_memory(fault)),
    }
}

/// The place of a clock pin's node in the clock tree.
fn capture_place(graph: &Graph, clock: Option<u32>) -> Option<u32>
    requires { IfSome clock (λ n. n < node_bound graph.now.stored) }
    ensures { result ≡ option_and_then (place_at graph.now) clock }
{
    match clock {
        Some(node) => graph.place(node),
        None => None,
    }
}

/// A test of a pin, with what captures there.
fn end_test(
    alloc: Global,
    store: &Store,
    graph: &Graph,
    pin: u32,
    test: NodeTest,
) -> Result<EndTest, Memory>
    requires pin { is_number store.now.pins pin ≡ true }
    requires clock { IfSome test.clock (λ n. n < node_bound graph.now.stored) }
    ensures { IfOk result (IsToldTest store.now graph.now pin test) }
{
    let place = capture_place(graph, test.clock);
    let names = pin_names(alloc, store, pin)?;
    let capture = Capture {
        pin: names.pin,
        cell: names.cell,
        clock: test.capture_clock,
    };
    Ok(EndTest {
        test,
        capture,
        place,
    })
}

/// Some tests of a pin, with what captures there.
fn told_tests(
    alloc: Global,
    store: &Store,
    graph: &Graph,
    pin: u32,
    found: &[NodeTest],
) -> Result<Items<EndTest>, Memory>
    requires pin { is_number store.now.pins pin ≡ true }
    requires clocks { All (λ test. IfSome test.clock (λ n. n < node_bound graph.now.stored))
        found.now }
    ensures { IfOk result (AreToldTests store.now graph.now pin found.now) }
{
    let mut tests = Items::with_room(alloc, found.len())?;
    for test in found {
        let told = end_test(alloc, store, graph, pin, *test)?;
        tests.push(told)?;
    }
    Ok(tests)
}

/// The tests of an end node that is there, in the order of the definition.
pub(crate) fn end_tests<A: Rows>(
    alloc: Global,
    store: &Store,
    graph: &Graph,
    arrivals: &A,
    kind: Kind,
    end: u32,
) -> Result<Items<EndTest>, Memory>
    requires graph { graph.now.stored ≡ store.now }
    requires rows { AreRows store.now (A.rows arrivals.now) }
    requires none { NoOrigin store.now.design }
    requires end { end < node_bound store.now }
    requires there { is_number store.now.pins (pin_under end) ≡ true }
    ensures { IfOk result (AreEndTestsOf graph.now kind end) }
{
    store.laws();
    graph.laws();
    let found = fine_tests(alloc, store, graph, arrivals, kind, end)?;
    let Some(pin) = graph.pin_of(end) else {
        unreachable!()
    };
    told_tests(alloc, store, graph, pin, found.as_slice())
}
