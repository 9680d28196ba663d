//! The evaluation of one node.

ghost use Rattle.std.specs.Prelude.{ℕ, List, Bool, ◌≡◌, ◌+◌, ◌<◌, ◌||◌, true, false, Some, IfOk, IfErr, OnOk};
ghost use Rattle.timing_rules.specs.Checks.{IsSound};
ghost use Rattle.timing_defs.specs.Kinds.{kind_of};
ghost use Rattle.timing_defs.specs.RowTimes.{back_times};
ghost use Rattle.timing_rules.specs.Required.{empty_back};
ghost use Rattle.netlist_store.specs.Numbering.{is_number, name_at};
ghost use Rattle.node_rows.specs.Evaluation.{IsPlaced};
ghost use Rattle.node_tests.specs.NodeTests.{AreTests, tests_numbered, is_wide_numbered};
ghost use Rattle.pin_graph.specs.Nodes.{node_bound};
ghost use Rattle.pin_graph.specs.RowTables.{AreRows, AreRowsFine, back_numbered};
ghost use Rattle.arc_delays.specs.Delays.{AreDelays};
ghost use Rattle.required_engine.specs.Worked.{AreFound, IsAsked, IsBackRow, IsBackFault, AreReady, is_wide_back, IsUnfit, pin_told};

use crate::arcs_out::ArcsOut;
use crate::tables::Required;
use crate::times::{Behind, required_times};
use crate::unfit::Unfit;
use arc_delays::{ArcDelays, Delayed};
use cow_table::CowTable;
use netlist_store::Store;
use node_rows::times_in;
use node_tests::{NodeTest, is_endpoint, node_tests};
use pin_graph::Graph;
use sta_units::Steps;
use std::alloc::Global;
use timing_defs::{BackRow, EdgeTimes, Fault, Kind, NodeRow, Place, Rows, Split};

/// The row of a number that is of no node.
pub(crate) fn empty_back(alloc: Global) -> BackRow
    ensures { result ≡ empty_back }
{
    BackRow {
        early: EdgeTimes::new(alloc),
        late: EdgeTimes::new(alloc),
    }
}

/// A node whose required times are asked for: its number, its row, and whether its pin is an endpoint.
#[derive(Clone, Copy, Drop)]
struct AskedNode<'a> {
    number: u32,
    row: &'a NodeRow,
    endpoint: bool,
}

/// The required times of a node in a split, over its tests or over the arcs out of it.
fn split_times(
    alloc: Global,
    store: &Store,
    graph: &Graph,
    delays: &ArcDelays,
    rows: &CowTable<BackRow>,
    split: Split,
    node: &AskedNode<'_>,
    tests: &[NodeTest],
) -> Result<EdgeTimes, Unfit>
    requires graph { graph.now.stored ≡ store.now }
    requires fine { AreRowsFine store.now.design }
    requires delays { AreDelays store.now delays.now }
    requires node { IsAsked store.now node.now }
    requires ready { AreReady graph.now rows.now node.now.number }
    requires tests { AreTests store.now tests.now
        (tests_numbered store.now (kind_of split) node.now.number) }
    requires needs { is_wide_numbered store.now (kind_of split) node.now.number ≡ false }
    ensures times { IfOk result
        (λ times. times ≡ back_times split (back_numbered store.now node.now.number)) }
    ensures fine { OnOk result (is_wide_back store.now split node.now.number ≡ false) }
    ensures err { IfErr result (IsUnfit (is_wide_back store.now split node.now.number)) }
{
    store.laws();
    graph.laws();
    let arrived = times_in(node.row, split);
    if node.endpoint {
        return required_times(alloc, store, split, &Behind::Tests(tests), arrived);
    }
    let out = ArcsOut {
        rows,
        delays,
        arcs: graph.arcs_out(node.number),
    };
    required_times(alloc, store, split, &Behind::Arcs(out), arrived)
}

/// The required times of a node in both splits.
fn both_times(
    alloc: Global,
    store: &Store,
    graph: &Graph,
    delays: &ArcDelays,
    rows: &CowTable<BackRow>,
    node: &AskedNode<'_>,
    setup: &[NodeTest],
    hold: &[NodeTest],
) -> Result<BackRow, Unfit>
    requires graph { graph.now.stored ≡ store.now }
    requires fine { AreRowsFine store.now.design }
    requires delays { AreDelays store.now delays.now }
    requires node { IsAsked store.now node.now }
    requires ready { AreReady graph.now rows.now node.now.number }
    requires setup { AreTests store.now setup.now
        (tests_numbered store.now Kind.Setup node.now.number) }
    requires hold { AreTests store.now hold.now
        (tests_numbered store.now Kind.Hold node.now.number) }
    requires setup_needs { is_wide_numbered store.now Kind.Setup node.now.number ≡ false }
    requires hold_needs { is_wide_numbered store.now Kind.Hold node.now.number ≡ false }
    ensures row { IfOk result (λ row. row ≡ back_numbered store.now node.now.number) }
    ensures fine { OnOk result
        ((is_wide_back store.now Split.Early node.now.number || is_wide_back store.now Split.Late
        node.now.number) ≡ false) }
    ensures err { IfErr result
        (IsUnfit
        (is_wide_back store.now Split.Early node.now.number || is_wide_back store.now Split.Late
        node.now.number)) }
{
    let early = split_times(alloc, store, graph, delays, rows, Split::Early, node, hold)?;
    let late = split_times(alloc, store, graph, delays, rows, Split::Late, node, setup)?;
    Ok(BackRow { early, late })
}

/// The fault of a pin: a required time leaves its limit there, or memory is wanting.
fn fault_at(alloc: Global, store: &Store, pin: u32, unfit: Unfit) -> Fault
    requires { is_number store.now.pins pin ≡ true }
    ensures { (wide : Bool) (name : List ℕ) → name_at store.now.pins pin ≡ Some name
        → IsUnfit wide unfit → IsPlaced wide name result }
{
    match unfit {
        Unfit::Memory => Fault::Memory,
        Unfit::Range => match store.pin_name(pin).copied(alloc) {
            Ok(name) => Fault::OutOfRange(Place::Pin(name)),
            Err(_) => Fault::Memory,
        },
    }
}

/// The required times of a node with these tests.
fn tested_back(
    alloc: Global,
    store: &Store,
    graph: &Graph,
    delays: &ArcDelays,
    rows: &CowTable<BackRow>,
    node: &AskedNode<'_>,
    pin: u32,
    setup: &[NodeTest],
    hold: &[NodeTest],
) -> Result<BackRow, Fault>
    requires graph { graph.now.stored ≡ store.now }
    requires fine { AreRowsFine store.now.design }
    requires delays { AreDelays store.now delays.now }
    requires node { IsAsked store.now node.now }
    requires pin { pin_told store.now node.now.number ≡ Some pin }
    requires ready { AreReady graph.now rows.now node.now.number }
    requires setup { AreTests store.now setup.now
        (tests_numbered store.now Kind.Setup node.now.number) }
    requires hold { AreTests store.now hold.now
        (tests_numbered store.now Kind.Hold node.now.number) }
    requires setup_needs { is_wide_numbered store.now Kind.Setup node.now.number ≡ false }
    requires hold_needs { is_wide_numbered store.now Kind.Hold node.now.number ≡ false }
    ensures row { IfOk result (IsBackRow store.now node.now.number) }
    ensures err { IfErr result (IsBackFault store.now node.now.number) }
{
    store.laws();
    graph.laws();
    match both_times(alloc, store, graph, delays, rows, node, setup, hold) {
        Ok(row) => Ok(row),
        Err(unfit) => Err(fault_at(alloc, store, pin, unfit)),
    }
}

/// The required times of an endpoint's node; its tests of each kind are found once.
fn endpoint_back<A: Rows + Delayed>(
    alloc: Global,
    store: &Store,
    graph: &Graph,
    arrivals: &A,
    rows: &CowTable<BackRow>,
    node: &AskedNode<'_>,
    pin: u32,
) -> Result<BackRow, Fault>
    requires graph { graph.now.stored ≡ store.now }
    requires found { AreFound store.now (A.rows arrivals.now) (A.delays arrivals.now) }
    requires node { IsAsked store.now node.now }
    requires pin { pin_told store.now node.now.number ≡ Some pin }
    requires ready { AreReady graph.now rows.now node.now.number }
    ensures row { IfOk result (IsBackRow store.now node.now.number) }
    ensures err { IfErr result (IsBackFault store.now node.now.number) }
{
    store.laws();
    let setup = node_tests(alloc, store, graph, arrivals, node.number, Kind::Setup)?;
    let hold = node_tests(alloc, store, graph, arrivals, node.number, Kind::Hold)?;
    let (setup, hold) = (setup.as_slice(), hold.as_slice());
    let delays = arrivals.delays();
    tested_back(alloc, store, graph, delays, rows, node, pin, setup, hold)
}

/// The required times of a node. One whose pin is no endpoint has no tests, and none are looked for.
fn node_back<A: Rows + Delayed>(
    alloc: Global,
    store: &Store,
    graph: &Graph,
    arrivals: &A,
    rows: &CowTable<BackRow>,
    node: u32,
    pin: u32,
) -> Result<BackRow, Fault>
    requires graph { graph.now.stored ≡ store.now }
    requires found { AreFound store.now (A.rows arrivals.now) (A.delays arrivals.now) }
    requires node { node < node_bound store.now }
    requires pin { pin_told store.now node ≡ Some pin }
    requires ready { AreReady graph.now rows.now node }
    ensures row { IfOk result (IsBackRow store.now node) }
    ensures err { IfErr result (IsBackFault store.now node) }
{
    store.laws();
    let asked = AskedNode {
        number: node,
        row: arrivals.row(node),
        endpoint: is_endpoint(store, pin),
    };
    if asked.endpoint {
        return endpoint_back(alloc, store, graph, arrivals, rows, &asked, pin);
    }
    let delays = arrivals.delays();
    tested_back(alloc, store, graph, delays, rows, &asked, pin, &[], &[])
}

/// The required times of a node over those of the nodes after it, counted as one step; none of a number
/// that is of no node. `OutOfRange` at the node's pin where a setup or hold time or a required time of
/// it, in fs, leaves its limit. Each launch edge takes time of the node's tests, or of the arcs into the
/// nodes after it and of the launch edges there; an endpoint's tests are found once for each kind.
pub(crate) fn evaluated<A: Rows + Delayed, L>(
    alloc: Global,
    store: &Store,
    graph: &Graph,
    arrivals: &A,
    rows: &CowTable<BackRow>,
    node: u32,
    steps: &mut Steps<L>,
) -> Result<BackRow, Fault>
    requires graph { graph.now.stored ≡ store.now }
    requires found { AreFound store.now (A.rows arrivals.now) (A.delays arrivals.now) }
    requires node { node < node_bound store.now }
    requires ready { AreReady graph.now rows.now node }
    ensures row { IfOk result (IsBackRow store.now node) }
    ensures err { IfErr result (IsBackFault store.now node) }
    ensures steps { steps.new ≡ steps.old + 1 }
{
    steps.tick();
    match graph.pin_of(node) {
        None => Ok(empty_back(alloc)),
        Some(pin) => node_back(alloc, store, graph, arrivals, rows, node, pin),
    }
}

/// The required times of a node over those of the nodes after it, counted as one step; none of a number
/// that is of no node. `OutOfRange` at the node's pin where a setup or hold time or a required time of
/// it, in fs, leaves its limit. Each launch edge takes time of the node's tests, or of the arcs into the
/// nodes after it and of the launch edges there; an endpoint's tests are found once for each kind.
pub fn eval_back<A: Rows + Delayed, L>(
    alloc: Global,
    store: &Store,
    graph: &Graph,
    arrivals: &A,
    rows: &Required,
    node: u32,
    steps: &mut Steps<L>,
) -> Result<BackRow, Fault>
    requires sound { IsSound store.now.design }
    requires graph { graph.now.stored ≡ store.now }
    requires rows { AreRows store.now (A.rows arrivals.now) }
    requires fine { AreRowsFine store.now.design }
    requires delays { AreDelays store.now (A.delays arrivals.now) }
    requires node { node < node_bound store.now }
    requires ready { AreReady graph.now rows.now.rows node }
    ensures row { IfOk result (IsBackRow store.now node) }
    ensures err { IfErr result (IsBackFault store.now node) }
    ensures steps { steps.new ≡ steps.old + 1 }
{
    evaluated(alloc, store, graph, arrivals, &rows.rows, node, steps)
}
