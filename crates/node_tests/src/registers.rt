//! The setup and hold tests of a register's data node.

ghost use Rattle.std.specs.Prelude.{◌≡◌, ◌++◌, ◌<◌, ℕ, List, true, false, Some, None, Contains, option_map, option_and_then, IfOk, IfErr, OnOk};
ghost use Rattle.std.specs.List.{list_all, list_any, flat_map};
ghost use Rattle.std.specs.Option.{option_to_list};
ghost use Rattle.timing_defs.specs.RowTimes.{slew_in};
ghost use Rattle.timing_rules.specs.Range.{within_some};
ghost use Rattle.timing_defs.specs.Netlist.{cell_of};
ghost use Rattle.timing_defs.specs.Kinds.{data_split, clock_split};
ghost use Rattle.netlist_store.specs.Numbering.{is_number, name_at, inst_numbered};
ghost use Rattle.pin_graph.specs.Nodes.{node_at, node_bound};
ghost use Rattle.pin_graph.specs.RowTables.{AreRows, row_numbered};
ghost use Rattle.node_rows.specs.Evaluation.{IsPlaced};
ghost use Rattle.node_tests.specs.Needs.{has_table, need_over, is_need_wide};
ghost use Rattle.node_tests.specs.NodeTests.{AreTests, MayBeTest, name_numbered};
ghost use Rattle.node_tests.specs.Registers.{captured, pin_node, late_pins, IsAsked, IsEnds, asked_test, is_asked_wide, ArePinTests, is_pin_wide, pin_tests_of};

use crate::climbs::walk_start;
use crate::needs::{TestEnds, has_test, need_of};
use crate::node_test::NodeTest;
use crate::pins::pin_node;
use netlist_store::Store;
use nldm_lookup::OutOfRange;
use node_rows::{slew_in, time_on, times_in};
use pin_graph::Graph;
use sta_units::{Fs, Memory};
use std::alloc::Global;
use timing_defs::{CellPin, CellTest, Fault, Items, Kind, NodeRow, Place, Rows, Split, Tran};

/// A data node of a register, and what its tests are found from: a store with its graph, the kind of
/// tests, the number of the node, its pin and transition, its instance, the pin's name in the cell, and
/// the node's row.
#[derive(Clone, Copy, Drop)]
pub(crate) struct Asked<'a> {
    pub(crate) store: &'a Store,
    pub(crate) graph: &'a Graph,
    pub(crate) kind: Kind,
    pub(crate) node: u32,
    pub(crate) pin: u32,
    pub(crate) tran: Tran,
    pub(crate) inst: u32,
    pub(crate) own: &'a [u8],
    pub(crate) row: &'a NodeRow,
}

/// The tests against both nodes of a clock pin.
#[derive(Clone, Copy, Drop)]
pub(crate) struct PinTests {
    pub(crate) rise: Option<NodeTest>,
    pub(crate) fall: Option<NodeTest>,
}

/// The greatest time that the tests between a clock node and a data node need, by the rows of both; none
/// where no test stands there or one has no slew. `OutOfRange` exactly where the time of one leaves its
/// limit.
fn need_between(
    tests: &[CellTest],
    ends: &TestEnds<'_>,
    clock: &NodeRow,
    target: &NodeRow,
) -> Result<Option<i64>, OutOfRange>
    requires tables { list_all has_table tests.now ≡ true }
    requires clock { within_some (slew_in (clock_split ends.now.kind) clock.now) ≡ true }
    requires target { within_some (slew_in (data_split ends.now.kind) target.now) ≡ true }
    ensures need { IfOk result
        (λ need. need
        ≡ need_over ends.now tests.now (slew_in (clock_split ends.now.kind) clock.now)
        (slew_in (data_split ends.now.kind) target.now)) }
    ensures fine { IfOk result
        (λ _. is_need_wide ends.now tests.now (slew_in (clock_split ends.now.kind) clock.now)
        (slew_in (data_split ends.now.kind) target.now) ≡ false) }
    ensures err { IfErr result
        (λ _. is_need_wide ends.now tests.now (slew_in (clock_split ends.now.kind) clock.now)
        (slew_in (data_split ends.now.kind) target.now) ≡ true) }
{
    let Some(clock_slew) = slew_in(clock, ends.kind.clock_split()) else {
        return Ok(None);
    };
    let Some(data_slew) = slew_in(target, ends.kind.data_split()) else {
        return Ok(None);
    };
    need_of(tests, ends, clock_slew, data_slew)
}

/// The test at a clock pin's node that needs this time in fs, where there is one, a walk over the clock
/// network leads to the node and both arrivals of its capture edge are there.
fn captured(
    store: &Store,
    graph: &Graph,
    clock: u32,
    row: &NodeRow,
    need: Option<i64>,
) -> Option<NodeTest>
    requires graph { graph.now.stored ≡ store.now }
    requires clock { clock < node_bound store.now }
    requires row { row.now ≡ row_numbered store.now clock }
    ensures { MayBeTest store.now result
        (option_and_then
        (λ need. option_and_then (λ node. captured store.now.design node need)
        (node_at store.now clock)) need) }
{
    let need = need?;
    let start = walk_start(store, graph, clock)?;
    let early = time_on(times_in(row, Split::Early), start.clock, start.tran)?;
    let late = time_on(times_in(row, Split::Late), start.clock, start.tran)?;
    Some(NodeTest {
        clock: Some(clock),
        need: Fs(need),
        capture_clock: start.clock,
        capture_tran: start.tran,
        early: Fs(early),
        late: Fs(late),
    })
}

/// The fault of a pin at which a setup or hold time leaves its limit, or want of memory.
fn out_of_range(alloc: Global, store: &Store, pin: u32) -> Fault
    requires { is_number store.now.pins pin ≡ true }
    ensures { (name : List ℕ) → name_at store.now.pins pin ≡ Some name → IsPlaced true name result }
{
    match store.pin_name(pin).copied(alloc) {
        Ok(name) => Fault::OutOfRange(Place::Pin(name)),
        Err(_) => Fault::Memory,
    }
}

/// The test against a clock pin's node, by the rows of both.
fn test_against(
    alloc: Global,
    asked: &Asked<'_>,
    tests: &[CellTest],
    ends: &TestEnds<'_>,
    clock: u32,
    row: &NodeRow,
) -> Result<Option<NodeTest>, Fault>
    requires asked { IsAsked asked.now }
    requires tests { option_map (λ cell. cell.tests)
        (option_and_then (cell_of asked.now.store.now.design (data_split asked.now.kind))
        (inst_numbered asked.now.store.now asked.now.inst)) ≡ Some tests.now }
    requires clock { clock < node_bound asked.now.store.now }
    requires ends { IsEnds asked.now ends.now clock }
    requires row { row.now ≡ row_numbered asked.now.store.now clock }
    ensures test { IfOk result
        (λ test. MayBeTest asked.now.store.now test
        (asked_test asked.now (node_at asked.now.store.now clock))) }
    ensures fine { OnOk result
        (is_asked_wide asked.now (node_at asked.now.store.now clock) ≡ false) }
    ensures err { IfErr result
        (IsPlaced (is_asked_wide asked.now (node_at asked.now.store.now clock))
        (name_numbered asked.now.store.now asked.now.node)) }
{
    asked.store.laws();
    asked.graph.laws();
    if !asked.graph.is_network(clock) {
        return Ok(None);
    }
    match need_between(tests, ends, row, asked.row) {
        Ok(need) => Ok(captured(asked.store, asked.graph, clock, row, need)),
        Err(OutOfRange) => Err(out_of_range(alloc, asked.store, asked.pin)),
    }
}

/// The test against a node of a pin of the cell.
fn clock_test<A: Rows>(
    alloc: Global,
    asked: &Asked<'_>,
    arrivals: &A,
    pin: &CellPin,
    active: Tran,
) -> Result<Option<NodeTest>, Fault>
    requires asked { IsAsked asked.now }
    requires rows { AreRows asked.now.store.now (A.rows arrivals.now) }
    requires pin { Contains (late_pins asked.now.store.now asked.now.inst) pin.now }
    ensures test { IfOk result
        (λ test. MayBeTest asked.now.store.now test
        (asked_test asked.now (pin_node asked.now.store.now asked.now.inst pin.now active))) }
    ensures fine { OnOk result
        (is_asked_wide asked.now (pin_node asked.now.store.now asked.now.inst pin.now active)
        ≡ false) }
    ensures err { IfErr result
        (IsPlaced
        (is_asked_wide asked.now (pin_node asked.now.store.now asked.now.inst pin.now active))
        (name_numbered asked.now.store.now asked.now.node)) }
{
    asked.store.laws();
    asked.graph.laws();
    let ends = TestEnds {
        kind: asked.kind,
        pin: asked.own,
        tran: asked.tran,
        clock: pin.name.as_bytes(),
        active,
    };
    let cell = asked.store.cell_at(asked.inst, asked.kind.data_split());
    if !has_test(cell.tests.as_slice(), &ends) {
        return Ok(None);
    }
    let clock = pin_node(
        alloc,
        asked.store,
        asked.graph,
        asked.inst,
        pin,
        active,
        asked.pin,
    )?;
    let row = arrivals.row(clock);
    test_against(alloc, asked, cell.tests.as_slice(), &ends, clock, row)
}

/// The tests against both nodes of a pin of the cell.
fn pin_tests<A: Rows>(
    alloc: Global,
    asked: &Asked<'_>,
    arrivals: &A,
    pin: &CellPin,
) -> Result<PinTests, Fault>
    requires asked { IsAsked asked.now }
    requires rows { AreRows asked.now.store.now (A.rows arrivals.now) }
    requires pin { Contains (late_pins asked.now.store.now asked.now.inst) pin.now }
    ensures tests { IfOk result (ArePinTests asked.now pin.now) }
    ensures fine { OnOk result (is_pin_wide asked.now pin.now ≡ false) }
    ensures err { IfErr result
        (IsPlaced (is_pin_wide asked.now pin.now)
        (name_numbered asked.now.store.now asked.now.node)) }
{
    let rise = clock_test(alloc, asked, arrivals, pin, Tran::Rise)?;
    let fall = clock_test(alloc, asked, arrivals, pin, Tran::Fall)?;
    Ok(PinTests { rise, fall })
}

/// Adds a test, where it is there.
fn add_test(tests: &mut Items<NodeTest>, test: Option<NodeTest>) -> Result<(), Memory>
    ensures { OnOk result (tests.new ≡ tests.old ++ option_to_list test) }
{
    match test {
        Some(test) => tests.push(test),
        None => Ok(()),
    }
}

/// The tests of a register's data node, in the order of the pins of the cell, rise before fall.
pub(crate) fn register_tests<A: Rows>(
    alloc: Global,
    asked: &Asked<'_>,
    arrivals: &A,
) -> Result<Items<NodeTest>, Fault>
    requires asked { IsAsked asked.now }
    requires rows { AreRows asked.now.store.now (A.rows arrivals.now) }
    ensures tests { IfOk result
        (λ tests. AreTests asked.now.store.now tests
        (flat_map (pin_tests_of asked.now) (late_pins asked.now.store.now asked.now.inst))) }
    ensures fine { OnOk result
        (list_any (is_pin_wide asked.now) (late_pins asked.now.store.now asked.now.inst) ≡ false) }
    ensures err { IfErr result
        (IsPlaced (list_any (is_pin_wide asked.now) (late_pins asked.now.store.now asked.now.inst))
        (name_numbered asked.now.store.now asked.now.node)) }
{
    asked.store.laws();
    let mut tests = Items::new(alloc);
    let cell = asked.store.cell_at(asked.inst, Split::Late);
    for pin in cell.pins.as_slice() {
        let found = pin_tests(alloc, asked, arrivals, pin)?;
        add_test(&mut tests, found.rise)?;
        add_test(&mut tests, found.fall)?;
    }
    Ok(tests)
}
