//! Endpoints, and register pins that are clocked.

ghost use Rattle.std.specs.Prelude.{◌≡◌, ◌&&◌, true, Some, Contains, option_map, option_and_then, IfOk};
ghost use Rattle.std.specs.List.{list_any};
ghost use Rattle.std.specs.Str.{bytes_eq};
ghost use Rattle.timing_rules.specs.Tests.{is_endpoint, is_clocked};
ghost use Rattle.netlist_store.specs.Numbering.{is_number, inst_numbered, pin_numbered};
ghost use Rattle.timing_defs.specs.Netlist.{cell_of};
ghost use Rattle.node_tests.specs.Registers.{late_pins};
ghost use Rattle.node_tests.specs.Endpoints.{is_clocked_test, is_on_network, is_clocked_by};

use crate::needs::same_kind;
use crate::pins::named_node;
use netlist_store::Store;
use pin_graph::Graph;
use sta_units::Memory;
use std::alloc::Global;
use store_pins::{drives, own_name};
use timing_defs::{Cell, CellPin, CellTest, Kind, Split, Tran};

/// Whether some test stands at the data pin of that name in its cell.
fn has_test_at(tests: &[CellTest], own: &[u8]) -> bool
    ensures { result ≡ list_any (λ test. bytes_eq test.pin own.now) tests.now }
{
    tests.iter().any(|test| test.pin.as_bytes() == own)
}

/// Whether some of a cell's tests stands at its data pin of a number. The pin's name is looked for only
/// where there are tests, so not in most cells.
fn has_own_test(store: &Store, pin: u32, tests: &[CellTest]) -> bool
    requires { is_number store.now.pins pin ≡ true }
    ensures { option_map (λ p. list_any (λ test. bytes_eq test.pin p.own) tests.now)
        (pin_numbered store.now pin) ≡ Some result }
{
    store.laws();
    if tests.is_empty() {
        return false;
    }
    has_test_at(tests, own_name(store, pin))
}

/// Whether a pin is an endpoint: a data pin of a setup or hold test, or an output port. Takes no memory.
pub fn is_endpoint(store: &Store, pin: u32) -> bool
    requires { is_number store.now.pins pin ≡ true }
    ensures { option_map (is_endpoint store.now.design) (pin_numbered store.now pin) ≡ Some result }
{
    store.laws();
    if drives(store, pin) {
        return false;
    }
    match store.inst_of(pin) {
        Some(inst) => has_own_test(
            store,
            pin,
            store.cell_at(inst, Split::Late).tests.as_slice(),
        ),
        None => true,
    }
}

/// Whether a test stands between a data pin and a clock pin of its cell, by their names there.
fn is_clocked_test(test: &CellTest, kind: Kind, own: &[u8], clock: &[u8]) -> bool
    ensures { result ≡ is_clocked_test kind own.now clock.now test.now }
{
    same_kind(test.kind, kind) && test.pin.as_bytes() == own && clock == test.clock.as_bytes()
}

/// Whether some test of the kind stands between a data pin and a clock pin.
fn has_clock_test(tests: &[CellTest], kind: Kind, own: &[u8], clock: &[u8]) -> bool
    ensures { result ≡ list_any (is_clocked_test kind own.now clock.now) tests.now }
{
    tests
        .iter()
        .any(|test| is_clocked_test(test, kind, own, clock))
}

/// Whether a pin of an instance's cell is on the clock network.
fn is_on_network(
    alloc: Global,
    store: &Store,
    graph: &Graph,
    inst: u32,
    pin: &CellPin,
) -> Result<bool, Memory>
    requires graph { graph.now.stored ≡ store.now }
    requires inst { is_number store.now.insts inst ≡ true }
    requires pin { Contains (late_pins store.now inst) pin.now }
    ensures { IfOk result (λ on. on ≡ is_on_network store.now inst pin.now) }
{
    store.laws();
    graph.laws();
    let node = named_node(alloc, store, graph, inst, pin, Tran::Rise)?;
    Ok(graph.is_network(node))
}

/// Whether a pin of the cell is on the clock network and clocks the data pin of that name.
fn is_clocked_by(
    alloc: Global,
    store: &Store,
    graph: &Graph,
    kind: Kind,
    inst: u32,
    own: &[u8],
    tests: &[CellTest],
    pin: &CellPin,
) -> Result<bool, Memory>
    requires graph { graph.now.stored ≡ store.now }
    requires inst { is_number store.now.insts inst ≡ true }
    requires pin { Contains (late_pins store.now inst) pin.now }
    ensures { IfOk result (λ on. on ≡ is_clocked_by store.now kind inst own.now tests.now pin.now) }
{
    if has_clock_test(tests, kind, own, pin.name.as_bytes()) {
        is_on_network(alloc, store, graph, inst, pin)
    } else {
        Ok(false)
    }
}

/// Whether some of the pins of a cell is on the clock network and clocks the data pin of that name.
fn is_clocked_any(
    alloc: Global,
    store: &Store,
    graph: &Graph,
    kind: Kind,
    inst: u32,
    own: &[u8],
    cell: &Cell,
) -> Result<bool, Memory>
    requires graph { graph.now.stored ≡ store.now }
    requires inst { is_number store.now.insts inst ≡ true }
    requires cell { option_and_then (cell_of store.now.design Split.Late)
        (inst_numbered store.now inst) ≡ Some cell.now }
    ensures { IfOk result
        (λ on. on
        ≡ list_any (is_clocked_by store.now kind inst own.now cell.now.tests) cell.now.pins) }
{
    let tests = cell.tests.as_slice();
    for pin in cell.pins.as_slice() {
        let on = is_clocked_by(alloc, store, graph, kind, inst, own, tests, pin)?;
        if on {
            return Ok(true);
        }
    }
    Ok(false)
}

/// Whether a register's data pin is clocked for a kind: some test of the kind there has a clock pin on the
/// clock network. A port is clocked.
pub fn is_clocked(
    alloc: Global,
    store: &Store,
    graph: &Graph,
    kind: Kind,
    pin: u32,
) -> Result<bool, Memory>
    requires graph { graph.now.stored ≡ store.now }
    requires pin { is_number store.now.pins pin ≡ true }
    ensures { IfOk result
        (λ on. option_map (is_clocked store.now.design kind) (pin_numbered store.now pin)
        ≡ Some on) }
{
    store.laws();
    match store.inst_of(pin) {
        Some(inst) => {
            let cell = store.cell_at(inst, Split::Late);
            is_clocked_any(alloc, store, graph, kind, inst, own_name(store, pin), cell)
        }
        None => Ok(true),
    }
}
