//! The clock pins of registers that are in clock networks.

ghost use Rattle.std.specs.Prelude.{◌≡◌, ◌<◌, ◌&&◌, not, true, Some, length, option_map, IfOk};
ghost use Rattle.std.specs.List.{list_any};
ghost use Rattle.std.specs.Str.{bytes_eq};
ghost use Rattle.timing_rules.specs.Clocking.{is_clock_pin};
ghost use Rattle.netlist_store.specs.Numbering.{is_number, pin_numbered};
ghost use Rattle.slack_summaries.specs.Registers.{is_edge_from, is_clocked_by, clocks_by, in_network, clocks_pin, register_pins};

use netlist_store::Store;
use pin_graph::Graph;
use sta_units::Memory;
use std::alloc::Global;
use store_pins::own_name;
use timing_defs::{Cell, CellArc, CellTest, Items, Split};

/// Whether an arc of a register leads from the pin of that name.
fn is_edge_from(arc: &CellArc, own: &[u8]) -> bool
    ensures { result ≡ is_edge_from own.now arc.now }
{
    !arc.kind.is_comb() && arc.from.as_bytes() == own
}

/// Whether some arc of a register leads from the pin of that name.
fn has_edge_from(arcs: &[CellArc], own: &[u8]) -> bool
    ensures { result ≡ list_any (is_edge_from own.now) arcs.now }
{
    arcs.iter().any(|arc| is_edge_from(arc, own))
}

/// Whether some test is clocked by the pin of that name.
fn has_test_by(tests: &[CellTest], own: &[u8]) -> bool
    ensures { result ≡ list_any (is_clocked_by own.now) tests.now }
{
    tests.iter().any(|test| test.clock.as_bytes() == own)
}

/// Whether a pin of that name is a clock pin of its cell.
fn clocks_by(cell: &Cell, own: &[u8]) -> bool
    ensures { result ≡ clocks_by cell.now own.now }
{
    has_edge_from(cell.arcs.as_slice(), own) || has_test_by(cell.tests.as_slice(), own)
}

/// Whether a pin is a register's clock pin.
#[tactic(auto, using(crate::proofs::RegisterLaws::inst_clocks, crate::proofs::RegisterLaws::port_clocks))]
fn is_clock_pin(store: &Store, pin: u32) -> bool
    requires { is_number store.now.pins pin ≡ true }
    ensures { option_map (is_clock_pin store.now.design) (pin_numbered store.now pin)
        ≡ Some result }
{
    store.laws();
    match store.inst_of(pin) {
        Some(inst) => clocks_by(store.cell_at(inst, Split::Late), own_name(store, pin)),
        None => false,
    }
}

/// Whether the pin of a number is in a clock network.
#[tactic(auto, using(crate::proofs::RegisterLaws::network_told))]
fn in_network(store: &Store, graph: &Graph, pin: u32) -> bool
    requires graph { graph.now.stored ≡ store.now }
    requires pin { pin < length store.now.pins }
    ensures { result ≡ in_network store.now pin }
{
    graph.laws();
    let _ = store.pin_bound();
    graph.is_network(2 * pin)
}

/// Whether the pin of a number is a register's clock pin in a clock network.
#[tactic(auto, using(crate::proofs::RegisterLaws::gap_clocks, crate::proofs::RegisterLaws::off_clocks, crate::proofs::RegisterLaws::on_clocks))]
fn clocks_pin(store: &Store, graph: &Graph, pin: u32) -> bool
    requires graph { graph.now.stored ≡ store.now }
    requires pin { pin < length store.now.pins }
    ensures { result ≡ clocks_pin store.now pin }
{
    if !store.has_pin(pin) {
        return false;
    }
    if !in_network(store, graph, pin) {
        return false;
    }
    is_clock_pin(store, pin)
}

/// The numbers of the clock pins of registers in clock networks, rising. Takes a step for each pin.
pub(crate) fn register_pins(
    alloc: Global,
    store: &Store,
    graph: &Graph,
) -> Result<Items<u32>, Memory>
    requires { graph.now.stored ≡ store.now }
    ensures { IfOk result (λ pins. pins ≡ register_pins store.now) }
{
    let mut pins = Items::new(alloc);
    for pin in 0..store.pin_bound() {
        if clocks_pin(store, graph, pin) {
            pins.push(pin)?;
        }
    }
    Ok(pins)
}
