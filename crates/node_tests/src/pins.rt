//! The nodes of pins of instances.

ghost use Rattle.std.specs.Prelude.{◌≡◌, ◌<◌, ◌^◌, true, Contains, IfOk, IfSome};
ghost use Rattle.netlist_store.specs.Numbering.{is_number};
ghost use Rattle.pin_graph.specs.Nodes.{node_at, node_bound, node_number};
ghost use Rattle.node_tests.specs.Registers.{pin_node, late_pins, IsPinOf};

use netlist_store::{Store, full_name};
use pin_graph::Graph;
use sta_units::Memory;
use std::alloc::Global;
use store_pins::own_name;
use timing_defs::{CellPin, Tran};

/// From this distance on, numbers beside that of a pin are not tried for the other pins of its instance.
const REACH: u32 = 8;

/// Whether a number is that of the pin of an instance with this name in the cell. Takes no memory.
fn is_pin_of(store: &Store, number: u32, inst: u32, own: &[u8]) -> bool
    ensures { result ≡ true → IsPinOf store.now inst own.now number }
{
    if !store.has_pin(number) {
        return false;
    }
    match store.inst_of(number) {
        Some(owner) => owner == inst && own_name(store, number) == own,
        None => false,
    }
}

/// The number of the pin of an instance with this name in the cell, where it is near another number;
/// the nearest are tried first. Takes no memory.
fn near_pin(store: &Store, inst: u32, own: &[u8], near: u32) -> Option<u32>
    ensures { IfSome result (IsPinOf store.now inst own.now) }
{
    for step in 1..REACH {
        let above = near.saturating_add(step);
        if is_pin_of(store, above, inst, own) {
            return Some(above);
        }
        let below = near.saturating_sub(step);
        if is_pin_of(store, below, inst, own) {
            return Some(below);
        }
    }
    None
}

/// The number of the node of the pin with a number.
fn node_of(pin: u32, tran: Tran) -> u32
    requires { pin < 2 ^ 31 }
    ensures { result ≡ node_number pin tran }
{
    match tran {
        Tran::Rise => 2 * pin,
        Tran::Fall => 2 * pin + 1,
    }
}

/// The number of the node of a pin of an instance's cell, by the pin's name.
pub(crate) fn named_node(
    alloc: Global,
    store: &Store,
    graph: &Graph,
    inst: u32,
    pin: &CellPin,
    tran: Tran,
) -> Result<u32, Memory>
    requires graph { graph.now.stored ≡ store.now }
    requires inst { is_number store.now.insts inst ≡ true }
    requires pin { Contains (late_pins store.now inst) pin.now }
    ensures node { IfOk result
        (λ node. node_at store.now node ≡ pin_node store.now inst pin.now tran) }
    ensures below { IfOk result (λ node. node < node_bound store.now) }
{
    store.laws();
    let name = full_name(alloc, &store.inst_at(inst).name, &pin.name)?;
    match graph.node(&name, tran) {
        Some(node) => Ok(node),
        None => unreachable!(),
    }
}

/// The number of the node of a pin of an instance's cell. Where the pin's number is near the given one
/// it takes no memory.
pub(crate) fn pin_node(
    alloc: Global,
    store: &Store,
    graph: &Graph,
    inst: u32,
    pin: &CellPin,
    tran: Tran,
    near: u32,
) -> Result<u32, Memory>
    requires graph { graph.now.stored ≡ store.now }
    requires inst { is_number store.now.insts inst ≡ true }
    requires pin { Contains (late_pins store.now inst) pin.now }
    ensures node { IfOk result
        (λ node. node_at store.now node ≡ pin_node store.now inst pin.now tran) }
    ensures below { IfOk result (λ node. node < node_bound store.now) }
{
    store.laws();
    match near_pin(store, inst, pin.name.as_bytes(), near) {
        Some(number) => Ok(node_of(number, tran)),
        None => named_node(alloc, store, graph, inst, pin, tran),
    }
}
