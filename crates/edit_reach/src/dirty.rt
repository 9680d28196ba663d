//! The pins of seeds, and the endpoints at the nodes behind them: ports, and pins of instances whose cell has tests.

ghost use Rattle.std.specs.Prelude.{◌≡◌, ◌++◌, nat_eq, true, [], map, IfOk, IfSome, OnOk};
ghost use Rattle.std.specs.List.{filter_map, flat_map};
ghost use Rattle.std.specs.Option.{option_to_list};
ghost use Rattle.indexmap.specs.IndexSet.{insert_all};
ghost use Rattle.netlist_store.specs.Numbering.{is_number};
ghost use Rattle.pin_graph.specs.Joins.{own_number};
ghost use Rattle.pin_graph.specs.Nodes.{pin_under};
ghost use Rattle.edit_reach.specs.Reach.{HasDirty};
ghost use Rattle.edit_reach.specs.Besides.{inst_under, tested_under, port_under, pins_of_cell, inst_pins_at};

use crate::behind::number_set;
use indexmap::IndexSet;
use netlist_store::{Store, full_name};
use sta_units::Memory;
use std::alloc::Global;
use timing_defs::{Cell, Inst, Items, Name, Split};

/// Adds a number, where it is there.
fn add_number(numbers: &mut Items<u32>, number: Option<u32>) -> Result<(), Memory>
    ensures { OnOk result (numbers.new ≡ numbers.old ++ option_to_list number) }
{
    match number {
        Some(number) => numbers.push(number),
        None => Ok(()),
    }
}

/// The number of the instance of a node's pin; none of a port's, and of a gap.
#[tactic(auto, using(crate::proofs::Beside::gap_owner))]
fn inst_under(store: &Store, node: u32) -> Option<u32>
    ensures value { result ≡ inst_under store.now node }
    ensures inst { IfSome result (λ inst. is_number store.now.insts inst ≡ true) }
{
    let pin = node / 2;
    if !store.has_pin(pin) {
        return None;
    }
    store.inst_of(pin)
}

/// The number of the instance of a node's pin, where its cell has tests; none of a port's, and of a gap.
fn tested_under(store: &Store, node: u32) -> Option<u32>
    ensures { result ≡ tested_under store.now node }
{
    let inst = inst_under(store, node)?;
    if store.cell_at(inst, Split::Late).tests.is_empty() {
        None
    } else {
        Some(inst)
    }
}

/// The instances of the pins of nodes that have tests in their cells.
fn tested_insts(alloc: Global, store: &Store, nodes: &[u32]) -> Result<Items<u32>, Memory>
    ensures { IfOk result (λ insts. insts ≡ filter_map (tested_under store.now) nodes.now) }
{
    let mut insts = Items::new(alloc);
    for node in nodes {
        add_number(&mut insts, tested_under(store, *node))?;
    }
    Ok(insts)
}

/// The pin of a node, where no instance has it: a port, or a number that is no pin.
fn port_under(store: &Store, node: u32) -> Option<u32>
    ensures { result ≡ port_under store.now node }
{
    match inst_under(store, node) {
        Some(_) => None,
        None => Some(node / 2),
    }
}

/// Adds the ports among the pins of nodes.
fn add_ports(pins: &mut Items<u32>, store: &Store, nodes: &[u32]) -> Result<(), Memory>
    ensures { OnOk result (pins.new ≡ pins.old ++ filter_map (port_under store.now) nodes.now) }
{
    for node in nodes {
        add_number(pins, port_under(store, *node))?;
    }
    Ok(())
}

/// The pins of nodes.
fn pins_under(alloc: Global, nodes: &[u32]) -> Result<Items<u32>, Memory>
    ensures { IfOk result (λ pins. pins ≡ map pin_under nodes.now) }
{
    let mut pins = Items::with_room(alloc, nodes.len())?;
    for node in nodes {
        pins.push(*node / 2)?;
    }
    Ok(pins)
}

/// The number of a pin of an instance, by its name in the cell.
fn own_number(alloc: Global, store: &Store, inst: &Inst, own: &Name) -> Result<Option<u32>, Memory>
    ensures { IfOk result (λ number. number ≡ own_number store.now inst.now own.now) }
{
    let name = full_name(alloc, &inst.name, own)?;
    Ok(store.pin(&name))
}

/// Adds the pins of an instance by those of its cell.
fn add_cell_pins(
    alloc: Global,
    store: &Store,
    pins: &mut Items<u32>,
    inst: &Inst,
    cell: &Cell,
) -> Result<(), Memory>
    ensures { OnOk result (pins.new ≡ pins.old ++ pins_of_cell store.now inst.now cell.now.pins) }
{
    for pin in cell.pins.as_slice() {
        let number = own_number(alloc, store, inst, &pin.name)?;
        add_number(pins, number)?;
    }
    Ok(())
}

/// Adds the pins of the instance of a number; a gap has none.
#[tactic(auto, using(crate::proofs::Beside::gap_pins, crate::proofs::Beside::pins_put))]
fn add_inst_pins(
    alloc: Global,
    store: &Store,
    pins: &mut Items<u32>,
    inst: u32,
) -> Result<(), Memory>
    ensures { OnOk result (pins.new ≡ pins.old ++ inst_pins_at store.now inst) }
{
    if !store.has_inst(inst) {
        return Ok(());
    }
    let cell = store.cell_at(inst, Split::Late);
    add_cell_pins(alloc, store, pins, store.inst_at(inst), cell)
}

/// Adds the pins of instances.
fn add_insts_pins(
    alloc: Global,
    store: &Store,
    pins: &mut Items<u32>,
    insts: &[u32],
) -> Result<(), Memory>
    ensures { OnOk result (pins.new ≡ pins.old ++ flat_map (inst_pins_at store.now) insts.now) }
{
    for inst in insts {
        add_inst_pins(alloc, store, pins, *inst)?;
    }
    Ok(())
}

/// The pins of an instance; none of a gap.
pub fn inst_pins(alloc: Global, store: &Store, inst: u32) -> Result<Items<u32>, Memory>
    ensures { IfOk result (λ pins. pins ≡ inst_pins_at store.now inst) }
{
    let mut pins = Items::new(alloc);
    add_inst_pins(alloc, store, &mut pins, inst)?;
    Ok(pins)
}

/// The instances of the pins of nodes that have tests in their cells, each once.
fn tested_set(alloc: Global, store: &Store, nodes: &[u32]) -> Result<IndexSet<u32>, Memory>
    ensures { IfOk result
        (λ insts. insts.keys
        ≡ insert_all nat_eq [] (filter_map (tested_under store.now) nodes.now)) }
{
    let found = tested_insts(alloc, store, nodes)?;
    number_set(alloc, found.as_slice())
}

/// Adds the pins of the instances at nodes that have tests in their cells.
fn add_tested_pins(
    alloc: Global,
    store: &Store,
    pins: &mut Items<u32>,
    nodes: &[u32],
) -> Result<(), Memory>
    ensures { OnOk result
        (pins.new
        ≡ pins.old ++ flat_map (inst_pins_at store.now)
        (insert_all nat_eq [] (filter_map (tested_under store.now) nodes.now))) }
{
    let insts = tested_set(alloc, store, nodes)?;
    add_insts_pins(alloc, store, pins, insts.as_slice())
}

/// The pins of the seeds of an edit, and of the nodes behind them the ports and all pins of the instances whose
/// cells have tests, each once. Every other pin of the edited store is an endpoint in both stores or in none, with
/// the same slacks.
pub fn dirty_pins(
    alloc: Global,
    store: &Store,
    seeds: &[u32],
    nodes: &[u32],
) -> Result<IndexSet<u32>, Memory>
    ensures { IfOk result (λ pins. HasDirty store.now seeds.now nodes.now pins.keys) }
{
    store.laws();
    let mut pins = pins_under(alloc, seeds)?;
    add_ports(&mut pins, store, nodes)?;
    add_tested_pins(alloc, store, &mut pins, nodes)?;
    number_set(alloc, pins.as_slice())
}
