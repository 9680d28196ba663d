//! The clock network: the pins that clocks' ports reach and that reach registers' clock pins.

ghost use Rattle.std.specs.Prelude.{◌≡◌, ◌++◌, ◌<◌, ◌&&◌, ℕ, None, true, false, map, length, slice_index_or, IfOk, OnOk};
ghost use Rattle.std.specs.List.{filter_map};
ghost use Rattle.std.specs.Option.{option_map_or, option_to_list};
ghost use Rattle.timing_defs.specs.NetChecks.{net_fault};
ghost use Rattle.timing_rules.specs.Rows.{is_input_port};
ghost use Rattle.netlist_store.specs.Numbering.{is_number, pin_numbered};
ghost use Rattle.levelizer.specs.Reaching.{AreReached};
ghost use Rattle.pin_graph.specs.Joins.{own_number, befores, net_links, pin_arcs};
ghost use Rattle.pin_graph.specs.Networks.{comb_link, network_links, turned, input_port, port_number, clock_port, clock_ports, edge_from, tests_of, clock_pins};

use crate::pin_arcs::{PinArc, own_number};
use crate::pin_links::net_links;
use cow_table::CowTable;
use levelizer::{Link, reached};
use netlist_store::Store;
use sta_units::Memory;
use std::alloc::Global;
use store_pins::drives;
use timing_defs::{ArcKind, Cell, Clock, Inst, Items, Name, Split};

/// Adds a number, where it is there.
pub(crate) fn add_number(numbers: &mut Items<u32>, number: Option<u32>) -> Result<(), Memory>
    ensures { OnOk result (numbers.new ≡ numbers.old ++ option_to_list number) }
{
    match number {
        Some(number) => numbers.push(number),
        None => Ok(()),
    }
}

/// Whether a pin is an input port.
fn is_input(store: &Store, pin: u32) -> bool
    requires { is_number store.now.pins pin ≡ true }
    ensures { result ≡ option_map_or is_input_port (pin_numbered store.now pin) false }
{
    match store.inst_of(pin) {
        None => drives(store, pin),
        Some(_) => false,
    }
}

/// The pin, where it is an input port.
fn input_port(store: &Store, pin: u32) -> Option<u32>
    requires { is_number store.now.pins pin ≡ true }
    ensures { result ≡ input_port store.now pin }
{
    if is_input(store, pin) {
        Some(pin)
    } else {
        None
    }
}

/// The input port of a name.
#[tactic(auto, using(crate::proofs::StartLaws::number_is))]
fn port_number(store: &Store, name: &Name) -> Option<u32>
    ensures { result ≡ port_number store.now name.now }
{
    let pin = store.pin(name)?;
    input_port(store, pin)
}

/// The input port of a clock.
fn clock_port(store: &Store, clock: &Clock) -> Option<u32>
    ensures { result ≡ clock_port store.now clock.now }
{
    match &clock.port {
        Some(name) => port_number(store, name),
        None => None,
    }
}

/// The ports of the clocks.
#[tactic(auto, using(crate::proofs::ArcLaws::first_mapped_more))]
pub(crate) fn clock_ports(alloc: Global, store: &Store) -> Result<Items<u32>, Memory>
    ensures { IfOk result (λ ports. ports ≡ clock_ports store.now) }
{
    let mut ports = Items::new(alloc);
    for clock in store.constraints().clocks.as_slice() {
        add_number(&mut ports, clock_port(store, clock))?;
    }
    Ok(ports)
}

/// The clock pin from which an arc of a register leads.
fn edge_from(arc: PinArc) -> Option<u32>
    ensures { result ≡ edge_from arc }
{
    match arc.kind {
        ArcKind::Comb => None,
        ArcKind::Edge => Some(arc.from),
    }
}

/// The clock pins from which arcs of registers lead.
#[tactic(auto, using(crate::proofs::ArcLaws::first_mapped_more))]
pub(crate) fn edge_pins(alloc: Global, arcs: &[PinArc]) -> Result<Items<u32>, Memory>
    ensures { IfOk result (λ pins. pins ≡ filter_map edge_from arcs.now) }
{
    let mut pins = Items::new(alloc);
    for arc in arcs {
        add_number(&mut pins, edge_from(*arc))?;
    }
    Ok(pins)
}

/// Adds the clock pins of the tests of an instance's cell.
#[tactic(auto, using(crate::proofs::ArcLaws::mapped_more))]
fn add_cell_tests(
    alloc: Global,
    store: &Store,
    pins: &mut Items<u32>,
    inst: &Inst,
    cell: &Cell,
) -> Result<(), Memory>
    ensures { OnOk result
        (pins.new
        ≡ pins.old ++ filter_map (λ test. own_number store.now inst.now test.clock)
        cell.now.tests) }
{
    for test in cell.tests.as_slice() {
        let pin = own_number(alloc, store, inst, &test.clock)?;
        add_number(pins, pin)?;
    }
    Ok(())
}

/// Adds the clock pins of the tests of the cell of the instance with a number; a gap has none.
#[tactic(auto, using(crate::proofs::StartLaws::gap_tests, crate::proofs::StartLaws::tests_put))]
pub(crate) fn add_inst_tests(
    alloc: Global,
    store: &Store,
    pins: &mut Items<u32>,
    inst: u32,
) -> Result<(), Memory>
    ensures { OnOk result (pins.new ≡ pins.old ++ tests_of store.now inst) }
{
    if !store.has_inst(inst) {
        return Ok(());
    }
    let cell = store.cell_at(inst, Split::Late);
    add_cell_tests(alloc, store, pins, store.inst_at(inst), cell)
}

/// The registers' clock pins: those of arcs and those of tests.
#[tactic(auto, using(crate::proofs::ArcLaws::more_flat_numbers))]
fn clock_pins(alloc: Global, store: &Store, arcs: &[PinArc]) -> Result<Items<u32>, Memory>
    requires { arcs.now ≡ pin_arcs store.now }
    ensures { IfOk result (λ pins. pins ≡ clock_pins store.now) }
{
    let mut pins = edge_pins(alloc, arcs)?;
    for inst in 0..store.inst_bound() {
        add_inst_tests(alloc, store, &mut pins, inst)?;
    }
    Ok(pins)
}

/// An arc along which clocks go, from pin to pin.
fn comb_link(arc: PinArc) -> Option<Link>
    ensures { result ≡ comb_link arc }
{
    match arc.kind {
        ArcKind::Comb => Some(Link {
            from: arc.from,
            to: arc.to,
        }),
        ArcKind::Edge => None,
    }
}

/// Adds an arc, where it is there.
fn add_link(links: &mut Items<Link>, link: Option<Link>) -> Result<(), Memory>
    ensures { OnOk result (links.new ≡ links.old ++ option_to_list link) }
{
    match link {
        Some(link) => links.push(link),
        None => Ok(()),
    }
}

/// The arcs along which clocks go.
#[tactic(auto, using(crate::proofs::ArcLaws::mapped_more))]
fn network_links(
    alloc: Global,
    store: &Store,
    table: &[Option<u32>],
    arcs: &[PinArc],
) -> Result<Items<Link>, Memory>
    requires table { table.now ≡ befores store.now }
    requires arcs { arcs.now ≡ pin_arcs store.now }
    ensures { IfOk result (λ links. links ≡ network_links store.now) }
{
    let mut links = net_links(alloc, store, table)?;
    for arc in arcs {
        add_link(&mut links, comb_link(*arc))?;
    }
    Ok(links)
}

/// Arcs from their ends to their beginnings.
fn turned_links(alloc: Global, links: &[Link]) -> Result<Items<Link>, Memory>
    ensures { IfOk result (λ found. found ≡ map turned links.now) }
{
    let mut found = Items::with_room(alloc, links.len())?;
    for link in links {
        found.push(Link {
            from: link.to,
            to: link.from,
        })?;
    }
    Ok(found)
}

/// The pins that the clocks' ports reach, and those that reach registers' clock pins.
#[derive(Drop)]
pub(crate) struct Reaches {
    pub(crate) from_clocks: Items<bool>,
    pub(crate) to_registers: Items<bool>,
}

/// The pins that the clocks' ports reach.
fn from_clocks(alloc: Global, store: &Store, links: &[Link]) -> Result<Items<bool>, Memory>
    requires fault { net_fault store.now.design ≡ None }
    requires links { links.now ≡ network_links store.now }
    ensures { IfOk result
        (AreReached (length store.now.pins) (network_links store.now) (clock_ports store.now)) }
{
    store.laws();
    let ports = clock_ports(alloc, store)?;
    reached(alloc, store.pin_bound(), links, ports.as_slice())
}

/// The pins that reach registers' clock pins.
fn to_registers(
    alloc: Global,
    store: &Store,
    links: &[Link],
    arcs: &[PinArc],
) -> Result<Items<bool>, Memory>
    requires fault { net_fault store.now.design ≡ None }
    requires links { links.now ≡ network_links store.now }
    requires arcs { arcs.now ≡ pin_arcs store.now }
    ensures { IfOk result
        (AreReached (length store.now.pins) (map turned (network_links store.now))
        (clock_pins store.now)) }
{
    store.laws();
    let pins = clock_pins(alloc, store, arcs)?;
    let turned = turned_links(alloc, links)?;
    reached(alloc, store.pin_bound(), turned.as_slice(), pins.as_slice())
}

/// What the clocks' ports reach and what reaches registers. Takes as many steps as there are pins and arcs.
pub(crate) fn reach(
    alloc: Global,
    store: &Store,
    table: &[Option<u32>],
    arcs: &[PinArc],
) -> Result<Reaches, Memory>
    requires fault { net_fault store.now.design ≡ None }
    requires table { table.now ≡ befores store.now }
    requires arcs { arcs.now ≡ pin_arcs store.now }
    ensures from { IfOk result
        (λ reach. AreReached (length store.now.pins) (network_links store.now)
        (clock_ports store.now) reach.from_clocks) }
    ensures to { IfOk result
        (λ reach. AreReached (length store.now.pins) (map turned (network_links store.now))
        (clock_pins store.now) reach.to_registers) }
{
    let links = network_links(alloc, store, table, arcs)?;
    let from_clocks = from_clocks(alloc, store, links.as_slice())?;
    let to_registers = to_registers(alloc, store, links.as_slice(), arcs)?;
    Ok(Reaches {
        from_clocks,
        to_registers,
    })
}

fn both_at(a: &[bool], b: &[bool], at: usize) -> bool
    requires a { at < length a.now }
    requires b { at < length b.now }
    ensures { result ≡ (slice_index_or a.now at false && slice_index_or b.now at false) }
{
    a[at] && b[at]
}

/// The pins that are marked in both.
#[tactic(auto, using(crate::proofs::StartLaws::both_none, crate::proofs::StartLaws::both_more))]
pub(crate) fn both(alloc: Global, a: &[bool], b: &[bool]) -> Result<CowTable<bool>, Memory>
    requires { length a.now ≡ length b.now }
    ensures count { IfOk result (λ marks. length marks ≡ length a.now) }
    ensures each { IfOk result
        (λ marks. (m : ℕ) → m < length a.now → slice_index_or marks m false
        ≡ (slice_index_or a.now m false && slice_index_or b.now m false)) }
{
    let mut marks = CowTable::new(alloc);
    for at in 0..a.len() {
        marks.push(both_at(a, b, at))?;
    }
    Ok(marks)
}
