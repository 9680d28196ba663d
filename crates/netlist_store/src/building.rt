//! The tables of the store of a design.

ghost use Rattle.std.specs.Prelude.{◌≡◌, ◌≤◌, ◌++◌, ◌∷◌, [], ℕ, List, Some, None, true, map, length, replicate, option_and_then, IsTrue, IfOk, OnOk};
ghost use Rattle.std.specs.List.{filter_map};
ghost use Rattle.std.specs.Option.{option_copied};
ghost use Rattle.timing_defs.specs.Names.{is_name};
ghost use Rattle.timing_defs.specs.Netlist.{name_of, port_pin, cell_pin, conn_net, are_distinct};
ghost use Rattle.netlist_store.specs.Numbering.{number_of};
ghost use Rattle.netlist_store.specs.Building.{of_inst_pins, of_pins, row_of, with_pin, with_row, first_numbers, AreNetPins, AreRcRows};

use crate::cells::Cells;
use crate::inst_rows::InstRow;
use crate::numberings::{Numbering, numbered};
use crate::rolls::{Roll, first_roll, roll_of};
use crate::tables::{Frame, Names, Orders, PinRow, Rows};
use cow_table::{CowTable, Held};
use sta_units::{Again, Memory};
use std::alloc::Global;
use timing_defs::{Cell, Constraints, Inst, Items, Library, Name, NetRc, Port};

/// The names of instances.
fn inst_names(alloc: Global, insts: &[Inst]) -> Result<Items<Name>, Memory>
    ensures { IfOk result (λ names. names ≡ map (λ inst. inst.name) insts.now) }
{
    let mut names = Items::new(alloc);
    for inst in insts {
        names.push(inst.name.copied(alloc)?)?;
    }
    Ok(names)
}

/// The bytes `instance:pin`.
#[tactic(auto, using(crate::proofs::PinNames::joined_name))]
fn full_name_bytes(alloc: Global, inst: &Name, own: &Name) -> Result<Vec<u8>, Memory>
    ensures bytes { IfOk result (λ bytes. bytes.items ≡ inst.now ++ 58 ∷ own.now) }
    ensures name { IfOk result (λ bytes. IsTrue (is_name bytes.items)) }
{
    let inst = inst.as_bytes();
    let own = own.as_bytes();
    let mut bytes = Vec::with_capacity(alloc, inst.len() + 1 + own.len())?;
    bytes.extend_from_slice(inst)?;
    bytes.extend_from_slice(b":")?;
    bytes.extend_from_slice(own)?;
    Ok(bytes)
}

/// The name of a pin of an instance, `instance:pin`.
pub fn full_name(alloc: Global, inst: &Name, own: &Name) -> Result<Name, Memory>
    ensures { IfOk result (λ name. name ≡ inst.now ++ 58 ∷ own.now) }
{
    let bytes = full_name_bytes(alloc, inst, own)?;
    Ok(Name::from_vec(bytes).unwrap())
}

/// Adds the names of the pins of an instance of a cell.
fn add_cell_names(
    alloc: Global,
    names: &mut Items<Name>,
    inst: &Inst,
    cell: &Cell,
) -> Result<(), Memory>
    ensures { OnOk result
        (names.new ≡ names.old ++ map (λ pin. name_of (cell_pin inst.now pin)) cell.now.pins) }
{
    for pin in cell.pins.as_slice() {
        names.push(full_name(alloc, &inst.name, &pin.name)?)?;
    }
    Ok(())
}

/// Adds the names of the pins of an instance.
fn add_inst_names(
    alloc: Global,
    names: &mut Items<Name>,
    cells: &Cells,
    inst: &Inst,
) -> Result<(), Memory>
    ensures { OnOk result (names.new ≡ names.old ++ of_inst_pins name_of cells.now.cells inst.now) }
{
    match cells.cell(&inst.cell) {
        Some(cell) => add_cell_names(alloc, names, inst, cell),
        None => Ok(()),
    }
}

fn port_names(alloc: Global, ports: &[Port]) -> Result<Items<Name>, Memory>
    ensures { IfOk result (λ names. names ≡ map (λ port. name_of (port_pin port)) ports.now) }
{
    let mut names = Items::new(alloc);
    for port in ports {
        names.push(port.name.copied(alloc)?)?;
    }
    Ok(names)
}

/// The names of all pins, those of the ports first.
fn pin_names(
    alloc: Global,
    ports: &[Port],
    cells: &Cells,
    insts: &[Inst],
) -> Result<Items<Name>, Memory>
    ensures { IfOk result (λ names. names ≡ of_pins name_of ports.now cells.now.cells insts.now) }
{
    let mut names = port_names(alloc, ports)?;
    for inst in insts {
        add_inst_names(alloc, &mut names, cells, inst)?;
    }
    Ok(names)
}

/// The net that a pin of an instance is connected to.
fn conn_net<'a>(inst: &'a Inst, own: &Name) -> Option<&'a Name>
    ensures { option_copied result ≡ conn_net inst.now.conns own.now }
{
    for conn in inst.conns.as_slice() {
        if conn.pin == *own {
            return conn.net.as_ref();
        }
    }
    None
}

/// The number of that net.
fn conn_number(names: &Names, inst: &Inst, own: &Name) -> Option<u32>
    ensures { result
        ≡ option_and_then (number_of names.now.nets) (conn_net inst.now.conns own.now) }
{
    let net = conn_net(inst, own)?;
    names.nets.number(net)
}

/// Adds the rows of the pins of an instance of a cell.
fn add_cell_rows(
    rows: &mut CowTable<PinRow>,
    names: &Names,
    inst: &Inst,
    cell: &Cell,
) -> Result<(), Memory>
    ensures { OnOk result
        (rows.new
        ≡ rows.old ++ map (λ pin. row_of names.now.insts names.now.nets (cell_pin inst.now pin))
        cell.now.pins) }
{
    let owner = names.insts.number(&inst.name);
    for pin in cell.pins.as_slice() {
        let net = conn_number(names, inst, &pin.name);
        rows.push(PinRow {
            owner,
            net,
            dir: pin.dir,
        })?;
    }
    Ok(())
}

/// Adds the rows of the pins of an instance.
fn add_inst_rows(
    rows: &mut CowTable<PinRow>,
    names: &Names,
    cells: &Cells,
    inst: &Inst,
) -> Result<(), Memory>
    ensures { OnOk result
        (rows.new
        ≡ rows.old ++ of_inst_pins (row_of names.now.insts names.now.nets) cells.now.cells
        inst.now) }
{
    match cells.cell(&inst.cell) {
        Some(cell) => add_cell_rows(rows, names, inst, cell),
        None => Ok(()),
    }
}

fn port_rows(alloc: Global, names: &Names, ports: &[Port]) -> Result<CowTable<PinRow>, Memory>
    ensures { IfOk result
        (λ rows. rows
        ≡ map (λ port. row_of names.now.insts names.now.nets (port_pin port)) ports.now) }
{
    let mut rows = CowTable::new(alloc);
    for port in ports {
        let net = names.nets.number(&port.name);
        rows.push(PinRow {
            owner: None,
            net,
            dir: port.dir,
        })?;
    }
    Ok(rows)
}

/// The rows of all pins, those of the ports first.
fn pin_rows(
    alloc: Global,
    frame: &Frame,
    names: &Names,
    insts: &[Inst],
) -> Result<CowTable<PinRow>, Memory>
    ensures { IfOk result
        (λ rows. rows
        ≡ of_pins (row_of names.now.insts names.now.nets) frame.now.ports frame.now.late.cells
        insts.now) }
{
    let mut rows = port_rows(alloc, names, frame.ports.as_slice())?;
    for inst in insts {
        add_inst_rows(&mut rows, names, &frame.late, inst)?;
    }
    Ok(rows)
}

/// As many empty lists.
fn empty_lists(alloc: Global, count: u32) -> Result<Vec<Items<u32>>, Memory>
    ensures { IfOk result (λ lists. lists.items ≡ replicate count []) }
{
    let mut lists = Vec::with_capacity(alloc, count as usize)?;
    for _i in 0..count {
        lists.push(Items::new(alloc))?;
    }
    Ok(lists)
}

/// Adds a pin to the list of its net.
#[tactic(auto, using(std::proofs::lemmas::List::set_past))]
fn add_to_net(lists: &mut [Items<u32>], net: Option<u32>, pin: u32) -> Result<(), Memory>
    ensures { OnOk result (lists.new ≡ with_pin net pin lists.old) }
{
    let Some(net) = net else {
        return Ok(());
    };
    let net = net as usize;
    if net < lists.len() {
        return lists[net].push(pin);
    }
    Ok(())
}

/// The pins on each net, of as many pins and nets.
fn pins_by_net(
    alloc: Global,
    rows: &CowTable<PinRow>,
    pins: u32,
    nets: u32,
) -> Result<Vec<Items<u32>>, Memory>
    requires { pins ≡ length rows.now }
    ensures len { IfOk result (λ lists. length lists.items ≡ nets) }
    ensures pins { IfOk result (λ lists. AreNetPins rows.now (length rows.now) lists.items) }
{
    let mut lists = empty_lists(alloc, nets)?;
    for pin in 0..pins {
        let net = rows.get(pin as usize).net;
        add_to_net(lists.as_mut_slice(), net, pin)?;
    }
    Ok(lists)
}

/// The lists as the rows of a table.
fn held_lists(alloc: Global, lists: &[Items<u32>]) -> Result<CowTable<Held<Items<u32>>>, Memory>
    ensures { IfOk result (λ table. table ≡ lists.now) }
{
    let mut table = CowTable::new(alloc);
    for list in lists {
        let list = Items::from_slice(alloc, list.as_slice())?;
        table.push(Held::of(alloc, list)?)?;
    }
    Ok(table)
}

/// The rows of nets: the pins on each.
fn net_rows(
    alloc: Global,
    rows: &CowTable<PinRow>,
    pins: u32,
    nets: u32,
) -> Result<CowTable<Held<Items<u32>>>, Memory>
    requires { pins ≡ length rows.now }
    ensures len { IfOk result (λ lists. length lists ≡ nets) }
    ensures pins { IfOk result (λ lists. AreNetPins rows.now (length rows.now) lists) }
{
    let lists = pins_by_net(alloc, rows, pins, nets)?;
    held_lists(alloc, lists.as_slice())
}

/// The rows of instances.
fn inst_rows(
    alloc: Global,
    frame: &Frame,
    insts: Items<Inst>,
) -> Result<CowTable<Option<Held<InstRow>>>, Memory>
    ensures { IfOk result (λ rows. rows ≡ map Some insts) }
{
    let mut rows = CowTable::new(alloc);
    for inst in insts.into_vec() {
        let row = InstRow::of(frame, inst);
        rows.push(Some(Held::of(alloc, row)?))?;
    }
    Ok(rows)
}

/// Adds the number of the net of some parasitics.
fn add_rc_number(numbers: &mut Items<u32>, nets: &Numbering, rc: &NetRc) -> Result<(), Memory>
    ensures { OnOk result
        (numbers.new ≡ numbers.old ++ filter_map (λ rc. number_of nets.now rc.net) (rc.now ∷ [])) }
{
    match nets.number(&rc.net) {
        Some(net) => numbers.push(net),
        None => Ok(()),
    }
}

/// The numbers of the nets that have parasitics, in their order.
fn rc_numbers(alloc: Global, nets: &Numbering, rcs: &[NetRc]) -> Result<Items<u32>, Memory>
    ensures { IfOk result
        (λ numbers. numbers ≡ filter_map (λ rc. number_of nets.now rc.net) rcs.now) }
{
    let mut numbers = Items::new(alloc);
    for rc in rcs {
        add_rc_number(&mut numbers, nets, rc)?;
    }
    Ok(numbers)
}

/// As many rows without parasitics.
fn empty_rcs(alloc: Global, count: u32) -> Result<CowTable<Option<Held<NetRc>>>, Memory>
    ensures { IfOk result (λ rows. rows ≡ replicate count None) }
{
    let mut rows = CowTable::new(alloc);
    for _i in 0..count {
        rows.push(None)?;
    }
    Ok(rows)
}

/// Writes the row of the net of some parasitics.
#[tactic(auto, using(crate::proofs::RcLaws::number_within))]
fn put_rc(
    alloc: Global,
    rows: &mut CowTable<Option<Held<NetRc>>>,
    nets: &Numbering,
    rc: NetRc,
) -> Result<(), Memory>
    requires { length rows.old ≡ length nets.now }
    ensures { OnOk result (rows.new ≡ with_row (number_of nets.now rc.net) rc rows.old) }
{
    match nets.number(&rc.net) {
        Some(net) => rows.set(net as usize, Some(Held::of(alloc, rc)?)),
        None => Ok(()),
    }
}

/// The rows of nets: the parasitics of each.
fn rc_rows(
    alloc: Global,
    nets: &Numbering,
    rcs: Items<NetRc>,
) -> Result<CowTable<Option<Held<NetRc>>>, Memory>
    requires { are_distinct (map (λ rc. rc.net) rcs) ≡ true }
    ensures { IfOk result (λ rows. AreRcRows nets.now rcs rows) }
{
    nets.laws();
    let mut rows = empty_rcs(alloc, nets.bound())?;
    for rc in rcs.into_vec() {
        put_rc(alloc, &mut rows, nets, rc)?;
    }
    Ok(rows)
}

/// The tables of both libraries.
fn cells_of(alloc: Global, early: Library, late: Library) -> Result<(Cells, Cells), Memory>
    requires early { length early.cells ≤ 10000 }
    requires late { length late.cells ≤ 10000 }
    ensures early { IfOk result (λ made. made.0 ≡ early) }
    ensures late { IfOk result (λ made. made.1 ≡ late) }
{
    let early = Cells::of(alloc, early)?;
    match Cells::of(alloc, late) {
        Ok(late) => Ok((early, late)),
        Err(wanting) => {
            early.discard();
            Err(wanting)
        }
    }
}

/// The parts of a design that no edit changes.
pub(crate) fn frame_of(
    alloc: Global,
    early: Library,
    late: Library,
    ports: Items<Port>,
    constraints: Constraints,
) -> Result<Frame, Memory>
    requires early { length early.cells ≤ 10000 }
    requires late { length late.cells ≤ 10000 }
    ensures early { IfOk result (λ frame. frame.early ≡ early) }
    ensures late { IfOk result (λ frame. frame.late ≡ late) }
    ensures ports { IfOk result (λ frame. frame.ports ≡ ports) }
    ensures constraints { IfOk result (λ frame. frame.constraints ≡ constraints) }
{
    let (early, late) = cells_of(alloc, early, late)?;
    Ok(Frame {
        early,
        late,
        ports,
        constraints,
    })
}

/// The numbers of pins.
fn pin_numbers(alloc: Global, frame: &Frame, insts: &[Inst]) -> Result<Numbering, Memory>
    requires { are_distinct (of_pins name_of frame.now.ports frame.now.late.cells insts.now)
        ≡ true }
    ensures { IfOk result
        (λ made. made ≡ map Some (of_pins name_of frame.now.ports frame.now.late.cells insts.now)) }
{
    let words = pin_names(alloc, frame.ports.as_slice(), &frame.late, insts)?;
    numbered(alloc, words)
}

/// The numbers of instances.
fn inst_numbers(alloc: Global, insts: &[Inst]) -> Result<Numbering, Memory>
    requires { are_distinct (map (λ inst. inst.name) insts.now) ≡ true }
    ensures { IfOk result (λ made. made ≡ map Some (map (λ inst. inst.name) insts.now)) }
{
    let called = inst_names(alloc, insts)?;
    numbered(alloc, called)
}

/// The numbers of nets.
fn net_numbers(alloc: Global, nets: &Items<Name>) -> Result<Numbering, Memory>
    requires { are_distinct nets.now ≡ true }
    ensures { IfOk result (λ made. made ≡ map Some nets.now) }
{
    let called = nets.again(alloc)?;
    numbered(alloc, called)
}

/// The numbers of instances, nets and pins: each has its place as its number.
pub(crate) fn names_of(
    alloc: Global,
    frame: &Frame,
    nets: &Items<Name>,
    insts: &Items<Inst>,
) -> Result<Names, Memory>
    requires nets { are_distinct nets.now ≡ true }
    requires insts { are_distinct (map (λ inst. inst.name) insts.now) ≡ true }
    requires pins { are_distinct (of_pins name_of frame.now.ports frame.now.late.cells insts.now)
        ≡ true }
    ensures insts { IfOk result
        (λ names. names.insts ≡ map Some (map (λ inst. inst.name) insts.now)) }
    ensures nets { IfOk result (λ names. names.nets ≡ map Some nets.now) }
    ensures pins { IfOk result
        (λ names. names.pins
        ≡ map Some (of_pins name_of frame.now.ports frame.now.late.cells insts.now)) }
{
    let pins = pin_numbers(alloc, frame, insts.as_slice())?;
    match inst_numbers(alloc, insts.as_slice()) {
        Ok(insts) => match net_numbers(alloc, nets) {
            Ok(nets) => Ok(Names { insts, nets, pins }),
            Err(wanting) => {
                insts.discard();
                pins.discard();
                Err(wanting)
            }
        },
        Err(wanting) => {
            pins.discard();
            Err(wanting)
        }
    }
}

/// The rows of pins, and the pins on each net.
#[derive(Drop)]
struct PinRows {
    pins: CowTable<PinRow>,
    net_pins: CowTable<Held<Items<u32>>>,
}

impl PinRows {
    /// Gives the rows up.
    fn discard(self) {}
}

/// The rows of pins, and the pins on each net.
fn both_pin_rows(
    alloc: Global,
    frame: &Frame,
    names: &Names,
    insts: &[Inst],
) -> Result<PinRows, Memory>
    requires pins { length names.now.pins
        ≡ length
        (of_pins (row_of names.now.insts names.now.nets) frame.now.ports frame.now.late.cells
        insts.now) }
    ensures pins { IfOk result
        (λ rows. rows.pins
        ≡ of_pins (row_of names.now.insts names.now.nets) frame.now.ports frame.now.late.cells
        insts.now) }
    ensures net_len { IfOk result (λ rows. length rows.net_pins ≡ length names.now.nets) }
    ensures net_pins { IfOk result (λ rows. AreNetPins rows.pins (length rows.pins) rows.net_pins) }
{
    let pins = pin_rows(alloc, frame, names, insts)?;
    let net_pins = net_rows(alloc, &pins, names.pins.bound(), names.nets.bound())?;
    Ok(PinRows { pins, net_pins })
}

/// Gives instances up.
fn give_up_insts(_insts: Items<Inst>) {}

/// The rows of instances and of parasitics, beside rows of pins.
fn rows_beside(
    alloc: Global,
    frame: &Frame,
    names: &Names,
    insts: Items<Inst>,
    rcs: Items<NetRc>,
    rows: PinRows,
) -> Result<Rows, Memory>
    requires rcs { are_distinct (map (λ rc. rc.net) rcs) ≡ true }
    ensures insts { IfOk result (λ all. all.insts ≡ map Some insts) }
    ensures rcs { IfOk result (λ all. AreRcRows names.now.nets rcs all.rcs) }
    ensures pins { IfOk result (λ all. all.pins ≡ rows.pins) }
    ensures net_pins { IfOk result (λ all. all.net_pins ≡ rows.net_pins) }
{
    match rc_rows(alloc, &names.nets, rcs) {
        Ok(rcs) => match inst_rows(alloc, frame, insts) {
            Ok(insts) => {
                let PinRows { pins, net_pins } = rows;
                Ok(Rows {
                    insts,
                    rcs,
                    net_pins,
                    pins,
                })
            }
            Err(wanting) => {
                rows.discard();
                Err(wanting)
            }
        },
        Err(wanting) => {
            give_up_insts(insts);
            rows.discard();
            Err(wanting)
        }
    }
}

/// Gives instances and parasitics up.
fn give_up_lists(_insts: Items<Inst>, _rcs: Items<NetRc>) {}

/// The rows of instances, nets and pins. Instances and parasitics move into them.
pub(crate) fn rows_of(
    alloc: Global,
    frame: &Frame,
    names: &Names,
    insts: Items<Inst>,
    rcs: Items<NetRc>,
) -> Result<Rows, Memory>
    requires rcs { are_distinct (map (λ rc. rc.net) rcs) ≡ true }
    requires pins { length names.now.pins
        ≡ length
        (of_pins (row_of names.now.insts names.now.nets) frame.now.ports frame.now.late.cells
        insts) }
    ensures insts { IfOk result (λ rows. rows.insts ≡ map Some insts) }
    ensures rcs { IfOk result (λ rows. AreRcRows names.now.nets rcs rows.rcs) }
    ensures pins { IfOk result
        (λ rows. rows.pins
        ≡ of_pins (row_of names.now.insts names.now.nets) frame.now.ports frame.now.late.cells
        insts) }
    ensures net_len { IfOk result (λ rows. length rows.net_pins ≡ length names.now.nets) }
    ensures net_pins { IfOk result (λ rows. AreNetPins rows.pins (length rows.pins) rows.net_pins) }
{
    match both_pin_rows(alloc, frame, names, insts.as_slice()) {
        Ok(rows) => rows_beside(alloc, frame, names, insts, rcs, rows),
        Err(wanting) => {
            give_up_lists(insts, rcs);
            Err(wanting)
        }
    }
}

/// The nets with parasitics in their order.
fn rc_roll(alloc: Global, nets: &Numbering, rcs: &[NetRc]) -> Result<Roll, Memory>
    requires { are_distinct (map (λ rc. rc.net) rcs.now) ≡ true }
    ensures { IfOk result (λ roll. roll ≡ filter_map (λ rc. number_of nets.now rc.net) rcs.now) }
{
    let numbers = rc_numbers(alloc, nets, rcs)?;
    roll_of(alloc, numbers.as_slice())
}

/// The orders of instances, nets and parasitics.
pub(crate) fn orders_of(alloc: Global, names: &Names, rcs: &Items<NetRc>) -> Result<Orders, Memory>
    requires { are_distinct (map (λ rc. rc.net) rcs.now) ≡ true }
    ensures insts { IfOk result (λ orders. orders.insts ≡ first_numbers (length names.now.insts)) }
    ensures nets { IfOk result (λ orders. orders.nets ≡ first_numbers (length names.now.nets)) }
    ensures rcs { IfOk result
        (λ orders. orders.rcs ≡ filter_map (λ rc. number_of names.now.nets rc.net) rcs.now) }
{
    let insts = first_roll(alloc, names.insts.bound())?;
    let nets = first_roll(alloc, names.nets.bound())?;
    let rcs = rc_roll(alloc, &names.nets, rcs.as_slice())?;
    Ok(Orders { insts, nets, rcs })
}
