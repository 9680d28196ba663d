//! Documents joined to a design.

ghost use Rattle.std.specs.Prelude.{◌≡◌, ◌≤◌, ◌⊎◌, ℕ, List, Ok as ok, Err as err, Some, false, slice_get, map, length, IfOk, IfErr, OnOk};
ghost use Rattle.std.specs.List.{list_any};
ghost use Rattle.std.specs.Option.{option_map_or};
ghost use Rattle.std.specs.Str.{bytes_eq};
ghost use Rattle.indexmap.specs.IndexSet.{insert_key};
ghost use Rattle.timing_defs.specs.declared.library.Library.{Library};
ghost use Rattle.timing_defs.specs.declared.faults.Fault.TheVariants.{UnknownCell as unknown_cell, Memory as memory};
ghost use Rattle.timing_defs.specs.Netlist.{is_listed};
ghost use Rattle.timing_defs.specs.Wires.{first_some};
ghost use Rattle.timing_defs.specs.Edits.{link_pin, link_inst, link_net, link_fault, linked};
ghost use Rattle.netlist_store.specs.Places.{ArePlaces};
ghost use Rattle.netlist_store.specs.Applying.{IsChecked};
ghost use Rattle.design_link.specs.Documents.{AreDocuments, agrees_in};

use crate::cell_tables::{CellTable, cell_table, usable_cell};
use indexmap::IndexSet;
use netlist_store::{Store, full_name};
use sta_units::Memory;
use std::alloc::Global;
use timing_defs::{
    Cell, CellPin, Conn, Constraints, Design, Fault, Inst, Library, Module, Name, NetRc, Parasitics,
};

/// Whether a pin of a name stands at a place.
fn is_pin_at(pins: &[CellPin], at: usize, name: &Name) -> bool
    ensures { result
        ≡ option_map_or (λ pin. bytes_eq pin.name name.now) (slice_get pins.now at) false }
{
    match pins.get(at) {
        Some(pin) => pin.name == *name,
        None => false,
    }
}

/// Whether some pins have one of a name. The place where it is looked for first is the one that it has
/// where connections stand in the order of the cell.
fn has_pin(pins: &[CellPin], at: usize, name: &Name) -> bool
    ensures { result ≡ list_any (λ pin. bytes_eq pin.name name.now) pins.now }
{
    if is_pin_at(pins, at, name) {
        return true;
    }
    pins.iter().any(|pin| pin.name == *name)
}

/// Refuses a connection, at a place, of a pin that the cell lacks.
fn check_conn(alloc: Global, inst: &Name, cell: &Cell, at: usize, conn: &Conn) -> Result<(), Fault>
    ensures { IsChecked result (link_pin inst.now cell.now conn.now) }
{
    if has_pin(cell.pins.as_slice(), at, &conn.pin) {
        return Ok(());
    }
    let pin = full_name(alloc, inst, &conn.pin)?;
    Err(Fault::UnknownPin(pin))
}

/// Refuses the first connection of a pin that the cell lacks.
fn check_conns(alloc: Global, inst: &Name, cell: &Cell, conns: &[Conn]) -> Result<(), Fault>
    ensures { IsChecked result (first_some (link_pin inst.now cell.now) conns.now) }
{
    for (at, conn) in conns.iter().enumerate() {
        check_conn(alloc, inst, cell, at, conn)?;
    }
    Ok(())
}

/// Refuses a cell that cannot be used.
fn refuse_cell(alloc: Global, name: &Name) -> Result<(), Fault>
    ensures { IsChecked result (Some (unknown_cell name.now)) }
{
    let cell = name.copied(alloc)?;
    Err(Fault::UnknownCell(cell))
}

/// Refuses an instance whose cell cannot be used, or lacks a pin.
fn check_inst(alloc: Global, late: &Library, table: &CellTable, inst: &Inst) -> Result<(), Fault>
    requires { ArePlaces late.now.cells table.now.places.entries }
    ensures { (early : Library) → table.now.agree ≡ map (agrees_in early) late.now.cells
        → IsChecked result (link_inst early late.now inst.now) }
{
    match usable_cell(late, table, &inst.cell) {
        Some(cell) => check_conns(alloc, &inst.name, cell, inst.conns.as_slice()),
        None => refuse_cell(alloc, &inst.cell),
    }
}

/// Refuses the first instance whose cell cannot be used, or lacks a pin.
fn check_insts(alloc: Global, early: &Library, late: &Library, insts: &[Inst]) -> Result<(), Fault>
    requires early { length early.now.cells ≤ 10000 }
    requires late { length late.now.cells ≤ 10000 }
    ensures { IsChecked result (first_some (link_inst early.now late.now) insts.now) }
{
    let table = cell_table(alloc, early, late)?;
    for inst in insts {
        check_inst(alloc, late, &table, inst)?;
    }
    Ok(())
}

/// Adds a name, if it is not there.
fn add_name(alloc: Global, set: &mut IndexSet<Name>, name: &Name) -> Result<(), Memory>
    ensures { OnOk result (set.new.keys ≡ insert_key bytes_eq set.old.keys name.now) }
{
    match set.insert(name.copied(alloc)?) {
        Ok(_) => Ok(()),
        Err(_) => Err(Memory),
    }
}

/// The set of some names.
fn name_set(alloc: Global, names: &[Name]) -> Result<IndexSet<Name>, Memory>
    ensures { IfOk result
        (λ set. (name : List ℕ) → is_listed set.keys name ≡ is_listed names.now name) }
{
    let mut set = IndexSet::with_capacity(alloc, names.len())?;
    for name in names {
        add_name(alloc, &mut set, name)?;
    }
    Ok(set)
}

/// Refuses parasitics of a net that is not there.
fn check_rc(alloc: Global, nets: &IndexSet<Name>, rc: &NetRc) -> Result<(), Fault>
    ensures { IsChecked result (link_net nets.now.keys rc.now) }
{
    if nets.contains(&rc.net) {
        return Ok(());
    }
    let net = rc.net.copied(alloc)?;
    Err(Fault::UnknownNet(net))
}

/// Refuses the first parasitics of a net that is not in a set.
fn check_rcs_in(alloc: Global, nets: &IndexSet<Name>, rcs: &[NetRc]) -> Result<(), Fault>
    ensures { IsChecked result (first_some (link_net nets.now.keys) rcs.now) }
{
    for rc in rcs {
        check_rc(alloc, nets, rc)?;
    }
    Ok(())
}

/// Refuses the first parasitics of a net that is not there.
fn check_rcs(alloc: Global, nets: &[Name], rcs: &[NetRc]) -> Result<(), Fault>
    ensures { IsChecked result (first_some (link_net nets.now) rcs.now) }
{
    let set = name_set(alloc, nets)?;
    check_rcs_in(alloc, &set, rcs)
}

/// Refuses documents that cannot be linked, for their first fault.
fn check_documents(
    alloc: Global,
    early: &Library,
    late: &Library,
    netlist: &Module,
    parasitics: &Parasitics,
) -> Result<(), Fault>
    requires early { length early.now.cells ≤ 10000 }
    requires late { length late.now.cells ≤ 10000 }
    ensures { IsChecked result (link_fault early.now late.now netlist.now parasitics.now) }
{
    check_insts(alloc, early, late, netlist.insts.as_slice())?;
    check_rcs(alloc, netlist.nets.as_slice(), parasitics.nets.as_slice())
}

/// The store of the design of five documents. Instances come first, in order: one whose cell is not in
/// both libraries, or differs there (`E3`), or that connects a pin that its cell lacks (`E4`). Then
/// come the parasitics: those of a net that is not there (`E2`). The documents are such as their
/// readers give. Takes as many steps as the documents have cells, pins, arcs, instances, connections
/// and nets, where both libraries have the pins and arcs of a cell in one order and the netlist has
/// connections in it; of a cell in another order each looks through those of the cell.
pub fn link(
    alloc: Global,
    early: Library,
    late: Library,
    netlist: Module,
    constraints: Constraints,
    parasitics: Parasitics,
) -> Result<Store, Fault>
    requires { AreDocuments early late netlist constraints parasitics }
    ensures linked { IfOk result
        (λ store. linked early late netlist constraints parasitics ≡ ok store.design) }
    ensures refused { IfErr result
        (λ fault. (fault ≡ memory)
        ⊎ (linked early late netlist constraints parasitics ≡ err fault)) }
{
    check_documents(alloc, &early, &late, &netlist, &parasitics)?;
    let Module {
        name: _name,
        ports,
        nets,
        insts,
    } = netlist;
    let Parasitics { nets: rcs } = parasitics;
    let store = Store::of(
        alloc,
        Design {
            early,
            late,
            ports,
            nets,
            insts,
            constraints,
            rcs,
        },
    )?;
    Ok(store)
}
