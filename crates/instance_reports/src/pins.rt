//! The pins of an instance, and what each is joined to.

ghost use Rattle.std.specs.Prelude.{◌≡◌, ◌⊎◌, Some, None, map, find, IfOk, IfErr};
ghost use Rattle.std.specs.Str.{bytes_eq};
ghost use Rattle.timing_defs.specs.Firsts.{AreAll};
ghost use Rattle.timing_defs.specs.Netlist.{cell_of, cell_pin};
ghost use Rattle.timing_rules.specs.Closing.{unknown_inst};
ghost use Rattle.timing_rules.specs.Connections.{joined_to, joined_by, pin_report, pin_before, IsPinOf, IsInstance};

use crate::asked::inst_there;
use crate::ordering::in_order;
use netlist_store::{Store, full_name};
use sta_units::{Memory, Pair, both};
use std::alloc::Global;
use timing_defs::{
    Cell, CellPin, Conn, Inst, InstanceReport, Items, Junction, Name, PinReport, QueryFault, Split,
};

/// What a connection joins its pin to.
fn junction(alloc: Global, conn: &Conn) -> Result<Junction, Memory>
    ensures { IfOk result (λ joined. joined ≡ joined_to conn.now.net) }
{
    match &conn.net {
        Some(net) => Ok(Junction::Net(net.copied(alloc)?)),
        None => Ok(Junction::Tied),
    }
}

/// What the connections of an instance join a pin of its cell to.
fn joined(alloc: Global, conns: &[Conn], own: &Name) -> Result<Junction, Memory>
    ensures { IfOk result
        (λ joined. joined ≡ joined_by (find (λ conn. bytes_eq conn.pin own.now) conns.now)) }
{
    for conn in conns {
        if conn.pin == *own {
            return junction(alloc, conn);
        }
    }
    Ok(Junction::Open)
}

/// The row of a pin of the instance's cell.
fn pin_row(alloc: Global, inst: &Inst, pin: &CellPin) -> Result<PinReport, Memory>
    ensures { IfOk result (λ row. row ≡ pin_report inst.now (cell_pin inst.now pin.now)) }
{
    let word = full_name(alloc, &inst.name, &pin.name);
    let joined = joined(alloc, inst.conns.as_slice(), &pin.name);
    let Pair {
        one: word,
        other: joined,
    } = both(word, joined)?;
    Ok(PinReport {
        pin: word,
        dir: pin.dir,
        joined,
    })
}

/// The rows of the pins of the instance's cell, in their order in the cell.
fn pin_rows(alloc: Global, inst: &Inst, pins: &[CellPin]) -> Result<Items<PinReport>, Memory>
    ensures { IfOk result
        (λ rows. rows ≡ map (λ pin. pin_report inst.now (cell_pin inst.now pin)) pins.now) }
{
    let mut rows = Items::new(alloc);
    for pin in pins {
        rows.push(pin_row(alloc, inst, pin)?)?;
    }
    Ok(rows)
}

/// The rows of the pins of an instance, by name.
fn pins_of(
    alloc: Global,
    store: &Store,
    inst: &Inst,
    cell: &Cell,
) -> Result<Items<PinReport>, Memory>
    requires { cell_of store.now.design Split.Late inst.now ≡ Some cell.now }
    ensures { IfOk result (AreAll pin_before (IsPinOf store.now.design inst.now)) }
{
    store.laws();
    let rows = pin_rows(alloc, inst, cell.pins.as_slice())?;
    Ok(in_order(rows))
}

/// An instance with its cell and the pins of that by name, each with what it is joined to.
/// `UnknownName` exactly where no instance has that name. Takes time of the cell's pins times the
/// instance's connections.
pub fn instance_report(
    alloc: Global,
    store: &Store,
    inst: &Name,
) -> Result<InstanceReport, QueryFault>
    ensures told { IfOk result (IsInstance store.now.design inst.now) }
    ensures there { IfOk result (λ report. unknown_inst store.now.design inst.now ≡ None) }
    ensures refused { IfErr result
        (λ fault. (fault ≡ QueryFault.Memory)
        ⊎ (unknown_inst store.now.design inst.now ≡ Some fault)) }
{
    let number = inst_there(alloc, store, inst)?;
    let found = store.inst_at(number);
    let pins = pins_of(alloc, store, found, store.cell_at(number, Split::Late));
    let Pair {
        one: pins,
        other: cell,
    } = both(pins, found.cell.copied(alloc))?;
    Ok(InstanceReport { cell, pins })
}
