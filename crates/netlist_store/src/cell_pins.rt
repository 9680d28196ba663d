//! The pins of cells and the connections of instances.

ghost use Rattle.std.specs.Prelude.{◌≡◌, filter, length, nat_eq, is_none};
ghost use Rattle.std.specs.List.{list_all};
ghost use Rattle.std.specs.Option.{option_copied};
ghost use Rattle.timing_defs.specs.Netlist.{same_dir, conn_net};
ghost use Rattle.timing_defs.specs.Edits.{direction_in, keeps_pin, is_buffer, is_open, pins_of_dir};

use crate::stores::Store;
use timing_defs::{Cell, CellPin, Conn, Dir, Inst, Name};

/// The direction of a cell's pin; none where the cell has no such pin.
pub(crate) fn direction_in(cell: &Cell, pin: &[u8]) -> Option<Dir>
    ensures { result ≡ direction_in cell.now pin.now }
{
    for own in cell.pins.as_slice() {
        if own.name.as_bytes() == pin {
            return Some(own.dir);
        }
    }
    None
}

/// The net of an instance's pin; none where it is on none.
pub(crate) fn conn_net<'a>(inst: &'a Inst, pin: &[u8]) -> Option<&'a Name>
    ensures { option_copied result ≡ conn_net inst.now.conns pin.now }
{
    for conn in inst.conns.as_slice() {
        if conn.pin.as_bytes() == pin {
            return conn.net.as_ref();
        }
    }
    None
}

/// Whether a new cell has a connected pin, with the direction that it has now.
fn keeps_pin(store: &Store, inst: &Inst, cell: &Cell, conn: &Conn) -> bool
    ensures { result ≡ keeps_pin store.now.design inst.now cell.now conn.now }
{
    let Some(old) = store.late_cell(&inst.cell) else {
        return false;
    };
    let pin = conn.pin.as_bytes();
    let Some(now) = direction_in(old, pin) else {
        return false;
    };
    match direction_in(cell, pin) {
        Some(new) => now.is(new),
        None => false,
    }
}

/// Whether a new cell has each connected or tied pin, with the direction that it has now.
pub(crate) fn keeps_pins(store: &Store, inst: &Inst, cell: &Cell, conns: &[Conn]) -> bool
    ensures { result ≡ list_all (keeps_pin store.now.design inst.now cell.now) conns.now }
{
    conns.iter().all(|conn| keeps_pin(store, inst, cell, conn))
}

/// How many pins have a direction.
fn count_of(pins: &[CellPin], dir: Dir) -> usize
    ensures { result ≡ length (filter (λ p. same_dir p.dir dir) pins.now) }
{
    let mut count = 0;
    for pin in pins {
        if pin.dir.is(dir) {
            count += 1;
        }
    }
    count
}

fn has_one(cell: &Cell, dir: Dir) -> bool
    ensures { result ≡ nat_eq (length (pins_of_dir dir cell.now)) 1 }
{
    count_of(cell.pins.as_slice(), dir) == 1
}

/// Whether a cell has one input pin and one output pin.
pub(crate) fn is_buffer(cell: &Cell) -> bool
    ensures { result ≡ is_buffer cell.now }
{
    has_one(cell, Dir::Input) && has_one(cell, Dir::Output)
}

fn all_open(conns: &[Conn]) -> bool
    ensures { result ≡ list_all (λ conn. is_none conn.net) conns.now }
{
    conns.iter().all(|conn| conn.net.is_none())
}

/// Whether no pin of an instance is on a net.
pub(crate) fn is_open(inst: &Inst) -> bool
    ensures { result ≡ is_open inst.now }
{
    all_open(inst.conns.as_slice())
}
