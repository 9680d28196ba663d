//! The capacitances of pins.

ghost use Rattle.std.specs.Prelude.{◌≡◌, pos, true, Some, find, option_map};
ghost use Rattle.std.specs.Option.{option_map_or};
ghost use Rattle.std.specs.Str.{bytes_eq};
ghost use Rattle.timing_defs.specs.Wires.{pin_cap};
ghost use Rattle.netlist_store.specs.Numbering.{is_number, pin_numbered};
ghost use Rattle.node_rows.specs.PortTables.{ArePorts};

use crate::ports::Ports;
use netlist_store::Store;
use store_pins::own_name;
use timing_defs::{Cell, Split};

/// The capacitance of the pin of that name in a cell, in aF; 0 where it has none.
fn cell_cap(cell: &Cell, own: &[u8]) -> i64
    ensures { result
        ≡ option_map_or (λ p. p.cap.0) (find (λ p. bytes_eq p.name own.now) cell.now.pins) (pos 0) }
{
    for pin in cell.pins.as_slice() {
        if pin.name.as_bytes() == own {
            return pin.cap.0;
        }
    }
    0
}

/// The capacitance of a pin in a split, in aF. Takes no memory.
pub(crate) fn pin_cap(store: &Store, ports: &Ports, split: Split, pin: u32) -> i64
    requires pin { is_number store.now.pins pin ≡ true }
    requires ports { ArePorts store.now.design.constraints ports.now }
    ensures { option_map (pin_cap store.now.design split) (pin_numbered store.now pin)
        ≡ Some result }
{
    store.laws();
    match store.inst_of(pin) {
        Some(inst) => cell_cap(store.cell_at(inst, split), own_name(store, pin)),
        None => ports.load(split, store.pin_name(pin)),
    }
}
