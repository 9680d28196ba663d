//! What is found of a net by itself, and how it is put into the tables of wires.

ghost use Rattle.std.specs.Prelude.{◌≡◌, ◌<◌, ◌+◌, All, length, OnOk};
ghost use Rattle.node_rows.specs.NetTrees.{AreUpTo};
ghost use Rattle.node_rows.specs.FoundNets.{with_wires, IsFoundNet};

use crate::pin_wires::{NetLoad, PinWire, Wires};
use cow_table::CowTable;
use netlist_store::Store;
use sta_units::Memory;
use timing_defs::Items;

/// The wire to a pin, by the pin's number.
#[derive(Clone, Copy, Drop)]
pub(crate) struct WireTo {
    pub(crate) pin: u32,
    pub(crate) wire: PinWire,
}

/// What is found of the number of a net: its loads, and the wires to its pins where it has resistors.
#[derive(Drop)]
pub(crate) struct FoundNet {
    pub(crate) load: NetLoad,
    pub(crate) wires: Items<WireTo>,
}

/// Puts wires into a table.
pub(crate) fn put_wires(
    table: &mut CowTable<Option<PinWire>>,
    wires: &[WireTo],
) -> Result<(), Memory>
    requires { All (λ to. to.pin < length table.old) wires.now }
    ensures { OnOk result (table.new ≡ with_wires table.old wires.now) }
{
    for to in wires {
        table.set(to.pin as usize, Some(to.wire))?;
    }
    Ok(())
}

/// Puts what is found of a number into the tables.
pub(crate) fn put_found(
    store: &Store,
    wires: &mut Wires,
    net: u32,
    found: &FoundNet,
) -> Result<(), Memory>
    requires found { IsFoundNet store.now net found.now }
    requires before { AreUpTo store.now wires.old net }
    ensures { OnOk result (AreUpTo store.now wires.new (net + 1)) }
{
    // The store and the number are asked for by the contract alone.
    let _ = store;
    let _ = net;
    wires.loads.push(found.load)?;
    put_wires(&mut wires.pins, found.wires.as_slice())
}
