//! The loads of nets and the wires to their sinks, by the numbers of a store.

ghost use Rattle.std.specs.Prelude.{◌≡◌, ◌<◌, Some, length};
ghost use Rattle.node_rows.specs.WireTables.{load_told, wire_at};

use cow_table::CowTable;
use sta_units::{Af, Again, Fs, Memory};
use std::alloc::Global;
use timing_defs::Split;

/// The loads of a net's driver in aF.
#[derive(Clone, Copy, Drop)]
pub struct NetLoad {
    pub early: Af,
    pub late: Af,
}

/// The delay of the wire from a net's driver to a sink in fs, and its impulse in fs².
#[derive(Clone, Copy, Drop)]
pub struct SinkWire {
    pub delay: Fs,
    pub impulse: u128,
}

/// The wire to a sink in both splits.
#[derive(Clone, Copy, Drop)]
pub struct PinWire {
    pub early: SinkWire,
    pub late: SinkWire,
}

/// The loads of the nets of a store, and the wires to its pins, by their numbers. A pin without
/// resistors on the way to it has no wire.
#[derive(Drop)]
pub struct Wires {
    pub(crate) loads: CowTable<NetLoad>,
    pub(crate) pins: CowTable<Option<PinWire>>,
}

impl Again for NetLoad {
    fn again(&self, _alloc: Global) -> Result<NetLoad, Memory> {
        Ok(*self)
    }
}

impl Again for PinWire {
    fn again(&self, _alloc: Global) -> Result<PinWire, Memory> {
        Ok(*self)
    }
}

impl Wires {
    /// The load of the driver of a net, in aF. Takes no memory.
    pub fn load(&self, net: u32, split: Split) -> i64
        requires { net < length self.now.loads }
        ensures { load_told self.now.loads split net ≡ Some result }
    {
        let load = self.loads.get(net as usize);
        match split {
            Split::Early => load.early.0,
            Split::Late => load.late.0,
        }
    }

    /// The wire to a pin; none where no resistors are on the way to it. Takes no memory.
    pub fn wire(&self, pin: u32) -> Option<PinWire>
        requires { pin < length self.now.pins }
        ensures { result ≡ wire_at self.now.pins pin }
    {
        *self.pins.get(pin as usize)
    }
}
