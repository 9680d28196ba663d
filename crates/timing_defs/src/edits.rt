//! Edits of a design (engineering change orders).

use crate::items::Items;
use crate::names::Name;
use crate::parasitics::NetRc;

/// One edit. Pins are instance pins, named `instance:pin`.
/// - `Repower`: the instance becomes another cell.
/// - `InsertGate`, `RemoveGate`: an instance with all pins open comes, or goes.
/// - `InsertNet`, `RemoveNet`: a net without pins comes, or goes.
/// - `Connect`, `Disconnect`: a pin joins a net, or leaves its net.
/// - `InsertBuffer`: the new instance `inst` of `cell` has its input on `net` and its output on the
///   new net `fresh`, and the sinks leave `net` and join `fresh`.
/// - `SetParasitics`: the net's parasitics are replaced, or dropped.
#[derive(Drop)]
pub enum Edit {
    Repower {
        inst: Name,
        cell: Name,
    },
    InsertGate {
        inst: Name,
        cell: Name,
    },
    RemoveGate {
        inst: Name,
    },
    InsertNet {
        net: Name,
    },
    RemoveNet {
        net: Name,
    },
    Connect {
        pin: Name,
        net: Name,
    },
    Disconnect {
        pin: Name,
    },
    InsertBuffer {
        net: Name,
        inst: Name,
        fresh: Name,
        cell: Name,
        sinks: Items<Name>,
    },
    SetParasitics {
        net: Name,
        rc: Option<NetRc>,
    },
}

/// Edits that are made together or not at all, in order.
#[derive(Drop)]
pub struct Eco {
    pub edits: Items<Edit>,
}

/// An entry of the journal: the edits of a session, numbered from 1.
#[derive(Drop)]
pub struct Entry {
    pub session: u32,
    pub eco: Eco,
}
