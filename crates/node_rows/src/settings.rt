//! Nodes by the numbers of a store, and what their rows are evaluated over.

ghost use Rattle.std.specs.Prelude.{◌≡◌};

use crate::pin_wires::Wires;
use crate::ports::Ports;
use netlist_store::Store;
use timing_defs::{NodeRow, Tran};

/// A node: the number of its pin in a store, its transition, and whether its pin is on the clock
/// network.
#[derive(Clone, Copy, Drop)]
pub struct NodeAt {
    pub pin: u32,
    pub tran: Tran,
    pub network: bool,
}

/// A node from which an arc leads to another, and its row.
#[derive(Clone, Copy, Drop)]
pub struct Before<'a> {
    pub node: NodeAt,
    pub row: &'a NodeRow,
}

/// A store, with the tables of its wires and of its ports.
#[derive(Clone, Copy, Drop)]
pub struct Setting<'a> {
    pub store: &'a Store,
    pub wires: &'a Wires,
    pub ports: &'a Ports,
}

/// Rows with the tables of wires and of ports over which they were found.
pub trait Wired {
    ghost use Rattle.node_rows.specs.declared.pin_wires.Wires.{Wires};
    ghost use Rattle.node_rows.specs.declared.ports.Ports.{Ports};

    ghost wires: { Self → Wires };

    ghost ports: { Self → Ports };

    /// The loads of nets and the wires to their sinks.
    fn wires(&self) -> &Wires
        ensures { result.now ≡ wires self.now };

    /// What constraints say of ports.
    fn ports(&self) -> &Ports
        ensures { result.now ≡ ports self.now };
}
