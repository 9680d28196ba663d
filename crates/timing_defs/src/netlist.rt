//! A netlist of one module.

use crate::items::Items;
use crate::kinds::Dir;
use crate::names::Name;

/// A port of the module. It stands on the net of its own name.
#[derive(Drop)]
pub struct Port {
    pub name: Name,
    pub dir: Dir,
}

/// A connection of an instance's pin. `net` is none where the pin is tied: it has a constant or an
/// empty connection.
#[derive(Drop)]
pub struct Conn {
    pub pin: Name,
    pub net: Option<Name>,
}

/// An instance of a cell. `conns` has its connected and tied pins alone, in the order of the text.
#[derive(Drop)]
pub struct Inst {
    pub name: Name,
    pub cell: Name,
    pub conns: Items<Conn>,
}

/// A module: its ports, nets and instances in the order of the text. Bits of a vector are ports or
/// nets of their own, as `a[3]`.
#[derive(Drop)]
pub struct Module {
    pub name: Name,
    pub ports: Items<Port>,
    pub nets: Items<Name>,
    pub insts: Items<Inst>,
}
