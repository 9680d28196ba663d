//! Resistances and capacitances of nets.

use crate::items::Items;
use crate::names::Name;
use sta_units::{Af, Mo};

/// A node of a net: a pin (`instance:pin`, or a port) or an inner node by its number.
#[derive(Drop)]
pub enum RcNode {
    Pin(Name),
    Inner(u32),
}

/// A capacitance in aF to ground at a node.
#[derive(Drop)]
pub struct RcCap {
    pub node: RcNode,
    pub cap: Af,
}

/// A resistance in mΩ between two nodes.
#[derive(Drop)]
pub struct RcRes {
    pub a: RcNode,
    pub b: RcNode,
    pub res: Mo,
}

/// The parasitics of a net. Without resistances the net is lumped. `lump` is a capacitance in aF
/// that belongs to no node.
#[derive(Drop)]
pub struct NetRc {
    pub net: Name,
    pub caps: Items<RcCap>,
    pub ress: Items<RcRes>,
    pub lump: Af,
}

/// The parasitics of a design, net by net in the order of the text.
#[derive(Drop)]
pub struct Parasitics {
    pub nets: Items<NetRc>,
}
