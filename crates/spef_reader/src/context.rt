//! What is known at a place of a text of parasitics.

use crate::name_map::NameMap;
use sta_units::Unit;

/// The bytes that stand for `[` and `]` in names.
#[derive(Clone, Copy, Drop)]
pub(crate) struct Bus {
    pub opening: Option<u8>,
    pub closing: Option<u8>,
}

/// What the header says: the byte between an instance and its pin, the marks of buses, the units of
/// capacitances in aF and of resistances in mΩ.
#[derive(Clone, Copy, Drop)]
pub(crate) struct Header {
    pub delimiter: Option<u8>,
    pub bus: Bus,
    pub farad: Option<Unit>,
    pub ohm: Option<Unit>,
}

/// What a unit of the header measures.
#[derive(Clone, Copy, Drop)]
pub(crate) enum Measure {
    Capacitance,
    Resistance,
    Other,
}

/// The length of the text, and what the header and the name map have said so far.
#[derive(Drop)]
pub(crate) struct Context<'a> {
    pub size: usize,
    pub header: Header,
    pub names: NameMap<'a>,
}
