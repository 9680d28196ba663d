//! A linked design.

use crate::constraints::Constraints;
use crate::items::Items;
use crate::library::Library;
use crate::names::Name;
use crate::netlist::{Inst, Port};
use crate::parasitics::NetRc;

/// A design: the libraries of the early and of the late split, the netlist, the constraints and
/// the parasitics of the nets that have them.
#[derive(Drop)]
pub struct Design {
    pub early: Library,
    pub late: Library,
    pub ports: Items<Port>,
    pub nets: Items<Name>,
    pub insts: Items<Inst>,
    pub constraints: Constraints,
    pub rcs: Items<NetRc>,
}
