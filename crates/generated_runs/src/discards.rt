//! Values that are given up where memory is wanting.

use timing_defs::{Constraints, Items, Library, Module, Script};

pub(crate) fn discard_library(_library: Library) {}

pub(crate) fn discard_netlist(_netlist: Module) {}

pub(crate) fn discard_constraints(_constraints: Constraints) {}

pub(crate) fn discard_scripts(_scripts: Items<Script>) {}
