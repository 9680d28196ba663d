//! Values that are given up where the reading of documents stops: each is dropped at one place.

use timing_defs::{Constraints, Entry, Items, Library, Module, Script};

pub(crate) fn discard_library(_library: Library) {}

pub(crate) fn discard_netlist(_netlist: Module) {}

pub(crate) fn discard_constraints(_constraints: Constraints) {}

pub(crate) fn discard_entries(_entries: Items<Entry>) {}

pub(crate) fn discard_saved(_saved: Option<Items<Entry>>) {}

pub(crate) fn discard_journal(_journal: Option<Items<u8>>) {}

pub(crate) fn discard_text(_text: Vec<u8>) {}

pub(crate) fn discard_scripts(_scripts: Items<Script>) {}
