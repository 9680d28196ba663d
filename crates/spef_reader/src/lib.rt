//! The reader of parasitics in the SPEF format (a subset of IEEE 1481): the resistances and
//! capacitances of nets.
#![tactic(auto)]

mod checks;
mod context;
mod events;
mod header;
mod lumps;
mod name_map;
mod nets;
mod nodes;
mod parasitics;
mod reader;
mod rows;
mod scan;
mod sections;
mod sizes;
mod tokens;
mod values;
mod words;

pub use reader::read_parasitics;
