//! Libraries of the Liberty format: their cells, look-up tables and units.
//!
//! What the text of a library means, `library_of_text`, `units_of_text` and `faults_of`, stands in the
//! definitions of this crate, over the tree of `liberty_syntax`.
#![tactic(auto)]

mod arcs;
mod attributes;
mod axes;
mod cells;
mod checks;
mod headers;
mod library_units;
mod names;
mod needs;
mod numbers;
mod pins;
mod powers;
mod reader;
mod scope;
mod statements;
mod tables;
mod templates;
mod timing;
mod words;

pub use reader::{read_library, units};
