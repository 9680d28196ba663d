//! The reader of structural netlists (a subset of IEEE 1364): modules with ports, vectors by their
//! bits, and instances with connections by name.
#![tactic(auto)]

mod body;
mod checks;
mod covers;
mod cursor;
mod declarations;
mod events;
mod few;
mod header;
mod known;
mod late;
mod lexicon;
mod modules;
mod names;
mod nets;
mod reader;

pub use reader::read_module;
