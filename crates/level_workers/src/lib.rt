//! The map of a level's items by several threads: the same list as the plain map, in order.
#![tactic(auto)]

mod mapping;
mod pieces;
mod runs;

pub use mapping::{map_level, worth_threads};
