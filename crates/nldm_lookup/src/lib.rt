//! Look-up in the tables of a cell library, by linear interpolation.
#![tactic(auto)]

mod axes;
mod columns;
mod lines;
mod lookups;

pub use lookups::{OutOfRange, look_up};
