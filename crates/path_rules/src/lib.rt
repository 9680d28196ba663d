//! Separations of clock edges, exceptions of paths, and separations moved by multicycles (SDC).
#![tactic(auto)]

mod edges;
mod moving;
mod objects;
mod overrides;
mod periods;
mod ranges;
mod rules;
mod sums;
mod words;

pub use edges::separation;
pub use moving::moved;
pub use overrides::Rule;
pub use ranges::{CycleRange, cycle_range};
pub use rules::rule;
