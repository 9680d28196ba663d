//! The pins of an edited store to which an ECO leads, and the law that every other endpoint keeps its slacks.
//!
//! An ECO leads from its seeds (`is_seed`) along arcs. A pin to which it leads neither itself nor at another
//! pin of its instance is in the base too, with the same paths and tests.
#![tactic(auto)]

mod behind;
mod dirty;

pub use behind::nodes_behind;
pub use dirty::{dirty_pins, inst_pins};
