//! The delays along the arcs of a design in one table, for all that goes over them: required times and
//! the searches of paths. They come of the evaluation of the nodes to which the arcs lead.
#![tactic(auto)]

mod tables;

pub use tables::{ArcDelay, ArcDelays, Delayed};
