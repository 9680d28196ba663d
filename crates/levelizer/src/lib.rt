//! Levels of a graph whose nodes are numbers, or a cycle of it: the order in which a timing analysis
//! can go over the nodes; and which nodes can be reached from some.
#![tactic(auto)]

mod cycles;
mod fan_out;
mod faults;
mod leveling;
mod links;
mod reaching;
mod sweeping;

pub use faults::LevelFault;
pub use leveling::levels;
pub use links::Link;
pub use reaching::reached;
