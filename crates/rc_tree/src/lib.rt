//! The wires of a net with parasitics: Elmore delays, impulses and the load.
#![tactic(auto)]

mod faults;
mod forests;
mod keys;
mod links;
mod nodes;
mod segments;
mod sums;
mod trees;
mod weights;
mod wires;

pub use faults::RcFault;
pub use trees::Tree;
