//! Clock pessimism: what a launch path and a capture path share of the clock tree has one arrival,
//! and not an early one and a late one. The credit of two places of the tree gives the difference back.
#![tactic(auto)]

mod climbing;
mod rows;
mod trees;

pub use rows::TreeRow;
pub use trees::ClockTree;
