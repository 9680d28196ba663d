//! The first walks of a fan-in cone in order: by slack, and then by their lists of nodes in an order
//! that is asked only where slacks tie. Each walk given splits the walks that are left by the place
//! where they part from it (Lawler; over best suffixes, Eppstein).
#![tactic(auto)]

mod branches;
mod outs;
mod ranking;
mod splitting;
mod starts;
mod turns;
mod walking;

pub use ranking::ranked_walks;
