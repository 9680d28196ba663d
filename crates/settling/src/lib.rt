//! Values by number, each given by a rule from others, that are made right again after a change: what a
//! change leaves wrong is found anew, and then what it was given to (a worklist, as in incremental
//! data flow).
#![tactic(auto)]

mod rules;
mod steps;
mod turns;

pub use rules::{LIMIT, Rule};
pub use turns::settle;
