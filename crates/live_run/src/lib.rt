//! Live sessions beside each other: each holds its conversation at a door of its own, all over one board of versions and one journal.
//!
//! `run_live` opens the doors, lets each session talk until its input ends, closes the board and sees to it that the journal's file has
//! all entries.
#![tactic(auto)]

mod closing;
mod ended;
mod rooms;
mod runs;
mod sessions;

pub use ended::{LiveClosed, Parted};
pub use runs::{LivePlan, run_live};
