//! The whole timing analysis of a sound design, and the answer to every question about it.
//!
//! An analysis holds the slews, arrivals and required times of all nodes, the clock tree, and the slacks
//! of all endpoints (`analyses`). The slacks of endpoints are found once, by a search for each endpoint and kind
//! (`ends`); sums over them (`totals`), the worst of them (`ranking`) and the slack of one (`asking`) are
//! looked up. A path alone is searched for when it is asked.
#![tactic(auto)]

mod analyses;
mod asked;
mod asking;
mod bounds;
mod end_updates;
mod ends;
mod found;
mod graph_slacks;
mod ranking;
mod sharing;
mod totals;
mod trees;
mod updating;

pub use analyses::{Analysis, ask};
pub use asked::{end_named, pin_there};
pub use asking::is_plain;
pub use ends::{EndSlacks, Search};
pub use sharing::map_shared;
