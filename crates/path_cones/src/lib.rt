//! The fan-in cone of an endpoint over the numbers of its own nodes, as a search for worst walks wants
//! it.
//!
//! The nodes are found backwards from the end nodes (`reaching`), and ordered so that arcs lead from
//! higher places to lower ones (`leveling`). The arcs into each node are listed by these places
//! (`listing`), each with its delay (`delays`). The arcs into one node can be asked for alone
//! (`following`). A part of a cone has some nodes alone (`fan_among`).
#![tactic(auto)]

mod delays;
mod fans;
mod following;
mod leveling;
mod listing;
mod reaching;

pub use fans::{FanIn, fan_among, fan_in};
pub use following::arcs_into;
