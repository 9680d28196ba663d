//! The least slack of the walks to an end node by a search that leaves out what a bound shuts out: from
//! the end node back, level by level, each node once, with the greatest sum of delays found so far. It
//! visits few nodes where the bound is near, and asks for nodes, arcs and offers only there.
#![tactic(auto)]

mod either_ends;
mod fans;
mod firsts;
mod nears;
mod reached;
mod rooms;
mod searching;
mod steps;

pub use either_ends::least_of_two;
pub use fans::Fan;
pub use nears::near_nodes;
pub use rooms::least_room;
pub use searching::least_slack;
