//! The worst walk of a fan-in cone whose nodes are numbers: of least slack over all launches and end
//! nodes, and of those the first by its list of nodes in an order that is asked only there. It is the search under worst timing paths.
#![tactic(auto)]

mod cones;
mod firsts;
mod orders;
mod searching;
mod slacks;
mod tables;
mod tracing;

pub use cones::{Cone, Launch, Walk, WalkArc, WalkEnd};
pub use firsts::{arcs_at, first_nodes};
pub use orders::WalkOrder;
pub use searching::worst_walk;
pub use slacks::slack_at;
pub use tables::{Entry, row_at, table_to};
pub use tracing::{comes_before, nodes_from};
