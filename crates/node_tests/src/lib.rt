//! The tests of a node: setup and hold at registers, and output delays at ports.
#![tactic(auto)]

mod climbs;
mod endpoints;
mod needs;
mod node_test;
mod nodes;
mod outputs;
mod pins;
mod registers;

pub use climbs::{WalkStart, walk_start};
pub use endpoints::{is_clocked, is_endpoint};
pub use node_test::NodeTest;
pub use nodes::node_tests;
