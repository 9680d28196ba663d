//! Slews and arrivals of all nodes: the full analysis, level by level with each level's nodes shared
//! between threads, and the row of one node over the rows of the nodes before it.
//!
//! A node's row is the definition's where those of the nodes before it are, and levels rise along arcs.
//! So the rows of a level are found from those of the lower levels, by a plain map over its nodes
//! (`passes`); one node is evaluated in `nodes`, which gives the delays of the arcs into it with its row,
//! and `ordering` lists the nodes by their levels. After an ECO only the nodes that it affects are
//! evaluated, over a copy of the base's rows (`updates`).
#![tactic(auto)]

mod moved;
mod nodes;
mod ordering;
mod passes;
mod tables;
mod updates;

pub use nodes::eval_node;
pub use tables::Arrivals;
