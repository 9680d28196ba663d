//! Documents linked to a design, and the checks of a whole design over the numbers of a store.
#![tactic(auto)]

mod cell_tables;
mod checks;
mod counts;
mod dangling;
mod least;
mod linking;
mod net_nodes;
mod net_pins;
mod net_tests;
mod node_sets;
mod objects;
mod pin_words;
mod rc_pins;
mod rooted;
mod walks;

pub use checks::{check_data, check_data_after, check_nets, check_nets_after};
pub use linking::link;
