//! The groups and attributes of a Liberty text, as a tree.
//!
//! Contracts speak of `reading_of bytes`, what an automaton reads that keeps the groups that are open
//! and a place among their statements.
#![tactic(auto)]

mod groups;
mod reading;
mod statements;
mod texts;
mod tokens;

pub use reading::Reading;
pub use texts::{read, read_tree};
