//! A list whose copies share what they have in common, and a value that its owners share.
#![tactic(auto)]

mod chunks;
mod filled;
mod held;
mod moves;
mod pages;
mod tables;
mod writes;

pub use held::Held;
pub use tables::CowTable;
