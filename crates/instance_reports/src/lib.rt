//! The answers to questions about an instance: its pins with what they are joined to, and the cells
//! to which it may be resized.
//!
//! Rows are made in the order of the cell's pins or of the library's cells, and are then put in the
//! order of their names (`ordering`). An instance may be resized to a cell where the store accepts
//! that edit (`resizing`).
#![tactic(auto)]

mod asked;
mod candidates;
mod ordering;
mod pins;
mod resizing;
mod sizes;

pub use candidates::sizes_of;
pub use pins::instance_report;
pub use sizes::size_report;
