//! The desk that keeps the entries of a board in a file before anybody is told of them.
//!
//! `Desk::keep` sees to it that all entries up to a number stand in the file; threads that share a desk call it by `keep_shared`.
//! Each thread has a `Receipt`, which tells up to which number all entries stand there for certain, and whether a put failed. It
//! outlives the lock: once the threads have returned, `Desk::confirm` shows that the file has what a receipt tells.
//!
//! The desk has a seat of its own at the board, so the file's order is the board's. `Stands` gives the entries and `Saves` their
//! texts. A put that fails is the last: what stands in the file then is a beginning of the texts.
//!
//! `check_end` refuses a saved journal whose last line lacks its line feed. `saved_goes_on` tells how blocks are read that stand
//! behind a saved journal. A version's entries are kept in blocks of one entry each.
#![tactic(auto)]

mod blocks;
mod cells;
mod desks;
mod ends;
mod laws;
mod receipts;
mod rest;
mod rooms;
mod saving;
mod sinks;
mod versions;

pub use blocks::single_blocks;
pub use cells::{Cell, Keeper, Known, open_cell};
pub use desks::{Desk, Left, Unkept, keep_shared};
pub use ends::check_end;
pub use laws::{file_goes_on, saved_goes_on, torn_is_refused};
pub use receipts::Receipt;
pub use rest::put_rest;
pub use rooms::Room;
pub use saving::Saves;
pub use sinks::JournalSink;
