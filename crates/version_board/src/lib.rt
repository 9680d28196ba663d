//! A board of versions that threads share: a ticket lock over atomic words, with the history of what
//! was published.
//!
//! A value on the board stands for a list of entries from a first number. `Board::begin` gives a board
//! with its seats; each session has one. `Board::take` gives the newest value. `Board::publish` adds
//! one entry where nobody else did since the value that it was made from, and else gives the newest.
//! `Board::close` takes everything back and gives the last value.
//!
//! Between any two steps of any threads all values belong to one list that only grows: each seat has
//! seen a beginning of it, and its own entries stand in it in order, once each.
#![tactic(auto)]

mod boards;
mod plays;
mod seats;
mod sharing;
mod turns;
mod views;

pub use boards::{Begun, Board, Seat, Unpublished};
pub use views::{Old, Stands, View};
