//! Tokens of the texts that are read, and what all readers share: sets and maps of names, and the
//! choice of the least fault.
//!
//! A reader takes a `Cursor` of its style. Contracts see it as the list of the tokens that are
//! left, of `tokens_of style bytes`.
#![tactic(auto)]

mod bytes;
mod cursor;
mod faults;
mod names;
mod pieces;
mod places;
mod token;

pub use bytes::{begins, continues, line_end_len};
pub use cursor::{Cursor, tokens_in_order};
pub use faults::{Wrong, lesser};
pub use names::Names;
pub use places::Places;
pub use token::Token;
