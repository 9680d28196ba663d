//! The version with which a run begins: its documents are linked, their design is analysed, and the entries of a
//! saved journal are replayed. Where that is refused there is the end of the run, with the line that tells why.
#![tactic(auto)]

mod beginning;

pub use beginning::{Unbegun, begun_version};
