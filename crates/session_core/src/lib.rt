//! The session core: a pure machine of sessions that run their scripts over one journal. An event is
//! one atomic step of one session: it takes a snapshot, merges a level of its draft, publishes its
//! draft, or answers its next command. For every list of events the rows of each session are ordered
//! for its script, and its entries in the journal are its accepted rows.
#![tactic(auto)]

mod cores;
mod events;
mod lists;
mod moves;
mod rows;

pub use cores::Core;
pub use events::Event;
pub use rows::{CoreDraft, CoreRow, CoreSession, RowSort};
