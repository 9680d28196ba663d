//! Drafts of a design: ECOs are tried one over the other, the last one can be dropped, and the last design is asked.
//!
//! `Draft` keeps a store and an analysis for each accepted ECO, over those of a snapshot, which stay as they are
//! (`drafts`). Questions that are no plain ones are answered above this crate (`answers`). `trial_rows` answers a whole list
//! of trials (`trials`) over a store and its analysis (`bases`).
#![tactic(auto)]

mod answers;
mod bases;
mod drafts;
mod trials;

pub use answers::DraftAnswers;
pub use drafts::Draft;
pub use trials::trial_rows;
