//! The advised resize of a design: of some candidates, each tried alone, the first with which the worst
//! slack of a kind is greatest.
//!
//! A candidate is tried by the ECO of its one resize (`trials`) over a store and its analysis (`bases`). Several are
//! shared between the processors (`sharing`) or tried one after another (`advising`); the best so far is kept,
//! and its names are copied for the answer (`choices`).
#![tactic(auto)]

mod advising;
mod bases;
mod choices;
mod sharing;
mod trials;

pub use advising::advise;
