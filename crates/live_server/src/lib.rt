//! The live server: one call that reads the documents of a design, and then answers each line of its sessions before it reads the next.
//!
//! `serve_live` is the top call; `refuse_words` ends a run whose words ask for nothing.
#![tactic(auto)]

mod beginning;
mod ending;
mod serving;
mod statuses;

pub use serving::{LiveLeft, Status, Surroundings, refuse_words, serve_live};
