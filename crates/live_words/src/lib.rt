//! The words of a live run's command line, read by `clap`.
//!
//! The command has the subcommand `live` with positional words, the option `--journal` with one value, and
//! nothing else. What it refuses, help among it, asks for nothing, and so do words without a subcommand, and
//! numbers or counts out of range.
#![tactic(auto)]

mod asked;
mod commands;
mod laws;
mod matched;
mod numbers;
mod reading;

pub use asked::{LiveWords, Pair};
pub use laws::plain_words_are_kept;
pub use reading::read_live_words;
