//! The words of the command line, read by `clap`: a run of 1 to 16 scripts, or a generated run.
//!
//! The command has the subcommands `run` and `generate` with positional words, `run` also the option
//! `--journal` with one value, and nothing else. What it refuses, help among it, asks for nothing, and so do words without a subcommand, and numbers or
//! counts out of range.
#![tactic(auto)]

mod asked;
mod commands;
mod laws;
mod matched;
mod numbers;
mod reading;

pub use asked::{Asked, Generate, Run};
pub use laws::plain_words_are_kept;
pub use reading::read_words;
