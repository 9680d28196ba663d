//! The reader of design constraints (a subset of SDC 2.1): clocks, delays, slews and loads at ports,
//! exceptions and derates.
#![tactic(auto)]

mod arguments;
mod clocks;
mod commands;
mod cursor;
mod draft;
mod events;
mod exceptions;
mod faults;
mod interpreter;
mod numbers;
mod objects;
mod pins;
mod reader;
mod tables;
mod texts;
mod values;
mod words;

pub use reader::read_constraints;
