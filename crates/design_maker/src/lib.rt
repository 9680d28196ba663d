//! Generated designs: a library, a netlist of any size, constraints, and the scripts of four sessions.
//!
//! A netlist has four lanes of a quarter of the gates each, in blocks of 32. Each gate has one input on
//! the net before it and the other on a net of its block that is drawn. Session k + 1 resizes drawn
//! gates of lane k, so no two sessions change the same instance, and asks for the least slack behind
//! each edit. The draws are those of a linear congruential generator from a given number: the same
//! numbers give the same documents. The texts are exactly those of the definitions, and are made in
//! time linear in their length.
#![tactic(auto)]

mod constants;
mod documents;
mod draws;
mod netlists;
mod pushing;
mod sessions;

pub use documents::{Documents, make};
