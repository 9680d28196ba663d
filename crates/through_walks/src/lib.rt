//! The worst walk of a fan-in cone that passes given stops in their order. It is the worst walk of a
//! layered cone: a node for each place and each count of stops passed.
#![tactic(auto)]

mod ends;
mod layers;
mod orders;
mod searching;
mod stops;

pub use searching::through_walk;
pub use stops::Stop;
