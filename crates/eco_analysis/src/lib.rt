//! What an ECO makes of a store and its analysis.
//!
//! `after_eco` gives the store after an ECO and its analysis, or the first fault that refuses the ECO; the base
//! stays as it is. The checks of a whole design are in `soundness`, for a store and for one that an ECO made;
//! each is followed by the analysis in `analysing`. `editing` applies the ECO and puts both together.
#![tactic(auto)]

mod analysing;
mod editing;
mod owners;
mod soundness;

pub use analysing::analysed;
pub use editing::{Edited, after_eco, exclusion, tells};
pub use owners::{shared, tell_laws};
pub use soundness::sound_graph;
