//! The answers to further questions of sessions: the worst path through given pins, the worst paths of an endpoint, drafts,
//! advised sizes, and what closing timing needs (`closing`: nets, instances, paths stage by stage, all endpoints, skews).
//!
//! `answers` goes by the question. Paths are searched for over the analysis of the version that a session holds (`paths`), once the
//! pins that the question names are there (`asked`). The ECOs of a draft, and those of the resizes that may be advised, are tried on
//! the store and the analysis of that version (`drafts`); the version stays as it is, and no journal has them.
#![tactic(auto)]

mod answers;
mod asked;
mod closing;
mod drafts;
mod paths;

pub use answers::FurtherQueries;
