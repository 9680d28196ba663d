//! Versions of a design: an origin, a journal of accepted ECOs, the store after them and its analysis.
//!
//! `Version::first` makes the version of a store, and `prepare` the next one of an ECO; a version never
//! changes, so questions of a `Snapshot` are answered while others prepare. The store after an ECO and its
//! analysis come from `eco_analysis`. `histories` keeps where a version comes from.
//!
//! Questions beyond the plain ones are answered by what implements `Further`, which stands above this crate.
//!
//! `run_script` runs the script of one session at its seat at a board of versions, while other sessions
//! run theirs: `looking` takes and publishes, `commands` answers a command, `runs` the whole script. `begin_session` and
//! `answer_command` are its parts, for a session whose commands come one by one.
#![tactic(auto)]

mod commands;
mod further;
mod histories;
mod looking;
mod preparing;
mod replaying;
mod runs;
mod sharing;
mod snapshots;
mod versions;

pub use further::Further;
pub use preparing::prepare;
pub use replaying::{ReplayFault, replay};
pub use runs::{Answered, answer_command, begin_session, run_script};
pub use snapshots::Snapshot;
pub use versions::Version;
