//! The best of some resizes by the worst or by the total negative slack: of some candidates, each
//! tried alone, the five with which it is greatest, where it is greater than now.
//!
//! A candidate is tried by the ECO of its one resize (`trials`) over a store and its analysis
//! (`bases`): its outcome is the totals of the design after it (`totals`). Several are shared
//! between the processors or tried one after another (`outcomes`). The best of those that improve
//! are kept in order (`ordering`, `kept`), and their names are copied for the report (`advising`).
//! Of a question (`asked`) candidates that are written twice count once, and all have to be there
//! (`candidates`). Of one that names instances all their sizes are tried; the instances have to be
//! there, and neither they nor their sizes may be too many (`sizes`).
#![tactic(auto)]

mod advising;
mod asked;
mod bases;
mod candidates;
mod kept;
mod ordering;
mod outcomes;
mod sizes;
mod totals;
mod trials;

pub use advising::advice_report;
pub use asked::{advise_sizes, advise_tns};
pub use candidates::{candidates_there, once};
pub use ordering::Target;
