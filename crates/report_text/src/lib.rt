//! The bytes that a run writes: the journal, the rows of each session and the totals.
//!
//! Each line ends with a line feed, and one blank stands between words. A time is in picoseconds
//! with three decimals, or `none`; every number is decimal. The output is
//! - `journal 1 COUNT` and the entries, or a block of a saved journal;
//! - for each session `session S rows R` and its rows;
//! - `final COUNT setup W T hold W T`, the worst slack and the total negative slack of both kinds.
//!
//! A session that is told each row by itself has these rows (`report_bytes`), and `error CODE LINE` for
//! a wrong line of its input.
//!
//! Each call gives exactly the bytes of its definition, whatever its arguments are, and takes time
//! linear in these bytes. Want of memory is the only error.
#![tactic(auto)]

mod closing;
mod drafts;
mod errors;
mod faults;
mod nets;
mod outputs;
mod pieces;
mod reports;
mod rows;
mod timed;

pub use errors::error_bytes;
pub use faults::fault_bytes;
pub use outputs::{final_bytes, journal_bytes, output_bytes, output_saved_bytes};
pub use rows::report_bytes;
