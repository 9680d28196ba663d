//! Journals of edits: the lines of edits, the entries of a journal, and saved journals, read and
//! written. A capacitance is in attofarads (aF), a resistance in milliohms (mΩ).
#![tactic(auto)]

mod edits;
mod entries;
mod faults;
mod items;
mod laws;
mod lines;
mod numbers;
mod saved;
mod stops;
mod texts;

pub use edits::read_edit;
pub use entries::{read_eco, read_entries};
pub use laws::{
    block_read_back, eco_can_be_written, eco_read_back, journal_read_back, saved_read_back,
};
pub use lines::{Lines, Span, words_of};
pub use numbers::{number_of, says, text_at, within};
pub use saved::read_saved;
pub use stops::Stop;
pub use texts::{block_text, entry_text};
