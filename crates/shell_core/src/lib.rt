//! A run without its session: its documents, fetched and read one after the other, and what a refused run writes.
#![tactic(auto)]

mod discards;
mod documents;
mod ends;
mod texts;

pub use documents::{
    DesignDocuments, Documents, How, ReadDesign, Role, Stop, name_of, read_all, read_design,
    saved_entries,
};
pub use ends::{End, entry_end, fault_end, status};
pub use texts::{design_line, entry_line, refusal_line, shelf_line, words_line};
