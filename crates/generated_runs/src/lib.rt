//! Generated runs: their documents, made and read, and the line that they write.
#![tactic(auto)]

mod discards;
mod documents;
mod readings;
mod scripts;
mod summaries;

pub use documents::generated_documents;
pub use summaries::summary_line;
