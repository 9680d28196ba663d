//! What the server asks of the outside: a shelf of named documents, a sink for its output, and
//! a gate that tests hold its threads at.
#![tactic(auto)]

mod file_shelf;
mod gate;
mod mem_shelf;
mod mem_sink;
mod plan;
mod shelf;
mod sink;
mod std_sink;

pub use file_shelf::{FileShelf, read_document};
pub use gate::{Gate, NoGate, Point};
pub use mem_shelf::MemShelf;
pub use mem_sink::MemSink;
pub use shelf::{DOCUMENT_LIMIT, Fetch, Shelf};
pub use sink::{PutFault, Sink};
pub use std_sink::StdSink;
