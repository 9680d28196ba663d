//! Runs over documents in memory.

use shell_session::{Status, serve};
use sta_outside::{Gate, MemShelf, MemSink};
use std::alloc::Global;
use std::process::Abort;
use std::sync::Wait;
use std::thread::Threads;

/// The names and the texts of documents.
#[derive(Drop)]
pub(crate) struct Texts {
    names: Vec<String>,
    texts: Vec<Vec<u8>>,
}

impl Texts {
    pub(crate) fn new(alloc: Global) -> Texts {
        Texts {
            names: Vec::new(alloc),
            texts: Vec::new(alloc),
        }
    }

    /// Adds documents.
    pub(crate) fn add(&mut self, rt: &impl Abort, alloc: Global, documents: &[(&str, &str)]) {
        for (name, text) in documents {
            let text = text.as_bytes().to_vec(alloc).expect(rt, "memory");
            self.add_text(rt, alloc, name, text);
        }
    }

    /// Adds a document.
    pub(crate) fn add_text(&mut self, rt: &impl Abort, alloc: Global, name: &str, text: Vec<u8>) {
        let name = String::from_str(alloc, name).expect(rt, "memory");
        self.names.push(name).expect(rt, "memory");
        self.texts.push(text).expect(rt, "memory");
    }

    /// A shelf that has them.
    fn shelf(self, alloc: Global) -> MemShelf {
        MemShelf::new(self.names, self.texts, Vec::new(alloc))
    }
}

fn words_of(rt: &impl Abort, alloc: Global, line: &str) -> Vec<String> {
    let mut words = Vec::new(alloc);
    for word in line.split_whitespace() {
        let word = String::from_str(alloc, word).expect(rt, "memory");
        words.push(word).expect(rt, "memory");
    }
    words
}

/// What a sink was given.
fn text_of(rt: &impl Abort, alloc: Global, sink: &MemSink) -> String {
    let bytes = sink.bytes().to_vec(alloc).expect(rt, "memory");
    String::from_utf8(bytes).expect(rt, "a text is written")
}

/// The status of a run by words.
fn status_of<H: Threads + Wait + Sync, G: Gate>(
    rt: &H,
    alloc: Global,
    words: &[String],
    shelf: &mut MemShelf,
    sink: &mut MemSink,
    gate: &G,
) -> Status {
    serve(rt, alloc, words, shelf, sink, gate)
}

/// The status of a run by the words of a line over documents, and what it writes.
pub(crate) fn run<H: Abort + Threads + Wait + Sync, G: Gate>(
    rt: &H,
    alloc: Global,
    line: &str,
    texts: Texts,
    gate: &G,
) -> (Status, String) {
    let words = words_of(rt, alloc, line);
    let mut shelf = texts.shelf(alloc);
    let mut sink = MemSink::new(alloc, 1_000_000, Vec::new(alloc)).expect(rt, "memory");
    let status = status_of(rt, alloc, words.as_slice(), &mut shelf, &mut sink, gate);
    (status, text_of(rt, alloc, &sink))
}
