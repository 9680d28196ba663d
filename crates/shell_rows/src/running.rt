//! The run of a case.

use crate::documents::Documents;
use crate::rows::Case;
use shell_session::{Status, serve};
use sta_outside::{MemShelf, MemSink, NoGate};
use sta_units::Memory;
use std::alloc::{AllocError, Global};
use std::io;
use std::io::{ErrorKind, Print, Write};
use std::sync::Wait;
use std::thread::Threads;

/// The words of a line.
fn words_of(alloc: Global, line: &str) -> Result<Vec<String>, AllocError> {
    let mut words = Vec::new(alloc);
    for word in line.split_whitespace() {
        words.push(String::from_str(alloc, word)?)?;
    }
    Ok(words)
}

/// The sink of a case.
fn sink_of(alloc: Global, case: &Case<'_>) -> io::Result<MemSink> {
    let fails = vec![in alloc; case.put_fails]?;
    match MemSink::new(alloc, case.room as usize, fails) {
        Ok(sink) => Ok(sink),
        Err(Memory) => Err(io::Error::from(ErrorKind::OutOfMemory)),
    }
}

/// The status of a run by words.
fn status_of<H: AllocGlobal + Threads + Wait + Sync>(
    rt: &H,
    words: &[String],
    shelf: &mut MemShelf,
    sink: &mut MemSink,
) -> Status {
    serve(rt, rt.alloc(), words, shelf, sink, &NoGate)
}

/// Writes how a run of a name has ended, and what it has written.
fn print_end(rt: &impl Print, name: &str, status: Status, text: &[u8]) -> io::Result<()> {
    println!(rt; "case {name}\nstatus {status}")?;
    io::writer(rt).write_all(text)?;
    println!(rt; "")
}

/// Runs a case over documents, and writes how it has ended.
pub(crate) fn print_run<H: AllocGlobal + Print + Threads + Wait + Sync>(
    rt: &H,
    case: &Case<'_>,
    documents: &Documents,
) -> io::Result<()> {
    let alloc = rt.alloc();
    let words = words_of(alloc, case.words)?;
    let mut sink = sink_of(alloc, case)?;
    let fails = vec![in alloc; case.fetch_fails]?;
    let mut shelf = documents.shelf(fails)?;
    let status = status_of(rt, words.as_slice(), &mut shelf, &mut sink);
    print_end(rt, case.name, status, sink.bytes())
}
