//! The file of a journal, where there is one.

use live_journal::JournalSink;
use sta_outside::{MemSink, PutFault, Sink};
use std::alloc::Global;
use std::process::Abort;

fn in_memory(rt: &impl Abort, alloc: Global, room: usize) -> JournalSink<MemSink> {
    let fails = Vec::new(alloc);
    JournalSink::File(MemSink::new(alloc, room, fails).expect(rt, "memory"))
}

#[test]
fn what_is_put_stands_in_the_file(rt: HostRuntime) {
    let mut sink = in_memory(&rt, rt.alloc(), 4);
    assert_eq!(rt; sink.put(b"abc"), Ok(()));
    assert_eq!(rt; sink.put(b"de"), Err(PutFault::Failed));
    let file = sink.into_file().expect(&rt, "a file");
    assert_eq!(rt; file.bytes(), b"abcd".as_slice());
}

#[test]
fn nowhere_takes_all_and_is_no_file(rt: HostRuntime) {
    let mut sink: JournalSink<MemSink> = JournalSink::Nowhere;
    assert_eq!(rt; sink.put(b"abc"), Ok(()));
    assert!(rt; sink.into_file().is_none());
}
