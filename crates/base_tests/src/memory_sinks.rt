//! What a sink in memory takes, and how often it fails.

use sta_outside::{MemSink, PutFault, Sink};
use std::process::Abort;

/// Asserts that a piece is taken or not, what the sink has then, and how many calls have failed.
fn assert_put(
    rt: &impl Abort,
    sink: &mut MemSink,
    piece: &str,
    wanted: Result<(), PutFault>,
    written: &str,
    faults: u64,
) {
    assert_eq!(rt; sink.put(piece.as_bytes()), wanted);
    assert_eq!(rt; sink.bytes(), written.as_bytes());
    assert_eq!(rt; sink.fault_count(), faults);
}

#[test]
fn a_sink_in_memory_takes_what_fits(rt: HostRuntime) {
    let fails = Vec::from_slice(rt.alloc(), &[2]).expect(&rt, "memory");
    let mut sink = MemSink::new(rt.alloc(), 5, fails).expect(&rt, "memory");
    assert_put(&rt, &mut sink, "jou", Ok(()), "jou", 0);
    assert_put(&rt, &mut sink, "r", Err(PutFault::Failed), "jou", 1);
    assert_put(&rt, &mut sink, "", Ok(()), "jou", 1);
    assert_put(&rt, &mut sink, "rnal", Err(PutFault::Failed), "journ", 2);
    assert_put(&rt, &mut sink, "", Ok(()), "journ", 2);
}
