//! What the sink of the standard output does with a piece.

use sta_outside::{PutFault, Sink, StdSink};
use std::fmt::Display;
use std::io;
use std::io::{ErrorKind, Print};
use std::process::Abort;

/// A standard output that takes at most this many bytes at a time, or fails.
#[derive(Drop)]
struct Narrow {
    takes: Option<usize>,
}

impl Print for Narrow {
    fn print<D: Display + Drop>(&self, _value: D) -> io::Result<()> {
        Ok(())
    }

    fn println<D: Display + Drop>(&self, _value: D) -> io::Result<()> {
        Ok(())
    }

    fn write_all(&self, _bytes: &[u8]) -> io::Result<()> {
        Ok(())
    }

    fn write_some(&self, bytes: &[u8]) -> io::Result<usize> {
        match self.takes {
            Some(takes) => Ok(takes.min(bytes.len())),
            None => Err(io::Error::from(ErrorKind::BrokenPipe)),
        }
    }
}

/// Asserts what a sink does with a piece where the output takes so many bytes at a time, and how
/// many calls have failed.
fn assert_put(
    rt: &impl Abort,
    takes: Option<usize>,
    piece: &str,
    wanted: Result<(), PutFault>,
    faults: u64,
) {
    let output = Narrow { takes };
    let mut sink = StdSink::new(&output);
    assert_eq!(rt; sink.put(piece.as_bytes()), wanted);
    assert_eq!(rt; sink.fault_count(), faults);
}

#[test]
fn a_piece_is_put_whole_or_a_fault_is_counted(rt: HostRuntime) {
    assert_put(&rt, Some(3), "journal", Ok(()), 0);
    assert_put(&rt, Some(0), "journal", Err(PutFault::Failed), 1);
    assert_put(&rt, Some(0), "", Ok(()), 0);
    assert_put(&rt, None, "journal", Err(PutFault::Failed), 1);
}

#[test]
fn the_standard_output_takes_a_piece(rt: HostRuntime) {
    let mut sink = StdSink::new(&rt);
    assert_eq!(rt; sink.put(b"journal 1 0\n"), Ok(()));
    assert_eq!(rt; sink.fault_count(), 0);
}
