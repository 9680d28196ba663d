//! The sink of the standard output.

ghost use Rattle.std.specs.Prelude.{◌≡◌, ℕ, ◌≤◌, None, IfOk, OnOk, OnErr, length, take};
ghost use Rattle.std.specs.Io.KnownBytes.{Appends as Grows, WriteAppends};
ghost use Rattle.sta_outside.specs.Shelf.{Rose};
ghost use Rattle.sta_outside.specs.Sink.{Appends, AppendsPrefix};

use crate::sink::{PutFault, Sink};
use std::io;
use std::io::{ErrorKind, Print, Write};

/// The sink of a runtime's standard output. It does not tell the bytes that it was given.
#[derive(Drop)]
pub struct StdSink<'a, R: Print> {
    rt: &'a R,
    faults: u64,
}

impl<'a, R: Print> StdSink<'a, R> {
    /// The sink of a runtime's standard output.
    pub fn new(rt: &'a R) -> StdSink<'a, R>
        ensures { result.faults ≡ 0 }
    {
        StdSink { rt, faults: 0 }
    }

    /// How often it failed.
    pub fn fault_count(&self) -> u64
        ensures { result ≡ self.now.faults }
    {
        self.faults
    }
}

impl<R: Print> Sink for StdSink<'_, R> {
    ghost written = { λ _. None };

    ghost faults = { λ sink. sink.faults };

    fn put(&mut self, bytes: &[u8]) -> Result<(), PutFault> {
        let result = write_whole(&mut io::writer(self.rt), bytes);
        if result.is_err() {
            self.faults = self.faults.saturating_add(1);
        }
        result
    }
}

/// Writes a piece, in as many calls as it takes.
fn write_whole<W: Write>(out: &mut W, bytes: &[u8]) -> Result<(), PutFault>
    ensures whole { OnOk result (Grows (W.contents out.old) (W.contents out.new) bytes.now) }
    ensures partly { OnErr result ((n : ℕ) × Grows (W.contents out.old) (W.contents out.new) (take n bytes.now)) }
{
    let mut at = 0;
    for _ in 0..u64::MAX {
        if at == bytes.len() {
            return Ok(());
        }
        at += write_piece(out, &bytes[at..])?;
    }
    Err(PutFault::Failed)
}

/// Writes once, and answers how many bytes were taken: none where the call was interrupted. A
/// call that takes nothing for another cause has failed.
fn write_piece<W: Write>(out: &mut W, rest: &[u8]) -> Result<usize, PutFault>
    ensures bound { IfOk result (λ count. count ≤ length rest.now) }
    ensures bytes { WriteAppends (W.contents out.old) (W.contents out.new) result rest.now }
{
    match out.write(rest) {
        Ok(0) => Err(PutFault::Failed),
        Ok(count) => Ok(count),
        Err(fault) if fault.kind() == ErrorKind::Interrupted => Ok(0),
        Err(_) => Err(PutFault::Failed),
    }
}
