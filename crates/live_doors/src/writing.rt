//! Writing a piece, in as many calls as it takes.

ghost use Rattle.std.specs.Prelude.{◌≤◌, OnOk, IfOk, IfErr, length};
ghost use Rattle.std.specs.Io.KnownBytes.{WriteAppends};
ghost use Rattle.live_doors.specs.Marks.{IsGiven, IsGivenPart};

use crate::door::Lost;
use std::io::{ErrorKind, Write};

/// Writes a piece. Where that fails, it answers how many of its bytes were written.
pub(crate) fn write_whole<W: Write>(output: &mut W, piece: &[u8]) -> Result<(), usize>
    ensures whole { OnOk result (IsGiven W.contents output.old output.new piece.now) }
    ensures partly { IfErr result (IsGivenPart W.contents output.old output.new piece.now) }
    ensures bound { IfErr result (λ count. count ≤ length piece.now) }
{
    let mut at = 0;
    for _ in 0..u64::MAX {
        if at == piece.len() {
            return Ok(());
        }
        match write_once(output, &piece[at..]) {
            Ok(count) => at += count,
            Err(_) => return Err(at),
        }
    }
    Err(at)
}

/// Writes once, and answers how many bytes were taken: none where the call was interrupted. A call that takes
/// nothing for another cause has failed.
fn write_once<W: Write>(output: &mut W, rest: &[u8]) -> Result<usize, Lost>
    ensures bound { IfOk result (λ count. count ≤ length rest.now) }
    ensures bytes { WriteAppends (W.contents output.old) (W.contents output.new) result rest.now }
{
    match output.write(rest) {
        Ok(0) => Err(Lost::Output),
        Ok(count) => Ok(count),
        Err(fault) if fault.kind() == ErrorKind::Interrupted => Ok(0),
        Err(_) => Err(Lost::Output),
    }
}
