//! Reading an input line by line, in bounded memory.

ghost use Rattle.std.specs.Prelude.{◌≡◌, ◌≢◌, ◌≤◌, ◌<◌, ℕ, List, [], ◌++◌, All, IfOk, IfErr, IfSome, length, take, get_or, vec_len};
ghost use Rattle.std.specs.Io.KnownBytes.{Consumes, IsAtEnd};
ghost use Rattle.live_doors.specs.Lines.{kept_length, kept_line, TakesLine, ReadsOn};

use crate::door::Lost;
use std::alloc::Global;
use std::io::{BufRead, ErrorKind};

/// How many bytes of a line are kept: one more than a line may have.
pub(crate) const KEPT_LENGTH: usize = 65_537;

/// What one look at an input's buffer showed behind a line's bytes.
#[derive(Clone, Copy, Drop)]
pub(crate) enum Behind {
    /// The line goes on.
    More,
    /// The line's end.
    LineEnd,
    /// The input's end, and no byte of the line.
    InputEnd,
}

/// Where the first line of some bytes ends, or their number.
fn first_end(bytes: &[u8]) -> usize
    ensures bound { result ≤ length bytes.now }
    ensures before { All (λ byte. byte ≢ 10) (take result bytes.now) }
    ensures end { result < length bytes.now → get_or bytes.now result 0 ≡ 10 }
{
    let mut end = 0;
    while end < bytes.len() {
        if bytes[end] == b'\n' {
            return end;
        }
        end += 1;
    }
    end
}

/// Reads on in a line, as far as one look at the input's buffer shows, and keeps what fits.
///
/// # Errors
///
/// `Input` and `Memory`.
fn read_on<B: BufRead>(input: &mut B, line: &mut Vec<u8>) -> Result<Behind, Lost>
    requires { vec_len line.old ≤ kept_length }
    ensures read { IfOk result (ReadsOn B.remaining input.old input.new line.old line.new) }
    ensures within { vec_len line.new ≤ kept_length }
    ensures lost { IfErr result (λ lost. lost ≢ Lost.Output) }
{
    let shown = match input.fill_buf() {
        Ok(shown) => shown,
        Err(fault) if fault.kind() == ErrorKind::Interrupted => return Ok(Behind::More),
        Err(_) => return Err(Lost::Input),
    };
    if shown.is_empty() {
        return Ok(Behind::InputEnd);
    }
    let end = first_end(shown);
    let is_ended = end < shown.len();
    let kept = end.min(KEPT_LENGTH - line.len());
    if line.extend_from_slice(&shown[..kept]).is_err() {
        return Err(Lost::Memory);
    }
    if is_ended {
        input.consume(end + 1);
        Ok(Behind::LineEnd)
    } else {
        input.consume(end);
        Ok(Behind::More)
    }
}

/// The next line of an input without its line feed, or none at the input's end. A longer line is read to its
/// end, and its first 65,537 bytes are kept.
///
/// # Errors
///
/// `Input` and `Memory`.
pub(crate) fn next_line<B: BufRead>(alloc: Global, input: &mut B) -> Result<Option<Vec<u8>>, Lost>
    ensures line { IfOk result (TakesLine B.remaining input.old input.new) }
    ensures within { IfOk result (λ got. IfSome got (λ line. length line.items ≤ kept_length)) }
    ensures lost { IfErr result (λ lost. lost ≢ Lost.Output) }
{
    let mut line = Vec::new(alloc);
    for _ in 0..u64::MAX {
        match read_on(input, &mut line)? {
            Behind::More => {}
            Behind::LineEnd => return Ok(Some(line)),
            Behind::InputEnd if line.is_empty() => return Ok(None),
            Behind::InputEnd => return Ok(Some(line)),
        }
    }
    Err(Lost::Input)
}
