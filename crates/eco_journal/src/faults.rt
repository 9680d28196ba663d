//! Faults of the lines of a journal, and its next line.

ghost use Rattle.std.specs.Prelude.{◌≡◌, ◌+◌, ◌<◌, ◌^◌, ◌∷◌, [], length, map, IfOk, MatchResult};
ghost use Rattle.eco_journal.specs.Lines.{Part, part_of};
ghost use Rattle.eco_journal.specs.Journal.{fault_of, counted, Tells};
ghost use Rattle.timing_defs.specs.declared.codes.ReadFault.TheVariants.{At};
ghost use Rattle.timing_defs.specs.declared.codes.Code.TheVariants.{JournalBadLine, JournalBadNumber};

use crate::lines::{Lines, Span};
use crate::numbers::{begin_of, number_of, text_at};
use crate::stops::Stop;
use timing_defs::{Code, ReadFault};

pub(crate) fn bad_line(at: usize) -> ReadFault
    ensures { result ≡ At JournalBadLine at }
{
    ReadFault::At {
        code: Code::JournalBadLine,
        offset: at as u64,
    }
}

pub(crate) fn bad_number(at: usize) -> ReadFault
    ensures { result ≡ At JournalBadNumber at }
{
    ReadFault::At {
        code: Code::JournalBadNumber,
        offset: at as u64,
    }
}

/// The fault of a line at that place.
pub(crate) fn fault_of(at: usize, stop: Stop) -> ReadFault
    ensures { result ≡ fault_of at stop }
{
    match stop {
        Stop::Memory => ReadFault::Memory,
        Stop::Unfit => bad_line(at),
        Stop::Flawed(word) => bad_number(word),
    }
}

/// The next line of a text of that length.
pub(crate) fn next_line<'a>(lines: &mut Lines<'a>, size: usize) -> Result<Span<'a>, ReadFault>
    ensures next { MatchResult result (λ line. lines.old ≡ part_of line ∷ lines.new)
        (λ fault. (lines.old ≡ []) × (fault ≡ At JournalBadLine size)) }
    ensures within { IfOk result (λ line. line.at + length line.text.now < 2 ^ 64) }
{
    match lines.next() {
        Some(line) => Ok(line),
        None => Err(bad_line(size)),
    }
}

/// The count at a place of a line's words.
pub(crate) fn count_at(words: &[Span<'_>], k: usize) -> Result<u128, ReadFault>
    ensures { (line : Part) → Tells result (counted line (map part_of words.now) k) }
{
    match number_of(text_at(words, k)) {
        Some(count) => Ok(count),
        None => Err(bad_number(begin_of(words, k))),
    }
}
