//! What a run ends with: its status and its text.

ghost use Rattle.std.specs.Prelude.{◌≡◌, ◌≤◌, false, IfOk};
ghost use Rattle.std.specs.List.{list_any};
ghost use Rattle.shell_core.specs.Documents.{design_line, entry_line};
ghost use Rattle.shell_core.specs.Answers.{is_wanting, is_refusal, has_refusal, status_of};

use crate::texts::{design_line, entry_line};
use sta_units::Memory;
use std::alloc::Global;
use timing_defs::{Answer, Fault, Row, Transcript};

/// What a run ends with: its status, and what it writes.
#[derive(Drop)]
pub struct End {
    pub status: u8,
    pub text: Vec<u8>,
}

/// Whether an answer is none: refused, no, or not yet.
fn is_refusal(answer: &Answer) -> bool
    ensures { result ≡ is_refusal answer.now }
{
    match answer {
        Answer::NotYet(_) | Answer::Refused(_) | Answer::No(_) => true,
        Answer::Taken | Answer::Reached | Answer::Accepted | Answer::Told(_) => false,
    }
}

fn has_refusal(rows: &[Row]) -> bool
    ensures { result ≡ has_refusal rows.now }
{
    rows.iter().any(|row| is_refusal(&row.answer))
}

fn some_refusal(transcripts: &[Transcript]) -> bool
    ensures { result ≡ list_any (λ t. has_refusal t.rows) transcripts.now }
{
    transcripts
        .iter()
        .any(|transcript| has_refusal(transcript.rows.as_slice()))
}

/// The status of a run that is answered with these transcripts: 1 where some row is refused, no or not
/// yet.
pub fn status(transcripts: &[Transcript]) -> u8
    ensures status { result ≡ status_of transcripts.now }
    ensures low { result ≤ 3 }
{
    if some_refusal(transcripts) { 1 } else { 0 }
}

/// Whether a fault is want of memory.
fn is_wanting(fault: &Fault) -> bool
    ensures { result ≡ is_wanting fault.now }
{
    matches!(fault, Fault::Memory)
}

/// The end of a run that a fault of its design stops.
///
/// # Errors
///
/// Want of memory, also where it is the fault.
pub fn fault_end(alloc: Global, fault: &Fault) -> Result<End, Memory>
    ensures { IfOk result
        (λ end. (is_wanting fault.now ≡ false) × (end.status ≡ 3)
        × (end.text.items ≡ design_line fault.now)) }
{
    if is_wanting(fault) {
        return Err(Memory);
    }
    let text = design_line(alloc, fault)?;
    Ok(End { status: 3, text })
}

/// The end of a run in whose saved journal an entry, counted from 1, is refused.
///
/// # Errors
///
/// Want of memory, also where it is the fault.
pub fn entry_end(alloc: Global, entry: u64, fault: &Fault) -> Result<End, Memory>
    ensures { IfOk result
        (λ end. (is_wanting fault.now ≡ false) × (end.status ≡ 3)
        × (end.text.items ≡ entry_line entry fault.now)) }
{
    if is_wanting(fault) {
        return Err(Memory);
    }
    let text = entry_line(alloc, entry, fault)?;
    Ok(End { status: 3, text })
}
