//! The journal, the sessions and the totals, and all of them.

ghost use Rattle.std.specs.Prelude.{◌≡◌, ◌+◌, ◌++◌, ◌^◌, ◌≤◌, Ok, OnOk, IfOk, codes, length};
ghost use Rattle.sta_units.specs.Picoseconds.{ps_text};
ghost use Rattle.timing_defs.specs.Output.{line, word, number, time_text, entry_text, entries_text, journal_text, session_text, sessions_text, final_text, output_text};
ghost use Rattle.timing_defs.specs.Saved.{block_text};
ghost use Rattle.eco_journal.specs.Journal.{entries_of};
ghost use Rattle.eco_journal.specs.Written.{AreEntries};
ghost use Rattle.timing_defs.specs.Saved.{saved_output_text};

use crate::pieces::{push, push_count, push_end, push_ps, push_time};
use crate::rows::push_rows;
use eco_journal::{block_text, entry_text};
use sta_units::{Fs, Memory};
use std::alloc::Global;
use timing_defs::{Clock, Derates, Entry, Items, Totals, Transcript};

/// An entry of the journal with its number.
fn push_entry(alloc: Global, out: &mut Vec<u8>, number: u64, entry: &Entry) -> Result<(), Memory>
    ensures { OnOk result (out.new.items ≡ out.old.items ++ entry_text number entry.now) }
{
    let text = entry_text(alloc, number, entry)?;
    push(out, text.as_bytes())
}

/// Entries with their numbers, from 1 on.
#[tactic(auto, using(std::proofs::lemmas::List::drop_more))]
fn push_entries(alloc: Global, out: &mut Vec<u8>, entries: &[Entry]) -> Result<(), Memory>
    ensures { OnOk result (out.new.items ≡ out.old.items ++ entries_text 1 entries.now) }
{
    let mut number = 0;
    for entry in entries {
        number += 1;
        push_entry(alloc, out, number, entry)?;
    }
    Ok(())
}

fn push_journal(alloc: Global, out: &mut Vec<u8>, entries: &[Entry]) -> Result<(), Memory>
    ensures { OnOk result (out.new.items ≡ out.old.items ++ journal_text entries.now) }
{
    push_count(out, b"journal 1", entries.len() as u64)?;
    push_end(out)?;
    push_entries(alloc, out, entries)
}

/// A block of a saved journal.
fn push_block(
    alloc: Global,
    out: &mut Vec<u8>,
    first: u64,
    derates: &Derates,
    entries: &Items<Entry>,
) -> Result<(), Memory>
    requires { first ≤ 2 ^ 62 }
    ensures { OnOk result
        (out.new.items ≡ out.old.items ++ block_text first derates.now entries.now) }
{
    let text = block_text(alloc, first, derates, entries)?;
    push(out, text.as_slice())
}

/// The rows of a session behind their first line, by the session's number.
fn push_session(
    out: &mut Vec<u8>,
    clocks: &[Clock],
    number: u64,
    transcript: &Transcript,
) -> Result<(), Memory>
    ensures { OnOk result
        (out.new.items ≡ out.old.items ++ session_text clocks.now number transcript.now) }
{
    let rows = transcript.rows.as_slice();
    push_count(out, b"session", number)?;
    push_count(out, b" rows", rows.len() as u64)?;
    push_end(out)?;
    push_rows(out, clocks, rows)
}

/// The sessions with their numbers, from 1 on.
#[tactic(auto, using(std::proofs::lemmas::List::drop_more))]
fn push_sessions(
    out: &mut Vec<u8>,
    clocks: &[Clock],
    transcripts: &[Transcript],
) -> Result<(), Memory>
    ensures { OnOk result
        (out.new.items ≡ out.old.items ++ sessions_text clocks.now 1 transcripts.now) }
{
    let mut number = 0;
    for transcript in transcripts {
        number += 1;
        push_session(out, clocks, number, transcript)?;
    }
    Ok(())
}

/// The worst slack and the total negative slack of a kind, behind its word.
fn push_totals(out: &mut Vec<u8>, kind: &[u8], wns: Option<Fs>, tns: Fs) -> Result<(), Memory>
    ensures { OnOk result
        (out.new.items
        ≡ out.old.items ++ (kind.now ++ word (time_text wns) ++ word (ps_text tns.0))) }
{
    push(out, kind)?;
    push_time(out, wns)?;
    push_ps(out, tns)
}

fn push_final(out: &mut Vec<u8>, totals: &Totals) -> Result<(), Memory>
    ensures { OnOk result (out.new.items ≡ out.old.items ++ final_text totals.now) }
{
    push_count(out, b"final", totals.number)?;
    push_totals(out, b" setup", totals.setup_wns, totals.setup_tns)?;
    push_totals(out, b" hold", totals.hold_wns, totals.hold_tns)?;
    push_end(out)
}

/// The bytes of a journal: `journal 1 COUNT`, and each entry with its number, from 1 on. Entries
/// that a journal can hold (sessions from 1 to 16, and 1 to 1,000 edits each, of words and of
/// numbers in their ranges) are read back from these bytes.
///
/// # Errors
///
/// Want of memory alone.
#[tactic(auto, using(eco_journal::proofs::JournalBack::journal_back))]
pub fn journal_bytes(alloc: Global, entries: &Items<Entry>) -> Result<Vec<u8>, Memory>
    ensures text { IfOk result (λ bytes. bytes.items ≡ journal_text entries.now) }
    ensures read { AreEntries entries.now
        → IfOk result (λ bytes. entries_of bytes.items ≡ Ok entries.now) }
{
    let mut out = Vec::new(alloc);
    push_journal(alloc, &mut out, entries.as_slice())?;
    Ok(out)
}

/// The bytes of the whole output: the journal, the rows of each session, from session 1 on, and the
/// totals. `clocks` are those that launch and capture edges name by their places, from 0.
///
/// # Errors
///
/// Want of memory alone.
pub fn output_bytes(
    alloc: Global,
    entries: &Items<Entry>,
    transcripts: &Items<Transcript>,
    clocks: &Items<Clock>,
    totals: &Totals,
) -> Result<Vec<u8>, Memory>
    ensures { IfOk result
        (λ bytes. bytes.items ≡ output_text entries.now transcripts.now clocks.now totals.now) }
{
    let mut out = Vec::new(alloc);
    push_journal(alloc, &mut out, entries.as_slice())?;
    push_sessions(&mut out, clocks.as_slice(), transcripts.as_slice())?;
    push_final(&mut out, totals)?;
    Ok(out)
}

/// The bytes of the whole output of a run that goes on from a saved journal of `first` entries: its
/// own entries are one block, with the factors (in millionths) under which it ran. A user who
/// appends the block to the saved text has the journal of both.
///
/// # Errors
///
/// Want of memory alone.
pub fn output_saved_bytes(
    alloc: Global,
    first: u64,
    derates: &Derates,
    entries: &Items<Entry>,
    transcripts: &Items<Transcript>,
    clocks: &Items<Clock>,
    totals: &Totals,
) -> Result<Vec<u8>, Memory>
    requires { first ≤ 2 ^ 62 }
    ensures { IfOk result
        (λ bytes. bytes.items
        ≡ saved_output_text first derates.now entries.now transcripts.now clocks.now totals.now) }
{
    let mut out = Vec::new(alloc);
    push_block(alloc, &mut out, first, derates, entries)?;
    push_sessions(&mut out, clocks.as_slice(), transcripts.as_slice())?;
    push_final(&mut out, totals)?;
    Ok(out)
}

/// The bytes of the totals of a last version: `final COUNT setup W T hold W T`, the worst slack and the
/// total negative slack of both kinds. They end an output, and are the last line of one that was
/// written row by row.
///
/// # Errors
///
/// Want of memory alone.
pub fn final_bytes(alloc: Global, totals: &Totals) -> Result<Vec<u8>, Memory>
    ensures { IfOk result (λ bytes. bytes.items ≡ final_text totals.now) }
{
    let mut out = Vec::new(alloc);
    push_final(&mut out, totals)?;
    Ok(out)
}
