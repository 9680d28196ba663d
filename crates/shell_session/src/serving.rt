//! The top call: one run of the server.

ghost use Rattle.std.specs.Prelude.{◌≡◌, ◌≤◌, ◌%◌, length, map, IfOk};
ghost use Rattle.std.specs.String.{string_bytes};
ghost use Rattle.command_words.specs.Asked.{run_words};
ghost use Rattle.command_words.specs.Command.{words_of};
ghost use Rattle.shell_core.specs.Documents.{words_line};
ghost use Rattle.shell_session.specs.Generating.{IsSummary};
ghost use Rattle.shell_session.specs.Serving.{RunEnds, Ends, Written, NothingRefuses, IsAnswered};

use crate::answers::end_of;
use crate::discards::discard_run;
use crate::generating::generated_line;
use command_words::{Asked, Generate, Run, read_words};
use shell_core::{End, Stop, name_of, read_all, refusal_line, shelf_line, words_line};
use sta_outside::{Gate, Shelf, Sink};
use sta_units::Memory;
use std::alloc::Global;
use std::sync::Wait;
use std::thread::Threads;

/// How the server ended: 0 where all rows are answers, 1 where some row is refused, no or not yet, 2 where
/// the words are no command, 3 where a document, the saved journal or the design has a fault, or a saved
/// entry is refused, 4 where the shelf did not give a document, 5 where the sink failed, 6 for want of
/// memory. A generated run ends with 0, 5 or 6, and with 6 also where its design or an edit of it was
/// refused.
pub type Status = u8;

/// How a run ends, by its words.
#[tactic(auto, using(crate::proofs::EndLemmas::run_read, crate::proofs::EndLemmas::run_refused, crate::proofs::EndLemmas::run_missing))]
fn run_end<H: Threads + Wait + Sync, S: Shelf, G: Gate>(
    rt: &H,
    alloc: Global,
    shelf: &mut S,
    run: &Run<'_>,
    gate: &G,
) -> Result<End, Memory>
    requires some { 1 ≤ run.now.workers }
    requires most { run.now.workers ≤ 32 }
    requires count { (1 ≤ length run.now.scripts.items) × (length run.now.scripts.items ≤ 16) }
    ensures ends { IfOk result
        (λ end. RunEnds (S.holds shelf.old) (S.faults shelf.old) (S.faults shelf.new)
        (run_words run.now) end.status end.text.items) }
    ensures kept { S.holds shelf.new ≡ S.holds shelf.old }
    ensures rising { S.faults shelf.old ≤ S.faults shelf.new }
    ensures count { IfOk result (λ end. end.status ≤ 3 → S.faults shelf.new ≡ S.faults shelf.old) }
    ensures status { IfOk result (λ end. end.status ≤ 4) }
{
    match read_all(alloc, shelf, run) {
        Ok(docs) => {
            let end = end_of(rt, alloc, docs, run.workers, gate)?;
            Ok(end)
        }
        Err(Stop::Memory) => Err(Memory),
        Err(Stop::Refused(role, code, place)) => {
            let text = refusal_line(alloc, role, code, place)?;
            Ok(End { status: 3, text })
        }
        Err(Stop::Missing(role, how)) => {
            let text = shelf_line(alloc, name_of(run, role), how)?;
            Ok(End { status: 4, text })
        }
    }
}

/// How a generated run ends.
fn generated_end<H: Threads + Wait + Sync, G: Gate>(
    rt: &H,
    alloc: Global,
    asked: Generate,
    gate: &G,
) -> Result<End, Memory>
    requires gates { (4 ≤ asked.gates) × (asked.gates ≤ 40000) × (asked.gates % 4 ≡ 0) }
    requires edits { (asked.edits ≤ 4000) × (asked.edits % 4 ≡ 0) }
    ensures ends { IfOk result
        (λ end. IsSummary asked.number asked.gates asked.edits end.text.items) }
    ensures status { IfOk result (λ end. end.status ≡ 0) }
{
    match generated_line(rt, alloc, asked.number, asked.gates, asked.edits, gate) {
        Ok(text) => Ok(End { status: 0, text }),
        Err(Memory) => Err(Memory),
    }
}

/// How the server ends that is given no command.
fn unasked_end(alloc: Global) -> Result<End, Memory>
    ensures { IfOk result (λ end. (end.status ≡ 2) × (end.text.items ≡ words_line)) }
{
    let text = words_line(alloc)?;
    Ok(End { status: 2, text })
}

/// How the server ends, by its words, and what it is to write.
#[tactic(auto, using(crate::proofs::EndLemmas::ends_run, crate::proofs::EndLemmas::ends_generated, crate::proofs::EndLemmas::ends_unasked))]
fn ending<H: Threads + Wait + Sync, S: Shelf, G: Gate>(
    rt: &H,
    alloc: Global,
    words: &[String],
    shelf: &mut S,
    gate: &G,
) -> Result<End, Memory>
    ensures ends { IfOk result
        (λ end. Ends (S.holds shelf.old) (S.faults shelf.old) (S.faults shelf.new)
        (words_of (map string_bytes words.now)) end.status end.text.items) }
    ensures kept { S.holds shelf.new ≡ S.holds shelf.old }
    ensures rising { S.faults shelf.old ≤ S.faults shelf.new }
    ensures count { IfOk result (λ end. end.status ≤ 3 → S.faults shelf.new ≡ S.faults shelf.old) }
    ensures status { IfOk result (λ end. end.status ≤ 4) }
{
    match read_words(alloc, words)? {
        None => unasked_end(alloc),
        Some(Asked::Run(run)) => {
            let end = run_end(rt, alloc, shelf, &run, gate);
            discard_run(run);
            end
        }
        Some(Asked::Generate(asked)) => generated_end(rt, alloc, asked, gate),
    }
}

/// Runs the server once, by its words.
#[tactic(auto, using(crate::proofs::EndLemmas::written_whole, crate::proofs::EndLemmas::written_partly, crate::proofs::EndLemmas::written_nothing))]
fn written<H: Threads + Wait + Sync, S: Shelf, K: Sink, G: Gate>(
    rt: &H,
    alloc: Global,
    words: &[String],
    shelf: &mut S,
    out: &mut K,
    gate: &G,
) -> Status
    ensures ends { Written (K.written out.old) (K.written out.new) (K.faults out.old)
        (K.faults out.new) (S.holds shelf.old) (S.faults shelf.old) (S.faults shelf.new)
        (words_of (map string_bytes words.now)) result }
    ensures kept { S.holds shelf.new ≡ S.holds shelf.old }
    ensures rising { S.faults shelf.old ≤ S.faults shelf.new }
    ensures shelf_count { result ≤ 3 → S.faults shelf.new ≡ S.faults shelf.old }
{
    match ending(rt, alloc, words, shelf, gate) {
        Err(Memory) => 6,
        Ok(end) => match out.put(end.text.as_slice()) {
            Ok(()) => end.status,
            Err(_) => 5,
        },
    }
}

/// Runs the server once. The words after the program's name ask for a run of documents and 1 to 16
/// scripts, which are fetched from the shelf and read, or for a generated run, whose documents and four
/// scripts are made, and which writes one line of totals. Where the words name a saved journal, its entries
/// come before those of the run. A session for each script answers it over the design of the documents, all
/// beside each other: each question by the full analysis of the design after the entries of the journal that
/// its session had seen, each ECO by one entry or its fault. What the run writes is put into the sink in one
/// piece. Takes the work of its readers, of one full analysis for the first version, of one analysis for each
/// saved entry and each ECO that is prepared, and of its questions. It waits for turns of its sessions.
pub fn serve<H: Threads + Wait + Sync, S: Shelf, K: Sink, G: Gate>(
    rt: &H,
    alloc: Global,
    words: &[String],
    shelf: &mut S,
    out: &mut K,
    gate: &G,
) -> Status
    ensures ends { Written (K.written out.old) (K.written out.new) (K.faults out.old)
        (K.faults out.new) (S.holds shelf.old) (S.faults shelf.old) (S.faults shelf.new)
        (words_of (map string_bytes words.now)) result }
    ensures kept { S.holds shelf.new ≡ S.holds shelf.old }
    ensures rising { S.faults shelf.old ≤ S.faults shelf.new }
    ensures shelf_count { result ≤ 3 → S.faults shelf.new ≡ S.faults shelf.old }
    ensures completeness { NothingRefuses (S.holds shelf.old) (S.faults shelf.old)
        (S.faults shelf.new) (K.faults out.old) (K.faults out.new)
        (words_of (map string_bytes words.now))
        → IsAnswered (words_of (map string_bytes words.now)) result }
{
    written(rt, alloc, words, shelf, out, gate)
}
