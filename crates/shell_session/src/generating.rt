//! A generated run: four sessions over a generated design, and the line that it writes.

ghost use Rattle.std.specs.Prelude.{◌≡◌, ◌≤◌, ◌%◌, [], length, IfOk};
ghost use Rattle.std.specs.Arc.{arc_value};
ghost use Rattle.std.specs.List.{All};
ghost use Rattle.shell_core.specs.Kept.{AreKept};
ghost use Rattle.shell_core.specs.Scripts.{IsScript};
ghost use Rattle.eco_analysis.specs.Soundness.{IsFaultless};
ghost use Rattle.shell_session.specs.Generating.{IsLineLeft, IsWholeLine, IsDocumentsLine, IsSummary};

use crate::answers::FIRST;
use crate::discards::{discard_fault, discard_saved, discard_scripts, leave_transcripts};
use crate::sessions::{Closed, run_sessions};
use design_link::link;
use generated_runs::{generated_documents, summary_line};
use netlist_store::Store;
use session_engine::Version;
use shell_core::Documents;
use sta_outside::Gate;
use sta_units::Memory;
use std::alloc::Global;
use std::sync::{Arc, Wait};
use std::thread::Threads;
use timing_defs::Script;

/// The workers of a generated run.
const WORKERS: u32 = 4;

/// The line of sessions that left a version, where an entry stands for each edit.
fn line_of(alloc: Global, last: &Version, gates: u32, edits: u32) -> Result<Vec<u8>, Memory>
    ensures { IfOk result (λ text. IsLineLeft last.now gates edits text.items) }
{
    if last.number() == edits as u64 {
        let totals = last.totals();
        summary_line(alloc, gates, edits, edits as u64, &totals)
    } else {
        Err(Memory)
    }
}

/// The line of sessions that ended.
fn closed_line(alloc: Global, closed: Closed, gates: u32, edits: u32) -> Result<Vec<u8>, Memory>
    ensures { IfOk result (λ text. IsLineLeft (arc_value closed.last) gates edits text.items) }
{
    let Closed { last, transcripts } = closed;
    let text = line_of(alloc, &last, gates, edits);
    Version::discard(last);
    leave_transcripts(transcripts);
    text
}

/// The line of scripts, from a first version on.
fn scripts_line<H: Threads + Wait + Sync, G: Gate>(
    rt: &H,
    alloc: Global,
    version: Arc<Version>,
    scripts: &[Script],
    gates: u32,
    edits: u32,
    gate: &G,
) -> Result<Vec<u8>, Memory>
    requires scripts { All IsScript scripts.now }
    requires count { (1 ≤ length scripts.now) × (length scripts.now ≤ 16) }
    requires first { (arc_value version).first ≡ 0 }
    requires begins { (arc_value version).journal ≡ [] }
    ensures line { IfOk result
        (λ text. IsWholeLine (arc_value version).origin scripts.now gates edits text.items) }
    ensures sound { IfOk result (λ text. IsFaultless (arc_value version).origin) }
{
    match run_sessions(rt, alloc, version, scripts, WORKERS, gate) {
        Ok(closed) => closed_line(alloc, closed, gates, edits),
        Err(Memory) => Err(Memory),
    }
}

/// The line of scripts over the store of a design.
fn store_line<H: Threads + Wait + Sync, G: Gate>(
    rt: &H,
    alloc: Global,
    store: Store,
    scripts: &[Script],
    gates: u32,
    edits: u32,
    gate: &G,
) -> Result<Vec<u8>, Memory>
    requires scripts { All IsScript scripts.now }
    requires count { (1 ≤ length scripts.now) × (length scripts.now ≤ 16) }
    ensures line { IfOk result
        (λ text. IsWholeLine store.design scripts.now gates edits text.items) }
    ensures sound { IfOk result (λ text. IsFaultless store.design) }
{
    match Version::first(rt, alloc, FIRST, store, WORKERS, gate) {
        Ok(version) => scripts_line(rt, alloc, version, scripts, gates, edits, gate),
        Err(fault) => {
            discard_fault(fault);
            Err(Memory)
        }
    }
}

/// The line of documents: they are linked, and their scripts run.
#[tactic(auto, using(crate::proofs::EndLemmas::linkable))]
fn documents_line<H: Threads + Wait + Sync, G: Gate>(
    rt: &H,
    alloc: Global,
    docs: Documents,
    gates: u32,
    edits: u32,
    gate: &G,
) -> Result<Vec<u8>, Memory>
    requires kept { AreKept docs }
    requires count { (1 ≤ length docs.scripts) × (length docs.scripts ≤ 16) }
    ensures { IfOk result (λ text. IsDocumentsLine docs gates edits text.items) }
{
    let Documents {
        early,
        late,
        netlist,
        sdc,
        spef,
        saved,
        scripts,
    } = docs;
    discard_saved(saved);
    match link(alloc, early, late, netlist, sdc, spef) {
        Ok(store) => {
            let line = store_line(rt, alloc, store, scripts.as_slice(), gates, edits, gate);
            discard_scripts(scripts);
            line
        }
        Err(fault) => {
            discard_scripts(scripts);
            discard_fault(fault);
            Err(Memory)
        }
    }
}

/// The line of a generated run: its documents are made and linked, four sessions resize gates beside each other, and the totals
/// of the design that they leave are printed.
///
/// The gates are a multiple of 4 from 4 to 40,000, and the edits one from 0 to 4,000.
///
/// # Errors
///
/// Want of memory, and where the design or an edit of a script was refused.
pub(crate) fn generated_line<H: Threads + Wait + Sync, G: Gate>(
    rt: &H,
    alloc: Global,
    start: u64,
    gates: u32,
    edits: u32,
    gate: &G,
) -> Result<Vec<u8>, Memory>
    requires gates { (4 ≤ gates) × (gates ≤ 40000) × (gates % 4 ≡ 0) }
    requires edits { (edits ≤ 4000) × (edits % 4 ≡ 0) }
    ensures { IfOk result (λ text. IsSummary start gates edits text.items) }
{
    match generated_documents(alloc, start, gates, edits) {
        Ok(docs) => documents_line(rt, alloc, docs, gates, edits, gate),
        Err(Memory) => Err(Memory),
    }
}
