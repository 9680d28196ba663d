//! The end of a run whose documents were read.

ghost use Rattle.std.specs.Prelude.{◌≡◌, ◌≤◌, [], false, length, IfOk};
ghost use Rattle.std.specs.Arc.{arc_value};
ghost use Rattle.std.specs.List.{All};
ghost use Rattle.shell_core.specs.Kept.{AreReplayable, AreKept};
ghost use Rattle.shell_core.specs.Scripts.{IsScript};
ghost use Rattle.shell_core.specs.Answers.{is_wanting};
ghost use Rattle.shell_core.specs.Documents.{design_line};
ghost use Rattle.shell_session.specs.Serving.{IsOutputOf, AreEnded, DesignEnds, BegunEnds, DocumentsEnd};

use crate::continuing::saved_end;
use crate::discards::{
    discard_entries, discard_fault, discard_saved, discard_scripts, leave_transcripts,
    leave_version,
};
use crate::sessions::{Closed, run_sessions};
use design_link::link;
use netlist_store::Store;
use report_text::output_bytes;
use session_engine::Version;
use shell_core::{Documents, End, fault_end, status};
use sta_outside::Gate;
use sta_units::Memory;
use std::alloc::Global;
use std::sync::{Arc, Wait};
use std::thread::Threads;
use timing_defs::{Entry, Fault, Items, Script, Transcript};

/// The number of the first version.
pub(crate) const FIRST: u64 = 0;

/// The output of sessions that left a version and their transcripts.
fn output(alloc: Global, last: &Version, transcripts: &Items<Transcript>) -> Result<Vec<u8>, Memory>
    ensures { IfOk result (λ text. IsOutputOf last.now transcripts.now text.items) }
{
    match last.entries(alloc) {
        Ok(entries) => {
            let totals = last.totals();
            let clocks = &last.store().constraints().clocks;
            let text = output_bytes(alloc, &entries, transcripts, clocks, &totals);
            discard_entries(entries);
            text
        }
        Err(Memory) => Err(Memory),
    }
}

/// The end of sessions that have answered their scripts.
fn sessions_end(alloc: Global, closed: Closed) -> Result<End, Memory>
    ensures ends { IfOk result
        (λ end. AreEnded (arc_value closed.last) closed.transcripts end.status end.text.items) }
    ensures low { IfOk result (λ end. end.status ≤ 3) }
{
    let Closed { last, transcripts } = closed;
    let status = status(transcripts.as_slice());
    let text = output(alloc, &last, &transcripts);
    leave_version(last);
    leave_transcripts(transcripts);
    match text {
        Ok(text) => Ok(End { status, text }),
        Err(Memory) => Err(Memory),
    }
}

/// The end of a run of scripts, from a first version on.
fn scripts_end<H: Threads + Wait + Sync, G: Gate>(
    rt: &H,
    alloc: Global,
    version: Arc<Version>,
    scripts: &[Script],
    workers: u32,
    gate: &G,
) -> Result<End, Memory>
    requires some { 1 ≤ workers }
    requires most { workers ≤ 32 }
    requires scripts { All IsScript scripts.now }
    requires count { (1 ≤ length scripts.now) × (length scripts.now ≤ 16) }
    requires first { (arc_value version).first ≡ 0 }
    requires begins { (arc_value version).journal ≡ [] }
    ensures answer { IfOk result
        (λ end. DesignEnds (arc_value version).origin scripts.now end.status end.text.items) }
    ensures low { IfOk result (λ end. end.status ≤ 3) }
{
    match run_sessions(rt, alloc, version, scripts, workers, gate) {
        Ok(closed) => sessions_end(alloc, closed),
        Err(Memory) => Err(Memory),
    }
}

/// The end of a run that a fault of its documents or its design stops.
pub(crate) fn refused_end(alloc: Global, fault: Fault) -> Result<End, Memory>
    ensures { IfOk result
        (λ end. (is_wanting fault ≡ false) × (end.status ≡ 3)
        × (end.text.items ≡ design_line fault)) }
{
    let end = fault_end(alloc, &fault);
    discard_fault(fault);
    end
}

/// The end of a run over the store of its design.
fn store_end<H: Threads + Wait + Sync, G: Gate>(
    rt: &H,
    alloc: Global,
    store: Store,
    scripts: &[Script],
    workers: u32,
    gate: &G,
) -> Result<End, Memory>
    requires some { 1 ≤ workers }
    requires most { workers ≤ 32 }
    requires scripts { All IsScript scripts.now }
    requires count { (1 ≤ length scripts.now) × (length scripts.now ≤ 16) }
    ensures ends { IfOk result
        (λ end. DesignEnds store.design scripts.now end.status end.text.items) }
    ensures low { IfOk result (λ end. end.status ≤ 3) }
{
    match Version::first(rt, alloc, FIRST, store, workers, gate) {
        Ok(version) => scripts_end(rt, alloc, version, scripts, workers, gate),
        Err(fault) => refused_end(alloc, fault),
    }
}

/// The end of a run over the store of its design, behind saved entries where it goes on from some.
fn begun_end<H: Threads + Wait + Sync, G: Gate>(
    rt: &H,
    alloc: Global,
    store: Store,
    saved: &Option<Items<Entry>>,
    scripts: &[Script],
    workers: u32,
    gate: &G,
) -> Result<End, Memory>
    requires some { 1 ≤ workers }
    requires most { workers ≤ 32 }
    requires scripts { All IsScript scripts.now }
    requires count { (1 ≤ length scripts.now) × (length scripts.now ≤ 16) }
    requires saved { AreReplayable saved.now }
    ensures ends { IfOk result
        (λ end. BegunEnds store.design saved.now scripts.now end.status end.text.items) }
    ensures low { IfOk result (λ end. end.status ≤ 3) }
{
    match saved {
        None => store_end(rt, alloc, store, scripts, workers, gate),
        Some(saved) => saved_end(rt, alloc, store, saved, scripts, workers, gate),
    }
}

/// The end of a run whose documents were read: they are linked, and the scripts are answered over their
/// design.
#[tactic(auto, using(crate::proofs::EndLemmas::linkable, crate::proofs::EndLemmas::documents_refused, crate::proofs::EndLemmas::documents_linked))]
pub(crate) fn end_of<H: Threads + Wait + Sync, G: Gate>(
    rt: &H,
    alloc: Global,
    docs: Documents,
    workers: u32,
    gate: &G,
) -> Result<End, Memory>
    requires some { 1 ≤ workers }
    requires most { workers ≤ 32 }
    requires kept { AreKept docs }
    requires count { (1 ≤ length docs.scripts) × (length docs.scripts ≤ 16) }
    ensures ends { IfOk result (λ end. DocumentsEnd docs end.status end.text.items) }
    ensures low { IfOk result (λ end. end.status ≤ 3) }
{
    let Documents {
        early,
        late,
        netlist,
        sdc,
        spef,
        saved,
        scripts,
    } = docs;
    match link(alloc, early, late, netlist, sdc, spef) {
        Ok(store) => {
            let end = begun_end(rt, alloc, store, &saved, scripts.as_slice(), workers, gate);
            discard_saved(saved);
            discard_scripts(scripts);
            end
        }
        Err(fault) => {
            discard_saved(saved);
            discard_scripts(scripts);
            refused_end(alloc, fault)
        }
    }
}
