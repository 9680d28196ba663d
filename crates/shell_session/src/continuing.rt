//! The end of a run that goes on where a saved journal stopped.

ghost use Rattle.std.specs.Prelude.{◌≡◌, ◌≤◌, [], length, Some, IfOk};
ghost use Rattle.std.specs.Arc.{arc_value};
ghost use Rattle.std.specs.List.{All};
ghost use Rattle.shell_core.specs.Kept.{AreReplayable};
ghost use Rattle.shell_core.specs.Scripts.{IsScript};
ghost use Rattle.shell_session.specs.Serving.{IsSavedOutputOf, AreSavedEnded, IsContinued, IsReplayLine, SavedEnds};

use crate::answers::refused_end;
use crate::discards::{discard_entries, discard_fault, leave_transcripts, leave_version};
use crate::sessions::{Closed, run_sessions};
use netlist_store::Store;
use report_text::output_saved_bytes;
use session_engine::{ReplayFault, Version, replay};
use shell_core::{End, entry_end, status};
use sta_outside::Gate;
use sta_units::Memory;
use std::alloc::Global;
use std::sync::{Arc, Wait};
use std::thread::Threads;
use timing_defs::{Entry, Items, Script, Transcript};
use version_board::Stands;

/// The output of sessions that left a version and their transcripts: their journal is one block behind the
/// saved entries.
fn saved_output(
    alloc: Global,
    last: &Version,
    transcripts: &Items<Transcript>,
) -> Result<Vec<u8>, Memory>
    ensures { IfOk result (λ text. IsSavedOutputOf last.now transcripts.now text.items) }
{
    last.laws();
    match last.entries(alloc) {
        Ok(entries) => {
            let constraints = last.store().constraints();
            let text = output_saved_bytes(
                alloc,
                last.first(),
                &constraints.derates,
                &entries,
                transcripts,
                &constraints.clocks,
                &last.totals(),
            );
            discard_entries(entries);
            text
        }
        Err(Memory) => Err(Memory),
    }
}

/// The end of sessions that have answered their scripts.
fn sessions_end(alloc: Global, closed: Closed) -> Result<End, Memory>
    ensures ends { IfOk result
        (λ end. AreSavedEnded (arc_value closed.last) closed.transcripts end.status
        end.text.items) }
    ensures low { IfOk result (λ end. end.status ≤ 3) }
{
    let Closed { last, transcripts } = closed;
    last.store().laws();
    let status = status(transcripts.as_slice());
    let text = saved_output(alloc, &last, &transcripts);
    leave_version(last);
    leave_transcripts(transcripts);
    match text {
        Ok(text) => Ok(End { status, text }),
        Err(Memory) => Err(Memory),
    }
}

/// The end of a run of scripts, from the version behind all saved entries on.
fn continued_end<H: Threads + Wait + Sync, G: Gate>(
    rt: &H,
    alloc: Global,
    version: Arc<Version>,
    scripts: &[Script],
    workers: u32,
    gate: &G,
) -> Result<End, Memory>
    requires some { 1 ≤ workers }
    requires most { workers ≤ 32 }
    requires scripts { All IsScript scripts.now }
    requires count { (1 ≤ length scripts.now) × (length scripts.now ≤ 16) }
    requires begins { (arc_value version).journal ≡ [] }
    ensures answer { IfOk result
        (λ end. IsContinued (arc_value version).origin (arc_value version).first scripts.now
        end.status end.text.items) }
    ensures low { IfOk result (λ end. end.status ≤ 3) }
{
    match run_sessions(rt, alloc, version, scripts, workers, gate) {
        Ok(closed) => sessions_end(alloc, closed),
        Err(Memory) => Err(Memory),
    }
}

/// The end of a run that is stopped by a fault of its design or by a saved entry.
fn replay_end(alloc: Global, fault: ReplayFault) -> Result<End, Memory>
    ensures { IfOk result (λ end. (end.status ≡ 3) × IsReplayLine fault end.text.items) }
{
    match fault {
        ReplayFault::First(fault) => refused_end(alloc, fault),
        ReplayFault::Refused { entry, fault } => {
            let end = entry_end(alloc, entry, &fault);
            discard_fault(fault);
            end
        }
        ReplayFault::Memory => Err(Memory),
    }
}

/// The end of a run over the store of its design, behind saved entries.
pub(crate) fn saved_end<H: Threads + Wait + Sync, G: Gate>(
    rt: &H,
    alloc: Global,
    store: Store,
    saved: &Items<Entry>,
    scripts: &[Script],
    workers: u32,
    gate: &G,
) -> Result<End, Memory>
    requires some { 1 ≤ workers }
    requires most { workers ≤ 32 }
    requires scripts { All IsScript scripts.now }
    requires count { (1 ≤ length scripts.now) × (length scripts.now ≤ 16) }
    requires saved { AreReplayable (Some saved.now) }
    ensures ends { IfOk result
        (λ end. SavedEnds store.design saved.now scripts.now end.status end.text.items) }
    ensures low { IfOk result (λ end. end.status ≤ 3) }
{
    match replay(rt, alloc, store, saved, workers, gate) {
        Ok(version) => continued_end(rt, alloc, version, scripts, workers, gate),
        Err(fault) => replay_end(alloc, fault),
    }
}
