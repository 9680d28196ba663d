//! The version with which a live run begins, or the refusal of its documents.

ghost use Rattle.std.specs.Prelude.{◌≡◌, ◌≤◌, ℕ, IfOk, IfErr, MatchResult};
ghost use Rattle.std.specs.Arc.{arc_value};
ghost use Rattle.command_words.specs.Asked.{run_words};
ghost use Rattle.live_words.specs.Asked.{asked_words};
ghost use Rattle.shell_core.specs.Documents.{Docs};
ghost use Rattle.shell_core.specs.Designs.{IsReadDesign};
ghost use Rattle.shell_core.specs.Kept.{AreReplayable, IsKeptDesign};
ghost use Rattle.begun_version.specs.declared.beginning.Unbegun.TheVariants as cause;
ghost use Rattle.live_server.specs.Serving.{documents_of};
ghost use Rattle.live_server.specs.Beginnings.{StartsRun, IsUnheld, TellsStop, TellsText, AreWholeEntries, WholeStops};

use begun_version::{Unbegun, begun_version};
use command_words::Run;
use live_journal::check_end;
use live_words::LiveWords;
use session_engine::Version;
use shell_core::{
    End, ReadDesign, Role, Stop, name_of, read_design, refusal_line, saved_entries, shelf_line,
};
use sta_outside::{Gate, Shelf};
use sta_units::Memory;
use std::alloc::Global;
use std::sync::Arc;
use std::thread::Threads;
use timing_defs::{Derates, Entry, Items, ReadFault};

/// The documents that the words name, as those of a run without scripts.
pub(crate) fn run_of<'a>(alloc: Global, asked: &LiveWords<'a>) -> Run<'a>
    ensures words { run_words result ≡ documents_of (asked_words asked.now) }
    ensures workers { result.workers ≡ asked.now.workers }
{
    Run {
        early: asked.early,
        late: asked.late,
        netlist: asked.netlist,
        sdc: asked.sdc,
        spef: asked.spef,
        journal: asked.journal,
        workers: asked.workers,
        scripts: Vec::new(alloc),
    }
}

/// The refusal of a run with a status and a line, where memory was there for it.
fn told(status: u8, text: Result<Vec<u8>, Memory>) -> Unbegun
    ensures line { IfOk text (λ t. TellsText status t.items result) }
    ensures wanting { IfErr text (λ e. result ≡ cause.Memory) }
{
    match text {
        Ok(text) => Unbegun::Refused(End { status, text }),
        Err(Memory) => Unbegun::Memory,
    }
}

/// The refusal of a run whose documents were not read.
fn stopped(alloc: Global, run: &Run<'_>, stop: Stop) -> Unbegun
    ensures { TellsStop (run_words run.now) stop result }
{
    match stop {
        Stop::Memory => Unbegun::Memory,
        Stop::Refused(role, code, place) => told(3, refusal_line(alloc, role, code, place)),
        Stop::Missing(role, how) => told(4, shelf_line(alloc, name_of(run, role), how)),
    }
}

/// The saved entries of a journal behind which more can be put; none where there is no journal.
#[tactic(auto, using(crate::proofs::BeginLaws::entries_whole, crate::proofs::BeginLaws::stops_whole))]
fn saved_whole(
    alloc: Global,
    journal: &Option<Items<u8>>,
    derates: &Derates,
) -> Result<Option<Items<Entry>>, Stop>
    ensures value { IfOk result (AreWholeEntries derates.now journal.now) }
    ensures kept { IfOk result AreReplayable }
    ensures stop { IfErr result (WholeStops derates.now journal.now) }
{
    match journal {
        None => Ok(None),
        Some(text) => match check_end(text.as_slice()) {
            Ok(()) => saved_entries(alloc, journal, derates),
            Err(ReadFault::At { code, offset }) => Err(Stop::Refused(Role::Journal, code, offset)),
            Err(ReadFault::Memory) => Err(Stop::Memory),
        },
    }
}

/// The version with which a run over documents begins, behind the text of a saved journal.
fn begun_of<H: Threads + Sync, G: Gate>(
    rt: &H,
    alloc: Global,
    run: &Run<'_>,
    read: ReadDesign,
    gate: &G,
) -> Result<Arc<Version>, Unbegun>
    requires least { 1 ≤ run.now.workers }
    requires most { run.now.workers ≤ 32 }
    requires kept { IsKeptDesign read.design }
    ensures { (holds : Docs) (f f' : ℕ) → IsReadDesign holds (run_words run.now) read → f' ≡ f
        → MatchResult result (λ v. StartsRun holds (run_words run.now) (arc_value v))
        (IsUnheld holds (run_words run.now) f f') }
{
    let ReadDesign { design, journal } = read;
    let saved = saved_whole(alloc, &journal, &design.sdc.derates);
    drop(journal);
    match saved {
        Ok(saved) => {
            let begun = begun_version(rt, alloc, design, &saved, run.workers, gate);
            drop(saved);
            begun
        }
        Err(stop) => {
            design.discard();
            Err(stopped(alloc, run, stop))
        }
    }
}

/// The version with which a run begins whose documents are on a shelf.
#[tactic(auto, using(crate::proofs::BeginLaws::unread))]
pub(crate) fn read_begun<H: Threads + Sync, S: Shelf, G: Gate>(
    rt: &H,
    alloc: Global,
    shelf: &mut S,
    run: &Run<'_>,
    gate: &G,
) -> Result<Arc<Version>, Unbegun>
    requires least { 1 ≤ run.now.workers }
    requires most { run.now.workers ≤ 32 }
    ensures map { S.holds shelf.new ≡ S.holds shelf.old }
    ensures rising { S.faults shelf.old ≤ S.faults shelf.new }
    ensures begun { IfOk result
        (λ v. StartsRun (S.holds shelf.old) (run_words run.now) (arc_value v)) }
    ensures refused { IfErr result
        (IsUnheld (S.holds shelf.old) (run_words run.now) (S.faults shelf.old)
        (S.faults shelf.new)) }
{
    match read_design(alloc, shelf, run) {
        Ok(read) => begun_of(rt, alloc, run, read, gate),
        Err(stop) => Err(stopped(alloc, run, stop)),
    }
}
