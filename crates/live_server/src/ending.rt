//! The end of a live run: its sessions are held, and the line of the totals is put behind them.

ghost use Rattle.std.specs.Prelude.{◌≡◌, ◌≤◌, ℕ, max, [], true, is_some};
ghost use Rattle.std.specs.Arc.{arc_value};
ghost use Rattle.shell_core.specs.Documents.{Docs};
ghost use Rattle.live_words.specs.Asked.{IsInRange, asked_words};
ghost use Rattle.live_session.specs.Talks.{door_of};
ghost use Rattle.live_run.specs.Runs.{file_of};
ghost use Rattle.live_server.specs.Statuses.{sessions_status, kept_status};
ghost use Rattle.live_server.specs.Serving.{documents_of, out_at, sessions_asked, TellsLine, LiveEnds};
ghost use Rattle.live_server.specs.Beginnings.{StartsRun};
ghost use Rattle.live_server.specs.Endings.{TellsTotals, LeavesLine};

use crate::serving::{LiveLeft, Status, Surroundings};
use crate::statuses::{greater, kept_status, sessions_status};
use live_doors::{Door, Hall};
use live_run::{LiveClosed, LivePlan, run_live};
use live_words::LiveWords;
use report_text::final_bytes;
use session_engine::Version;
use sta_outside::{Gate, Sink};
use sta_units::Memory;
use std::alloc::Global;
use std::sync::{Arc, Wait};
use std::thread::Threads;

/// Puts a line; the status is the one that is meant, or at least 5 where the sink failed.
pub(crate) fn tell<K: Sink>(out: &mut K, line: &[u8], meant: Status) -> Status
    ensures { TellsLine (out_at (K.written out.old) (K.faults out.old))
        (out_at (K.written out.new) (K.faults out.new)) line.now meant result }
{
    match out.put(line) {
        Ok(()) => meant,
        Err(_) => greater(meant, 5),
    }
}

/// Puts the line of the totals of a last version.
fn tell_final<K: Sink>(alloc: Global, last: &Version, out: &mut K, meant: Status) -> Status
    ensures { TellsTotals last.now (out_at (K.written out.old) (K.faults out.old))
        (out_at (K.written out.new) (K.faults out.new)) meant result }
{
    match final_bytes(alloc, &last.totals()) {
        Ok(line) => tell(out, &line, meant),
        Err(Memory) => greater(meant, 6),
    }
}

/// What sessions leave that were held.
#[tactic(auto, using(crate::proofs::EndLaws::line_left))]
fn left<D: Drop, F: Drop, K: Sink>(
    alloc: Global,
    closed: LiveClosed<D, F>,
    out: &mut K,
) -> LiveLeft<D, F>
    ensures sessions { result.sessions.items ≡ closed.sessions.items }
    ensures journal { result.journal ≡ closed.journal }
    ensures told { LeavesLine (arc_value closed.last)
        (out_at (K.written out.old) (K.faults out.old))
        (out_at (K.written out.new) (K.faults out.new))
        (max (sessions_status closed.sessions.items) (kept_status closed.kept)) result.status }
{
    let LiveClosed {
        last,
        sessions,
        journal,
        kept,
    } = closed;
    last.laws();
    let meant = greater(sessions_status(sessions.as_slice()), kept_status(kept));
    let status = tell_final(alloc, &last, out, meant);
    Version::discard(last);
    LiveLeft {
        status,
        sessions,
        journal,
    }
}

/// What a run leaves whose sessions were not held, with its status.
pub(crate) fn unheld<D, F>(alloc: Global, journal: Option<F>, status: Status) -> LiveLeft<D, F>
    ensures status { result.status ≡ status }
    ensures sessions { result.sessions.items ≡ [] }
    ensures journal { result.journal ≡ journal }
{
    LiveLeft {
        status,
        sessions: Vec::new(alloc),
        journal,
    }
}

/// How many sessions words ask for: one for each pair, and one without a pair.
fn sessions_of(asked: &LiveWords<'_>) -> u32
    requires { IsInRange asked.now }
    ensures many { result ≡ sessions_asked (asked_words asked.now) }
    ensures least { 1 ≤ result }
    ensures most { result ≤ 16 }
{
    let pairs = asked.pairs.len() as u32;
    if pairs == 0 { 1 } else { pairs }
}

/// The end of a run whose sessions are held, where memory is there to begin with them.
fn held<
    D: Door + Send + Drop,
    N: Hall<D> + Sync,
    H: Threads + Wait + Sync,
    F: Sink + Send + Drop,
    K: Sink,
    G: Gate,
>(
    rt: &H,
    alloc: Global,
    version: Arc<Version>,
    asked: &LiveWords<'_>,
    journal: Option<F>,
    out: &mut K,
    around: &Surroundings<'_, N, G>,
) -> LiveLeft<D, F>
    requires asked { IsInRange asked.now }
    requires named { is_some (asked_words asked.now).journal ≡ is_some journal }
    requires begins { (arc_value version).journal ≡ [] }
    ensures ends { (holds : Docs) (f f' : ℕ)
        → StartsRun holds (documents_of (asked_words asked.now)) (arc_value version)
        → LiveEnds (door_of D.left D.trace D.faults) (N.lines around.now.hall.now)
        (N.denies around.now.hall.now) (is_some journal) (sessions_asked (asked_words asked.now))
        holds f f' (documents_of (asked_words asked.now)) (file_of F.written F.faults journal)
        (file_of F.written F.faults result.journal) (out_at (K.written out.old) (K.faults out.old))
        (out_at (K.written out.new) (K.faults out.new)) result.sessions.items result.status }
{
    let plan = LivePlan {
        hall: around.hall,
        sessions: sessions_of(asked),
        workers: asked.workers,
        gate: around.gate,
    };
    match run_live(rt, alloc, version, journal, &plan) {
        Ok(closed) => left(alloc, closed, out),
        Err(journal) => unheld(alloc, journal, 6),
    }
}

/// The end of a run that begins with a version: its journal is named and not there to be written, or else its sessions are held.
pub(crate) fn held_end<
    D: Door + Send + Drop,
    N: Hall<D> + Sync,
    H: Threads + Wait + Sync,
    F: Sink + Send + Drop,
    K: Sink,
    G: Gate,
>(
    rt: &H,
    alloc: Global,
    version: Arc<Version>,
    asked: &LiveWords<'_>,
    journal: Option<F>,
    out: &mut K,
    around: &Surroundings<'_, N, G>,
) -> LiveLeft<D, F>
    requires asked { IsInRange asked.now }
    requires named { is_some journal ≡ true → is_some (asked_words asked.now).journal ≡ true }
    requires begins { (arc_value version).journal ≡ [] }
    ensures ends { (holds : Docs) (f f' : ℕ)
        → StartsRun holds (documents_of (asked_words asked.now)) (arc_value version)
        → LiveEnds (door_of D.left D.trace D.faults) (N.lines around.now.hall.now)
        (N.denies around.now.hall.now) (is_some journal) (sessions_asked (asked_words asked.now))
        holds f f' (documents_of (asked_words asked.now)) (file_of F.written F.faults journal)
        (file_of F.written F.faults result.journal) (out_at (K.written out.old) (K.faults out.old))
        (out_at (K.written out.new) (K.faults out.new)) result.sessions.items result.status }
{
    if asked.journal.is_some() && journal.is_none() {
        Version::discard(version);
        unheld(alloc, journal, 5)
    } else {
        held(rt, alloc, version, asked, journal, out, around)
    }
}
