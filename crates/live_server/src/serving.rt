//! The top call of a live run.

ghost use Rattle.std.specs.Prelude.{◌≡◌, ◌≤◌, true, is_some};
ghost use Rattle.live_session.specs.Talks.{door_of};
ghost use Rattle.live_words.specs.Asked.{IsInRange, asked_words};
ghost use Rattle.live_run.specs.Runs.{file_of};
ghost use Rattle.live_server.specs.Serving.{documents_of, out_at, sessions_asked, LiveEnds, RefusesWords};

use crate::beginning::{read_begun, run_of};
use crate::ending::{held_end, tell, unheld};
use begun_version::Unbegun;
use live_doors::{Door, Hall};
use live_run::Parted;
use live_words::LiveWords;
use shell_core::words_line;
use sta_outside::{Gate, Shelf, Sink};
use sta_units::Memory;
use std::alloc::Global;
use std::sync::Wait;
use std::thread::Threads;

/// How a live run ended: the greatest of these. 0: all replies are answers. 1: a row is `refused`, `no` or `not_yet`, or a line was wrong.
/// 2: the words ask for nothing. 3: a document, the saved journal or the design has a fault, or a saved entry is refused. 4: the shelf did not
/// give a document, or the input of a session failed. 5: an output or the journal could not be written. 6: want of memory, or of a
/// number for a line or a command.
pub type Status = u8;

/// Where a live run finds its sessions' doors, and the gate that its sessions pass.
#[derive(Drop)]
pub struct Surroundings<'a, N, G> {
    pub hall: &'a N,
    pub gate: &'a G,
}

/// What a live run leaves: its status, its sessions in order, where they were held, and the journal's file.
#[derive(Drop)]
pub struct LiveLeft<D, F> {
    pub status: Status,
    pub sessions: Vec<Parted<D>>,
    pub journal: Option<F>,
}

/// Ends a run whose words ask for nothing.
#[tactic(auto, using(crate::proofs::EndLaws::still))]
pub fn refuse_words<K: Sink>(alloc: Global, out: &mut K) -> Status
    ensures { RefusesWords (out_at (K.written out.old) (K.faults out.old))
        (out_at (K.written out.new) (K.faults out.new)) result }
{
    match words_line(alloc) {
        Ok(line) => tell(out, &line, 2),
        Err(Memory) => 6,
    }
}

/// Holds a live run, as its words ask for it. The documents of the design are fetched from the shelf and read, and the saved journal behind
/// them; where these are refused, a line that tells why is put into the sink. Then 1 to 16 sessions are held beside each other, numbered from 1,
/// each at its door of the hall: each line is answered before the next one is heard. Where a file is given for the journal, each accepted ECO is
/// put into it (AppendSink synchronizes each put) before anybody is told of it; the words name the same journal, whose text was saved there
/// before. When all sessions have ended, by whatever cause, the line of the totals is put into the sink.
pub fn serve_live<
    D: Door + Send + Drop,
    N: Hall<D> + Sync,
    H: Threads + Wait + Sync,
    S: Shelf,
    F: Sink + Send + Drop,
    K: Sink,
    G: Gate,
>(
    rt: &H,
    alloc: Global,
    asked: &LiveWords<'_>,
    shelf: &mut S,
    journal: Option<F>,
    out: &mut K,
    around: &Surroundings<'_, N, G>,
) -> LiveLeft<D, F>
    requires asked { IsInRange asked.now }
    requires named { is_some journal ≡ true → is_some (asked_words asked.now).journal ≡ true }
    ensures ends { LiveEnds (door_of D.left D.trace D.faults) (N.lines around.now.hall.now)
        (N.denies around.now.hall.now) (is_some journal) (sessions_asked (asked_words asked.now))
        (S.holds shelf.old) (S.faults shelf.old) (S.faults shelf.new)
        (documents_of (asked_words asked.now)) (file_of F.written F.faults journal)
        (file_of F.written F.faults result.journal) (out_at (K.written out.old) (K.faults out.old))
        (out_at (K.written out.new) (K.faults out.new)) result.sessions.items result.status }
    ensures kept { S.holds shelf.new ≡ S.holds shelf.old }
    ensures rising { S.faults shelf.old ≤ S.faults shelf.new }
{
    let run = run_of(alloc, asked);
    match read_begun(rt, alloc, shelf, &run, around.gate) {
        Ok(version) => held_end(rt, alloc, version, asked, journal, out, around),
        Err(Unbegun::Refused(end)) => {
            let status = tell(out, &end.text, end.status);
            unheld(alloc, journal, status)
        }
        Err(Unbegun::Memory) => unheld(alloc, journal, 6),
    }
}
