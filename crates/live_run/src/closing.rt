//! The end of a live run: what sessions know of the journal is compared with its file, the board is closed, and the file is given
//! what it lacks.

ghost use Rattle.std.specs.Prelude.{◌≡◌, ◌≤◌, ◌+◌, List, [], length, map, vec_capacity};
ghost use Rattle.std.specs.Arc.{arc_value};
ghost use Rattle.timing_defs.specs.declared.design.Design.{Design};
ghost use Rattle.timing_defs.specs.declared.edits.Entry.{Entry};
ghost use Rattle.version_board.specs.Callers.{Sitting};
ghost use Rattle.session_engine.specs.Versions.{IsVersion};
ghost use Rattle.live_session.specs.Talks.{door_of};
ghost use Rattle.live_session.specs.declared.replies.Manner.{Manner};
ghost use Rattle.live_run.specs.Sessions.{AreNew, EachHandsBack};
ghost use Rattle.live_run.specs.Closing.{AreConfirmed, IsDeskOf, file_before, seat_left, parted_left, Settles};
ghost use Rattle.live_run.specs.Runs.{IsLiveRun, file_of};

use crate::ended::{Ended, LiveClosed, Parted};
use crate::rooms::LiveRoom;
use live_doors::Door;
use live_journal::{Cell, Desk, JournalSink, Left, Room, Unkept, put_rest};
use session_engine::Version;
use sta_outside::Sink;
use std::alloc::Global;
use std::sync::{Arc, Wait};
use timing_defs::{Derates, Design};
use version_board::{Board, Seat, Stands};

/// Room for what so many sessions leave at the end: their seats with the desk's, and what their caller gets.
#[derive(Drop)]
pub(crate) struct ClosingRoom<D> {
    pub(crate) seats: Vec<Seat<Version>>,
    pub(crate) sessions: Vec<Parted<D>>,
}

/// Takes what sessions left apart, in their order, and compares what each knows of the journal with the desk.
#[tactic(auto, using(crate::proofs::PoppedLaws::seats_popped, crate::proofs::PoppedLaws::parted_popped, crate::proofs::PoppedLaws::confirmed_popped))]
fn taken_apart<R: Wait, D: Drop, F: Sink + Drop, B: Room<Design>>(
    rt: &R,
    desk: &mut Desk<Version, JournalSink<F>, B>,
    cell: &Cell,
    mut ended: Vec<Ended<D, B>>,
    room: ClosingRoom<D>,
) -> ClosingRoom<D>
    requires cell { cell.now.table.shared.table_id ≡ B.about.cell }
    requires seats { (room.seats.items ≡ []) × (length ended.items + 1 ≤ vec_capacity room.seats) }
    requires sessions { (room.sessions.items ≡ [])
        × (length ended.items ≤ vec_capacity room.sessions) }
    ensures same { desk.new ≡ desk.old }
    ensures confirmed { AreConfirmed desk.new.kept desk.new.sound ended.items }
    ensures seats { (result.seats.items ≡ map seat_left ended.items)
        × (vec_capacity result.seats ≡ vec_capacity room.seats) }
    ensures sessions { (result.sessions.items ≡ map parted_left ended.items)
        × (vec_capacity result.sessions ≡ vec_capacity room.sessions) }
{
    match ended.pop() {
        None => {
            drop(ended);
            room
        }
        Some(
            Ended {
                seat,
                receipt,
                parted,
            },
        ) => {
            desk.confirm(rt, cell, receipt);
            let mut room = taken_apart(rt, desk, cell, ended, room);
            room.seats.push_reserved(seat);
            room.sessions.push_reserved(parted);
            room
        }
    }
}

/// The file of a journal at the end of a run, and whether all entries stand there.
#[derive(Drop)]
struct Settled<F> {
    journal: Option<F>,
    kept: Result<(), Unkept>,
}

/// Gives the file of the journal, where there is one, what it lacks of the last version's entries.
fn settle<F: Sink + Drop>(
    alloc: Global,
    last: &Version,
    derates: &Derates,
    sink: JournalSink<F>,
    kept: u64,
    sound: bool,
) -> Settled<F>
    requires low { last.now.first ≤ kept }
    requires high { kept ≤ last.now.first + length last.now.journal }
    ensures { Settles F.written F.faults derates.now last.now.first last.now.journal kept sound sink
        result.journal result.kept }
{
    match sink.into_file() {
        None => Settled {
            journal: None,
            kept: if sound { Ok(()) } else { Err(Unkept::Failed) },
        },
        Some(mut file) => {
            let kept = put_rest(alloc, last, derates, &mut file, kept, sound);
            Settled {
                journal: Some(file),
                kept,
            }
        }
    }
}

/// Closes the board behind its sessions and the desk.
pub(crate) fn close<R: Wait, D: Door + Drop, F: Sink + Drop, B: Room<Design> + LiveRoom>(
    rt: &R,
    alloc: Global,
    board: Board<Version>,
    mut desk: Desk<Version, JournalSink<F>, B>,
    cell: &Cell,
    derates: &Derates,
    ended: Vec<Ended<D, B>>,
    room: ClosingRoom<D>,
) -> LiveClosed<D, F>
    requires cell { cell.now.table.shared.table_id ≡ B.about.cell }
    requires begun { (manner : Manner) × (begun : List (Sitting Entry Design))
        × AreNew board 1 begun
        × EachHandsBack (door_of D.left D.trace D.faults) B.lines B.denies manner begun
        ended.items }
    requires desk { IsDeskOf B.about board (length ended.items) }
    requires derates { derates.now ≡ B.about.derates }
    requires seats { (room.seats.items ≡ []) × (length ended.items + 1 ≤ vec_capacity room.seats) }
    requires sessions { (room.sessions.items ≡ [])
        × (length ended.items ≤ vec_capacity room.sessions) }
    ensures run { (manner : Manner) (begun : List (Sitting Entry Design)) → AreNew board 1 begun
        → EachHandsBack (door_of D.left D.trace D.faults) B.lines B.denies manner begun ended.items
        → IsLiveRun (door_of D.left D.trace D.faults) B.lines B.denies manner board.opening.origin
        board.opening.first (arc_value result.last).journal (file_before B.about)
        (file_of F.written F.faults result.journal) B.about.derates result.sessions.items
        result.kept }
    ensures many { length result.sessions.items ≡ length ended.items }
    ensures last { IsVersion (arc_value result.last) }
    ensures first { (arc_value result.last).first ≡ board.opening.first }
    ensures origin { (arc_value result.last).origin ≡ board.opening.origin }
{
    let ClosingRoom {
        mut seats,
        sessions,
    } = taken_apart(rt, &mut desk, cell, ended, room);
    let Left {
        seat,
        file,
        kept,
        sound,
    } = desk.into_parts();
    seats.push_reserved(seat);
    let last = board.close(seats);
    last.laws();
    let Settled { journal, kept } = settle(alloc, &last, derates, file, kept, sound);
    LiveClosed {
        last,
        sessions,
        journal,
        kept,
    }
}
