//! Sessions beside each other: each answers its script in a thread of its own, over one board.

ghost use Rattle.std.specs.Prelude.{◌≡◌, ◌≤◌, [], length, map, take, vec_len, vec_capacity, IfOk, List};
ghost use Rattle.std.specs.Arc.{arc_value};
ghost use Rattle.std.specs.List.{All};
ghost use Rattle.timing_defs.specs.declared.design.Design.{Design};
ghost use Rattle.timing_defs.specs.declared.edits.Entry.{Entry};
ghost use Rattle.timing_rules.specs.Sessions.{IsWhole};
ghost use Rattle.version_board.specs.Callers.{Sitting, IsSeatOf};
ghost use Rattle.session_engine.specs.Looking.{meant};
ghost use Rattle.session_engine.specs.Versions.{IsVersion};
ghost use Rattle.shell_core.specs.Scripts.{IsScript};
ghost use Rattle.shell_session.specs.Each.{HandsBack, EachHandsBack, AreNew, AreTold};

use crate::discards::{
    discard_board, discard_ended, discard_seat, discard_seats, discard_told, discard_transcript,
};
use further_answers::FurtherQueries;
use session_engine::{Version, run_script};
use sta_outside::Gate;
use sta_units::Memory;
use std::alloc::Global;
use std::snapshot::Snapshot;
use std::sync::{Arc, Wait};
use std::thread;
use std::thread::{Promise, Scope, Threads};
use timing_defs::{Items, Script, Transcript};
use version_board::{Begun, Board, Seat, Stands};

/// What a session leaves: its seat, and its transcript where memory was there.
#[derive(Drop)]
pub(crate) struct Ended {
    pub(crate) seat: Seat<Version>,
    pub(crate) outcome: Result<Transcript, Memory>,
}

/// The promise of a thread that runs a session: it began at this seat, and answers this script.
#[derive(Drop)]
struct Kept {
    seat: Snapshot<Seat<Version>>,
    script: Snapshot<Script>,
}

impl Promise<Ended> for Kept {
    ghost use Rattle.shell_session.specs.Each.{HandsBack};

    ghost kept_by = { λ p r. HandsBack p.seat.value p.script.value r };
}

/// One session: it answers its script, and hands its seat back.
#[tactic(auto, using(crate::proofs::EachLaws::runnable, crate::proofs::EachLaws::hands_back))]
fn run_owned<H: Threads + Wait + Sync, G: Gate>(
    rt: &H,
    alloc: Global,
    board: &Board<Version>,
    mut seat: Seat<Version>,
    who: u32,
    script: &Script,
    workers: u32,
    gate: &G,
) -> Ended
    requires seat { IsSeatOf meant board.now seat × (seat.view.number ≡ who) }
    requires script { IsScript script.now }
    requires some { 1 ≤ workers }
    requires most { workers ≤ 32 }
    ensures { HandsBack seat script.now result }
{
    let further = FurtherQueries::new(workers);
    let outcome = run_script(
        rt, alloc, who, board, &mut seat, script, workers, gate, &further,
    );
    Ended { seat, outcome }
}

/// Runs a session at each seat, by the script at its place, the first beside all others: what they leave
/// stands in their order. A session for which no thread can be made runs in this one, after those
/// before it were started.
fn run_each<'s, E, H: Threads + Wait + Sync, G: Gate>(
    scope: &Scope<'s, E>,
    rt: &'s H,
    alloc: Global,
    board: &'s Board<Version>,
    mut seats: Vec<Seat<Version>>,
    scripts: &'s [Script],
    workers: u32,
    gate: &'s G,
    ended: Vec<Ended>,
) -> Vec<Ended>
    requires begun { AreNew board.now 1 seats.items }
    requires scripts { All IsScript scripts.now }
    requires enough { length seats.items ≤ length scripts.now }
    requires few { length scripts.now ≤ 16 }
    requires some { 1 ≤ workers }
    requires most { workers ≤ 32 }
    requires room { (ended.items ≡ []) × (length scripts.now ≤ vec_capacity ended) }
    ensures each { EachHandsBack seats.items (take (length seats.items) scripts.now) result.items }
    ensures long { vec_len result ≡ length seats.items }
    ensures room { vec_capacity result ≡ vec_capacity ended }
{
    let Some(seat) = seats.pop() else {
        discard_seats(seats);
        return ended;
    };
    let at = seats.len();
    let who = at as u32 + 1;
    let script = &scripts[at];
    let kept = Kept {
        seat: Snapshot::of(&seat),
        script: Snapshot::of(script),
    };
    let started = scope.spawn_with(
        kept,
        move || -> Ended
            requires { IsSeatOf meant board.now seat × (seat.view.number ≡ who)
                × IsScript script.now × (1 ≤ workers) × (workers ≤ 32) }
            ensures { HandsBack seat script.entry.now result }
        { run_owned(rt, alloc, board, seat, who, script, workers, gate) },
    );
    match started {
        Ok(handle) => {
            let mut all = run_each(
                scope, rt, alloc, board, seats, scripts, workers, gate, ended,
            );
            all.push_reserved(handle.join(rt));
            all
        }
        Err(refused) => {
            let mut all = run_each(
                scope, rt, alloc, board, seats, scripts, workers, gate, ended,
            );
            all.push_reserved((refused.value)());
            all
        }
    }
}

/// Runs a session at each seat, all beside each other.
fn run_beside<H: Threads + Wait + Sync, G: Gate>(
    rt: &H,
    alloc: Global,
    board: &Board<Version>,
    seats: Vec<Seat<Version>>,
    scripts: &[Script],
    workers: u32,
    gate: &G,
    ended: Vec<Ended>,
) -> Vec<Ended>
    requires begun { AreNew board.now 1 seats.items }
    requires scripts { All IsScript scripts.now }
    requires all { length seats.items ≡ length scripts.now }
    requires few { length scripts.now ≤ 16 }
    requires some { 1 ≤ workers }
    requires most { workers ≤ 32 }
    requires room { (ended.items ≡ []) × (length scripts.now ≤ vec_capacity ended) }
    ensures { EachHandsBack seats.items scripts.now result.items }
{
    thread::scope(
        thread::scope_env(),
        rt,
        move |scope| -> Vec<Ended>
            requires { AreNew board.now 1 seats.items × All IsScript scripts.now
                × (length seats.items ≡ length scripts.now) × (length scripts.now ≤ 16)
                × (1 ≤ workers) × (workers ≤ 32) × (ended.items ≡ [])
                × (length scripts.now ≤ vec_capacity ended) }
            ensures { EachHandsBack seats.items scripts.entry.now result.items }
        {
            run_each(
                scope, rt, alloc, board, seats, scripts, workers, gate, ended,
            )
        },
    )
}

/// The seats that sessions hand back, and their transcripts, in order; the lists have room for them.
#[tactic(auto, using(crate::proofs::EachLaws::seats_more, crate::proofs::EachLaws::told_more))]
fn taken_apart(
    mut ended: Vec<Ended>,
    seats: Vec<Seat<Version>>,
    told: Vec<Transcript>,
) -> Result<(Vec<Seat<Version>>, Vec<Transcript>), Memory>
    requires seats { (seats.items ≡ []) × (length ended.items ≤ vec_capacity seats) }
    requires told { (told.items ≡ []) × (length ended.items ≤ vec_capacity told) }
    ensures seats { IfOk result (λ r. r.0.items ≡ map (λ (e : Ended). e.seat) ended.items) }
    ensures told { IfOk result (λ r. AreTold ended.items r.1.items) }
    ensures lengths { IfOk result
        (λ r. (vec_len r.0 ≡ length ended.items) × (vec_len r.1 ≡ length ended.items)) }
    ensures rooms { IfOk result
        (λ r. (vec_capacity r.0 ≡ vec_capacity seats) × (vec_capacity r.1 ≡ vec_capacity told)) }
{
    match ended.pop() {
        None => {
            discard_ended(ended);
            Ok((seats, told))
        }
        Some(Ended { seat, outcome }) => match outcome {
            Ok(transcript) => match taken_apart(ended, seats, told) {
                Ok((mut seats, mut told)) => {
                    seats.push_reserved(seat);
                    told.push_reserved(transcript);
                    Ok((seats, told))
                }
                Err(Memory) => {
                    discard_seat(seat);
                    discard_transcript(transcript);
                    Err(Memory)
                }
            },
            Err(Memory) => {
                discard_seat(seat);
                discard_ended(ended);
                discard_seats(seats);
                discard_told(told);
                Err(Memory)
            }
        },
    }
}

/// What sessions leave: the last version, and their transcripts in order.
#[derive(Drop)]
pub(crate) struct Closed {
    pub(crate) last: Arc<Version>,
    pub(crate) transcripts: Items<Transcript>,
}

/// The board is closed behind its sessions.
fn close(
    board: Board<Version>,
    ended: Vec<Ended>,
    seats: Vec<Seat<Version>>,
    told: Vec<Transcript>,
    scripts: &[Script],
) -> Result<Closed, Memory>
    requires begun { (begun : List (Sitting Entry Design)) × AreNew board 1 begun
        × EachHandsBack begun scripts.now ended.items }
    requires count { length scripts.now ≡ board.seats }
    requires seats { (seats.items ≡ []) × (length scripts.now ≤ vec_capacity seats) }
    requires told { (told.items ≡ []) × (length scripts.now ≤ vec_capacity told) }
    ensures whole { IfOk result
        (λ c. IsWhole board.opening.origin board.opening.first scripts.now
        (arc_value c.last).journal c.transcripts) }
    ensures last { IfOk result (λ c. IsVersion (arc_value c.last)) }
    ensures first { IfOk result (λ c. (arc_value c.last).first ≡ board.opening.first) }
    ensures origin { IfOk result (λ c. (arc_value c.last).origin ≡ board.opening.origin) }
{
    let _ = scripts;
    match taken_apart(ended, seats, told) {
        Ok((seats, told)) => {
            let last = board.close(seats);
            last.laws();
            Ok(Closed {
                last,
                transcripts: Items::from_vec(told),
            })
        }
        Err(Memory) => {
            discard_board(board);
            Err(Memory)
        }
    }
}

/// Room for what so many sessions leave.
#[derive(Drop)]
struct Room {
    ended: Vec<Ended>,
    seats: Vec<Seat<Version>>,
    told: Vec<Transcript>,
}

impl Room {
    fn of(alloc: Global, count: usize) -> Result<Room, Memory>
        ensures ended { IfOk result
            (λ room. (room.ended.items ≡ []) × (count ≤ vec_capacity room.ended)) }
        ensures seats { IfOk result
            (λ room. (room.seats.items ≡ []) × (count ≤ vec_capacity room.seats)) }
        ensures told { IfOk result
            (λ room. (room.told.items ≡ []) × (count ≤ vec_capacity room.told)) }
    {
        let Ok(ended) = Vec::with_capacity(alloc, count) else {
            return Err(Memory);
        };
        let Ok(seats) = Vec::with_capacity(alloc, count) else {
            discard_ended(ended);
            return Err(Memory);
        };
        let Ok(told) = Vec::with_capacity(alloc, count) else {
            discard_ended(ended);
            discard_seats(seats);
            return Err(Memory);
        };
        Ok(Room { ended, seats, told })
    }

    /// Gives the room up.
    fn discard(self) {
        let Room { ended, seats, told } = self;
        discard_ended(ended);
        discard_seats(seats);
        discard_told(told);
    }
}

/// Runs the sessions of a board that was begun, and closes it.
fn run_begun<H: Threads + Wait + Sync, G: Gate>(
    rt: &H,
    alloc: Global,
    begun: Begun<Version>,
    room: Room,
    scripts: &[Script],
    workers: u32,
    gate: &G,
) -> Result<Closed, Memory>
    requires begun { AreNew begun.board 1 begun.seats.items }
    requires scripts { All IsScript scripts.now }
    requires count { (length begun.seats.items ≡ length scripts.now)
        × (length scripts.now ≡ begun.board.seats) }
    requires few { length scripts.now ≤ 16 }
    requires some { 1 ≤ workers }
    requires most { workers ≤ 32 }
    requires ended { (room.ended.items ≡ []) × (length scripts.now ≤ vec_capacity room.ended) }
    requires seats { (room.seats.items ≡ []) × (length scripts.now ≤ vec_capacity room.seats) }
    requires told { (room.told.items ≡ []) × (length scripts.now ≤ vec_capacity room.told) }
    ensures whole { IfOk result
        (λ c. IsWhole begun.board.opening.origin begun.board.opening.first scripts.now
        (arc_value c.last).journal c.transcripts) }
    ensures last { IfOk result (λ c. IsVersion (arc_value c.last)) }
    ensures first { IfOk result (λ c. (arc_value c.last).first ≡ begun.board.opening.first) }
    ensures origin { IfOk result (λ c. (arc_value c.last).origin ≡ begun.board.opening.origin) }
{
    let Begun { board, seats } = begun;
    let Room {
        ended,
        seats: back,
        told,
    } = room;
    let ended = run_beside(rt, alloc, &board, seats, scripts, workers, gate, ended);
    close(board, ended, back, told, scripts)
}

/// Runs the sessions of these scripts beside each other, numbered from 1, from a first version on. All
/// memory that their number asks for is taken before the first begins. Takes the work of their questions
/// and ECOs, and waits for turns of the board.
///
/// # Errors
///
/// Want of memory alone.
pub(crate) fn run_sessions<H: Threads + Wait + Sync, G: Gate>(
    rt: &H,
    alloc: Global,
    version: Arc<Version>,
    scripts: &[Script],
    workers: u32,
    gate: &G,
) -> Result<Closed, Memory>
    requires scripts { All IsScript scripts.now }
    requires count { (1 ≤ length scripts.now) × (length scripts.now ≤ 16) }
    requires some { 1 ≤ workers }
    requires most { workers ≤ 32 }
    requires begins { (arc_value version).journal ≡ [] }
    ensures whole { IfOk result
        (λ c. IsWhole (arc_value version).origin (arc_value version).first scripts.now
        (arc_value c.last).journal c.transcripts) }
    ensures last { IfOk result (λ c. IsVersion (arc_value c.last)) }
    ensures first { IfOk result (λ c. (arc_value c.last).first ≡ (arc_value version).first) }
    ensures origin { IfOk result (λ c. (arc_value c.last).origin ≡ (arc_value version).origin) }
{
    version.laws();
    let first = version.first();
    match Room::of(alloc, scripts.len()) {
        Ok(room) => match Board::begin(alloc, first, version, scripts.len() as u32) {
            Ok(begun) => run_begun(rt, alloc, begun, room, scripts, workers, gate),
            Err(Memory) => {
                room.discard();
                Err(Memory)
            }
        },
        Err(Memory) => {
            Version::discard(version);
            Err(Memory)
        }
    }
}
