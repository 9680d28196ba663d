//! Sessions beside each other, each in a thread of its own.

ghost use Rattle.std.specs.Prelude.{◌≡◌, ◌≤◌, [], length, map, true, vec_len, vec_capacity};
ghost use Rattle.version_board.specs.Callers.{IsSeatOf, IsNew};
ghost use Rattle.session_engine.specs.Looking.{meant};
ghost use Rattle.live_session.specs.Talks.{door_of};
ghost use Rattle.live_run.specs.Sessions.{unopened_end, Denies, HandsBack, EachHandsBack, AreNew};
ghost use Rattle.live_run.specs.Seating.{seat_in};

use crate::ended::{Ended, Parted};
use crate::rooms::LiveRoom;
use live_doors::{Door, Hall, Lost};
use live_journal::{Receipt, Room};
use live_session::{Manner, Outcome, TalkEnd};
use seated_session::{SeatedSession, Shared, talk};
use session_engine::Version;
use sta_outside::{Gate, Sink};
use std::alloc::Global;
use std::marker::PhantomData;
use std::snapshot::Snapshot;
use std::sync::Wait;
use std::thread;
use std::thread::{Promise, Scope, Threads};
use timing_defs::Design;
use version_board::Seat;

/// How a session ends whose door was not opened.
fn unopened(lost: Lost) -> Outcome
    ensures { (result.end ≡ unopened_end lost) × (result.clean ≡ true) }
{
    let end = match lost {
        Lost::Input => TalkEnd::Deaf,
        Lost::Output => TalkEnd::Mute,
        Lost::Memory => TalkEnd::Wanting,
    };
    Outcome { end, clean: true }
}

/// What a session begins with: its seat, and what it knows of the journal.
#[derive(Drop)]
pub(crate) struct Seating<B: Room<Design>> {
    pub(crate) seat: Seat<Version>,
    pub(crate) receipt: Receipt<B>,
}

/// A session: it opens its door, takes the newest version, talks until its input ends, and closes the door.
fn run_owned<
    D: Door,
    N: Hall<D>,
    H: Threads + Wait + Sync,
    F: Sink + Drop,
    G: Gate,
    B: Room<Design> + LiveRoom,
>(
    shared: &Shared<'_, H, F, G, B>,
    alloc: Global,
    hall: &N,
    manner: &Manner,
    who: u32,
    seating: Seating<B>,
) -> Ended<D, B>
    requires seat { IsSeatOf meant shared.now.board.now seating.seat }
    requires new { IsNew who seating.seat }
    requires hall { N.lines hall.now ≡ B.lines }
    requires denies { Denies (N.denies hall.now) B.denies }
    ensures { HandsBack (door_of D.left D.trace D.faults) B.lines B.denies manner.now seating.seat
        result }
{
    let Seating { seat, receipt } = seating;
    match hall.open(alloc, who) {
        Ok(door) => {
            let mut door = door;
            let mut session = SeatedSession::begin(shared, seat, who, receipt);
            let outcome = talk(shared.rt, alloc, &mut door, &mut session, manner);
            door.close();
            let (seat, receipt) = session.end();
            Ended {
                seat,
                receipt,
                parted: Parted {
                    door: Some(door),
                    outcome,
                },
            }
        }
        Err(lost) => Ended {
            seat,
            receipt,
            parted: Parted {
                door: None,
                outcome: unopened(lost),
            },
        },
    }
}

/// The promise of a thread that holds a session: it began at this seat, and replies are told in this manner.
#[derive(Drop)]
struct Kept<D, B> {
    seat: Snapshot<Seat<Version>>,
    manner: Snapshot<Manner>,
    door: PhantomData<D>,
    room: PhantomData<B>,
}

impl<D: Door, B: Room<Design> + LiveRoom> Promise<Ended<D, B>> for Kept<D, B> {
    ghost use Rattle.live_session.specs.Talks.{door_of};
    ghost use Rattle.live_run.specs.Sessions.{HandsBack};

    ghost kept_by = { λ p r. HandsBack (door_of D.left D.trace D.faults) B.lines B.denies
        p.manner.value p.seat.value r };
}

/// Holds a session at each seat, the first beside all others: what they leave stands in their order. A session for which no thread
/// can be made is held in this one, after those before it were started.
fn run_each<
    's,
    E,
    D: Door + Send + Drop + 's,
    N: Hall<D> + Sync + 's,
    H: Threads + Wait + Sync + 's,
    F: Sink + Send + Drop + 's,
    G: Gate + 's,
    B: Room<Design> + LiveRoom + Send + Sync + 's,
>(
    scope: &Scope<'s, E>,
    alloc: Global,
    shared: &'s Shared<'s, H, F, G, B>,
    hall: &'s N,
    manner: &'s Manner,
    mut seatings: Vec<Seating<B>>,
    ended: Vec<Ended<D, B>>,
) -> Vec<Ended<D, B>>
    requires hall { N.lines hall.now ≡ B.lines }
    requires denies { Denies (N.denies hall.now) B.denies }
    requires begun { AreNew shared.now.board.now 1 (map seat_in seatings.items) }
    requires few { length seatings.items ≤ 16 }
    requires room { (ended.items ≡ []) × (length seatings.items ≤ vec_capacity ended) }
    ensures each { EachHandsBack (door_of D.left D.trace D.faults) B.lines B.denies manner.now
        (map seat_in seatings.items) result.items }
    ensures long { vec_len result ≡ length seatings.items }
    ensures room { vec_capacity result ≡ vec_capacity ended }
{
    let Some(Seating { seat, receipt }) = seatings.pop() else {
        drop(seatings);
        return ended;
    };
    let who = seatings.len() as u32 + 1;
    let kept = Kept {
        seat: Snapshot::of(&seat),
        manner: Snapshot::of(manner),
        door: PhantomData,
        room: PhantomData,
    };
    let started = scope.spawn_with(
        kept,
        move || -> Ended<D, B>
            requires { IsSeatOf meant shared.now.board.now seat × IsNew seat.view.number seat
                × (seat.view.number ≡ who) × (N.lines hall.now ≡ B.lines)
                × Denies (N.denies hall.now) B.denies }
            ensures { HandsBack (door_of D.left D.trace D.faults) B.lines B.denies manner.entry.now
                seat result }
        { run_owned(shared, alloc, hall, manner, who, Seating { seat, receipt }) },
    );
    match started {
        Ok(handle) => {
            let mut all = run_each(scope, alloc, shared, hall, manner, seatings, ended);
            all.push_reserved(handle.join(shared.rt));
            all
        }
        Err(refused) => {
            let mut all = run_each(scope, alloc, shared, hall, manner, seatings, ended);
            all.push_reserved((refused.value)());
            all
        }
    }
}

/// Holds a session at each seat, all beside each other.
pub(crate) fn run_beside<
    D: Door + Send + Drop,
    N: Hall<D> + Sync,
    H: Threads + Wait + Sync,
    F: Sink + Send + Drop,
    G: Gate,
    B: Room<Design> + LiveRoom + Send + Sync,
>(
    alloc: Global,
    shared: &Shared<'_, H, F, G, B>,
    hall: &N,
    manner: &Manner,
    seatings: Vec<Seating<B>>,
    ended: Vec<Ended<D, B>>,
) -> Vec<Ended<D, B>>
    requires hall { N.lines hall.now ≡ B.lines }
    requires denies { Denies (N.denies hall.now) B.denies }
    requires begun { AreNew shared.now.board.now 1 (map seat_in seatings.items) }
    requires few { length seatings.items ≤ 16 }
    requires room { (ended.items ≡ []) × (length seatings.items ≤ vec_capacity ended) }
    ensures { EachHandsBack (door_of D.left D.trace D.faults) B.lines B.denies manner.now
        (map seat_in seatings.items) result.items }
{
    thread::scope(
        thread::scope_env(),
        shared.rt,
        move |scope| -> Vec<Ended<D, B>>
            requires { (N.lines hall.now ≡ B.lines) × Denies (N.denies hall.now) B.denies
                × AreNew shared.now.board.now 1 (map seat_in seatings.items)
                × (length seatings.items ≤ 16) × (ended.items ≡ [])
                × (length seatings.items ≤ vec_capacity ended) }
            ensures { EachHandsBack (door_of D.left D.trace D.faults) B.lines B.denies
                manner.entry.now (map seat_in seatings.items) result.items }
        { run_each(scope, alloc, shared, hall, manner, seatings, ended) },
    )
}
