//! A live run from its first version to its end.

ghost use Rattle.std.specs.Prelude.{◌≡◌, ◌≤◌, ◌+◌, ◌^◌, [], length, map, vec_capacity, IfOk, IfErr};
ghost use Rattle.std.specs.Arc.{arc_value};
ghost use Rattle.live_journal.specs.Receipts.{nothing, knowing};
ghost use Rattle.live_journal.specs.Sinks.{written_of, faults_of};
ghost use Rattle.session_engine.specs.Looking.{meant};
ghost use Rattle.session_engine.specs.Versions.{IsVersion};
ghost use Rattle.live_journal.specs.Desk.{IsBoardOf};
ghost use Rattle.live_session.specs.Talks.{door_of};
ghost use Rattle.live_run.specs.Runs.{file_of, IsLiveRun, manner_of};
ghost use Rattle.live_run.specs.Closing.{file_before};
ghost use Rattle.live_run.specs.Seating.{seat_in};
ghost use Rattle.live_run.specs.Sessions.{AreNew, Denies};

use crate::closing::{ClosingRoom, close};
use crate::ended::{Ended, LiveClosed};
use crate::rooms::LiveRoom;
use crate::sessions::{Seating, run_beside};
use live_doors::{Door, Hall};
use live_journal::{Cell, Desk, JournalSink, Keeper, Room, open_cell};
use live_session::Manner;
use seated_session::Shared;
use session_engine::Version;
use sta_outside::{Gate, Sink};
use sta_units::{Again, Memory, Pair, both};
use std::alloc::Global;
use std::marker::Brand;
use std::sync::{Arc, Mutex, Wait};
use std::thread::Threads;
use timing_defs::{Derates, Design};
use version_board::{Begun, Board, Seat, Stands};

/// How a live run is held: where its sessions find their doors, how many sessions and workers there are, and the gate.
#[derive(Drop)]
pub struct LivePlan<'a, N, G> {
    pub hall: &'a N,
    pub sessions: u32,
    pub workers: u32,
    pub gate: &'a G,
}

/// Holds the sessions of a plan beside each other from a first version on, numbered from 1, until all have ended. Where there is
/// a journal each accepted ECO is put into it before anybody is told of it. All memory that the number of sessions asks
/// for is taken before the first begins. Waits for lines, for turns of the board and for the desk of the journal.
///
/// # Errors
///
/// Want of memory before the first session began: the journal comes back as it was.
pub fn run_live<
    D: Door + Send + Drop,
    N: Hall<D> + Sync,
    H: Threads + Wait + Sync,
    F: Sink + Send + Drop,
    G: Gate,
>(
    rt: &H,
    alloc: Global,
    version: Arc<Version>,
    journal: Option<F>,
    plan: &LivePlan<'_, N, G>,
) -> Result<LiveClosed<D, F>, Option<F>>
    requires sessions { (1 ≤ plan.now.sessions) × (plan.now.sessions ≤ 16) }
    requires workers { (1 ≤ plan.now.workers) × (plan.now.workers ≤ 32) }
    requires begins { (arc_value version).journal ≡ [] }
    ensures run { IfOk result
        (λ c. IsLiveRun (door_of D.left D.trace D.faults) (N.lines plan.now.hall.now)
        (N.denies plan.now.hall.now) (manner_of (arc_value version) journal)
        (arc_value version).origin (arc_value version).first (arc_value c.last).journal
        (file_of F.written F.faults journal) (file_of F.written F.faults c.journal)
        (arc_value version).stored.design.constraints.derates c.sessions.items c.kept) }
    ensures many { IfOk result (λ c. length c.sessions.items ≡ plan.now.sessions) }
    ensures last { IfOk result (λ c. IsVersion (arc_value c.last)) }
    ensures first { IfOk result (λ c. (arc_value c.last).first ≡ (arc_value version).first) }
    ensures origin { IfOk result (λ c. (arc_value c.last).origin ≡ (arc_value version).origin) }
    ensures untouched { IfErr result
        (λ j. file_of F.written F.faults j ≡ file_of F.written F.faults journal) }
{
    version.laws();
    match made_ready(alloc, version, plan.sessions, journal.is_some()) {
        Ok(ready) => run_ready::<D, N, H, F, G, Brand>(rt, alloc, ready, journal, plan),
        Err(Memory) => Err(journal),
    }
}

/// What a run needs before its first session begins: how replies are told, the factors of the journal, the board with a seat for each
/// session and one for the desk, the cell of receipts with its keeper, and room for what is left at the end.
#[derive(Drop)]
struct Ready<D> {
    manner: Manner,
    derates: Derates,
    first: u64,
    board: Board<Version>,
    seats: Vec<Seat<Version>>,
    cell: Cell,
    keeper: Keeper,
    closing: ClosingRoom<D>,
}

/// Room for what sessions begin with, and for what they hand back.
#[derive(Drop)]
struct Places<D, B: Room<Design>> {
    seatings: Vec<Seating<B>>,
    ended: Vec<Ended<D, B>>,
}

impl<D: Drop, B: Room<Design>> Places<D, B> {
    fn of(alloc: Global, count: usize) -> Result<Places<D, B>, Memory>
        ensures seatings { IfOk result
            (λ r. (r.seatings.items ≡ []) × (count ≤ vec_capacity r.seatings)) }
        ensures ended { IfOk result (λ r. (r.ended.items ≡ []) × (count ≤ vec_capacity r.ended)) }
    {
        match both(empty_list(alloc, count), empty_list(alloc, count)) {
            Ok(
                Pair {
                    one: seatings,
                    other: ended,
                },
            ) => Ok(Places { seatings, ended }),
            Err(Memory) => Err(Memory),
        }
    }
}

/// Room for what so many sessions leave at the end.
fn closing_room<D: Drop>(alloc: Global, count: usize) -> Result<ClosingRoom<D>, Memory>
    requires { count ≤ 16 }
    ensures seats { IfOk result (λ r. (r.seats.items ≡ []) × (count + 1 ≤ vec_capacity r.seats)) }
    ensures sessions { IfOk result
        (λ r. (r.sessions.items ≡ []) × (count ≤ vec_capacity r.sessions)) }
{
    match both(empty_list(alloc, count + 1), empty_list(alloc, count)) {
        Ok(
            Pair {
                one: seats,
                other: sessions,
            },
        ) => Ok(ClosingRoom { seats, sessions }),
        Err(Memory) => Err(Memory),
    }
}

/// An empty list with room for so many values.
fn empty_list<X: Drop>(alloc: Global, count: usize) -> Result<Vec<X>, Memory>
    ensures { IfOk result (λ list. (list.items ≡ []) × (count ≤ vec_capacity list)) }
{
    match Vec::with_capacity(alloc, count) {
        Ok(list) => Ok(list),
        Err(_) => Err(Memory),
    }
}

/// The board of a run with a seat for each session, and behind them one for the desk.
fn begun_board(
    alloc: Global,
    first: u64,
    version: Arc<Version>,
    sessions: u32,
) -> Result<Begun<Version>, Memory>
    requires sessions { sessions ≤ 16 }
    requires first { (first ≡ (arc_value version).first) × (first ≤ 2 ^ 62) }
    requires begins { (arc_value version).journal ≡ [] }
    ensures board { IfOk result
        (λ b. (b.board.opening ≡ arc_value version) × (b.board.seats ≡ sessions + 1)) }
    ensures seats { IfOk result
        (λ b. (length b.seats.items ≡ sessions + 1) × AreNew b.board 1 b.seats.items) }
{
    match Board::begin(alloc, first, version, sessions + 1) {
        Ok(begun) => Ok(begun),
        Err(Memory) => Err(Memory),
    }
}

/// Takes all memory that a run of so many sessions asks for.
fn made_ready<D: Drop>(
    alloc: Global,
    version: Arc<Version>,
    sessions: u32,
    keeps: bool,
) -> Result<Ready<D>, Memory>
    requires sessions { (1 ≤ sessions) × (sessions ≤ 16) }
    requires begins { (arc_value version).journal ≡ [] }
    requires first { (arc_value version).first ≤ 2 ^ 62 }
    ensures manner { IfOk result
        (λ r. r.manner
        ≡ record { clocks = (arc_value version).stored.design.constraints.clocks; keeps = keeps }) }
    ensures derates { IfOk result
        (λ r. r.derates ≡ (arc_value version).stored.design.constraints.derates) }
    ensures board { IfOk result
        (λ r. (r.board.opening ≡ arc_value version) × (r.board.seats ≡ sessions + 1)
        × (r.first ≡ (arc_value version).first)) }
    ensures seats { IfOk result
        (λ r. (length r.seats.items ≡ sessions + 1) × AreNew r.board 1 r.seats.items) }
    ensures keeper { IfOk result (λ r. r.keeper ≡ knowing r.cell.table.shared.table_id nothing) }
    ensures back { IfOk result
        (λ r. (r.closing.seats.items ≡ []) × (sessions + 1 ≤ vec_capacity r.closing.seats)) }
    ensures parted { IfOk result
        (λ r. (r.closing.sessions.items ≡ []) × (sessions ≤ vec_capacity r.closing.sessions)) }
{
    let clocks = version.store().constraints().clocks.again(alloc);
    let derates = version.store().constraints().derates;
    let first = version.first();
    let begun = begun_board(alloc, first, version, sessions);
    let closing = closing_room(alloc, sessions as usize);
    match both(both(clocks, begun), both(closing, open_cell(alloc))) {
        Ok(
            Pair {
                one: Pair {
                    one: clocks,
                    other: Begun { board, seats },
                },
                other: Pair {
                    one: closing,
                    other: (cell, keeper),
                },
            },
        ) => Ok(Ready {
            manner: Manner { clocks, keeps },
            derates,
            first,
            board,
            seats,
            cell,
            keeper,
            closing,
        }),
        Err(Memory) => Err(Memory),
    }
}

/// Gives each session its seat and a receipt of the desk.
fn seated<R: Wait, F: Sink + Drop, B: Room<Design>>(
    rt: &R,
    desk: &mut Desk<Version, JournalSink<F>, B>,
    cell: &Cell,
    mut seats: Vec<Seat<Version>>,
    seatings: Vec<Seating<B>>,
) -> Vec<Seating<B>>
    requires cell { cell.now.table.shared.table_id ≡ B.about.cell }
    requires room { (seatings.items ≡ []) × (length seats.items ≤ vec_capacity seatings) }
    ensures same { desk.new ≡ desk.old }
    ensures seats { map seat_in result.items ≡ seats.items }
    ensures long { length result.items ≡ length seats.items }
    ensures room { vec_capacity result ≡ vec_capacity seatings }
{
    match seats.pop() {
        None => {
            drop(seats);
            seatings
        }
        Some(seat) => {
            let receipt = desk.first_receipt(rt, cell);
            let mut seatings = seated(rt, desk, cell, seats, seatings);
            seatings.push_reserved(Seating { seat, receipt });
            seatings
        }
    }
}

/// The file of a journal as the sink of its desk.
fn sink_of<F: Sink + Drop>(journal: Option<F>) -> JournalSink<F>
    ensures text { written_of F.written result ≡ (file_of F.written F.faults journal).text }
    ensures faults { faults_of F.faults result ≡ (file_of F.written F.faults journal).faults }
{
    match journal {
        Some(file) => JournalSink::File(file),
        None => JournalSink::Nowhere,
    }
}

/// Holds a run whose memory is all there.
fn run_placed<
    'x,
    D: Door + Send + Drop,
    N: Hall<D> + Sync,
    H: Threads + Wait + Sync,
    F: Sink + Send + Drop,
    G: Gate,
    B: Room<Design> + LiveRoom + Send + Sync,
>(
    rt: &'x H,
    alloc: Global,
    ready: Ready<D>,
    places: Places<D, B>,
    journal: Option<F>,
    plan: &LivePlan<'x, N, G>,
) -> LiveClosed<D, F>
    requires sessions { plan.now.sessions ≤ 16 }
    requires workers { (1 ≤ plan.now.workers) × (plan.now.workers ≤ 32) }
    requires board { IsBoardOf meant B.about ready.board
        × (ready.board.seats ≡ plan.now.sessions + 1) }
    requires number { B.about.number ≡ plan.now.sessions + 1 }
    requires before { file_of F.written F.faults journal ≡ file_before B.about }
    requires first { ready.first ≡ B.about.first }
    requires derates { ready.derates ≡ B.about.derates }
    requires cell { ready.cell.table.shared.table_id ≡ B.about.cell }
    requires keeper { ready.keeper ≡ knowing B.about.cell nothing }
    requires lines { N.lines plan.now.hall.now ≡ B.lines }
    requires denies { Denies (N.denies plan.now.hall.now) B.denies }
    requires seats { (length ready.seats.items ≡ plan.now.sessions + 1)
        × AreNew ready.board 1 ready.seats.items }
    requires seatings { (places.seatings.items ≡ [])
        × (plan.now.sessions ≤ vec_capacity places.seatings) }
    requires ended { (places.ended.items ≡ []) × (plan.now.sessions ≤ vec_capacity places.ended) }
    requires back { (ready.closing.seats.items ≡ [])
        × (plan.now.sessions + 1 ≤ vec_capacity ready.closing.seats) }
    requires parted { (ready.closing.sessions.items ≡ [])
        × (plan.now.sessions ≤ vec_capacity ready.closing.sessions) }
    ensures run { IsLiveRun (door_of D.left D.trace D.faults) B.lines B.denies ready.manner
        ready.board.opening.origin ready.board.opening.first (arc_value result.last).journal
        (file_before B.about) (file_of F.written F.faults result.journal) B.about.derates
        result.sessions.items result.kept }
    ensures many { length result.sessions.items ≡ plan.now.sessions }
    ensures last { IsVersion (arc_value result.last) }
    ensures first { (arc_value result.last).first ≡ ready.board.opening.first }
    ensures origin { (arc_value result.last).origin ≡ ready.board.opening.origin }
{
    let Ready {
        manner,
        derates,
        first,
        board,
        mut seats,
        cell,
        keeper,
        closing,
    } = ready;
    let Places { seatings, ended } = places;
    let seat = seats.pop().unwrap();
    let mut desk = Desk::<Version, JournalSink<F>, B>::begin(
        seat,
        sink_of(journal),
        derates,
        first,
        keeper,
    );
    let seatings = seated(rt, &mut desk, &cell, seats, seatings);
    let desk = Mutex::new(desk);
    let shared = Shared {
        rt,
        board: &board,
        desk: &desk,
        cell: &cell,
        workers: plan.workers,
        gate: plan.gate,
    };
    let ended = run_beside(alloc, &shared, plan.hall, &manner, seatings, ended);
    let closed = close(
        rt,
        alloc,
        board,
        desk.into_inner(),
        &cell,
        &derates,
        ended,
        closing,
    );
    drop(manner);
    closed
}

/// Takes the last memory of a run, and holds it. This call picks what its sessions are tied to, so no type that is tied to it
/// stands in its signature.
fn run_ready<
    'x,
    D: Door + Send + Drop,
    N: Hall<D> + Sync,
    H: Threads + Wait + Sync,
    F: Sink + Send + Drop,
    G: Gate,
    B: Room<Design> + LiveRoom + Send + Sync,
>(
    rt: &'x H,
    alloc: Global,
    ready: Ready<D>,
    journal: Option<F>,
    plan: &LivePlan<'x, N, G>,
) -> Result<LiveClosed<D, F>, Option<F>>
    requires sessions { plan.now.sessions ≤ 16 }
    requires workers { (1 ≤ plan.now.workers) × (plan.now.workers ≤ 32) }
    requires board { IsBoardOf meant B.about ready.board
        × (ready.board.seats ≡ plan.now.sessions + 1) }
    requires number { B.about.number ≡ plan.now.sessions + 1 }
    requires before { file_of F.written F.faults journal ≡ file_before B.about }
    requires first { ready.first ≡ B.about.first }
    requires derates { ready.derates ≡ B.about.derates }
    requires cell { ready.cell.table.shared.table_id ≡ B.about.cell }
    requires keeper { ready.keeper ≡ knowing B.about.cell nothing }
    requires lines { N.lines plan.now.hall.now ≡ B.lines }
    requires denies { Denies (N.denies plan.now.hall.now) B.denies }
    requires seats { (length ready.seats.items ≡ plan.now.sessions + 1)
        × AreNew ready.board 1 ready.seats.items }
    requires back { (ready.closing.seats.items ≡ [])
        × (plan.now.sessions + 1 ≤ vec_capacity ready.closing.seats) }
    requires parted { (ready.closing.sessions.items ≡ [])
        × (plan.now.sessions ≤ vec_capacity ready.closing.sessions) }
    ensures run { IfOk result
        (λ c. IsLiveRun (door_of D.left D.trace D.faults) B.lines B.denies ready.manner
        ready.board.opening.origin ready.board.opening.first (arc_value c.last).journal
        (file_before B.about) (file_of F.written F.faults c.journal) B.about.derates
        c.sessions.items c.kept) }
    ensures many { IfOk result (λ c. length c.sessions.items ≡ plan.now.sessions) }
    ensures last { IfOk result (λ c. IsVersion (arc_value c.last)) }
    ensures first { IfOk result (λ c. (arc_value c.last).first ≡ ready.board.opening.first) }
    ensures origin { IfOk result (λ c. (arc_value c.last).origin ≡ ready.board.opening.origin) }
    ensures untouched { IfErr result (λ j. j ≡ journal) }
{
    match Places::<D, B>::of(alloc, plan.sessions as usize) {
        Ok(places) => Ok(run_placed(rt, alloc, ready, places, journal, plan)),
        Err(Memory) => {
            drop(ready);
            Err(journal)
        }
    }
}
