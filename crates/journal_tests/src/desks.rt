//! Two sessions whose notes are kept in a file before they are told of them.

ghost use Rattle.std.specs.Prelude.{◌≡◌, ℕ, ◌+◌, ◌<◌, ◌≤◌, [], length, All, IfSome, slice_get};
ghost use Rattle.version_board.specs.Callers.{IsSeatOf, IsNew};
ghost use Rattle.live_journal.specs.Desk.{IsBoardOf};
ghost use Rattle.live_journal.specs.Receipts.{nothing, knowing};
ghost use Rattle.journal_tests.specs.Logs.{log_meaning, setting_of};

use crate::logs::{Here, Log};
use crate::notes::{add, empty};
use live_journal::{Cell, Desk, Keeper, Left, Receipt, Room, Unkept, keep_shared, open_cell};
use sta_outside::MemSink;
use std::alloc::Global;
use std::marker::Brand;
use std::process::Abort;
use std::sync::{Arc, Mutex, Wait};
use std::thread::{Threads, join};
use timing_defs::Derates;
use version_board::{Begun, Board, Seat};

/// A board of two sessions and a desk, and a cell for their receipts.
#[derive(Drop)]
struct Opened {
    board: Board<Log>,
    one: Seat<Log>,
    two: Seat<Log>,
    third: Seat<Log>,
    cell: Cell,
    keeper: Keeper,
    ghost new: { keeper ≡ knowing cell.table.shared.table_id nothing },
}

/// A session: its seat with its number, what it knows of the file, and the last number that it was told.
#[derive(Drop)]
struct Session<B: Room<Here>> {
    seat: Seat<Log>,
    who: u8,
    receipt: Receipt<B, Here>,
    told: u64,
    ghost numbered: { who ≡ seat.view.number },
    ghost stands: { told ≤ receipt.upto },
}

/// What is left at the end: the board's list, the file, and whether each put went well.
#[derive(Drop)]
struct Ended {
    log: Arc<Log>,
    file: MemSink,
    kept: u64,
    sound: bool,
}

/// The board and its three seats, with a new cell.
fn seated(rt: &impl Abort, alloc: Global, board: Board<Log>, mut seats: Vec<Seat<Log>>) -> Opened
    requires three { length seats.items ≡ 3 }
    requires seats { All (IsSeatOf log_meaning board) seats.items }
    requires new { (k : ℕ) → k < 3 → IfSome (slice_get seats.items k) (IsNew (k + 1)) }
    ensures board { result.board ≡ board }
    ensures one { IsSeatOf log_meaning board result.one × IsNew 1 result.one }
    ensures two { IsSeatOf log_meaning board result.two × IsNew 2 result.two }
    ensures third { IsSeatOf log_meaning board result.third × IsNew 3 result.third }
{
    let third = seats.pop().unwrap();
    let two = seats.pop().unwrap();
    let one = seats.pop().unwrap();
    let (cell, keeper) = open_cell(alloc).expect(rt, "memory");
    Opened {
        board,
        one,
        two,
        third,
        cell,
        keeper,
    }
}

fn begun(rt: &impl Abort, alloc: Global) -> Opened
    ensures board { (result.board.seats ≡ 3) × (result.board.opening.first ≡ 0) }
    ensures one { IsSeatOf log_meaning result.board result.one × IsNew 1 result.one }
    ensures two { IsSeatOf log_meaning result.board result.two × IsNew 2 result.two }
    ensures third { IsSeatOf log_meaning result.board result.third × IsNew 3 result.third }
{
    let value = empty(rt, alloc, 0);
    let Begun { board, seats } = Board::begin(alloc, 0, value, 3).expect(rt, "memory");
    seated(rt, alloc, board, seats)
}

fn sink(rt: &impl Abort, alloc: Global, room: usize, fails: &[u64]) -> MemSink
    ensures bytes { result.bytes.items ≡ [] }
    ensures faults { result.plan.faults ≡ 0 }
{
    let fails = Vec::from_slice(alloc, fails).expect(rt, "memory");
    MemSink::new(alloc, room, fails).expect(rt, "memory")
}

/// A session that was told nothing yet.
fn begun_session<R: Wait, B: Room<Here>>(
    rt: &R,
    cell: &Cell,
    desk: &mut Desk<Log, MemSink, B>,
    seat: Seat<Log>,
    who: u8,
) -> Session<B>
    requires cell { cell.now.table.shared.table_id ≡ B.about.cell }
    requires number { who ≡ seat.view.number }
    ensures { result.seat ≡ seat }
{
    let receipt = desk.first_receipt(rt, cell);
    Session {
        seat,
        who,
        receipt,
        told: 0,
    }
}

/// Adds so many notes, and has each kept before the next.
fn keep_each<R: Wait + Abort, B: Room<Here>>(
    rt: &R,
    alloc: Global,
    board: &Board<Log>,
    cell: &Cell,
    desk: &Mutex<Desk<Log, MemSink, B>>,
    session: Session<B>,
    count: u64,
) -> Session<B>
    requires board { IsBoardOf log_meaning B.about board.now }
    requires cell { cell.now.table.shared.table_id ≡ B.about.cell }
    requires seat { IsSeatOf log_meaning board.now session.seat }
    ensures { IsSeatOf log_meaning board.now result.seat }
{
    let Session {
        mut seat,
        who,
        mut receipt,
        mut told,
    } = session;
    for _ in 0..count {
        let number = add(rt, alloc, board, &mut seat, who);
        if keep_shared(rt, alloc, desk, cell, board, &mut receipt, number).is_ok() {
            assert!(rt; number <= desk.lock(rt).kept());
            told = number;
        }
    }
    Session {
        seat,
        who,
        receipt,
        told,
    }
}

/// Two threads add so many notes each.
fn keep_beside<R: Threads + Wait + Abort + Sync, B: Room<Here> + Send + Sync>(
    rt: &R,
    alloc: Global,
    board: &Board<Log>,
    cell: &Cell,
    desk: &Mutex<Desk<Log, MemSink, B>>,
    sessions: (Session<B>, Session<B>),
    count: u64,
) -> (Session<B>, Session<B>)
    requires board { IsBoardOf log_meaning B.about board.now }
    requires cell { cell.now.table.shared.table_id ≡ B.about.cell }
    requires one { IsSeatOf log_meaning board.now sessions.0.seat }
    requires two { IsSeatOf log_meaning board.now sessions.1.seat }
    ensures one { IsSeatOf log_meaning board.now result.0.seat }
    ensures two { IsSeatOf log_meaning board.now result.1.seat }
{
    let (one, two) = sessions;
    join(
        rt,
        || -> Session<B>
            requires { IsBoardOf log_meaning B.about board.now
                × (cell.now.table.shared.table_id ≡ B.about.cell)
                × IsSeatOf log_meaning board.now one.seat }
            ensures { IsSeatOf log_meaning board.entry.now result.seat }
        { keep_each(rt, alloc, board, cell, desk, one, count) },
        || -> Session<B>
            requires { IsBoardOf log_meaning B.about board.now
                × (cell.now.table.shared.table_id ≡ B.about.cell)
                × IsSeatOf log_meaning board.now two.seat }
            ensures { IsSeatOf log_meaning board.entry.now result.seat }
        { keep_each(rt, alloc, board, cell, desk, two, count) },
    )
}

/// What a session was told stands in the file. Gives its seat, and the last number that it was told.
fn confirmed<R: Wait, B: Room<Here>>(
    rt: &R,
    cell: &Cell,
    desk: &mut Desk<Log, MemSink, B>,
    session: Session<B>,
) -> (Seat<Log>, u64)
    requires cell { cell.now.table.shared.table_id ≡ B.about.cell }
    ensures same { desk.new ≡ desk.old }
    ensures seat { result.0 ≡ session.seat }
    ensures told { (result.1 ≡ session.told) × (result.1 ≤ desk.new.kept) }
{
    let Session {
        seat,
        who: _,
        receipt,
        told,
    } = session;
    desk.confirm(rt, cell, receipt);
    (seat, told)
}

/// Closes the board with all seats.
fn closed<B: Room<Here>>(
    rt: &impl Abort,
    alloc: Global,
    board: Board<Log>,
    desk: Desk<Log, MemSink, B>,
    one: Seat<Log>,
    two: Seat<Log>,
) -> Ended
    requires board { (board.seats ≡ 3) × IsBoardOf log_meaning B.about board }
    requires seats { IsSeatOf log_meaning board one × IsSeatOf log_meaning board two }
    ensures { result.kept ≡ desk.kept }
{
    let Left {
        seat,
        file,
        kept,
        sound,
    } = desk.into_parts();
    let mut seats = Vec::with_capacity(alloc, 3).expect(rt, "memory");
    seats.push_reserved(one);
    seats.push_reserved(two);
    seats.push_reserved(seat);
    Ended {
        log: board.close(seats),
        file,
        kept,
        sound,
    }
}

/// Two sessions at a new board add notes beside each other, and have each kept. Gives the numbers that were told last, too.
fn kept_beside<R: Threads + Wait + Abort + Sync, B: Room<Here> + Send + Sync>(
    rt: &R,
    alloc: Global,
    opened: Opened,
    file: MemSink,
    count: u64,
) -> (Ended, u64, u64)
    requires about { B.about ≡ setting_of opened.board opened.keeper }
    requires file { file.bytes.items ≡ [] }
    requires faults { file.plan.faults ≡ 0 }
    requires board { (opened.board.seats ≡ 3) × (opened.board.opening.first ≡ 0) }
    requires one { IsSeatOf log_meaning opened.board opened.one × (opened.one.view.number ≡ 1) }
    requires two { IsSeatOf log_meaning opened.board opened.two × (opened.two.view.number ≡ 2) }
    requires third { IsSeatOf log_meaning opened.board opened.third × IsNew 3 opened.third }
    ensures told { (result.1 ≤ result.0.kept) × (result.2 ≤ result.0.kept) }
{
    let Opened {
        board,
        one,
        two,
        third,
        cell,
        keeper,
    } = opened;
    let mut desk = Desk::<Log, MemSink, B>::begin(third, file, Derates::none(), 0, keeper);
    let one = begun_session(rt, &cell, &mut desk, one, 1);
    let two = begun_session(rt, &cell, &mut desk, two, 2);
    let shared = Mutex::new(desk);
    let (one, two) = keep_beside(rt, alloc, &board, &cell, &shared, (one, two), count);
    let mut desk = shared.into_inner();
    let (one, told) = confirmed(rt, &cell, &mut desk, one);
    let (two, told_too) = confirmed(rt, &cell, &mut desk, two);
    (closed(rt, alloc, board, desk, one, two), told, told_too)
}

/// The lines of notes.
fn lines(rt: &impl Abort, alloc: Global, log: &Log) -> Vec<u8> {
    let mut bytes = Vec::new(alloc);
    for note in log.notes.as_slice() {
        bytes.push(note.seat).expect(rt, "memory");
        bytes.push(10).expect(rt, "memory");
    }
    bytes
}

#[test]
fn what_two_threads_are_told_stands_in_the_file(rt: HostRuntime) {
    let alloc = rt.alloc();
    let opened = begun(&rt, alloc);
    let file = sink(&rt, alloc, 4000, &[]);
    let (ended, one, two) = kept_beside::<HostRuntime, Brand>(&rt, alloc, opened, file, 500);
    assert!(rt; ended.sound);
    assert_eq!(rt; ended.kept, 1000);
    assert_eq!(rt; one.max(two), 1000);
    assert_eq!(rt;
        ended.file.bytes(),
        lines(&rt, alloc, &ended.log).as_slice()
    );
}

#[test]
fn behind_a_put_that_fails_nothing_is_told_or_written(rt: HostRuntime) {
    let alloc = rt.alloc();
    let opened = begun(&rt, alloc);
    let file = sink(&rt, alloc, 4000, &[5]);
    let (ended, one, two) = kept_beside::<HostRuntime, Brand>(&rt, alloc, opened, file, 100);
    assert!(rt; !ended.sound);
    assert_eq!(rt; ended.file.fault_count(), 1);
    assert_eq!(rt; ended.log.notes.len(), 200);
    assert!(rt; one.max(two) == ended.kept);
    assert_eq!(rt; ended.file.bytes().len() as u64 / 2, ended.kept);
    let all = lines(&rt, alloc, &ended.log);
    assert!(rt; all.as_slice().starts_with(ended.file.bytes()));
}

/// One session adds notes, and asks for the numbers 1, 2 to 3 at once, 4, and 1 again. Gives the four answers.
fn kept_in_turn<R: Wait + Abort, B: Room<Here>>(
    rt: &R,
    alloc: Global,
    opened: Opened,
    file: MemSink,
) -> (Ended, [Result<(), Unkept>; 4])
    requires about { B.about ≡ setting_of opened.board opened.keeper }
    requires file { file.bytes.items ≡ [] }
    requires faults { file.plan.faults ≡ 0 }
    requires board { (opened.board.seats ≡ 3) × (opened.board.opening.first ≡ 0) }
    requires one { IsSeatOf log_meaning opened.board opened.one × (opened.one.view.number ≡ 1) }
    requires two { IsSeatOf log_meaning opened.board opened.two × (opened.two.view.number ≡ 2) }
    requires third { IsSeatOf log_meaning opened.board opened.third × IsNew 3 opened.third }
{
    let Opened {
        board,
        mut one,
        mut two,
        third,
        cell: _,
        keeper,
    } = opened;
    let mut desk = Desk::<Log, MemSink, B>::begin(third, file, Derates::none(), 0, keeper);
    add(rt, alloc, &board, &mut one, 1);
    let first = desk.keep(rt, alloc, &board, 1);
    add(rt, alloc, &board, &mut two, 2);
    add(rt, alloc, &board, &mut one, 1);
    let second = desk.keep(rt, alloc, &board, 2);
    add(rt, alloc, &board, &mut two, 2);
    let third = desk.keep(rt, alloc, &board, 4);
    let last = desk.keep(rt, alloc, &board, 1);
    (
        closed(rt, alloc, board, desk, one, two),
        [first, second, third, last],
    )
}

/// Asserts the four answers, the number that is kept, and what stands in the file, where a sink has this room and these puts fail.
fn assert_kept<R: Wait + Abort>(
    rt: &R,
    alloc: Global,
    room: usize,
    fails: &[u64],
    wanted: [Result<(), Unkept>; 4],
    kept: u64,
    written: &[u8],
) {
    let opened = begun(rt, alloc);
    let file = sink(rt, alloc, room, fails);
    let (ended, answers) = kept_in_turn::<R, Brand>(rt, alloc, opened, file);
    assert_eq!(rt; answers, wanted);
    assert_eq!(rt; ended.kept, kept);
    assert_eq!(rt; ended.file.bytes(), written);
}

const FAILED: Result<(), Unkept> = Err(Unkept::Failed);

#[test]
fn notes_of_one_look_are_put_at_once(rt: HostRuntime) {
    assert_kept(
        &rt,
        rt.alloc(),
        100,
        &[4],
        [Ok(()), Ok(()), Ok(()), Ok(())],
        4,
        b"\x01\n\x02\n\x01\n\x02\n",
    );
}

#[test]
fn a_desk_never_writes_behind_a_failed_put(rt: HostRuntime) {
    assert_kept(
        &rt,
        rt.alloc(),
        100,
        &[2],
        [Ok(()), FAILED, FAILED, Ok(())],
        1,
        b"\x01\n",
    );
}

#[test]
fn a_put_that_fails_may_leave_a_beginning(rt: HostRuntime) {
    assert_kept(
        &rt,
        rt.alloc(),
        5,
        &[],
        [Ok(()), FAILED, FAILED, Ok(())],
        1,
        b"\x01\n\x02\n\x01",
    );
}
