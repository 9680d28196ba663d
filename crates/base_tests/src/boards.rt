//! A board of logs: two threads, the answers of one turn after another, and a first number above 0.

ghost use Rattle.std.specs.Prelude.{◌≡◌, ◌+◌, ◌^◌, ◌<◌, ◌≤◌, [], ◌∷◌, ◌++◌, length};
ghost use Rattle.std.specs.Arc.{arc_value};
ghost use Rattle.version_board.specs.Callers.{meaning, IsSeatOf, IsSame, IsNew};

use std::alloc::Global;
use std::process::Abort;
use std::sync::{Arc, Wait};
use std::thread::{Threads, join};
use version_board::{Begun, Board, Seat, Stands, Unpublished};

#[derive(Debug, Clone, Copy, PartialEq, Eq, Drop)]
struct Note {
    seat: u64,
    number: u64,
}

/// A list of notes from a first number.
#[derive(Drop)]
struct Log {
    first: u64,
    notes: Vec<Note>,
    ghost within: { first + length notes.items < 2 ^ 63 },
}

impl Stands for Log {
    type Entry = Note;

    type Origin = ();

    ghost entries = { λ l. l.notes.items };

    ghost from = { λ l. l.first };

    ghost origin = { λ _. tt };

    ghost by = { λ n. n.seat };

    fn first(&self) -> u64 {
        self.first
    }

    fn count(&self) -> u64 {
        self.first + self.notes.len() as u64
    }
}

fn empty(rt: &impl Abort, alloc: Global, first: u64) -> Arc<Log>
    requires { first ≤ 2 ^ 62 }
    ensures { ((arc_value result).notes.items ≡ []) × ((arc_value result).first ≡ first) }
{
    let log = Log {
        first,
        notes: Vec::new(alloc),
    };
    Arc::new(alloc, log).expect(rt, "memory")
}

/// The log with one more note.
fn longer(rt: &impl Abort, alloc: Global, base: &Log, note: Note) -> Arc<Log>
    ensures { ((arc_value result).notes.items ≡ base.now.notes.items ++ note ∷ [])
        × ((arc_value result).first ≡ base.now.first) }
{
    assert!(rt; base.count() < 1 << 62);
    let mut notes = Vec::from_slice(alloc, base.notes.as_slice()).expect(rt, "memory");
    notes.push(note).expect(rt, "memory");
    let log = Log {
        first: base.first,
        notes,
    };
    Arc::new(alloc, log).expect(rt, "memory")
}

/// Adds a note, and takes again where another was published since.
fn add<R: Wait + Abort>(
    rt: &R,
    alloc: Global,
    board: &Board<Log>,
    seat: &mut Seat<Log>,
    note: Note,
) -> u64
    requires { let l = ⟦<Log as Stands>⟧ in IsSeatOf (meaning l.entries l.from l.origin l.by)
        board.now seat.old × (note.seat ≡ seat.old.view.number) }
    ensures seat { IsSame seat.old seat.new }
    ensures mine { seat.new.view.mine ≡ seat.old.view.mine ++ note ∷ [] }
{
    for _ in rt.forever() {
        let base = board.take(rt, seat).expect(rt, "memory");
        let next = longer(rt, alloc, &base, note);
        match board.publish(rt, seat, base.count(), next) {
            Ok(count) => return count,
            Err(Unpublished::Moved { newest: _, back: _ }) => {}
            Err(Unpublished::Memory { back: _ }) => assert!(rt; false, "memory"),
        }
    }
    unreachable!()
}

/// Adds so many notes.
fn add_all<R: Wait + Abort>(
    rt: &R,
    alloc: Global,
    board: &Board<Log>,
    mut seat: Seat<Log>,
    who: u64,
    count: u64,
) -> Seat<Log>
    requires { let l = ⟦<Log as Stands>⟧ in IsSeatOf (meaning l.entries l.from l.origin l.by)
        board.now seat × (seat.view.number ≡ who) }
    ensures { let l = ⟦<Log as Stands>⟧ in IsSeatOf (meaning l.entries l.from l.origin l.by)
        board.now result }
{
    for number in 0..count {
        add(rt, alloc, board, &mut seat, Note { seat: who, number });
    }
    seat
}

/// Two threads add so many notes each.
fn add_beside<R: Threads + Wait + Abort + Sync>(
    rt: &R,
    alloc: Global,
    board: &Board<Log>,
    one: Seat<Log>,
    two: Seat<Log>,
    count: u64,
) -> (Seat<Log>, Seat<Log>)
    requires one { let l = ⟦<Log as Stands>⟧ in IsSeatOf (meaning l.entries l.from l.origin l.by)
        board.now one × (one.view.number ≡ 1) }
    requires two { let l = ⟦<Log as Stands>⟧ in IsSeatOf (meaning l.entries l.from l.origin l.by)
        board.now two × (two.view.number ≡ 2) }
    ensures one { let l = ⟦<Log as Stands>⟧ in IsSeatOf (meaning l.entries l.from l.origin l.by)
        board.now result.0 }
    ensures two { let l = ⟦<Log as Stands>⟧ in IsSeatOf (meaning l.entries l.from l.origin l.by)
        board.now result.1 }
{
    join(
        rt,
        || -> Seat<Log>
            requires { IsSeatOf
                (meaning (λ (l : Log). l.notes.items) (λ (l : Log). l.first) (λ (l : Log). tt)
                (λ (n : Note). n.seat)) board.now one × (one.view.number ≡ 1) }
            ensures { IsSeatOf
                (meaning (λ (l : Log). l.notes.items) (λ (l : Log). l.first) (λ (l : Log). tt)
                (λ (n : Note). n.seat)) board.entry.now result }
        { add_all(rt, alloc, board, one, 1, count) },
        || -> Seat<Log>
            requires { IsSeatOf
                (meaning (λ (l : Log). l.notes.items) (λ (l : Log). l.first) (λ (l : Log). tt)
                (λ (n : Note). n.seat)) board.now two × (two.view.number ≡ 2) }
            ensures { IsSeatOf
                (meaning (λ (l : Log). l.notes.items) (λ (l : Log). l.first) (λ (l : Log). tt)
                (λ (n : Note). n.seat)) board.entry.now result }
        { add_all(rt, alloc, board, two, 2, count) },
    )
}

/// A board from 0 with two seats.
fn opened(rt: &impl Abort, alloc: Global) -> (Board<Log>, Seat<Log>, Seat<Log>)
    ensures board { (result.0.seats ≡ 2) × (result.0.opening.first ≡ 0) }
    ensures one { let l = ⟦<Log as Stands>⟧ in IsSeatOf (meaning l.entries l.from l.origin l.by)
        result.0 result.1 × IsNew 1 result.1 }
    ensures two { let l = ⟦<Log as Stands>⟧ in IsSeatOf (meaning l.entries l.from l.origin l.by)
        result.0 result.2 × IsNew 2 result.2 }
{
    let value = empty(rt, alloc, 0);
    let Begun { board, mut seats } = Board::begin(alloc, 0, value, 2).expect(rt, "memory");
    let two = seats.pop().unwrap();
    let one = seats.pop().unwrap();
    (board, one, two)
}

fn closed(
    rt: &impl Abort,
    alloc: Global,
    board: Board<Log>,
    one: Seat<Log>,
    two: Seat<Log>,
) -> Arc<Log>
    requires board { board.seats ≡ 2 }
    requires seats { let l = ⟦<Log as Stands>⟧ in IsSeatOf (meaning l.entries l.from l.origin l.by)
        board one × IsSeatOf (meaning l.entries l.from l.origin l.by) board two }
{
    let mut seats = Vec::with_capacity(alloc, 2).expect(rt, "memory");
    seats.push_reserved(one);
    seats.push_reserved(two);
    board.close(seats)
}

/// How many notes the seat has, if they stand in their order.
fn in_order(notes: &[Note], seat: u64) -> Option<u64> {
    let mut next: u64 = 0;
    for note in notes {
        if note.seat == seat {
            if note.number != next {
                return None;
            }
            next = next.wrapping_add(1);
        }
    }
    Some(next)
}

#[test]
fn two_threads_publish_a_thousand_notes_each(rt: HostRuntime) {
    let alloc = rt.alloc();
    let (board, one, two) = opened(&rt, alloc);
    let (one, two) = add_beside(&rt, alloc, &board, one, two, 1000);
    let log = closed(&rt, alloc, board, one, two);
    assert_eq!(rt; log.notes.len(), 2000);
    assert_eq!(rt; in_order(log.notes.as_slice(), 1), Some(1000));
    assert_eq!(rt; in_order(log.notes.as_slice(), 2), Some(1000));
}

/// Publishes a first note on the number 0.
fn add_first<R: Wait + Abort>(
    rt: &R,
    alloc: Global,
    board: &Board<Log>,
    seat: &mut Seat<Log>,
    who: u64,
) -> Result<u64, Unpublished<Log>>
    requires { let l = ⟦<Log as Stands>⟧ in IsSeatOf (meaning l.entries l.from l.origin l.by)
        board.now seat.old × IsNew who seat.old × (board.now.opening.first ≡ 0) }
    ensures { IsSame seat.old seat.new }
{
    let base = empty(rt, alloc, 0);
    let next = longer(
        rt,
        alloc,
        &base,
        Note {
            seat: who,
            number: 0,
        },
    );
    board.publish(rt, seat, 0, next)
}

/// Asserts the notes of a log.
fn assert_notes(rt: &impl Abort, log: &Log, want: &[Note]) {
    assert_eq!(rt; log.notes.as_slice(), want);
}

#[test]
fn a_late_seat_is_given_the_version_that_came_first(rt: HostRuntime) {
    let alloc = rt.alloc();
    let (board, mut one, mut two) = opened(&rt, alloc);
    let count = add_first(&rt, alloc, &board, &mut two, 2)
        .ok()
        .expect(&rt, "a publication");
    assert_eq!(rt; count, 1);
    match add_first(&rt, alloc, &board, &mut one, 1) {
        Err(Unpublished::Moved { newest, back }) => {
            assert_notes(&rt, &newest, &[Note { seat: 2, number: 0 }]);
            assert_notes(&rt, &back, &[Note { seat: 1, number: 0 }]);
        }
        _other => assert!(rt; false, "not moved"),
    }
    let taken = board.take(&rt, &mut one).expect(&rt, "memory");
    assert_notes(&rt, &taken, &[Note { seat: 2, number: 0 }]);
    let last = closed(&rt, alloc, board, one, two);
    assert_notes(&rt, &last, &[Note { seat: 2, number: 0 }]);
}

#[test]
fn a_board_from_five_counts_from_five(rt: HostRuntime) {
    let alloc = rt.alloc();
    let value = empty(&rt, alloc, 5);
    let Begun { board, mut seats } = Board::begin(alloc, 5, value, 1).expect(&rt, "memory");
    let mut seat = seats.pop().expect(&rt, "a seat");
    let count = add(&rt, alloc, &board, &mut seat, Note { seat: 1, number: 0 });
    assert_eq!(rt; count, 6);
}
