//! A board of notes, whose text is a line each: the number of its seat as a byte, and a line feed.

ghost use Rattle.std.specs.Prelude.{◌≡◌, ◌^◌, ◌≤◌, [], ◌∷◌, ◌++◌, IfOk};
ghost use Rattle.std.specs.Arc.{arc_value};
ghost use Rattle.version_board.specs.Callers.{IsSeatOf, IsSame};
ghost use Rattle.journal_tests.specs.Logs.{log_meaning, lines_of};

use crate::logs::{Here, Log, Note};
use live_journal::{Room, Saves};
use sta_units::Memory;
use std::alloc::Global;
use std::marker::Brand;
use std::process::Abort;
use std::sync::{Arc, Wait};
use timing_defs::Derates;
use version_board::{Board, Seat, Stands, Unpublished};

impl Stands for Log {
    type Entry = Note;

    type Origin = Here;

    ghost entries = { λ l. l.notes.items };

    ghost from = { λ l. l.first };

    ghost origin = { λ _. record {} };

    ghost by = { λ n. n.seat };

    fn first(&self) -> u64 {
        self.first
    }

    fn count(&self) -> u64 {
        self.first + self.notes.len() as u64
    }
}

/// The lines of notes.
#[tactic(auto, using(std::proofs::lemmas::List::drop_more))]
fn lines(alloc: Global, notes: &[Note]) -> Result<Vec<u8>, Memory>
    ensures { IfOk result (λ bytes. bytes.items ≡ lines_of notes.now) }
{
    let mut bytes = Vec::new(alloc);
    for note in notes {
        sta_units::append(&mut bytes, &[note.seat, 10])?;
    }
    Ok(bytes)
}

impl Saves for Log {
    ghost use Rattle.std.specs.Prelude.{refl, ◌∷◌, []};
    ghost use Rattle.std.specs.List.{flat_map};
    ghost use Rattle.std.proofs.lemmas.Grind.{flat_map-append};

    ghost text = { λ derates from notes. flat_map (λ note. note.seat ∷ 10 ∷ []) notes };

    fn text_from(&self, alloc: Global, _derates: &Derates, from: u64) -> Result<Vec<u8>, Memory> {
        lines(
            alloc,
            &self.notes.as_slice()[(from - self.first) as usize..],
        )
    }

    ghost none = { λ d n. refl };

    ghost joins = { λ d n xs ys. flat_map-append (λ note. note.seat ∷ 10 ∷ []) xs ys };
}

impl Room<Here> for Brand {
    ghost use Rattle.live_journal.specs.Desk.{nowhere};

    ghost about = { nowhere };
}

pub(crate) fn empty(rt: &impl Abort, alloc: Global, first: u64) -> Arc<Log>
    requires { first ≤ 2 ^ 62 }
    ensures { ((arc_value result).notes.items ≡ []) × ((arc_value result).first ≡ first) }
{
    let log = Log {
        first,
        notes: Vec::new(alloc),
    };
    Arc::new(alloc, log).expect(rt, "memory")
}

/// The log with one more note.
fn longer(rt: &impl Abort, alloc: Global, base: &Log, note: Note) -> Arc<Log>
    ensures notes { (arc_value result).notes.items ≡ base.now.notes.items ++ note ∷ [] }
    ensures first { (arc_value result).first ≡ base.now.first }
{
    assert!(rt; base.count() < 1 << 62);
    let mut notes = Vec::from_slice(alloc, base.notes.as_slice()).expect(rt, "memory");
    notes.push(note).expect(rt, "memory");
    let log = Log {
        first: base.first,
        notes,
    };
    Arc::new(alloc, log).expect(rt, "memory")
}

/// Adds a note of the seat, and takes again where another was published since. Gives its number.
pub(crate) fn add<R: Wait + Abort>(
    rt: &R,
    alloc: Global,
    board: &Board<Log>,
    seat: &mut Seat<Log>,
    who: u8,
) -> u64
    requires { IsSeatOf log_meaning board.now seat.old × (who ≡ seat.old.view.number) }
    ensures { IsSame seat.old seat.new }
{
    for _ in rt.forever() {
        let base = board.take(rt, seat).expect(rt, "memory");
        let next = longer(rt, alloc, &base, Note { seat: who });
        match board.publish(rt, seat, base.count(), next) {
            Ok(count) => return count,
            Err(Unpublished::Moved { newest: _, back: _ }) => {}
            Err(Unpublished::Memory { back: _ }) => assert!(rt; false, "memory"),
        }
    }
    unreachable!()
}
