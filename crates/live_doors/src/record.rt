//! The deeds of a door in memory, for those who look at them afterwards.

ghost use Rattle.std.specs.Prelude.{◌≡◌, ◌≤◌, [], true, IfSome, map, take, vec_len};
ghost use Rattle.live_doors.specs.Doors.{heard, kept, said};
ghost use Rattle.live_doors.specs.InMemory.{done_deed, IsRecorded};
ghost use Rattle.live_doors.specs.Marks.{deeds, IsDone};

use crate::history::History;
use std::alloc::Global;

/// What was done at a door.
#[derive(Debug, PartialEq, Eq, Drop)]
pub enum Done {
    /// A line was heard.
    Heard(Vec<u8>),
    /// The version of a number was kept.
    Kept(u64),
    /// A piece, or a prefix of it, was said.
    Said(Vec<u8>),
}

/// The deeds of a door: what proofs read of them, and the deeds themselves as long as memory lasts.
#[derive(Drop)]
pub(crate) struct Record {
    pub(crate) history: History,
    done: Vec<Done>,
    is_whole: bool,
    alloc: Global,
    ghost agrees: { is_whole ≡ true → map done_deed done.items ≡ deeds history },
}

/// Adds a line that was heard; tells whether memory was there for it.
#[tactic(auto, using(crate::proofs::Pieces::marks))]
fn push_heard(alloc: Global, done: &mut Vec<Done>, line: &[u8]) -> bool
    ensures { result ≡ true → IsRecorded done.old done.new (heard line.now) }
{
    match Vec::from_slice(alloc, line) {
        Ok(copy) => done.push(Done::Heard(copy)).is_ok(),
        Err(_) => false,
    }
}

/// Adds a piece that was said; tells whether memory was there for it.
#[tactic(auto, using(crate::proofs::Pieces::marks))]
fn push_said(alloc: Global, done: &mut Vec<Done>, piece: &[u8]) -> bool
    ensures { result ≡ true → IsRecorded done.old done.new (said piece.now) }
{
    match Vec::from_slice(alloc, piece) {
        Ok(copy) => done.push(Done::Said(copy)).is_ok(),
        Err(_) => false,
    }
}

/// Adds a number that was kept; tells whether memory was there for it.
#[tactic(auto, using(crate::proofs::Pieces::marks))]
fn push_kept(done: &mut Vec<Done>, number: u64) -> bool
    ensures { result ≡ true → IsRecorded done.old done.new (kept number) }
{
    done.push(Done::Kept(number)).is_ok()
}

impl Record {
    /// The record of nothing.
    pub(crate) fn new(alloc: Global) -> Record
        ensures { deeds result.history ≡ [] }
    {
        Record {
            history: History::new(alloc),
            done: Vec::new(alloc),
            is_whole: true,
            alloc,
        }
    }

    /// The deeds, where memory was there for each.
    pub(crate) fn done(&self) -> Option<&[Done]>
        ensures { IfSome result (λ done. map done_deed done.now ≡ deeds self.now.history) }
    {
        if self.is_whole {
            Some(self.done.as_slice())
        } else {
            None
        }
    }

    /// A line was heard.
    pub(crate) fn hear(&mut self, line: &Vec<u8>)
        ensures { IsDone self.old.history self.new.history (heard line.now.items) }
    {
        let is_recorded = push_heard(self.alloc, &mut self.done, line.as_slice());
        self.history.hear(line);
        self.is_whole = self.is_whole && is_recorded;
    }

    /// A piece was said.
    pub(crate) fn say(&mut self, piece: &Vec<u8>)
        ensures { IsDone self.old.history self.new.history (said piece.now.items) }
    {
        let is_recorded = push_said(self.alloc, &mut self.done, piece.as_slice());
        self.history.say(piece);
        self.is_whole = self.is_whole && is_recorded;
    }

    /// Of a piece the first bytes were said, so many of them.
    pub(crate) fn cut(&mut self, piece: &Vec<u8>, count: usize)
        requires { count ≤ vec_len piece.now }
        ensures { IsDone self.old.history self.new.history (said (take count piece.now.items)) }
    {
        let is_recorded = push_said(self.alloc, &mut self.done, &piece[..count]);
        self.history.cut(piece, count);
        self.is_whole = self.is_whole && is_recorded;
    }

    /// A number was kept.
    pub(crate) fn keep(&mut self, number: u64)
        ensures { IsDone self.old.history self.new.history (kept number) }
    {
        let is_recorded = push_kept(&mut self.done, number);
        self.history.keep(number);
        self.is_whole = self.is_whole && is_recorded;
    }
}
