//! The door of a session: what comes in and what goes out, in one order.

ghost use Rattle.std.specs.Prelude.{◌≡◌, ℕ, ◌≤◌, List, [], ◌∷◌, IfOk, IfErr, IfSome, OnOk, OnErr, length};
ghost use Rattle.std.specs.declared.option.Option.{Option};
ghost use Rattle.live_doors.specs.Doors.{Deed, kept, Loses, Grows, Says, SaysPart, HearsAt, HearsNothing, HasCause, IsUntouched};
ghost use Rattle.live_doors.specs.Lines.{kept_length};
ghost use Rattle.sta_outside.specs.Shelf.{Rose};

use std::alloc::Global;
use thiserror::Error;

/// What a call of a door lost.
#[derive(Debug, Clone, Copy, PartialEq, Eq, Drop, Error)]
pub enum Lost {
    /// The input failed.
    #[error("the input failed")]
    Input,
    /// The output failed.
    #[error("the output failed")]
    Output,
    /// Want of memory.
    #[error("out of memory")]
    Memory,
}

/// Who keeps a session's journal.
pub trait Keeper {
    /// The number up to which all entries stand in the journal for certain.
    ghost safe: { Self → ℕ };
}

/// The two directions of a session, with the mark of its journal between them, so that their order is told.
pub trait Door {
    /// The lines to come, where the door tells them.
    ghost left: { Self → Option (List (List ℕ)) };

    /// What was done at it, where the door tells it.
    ghost trace: { Self → Option (List Deed) };

    /// How often it failed. The count stands still at `2^64 - 1`.
    ghost faults: { Self → ℕ };

    /// The next line, without its line feed; none at the input's end. Waits until it is there. Of a line of
    /// more than 65,536 bytes the first 65,537 are kept.
    ///
    /// # Errors
    ///
    /// `Input` only where the count of faults rose, and `Memory`; no line was heard.
    fn hear(&mut self, alloc: Global) -> Result<Option<Vec<u8>>, Lost>
        ensures line { IfOk result (HearsAt left trace self.old self.new) }
        ensures within { IfOk result (λ got. IfSome got (λ line. length line.items ≤ kept_length)) }
        ensures quiet { OnOk result (faults self.new ≡ faults self.old) }
        ensures none { OnErr result (HearsNothing left trace self.old self.new) }
        ensures cause { IfErr result (λ lost. HasCause lost (faults self.old) (faults self.new)) };

    /// Writes a piece and hands it on.
    ///
    /// # Errors
    ///
    /// `Output`, where the count of faults rose; nothing or a prefix of the piece was written.
    fn say(&mut self, piece: &Vec<u8>) -> Result<(), Lost>
        ensures same { Loses (left self.old) (left self.new) [] }
        ensures whole { OnOk result (Says (trace self.old) (trace self.new) piece.now.items) }
        ensures quiet { OnOk result (faults self.new ≡ faults self.old) }
        ensures partly { OnErr result (SaysPart (trace self.old) (trace self.new) piece.now.items) }
        ensures cause { OnErr result (Rose (faults self.old) (faults self.new)) }
        ensures lost { IfErr result (λ lost. lost ≡ Lost.Output) };

    /// Notes that all entries up to a number stand in the journal, as its keeper knows.
    fn note<K: Keeper>(&mut self, keeper: &K, number: u64)
        requires stood { number ≤ K.safe keeper.now }
        ensures same { Loses (left self.old) (left self.new) [] }
        ensures kept { Grows (trace self.old) (trace self.new) (kept number ∷ []) }
        ensures quiet { faults self.new ≡ faults self.old };

    /// Closes the door when its session has ended: it gives up its input and its output, so whoever is at their
    /// other ends sees the end. What was done stays told.
    fn close(&mut self)
        ensures left { left self.new ≡ left self.old }
        ensures same { trace self.new ≡ trace self.old }
        ensures quiet { faults self.new ≡ faults self.old };
}

/// Where sessions find their doors.
pub trait Hall<D: Door> {
    ghost use Rattle.live_doors.specs.declared.door.Lost.{Lost};

    /// The lines that come in at a seat, where the hall tells them.
    ghost lines: { Self → ℕ → Option (List (List ℕ)) };

    /// The reasons that it may have to open no door at a seat.
    ghost denies: { Self → ℕ → Lost → Type 0 };

    /// Opens the door of a seat, its input first; seats count from 1. Waits until both ends are there, so each
    /// session's own thread opens its door.
    ///
    /// # Errors
    ///
    /// What could not be opened, or `Memory`: only a reason for which the hall denies this seat its door.
    fn open(&self, alloc: Global, seat: u32) -> Result<D, Lost>
        ensures lines { IfOk result (λ door. D.left door ≡ lines self.now seat) }
        ensures untouched { IfOk result (λ door. IsUntouched (D.trace door)) }
        ensures sound { IfOk result (λ door. D.faults door ≡ 0) }
        ensures cause { IfErr result (λ lost. denies self.now seat lost) };
}
