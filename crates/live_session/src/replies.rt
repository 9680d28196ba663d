//! What a session replies, and what it asks of the session behind it.

ghost use Rattle.std.specs.Prelude.{◌≡◌, ◌≤◌, Bool, true, OnOk, IfErr, List};
ghost use Rattle.timing_defs.specs.declared.scripts.Command.{Command};
ghost use Rattle.timing_defs.specs.declared.scripts.Row.{Row};
ghost use Rattle.live_session.specs.Turns.{Remains};

use live_doors::Keeper;
use sta_text::Wrong;
use std::alloc::Global;
use timing_defs::{Clock, Command, Items, Row};

/// A reply to what a line ends: the row of a command, or the error of a wrong line.
#[derive(Drop)]
pub enum Reply {
    Row(Row),
    Error(Wrong),
}

/// How a session ended.
#[derive(Debug, Clone, Copy, PartialEq, Eq, Drop)]
pub enum TalkEnd {
    /// The input ended, and all of it was answered.
    Closed,
    /// The input failed.
    Deaf,
    /// The output failed within the last reply.
    Mute,
    /// A put into the journal failed before the last row was told.
    Unkept,
    /// Memory was wanting.
    Wanting,
    /// The last line has no number, or its command has none: the session ends, with the status of want of memory.
    Full,
}

/// How a session ended, and whether all of its replies are answers: no wrong line, and no row that is `refused`, `no` or `not_yet`.
#[derive(Clone, Copy, Drop)]
pub struct Outcome {
    pub end: TalkEnd,
    pub clean: bool,
}

/// Why a command has no row.
#[derive(Clone, Copy, Drop)]
pub enum Unanswered {
    /// Want of memory.
    Memory,
    /// As many commands were answered as can be numbered.
    Full,
}

/// Why a row may not be told.
#[derive(Clone, Copy, Drop)]
pub enum Untold {
    /// A put into the journal failed.
    Journal,
    /// Want of memory.
    Memory,
}

/// How replies are told: rows name these clocks, and where there is a journal a row is told behind the mark that all
/// entries up to its number stand there.
#[derive(Drop)]
pub struct Manner {
    pub clocks: Items<Clock>,
    pub keeps: bool,
}

/// A session that keeps a journal, as its door sees it.
pub trait Keeping: Keeper {
    /// These commands were answered by these rows, in order.
    ghost ran: { Self → List Command → List Row → Type 0 };

    /// Whether a put into the journal failed.
    ghost torn: { Self → Bool };

    /// Sees to it that all entries up to a number stand in the journal.
    ///
    /// # Errors
    ///
    /// `Journal` only where a put into it failed, and `Memory`; what was answered stays.
    fn keep(&mut self, alloc: Global, number: u64) -> Result<(), Untold>
        ensures same { Remains (ran self.old) (ran self.new) }
        ensures rises { Self.safe self.old ≤ Self.safe self.new }
        ensures kept { OnOk result (number ≤ Self.safe self.new) }
        ensures torn { IfErr result (λ why. why ≡ Untold.Journal → torn self.new ≡ true) };
}
