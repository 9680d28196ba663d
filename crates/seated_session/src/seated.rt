//! A live session at its seat.

ghost use Rattle.std.specs.Prelude.{◌≡◌, ◌+◌, ◌≤◌, [], Some, None, true};
ghost use Rattle.std.specs.Arc.{arc_value};
ghost use Rattle.version_board.specs.Callers.{IsSeatOf, IsSame, IsNew};
ghost use Rattle.session_engine.specs.Looking.{meant, Holds};
ghost use Rattle.session_engine.specs.Running.{is_runnable};
ghost use Rattle.script_reader.specs.LiveKept.{can_be_answered};
ghost use Rattle.live_session.specs.Talks.{door_of, telling};
ghost use Rattle.live_session.specs.Turns.{Runs, Tells};
ghost use Rattle.seated_session.specs.Seated.{HasAnswered, RanAt};

use crate::keepers::JournalKeeper;
use crate::shared::Shared;
use further_answers::FurtherQueries;
use live_doors::Door;
use live_journal::{Receipt, Room};
use live_session::{Manner, Reply, TalkEnd, Unanswered, tell};
use session_engine::{Answered, Version, answer_command, begin_session};
use sta_outside::{Gate, Point, Sink};
use sta_units::Memory;
use std::alloc::Global;
use std::marker::Model;
use std::sync::{Arc, Wait};
use std::thread::Threads;
use timing_defs::{Command, Design, Row};
use version_board::Seat;

/// A session at its seat: how it keeps the journal that it shares with others, the version that it holds, and how many commands it
/// has answered. Where memory was wanting for an answer it holds no version any more, and answers nothing.
#[derive(Drop)]
pub struct SeatedSession<'a, H, F: Sink + Drop, G, B: Room<Design>> {
    keeper: JournalKeeper<'a, H, F, G, B>,
    seat: Seat<Version>,
    who: u32,
    held: Option<Arc<Version>>,
    answered: u32,
    further: FurtherQueries,
}

impl<'a, H, F: Sink + Drop, G, B: Room<Design>> Model for SeatedSession<'a, H, F, G, B> {
    ghost use Rattle.std.specs.Prelude.{◌≡◌, IfSome, option_map};
    ghost use Rattle.std.specs.Arc.{arc_value};
    ghost use Rattle.version_board.specs.Callers.{IsSeatOf};
    ghost use Rattle.session_engine.specs.Looking.{meant, Holds};
    ghost use Rattle.seated_session.specs.Seated.{Seated};

    ghost Value = { Seated };

    ghost view = { λ s. record {
      seat = s.seat;
      held = option_map arc_value s.held;
      answered = s.answered;
      known =
          s.keeper.receipt;
    } };

    ghost invariant = { λ s. IsSeatOf meant s.keeper.shared.now.board.now s.seat
        × (s.seat.view.number ≡ s.who) × IfSome s.held (λ v. Holds s.seat.view (arc_value v)) };
}

impl<'a, H: Threads + Wait + Sync, F: Sink + Drop, G: Gate, B: Room<Design>> SeatedSession<
    'a,
    H,
    F,
    G,
    B,
> {
    /// A session that takes the newest version. Where memory is wanting for that, it holds none.
    pub fn begin(
        shared: &'a Shared<'a, H, F, G, B>,
        mut seat: Seat<Version>,
        who: u32,
        receipt: Receipt<B>,
    ) -> SeatedSession<'a, H, F, G, B>
        requires seat { IsSeatOf meant shared.now.board.now seat }
        requires new { IsNew who seat }
        ensures same { IsSame seat result.seat }
        ensures known { result.known ≡ receipt }
        ensures answered { HasAnswered result [] [] }
    {
        let held = match begin_session(shared.rt, who, shared.board, &mut seat, shared.gate) {
            Ok(held) => Some(held),
            Err(Memory) => None,
        };
        SeatedSession {
            keeper: JournalKeeper { shared, receipt },
            seat,
            who,
            held,
            answered: 0,
            further: FurtherQueries::new(shared.workers),
        }
    }

    /// Ends the session: its seat, and what it knows of the journal.
    pub fn end(self) -> (Seat<Version>, Receipt<B>)
        ensures { (result.0 ≡ self.entry.seat) × (result.1 ≡ self.entry.known) }
    {
        let SeatedSession {
            keeper,
            seat,
            who: _,
            held,
            answered: _,
            further,
        } = self;
        match held {
            Some(version) => Version::discard(version),
            None => {}
        }
        drop(further);
        let JournalKeeper { shared: _, receipt } = keeper;
        (seat, receipt)
    }

    /// Answers the command of a place over the version that the session held, which it gave up for that.
    fn answer_over(
        &mut self,
        alloc: Global,
        held: Arc<Version>,
        place: u32,
        command: &Command,
    ) -> Result<Row, Unanswered>
        requires given { self.old.held ≡ None }
        requires held { Holds self.old.seat.view (arc_value held) }
        requires place { place ≡ self.old.answered + 1 }
        requires command { is_runnable command.now ≡ true }
        ensures runs { Runs (RanAt self.old.seat.view (Some (arc_value held)) self.old.answered)
            (HasAnswered self.new) command.now result }
        ensures same { IsSame self.old.seat self.new.seat }
        ensures known { self.new.known ≡ self.old.known }
    {
        let shared = self.keeper.shared;
        match answer_command(
            shared.rt,
            alloc,
            self.who,
            shared.board,
            &mut self.seat,
            held,
            place,
            command,
            shared.workers,
            shared.gate,
            &self.further,
        ) {
            Ok(answered) => {
                let Answered { held, row } = answered;
                self.held = Some(held);
                self.answered = place;
                shared.gate.at(Point::Answered {
                    session: self.who,
                    command: place,
                });
                Ok(row)
            }
            Err(Memory) => Err(Unanswered::Memory),
        }
    }

    /// Answers the next command.
    ///
    /// # Errors
    ///
    /// Want of memory, or of a number for the command; what was answered before stays.
    #[tactic(auto, using(crate::proofs::Commands::runs))]
    pub(crate) fn answer(&mut self, alloc: Global, command: &Command) -> Result<Row, Unanswered>
        requires command { can_be_answered command.now ≡ true }
        ensures runs { Runs (HasAnswered self.old) (HasAnswered self.new) command.now result }
        ensures same { IsSame self.old.seat self.new.seat }
        ensures known { self.new.known ≡ self.old.known }
    {
        match self.held.take() {
            None => Err(Unanswered::Memory),
            Some(held) => {
                if self.answered == u32::MAX {
                    self.held = Some(held);
                    Err(Unanswered::Full)
                } else {
                    let place = self.answered + 1;
                    self.answer_over(alloc, held, place, command)
                }
            }
        }
    }
}

impl<H: Wait, F: Sink + Drop, G, B: Room<Design>> SeatedSession<'_, H, F, G, B> {
    /// Tells a reply at the session's door, or why it is not told whole.
    pub(crate) fn tell_reply<D: Door>(
        &mut self,
        alloc: Global,
        door: &mut D,
        manner: &Manner,
        reply: &Reply,
    ) -> Option<TalkEnd>
        ensures same { (self.new.seat ≡ self.old.seat) × (self.new.held ≡ self.old.held)
            × (self.new.answered ≡ self.old.answered) }
        ensures rises { self.old.known.upto ≤ self.new.known.upto }
        ensures told { Tells (telling self.new.known.upto self.new.known.torn manner.now) reply.now
            (door_of D.left D.trace D.faults door.old) (door_of D.left D.trace D.faults door.new)
            result }
    {
        tell(alloc, door, &mut self.keeper, manner, reply)
    }
}
