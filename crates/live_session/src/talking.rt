//! How a reply is told at a session's door.

ghost use Rattle.std.specs.Prelude.{◌≡◌, ◌≤◌, List, [], IfOk, IfErr, OnOk, OnErr, Some, None};
ghost use Rattle.live_doors.specs.Doors.{Grows, Loses};
ghost use Rattle.live_session.specs.Talks.{door_of, telling, reply_text, marks_of, is_clean, IsKept, IsUnkept};
ghost use Rattle.live_session.specs.Turns.{Remains, Tells};

use crate::replies::{Keeping, Manner, Reply, TalkEnd, Untold};
use live_doors::Door;
use report_text::{error_bytes, report_bytes};
use script_reader::LiveReader;
use sta_units::Memory;
use std::alloc::Global;
use timing_defs::Answer;

/// The text of a reply.
fn reply_bytes(alloc: Global, manner: &Manner, reply: &Reply) -> Result<Vec<u8>, Memory>
    ensures { IfOk result (λ bytes. bytes.items ≡ reply_text manner.now.clocks reply.now) }
{
    match reply {
        Reply::Row(row) => report_bytes(alloc, row, &manner.clocks),
        Reply::Error(wrong) => error_bytes(alloc, wrong.code, wrong.at as u64),
    }
}

/// Sees to it that a row may be told, and notes it at the door.
fn mark<D: Door, S: Keeping>(
    alloc: Global,
    door: &mut D,
    session: &mut S,
    manner: &Manner,
    reply: &Reply,
) -> Result<(), Untold>
    ensures same { Remains (S.ran session.old) (S.ran session.new) }
    ensures rises { S.safe session.old ≤ S.safe session.new }
    ensures quiet { (Loses (D.left door.old) (D.left door.new) [])
        × (D.faults door.new ≡ D.faults door.old) }
    ensures marked { OnOk result
        (Grows (D.trace door.old) (D.trace door.new) (marks_of manner.now.keeps reply.now)) }
    ensures kept { OnOk result
        (IsKept (telling (S.safe session.new) (S.torn session.new) manner.now) reply.now) }
    ensures journal { IfErr result
        (λ why. why ≡ Untold.Journal
        → IsUnkept (telling (S.safe session.new) (S.torn session.new) manner.now) reply.now) }
    ensures unmarked { OnErr result (Grows (D.trace door.old) (D.trace door.new) []) }
{
    match reply {
        Reply::Row(row) => {
            if manner.keeps {
                session.keep(alloc, row.number)?;
                door.note(session, row.number);
            }
            Ok(())
        }
        Reply::Error(_) => Ok(()),
    }
}

/// Tells a reply, or why it is not told whole.
#[tactic(auto, using(crate::proofs::DoorLaws::grows_more))]
pub fn tell<D: Door, S: Keeping>(
    alloc: Global,
    door: &mut D,
    session: &mut S,
    manner: &Manner,
    reply: &Reply,
) -> Option<TalkEnd>
    ensures same { Remains (S.ran session.old) (S.ran session.new) }
    ensures rises { S.safe session.old ≤ S.safe session.new }
    ensures told { Tells (telling (S.safe session.new) (S.torn session.new) manner.now) reply.now
        (door_of D.left D.trace D.faults door.old) (door_of D.left D.trace D.faults door.new)
        result }
{
    match reply_bytes(alloc, manner, reply) {
        Ok(text) => match mark(alloc, door, session, manner, reply) {
            Ok(()) => match door.say(&text) {
                Ok(()) => None,
                Err(_) => Some(TalkEnd::Mute),
            },
            Err(Untold::Journal) => Some(TalkEnd::Unkept),
            Err(Untold::Memory) => Some(TalkEnd::Wanting),
        },
        Err(Memory) => Some(TalkEnd::Wanting),
    }
}

/// Whether a reply is an answer.
pub fn is_clean(reply: &Reply) -> bool
    ensures { result ≡ is_clean reply.now }
{
    match reply {
        Reply::Row(row) => match &row.answer {
            Answer::Taken | Answer::Reached | Answer::Accepted | Answer::Told(_) => true,
            Answer::NotYet(_) | Answer::Refused(_) | Answer::No(_) => false,
        },
        Reply::Error(_) => false,
    }
}

/// What came of a reply: how the session ends at it, if it does, and whether it is an answer.
#[derive(Clone, Copy, Drop)]
pub struct Told {
    pub end: Option<TalkEnd>,
    pub clean: bool,
}

/// What comes of a round: the session goes on with its reader behind a line, or it ends; and whether the reply is an answer.
#[derive(Drop)]
pub enum Round {
    Goes { reader: LiveReader, clean: bool },
    Ends { end: TalkEnd, clean: bool },
}
