//! The conversation of a session at its door.

ghost use Rattle.std.specs.Prelude.{◌≡◌, ◌≤◌, ◌&&◌, [], IfSome};
ghost use Rattle.version_board.specs.Callers.{IsSame};
ghost use Rattle.script_reader.specs.Live.{live_end};
ghost use Rattle.script_reader.specs.LiveKept.{CanBeAnswered};
ghost use Rattle.live_session.specs.Talks.{Talked, door_of, telling};
ghost use Rattle.live_session.specs.Turns.{Answers, Replies, Reads, Rounds};
ghost use Rattle.seated_session.specs.Seated.{HasAnswered};

use crate::seated::SeatedSession;
use live_doors::{Door, Lost};
use live_journal::Room;
use live_session::{Manner, Outcome, Reply, Round, TalkEnd, Told, Unanswered, is_clean};
use script_reader::{Heard, Item, LiveReader, Unread};
use sta_outside::{Gate, Sink};
use std::alloc::Global;
use std::sync::Wait;
use std::thread::Threads;
use timing_defs::Design;

/// The reply to what a line ended.
fn answer_item<H: Threads + Wait + Sync, F: Sink + Drop, G: Gate, B: Room<Design>>(
    alloc: Global,
    session: &mut SeatedSession<'_, H, F, G, B>,
    item: Item,
) -> Result<Reply, TalkEnd>
    requires item { CanBeAnswered item }
    ensures same { IsSame session.old.seat session.new.seat }
    ensures rises { session.old.known.upto ≤ session.new.known.upto }
    ensures answer { Answers (HasAnswered session.old) (HasAnswered session.new) item result }
{
    match item {
        Item::Asked(command) => {
            let answer = session.answer(alloc, &command);
            drop(command);
            match answer {
                Ok(row) => Ok(Reply::Row(row)),
                Err(Unanswered::Memory) => Err(TalkEnd::Wanting),
                Err(Unanswered::Full) => Err(TalkEnd::Full),
            }
        }
        Item::Faulty(wrong) => Ok(Reply::Error(wrong)),
    }
}

/// Answers what a line ended, if it ended something, and tells the reply.
fn reply_to<D: Door, H: Threads + Wait + Sync, F: Sink + Drop, G: Gate, B: Room<Design>>(
    alloc: Global,
    door: &mut D,
    session: &mut SeatedSession<'_, H, F, G, B>,
    manner: &Manner,
    item: Option<Item>,
) -> Told
    requires item { IfSome item CanBeAnswered }
    ensures same { IsSame session.old.seat session.new.seat }
    ensures rises { session.old.known.upto ≤ session.new.known.upto }
    ensures reply { Replies (HasAnswered session.old) (HasAnswered session.new)
        (telling session.new.known.upto session.new.known.torn manner.now) item
        (door_of D.left D.trace D.faults door.old) (door_of D.left D.trace D.faults door.new)
        result.clean result.end }
{
    match item {
        None => Told {
            end: None,
            clean: true,
        },
        Some(item) => match answer_item(alloc, session, item) {
            Ok(reply) => {
                let clean = is_clean(&reply);
                let end = session.tell_reply(alloc, door, manner, &reply);
                drop(reply);
                Told { end, clean }
            }
            Err(end) => Told {
                end: Some(end),
                clean: true,
            },
        },
    }
}

/// Answers a line that was heard.
fn read_line<D: Door, H: Threads + Wait + Sync, F: Sink + Drop, G: Gate, B: Room<Design>>(
    alloc: Global,
    door: &mut D,
    session: &mut SeatedSession<'_, H, F, G, B>,
    manner: &Manner,
    reader: LiveReader,
    line: Vec<u8>,
) -> Round
    ensures same { IsSame session.old.seat session.new.seat }
    ensures rises { session.old.known.upto ≤ session.new.known.upto }
    ensures read { Reads (HasAnswered session.old) (HasAnswered session.new)
        (telling session.new.known.upto session.new.known.torn manner.now) reader line.items
        (door_of D.left D.trace D.faults door.old) (door_of D.left D.trace D.faults door.new)
        result }
{
    let read = reader.line(alloc, &line);
    drop(line);
    match read {
        Ok(Heard { reader, item }) => match reply_to(alloc, door, session, manner, item) {
            Told { end: None, clean } => Round::Goes { reader, clean },
            Told {
                end: Some(end),
                clean,
            } => {
                drop(reader);
                Round::Ends { end, clean }
            }
        },
        Err(Unread::Memory) => Round::Ends {
            end: TalkEnd::Wanting,
            clean: true,
        },
        Err(Unread::Uncounted) => Round::Ends {
            end: TalkEnd::Full,
            clean: true,
        },
    }
}

/// What the input's end makes wrong; it is no command.
fn end_item(reader: &LiveReader) -> Option<Item>
    ensures item { result ≡ live_end reader.now.place }
    ensures asked { IfSome result CanBeAnswered }
{
    reader.end()
}

/// Hears the next line, and answers it.
fn hear_next<D: Door, H: Threads + Wait + Sync, F: Sink + Drop, G: Gate, B: Room<Design>>(
    alloc: Global,
    door: &mut D,
    session: &mut SeatedSession<'_, H, F, G, B>,
    manner: &Manner,
    reader: LiveReader,
) -> Round
    ensures same { IsSame session.old.seat session.new.seat }
    ensures rises { session.old.known.upto ≤ session.new.known.upto }
    ensures round { Rounds (HasAnswered session.old) (HasAnswered session.new)
        (telling session.new.known.upto session.new.known.torn manner.now) reader
        (door_of D.left D.trace D.faults door.old) (door_of D.left D.trace D.faults door.new)
        result }
{
    match door.hear(alloc) {
        Ok(Some(line)) => read_line(alloc, door, session, manner, reader, line),
        Ok(None) => {
            let item = end_item(&reader);
            drop(reader);
            match reply_to(alloc, door, session, manner, item) {
                Told { end: None, clean } => Round::Ends {
                    end: TalkEnd::Closed,
                    clean,
                },
                Told {
                    end: Some(end),
                    clean,
                } => Round::Ends { end, clean },
            }
        }
        Err(lost) => {
            drop(reader);
            let end = match lost {
                Lost::Memory => TalkEnd::Wanting,
                Lost::Input | Lost::Output => TalkEnd::Deaf,
            };
            Round::Ends { end, clean: true }
        }
    }
}

/// Whether both are so.
fn both(one: bool, other: bool) -> bool
    ensures { result ≡ (one && other) }
{
    one && other
}

/// The conversation of a session at its door: hears each line, answers what it ends, and says the reply before it hears the
/// next one, until the input ends. With a journal a row is said once the journal has all entries up to its number.
pub fn talk<D: Door, H: Threads + Wait + Sync, F: Sink + Drop, G: Gate, B: Room<Design>>(
    rt: &H,
    alloc: Global,
    door: &mut D,
    session: &mut SeatedSession<'_, H, F, G, B>,
    manner: &Manner,
) -> Outcome
    requires { HasAnswered session.old [] [] }
    ensures same { IsSame session.old.seat session.new.seat }
    ensures rises { session.old.known.upto ≤ session.new.known.upto }
    ensures talked { Talked (HasAnswered session.new)
        (telling session.new.known.upto session.new.known.torn manner.now)
        (door_of D.left D.trace D.faults door.old) (door_of D.left D.trace D.faults door.new)
        result.clean result.end }
{
    let mut reader = LiveReader::new();
    let mut clean = true;
    for _ in rt.forever() {
        match hear_next(alloc, door, session, manner, reader) {
            Round::Goes {
                reader: next,
                clean: answered,
            } => {
                let so_far = both(clean, answered);
                reader = next;
                clean = so_far;
            }
            Round::Ends {
                end,
                clean: answered,
            } => {
                let all = both(clean, answered);
                return Outcome { end, clean: all };
            }
        }
    }
    unreachable!()
}
