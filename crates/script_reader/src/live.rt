//! A session that is read line by line.

ghost use Rattle.std.specs.Prelude.{◌≡◌, ◌<◌, ◌↔◌, IfOk, IfSome, OnOk, IfErr};
ghost use Rattle.script_reader.specs.Live.{beginning, next_item, behind_next, live_end};
ghost use Rattle.script_reader.specs.LiveKept.{CanBeAnswered};

use crate::places::{Standing, Step, heard};
use sta_text::Wrong;
use std::alloc::Global;
use std::marker::Model;
use timing_defs::{Code, Command};

/// What lines end: a command, or a wrong line with its code, `C1` or `C2`, and its number from 1.
#[derive(Drop)]
pub enum Item {
    Asked(Command),
    Faulty(Wrong),
}

/// Why a line was not read: want of memory, or as many lines stand before it as can be counted.
#[derive(Clone, Copy, Drop)]
pub enum Unread {
    Memory,
    Uncounted,
}

/// A reader of a session's lines, in which it is kept how many lines were read, and what is open.
/// Contracts see it as a `Reading`.
#[derive(Drop)]
pub struct LiveReader {
    place: Standing,
    lines: usize,
}

/// A reader behind a line, and the item that the line ended, if it ended one.
#[derive(Drop)]
pub struct Heard {
    pub reader: LiveReader,
    pub item: Option<Item>,
}

impl Model for LiveReader {
    ghost use Rattle.std.specs.Coded.{codes};
    ghost use Rattle.timing_defs.specs.contracts.reports.Trial as trial;
    ghost use Rattle.script_reader.specs.Live.{Reading};
    ghost use Rattle.script_reader.specs.LivePlaces.{place_of};
    ghost use Rattle.script_reader.specs.LiveKept.{IsKeptLive};

    ghost Value = { Reading };

    ghost coded = { Prim.hlevel (codes, trial.the_row.coded) };

    ghost view = { λ r. record { place = place_of r.place; lines = r.lines } };

    ghost invariant = { λ r. IsKeptLive (place_of r.place) };
}

impl LiveReader {
    /// A reader before the first line. Takes no memory.
    pub fn new() -> LiveReader
        ensures { result ≡ beginning }
    {
        LiveReader {
            place: Standing::Outside,
            lines: 0,
        }
    }

    /// Reads the next line, without its line feed. A command of one line is its item; the last line
    /// of a group or of a draft ends the command of the whole. A line without a word, a comment and
    /// another line of a group or a draft end none. A wrong line is an item, too: `C1` at a line that
    /// is no command or may not stand in its place, and at the begin of a group or a draft whose end
    /// this line is and that is empty; `C2` at the 1,001st edit of a group, the 101st trial of a draft,
    /// and a line above 65,536 bytes, whatever it says (so its first 65,537 bytes serve as well). What is
    /// left of a group or a draft behind a wrong line, up to its `commit_eco` or `end_what_if`, is passed
    /// over and ends no item. Nothing is left where the wrong line is the draft's `end_what_if`, in a
    /// group that is open. A command is as engines answer it.
    ///
    /// # Errors
    ///
    /// `Uncounted` where 2^64 - 1 lines were read before, and only there; or want of memory. The reader
    /// is gone then: what the line said is not known, so nothing behind it may be read.
    pub fn line(self, alloc: Global, line: &[u8]) -> Result<Heard, Unread>
        ensures item { IfOk result (λ heard. heard.item ≡ next_item self line.now) }
        ensures reader { IfOk result (λ heard. heard.reader ≡ behind_next self line.now) }
        ensures kept { IfOk result (λ heard. IfSome heard.item CanBeAnswered) }
        ensures counted { OnOk result (self.lines < usize.MAX) }
        ensures cause { IfErr result (λ why. (why ≡ Unread.Uncounted) ↔ (self.lines ≡ usize.MAX)) }
    {
        let LiveReader { place, lines } = self;
        if lines == usize::MAX {
            drop(place);
            return Err(Unread::Uncounted);
        }
        match heard(alloc, place, lines + 1, line) {
            Ok(Step { place, item }) => Ok(Heard {
                reader: LiveReader {
                    place,
                    lines: lines + 1,
                },
                item,
            }),
            Err(_) => Err(Unread::Memory),
        }
    }

    /// What the end of the lines makes wrong: `C1` at the begin of a group or a draft that is open and
    /// not passed over. Takes no memory.
    pub fn end(&self) -> Option<Item>
        ensures { result ≡ live_end self.now.place }
    {
        let begin = self.place.open_from()?;
        Some(Item::Faulty(Wrong {
            code: Code::ScriptBadCommand,
            at: begin,
        }))
    }
}
