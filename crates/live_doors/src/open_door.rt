//! A door over an input and an output, which are open until it is closed.

ghost use Rattle.std.specs.Prelude.{◌≡◌, ◌≢◌, ◌≤◌, [], ◌∷◌, None, Some, IfOk, IfErr, IfSome, OnOk, OnErr, length};
ghost use Rattle.live_doors.specs.Doors.{kept, Grows, Says, SaysPart, HearsAt, HasCause};
ghost use Rattle.live_doors.specs.Lines.{kept_length, TakesLine};
ghost use Rattle.live_doors.specs.Streams.{coming, given};
ghost use Rattle.live_doors.specs.Marks.{deeds, told, untold, IsGiven, IsGivenPart, Writes, IsCut};
ghost use Rattle.sta_outside.specs.Shelf.{Rose};

use crate::door::{Door, Keeper, Lost};
use crate::history::History;
use crate::lines::next_line;
use crate::writing::write_whole;
use std::alloc::Global;
use std::io::{BufRead, Write};

/// The input and the output of a door.
#[derive(Drop)]
struct Streams<B, W> {
    input: B,
    output: W,
}

/// A door over an input and an output. It tells what its reads gave and its writes took, in their order, and
/// not the lines to come. The output must not hold bytes back. Closed, it has given up both.
#[derive(Drop)]
pub struct OpenDoor<B, W> {
    streams: Option<Streams<B, W>>,
    faults: u64,
    history: History,
}

impl<B: BufRead, W: Write> OpenDoor<B, W> {
    /// The door at which nothing was done yet.
    pub fn new(alloc: Global, input: B, output: W) -> OpenDoor<B, W>
        ensures streams { result.streams ≡ Some (record { input = input; output = output }) }
        ensures sound { result.faults ≡ 0 }
        ensures untouched { deeds result.history ≡ [] }
    {
        OpenDoor {
            streams: Some(Streams { input, output }),
            faults: 0,
            history: History::new(alloc),
        }
    }
}

/// The next line of an input that is not closed.
///
/// # Errors
///
/// `Input` and `Memory`.
fn line_of<B: BufRead, W>(
    alloc: Global,
    streams: &mut Option<Streams<B, W>>,
) -> Result<Option<Vec<u8>>, Lost>
    ensures line { IfOk result (TakesLine (coming B.remaining) streams.old streams.new) }
    ensures within { IfOk result (λ got. IfSome got (λ line. length line.items ≤ kept_length)) }
    ensures lost { IfErr result (λ lost. lost ≢ Lost.Output) }
{
    match streams {
        None => Err(Lost::Input),
        Some(streams) => next_line(alloc, &mut streams.input),
    }
}

/// Writes a piece into an output that is not closed. Where that fails, it answers how many of its bytes were
/// written.
fn written_to<B, W: Write>(streams: &mut Option<Streams<B, W>>, piece: &[u8]) -> Result<(), usize>
    ensures whole { OnOk result (IsGiven (given W.contents) streams.old streams.new piece.now) }
    ensures partly { IfErr result
        (IsGivenPart (given W.contents) streams.old streams.new piece.now) }
    ensures bound { IfErr result (λ count. count ≤ length piece.now) }
{
    match streams {
        None => Err(0),
        Some(streams) => write_whole(&mut streams.output, piece),
    }
}

impl<B: BufRead + Drop, W: Write + Drop> Door for OpenDoor<B, W> {
    ghost left = { untold };

    ghost trace = { told };

    ghost faults = { λ door. door.faults };

    fn hear(&mut self, alloc: Global) -> Result<Option<Vec<u8>>, Lost>
        ensures line { IfOk result (HearsAt untold told self.old self.new) }
        ensures within { IfOk result (λ got. IfSome got (λ line. length line.items ≤ kept_length)) }
        ensures quiet { OnOk result (self.new.faults ≡ self.old.faults) }
        ensures none { OnErr result (deeds self.new.history ≡ deeds self.old.history) }
        ensures cause { IfErr result (λ lost. HasCause lost self.old.faults self.new.faults) }
        // which bytes of the input it is, where they are known
        ensures bytes { IfOk result
            (TakesLine (coming B.remaining) self.old.streams self.new.streams) }
    {
        match line_of(alloc, &mut self.streams) {
            Ok(None) => Ok(None),
            Ok(Some(line)) => {
                self.history.hear(&line);
                Ok(Some(line))
            }
            Err(Lost::Memory) => Err(Lost::Memory),
            Err(_) => {
                self.faults = self.faults.saturating_add(1);
                Err(Lost::Input)
            }
        }
    }

    fn say(&mut self, piece: &Vec<u8>) -> Result<(), Lost>
        ensures whole { OnOk result (Says (told self.old) (told self.new) piece.now.items) }
        ensures quiet { OnOk result (self.new.faults ≡ self.old.faults) }
        ensures partly { OnErr result (SaysPart (told self.old) (told self.new) piece.now.items) }
        ensures cause { OnErr result (Rose self.old.faults self.new.faults) }
        ensures lost { IfErr result (λ lost. lost ≡ Lost.Output) }
        // what the output was given, where its bytes are known
        ensures bytes { OnOk result (Writes W.contents self.old self.new piece.now.items) }
        // and that it was given what is told of a piece that was cut
        ensures cut { OnErr result (IsCut W.contents self.old self.new piece.now.items) }
    {
        match written_to(&mut self.streams, piece.as_slice()) {
            Ok(()) => {
                self.history.say(piece);
                Ok(())
            }
            Err(count) => {
                self.history.cut(piece, count);
                self.faults = self.faults.saturating_add(1);
                Err(Lost::Output)
            }
        }
    }

    fn note<K: Keeper>(&mut self, _keeper: &K, number: u64)
        ensures kept { Grows (told self.old) (told self.new) (kept number ∷ []) }
        ensures quiet { self.new.faults ≡ self.old.faults }
    {
        self.history.keep(number);
    }

    fn close(&mut self)
        ensures same { deeds self.new.history ≡ deeds self.old.history }
        ensures quiet { self.new.faults ≡ self.old.faults }
        // both are given up
        ensures closed { self.new.streams ≡ None }
    {
        drop(self.streams.take());
    }
}
