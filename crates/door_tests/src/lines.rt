//! What a door hears of an input's bytes.

use crate::hearing::hears;
use live_doors::{Door, Lost, OpenDoor};
use std::alloc::Global;
use std::io;
use std::io::{BufReader, ErrorKind, Read};
use std::process::Abort;

/// This byte, so many times, and then a text.
fn repeated(rt: &impl Abort, alloc: Global, count: usize, text: &str) -> Vec<u8> {
    let mut bytes = Vec::new(alloc);
    bytes.resize(count, b'x').expect(rt, "memory");
    bytes
        .extend_from_slice(text.as_bytes())
        .expect(rt, "memory");
    bytes
}

/// The length and the first byte of a line; of an empty one a space.
fn shape_of(line: &[u8]) -> (usize, u8) {
    match line.first() {
        Some(byte) => (line.len(), *byte),
        None => (0, b' '),
    }
}

/// Asserts the next line by its length and its first byte.
fn assert_shape<D: Door>(rt: &impl Abort, alloc: Global, door: &mut D, wanted: (usize, u8)) {
    let line = door.hear(alloc).expect(rt, "a line").expect(rt, "a line");
    assert_eq!(rt; shape_of(line.as_slice()), wanted);
    drop(line);
}

/// Asserts that there is no line more.
fn assert_end<D: Door>(rt: &impl Abort, alloc: Global, door: &mut D) {
    assert_eq!(rt; hears(alloc, door), Ok(false));
}

/// Asserts the bytes of the next line.
fn assert_line<D: Door>(rt: &impl Abort, alloc: Global, door: &mut D, wanted: &[u8]) {
    let line = door.hear(alloc).expect(rt, "a line").expect(rt, "a line");
    assert_eq!(rt; line.as_slice(), wanted);
    drop(line);
}

/// Asserts four lines, of which the second is empty and the last has no line feed.
fn assert_four_lines<D: Door>(rt: &impl Abort, alloc: Global, door: &mut D) {
    assert_line(rt, alloc, door, b"take".as_slice());
    assert_line(rt, alloc, door, b"".as_slice());
    assert_line(rt, alloc, door, b"  at\r".as_slice());
    assert_line(rt, alloc, door, b"last".as_slice());
    assert_end(rt, alloc, door);
}

#[test]
fn an_input_is_heard_line_by_line(rt: HostRuntime) {
    let alloc = rt.alloc();
    let mut written = Vec::new(alloc);
    let mut door = OpenDoor::new(alloc, b"take\n\n  at\r\nlast".as_slice(), &mut written);
    assert_four_lines(&rt, alloc, &mut door);
    drop(door);
    drop(written);
}

/// Asserts what is kept of a long line, and the line `next` behind it.
fn assert_kept<D: Door>(rt: &impl Abort, alloc: Global, door: &mut D, kept: usize) {
    assert_shape(rt, alloc, door, (kept, b'x'));
    assert_shape(rt, alloc, door, (4, b'n'));
    assert_end(rt, alloc, door);
}

/// Asserts what is heard of a line of so many bytes, and of the line behind it.
fn assert_long(rt: &impl Abort, alloc: Global, count: usize, kept: usize) {
    let bytes = repeated(rt, alloc, count, "\nnext");
    let input = BufReader::new(alloc, bytes.as_slice()).expect(rt, "memory");
    let mut written = Vec::new(alloc);
    let mut door = OpenDoor::new(alloc, input, &mut written);
    assert_kept(rt, alloc, &mut door, kept);
    drop(door);
    drop(written);
    drop(bytes);
}

#[test]
fn of_a_long_line_one_byte_more_than_its_limit_is_kept(rt: HostRuntime) {
    assert_long(&rt, rt.alloc(), 1, 1);
    assert_long(&rt, rt.alloc(), 8_192, 8_192);
    assert_long(&rt, rt.alloc(), 65_536, 65_536);
    assert_long(&rt, rt.alloc(), 65_537, 65_537);
    assert_long(&rt, rt.alloc(), 200_000, 65_537);
}

/// Asserts what is kept of a long line, and that no line is behind it, however often it is asked for.
fn assert_last<D: Door>(rt: &impl Abort, alloc: Global, door: &mut D, kept: usize) {
    assert_shape(rt, alloc, door, (kept, b'x'));
    assert_end(rt, alloc, door);
    assert_end(rt, alloc, door);
}

#[test]
fn a_long_last_line_needs_no_line_feed(rt: HostRuntime) {
    let alloc = rt.alloc();
    let bytes = repeated(&rt, alloc, 200_000, "");
    let mut written = Vec::new(alloc);
    let mut door = OpenDoor::new(alloc, bytes.as_slice(), &mut written);
    assert_last(&rt, alloc, &mut door, 65_537);
    drop(door);
    drop(written);
    drop(bytes);
}

/// An input that gives `a`, is interrupted, gives `b`, a line feed and `c`, each by a call of its own, and is
/// then at its end; the call of this number, from 1, fails.
#[derive(Drop)]
struct Pieces {
    turn: u8,
    fails: u8,
}

impl Read for Pieces {
    fn read(&mut self, buf: &mut [u8]) -> io::Result<usize> {
        self.turn = self.turn.saturating_add(1);
        if self.turn == self.fails {
            return Err(io::Error::from(ErrorKind::BrokenPipe));
        }
        let byte = match self.turn {
            1 => b'a',
            2 => return Err(io::Error::from(ErrorKind::Interrupted)),
            3 => b'b',
            4 => b'\n',
            5 => b'c',
            _ => return Ok(0),
        };
        match buf.first_mut() {
            Some(first) => {
                *first = byte;
                Ok(1)
            }
            None => Ok(0),
        }
    }
}

/// How many lines are heard before the end or a fault, and the fault.
fn heard_before_the_end<D: Door>(alloc: Global, door: &mut D) -> (u8, Option<Lost>) {
    for heard in 0..9 {
        match hears(alloc, door) {
            Ok(true) => {}
            Ok(false) => return (heard, None),
            Err(lost) => return (heard, Some(lost)),
        }
    }
    (9, None)
}

/// How many lines are heard before the end or a fault, where the call of a number fails.
fn lines_heard(rt: &impl Abort, alloc: Global, fails: u8) -> (u8, Option<Lost>) {
    let input = BufReader::new(alloc, Pieces { turn: 0, fails }).expect(rt, "memory");
    let mut written = Vec::new(alloc);
    let mut door = OpenDoor::new(alloc, input, &mut written);
    let heard = heard_before_the_end(alloc, &mut door);
    drop(door);
    drop(written);
    heard
}

/// Asserts how many lines are heard where the call of a number fails, and the fault.
fn assert_lines_heard(rt: &impl Abort, alloc: Global, fails: u8, lines: u8, fault: Option<Lost>) {
    let heard = lines_heard(rt, alloc, fails);
    assert_eq!(rt; heard.0, lines);
    assert_eq!(rt; heard.1, fault);
}

#[test]
fn a_fault_of_the_input_ends_the_hearing(rt: HostRuntime) {
    let alloc = rt.alloc();
    assert_lines_heard(&rt, alloc, 0, 2, None);
    assert_lines_heard(&rt, alloc, 1, 0, Some(Lost::Input));
    assert_lines_heard(&rt, alloc, 2, 0, Some(Lost::Input));
    assert_lines_heard(&rt, alloc, 3, 0, Some(Lost::Input));
    assert_lines_heard(&rt, alloc, 4, 0, Some(Lost::Input));
    assert_lines_heard(&rt, alloc, 5, 1, Some(Lost::Input));
    assert_lines_heard(&rt, alloc, 6, 1, Some(Lost::Input));
}

/// What a door loses when it is asked for a line, and when a piece is said.
fn losses<D: Door>(alloc: Global, door: &mut D, piece: &Vec<u8>) -> (Option<Lost>, Option<Lost>) {
    (hears(alloc, door).err(), door.say(piece).err())
}

/// What a door loses when it is closed behind its first line: when it is asked for the next one, and when a piece is said.
fn lost_behind_a_line<D: Door>(
    rt: &impl Abort,
    alloc: Global,
    door: &mut D,
) -> (Option<Lost>, Option<Lost>) {
    assert_line(rt, alloc, door, b"take".as_slice());
    door.close();
    let piece = repeated(rt, alloc, 3, "\n");
    let lost = losses(alloc, door, &piece);
    drop(piece);
    lost
}

/// What a door over bytes lost that was closed behind its first line.
fn lost_when_closed(rt: &impl Abort, alloc: Global) -> (Option<Lost>, Option<Lost>) {
    let mut written = Vec::new(alloc);
    let mut door = OpenDoor::new(alloc, b"take\nnext".as_slice(), &mut written);
    let lost = lost_behind_a_line(rt, alloc, &mut door);
    drop(door);
    drop(written);
    lost
}

#[test]
fn a_closed_door_hears_and_says_nothing(rt: HostRuntime) {
    let lost = lost_when_closed(&rt, rt.alloc());
    assert_eq!(rt; lost, (Some(Lost::Input), Some(Lost::Output)));
}
