//! What a door in memory tells, and each of its calls failing in turn.

use crate::hearing::hears;
use crate::keepers::Keeping;
use live_doors::{Done, Door, Hall, Lost, MemDoor, MemHall, MemSeat};
use std::alloc::Global;
use std::process::Abort;

fn bytes(rt: &impl Abort, alloc: Global, text: &str) -> Vec<u8> {
    Vec::from_slice(alloc, text.as_bytes()).expect(rt, "memory")
}

/// A door at which two lines come in, and whose calls of these numbers fail.
fn door_of(rt: &impl Abort, alloc: Global, fails: &[u64]) -> MemDoor {
    let mut lines = Vec::new(alloc);
    lines.push(bytes(rt, alloc, "take")).expect(rt, "memory");
    lines.push(bytes(rt, alloc, "ask")).expect(rt, "memory");
    MemDoor::new(
        alloc,
        lines,
        Vec::from_slice(alloc, fails).expect(rt, "memory"),
    )
}

/// Answers the next line that a door gives; tells whether there was one.
fn answers<D: Door>(
    alloc: Global,
    door: &mut D,
    answer: &Vec<u8>,
    number: u64,
) -> Result<bool, Lost> {
    if !hears(alloc, door)? {
        return Ok(false);
    }
    door.note(&Keeping { number }, number);
    door.say(answer)?;
    Ok(true)
}

/// Answers each line that a door gives, until its end or a fault.
fn answers_all<D: Door>(alloc: Global, door: &mut D, answer: &Vec<u8>) -> Option<Lost> {
    for number in 7..12 {
        match answers(alloc, door, answer, number) {
            Ok(true) => {}
            Ok(false) => return None,
            Err(lost) => return Some(lost),
        }
    }
    None
}

/// Says `told` to each line that a door gives, until its end or a fault.
fn talk<D: Door>(rt: &impl Abort, alloc: Global, door: &mut D) -> Option<Lost> {
    let answer = bytes(rt, alloc, "told");
    let lost = answers_all(alloc, door, &answer);
    drop(answer);
    lost
}

/// `h` for a line that was heard, `k` for a number that was kept, `s` for a piece that was said.
fn letter_of(done: &Done) -> u8 {
    match done {
        Done::Heard(_) => b'h',
        Done::Kept(_) => b'k',
        Done::Said(_) => b's',
    }
}

/// A letter for each deed.
fn letters(rt: &impl Abort, alloc: Global, door: &MemDoor) -> Vec<u8> {
    let mut letters = Vec::new(alloc);
    for done in door.done().expect(rt, "the deeds") {
        letters.push(letter_of(done)).expect(rt, "memory");
    }
    letters
}

/// Asserts the letters of a door's deeds.
fn assert_letters(rt: &impl Abort, alloc: Global, door: &MemDoor, wanted: &str) {
    let letters = letters(rt, alloc, door);
    assert_eq!(rt; letters.as_slice(), wanted.as_bytes());
    drop(letters);
}

/// Asserts the deeds of a talk at a door whose call of this number fails, and how it ends.
fn assert_talk(rt: &impl Abort, alloc: Global, fails: u64, deeds: &str, end: Option<Lost>) {
    let mut door = door_of(rt, alloc, &[fails]);
    assert_eq!(rt; talk(rt, alloc, &mut door), end);
    assert_letters(rt, alloc, &door, deeds);
    let faults = match end {
        None => 0,
        Some(_) => 1,
    };
    assert_eq!(rt; door.fault_count(), faults);
    drop(door);
}

#[test]
fn each_call_of_a_door_in_memory_fails_in_turn(rt: HostRuntime) {
    assert_talk(&rt, rt.alloc(), 0, "hkshks", None);
    assert_talk(&rt, rt.alloc(), 1, "", Some(Lost::Input));
    assert_talk(&rt, rt.alloc(), 2, "hks", Some(Lost::Output));
    assert_talk(&rt, rt.alloc(), 3, "hks", Some(Lost::Input));
    assert_talk(&rt, rt.alloc(), 4, "hkshks", Some(Lost::Output));
    assert_talk(&rt, rt.alloc(), 5, "hkshks", Some(Lost::Input));
    assert_talk(&rt, rt.alloc(), 6, "hkshks", None);
}

/// Asserts the deed at a place, from 0.
fn assert_deed(rt: &impl Abort, door: &MemDoor, at: usize, wanted: &Done) {
    match door.done().expect(rt, "the deeds").get(at) {
        Some(deed) => assert_eq!(rt; *deed, *wanted),
        None => assert!(rt; false),
    }
}

/// Asserts that a line was heard, as the deed at a place.
fn assert_heard(rt: &impl Abort, alloc: Global, door: &MemDoor, at: usize, line: &str) {
    let wanted = Done::Heard(bytes(rt, alloc, line));
    assert_deed(rt, door, at, &wanted);
    drop(wanted);
}

/// Asserts that a piece was said, as the deed at a place.
fn assert_said(rt: &impl Abort, alloc: Global, door: &MemDoor, at: usize, piece: &str) {
    let wanted = Done::Said(bytes(rt, alloc, piece));
    assert_deed(rt, door, at, &wanted);
    drop(wanted);
}

/// Asserts that a number was kept, as the deed at a place.
fn assert_kept(rt: &impl Abort, door: &MemDoor, at: usize, number: u64) {
    let wanted = Done::Kept(number);
    assert_deed(rt, door, at, &wanted);
    drop(wanted);
}

/// Asserts how many deeds there are.
fn assert_deed_count(rt: &impl Abort, door: &MemDoor, wanted: usize) {
    assert_eq!(rt; door.done().expect(rt, "the deeds").len(), wanted);
}

#[test]
fn a_door_in_memory_records_what_was_done(rt: HostRuntime) {
    let alloc = rt.alloc();
    let mut door = door_of(&rt, alloc, &[4]);
    assert_eq!(rt; talk(&rt, alloc, &mut door), Some(Lost::Output));
    assert_deed_count(&rt, &door, 6);
    assert_heard(&rt, alloc, &door, 0, "take");
    assert_kept(&rt, &door, 1, 7);
    assert_said(&rt, alloc, &door, 2, "told");
    assert_heard(&rt, alloc, &door, 3, "ask");
    assert_kept(&rt, &door, 4, 8);
    assert_said(&rt, alloc, &door, 5, "to");
    drop(door);
}

/// A seat at which a line of 70,000 bytes comes in, and whose second call fails.
fn seat_of_a_long_line(rt: &impl Abort, alloc: Global) -> MemSeat {
    let mut long = Vec::new(alloc);
    long.resize(70_000, b'y').expect(rt, "memory");
    let mut lines = Vec::new(alloc);
    lines.push(long).expect(rt, "memory");
    let fails = Vec::from_slice(alloc, &[2]).expect(rt, "memory");
    MemSeat { lines, fails }
}

/// A hall with one seat.
fn hall_of(rt: &impl Abort, alloc: Global, seat: MemSeat) -> MemHall {
    let mut seats = Vec::new(alloc);
    seats.push(seat).expect(rt, "memory");
    MemHall::new(seats)
}

/// Asserts the length of the next line.
fn assert_length<D: Door>(rt: &impl Abort, alloc: Global, door: &mut D, wanted: usize) {
    let line = door.hear(alloc).expect(rt, "a line").expect(rt, "a line");
    assert_eq!(rt; line.len(), wanted);
    drop(line);
}

/// Asserts that the next call to hear fails, and the one behind it does not.
fn assert_one_fault<D: Door>(rt: &impl Abort, alloc: Global, door: &mut D) {
    assert_eq!(rt; hears(alloc, door).err(), Some(Lost::Input));
    assert!(rt; hears(alloc, door).is_ok());
}

#[test]
fn a_hall_in_memory_opens_its_seats(rt: HostRuntime) {
    let alloc = rt.alloc();
    let hall = hall_of(&rt, alloc, seat_of_a_long_line(&rt, alloc));
    let mut door = hall.open(alloc, 1).expect(&rt, "a door");
    assert_length(&rt, alloc, &mut door, 65_537);
    assert_one_fault(&rt, alloc, &mut door);
    assert_eq!(rt; hall.open(alloc, 2).err(), Some(Lost::Input));
    drop(door);
    drop(hall);
}
