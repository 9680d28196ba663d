//! Doors of files, and of the standard input and output.

use crate::hearing::hears;
use crate::keepers::Keeping;
use live_doors::{Door, Hall, Lost, NamedHall, StandardHall};
use sta_outside::{FileShelf, Shelf};
use std::alloc::Global;
use std::fs;
use std::process::Abort;
use std::rt::Files;

/// Opens the door of a seat, as a session's own thread does: the hall is shared and the door comes back.
fn opened<D: Door + Send + Drop, H: Hall<D> + Sync>(
    alloc: Global,
    hall: &H,
    seat: u32,
) -> Result<D, Lost> {
    hall.open(alloc, seat)
}

/// Asserts that a hall has no door at a seat, and why.
fn assert_denied<D: Door + Send + Drop, H: Hall<D> + Sync>(
    rt: &impl Abort,
    alloc: Global,
    hall: &H,
    seat: u32,
    wanted: Lost,
) {
    assert_eq!(rt; opened(alloc, hall, seat).err(), Some(wanted));
}

/// Writes a file.
fn write_file<R: Files + Abort>(rt: &R, name: &str, text: &str) {
    fs::write(rt, name, text).expect(rt, "a file");
}

/// Removes two files.
fn remove_files<R: Files + Abort>(rt: &R, one: &str, other: &str) {
    fs::remove_file(rt, one).expect(rt, "no file");
    fs::remove_file(rt, other).expect(rt, "no file");
}

/// Asserts the bytes of a file.
fn assert_file<R: Files + Abort>(rt: &R, alloc: Global, name: &str, wanted: &[u8]) {
    let mut shelf = FileShelf::new(rt);
    let written = shelf.fetch(alloc, name).expect(rt, "a file");
    assert_eq!(rt; written.as_slice(), wanted);
    drop(written);
}

/// Asserts the next line, notes a number, and says the line.
fn assert_said_back<D: Door>(
    rt: &impl Abort,
    alloc: Global,
    door: &mut D,
    number: u64,
    wanted: &[u8],
) {
    let line = door.hear(alloc).expect(rt, "a line").expect(rt, "a line");
    assert_eq!(rt; line.as_slice(), wanted);
    door.note(&Keeping { number }, number);
    assert_eq!(rt; door.say(&line), Ok(()));
    drop(line);
}

/// Asserts that a door's input is at its end.
fn assert_end<D: Door>(rt: &impl Abort, alloc: Global, door: &mut D) {
    assert_eq!(rt; hears(alloc, door), Ok(false), "no line");
}

/// Asserts that the door of the second seat hears one file and writes the other, and that the other seats have none.
fn assert_seats<D: Door + Send + Drop, H: Hall<D> + Sync, R: Files + Abort>(
    rt: &R,
    alloc: Global,
    hall: &H,
    output: &str,
) {
    let mut door = opened(alloc, hall, 2).expect(rt, "a door");
    assert_said_back(rt, alloc, &mut door, 1, b"take".as_slice());
    assert_said_back(rt, alloc, &mut door, 2, b"ask".as_slice());
    assert_end(rt, alloc, &mut door);
    assert_file(rt, alloc, output, b"takeask".as_slice());
    assert_denied(rt, alloc, hall, 1, Lost::Input);
    assert_denied(rt, alloc, hall, 3, Lost::Output);
    assert_denied(rt, alloc, hall, 4, Lost::Input);
    drop(door);
}

#[test]
fn a_door_of_two_files_hears_one_and_writes_the_other(rt: HostRuntime) {
    let alloc = rt.alloc();
    let (input, output) = ("door_tests_in.txt", "door_tests_out.txt");
    write_file(&rt, input, "take\nask");
    write_file(&rt, output, "what an older run wrote\n");
    let mut hall = NamedHall::new(alloc, &rt);
    hall.add_seat("door_tests_missing.txt", output)
        .expect(&rt, "memory");
    hall.add_seat(input, output).expect(&rt, "memory");
    hall.add_seat(input, "missing_folder/out.txt")
        .expect(&rt, "memory");
    assert_seats(&rt, alloc, &hall, output);
    remove_files(&rt, input, output);
}

/// Asserts that the door of the first seat hears nothing.
fn assert_empty<D: Door + Send + Drop, H: Hall<D> + Sync>(
    rt: &impl Abort,
    alloc: Global,
    hall: &H,
) {
    let mut door = opened(alloc, hall, 1).expect(rt, "a door");
    assert_end(rt, alloc, &mut door);
    drop(door);
}

#[test]
fn a_door_makes_its_output(rt: HostRuntime) {
    let alloc = rt.alloc();
    let (input, output) = ("door_tests_empty.txt", "door_tests_new.txt");
    write_file(&rt, input, "");
    let mut hall = NamedHall::new(alloc, &rt);
    hall.add_seat(input, output).expect(&rt, "memory");
    assert_empty(&rt, alloc, &hall);
    remove_files(&rt, input, output);
}

/// Asserts that the door of the first seat says an empty piece.
fn assert_says<D: Door + Send + Drop, H: Hall<D> + Sync>(rt: &impl Abort, alloc: Global, hall: &H) {
    let mut door = opened(alloc, hall, 1).expect(rt, "a door");
    let nothing = Vec::new(alloc);
    assert_eq!(rt; door.say(&nothing), Ok(()));
    drop(nothing);
    drop(door);
}

#[test]
fn the_standard_door_opens(rt: HostRuntime) {
    let hall = StandardHall::new(rt);
    assert_says(&rt, rt.alloc(), &hall);
}
