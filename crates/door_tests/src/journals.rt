//! Files that are appended to under a lock.

use live_doors::{AppendSink, NotOpened};
use sta_outside::{FileShelf, PutFault, Shelf, Sink};
use std::alloc::Global;
use std::fs::{File, Metadata, OpenFile};
use std::io::{ErrorKind, Write};
use std::process::Abort;
use std::rt::Files;
use std::{fs, io};

/// Why a journal is not opened, or none where it is.
fn why_not_opened<R: Files<File = File>>(rt: &R, path: &str) -> Option<NotOpened> {
    match AppendSink::open(rt, path) {
        Ok(sink) => {
            drop(sink);
            None
        }
        Err(why) => Some(why),
    }
}

/// Asserts why a journal is not opened, or that it is.
fn assert_opening<R: Files<File = File> + Abort>(rt: &R, path: &str, wanted: Option<NotOpened>) {
    assert_eq!(rt; why_not_opened(rt, path), wanted, "{path}");
}

/// Puts a piece, as a desk that goes from thread to thread does.
fn put<S: Sink + Send>(sink: &mut S, piece: &str) -> Result<(), PutFault> {
    sink.put(piece.as_bytes())
}

/// Asserts that a piece is put.
fn assert_put<S: Sink + Send>(rt: &impl Abort, sink: &mut S, piece: &str) {
    assert_eq!(rt; put(sink, piece), Ok(()));
}

/// Asserts the bytes of a file.
fn assert_file<R: Files + Abort>(rt: &R, alloc: Global, path: &str, wanted: &[u8]) {
    let mut shelf = FileShelf::new(rt);
    let fetched = shelf.fetch(alloc, path).expect(rt, "a document");
    assert_eq!(rt; fetched.as_slice(), wanted);
    drop(fetched);
}

/// Asserts that there is no file.
fn assert_no_file<R: Files + Abort>(rt: &R, alloc: Global, path: &str) {
    let mut shelf = FileShelf::new(rt);
    let fetched = shelf.fetch(alloc, path);
    assert!(rt; fetched.is_err(), "no file");
    drop(fetched);
}

/// Holds a journal and puts two pieces, which stand in its file at once, while nobody else can open it.
fn put_while_held<R: Files<File = File> + Abort>(rt: &R, alloc: Global, path: &str) {
    let mut sink = AppendSink::open(rt, path).expect(rt, "the lock");
    assert_opening(rt, path, Some(NotOpened::Locked));
    assert_put(rt, &mut sink, "derates 1000 1000 1000 1000\n");
    assert_put(rt, &mut sink, "entry 2 1 1\n");
    assert_eq!(rt; sink.fault_count(), 0);
    assert_file(
        rt,
        alloc,
        path,
        b"journal 2 1 1\nderates 1000 1000 1000 1000\nentry 2 1 1\n".as_slice(),
    );
    drop(sink);
}

#[test]
fn a_journal_is_appended_to_and_has_one_holder(rt: HostRuntime) {
    let path = "door_tests_journal.txt";
    fs::write(&rt, path, "journal 2 1 1\n").expect(&rt, "a file");
    put_while_held(&rt, rt.alloc(), path);
    // the lock went with its holder
    assert_opening(&rt, path, None);
    fs::remove_file(&rt, path).expect(&rt, "no file");
}

#[test]
fn a_journal_that_is_missing_is_not_made(rt: HostRuntime) {
    let path = "door_tests_missing_journal.txt";
    assert_opening(&rt, path, Some(NotOpened::Missing));
    assert_no_file(&rt, rt.alloc(), path);
    let other = "missing_folder/journal.txt";
    assert_opening(&rt, other, Some(NotOpened::Missing));
    assert_opening(&rt, ".", Some(NotOpened::Unreachable));
}

/// A file that takes two bytes at a time, has this much room, and can be synchronized or not.
#[derive(Drop)]
struct Disk {
    bytes: Vec<u8>,
    room: usize,
    syncs: bool,
}

impl Write for Disk {
    fn write(&mut self, piece: &[u8]) -> io::Result<usize> {
        let count = piece.len().min(2);
        if self.room < self.bytes.len().saturating_add(count) {
            return Err(io::Error::from(ErrorKind::StorageFull));
        }
        self.bytes.extend_from_slice(&piece[..count])?;
        Ok(count)
    }

    fn flush(&mut self) -> io::Result<()> {
        Ok(())
    }
}

impl OpenFile for Disk {
    fn metadata(&self) -> io::Result<Metadata> {
        Err(io::Error::from(ErrorKind::Unsupported))
    }

    fn set_len(&self, _size: u64) -> io::Result<()> {
        Err(io::Error::from(ErrorKind::Unsupported))
    }

    fn sync_all(&self) -> io::Result<()> {
        Err(io::Error::from(ErrorKind::Unsupported))
    }

    fn sync_data(&self) -> io::Result<()> {
        if self.syncs {
            Ok(())
        } else {
            Err(io::Error::from(ErrorKind::Other))
        }
    }
}

/// Asserts what a put of `entry` answers.
fn assert_entry<S: Sink>(rt: &impl Abort, sink: &mut S, wanted: Result<(), PutFault>) {
    assert_eq!(rt; sink.put(b"entry"), wanted);
}

/// Asserts what two puts of `entry` answer on a disk, and how many of them failed.
fn assert_puts(
    rt: &impl Abort,
    alloc: Global,
    room: usize,
    syncs: bool,
    wanted: (Result<(), PutFault>, Result<(), PutFault>),
    faults: u64,
) {
    let mut sink = AppendSink::over(Disk {
        bytes: Vec::new(alloc),
        room,
        syncs,
    });
    assert_entry(rt, &mut sink, wanted.0);
    assert_entry(rt, &mut sink, wanted.1);
    assert_eq!(rt; sink.fault_count(), faults);
    drop(sink);
}

#[test]
fn a_put_fails_where_it_is_not_written_or_not_synchronized(rt: HostRuntime) {
    let failed = Err(PutFault::Failed);
    assert_puts(&rt, rt.alloc(), 10, true, (Ok(()), Ok(())), 0);
    assert_puts(&rt, rt.alloc(), 9, true, (Ok(()), failed), 1);
    assert_puts(&rt, rt.alloc(), 4, true, (failed, failed), 2);
    assert_puts(&rt, rt.alloc(), 10, false, (failed, failed), 2);
}
