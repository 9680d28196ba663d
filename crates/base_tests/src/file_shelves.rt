//! Files that are fetched, and sources that are read to their end, a fault or the limit.

use sta_outside::{Fetch, FileShelf, Shelf, read_document};
use std::io::{ErrorKind, Read};
use std::{fs, io};

#[test]
fn a_file_is_fetched_and_a_missing_one_is_a_fault(rt: HostRuntime) {
    let mut shelf = FileShelf::new(&rt);
    let path = "sta_outside_fetched.txt";
    fs::write(&rt, path, "create_clock -period 10\n").expect(&rt, "a file");
    let fetched = shelf.fetch(rt.alloc(), path);
    fs::remove_file(&rt, path).expect(&rt, "no file");
    assert_eq!(rt;
        fetched.expect(&rt, "a document").as_slice(),
        b"create_clock -period 10\n".as_slice()
    );
    assert_eq!(rt; shelf.fault_count(), 0);
    let missing = shelf.fetch(rt.alloc(), "missing.sdc");
    assert_eq!(rt; missing.err(), Some(Fetch::Failed));
    assert_eq!(rt; shelf.fault_count(), 1);
}

/// A source of `ab`, then `c` after an interruption, and then its end or an error.
#[derive(Drop)]
struct Pieces {
    turn: u8,
    breaks: bool,
}

impl Read for Pieces {
    fn read(&mut self, buf: &mut [u8]) -> io::Result<usize> {
        if buf.len() < 2 {
            return Ok(0);
        }
        self.turn = self.turn.saturating_add(1);
        match self.turn {
            1 => {
                buf[0] = b'a';
                buf[1] = b'b';
                Ok(2)
            }
            2 => Err(io::Error::from(ErrorKind::Interrupted)),
            3 => {
                buf[0] = b'c';
                Ok(1)
            }
            _ if self.breaks => Err(io::Error::from(ErrorKind::BrokenPipe)),
            _ => Ok(0),
        }
    }
}

#[test]
fn reading_goes_on_to_the_end_and_fails_where_a_read_fails(rt: HostRuntime) {
    let mut whole = Pieces {
        turn: 0,
        breaks: false,
    };
    let doc = read_document(rt.alloc(), &mut whole).expect(&rt, "a document");
    assert_eq!(rt; doc.as_slice(), b"abc".as_slice());
    let mut broken = Pieces {
        turn: 0,
        breaks: true,
    };
    let fault = read_document(rt.alloc(), &mut broken).err();
    assert_eq!(rt; fault, Some(Fetch::Failed));
}

#[test]
fn reading_stops_one_byte_past_the_limit(rt: HostRuntime) {
    let mut endless = io::repeat(32);
    let fault = read_document(rt.alloc(), &mut endless).err();
    let seen = 67_108_865;
    assert_eq!(rt; fault, Some(Fetch::TooLong { seen }));
}
