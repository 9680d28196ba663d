//! Texts that grow piece by piece: the answers, and the documents of rows.

use itoa::Buffer;
use std::alloc::Global;
use timing_defs::{Dir, Kind, Name, ReadFault, Split, Tran};

/// A text that grows. Where memory is wanting it goes on without the piece, and tells so.
#[derive(Drop)]
pub(crate) struct Text {
    bytes: Vec<u8>,
    short: bool,
}

impl Text {
    pub(crate) fn new(alloc: Global) -> Text {
        Text {
            bytes: Vec::new(alloc),
            short: false,
        }
    }

    /// Whether a piece is wanting.
    pub(crate) fn is_short(&self) -> bool {
        self.short
    }

    pub(crate) fn as_bytes(&self) -> &[u8] {
        self.bytes.as_slice()
    }

    /// Adds bytes.
    pub(crate) fn add(&mut self, bytes: &[u8]) {
        if self.bytes.extend_from_slice(bytes).is_err() {
            self.short = true;
        }
    }

    /// Makes it empty.
    pub(crate) fn clear(&mut self) {
        self.bytes.clear();
    }

    /// Adds a byte.
    pub(crate) fn byte(&mut self, byte: u8) {
        self.add(&[byte]);
    }

    /// Tells that memory is wanting.
    pub(crate) fn want(&mut self) {
        self.short = true;
    }

    /// Adds a line feed.
    pub(crate) fn end(&mut self) {
        self.add(b"\n");
    }

    /// Adds a line.
    pub(crate) fn line(&mut self, line: &str) {
        self.add(line.as_bytes());
        self.end();
    }

    /// Adds a mark and a number.
    pub(crate) fn number(&mut self, mark: &[u8], number: i64) {
        let mut digits = Buffer::new();
        self.add(mark);
        self.add(digits.format(number).as_bytes());
    }

    /// Adds a mark and a number that has no sign.
    pub(crate) fn count(&mut self, mark: &[u8], count: u64) {
        let mut digits = Buffer::new();
        self.add(mark);
        self.add(digits.format(count).as_bytes());
    }

    /// Adds a mark and a name.
    pub(crate) fn name(&mut self, mark: &[u8], name: &Name) {
        self.add(mark);
        self.add(name.as_bytes());
    }

    /// Adds names, each behind a blank.
    pub(crate) fn names(&mut self, names: &[Name]) {
        for name in names {
            self.name(b" ", name);
        }
    }

    /// Adds the line of a fault.
    pub(crate) fn fault(&mut self, fault: ReadFault) {
        match fault {
            ReadFault::At { code, offset } => {
                self.add(b"fault ");
                self.add(code.label().as_bytes());
                self.count(b" ", offset);
                self.end();
            }
            ReadFault::Memory => self.want(),
        }
    }

    pub(crate) fn tran(&mut self, tran: Tran) {
        match tran {
            Tran::Rise => self.add(b" rise"),
            Tran::Fall => self.add(b" fall"),
        }
    }

    pub(crate) fn split(&mut self, split: Split) {
        match split {
            Split::Early => self.add(b" early"),
            Split::Late => self.add(b" late"),
        }
    }

    pub(crate) fn kind(&mut self, mark: &[u8], kind: Kind) {
        self.add(mark);
        match kind {
            Kind::Setup => self.add(b"setup"),
            Kind::Hold => self.add(b"hold"),
        }
    }

    /// Adds the mark of a direction.
    pub(crate) fn dir(&mut self, dir: Dir) {
        match dir {
            Dir::Input => self.add(b" <"),
            Dir::Output => self.add(b" >"),
        }
    }
}
