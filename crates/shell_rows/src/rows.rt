//! The cases of the rows, one after the other.

use crate::documents::Documents;
use crate::lines::{Row, Setting, row_of};
use crate::running::print_run;
use std::alloc::Global;
use std::io;
use std::io::Print;
use std::sync::Wait;
use std::thread::Threads;

/// A case: its name, its words, at which fetch its shelf fails and at which piece its sink does (0: at none), and the sink's room.
#[derive(Clone, Copy, Drop)]
pub(crate) struct Case<'a> {
    pub(crate) name: &'a str,
    pub(crate) words: &'a str,
    pub(crate) fetch_fails: u64,
    pub(crate) put_fails: u64,
    pub(crate) room: u64,
}

impl<'a> Case<'a> {
    fn new(name: &'a str) -> Case<'a> {
        Case {
            name,
            words: "",
            fetch_fails: 0,
            put_fails: 0,
            room: 1_000_000,
        }
    }

    fn set(&mut self, setting: Setting<'a>) {
        match setting {
            Setting::Words(words) => self.words = words,
            Setting::FetchFails(number) => self.fetch_fails = number,
            Setting::PutFails(number) => self.put_fails = number,
            Setting::Room(room) => self.room = room,
        }
    }
}

/// What the rows so far say.
#[derive(Drop)]
pub(crate) struct Rows<'a> {
    /// The shared documents, and after them those of the case.
    documents: Documents,
    shared: usize,
    case: Option<Case<'a>>,
}

impl<'a> Rows<'a> {
    pub(crate) fn new(alloc: Global) -> Rows<'a> {
        Rows {
            documents: Documents::new(alloc),
            shared: 0,
            case: None,
        }
    }

    /// Runs the case that the rows so far are of, if there is one.
    fn run<H: AllocGlobal + Print + Threads + Wait + Sync>(&self, rt: &H) -> io::Result<()> {
        match &self.case {
            Some(case) => print_run(rt, case, &self.documents),
            None => Ok(()),
        }
    }

    /// Begins a case, with the shared documents alone.
    fn begin(&mut self, name: &'a str) {
        if self.case.is_none() {
            self.shared = self.documents.count();
        }
        self.documents.keep(self.shared);
        self.case = Some(Case::new(name));
    }

    /// Sets something of the case, and tells whether there is one.
    fn set(&mut self, setting: Setting<'a>) -> bool {
        match &mut self.case {
            Some(case) => {
                case.set(setting);
                true
            }
            None => false,
        }
    }

    /// Takes a row, and tells whether it is one.
    fn take<H: AllocGlobal + Print + Threads + Wait + Sync>(
        &mut self,
        rt: &H,
        row: Row<'a>,
    ) -> io::Result<bool> {
        match row {
            Row::Note => Ok(true),
            Row::Document(name) => {
                self.documents.begin(rt.alloc(), name)?;
                Ok(true)
            }
            Row::Text(lines) => Ok(self.documents.add(rt.alloc(), &lines)?),
            Row::Case(name) => {
                self.run(rt)?;
                self.begin(name);
                Ok(true)
            }
            Row::Of(setting) => Ok(self.set(setting)),
            Row::Strange => Ok(false),
        }
    }

    /// Takes all lines of a text, and runs its cases.
    pub(crate) fn take_all<H: AllocGlobal + Print + Threads + Wait + Sync>(
        &mut self,
        rt: &H,
        text: &'a str,
    ) -> io::Result<()> {
        for line in text.lines() {
            if !self.take(rt, row_of(line))? {
                println!(rt; "no row: {line}")?;
            }
        }
        self.run(rt)
    }
}
