//! Sessions that are read line by line: behind the number of the line that ended it, or `end`, each item, which is a
//! command in the words of scripts, or `error CODE LINE`. In place of the commands there can stand, behind all errors,
//! how many there are, with their edits and their trials.

use crate::scripts::show_command;
use crate::texts::Text;
use script_reader::{
    Heard, Item, LiveReader, first_wrong_line, items_can_be_answered, items_of_more_lines,
    items_of_script, long_line_cut,
};
use sta_text::Wrong;
use std::alloc::Global;
use timing_defs::{Command, Query};

/// How many commands were read, and how many edits and trials they have.
#[derive(Clone, Copy, Drop)]
struct Counts {
    commands: u64,
    edits: u64,
    trials: u64,
}

impl Counts {
    /// Counts a command.
    fn add(&mut self, command: &Command) {
        self.commands = self.commands.saturating_add(1);
        match command {
            Command::Change(eco) => self.edits = self.edits.saturating_add(eco.edits.len() as u64),
            Command::Ask(Query::WhatIf { items }) => {
                self.trials = self.trials.saturating_add(items.len() as u64);
            }
            _ => {}
        }
    }

    fn show(&self, out: &mut Text) {
        out.count(b"commands ", self.commands);
        out.count(b" edits ", self.edits);
        out.count(b" trials ", self.trials);
        out.end();
    }
}

/// What is written of a session's commands: each, or how many there are.
#[derive(Clone, Copy, Drop)]
enum Listener {
    Items,
    Counts(Counts),
}

/// Writes the line that ended an item.
fn show_line(number: u64, out: &mut Text) {
    out.count(b"line ", number);
    out.end();
}

fn show_wrong(wrong: Wrong, out: &mut Text) {
    out.add(b"error ");
    out.add(wrong.code.label().as_bytes());
    out.count(b" ", wrong.at as u64);
    out.end();
}

/// Writes what the end of the lines makes wrong.
fn show_end(reader: &LiveReader, out: &mut Text) {
    if let Some(Item::Faulty(wrong)) = reader.end() {
        out.add(b"end\n");
        show_wrong(wrong, out);
    }
}

impl Listener {
    /// Takes the item that a line ended.
    fn take(&mut self, number: u64, item: &Item, out: &mut Text) {
        match item {
            Item::Asked(command) => self.take_command(number, command, out),
            Item::Faulty(wrong) => {
                show_line(number, out);
                show_wrong(*wrong, out);
            }
        }
    }

    fn take_command(&mut self, number: u64, command: &Command, out: &mut Text) {
        match self {
            Listener::Items => {
                show_line(number, out);
                show_command(command, out);
            }
            Listener::Counts(counts) => counts.add(command),
        }
    }

    /// Writes the counts.
    fn finish(&self, out: &mut Text) {
        if let Listener::Counts(counts) = self {
            counts.show(out);
        }
    }
}

/// Reads the lines of a session.
fn read_lines(alloc: Global, document: &[u8], listener: &mut Listener, out: &mut Text) {
    let mut reader = LiveReader::new();
    let mut number = 0u64;
    for line in document.split(|byte| *byte == b'\n') {
        number = number.saturating_add(1);
        match reader.line(alloc, line) {
            Ok(heard) => reader = behind(heard, number, listener, out),
            Err(_) => {
                out.want();
                return;
            }
        }
    }
    show_end(&reader, out);
}

/// Hands the item of a line over, and gives the reader of those behind it.
fn behind(heard: Heard, number: u64, listener: &mut Listener, out: &mut Text) -> LiveReader {
    let Heard { reader, item } = heard;
    if let Some(item) = item {
        listener.take(number, &item, out);
        drop(item);
    }
    reader
}

/// Writes the items of a session.
pub(crate) fn answer_session(alloc: Global, document: &[u8], out: &mut Text) {
    items_of_script();
    first_wrong_line();
    read_lines(alloc, document, &mut Listener::Items, out);
}

/// Writes the errors of a session, and how many commands there are.
pub(crate) fn count_session(alloc: Global, document: &[u8], out: &mut Text) {
    items_of_more_lines();
    items_can_be_answered();
    long_line_cut();
    let mut listener = Listener::Counts(Counts {
        commands: 0,
        edits: 0,
        trials: 0,
    });
    read_lines(alloc, document, &mut listener, out);
    listener.finish(out);
}
