//! Scripts of a session and what it answers.

use crate::edits::Eco;
use crate::faults::{Fault, QueryFault};
use crate::items::Items;
use crate::reports::{Query, Report};
use sta_units::Fs;

/// A command of a session: take the newest version, wait until a version of at least `number` is
/// there (with at most `looks` looks), ask, or change the design.
#[derive(Drop)]
pub enum Command {
    Take,
    Await { number: u64, looks: u32 },
    Ask(Query),
    Change(Eco),
}

/// The commands of a session, in order.
#[derive(Drop)]
pub struct Script {
    pub commands: Items<Command>,
}

/// The answer to a command. `NotYet` has the number of the version at each look.
#[derive(Drop)]
pub enum Answer {
    Taken,
    Reached,
    NotYet(Items<u64>),
    Accepted,
    Refused(Fault),
    No(QueryFault),
    Told(Report),
}

/// The row of a command: its place from 1, the question where it asks, the number of the version
/// that it answers for, and the answer.
#[derive(Drop)]
pub struct Row {
    pub command: u32,
    pub query: Option<Query>,
    pub number: u64,
    pub answer: Answer,
}

/// The rows of a session, in the order of its commands.
#[derive(Drop)]
pub struct Transcript {
    pub rows: Items<Row>,
}

/// The last version: its number, and the worst slack (none where there is none) and the total
/// negative slack of both kinds, in fs.
#[derive(Clone, Copy, Drop)]
pub struct Totals {
    pub number: u64,
    pub setup_wns: Option<Fs>,
    pub setup_tns: Fs,
    pub hold_wns: Option<Fs>,
    pub hold_tns: Fs,
}
