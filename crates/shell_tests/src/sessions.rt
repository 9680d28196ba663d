//! Sessions beside each other: held at points of their runs, and left free.

mod free;
mod generating;
mod looking;
mod meetings;
mod moving;
mod preparing;
mod reading;
mod sharing;
mod sixteen;

use crate::documents::REGISTERS;
use crate::running;
use crate::running::Texts;
use shell_session::Status;
use sta_outside::Gate;
use std::alloc::Global;
use std::process::Abort;
use std::sync::Wait;
use std::thread::Threads;

/// The run of two registers behind one clock buffer by two sessions.
const TWO: &str = "run early.lib late.lib b.v b.sdc none 2 s1 s2";

/// The names and the texts of scripts.
type Scripts = &'static [(&'static str, &'static str)];

/// The status of a run by the words of a line over the registers and some scripts, and what it writes.
fn run<H: Abort + Threads + Wait + Sync, G: Gate>(
    rt: &H,
    alloc: Global,
    line: &str,
    scripts: &[(&str, &str)],
    gate: &G,
) -> (Status, String) {
    let mut texts = Texts::new(alloc);
    texts.add(rt, alloc, &REGISTERS);
    texts.add(rt, alloc, scripts);
    running::run(rt, alloc, line, texts, gate)
}

/// Compares a run with the status and the text that it is to have.
fn compare<H: Abort + Threads + Wait + Sync, G: Gate>(
    rt: &H,
    alloc: Global,
    line: &str,
    scripts: &[(&str, &str)],
    gate: &G,
    status: Status,
    text: &str,
) {
    let (ended, written) = run(rt, alloc, line, scripts, gate);
    assert_eq!(rt; ended, status, "{written}");
    assert_eq!(rt; written.as_str(), text);
}
