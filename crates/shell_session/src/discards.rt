//! Values that are given up where a run ends: each is dropped at one place, or left to the end of the process.

use crate::sessions::Ended;
use command_words::Run;
use session_engine::Version;
use std::mem::forget;
use std::sync::Arc;
use timing_defs::{Entry, Fault, Items, Script, Transcript};
use version_board::{Board, Seat};

/// Leaves a version to the end of the process, which gives all memory back at once.
pub(crate) fn leave_version(version: Arc<Version>) {
    forget(version);
}

/// Leaves transcripts to the end of the process: they may have many names, each in a block of its own.
pub(crate) fn leave_transcripts(transcripts: Items<Transcript>) {
    forget(transcripts);
}

pub(crate) fn discard_board(_board: Board<Version>) {}

pub(crate) fn discard_seat(_seat: Seat<Version>) {}

pub(crate) fn discard_seats(_seats: Vec<Seat<Version>>) {}

pub(crate) fn discard_ended(_ended: Vec<Ended>) {}

pub(crate) fn discard_transcript(_transcript: Transcript) {}

pub(crate) fn discard_told(_transcripts: Vec<Transcript>) {}

pub(crate) fn discard_entries(_entries: Items<Entry>) {}

pub(crate) fn discard_saved(_saved: Option<Items<Entry>>) {}

pub(crate) fn discard_scripts(_scripts: Items<Script>) {}

pub(crate) fn discard_fault(_fault: Fault) {}

pub(crate) fn discard_run(_run: Run<'_>) {}
