//! What live sessions leave.

use live_journal::{Receipt, Room, Unkept};
use live_session::Outcome;
use session_engine::Version;
use std::sync::Arc;
use timing_defs::Design;
use version_board::Seat;

/// What a session leaves to who ran it: its door, where that was opened, and how the session ended.
#[derive(Drop)]
pub struct Parted<D> {
    pub door: Option<D>,
    pub outcome: Outcome,
}

/// What a session leaves: its seat, and what it knows of the journal, besides.
#[derive(Drop)]
pub(crate) struct Ended<D, B: Room<Design>> {
    pub(crate) seat: Seat<Version>,
    pub(crate) receipt: Receipt<B>,
    pub(crate) parted: Parted<D>,
}

/// What a live run leaves: the last version, its sessions in order, the file of the journal, where there is one, and whether all
/// entries stand there.
#[derive(Drop)]
pub struct LiveClosed<D, F> {
    pub last: Arc<Version>,
    pub sessions: Vec<Parted<D>>,
    pub journal: Option<F>,
    pub kept: Result<(), Unkept>,
}
