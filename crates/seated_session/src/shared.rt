//! What the sessions of a live run share.

ghost use Rattle.std.specs.Prelude.{◌≡◌, ◌≤◌};
ghost use Rattle.session_engine.specs.Looking.{meant};
ghost use Rattle.live_journal.specs.Desk.{IsBoardOf};

use live_journal::{Cell, Desk, JournalSink, Room};
use session_engine::Version;
use sta_outside::Sink;
use std::sync::Mutex;
use timing_defs::Design;
use version_board::Board;

/// What the sessions of a live run share: the board of versions, the desk of the journal with the cell of its receipts, how many
/// workers analyse a version, and the gate.
#[derive(Drop)]
pub struct Shared<'a, H, F: Sink + Drop, G, B: Room<Design>> {
    pub rt: &'a H,
    pub board: &'a Board<Version>,
    pub desk: &'a Mutex<Desk<Version, JournalSink<F>, B>>,
    pub cell: &'a Cell,
    pub workers: u32,
    pub gate: &'a G,
    pub ghost board_is: { IsBoardOf meant B.about board.now },
    pub ghost cell_is: { cell.now.table.shared.table_id ≡ B.about.cell },
    pub ghost some: { 1 ≤ workers },
    pub ghost most: { workers ≤ 32 },
}
