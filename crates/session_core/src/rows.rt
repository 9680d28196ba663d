//! Where a session of the core is.

use timing_defs::Items;

/// The sort of a row, apart from what it tells. `NotYet` has the numbers of the looks that it counts,
/// and `Asked` is the row of a report.
#[derive(Drop)]
pub enum RowSort {
    Taken,
    Reached,
    NotYet(Items<u64>),
    Accepted,
    Refused,
    Asked,
}

/// The row of a command: its place in the script from 1, the number of the version that it answers
/// for, and its sort.
#[derive(Drop)]
pub struct CoreRow {
    pub command: u32,
    pub number: u64,
    pub sort: RowSort,
}

/// A draft of an ECO: the number of the version that it changes, and how many levels are merged.
#[derive(Clone, Copy, Drop)]
pub struct CoreDraft {
    pub base: u64,
    pub levels: u64,
}

/// A session: the place of its next command from 1, the number of the version that it holds, the
/// numbers that it looked at since its last row, its draft, and its rows in order.
#[derive(Drop)]
pub struct CoreSession {
    pub next: u32,
    pub held: Option<u64>,
    pub looks: Items<u64>,
    pub draft: Option<CoreDraft>,
    pub rows: Items<CoreRow>,
}
