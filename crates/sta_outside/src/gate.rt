//! Points of a run that a test may hold a thread at.

/// A point of a run. A `number` is that of the version that was just taken, looked at, prepared
/// or published; sessions count from 1.
#[derive(Debug, Clone, Copy, PartialEq, Eq, Drop)]
pub enum Point {
    /// A piece of a level's parallel map begins.
    Piece { level: u32, piece: u32 },
    /// A session took a snapshot.
    Taken { session: u32, number: u64 },
    /// A session looked at the newest version.
    Looked { session: u32, number: u64 },
    /// A session prepared a version and has not published it.
    Prepared { session: u32, number: u64 },
    /// A session published a version.
    Published { session: u32, number: u64 },
    /// A session answered a command; commands count from 1.
    Answered { session: u32, command: u32 },
}

/// What is called at each point of a run. A call returns, and has no effect on any answer.
pub trait Gate: Sync {
    fn at(&self, point: Point);
}

/// The gate that holds nobody.
#[derive(Clone, Copy, Drop)]
pub struct NoGate;

impl Gate for NoGate {
    fn at(&self, _point: Point) {}
}
