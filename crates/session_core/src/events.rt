//! The atomic steps of sessions.

/// A step of a session; sessions count from 1.
/// - `Take`: the session takes a snapshot of the newest version.
/// - `Level`: the level `level` of its draft, counted from 0, is merged.
/// - `Publish`: its draft is published, or begins again where others published in between.
/// - `Answer`: its next command is answered.
#[derive(Clone, Copy, Drop)]
pub enum Event {
    Take { session: u32 },
    Level { session: u32, level: u64 },
    Publish { session: u32 },
    Answer { session: u32 },
}
