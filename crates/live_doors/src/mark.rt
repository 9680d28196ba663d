//! Marks of what was done at a door.

/// What was done at a door; a log keeps it beside the bytes that it was done with.
#[derive(Clone, Copy, Drop)]
pub(crate) enum Mark {
    /// The bytes were heard.
    Heard,
    /// The version of a number was kept; of no bytes.
    Kept(u64),
    /// The bytes were said.
    Said,
    /// The first bytes were said, so many of them.
    Cut(usize),
}
