//! Lists of notes. They stand in the crate without its tests, too, so that its words can name them.

ghost use Rattle.std.specs.Prelude.{◌+◌, ◌^◌, ◌<◌, length};

/// A note, by the number of its seat.
#[derive(Debug, Clone, Copy, PartialEq, Eq, Drop)]
pub(crate) struct Note {
    pub(crate) seat: u8,
}

/// What logs start from.
#[derive(Drop)]
pub(crate) struct Here;

/// A list of notes from a first number.
#[derive(Drop)]
pub(crate) struct Log {
    pub(crate) first: u64,
    pub(crate) notes: Vec<Note>,
    ghost within: { first + length notes.items < 2 ^ 63 },
}
