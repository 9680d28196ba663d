//! What a text of constraints writes, in the order of the text.

use crate::commands::{Command, Flag, Getter, Quantity, Role};
use sta_text::Wrong;
use timing_defs::Name;

/// A thing that the text writes. Numbers are the offsets of first bytes.
#[derive(Drop)]
pub(crate) enum Event {
    /// A command begins.
    Begin(Command, usize),
    /// An option without a value.
    Flag(Flag),
    /// A number.
    Number(Quantity, Name, usize),
    /// The list of a waveform begins; its rise and its fall follow.
    Waveform(usize),
    /// The name of a clock that is created.
    Named(Name),
    /// The naming of objects begins.
    Objects(Role),
    /// An object.
    Object(Role, Getter, Name, usize),
    /// A unit of time: ten to this power is its number of fs.
    TimeUnit(i32),
    /// A unit of capacitance: ten to this power is its number of aF.
    CapacitanceUnit(i32),
    /// A command ends.
    End,
    /// What ends the reading.
    Fault(Wrong),
}
