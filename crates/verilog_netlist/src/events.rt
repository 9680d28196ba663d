//! What a netlist writes, in the order of its text.

use sta_text::Wrong;
use timing_defs::Name;

/// Where and as what a name is declared.
#[derive(Clone, Copy, Drop)]
pub(crate) enum Role {
    HeaderInput,
    HeaderOutput,
    Input,
    Output,
    Wire,
}

/// The range of a vector, `[first:last]`.
#[derive(Clone, Copy, Drop)]
pub(crate) struct Span {
    pub first: u32,
    pub last: u32,
}

/// How names are declared: their role, and the range where they are vectors.
#[derive(Clone, Copy, Drop)]
pub(crate) struct Kind {
    pub role: Role,
    pub span: Option<Span>,
}

/// What a pin is connected to: nothing or a constant, a name alone, or a bit of a vector, which is
/// given by its own name.
#[derive(Drop)]
pub(crate) enum Net {
    Tied,
    Alone(Name, usize),
    Bit(Name, usize),
}

/// A thing that the text writes, with the offset of its name.
#[derive(Drop)]
pub(crate) enum Event {
    /// The module's name.
    Module(Name),
    /// A port of the header that is a name alone.
    Header(Name, usize),
    /// A declared name.
    Declared(Kind, Name, usize),
    /// The word that names an instance's cell.
    CellWord(usize),
    /// An instance: its cell and its name.
    Instance(Name, Name, usize),
    /// The pin of a connection.
    Pin(Name, usize),
    /// A connection: its pin and its net.
    Connection(Name, Net),
    /// What ends the reading.
    Fault(Wrong),
}
