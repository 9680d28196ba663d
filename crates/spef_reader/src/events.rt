//! What a text of parasitics writes, in the order of the text.

use crate::sizes::Size;
use sta_text::Wrong;
use timing_defs::{Name, RcNode};

/// A thing that the text writes. A name, a node or a value is none where it has a fault, or where
/// the header lacks what it needs.
#[derive(Drop)]
pub(crate) enum Event {
    /// A net begins: the offset of its section, its name, and the offset of that name.
    Net(usize, Option<Name>, usize),
    /// The total capacitance of the net.
    Total(Option<Size>),
    /// The node of a connection.
    Connection(Option<RcNode>),
    /// A capacitance to ground.
    Ground(Option<RcNode>, Option<Size>),
    /// A capacitance between two nodes, with the offset of its row.
    Coupling(usize, Option<RcNode>, Option<RcNode>, Option<Size>),
    /// A resistance between two nodes.
    Resistor(Option<RcNode>, Option<RcNode>, Option<Size>),
    /// A net ends.
    End,
    /// A fault; one that ends the reading stands last.
    Fault(Wrong),
}
