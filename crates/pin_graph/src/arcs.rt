//! Arcs between nodes.

/// What an arc is of.
#[derive(Clone, Copy, Drop)]
pub enum GraphKind {
    /// From a net's driver to a sink.
    Net,
    /// Through a cell, by a combinational arc of the library.
    Cell,
    /// Through a register, from its clock pin, by edge arcs of the library alone.
    Register,
}

/// An arc from one node to another, both by their numbers.
#[derive(Clone, Copy, Drop)]
pub struct GraphArc {
    pub from: u32,
    pub to: u32,
    pub kind: GraphKind,
    /// Whether an edge arc of the library is among those that it stands for; beside a combinational
    /// one the kind is `Cell`.
    pub edge: bool,
}
