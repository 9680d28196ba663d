//! Arcs between numbered nodes.

/// An arc from a node to a node, by their numbers from 0.
#[derive(Clone, Copy, Drop)]
pub struct Link {
    pub from: u32,
    pub to: u32,
}
