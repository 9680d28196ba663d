//! Fan-in cones over numbered nodes, and walks through them.

ghost use Rattle.std.specs.Prelude.{◌≡◌, ◌<◌, length, slice_get, Some};
ghost use Rattle.worst_walks.specs.Walks.{IsCone, IsEnd};

use timing_defs::Items;

/// An arc from a node into the node that lists it, with its delay in fs (for hold tests negated).
#[derive(Clone, Copy, Drop)]
pub struct WalkArc {
    pub from: u32,
    pub delay: i64,
}

/// A node at which walks to an end node begin. A walk with the delay sum `s` has the slack
/// `offer - s`, in fs.
#[derive(Clone, Copy, Drop)]
pub struct Launch {
    pub node: u32,
    pub offer: i64,
}

/// An end node, with the launches from which walks to it are looked for.
#[derive(Drop)]
pub struct WalkEnd {
    pub node: u32,
    pub launches: Items<Launch>,
}

/// The fan-in of some end nodes: as many nodes as `count` says, numbered from 0 so that each arc
/// leads from a higher number to a lower one. The arcs into `node` are
/// `arcs[starts[node]..starts[node + 1]]`; those into a node with a launch are never followed.
///
/// A search asks for fewer than 8,000,000 nodes, at most one arc between two nodes, delays of at
/// most `10^12` fs and offers of at most `10^18` fs on either side of 0.
#[derive(Drop)]
pub struct Cone {
    pub count: u32,
    pub starts: Items<u32>,
    pub arcs: Items<WalkArc>,
    pub ends: Items<WalkEnd>,
}

/// A walk with its slack in fs: the place of its end node in the cone's list of ends, the place of
/// its launch in the list of that end node, and its nodes from the launch to the end node.
#[derive(Drop)]
pub struct Walk {
    pub slack: i64,
    pub launch: u32,
    pub end: u32,
    pub nodes: Items<u32>,
}

impl Cone {
    /// The end node at a place of the list of ends.
    pub fn end_at(&self, place: u32) -> &WalkEnd
        requires cone { IsCone self.now }
        requires place { place < length self.now.ends }
        ensures there { slice_get self.now.ends place ≡ Some result.now }
        ensures end { IsEnd self.now result.now }
    {
        &self.ends.as_slice()[place as usize]
    }
}

impl WalkEnd {
    /// The launch at a place of the list of launches.
    pub fn launch_at(&self, place: u32) -> &Launch
        requires { place < length self.now.launches }
        ensures { slice_get self.now.launches place ≡ Some result.now }
    {
        &self.launches.as_slice()[place as usize]
    }
}
