//! Rows of an analysis: what a pin has, what a node has, and paths.

ghost use Rattle.std.specs.Prelude.{◌≡◌, ◌<◌, Some, length, slice_get, option_map};
ghost use Rattle.timing_defs.specs.RowTimes.{slew_in, times_in};
ghost use Rattle.timing_defs.specs.RowTimes.{back_times};

use crate::edge_times::EdgeTimes;
use crate::items::Items;
use crate::kinds::{Split, Tran};
use crate::names::Name;
use sta_units::{Af, Fs};

/// A pin with its capacitance in aF.
#[derive(Drop)]
pub struct PinCap {
    pub pin: Name,
    pub cap: Af,
}

/// Where a path is launched: the launch pin, the instance of that pin (none for a port), and the clock's place in the list of clocks.
#[derive(Drop)]
pub struct Launch {
    pub pin: Name,
    pub cell: Option<Name>,
    pub clock: u32,
}

/// Where a path is captured: the endpoint, its instance (none for an output port), and the clock's
/// place in the list of clocks.
#[derive(Drop)]
pub struct Capture {
    pub pin: Name,
    pub cell: Option<Name>,
    pub clock: u32,
}

/// The row of a node (a pin with a transition): its slews in fs, none where nothing reaches it,
/// and its arrivals per launch edge, of both splits.
#[derive(Drop)]
pub struct NodeRow {
    pub early_slew: Option<Fs>,
    pub late_slew: Option<Fs>,
    pub early: EdgeTimes,
    pub late: EdgeTimes,
}

impl NodeRow {
    /// The slew in a split.
    pub fn slew(&self, split: Split) -> Option<Fs>
        ensures { option_map (λ slew. slew.0) result ≡ slew_in split self.now }
    {
        match split {
            Split::Early => self.early_slew,
            Split::Late => self.late_slew,
        }
    }

    /// The arrivals in a split.
    pub fn times(&self, split: Split) -> &EdgeTimes
        ensures { result.now ≡ times_in split self.now }
    {
        match split {
            Split::Early => &self.early,
            Split::Late => &self.late,
        }
    }
}

/// The required times of a node per launch edge, of both splits.
#[derive(Drop)]
pub struct BackRow {
    pub early: EdgeTimes,
    pub late: EdgeTimes,
}

impl BackRow {
    /// The required times in a split.
    pub fn times(&self, split: Split) -> &EdgeTimes
        ensures { result.now ≡ back_times split self.now }
    {
        match split {
            Split::Early => &self.early,
            Split::Late => &self.late,
        }
    }
}

/// A node of a path with its arrival in fs.
#[derive(Drop)]
pub struct PathNode {
    pub pin: Name,
    pub tran: Tran,
    pub time: Fs,
}

/// A timing path from its start to its endpoint, with its slack and its credit in fs, and its
/// launch and capture edges (a clock's place in the list of clocks and a transition).
#[derive(Drop)]
pub struct Path {
    pub nodes: Items<PathNode>,
    pub slack: Fs,
    pub credit: Fs,
    pub launch_clock: u32,
    pub launch_tran: Tran,
    pub capture_clock: u32,
    pub capture_tran: Tran,
}

/// The rows of all nodes, seen as a list: the rows by the number of their node.
pub trait Rows {
    ghost use Rattle.std.specs.Prelude.{List};
    ghost use Rattle.timing_defs.specs.declared.rows.NodeRow.{NodeRow};

    ghost rows: { Self → List NodeRow };

    /// The row of a node. Takes no memory.
    fn row(&self, node: u32) -> &NodeRow
        requires { node < length (rows self.now) }
        ensures { slice_get (rows self.now) node ≡ Some result.now };
}
