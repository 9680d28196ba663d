//! Resistors between nodes by their numbers.

ghost use Rattle.std.specs.Prelude.{◌≡◌, ◌<◌, true, length, IfOk};
ghost use Rattle.std.specs.List.{AllByRecursion};
ghost use Rattle.rc_tree.specs.Trees.{is_node, is_amount};
ghost use Rattle.rc_tree.specs.Numbering.{numbered};
ghost use Rattle.rc_tree.specs.Growth.{wired, AreSegments};
ghost use Rattle.rc_tree.specs.Ends.{IsResistorOf};

use crate::nodes::Nodes;
use sta_units::Memory;
use std::alloc::Global;
use timing_defs::{Items, RcRes};

/// A resistor between two nodes by their numbers, in mΩ.
#[derive(Clone, Copy, Drop)]
pub(crate) struct Segment {
    pub(crate) a: usize,
    pub(crate) b: usize,
    pub(crate) res: u64,
}

/// The segment of a resistor between nodes that are there.
fn numbered_segment(nodes: &Nodes, resistor: &RcRes) -> Segment
    requires { IsResistorOf (numbered nodes.now) resistor.now }
    ensures wired { wired (numbered nodes.now) result ≡ resistor.now }
    ensures a { result.a < length (numbered nodes.now) }
    ensures b { result.b < length (numbered nodes.now) }
{
    Segment {
        a: nodes.number_there(&resistor.a),
        b: nodes.number_there(&resistor.b),
        res: resistor.res.0.unsigned_abs(),
    }
}

/// The segments of resistors between nodes that are there.
pub(crate) fn segments(
    alloc: Global,
    nodes: &Nodes,
    resistors: &[RcRes],
) -> Result<Items<Segment>, Memory>
    requires { AllByRecursion (IsResistorOf (numbered nodes.now)) resistors.now }
    ensures { IfOk result (λ segments. AreSegments (numbered nodes.now) resistors.now segments) }
{
    let mut segments = Items::with_room(alloc, resistors.len())?;
    for resistor in resistors {
        segments.push(numbered_segment(nodes, resistor))?;
    }
    Ok(segments)
}
