//! The first nodes of a cone: those with a launch.

ghost use Rattle.std.specs.Prelude.{◌≡◌, ℕ, ◌<◌, ◌||◌, All, false, length, slice_index_or, vec_len, IfOk};
ghost use Rattle.worst_walks.specs.Walks.{count_of, is_launched, listed_into, arcs_into, IsArcInto, IsCone};
ghost use Rattle.worst_walks.specs.Tables.{is_marked, AreFirst};

use crate::cones::{Cone, Launch, WalkArc};
use sta_units::Memory;
use std::alloc::Global;

/// Marks the nodes of some launches.
#[tactic(auto, using(crate::proofs::Marking::marked_more))]
fn mark_all(marks: &mut [bool], launches: &[Launch])
    requires { All (λ launch. launch.node < length marks.old) launches.now }
    ensures { (n : ℕ) → is_marked marks.new n
        ≡ (is_marked marks.old n || is_launched launches.now n) }
{
    for launch in launches {
        marks[launch.node as usize] = true;
    }
}

/// Marks each node at which there is a launch. Takes a step for each launch. The one error is want
/// of memory.
pub fn first_nodes(alloc: Global, cone: &Cone) -> Result<Vec<bool>, Memory>
    requires { IsCone cone.now }
    ensures { IfOk result (λ marks. AreFirst cone.now marks.items) }
{
    let mut marks = vec![in alloc; false; cone.count as usize]?;
    for end in cone.ends.as_slice() {
        mark_all(&mut marks, end.launches.as_slice());
    }
    Ok(marks)
}

fn has_mark(marks: &[bool], node: u32) -> bool
    requires { node < length marks.now }
    ensures { result ≡ is_marked marks.now node }
{
    marks[node as usize]
}

/// The arcs that a walk can follow into a node, where the first nodes are marked.
#[tactic(auto, using(crate::proofs::Filling::arcs_there), unfolding(crate::specs::Walks::arcs_into))]
pub fn arcs_at<'a>(cone: &'a Cone, marks: &[bool], node: u32) -> &'a [WalkArc]
    requires cone { IsCone cone.now }
    requires marks { AreFirst cone.now marks.now }
    requires node { node < count_of cone.now }
    ensures value { result.now ≡ arcs_into cone.now node }
    ensures each { All (IsArcInto cone.now node) result.now }
{
    if has_mark(marks, node) {
        return &[];
    }
    listed_at(cone, node)
}

/// The arcs that a cone lists into a node.
fn listed_at(cone: &Cone, node: u32) -> &[WalkArc]
    requires cone { IsCone cone.now }
    requires node { node < count_of cone.now }
    ensures { result.now ≡ listed_into cone.now node }
{
    let node = node as usize;
    let starts = cone.starts.as_slice();
    &cone.arcs.as_slice()[starts[node] as usize..starts[node + 1] as usize]
}
