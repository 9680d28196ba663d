//! The nodes to which arcs lead from some first nodes.

ghost use Rattle.std.specs.Prelude.{◌≡◌, ◌<◌, [], ◌∷◌, All, length, IfOk, OnOk};
ghost use Rattle.levelizer.specs.Levels.{AreWithin};
ghost use Rattle.levelizer.specs.Reaching.{AreMarked, AreQueued, AreReached, has_mark};

use crate::fan_out::FanOut;
use crate::links::Link;
use sta_units::Memory;
use std::alloc::Global;
use timing_defs::Items;

fn has_mark(marks: &[bool], node: u32) -> bool
    requires { node < length marks.now }
    ensures { result ≡ has_mark marks.now node }
{
    marks[node as usize]
}

/// Marks a node and queues it, where it is not marked.
#[tactic(auto, using(crate::proofs::Reach::marked_again, crate::proofs::Reach::marked_new))]
fn mark(marks: &mut [bool], queue: &mut Items<u32>, node: u32) -> Result<(), Memory>
    requires node { node < length marks.old }
    requires queued { AreQueued marks.old queue.old }
    ensures { OnOk result (AreMarked (node ∷ []) marks.old marks.new queue.old queue.new) }
{
    if has_mark(marks, node) {
        return Ok(());
    }
    queue.push(node)?;
    marks[node as usize] = true;
    Ok(())
}

/// Marks nodes and queues those that are not marked.
#[tactic(auto, using(crate::proofs::Reach::marked_none, crate::proofs::Reach::marked_more, crate::proofs::Reach::marked_all))]
fn mark_all(marks: &mut [bool], queue: &mut Items<u32>, nodes: &[u32]) -> Result<(), Memory>
    requires nodes { All (λ node. node < length marks.old) nodes.now }
    requires queued { AreQueued marks.old queue.old }
    ensures { OnOk result (AreMarked nodes.now marks.old marks.new queue.old queue.new) }
{
    for node in nodes {
        mark(marks, queue, *node)?;
    }
    Ok(())
}

/// Which nodes below `n` are some first ones or can be reached from them along arcs. Takes as many
/// steps as there are nodes and arcs.
pub fn reached(alloc: Global, n: u32, arcs: &[Link], first: &[u32]) -> Result<Items<bool>, Memory>
    requires within { AreWithin n arcs.now }
    requires first { All (λ node. node < n) first.now }
    ensures { IfOk result (AreReached n arcs.now first.now) }
{
    let fan = FanOut::of(alloc, n, arcs)?;
    let mut marks = vec![in alloc; false; n as usize]?;
    let mut queue = Items::new(alloc);
    mark_all(&mut marks, &mut queue, first)?;
    let mut done = 0usize;
    while done < queue.len() {
        let node = queue.as_slice()[done];
        let heads = fan.heads(node);
        mark_all(&mut marks, &mut queue, heads)?;
        done += 1;
    }
    Ok(Items::from_vec(marks))
}
