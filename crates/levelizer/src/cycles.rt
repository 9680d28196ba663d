//! A cycle among the nodes that a sweep leaves waiting.

ghost use Rattle.std.specs.Prelude.{◌≡◌, ℕ, ◌<◌, ◌==◌, ◌&&◌, if◌then◌else◌, ◌∷◌, length, reverse, slice_index, vec_len, IfOk, true};
ghost use Rattle.std.specs.List.{list_any};
ghost use Rattle.levelizer.specs.Levels.{AreWithin, IsCycle};
ghost use Rattle.levelizer.specs.Sweep.{waits};
ghost use Rattle.levelizer.specs.Tails.{AreTails, is_marked, waiting_arcs};

use crate::links::Link;
use sta_units::Memory;
use std::alloc::Global;
use std::iter;
use timing_defs::Items;

/// Notes an arc from a node that waits as one that leads to its end.
fn note_tail(tails: &mut [u32], waiting: &[usize], arc: Link)
    requires from { arc.from < length waiting.now }
    requires to { arc.to < length tails.old }
    ensures { (m : ℕ) → slice_index tails.new m ≡ (if (arc.to == m) && waits waiting.now arc.from then arc.from else slice_index tails.old m) }
{
    if waiting[arc.from as usize] > 0 {
        tails[arc.to as usize] = arc.from;
    }
}

/// For each node that waits a predecessor that waits, where it has one.
fn waiting_tails(alloc: Global, arcs: &[Link], waiting: &[usize]) -> Result<Vec<u32>, Memory>
    requires { AreWithin (length waiting.now) arcs.now }
    ensures len { IfOk result (λ tails. vec_len tails ≡ length waiting.now) }
    ensures each { IfOk result (λ tails. AreTails arcs.now waiting.now arcs.now tails.items) }
{
    let mut tails = vec![in alloc; 0u32; waiting.len()]?;
    for arc in arcs {
        note_tail(&mut tails, waiting, *arc);
    }
    Ok(tails)
}

fn is_marked(marks: &[bool], node: u32) -> bool
    requires { node < length marks.now }
    ensures { result ≡ is_marked marks.now node }
{
    marks[node as usize]
}

/// The place of a node in a walk that has it.
fn place_of(walk: &[u32], node: u32) -> usize
    requires { list_any (λ x. x == node) walk.now ≡ true }
    ensures within { result < length walk.now }
    ensures there { slice_index walk.now result ≡ node }
{
    for (i, x) in walk.iter().enumerate() {
        if *x == node {
            return i;
        }
    }
    unreachable!()
}

/// A node, and then the nodes of a walk from its end.
fn turned(alloc: Global, first: u32, walk: &[u32]) -> Result<Items<u32>, Memory>
    ensures { IfOk result (λ nodes. nodes ≡ first ∷ reverse walk.now) }
{
    let nodes: Vec<u32> = iter::once(first)
        .chain(walk.iter().rev().copied())
        .collect(alloc)?;
    Ok(Items::from_vec(nodes))
}

/// A cycle's nodes in arc order, for a node that waits, where each node that waits has a predecessor
/// that waits: going against the arcs meets some node again. Takes as many steps as there are nodes
/// and arcs.
pub(crate) fn cycle_from(
    alloc: Global,
    arcs: &[Link],
    waiting: &[usize],
    start: u32,
) -> Result<Items<u32>, Memory>
    requires within { AreWithin (length waiting.now) arcs.now }
    requires start { 0 < slice_index waiting.now start }
    requires closed { (m : ℕ) → 0 < slice_index waiting.now m → 0 < waiting_arcs waiting.now arcs.now m }
    ensures { IfOk result (IsCycle arcs.now) }
{
    let tails = waiting_tails(alloc, arcs, waiting)?;
    let mut marks = vec![in alloc; false; waiting.len()]?;
    let mut walk = Items::new(alloc);
    let mut at = start;
    while !is_marked(&marks, at) {
        marks[at as usize] = true;
        walk.push(at)?;
        at = tails[at as usize];
    }
    let place = place_of(walk.as_slice(), at);
    turned(alloc, at, &walk.as_slice()[place + 1..])
}
