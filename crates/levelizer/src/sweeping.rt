//! The sweep that gives each node its level once all its predecessors have theirs (Kahn's queue).

ghost use Rattle.std.specs.Prelude.{◌≡◌, ℕ, ◌+◌, ◌^◌, ◌<◌, ◌≤◌, ◌==◌, ◌&&◌, nat_lt, if◌then◌else◌, max, All, length, take, count_by, slice_index, vec_len, IfOk, OnOk};
ghost use Rattle.std.specs.List.{list_any};
ghost use Rattle.levelizer.specs.Levels.{AreWithin};
ghost use Rattle.levelizer.specs.FanOut.{IsFanOut};
ghost use Rattle.levelizer.specs.Sweep.{IsSwept, freed};

use crate::fan_out::FanOut;
use crate::links::Link;
use sta_units::Memory;
use std::alloc::Global;
use timing_defs::Items;

/// What a sweep leaves: for each node how many arcs lead to it from nodes that still wait, and, where
/// it does not wait, its level.
#[derive(Drop)]
pub(crate) struct Swept {
    pub(crate) levels: Vec<u32>,
    pub(crate) waiting: Vec<usize>,
}

/// How many arcs lead to each node below `n`.
fn in_counts(alloc: Global, n: u32, arcs: &[Link]) -> Result<Vec<usize>, Memory>
    requires { AreWithin n arcs.now }
    ensures len { IfOk result (λ counts. vec_len counts ≡ n) }
    ensures each { IfOk result (λ counts. (m : ℕ) → slice_index counts.items m ≡ count_by (λ arc. arc.to == m) arcs.now) }
{
    let mut counts = vec![in alloc; 0usize; n as usize]?;
    for arc in arcs {
        counts[arc.to as usize] += 1;
    }
    Ok(counts)
}

/// Raises the levels of some nodes to at least `level`.
fn raise(levels: &mut [u32], heads: &[u32], level: u32)
    requires { All (λ head. head < length levels.old) heads.now }
    ensures { (m : ℕ) → m < length levels.old → slice_index levels.new m ≡ (if list_any (λ head. head == m) heads.now then max (slice_index levels.old m) level else slice_index levels.old m) }
{
    for head in heads {
        let at = *head as usize;
        levels[at] = levels[at].max(level);
    }
}

/// Takes one arc from a node's count, and queues the node where that was the last.
fn free_one(waiting: &mut [usize], queue: &mut Items<u32>, node: u32) -> Result<(), Memory>
    requires node { node < length waiting.old }
    requires waits { 0 < slice_index waiting.old node }
    ensures waiting { OnOk result ((m : ℕ) → slice_index waiting.new m + (if node == m then 1 else 0) ≡ slice_index waiting.old m) }
    ensures queue { OnOk result ((m : ℕ) → count_by (λ x. x == m) queue.new ≡ count_by (λ x. x == m) queue.old + freed (slice_index waiting.old m) (slice_index waiting.new m)) }
    ensures kept { OnOk result (take (length queue.old) queue.new ≡ queue.old) }
    ensures grown { OnOk result (length queue.old ≤ length queue.new) }
{
    let left = waiting[node as usize] - 1;
    waiting[node as usize] = left;
    if left == 0 {
        queue.push(node)?;
    }
    Ok(())
}

/// Takes the arcs to these nodes from their counts, and queues each node whose last arc goes.
fn free(waiting: &mut [usize], queue: &mut Items<u32>, heads: &[u32]) -> Result<(), Memory>
    requires { (m : ℕ) → count_by (λ head. head == m) heads.now ≤ slice_index waiting.old m }
    ensures waiting { OnOk result ((m : ℕ) → slice_index waiting.new m + count_by (λ head. head == m) heads.now ≡ slice_index waiting.old m) }
    ensures queue { OnOk result ((m : ℕ) → count_by (λ x. x == m) queue.new ≡ count_by (λ x. x == m) queue.old + freed (slice_index waiting.old m) (slice_index waiting.new m)) }
    ensures kept { OnOk result (take (length queue.old) queue.new ≡ queue.old) }
    ensures grown { OnOk result (length queue.old ≤ length queue.new) }
{
    for head in heads {
        free_one(waiting, queue, *head)?;
    }
    Ok(())
}

/// Queues a node that no arc leads to.
fn queue_if_free(queue: &mut Items<u32>, node: u32, count: usize) -> Result<(), Memory>
    ensures { OnOk result ((m : ℕ) → count_by (λ x. x == m) queue.new ≡ count_by (λ x. x == m) queue.old + (if (node == m) && (count == 0) then 1 else 0)) }
{
    if count == 0 {
        queue.push(node)?;
    }
    Ok(())
}

/// The nodes that no arc leads to, in order.
fn ready(alloc: Global, waiting: &[usize]) -> Result<Items<u32>, Memory>
    requires { length waiting.now < 2 ^ 32 }
    ensures { IfOk result (λ queue. (m : ℕ) → count_by (λ x. x == m) queue ≡ (if nat_lt m (length waiting.now) && (slice_index waiting.now m == 0) then 1 else 0)) }
{
    let mut queue = Items::new(alloc);
    for (node, count) in waiting.iter().enumerate() {
        queue_if_free(&mut queue, node as u32, *count)?;
    }
    Ok(queue)
}

/// Goes over the nodes, each after all its predecessors: nodes on a cycle, and those behind one, wait
/// for ever. Takes as many steps as there are nodes and arcs.
pub(crate) fn sweep(alloc: Global, n: u32, arcs: &[Link]) -> Result<Swept, Memory>
    requires { AreWithin n arcs.now }
    ensures { IfOk result (λ swept. IsSwept n arcs.now swept.levels.items swept.waiting.items) }
{
    let fan = FanOut::of(alloc, n, arcs)?;
    let mut levels = vec![in alloc; 0u32; n as usize]?;
    let mut waiting = in_counts(alloc, n, arcs)?;
    let mut queue = ready(alloc, waiting.as_slice())?;
    let mut done = 0usize;
    while done < queue.len() {
        let node = queue.as_slice()[done];
        let next = levels[node as usize] + 1;
        let heads = fan.heads(node);
        raise(&mut levels, heads, next);
        free(&mut waiting, &mut queue, heads)?;
        done += 1;
    }
    Ok(Swept { levels, waiting })
}
