//! A check that a cone and an order are as a search wants them, for the tests.

ghost use Rattle.std.specs.Prelude.{◌≡◌, ℕ, ◌+◌, ◌^◌, ◌<◌, ◌≤◌, ◌==◌, All, IsTrue, length, drop, slice_index};
ghost use Rattle.std.specs.List.{list_any};
ghost use Rattle.worst_walks.specs.Walks.{most_nodes, count_of, listed_into, AreApart, IsArcInto, IsLaunch, IsEnd, IsCone, IsOrdered};

use worst_walks::{Cone, Launch, WalkArc, WalkEnd};

fn is_arc_into(cone: &Cone, node: usize, arc: WalkArc) -> bool
    ensures { IsTrue result → IsArcInto cone.now node arc }
{
    let from = arc.from as usize;
    node < from && from < cone.count as usize && arc.delay.unsigned_abs() <= 1_000_000_000_000
}

fn are_arcs_into(cone: &Cone, node: usize, arcs: &[WalkArc]) -> bool
    ensures { IsTrue result → All (IsArcInto cone.now node) arcs.now }
{
    for arc in arcs {
        if !is_arc_into(cone, node, *arc) {
            return false;
        }
    }
    true
}

fn has_from(arcs: &[WalkArc], from: u32) -> bool
    ensures { result ≡ list_any (λ arc. arc.from == from) arcs.now }
{
    arcs.iter().any(|arc| arc.from == from)
}

fn others(arcs: &[WalkArc]) -> &[WalkArc]
    requires { 0 < length arcs.now }
    ensures { result.now ≡ drop 1 arcs.now }
{
    &arcs[1..]
}

pub(crate) fn are_apart(arcs: &[WalkArc]) -> bool
    ensures { IsTrue result → AreApart arcs.now }
{
    if arcs.is_empty() {
        return true;
    }
    let others = others(arcs);
    if has_from(others, arcs[0].from) {
        return false;
    }
    are_apart(others)
}

fn is_node(cone: &Cone, node: usize) -> bool
    requires starts { length cone.now.starts ≡ count_of cone.now + 1 }
    requires node { node < count_of cone.now }
    ensures rising { IsTrue result
        → slice_index cone.now.starts node ≤ slice_index cone.now.starts (node + 1) }
    ensures stored { IsTrue result → slice_index cone.now.starts (node + 1) ≤ length cone.now.arcs }
    ensures arcs { IsTrue result → All (IsArcInto cone.now node) (listed_into cone.now node) }
    ensures apart { IsTrue result → AreApart (listed_into cone.now node) }
{
    let starts = cone.starts.as_slice();
    let from = starts[node] as usize;
    let to = starts[node + 1] as usize;
    if from > to || to > cone.arcs.len() {
        return false;
    }
    let arcs = &cone.arcs.as_slice()[from..to];
    are_arcs_into(cone, node, arcs) && are_apart(arcs)
}

fn are_nodes(cone: &Cone) -> bool
    requires { length cone.now.starts ≡ count_of cone.now + 1 }
    ensures rising { IsTrue result → (n : ℕ) → n < count_of cone.now
        → slice_index cone.now.starts n ≤ slice_index cone.now.starts (n + 1) }
    ensures stored { IsTrue result → (n : ℕ) → n < count_of cone.now
        → slice_index cone.now.starts (n + 1) ≤ length cone.now.arcs }
    ensures arcs { IsTrue result → (n : ℕ) → n < count_of cone.now
        → All (IsArcInto cone.now n) (listed_into cone.now n) }
    ensures apart { IsTrue result → (n : ℕ) → n < count_of cone.now
        → AreApart (listed_into cone.now n) }
{
    for node in 0..cone.count as usize {
        if !is_node(cone, node) {
            return false;
        }
    }
    true
}

fn is_rank(ranks: &[u32], node: usize) -> bool
    requires { node < length ranks.now }
    ensures { IsTrue result → (n : ℕ) → n < node → slice_index ranks.now n
        ≡ slice_index ranks.now node → n ≡ node }
{
    for other in 0..node {
        if ranks[other] == ranks[node] {
            return false;
        }
    }
    true
}

fn are_ranks(ranks: &[u32]) -> bool
    ensures { IsTrue result → (a b : ℕ) → a < length ranks.now → b < length ranks.now
        → slice_index ranks.now a ≡ slice_index ranks.now b → a ≡ b }
{
    for node in 0..ranks.len() {
        if !is_rank(ranks, node) {
            return false;
        }
    }
    true
}

/// Whether ranks are an order of a cone's nodes and of no others.
pub(crate) fn are_ordered(cone: &Cone, ranks: &[u32]) -> bool
    ensures { IsTrue result → IsOrdered cone.now (length ranks.now) (slice_index ranks.now) }
{
    cone.count as usize <= ranks.len() && are_ranks(ranks)
}

fn is_launch(cone: &Cone, launch: &Launch) -> bool
    ensures { IsTrue result → IsLaunch cone.now launch.now }
{
    launch.node < cone.count && launch.offer.unsigned_abs() <= 1_000_000_000_000_000_000
}

fn is_end(cone: &Cone, end: &WalkEnd) -> bool
    ensures { IsTrue result → IsEnd cone.now end.now }
{
    if end.node >= cone.count || end.launches.len() >= 1 << 32 {
        return false;
    }
    for launch in end.launches.as_slice() {
        if !is_launch(cone, launch) {
            return false;
        }
    }
    true
}

fn are_ends(cone: &Cone) -> bool
    ensures { IsTrue result → All (IsEnd cone.now) cone.now.ends }
{
    for end in cone.ends.as_slice() {
        if !is_end(cone, end) {
            return false;
        }
    }
    true
}

fn has_shape(cone: &Cone) -> bool
    ensures few { IsTrue result → count_of cone.now < most_nodes }
    ensures starts { IsTrue result → length cone.now.starts ≡ count_of cone.now + 1 }
    ensures many { IsTrue result → length cone.now.ends < 2 ^ 32 }
{
    cone.count < 8_000_000
        && cone.starts.len() == cone.count as usize + 1
        && cone.ends.len() < 1 << 32
}

/// Whether a cone is as a search wants it.
pub(crate) fn is_sound(cone: &Cone) -> bool
    ensures { IsTrue result → IsCone cone.now }
{
    has_shape(cone) && are_nodes(cone) && are_ends(cone)
}
