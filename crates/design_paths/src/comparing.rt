//! The order of paths: by slack, and then by their nodes.

ghost use Rattle.std.specs.Prelude.{◌≡◌, map};
ghost use Rattle.timing_rules.specs.Paths.{tran_cmp, named_cmp, nodes_cmp};
ghost use Rattle.timing_rules.specs.Ranking.{ranked, comes_before};

use std::cmp::Ordering;
use timing_defs::{Path, PathNode, Tran};

/// How a transition compares with another: rise comes before fall.
fn tran_order(one: Tran, other: Tran) -> Ordering
    ensures { result ≡ tran_cmp one other }
{
    match (one, other) {
        (Tran::Rise, Tran::Fall) => Ordering::Less,
        (Tran::Fall, Tran::Rise) => Ordering::Greater,
        (Tran::Rise, Tran::Rise) | (Tran::Fall, Tran::Fall) => Ordering::Equal,
    }
}

/// How a node compares with another, by the name of its pin and then by its transition.
fn node_order(one: &PathNode, other: &PathNode) -> Ordering
    ensures { result ≡ named_cmp (one.now.pin, one.now.tran) (other.now.pin, other.now.tran) }
{
    match one.pin.cmp(&other.pin) {
        Ordering::Less => Ordering::Less,
        Ordering::Greater => Ordering::Greater,
        Ordering::Equal => tran_order(one.tran, other.tran),
    }
}

/// How a list of nodes compares with another, from the start.
#[tactic(auto, using(crate::proofs::NodeLists::nodes_step, crate::proofs::NodeLists::nodes_past))]
fn nodes_order(one: &[PathNode], other: &[PathNode]) -> Ordering
    ensures { result
        ≡ nodes_cmp (map (λ node. (node.pin, node.tran)) one.now)
        (map (λ node. (node.pin, node.tran)) other.now) }
{
    for place in 0..one.len().min(other.len()) {
        match node_order(&one[place], &other[place]) {
            Ordering::Less => return Ordering::Less,
            Ordering::Greater => return Ordering::Greater,
            Ordering::Equal => {}
        }
    }
    one.len().cmp(&other.len())
}

/// Whether a path comes before another. Its nodes are compared only where slacks are equal.
pub(crate) fn path_before(one: &Path, other: &Path) -> bool
    ensures { result ≡ comes_before (ranked one.now) (ranked other.now) }
{
    match one.slack.cmp(&other.slack) {
        Ordering::Less => true,
        Ordering::Greater => false,
        Ordering::Equal => {
            matches!(
                nodes_order(one.nodes.as_slice(), other.nodes.as_slice()),
                Ordering::Less
            )
        }
    }
}
