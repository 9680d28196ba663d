//! The lists of nodes of walks, made only where they are compared or shown.

ghost use Rattle.std.specs.Prelude.{◌≡◌, ◌<◌, All, map, IsSome, IfOk};
ghost use Rattle.std.specs.Ordering.{nat_cmp, is_lt};
ghost use Rattle.std.specs.Cmp.Lexicographic.{slice_cmp};
ghost use Rattle.worst_walks.specs.Walks.{whole_list, comes_before};
ghost use Rattle.worst_walks.specs.Tables.{row_in, IsTrace};
ghost use Rattle.worst_walks.specs.Searches.{AreKnown, IsFalling};
ghost use Rattle.worst_walks.specs.Best.{better};

use crate::cones::Walk;
use crate::orders::WalkOrder;
use crate::tables::{Entry, row_at};
use sta_units::Memory;
use std::alloc::Global;
use std::cmp::Ordering;
use timing_defs::Items;

/// The nodes of the best walk from a node to the end node, by the entries. Takes a step for each.
/// The one error is want of memory.
pub fn nodes_from(
    alloc: Global,
    rows: &[Option<Entry>],
    node: u32,
    end: u32,
) -> Result<Items<u32>, Memory>
    requires falling { IsFalling rows.now end }
    requires node { IsSome (row_in rows.now node) }
    ensures { IfOk result (IsTrace rows.now end node) }
{
    let mut nodes = Items::new(alloc);
    nodes.push(node)?;
    let mut at = node;
    while at != end {
        let Some(entry) = row_at(rows, at) else {
            unreachable!()
        };
        at = entry.next;
        nodes.push(at)?;
    }
    Ok(nodes)
}

/// The nodes by which a walk is ordered among those of its slack.
fn whole_list<O: WalkOrder>(alloc: Global, order: &O, nodes: &[u32]) -> Result<Items<u32>, Memory>
    requires { All (λ n. n < O.count order.now) nodes.now }
    ensures value { IfOk result (λ list. list ≡ whole_list (O.before order.now) nodes.now) }
    ensures known { IfOk result (λ list. All (λ n. n < O.count order.now) list) }
{
    if nodes.is_empty() {
        return Ok(Items::new(alloc));
    }
    let mut list = order.nodes_before(alloc, nodes[0])?;
    for node in nodes {
        list.push(*node)?;
    }
    Ok(list)
}

/// How a node compares with another.
fn compared<O: WalkOrder>(order: &O, one: u32, other: u32) -> Ordering
    requires one { one < O.count order.now }
    requires other { other < O.count order.now }
    ensures { result ≡ nat_cmp (O.rank order.now one) (O.rank order.now other) }
{
    if order.comes_first(one, other) {
        Ordering::Less
    } else if order.comes_first(other, one) {
        Ordering::Greater
    } else {
        Ordering::Equal
    }
}

/// Whether a list comes before another.
#[tactic(auto, using(crate::proofs::Comparing::cmp_step, crate::proofs::Comparing::cmp_past))]
fn is_less<O: WalkOrder>(order: &O, left: &[u32], right: &[u32]) -> bool
    requires left { All (λ n. n < O.count order.now) left.now }
    requires right { All (λ n. n < O.count order.now) right.now }
    ensures { result
        ≡ is_lt
        (slice_cmp nat_cmp (map (O.rank order.now) left.now) (map (O.rank order.now) right.now)) }
{
    for place in 0..left.len().min(right.len()) {
        match compared(order, left[place], right[place]) {
            Ordering::Less => return true,
            Ordering::Greater => return false,
            Ordering::Equal => {}
        }
    }
    left.len() < right.len()
}

/// Whether a walk comes before another, by slack and then by the whole lists of nodes, which are made
/// only where slacks tie. The one error is want of memory.
pub fn comes_before<O: WalkOrder>(
    alloc: Global,
    order: &O,
    one: &Walk,
    other: &Walk,
) -> Result<bool, Memory>
    requires one { All (λ n. n < O.count order.now) one.now.nodes }
    requires other { All (λ n. n < O.count order.now) other.now.nodes }
    ensures { IfOk result
        (λ before. before
        ≡ comes_before (O.rank order.now) (O.before order.now) one.now other.now) }
{
    if one.slack != other.slack {
        return Ok(one.slack < other.slack);
    }
    let left = whole_list(alloc, order, one.nodes.as_slice())?;
    let right = whole_list(alloc, order, other.nodes.as_slice())?;
    Ok(is_less(order, left.as_slice(), right.as_slice()))
}

/// The one of two walks that comes before the other, where there are two.
pub(crate) fn former<O: WalkOrder>(
    alloc: Global,
    order: &O,
    first: Option<Walk>,
    second: Option<Walk>,
) -> Result<Option<Walk>, Memory>
    requires first { AreKnown (O.count order.now) first }
    requires second { AreKnown (O.count order.now) second }
    ensures { IfOk result
        (λ best. best
        ≡ better (comes_before (O.rank order.now) (O.before order.now)) first second) }
{
    match (first, second) {
        (None, other) => Ok(other),
        (Some(x), None) => Ok(Some(x)),
        (Some(x), Some(y)) => if comes_before(alloc, order, &y, &x)? {
            Ok(Some(y))
        } else {
            Ok(Some(x))
        },
    }
}
