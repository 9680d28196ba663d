//! The nodes of the walks that have at most some slack: nodes are taken by falling level.

ghost use Rattle.std.specs.Prelude.{◌≡◌, ◌++◌, ◌∷◌, [], length, IfOk, OnOk, Some};
ghost use Rattle.worst_walks.specs.Walks.{delay_in};
ghost use Rattle.bounded_slack.specs.Nets.{arcs_into, IsArcInto, IsNet, IsShape};
ghost use Rattle.bounded_slack.specs.Cuts.{sum_at, IsHeld};
ghost use Rattle.bounded_slack.specs.Nears.{is_past, AreNear, HasNeared, HasSpread, IsNearSearch, IsNearSpread};

use crate::fans::Fan;
use crate::firsts::at_end;
use crate::reached::{Held, Reached};
use crate::steps::{behind, room};
use sta_units::Memory;
use std::alloc::Global;
use timing_defs::Items;
use worst_walks::WalkArc;

/// The greatest slack of the walks that are searched for, in fs.
#[derive(Clone, Copy, Drop)]
pub(crate) struct SlackBound {
    pub(crate) most: i64,
}

/// Whether a room leaves no walk of at most this slack.
fn is_past(bound: SlackBound, room: Option<i64>) -> bool
    ensures { result ≡ is_past bound.most room }
{
    match room {
        None => true,
        Some(left) => bound.most < left,
    }
}

/// Follows an arc: the node before it is reached with the sum by the arc, where it isn't shut out.
fn near<F: Fan>(
    fan: &F,
    reached: &mut Reached,
    bound: SlackBound,
    held: Held,
    arc: WalkArc,
) -> Result<(), Memory>
    requires net { IsShape (F.net fan.now) }
    requires held { IsHeld (F.net fan.now) held }
    requires arc { IsArcInto (F.net fan.now) held.node arc }
    requires there { delay_in (arcs_into (F.net fan.now) held.node) arc.from ≡ Some arc.delay }
    ensures { OnOk result
        (HasNeared (F.net fan.now) bound.most held arc (sum_at reached.old) (sum_at reached.new)) }
{
    let next = behind(fan, held, arc);
    if is_past(bound, room(fan, next)) {
        return Ok(());
    }
    reached.raise(next)?;
    Ok(())
}

/// Follows the arcs into a node.
fn spread<F: Fan>(
    fan: &F,
    reached: &mut Reached,
    bound: SlackBound,
    held: Held,
    arcs: &[WalkArc],
) -> Result<(), Memory>
    requires net { IsShape (F.net fan.now) }
    requires held { IsHeld (F.net fan.now) held }
    requires arcs { arcs.now ≡ arcs_into (F.net fan.now) held.node }
    ensures { OnOk result
        (HasSpread (F.net fan.now) bound.most (sum_at reached.old) (sum_at reached.new) held arcs.now
        (length arcs.now)) }
{
    for arc in arcs {
        near(fan, reached, bound, held, *arc)?;
    }
    Ok(())
}

/// Takes a node: it is listed, and the arcs into it are followed.
fn take<F: Fan>(
    alloc: Global,
    fan: &F,
    nodes: &mut Items<u32>,
    reached: &mut Reached,
    bound: SlackBound,
    held: Held,
) -> Result<(), Memory>
    requires net { IsNet (F.net fan.now) }
    requires searching { IsNearSearch (F.net fan.now) bound.most (sum_at reached.old) nodes.old
        (Some held) }
    ensures { OnOk result
        (IsNearSpread (F.net fan.now) bound.most (sum_at reached.new) nodes.new held) }
{
    let arcs = fan.arcs_into(alloc, held.node)?;
    nodes.push(held.node)?;
    spread(fan, reached, bound, held, arcs.as_slice())?;
    Ok(())
}

/// The nodes of the walks to the end node that have at most a slack.
fn nodes_within<F: Fan>(alloc: Global, fan: &F, bound: SlackBound) -> Result<Items<u32>, Memory>
    requires { IsNet (F.net fan.now) }
    ensures { IfOk result (AreNear (F.net fan.now) bound.most) }
{
    let mut nodes = Items::new(alloc);
    let mut reached = Reached::new(alloc);
    reached.raise(at_end(fan))?;
    let mut next = reached.pop();
    while let Some(held) = next {
        take(alloc, fan, &mut nodes, &mut reached, bound, held)?;
        next = reached.pop();
    }
    Ok(nodes)
}

/// The nodes of the walks to the end node that have at most a slack, in fs, each once and those of higher
/// levels first; others may be among them. Takes each node once, and only those whose bound leaves room for
/// such a walk. The one error is want of memory.
pub fn near_nodes<F: Fan>(alloc: Global, fan: &F, most: i64) -> Result<Items<u32>, Memory>
    requires { IsNet (F.net fan.now) }
    ensures { IfOk result (AreNear (F.net fan.now) most) }
{
    nodes_within(alloc, fan, SlackBound { most })
}
