//! The search: nodes are taken by falling level.

ghost use Rattle.std.specs.Prelude.{◌≡◌, IfOk, OnOk, Some};
ghost use Rattle.worst_walks.specs.Walks.{delay_in};
ghost use Rattle.bounded_slack.specs.Nets.{arcs_into, IsArcInto, IsNet, IsShape, IsLeastSlack};
ghost use Rattle.bounded_slack.specs.Cuts.{sum_at, HasFollowed, IsHeld, IsNever, IsSearching, IsSpread, IsStill};

use crate::fans::Fan;
use crate::firsts::{at_end, first_slack};
use crate::reached::{Held, Reached};
use crate::steps::{behind, is_shut, lesser, minus, room};
use sta_units::Memory;
use std::alloc::Global;
use worst_walks::WalkArc;

/// The least slack of all walks to the end node in fs; none where there is no walk. Takes each node
/// once, and only those through which the bound lets a walk be better than the least slack found so far;
/// the memory taken is a map of the nodes that are reached and not taken. The one error is want of memory.
pub fn least_slack<F: Fan>(alloc: Global, fan: &F) -> Result<Option<i64>, Memory>
    requires { IsNet (F.net fan.now) }
    ensures { IfOk result (IsLeastSlack (F.net fan.now)) }
{
    let mut least = first_slack(alloc, fan)?;
    let mut reached = Reached::new(alloc);
    let end = at_end(fan);
    reached.raise(end)?;
    let mut next = reached.pop();
    while let Some(held) = next {
        least = settle(alloc, fan, &mut reached, least, held)?;
        next = reached.pop();
    }
    Ok(least)
}

/// Takes a node: the least slack found becomes the lesser of it and that of the walk from the node, and
/// the node's arcs are followed. Nothing where the node is shut out by now.
fn settle<F: Fan>(
    alloc: Global,
    fan: &F,
    reached: &mut Reached,
    least: Option<i64>,
    held: Held,
) -> Result<Option<i64>, Memory>
    requires net { IsNet (F.net fan.now) }
    requires searching { IsSearching (F.net fan.now) (sum_at reached.old) least (Some held) }
    ensures { IfOk result
        (λ found. IsSpread (F.net fan.now) (sum_at reached.new) found held IsNever) }
{
    if is_shut(least, room(fan, held)) {
        return Ok(least);
    }
    let arcs = fan.arcs_into(alloc, held.node)?;
    let offer = fan.offer(alloc, held.node, arcs.as_slice())?;
    let found = lesser(least, minus(offer, held));
    spread(fan, reached, found, held, arcs.as_slice())?;
    Ok(found)
}

/// Follows the arcs into a node.
fn spread<F: Fan>(
    fan: &F,
    reached: &mut Reached,
    least: Option<i64>,
    held: Held,
    arcs: &[WalkArc],
) -> Result<(), Memory>
    requires net { IsNet (F.net fan.now) }
    requires held { IsHeld (F.net fan.now) held }
    requires arcs { arcs.now ≡ arcs_into (F.net fan.now) held.node }
    requires still { IsSpread (F.net fan.now) (sum_at reached.old) least held
        (IsStill (F.net fan.now) held.sum (arcs_into (F.net fan.now) held.node)) }
    ensures { OnOk result (IsSpread (F.net fan.now) (sum_at reached.new) least held IsNever) }
{
    for arc in arcs {
        follow(fan, reached, least, held, *arc)?;
    }
    Ok(())
}

/// Follows an arc: the node before it is reached with the sum by the arc, where it isn't shut out.
fn follow<F: Fan>(
    fan: &F,
    reached: &mut Reached,
    least: Option<i64>,
    held: Held,
    arc: WalkArc,
) -> Result<(), Memory>
    requires net { IsShape (F.net fan.now) }
    requires held { IsHeld (F.net fan.now) held }
    requires arc { IsArcInto (F.net fan.now) held.node arc }
    requires there { delay_in (arcs_into (F.net fan.now) held.node) arc.from ≡ Some arc.delay }
    ensures { OnOk result
        (HasFollowed (F.net fan.now) least held arc (sum_at reached.old) (sum_at reached.new)) }
{
    let next = behind(fan, held, arc);
    if is_shut(least, room(fan, next)) {
        return Ok(());
    }
    reached.raise(next)?;
    Ok(())
}
