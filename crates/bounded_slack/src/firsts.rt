//! One walk by which a search begins: back from the end node by the arcs of least bound.

ghost use Rattle.std.specs.Prelude.{◌≡◌, ◌⊎◌, IfOk, IfSome, Some};
ghost use Rattle.bounded_slack.specs.Nets.{IsShape};
ghost use Rattle.bounded_slack.specs.Cuts.{end_held, IsHeld, IsKnown, IsBehind};

use crate::fans::Fan;
use crate::reached::Held;
use crate::steps::{behind, minus, room};
use sta_units::Memory;
use std::alloc::Global;
use worst_walks::WalkArc;

/// The end node with the empty walk.
pub(crate) fn at_end<F: Fan>(fan: &F) -> Held
    requires { IsShape (F.net fan.now) }
    ensures held { IsHeld (F.net fan.now) result }
    ensures end { result ≡ end_held (F.net fan.now) }
{
    let end = fan.end();
    Held {
        level: fan.level(end),
        node: end,
        sum: 0,
    }
}

/// Whether a room is the lesser of two; none is the greatest.
pub(crate) fn is_less(one: Option<i64>, other: Option<i64>) -> bool {
    match (one, other) {
        (None, _) => false,
        (Some(_), None) => true,
        (Some(x), Some(y)) => x < y,
    }
}

/// Of two nodes the one of lesser room; of equal ones the first.
fn nearer<F: Fan>(fan: &F, best: Option<Held>, next: Held) -> Held
    requires net { IsShape (F.net fan.now) }
    requires best { IfSome best (IsHeld (F.net fan.now)) }
    requires next { IsHeld (F.net fan.now) next }
    ensures { (best ≡ Some result) ⊎ (result ≡ next) }
{
    match best {
        None => next,
        Some(found) => if is_less(room(fan, next), room(fan, found)) {
            next
        } else {
            found
        },
    }
}

/// The node of least room before an arc into a node; none where no arc leads to it.
fn back<F: Fan>(alloc: Global, fan: &F, held: Held) -> Result<Option<Held>, Memory>
    requires net { IsShape (F.net fan.now) }
    requires held { IsHeld (F.net fan.now) held }
    ensures { IfOk result (IsBehind (F.net fan.now) held) }
{
    let arcs = fan.arcs_into(alloc, held.node)?;
    let mut best = None;
    for arc in arcs.as_slice() {
        let next = behind(fan, held, *arc);
        best = Some(nearer(fan, best, next));
    }
    Ok(best)
}

/// The slack of the walk from a node that is held; none where nothing is offered there.
fn own_slack<F: Fan>(alloc: Global, fan: &F, held: Held) -> Result<Option<i64>, Memory>
    requires net { IsShape (F.net fan.now) }
    requires held { IsHeld (F.net fan.now) held }
    ensures { IfOk result (IsKnown (F.net fan.now)) }
{
    let arcs = fan.arcs_into(alloc, held.node)?;
    let offer = fan.offer(alloc, held.node, arcs.as_slice())?;
    Ok(minus(offer, held))
}

/// The slack of the walk that goes back from the end node by the arcs of least room; none where what it
/// ends at offers nothing.
pub(crate) fn first_slack<F: Fan>(alloc: Global, fan: &F) -> Result<Option<i64>, Memory>
    requires { IsShape (F.net fan.now) }
    ensures { IfOk result (IsKnown (F.net fan.now)) }
{
    let mut at = at_end(fan);
    let mut next = back(alloc, fan, at)?;
    while let Some(held) = next {
        at = held;
        next = back(alloc, fan, held)?;
    }
    own_slack(alloc, fan, at)
}
