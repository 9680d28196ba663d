//! Sums, rooms and slacks of single nodes.

ghost use Rattle.std.specs.Prelude.{◌≡◌, ◌*◌, ◌^◌, ◌≤◌, unsigned_abs, Some, None};
ghost use Rattle.sta_units.specs.Numbers.{Within};
ghost use Rattle.worst_walks.specs.Walks.{delay_in};
ghost use Rattle.bounded_slack.specs.Nets.{arcs_into, minus_some, lesser, IsLow, IsArcInto, IsShape};
ghost use Rattle.bounded_slack.specs.Cuts.{arc_held, behind, is_shut, room_of, IsHeld};

use crate::fans::Fan;
use crate::reached::Held;
use worst_walks::WalkArc;

/// Whether nothing better than a slack that is found comes through a node with this room.
pub(crate) fn is_shut(least: Option<i64>, room: Option<i64>) -> bool
    ensures { result ≡ is_shut least room }
{
    match (least, room) {
        (_, None) => true,
        (None, Some(_)) => false,
        (Some(found), Some(left)) => !(left < found),
    }
}

/// An offer or a bound less the sum of a node.
pub(crate) fn minus(slack: Option<i64>, held: Held) -> Option<i64>
    requires low { IsLow slack }
    requires sum { unsigned_abs held.sum ≤ 2 ^ 22 * 10 ^ 12 }
    ensures { result ≡ minus_some slack (Some held.sum) }
{
    match slack {
        Some(found) => Some(found - held.sum),
        None => None,
    }
}

/// The lesser of two slacks, where there are two.
pub(crate) fn lesser(one: Option<i64>, other: Option<i64>) -> Option<i64>
    ensures { result ≡ lesser one other }
{
    match (one, other) {
        (None, second) => second,
        (Some(x), None) => Some(x),
        (Some(x), Some(y)) => if y < x { Some(y) } else { Some(x) },
    }
}

/// The node of an arc with its level, and the sum by this arc.
fn arc_held(level: u32, held: Held, arc: WalkArc) -> Held
    requires sum { unsigned_abs held.sum ≤ 2 ^ 22 * 10 ^ 12 }
    requires delay { Within arc.delay }
    ensures { result ≡ arc_held level held arc }
{
    Held {
        level,
        node: arc.from,
        sum: arc.delay + held.sum,
    }
}

/// The node before an arc, with the sum by this arc.
pub(crate) fn behind<F: Fan>(fan: &F, held: Held, arc: WalkArc) -> Held
    requires net { IsShape (F.net fan.now) }
    requires held { IsHeld (F.net fan.now) held }
    requires arc { IsArcInto (F.net fan.now) held.node arc }
    requires there { delay_in (arcs_into (F.net fan.now) held.node) arc.from ≡ Some arc.delay }
    ensures value { result ≡ behind (F.net fan.now) held arc }
    ensures held { IsHeld (F.net fan.now) result }
{
    arc_held(fan.level(arc.from), held, arc)
}

/// What the bound of a node leaves for its sum.
pub(crate) fn room<F: Fan>(fan: &F, held: Held) -> Option<i64>
    requires net { IsShape (F.net fan.now) }
    requires held { IsHeld (F.net fan.now) held }
    ensures { result ≡ room_of (F.net fan.now) held }
{
    minus(fan.bound(held.node), held)
}
