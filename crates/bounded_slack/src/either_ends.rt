//! The least slack of the walks to either of two end nodes, as the two edges of a pin have them.

ghost use Rattle.std.specs.Prelude.{◌≡◌, IfOk};
ghost use Rattle.bounded_slack.specs.Nets.{IsLeastOfTwo, IsNet, IsShape};
ghost use Rattle.bounded_slack.specs.Cuts.{end_held, room_of};

use crate::fans::Fan;
use crate::firsts::{at_end, is_less};
use crate::searching::least_slack;
use crate::steps::{is_shut, lesser, room};
use sta_units::Memory;
use std::alloc::Global;

/// What the bound of an end node leaves.
fn end_room<F: Fan>(fan: &F) -> Option<i64>
    requires { IsShape (F.net fan.now) }
    ensures { result ≡ room_of (F.net fan.now) (end_held (F.net fan.now)) }
{
    room(fan, at_end(fan))
}

/// The least slack of two end nodes. The second is searched only where its bound leaves room for a lesser
/// slack than that of the first.
fn least_in_turn<F: Fan>(alloc: Global, first: &F, second: &F) -> Result<Option<i64>, Memory>
    requires first { IsNet (F.net first.now) }
    requires second { IsNet (F.net second.now) }
    ensures { IfOk result (IsLeastOfTwo (F.net first.now) (F.net second.now)) }
{
    let known = least_slack(alloc, first)?;
    if is_shut(known, end_room(second)) {
        return Ok(known);
    }
    let found = least_slack(alloc, second)?;
    Ok(lesser(known, found))
}

/// The least slack of the walks to either of two end nodes in fs; none where there is no walk to either. The
/// one whose bound leaves less room is searched first, and the other only where its bound leaves room for a
/// lesser slack. The one error is want of memory.
pub fn least_of_two<F: Fan>(alloc: Global, one: &F, other: &F) -> Result<Option<i64>, Memory>
    requires one { IsNet (F.net one.now) }
    requires other { IsNet (F.net other.now) }
    ensures { IfOk result (IsLeastOfTwo (F.net one.now) (F.net other.now)) }
{
    if is_less(end_room(other), end_room(one)) {
        return least_in_turn(alloc, other, one);
    }
    least_in_turn(alloc, one, other)
}
