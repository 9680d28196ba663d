//! Bounds from arrivals on launch edges.

ghost use Rattle.std.specs.Prelude.{◌≡◌, ◌-ℤ◌, All, None, Some};
ghost use Rattle.sta_units.specs.Numbers.{Within};
ghost use Rattle.timing_defs.specs.declared.edge_times.EdgeTime.{EdgeTime};
ghost use Rattle.bounded_slack.specs.Rows.{signed, signed_on, room_on, least_room, IsLowOffer};

use crate::steps::lesser;
use sta_units::Fs;
use timing_defs::{EdgeTime, EdgeTimes, Kind, LaunchEdge};

/// A lowest offer less a time, that of hold tests negated.
fn left(kind: Kind, low: EdgeTime, time: Fs) -> Option<i64>
    requires low { IsLowOffer low }
    requires time { Within time.0 }
    ensures { result ≡ Some (low.time.0 -ℤ signed kind time.0) }
{
    match kind {
        Kind::Setup => Some(low.time.0 - time.0),
        Kind::Hold => Some(low.time.0 + time.0),
    }
}

/// What the lowest offer on a launch edge leaves at a node that has these times.
fn room_on(kind: Kind, times: &EdgeTimes, low: &EdgeTime) -> Option<i64>
    requires times { All (λ (t : EdgeTime). Within t.time.0) times.now }
    requires low { IsLowOffer low.now }
    ensures { result ≡ room_on (signed_on kind times.now) low.now }
{
    let edge = LaunchEdge {
        clock: low.clock,
        tran: low.tran,
    };
    match times.on(edge) {
        Some(time) => left(kind, *low, time),
        None => None,
    }
}

/// The bound of a node that has these times: the least over launch edges of the lowest offer there less
/// the node's time, in fs. Hold tests have their times negated.
pub fn least_room(kind: Kind, lows: &[EdgeTime], times: &EdgeTimes) -> Option<i64>
    requires lows { All IsLowOffer lows.now }
    requires times { All (λ (t : EdgeTime). Within t.time.0) times.now }
    ensures { result ≡ least_room (signed_on kind times.now) None lows.now }
{
    let mut least = None;
    for low in lows {
        least = lesser(least, room_on(kind, times, low));
    }
    least
}
