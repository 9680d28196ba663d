//! The least slack and the sum of the negative slacks of endpoints.

ghost use Rattle.std.specs.Prelude.{◌≡◌, ◌≤ℤ◌, pos, None, map};
ghost use Rattle.timing_rules.specs.Rows.{outer_some, as_fs};
ghost use Rattle.timing_rules.specs.Reports.{least_slack, negative_part};
ghost use Rattle.affected_cone.specs.Analysed.{slack_in};
ghost use Rattle.affected_cone.specs.Floors.{lowered, floored};

use crate::ends::{EndSlacks, slack_in};
use node_rows::outer_some;
use sta_units::Fs;
use timing_defs::{Kind, Split, Totals};

/// The least total that is told.
const FLOOR: i64 = -i64::MAX;

/// The least slack of a kind, in fs.
pub(crate) fn worst_slack_of(ends: &[EndSlacks], kind: Kind) -> Option<i64>
    ensures { result ≡ least_slack None (map (slack_in kind) ends.now) }
{
    let mut best = None;
    for end in ends {
        best = outer_some(Split::Early, best, slack_in(end, kind));
    }
    best
}

/// A slack where it is negative, else 0.
fn negative_part(slack: Option<i64>) -> i64
    ensures value { result ≡ negative_part slack }
    ensures low { result ≤ℤ pos 0 }
{
    match slack {
        Some(slack) => slack.min(0),
        None => 0,
    }
}

/// A total with a negative part more, or the least total that is told.
fn lowered(total: i64, part: i64) -> i64
    requires { part ≤ℤ pos 0 }
    ensures { result ≡ lowered total part }
{
    total.saturating_add(part).max(FLOOR)
}

/// The sum of the negative slacks of a kind, in fs, or `-(2^63 - 1)` where it is less.
pub(crate) fn negative_total(ends: &[EndSlacks], kind: Kind) -> i64
    ensures { result ≡ floored (pos 0) (map (slack_in kind) ends.now) }
{
    let mut total = 0;
    for end in ends {
        total = lowered(total, negative_part(slack_in(end, kind)));
    }
    total
}

/// The totals of both kinds, with a number.
pub(crate) fn totals_of(number: u64, ends: &[EndSlacks]) -> Totals
    ensures number { result.number ≡ number }
    ensures setup_worst { result.setup_wns
        ≡ as_fs (least_slack None (map (slack_in Kind.Setup) ends.now)) }
    ensures setup_total { result.setup_tns.0
        ≡ floored (pos 0) (map (slack_in Kind.Setup) ends.now) }
    ensures hold_worst { result.hold_wns
        ≡ as_fs (least_slack None (map (slack_in Kind.Hold) ends.now)) }
    ensures hold_total { result.hold_tns.0 ≡ floored (pos 0) (map (slack_in Kind.Hold) ends.now) }
{
    Totals {
        number,
        setup_wns: as_fs(worst_slack_of(ends, Kind::Setup)),
        setup_tns: Fs(negative_total(ends, Kind::Setup)),
        hold_wns: as_fs(worst_slack_of(ends, Kind::Hold)),
        hold_tns: Fs(negative_total(ends, Kind::Hold)),
    }
}

/// A time that may be there.
pub(crate) fn as_fs(time: Option<i64>) -> Option<Fs>
    ensures { result ≡ as_fs time }
{
    time.map(Fs)
}
