//! The totals of what a clock captures.

ghost use Rattle.std.specs.Prelude.{◌≡◌, ◌≤ℤ◌, pos, None, map, count_by};
ghost use Rattle.timing_rules.specs.Rows.{as_fs};
ghost use Rattle.timing_rules.specs.Reports.{least_slack, negative_part};
ghost use Rattle.timing_rules.specs.Summaries.{slack_under, clock_slacks, clock_summary};
ghost use Rattle.affected_cone.specs.Floors.{lowered, floored};
ghost use Rattle.clock_summaries.specs.Totals.{is_under, fails_under};

use crate::captures::Captured;
use node_rows::outer_some;
use sta_units::Fs;
use timing_defs::{ClockSummary, Split};

/// The least total that is told.
const FLOOR: i64 = -i64::MAX;

/// The slack of an endpoint that a clock captures; none of another.
fn slack_under(clock: u32, captured: &Captured) -> Option<i64>
    ensures { result ≡ slack_under clock captured.now }
{
    match captured {
        Some((place, slack)) => { if *place == clock { Some(*slack) } else { None } }
        None => None,
    }
}

/// Whether a clock captures an endpoint.
fn is_under(clock: u32, captured: &Captured) -> bool
    ensures { result ≡ is_under clock captured.now }
{
    slack_under(clock, captured).is_some()
}

/// Whether a clock captures an endpoint of negative slack.
fn fails_under(clock: u32, captured: &Captured) -> bool
    ensures { result ≡ fails_under clock captured.now }
{
    match slack_under(clock, captured) {
        Some(slack) => slack < 0,
        None => false,
    }
}

/// How many endpoints a clock captures.
fn tested_count(clock: u32, captured: &[Captured]) -> usize
    ensures { result ≡ count_by (is_under clock) captured.now }
{
    captured.iter().filter(|one| is_under(clock, *one)).count()
}

/// How many endpoints of negative slack a clock captures.
fn failing_count(clock: u32, captured: &[Captured]) -> usize
    ensures { result ≡ count_by (fails_under clock) captured.now }
{
    captured
        .iter()
        .filter(|one| fails_under(clock, *one))
        .count()
}

/// The least slack of the endpoints that a clock captures, in fs.
fn least_slack(clock: u32, captured: &[Captured]) -> Option<i64>
    ensures { result ≡ least_slack None (map (slack_under clock) captured.now) }
{
    let mut best = None;
    for one in captured {
        best = outer_some(Split::Early, best, slack_under(clock, one));
    }
    best
}

/// A slack where it is negative, else 0.
fn negative_part(slack: Option<i64>) -> i64
    ensures value { result ≡ negative_part slack }
    ensures low { result ≤ℤ pos 0 }
{
    match slack {
        Some(slack) => slack.min(0),
        None => 0,
    }
}

/// A total with a negative part more, or the least total that is told.
fn lowered(total: i64, part: i64) -> i64
    requires { part ≤ℤ pos 0 }
    ensures { result ≡ lowered total part }
{
    total.saturating_add(part).max(FLOOR)
}

/// The sum of the negative slacks of the endpoints that a clock captures, in fs, or `-(2^63 - 1)` where it is less.
fn negative_total(clock: u32, captured: &[Captured]) -> i64
    ensures { result ≡ floored (pos 0) (map (slack_under clock) captured.now) }
{
    let mut total = 0;
    for one in captured {
        total = lowered(total, negative_part(slack_under(clock, one)));
    }
    total
}

/// That sum as a time.
fn total_slack(clock: u32, captured: &[Captured]) -> Fs
    ensures { result.0 ≡ floored (pos 0) (map (slack_under clock) captured.now) }
{
    Fs(negative_total(clock, captured))
}

/// A time that may be there.
fn as_fs(time: Option<i64>) -> Option<Fs>
    ensures { result ≡ as_fs time }
{
    time.map(Fs)
}

/// The totals of a clock, by its place in the list of clocks.
pub(crate) fn clock_summary(clock: u32, captured: &[Captured]) -> ClockSummary
    ensures { result ≡ clock_summary clock (clock_slacks clock captured.now) }
{
    ClockSummary {
        clock,
        tested: tested_count(clock, captured) as u64,
        failing: failing_count(clock, captured) as u64,
        wns: as_fs(least_slack(clock, captured)),
        tns: total_slack(clock, captured),
    }
}
