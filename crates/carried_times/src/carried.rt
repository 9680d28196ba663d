//! Times of both splits.

ghost use Rattle.std.specs.Prelude.{◌≡◌, true, IfSome};
ghost use Rattle.timing_defs.specs.RowTimes.{times_in, plus_some};
ghost use Rattle.carried_times.specs.Unseeded.{same_time};
ghost use Rattle.carried_times.specs.Times.{outermost_time};
ghost use Rattle.carried_times.specs.Carry.{time_of, no_times, merged, arrivals_of, is_near};

use node_rows::outer_some;
use timing_defs::{EdgeTime, NodeRow, Split};

/// What is carried to a node: an early and a late time in fs, over all launch edges. No changed path arrives
/// at the node earlier than the one or later than the other; where a time is none, no changed path arrives in
/// that split.
#[derive(Clone, Copy, Drop)]
pub struct Carried {
    pub early: Option<i64>,
    pub late: Option<i64>,
}

impl Carried {
    /// The time of a split in fs; none where no changed path arrives in it.
    pub fn of(&self, split: Split) -> Option<i64>
        ensures { result ≡ time_of split self.now }
    {
        match split {
            Split::Early => self.early,
            Split::Late => self.late,
        }
    }
}

/// No times.
pub(crate) fn no_times() -> Carried
    ensures { result ≡ no_times }
{
    Carried {
        early: None,
        late: None,
    }
}

/// The outer ones of two times.
pub(crate) fn merged(one: Carried, other: Carried) -> Carried
    ensures { result ≡ merged one other }
{
    Carried {
        early: outer_some(Split::Early, one.early, other.early),
        late: outer_some(Split::Late, one.late, other.late),
    }
}

/// The outermost of some times.
fn outermost(split: Split, times: &[EdgeTime]) -> Option<i64>
    ensures { result ≡ outermost_time split times.now }
{
    let mut best = None;
    for time in times {
        best = outer_some(split, best, Some(time.time.0));
    }
    best
}

/// The outermost arrival of a row in a split.
pub(crate) fn arrival_in(row: &NodeRow, split: Split) -> Option<i64>
    ensures { result ≡ outermost_time split (times_in split row.now) }
{
    outermost(split, row.times(split).as_slice())
}

/// The outermost arrivals of a row.
pub(crate) fn arrivals_of(row: &NodeRow) -> Carried
    ensures { result ≡ arrivals_of row.now }
{
    Carried {
        early: arrival_in(row, Split::Early),
        late: arrival_in(row, Split::Late),
    }
}

/// No farther from 0 than that; a sum of two such times fits.
const NEAR: u64 = 4_194_304_000_000_000_000;

/// Whether a time is near 0, or not there.
fn is_near(time: Option<i64>) -> bool
    ensures { result ≡ is_near time }
{
    match time {
        Some(time) => time.unsigned_abs() <= NEAR,
        None => true,
    }
}

/// A time a delay later, where both are there.
fn sum(time: Option<i64>, delay: Option<i64>) -> Option<i64>
    requires time { is_near time ≡ true }
    requires delay { is_near delay ≡ true }
    ensures { result ≡ plus_some time delay }
{
    match (time, delay) {
        (Some(time), Some(delay)) => Some(time + delay),
        _ => None,
    }
}

/// A time a delay later; gives up where one of the two is far from 0.
pub(crate) fn later(time: Option<i64>, delay: Option<i64>) -> Option<Option<i64>>
    ensures { IfSome result (λ sum. sum ≡ plus_some time delay) }
{
    if is_near(time) && is_near(delay) {
        Some(sum(time, delay))
    } else {
        None
    }
}

/// Whether two times are the same, or neither is there.
pub(crate) fn same_time(one: Option<i64>, other: Option<i64>) -> bool
    ensures { result ≡ same_time one other }
{
    match (one, other) {
        (None, None) => true,
        (Some(one), Some(other)) => one == other,
        _ => false,
    }
}
