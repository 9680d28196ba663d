//! The required times that tests give.

ghost use Rattle.std.specs.Prelude.{◌≡◌, Some, ◌+◌, ◌≤◌, ◌^◌, ◌+ℤ◌, ◌-ℤ◌, unsigned_abs, slice_get};
ghost use Rattle.std.specs.Option.{option_copied};
ghost use Rattle.timing_defs.specs.Kinds.{kind_of, other_split};
ghost use Rattle.timing_rules.specs.Rows.{outer, outer_some};
ghost use Rattle.timing_rules.specs.Tests.{separation_on, uncertainty_on};
ghost use Rattle.required_engine.specs.Behinds.{told_limit, over_tests};

use netlist_store::Store;
use node_tests::NodeTest;
use path_rules::separation;
use timing_defs::{Clock, Kind, Split, Tran};

/// The clock at a place of the list of clocks.
fn clock_at(store: &Store, place: u32) -> Option<&Clock>
    ensures { option_copied result ≡ slice_get store.now.design.constraints.clocks place }
{
    store.constraints().clock(place)
}

/// The time from a launch edge to a capture edge, in fs; 0 where a clock is not there.
fn separation_on(store: &Store, kind: Kind, launch: u32, from: Tran, capture: u32, to: Tran) -> i64
    ensures { result ≡ separation_on store.now.design kind (launch, from) (capture, to) }
{
    store.laws();
    let Some(launch) = clock_at(store, launch) else {
        return 0;
    };
    let Some(capture) = clock_at(store, capture) else {
        return 0;
    };
    separation(launch, from, capture, to, kind).0
}

/// The uncertainty of the clock at a place, in fs; 0 where it is not there.
fn uncertainty_on(store: &Store, kind: Kind, capture: u32) -> i64
    ensures { result ≡ uncertainty_on store.now.design kind capture }
{
    match clock_at(store, capture) {
        Some(clock) => clock.uncertainty(kind).0,
        None => 0,
    }
}

/// A time in 128 bits, so that no sum of a few times wraps.
#[tactic(auto, using(sta_units::proofs::Rounding::signed_steps))]
pub(crate) fn wide(time: i64) -> i128
    ensures value { result ≡ time }
    ensures bound { unsigned_abs result ≤ 2 ^ 63 }
{
    i128::from(time)
}

/// The sum of two times.
#[tactic(auto, using(sta_units::proofs::Rounding::signed_steps))]
fn sum(x: i128, y: i128) -> i128
    requires x_bound { unsigned_abs x ≤ 2 ^ 100 }
    requires y_bound { unsigned_abs y ≤ 2 ^ 100 }
    ensures value { result ≡ x +ℤ y }
    ensures bound { unsigned_abs result ≤ unsigned_abs x + unsigned_abs y }
{
    x + y
}

/// A time less another.
#[tactic(auto, using(sta_units::proofs::Rounding::signed_steps))]
pub(crate) fn difference(x: i128, y: i128) -> i128
    requires x_bound { unsigned_abs x ≤ 2 ^ 100 }
    requires y_bound { unsigned_abs y ≤ 2 ^ 100 }
    ensures value { result ≡ x -ℤ y }
    ensures bound { unsigned_abs result ≤ unsigned_abs x + unsigned_abs y }
{
    x - y
}

/// The latest arrival that a setup test allows.
#[tactic(auto, using(sta_units::proofs::Rounding::signed_steps))]
fn latest(early: i64, apart: i64, need: i64, unsure: i64) -> i128
    ensures { result ≡ early +ℤ apart -ℤ need -ℤ unsure }
{
    let captured = sum(wide(early), wide(apart));
    difference(difference(captured, wide(need)), wide(unsure))
}

/// The earliest arrival that a hold test allows.
#[tactic(auto, using(sta_units::proofs::Rounding::signed_steps))]
fn earliest(late: i64, apart: i64, need: i64, unsure: i64) -> i128
    ensures { result ≡ late +ℤ apart +ℤ need +ℤ unsure }
{
    let captured = sum(wide(late), wide(apart));
    sum(sum(captured, wide(need)), wide(unsure))
}

/// The time on a launch edge that gives a test slack 0, in fs.
fn limit(store: &Store, kind: Kind, clock: u32, tran: Tran, test: &NodeTest) -> i128
    ensures { result ≡ told_limit store.now.design kind (clock, tran) test.now }
{
    let apart = separation_on(
        store,
        kind,
        clock,
        tran,
        test.capture_clock,
        test.capture_tran,
    );
    let unsure = uncertainty_on(store, kind, test.capture_clock);
    match kind {
        Kind::Setup => latest(test.early.0, apart, test.need.0, unsure),
        Kind::Hold => earliest(test.late.0, apart, test.need.0, unsure),
    }
}

/// The greater of two late values, the lesser of two early ones.
fn outer(split: Split, x: i128, y: i128) -> i128
    ensures { result ≡ outer split x y }
{
    match split {
        Split::Early => x.min(y),
        Split::Late => x.max(y),
    }
}

/// The greater of two late values, the lesser of two early ones; the other where there is one alone.
pub(crate) fn outer_some(split: Split, best: Option<i128>, next: Option<i128>) -> Option<i128>
    ensures { result ≡ outer_some split best next }
{
    match (best, next) {
        (None, _) => next,
        (Some(_), None) => best,
        (Some(x), Some(y)) => Some(outer(split, x, y)),
    }
}

/// The required time so far, with that of a test.
fn with_test(
    store: &Store,
    split: Split,
    best: Option<i128>,
    test: &NodeTest,
    clock: u32,
    tran: Tran,
) -> Option<i128>
    ensures { result
        ≡ outer_some (other_split split) best
        (Some (told_limit store.now.design (kind_of split) (clock, tran) test.now)) }
{
    let next = limit(store, split.kind(), clock, tran, test);
    outer_some(split.other(), best, Some(next))
}

/// The required time on a launch edge over the tests of a node, in fs: the least for late data, the
/// greatest for early data.
pub(crate) fn over_tests(
    store: &Store,
    split: Split,
    tests: &[NodeTest],
    clock: u32,
    tran: Tran,
) -> Option<i128>
    ensures { result ≡ over_tests store.now.design split tests.now (clock, tran) }
{
    let mut best = None;
    for test in tests {
        best = with_test(store, split, best, test, clock, tran);
    }
    best
}
