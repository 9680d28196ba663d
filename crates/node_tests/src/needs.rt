//! The setup and hold times of a cell between two of its nodes.

ghost use Rattle.std.specs.Prelude.{◌≡◌, ◌≤◌, [], ◌∷◌, true, false, Some, None, filter, unsigned_abs, IfOk, IfErr};
ghost use Rattle.std.specs.List.{list_all, list_any};
ghost use Rattle.sta_units.specs.Numbers.{limit};
ghost use Rattle.timing_defs.specs.Kinds.{same_kind};
ghost use Rattle.timing_rules.specs.Rows.{outer_some};
ghost use Rattle.node_tests.specs.Needs.{is_test_between, has_table, is_need_in, greatest_need};

use nldm_lookup::{OutOfRange, look_up};
use timing_defs::{CellTest, Kind, Split, Tran};

/// A data node and a clock node of a cell, by the names of their pins in it, and a kind of test.
#[derive(Clone, Copy, Drop)]
pub(crate) struct TestEnds<'a> {
    pub(crate) kind: Kind,
    pub(crate) pin: &'a [u8],
    pub(crate) tran: Tran,
    pub(crate) clock: &'a [u8],
    pub(crate) active: Tran,
}

/// Whether two kinds are the same.
pub(crate) fn same_kind(a: Kind, b: Kind) -> bool
    ensures { result ≡ same_kind a b }
{
    match (a, b) {
        (Kind::Setup, Kind::Setup) | (Kind::Hold, Kind::Hold) => true,
        (Kind::Setup, Kind::Hold) | (Kind::Hold, Kind::Setup) => false,
    }
}

/// Whether a test stands between the two nodes.
fn is_between(ends: &TestEnds<'_>, test: &CellTest) -> bool
    ensures { result ≡ is_test_between ends.now test.now }
{
    same_kind(test.kind, ends.kind)
        && test.pin.as_bytes() == ends.pin
        && test.tran.is(ends.tran)
        && test.clock.as_bytes() == ends.clock
        && test.active.is(ends.active)
}

/// Whether some test stands between the two nodes.
pub(crate) fn has_test(tests: &[CellTest], ends: &TestEnds<'_>) -> bool
    ensures { result ≡ list_any (is_test_between ends.now) tests.now }
{
    tests.iter().any(|test| is_between(ends, test))
}

/// The greater of two times.
fn greater(best: Option<i64>, next: i64) -> i64
    ensures { Some result ≡ outer_some Split.Late best (Some next) }
{
    match best {
        Some(best) => best.max(next),
        None => next,
    }
}

/// The greatest time so far, with that of a test between the two nodes.
fn with_test(
    best: Option<i64>,
    test: &CellTest,
    ends: &TestEnds<'_>,
    clock_slew: i64,
    data_slew: i64,
) -> Result<Option<i64>, OutOfRange>
    requires table { has_table test.now ≡ true }
    requires clock { unsigned_abs clock_slew ≤ limit }
    requires data { unsigned_abs data_slew ≤ limit }
    ensures need { IfOk result
        (λ need. need
        ≡ greatest_need clock_slew data_slew best
        (filter (is_test_between ends.now) (test.now ∷ []))) }
    ensures fine { IfOk result
        (λ _. list_all (is_need_in clock_slew data_slew)
        (filter (is_test_between ends.now) (test.now ∷ [])) ≡ true) }
    ensures err { IfErr result
        (λ _. list_all (is_need_in clock_slew data_slew)
        (filter (is_test_between ends.now) (test.now ∷ [])) ≡ false) }
{
    if is_between(ends, test) {
        let next = look_up(&test.need, clock_slew, data_slew)?;
        Ok(Some(greater(best, next)))
    } else {
        Ok(best)
    }
}

/// The greatest time that the tests between the two nodes need, at these slews of clock and data, all in
/// fs; none where no test stands there. `OutOfRange` exactly where the time of one leaves its limit.
/// Takes no memory.
pub(crate) fn need_of(
    tests: &[CellTest],
    ends: &TestEnds<'_>,
    clock_slew: i64,
    data_slew: i64,
) -> Result<Option<i64>, OutOfRange>
    requires tables { list_all has_table tests.now ≡ true }
    requires clock { unsigned_abs clock_slew ≤ limit }
    requires data { unsigned_abs data_slew ≤ limit }
    ensures need { IfOk result
        (λ need. need
        ≡ greatest_need clock_slew data_slew None (filter (is_test_between ends.now) tests.now)) }
    ensures fine { IfOk result
        (λ _. list_all (is_need_in clock_slew data_slew)
        (filter (is_test_between ends.now) tests.now) ≡ true) }
    ensures err { IfErr result
        (λ _. list_all (is_need_in clock_slew data_slew)
        (filter (is_test_between ends.now) tests.now) ≡ false) }
{
    let mut best = None;
    for test in tests {
        best = with_test(best, test, ends, clock_slew, data_slew)?;
    }
    Ok(best)
}
