//! The parts of a required time.

ghost use Rattle.std.specs.Prelude.{◌≡◌, ◌≤◌, ◌*◌, unsigned_abs};
ghost use Rattle.sta_units.specs.Numbers.{limit, Within};
ghost use Rattle.timing_rules.specs.Stages.{sort_by, parts_by};
ghost use Rattle.timed_paths.specs.Choices.{against, along, capture_time, clocked_sort, slack_left, required_by};
ghost use Rattle.timed_paths.specs.TestNumbers.{test_of, IsKnownTest};

use crate::choosing::required_by;
use crate::sums::negated;
use netlist_store::Store;
use node_tests::NodeTest;
use sta_units::Fs;
use timing_defs::{Kind, RequiredParts, TestSort};

/// Which test a register has for a kind.
fn clocked_sort(kind: Kind) -> TestSort
    ensures { result ≡ clocked_sort kind }
{
    match kind {
        Kind::Setup => TestSort::SetupTime,
        Kind::Hold => TestSort::HoldTime,
    }
}

/// Which test a required time has, by whether it has a clock pin.
fn sort_of(store: &Store, kind: Kind, test: &NodeTest) -> TestSort
    requires { IsKnownTest store.now test.now }
    ensures { result ≡ sort_by kind (test_of store.now test.now).clock }
{
    // What the test is of is asked for by the contract alone.
    let _ = store;
    let Some(clock) = test.clock else {
        return TestSort::OutputDelay;
    };
    let _ = clock;
    clocked_sort(kind)
}

/// The arrival of the capture clock that a kind of tests takes.
fn capture_time(kind: Kind, test: &NodeTest) -> Fs
    ensures { result.0 ≡ capture_time kind test.now }
{
    match kind {
        Kind::Setup => test.early,
        Kind::Hold => test.late,
    }
}

/// A time as it adds to a required time that it takes data earlier by: less for setup, more for hold.
fn against(kind: Kind, time: Fs) -> Fs
    requires { unsigned_abs time.0 ≤ 2 * limit }
    ensures { result.0 ≡ against kind time.0 }
{
    match kind {
        Kind::Setup => Fs(negated(time.0)),
        Kind::Hold => time,
    }
}

/// A time as it adds to a required time that it gives room by: more for setup, less for hold.
fn along(kind: Kind, time: Fs) -> Fs
    requires { unsigned_abs time.0 ≤ 2 * limit }
    ensures { result.0 ≡ along kind time.0 }
{
    match kind {
        Kind::Setup => time,
        Kind::Hold => Fs(negated(time.0)),
    }
}

/// What a required time is made of beside its test, in fs: the separation of the edges, the uncertainty and
/// the credit.
#[derive(Clone, Copy, Drop)]
pub(crate) struct Margins {
    pub(crate) apart: Fs,
    pub(crate) uncertainty: Fs,
    pub(crate) credit: Fs,
}

/// The parts of the required time of a path of this length by a test, all in fs, where the slack is what the
/// required time leaves to the length.
pub(crate) fn parts_by(
    store: &Store,
    kind: Kind,
    test: &NodeTest,
    margins: Margins,
    length: Fs,
    slack: Fs,
) -> RequiredParts
    requires test { IsKnownTest store.now test.now }
    requires need { Within test.now.need.0 }
    requires early { Within test.now.early.0 }
    requires late { Within test.now.late.0 }
    requires apart { unsigned_abs margins.apart.0 ≤ 2001 * limit }
    requires uncertainty { Within margins.uncertainty.0 }
    requires credit { unsigned_abs margins.credit.0 ≤ 2 * limit }
    requires slack { slack_left kind
        (required_by kind (test_of store.now test.now) margins.apart.0 margins.uncertainty.0
        margins.credit.0) length.0 ≡ slack.0 }
    ensures { result
        ≡ parts_by kind (test_of store.now test.now) margins.apart.0 margins.uncertainty.0
        margins.credit.0 length.0 }
{
    let Margins {
        apart,
        uncertainty,
        credit,
    } = margins;
    let sort = sort_of(store, kind, test);
    let required = required_by(kind, test, apart, uncertainty, credit);
    let clock = capture_time(kind, test);
    let need = against(kind, test.need);
    let unsure = against(kind, uncertainty);
    let credited = along(kind, credit);
    RequiredParts {
        separation: apart,
        clock,
        sort,
        test: need,
        uncertainty: unsure,
        credit: credited,
        required,
        arrival: length,
        slack,
    }
}
