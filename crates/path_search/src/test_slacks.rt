//! The slacks of a launch node by the tests of an end node, without the delays after the launch node.

ghost use Rattle.std.specs.Prelude.{◌≡◌, ◌<◌, ◌≤◌, ◌*◌, ◌^◌, true, None, All, length, slice_get, unsigned_abs, IfSome};
ghost use Rattle.sta_units.specs.Numbers.{limit, Within};
ghost use Rattle.timing_rules.specs.Tests.{uncertainty_on};
ghost use Rattle.timing_rules.specs.Paths.{moved, slack_by};
ghost use Rattle.path_rules.specs.Clocks.{IsClock};
ghost use Rattle.path_rules.specs.Exceptions.{rule_of};
ghost use Rattle.pessimism_credit.specs.Credit.{IsTree};
ghost use Rattle.path_search.specs.Slacks.{IsReadyLaunch, IsReadyTest, edge_of_node, tested_by_rule, test_told, credit_told, slack_where, least_slack, is_low};

use crate::ends::EndTest;
use crate::launches::LaunchNode;
use crate::sums::{difference, sum};
use netlist_store::Store;
use node_rows::outer_some;
use node_tests::NodeTest;
use path_rules::{Rule, moved, rule, separation};
use pessimism_credit::ClockTree;
use sta_units::Fs;
use timing_defs::{Clock, Kind, Split};

/// A clock by its place in the list of clocks.
pub(crate) fn clock_at(store: &Store, clock: u32) -> &Clock
    requires { clock < length store.now.design.constraints.clocks }
    ensures there { slice_get store.now.design.constraints.clocks clock ≡ Some result.now }
    ensures clock { IsClock result.now }
    ensures setup { Within result.now.unc_setup.0 }
    ensures hold { Within result.now.unc_hold.0 }
{
    store.laws();
    &store.constraints().clocks.as_slice()[clock as usize]
}

/// Whether a rule tests paths of a kind.
fn is_tested(rule: Rule, kind: Kind) -> bool
    ensures { result ≡ tested_by_rule rule kind }
{
    match kind {
        Kind::Setup => rule.setup_tested,
        Kind::Hold => rule.hold_tested,
    }
}

/// The time from the launch edge to the capture edge of a test, as multicycles move it.
fn moved_between(store: &Store, kind: Kind, rule: Rule, launch: &LaunchNode, test: &EndTest) -> Fs
    requires rule { rule ≡ rule_of store.now.design.constraints launch.now.launch test.now.capture }
    requires launch { IsReadyLaunch store.now.design launch.now }
    requires test { IsReadyTest store.now.design test.now }
    ensures value { result.0
        ≡ moved store.now.design kind launch.now.launch test.now.capture (edge_of_node launch.now)
        (test.now.test.capture_clock, test.now.test.capture_tran) }
    ensures bound { unsigned_abs result.0 ≤ 2001 * limit }
{
    store.laws();
    let from = clock_at(store, launch.launch.clock);
    let to = clock_at(store, test.test.capture_clock);
    let apart = separation(from, launch.tran, to, test.test.capture_tran, kind);
    moved(apart, kind, rule, from, to)
}

/// The uncertainty of a clock for tests of a kind, in fs.
pub(crate) fn uncertainty_of(store: &Store, kind: Kind, clock: u32) -> i64
    requires { clock < length store.now.design.constraints.clocks }
    ensures value { result ≡ uncertainty_on store.now.design kind clock }
    ensures bound { Within result }
{
    let clock = clock_at(store, clock);
    match kind {
        Kind::Setup => clock.unc_setup.0,
        Kind::Hold => clock.unc_hold.0,
    }
}

/// The credit of the places of a launch node and of a test's clock pin; 0 where one has none.
pub(crate) fn credit_between(tree: &ClockTree, launch: Option<u32>, capture: Option<u32>) -> Fs
    requires tree { IsTree tree.now }
    requires launch { IfSome launch (λ p. p < length tree.now) }
    requires capture { IfSome capture (λ p. p < length tree.now) }
    ensures value { result.0 ≡ credit_told tree.now launch capture }
    ensures bound { unsigned_abs result.0 ≤ 2 * limit }
{
    let Some(launch) = launch else {
        return Fs(0);
    };
    let Some(capture) = capture else {
        return Fs(0);
    };
    tree.credit(launch, capture)
}

/// The slack in fs of a path of this length by a test, its moved separation, uncertainty and credit.
pub(crate) fn slack_by(
    kind: Kind,
    test: &NodeTest,
    apart: i64,
    uncertainty: i64,
    credit: i64,
    length: i64,
) -> i64
    requires need { Within test.now.need.0 }
    requires early { Within test.now.early.0 }
    requires late { Within test.now.late.0 }
    requires apart { unsigned_abs apart ≤ 2001 * limit }
    requires uncertainty { Within uncertainty }
    requires credit { unsigned_abs credit ≤ 2 * limit }
    requires length { Within length }
    ensures value { result ≡ slack_by kind (test_told test.now) apart uncertainty credit length }
    ensures bound { unsigned_abs result ≤ 10 ^ 18 }
{
    match kind {
        Kind::Setup => {
            let wanted = difference(sum(test.early.0, apart), test.need.0);
            difference(sum(difference(wanted, uncertainty), credit), length)
        }
        Kind::Hold => {
            let held = difference(difference(length, test.late.0), apart);
            sum(
                difference(difference(held, test.need.0), uncertainty),
                credit,
            )
        }
    }
}

/// The slack by a test in fs, without the delays after the launch node; none where a false path removes
/// the test.
pub(crate) fn slack_at(
    store: &Store,
    tree: &ClockTree,
    kind: Kind,
    launch: &LaunchNode,
    test: &EndTest,
) -> Option<i64>
    requires tree { IsTree tree.now }
    requires launch { IsReadyLaunch store.now.design launch.now }
    requires test { IsReadyTest store.now.design test.now }
    requires launch_place { IfSome launch.now.place (λ p. p < length tree.now) }
    requires test_place { IfSome test.now.place (λ p. p < length tree.now) }
    ensures value { result ≡ slack_where store.now.design kind tree.now launch.now test.now }
    ensures bound { is_low result ≡ true }
{
    let rule = rule(store.constraints(), &launch.launch, &test.capture);
    if !is_tested(rule, kind) {
        return None;
    }
    let apart = moved_between(store, kind, rule, launch, test);
    let uncertainty = uncertainty_of(store, kind, test.test.capture_clock);
    let credit = credit_between(tree, launch.place, test.place);
    Some(slack_by(
        kind,
        &test.test,
        apart.0,
        uncertainty,
        credit.0,
        launch.time.0,
    ))
}

/// The least slack by a test in fs, without the delays after the launch node; none where no test is left.
pub(crate) fn least_slack(
    store: &Store,
    tree: &ClockTree,
    kind: Kind,
    launch: &LaunchNode,
    tests: &[EndTest],
) -> Option<i64>
    requires tree { IsTree tree.now }
    requires launch { IsReadyLaunch store.now.design launch.now }
    requires launch_place { IfSome launch.now.place (λ p. p < length tree.now) }
    requires tests { All (IsReadyTest store.now.design) tests.now }
    requires places { All (λ t. IfSome t.place (λ p. p < length tree.now)) tests.now }
    ensures value { result ≡ least_slack store.now.design kind tree.now launch.now tests.now }
    ensures bound { is_low result ≡ true }
{
    let mut least = None;
    for test in tests {
        let slack = slack_at(store, tree, kind, launch, test);
        least = outer_some(Split::Early, least, slack);
    }
    least
}
