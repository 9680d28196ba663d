//! The lowest offers of an end node: what no launch on an edge offers less than, with its arrival put back.

ghost use Rattle.std.specs.Prelude.{◌≡◌, ◌<◌, ◌≤◌, ◌*◌, ◌++◌, All, length, unsigned_abs, IfOk, IfSome, OnOk, None, Some};
ghost use Rattle.std.specs.Option.{option_map, option_to_list};
ghost use Rattle.sta_units.specs.Numbers.{limit};
ghost use Rattle.timing_defs.specs.RowTimes.{edge_of};
ghost use Rattle.timing_rules.specs.Rows.{edge_time};
ghost use Rattle.pessimism_credit.specs.Credit.{IsTree};
ghost use Rattle.path_rules.specs.Ranges.{range_of};
ghost use Rattle.path_search.specs.Slacks.{IsReadyTest};
ghost use Rattle.path_search.specs.Lows.{low_setup, low_hold, low_apart, low_credit, capture_on, low_told, low_over, lows_told};
ghost use Rattle.path_search.specs.EndLows.{edge_at, low_on};

use crate::ends::EndTest;
use crate::test_slacks::{clock_at, slack_by, uncertainty_of};
use netlist_store::Store;
use node_rows::outer_some;
use path_rules::{Rule, cycle_range, moved, separation};
use pessimism_credit::ClockTree;
use sta_units::{Fs, Memory};
use std::alloc::Global;
use timing_defs::{EdgeTime, Items, Kind, LaunchEdge, Split, Tran};

/// The rule with the numbers of cycles with which a slack is least, over all launches and captures.
fn low_rule(store: &Store, kind: Kind) -> Rule
    ensures setup { result.setup_cycles ≡ low_setup store.now.design.constraints kind }
    ensures hold { result.hold_cycles ≡ low_hold store.now.design.constraints }
{
    let setup = cycle_range(store.constraints(), Kind::Setup);
    let hold = cycle_range(store.constraints(), Kind::Hold);
    let setup_cycles = match kind {
        Kind::Setup => setup.fewest,
        Kind::Hold => setup.most,
    };
    Rule {
        setup_tested: true,
        hold_tested: true,
        setup_cycles,
        hold_cycles: hold.fewest,
    }
}

/// The time from a launch edge to the capture edge of a test, with these numbers of cycles.
fn low_apart(store: &Store, kind: Kind, rule: Rule, edge: LaunchEdge, test: &EndTest) -> Fs
    requires setup { rule.setup_cycles ≡ low_setup store.now.design.constraints kind }
    requires hold { rule.hold_cycles ≡ low_hold store.now.design.constraints }
    requires edge { edge.clock < length store.now.design.constraints.clocks }
    requires test { IsReadyTest store.now.design test.now }
    ensures value { result.0
        ≡ low_apart store.now.design kind (edge_of edge) (capture_on test.now) }
    ensures bound { unsigned_abs result.0 ≤ 2001 * limit }
{
    store.laws();
    let from = clock_at(store, edge.clock);
    let to = clock_at(store, test.test.capture_clock);
    let apart = separation(from, edge.tran, to, test.test.capture_tran, kind);
    moved(apart, kind, rule, from, to)
}

/// The least credit of a clock pin's place, in fs; 0 where it has none.
fn low_credit(tree: &ClockTree, place: Option<u32>) -> Fs
    requires tree { IsTree tree.now }
    requires place { IfSome place (λ p. p < length tree.now) }
    ensures value { result.0 ≡ low_credit tree.now place }
    ensures bound { unsigned_abs result.0 ≤ 2 * limit }
{
    match place {
        Some(place) => tree.least_credit(place),
        None => Fs(0),
    }
}

/// What no launch on an edge offers less than by a test, in fs, with its arrival put back.
fn low_at(
    store: &Store,
    tree: &ClockTree,
    kind: Kind,
    rule: Rule,
    edge: LaunchEdge,
    test: &EndTest,
) -> Option<i64>
    requires tree { IsTree tree.now }
    requires setup { rule.setup_cycles ≡ low_setup store.now.design.constraints kind }
    requires hold { rule.hold_cycles ≡ low_hold store.now.design.constraints }
    requires edge { edge.clock < length store.now.design.constraints.clocks }
    requires test { IsReadyTest store.now.design test.now }
    requires place { IfSome test.now.place (λ p. p < length tree.now) }
    ensures { result ≡ Some (low_told store.now.design kind tree.now (edge_of edge) test.now) }
{
    let apart = low_apart(store, kind, rule, edge, test);
    let uncertainty = uncertainty_of(store, kind, test.test.capture_clock);
    let credit = low_credit(tree, test.place);
    Some(slack_by(kind, &test.test, apart.0, uncertainty, credit.0, 0))
}

/// The least of these over tests; none where there is no test.
fn low_over(
    store: &Store,
    tree: &ClockTree,
    kind: Kind,
    rule: Rule,
    tests: &[EndTest],
    edge: LaunchEdge,
) -> Option<i64>
    requires tree { IsTree tree.now }
    requires setup { rule.setup_cycles ≡ low_setup store.now.design.constraints kind }
    requires hold { rule.hold_cycles ≡ low_hold store.now.design.constraints }
    requires edge { edge.clock < length store.now.design.constraints.clocks }
    requires tests { All (IsReadyTest store.now.design) tests.now }
    requires places { All (λ t. IfSome t.place (λ p. p < length tree.now)) tests.now }
    ensures { result ≡ low_over store.now.design kind tree.now tests.now (edge_of edge) }
{
    let mut least = None;
    for test in tests {
        let low = low_at(store, tree, kind, rule, edge, test);
        least = outer_some(Split::Early, least, low);
    }
    least
}

/// Adds a lowest offer on a launch edge, where there is one.
fn add_low(lows: &mut Items<EdgeTime>, edge: LaunchEdge, low: Option<i64>) -> Result<(), Memory>
    ensures { OnOk result
        (lows.new ≡ lows.old ++ option_to_list (option_map (edge_time (edge_of edge)) low)) }
{
    match low {
        Some(low) => lows.push(EdgeTime {
            clock: edge.clock,
            tran: edge.tran,
            time: Fs(low),
        }),
        None => Ok(()),
    }
}

/// The number of clocks.
fn clock_count(store: &Store) -> u32
    ensures { result ≡ length store.now.design.constraints.clocks }
{
    store.laws();
    store.constraints().clocks.len() as u32
}

/// A launch edge.
fn edge_on(clock: u32, tran: Tran) -> LaunchEdge
    ensures { edge_of result ≡ (clock, tran) }
{
    LaunchEdge { clock, tran }
}

/// The lowest offers of an end node's tests on each launch edge, in fs, in the order of the clocks and rise
/// before fall; none where it has no test. Takes as many steps as the clocks times the tests.
pub(crate) fn lows_of(
    alloc: Global,
    store: &Store,
    tree: &ClockTree,
    kind: Kind,
    tests: &[EndTest],
) -> Result<Items<EdgeTime>, Memory>
    requires tree { IsTree tree.now }
    requires tests { All (IsReadyTest store.now.design) tests.now }
    requires places { All (λ t. IfSome t.place (λ p. p < length tree.now)) tests.now }
    ensures { IfOk result (λ lows. lows ≡ lows_told store.now.design kind tree.now tests.now) }
{
    store.laws();
    let rule = low_rule(store, kind);
    let count = clock_count(store);
    let mut lows = Items::new(alloc);
    for clock in 0..count {
        let rise = edge_on(clock, Tran::Rise);
        let fall = edge_on(clock, Tran::Fall);
        add_low(
            &mut lows,
            rise,
            low_over(store, tree, kind, rule, tests, rise),
        )?;
        add_low(
            &mut lows,
            fall,
            low_over(store, tree, kind, rule, tests, fall),
        )?;
    }
    Ok(lows)
}

/// The launch edge of a time.
fn edge_at(time: &EdgeTime) -> LaunchEdge
    ensures { edge_of result ≡ edge_at time.now }
{
    LaunchEdge {
        clock: time.clock,
        tran: time.tran,
    }
}

/// The least of the lowest offers of an end node's tests on the launch edges of some times, in fs; none
/// where it has no test or there are no times.
pub(crate) fn low_on(
    store: &Store,
    tree: &ClockTree,
    kind: Kind,
    tests: &[EndTest],
    times: &[EdgeTime],
) -> Option<i64>
    requires tree { IsTree tree.now }
    requires tests { All (IsReadyTest store.now.design) tests.now }
    requires places { All (λ t. IfSome t.place (λ p. p < length tree.now)) tests.now }
    requires clocks { All (λ t. t.clock < length store.now.design.constraints.clocks) times.now }
    ensures { result ≡ low_on store.now.design kind tree.now tests.now times.now }
{
    let rule = low_rule(store, kind);
    let mut least = None;
    for time in times {
        let low = low_over(store, tree, kind, rule, tests, edge_at(time));
        least = outer_some(Split::Early, least, low);
    }
    least
}
