//! The credit of a path with a test: the pessimism of the part that it shares with the capture path.

ghost use Rattle.std.specs.Prelude.{◌≡◌, ◌<◌, ◌≤◌, ◌*◌, List, None, false, map, nat_eq, unsigned_abs, IfOk, IfSome};
ghost use Rattle.std.specs.Option.{option_map_or};
ghost use Rattle.sta_units.specs.Numbers.{limit};
ghost use Rattle.timing_rules.specs.Paths.{Named, credit};
ghost use Rattle.pin_graph.specs.Nodes.{node_bound};
ghost use Rattle.timed_paths.specs.Numbers.{number_named, IsTimer};
ghost use Rattle.timed_paths.specs.TestNumbers.{last_same, spread_of, spread_numbered, test_of, IsKnownTest};

use crate::captures::{arrival_at, walk_to};
use crate::sums::difference;
use arc_delays::Delayed;
use node_rows::Wired;
use node_tests::NodeTest;
use path_search::Sources;
use sta_units::{Fs, Memory};
use std::alloc::Global;
use timing_defs::{Rows, Split, Tran};

/// Whether a number is that of a node.
fn is_node(number: Option<u32>, node: u32) -> bool
    ensures { result ≡ option_map_or (λ a. nat_eq a node) number false }
{
    match number {
        Some(found) => found == node,
        None => false,
    }
}

/// The last number of the common beginning of the nodes of a path and of a walk; none where they begin
/// otherwise.
fn last_common(path: &[Option<u32>], walk: &[u32]) -> Option<u32>
    ensures { result ≡ last_same None path.now walk.now }
{
    let mut last = None;
    for at in 0..path.len() {
        if at >= walk.len() {
            return last;
        }
        if !is_node(path[at], walk[at]) {
            return last;
        }
        last = Some(walk[at]);
    }
    last
}

/// Late less early arrival; 0 where one is not there.
fn spread_of(late: Option<i64>, early: Option<i64>) -> Fs
    requires late { IfSome late (λ x. unsigned_abs x ≤ limit) }
    requires early { IfSome early (λ x. unsigned_abs x ≤ limit) }
    ensures value { result.0 ≡ spread_of late early }
    ensures bound { unsigned_abs result.0 ≤ 2 * limit }
{
    let Some(late) = late else {
        return Fs(0);
    };
    let Some(early) = early else {
        return Fs(0);
    };
    Fs(difference(late, early))
}

/// Late less early arrival at a node on a launch edge in fs; 0 where one is not there.
fn spread_at<A: Rows + Delayed + Wired>(
    sources: &Sources<'_, A>,
    clock: u32,
    tran: Tran,
    node: u32,
) -> Fs
    requires sources { IsTimer sources.now.store.now sources.now.graph.now
        (A.rows sources.now.arrivals.now) (A.delays sources.now.arrivals.now)
        (A.wires sources.now.arrivals.now) }
    requires node { node < node_bound sources.now.store.now }
    ensures value { result.0 ≡ spread_numbered sources.now.store.now (clock, tran) node }
    ensures bound { unsigned_abs result.0 ≤ 2 * limit }
{
    let late = arrival_at(sources, Split::Late, clock, tran, node);
    let early = arrival_at(sources, Split::Early, clock, tran, node);
    spread_of(late, early)
}

/// The credit in fs of a path on a launch edge with a test, by the numbers of the path's nodes.
pub(crate) fn credit_of<A: Rows + Delayed + Wired>(
    alloc: Global,
    sources: &Sources<'_, A>,
    path: &[Option<u32>],
    clock: u32,
    tran: Tran,
    test: &NodeTest,
) -> Result<Fs, Memory>
    requires sources { IsTimer sources.now.store.now sources.now.graph.now
        (A.rows sources.now.arrivals.now) (A.delays sources.now.arrivals.now)
        (A.wires sources.now.arrivals.now) }
    requires test { IsKnownTest sources.now.store.now test.now }
    ensures value { IfOk result
        (λ found. (names : List Named)
        → path.now ≡ map (number_named sources.now.store.now) names
        → found.0
        ≡ credit sources.now.store.now.design names (clock, tran)
        (test_of sources.now.store.now test.now)) }
    ensures bound { IfOk result (λ found. unsigned_abs found.0 ≤ 2 * limit) }
{
    sources.store.laws();
    let walk = walk_to(alloc, sources.store, sources.graph, test.clock)?;
    match last_common(path, walk.as_slice()) {
        Some(node) => Ok(spread_at(sources, clock, tran, node)),
        None => Ok(Fs(0)),
    }
}
