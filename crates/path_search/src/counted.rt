//! The test by which a path counts.

ghost use Rattle.std.specs.Prelude.{◌≡◌, ◌<◌, true, Some, None, All, length, if◌then◌else◌, IfOk, IfSome};
ghost use Rattle.sta_units.specs.Numbers.{Within};
ghost use Rattle.timing_defs.specs.Netlist.{Node};
ghost use Rattle.timing_defs.specs.Kinds.{data_split};
ghost use Rattle.timing_rules.specs.Paths.{named, tran_cmp, named_cmp};
ghost use Rattle.netlist_store.specs.Numbering.{is_number};
ghost use Rattle.pin_graph.specs.Nodes.{node_at, node_bound, pin_under};
ghost use Rattle.pessimism_credit.specs.Credit.{IsTree};
ghost use Rattle.path_search.specs.Slacks.{IsLaunchNode, IsReadyLaunch, IsReadyTest, AreEndTestsOf, IsOfferOf};
ghost use Rattle.path_search.specs.Counts.{is_not_after, chosen_of, first_chosen, gives, chosen_over, IsKnown, IsCountedAt};
ghost use Rattle.path_search.specs.Sources.{AreSources};

use crate::ends::{EndTest, end_tests};
use crate::launches::{LaunchNode, launch_node};
use crate::sources::Sources;
use crate::test_slacks::{credit_between, slack_at};
use arc_delays::Delayed;
use netlist_store::Store;
use node_tests::NodeTest;
use pessimism_credit::ClockTree;
use pin_graph::Graph;
use sta_units::{Fs, Memory};
use std::alloc::Global;
use std::cmp::Ordering;
use timing_defs::{Kind, Rows, Tran};

/// What a path holds of its launch node and of the test by which it counts: the launch edge, the launch
/// node's arrival there, the capture edge, and the credit.
#[derive(Clone, Copy, Drop)]
pub(crate) struct Counted {
    pub(crate) launch_clock: u32,
    pub(crate) launch_tran: Tran,
    pub(crate) time: Fs,
    pub(crate) capture_clock: u32,
    pub(crate) capture_tran: Tran,
    pub(crate) credit: Fs,
}

/// A test that is chosen, with the place of its clock pin's node in the clock tree.
#[derive(Clone, Copy, Drop)]
pub(crate) struct Chosen {
    pub(crate) test: NodeTest,
    pub(crate) place: Option<u32>,
}

/// The order of transitions: rise before fall.
fn tran_cmp(a: Tran, b: Tran) -> Ordering
    ensures { result ≡ tran_cmp a b }
{
    match (a, b) {
        (Tran::Rise, Tran::Rise) | (Tran::Fall, Tran::Fall) => Ordering::Equal,
        (Tran::Rise, Tran::Fall) => Ordering::Less,
        (Tran::Fall, Tran::Rise) => Ordering::Greater,
    }
}

/// The order of two nodes by the names of their pins, rise before fall.
fn node_cmp(store: &Store, graph: &Graph, a: u32, b: u32) -> Ordering
    requires graph { graph.now.stored ≡ store.now }
    requires a { a < node_bound store.now }
    requires b { b < node_bound store.now }
    requires a_there { is_number store.now.pins (pin_under a) ≡ true }
    requires b_there { is_number store.now.pins (pin_under b) ≡ true }
    ensures { (x y : Node) → node_at store.now a ≡ Some x → node_at store.now b ≡ Some y → result
        ≡ named_cmp (named x) (named y) }
{
    store.laws();
    let names = store.pin_name(a / 2).cmp(store.pin_name(b / 2));
    names.then(tran_cmp(graph.tran_of(a), graph.tran_of(b)))
}

/// Whether the clock pin's node of a test does not come after that of another.
fn is_not_after(store: &Store, graph: &Graph, a: Option<u32>, b: Option<u32>) -> bool
    requires graph { graph.now.stored ≡ store.now }
    requires a { IfSome a (λ n. n < node_bound store.now) }
    requires b { IfSome b (λ n. n < node_bound store.now) }
    requires a_there { IfSome a (λ n. is_number store.now.pins (pin_under n) ≡ true) }
    requires b_there { IfSome b (λ n. is_number store.now.pins (pin_under n) ≡ true) }
    ensures { result ≡ is_not_after store.now a b }
{
    store.laws();
    let Some(a) = a else {
        return true;
    };
    let Some(b) = b else {
        return false;
    };
    !node_cmp(store, graph, a, b).is_gt()
}

/// Of a test that is chosen so far and a further one the first by their clock pins.
fn first_chosen(store: &Store, graph: &Graph, best: Option<Chosen>, next: Chosen) -> Chosen
    requires graph { graph.now.stored ≡ store.now }
    requires best { IfSome best (IsKnown store.now) }
    requires next { IsKnown store.now next }
    ensures { result ≡ first_chosen store.now best next }
{
    match best {
        Some(best) => {
            if is_not_after(store, graph, best.test.clock, next.test.clock) {
                best
            } else {
                next
            }
        }
        None => next,
    }
}

/// Whether a test gives the wanted slack.
fn gives(
    store: &Store,
    tree: &ClockTree,
    kind: Kind,
    launch: &LaunchNode,
    test: &EndTest,
    offer: i64,
) -> bool
    requires tree { IsTree tree.now }
    requires launch { IsReadyLaunch store.now.design launch.now }
    requires test { IsReadyTest store.now.design test.now }
    requires launch_place { IfSome launch.now.place (λ p. p < length tree.now) }
    requires test_place { IfSome test.now.place (λ p. p < length tree.now) }
    ensures { result ≡ gives store.now.design kind tree.now launch.now offer test.now }
{
    match slack_at(store, tree, kind, launch, test) {
        Some(slack) => slack == offer,
        None => false,
    }
}

/// The test that is chosen after a further one, which counts where it gives the wanted slack.
fn with_chosen(
    store: &Store,
    graph: &Graph,
    best: Option<Chosen>,
    test: &EndTest,
    gives: bool,
) -> Option<Chosen>
    requires graph { graph.now.stored ≡ store.now }
    requires best { IfSome best (IsKnown store.now) }
    requires next { IsKnown store.now (chosen_of test.now) }
    ensures value { result
        ≡ (if gives then Some (first_chosen store.now best (chosen_of test.now)) else best) }
    ensures known { IfSome result (IsKnown store.now) }
{
    let next = Chosen {
        test: test.test,
        place: test.place,
    };
    if gives {
        Some(first_chosen(store, graph, best, next))
    } else {
        best
    }
}

/// Of the tests that give the wanted slack the one of the first clock pin, rise before fall.
fn chosen_test(
    store: &Store,
    graph: &Graph,
    tree: &ClockTree,
    kind: Kind,
    launch: &LaunchNode,
    tests: &[EndTest],
    offer: i64,
) -> Option<Chosen>
    requires graph { graph.now.stored ≡ store.now }
    requires tree { IsTree tree.now }
    requires launch { IsReadyLaunch store.now.design launch.now }
    requires launch_place { IfSome launch.now.place (λ p. p < length tree.now) }
    requires tests { All (IsReadyTest store.now.design) tests.now }
    requires places { All (λ t. IfSome t.place (λ p. p < length tree.now)) tests.now }
    requires known { All (λ t. IsKnown store.now (chosen_of t)) tests.now }
    ensures { result
        ≡ chosen_over store.now (gives store.now.design kind tree.now launch.now offer) None
        tests.now }
{
    let mut best = None;
    for test in tests {
        let gives = gives(store, tree, kind, launch, test, offer);
        best = with_chosen(store, graph, best, test, gives);
    }
    best
}

/// What a path of a launch node holds that gives this slack less the delays after it.
fn count_test<A: Rows + Delayed>(
    sources: &Sources<'_, A>,
    launch: &LaunchNode,
    tests: &[EndTest],
    number: u32,
    end: u32,
    offer: i64,
) -> Counted
    requires sources { AreSources sources.now.store.now sources.now.graph.now
        (A.rows sources.now.arrivals.now) (A.delays sources.now.arrivals.now) sources.now.tree.now }
    requires launch { IsLaunchNode sources.now.graph.now (data_split sources.now.kind) number
        launch.now }
    requires tests { AreEndTestsOf sources.now.graph.now sources.now.kind end tests.now }
    requires there { is_number sources.now.store.now.pins (pin_under end) ≡ true }
    requires offer { IsOfferOf sources.now.store.now sources.now.kind number end (Some offer) }
    ensures counted { IsCountedAt sources.now.store.now sources.now.kind number end offer result }
    ensures time { Within result.time.0 }
{
    sources.store.laws();
    sources.graph.laws();
    let found = chosen_test(
        sources.store,
        sources.graph,
        sources.tree,
        sources.kind,
        launch,
        tests,
        offer,
    );
    match found {
        Some(chosen) => Counted {
            launch_clock: launch.launch.clock,
            launch_tran: launch.tran,
            time: launch.time,
            capture_clock: chosen.test.capture_clock,
            capture_tran: chosen.test.capture_tran,
            credit: credit_between(sources.tree, launch.place, chosen.place),
        },
        None => unreachable!(),
    }
}

/// What a path from a launch node to an end node holds, by the tests of the end node.
pub(crate) fn counted_by<A: Rows + Delayed>(
    alloc: Global,
    sources: &Sources<'_, A>,
    tests: &[EndTest],
    launch: u32,
    end: u32,
    offer: i64,
) -> Result<Counted, Memory>
    requires sources { AreSources sources.now.store.now sources.now.graph.now
        (A.rows sources.now.arrivals.now) (A.delays sources.now.arrivals.now) sources.now.tree.now }
    requires tests { AreEndTestsOf sources.now.graph.now sources.now.kind end tests.now }
    requires launch { launch < node_bound sources.now.store.now }
    requires there { is_number sources.now.store.now.pins (pin_under end) ≡ true }
    requires offer { IsOfferOf sources.now.store.now sources.now.kind launch end (Some offer) }
    ensures counted { IfOk result
        (IsCountedAt sources.now.store.now sources.now.kind launch end offer) }
    ensures time { IfOk result (λ c. Within c.time.0) }
{
    sources.store.laws();
    sources.graph.laws();
    let told = launch_node(
        alloc,
        sources.store,
        sources.graph,
        sources.arrivals,
        sources.kind,
        launch,
    )?;
    match told {
        Some(told) => Ok(count_test(sources, &told, tests, launch, end, offer)),
        None => unreachable!(),
    }
}

/// What a path from a launch node to an end node holds, where `offer` is what the launch node offers for
/// the end node: the launch edge and the launch node's arrival, and of the tests that give the least slack
/// the capture edge and the credit of the one of the lesser clock pin's name, rise before fall. Takes as
/// many steps as the end node has tests, and the exceptions that are tried for each.
pub(crate) fn test_that_counts<A: Rows + Delayed>(
    alloc: Global,
    sources: &Sources<'_, A>,
    launch: u32,
    end: u32,
    offer: i64,
) -> Result<Counted, Memory>
    requires sources { AreSources sources.now.store.now sources.now.graph.now
        (A.rows sources.now.arrivals.now) (A.delays sources.now.arrivals.now) sources.now.tree.now }
    requires launch { launch < node_bound sources.now.store.now }
    requires end { end < node_bound sources.now.store.now }
    requires there { is_number sources.now.store.now.pins (pin_under end) ≡ true }
    requires offer { IsOfferOf sources.now.store.now sources.now.kind launch end (Some offer) }
    ensures counted { IfOk result
        (IsCountedAt sources.now.store.now sources.now.kind launch end offer) }
    ensures time { IfOk result (λ c. Within c.time.0) }
{
    let tests = end_tests(
        alloc,
        sources.store,
        sources.graph,
        sources.arrivals,
        sources.kind,
        end,
    )?;
    counted_by(alloc, sources, tests.as_slice(), launch, end, offer)
}
