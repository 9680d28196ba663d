//! The test of a path's last node by which the path counts.

ghost use Rattle.std.specs.Prelude.{◌≡◌, ◌<◌, ◌≤◌, ◌*◌, true, All, Some, length, option_map, unsigned_abs, if◌then◌else◌, IfOk, IfSome};
ghost use Rattle.std.specs.Ordering.{int_eq};
ghost use Rattle.sta_units.specs.Numbers.{limit, Within};
ghost use Rattle.timing_rules.specs.Paths.{tran_cmp, named, named_cmp};
ghost use Rattle.timing_defs.specs.Netlist.{Node};
ghost use Rattle.netlist_store.specs.Numbering.{is_number};
ghost use Rattle.pin_graph.specs.Nodes.{node_at, node_bound, pin_under};
ghost use Rattle.path_search.specs.Counts.{is_not_after};
ghost use Rattle.path_search.specs.Slacks.{test_told};
ghost use Rattle.timed_paths.specs.Choices.{leaves, required_by, required_where, same_edge, first_of, is_wanted, IsCourse, IsFirst};
ghost use Rattle.timed_paths.specs.Ends.{capture_of_path};
ghost use Rattle.timed_paths.specs.Numbers.{IsTimer};
ghost use Rattle.timed_paths.specs.TestNumbers.{IsKnownTest};

use crate::credits::credit_of;
use crate::launches::capture_at;
use crate::separations::{is_tested, moved_between, uncertainty_of};
use crate::sums::{difference, is_same, sum, wide_difference};
use arc_delays::Delayed;
use netlist_store::Store;
use node_rows::Wired;
use node_tests::NodeTest;
use path_rules::rule;
use path_search::Sources;
use pin_graph::Graph;
use sta_units::{Fs, Memory};
use std::alloc::Global;
use std::cmp::Ordering;
use timing_defs::{Capture, Items, Kind, Launch, Name, Path, Rows, Tran};

/// What a path's tests are judged by: its launch, the numbers of its nodes, the pin at which it ends, and
/// its length in fs, which is the arrival of its last node.
#[derive(Drop)]
pub(crate) struct Course {
    pub(crate) launch: Launch,
    pub(crate) numbers: Items<Option<u32>>,
    pub(crate) pin: Name,
    pub(crate) length: Fs,
}

/// Whether a test has the capture edge of a path.
fn captures(path: &Path, test: &NodeTest) -> bool
    ensures { result
        ≡ same_edge (test.now.capture_clock, test.now.capture_tran) (capture_of_path path.now) }
{
    test.capture_clock == path.capture_clock && test.capture_tran.is(path.capture_tran)
}

/// Whether a path has this credit.
#[tactic(auto, using(sta_units::proofs::Rounding::signed_steps))]
fn has_credit(path: &Path, credit: Fs) -> bool
    ensures { result ≡ int_eq credit.0 path.now.credit.0 }
{
    credit.0 == path.credit.0
}

/// The required time in fs by a test: the separation of the edges, the arrival of the capture clock, the
/// time of the test, the uncertainty and the credit.
pub(crate) fn required_by(kind: Kind, test: &NodeTest, apart: Fs, uncertainty: Fs, credit: Fs) -> Fs
    requires need { Within test.now.need.0 }
    requires early { Within test.now.early.0 }
    requires late { Within test.now.late.0 }
    requires apart { unsigned_abs apart.0 ≤ 2001 * limit }
    requires uncertainty { Within uncertainty.0 }
    requires credit { unsigned_abs credit.0 ≤ 2 * limit }
    ensures { result.0 ≡ required_by kind (test_told test.now) apart.0 uncertainty.0 credit.0 }
{
    match kind {
        Kind::Setup => {
            let wanted = difference(sum(apart.0, test.early.0), test.need.0);
            Fs(sum(difference(wanted, uncertainty.0), credit.0))
        }
        Kind::Hold => {
            let held = sum(sum(apart.0, test.late.0), test.need.0);
            Fs(difference(sum(held, uncertainty.0), credit.0))
        }
    }
}

/// The required time of a launch by a test in fs; none where a false path removes the test.
pub(crate) fn required_where(
    store: &Store,
    kind: Kind,
    launch: &Launch,
    from: Tran,
    capture: &Capture,
    test: &NodeTest,
    credit: Fs,
) -> Option<Fs>
    requires launch { launch.now.clock < length store.now.design.constraints.clocks }
    requires capture { capture.now.clock < length store.now.design.constraints.clocks }
    requires need { Within test.now.need.0 }
    requires early { Within test.now.early.0 }
    requires late { Within test.now.late.0 }
    requires credit { unsigned_abs credit.0 ≤ 2 * limit }
    ensures { option_map (λ r. r.0) result
        ≡ required_where store.now.design kind launch.now from capture.now test.now credit.0 }
{
    let rule = rule(store.constraints(), launch, capture);
    if !is_tested(rule, kind) {
        return None;
    }
    let apart = moved_between(store, kind, rule, launch, from, capture, test.capture_tran);
    let uncertainty = uncertainty_of(store, kind, capture.clock);
    Some(required_by(kind, test, apart, uncertainty, credit))
}

/// Whether a required time leaves this slack to a path of this length.
fn leaves(kind: Kind, required: Option<Fs>, length: Fs, slack: Fs) -> bool
    ensures { result ≡ leaves kind (option_map (λ r. r.0) required) length.0 slack.0 }
{
    let Some(required) = required else {
        return false;
    };
    match kind {
        Kind::Setup => is_same(wide_difference(required.0, length.0), slack.0),
        Kind::Hold => is_same(wide_difference(length.0, required.0), slack.0),
    }
}

/// Whether a test leaves a path its slack, with the path's capture edge and credit.
fn is_wanted<A: Rows + Delayed + Wired>(
    alloc: Global,
    sources: &Sources<'_, A>,
    path: &Path,
    course: &Course,
    test: &NodeTest,
) -> Result<bool, Memory>
    requires sources { IsTimer sources.now.store.now sources.now.graph.now
        (A.rows sources.now.arrivals.now) (A.delays sources.now.arrivals.now)
        (A.wires sources.now.arrivals.now) }
    requires course { IsCourse sources.now.store.now sources.now.kind path.now course.now }
    requires test { IsKnownTest sources.now.store.now test.now }
    ensures { IfOk result
        (λ wanted. wanted
        ≡ is_wanted sources.now.store.now sources.now.kind path.now course.now test.now) }
{
    if !captures(path, test) {
        return Ok(false);
    }
    let numbers = course.numbers.as_slice();
    let credit = credit_of(
        alloc,
        sources,
        numbers,
        path.launch_clock,
        path.launch_tran,
        test,
    )?;
    if !has_credit(path, credit) {
        return Ok(false);
    }
    let store = sources.store;
    let kind = sources.kind;
    let capture = capture_at(alloc, store, &course.pin, test.capture_clock)?;
    let required = required_where(
        store,
        kind,
        &course.launch,
        path.launch_tran,
        &capture,
        test,
        credit,
    );
    Ok(leaves(kind, required, course.length, path.slack))
}

/// The order of transitions: rise before fall.
fn tran_cmp(a: Tran, b: Tran) -> Ordering
    ensures { result ≡ tran_cmp a b }
{
    match (a, b) {
        (Tran::Rise, Tran::Rise) | (Tran::Fall, Tran::Fall) => Ordering::Equal,
        (Tran::Rise, Tran::Fall) => Ordering::Less,
        (Tran::Fall, Tran::Rise) => Ordering::Greater,
    }
}

/// The order of two nodes by the names of their pins, rise before fall.
fn node_cmp(store: &Store, graph: &Graph, a: u32, b: u32) -> Ordering
    requires graph { graph.now.stored ≡ store.now }
    requires a { a < node_bound store.now }
    requires b { b < node_bound store.now }
    requires a_there { is_number store.now.pins (pin_under a) ≡ true }
    requires b_there { is_number store.now.pins (pin_under b) ≡ true }
    ensures { (x y : Node) → node_at store.now a ≡ Some x → node_at store.now b ≡ Some y → result
        ≡ named_cmp (named x) (named y) }
{
    store.laws();
    let names = store.pin_name(a / 2).cmp(store.pin_name(b / 2));
    names.then(tran_cmp(graph.tran_of(a), graph.tran_of(b)))
}

/// Whether the clock pin's node of a test does not come after that of another.
fn is_not_after(store: &Store, graph: &Graph, a: Option<u32>, b: Option<u32>) -> bool
    requires graph { graph.now.stored ≡ store.now }
    requires a { IfSome a (λ n. n < node_bound store.now) }
    requires b { IfSome b (λ n. n < node_bound store.now) }
    requires a_there { IfSome a (λ n. is_number store.now.pins (pin_under n) ≡ true) }
    requires b_there { IfSome b (λ n. is_number store.now.pins (pin_under n) ≡ true) }
    ensures { result ≡ is_not_after store.now a b }
{
    store.laws();
    let Some(a) = a else {
        return true;
    };
    let Some(b) = b else {
        return false;
    };
    !node_cmp(store, graph, a, b).is_gt()
}

/// Of a test that is chosen so far and a further one the first by their clock pins.
fn first_of(store: &Store, graph: &Graph, best: Option<NodeTest>, next: NodeTest) -> NodeTest
    requires graph { graph.now.stored ≡ store.now }
    requires best { IfSome best (IsKnownTest store.now) }
    requires next { IsKnownTest store.now next }
    ensures { result ≡ first_of store.now best next }
{
    store.laws();
    match best {
        Some(best) => {
            if is_not_after(store, graph, best.clock, next.clock) {
                best
            } else {
                next
            }
        }
        None => next,
    }
}

/// Of the tests that leave a path its slack the one of the first clock pin, rise before fall.
pub(crate) fn choose<A: Rows + Delayed + Wired>(
    alloc: Global,
    sources: &Sources<'_, A>,
    path: &Path,
    course: &Course,
    tests: &[NodeTest],
) -> Result<Option<NodeTest>, Memory>
    requires sources { IsTimer sources.now.store.now sources.now.graph.now
        (A.rows sources.now.arrivals.now) (A.delays sources.now.arrivals.now)
        (A.wires sources.now.arrivals.now) }
    requires course { IsCourse sources.now.store.now sources.now.kind path.now course.now }
    requires tests { All (IsKnownTest sources.now.store.now) tests.now }
    ensures { IfOk result
        (IsFirst sources.now.store.now
        (is_wanted sources.now.store.now sources.now.kind path.now course.now) tests.now) }
{
    let mut best = None;
    for test in tests {
        let wanted = is_wanted(alloc, sources, path, course, test)?;
        best = with_wanted(sources.store, sources.graph, best, *test, wanted);
    }
    Ok(best)
}

/// The test that is chosen after a further one.
fn with_wanted(
    store: &Store,
    graph: &Graph,
    best: Option<NodeTest>,
    next: NodeTest,
    wanted: bool,
) -> Option<NodeTest>
    requires graph { graph.now.stored ≡ store.now }
    requires best { IfSome best (IsKnownTest store.now) }
    requires next { IsKnownTest store.now next }
    ensures value { result ≡ (if wanted then Some (first_of store.now best next) else best) }
    ensures known { IfSome result (IsKnownTest store.now) }
{
    if wanted {
        Some(first_of(store, graph, best, next))
    } else {
        best
    }
}
