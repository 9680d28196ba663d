//! A path with its stages, those of its capture clock and its parts.

ghost use Rattle.std.specs.Prelude.{◌≡◌, ◌<◌, All, map, IfOk};
ghost use Rattle.timing_rules.specs.Stages.{IsTimed};
ghost use Rattle.pin_graph.specs.Nodes.{node_bound};
ghost use Rattle.node_tests.specs.NodeTests.{tests_numbered};
ghost use Rattle.timed_paths.specs.Choices.{IsCourse, IsCounting};
ghost use Rattle.timed_paths.specs.Found.{IsHeld, IsFound, IsEndNumber, IsEndOf, ArePartsIn};
ghost use Rattle.timed_paths.specs.Numbers.{number_named, IsTimer};
ghost use Rattle.timed_paths.specs.TestNumbers.{test_of, IsKnownTest};

use crate::captures::capture_stages;
use crate::choosing::{Course, choose};
use crate::credits::credit_of;
use crate::delays::number_of;
use crate::launches::{capture_at, launch_of};
use crate::parts::{Margins, parts_by};
use crate::separations::{moved_between, uncertainty_of};
use crate::stages::stages_of;
use arc_delays::Delayed;
use netlist_store::Store;
use node_rows::Wired;
use node_tests::{NodeTest, node_tests};
use path_rules::rule;
use path_search::Sources;
use pin_graph::Graph;
use sta_units::Memory;
use std::alloc::Global;
use timing_defs::{Fault, Items, Path, PathNode, PathStage, RequiredParts, Rows, TimedPath};

/// What is found of a path: its stages, those of its capture clock, and its parts.
#[derive(Drop)]
pub(crate) struct Found {
    pub(crate) stages: Items<PathStage>,
    pub(crate) capture: Items<PathStage>,
    pub(crate) parts: RequiredParts,
}

/// The numbers of the nodes of a path.
fn numbers_of(
    alloc: Global,
    graph: &Graph,
    nodes: &[PathNode],
) -> Result<Items<Option<u32>>, Memory>
    ensures { IfOk result
        (λ numbers. numbers
        ≡ map (λ n. number_named graph.now.stored (n.pin, n.tran)) nodes.now) }
{
    let mut numbers = Items::with_room(alloc, nodes.len())?;
    for node in nodes {
        numbers.push(number_of(graph, node))?;
    }
    Ok(numbers)
}

/// What a path's tests are judged by.
fn course_of<A: Rows + Delayed + Wired>(
    alloc: Global,
    sources: &Sources<'_, A>,
    path: &Path,
) -> Result<Course, Memory>
    requires sources { IsTimer sources.now.store.now sources.now.graph.now
        (A.rows sources.now.arrivals.now) (A.delays sources.now.arrivals.now)
        (A.wires sources.now.arrivals.now) }
    requires path { IsHeld sources.now.store.now sources.now.kind path.now }
    ensures { IfOk result (IsCourse sources.now.store.now sources.now.kind path.now) }
{
    let nodes = path.nodes.as_slice();
    let at = nodes.len() - 1;
    let last = &nodes[at];
    let length = last.time;
    let pin = last.pin.copied(alloc)?;
    let launch = launch_of(alloc, sources.store, sources.graph, path)?;
    let numbers = numbers_of(alloc, sources.graph, nodes)?;
    Ok(Course {
        launch,
        numbers,
        pin,
        length,
    })
}

/// What a fault that is want of memory says.
fn want_of_memory(fault: Fault) -> Memory
    requires { fault ≡ Fault.Memory }
{
    match fault {
        Fault::Memory => Memory,
        _ => unreachable!(),
    }
}

/// The tests of a node.
fn tests_of<A: Rows + Delayed + Wired>(
    alloc: Global,
    sources: &Sources<'_, A>,
    end: u32,
) -> Result<Items<NodeTest>, Memory>
    requires sources { IsTimer sources.now.store.now sources.now.graph.now
        (A.rows sources.now.arrivals.now) (A.delays sources.now.arrivals.now)
        (A.wires sources.now.arrivals.now) }
    requires end { end < node_bound sources.now.store.now }
    ensures tests { IfOk result
        (λ tests. map (test_of sources.now.store.now) tests
        ≡ tests_numbered sources.now.store.now sources.now.kind end) }
    ensures known { IfOk result (All (IsKnownTest sources.now.store.now)) }
{
    let store = sources.store;
    let graph = sources.graph;
    store.laws();
    graph.laws();
    match node_tests(alloc, store, graph, sources.arrivals, end, sources.kind) {
        Ok(tests) => Ok(tests),
        Err(fault) => Err(want_of_memory(fault)),
    }
}

/// The number of the last node of a path.
fn end_of(store: &Store, graph: &Graph, path: &Path) -> u32
    requires graph { graph.now.stored ≡ store.now }
    requires path { IsEndNumber store.now path.now }
    ensures below { result < node_bound store.now }
    ensures end { IsEndOf store.now path.now result }
{
    store.laws();
    let nodes = path.nodes.as_slice();
    let at = nodes.len() - 1;
    match number_of(graph, &nodes[at]) {
        Some(end) => end,
        None => unreachable!(),
    }
}

/// The test by which a path counts.
fn counting_test<A: Rows + Delayed + Wired>(
    alloc: Global,
    sources: &Sources<'_, A>,
    path: &Path,
    course: &Course,
) -> Result<NodeTest, Memory>
    requires sources { IsTimer sources.now.store.now sources.now.graph.now
        (A.rows sources.now.arrivals.now) (A.delays sources.now.arrivals.now)
        (A.wires sources.now.arrivals.now) }
    requires path { IsHeld sources.now.store.now sources.now.kind path.now }
    requires course { IsCourse sources.now.store.now sources.now.kind path.now course.now }
    ensures { IfOk result (IsCounting sources.now.store.now sources.now.kind path.now) }
{
    sources.store.laws();
    let end = end_of(sources.store, sources.graph, path);
    let tests = tests_of(alloc, sources, end)?;
    let found = choose(alloc, sources, path, course, tests.as_slice())?;
    match found {
        Some(test) => Ok(test),
        None => unreachable!(),
    }
}

/// The parts of the required time of a path by a test that counts.
fn parts_of<A: Rows + Delayed + Wired>(
    alloc: Global,
    sources: &Sources<'_, A>,
    path: &Path,
    course: &Course,
    test: &NodeTest,
) -> Result<RequiredParts, Memory>
    requires sources { IsTimer sources.now.store.now sources.now.graph.now
        (A.rows sources.now.arrivals.now) (A.delays sources.now.arrivals.now)
        (A.wires sources.now.arrivals.now) }
    requires course { IsCourse sources.now.store.now sources.now.kind path.now course.now }
    requires test { IsCounting sources.now.store.now sources.now.kind path.now test.now }
    ensures { IfOk result
        (ArePartsIn sources.now.store.now sources.now.kind path.now test.now) }
{
    let Sources { store, kind, .. } = *sources;
    let numbers = course.numbers.as_slice();
    let credit = credit_of(
        alloc,
        sources,
        numbers,
        path.launch_clock,
        path.launch_tran,
        test,
    )?;
    let capture = capture_at(alloc, store, &course.pin, test.capture_clock)?;
    let launch = &course.launch;
    let rule = rule(store.constraints(), launch, &capture);
    let (from, to) = (path.launch_tran, test.capture_tran);
    let apart = moved_between(store, kind, rule, launch, from, &capture, to);
    let uncertainty = uncertainty_of(store, kind, test.capture_clock);
    let margins = Margins {
        apart,
        uncertainty,
        credit,
    };
    Ok(parts_by(store, kind, test, margins, course.length, path.slack))
}

/// What is found of a path.
fn found_of<A: Rows + Delayed + Wired>(
    alloc: Global,
    sources: &Sources<'_, A>,
    path: &Path,
) -> Result<Found, Memory>
    requires sources { IsTimer sources.now.store.now sources.now.graph.now
        (A.rows sources.now.arrivals.now) (A.delays sources.now.arrivals.now)
        (A.wires sources.now.arrivals.now) }
    requires path { IsHeld sources.now.store.now sources.now.kind path.now }
    ensures { IfOk result (IsFound sources.now.store.now sources.now.kind path.now) }
{
    let course = course_of(alloc, sources, path)?;
    let test = counting_test(alloc, sources, path, &course)?;
    let parts = parts_of(alloc, sources, path, &course, &test)?;
    drop(course);
    let capture = capture_stages(alloc, sources, &test)?;
    let split = sources.kind.data_split();
    let stages = stages_of(alloc, sources, split, path.nodes.as_slice())?;
    Ok(Found {
        stages,
        capture,
        parts,
    })
}

/// A path stage by stage, with the path of its capture clock and its required time by parts.
pub(crate) fn timed<A: Rows + Delayed + Wired>(
    alloc: Global,
    sources: &Sources<'_, A>,
    path: Path,
) -> Result<TimedPath, Memory>
    requires sources { IsTimer sources.now.store.now sources.now.graph.now
        (A.rows sources.now.arrivals.now) (A.delays sources.now.arrivals.now)
        (A.wires sources.now.arrivals.now) }
    requires path { IsHeld sources.now.store.now sources.now.kind path }
    ensures path { IfOk result (λ made. made.path ≡ path) }
    ensures timed { IfOk result (IsTimed sources.now.store.now.design sources.now.kind) }
{
    match found_of(alloc, sources, &path) {
        Ok(found) => {
            let Found {
                stages,
                capture,
                parts,
            } = found;
            Ok(TimedPath {
                path,
                stages,
                capture,
                parts,
            })
        }
        Err(wanting) => {
            drop(path);
            Err(wanting)
        }
    }
}
