//! The walk over the clock network to the clock pin of a test.

ghost use Rattle.std.specs.Prelude.{◌≡◌, ◌<◌, pos, true, Some, All, map, IfOk, IfSome};
ghost use Rattle.std.specs.Option.{unwrap_or};
ghost use Rattle.sta_units.specs.Numbers.{Within};
ghost use Rattle.timing_defs.specs.Kinds.{clock_split};
ghost use Rattle.timing_rules.specs.Stages.{capture_stages};
ghost use Rattle.netlist_store.specs.Numbering.{is_number};
ghost use Rattle.pin_graph.specs.Nodes.{node_at, node_bound, pin_under};
ghost use Rattle.timed_paths.specs.Numbers.{IsTimer};
ghost use Rattle.timed_paths.specs.TestNumbers.{walk_of, test_of, time_numbered, node_numbered, IsKnownTest, MayBeWalked};

use crate::stages::stages_of;
use arc_delays::Delayed;
use netlist_store::Store;
use node_rows::{Wired, time_on, times_in};
use node_tests::NodeTest;
use path_search::{ByName, Sources};
use pin_graph::Graph;
use sta_units::{Fs, Memory};
use std::alloc::Global;
use timing_defs::{Items, PathNode, PathStage, Rows, Split, Tran};
use worst_walks::WalkOrder;

/// The numbers of the nodes of the walk to a clock pin's node, that of the clock's port first; none at an
/// output port. Takes a step for each.
pub(crate) fn walk_to(
    alloc: Global,
    store: &Store,
    graph: &Graph,
    clock: Option<u32>,
) -> Result<Items<u32>, Memory>
    requires graph { graph.now.stored ≡ store.now }
    requires clock { MayBeWalked store.now clock }
    ensures walk { IfOk result
        (λ numbers. map (node_at store.now) numbers ≡ map Some (walk_of store.now clock)) }
    ensures below { IfOk result (λ numbers. All (λ n. n < node_bound store.now) numbers) }
    ensures there { IfOk result
        (λ numbers. All (λ n. is_number store.now.pins (pin_under n) ≡ true) numbers) }
{
    store.laws();
    graph.laws();
    let Some(clock) = clock else {
        return Ok(Items::new(alloc));
    };
    let order = ByName {
        store,
        graph,
        nodes: &[],
    };
    let mut numbers = order.nodes_before(alloc, clock)?;
    numbers.push(clock)?;
    Ok(numbers)
}

/// The arrival of a node on a launch edge in fs; none where it has none.
pub(crate) fn arrival_at<A: Rows + Delayed + Wired>(
    sources: &Sources<'_, A>,
    split: Split,
    clock: u32,
    tran: Tran,
    node: u32,
) -> Option<i64>
    requires sources { IsTimer sources.now.store.now sources.now.graph.now
        (A.rows sources.now.arrivals.now) (A.delays sources.now.arrivals.now)
        (A.wires sources.now.arrivals.now) }
    requires node { node < node_bound sources.now.store.now }
    ensures value { result ≡ time_numbered sources.now.store.now split (clock, tran) node }
    ensures within { IfSome result Within }
{
    sources.store.laws();
    sources.graph.laws();
    time_on(times_in(sources.arrivals.row(node), split), clock, tran)
}

/// A time in fs, or 0 where it is not there.
fn time_or_zero(time: Option<i64>) -> Fs
    ensures { result.0 ≡ unwrap_or time (pos 0) }
{
    match time {
        Some(value) => Fs(value),
        None => Fs(0),
    }
}

/// A node of a walk, with its arrival on a launch edge.
fn walk_node<A: Rows + Delayed + Wired>(
    alloc: Global,
    sources: &Sources<'_, A>,
    split: Split,
    clock: u32,
    tran: Tran,
    node: u32,
) -> Result<PathNode, Memory>
    requires sources { IsTimer sources.now.store.now sources.now.graph.now
        (A.rows sources.now.arrivals.now) (A.delays sources.now.arrivals.now)
        (A.wires sources.now.arrivals.now) }
    requires node { node < node_bound sources.now.store.now }
    requires there { is_number sources.now.store.now.pins (pin_under node) ≡ true }
    ensures { IfOk result
        (λ made. made ≡ node_numbered sources.now.store.now split (clock, tran) node) }
{
    sources.store.laws();
    let time = time_or_zero(arrival_at(sources, split, clock, tran, node));
    let pin = sources.store.pin_name(node / 2).copied(alloc)?;
    Ok(PathNode {
        pin,
        tran: sources.graph.tran_of(node),
        time,
    })
}

/// The nodes of a walk, with their arrivals on a launch edge.
fn walk_nodes<A: Rows + Delayed + Wired>(
    alloc: Global,
    sources: &Sources<'_, A>,
    split: Split,
    clock: u32,
    tran: Tran,
    numbers: &[u32],
) -> Result<Items<PathNode>, Memory>
    requires sources { IsTimer sources.now.store.now sources.now.graph.now
        (A.rows sources.now.arrivals.now) (A.delays sources.now.arrivals.now)
        (A.wires sources.now.arrivals.now) }
    requires below { All (λ n. n < node_bound sources.now.store.now) numbers.now }
    requires there { All (λ n. is_number sources.now.store.now.pins (pin_under n) ≡ true)
        numbers.now }
    ensures { IfOk result
        (λ made. made
        ≡ map (node_numbered sources.now.store.now split (clock, tran)) numbers.now) }
{
    let mut nodes = Items::with_room(alloc, numbers.len())?;
    for number in numbers {
        let node = walk_node(alloc, sources, split, clock, tran, *number)?;
        nodes.push(node)?;
    }
    Ok(nodes)
}

/// The stages of the capture clock of a test, from the clock's port to the clock pin, with the arrivals on
/// the capture edge; none at an output port.
pub(crate) fn capture_stages<A: Rows + Delayed + Wired>(
    alloc: Global,
    sources: &Sources<'_, A>,
    test: &NodeTest,
) -> Result<Items<PathStage>, Memory>
    requires sources { IsTimer sources.now.store.now sources.now.graph.now
        (A.rows sources.now.arrivals.now) (A.delays sources.now.arrivals.now)
        (A.wires sources.now.arrivals.now) }
    requires test { IsKnownTest sources.now.store.now test.now }
    ensures { IfOk result
        (λ made. made
        ≡ capture_stages sources.now.store.now.design sources.now.kind
        (test_of sources.now.store.now test.now)) }
{
    let split = sources.kind.clock_split();
    let numbers = walk_to(alloc, sources.store, sources.graph, test.clock)?;
    let nodes = walk_nodes(
        alloc,
        sources,
        split,
        test.capture_clock,
        test.capture_tran,
        numbers.as_slice(),
    )?;
    stages_of(alloc, sources, split, nodes.as_slice())
}
