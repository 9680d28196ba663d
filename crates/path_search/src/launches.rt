//! The launch nodes of paths: nodes of the clock network, and nodes at which paths start.

ghost use Rattle.std.specs.Prelude.{◌≡◌, ◌<◌, None, Some, option_map, IfOk, IsTrue};
ghost use Rattle.timing_defs.specs.Netlist.{Node};
ghost use Rattle.timing_defs.specs.Kinds.{data_split};
ghost use Rattle.timing_rules.specs.Paths.{named};
ghost use Rattle.pin_graph.specs.Nodes.{node_at, node_bound};
ghost use Rattle.pin_graph.specs.Graphs.{fan_at};
ghost use Rattle.pin_graph.specs.RowTables.{AreRows, AreRowsFine, row_numbered};
ghost use Rattle.path_search.specs.Launches.{edge_of_launch};
ghost use Rattle.timing_defs.specs.RowTimes.{edge_of};
ghost use Rattle.path_search.specs.Slacks.{first_time, start_told, IsLaunchTime, MayLaunch};

use crate::edges::{arrival_on, walk_edge};
use crate::names::pin_names;
use netlist_store::Store;
use node_rows::times_in;
use pin_graph::Graph;
use sta_units::{Fs, Memory};
use std::alloc::Global;
use timing_defs::{EdgeTime, Kind, Launch, LaunchEdge, NodeRow, Rows, Split, Tran};

/// A launch node: what it launches, the transition of its launch edge, its arrival there in fs, and its
/// place in the clock tree (none outside the clock network).
#[derive(Drop)]
pub(crate) struct LaunchNode {
    pub(crate) launch: Launch,
    pub(crate) tran: Tran,
    pub(crate) time: Fs,
    pub(crate) place: Option<u32>,
}

/// The launch edge of a node, and its arrival there in fs.
#[derive(Clone, Copy, Drop)]
pub(crate) struct LaunchTime {
    pub(crate) edge: LaunchEdge,
    pub(crate) time: Fs,
}

/// The launch edge of the first of some times.
fn first_edge(times: &[EdgeTime]) -> Option<LaunchEdge>
    ensures { option_map edge_of result ≡ first_time times.now }
{
    match times {
        [time, ..] => Some(LaunchEdge {
            clock: time.clock,
            tran: time.tran,
        }),
        [] => None,
    }
}

/// The launch edge on which a node starts to which no arc leads, by its arrivals.
fn start_edge(graph: &Graph, times: &[EdgeTime], node: u32) -> Option<LaunchEdge>
    requires { node < node_bound graph.now.stored }
    ensures { option_map edge_of result ≡ start_told (fan_at graph.now.ins node) times.now }
{
    match graph.arcs_in(node) {
        [] => first_edge(times),
        [_, ..] => None,
    }
}

/// The launch edge of a node: that of its walk over the clock network, or that on which it starts.
fn launch_edge(
    store: &Store,
    graph: &Graph,
    row: &NodeRow,
    split: Split,
    node: u32,
) -> Option<LaunchEdge>
    requires graph { graph.now.stored ≡ store.now }
    requires node { node < node_bound store.now }
    requires row { row.now ≡ row_numbered store.now node }
    ensures { (n : Node) → node_at store.now node ≡ Some n → option_map edge_of result
        ≡ edge_of_launch store.now.design split (named n) n }
{
    store.laws();
    graph.laws();
    if graph.is_network(node) {
        walk_edge(store, graph, node)
    } else {
        start_edge(graph, times_in(row, split), node)
    }
}

/// The launch edge of a node with its arrival there; none where the node launches no path.
fn launch_time(
    store: &Store,
    graph: &Graph,
    row: &NodeRow,
    split: Split,
    node: u32,
) -> Option<LaunchTime>
    requires graph { graph.now.stored ≡ store.now }
    requires node { node < node_bound store.now }
    requires row { row.now ≡ row_numbered store.now node }
    ensures { (n : Node) → node_at store.now node ≡ Some n
        → IsLaunchTime store.now.design split n result }
{
    store.laws();
    graph.laws();
    let Some(edge) = launch_edge(store, graph, row, split, node) else {
        return None;
    };
    let Some(time) = arrival_on(row, split, edge) else {
        return None;
    };
    Some(LaunchTime { edge, time })
}

/// Whether a node is seen to launch no path by the graph alone: outside the clock network, with arcs that
/// lead to it.
fn is_passed(store: &Store, graph: &Graph, node: u32) -> bool
    requires graph { graph.now.stored ≡ store.now }
    requires node { node < node_bound store.now }
    ensures { IsTrue result → (split : Split) → MayLaunch graph.now split node None }
{
    store.laws();
    graph.laws();
    if graph.is_network(node) {
        return false;
    }
    match graph.arcs_in(node) {
        [] => false,
        [_, ..] => true,
    }
}

/// The launch node of a number; none where the node launches no path of the kind.
pub(crate) fn launch_node<A: Rows>(
    alloc: Global,
    store: &Store,
    graph: &Graph,
    arrivals: &A,
    kind: Kind,
    node: u32,
) -> Result<Option<LaunchNode>, Memory>
    requires graph { graph.now.stored ≡ store.now }
    requires rows { AreRows store.now (A.rows arrivals.now) }
    requires range { AreRowsFine store.now.design }
    requires node { node < node_bound store.now }
    ensures { IfOk result (MayLaunch graph.now (data_split kind) node) }
{
    store.laws();
    graph.laws();
    if is_passed(store, graph, node) {
        return Ok(None);
    }
    let Some(pin) = graph.pin_of(node) else {
        return Ok(None);
    };
    let row = arrivals.row(node);
    let Some(start) = launch_time(store, graph, row, kind.data_split(), node) else {
        return Ok(None);
    };
    let names = pin_names(alloc, store, pin)?;
    let launch = Launch {
        pin: names.pin,
        cell: names.cell,
        clock: start.edge.clock,
    };
    Ok(Some(LaunchNode {
        launch,
        tran: start.edge.tran,
        time: start.time,
        place: graph.place(node),
    }))
}
