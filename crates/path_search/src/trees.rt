//! The clock tree of a design, in which credits are found.

ghost use Rattle.std.specs.Prelude.{◌≡◌, ◌<◌, Some, length, IfOk, IfSome};
ghost use Rattle.timing_defs.specs.RowTimes.{time_on, edge_of};
ghost use Rattle.pin_graph.specs.Nodes.{node_bound};
ghost use Rattle.pin_graph.specs.Graphs.{place_at};
ghost use Rattle.pin_graph.specs.RowTables.{AreRows, AreRowsFine};
ghost use Rattle.path_search.specs.Trees.{both_times, times_told, parent_place, empty_tree_row, ArePlaceNodes, AreEdges, IsEdgeAt, IsRowAt, IsClockTree};

use crate::edges::{arrival_on, walk_edge};
use netlist_store::Store;
use pessimism_credit::{ClockTree, TreeRow};
use pin_graph::Graph;
use sta_units::{Fs, Memory};
use std::alloc::Global;
use timing_defs::{Items, LaunchEdge, NodeRow, Rows, Split};

/// The node of each place.
fn place_nodes(alloc: Global, graph: &Graph) -> Result<Items<Option<u32>>, Memory>
    ensures { IfOk result (ArePlaceNodes graph.now) }
{
    let placed = graph.clock_nodes();
    let mut nodes = Items::with_room(alloc, placed.len())?;
    for node in placed {
        nodes.push(Some(*node))?;
    }
    Ok(nodes)
}

/// The place of the node before a node of the network.
fn parent_place(graph: &Graph, node: u32) -> Option<u32>
    requires { node < node_bound graph.now.stored }
    ensures { result ≡ parent_place graph.now node }
{
    graph.laws();
    match graph.arcs_in(node) {
        [arc, ..] => graph.place(arc.from),
        [] => None,
    }
}

/// The launch edge of the node of a place: that of its parent, or of the clock port where it has none.
fn next_edge(
    store: &Store,
    graph: &Graph,
    edges: &[Option<LaunchEdge>],
    node: Option<u32>,
) -> Option<LaunchEdge>
    requires graph { graph.now.stored ≡ store.now }
    requires edges { AreEdges graph.now edges.now }
    requires node { IfSome node (λ n. place_at graph.now n ≡ Some (length edges.now)) }
    ensures { IsEdgeAt graph.now node result }
{
    store.laws();
    graph.laws();
    let node = node?;
    match parent_place(graph, node) {
        Some(place) => edges[place as usize],
        None => walk_edge(store, graph, node),
    }
}

/// Early and late arrival of a row on a launch edge, in fs; 0 where one is not there.
fn times_on(row: &NodeRow, edge: LaunchEdge) -> (i64, i64)
    ensures { (result.0, result.1)
        ≡ both_times (time_on row.now.early (edge_of edge)) (time_on row.now.late (edge_of edge)) }
{
    let Some(early) = arrival_on(row, Split::Early, edge) else {
        return (0, 0);
    };
    let Some(late) = arrival_on(row, Split::Late, edge) else {
        return (0, 0);
    };
    (early.0, late.0)
}

/// The row of a place that no node has.
fn empty_row() -> TreeRow
    ensures { result ≡ empty_tree_row }
{
    TreeRow {
        parent: None,
        early: Fs(0),
        late: Fs(0),
    }
}

/// A node's row of the tree, by its row of arrivals and its launch edge.
fn row_on(parent: Option<u32>, row: &NodeRow, edge: Option<LaunchEdge>) -> TreeRow
    ensures parent { result.parent ≡ parent }
    ensures times { (result.early.0, result.late.0) ≡ times_told row.now edge }
{
    let (early, late) = match edge {
        Some(edge) => times_on(row, edge),
        None => (0, 0),
    };
    TreeRow {
        parent,
        early: Fs(early),
        late: Fs(late),
    }
}

/// The row of a place, by its node and launch edge.
#[tactic(auto, using(crate::proofs::TreeLaws::row_forms))]
fn row_at<A: Rows>(
    graph: &Graph,
    arrivals: &A,
    edge: Option<LaunchEdge>,
    node: Option<u32>,
) -> TreeRow
    requires rows { AreRows graph.now.stored (A.rows arrivals.now) }
    requires node { IfSome node (λ n. n < node_bound graph.now.stored) }
    requires edge { IsEdgeAt graph.now node edge }
    ensures { IsRowAt graph.now node result }
{
    match node {
        Some(node) => row_on(parent_place(graph, node), arrivals.row(node), edge),
        None => empty_row(),
    }
}

/// The rows of all places, in their order.
fn tree_rows<A: Rows>(
    alloc: Global,
    store: &Store,
    graph: &Graph,
    arrivals: &A,
    nodes: &[Option<u32>],
) -> Result<Items<TreeRow>, Memory>
    requires graph { graph.now.stored ≡ store.now }
    requires rows { AreRows store.now (A.rows arrivals.now) }
    requires range { AreRowsFine store.now.design }
    requires nodes { ArePlaceNodes graph.now nodes.now }
    ensures { IfOk result (IsClockTree graph.now) }
{
    store.laws();
    graph.laws();
    let mut edges = Items::new(alloc);
    let mut rows = Items::new(alloc);
    for node in nodes {
        let edge = next_edge(store, graph, edges.as_slice(), *node);
        rows.push(row_at(graph, arrivals, edge, *node))?;
        edges.push(edge)?;
    }
    Ok(rows)
}

/// The clock tree of a design: the nodes of the clock network by their places in the graph, each with the
/// place of the node before it (none at a clock port's node) and its early and late arrival, in fs, on the
/// launch edge of the walk to it; both are 0 where one is not there.
/// `arrivals` has the row of each node. Takes as many steps as the clock network has nodes.
pub fn clock_tree<A: Rows>(
    alloc: Global,
    store: &Store,
    graph: &Graph,
    arrivals: &A,
) -> Result<ClockTree, Memory>
    requires graph { graph.now.stored ≡ store.now }
    requires rows { AreRows store.now (A.rows arrivals.now) }
    requires range { AreRowsFine store.now.design }
    ensures { IfOk result (λ tree. IsClockTree graph.now tree) }
{
    let nodes = place_nodes(alloc, graph)?;
    let rows = tree_rows(alloc, store, graph, arrivals, nodes.as_slice())?;
    ClockTree::of(alloc, &rows)
}
