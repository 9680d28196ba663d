//! The clock tree of a store, and where an ECO leaves that of its base.

ghost use Rattle.std.specs.Prelude.{ℕ, ◌≡◌, ◌<◌, IsTrue, All, Some, IfOk};
ghost use Rattle.std.specs.List.{list_any};
ghost use Rattle.pin_graph.specs.Nodes.{node_bound};
ghost use Rattle.pin_graph.specs.Graphs.{place_at};
ghost use Rattle.pin_graph.specs.RowTables.{AreRowsFine};
ghost use Rattle.path_search.specs.Trees.{IsClockTree};
ghost use Rattle.affected_cone.specs.Found.{AreArrivals};
ghost use Rattle.affected_cone.specs.Updated.{is_placed, IsNetworkLeft};

use arrival_engine::Arrivals;
use cow_table::Held;
use netlist_store::Store;
use path_search::clock_tree;
use pessimism_credit::ClockTree;
use pin_graph::Graph;
use sta_units::Memory;
use std::alloc::Global;

/// The clock tree of a store, to be shared. Takes as many steps as the clock network has nodes.
pub(crate) fn shared_tree(
    alloc: Global,
    store: &Store,
    graph: &Graph,
    arrivals: &Arrivals,
) -> Result<Held<ClockTree>, Memory>
    requires graph { graph.now.stored ≡ store.now }
    requires range { AreRowsFine store.now.design }
    requires arrivals { AreArrivals store.now arrivals.now }
    ensures { IfOk result (IsClockTree graph.now) }
{
    let tree = clock_tree(alloc, store, graph, arrivals)?;
    Held::of(alloc, tree)
}

/// Whether two lists of numbers are the same.
fn same_numbers(a: &[u32], b: &[u32]) -> bool
    ensures { IsTrue result → a.now ≡ b.now }
{
    a == b
}

/// Whether two graphs list the same nodes of the clock network in the same places: then each node with a place has
/// it in the base.
fn same_places(base: &Graph, graph: &Graph) -> bool
    ensures { IsTrue result → (node place : ℕ) → place_at graph.now node ≡ Some place
        → place_at base.now node ≡ Some place }
{
    same_numbers(base.clock_nodes(), graph.clock_nodes())
}

/// Whether a node has a place in the clock network.
fn is_placed(graph: &Graph, node: u32) -> bool
    requires { node < node_bound graph.now.stored }
    ensures { result ≡ is_placed graph.now node }
{
    graph.place(node).is_some()
}

/// Whether some node has a place in the clock network.
fn any_placed(graph: &Graph, nodes: &[u32]) -> bool
    requires { All (λ node. node < node_bound graph.now.stored) nodes.now }
    ensures { result ≡ list_any (is_placed graph.now) nodes.now }
{
    for node in nodes {
        if is_placed(graph, *node) {
            return true;
        }
    }
    false
}

/// Whether an ECO leaves the clock network, with its places, and reaches none of its nodes; `nodes` are those that it
/// reaches. Takes time of these, and of a comparison of two lists of the network's nodes.
pub(crate) fn keeps_network(base: &Graph, graph: &Graph, nodes: &[u32]) -> bool
    requires { All (λ node. node < node_bound graph.now.stored) nodes.now }
    ensures { IsTrue result → IsNetworkLeft base.now graph.now nodes.now }
{
    if any_placed(graph, nodes) {
        return false;
    }
    same_places(base, graph)
}
