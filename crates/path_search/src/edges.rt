//! Launch edges, and arrivals on them.

ghost use Rattle.std.specs.Prelude.{◌≡◌, ◌<◌, Some, option_map, option_and_then};
ghost use Rattle.timing_defs.specs.RowTimes.{times_in, time_on, edge_of};
ghost use Rattle.pin_graph.specs.Nodes.{node_at, node_bound};
ghost use Rattle.path_search.specs.Trees.{walk_edge};

use netlist_store::Store;
use node_rows::{time_on, times_in};
use node_tests::walk_start;
use pin_graph::Graph;
use sta_units::Fs;
use timing_defs::{LaunchEdge, NodeRow, Split};

/// The launch edge of the walk over the clock network to a node; none where no walk leads there.
#[tactic(auto, using(crate::proofs::TreeLaws::edges_told))]
pub(crate) fn walk_edge(store: &Store, graph: &Graph, node: u32) -> Option<LaunchEdge>
    requires graph { graph.now.stored ≡ store.now }
    requires node { node < node_bound store.now }
    ensures { option_map edge_of result
        ≡ option_and_then (walk_edge store.now.design) (node_at store.now node) }
{
    match walk_start(store, graph, node) {
        Some(start) => Some(LaunchEdge {
            clock: start.clock,
            tran: start.tran,
        }),
        None => None,
    }
}

/// The arrival of a row on a launch edge in a split.
pub(crate) fn arrival_on(row: &NodeRow, split: Split, edge: LaunchEdge) -> Option<Fs>
    ensures { option_map (λ time. time.0) result ≡ time_on (times_in split row.now) (edge_of edge) }
{
    match time_on(times_in(row, split), edge.clock, edge.tran) {
        Some(time) => Some(Fs(time)),
        None => None,
    }
}
