//! The nodes from which walks lead to some end nodes.

ghost use Rattle.std.specs.Prelude.{◌≡◌, ◌<◌, true, nat_eq, All, map, [], IfOk, OnOk};
ghost use Rattle.indexmap.specs.IndexSet.{insert_key, insert_all};
ghost use Rattle.pin_graph.specs.Nodes.{node_bound};
ghost use Rattle.pin_graph.specs.Graphs.{from_of, IsArc};
ghost use Rattle.path_cones.specs.Reaching.{followed, is_among, AreConeNodes, AreReached};

use indexmap::IndexSet;
use pin_graph::{Graph, GraphArc};
use sta_units::Memory;
use std::alloc::Global;

/// Adds a node, where it is not there.
pub(crate) fn add_node(found: &mut IndexSet<u32>, node: u32) -> Result<(), Memory>
    ensures { OnOk result (found.new.keys ≡ insert_key nat_eq found.old.keys node) }
{
    match found.insert(node) {
        Ok(_) => Ok(()),
        Err(_) => Err(Memory),
    }
}

/// Adds the nodes from which these arcs lead.
fn add_sources(found: &mut IndexSet<u32>, arcs: &[GraphArc]) -> Result<(), Memory>
    ensures { OnOk result
        (found.new.keys ≡ insert_all nat_eq found.old.keys (map from_of arcs.now)) }
{
    for arc in arcs {
        add_node(found, arc.from)?;
    }
    Ok(())
}

/// Room for the nodes of most cones.
const ROOM: usize = 1024;

/// Some end nodes, each once.
fn ends_found(alloc: Global, ends: &[u32]) -> Result<IndexSet<u32>, Memory>
    ensures { IfOk result (λ found. found.keys ≡ insert_all nat_eq [] ends.now) }
{
    let mut found = IndexSet::with_capacity(alloc, ROOM)?;
    for end in ends {
        add_node(&mut found, *end)?;
    }
    Ok(found)
}

/// Adds these nodes, each where it is not there.
fn add_nodes(found: &mut IndexSet<u32>, nodes: &[u32]) -> Result<(), Memory>
    ensures { OnOk result (found.new.keys ≡ insert_all nat_eq found.old.keys nodes.now) }
{
    for node in nodes {
        add_node(found, *node)?;
    }
    Ok(())
}

/// Some end nodes and further nodes, each once. Fails for want of memory, and where there are `2^22` nodes
/// or more.
pub(crate) fn ends_and(
    alloc: Global,
    graph: &Graph,
    ends: &[u32],
    nodes: &[u32],
) -> Result<IndexSet<u32>, Memory>
    requires ends { All (λ end. end < node_bound graph.now.stored) ends.now }
    requires nodes { All (λ node. node < node_bound graph.now.stored) nodes.now }
    ensures some { IfOk result (λ found. AreConeNodes graph.now ends.now found.keys) }
    ensures among { IfOk result (λ found. All (λ n. is_among found.keys n ≡ true) nodes.now) }
{
    // The graph is asked for by the contract alone.
    let _ = graph;
    let mut found = ends_found(alloc, ends)?;
    add_nodes(&mut found, nodes)?;
    if found.len() >= 1 << 22 {
        return Err(Memory);
    }
    Ok(found)
}

/// The arcs that a walk follows into a node: none into a node of the clock network.
#[tactic(auto, using(crate::proofs::Growing::arcs_sound))]
pub(crate) fn followed(graph: &Graph, node: u32) -> &[GraphArc]
    requires { node < node_bound graph.now.stored }
    ensures value { result.now ≡ followed graph.now node }
    ensures arcs { All (IsArc graph.now.stored) result.now }
{
    graph.laws();
    if graph.is_network(node) {
        return &[];
    }
    graph.arcs_in(node)
}

/// The end nodes and each node from which a walk outside the clock network leads to one, in time of the
/// arcs between them. Fails for want of memory, and where there are `2^22` nodes or more.
#[tactic(auto, using(crate::proofs::Growing::reaching_none, crate::proofs::Growing::reaching_more, crate::proofs::Growing::reaching_all, crate::proofs::Growing::node_low))]
pub(crate) fn reached(alloc: Global, graph: &Graph, ends: &[u32]) -> Result<IndexSet<u32>, Memory>
    requires { All (λ end. end < node_bound graph.now.stored) ends.now }
    ensures { IfOk result (λ nodes. AreReached graph.now ends.now nodes.keys) }
{
    graph.laws();
    let mut found = ends_found(alloc, ends)?;
    for at in 0..1 << 22 {
        let Some(node) = found.get_index(at).copied() else {
            return Ok(found);
        };
        add_sources(&mut found, followed(graph, node))?;
    }
    Err(Memory)
}
