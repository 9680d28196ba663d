//! The nodes of a cone by their levels, highest first.

ghost use Rattle.std.specs.Prelude.{◌≡◌, ◌-◌, ◌^◌, [], map, nat_eq, IfOk};
ghost use Rattle.std.specs.List.Sorted.{IsNonDecreasingBy, IsPermutation};
ghost use Rattle.indexmap.specs.IndexSet.{insert_all};
ghost use Rattle.pin_graph.specs.Graphs.{level_at};
ghost use Rattle.path_cones.specs.Reaching.{depth_at, depth_of, leveled_at, node_of, AreConeNodes, AreOrdered, AreTheSame};

use crate::reaching::add_node;
use indexmap::IndexSet;
use pin_graph::Graph;
use sta_units::Memory;
use std::alloc::Global;
use timing_defs::Items;

/// A node, with how far its level is below the greatest number.
#[derive(Clone, Copy, Drop)]
pub(crate) struct Leveled {
    pub(crate) depth: u32,
    pub(crate) node: u32,
}

/// How far a node's level is below the greatest number; 0 of a number that is of no node.
fn depth(graph: &Graph, node: u32) -> u32
    ensures { result ≡ depth_at graph.now node }
{
    if node < graph.count() {
        u32::MAX - graph.level(node)
    } else {
        0
    }
}

/// Some nodes with their depths.
fn with_depths(alloc: Global, graph: &Graph, nodes: &[u32]) -> Result<Items<Leveled>, Memory>
    ensures { IfOk result (λ made. made ≡ map (leveled_at graph.now) nodes.now) }
{
    let mut made = Items::with_room(alloc, nodes.len())?;
    for node in nodes {
        made.push(Leveled {
            depth: depth(graph, *node),
            node: *node,
        })?;
    }
    Ok(made)
}

/// Puts nodes of higher levels before those of lower ones.
fn sort_leveled(nodes: &mut Vec<Leveled>)
    ensures same { IsPermutation nodes.old.items nodes.new.items }
    ensures falling { IsNonDecreasingBy depth_of nodes.new.items }
{
    nodes.sort_unstable_by_key(
        |node: &Leveled| -> u32
            ensures { result ≡ depth_of node.now }
        { node.depth },
    );
}

/// The set of some nodes, in their order.
fn set_of(alloc: Global, nodes: &[Leveled]) -> Result<IndexSet<u32>, Memory>
    ensures { IfOk result (λ made. made.keys ≡ insert_all nat_eq [] (map node_of nodes.now)) }
{
    let mut made = IndexSet::with_capacity(alloc, nodes.len())?;
    for leveled in nodes {
        add_node(&mut made, leveled.node)?;
    }
    Ok(made)
}

/// The nodes of a cone, those of higher levels before those of lower ones. The level of each is looked up
/// once.
pub(crate) fn by_level(
    alloc: Global,
    graph: &Graph,
    ends: &[u32],
    nodes: &IndexSet<u32>,
) -> Result<IndexSet<u32>, Memory>
    requires { AreConeNodes graph.now ends.now nodes.now.keys }
    ensures ordered { IfOk result (λ ordered. AreOrdered graph.now ends.now ordered.keys) }
    ensures same { IfOk result (λ ordered. AreTheSame nodes.now.keys ordered.keys) }
{
    // The end nodes are asked for by the contract alone.
    let _ = ends;
    let mut leveled = with_depths(alloc, graph, nodes.as_slice())?.into_vec();
    sort_leveled(&mut leveled);
    set_of(alloc, leveled.as_slice())
}
