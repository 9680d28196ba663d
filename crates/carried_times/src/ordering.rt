//! Nodes in the order of their levels.

ghost use Rattle.std.specs.Prelude.{◌≡◌, [], map, nat_eq, nat_lt, if◌then◌else◌, IfOk, OnOk};
ghost use Rattle.std.specs.List.Sorted.{IsPermutation};
ghost use Rattle.indexmap.specs.IndexSet.{insert_all, insert_key};
ghost use Rattle.pin_graph.specs.Nodes.{node_bound};
ghost use Rattle.pin_graph.specs.Graphs.{level_at};
ghost use Rattle.carried_times.specs.Ordered.{leveled_at, node_of, AreSame};

use indexmap::IndexSet;
use pin_graph::Graph;
use sta_units::Memory;
use std::alloc::Global;
use timing_defs::Items;

/// A node with its level.
#[derive(Clone, Copy, Drop)]
pub(crate) struct Leveled {
    pub(crate) level: u32,
    pub(crate) node: u32,
}

/// The level of a node; 0 of a number that is of no node.
fn level(graph: &Graph, node: u32) -> u32
    ensures { result
        ≡ (if nat_lt node (node_bound graph.now.stored) then level_at graph.now node else 0) }
{
    if node < graph.count() {
        graph.level(node)
    } else {
        0
    }
}

/// Some nodes with their levels.
fn with_levels(alloc: Global, graph: &Graph, nodes: &[u32]) -> Result<Items<Leveled>, Memory>
    ensures { IfOk result (λ made. made ≡ map (leveled_at graph.now) nodes.now) }
{
    let mut made = Items::with_room(alloc, nodes.len())?;
    for node in nodes {
        made.push(Leveled {
            level: level(graph, *node),
            node: *node,
        })?;
    }
    Ok(made)
}

/// Puts nodes of lower levels before those of higher ones.
fn sort_leveled(nodes: &mut Vec<Leveled>)
    ensures { IsPermutation nodes.old.items nodes.new.items }
{
    nodes.sort_unstable_by_key(|node: &Leveled| -> u32 { node.level });
}

/// Adds a number, where it is not there.
fn put_number(found: &mut IndexSet<u32>, number: u32) -> Result<(), Memory>
    ensures { OnOk result (found.new.keys ≡ insert_key nat_eq found.old.keys number) }
{
    match found.insert(number) {
        Ok(_) => Ok(()),
        Err(_) => Err(Memory),
    }
}

/// Some numbers, each once.
pub(crate) fn number_set(alloc: Global, numbers: &[u32]) -> Result<IndexSet<u32>, Memory>
    ensures { IfOk result (λ found. found.keys ≡ insert_all nat_eq [] numbers.now) }
{
    let mut found = IndexSet::with_capacity(alloc, numbers.len())?;
    for number in numbers {
        put_number(&mut found, *number)?;
    }
    Ok(found)
}

/// The set of some nodes, in their order.
fn set_of(alloc: Global, nodes: &[Leveled]) -> Result<IndexSet<u32>, Memory>
    ensures { IfOk result (λ found. found.keys ≡ insert_all nat_eq [] (map node_of nodes.now)) }
{
    let mut found = IndexSet::with_capacity(alloc, nodes.len())?;
    for leveled in nodes {
        put_number(&mut found, leveled.node)?;
    }
    Ok(found)
}

/// Some nodes, those of lower levels before those of higher ones. That they are in this order is no clause: where a
/// node came before one from which an arc leads to it, no times would be found.
pub(crate) fn by_level(alloc: Global, graph: &Graph, nodes: &[u32]) -> Result<IndexSet<u32>, Memory>
    ensures { IfOk result (λ ordered. AreSame nodes.now ordered.keys) }
{
    let mut leveled = with_levels(alloc, graph, nodes)?.into_vec();
    sort_leveled(&mut leveled);
    set_of(alloc, leveled.as_slice())
}
