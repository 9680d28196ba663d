//! The order of a cone's nodes by the names of their pins, and the nodes before a launch node.

ghost use Rattle.std.specs.Prelude.{◌≡◌, ◌+◌, ◌<◌, ◌≤◌, ◌^◌, All, length, map, reverse, IfOk};
ghost use Rattle.std.specs.Ordering.{is_lt};
ghost use Rattle.pin_graph.specs.Nodes.{node_bound, pin_under};
ghost use Rattle.pin_graph.specs.Graphs.{fan_at};
ghost use Rattle.node_tests.specs.Walks.{first_from};
ghost use Rattle.path_search.specs.Ranks.{pin_name_at, number_cmp, climb, node_of};

use netlist_store::Store;
use pin_graph::Graph;
use sta_units::Memory;
use std::alloc::Global;
use timing_defs::Items;
use worst_walks::WalkOrder;

/// The nodes of a cone by their places, and after these all nodes of a graph by their numbers, in the
/// order of the bytes of their pins' names, rise before fall. Before a launch stand the nodes of the clock
/// network on the way to it. `search_laws` tells what it asks of a cone's nodes.
#[derive(Clone, Copy, Drop)]
pub struct ByName<'a> {
    pub store: &'a Store,
    pub graph: &'a Graph,
    pub nodes: &'a [u32],
    ghost below: { All (λ n. n < node_bound store.now) nodes.now },
    ghost same: { node_bound graph.now.stored ≡ node_bound store.now },
    ghost few: { length nodes.now < 2 ^ 22 },
}

/// The bytes of the name of a node's pin; none of a number that is of no node.
fn name_under(store: &Store, node: u32) -> &[u8]
    ensures { result.now ≡ pin_name_at store.now node }
{
    let pin = node / 2;
    if store.has_pin(pin) {
        return store.pin_name(pin).as_bytes();
    }
    &[]
}

/// Whether a node comes before another: by the bytes of the names, then by the numbers.
fn is_before(store: &Store, one: u32, other: u32) -> bool
    ensures { result ≡ is_lt (number_cmp store.now one other) }
{
    let first = name_under(store, one);
    let second = name_under(store, other);
    first.cmp(second).then(one.cmp(&other)).is_lt()
}

/// The number in the graph of the node that a place of a cone, or a number past these, stands for.
pub fn node_of(nodes: &[u32], number: u32) -> u32
    ensures { result ≡ node_of nodes.now number }
{
    let at = number as usize;
    if at < nodes.len() {
        nodes[at]
    } else {
        (at - nodes.len()) as u32
    }
}

/// The node from which the first arc leads to a node; none where no arc does.
fn before(graph: &Graph, node: u32) -> Option<u32>
    requires { node < node_bound graph.now.stored }
    ensures { result ≡ first_from (fan_at graph.now.ins node) }
{
    match graph.arcs_in(node) {
        [arc, ..] => Some(arc.from),
        [] => None,
    }
}

/// The nodes on the way back from a node, the uppermost last.
fn way_back(alloc: Global, graph: &Graph, node: u32) -> Result<Items<u32>, Memory>
    requires { node < node_bound graph.now.stored }
    ensures { IfOk result (λ nodes. reverse nodes ≡ climb graph.now node) }
{
    graph.laws();
    let mut nodes = Items::new(alloc);
    let mut top = node;
    while let Some(from) = before(graph, top) {
        nodes.push(from)?;
        top = from;
    }
    Ok(nodes)
}

/// The nodes on the way back from a node by the first arc into each, the uppermost first. For a launch
/// node these are the nodes of the clock network before it. Takes a step for each.
#[tactic(auto, using(crate::proofs::ClimbNames::climb_low))]
pub(crate) fn climb(alloc: Global, graph: &Graph, node: u32) -> Result<Items<u32>, Memory>
    requires { node < node_bound graph.now.stored }
    ensures value { IfOk result (λ nodes. nodes ≡ climb graph.now node) }
    ensures known { IfOk result (λ nodes. All (λ n. n < node_bound graph.now.stored) nodes) }
{
    graph.laws();
    let mut nodes = way_back(alloc, graph, node)?.into_vec();
    nodes.reverse();
    Ok(Items::from_vec(nodes))
}

/// A number past the places of a cone. Fails where it takes more than 32 bits, as no graph that memory
/// has room for.
fn past(places: usize, node: u32) -> Result<u32, Memory>
    requires { places < 2 ^ 22 }
    ensures { IfOk result (λ n. n ≡ places + node) }
{
    match node.checked_add(places as u32) {
        Some(number) => Ok(number),
        None => Err(Memory),
    }
}

/// Nodes by numbers past the places of a cone.
fn all_past(alloc: Global, places: usize, nodes: &[u32]) -> Result<Items<u32>, Memory>
    requires { places < 2 ^ 22 }
    ensures { IfOk result (λ moved. moved ≡ map (λ n. places + n) nodes.now) }
{
    let mut moved = Items::with_room(alloc, nodes.len())?;
    for node in nodes {
        let number = past(places, *node)?;
        moved.push(number)?;
    }
    Ok(moved)
}

/// The nodes on the way back from a node, by numbers past the places of a cone.
fn climb_past(alloc: Global, graph: &Graph, places: usize, node: u32) -> Result<Items<u32>, Memory>
    requires places { places < 2 ^ 22 }
    requires node { node < node_bound graph.now.stored }
    ensures value { IfOk result (λ nodes. nodes ≡ map (λ n. places + n) (climb graph.now node)) }
    ensures known { IfOk result
        (λ nodes. All (λ n. n < places + node_bound graph.now.stored) nodes) }
{
    graph.laws();
    let nodes = climb(alloc, graph, node)?;
    all_past(alloc, places, nodes.as_slice())
}

impl WalkOrder for ByName<'_> {
    ghost use Rattle.std.specs.Prelude.{◌+◌, length};
    ghost use Rattle.pin_graph.specs.Nodes.{node_bound};
    ghost use Rattle.path_search.specs.Ranks.{place_rank, places_before};

    ghost count = { λ order. length order.nodes.now + node_bound order.graph.now.stored };

    ghost rank = { λ order n. place_rank order.store.now order.nodes.now n };

    ghost before = { λ order n. places_before order.graph.now order.nodes.now n };

    #[tactic(auto, using(crate::proofs::NumberNames::first_told))]
    fn comes_first(&self, one: u32, other: u32) -> bool {
        is_before(
            self.store,
            node_of(self.nodes, one),
            node_of(self.nodes, other),
        )
    }

    #[tactic(auto, using(crate::proofs::NumberNames::node_of_low))]
    fn nodes_before(&self, alloc: Global, launch: u32) -> Result<Items<u32>, Memory> {
        let node = node_of(self.nodes, launch);
        climb_past(alloc, self.graph, self.nodes.len(), node)
    }
}
