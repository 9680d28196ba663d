//! The cone in which the paths to a pin are searched.

ghost use Rattle.std.specs.Prelude.{◌≡◌, ◌<◌, ◌^◌, true, [], ◌∷◌, All, Contains, Some, length, slice_index, position, nat_eq, IfOk};
ghost use Rattle.timing_defs.specs.Netlist.{Node};
ghost use Rattle.netlist_store.specs.Numbering.{is_number};
ghost use Rattle.timing_rules.specs.Reports.{endpoints};
ghost use Rattle.pin_graph.specs.Nodes.{node_at, node_bound, pin_under};
ghost use Rattle.path_cones.specs.Reaching.{is_among};
ghost use Rattle.path_search.specs.Sources.{AreSources};
ghost use Rattle.timing_rules.specs.Paths.{named};
ghost use Rattle.path_cones.specs.FanIns.{IsFanPart};
ghost use Rattle.path_search.specs.Offers.{AreOffers};
ghost use Rattle.path_search.specs.PinCones.{cone_of, AreEndNodes, IsNamedNode, IsEndOf, IsPinCone, IsPinPart};

use crate::offers::{PinOffers, offers};
use crate::sources::Sources;
use arc_delays::Delayed;
use netlist_store::Store;
use path_cones::{FanIn, fan_in};
use pin_graph::Graph;
use sta_units::Memory;
use std::alloc::Global;
use timing_defs::{Items, Kind, Name, Rows, Tran};
use worst_walks::{Cone, Launch, WalkEnd};

/// A cone of a pin's two nodes (the rise node's end first) with the launches of the paths to each, and
/// the graph's numbers of its nodes by their places. Delays and offers are in fs, delays for hold tests
/// negated. Its walks are tested paths to the pin, and those of `pin_cone` all of them: see `walk_path_laws`.
#[derive(Drop)]
pub struct PinCone {
    pub nodes: Items<u32>,
    pub cone: Cone,
}

/// The numbers of an endpoint's two nodes.
#[derive(Clone, Copy, Drop)]
pub(crate) struct EndNodes {
    pub(crate) rise: u32,
    pub(crate) fall: u32,
}

/// The number of a node of an endpoint.
fn end_node(store: &Store, graph: &Graph, endpoint: &Name, tran: Tran) -> u32
    requires graph { graph.now.stored ≡ store.now }
    requires endpoint { Contains (endpoints store.now.design) endpoint.now }
    ensures below { result < node_bound store.now }
    ensures there { is_number store.now.pins (pin_under result) ≡ true }
    ensures node { IsNamedNode store.now (endpoint.now, tran) result }
{
    store.laws();
    match graph.node(endpoint, tran) {
        Some(node) => node,
        None => unreachable!(),
    }
}

/// The numbers of the nodes of an endpoint.
pub(crate) fn end_nodes(store: &Store, graph: &Graph, endpoint: &Name) -> EndNodes
    requires graph { graph.now.stored ≡ store.now }
    requires endpoint { Contains (endpoints store.now.design) endpoint.now }
    ensures { AreEndNodes store.now endpoint.now result }
{
    EndNodes {
        rise: end_node(store, graph, endpoint, Tran::Rise),
        fall: end_node(store, graph, endpoint, Tran::Fall),
    }
}

/// The place of a node in a list.
fn place_in(nodes: &[u32], node: u32) -> Option<usize>
    ensures { result ≡ position (λ n. nat_eq node n) nodes.now }
{
    nodes.iter().position(|n| node == *n)
}

/// The place of a node in a list that has it.
fn place_of(nodes: &[u32], node: u32) -> u32
    requires among { is_among nodes.now node ≡ true }
    requires few { length nodes.now < 2 ^ 22 }
    ensures below { result < length nodes.now }
    ensures there { slice_index nodes.now result ≡ node }
{
    match place_in(nodes, node) {
        Some(place) => place as u32,
        None => unreachable!(),
    }
}

/// An end node of a fan-in, with the launches of the paths to it.
fn walk_end(store: &Store, kind: Kind, nodes: &[u32], end: u32, launches: Items<Launch>) -> WalkEnd
    requires among { is_among nodes.now end ≡ true }
    requires few { length nodes.now < 2 ^ 22 }
    requires launches { (node : Node) → node_at store.now end ≡ Some node
        → AreOffers store.now kind nodes.now (named node) launches }
    ensures { (node : Node) → node_at store.now end ≡ Some node
        → IsEndOf store.now kind nodes.now node result }
{
    // What the launches are is asked for by the contract alone.
    let _ = store;
    let _ = kind;
    WalkEnd {
        node: place_of(nodes, end),
        launches,
    }
}

/// The cone of a fan-in and two end nodes.
fn cone_with(alloc: Global, fan: FanIn, rise: WalkEnd, fall: WalkEnd) -> Result<PinCone, Memory>
    requires { length fan.nodes < 2 ^ 22 }
    ensures nodes { IfOk result (λ made. made.nodes ≡ fan.nodes) }
    ensures cone { IfOk result (λ made. made.cone ≡ cone_of fan rise fall) }
{
    let mut ends = Items::new(alloc);
    ends.push(rise)?;
    ends.push(fall)?;
    let FanIn {
        nodes,
        starts,
        arcs,
    } = fan;
    let count = nodes.len() as u32;
    Ok(PinCone {
        nodes,
        cone: Cone {
            count,
            starts,
            arcs,
            ends,
        },
    })
}

/// The cone in which paths to an endpoint are searched, over a part of the fan-in of its nodes; all of them
/// where it is the whole.
pub(crate) fn cone_over<A: Rows + Delayed>(
    alloc: Global,
    sources: &Sources<'_, A>,
    endpoint: &Name,
    ends: EndNodes,
    fan: FanIn,
) -> Result<PinCone, Memory>
    requires sources { AreSources sources.now.store.now sources.now.graph.now
        (A.rows sources.now.arrivals.now) (A.delays sources.now.arrivals.now) sources.now.tree.now }
    requires ends { AreEndNodes sources.now.store.now endpoint.now ends }
    requires fan { IsFanPart sources.now.graph.now sources.now.kind (ends.rise ∷ ends.fall ∷ [])
        fan }
    ensures part { IfOk result (IsPinPart sources.now.graph.now sources.now.kind endpoint.now) }
    ensures nodes { IfOk result (λ made. made.nodes ≡ fan.nodes) }
{
    // The endpoint is asked for by the contract alone.
    let _ = endpoint;
    let nodes = fan.nodes.as_slice();
    let PinOffers { rise, fall } = offers(alloc, sources, nodes, ends.rise, ends.fall)?;
    let first = walk_end(sources.store, sources.kind, nodes, ends.rise, rise);
    let second = walk_end(sources.store, sources.kind, nodes, ends.fall, fall);
    cone_with(alloc, fan, first, second)
}

/// The cone in which the paths to an endpoint are searched. Takes the time of the cone's arcs, of sorting
/// its nodes and of its launches times the tests of the endpoint. The one error is want of memory.
pub fn pin_cone<A: Rows + Delayed>(
    alloc: Global,
    sources: &Sources<'_, A>,
    endpoint: &Name,
) -> Result<PinCone, Memory>
    requires sources { AreSources sources.now.store.now sources.now.graph.now
        (A.rows sources.now.arrivals.now) (A.delays sources.now.arrivals.now) sources.now.tree.now }
    requires endpoint { Contains (endpoints sources.now.store.now.design) endpoint.now }
    ensures { IfOk result (IsPinCone sources.now.graph.now sources.now.kind endpoint.now) }
{
    let ends = end_nodes(sources.store, sources.graph, endpoint);
    let fan = fan_in(
        alloc,
        sources.store,
        sources.graph,
        sources.arrivals.delays(),
        &[ends.rise, ends.fall],
        sources.kind,
    )?;
    cone_over(alloc, sources, endpoint, ends, fan)
}
