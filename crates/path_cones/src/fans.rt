//! The fan-in cone of an endpoint.

ghost use Rattle.std.specs.Prelude.{◌≡◌, ◌<◌, ◌^◌, true, All, IfOk};
ghost use Rattle.arc_delays.specs.Delays.{AreDelays};
ghost use Rattle.pin_graph.specs.Nodes.{node_bound};
ghost use Rattle.path_cones.specs.FanIns.{IsFanIn, IsFanPart};
ghost use Rattle.path_cones.specs.Reaching.{is_among, AreConeNodes, AreTheSame};

use crate::leveling::by_level;
use crate::listing::{Listed, Sources, list_arcs};
use crate::reaching::{ends_and, reached};
use arc_delays::ArcDelays;
use indexmap::IndexSet;
use netlist_store::Store;
use pin_graph::Graph;
use sta_units::Memory;
use std::alloc::Global;
use timing_defs::{Items, Kind};
use worst_walks::WalkArc;

/// The fan-in cone of an endpoint: the graph's number of each node, by its place in the cone, and the
/// arcs into each place, `arcs[starts[place]..starts[place + 1]]`, which lead from higher places to
/// lower ones. Delays are in fs: of setup tests the late ones, of hold tests the early ones with their
/// signs turned.
#[derive(Drop)]
pub struct FanIn {
    pub nodes: Items<u32>,
    pub starts: Items<u32>,
    pub arcs: Items<WalkArc>,
}

/// The numbers of a graph's nodes fit.
fn bounded(graph: &Graph)
    ensures { node_bound graph.now.stored < 2 ^ 32 }
{
    let _ = graph.count();
}

/// The nodes of a list and the arcs into each.
fn joined(alloc: Global, nodes: &IndexSet<u32>, listed: Listed) -> Result<FanIn, Memory>
    ensures { IfOk result
        (λ f. f ≡ record { nodes = nodes.now.keys; starts = listed.starts; arcs = listed.arcs }) }
{
    let copied = Items::from_slice(alloc, nodes.as_slice())?;
    Ok(FanIn {
        nodes: copied,
        starts: listed.starts,
        arcs: listed.arcs,
    })
}

/// The cone of some nodes, the end nodes among them, and the arcs between them that walks follow.
fn cone_of(
    alloc: Global,
    store: &Store,
    sources: &Sources<'_>,
    ends: &[u32],
    nodes: &IndexSet<u32>,
    kind: Kind,
) -> Result<FanIn, Memory>
    requires graph { sources.now.graph.now.stored ≡ store.now }
    requires delays { AreDelays store.now sources.now.delays.now }
    requires nodes { AreConeNodes sources.now.graph.now ends.now nodes.now.keys }
    ensures part { IfOk result (IsFanPart sources.now.graph.now kind ends.now) }
    ensures same { IfOk result (λ f. AreTheSame nodes.now.keys f.nodes) }
{
    store.laws();
    sources.graph.laws();
    bounded(sources.graph);
    let ordered = by_level(alloc, sources.graph, ends, nodes)?;
    let listed = list_arcs(alloc, sources, &ordered, kind)?;
    joined(alloc, &ordered, listed)
}

/// The cone of some end nodes: each node from which a walk of arcs leads to one of them and whose nodes
/// after the first are outside the clock network, and the arcs between these. Takes the time of the cone's
/// arcs and of sorting its nodes. Fails for want of memory, and where there are `2^22` nodes, more than a
/// sound design has, or `2^32` arcs.
pub fn fan_in(
    alloc: Global,
    store: &Store,
    graph: &Graph,
    delays: &ArcDelays,
    ends: &[u32],
    kind: Kind,
) -> Result<FanIn, Memory>
    requires graph { graph.now.stored ≡ store.now }
    requires delays { AreDelays store.now delays.now }
    requires ends { All (λ end. end < node_bound graph.now.stored) ends.now }
    ensures { IfOk result (IsFanIn graph.now kind ends.now) }
{
    store.laws();
    graph.laws();
    let sources = Sources { graph, delays };
    let nodes = reached(alloc, graph, ends)?;
    cone_of(alloc, store, &sources, ends, &nodes, kind)
}

/// The part of a fan-in that has some end nodes and further nodes, and the arcs between these that walks
/// follow. Takes the time of the arcs into these nodes and of sorting the nodes. Fails as `fan_in` does.
pub fn fan_among(
    alloc: Global,
    store: &Store,
    graph: &Graph,
    delays: &ArcDelays,
    ends: &[u32],
    nodes: &[u32],
    kind: Kind,
) -> Result<FanIn, Memory>
    requires graph { graph.now.stored ≡ store.now }
    requires delays { AreDelays store.now delays.now }
    requires ends { All (λ end. end < node_bound graph.now.stored) ends.now }
    requires nodes { All (λ node. node < node_bound graph.now.stored) nodes.now }
    ensures part { IfOk result (IsFanPart graph.now kind ends.now) }
    ensures among { IfOk result (λ f. All (λ node. is_among f.nodes node ≡ true) nodes.now) }
{
    let sources = Sources { graph, delays };
    let found = ends_and(alloc, graph, ends, nodes)?;
    cone_of(alloc, store, &sources, ends, &found, kind)
}
