//! The worst path to an endpoint, and its slack.

ghost use Rattle.std.specs.Prelude.{◌≡◌, Contains, Some, None, option_map, IfOk};
ghost use Rattle.timing_rules.specs.Checks.{IsSound};
ghost use Rattle.timing_rules.specs.Range.{NoOrigin};
ghost use Rattle.timing_rules.specs.Reports.{endpoints};
ghost use Rattle.timing_defs.specs.Netlist.{Node};
ghost use Rattle.timing_rules.specs.Paths.{named, IsSlack, IsShown};
ghost use Rattle.pin_graph.specs.Nodes.{node_at};
ghost use Rattle.path_search.specs.NearCones.{AreNearNodes, IsNearCone};
ghost use Rattle.path_search.specs.NodeSlacks.{IsEitherSlack};
ghost use Rattle.arc_delays.specs.Delays.{AreDelays};
ghost use Rattle.pin_graph.specs.RowTables.{AreRows};
ghost use Rattle.path_search.specs.Sources.{AreSources};
ghost use Rattle.path_search.specs.Trees.{IsClockTree};
ghost use Rattle.worst_walks.specs.Walks.{IsWorst};
ghost use Rattle.path_search.specs.Ranks.{place_rank, places_before};
ghost use Rattle.path_search.specs.PinCones.{AreEndNodes, IsPinCone, IsPinPart, IsSearchFine};
ghost use Rattle.path_search.specs.WalkPaths.{AreWalkPaths};
ghost use Rattle.path_search.specs.WalkPlaces.{AreWalkPlaces};

use crate::cones::{EndNodes, PinCone, end_nodes};
use crate::near_cones::{NearEnds, near_cone, near_ends};
use crate::node_fans::either_slack;
use crate::orders::ByName;
use crate::shown::path_in;
use crate::sources::Sources;
use arc_delays::Delayed;
use netlist_store::Store;
use pessimism_credit::ClockTree;
use pin_graph::Graph;
use sta_units::{Fs, Memory};
use std::alloc::Global;
use timing_defs::{Kind, Name, Path, Rows};
use worst_walks::{Walk, worst_walk};

/// The slacks of an endpoint in fs; none of a kind of which no path to it is tested.
#[derive(Clone, Copy, Drop)]
pub struct EndpointSlacks {
    pub setup: Option<Fs>,
    pub hold: Option<Fs>,
}

/// What a search of a pin's cone asks for; the call does nothing.
pub fn search_laws(store: &Store, graph: &Graph, kind: Kind, endpoint: &Name, search: &PinCone)
    requires graph { graph.now.stored ≡ store.now }
    requires search { IsPinCone graph.now kind endpoint.now search.now }
    ensures { IsSearchFine store.now graph.now search.now }
{
    store.laws();
    graph.laws();
    let _ = kind;
    let _ = endpoint;
    let _ = search;
}

/// That the walks of a pin's cone are the tested paths to the pin, each once and in the order of the paths,
/// and what a search of the cone asks for; the call does nothing.
pub fn walk_path_laws(store: &Store, graph: &Graph, kind: Kind, endpoint: &Name, search: &PinCone)
    requires graph { graph.now.stored ≡ store.now }
    requires search { IsPinCone graph.now kind endpoint.now search.now }
    ensures paths { AreWalkPaths graph.now kind endpoint.now search.now }
    ensures search { IsSearchFine store.now graph.now search.now }
{
    store.laws();
    graph.laws();
    let _ = kind;
    let _ = endpoint;
    let _ = search;
}

/// The places of the walks of a pin's cone, by the names of their nodes, and what a search of the cone asks for; the call
/// does nothing.
pub fn walk_place_laws(store: &Store, graph: &Graph, kind: Kind, endpoint: &Name, search: &PinCone)
    requires graph { graph.now.stored ≡ store.now }
    requires search { IsPinCone graph.now kind endpoint.now search.now }
    ensures places { AreWalkPlaces graph.now search.now }
    ensures search { IsSearchFine store.now graph.now search.now }
{
    store.laws();
    graph.laws();
    let _ = kind;
    let _ = endpoint;
    let _ = search;
}

/// That the least slack of a pin's two nodes is the pin's; the call does nothing.
fn slack_law(
    store: &Store,
    graph: &Graph,
    kind: Kind,
    endpoint: &Name,
    ends: EndNodes,
    slack: Option<i64>,
)
    requires graph { graph.now.stored ≡ store.now }
    requires ends { AreEndNodes store.now endpoint.now ends }
    requires slack { (rise fall : Node) → node_at store.now ends.rise ≡ Some rise
        → node_at store.now ends.fall ≡ Some fall
        → IsEitherSlack store.now.design kind (named rise) (named fall) slack }
    ensures { IsSlack store.now.design kind endpoint.now slack }
{
    store.laws();
    graph.laws();
    let _ = kind;
    let _ = endpoint;
    let _ = ends;
    let _ = slack;
}

/// A slack in fs.
fn in_fs(slack: Option<i64>) -> Option<Fs>
    ensures { option_map (λ s. s.0) result ≡ slack }
{
    match slack {
        Some(least) => Some(Fs(least)),
        None => None,
    }
}

/// The slack of an endpoint for a kind of tests, by the searches of its two nodes.
fn pin_slack<A: Rows + Delayed>(
    alloc: Global,
    sources: &Sources<'_, A>,
    endpoint: &Name,
    ends: EndNodes,
) -> Result<Option<Fs>, Memory>
    requires sources { AreSources sources.now.store.now sources.now.graph.now
        (A.rows sources.now.arrivals.now) (A.delays sources.now.arrivals.now) sources.now.tree.now }
    requires ends { AreEndNodes sources.now.store.now endpoint.now ends }
    ensures { IfOk result
        (λ slack. IsSlack sources.now.store.now.design sources.now.kind endpoint.now
        (option_map (λ s. s.0) slack)) }
{
    let slack = either_slack(alloc, sources, ends)?;
    slack_law(
        sources.store,
        sources.graph,
        sources.kind,
        endpoint,
        ends,
        slack,
    );
    Ok(in_fs(slack))
}

/// What a search of a part of a pin's cone asks for; the call does nothing.
fn part_laws(store: &Store, graph: &Graph, kind: Kind, endpoint: &Name, search: &PinCone)
    requires graph { graph.now.stored ≡ store.now }
    requires search { IsPinPart graph.now kind endpoint.now search.now }
    ensures { IsSearchFine store.now graph.now search.now }
{
    store.laws();
    graph.laws();
    let _ = kind;
    let _ = endpoint;
    let _ = search;
}

/// The worst walk of a cone, in the order of the names of pins.
fn worst_in(
    alloc: Global,
    store: &Store,
    graph: &Graph,
    kind: Kind,
    endpoint: &Name,
    search: &PinCone,
) -> Result<Option<Walk>, Memory>
    requires graph { graph.now.stored ≡ store.now }
    requires search { IsPinPart graph.now kind endpoint.now search.now }
    ensures { IfOk result
        (IsWorst (place_rank store.now search.now.nodes) (places_before graph.now search.now.nodes)
        search.now.cone) }
{
    part_laws(store, graph, kind, endpoint, search);
    let order = ByName {
        store,
        graph,
        nodes: search.nodes.as_slice(),
    };
    worst_walk(alloc, &search.cone, &order)
}

/// The least slack that was found in fs, if any.
fn least_of(found: &Option<NearEnds>) -> Option<i64>
    ensures { result ≡ option_map (λ near. near.least) found.now }
{
    match found {
        Some(near) => Some(near.least),
        None => None,
    }
}

/// The worst path to an endpoint by its least slack and the cone of the walks that have it.
fn shown_in<A: Rows + Delayed>(
    alloc: Global,
    sources: &Sources<'_, A>,
    endpoint: &Name,
    least: i64,
    search: &PinCone,
) -> Result<Path, Memory>
    requires sources { AreSources sources.now.store.now sources.now.graph.now
        (A.rows sources.now.arrivals.now) (A.delays sources.now.arrivals.now) sources.now.tree.now }
    requires slack { IsSlack sources.now.store.now.design sources.now.kind endpoint.now
        (Some least) }
    requires search { IsNearCone sources.now.graph.now sources.now.kind endpoint.now least
        search.now }
    ensures { IfOk result
        (λ path. IsShown sources.now.store.now.design sources.now.kind endpoint.now (Some path)) }
{
    let store = sources.store;
    let graph = sources.graph;
    store.laws();
    graph.laws();
    let worst = worst_in(alloc, store, graph, sources.kind, endpoint, search)?;
    match worst {
        None => unreachable!(),
        Some(walk) => path_in(alloc, sources, endpoint, search, &walk),
    }
}

/// The worst path to an endpoint by its least slack and the nodes of the walks that have it.
fn shown_near<A: Rows + Delayed>(
    alloc: Global,
    sources: &Sources<'_, A>,
    endpoint: &Name,
    ends: EndNodes,
    near: &NearEnds,
) -> Result<Path, Memory>
    requires sources { AreSources sources.now.store.now sources.now.graph.now
        (A.rows sources.now.arrivals.now) (A.delays sources.now.arrivals.now) sources.now.tree.now }
    requires ends { AreEndNodes sources.now.store.now endpoint.now ends }
    requires near { AreNearNodes sources.now.graph.now sources.now.kind ends near.now }
    requires slack { IsSlack sources.now.store.now.design sources.now.kind endpoint.now
        (Some near.now.least) }
    ensures { IfOk result
        (λ path. IsShown sources.now.store.now.design sources.now.kind endpoint.now (Some path)) }
{
    let search = near_cone(alloc, sources, endpoint, ends, near)?;
    shown_in(alloc, sources, endpoint, near.least, &search)
}

/// The slack of an endpoint for a kind of tests, in fs: the least over all paths to it that are tested;
/// none where there is no such path. Each of the endpoint's nodes is searched back, and only where its
/// arrivals leave room for a lesser slack. The one error is want of memory.
pub fn worst_slack<A: Rows + Delayed>(
    alloc: Global,
    store: &Store,
    graph: &Graph,
    arrivals: &A,
    tree: &ClockTree,
    endpoint: &Name,
    kind: Kind,
) -> Result<Option<Fs>, Memory>
    requires graph { graph.now.stored ≡ store.now }
    requires sound { IsSound store.now.design }
    requires none { NoOrigin store.now.design }
    requires rows { AreRows store.now (A.rows arrivals.now) }
    requires delays { AreDelays store.now (A.delays arrivals.now) }
    requires tree { IsClockTree graph.now tree.now }
    requires endpoint { Contains (endpoints store.now.design) endpoint.now }
    ensures { IfOk result
        (λ slack. IsSlack store.now.design kind endpoint.now (option_map (λ s. s.0) slack)) }
{
    let sources = Sources {
        store,
        graph,
        arrivals,
        tree,
        kind,
    };
    let ends = end_nodes(store, graph, endpoint);
    pin_slack(alloc, &sources, endpoint, ends)
}

/// The slacks of an endpoint for tests of both kinds, each as `worst_slack` has it. The one error is
/// want of memory.
pub fn worst_slacks<A: Rows + Delayed>(
    alloc: Global,
    store: &Store,
    graph: &Graph,
    arrivals: &A,
    tree: &ClockTree,
    endpoint: &Name,
) -> Result<EndpointSlacks, Memory>
    requires graph { graph.now.stored ≡ store.now }
    requires sound { IsSound store.now.design }
    requires none { NoOrigin store.now.design }
    requires rows { AreRows store.now (A.rows arrivals.now) }
    requires delays { AreDelays store.now (A.delays arrivals.now) }
    requires tree { IsClockTree graph.now tree.now }
    requires endpoint { Contains (endpoints store.now.design) endpoint.now }
    ensures setup { IfOk result
        (λ slacks. IsSlack store.now.design Kind.Setup endpoint.now
        (option_map (λ s. s.0) slacks.setup)) }
    ensures hold { IfOk result
        (λ slacks. IsSlack store.now.design Kind.Hold endpoint.now
        (option_map (λ s. s.0) slacks.hold)) }
{
    let ends = end_nodes(store, graph, endpoint);
    let late = Sources {
        store,
        graph,
        arrivals,
        tree,
        kind: Kind::Setup,
    };
    let early = Sources {
        store,
        graph,
        arrivals,
        tree,
        kind: Kind::Hold,
    };
    let setup = pin_slack(alloc, &late, endpoint, ends)?;
    let hold = pin_slack(alloc, &early, endpoint, ends)?;
    Ok(EndpointSlacks { setup, hold })
}

/// The worst path to an endpoint for a kind of tests: of least slack over all paths to it that are
/// tested, and of those the first by its nodes; none where there is no such path. Times, slack and credit
/// are in fs. Takes the time of the search for the least slack, and of the nodes of the walks that have it:
/// of the arcs into these, of sorting them and of the launches among them times the tests of the endpoint, and
/// a list of the nodes of a path for each launch of least slack. The one error is want of memory.
pub fn worst_path<A: Rows + Delayed>(
    alloc: Global,
    store: &Store,
    graph: &Graph,
    arrivals: &A,
    tree: &ClockTree,
    endpoint: &Name,
    kind: Kind,
) -> Result<Option<Path>, Memory>
    requires graph { graph.now.stored ≡ store.now }
    requires sound { IsSound store.now.design }
    requires none { NoOrigin store.now.design }
    requires rows { AreRows store.now (A.rows arrivals.now) }
    requires delays { AreDelays store.now (A.delays arrivals.now) }
    requires tree { IsClockTree graph.now tree.now }
    requires endpoint { Contains (endpoints store.now.design) endpoint.now }
    ensures { IfOk result (IsShown store.now.design kind endpoint.now) }
{
    let sources = Sources {
        store,
        graph,
        arrivals,
        tree,
        kind,
    };
    let ends = end_nodes(store, graph, endpoint);
    let found = near_ends(alloc, &sources, ends)?;
    slack_law(store, graph, kind, endpoint, ends, least_of(&found));
    match found {
        None => Ok(None),
        Some(near) => {
            let path = shown_near(alloc, &sources, endpoint, ends, &near)?;
            Ok(Some(path))
        }
    }
}
