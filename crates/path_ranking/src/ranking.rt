//! The first walks of an endpoint's cone, and the paths that are read off them.

ghost use Rattle.std.specs.Prelude.{◌≡◌, All, Contains, IfOk};
ghost use Rattle.timing_rules.specs.Checks.{IsSound};
ghost use Rattle.timing_rules.specs.Range.{NoOrigin};
ghost use Rattle.timing_defs.specs.Firsts.{AreFirst};
ghost use Rattle.timing_rules.specs.Ranking.{AreWorstPaths};
ghost use Rattle.timing_rules.specs.Reports.{endpoints};
ghost use Rattle.arc_delays.specs.Delays.{AreDelays};
ghost use Rattle.pin_graph.specs.RowTables.{AreRows};
ghost use Rattle.worst_walks.specs.Walks.{comes_before, IsWalk};
ghost use Rattle.path_search.specs.PinCones.{IsPinCone};
ghost use Rattle.path_search.specs.Ranks.{place_rank, places_before};
ghost use Rattle.path_search.specs.Sources.{AreSources};
ghost use Rattle.path_search.specs.Tested.{AreTested};
ghost use Rattle.path_search.specs.Trees.{IsClockTree};
ghost use Rattle.path_ranking.specs.WalkLists.{ArePathsOf};

use arc_delays::Delayed;
use netlist_store::Store;
use path_search::{
    ByName, PinCone, Sources, Tested, find_tests, path_of_tested, pin_cone, search_laws,
    walk_path_laws,
};
use pessimism_credit::ClockTree;
use pin_graph::Graph;
use ranked_walks::ranked_walks;
use sta_units::Memory;
use std::alloc::Global;
use timing_defs::{Items, Kind, Name, Path, Rows};
use worst_walks::Walk;

/// The first walks of a cone, at most so many, in the order of slack and of the names of pins.
fn first_walks(
    alloc: Global,
    store: &Store,
    graph: &Graph,
    kind: Kind,
    endpoint: &Name,
    search: &PinCone,
    count: u32,
) -> Result<Items<Walk>, Memory>
    requires graph { graph.now.stored ≡ store.now }
    requires search { IsPinCone graph.now kind endpoint.now search.now }
    ensures { IfOk result
        (AreFirst
        (comes_before (place_rank store.now search.now.nodes)
        (places_before graph.now search.now.nodes)) count (IsWalk search.now.cone)) }
{
    search_laws(store, graph, kind, endpoint, search);
    let order = ByName {
        store,
        graph,
        nodes: search.nodes.as_slice(),
    };
    ranked_walks(alloc, &search.cone, &order, count)
}

/// The paths of some walks of a cone, one by one.
fn paths_of<A: Rows + Delayed>(
    alloc: Global,
    sources: &Sources<'_, A>,
    tests: &Tested,
    endpoint: &Name,
    search: &PinCone,
    walks: &[Walk],
) -> Result<Items<Path>, Memory>
    requires sources { AreSources sources.now.store.now sources.now.graph.now
        (A.rows sources.now.arrivals.now) (A.delays sources.now.arrivals.now) sources.now.tree.now }
    requires tests { AreTested sources.now.graph.now sources.now.kind tests.now }
    requires search { IsPinCone sources.now.graph.now sources.now.kind endpoint.now search.now }
    requires walks { All (IsWalk search.now.cone) walks.now }
    ensures { IfOk result
        (ArePathsOf sources.now.graph.now sources.now.kind endpoint.now search.now walks.now) }
{
    let mut paths = Items::with_room(alloc, walks.len())?;
    for walk in walks {
        let path = path_of_tested(alloc, sources, tests, endpoint, search, walk)?;
        paths.push(path)?;
    }
    Ok(paths)
}

/// The worst paths that a cone has, at most so many.
#[tactic(auto, using(crate::proofs::RankedPaths::worst_paths, crate::proofs::FirstLaws::first_are))]
fn ranked_in<A: Rows + Delayed>(
    alloc: Global,
    sources: &Sources<'_, A>,
    tests: &Tested,
    endpoint: &Name,
    search: &PinCone,
    count: u32,
) -> Result<Items<Path>, Memory>
    requires sources { AreSources sources.now.store.now sources.now.graph.now
        (A.rows sources.now.arrivals.now) (A.delays sources.now.arrivals.now) sources.now.tree.now }
    requires tests { AreTested sources.now.graph.now sources.now.kind tests.now }
    requires search { IsPinCone sources.now.graph.now sources.now.kind endpoint.now search.now }
    ensures { IfOk result
        (AreWorstPaths sources.now.store.now.design sources.now.kind endpoint.now count) }
{
    let Sources {
        store,
        graph,
        kind,
        ..
    } = *sources;
    walk_path_laws(store, graph, kind, endpoint, search);
    let walks = first_walks(alloc, store, graph, kind, endpoint, search, count)?;
    paths_of(alloc, sources, tests, endpoint, search, walks.as_slice())
}

/// The worst paths to an endpoint for a kind of tests, at most `k`, worst first: ordered by slack (the least over a path's tests)
/// and then by their nodes, each with its slack, credit, edges and times in fs; fewer than `k` exactly where fewer paths
/// are tested. Takes the time of the endpoint's fan-in once, and for each path given its length and the arcs beside it. The
/// one error is want of memory.
pub fn k_worst<A: Rows + Delayed>(
    alloc: Global,
    store: &Store,
    graph: &Graph,
    arrivals: &A,
    tree: &ClockTree,
    endpoint: &Name,
    kind: Kind,
    k: u32,
) -> Result<Items<Path>, Memory>
    requires graph { graph.now.stored ≡ store.now }
    requires sound { IsSound store.now.design }
    requires none { NoOrigin store.now.design }
    requires rows { AreRows store.now (A.rows arrivals.now) }
    requires delays { AreDelays store.now (A.delays arrivals.now) }
    requires tree { IsClockTree graph.now tree.now }
    requires endpoint { Contains (endpoints store.now.design) endpoint.now }
    ensures { IfOk result (AreWorstPaths store.now.design kind endpoint.now k) }
{
    let sources = Sources {
        store,
        graph,
        arrivals,
        tree,
        kind,
    };
    let search = pin_cone(alloc, &sources, endpoint)?;
    let tests = find_tests(alloc, &sources, endpoint)?;
    ranked_in(alloc, &sources, &tests, endpoint, &search, k)
}
