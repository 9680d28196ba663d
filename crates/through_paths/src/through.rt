//! The worst walk of an endpoint's cone that passes given pins, and the path that is read off it.

ghost use Rattle.std.specs.Prelude.{◌≡◌, ◌<◌, ◌^◌, Contains, None, Some, length, map, IfOk};
ghost use Rattle.timing_rules.specs.Checks.{IsSound};
ghost use Rattle.timing_rules.specs.Range.{NoOrigin};
ghost use Rattle.timing_rules.specs.Reports.{endpoints};
ghost use Rattle.timing_rules.specs.Through.{IsThrough};
ghost use Rattle.arc_delays.specs.Delays.{AreDelays};
ghost use Rattle.pin_graph.specs.RowTables.{AreRows};
ghost use Rattle.path_search.specs.PinCones.{IsPinCone};
ghost use Rattle.path_search.specs.Sources.{AreSources};
ghost use Rattle.path_search.specs.Trees.{IsClockTree};
ghost use Rattle.through_paths.specs.Passing.{IsThroughFound};

use crate::begun::{begun_in, wanted_pins};
use crate::stops::stops_of;
use arc_delays::Delayed;
use netlist_store::Store;
use path_search::{ByName, PinCone, Sources, path_of, pin_cone, walk_path_laws, walk_place_laws};
use pessimism_credit::ClockTree;
use pin_graph::Graph;
use sta_units::Memory;
use std::alloc::Global;
use through_walks::through_walk;
use timing_defs::{Items, Kind, Name, Path, Rows};
use worst_walks::Walk;

/// The most pins that a path is asked to pass.
const MOST_PINS: usize = 1 << 22;

/// The worst walk of a cone that passes the pins in their order, in the order of the names of pins.
fn walk_through(
    alloc: Global,
    store: &Store,
    graph: &Graph,
    kind: Kind,
    endpoint: &Name,
    search: &PinCone,
    pins: &[Name],
) -> Result<Option<Walk>, Memory>
    requires graph { graph.now.stored ≡ store.now }
    requires search { IsPinCone graph.now kind endpoint.now search.now }
    requires few { length pins.now < 2 ^ 31 }
    ensures { IfOk result (IsThroughFound graph.now search.now pins.now) }
{
    store.laws();
    walk_place_laws(store, graph, kind, endpoint, search);
    let order = ByName {
        store,
        graph,
        nodes: search.nodes.as_slice(),
    };
    let wanted = wanted_pins(alloc, store, pins)?;
    let stops = stops_of(alloc, graph, order.nodes, pins)?;
    let begun = begun_in(alloc, &order, &search.cone, wanted.as_slice())?;
    through_walk(alloc, &search.cone, &order, stops.as_slice(), &begun)
}

/// The worst path of a cone that passes the pins.
fn through_in<A: Rows + Delayed>(
    alloc: Global,
    sources: &Sources<'_, A>,
    endpoint: &Name,
    search: &PinCone,
    pins: &[Name],
) -> Result<Option<Path>, Memory>
    requires sources { AreSources sources.now.store.now sources.now.graph.now
        (A.rows sources.now.arrivals.now) (A.delays sources.now.arrivals.now) sources.now.tree.now }
    requires search { IsPinCone sources.now.graph.now sources.now.kind endpoint.now search.now }
    ensures { IfOk result
        (IsThrough sources.now.store.now.design sources.now.kind endpoint.now pins.now) }
{
    if MOST_PINS < pins.len() {
        return Err(Memory);
    }
    let Sources {
        store,
        graph,
        kind,
        ..
    } = *sources;
    store.laws();
    walk_path_laws(store, graph, kind, endpoint, search);
    walk_place_laws(store, graph, kind, endpoint, search);
    match walk_through(alloc, store, graph, kind, endpoint, search, pins)? {
        None => Ok(None),
        Some(walk) => {
            let path = path_of(alloc, sources, endpoint, search, &walk)?;
            Ok(Some(path))
        }
    }
}

/// The worst path to an endpoint for a kind of tests that passes these pins, each behind the one before: of least slack
/// over all tested paths to it that pass them, and of those the first by its nodes; none where there is no such path. Times,
/// slack and credit are in fs. Takes the time of the arcs of the endpoint's fan-in times the pins, and of sorting its nodes. The
/// one error is want of memory, which is also told of more than `2^22` pins and of a fan-in of which nodes times pins
/// come to 8,000,000, as those of no design within its limits and 16 pins do.
pub fn worst_through<A: Rows + Delayed>(
    alloc: Global,
    store: &Store,
    graph: &Graph,
    arrivals: &A,
    tree: &ClockTree,
    endpoint: &Name,
    kind: Kind,
    pins: &Items<Name>,
) -> Result<Option<Path>, Memory>
    requires graph { graph.now.stored ≡ store.now }
    requires sound { IsSound store.now.design }
    requires none { NoOrigin store.now.design }
    requires rows { AreRows store.now (A.rows arrivals.now) }
    requires delays { AreDelays store.now (A.delays arrivals.now) }
    requires tree { IsClockTree graph.now tree.now }
    requires endpoint { Contains (endpoints store.now.design) endpoint.now }
    ensures { IfOk result (IsThrough store.now.design kind endpoint.now pins.now) }
{
    let sources = Sources {
        store,
        graph,
        arrivals,
        tree,
        kind,
    };
    let search = pin_cone(alloc, &sources, endpoint)?;
    through_in(alloc, &sources, endpoint, &search, pins.as_slice())
}
