//! The paths of an endpoint stage by stage.

ghost use Rattle.std.specs.Prelude.{Contains, IfOk};
ghost use Rattle.timing_rules.specs.Reports.{endpoints};
ghost use Rattle.timing_rules.specs.Stages.{IsTiming, IsTimingThrough};
ghost use Rattle.node_rows.specs.WireTables.{AreWires};
ghost use Rattle.path_search.specs.Sources.{AreSources};

use crate::timed::timed;
use arc_delays::Delayed;
use node_rows::Wired;
use path_search::{Sources, worst_path};
use sta_units::Memory;
use std::alloc::Global;
use through_paths::worst_through;
use timing_defs::{Items, Name, Rows, TimedPath};

/// The worst path to an endpoint for a kind of tests, as `worst_path` of `path_search` has it, stage by
/// stage, with the path of its capture clock and its required time by parts; none where no path to it is
/// tested. Times are in fs, loads in aF. Takes the time of that search, and then of the path's nodes with
/// the arcs into them and the pins on their nets, and of the tests of its last node with the walks to their
/// clock pins. The one error is want of memory.
pub fn timing<A: Rows + Delayed + Wired>(
    alloc: Global,
    sources: &Sources<'_, A>,
    endpoint: &Name,
) -> Result<Option<TimedPath>, Memory>
    requires sources { AreSources sources.now.store.now sources.now.graph.now
        (A.rows sources.now.arrivals.now) (A.delays sources.now.arrivals.now) sources.now.tree.now }
    requires wires { AreWires sources.now.store.now (A.wires sources.now.arrivals.now) }
    requires endpoint { Contains (endpoints sources.now.store.now.design) endpoint.now }
    ensures { IfOk result
        (IsTiming sources.now.store.now.design sources.now.kind endpoint.now) }
{
    let Sources {
        store,
        graph,
        arrivals,
        tree,
        kind,
    } = *sources;
    let found = worst_path(alloc, store, graph, arrivals, tree, endpoint, kind)?;
    match found {
        Some(path) => Ok(Some(timed(alloc, sources, path)?)),
        None => Ok(None),
    }
}

/// The worst path to an endpoint for a kind of tests that passes these pins, each behind the one before, as
/// `worst_through` of `through_paths` has it, in the form of `timing`; none where there is no such path. The
/// one error is want of memory, of which more pins than that search takes are told, too.
pub fn timing_through<A: Rows + Delayed + Wired>(
    alloc: Global,
    sources: &Sources<'_, A>,
    endpoint: &Name,
    pins: &Items<Name>,
) -> Result<Option<TimedPath>, Memory>
    requires sources { AreSources sources.now.store.now sources.now.graph.now
        (A.rows sources.now.arrivals.now) (A.delays sources.now.arrivals.now) sources.now.tree.now }
    requires wires { AreWires sources.now.store.now (A.wires sources.now.arrivals.now) }
    requires endpoint { Contains (endpoints sources.now.store.now.design) endpoint.now }
    ensures { IfOk result
        (IsTimingThrough sources.now.store.now.design sources.now.kind endpoint.now pins.now) }
{
    let Sources {
        store,
        graph,
        arrivals,
        tree,
        kind,
    } = *sources;
    let found = worst_through(alloc, store, graph, arrivals, tree, endpoint, kind, pins)?;
    match found {
        Some(path) => Ok(Some(timed(alloc, sources, path)?)),
        None => Ok(None),
    }
}
