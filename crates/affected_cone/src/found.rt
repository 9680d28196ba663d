//! The parts of a full analysis: arrivals, then required times, then the clock tree, then the slacks of
//! endpoints.

ghost use Rattle.std.specs.Prelude.{◌≡◌, ◌≤◌, IfOk, IfErr};
ghost use Rattle.timing_rules.specs.Checks.{IsSound};
ghost use Rattle.timing_rules.specs.Range.{NoOrigin};
ghost use Rattle.level_workers.specs.Mapped.{IsMap};
ghost use Rattle.pin_graph.specs.RowTables.{AreRowsFine, IsRangeFault};
ghost use Rattle.path_search.specs.Trees.{IsClockTree};
ghost use Rattle.affected_cone.specs.Analysed.{ends_of, IsEnd, IsSearch};
ghost use Rattle.affected_cone.specs.Found.{AreArrivals, AreRequired, IsFound};

use crate::ends::{EndSlacks, Search, all_ends, slacks_of};
use crate::trees::shared_tree;
use arrival_engine::Arrivals;
use cow_table::Held;
use netlist_store::Store;
use pessimism_credit::ClockTree;
use pin_graph::Graph;
use required_engine::Required;
use sta_outside::Gate;
use sta_units::Memory;
use std::alloc::Global;
use std::thread::Threads;
use timing_defs::{Fault, Items};

/// What is found of a store, beside its graph.
#[derive(Drop)]
pub(crate) struct Found {
    pub(crate) arrivals: Arrivals,
    pub(crate) required: Required,
    pub(crate) tree: Held<ClockTree>,
    pub(crate) ends: Items<EndSlacks>,
}

/// The slacks of all endpoints.
fn all_slacks<H: Threads + Sync>(
    rt: &H,
    alloc: Global,
    search: &Search<'_>,
) -> Result<Items<EndSlacks>, Memory>
    requires search { IsSearch search.now }
    ensures { IfOk result (IsMap (IsEnd search.now.store.now) (ends_of search.now.store.now)) }
{
    let ends = all_ends(alloc, search.store)?;
    let slacks = slacks_of(rt, alloc, search, ends.as_slice());
    drop(ends);
    slacks
}

/// The slacks of all endpoints, by arrivals and clock tree.
fn slacks_over<H: Threads + Sync>(
    rt: &H,
    alloc: Global,
    store: &Store,
    graph: &Graph,
    arrivals: &Arrivals,
    tree: &ClockTree,
) -> Result<Items<EndSlacks>, Memory>
    requires sound { IsSound store.now.design }
    requires graph { graph.now.stored ≡ store.now }
    requires fine { NoOrigin store.now.design }
    requires arrivals { AreArrivals store.now arrivals.now }
    requires tree { IsClockTree graph.now tree.now }
    ensures { IfOk result (IsMap (IsEnd store.now) (ends_of store.now)) }
{
    let search = Search {
        store,
        graph,
        arrivals,
        tree,
    };
    all_slacks(rt, alloc, &search)
}

/// What is found, from arrivals, required times and clock tree on.
fn with_tree<H: Threads + Sync>(
    rt: &H,
    alloc: Global,
    store: &Store,
    graph: &Graph,
    arrivals: Arrivals,
    required: Required,
    tree: Held<ClockTree>,
) -> Result<Found, Memory>
    requires sound { IsSound store.now.design }
    requires graph { graph.now.stored ≡ store.now }
    requires fine { NoOrigin store.now.design }
    requires arrivals { AreArrivals store.now arrivals }
    requires required { AreRequired store.now required.rows }
    requires tree { IsClockTree graph.now tree }
    ensures { IfOk result (IsFound store.now graph.now) }
{
    match slacks_over(rt, alloc, store, graph, &arrivals, tree.get()) {
        Ok(ends) => Ok(Found {
            arrivals,
            required,
            tree,
            ends,
        }),
        Err(wanting) => {
            drop(arrivals);
            drop(required);
            tree.discard();
            Err(wanting)
        }
    }
}

/// What is found, from arrivals and required times on.
fn with_required<H: Threads + Sync>(
    rt: &H,
    alloc: Global,
    store: &Store,
    graph: &Graph,
    arrivals: Arrivals,
    required: Required,
) -> Result<Found, Memory>
    requires sound { IsSound store.now.design }
    requires graph { graph.now.stored ≡ store.now }
    requires range { AreRowsFine store.now.design }
    requires fine { NoOrigin store.now.design }
    requires arrivals { AreArrivals store.now arrivals }
    requires required { AreRequired store.now required.rows }
    ensures { IfOk result (IsFound store.now graph.now) }
{
    match shared_tree(alloc, store, graph, &arrivals) {
        Ok(tree) => with_tree(rt, alloc, store, graph, arrivals, required, tree),
        Err(wanting) => {
            drop(arrivals);
            drop(required);
            Err(wanting)
        }
    }
}

/// What is found, from arrivals on.
fn with_arrivals<H: Threads + Sync, G: Gate>(
    rt: &H,
    alloc: Global,
    store: &Store,
    graph: &Graph,
    workers: u32,
    gate: &G,
    arrivals: Arrivals,
) -> Result<Found, Fault>
    requires some { 1 ≤ workers }
    requires most { workers ≤ 32 }
    requires sound { IsSound store.now.design }
    requires graph { graph.now.stored ≡ store.now }
    requires arrivals { AreArrivals store.now arrivals }
    requires fine { AreRowsFine store.now.design }
    ensures found { IfOk result (IsFound store.now graph.now) }
    ensures refused { IfErr result (IsRangeFault store.now.design) }
{
    match Required::full(rt, alloc, store, graph, &arrivals, workers, gate) {
        Ok(required) => {
            let found = with_required(rt, alloc, store, graph, arrivals, required)?;
            Ok(found)
        }
        Err(fault) => {
            drop(arrivals);
            Err(fault)
        }
    }
}

/// What is found of a store by that many threads.
pub(crate) fn find_all<H: Threads + Sync, G: Gate>(
    rt: &H,
    alloc: Global,
    store: &Store,
    graph: &Graph,
    workers: u32,
    gate: &G,
) -> Result<Found, Fault>
    requires some { 1 ≤ workers }
    requires most { workers ≤ 32 }
    requires sound { IsSound store.now.design }
    requires graph { graph.now.stored ≡ store.now }
    ensures found { IfOk result (IsFound store.now graph.now) }
    ensures refused { IfErr result (IsRangeFault store.now.design) }
{
    let arrivals = Arrivals::full(rt, alloc, store, graph, workers, gate)?;
    with_arrivals(rt, alloc, store, graph, workers, gate, arrivals)
}
