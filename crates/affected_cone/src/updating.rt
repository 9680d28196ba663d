//! The parts of an analysis after an ECO, from those before it: arrivals, then required times, then the clock
//! tree, then the slacks of endpoints.

ghost use Rattle.std.specs.Prelude.{◌≡◌, ◌+◌, ◌≤◌, IfOk, IfErr, OnOk};
ghost use Rattle.timing_rules.specs.Checks.{IsSound};
ghost use Rattle.timing_rules.specs.Range.{NoOrigin};
ghost use Rattle.timing_rules.specs.Cones.{row_differs, forward_count, backward_count};
ghost use Rattle.netlist_store.specs.Applying.{IsEditOf};
ghost use Rattle.pin_graph.specs.RowTables.{AreRowsFine, IsRangeFault};
ghost use Rattle.path_search.specs.Trees.{IsClockTree};
ghost use Rattle.required_engine.specs.Updated.{AreThose, touch_of};
ghost use Rattle.level_workers.specs.Mapped.{IsMap};
ghost use Rattle.pin_graph.specs.Seeds.{AreSeeds};
ghost use Rattle.affected_cone.specs.Analysed.{ends_of, IsEnd, IsSearch};
ghost use Rattle.affected_cone.specs.Found.{AreArrivals, AreRequired, IsFound};
ghost use Rattle.affected_cone.specs.Updated.{IsBase, IsReach};

use crate::end_updates::ends_after;
use crate::ends::{EndSlacks, Search};
use crate::found::Found;
use crate::trees::{keeps_network, shared_tree};
use arrival_engine::Arrivals;
use cow_table::Held;
use edit_reach::nodes_behind;
use indexmap::IndexSet;
use netlist_store::{Store, Touched};
use pessimism_credit::ClockTree;
use pin_graph::{Graph, seeds};
use required_engine::Required;
use sta_outside::Gate;
use sta_units::{Memory, Steps};
use std::alloc::Global;
use std::thread::Threads;
use timing_defs::{Fault, Items};

/// The analysis that an update begins with.
#[derive(Drop)]
pub(crate) struct Base<'a> {
    pub(crate) graph: &'a Graph,
    pub(crate) arrivals: &'a Arrivals,
    pub(crate) required: &'a Required,
    pub(crate) tree: &'a Held<ClockTree>,
    pub(crate) ends: &'a [EndSlacks],
}

/// Where an ECO begins to change the analysis, and all nodes to which walks lead from there.
#[derive(Drop)]
pub(crate) struct Reach {
    pub(crate) seeds: Items<u32>,
    pub(crate) nodes: IndexSet<u32>,
}

/// The nodes behind seeds, with the seeds.
fn reach_from(
    alloc: Global,
    base: &Graph,
    graph: &Graph,
    touched: &Touched,
    seeds: Items<u32>,
) -> Result<Reach, Memory>
    requires seeds { AreSeeds base.now.stored graph.now.stored (touch_of touched.now) seeds }
    ensures { IfOk result (IsReach base.now.stored graph.now (touch_of touched.now)) }
{
    // The base and what was touched are asked for by the contract alone.
    let _ = base;
    let _ = touched;
    match nodes_behind(alloc, graph, seeds.as_slice()) {
        Ok(nodes) => Ok(Reach { seeds, nodes }),
        Err(wanting) => {
            drop(seeds);
            Err(wanting)
        }
    }
}

/// Where an ECO begins to change the analysis, and all that lies behind.
fn reach_of(alloc: Global, base: &Graph, graph: &Graph, touched: &Touched) -> Result<Reach, Memory>
    requires made { IsEditOf base.now.stored (touch_of touched.now) graph.now.stored }
    ensures { IfOk result (IsReach base.now.stored graph.now (touch_of touched.now)) }
{
    let seeds = seeds(alloc, base, graph, touched)?;
    reach_from(alloc, base, graph, touched, seeds)
}

/// The nodes whose slews or arrivals are others than the base's.
fn changed(
    alloc: Global,
    base: &Base<'_>,
    graph: &Graph,
    touched: &Touched,
    arrivals: &Arrivals,
    reach: &Reach,
) -> Result<Items<u32>, Memory>
    requires base { IsBase base.now }
    requires made { IsEditOf base.now.graph.now.stored (touch_of touched.now) graph.now.stored }
    requires arrivals { AreArrivals graph.now.stored arrivals.now }
    requires reach { IsReach base.now.graph.now.stored graph.now (touch_of touched.now) reach.now }
    ensures { IfOk result
        (AreThose graph.now.stored
        (row_differs base.now.graph.now.stored.design graph.now.stored.design)) }
{
    base.graph.laws();
    graph.laws();
    base.graph.store().laws();
    graph.store().laws();
    arrivals.moved(
        alloc,
        base.arrivals,
        base.graph,
        graph,
        touched,
        reach.nodes.as_slice(),
    )
}

/// The required times after an ECO.
fn required_after<H: Threads + Sync, G: Gate, L>(
    rt: &H,
    alloc: Global,
    base: &Base<'_>,
    store: &Store,
    graph: &Graph,
    touched: &Touched,
    arrivals: &Arrivals,
    reach: &Reach,
    workers: u32,
    gate: &G,
    steps: &mut Steps<L>,
) -> Result<Required, Fault>
    requires some { 1 ≤ workers }
    requires most { workers ≤ 32 }
    requires sound { IsSound store.now.design }
    requires graph { graph.now.stored ≡ store.now }
    requires base { IsBase base.now }
    requires made { IsEditOf base.now.graph.now.stored (touch_of touched.now) store.now }
    requires arrivals { AreArrivals store.now arrivals.now }
    requires fine { AreRowsFine store.now.design }
    requires reach { IsReach base.now.graph.now.stored graph.now (touch_of touched.now) reach.now }
    ensures required { IfOk result (λ required. AreRequired store.now required.rows) }
    ensures fine { OnOk result (NoOrigin store.now.design) }
    ensures least { steps.old ≤ steps.new }
    ensures steps { steps.new ≤ steps.old + backward_count base.now.graph.now.stored.design
        store.now.design (touch_of touched.now) }
    ensures exact { OnOk result
        (steps.new
        ≡ steps.old + backward_count base.now.graph.now.stored.design store.now.design
        (touch_of touched.now)) }
    ensures refused { IfErr result (IsRangeFault store.now.design) }
{
    let changed = changed(alloc, base, graph, touched, arrivals, reach)?;
    let seeds = reach.seeds.as_slice();
    let moved = changed.as_slice();
    let required = base.required.update(
        rt, alloc, base.graph, store, graph, touched, arrivals, seeds, moved, workers, gate, steps,
    );
    drop(changed);
    required
}

/// The slacks of endpoints after an ECO.
fn ends_renewed<H: Threads + Sync>(
    rt: &H,
    alloc: Global,
    base: &Base<'_>,
    search: &Search<'_>,
    touched: &Touched,
    reach: &Reach,
) -> Result<Items<EndSlacks>, Memory>
    requires base { IsBase base.now }
    requires search { IsSearch search.now }
    requires made { IsEditOf base.now.graph.now.stored (touch_of touched.now) search.now.store.now }
    requires reach { IsReach base.now.graph.now.stored search.now.graph.now (touch_of touched.now)
        reach.now }
    ensures { IfOk result (IsMap (IsEnd search.now.store.now) (ends_of search.now.store.now)) }
{
    base.graph.store().laws();
    ends_after(
        rt,
        alloc,
        base,
        search,
        touched,
        reach.seeds.as_slice(),
        reach.nodes.as_slice(),
    )
}

/// The clock tree after an ECO: that of the base where the ECO leaves the clock network and reaches none of its
/// nodes, else a new one.
fn tree_after(
    alloc: Global,
    base: &Base<'_>,
    store: &Store,
    graph: &Graph,
    touched: &Touched,
    reach: &Reach,
    arrivals: &Arrivals,
) -> Result<Held<ClockTree>, Memory>
    requires graph { graph.now.stored ≡ store.now }
    requires range { AreRowsFine store.now.design }
    requires base { IsBase base.now }
    requires made { IsEditOf base.now.graph.now.stored (touch_of touched.now) store.now }
    requires reach { IsReach base.now.graph.now.stored graph.now (touch_of touched.now) reach.now }
    requires arrivals { AreArrivals store.now arrivals.now }
    ensures { IfOk result (IsClockTree graph.now) }
{
    // What was touched is asked for by the contract alone.
    let _ = touched;
    base.graph.laws();
    graph.laws();
    base.graph.store().laws();
    graph.store().laws();
    if keeps_network(base.graph, graph, reach.nodes.as_slice()) {
        return base.tree.share();
    }
    shared_tree(alloc, store, graph, arrivals)
}

/// What is found after an ECO, from arrivals, required times and clock tree on.
fn with_tree<H: Threads + Sync>(
    rt: &H,
    alloc: Global,
    base: &Base<'_>,
    store: &Store,
    graph: &Graph,
    touched: &Touched,
    reach: &Reach,
    arrivals: Arrivals,
    required: Required,
    tree: Held<ClockTree>,
) -> Result<Found, Memory>
    requires sound { IsSound store.now.design }
    requires graph { graph.now.stored ≡ store.now }
    requires fine { NoOrigin store.now.design }
    requires base { IsBase base.now }
    requires made { IsEditOf base.now.graph.now.stored (touch_of touched.now) store.now }
    requires reach { IsReach base.now.graph.now.stored graph.now (touch_of touched.now) reach.now }
    requires arrivals { AreArrivals store.now arrivals }
    requires required { AreRequired store.now required.rows }
    requires tree { IsClockTree graph.now tree }
    ensures { IfOk result (IsFound store.now graph.now) }
{
    let search = Search {
        store,
        graph,
        arrivals: &arrivals,
        tree: tree.get(),
    };
    match ends_renewed(rt, alloc, base, &search, touched, reach) {
        Ok(ends) => Ok(Found {
            arrivals,
            required,
            tree,
            ends,
        }),
        Err(wanting) => {
            drop(arrivals);
            drop(required);
            tree.discard();
            Err(wanting)
        }
    }
}

/// What is found after an ECO, from arrivals and required times on.
fn with_required<H: Threads + Sync>(
    rt: &H,
    alloc: Global,
    base: &Base<'_>,
    store: &Store,
    graph: &Graph,
    touched: &Touched,
    reach: &Reach,
    arrivals: Arrivals,
    required: Required,
) -> Result<Found, Memory>
    requires sound { IsSound store.now.design }
    requires graph { graph.now.stored ≡ store.now }
    requires range { AreRowsFine store.now.design }
    requires fine { NoOrigin store.now.design }
    requires base { IsBase base.now }
    requires made { IsEditOf base.now.graph.now.stored (touch_of touched.now) store.now }
    requires reach { IsReach base.now.graph.now.stored graph.now (touch_of touched.now) reach.now }
    requires arrivals { AreArrivals store.now arrivals }
    requires required { AreRequired store.now required.rows }
    ensures { IfOk result (IsFound store.now graph.now) }
{
    match tree_after(alloc, base, store, graph, touched, reach, &arrivals) {
        Ok(tree) => with_tree(
            rt, alloc, base, store, graph, touched, reach, arrivals, required, tree,
        ),
        Err(wanting) => {
            drop(arrivals);
            drop(required);
            Err(wanting)
        }
    }
}

/// What is found after an ECO, from arrivals on.
fn with_arrivals<H: Threads + Sync, G: Gate, L>(
    rt: &H,
    alloc: Global,
    base: &Base<'_>,
    store: &Store,
    graph: &Graph,
    touched: &Touched,
    reach: &Reach,
    arrivals: Arrivals,
    workers: u32,
    gate: &G,
    steps: &mut Steps<L>,
) -> Result<Found, Fault>
    requires some { 1 ≤ workers }
    requires most { workers ≤ 32 }
    requires sound { IsSound store.now.design }
    requires graph { graph.now.stored ≡ store.now }
    requires base { IsBase base.now }
    requires made { IsEditOf base.now.graph.now.stored (touch_of touched.now) store.now }
    requires reach { IsReach base.now.graph.now.stored graph.now (touch_of touched.now) reach.now }
    requires arrivals { AreArrivals store.now arrivals }
    requires fine { AreRowsFine store.now.design }
    ensures found { IfOk result (IsFound store.now graph.now) }
    ensures least { steps.old ≤ steps.new }
    ensures steps { steps.new ≤ steps.old + backward_count base.now.graph.now.stored.design
        store.now.design (touch_of touched.now) }
    ensures exact { OnOk result
        (steps.new
        ≡ steps.old + backward_count base.now.graph.now.stored.design store.now.design
        (touch_of touched.now)) }
    ensures refused { IfErr result (IsRangeFault store.now.design) }
{
    match required_after(
        rt, alloc, base, store, graph, touched, &arrivals, reach, workers, gate, steps,
    ) {
        Ok(required) => {
            let found = with_required(
                rt, alloc, base, store, graph, touched, reach, arrivals, required,
            )?;
            Ok(found)
        }
        Err(fault) => {
            drop(arrivals);
            Err(fault)
        }
    }
}

/// What is found after an ECO, by where it begins and all that lies behind.
fn find_behind<H: Threads + Sync, G: Gate, L>(
    rt: &H,
    alloc: Global,
    base: &Base<'_>,
    store: &Store,
    graph: &Graph,
    touched: &Touched,
    reach: &Reach,
    workers: u32,
    gate: &G,
    steps: &mut Steps<L>,
) -> Result<Found, Fault>
    requires some { 1 ≤ workers }
    requires most { workers ≤ 32 }
    requires sound { IsSound store.now.design }
    requires graph { graph.now.stored ≡ store.now }
    requires base { IsBase base.now }
    requires made { IsEditOf base.now.graph.now.stored (touch_of touched.now) store.now }
    requires reach { IsReach base.now.graph.now.stored graph.now (touch_of touched.now) reach.now }
    ensures found { IfOk result (IsFound store.now graph.now) }
    ensures least { OnOk result
        (steps.old + forward_count base.now.graph.now.stored.design store.now.design
        (touch_of touched.now) ≤ steps.new) }
    ensures rises { steps.old ≤ steps.new }
    ensures steps { steps.new ≤ steps.old + forward_count base.now.graph.now.stored.design
        store.now.design (touch_of touched.now) + backward_count base.now.graph.now.stored.design
        store.now.design (touch_of touched.now) }
    ensures exact { OnOk result
        (steps.new
        ≡ steps.old + forward_count base.now.graph.now.stored.design store.now.design
        (touch_of touched.now) + backward_count base.now.graph.now.stored.design store.now.design
        (touch_of touched.now)) }
    ensures refused { IfErr result (IsRangeFault store.now.design) }
{
    let seeds = reach.seeds.as_slice();
    let arrivals = base.arrivals.update(
        rt, alloc, base.graph, store, graph, touched, seeds, workers, gate, steps,
    )?;
    with_arrivals(
        rt, alloc, base, store, graph, touched, reach, arrivals, workers, gate, steps,
    )
}

/// What is found of the store that an ECO made of a base, by that many threads.
pub(crate) fn find_after<H: Threads + Sync, G: Gate, L>(
    rt: &H,
    alloc: Global,
    base: &Base<'_>,
    store: &Store,
    graph: &Graph,
    touched: &Touched,
    workers: u32,
    gate: &G,
    steps: &mut Steps<L>,
) -> Result<Found, Fault>
    requires some { 1 ≤ workers }
    requires most { workers ≤ 32 }
    requires sound { IsSound store.now.design }
    requires graph { graph.now.stored ≡ store.now }
    requires base { IsBase base.now }
    requires made { IsEditOf base.now.graph.now.stored (touch_of touched.now) store.now }
    ensures found { IfOk result (IsFound store.now graph.now) }
    ensures least { OnOk result
        (steps.old + forward_count base.now.graph.now.stored.design store.now.design
        (touch_of touched.now) ≤ steps.new) }
    ensures rises { steps.old ≤ steps.new }
    ensures steps { steps.new ≤ steps.old + forward_count base.now.graph.now.stored.design
        store.now.design (touch_of touched.now) + backward_count base.now.graph.now.stored.design
        store.now.design (touch_of touched.now) }
    ensures exact { OnOk result
        (steps.new
        ≡ steps.old + forward_count base.now.graph.now.stored.design store.now.design
        (touch_of touched.now) + backward_count base.now.graph.now.stored.design store.now.design
        (touch_of touched.now)) }
    ensures refused { IfErr result (IsRangeFault store.now.design) }
{
    let reach = reach_of(alloc, base.graph, graph, touched)?;
    let found = find_behind(
        rt, alloc, base, store, graph, touched, &reach, workers, gate, steps,
    );
    drop(reach);
    found
}
