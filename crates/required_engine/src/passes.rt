//! The pass over the levels of a graph, the highest first.

ghost use Rattle.std.specs.Prelude.{ℕ, ◌≡◌, ◌+◌, ◌<◌, ◌≤◌, ◌^◌, length, IfOk, IfErr, OnOk};
ghost use Rattle.level_workers.specs.Mapped.{IsMap};
ghost use Rattle.pin_graph.specs.Nodes.{node_bound};
ghost use Rattle.pin_graph.specs.Graphs.{level_at};
ghost use Rattle.pin_graph.specs.RowTables.{AreBackRows, AreBacksFine, IsRangeFault};
ghost use Rattle.required_engine.specs.Worked.{AreBacksWithin, AreFound, AreDoneFrom, AreOfLevel, AreReady, IsAnswer, IsAnswerAt};
ghost use Rattle.required_engine.specs.Leveled.{AreLevels};

use crate::nodes::{empty_back, evaluated};
use crate::ordering::by_level;
use arc_delays::Delayed;
use cow_table::CowTable;
use level_workers::{map_level, worth_threads};
use netlist_store::Store;
use pin_graph::Graph;
use sta_outside::Gate;
use sta_units::{Memory, Steps};
use std::alloc::Global;
use std::thread::Threads;
use timing_defs::{BackRow, Fault, Items, Rows};

/// The required times of a node of a level, over those of the higher ones, counted as one step. Nothing is
/// asked of other numbers.
pub(crate) fn level_answer<A: Rows + Delayed, L>(
    alloc: Global,
    store: &Store,
    graph: &Graph,
    arrivals: &A,
    rows: &CowTable<BackRow>,
    level: u32,
    node: u32,
    steps: &mut Steps<L>,
) -> Result<BackRow, Fault>
    requires graph { graph.now.stored ≡ store.now }
    requires found { AreFound store.now (A.rows arrivals.now) (A.delays arrivals.now) }
    requires done { AreDoneFrom graph.now rows.now (level + 1) }
    ensures { node < node_bound graph.now.stored → level_at graph.now node ≡ level
        → IsAnswer graph.now.stored node result × (steps.new ≡ steps.old + 1) }
{
    store.laws();
    graph.laws();
    if node >= graph.count() {
        return Ok(empty_back(alloc));
    }
    if graph.level(node) != level {
        return Ok(empty_back(alloc));
    }
    evaluated(alloc, store, graph, arrivals, rows, node, steps)
}

/// The required times of a node of a level, over those of the higher ones.
fn level_row<A: Rows + Delayed>(
    alloc: Global,
    store: &Store,
    graph: &Graph,
    arrivals: &A,
    rows: &CowTable<BackRow>,
    level: u32,
    node: u32,
) -> Result<BackRow, Fault>
    requires graph { graph.now.stored ≡ store.now }
    requires found { AreFound store.now (A.rows arrivals.now) (A.delays arrivals.now) }
    requires done { AreDoneFrom graph.now rows.now (level + 1) }
    ensures { IsAnswerAt graph.now level node result }
{
    let mut steps = Steps::<()>::none();
    level_answer(alloc, store, graph, arrivals, rows, level, node, &mut steps)
}

/// The required times of the nodes of a level, in their order, by several threads.
fn level_rows<H: Threads + Sync, A: Rows + Delayed + Sync, G: Gate>(
    rt: &H,
    alloc: Global,
    store: &Store,
    graph: &Graph,
    arrivals: &A,
    rows: &CowTable<BackRow>,
    workers: u32,
    level: u32,
    nodes: &[u32],
    gate: &G,
) -> Result<Items<Result<BackRow, Fault>>, Memory>
    requires some { 1 ≤ workers }
    requires most { workers ≤ 32 }
    requires graph { graph.now.stored ≡ store.now }
    requires found { AreFound store.now (A.rows arrivals.now) (A.delays arrivals.now) }
    requires done { AreDoneFrom graph.now rows.now (level + 1) }
    ensures { IfOk result (IsMap (IsAnswerAt graph.now level) nodes.now) }
{
    let answer = |node: &u32| -> Result<Result<BackRow, Fault>, Memory>
        requires { (graph.now.stored ≡ store.now)
            × AreFound store.now (A.rows arrivals.now) (A.delays arrivals.now)
            × AreDoneFrom graph.now rows.now (level + 1) }
        ensures { IfOk result (IsAnswerAt graph.entry.now level node.now) }
    { Ok(level_row(alloc, store, graph, arrivals, rows, level, *node)) };
    let threads = worth_threads(nodes.len(), workers);
    map_level(rt, alloc, threads, level, nodes, &answer, gate)
}

/// Writes the rows of the nodes of a level by several threads; refuses with the first fault among the
/// answers.
fn put_rows<H: Threads + Sync>(
    rt: &H,
    graph: &Graph,
    rows: &mut CowTable<BackRow>,
    workers: u32,
    level: u32,
    nodes: &[u32],
    found: Items<Result<BackRow, Fault>>,
) -> Result<(), Fault>
    requires nodes { AreOfLevel graph.now level nodes.now }
    requires found { IsMap (IsAnswerAt graph.now level) nodes.now found }
    requires done { AreDoneFrom graph.now rows.old (level + 1) }
    ensures done { OnOk result (AreDoneFrom graph.now rows.new level) }
    ensures err { IfErr result (IsRangeFault graph.now.stored.design) }
{
    // The graph and the level are asked for by the contract alone.
    let _ = graph;
    let _ = level;
    match rows.put_all(rt, workers, nodes, found.into_vec())? {
        Some(fault) => Err(fault),
        None => Ok(()),
    }
}

/// Evaluates the nodes of each level in turn, from the highest down, over the rows of the higher ones.
fn all_levels<H: Threads + Sync, A: Rows + Delayed + Sync, G: Gate>(
    rt: &H,
    alloc: Global,
    store: &Store,
    graph: &Graph,
    arrivals: &A,
    rows: &mut CowTable<BackRow>,
    workers: u32,
    levels: &[Items<u32>],
    gate: &G,
) -> Result<(), Fault>
    requires some { 1 ≤ workers }
    requires most { workers ≤ 32 }
    requires graph { graph.now.stored ≡ store.now }
    requires found { AreFound store.now (A.rows arrivals.now) (A.delays arrivals.now) }
    requires levels { AreLevels graph.now levels.now }
    requires few { length levels.now ≤ 2 ^ 32 }
    requires rows { length rows.old ≡ node_bound graph.now.stored }
    ensures done { OnOk result (AreDoneFrom graph.now rows.new 0) }
    ensures err { IfErr result (IsRangeFault graph.now.stored.design) }
{
    let mut left = levels.len();
    while left > 0 {
        left -= 1;
        let level = left as u32;
        let nodes = levels[left].as_slice();
        let found = level_rows(
            rt, alloc, store, graph, arrivals, rows, workers, level, nodes, gate,
        )?;
        put_rows(rt, graph, rows, workers, level, nodes, found)?;
    }
    Ok(())
}

/// The required times of all nodes, from nothing.
pub(crate) fn full_rows<H: Threads + Sync, A: Rows + Delayed + Sync, G: Gate>(
    rt: &H,
    alloc: Global,
    store: &Store,
    graph: &Graph,
    arrivals: &A,
    workers: u32,
    gate: &G,
) -> Result<CowTable<BackRow>, Fault>
    requires some { 1 ≤ workers }
    requires most { workers ≤ 32 }
    requires graph { graph.now.stored ≡ store.now }
    requires found { AreFound store.now (A.rows arrivals.now) (A.delays arrivals.now) }
    ensures rows { IfOk result (AreBackRows store.now) }
    ensures ready { IfOk result
        (λ rows. (node : ℕ) → node < node_bound store.now → AreReady graph.now rows node) }
    ensures fine { OnOk result (AreBacksFine store.now.design) }
    ensures within { IfOk result AreBacksWithin }
    ensures err { IfErr result (IsRangeFault store.now.design) }
{
    store.laws();
    graph.laws();
    let levels = by_level(alloc, graph)?;
    let empty = empty_back(alloc);
    let mut rows = CowTable::filled(rt, alloc, workers, graph.count() as usize, &empty)?;
    let nodes = levels.as_slice();
    all_levels(
        rt, alloc, store, graph, arrivals, &mut rows, workers, nodes, gate,
    )?;
    Ok(rows)
}
