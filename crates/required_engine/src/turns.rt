//! The turn of a level in an update: its nodes are evaluated, each counted as a step, and their rows written.

ghost use Rattle.std.specs.Prelude.{ℕ, ◌≡◌, ◌+◌, ◌≤◌, All, map, length, IfOk, IfErr, OnOk};
ghost use Rattle.level_workers.specs.Mapped.{IsMap};
ghost use Rattle.level_cone.specs.Cone.{put_all};
ghost use Rattle.pin_graph.specs.Nodes.{node_bound};
ghost use Rattle.pin_graph.specs.RowTables.{back_numbered, IsRangeFault};
ghost use Rattle.required_engine.specs.Worked.{AreFound, AreDoneFrom, IsCountedAt};
ghost use Rattle.required_engine.specs.Updated.{IsFineAt, IsAtLevel};

use crate::passes::level_answer;
use crate::renewing::put_row;
use arc_delays::Delayed;
use cow_table::CowTable;
use level_workers::{map_level, worth_threads};
use netlist_store::Store;
use pin_graph::Graph;
use sta_outside::Gate;
use sta_units::{Memory, Steps};
use std::alloc::Global;
use std::thread::Threads;
use timing_defs::{BackRow, Fault, Items, Rows};

/// What is answered for a node of a level, with a count of its own.
#[derive(Drop)]
pub(crate) struct Counted<L> {
    pub(crate) answer: Result<BackRow, Fault>,
    pub(crate) steps: Steps<L>,
}

/// The required times of a node of a level, with a count of its own.
fn one_counted<A: Rows + Delayed, L>(
    alloc: Global,
    store: &Store,
    graph: &Graph,
    arrivals: &A,
    rows: &CowTable<BackRow>,
    level: u32,
    node: u32,
) -> Counted<L>
    requires graph { graph.now.stored ≡ store.now }
    requires found { AreFound store.now (A.rows arrivals.now) (A.delays arrivals.now) }
    requires done { AreDoneFrom graph.now rows.now (level + 1) }
    ensures { IsCountedAt graph.now level node result }
{
    let mut steps = Steps::none();
    let answer = level_answer(alloc, store, graph, arrivals, rows, level, node, &mut steps);
    Counted { answer, steps }
}

/// The required times of the nodes of a level, in their order, by several threads, each with a count of
/// its own.
fn all_counted<H: Threads + Sync, A: Rows + Delayed + Sync, G: Gate, L>(
    rt: &H,
    alloc: Global,
    store: &Store,
    graph: &Graph,
    arrivals: &A,
    rows: &CowTable<BackRow>,
    workers: u32,
    level: u32,
    nodes: &[u32],
    gate: &G,
) -> Result<Items<Counted<L>>, Memory>
    requires some { 1 ≤ workers }
    requires most { workers ≤ 32 }
    requires graph { graph.now.stored ≡ store.now }
    requires found { AreFound store.now (A.rows arrivals.now) (A.delays arrivals.now) }
    requires done { AreDoneFrom graph.now rows.now (level + 1) }
    ensures { IfOk result (IsMap (IsCountedAt graph.now level) nodes.now) }
{
    let answer = |node: &u32| -> Result<Counted<L>, Memory>
        requires { (graph.now.stored ≡ store.now)
            × AreFound store.now (A.rows arrivals.now) (A.delays arrivals.now)
            × AreDoneFrom graph.now rows.now (level + 1) }
        ensures { IfOk result (IsCountedAt graph.entry.now level node.now) }
    { Ok(one_counted(alloc, store, graph, arrivals, rows, level, *node)) };
    let threads = worth_threads(nodes.len(), workers);
    map_level(rt, alloc, threads, level, nodes, &answer, gate)
}

/// Writes the answers for nodes of a level to their rows, and counts the steps of each; refuses with the
/// first fault among them.
fn put_answers<L>(
    graph: &Graph,
    rows: &mut CowTable<BackRow>,
    level: u32,
    nodes: &[u32],
    found: Items<Counted<L>>,
    steps: &mut Steps<L>,
) -> Result<(), Fault>
    requires nodes { All (IsAtLevel graph.now level) nodes.now }
    requires found { IsMap (IsCountedAt graph.now level) nodes.now found }
    requires count { length rows.old ≡ node_bound graph.now.stored }
    ensures rows { OnOk result
        (rows.new ≡ put_all rows.old nodes.now (map (back_numbered graph.now.stored) nodes.now)) }
    ensures fine { OnOk result (All (IsFineAt graph.now.stored) nodes.now) }
    ensures err { IfErr result (IsRangeFault graph.now.stored.design) }
    ensures steps { OnOk result (steps.new ≡ steps.old + length nodes.now) }
    ensures least { steps.old ≤ steps.new }
    ensures few { steps.new ≤ steps.old + length nodes.now }
{
    // The graph and the level are asked for by the contract alone.
    let _ = graph;
    let _ = level;
    let mut at = 0;
    for counted in found.into_vec() {
        let Counted {
            answer,
            steps: more,
        } = counted;
        steps.add(more);
        match answer {
            Ok(row) => put_row(rows, nodes[at], row)?,
            Err(fault) => return Err(fault),
        }
        at += 1;
    }
    Ok(())
}

/// Evaluates nodes of a level, each counted as a step, over the rows of the higher levels, by several
/// threads, and writes their rows; refuses with the first fault among the answers.
pub(crate) fn take_turn<H: Threads + Sync, A: Rows + Delayed + Sync, G: Gate, L>(
    rt: &H,
    alloc: Global,
    store: &Store,
    graph: &Graph,
    arrivals: &A,
    rows: &mut CowTable<BackRow>,
    workers: u32,
    level: u32,
    nodes: &[u32],
    gate: &G,
    steps: &mut Steps<L>,
) -> Result<(), Fault>
    requires some { 1 ≤ workers }
    requires most { workers ≤ 32 }
    requires graph { graph.now.stored ≡ store.now }
    requires found { AreFound store.now (A.rows arrivals.now) (A.delays arrivals.now) }
    requires nodes { All (IsAtLevel graph.now level) nodes.now }
    requires done { AreDoneFrom graph.now rows.old (level + 1) }
    ensures rows { OnOk result
        (rows.new ≡ put_all rows.old nodes.now (map (back_numbered graph.now.stored) nodes.now)) }
    ensures fine { OnOk result (All (IsFineAt graph.now.stored) nodes.now) }
    ensures err { IfErr result (IsRangeFault graph.now.stored.design) }
    ensures steps { OnOk result (steps.new ≡ steps.old + length nodes.now) }
    ensures least { steps.old ≤ steps.new }
    ensures few { steps.new ≤ steps.old + length nodes.now }
{
    let found = all_counted(
        rt, alloc, store, graph, arrivals, rows, workers, level, nodes, gate,
    )?;
    put_answers(graph, rows, level, nodes, found, steps)
}
