//! The pass over the levels of a graph.

ghost use Rattle.std.specs.Prelude.{ℕ, ◌≡◌, ◌+◌, ◌<◌, ◌≤◌, ◌^◌, ⊤, All, length, slice_set, IfOk, IfErr, OnOk};
ghost use Rattle.level_workers.specs.Mapped.{IsMap};
ghost use Rattle.pin_graph.specs.Nodes.{node_bound};
ghost use Rattle.pin_graph.specs.Graphs.{level_at};
ghost use Rattle.pin_graph.specs.RowTables.{AreRows, AreRowsFine, IsRangeFault};
ghost use Rattle.arc_delays.specs.Delays.{AreAllInto, AreWithin};
ghost use Rattle.arrival_engine.specs.Analysed.{IsPlan, AreDoneBelow, AreDelayedBelow, AreOfLevel, AreReady, IsNodeAnswer, IsAnswer, IsLevelAnswer};
ghost use Rattle.arrival_engine.specs.Leveled.{AreLevels};

use crate::nodes::{NodeAnswer, empty_row, evaluated, no_answer};
use crate::ordering::by_level;
use arc_delays::ArcDelays;
use cow_table::CowTable;
use level_workers::{map_level, worth_threads};
use node_rows::Setting;
use pin_graph::Graph;
use sta_outside::Gate;
use sta_units::{Memory, Steps};
use std::alloc::Global;
use std::thread::Threads;
use timing_defs::{Fault, Items, NodeRow};

/// The rows of all nodes and the delays of the arcs into each, by the numbers of nodes.
#[derive(Drop)]
pub(crate) struct Found {
    pub(crate) rows: CowTable<NodeRow>,
    pub(crate) delays: ArcDelays,
}

/// What is answered for a node of a level, with a count of its own.
#[derive(Drop)]
pub(crate) struct Counted<L> {
    pub(crate) answer: Result<NodeAnswer, Fault>,
    pub(crate) steps: Steps<L>,
}

/// The row of a node of a level and the delays of the arcs into it, over the rows of the lower ones,
/// counted as one step. Nothing is asked of other numbers.
fn level_answer<L>(
    alloc: Global,
    setting: &Setting<'_>,
    graph: &Graph,
    rows: &CowTable<NodeRow>,
    level: u32,
    node: u32,
    steps: &mut Steps<L>,
) -> Result<NodeAnswer, Fault>
    requires plan { IsPlan setting.now graph.now }
    requires done { AreDoneBelow graph.now rows.now level }
    ensures { node < node_bound graph.now.stored → level_at graph.now node ≡ level
        → IsAnswer graph.now node result × (steps.new ≡ steps.old + 1) }
{
    setting.store.laws();
    graph.laws();
    if node >= graph.count() {
        return Ok(no_answer(alloc)?);
    }
    if graph.level(node) != level {
        return Ok(no_answer(alloc)?);
    }
    evaluated(alloc, setting, graph, rows, node, steps)
}

/// The answer for a node of a level, with a count of its own.
fn one_counted<L>(
    alloc: Global,
    setting: &Setting<'_>,
    graph: &Graph,
    rows: &CowTable<NodeRow>,
    level: u32,
    node: u32,
) -> Counted<L>
    requires plan { IsPlan setting.now graph.now }
    requires done { AreDoneBelow graph.now rows.now level }
    ensures { IsLevelAnswer graph.now level node result }
{
    let mut steps = Steps::none();
    let answer = level_answer(alloc, setting, graph, rows, level, node, &mut steps);
    Counted { answer, steps }
}

/// The answers for the nodes of a level, in their order, by several threads, each with a count of its
/// own.
fn all_counted<H: Threads + Sync, G: Gate, L>(
    rt: &H,
    alloc: Global,
    setting: &Setting<'_>,
    graph: &Graph,
    rows: &CowTable<NodeRow>,
    workers: u32,
    level: u32,
    nodes: &[u32],
    gate: &G,
) -> Result<Items<Counted<L>>, Memory>
    requires some { 1 ≤ workers }
    requires most { workers ≤ 32 }
    requires plan { IsPlan setting.now graph.now }
    requires done { AreDoneBelow graph.now rows.now level }
    ensures { IfOk result (IsMap (IsLevelAnswer graph.now level) nodes.now) }
{
    let evaluate = |node: &u32| -> Result<Counted<L>, Memory>
        requires { IsPlan setting.now graph.now × AreDoneBelow graph.now rows.now level }
        ensures { IfOk result (IsLevelAnswer graph.entry.now level node.now) }
    { Ok(one_counted(alloc, setting, graph, rows, level, *node)) };
    let threads = worth_threads(nodes.len(), workers);
    map_level(rt, alloc, threads, level, nodes, &evaluate, gate)
}

/// The answers for the nodes of a level, in their order, and the steps that each counted; the first fault
/// among them.
fn told<L>(
    alloc: Global,
    graph: &Graph,
    level: u32,
    nodes: &[u32],
    answers: Items<Counted<L>>,
    steps: &mut Steps<L>,
) -> Result<Items<NodeAnswer>, Fault>
    requires nodes { All (λ n. (n < node_bound graph.now.stored) × (level_at graph.now n ≡ level))
        nodes.now }
    requires answers { IsMap (IsLevelAnswer graph.now level) nodes.now answers }
    ensures told { IfOk result (IsMap (IsNodeAnswer graph.now) nodes.now) }
    ensures err { IfErr result (IsRangeFault graph.now.stored.design) }
    ensures steps { OnOk result (steps.new ≡ steps.old + length nodes.now) }
    ensures least { steps.old ≤ steps.new }
    ensures few { steps.new ≤ steps.old + length nodes.now }
{
    // The graph, the level and the nodes are asked for by the contract alone.
    let _ = graph;
    let _ = level;
    let _ = nodes;
    let mut found = Items::new(alloc);
    for counted in answers.into_vec() {
        let Counted {
            answer,
            steps: more,
        } = counted;
        steps.add(more);
        match answer {
            Ok(answer) => found.push(answer)?,
            Err(refused) => return Err(refused),
        }
    }
    Ok(found)
}

/// The answers for the nodes of a level, in their order, by several threads, each evaluation counted as a
/// step; the first fault among them.
pub(crate) fn level_answers<H: Threads + Sync, G: Gate, L>(
    rt: &H,
    alloc: Global,
    setting: &Setting<'_>,
    graph: &Graph,
    rows: &CowTable<NodeRow>,
    workers: u32,
    level: u32,
    nodes: &[u32],
    gate: &G,
    steps: &mut Steps<L>,
) -> Result<Items<NodeAnswer>, Fault>
    requires some { 1 ≤ workers }
    requires most { workers ≤ 32 }
    requires plan { IsPlan setting.now graph.now }
    requires nodes { All (λ n. (n < node_bound graph.now.stored) × (level_at graph.now n ≡ level))
        nodes.now }
    requires done { AreDoneBelow graph.now rows.now level }
    ensures told { IfOk result (IsMap (IsNodeAnswer graph.now) nodes.now) }
    ensures err { IfErr result (IsRangeFault graph.now.stored.design) }
    ensures steps { OnOk result (steps.new ≡ steps.old + length nodes.now) }
    ensures least { steps.old ≤ steps.new }
    ensures few { steps.new ≤ steps.old + length nodes.now }
{
    let answers = all_counted(rt, alloc, setting, graph, rows, workers, level, nodes, gate)?;
    told(alloc, graph, level, nodes, answers, steps)
}

/// Moves what is answered for a node to its place.
fn put_answer(
    rows: &mut CowTable<NodeRow>,
    delays: &mut ArcDelays,
    node: u32,
    answer: NodeAnswer,
) -> Result<(), Memory>
    requires row { node < length rows.old }
    requires delay { node < length delays.old }
    ensures rows { OnOk result (rows.new ≡ slice_set rows.old node answer.row) }
    ensures delays { OnOk result (delays.new ≡ slice_set delays.old node answer.delays) }
{
    delays.put(node, answer.delays)?;
    rows.set(node as usize, answer.row)
}

/// Moves the answers for the nodes of a level to their places, in turn; refuses with the first fault
/// among them.
fn put_answers<L>(
    graph: &Graph,
    rows: &mut CowTable<NodeRow>,
    delays: &mut ArcDelays,
    level: u32,
    nodes: &[u32],
    answers: Items<Counted<L>>,
) -> Result<(), Fault>
    requires nodes { AreOfLevel graph.now level nodes.now }
    requires answers { IsMap (IsLevelAnswer graph.now level) nodes.now answers }
    requires rows { AreDoneBelow graph.now rows.old level }
    requires delays { AreDelayedBelow graph.now delays.old level }
    ensures rows { OnOk result (AreDoneBelow graph.now rows.new (level + 1)) }
    ensures delays { OnOk result (AreDelayedBelow graph.now delays.new (level + 1)) }
    ensures err { IfErr result (IsRangeFault graph.now.stored.design) }
{
    // The graph and the level are asked for by the contract alone.
    let _ = graph;
    let _ = level;
    let mut at = 0;
    for counted in answers.into_vec() {
        let Counted { answer, .. } = counted;
        match answer {
            Ok(answer) => put_answer(rows, delays, nodes[at], answer)?,
            Err(fault) => return Err(fault),
        }
        at += 1;
    }
    Ok(())
}

/// Evaluates the nodes of each level in turn, over the rows of the lower ones.
pub(crate) fn all_levels<H: Threads + Sync, G: Gate>(
    rt: &H,
    alloc: Global,
    setting: &Setting<'_>,
    graph: &Graph,
    rows: &mut CowTable<NodeRow>,
    delays: &mut ArcDelays,
    workers: u32,
    levels: &[Items<u32>],
    gate: &G,
) -> Result<(), Fault>
    requires some { 1 ≤ workers }
    requires most { workers ≤ 32 }
    requires plan { IsPlan setting.now graph.now }
    requires levels { AreLevels graph.now levels.now }
    requires few { length levels.now ≤ 2 ^ 32 }
    requires rows { length rows.old ≡ node_bound graph.now.stored }
    requires delays { length delays.old ≡ node_bound graph.now.stored }
    ensures done { OnOk result (AreDoneBelow graph.now rows.new (length levels.now)) }
    ensures delayed { OnOk result (AreDelayedBelow graph.now delays.new (length levels.now)) }
    ensures err { IfErr result (IsRangeFault graph.now.stored.design) }
{
    for (at, items) in levels.iter().enumerate() {
        let level = at as u32;
        let nodes = items.as_slice();
        let answers = all_counted::<H, G, ()>(
            rt, alloc, setting, graph, rows, workers, level, nodes, gate,
        )?;
        put_answers(graph, rows, delays, level, nodes, answers)?;
    }
    Ok(())
}

/// The rows of all nodes and the delays of all arcs, from nothing.
pub(crate) fn full_rows<H: Threads + Sync, G: Gate>(
    rt: &H,
    alloc: Global,
    setting: &Setting<'_>,
    graph: &Graph,
    workers: u32,
    gate: &G,
) -> Result<Found, Fault>
    requires some { 1 ≤ workers }
    requires most { workers ≤ 32 }
    requires plan { IsPlan setting.now graph.now }
    ensures rows { IfOk result (λ found. AreRows graph.now.stored found.rows) }
    ensures ready { IfOk result
        (λ found. (node : ℕ) → node < node_bound graph.now.stored
        → AreReady graph.now found.rows node) }
    ensures delays { IfOk result (λ found. AreAllInto graph.now found.delays) }
    ensures fine { OnOk result (AreRowsFine graph.now.stored.design) }
    ensures within { OnOk result (AreWithin graph.now.stored.design) }
    ensures err { IfErr result (IsRangeFault graph.now.stored.design) }
{
    setting.store.laws();
    graph.laws();
    let levels = by_level(alloc, graph)?;
    let count = graph.count() as usize;
    let mut rows = CowTable::filled(rt, alloc, workers, count, &empty_row(alloc))?;
    let mut delays = ArcDelays::none(rt, alloc, graph.count())?;
    let nodes = levels.as_slice();
    all_levels(
        rt,
        alloc,
        setting,
        graph,
        &mut rows,
        &mut delays,
        workers,
        nodes,
        gate,
    )?;
    Ok(Found { rows, delays })
}
