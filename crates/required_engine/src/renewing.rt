//! The pass over the nodes whose required times an edit affects, from the highest level down.

ghost use Rattle.std.specs.Prelude.{ℕ, ◌≡◌, ◌+◌, ◌<◌, ◌≤◌, ◌||◌, ◌&&◌, not, All, map, length, slice_set, IfErr, OnOk};
ghost use Rattle.std.specs.Cmp.Lexicographic.{pointwise};
ghost use Rattle.timing_rules.specs.Cones.{same_time, same_back};
ghost use Rattle.netlist_store.specs.Applying.{IsEditOf};
ghost use Rattle.level_cone.specs.Cone.{affected_count, put_all, stands_in};
ghost use Rattle.level_cone.specs.Waiting.{waits};
ghost use Rattle.pin_graph.specs.Nodes.{node_bound};
ghost use Rattle.pin_graph.specs.Graphs.{fan_at};
ghost use Rattle.pin_graph.specs.RowTables.{back_numbered, IsRangeFault};
ghost use Rattle.required_engine.specs.Worked.{AreFound, AreDoneFrom};
ghost use Rattle.required_engine.specs.Updated.{IsBackBase, AreFirst, touch_of, from_top, top_level, back_at, back_before, back_cone, tails_stand, tails_of_changed, IsFineAt, IsAtLevel};

use crate::nodes::empty_back;
use crate::turns::take_turn;
use arc_delays::Delayed;
use cow_table::CowTable;
use level_cone::LevelQueue;
use netlist_store::{Store, Touched};
use pin_graph::{Graph, GraphArc};
use sta_outside::Gate;
use sta_units::{Memory, Steps};
use std::alloc::Global;
use std::thread::Threads;
use timing_defs::{BackRow, EdgeTime, Fault, Rows};

/// The place of a level in the order from the highest down; and the level of a place.
fn from_top(level: u32) -> u32
    ensures { result ≡ from_top level }
{
    u32::MAX - level
}

fn same_time(a: &EdgeTime, b: &EdgeTime) -> bool
    ensures { result ≡ same_time a.now b.now }
{
    a.clock == b.clock && a.tran.is(b.tran) && a.time.0 == b.time.0
}

/// Whether two lists of times are the same, in order.
fn same_times(a: &[EdgeTime], b: &[EdgeTime]) -> bool
    ensures { result ≡ pointwise same_time a.now b.now }
{
    let mut rest = b;
    for time in a {
        let [first, more @ ..] = rest else {
            return false;
        };
        if !same_time(time, first) {
            return false;
        }
        rest = more;
    }
    rest.is_empty()
}

/// Whether two rows have the same required times.
fn same_back(a: &BackRow, b: &BackRow) -> bool
    ensures { result ≡ same_back a.now b.now }
{
    same_times(a.early.as_slice(), b.early.as_slice())
        && same_times(a.late.as_slice(), b.late.as_slice())
}

/// Lets nodes wait.
pub(crate) fn wait_all(queue: &mut LevelQueue, graph: &Graph, nodes: &[u32]) -> Result<(), Memory>
    requires { All (λ n. n < node_bound graph.now.stored) nodes.now }
    ensures { OnOk result
        ((k n : ℕ) → waits queue.new k n
        ≡ (waits queue.old k n || stands_in (top_level graph.now) nodes.now k n)) }
{
    for node in nodes {
        queue.add(from_top(graph.level(*node)), *node)?;
    }
    Ok(())
}

/// Lets the nodes wait from which arcs lead.
fn wait_tails(queue: &mut LevelQueue, graph: &Graph, arcs: &[GraphArc]) -> Result<(), Memory>
    requires { All (λ arc. arc.from < node_bound graph.now.stored) arcs.now }
    ensures { OnOk result
        ((k n : ℕ) → waits queue.new k n
        ≡ (waits queue.old k n || tails_stand graph.now arcs.now k n)) }
{
    for arc in arcs {
        queue.add(from_top(graph.level(arc.from)), arc.from)?;
    }
    Ok(())
}

/// Whether the required times of a node are others than before; those of a number past the rows were
/// none.
fn is_other(alloc: Global, before: &CowTable<BackRow>, rows: &CowTable<BackRow>, node: u32) -> bool
    requires { node < length rows.now }
    ensures { result ≡ not (same_back (back_at before.now node) (back_at rows.now node)) }
{
    let node = node as usize;
    if node < before.len() {
        return !same_back(before.get(node), rows.get(node));
    }
    !same_back(&empty_back(alloc), rows.get(node))
}

/// Lets the nodes before a node wait, where its required times are others than before.
fn wait_before(
    alloc: Global,
    queue: &mut LevelQueue,
    graph: &Graph,
    before: &CowTable<BackRow>,
    rows: &CowTable<BackRow>,
    node: u32,
) -> Result<(), Memory>
    requires node { node < node_bound graph.now.stored }
    requires count { length rows.now ≡ node_bound graph.now.stored }
    requires low { All (λ arc. arc.from < node_bound graph.now.stored) (fan_at graph.now.ins node) }
    ensures { OnOk result
        ((k n : ℕ) → waits queue.new k n
        ≡
        (waits queue.old k n ||
        (not (same_back (back_at before.now node) (back_at rows.now node)) && tails_stand graph.now
        (fan_at graph.now.ins node) k n))) }
{
    if is_other(alloc, before, rows, node) {
        wait_tails(queue, graph, graph.arcs_in(node))
    } else {
        Ok(())
    }
}

/// Lets the nodes before each node wait whose required times are others than before.
fn wait_before_all(
    alloc: Global,
    queue: &mut LevelQueue,
    graph: &Graph,
    before: &CowTable<BackRow>,
    rows: &CowTable<BackRow>,
    nodes: &[u32],
) -> Result<(), Memory>
    requires nodes { All (λ n. n < node_bound graph.now.stored) nodes.now }
    requires count { length rows.now ≡ node_bound graph.now.stored }
    requires low { (n : ℕ) → n < node_bound graph.now.stored
        → All (λ arc. arc.from < node_bound graph.now.stored) (fan_at graph.now.ins n) }
    ensures { OnOk result
        ((k n : ℕ) → waits queue.new k n
        ≡ (waits queue.old k n || tails_of_changed graph.now before.now rows.now nodes.now k n)) }
{
    for node in nodes {
        wait_before(alloc, queue, graph, before, rows, *node)?;
    }
    Ok(())
}

/// Writes the row of a node, where it is another than the one that is there.
pub(crate) fn put_row(rows: &mut CowTable<BackRow>, node: u32, row: BackRow) -> Result<(), Memory>
    requires { node < length rows.old }
    ensures { OnOk result (rows.new ≡ slice_set rows.old node row) }
{
    if same_back(rows.get(node as usize), &row) {
        return Ok(());
    }
    rows.set(node as usize, row)
}

/// Evaluates nodes of a level, each counted as a step, over the rows of the higher levels, and lets
/// those before them wait where they have other required times than before.
fn renew_level<H: Threads + Sync, A: Rows + Delayed + Sync, G: Gate, L>(
    rt: &H,
    alloc: Global,
    store: &Store,
    graph: &Graph,
    arrivals: &A,
    before: &CowTable<BackRow>,
    rows: &mut CowTable<BackRow>,
    queue: &mut LevelQueue,
    workers: u32,
    level: u32,
    nodes: &[u32],
    gate: &G,
    steps: &mut Steps<L>,
) -> Result<(), Fault>
    requires some { 1 ≤ workers }
    requires most { workers ≤ 32 }
    requires graph { graph.now.stored ≡ store.now }
    requires found { AreFound store.now (A.rows arrivals.now) (A.delays arrivals.now) }
    requires nodes { All (IsAtLevel graph.now level) nodes.now }
    requires done { AreDoneFrom graph.now rows.old (level + 1) }
    ensures rows { OnOk result
        (rows.new ≡ put_all rows.old nodes.now (map (back_numbered graph.now.stored) nodes.now)) }
    ensures fine { OnOk result (All (IsFineAt graph.now.stored) nodes.now) }
    ensures marks { OnOk result
        ((k n : ℕ) → waits queue.new k n
        ≡ (waits queue.old k n || tails_of_changed graph.now before.now rows.new nodes.now k n)) }
    ensures err { IfErr result (IsRangeFault graph.now.stored.design) }
    ensures steps { OnOk result (steps.new ≡ steps.old + length nodes.now) }
    ensures least { steps.old ≤ steps.new }
    ensures few { steps.new ≤ steps.old + length nodes.now }
{
    store.laws();
    graph.laws();
    take_turn(
        rt, alloc, store, graph, arrivals, rows, workers, level, nodes, gate, steps,
    )?;
    wait_before_all(alloc, queue, graph, before, rows, nodes)?;
    Ok(())
}

/// Makes the required times of a base those of the store that an ECO made of it: the first nodes are
/// evaluated, and those before a node whose required times are others than before, each counted as a
/// step, from the highest level down.
pub(crate) fn renew<H: Threads + Sync, A: Rows + Delayed + Sync, G: Gate, L>(
    rt: &H,
    alloc: Global,
    base: &Graph,
    store: &Store,
    graph: &Graph,
    touched: &Touched,
    arrivals: &A,
    before: &CowTable<BackRow>,
    rows: &mut CowTable<BackRow>,
    first: &[u32],
    workers: u32,
    gate: &G,
    steps: &mut Steps<L>,
) -> Result<(), Fault>
    requires some { 1 ≤ workers }
    requires most { workers ≤ 32 }
    requires graph { graph.now.stored ≡ store.now }
    requires found { AreFound store.now (A.rows arrivals.now) (A.delays arrivals.now) }
    requires made { IsEditOf base.now.stored (touch_of touched.now) graph.now.stored }
    requires was { IsBackBase base.now.stored before.now }
    requires first { AreFirst base.now.stored graph.now.stored (touch_of touched.now) first.now }
    requires count { length rows.old ≡ node_bound graph.now.stored }
    requires rows { (n : ℕ) → n < node_bound graph.now.stored → back_at rows.old n
        ≡ back_before base.now.stored graph.now.stored n }
    ensures done { OnOk result (AreDoneFrom graph.now rows.new 0) }
    ensures err { IfErr result (IsRangeFault graph.now.stored.design) }
    ensures least { steps.old ≤ steps.new }
    ensures steps { steps.new ≤ steps.old + affected_count
        (back_cone base.now.stored graph.now first.now) }
    ensures exact { OnOk result
        (steps.new ≡ steps.old + affected_count (back_cone base.now.stored graph.now first.now)) }
{
    // The ECO is asked for by the contract alone.
    let _ = touched;
    store.laws();
    graph.laws();
    base.laws();
    let mut queue = LevelQueue::new(alloc);
    wait_all(&mut queue, graph, first)?;
    while let Some(taken) = queue.take_level(alloc)? {
        let nodes = taken.nodes.as_slice();
        let level = from_top(taken.level);
        renew_level(
            rt, alloc, store, graph, arrivals, before, rows, &mut queue, workers, level, nodes,
            gate, steps,
        )?;
    }
    Ok(())
}
