//! The rows after an ECO, from those before it: the nodes that it affects are evaluated, level by level.
//! What leads on from a level are its nodes whose row differs from that of the base.

ghost use Rattle.std.specs.Prelude.{ℕ, ◌≡◌, ◌+◌, ◌<◌, ◌≤◌, ◌*◌, nat_eq, slice_set, ◌||◌, ◌&&◌, ◌==◌, map, if◌then◌else◌, All, length, get_or, IfOk, IfErr, OnOk};
ghost use Rattle.std.specs.List.{list_any};
ghost use Rattle.std.specs.Arc.{arc_value};
ghost use Rattle.std.specs.Cmp.Lexicographic.{pointwise};
ghost use Rattle.timing_rules.specs.Cones.{same_row, same_time, forward_count};
ghost use Rattle.timing_rules.specs.Checks.{IsSound};
ghost use Rattle.timing_rules.specs.Rows.{empty_row};
ghost use Rattle.netlist_store.specs.Applying.{IsEditOf};
ghost use Rattle.netlist_store.specs.Numbering.{is_number};
ghost use Rattle.level_cone.specs.Waiting.{waits, room};
ghost use Rattle.level_cone.specs.Cone.{put_all, stands_in};
ghost use Rattle.pin_graph.specs.Nodes.{node_bound, pin_under};
ghost use Rattle.pin_graph.specs.Graphs.{level_at};
ghost use Rattle.pin_graph.specs.Seeds.{AreSeeds};
ghost use Rattle.pin_graph.specs.RowTables.{row_numbered, AreRows, AreRowsFine, IsRangeFault};
ghost use Rattle.arc_delays.specs.Delays.{AreDelays};
ghost use Rattle.arrival_engine.specs.Analysed.{AreTables, AreDoneBelow, IsPlan};
ghost use Rattle.arrival_engine.specs.Planned.{ArePlanned};
ghost use Rattle.arrival_engine.specs.Updated.{AreArrivals, AreBegun, AreRenewed, IsLevelPut, heads_of, is_moved, same_delay, rows_told, delays_told};

use crate::nodes::{NodeAnswer, empty_row};
use crate::passes::level_answers;
use crate::tables::{Arrivals, shared, sized};
use arc_delays::{ArcDelay, ArcDelays};
use cow_table::{CowTable, Held};
use level_cone::{LevelQueue, LevelTurn};
use netlist_store::{Store, Touched};
use node_rows::{Setting, Wires};
use pin_graph::{Graph, GraphArc, gone_pins};
use sta_outside::Gate;
use sta_units::{Memory, Steps};
use std::alloc::Global;
use std::sync::Arc;
use std::thread::Threads;
use timing_defs::{EdgeTimes, Fault, Items, NodeRow};

/// The tables that an update writes, which begin as those of the base.
#[derive(Drop)]
pub(crate) struct Renewed {
    pub(crate) rows: CowTable<NodeRow>,
    pub(crate) delays: ArcDelays,
}

/// Whether two lists of times are the same.
fn same_times(a: &EdgeTimes, b: &EdgeTimes) -> bool
    ensures { result ≡ pointwise same_time a.now b.now }
{
    a.as_slice() == b.as_slice()
}

/// Whether two rows are the same.
fn is_same(a: &NodeRow, b: &NodeRow) -> bool
    ensures { result ≡ same_row a.now b.now }
{
    a.early_slew == b.early_slew
        && a.late_slew == b.late_slew
        && same_times(&a.early, &b.early)
        && same_times(&a.late, &b.late)
}

/// Whether a graph has a node of that number.
pub(crate) fn has_node(graph: &Graph, node: u32) -> bool
    ensures { result ≡ is_number graph.now.stored.pins (pin_under node) }
{
    graph.store().has_pin(node / 2)
}

/// Whether a row differs from that which the base has at its number, or the base has none there.
pub(crate) fn is_moved(base: &Graph, rows: &CowTable<NodeRow>, node: u32, row: &NodeRow) -> bool
    requires { node < length rows.now }
    ensures { result ≡ is_moved base.now.stored rows.now node row.now }
{
    !has_node(base, node) || !is_same(rows.get(node as usize), row)
}

/// Lets nodes wait for their levels.
fn wait_all(graph: &Graph, waiting: &mut LevelQueue, nodes: &[u32]) -> Result<(), Memory>
    requires { All (λ n. n < node_bound graph.now.stored) nodes.now }
    ensures { OnOk result
        ((k n : ℕ) → waits waiting.new k n
        ≡ (waits waiting.old k n || stands_in (level_at graph.now) nodes.now k n)) }
{
    for node in nodes {
        waiting.add(graph.level(*node), *node)?;
    }
    Ok(())
}

/// Lets the nodes to which arcs lead wait for their levels.
fn wait_heads(graph: &Graph, waiting: &mut LevelQueue, arcs: &[GraphArc]) -> Result<(), Memory>
    requires { All (λ a. a.to < node_bound graph.now.stored) arcs.now }
    ensures { OnOk result
        ((k n : ℕ) → waits waiting.new k n
        ≡
        (waits waiting.old k n || list_any (λ a. (level_at graph.now a.to == k) && (a.to == n))
        arcs.now)) }
{
    for arc in arcs {
        waiting.add(graph.level(arc.to), arc.to)?;
    }
    Ok(())
}

/// Lets the nodes behind a node wait, where its row differs from that of the base.
fn wait_after(
    base: &Graph,
    graph: &Graph,
    rows: &CowTable<NodeRow>,
    waiting: &mut LevelQueue,
    node: u32,
    row: &NodeRow,
) -> Result<(), Memory>
    requires low { node < node_bound graph.now.stored }
    requires long { node < length rows.now }
    requires heads { All (λ n. n < node_bound graph.now.stored) (heads_of graph.now node) }
    ensures { OnOk result
        ((k n : ℕ) → waits waiting.new k n
        ≡
        (waits waiting.old k n ||
        (is_moved base.now.stored rows.now node row.now && stands_in (level_at graph.now)
        (heads_of graph.now node) k n))) }
{
    if is_moved(base, rows, node, row) {
        return wait_heads(graph, waiting, graph.arcs_out(node));
    }
    Ok(())
}

/// Lets the nodes behind each node of a level wait, where its row differs from that of the base.
fn wait_after_all(
    base: &Graph,
    graph: &Graph,
    rows: &CowTable<NodeRow>,
    waiting: &mut LevelQueue,
    nodes: &[u32],
    answers: &[NodeAnswer],
) -> Result<(), Memory>
    requires nodes { All (λ n. (n < node_bound graph.now.stored) × (n < length rows.now))
        nodes.now }
    requires heads { All (λ m. All (λ n. n < node_bound graph.now.stored) (heads_of graph.now m))
        nodes.now }
    requires rows { rows_told answers.now ≡ map (row_numbered graph.now.stored) nodes.now }
    ensures { OnOk result
        ((k n : ℕ) → waits waiting.new k n
        ≡
        (waits waiting.old k n || list_any
        (λ m. is_moved base.now.stored rows.now m (row_numbered graph.now.stored m) && stands_in
        (level_at graph.now) (heads_of graph.now m) k n) nodes.now)) }
{
    for (at, node) in nodes.iter().enumerate() {
        wait_after(base, graph, rows, waiting, *node, &answers[at].row)?;
    }
    Ok(())
}

/// Writes the row of a node, where it is another than the one that is there.
fn put_row(rows: &mut CowTable<NodeRow>, node: u32, row: NodeRow) -> Result<(), Memory>
    requires { node < length rows.old }
    ensures { OnOk result (rows.new ≡ slice_set rows.old node row) }
{
    if is_same(rows.get(node as usize), &row) {
        return Ok(());
    }
    rows.set(node as usize, row)
}

/// Whether two delays of an arc are the same.
fn same_delay(a: &ArcDelay, b: &ArcDelay) -> bool
    ensures { result ≡ same_delay a.now b.now }
{
    a.from == b.from && a.early == b.early && a.late == b.late
}

/// Whether two lists of delays are the same, in order.
fn same_delays(a: &[ArcDelay], b: &[ArcDelay]) -> bool
    ensures { result ≡ pointwise same_delay a.now b.now }
{
    let mut rest = b;
    for delay in a {
        let [first, more @ ..] = rest else {
            return false;
        };
        if !same_delay(delay, first) {
            return false;
        }
        rest = more;
    }
    rest.is_empty()
}

/// Writes the delays of the arcs into a node, where they are others than those that are there.
fn put_delays(delays: &mut ArcDelays, node: u32, found: Held<Items<ArcDelay>>) -> Result<(), Memory>
    requires { node < length delays.old }
    ensures { OnOk result (delays.new ≡ slice_set delays.old node found) }
{
    if same_delays(delays.of_node(node), found.get().as_slice()) {
        return Ok(());
    }
    delays.put(node, found)
}

/// Writes what is answered for a node.
fn put(tables: &mut Renewed, node: u32, answer: NodeAnswer) -> Result<(), Memory>
    requires row { node < length tables.old.rows }
    requires delay { node < length tables.old.delays }
    ensures rows { OnOk result (tables.new.rows ≡ slice_set tables.old.rows node answer.row) }
    ensures delays { OnOk result
        (tables.new.delays ≡ slice_set tables.old.delays node answer.delays) }
{
    put_delays(&mut tables.delays, node, answer.delays)?;
    put_row(&mut tables.rows, node, answer.row)
}

/// Writes what is answered for the nodes of a level, in turn.
fn put_each(tables: &mut Renewed, nodes: &[u32], answers: Items<NodeAnswer>) -> Result<(), Memory>
    requires rows { All (λ n. n < length tables.old.rows) nodes.now }
    requires delays { All (λ n. n < length tables.old.delays) nodes.now }
    requires answers { length answers ≡ length nodes.now }
    ensures rows { OnOk result
        (tables.new.rows ≡ put_all tables.old.rows nodes.now (rows_told answers)) }
    ensures delays { OnOk result
        (tables.new.delays ≡ put_all tables.old.delays nodes.now (delays_told answers)) }
{
    let mut at = 0;
    for answer in answers.into_vec() {
        put(tables, nodes[at], answer)?;
        at += 1;
    }
    Ok(())
}

/// Evaluates the nodes of a level, each counted as a step, and lets the nodes behind those whose row
/// differs from that of the base wait.
fn renew_level<H: Threads + Sync, G: Gate, L>(
    rt: &H,
    alloc: Global,
    setting: &Setting<'_>,
    base: &Graph,
    graph: &Graph,
    tables: &mut Renewed,
    waiting: &mut LevelQueue,
    workers: u32,
    turn: &LevelTurn,
    gate: &G,
    steps: &mut Steps<L>,
) -> Result<(), Fault>
    requires some { 1 ≤ workers }
    requires most { workers ≤ 32 }
    requires plan { IsPlan setting.now graph.now }
    requires nodes { All
        (λ n. (n < node_bound graph.now.stored) × (level_at graph.now n ≡ turn.now.level))
        turn.now.nodes }
    requires done { AreDoneBelow graph.now tables.old.rows turn.now.level }
    requires delays { length tables.old.delays ≡ node_bound graph.now.stored }
    ensures put { OnOk result
        (IsLevelPut graph.now turn.now.nodes tables.old.rows tables.old.delays tables.new.rows
        tables.new.delays) }
    ensures waits { OnOk result
        ((k n : ℕ) → waits waiting.new k n
        ≡
        (waits waiting.old k n || list_any
        (λ m. is_moved base.now.stored tables.old.rows m (row_numbered graph.now.stored m) &&
        stands_in (level_at graph.now) (heads_of graph.now m) k n) turn.now.nodes)) }
    ensures steps { OnOk result (steps.new ≡ steps.old + length turn.now.nodes) }
    ensures least { steps.old ≤ steps.new }
    ensures few { steps.new ≤ steps.old + length turn.now.nodes }
    ensures err { IfErr result (IsRangeFault graph.now.stored.design) }
{
    setting.store.laws();
    graph.laws();
    let nodes = turn.nodes.as_slice();
    let answers = level_answers(
        rt,
        alloc,
        setting,
        graph,
        &tables.rows,
        workers,
        turn.level,
        nodes,
        gate,
        steps,
    )?;
    wait_after_all(
        base,
        graph,
        &tables.rows,
        waiting,
        nodes,
        answers.as_slice(),
    )?;
    Ok(put_each(tables, nodes, answers)?)
}

/// Makes the tables of a base those of the edited store: evaluates the seeds, and level by level the
/// nodes behind those whose rows differ, each counted as a step.
fn renew<H: Threads + Sync, G: Gate, L>(
    rt: &H,
    alloc: Global,
    setting: &Setting<'_>,
    was: &Arrivals,
    base: &Graph,
    graph: &Graph,
    touched: &Touched,
    seeds: &[u32],
    tables: &mut Renewed,
    workers: u32,
    gate: &G,
    steps: &mut Steps<L>,
) -> Result<(), Fault>
    requires some { 1 ≤ workers }
    requires most { workers ≤ 32 }
    requires plan { IsPlan setting.now graph.now }
    requires made { IsEditOf base.now.stored
        (record { insts = touched.now.insts; nets = touched.now.nets }) graph.now.stored }
    requires was { AreArrivals base.now.stored was.now }
    requires seeds { AreSeeds base.now.stored graph.now.stored
        (record { insts = touched.now.insts; nets = touched.now.nets }) seeds.now }
    requires begun { AreBegun base.now.stored graph.now.stored tables.old.rows tables.old.delays }
    ensures found { OnOk result (AreRenewed graph.now tables.new.rows tables.new.delays) }
    ensures steps { OnOk result
        (steps.new
        ≡ steps.old + forward_count base.now.stored.design graph.now.stored.design
        (record { insts = touched.now.insts; nets = touched.now.nets })) }
    ensures least { steps.old ≤ steps.new }
    ensures few { steps.new ≤ steps.old + forward_count base.now.stored.design
        graph.now.stored.design (record { insts = touched.now.insts; nets = touched.now.nets }) }
    ensures err { IfErr result (IsRangeFault graph.now.stored.design) }
{
    setting.store.laws();
    base.store().laws();
    base.laws();
    graph.laws();
    // The arrivals of the base and what the ECO touched are asked for by the contract alone.
    let _ = was;
    let _ = touched;
    let mut waiting = LevelQueue::new(alloc);
    wait_all(graph, &mut waiting, seeds)?;
    while let Some(turn) = waiting.take_level(alloc)? {
        renew_level(
            rt,
            alloc,
            setting,
            base,
            graph,
            tables,
            &mut waiting,
            workers,
            &turn,
            gate,
            steps,
        )?;
    }
    Ok(())
}

/// Empties the rows of the nodes of a pin, where they are there.
fn empty_pin(alloc: Global, rows: &mut CowTable<NodeRow>, pin: u32) -> Result<(), Memory>
    requires { (pin : ℕ) → 2 * pin < length rows.old → 2 * pin + 1 < length rows.old }
    ensures long { OnOk result (length rows.new ≡ length rows.old) }
    ensures rows { OnOk result
        ((n : ℕ) → n < length rows.old → get_or rows.new n empty_row
        ≡ (if nat_eq (pin_under n) pin then empty_row else get_or rows.old n empty_row)) }
{
    let node = 2 * pin as usize;
    if node >= rows.len() {
        return Ok(());
    }
    rows.set(node, empty_row(alloc))?;
    rows.set(node + 1, empty_row(alloc))
}

/// Empties the rows of the nodes of some pins, where they are there.
fn empty_pins(alloc: Global, rows: &mut CowTable<NodeRow>, pins: &[u32]) -> Result<(), Memory>
    requires { (pin : ℕ) → 2 * pin < length rows.old → 2 * pin + 1 < length rows.old }
    ensures long { OnOk result (length rows.new ≡ length rows.old) }
    ensures rows { OnOk result
        ((n : ℕ) → n < length rows.old → get_or rows.new n empty_row
        ≡
        (if list_any (nat_eq (pin_under n)) pins.now then empty_row else get_or rows.old n
        empty_row)) }
{
    for pin in pins {
        empty_pin(alloc, rows, *pin)?;
    }
    Ok(())
}

impl Arrivals {
    /// The tables that an update begins with: those of the base, with room for the numbers of the edited
    /// store, and empty rows at numbers that are of no node any more.
    fn begun(
        &self,
        alloc: Global,
        base: &Graph,
        graph: &Graph,
        touched: &Touched,
    ) -> Result<Renewed, Memory>
        requires made { IsEditOf base.now.stored
            (record { insts = touched.now.insts; nets = touched.now.nets }) graph.now.stored }
        requires was { AreArrivals base.now.stored self.now }
        ensures { IfOk result (λ t. AreBegun base.now.stored graph.now.stored t.rows t.delays) }
    {
        base.store().laws();
        graph.store().laws();
        base.laws();
        let gone = gone_pins(alloc, base, graph, touched)?;
        let mut rows = sized(alloc, &self.rows, graph.count() as usize)?;
        empty_pins(alloc, &mut rows, gone.as_slice())?;
        let delays = self.delays.sized(alloc, graph.count())?;
        Ok(Renewed { rows, delays })
    }

    /// The wires of the store that an ECO made, to be shared.
    fn wires_after(
        &self,
        alloc: Global,
        base: &Store,
        store: &Store,
        touched: &Touched,
    ) -> Result<Arc<Wires>, Fault>
        requires made { IsEditOf base.now
            (record { insts = touched.now.insts; nets = touched.now.nets }) store.now }
        requires sound { IsSound store.now.design }
        requires was { AreTables base.now self.now }
        ensures plan { IfOk result
            (λ wires. ArePlanned store.now (arc_value wires) (arc_value self.now.ports)) }
        ensures err { IfErr result (IsRangeFault store.now.design) }
    {
        let wires = self.wires.update(alloc, base, store, &self.ports, touched)?;
        Ok(shared(alloc, wires)?)
    }

    /// The rows and the delays of the store that an ECO made, over its wires.
    fn renewed<H: Threads + Sync, G: Gate, L>(
        &self,
        rt: &H,
        alloc: Global,
        base: &Graph,
        store: &Store,
        graph: &Graph,
        touched: &Touched,
        workers: u32,
        gate: &G,
        steps: &mut Steps<L>,
        wires: &Wires,
        seeds: &[u32],
    ) -> Result<Renewed, Fault>
        requires some { 1 ≤ workers }
        requires most { workers ≤ 32 }
        requires graph { graph.now.stored ≡ store.now }
        requires made { IsEditOf base.now.stored
            (record { insts = touched.now.insts; nets = touched.now.nets }) store.now }
        requires was { AreArrivals base.now.stored self.now }
        requires plan { ArePlanned store.now wires.now (arc_value self.now.ports) }
        requires seeds { AreSeeds base.now.stored store.now
            (record { insts = touched.now.insts; nets = touched.now.nets }) seeds.now }
        ensures found { IfOk result (λ t. AreRenewed graph.now t.rows t.delays) }
        ensures steps { OnOk result
            (steps.new
            ≡ steps.old + forward_count base.now.stored.design store.now.design
            (record { insts = touched.now.insts; nets = touched.now.nets })) }
        ensures least { steps.old ≤ steps.new }
        ensures few { steps.new ≤ steps.old + forward_count base.now.stored.design store.now.design
            (record { insts = touched.now.insts; nets = touched.now.nets }) }
        ensures err { IfErr result (IsRangeFault store.now.design) }
    {
        let mut tables = self.begun(alloc, base, graph, touched)?;
        let setting = Setting {
            store,
            wires,
            ports: &self.ports,
        };
        renew(
            rt,
            alloc,
            &setting,
            self,
            base,
            graph,
            touched,
            seeds,
            &mut tables,
            workers,
            gate,
            steps,
        )?;
        Ok(tables)
    }

    /// The slews and arrivals of the store that an ECO made of the base's store, which these are of:
    /// `base` is the base's graph, `graph` that of the edited store, `touched` what the ECO touched, `seeds`
    /// the numbers of the nodes that it touched, or whose arcs in or place in a clock network it changed. These,
    /// and those that an arc leads to from a node whose row differs, are evaluated once each, level by level,
    /// each level's nodes shared between that many threads, the gate called as each piece of a level begins; all
    /// else is shared with the base. The rows are those of `full`. Each evaluation is counted as a step; where
    /// the update is refused, at most as many. `OutOfRange` as `full` has it. Takes time of the touched
    /// nets, of the nodes that are evaluated and of the arcs at them, and a step for each 4,096 rows.
    pub fn update<H: Threads + Sync, G: Gate, L>(
        &self,
        rt: &H,
        alloc: Global,
        base: &Graph,
        store: &Store,
        graph: &Graph,
        touched: &Touched,
        seeds: &[u32],
        workers: u32,
        gate: &G,
        steps: &mut Steps<L>,
    ) -> Result<Arrivals, Fault>
        requires some { 1 ≤ workers }
        requires most { workers ≤ 32 }
        requires graph { graph.now.stored ≡ store.now }
        requires made { IsEditOf base.now.stored
            (record { insts = touched.now.insts; nets = touched.now.nets }) store.now }
        requires sound { IsSound store.now.design }
        requires was { AreArrivals base.now.stored self.now }
        requires seeds { AreSeeds base.now.stored store.now
            (record { insts = touched.now.insts; nets = touched.now.nets }) seeds.now }
        ensures rows { IfOk result (λ a. AreRows store.now a.rows) }
        ensures tables { IfOk result (AreTables store.now) }
        ensures delays { IfOk result (λ a. AreDelays store.now (arc_value a.delays)) }
        ensures fine { OnOk result (AreRowsFine store.now.design) }
        ensures steps { OnOk result
            (steps.new
            ≡ steps.old + forward_count base.now.stored.design store.now.design
            (record { insts = touched.now.insts; nets = touched.now.nets })) }
        ensures least { steps.old ≤ steps.new }
        ensures few { steps.new ≤ steps.old + forward_count base.now.stored.design store.now.design
            (record { insts = touched.now.insts; nets = touched.now.nets }) }
        ensures err { IfErr result (IsRangeFault store.now.design) }
    {
        store.laws();
        graph.laws();
        let wires = self.wires_after(alloc, base.store(), store, touched)?;
        let found = self.renewed(
            rt, alloc, base, store, graph, touched, workers, gate, steps, &wires, seeds,
        )?;
        let delays = shared(alloc, found.delays)?;
        Ok(Arrivals {
            rows: found.rows,
            wires,
            ports: self.ports.clone()?,
            delays,
        })
    }
}
