//! Required times of an edited store over those of its base.

ghost use Rattle.std.specs.Prelude.{ℕ, ◌≡◌, ◌==◌, ◌+◌, ◌*◌, ◌<◌, ◌≤◌, if◌then◌else◌, length, IfOk, IfErr, OnOk};
ghost use Rattle.timing_rules.specs.Checks.{IsSound};
ghost use Rattle.timing_rules.specs.Required.{empty_back};
ghost use Rattle.timing_rules.specs.Cones.{row_differs, backward_count};
ghost use Rattle.netlist_store.specs.Applying.{IsEditOf};
ghost use Rattle.pin_graph.specs.Nodes.{node_bound, pin_under};
ghost use Rattle.pin_graph.specs.Seeds.{AreSeeds};
ghost use Rattle.pin_graph.specs.RowTables.{AreRows, AreRowsFine, AreBackRows, AreBacksFine, IsRangeFault};
ghost use Rattle.arc_delays.specs.Delays.{AreDelays};
ghost use Rattle.required_engine.specs.Worked.{AreFound, AreBacksWithin};
ghost use Rattle.required_engine.specs.Updated.{touch_of, AreThose, IsBackBase, is_in, back_at, back_before};

use crate::first_nodes::first_nodes;
use crate::nodes::empty_back;
use crate::renewing::renew;
use crate::tables::{Required, sized};
use arc_delays::Delayed;
use cow_table::CowTable;
use netlist_store::{Store, Touched};
use pin_graph::{Graph, gone_pins};
use sta_outside::Gate;
use sta_units::{Memory, Steps};
use std::alloc::Global;
use std::thread::Threads;
use timing_defs::{BackRow, Fault, Rows};

/// Empties a row, where it is there.
fn clear(alloc: Global, rows: &mut CowTable<BackRow>, node: usize) -> Result<(), Memory>
    ensures count { OnOk result (length rows.new ≡ length rows.old) }
    ensures rows { OnOk result
        ((n : ℕ) → back_at rows.new n ≡ (if node == n then empty_back else back_at rows.old n)) }
{
    if node < rows.len() {
        rows.set(node, empty_back(alloc))
    } else {
        Ok(())
    }
}

/// Empties the rows of the nodes of a pin.
fn clear_pin(alloc: Global, rows: &mut CowTable<BackRow>, pin: u32) -> Result<(), Memory>
    ensures count { OnOk result (length rows.new ≡ length rows.old) }
    ensures rows { OnOk result
        ((n : ℕ) → back_at rows.new n
        ≡ (if pin == pin_under n then empty_back else back_at rows.old n)) }
{
    let rise = 2 * pin as usize;
    clear(alloc, rows, rise)?;
    clear(alloc, rows, rise + 1)
}

/// Empties the rows of the nodes of pins.
fn clear_pins(alloc: Global, rows: &mut CowTable<BackRow>, pins: &[u32]) -> Result<(), Memory>
    ensures count { OnOk result (length rows.new ≡ length rows.old) }
    ensures rows { OnOk result
        ((n : ℕ) → back_at rows.new n
        ≡ (if is_in pins.now (pin_under n) then empty_back else back_at rows.old n)) }
{
    for pin in pins {
        clear_pin(alloc, rows, *pin)?;
    }
    Ok(())
}

/// The rows of the base by the numbers of an edited store, empty where a number is of no node of that.
fn begun(
    alloc: Global,
    base: &Graph,
    graph: &Graph,
    touched: &Touched,
    before: &CowTable<BackRow>,
) -> Result<CowTable<BackRow>, Memory>
    requires made { IsEditOf base.now.stored (touch_of touched.now) graph.now.stored }
    requires was { AreBackRows base.now.stored before.now }
    ensures count { IfOk result (λ rows. length rows ≡ node_bound graph.now.stored) }
    ensures rows { IfOk result
        (λ rows. (n : ℕ) → n < node_bound graph.now.stored → back_at rows n
        ≡ back_before base.now.stored graph.now.stored n) }
{
    base.store().laws();
    graph.store().laws();
    let gone = gone_pins(alloc, base, graph, touched)?;
    let mut rows = sized(alloc, before, graph.count() as usize)?;
    clear_pins(alloc, &mut rows, gone.as_slice())?;
    Ok(rows)
}

/// The required times of all nodes of an edited store, over those of its base.
fn updated_rows<H: Threads + Sync, A: Rows + Delayed + Sync, G: Gate, L>(
    rt: &H,
    alloc: Global,
    base: &Graph,
    store: &Store,
    graph: &Graph,
    touched: &Touched,
    arrivals: &A,
    before: &CowTable<BackRow>,
    seeds: &[u32],
    changed: &[u32],
    workers: u32,
    gate: &G,
    steps: &mut Steps<L>,
) -> Result<CowTable<BackRow>, Fault>
    requires some { 1 ≤ workers }
    requires most { workers ≤ 32 }
    requires graph { graph.now.stored ≡ store.now }
    requires found { AreFound store.now (A.rows arrivals.now) (A.delays arrivals.now) }
    requires made { IsEditOf base.now.stored (touch_of touched.now) graph.now.stored }
    requires was_fine { AreRowsFine base.now.stored.design }
    requires was_rows { AreBackRows base.now.stored before.now }
    requires was_near { AreBacksFine base.now.stored.design }
    requires seeds { AreSeeds base.now.stored graph.now.stored (touch_of touched.now) seeds.now }
    requires changed { AreThose graph.now.stored
        (row_differs base.now.stored.design graph.now.stored.design) changed.now }
    ensures rows { IfOk result (AreBackRows store.now) }
    ensures fine { OnOk result (AreBacksFine store.now.design) }
    ensures within { IfOk result AreBacksWithin }
    ensures err { IfErr result (IsRangeFault store.now.design) }
    ensures least { steps.old ≤ steps.new }
    ensures steps { steps.new ≤ steps.old + backward_count base.now.stored.design
        graph.now.stored.design (touch_of touched.now) }
    ensures exact { OnOk result
        (steps.new
        ≡ steps.old + backward_count base.now.stored.design graph.now.stored.design
        (touch_of touched.now)) }
{
    store.laws();
    graph.laws();
    base.laws();
    base.store().laws();
    let first = first_nodes(alloc, base, store, graph, seeds, changed)?;
    let mut rows = begun(alloc, base, graph, touched, before)?;
    let nodes = first.as_slice();
    renew(
        rt, alloc, base, store, graph, touched, arrivals, before, &mut rows, nodes, workers, gate,
        steps,
    )?;
    Ok(rows)
}

impl Required {
    /// The required times of all nodes of the store that an ECO made of the store of `base`, over those of
    /// the base. `seeds` are the numbers of the nodes that the ECO touched, or whose arcs in or place in the
    /// clock network are others; `changed` those of the nodes whose slews or arrivals are others. A node is
    /// evaluated where it is one of these, leads to a seed in either graph, is tested by one of them, or
    /// leads to a node whose required times are others: each once and counted as a step, from the highest
    /// level down, each level's nodes shared between that many threads. All other rows are shared with the
    /// base. Gate, rows and faults as `full` has them. Takes time of the nodes evaluated and of the arcs at
    /// them, and a step for each 4,096 rows.
    pub fn update<H: Threads + Sync, A: Rows + Delayed + Sync, G: Gate, L>(
        &self,
        rt: &H,
        alloc: Global,
        base: &Graph,
        store: &Store,
        graph: &Graph,
        touched: &Touched,
        arrivals: &A,
        seeds: &[u32],
        changed: &[u32],
        workers: u32,
        gate: &G,
        steps: &mut Steps<L>,
    ) -> Result<Required, Fault>
        requires some { 1 ≤ workers }
        requires most { workers ≤ 32 }
        requires sound { IsSound store.now.design }
        requires graph { graph.now.stored ≡ store.now }
        requires rows { AreRows store.now (A.rows arrivals.now) }
        requires fine { AreRowsFine store.now.design }
        requires delays { AreDelays store.now (A.delays arrivals.now) }
        requires made { IsEditOf base.now.stored (touch_of touched.now) store.now }
        requires was_fine { AreRowsFine base.now.stored.design }
        requires was_rows { AreBackRows base.now.stored self.now.rows }
        requires was_near { AreBacksFine base.now.stored.design }
        requires seeds { AreSeeds base.now.stored store.now (touch_of touched.now) seeds.now }
        requires changed { AreThose store.now (row_differs base.now.stored.design store.now.design)
            changed.now }
        ensures rows { IfOk result (λ required. AreBackRows store.now required.rows) }
        ensures fine { OnOk result (AreBacksFine store.now.design) }
        ensures within { IfOk result (λ required. AreBacksWithin required.rows) }
        ensures err { IfErr result (IsRangeFault store.now.design) }
        ensures least { steps.old ≤ steps.new }
        ensures steps { steps.new ≤ steps.old + backward_count base.now.stored.design
            store.now.design (touch_of touched.now) }
        ensures exact { OnOk result
            (steps.new
            ≡ steps.old + backward_count base.now.stored.design store.now.design
            (touch_of touched.now)) }
    {
        let before = &self.rows;
        let rows = updated_rows(
            rt, alloc, base, store, graph, touched, arrivals, before, seeds, changed, workers,
            gate, steps,
        )?;
        Ok(Required { rows })
    }
}
