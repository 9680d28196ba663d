//! The required times of all nodes.

ghost use Rattle.std.specs.Prelude.{ℕ, ◌≡◌, ◌<◌, ◌≤◌, Some, length, slice_get, slice_set, IfOk, IfErr, OnOk, OnErr};
ghost use Rattle.timing_rules.specs.Checks.{IsSound};
ghost use Rattle.pin_graph.specs.Nodes.{node_bound};
ghost use Rattle.pin_graph.specs.RowTables.{AreRows, AreRowsFine, AreBackRows, AreBacksFine, IsRangeFault};
ghost use Rattle.arc_delays.specs.Delays.{AreDelays};
ghost use Rattle.required_engine.specs.Worked.{sized_rows, AreBacksWithin, AreReady};

use crate::nodes::empty_back;
use crate::passes::full_rows;
use arc_delays::Delayed;
use cow_table::CowTable;
use netlist_store::Store;
use pin_graph::Graph;
use sta_outside::Gate;
use sta_units::{Again, Memory};
use std::alloc::Global;
use std::thread::Threads;
use timing_defs::{BackRow, Fault, Rows};

/// The required times of all nodes by their numbers, in fs. Copies share the rows until one writes them.
#[derive(Drop)]
pub struct Required {
    pub(crate) rows: CowTable<BackRow>,
}

/// Adds empty rows up to that many.
fn lengthen(alloc: Global, rows: &mut CowTable<BackRow>, count: usize) -> Result<(), Memory>
    requires { length rows.old ≤ count }
    ensures rows { OnOk result (rows.new ≡ sized_rows rows.old count) }
    ensures count { OnOk result (length rows.new ≡ count) }
{
    for at in rows.len()..count {
        let _ = at;
        rows.push(empty_back(alloc))?;
    }
    Ok(())
}

/// A copy of the first rows.
fn first_rows(
    alloc: Global,
    rows: &CowTable<BackRow>,
    count: usize,
) -> Result<CowTable<BackRow>, Memory>
    requires { count ≤ length rows.now }
    ensures { IfOk result (λ first. first ≡ sized_rows rows.now count) }
{
    let mut first = CowTable::new(alloc);
    for at in 0..count {
        first.push(rows.get(at).again(alloc)?)?;
    }
    Ok(first)
}

/// That many rows: a copy of those that are there, then empty ones.
pub(crate) fn sized(
    alloc: Global,
    rows: &CowTable<BackRow>,
    count: usize,
) -> Result<CowTable<BackRow>, Memory>
    ensures { IfOk result (λ more. more ≡ sized_rows rows.now count) }
{
    if count < rows.len() {
        return first_rows(alloc, rows, count);
    }
    let mut more = rows.copy()?;
    lengthen(alloc, &mut more, count)?;
    Ok(more)
}

impl Required {
    /// The required times of all nodes of a store, from nothing, over the slews and arrivals of all nodes:
    /// level by level from the highest down, each level's nodes shared between that many threads, the gate
    /// called as each piece of a level begins, and then the writes of their rows. The rows are the same
    /// whatever the number of workers.
    /// `OutOfRange` at a pin where a setup or hold time or a required time, in fs, leaves its limit. Takes
    /// time of the nodes, and for each launch edge at a node of its tests, or of the arcs into the nodes
    /// after it and of the launch edges there: in all, of the square of each node's arcs in.
    pub fn full<H: Threads + Sync, A: Rows + Delayed + Sync, G: Gate>(
        rt: &H,
        alloc: Global,
        store: &Store,
        graph: &Graph,
        arrivals: &A,
        workers: u32,
        gate: &G,
    ) -> Result<Required, Fault>
        requires some { 1 ≤ workers }
        requires most { workers ≤ 32 }
        requires sound { IsSound store.now.design }
        requires graph { graph.now.stored ≡ store.now }
        requires rows { AreRows store.now (A.rows arrivals.now) }
        requires fine { AreRowsFine store.now.design }
        requires delays { AreDelays store.now (A.delays arrivals.now) }
        ensures rows { IfOk result (λ required. AreBackRows store.now required.rows) }
        ensures ready { IfOk result
            (λ required. (node : ℕ) → node < node_bound store.now
            → AreReady graph.now required.rows node) }
        ensures fine { OnOk result (AreBacksFine store.now.design) }
        ensures within { IfOk result (λ required. AreBacksWithin required.rows) }
        ensures err { IfErr result (IsRangeFault store.now.design) }
    {
        let rows = full_rows(rt, alloc, store, graph, arrivals, workers, gate)?;
        Ok(Required { rows })
    }

    /// The required times of a node, whose number is below that of the rows. Takes no memory.
    pub fn row(&self, node: u32) -> &BackRow
        requires { node < length self.now.rows }
        ensures { slice_get self.now.rows node ≡ Some result.now }
    {
        self.rows.get(node as usize)
    }

    /// The same rows below that number, and empty rows elsewhere. The rows are shared until one of the
    /// two is written.
    pub fn sized(&self, alloc: Global, count: u32) -> Result<Required, Memory>
        ensures { IfOk result (λ required. required.rows ≡ sized_rows self.now.rows count) }
    {
        let rows = sized(alloc, &self.rows, count as usize)?;
        Ok(Required { rows })
    }

    /// Writes the required times of a node, whose number is below that of the rows. Where memory is
    /// wanting the rows are as before.
    pub fn set(&mut self, node: u32, row: BackRow) -> Result<(), Memory>
        requires { node < length self.old.rows }
        ensures ok { OnOk result (self.new.rows ≡ slice_set self.old.rows node row) }
        ensures err { OnErr result (self.new.rows ≡ self.old.rows) }
    {
        self.rows.set(node as usize, row)
    }
}
