//! The rows of all nodes, and the tables that they are evaluated with.

ghost use Rattle.std.specs.Prelude.{ℕ, ◌≡◌, ◌<◌, ◌≤◌, Some, length, replicate, slice_get, slice_set, IfOk, IfErr, OnOk, OnErr};
ghost use Rattle.std.specs.Arc.{arc_value};
ghost use Rattle.timing_rules.specs.Checks.{IsSound};
ghost use Rattle.timing_rules.specs.Rows.{empty_row};
ghost use Rattle.arc_delays.specs.Delays.{AreAllInto, AreDelays, AreWithin};
ghost use Rattle.node_rows.specs.PortTables.{ArePorts};
ghost use Rattle.pin_graph.specs.Nodes.{node_bound};
ghost use Rattle.pin_graph.specs.RowTables.{AreRows, AreRowsFine, IsRangeFault};
ghost use Rattle.arrival_engine.specs.Analysed.{AreTables, AreReady, sized_rows};
ghost use Rattle.arrival_engine.specs.Planned.{ArePlanned};

use crate::nodes::empty_row;
use crate::passes::{Found, full_rows};
use arc_delays::{ArcDelays, Delayed};
use cow_table::CowTable;
use netlist_store::Store;
use node_rows::{Ports, Setting, Wired, Wires};
use pin_graph::Graph;
use sta_outside::Gate;
use sta_units::{Again, Memory};
use std::alloc::Global;
use std::sync::Arc;
use std::thread::Threads;
use timing_defs::{Fault, NodeRow, Rows};

/// The slews and arrivals of all nodes by their numbers, in fs, the tables of wires and of ports that
/// they are evaluated with, and the delays of arcs. Copies share the tables and the delays, and the rows
/// until one writes them.
#[derive(Drop)]
pub struct Arrivals {
    pub(crate) rows: CowTable<NodeRow>,
    pub(crate) wires: Arc<Wires>,
    pub(crate) ports: Arc<Ports>,
    pub(crate) delays: Arc<ArcDelays>,
}

/// Adds empty rows up to that many.
fn lengthen(alloc: Global, rows: &mut CowTable<NodeRow>, count: usize) -> Result<(), Memory>
    requires { length rows.old ≤ count }
    ensures { OnOk result (rows.new ≡ sized_rows rows.old count) }
{
    for at in rows.len()..count {
        let _ = at;
        rows.push(empty_row(alloc))?;
    }
    Ok(())
}

/// A copy of the first rows.
fn first_rows(
    alloc: Global,
    rows: &CowTable<NodeRow>,
    count: usize,
) -> Result<CowTable<NodeRow>, Memory>
    requires { count ≤ length rows.now }
    ensures { IfOk result (λ first. first ≡ sized_rows rows.now count) }
{
    let mut first = CowTable::new(alloc);
    for at in 0..count {
        first.push(rows.get(at).again(alloc)?)?;
    }
    Ok(first)
}

/// That many rows: a copy of those that are there, then empty ones.
pub(crate) fn sized(
    alloc: Global,
    rows: &CowTable<NodeRow>,
    count: usize,
) -> Result<CowTable<NodeRow>, Memory>
    ensures { IfOk result (λ more. more ≡ sized_rows rows.now count) }
{
    if count < rows.len() {
        return first_rows(alloc, rows, count);
    }
    let mut more = rows.copy()?;
    lengthen(alloc, &mut more, count)?;
    Ok(more)
}

/// A value that is to be shared, with one owner.
pub(crate) fn shared<T: Drop>(alloc: Global, value: T) -> Result<Arc<T>, Memory>
    ensures { IfOk result (λ owner. arc_value owner ≡ value) }
{
    Ok(Arc::new(alloc, value)?)
}

/// The ports of a store, to be shared.
fn shared_ports(alloc: Global, store: &Store) -> Result<Arc<Ports>, Memory>
    ensures { IfOk result (λ ports. ArePorts store.now.design.constraints (arc_value ports)) }
{
    let ports = Ports::of(alloc, store.constraints())?;
    shared(alloc, ports)
}

/// The wires of a sound store, none of whose nets is too large, to be shared.
#[tactic(auto, using(crate::proofs::PassLaws::large_is_range))]
fn shared_wires<H: Threads + Sync>(
    rt: &H,
    alloc: Global,
    store: &Store,
    ports: &Ports,
    workers: u32,
) -> Result<Arc<Wires>, Fault>
    requires some { 1 ≤ workers }
    requires most { workers ≤ 32 }
    requires sound { IsSound store.now.design }
    requires ports { ArePorts store.now.design.constraints ports.now }
    ensures plan { IfOk result (λ wires. ArePlanned store.now (arc_value wires) ports.now) }
    ensures err { IfErr result (IsRangeFault store.now.design) }
{
    let wires = Wires::of(rt, alloc, store, ports, workers)?;
    Ok(shared(alloc, wires)?)
}

/// The rows of all nodes and the delays of all arcs, over the tables of a store.
#[tactic(auto, using(crate::proofs::PlanLaws::plan_over))]
fn rows_over<H: Threads + Sync, G: Gate>(
    rt: &H,
    alloc: Global,
    store: &Store,
    graph: &Graph,
    workers: u32,
    gate: &G,
    wires: &Wires,
    ports: &Ports,
) -> Result<Found, Fault>
    requires graph { graph.now.stored ≡ store.now }
    requires some { 1 ≤ workers }
    requires most { workers ≤ 32 }
    requires plan { ArePlanned store.now wires.now ports.now }
    ensures rows { IfOk result (λ found. AreRows store.now found.rows) }
    ensures ready { IfOk result
        (λ found. (node : ℕ) → node < node_bound graph.now.stored
        → AreReady graph.now found.rows node) }
    ensures delays { IfOk result (λ found. AreAllInto graph.now found.delays) }
    ensures fine { OnOk result (AreRowsFine store.now.design) }
    ensures within { OnOk result (AreWithin store.now.design) }
    ensures err { IfErr result (IsRangeFault store.now.design) }
{
    let setting = Setting {
        store,
        wires,
        ports,
    };
    full_rows(rt, alloc, &setting, graph, workers, gate)
}

/// The slews and arrivals of all nodes, with the tables of a store.
fn with_tables<H: Threads + Sync, G: Gate>(
    rt: &H,
    alloc: Global,
    store: &Store,
    graph: &Graph,
    workers: u32,
    gate: &G,
    wires: Arc<Wires>,
    ports: Arc<Ports>,
) -> Result<Arrivals, Fault>
    requires graph { graph.now.stored ≡ store.now }
    requires some { 1 ≤ workers }
    requires most { workers ≤ 32 }
    requires plan { ArePlanned store.now (arc_value wires) (arc_value ports) }
    ensures rows { IfOk result (λ a. AreRows store.now a.rows) }
    ensures ready { IfOk result
        (λ a. (node : ℕ) → node < node_bound graph.now.stored → AreReady graph.now a.rows node) }
    ensures tables { IfOk result (AreTables store.now) }
    ensures delays { IfOk result (λ a. AreDelays store.now (arc_value a.delays)) }
    ensures fine { OnOk result (AreRowsFine store.now.design) }
    ensures err { IfErr result (IsRangeFault store.now.design) }
{
    let found = rows_over(rt, alloc, store, graph, workers, gate, &wires, &ports)?;
    let delays = shared(alloc, ArcDelays::of(store, graph, found.delays))?;
    Ok(Arrivals {
        rows: found.rows,
        wires,
        ports,
        delays,
    })
}

impl Arrivals {
    /// The slews and arrivals of all nodes of a store, from nothing: level by level, each level's nodes
    /// shared between that many threads, the gate called as each piece of a level begins; the delays of
    /// the arcs into a node come with its row. The rows are the same whatever the number of workers.
    /// `OutOfRange` at a net or a pin where a load, a wire delay, or a quantity of a node leaves its
    /// limit. Takes time of the nets, nodes and arcs.
    pub fn full<H: Threads + Sync, G: Gate>(
        rt: &H,
        alloc: Global,
        store: &Store,
        graph: &Graph,
        workers: u32,
        gate: &G,
    ) -> Result<Arrivals, Fault>
        requires sound { IsSound store.now.design }
        requires graph { graph.now.stored ≡ store.now }
        requires some { 1 ≤ workers }
        requires most { workers ≤ 32 }
        ensures rows { IfOk result (λ a. AreRows store.now a.rows) }
        ensures ready { IfOk result
            (λ a. (node : ℕ) → node < node_bound store.now → AreReady graph.now a.rows node) }
        ensures tables { IfOk result (AreTables store.now) }
        ensures delays { IfOk result (λ a. AreDelays store.now (arc_value a.delays)) }
        ensures fine { OnOk result (AreRowsFine store.now.design) }
        ensures err { IfErr result (IsRangeFault store.now.design) }
    {
        let ports = shared_ports(alloc, store)?;
        let wires = shared_wires(rt, alloc, store, &ports, workers)?;
        with_tables(rt, alloc, store, graph, workers, gate, wires, ports)
    }

    /// The row of a node, whose number is below that of the rows. Takes no memory.
    pub fn row(&self, node: u32) -> &NodeRow
        requires { node < length self.now.rows }
        ensures { slice_get self.now.rows node ≡ Some result.now }
    {
        self.rows.get(node as usize)
    }

    /// The same rows below that number, and empty rows elsewhere, with the same tables. The rows are
    /// shared until one of the two is written.
    pub fn sized(&self, alloc: Global, count: u32) -> Result<Arrivals, Memory>
        ensures rows { IfOk result (λ a. a.rows ≡ sized_rows self.now.rows count) }
        ensures wires { IfOk result (λ a. arc_value a.wires ≡ arc_value self.now.wires) }
        ensures ports { IfOk result (λ a. arc_value a.ports ≡ arc_value self.now.ports) }
        ensures delays { IfOk result (λ a. arc_value a.delays ≡ arc_value self.now.delays) }
    {
        Ok(Arrivals {
            rows: sized(alloc, &self.rows, count as usize)?,
            wires: self.wires.clone()?,
            ports: self.ports.clone()?,
            delays: self.delays.clone()?,
        })
    }

    /// Writes the row of a node, whose number is below that of the rows. Tables and delays stay. Where
    /// memory is wanting the rows are as before.
    pub fn set(&mut self, node: u32, row: NodeRow) -> Result<(), Memory>
        requires { node < length self.old.rows }
        ensures ok { OnOk result (self.new.rows ≡ slice_set self.old.rows node row) }
        ensures err { OnErr result (self.new.rows ≡ self.old.rows) }
        ensures wires { arc_value self.new.wires ≡ arc_value self.old.wires }
        ensures ports { arc_value self.new.ports ≡ arc_value self.old.ports }
        ensures delays { arc_value self.new.delays ≡ arc_value self.old.delays }
    {
        self.rows.set(node as usize, row)
    }

    /// A store with the tables of these rows.
    pub(crate) fn setting<'a>(&'a self, store: &'a Store) -> Setting<'a>
        ensures store { result.store.now ≡ store.now }
        ensures wires { result.wires.now ≡ arc_value self.now.wires }
        ensures ports { result.ports.now ≡ arc_value self.now.ports }
    {
        Setting {
            store,
            wires: &self.wires,
            ports: &self.ports,
        }
    }
}

impl Rows for Arrivals {
    ghost rows = { λ a. a.rows };

    fn row(&self, node: u32) -> &NodeRow {
        self.rows.get(node as usize)
    }
}

impl Wired for Arrivals {
    ghost use Rattle.std.specs.Arc.{arc_value};

    ghost wires = { λ a. arc_value a.wires };

    ghost ports = { λ a. arc_value a.ports };

    fn wires(&self) -> &Wires {
        &self.wires
    }

    fn ports(&self) -> &Ports {
        &self.ports
    }
}

impl Delayed for Arrivals {
    ghost use Rattle.std.specs.Arc.{arc_value};

    ghost delays = { λ a. arc_value a.delays };

    fn delays(&self) -> &ArcDelays {
        &self.delays
    }
}
