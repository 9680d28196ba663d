//! The timing graph of a design, by nodes.

ghost use Rattle.std.specs.Prelude.{◌≡◌, ◌<◌, None, Some, if◌then◌else◌, IfOk, IfErr, IfSome};
ghost use Rattle.timing_defs.specs.NetChecks.{net_fault};
ghost use Rattle.timing_rules.specs.Checks.{clock_not_tree};
ghost use Rattle.netlist_store.specs.Linked.{IsLinked};
ghost use Rattle.netlist_store.specs.Numbering.{is_number, IsNumbered};
ghost use Rattle.pin_graph.specs.Refusals.{IsGraphRefused};
ghost use Rattle.pin_graph.specs.Nodes.{node_bound, number_at, pin_under, tran_under};
ghost use Rattle.pin_graph.specs.NodeArcs.{marked, node_arcs, AreMerged};
ghost use Rattle.pin_graph.specs.NodeGraphs.{IsFound};
ghost use Rattle.pin_graph.specs.Kept.{graph_in, IsKept, IsKeptGraph, HaveSameLinks};
ghost use Rattle.netlist_store.specs.Applying.{IsEditOf};
ghost use Rattle.pin_graph.specs.PinGraphs.{IsPinGraph};
ghost use Rattle.pin_graph.specs.Graphs.{fan_at, network_at, level_at, place_at, AreClockNodes, IsGraph};

use crate::arcs::GraphArc;
use crate::fans::{End, Fan};
use crate::keeping::keeps_links;
use crate::merging::merged;
use crate::networks::clock_ports;
use crate::node_arcs::node_arcs;
use crate::node_levels::node_levels;
use crate::nodes::{node_number, pin_under, tran_under};
use crate::pins::{PinGraph, pin_graph};
use crate::places::places;
use crate::replacing::replaced;
use crate::tables::{NodeGraph, Tables, node_tables, pin_tables, tables_of};
use crate::trees::check_tree;
use crate::updates::is_marked;
use cow_table::Held;
use netlist_store::{Store, Touched};
use sta_units::{Memory, Pair, both};
use std::alloc::Global;
use std::marker::Model;
use timing_defs::{Fault, Items, Name, Tran};

/// The timing graph of a store's design, over the numbers of nodes. Contracts see the store and, by
/// number, the arcs into and out of each node, its level, its place, and which pins are of the clock
/// network.
#[derive(Drop)]
pub struct Graph {
    store: Store,
    tables: Held<Tables>,
}

impl Model for Graph {
    ghost use Rattle.pin_graph.specs.Graphs.{Graphed};
    ghost use Rattle.pin_graph.specs.Kept.{graph_in, IsKept};

    ghost Value = { Graphed };

    ghost view = { λ g. graph_in g.store g.tables };

    ghost invariant = { λ g. IsKept g.store g.tables };
}

/// The arcs between nodes, one for all library arcs between the same two.
fn merged_arcs(alloc: Global, store: &Store, pins: &PinGraph) -> Result<Items<GraphArc>, Memory>
    requires { IsPinGraph store.now pins.now }
    ensures { IfOk result
        (AreMerged (node_bound store.now) (node_arcs store.now pins.now.network)) }
{
    store.laws();
    let raw = node_arcs(
        alloc,
        store,
        &pins.network,
        pins.befores.as_slice(),
        pins.arcs.as_slice(),
    )?;
    merged(alloc, 2 * store.pin_bound(), raw.as_slice())
}

/// The levels, places and arcs of nodes.
fn node_graph(
    alloc: Global,
    store: &Store,
    pins: &PinGraph,
    arcs: &[GraphArc],
) -> Result<NodeGraph, Memory>
    requires fault { net_fault store.now.design ≡ None }
    requires pins { IsPinGraph store.now pins.now }
    requires arcs { AreMerged (node_bound store.now) (node_arcs store.now pins.now.network)
        arcs.now }
    ensures { IfOk result (IsFound store.now pins.now.network arcs.now) }
{
    store.laws();
    let n = 2 * store.pin_bound();
    let Pair {
        one: levels,
        other: ports,
    } = both(node_levels(alloc, n, arcs), clock_ports(alloc, store))?;
    let placed = places(
        alloc,
        n,
        &pins.network,
        ports.as_slice(),
        arcs,
        levels.as_slice(),
    );
    drop(ports);
    let fans = both(
        Fan::of(alloc, n, End::To, arcs),
        Fan::of(alloc, n, End::From, arcs),
    );
    match both(placed, fans) {
        Ok(found) => {
            let Pair {
                one: placed,
                other: fans,
            } = found;
            Ok(NodeGraph {
                ins: fans.one,
                outs: fans.other,
                levels,
                places: placed.places,
                order: placed.order,
            })
        }
        Err(wanting) => {
            drop(levels);
            Err(wanting)
        }
    }
}

/// The tables of a store without a loop, whose clock network is a tree.
fn graph_tables(alloc: Global, store: &Store, pins: &PinGraph) -> Result<Tables, Memory>
    requires fault { net_fault store.now.design ≡ None }
    requires tree { clock_not_tree store.now.design ≡ None }
    requires pins { IsPinGraph store.now pins.now }
    ensures { IfOk result (IsKept store.now) }
{
    store.laws();
    let arcs = merged_arcs(alloc, store, pins)?;
    let found = node_graph(alloc, store, pins, arcs.as_slice())?;
    let nodes = node_tables(alloc, 2 * store.pin_bound(), found)?;
    let made = pin_tables(alloc, pins)?;
    Ok(tables_of(made, nodes))
}

/// The graph of a store without a loop, whose clock network is a tree.
fn graph_of(alloc: Global, store: &Store, pins: &PinGraph) -> Result<Graph, Memory>
    requires fault { net_fault store.now.design ≡ None }
    requires tree { clock_not_tree store.now.design ≡ None }
    requires pins { IsPinGraph store.now pins.now }
    ensures { IfOk result (λ graph. graph.stored ≡ store.now) }
{
    let tables = graph_tables(alloc, store, pins)?;
    let tables = Held::of(alloc, tables)?;
    with_tables(store, tables)
}

/// The graph of a store with its tables.
fn with_tables(store: &Store, tables: Held<Tables>) -> Result<Graph, Memory>
    requires { IsKept store.now tables }
    ensures { IfOk result (λ graph. graph.stored ≡ store.now) }
{
    match store.copy() {
        Ok(store) => Ok(Graph { store, tables }),
        Err(wanting) => {
            tables.discard();
            Err(wanting)
        }
    }
}

impl Graph {
    /// The timing graph of a store. A design in which a walk over net arcs, combinational and edge arcs
    /// is cyclic is refused by the names of the pins of one such walk (`E11`); else one whose clock
    /// network is no tree, by the least name of a pin that breaks it (`E12`). Takes as many steps as
    /// the design has pins and its cells have arcs, and those of sorting the network's nodes.
    pub fn of(alloc: Global, store: &Store) -> Result<Graph, Fault>
        requires { net_fault store.now.design ≡ None }
        ensures graph { IfOk result (λ graph. graph.stored ≡ store.now) }
        ensures refused { IfErr result (IsGraphRefused store.now.design) }
    {
        let pins = pin_graph(alloc, store)?;
        check_tree(alloc, store, &pins.network, pins.arcs.as_slice())?;
        Ok(graph_of(alloc, store, &pins)?)
    }

    /// The graph of another store with the same links, which shares this one's tables.
    #[tactic(auto, using(crate::proofs::KeptLaws::kept_held))]
    fn shared(&self, store: &Store) -> Result<Graph, Memory>
        requires fault { net_fault store.now.design ≡ None }
        requires links { HaveSameLinks self.now.stored store.now }
        ensures { IfOk result (λ graph. graph.stored ≡ store.now) }
    {
        store.laws();
        let tables = self.tables.share()?;
        with_tables(store, tables)
    }

    /// The graph of the store that an ECO made of this graph's store, with other links; none where it is to be
    /// found anew.
    fn changed(
        &self,
        alloc: Global,
        store: &Store,
        touched: &Touched,
    ) -> Result<Option<Graph>, Memory>
        requires fault { net_fault store.now.design ≡ None }
        requires made { IsEditOf self.now.stored
            (record { insts = touched.now.insts; nets = touched.now.nets }) store.now }
        ensures { IfOk result (λ ended. IfSome ended (λ graph. graph.stored ≡ store.now)) }
    {
        match replaced(alloc, &self.store, store, touched, self.tables.get())? {
            Some(tables) => Ok(Some(with_tables(store, Held::of(alloc, tables)?)?)),
            None => Ok(None),
        }
    }

    /// The graph of the store that an ECO made of this graph's store, as `of` has it; `touched` is what the
    /// ECO touched. Where the ECO left all links (it sets parasitics, or gives instances cells with the same
    /// pins, arcs and tests, in one order) the tables are shared, in the time of the change. Where it changed
    /// links and left the clock network, it takes time of what it touched and of the pins and nodes whose level
    /// changes. The graph is found anew where the ECO changed the clock network, where a walk is cyclic or levels
    /// are not found in turns enough, and where fewer pin numbers are in use than in the base.
    pub fn update(&self, alloc: Global, store: &Store, touched: &Touched) -> Result<Graph, Fault>
        requires fault { net_fault store.now.design ≡ None }
        requires made { IsEditOf self.now.stored
            (record { insts = touched.now.insts; nets = touched.now.nets }) store.now }
        ensures graph { IfOk result (λ graph. graph.stored ≡ store.now) }
        ensures refused { IfErr result (IsGraphRefused store.now.design) }
    {
        if keeps_links(&self.store, store, touched) {
            return Ok(self.shared(store)?);
        }
        match self.changed(alloc, store, touched)? {
            Some(graph) => Ok(graph),
            None => Graph::of(alloc, store),
        }
    }

    /// Gives the graph up.
    pub fn discard(self) {
        let Graph { store, tables } = self;
        store.discard();
        tables.discard();
    }

    /// What every graph keeps, told to the proofs of callers; the call does nothing.
    pub fn laws(&self)
        ensures { IsGraph self.now }
    {
        let _ = &self.tables;
    }

    /// The same, and what is kept of each pin and each node, told to the proofs of this crate; the call does nothing.
    pub(crate) fn kept(&self)
        ensures kept { IsKeptGraph self.now }
        ensures graph { IsGraph self.now }
        ensures fault { net_fault self.now.stored.design ≡ None }
        ensures numbered { IsNumbered self.now.stored }
        ensures linked { IsLinked self.now.stored.design }
    {
        self.store.laws();
        let _ = &self.tables;
    }

    /// The store.
    pub fn store(&self) -> &Store
        ensures { result.now ≡ self.now.stored }
    {
        &self.store
    }

    /// Whether a number is that of a node.
    pub(crate) fn has(&self, node: u32) -> bool
        ensures { result ≡ is_number self.now.stored.pins (pin_under node) }
    {
        self.store.has_pin(pin_under(node))
    }

    /// A number above that of every node.
    pub fn count(&self) -> u32
        ensures { result ≡ node_bound self.now.stored }
    {
        2 * self.store.pin_bound()
    }

    /// The number of a pin's node; none exactly where no pin has that name. Takes no memory.
    #[tactic(auto, using(crate::proofs::GraphOf::number_low))]
    pub fn node(&self, pin: &Name, tran: Tran) -> Option<u32>
        ensures value { result ≡ number_at self.now.stored pin.now tran }
        ensures below { IfSome result (λ node. node < node_bound self.now.stored) }
    {
        self.store.laws();
        let pin = self.store.pin(pin)?;
        Some(node_number(pin, tran))
    }

    /// The store's number of a node's pin; none where the number is of no node. Takes no memory.
    pub fn pin_of(&self, node: u32) -> Option<u32>
        requires { node < node_bound self.now.stored }
        ensures { result
            ≡
            (if is_number self.now.stored.pins (pin_under node) then Some (pin_under node) else
            None) }
    {
        let pin = pin_under(node);
        if self.store.has_pin(pin) {
            Some(pin)
        } else {
            None
        }
    }

    /// The transition of a node.
    pub fn tran_of(&self, node: u32) -> Tran
        requires { node < node_bound self.now.stored }
        ensures { result ≡ tran_under node }
    {
        tran_under(node)
    }

    /// The arcs into a node; none of a number that is of no node. Takes no memory.
    pub fn arcs_in(&self, node: u32) -> &[GraphArc]
        requires { node < node_bound self.now.stored }
        ensures { result.now ≡ fan_at self.now.ins node }
    {
        self.tables.get().ins.at(node)
    }

    /// The arcs out of a node; none of a number that is of no node. Takes no memory.
    pub fn arcs_out(&self, node: u32) -> &[GraphArc]
        requires { node < node_bound self.now.stored }
        ensures { result.now ≡ fan_at self.now.outs node }
    {
        self.tables.get().outs.at(node)
    }

    /// Whether a node is of the clock network.
    pub fn is_network(&self, node: u32) -> bool
        requires { node < node_bound self.now.stored }
        ensures { result ≡ network_at self.now node }
    {
        *self.tables.get().network.get(pin_under(node) as usize)
    }

    /// Whether the pin of a number is of the clock network; that of a number past all pins is not.
    pub(crate) fn is_marked(&self, pin: u32) -> bool
        ensures { result ≡ marked self.now.network pin }
    {
        is_marked(&self.tables.get().network, pin)
    }

    /// The nodes of the clock network that have places, in the order of these.
    pub fn clock_nodes(&self) -> &[u32]
        ensures { AreClockNodes self.now result.now }
    {
        self.tables.get().order.get().as_slice()
    }

    /// The level of a node: 0 without arcs in, else one more than its greatest predecessor's.
    pub fn level(&self, node: u32) -> u32
        requires { node < node_bound self.now.stored }
        ensures { result ≡ level_at self.now node }
    {
        *self.tables.get().levels.get(node as usize)
    }

    /// The place of a node in the clock network, lower than those of the nodes behind it; none exactly
    /// where no walk over network nodes leads to it from a clock port's node.
    pub fn place(&self, node: u32) -> Option<u32>
        requires { node < node_bound self.now.stored }
        ensures { result ≡ place_at self.now node }
    {
        *self.tables.get().places.get(node as usize)
    }
}
