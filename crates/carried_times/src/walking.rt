//! The walk over the nodes behind a change.

ghost use Rattle.std.specs.Prelude.{◌≡◌, ◌<◌, All, IfOk, IfSome};
ghost use Rattle.netlist_store.specs.Applying.{IsEditOf};
ghost use Rattle.pin_graph.specs.Nodes.{node_bound};
ghost use Rattle.pin_graph.specs.RowTables.{AreRows};
ghost use Rattle.arc_delays.specs.Delays.{AreDelays};
ghost use Rattle.edit_reach.specs.Reach.{is_in, HasSeeds, AreBehind};
ghost use Rattle.carried_times.specs.Sides.{found_at, time_at, ArePassed, IsMore, IsTold, IsWalked, IsJoined, AreCarriedTimes};

use crate::carried::{Carried, merged, no_times};
use crate::ordering::{by_level, number_set};
use crate::steps::{Side, step};
use arc_delays::Delayed;
use indexmap::IndexSet;
use netlist_store::Touched;
use pin_graph::{Graph, GraphArc};
use sta_units::Memory;
use std::alloc::Global;
use timing_defs::{Items, Rows};

/// The times carried to the nodes behind an edit: its seeds, these nodes with the seeds, lower levels first,
/// and the times of each of them, at the same place. All go by their numbers in the edited graph.
#[derive(Drop)]
pub struct CarriedTimes {
    seeds: IndexSet<u32>,
    nodes: IndexSet<u32>,
    times: Items<Carried>,
}

/// The times of a node among those found so far; none of one that is not behind the change, nothing where it is not
/// found yet.
fn found_at(nodes: &IndexSet<u32>, times: &[Carried], node: u32) -> Option<Carried>
    ensures { result ≡ found_at nodes.now.keys times.now node }
{
    match nodes.get_index_of(&node) {
        Some(place) => times.get(place).copied(),
        None => Some(no_times()),
    }
}

impl CarriedTimes {
    /// Whether a node is a seed. Takes no memory.
    pub fn is_seed(&self, node: u32) -> bool
        ensures { result ≡ is_in self.now.seeds.keys node }
    {
        self.seeds.contains(&node)
    }

    /// Whether a node is a seed or behind one. Takes no memory.
    pub fn has(&self, node: u32) -> bool
        ensures { result ≡ is_in self.now.nodes.keys node }
    {
        self.nodes.contains(&node)
    }

    /// The times carried to a node; none in either split where it is no seed and not behind one. Takes no
    /// memory.
    pub fn at(&self, node: u32) -> Carried
        ensures { result ≡ time_at self.now.nodes.keys self.now.times node }
    {
        match found_at(&self.nodes, self.times.as_slice(), node) {
            Some(times) => times,
            None => no_times(),
        }
    }
}

/// The times with those behind one arc more.
fn passed<A: Rows + Delayed>(
    before: &Side<'_, A>,
    after: &Side<'_, A>,
    nodes: &IndexSet<u32>,
    times: &[Carried],
    found: Carried,
    arc: &GraphArc,
) -> Option<Carried>
    ensures { IfSome result (IsMore before.now after.now nodes.now.keys times.now found arc.now) }
{
    let from = found_at(nodes, times, arc.from)?;
    let behind = step(before, after, arc, from)?;
    Some(merged(found, behind))
}

/// The times behind some arcs.
fn behind<A: Rows + Delayed>(
    before: &Side<'_, A>,
    after: &Side<'_, A>,
    nodes: &IndexSet<u32>,
    times: &[Carried],
    arcs: &[GraphArc],
) -> Option<Carried>
    ensures { IfSome result
        (λ found. ArePassed before.now after.now nodes.now.keys times.now found arcs.now) }
{
    let mut found = no_times();
    for arc in arcs {
        found = passed(before, after, nodes, times, found, arc)?;
    }
    Some(found)
}

/// The times of a node: all its arrivals, where it is a seed, else those behind the arcs into it.
fn node_times<A: Rows + Delayed>(
    before: &Side<'_, A>,
    after: &Side<'_, A>,
    graph: &Graph,
    seeds: &IndexSet<u32>,
    nodes: &IndexSet<u32>,
    times: &[Carried],
    node: u32,
) -> Option<Carried>
    requires { node < node_bound graph.now.stored }
    ensures { IfSome result
        (IsTold before.now after.now graph.now seeds.now.keys nodes.now.keys times.now node) }
{
    if seeds.contains(&node) {
        Some(merged(before.whole(node), after.whole(node)))
    } else {
        behind(before, after, nodes, times, graph.arcs_in(node))
    }
}

/// The times of nodes in their order; gives up where a node stands before one from which an arc leads to it.
fn walked<A: Rows + Delayed>(
    alloc: Global,
    before: &Side<'_, A>,
    after: &Side<'_, A>,
    graph: &Graph,
    seeds: &IndexSet<u32>,
    nodes: &IndexSet<u32>,
) -> Result<Option<Items<Carried>>, Memory>
    requires { All (λ n. n < node_bound graph.now.stored) nodes.now.keys }
    ensures { IfOk result
        (λ found. IfSome found
        (IsWalked before.now after.now graph.now seeds.now.keys nodes.now.keys)) }
{
    let mut times = Items::with_room(alloc, nodes.len())?;
    for node in nodes.as_slice() {
        let found = node_times(before, after, graph, seeds, nodes, times.as_slice(), *node);
        match found {
            Some(found) => times.push(found)?,
            None => return Ok(None),
        }
    }
    Ok(Some(times))
}

/// The times that a walk over nodes found, with the nodes and their seeds.
fn with_times(
    seeds: IndexSet<u32>,
    nodes: IndexSet<u32>,
    times: Result<Option<Items<Carried>>, Memory>,
) -> Result<Option<CarriedTimes>, Memory>
    ensures { IfOk result (λ found. IfSome found (IsJoined seeds.keys nodes.keys times)) }
{
    match times {
        Ok(Some(times)) => Ok(Some(CarriedTimes {
            seeds,
            nodes,
            times,
        })),
        Ok(None) => Ok(None),
        Err(wanting) => Err(wanting),
    }
}

/// How late, and how early, the paths that an edit changes arrive at the nodes behind it, in the base or in
/// the edited design. `base` with its rows and delays `before`, and `graph` with its own `after`, are the two
/// designs, analysed whole; `seeds` has those of the edit that touched `touched`, and `nodes` the seeds with
/// all nodes behind them, by numbers of `graph`, in any order.
///
/// Nothing is found where a time or a delay that counts is farther from 0 than 4194 s, which no sound
/// design comes to. The one error is want of memory. Takes the time of the arcs into the nodes, of looking up
/// their delays in both designs and of sorting the nodes.
pub fn carried_times<A: Rows + Delayed>(
    alloc: Global,
    base: &Graph,
    before: &A,
    graph: &Graph,
    after: &A,
    touched: &Touched,
    seeds: &[u32],
    nodes: &[u32],
) -> Result<Option<CarriedTimes>, Memory>
    requires rows_before { AreRows base.now.stored (A.rows before.now) }
    requires delays_before { AreDelays base.now.stored (A.delays before.now) }
    requires rows { AreRows graph.now.stored (A.rows after.now) }
    requires delays { AreDelays graph.now.stored (A.delays after.now) }
    requires made { IsEditOf base.now.stored
        (record { insts = touched.now.insts; nets = touched.now.nets }) graph.now.stored }
    requires seeds { HasSeeds base.now.stored graph.now.stored
        (record { insts = touched.now.insts; nets = touched.now.nets }) seeds.now }
    requires behind { AreBehind graph.now seeds.now nodes.now }
    ensures { IfOk result
        (λ found. IfSome found
        (AreCarriedTimes base.now.stored graph.now.stored seeds.now nodes.now)) }
{
    // What was touched is asked for by the contract alone.
    let _ = touched;
    base.laws();
    graph.laws();
    base.store().laws();
    graph.store().laws();
    let seeds = number_set(alloc, seeds)?;
    let nodes = by_level(alloc, graph, nodes)?;
    let old = Side::new(before, base.count());
    let new = Side::new(after, graph.count());
    let times = walked(alloc, &old, &new, graph, &seeds, &nodes);
    with_times(seeds, nodes, times)
}
