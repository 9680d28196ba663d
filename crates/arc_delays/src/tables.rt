//! The delays of the arcs into each node.

ghost use Rattle.std.specs.Prelude.{◌≡◌, ◌<◌, ◌≤◌, [], find, get_or, length, nat_eq, option_and_then, replicate, slice_set, IfOk, OnOk, OnErr};
ghost use Rattle.std.specs.Option.{option_copied};
ghost use Rattle.arc_delays.specs.declared.tables.ArcDelay.{ArcDelay};
ghost use Rattle.arc_delays.specs.Delays.{delay_in, delay_told, sized_delays, AreAllInto, AreDelays, AreWithin};

use cow_table::{CowTable, Held};
use netlist_store::Store;
use pin_graph::Graph;
use sta_units::Memory;
use std::alloc::Global;
use std::marker::Model;
use std::thread::Threads;
use timing_defs::{Items, Split};

/// The delays of an arc from a node, in fs; none where the arc brings nothing.
#[derive(Clone, Copy, Drop)]
pub struct ArcDelay {
    pub from: u32,
    pub early: Option<i64>,
    pub late: Option<i64>,
}

/// The delays of the arcs into each node, by the numbers of nodes. Copies share the list of a node until
/// one of them writes that node.
#[derive(Drop)]
pub struct ArcDelays {
    by_node: CowTable<Held<Items<ArcDelay>>>,
}

impl Model for ArcDelays {
    ghost use Rattle.std.specs.Prelude.{List};
    ghost use Rattle.arc_delays.specs.declared.tables.ArcDelay.{ArcDelay};

    ghost Value = { List (List ArcDelay) };

    ghost view = { λ d. d.by_node };
}

/// Rows with the delays of the arcs between their nodes.
pub trait Delayed {
    ghost use Rattle.std.specs.Prelude.{List};
    ghost use Rattle.arc_delays.specs.declared.tables.ArcDelay.{ArcDelay};

    ghost delays: { Self → List (List ArcDelay) };

    /// The delays of arcs.
    fn delays(&self) -> &ArcDelays
        ensures { result.now ≡ delays self.now };
}

/// The delay of a split.
fn delay_in(delay: &ArcDelay, split: Split) -> Option<i64>
    ensures { result ≡ delay_in split delay.now }
{
    match split {
        Split::Early => delay.early,
        Split::Late => delay.late,
    }
}

/// The first delays of a list that are of an arc from a node.
fn first_from(delays: &[ArcDelay], from: u32) -> Option<&ArcDelay>
    ensures { option_copied result ≡ find (λ (d : ArcDelay). nat_eq d.from from) delays.now }
{
    delays.iter().find(|delay| delay.from == from)
}

/// The delay that a list has of the arc from a node.
fn delay_from(delays: &[ArcDelay], split: Split, from: u32) -> Option<i64>
    ensures { result
        ≡ option_and_then (delay_in split)
        (find (λ (d : ArcDelay). nat_eq d.from from) delays.now) }
{
    match first_from(delays, from) {
        Some(delay) => delay_in(delay, split),
        None => None,
    }
}

/// A list without delays, which many nodes may share.
fn no_arcs(alloc: Global) -> Result<Held<Items<ArcDelay>>, Memory>
    ensures { IfOk result (λ list. list ≡ []) }
{
    Held::of(alloc, Items::new(alloc))
}

/// Adds one list without delays, which they share, for each number up to that many.
fn lengthen(
    alloc: Global,
    table: &mut CowTable<Held<Items<ArcDelay>>>,
    count: usize,
) -> Result<(), Memory>
    requires { length table.old ≤ count }
    ensures { OnOk result (table.new ≡ sized_delays table.old count) }
{
    let empty = no_arcs(alloc)?;
    for at in table.len()..count {
        let _ = at;
        table.push(empty.share()?)?;
    }
    Ok(())
}

/// The first lists, which both tables share.
fn first_lists(
    alloc: Global,
    table: &CowTable<Held<Items<ArcDelay>>>,
    count: usize,
) -> Result<CowTable<Held<Items<ArcDelay>>>, Memory>
    requires { count ≤ length table.now }
    ensures { IfOk result (λ first. first ≡ sized_delays table.now count) }
{
    let mut first = CowTable::new(alloc);
    for at in 0..count {
        first.push(table.get(at).share()?)?;
    }
    Ok(first)
}

/// That many lists: those that are there, then ones without delays.
fn sized(
    alloc: Global,
    table: &CowTable<Held<Items<ArcDelay>>>,
    count: usize,
) -> Result<CowTable<Held<Items<ArcDelay>>>, Memory>
    ensures { IfOk result (λ more. more ≡ sized_delays table.now count) }
{
    if count < table.len() {
        return first_lists(alloc, table, count);
    }
    let mut more = table.copy()?;
    lengthen(alloc, &mut more, count)?;
    Ok(more)
}

impl ArcDelays {
    /// A table of that many nodes without delays, to be written. The nodes share one list.
    pub fn none<H: Threads + Sync>(rt: &H, alloc: Global, count: u32) -> Result<ArcDelays, Memory>
        ensures { IfOk result (λ delays. delays ≡ replicate count []) }
    {
        let empty = no_arcs(alloc)?;
        // By one thread: all items raise the same count of owners.
        let by_node = CowTable::filled(rt, alloc, 1, count as usize, &empty)?;
        Ok(ArcDelays { by_node })
    }

    /// A table of the delays of the arcs into each node of a design in which no quantity leaves its
    /// limit has the delays of all arcs. Takes no memory.
    pub fn of(store: &Store, graph: &Graph, table: ArcDelays) -> ArcDelays
        requires graph { graph.now.stored ≡ store.now }
        requires each { AreAllInto graph.now table }
        requires within { AreWithin store.now.design }
        ensures same { result ≡ table }
        ensures all { AreDelays store.now result }
    {
        store.laws();
        graph.laws();
        table
    }

    /// The same delays; both share all lists until one of the two is written.
    pub fn copy(&self) -> Result<ArcDelays, Memory>
        ensures { IfOk result (λ delays. delays ≡ self.now) }
    {
        let by_node = self.by_node.copy()?;
        Ok(ArcDelays { by_node })
    }

    /// The same delays of the nodes below that number, and no delays of other nodes below it. Both share
    /// all lists until one of the two is written.
    pub fn sized(&self, alloc: Global, count: u32) -> Result<ArcDelays, Memory>
        ensures { IfOk result (λ delays. delays ≡ sized_delays self.now count) }
    {
        let by_node = sized(alloc, &self.by_node, count as usize)?;
        Ok(ArcDelays { by_node })
    }

    /// Writes the delays of the arcs into a node, whose number is below that of the nodes. No copy of the
    /// table changes. Where memory is wanting the delays are as before.
    pub fn set(&mut self, alloc: Global, node: u32, delays: Items<ArcDelay>) -> Result<(), Memory>
        requires { node < length self.old }
        ensures ok { OnOk result (self.new ≡ slice_set self.old node delays) }
        ensures err { OnErr result (self.new ≡ self.old) }
    {
        self.put(node, Held::of(alloc, delays)?)
    }

    /// The same of a list that others may share.
    pub fn put(&mut self, node: u32, delays: Held<Items<ArcDelay>>) -> Result<(), Memory>
        requires { node < length self.old }
        ensures ok { OnOk result (self.new ≡ slice_set self.old node delays) }
        ensures err { OnErr result (self.new ≡ self.old) }
    {
        self.by_node.set(node as usize, delays)
    }

    /// The delays of the arcs into a node. Takes no memory.
    pub fn of_node(&self, node: u32) -> &[ArcDelay]
        requires { node < length self.now }
        ensures { result.now ≡ get_or self.now node [] }
    {
        self.by_node.get(node as usize).get().as_slice()
    }

    /// The delay in fs that the table has of the arc from one node to another, in time of the arcs into
    /// the other. Takes no memory.
    pub fn along(&self, split: Split, from: u32, to: u32) -> Option<i64>
        requires { to < length self.now }
        ensures { result ≡ delay_told self.now split from to }
    {
        delay_from(self.of_node(to), split, from)
    }
}
