//! What a graph knows of nodes and pins, in tables whose copies share them.

ghost use Rattle.std.specs.Prelude.{◌≡◌, map, IfOk};
ghost use Rattle.pin_graph.specs.Marks.{flag_of};
ghost use Rattle.pin_graph.specs.NodeGraphs.{AreNodeTables, ArePinTables};

use crate::fans::Fan;
use crate::held_fans::Fans;
use crate::pins::PinGraph;
use cow_table::{CowTable, Held};
use sta_units::{Memory, Pair, both};
use std::alloc::Global;
use timing_defs::Items;

/// What is known of nodes and pins, by their numbers. Graphs of stores with the same links share it.
#[derive(Drop)]
pub(crate) struct Tables {
    /// The arcs into and out of each node.
    pub(crate) ins: Fans,
    pub(crate) outs: Fans,
    /// Whether a pin is of the clock network.
    pub(crate) network: CowTable<bool>,
    /// 1 where clocks' ports reach a pin, else 0.
    pub(crate) fed: CowTable<u32>,
    /// 1 where a pin reaches a register's clock pin, else 0.
    pub(crate) feeds: CowTable<u32>,
    /// The level of a pin: 0 without arcs in, else one more than the greatest level before.
    pub(crate) pin_levels: CowTable<u32>,
    /// The level of a node, likewise.
    pub(crate) levels: CowTable<u32>,
    /// The place of a node in the clock network.
    pub(crate) places: CowTable<Option<u32>>,
    /// The nodes that have places, in the order of these.
    pub(crate) order: Held<Items<u32>>,
}

/// What is found of nodes.
#[derive(Drop)]
pub(crate) struct NodeGraph {
    pub(crate) ins: Fan,
    pub(crate) outs: Fan,
    pub(crate) levels: Items<u32>,
    pub(crate) places: Items<Option<u32>>,
    pub(crate) order: Items<u32>,
}

/// The tables of nodes.
#[derive(Drop)]
pub(crate) struct NodeTables {
    pub(crate) ins: Fans,
    pub(crate) outs: Fans,
    pub(crate) levels: CowTable<u32>,
    pub(crate) places: CowTable<Option<u32>>,
    pub(crate) order: Held<Items<u32>>,
}

/// The tables of pins.
#[derive(Drop)]
pub(crate) struct PinTables {
    pub(crate) network: CowTable<bool>,
    pub(crate) fed: CowTable<u32>,
    pub(crate) feeds: CowTable<u32>,
    pub(crate) levels: CowTable<u32>,
}

/// The number that stands for a mark: 1 where it is set, else 0.
pub(crate) fn flag_of(mark: bool) -> u32
    ensures { result ≡ flag_of mark }
{
    if mark { 1 } else { 0 }
}

/// A table of the numbers that stand for marks.
fn flag_table(alloc: Global, marks: &[bool]) -> Result<CowTable<u32>, Memory>
    ensures { IfOk result (λ table. table ≡ map flag_of marks.now) }
{
    let mut table = CowTable::new(alloc);
    for mark in marks {
        table.push(flag_of(*mark))?;
    }
    Ok(table)
}

/// A table of numbers.
fn number_table(alloc: Global, numbers: &[u32]) -> Result<CowTable<u32>, Memory>
    ensures { IfOk result (λ table. table ≡ numbers.now) }
{
    let mut table = CowTable::new(alloc);
    for number in numbers {
        table.push(*number)?;
    }
    Ok(table)
}

/// A table of places.
fn place_table(alloc: Global, places: &[Option<u32>]) -> Result<CowTable<Option<u32>>, Memory>
    ensures { IfOk result (λ table. table ≡ places.now) }
{
    let mut table = CowTable::new(alloc);
    for place in places {
        table.push(*place)?;
    }
    Ok(table)
}

/// The tables of `n` nodes.
pub(crate) fn node_tables(alloc: Global, n: u32, nodes: NodeGraph) -> Result<NodeTables, Memory>
    ensures { IfOk result (AreNodeTables n nodes) }
{
    let NodeGraph {
        ins,
        outs,
        levels,
        places,
        order,
    } = nodes;
    let values = both(
        number_table(alloc, levels.as_slice()),
        place_table(alloc, places.as_slice()),
    );
    drop(levels);
    drop(places);
    let values = both(values, Held::of(alloc, order));
    let fans = both(Fans::of(alloc, n, ins), Fans::of(alloc, n, outs));
    let Pair {
        one: fans,
        other: values,
    } = both(fans, values)?;
    let Pair {
        one: ins,
        other: outs,
    } = fans;
    let Pair {
        one: values,
        other: order,
    } = values;
    let Pair {
        one: levels,
        other: places,
    } = values;
    Ok(NodeTables {
        ins,
        outs,
        levels,
        places,
        order,
    })
}

/// The tables of pins.
pub(crate) fn pin_tables(alloc: Global, pins: &PinGraph) -> Result<PinTables, Memory>
    ensures { IfOk result (ArePinTables pins.now) }
{
    let flags = both(
        flag_table(alloc, pins.reach.from_clocks.as_slice()),
        flag_table(alloc, pins.reach.to_registers.as_slice()),
    );
    let others = both(
        number_table(alloc, pins.levels.as_slice()),
        pins.network.copy(),
    );
    let Pair {
        one: flags,
        other: others,
    } = both(flags, others)?;
    let Pair {
        one: fed,
        other: feeds,
    } = flags;
    let Pair {
        one: levels,
        other: network,
    } = others;
    Ok(PinTables {
        network,
        fed,
        feeds,
        levels,
    })
}

/// The tables of pins and nodes.
pub(crate) fn tables_of(pins: PinTables, nodes: NodeTables) -> Tables
    ensures { result
        ≡ record {
          ins = nodes.ins;
          outs = nodes.outs;
          network = pins.network;
          fed = pins.fed;
          feeds =
              pins.feeds;
          pin_levels = pins.levels;
          levels = nodes.levels;
          places = nodes.places;
          order =
              nodes.order;
        } }
{
    Tables {
        ins: nodes.ins,
        outs: nodes.outs,
        network: pins.network,
        fed: pins.fed,
        feeds: pins.feeds,
        pin_levels: pins.levels,
        levels: nodes.levels,
        places: nodes.places,
        order: nodes.order,
    }
}
