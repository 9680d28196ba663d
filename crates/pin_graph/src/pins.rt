//! The arcs, levels and clock network of a design, pin by pin.

ghost use Rattle.std.specs.Prelude.{◌≡◌, None, map, length, IfOk, IfErr, OnOk};
ghost use Rattle.timing_defs.specs.NetChecks.{net_fault};
ghost use Rattle.timing_rules.specs.Checks.{HasNoLoop};
ghost use Rattle.levelizer.specs.Levels.{AreLevels};
ghost use Rattle.levelizer.specs.Reaching.{AreReached};
ghost use Rattle.pin_graph.specs.Refusals.{IsGraphRefused};
ghost use Rattle.pin_graph.specs.Joins.{befores, pin_arcs, pin_links};
ghost use Rattle.pin_graph.specs.Networks.{network_links, turned, clock_ports, clock_pins, IsNetwork, AreClockMarks};
ghost use Rattle.pin_graph.specs.PinGraphs.{IsPinGraph};

use crate::drivers::befores;
use crate::loops::pin_levels;
use crate::networks::{Reaches, both, reach};
use crate::pin_arcs::{PinArc, pin_arcs};
use crate::pin_links::pin_links;
use cow_table::CowTable;
use netlist_store::Store;
use sta_units::Memory;
use std::alloc::Global;
use timing_defs::{Fault, Items};

/// What is kept for each pin's number, and the arcs of cells.
#[derive(Drop)]
pub(crate) struct PinGraph {
    /// The pin from which a net arc leads to this one.
    pub(crate) befores: Items<Option<u32>>,
    /// The arcs of cells.
    pub(crate) arcs: Items<PinArc>,
    /// 0 without arcs in, else one more than the greatest level before.
    pub(crate) levels: Items<u32>,
    /// Whether clocks' ports reach the pin, and whether it reaches registers.
    pub(crate) reach: Reaches,
    /// Whether the pin is of the clock network.
    pub(crate) network: CowTable<bool>,
}

/// The levels of pins, or a loop.
fn levels_of(
    alloc: Global,
    store: &Store,
    table: &[Option<u32>],
    arcs: &[PinArc],
) -> Result<Items<u32>, Fault>
    requires fault { net_fault store.now.design ≡ None }
    requires table { table.now ≡ befores store.now }
    requires arcs { arcs.now ≡ pin_arcs store.now }
    ensures levels { IfOk result (AreLevels (length store.now.pins) (pin_links store.now)) }
    ensures no_loop { OnOk result (HasNoLoop store.now.design) }
    ensures refused { IfErr result (IsGraphRefused store.now.design) }
{
    let links = pin_links(alloc, store, table, arcs)?;
    pin_levels(alloc, store, links.as_slice())
}

/// Which pins are of the clock network.
fn network_of(
    alloc: Global,
    store: &Store,
    levels: &[u32],
    reach: &Reaches,
) -> Result<CowTable<bool>, Memory>
    requires fault { net_fault store.now.design ≡ None }
    requires levels { AreLevels (length store.now.pins) (pin_links store.now) levels.now }
    requires from { AreReached (length store.now.pins) (network_links store.now)
        (clock_ports store.now) reach.now.from_clocks }
    requires to { AreReached (length store.now.pins) (map turned (network_links store.now))
        (clock_pins store.now) reach.now.to_registers }
    ensures network { IfOk result (IsNetwork store.now) }
    ensures clocked { IfOk result
        (AreClockMarks store.now reach.now.from_clocks reach.now.to_registers) }
{
    store.laws();
    both(
        alloc,
        reach.from_clocks.as_slice(),
        reach.to_registers.as_slice(),
    )
}

/// The arcs, levels and clock network of a design; or a loop.
pub(crate) fn pin_graph(alloc: Global, store: &Store) -> Result<PinGraph, Fault>
    requires { net_fault store.now.design ≡ None }
    ensures graph { IfOk result (IsPinGraph store.now) }
    ensures no_loop { OnOk result (HasNoLoop store.now.design) }
    ensures refused { IfErr result (IsGraphRefused store.now.design) }
{
    let befores = befores(alloc, store)?;
    let arcs = pin_arcs(alloc, store)?;
    let levels = levels_of(alloc, store, befores.as_slice(), arcs.as_slice())?;
    let reach = reach(alloc, store, befores.as_slice(), arcs.as_slice())?;
    let network = network_of(alloc, store, levels.as_slice(), &reach)?;
    Ok(PinGraph {
        befores,
        arcs,
        levels,
        reach,
        network,
    })
}
