//! The tables of a graph after an ECO that changed links: those of the base, with what the ECO changed.

ghost use Rattle.std.specs.Prelude.{ℕ, ◌≡◌, ◌<◌, ◌≤◌, not, false, None, All, length, IsTrue, IfOk, IfSome};
ghost use Rattle.timing_defs.specs.NetChecks.{net_fault};
ghost use Rattle.netlist_store.specs.Applying.{IsEditOf};
ghost use Rattle.settling.specs.Settled.{IsSettled};
ghost use Rattle.pin_graph.specs.HeldFans.{longer};
ghost use Rattle.pin_graph.specs.Kept.{IsKept};
ghost use Rattle.pin_graph.specs.Nodes.{node_bound};
ghost use Rattle.pin_graph.specs.NodeValues.{node_level};
ghost use Rattle.pin_graph.specs.Relinking.{AreBothFans, AreRelinked};
ghost use Rattle.pin_graph.specs.Renewed.{IsEdited, AreDirty, ArePinsAfter, IsOff, is_noted, AreNodesAfter};

use crate::held_fans::Fans;
use crate::node_rules::NodeLevels;
use crate::relinking::relink;
use crate::seeding::{add_all, distinct, gone, nodes_of, touched_pins};
use crate::tables::{NodeTables, PinTables, Tables, tables_of};
use crate::updates::{
    PinsAfter, leaves_network, network_after, pins_after, places_after, settled_again,
};
use cow_table::CowTable;
use netlist_store::{Store, Touched};
use sta_units::{Memory, Pair, both};
use std::alloc::Global;
use timing_defs::Items;

/// The pins at which an ECO changed links, those of the base that are gone among them, in rising order.
#[tactic(auto, using(crate::proofs::NodesAfter::dirty_are))]
fn dirty_pins(
    alloc: Global,
    base: &Store,
    store: &Store,
    touched: &Touched,
) -> Result<Items<u32>, Memory>
    requires made { IsEditOf base.now
        (record { insts = touched.now.insts; nets = touched.now.nets }) store.now }
    requires longer { length base.now.pins ≤ length store.now.pins }
    ensures { IfOk result
        (AreDirty base.now store.now
        (record { insts = touched.now.insts; nets = touched.now.nets })) }
{
    base.laws();
    store.laws();
    let mut pins = touched_pins(alloc, store, touched)?;
    let gone = gone(alloc, base, store, touched)?;
    add_all(&mut pins, gone.as_slice())?;
    Ok(distinct(pins))
}

/// The arcs into and out of nodes.
#[derive(Drop)]
pub(crate) struct BothFans {
    pub(crate) ins: Fans,
    pub(crate) outs: Fans,
}

/// A copy of the arcs of nodes, with nodes without arcs more, up to that number.
fn longer(alloc: Global, fans: &Fans, n: u32) -> Result<Fans, Memory>
    requires { length fans.now.later ≤ n }
    ensures { IfOk result (λ copy. copy ≡ longer fans.now n) }
{
    let mut copy = fans.copy()?;
    match copy.lengthen(alloc, n) {
        Ok(()) => Ok(copy),
        Err(wanting) => {
            drop(copy);
            Err(wanting)
        }
    }
}

/// The arcs into and out of nodes after an ECO: those into the nodes of dirty pins are found anew.
fn fans_after(
    alloc: Global,
    store: &Store,
    network: &CowTable<bool>,
    tables: &Tables,
    dirty: &[u32],
) -> Result<BothFans, Memory>
    requires fault { net_fault store.now.design ≡ None }
    requires network { length network.now ≡ length store.now.pins }
    requires both { AreBothFans (length tables.now.ins.later) tables.now.ins tables.now.outs }
    requires longer { length tables.now.ins.later ≤ node_bound store.now }
    requires dirty { All (λ pin. pin < length store.now.pins) dirty.now }
    ensures { IfOk result
        (λ both. AreRelinked store.now network.now dirty.now
        (longer tables.now.ins (node_bound store.now)) both.ins both.outs) }
{
    store.laws();
    let n = 2 * store.pin_bound();
    let Pair {
        one: mut ins,
        other: mut outs,
    } = both(
        longer(alloc, &tables.ins, n),
        longer(alloc, &tables.outs, n),
    )?;
    match relink(alloc, store, network, &mut ins, &mut outs, dirty) {
        Ok(()) => Ok(BothFans { ins, outs }),
        Err(wanting) => {
            drop(ins);
            drop(outs);
            Err(wanting)
        }
    }
}

/// The levels of nodes after an ECO; none where they are not found in turns enough.
fn levels_after(
    alloc: Global,
    base: &Store,
    store: &Store,
    touched: &Touched,
    network: &CowTable<bool>,
    tables: &Tables,
    both: &BothFans,
    pin_levels: &CowTable<u32>,
    dirty: &[u32],
) -> Result<Option<CowTable<u32>>, Memory>
    requires edited { IsEdited base.now store.now
        (record { insts = touched.now.insts; nets = touched.now.nets }) tables.now }
    requires dirty { AreDirty base.now store.now
        (record { insts = touched.now.insts; nets = touched.now.nets }) dirty.now }
    requires relinked { AreRelinked store.now network.now dirty.now
        (longer tables.now.ins (node_bound store.now)) both.now.ins both.now.outs }
    requires pin_levels { length pin_levels.now ≡ length store.now.pins }
    ensures { IfOk result
        (λ ended. IfSome ended
        (λ levels. IsSettled (node_bound store.now) (node_level both.now.ins) levels
        (λ a. false))) }
{
    // The base, what was touched and the network are asked for by the contract alone.
    let _ = base;
    let _ = touched;
    let _ = network;
    store.laws();
    let nodes = nodes_of(alloc, dirty)?;
    let rule = NodeLevels {
        ins: &both.ins,
        outs: &both.outs,
        pin_levels,
    };
    let n = 2 * store.pin_bound();
    match settled_again(alloc, &rule, &tables.levels, n, nodes.as_slice())? {
        Some(found) => Ok(Some(found.values)),
        None => Ok(None),
    }
}

/// The tables of nodes after an ECO that left the clock network.
fn nodes_after(
    alloc: Global,
    base: &Store,
    store: &Store,
    touched: &Touched,
    network: &CowTable<bool>,
    tables: &Tables,
    pin_levels: &CowTable<u32>,
    dirty: &[u32],
) -> Result<Option<NodeTables>, Memory>
    requires edited { IsEdited base.now store.now
        (record { insts = touched.now.insts; nets = touched.now.nets }) tables.now }
    requires dirty { AreDirty base.now store.now
        (record { insts = touched.now.insts; nets = touched.now.nets }) dirty.now }
    requires network { length network.now ≡ length store.now.pins }
    requires pin_levels { length pin_levels.now ≡ length store.now.pins }
    ensures { IfOk result
        (λ ended. IfSome ended (AreNodesAfter store.now tables.now network.now dirty.now)) }
{
    let both = fans_after(alloc, store, network, tables, dirty)?;
    let Some(levels) = levels_after(
        alloc, base, store, touched, network, tables, &both, pin_levels, dirty,
    )?
    else {
        return Ok(None);
    };
    let places = places_after(&tables.places, 2 * store.pin_bound())?;
    let order = tables.order.share()?;
    let BothFans { ins, outs } = both;
    Ok(Some(NodeTables {
        ins,
        outs,
        levels,
        places,
        order,
    }))
}

/// The tables with what was found of pins.
fn tables_after(
    alloc: Global,
    base: &Store,
    store: &Store,
    touched: &Touched,
    tables: &Tables,
    dirty: &[u32],
    pins: PinsAfter,
) -> Result<Option<Tables>, Memory>
    requires edited { IsEdited base.now store.now
        (record { insts = touched.now.insts; nets = touched.now.nets }) tables.now }
    requires dirty { AreDirty base.now store.now
        (record { insts = touched.now.insts; nets = touched.now.nets }) dirty.now }
    requires pins { ArePinsAfter store.now tables.now pins }
    requires off { (pin : ℕ) → IsTrue (is_noted dirty.now pins pin)
        → IsOff tables.now.network pins pin }
    ensures { IfOk result (λ ended. IfSome ended (IsKept store.now)) }
{
    let network = network_after(&tables.network, store.pin_bound())?;
    let Some(nodes) = nodes_after(
        alloc,
        base,
        store,
        touched,
        &network,
        tables,
        &pins.levels,
        dirty,
    )?
    else {
        return Ok(None);
    };
    let PinsAfter { levels, fed, feeds } = pins;
    let pins = PinTables {
        network,
        fed: fed.values,
        feeds: feeds.values,
        levels,
    };
    Ok(Some(tables_of(pins, nodes)))
}

/// The tables of a store that an ECO made of a base with these. None where a walk is cyclic, where the ECO
/// changed the clock network, or where fewer numbers are in use than the base had: then the graph is to be
/// found anew. Takes time of what the ECO touched and of the nodes and pins whose level changes.
#[tactic(auto, using(crate::proofs::NodesAfter::edited_of))]
pub(crate) fn replaced(
    alloc: Global,
    base: &Store,
    store: &Store,
    touched: &Touched,
    tables: &Tables,
) -> Result<Option<Tables>, Memory>
    requires kept { IsKept base.now tables.now }
    requires made { IsEditOf base.now
        (record { insts = touched.now.insts; nets = touched.now.nets }) store.now }
    requires fault { net_fault store.now.design ≡ None }
    ensures { IfOk result (λ ended. IfSome ended (IsKept store.now)) }
{
    base.laws();
    store.laws();
    if store.pin_bound() < base.pin_bound() {
        return Ok(None);
    }
    let dirty = dirty_pins(alloc, base, store, touched)?;
    let dirty = dirty.as_slice();
    let Some(pins) = pins_after(alloc, base, store, touched, tables, dirty)? else {
        return Ok(None);
    };
    if !leaves_network(store, tables, &pins, dirty) {
        return Ok(None);
    }
    tables_after(alloc, base, store, touched, tables, dirty, pins)
}
