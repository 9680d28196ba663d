//! Arcs between nodes: those of nets and those of cells that stand.

ghost use Rattle.std.specs.Prelude.{◌≡◌, ◌++◌, ◌<◌, ◌≤◌, ◌^◌, All, length, IfOk, OnOk};
ghost use Rattle.std.specs.List.{filter_map};
ghost use Rattle.std.specs.Option.{option_to_list};
ghost use Rattle.pin_graph.specs.Joins.{befores, pin_arcs};
ghost use Rattle.pin_graph.specs.Nodes.{node_number};
ghost use Rattle.pin_graph.specs.NodeArcs.{may_enter, stands, node_arc, standing_arc, net_arc, net_pair, net_arcs_into, net_node_arcs, node_arcs};

use crate::arcs::{GraphArc, GraphKind};
use crate::nodes::node_number;
use crate::pin_arcs::PinArc;
use cow_table::CowTable;
use netlist_store::Store;
use sta_units::Memory;
use std::alloc::Global;
use timing_defs::{ArcKind, Items, Tran};

/// Whether an arc may lead from a pin to a pin: a network pin is entered from network pins alone.
pub(crate) fn may_enter(network: &CowTable<bool>, from: u32, to: u32) -> bool
    requires from { from < length network.now }
    requires to { to < length network.now }
    ensures { result ≡ may_enter network.now from to }
{
    !*network.get(to as usize) || *network.get(from as usize)
}

/// Whether a library arc stands: a register arc only where its clock pin is a network pin and its
/// output is not.
fn stands(network: &CowTable<bool>, arc: PinArc) -> bool
    requires from { arc.from < length network.now }
    requires to { arc.to < length network.now }
    ensures { result ≡ stands network.now arc }
{
    match arc.kind {
        ArcKind::Comb => true,
        ArcKind::Edge => *network.get(arc.from as usize) && !*network.get(arc.to as usize),
    }
}

/// A library arc between nodes.
fn node_arc(arc: PinArc) -> GraphArc
    requires from { arc.from < 2 ^ 31 }
    requires to { arc.to < 2 ^ 31 }
    ensures { result ≡ node_arc arc }
{
    let comb = arc.kind.is_comb();
    GraphArc {
        from: node_number(arc.from, arc.from_tran),
        to: node_number(arc.to, arc.to_tran),
        kind: if comb {
            GraphKind::Cell
        } else {
            GraphKind::Register
        },
        edge: !comb,
    }
}

/// A library arc between nodes, where it stands.
pub(crate) fn standing_arc(network: &CowTable<bool>, arc: PinArc) -> Option<GraphArc>
    requires long { length network.now ≤ 2 ^ 31 }
    requires from { arc.from < length network.now }
    requires to { arc.to < length network.now }
    ensures { result ≡ standing_arc network.now arc }
{
    if stands(network, arc) && may_enter(network, arc.from, arc.to) {
        Some(node_arc(arc))
    } else {
        None
    }
}

/// Adds an arc, where it is there.
pub(crate) fn add_arc(arcs: &mut Items<GraphArc>, arc: Option<GraphArc>) -> Result<(), Memory>
    ensures { OnOk result (arcs.new ≡ arcs.old ++ option_to_list arc) }
{
    match arc {
        Some(arc) => arcs.push(arc),
        None => Ok(()),
    }
}

/// Adds the library arcs that stand.
#[tactic(auto, using(crate::proofs::ArcLaws::mapped_more))]
fn add_cell_arcs(
    arcs: &mut Items<GraphArc>,
    network: &CowTable<bool>,
    library: &[PinArc],
) -> Result<(), Memory>
    requires long { length network.now ≤ 2 ^ 31 }
    requires within { All (λ arc. (arc.from < length network.now) × (arc.to < length network.now))
        library.now }
    ensures { OnOk result
        (arcs.new ≡ arcs.old ++ filter_map (standing_arc network.now) library.now) }
{
    for arc in library {
        add_arc(arcs, standing_arc(network, *arc))?;
    }
    Ok(())
}

/// A net arc between nodes.
pub(crate) fn net_arc(from: u32, to: u32, tran: Tran) -> GraphArc
    requires from { from < 2 ^ 31 }
    requires to { to < 2 ^ 31 }
    ensures { result ≡ net_arc (node_number from tran) (node_number to tran) }
{
    GraphArc {
        from: node_number(from, tran),
        to: node_number(to, tran),
        kind: GraphKind::Net,
        edge: false,
    }
}

/// Adds the net arcs from a pin to a pin.
fn add_net_pair(
    arcs: &mut Items<GraphArc>,
    network: &CowTable<bool>,
    to: u32,
    from: u32,
) -> Result<(), Memory>
    requires long { length network.now ≤ 2 ^ 31 }
    requires from { from < length network.now }
    requires to { to < length network.now }
    ensures { OnOk result (arcs.new ≡ arcs.old ++ net_pair network.now to from) }
{
    if !may_enter(network, from, to) {
        return Ok(());
    }
    arcs.push(net_arc(from, to, Tran::Rise))?;
    arcs.push(net_arc(from, to, Tran::Fall))
}

/// Adds the net arcs into a pin.
fn add_net_arcs(
    arcs: &mut Items<GraphArc>,
    store: &Store,
    network: &CowTable<bool>,
    table: &[Option<u32>],
    pin: u32,
) -> Result<(), Memory>
    requires pin { pin < length store.now.pins }
    requires table { table.now ≡ befores store.now }
    requires network { length network.now ≡ length store.now.pins }
    ensures { OnOk result (arcs.new ≡ arcs.old ++ net_arcs_into store.now network.now pin) }
{
    store.laws();
    match table[pin as usize] {
        Some(from) => add_net_pair(arcs, network, pin, from),
        None => Ok(()),
    }
}

/// The net arcs between nodes.
#[tactic(auto, using(crate::proofs::ArcLaws::flat_numbers_more))]
fn net_node_arcs(
    alloc: Global,
    store: &Store,
    network: &CowTable<bool>,
    table: &[Option<u32>],
) -> Result<Items<GraphArc>, Memory>
    requires table { table.now ≡ befores store.now }
    requires network { length network.now ≡ length store.now.pins }
    ensures { IfOk result (λ arcs. arcs ≡ net_node_arcs store.now network.now) }
{
    let mut arcs = Items::new(alloc);
    for pin in 0..store.pin_bound() {
        add_net_arcs(&mut arcs, store, network, table, pin)?;
    }
    Ok(arcs)
}

/// The arcs between nodes, several between the same two nodes where several library arcs are. Takes as
/// many steps as there are pins and library arcs.
pub(crate) fn node_arcs(
    alloc: Global,
    store: &Store,
    network: &CowTable<bool>,
    table: &[Option<u32>],
    library: &[PinArc],
) -> Result<Items<GraphArc>, Memory>
    requires table { table.now ≡ befores store.now }
    requires library { library.now ≡ pin_arcs store.now }
    requires network { length network.now ≡ length store.now.pins }
    ensures { IfOk result (λ arcs. arcs ≡ node_arcs store.now network.now) }
{
    store.laws();
    let mut arcs = net_node_arcs(alloc, store, network, table)?;
    add_cell_arcs(&mut arcs, network, library)?;
    Ok(arcs)
}
