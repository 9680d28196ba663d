//! The arcs into some nodes, found anew after an ECO, and with them the arcs out of the nodes before.

ghost use Rattle.std.specs.Prelude.{◌≡◌, ◌<◌, ◌≤◌, ◌^◌, ◌++◌, ◌∷◌, [], ℕ, All, None, IfOk, OnOk, IfSome, true, nat_eq, count_by, List, filter, length, slice_index_or, option_and_then};
ghost use Rattle.std.specs.List.{filter_map};
ghost use Rattle.pin_graph.specs.Nodes.{node_number, node_bound};
ghost use Rattle.pin_graph.specs.declared.arcs.GraphArc.{GraphArc};
ghost use Rattle.timing_defs.specs.NetChecks.{net_fault};
ghost use Rattle.pin_graph.specs.NodeArcs.{none_arc, raw_into, AreJoined};
ghost use Rattle.pin_graph.specs.Graphs.{fan_at, IsFans};
ghost use Rattle.pin_graph.specs.HeldFans.{with_list};
ghost use Rattle.pin_graph.specs.Pulls.{arcs_into};
ghost use Rattle.pin_graph.specs.Relinking.{driven_arc, standing_into, pulled, leads_elsewhere, AreTaken, ArePut, AreBothFans, IsPutNode, IsNodeRelinked, AreRelinked};

use crate::arcs::{GraphArc, GraphKind};
use crate::held_fans::Fans;
use crate::merging::{joined_arc, push_arc};
use crate::node_arcs::{add_arc, may_enter, net_arc, standing_arc};
use crate::nodes::node_number;
use crate::pin_arcs::PinArc;
use crate::pulls::{arcs_into, driver_of};
use cow_table::CowTable;
use netlist_store::Store;
use sta_units::Memory;
use std::alloc::Global;
use timing_defs::{Items, Tran};

/// The arc into a node from the pin that drives its net.
fn driven_arc(network: &CowTable<bool>, pin: u32, tran: Tran, from: u32) -> Option<GraphArc>
    requires long { length network.now ≤ 2 ^ 31 }
    requires from { from < length network.now }
    requires pin { pin < length network.now }
    ensures { result ≡ driven_arc network.now pin tran from }
{
    if may_enter(network, from, pin) {
        Some(net_arc(from, pin, tran))
    } else {
        None
    }
}

/// The same, where some pin drives the net.
fn driven_into(
    network: &CowTable<bool>,
    before: Option<u32>,
    pin: u32,
    tran: Tran,
) -> Option<GraphArc>
    requires long { length network.now ≤ 2 ^ 31 }
    requires before { IfSome before (λ from. from < length network.now) }
    requires pin { pin < length network.now }
    ensures { result ≡ option_and_then (driven_arc network.now pin tran) before }
{
    match before {
        Some(from) => driven_arc(network, pin, tran, from),
        None => None,
    }
}

/// A library arc that stands and leads to a node.
fn standing_into(network: &CowTable<bool>, node: u32, arc: PinArc) -> Option<GraphArc>
    requires long { length network.now ≤ 2 ^ 31 }
    requires from { arc.from < length network.now }
    requires to { arc.to < length network.now }
    ensures { result ≡ standing_into network.now node arc }
{
    if node_number(arc.to, arc.to_tran) == node {
        standing_arc(network, arc)
    } else {
        None
    }
}

/// Adds the library arcs that stand and lead to a node.
#[tactic(auto, using(crate::proofs::ArcLaws::mapped_more))]
fn add_standing(
    arcs: &mut Items<GraphArc>,
    network: &CowTable<bool>,
    node: u32,
    library: &[PinArc],
) -> Result<(), Memory>
    requires long { length network.now ≤ 2 ^ 31 }
    requires within { All (λ arc. (arc.from < length network.now) × (arc.to < length network.now))
        library.now }
    ensures { OnOk result
        (arcs.new ≡ arcs.old ++ filter_map (standing_into network.now node) library.now) }
{
    for arc in library {
        add_arc(arcs, standing_into(network, node, *arc))?;
    }
    Ok(())
}

/// The arcs into a pin's node: several from one node where several library arcs are.
fn pulled(
    alloc: Global,
    network: &CowTable<bool>,
    before: Option<u32>,
    library: &[PinArc],
    pin: u32,
    tran: Tran,
) -> Result<Items<GraphArc>, Memory>
    requires long { length network.now ≤ 2 ^ 31 }
    requires pin { pin < length network.now }
    requires before { IfSome before (λ from. from < length network.now) }
    requires within { All (λ arc. (arc.from < length network.now) × (arc.to < length network.now))
        library.now }
    ensures { IfOk result (λ arcs. arcs ≡ pulled network.now before library.now pin tran) }
{
    let mut arcs = Items::new(alloc);
    add_arc(&mut arcs, driven_into(network, before, pin, tran))?;
    add_standing(&mut arcs, network, node_number(pin, tran), library)?;
    Ok(arcs)
}

/// The place of an arc from a node.
fn place_of(arcs: &[GraphArc], from: u32) -> Option<usize>
    ensures found { IfSome result
        (λ place. (place < length arcs.now)
        × ((slice_index_or arcs.now place none_arc).from ≡ from)) }
    ensures none { result ≡ None → (k : ℕ) → k < length arcs.now
        → (slice_index_or arcs.now k none_arc).from ≡ from → ⊥ }
{
    for (place, arc) in arcs.iter().enumerate() {
        if arc.from == from {
            return Some(place);
        }
    }
    None
}

/// Joins an arc to the one from the same node, or adds it.
fn join_few(arcs: &mut Vec<GraphArc>, arc: GraphArc) -> Result<(), Memory>
    ensures { OnOk result
        ((xs : List GraphArc) → AreJoined xs arcs.old.items
        → AreJoined (xs ++ arc ∷ []) arcs.new.items) }
{
    match place_of(arcs.as_slice(), arc.from) {
        Some(place) => {
            arcs[place] = joined_arc(arcs[place], arc);
            Ok(())
        }
        None => push_arc(arcs, arc),
    }
}

/// One arc for all from the same node, of few arcs into one node.
fn joined_few(alloc: Global, raw: &[GraphArc]) -> Result<Items<GraphArc>, Memory>
    ensures { IfOk result (AreJoined raw.now) }
{
    let mut arcs = Vec::new(alloc);
    for arc in raw {
        join_few(&mut arcs, *arc)?;
    }
    Ok(Items::from_vec(arcs))
}

/// Arcs without the one to a node.
fn without(alloc: Global, arcs: &[GraphArc], node: u32) -> Result<Items<GraphArc>, Memory>
    ensures { IfOk result (λ left. left ≡ filter (leads_elsewhere node) arcs.now) }
{
    let mut left = Items::new(alloc);
    for arc in arcs {
        if arc.to != node {
            left.push(*arc)?;
        }
    }
    Ok(left)
}

/// Takes the arc to a node away from those out of another.
fn take_out(alloc: Global, outs: &mut Fans, from: u32, node: u32) -> Result<(), Memory>
    requires fans { IsFans (length outs.old.later) outs.old }
    requires from { from < length outs.old.later }
    ensures { OnOk result
        (outs.new
        ≡ with_list outs.old from (filter (leads_elsewhere node) (fan_at outs.old from))) }
{
    let left = without(alloc, outs.at(from), node)?;
    outs.set(alloc, from, left)
}

/// Adds an arc to those out of its first node.
fn put_out(alloc: Global, outs: &mut Fans, arc: GraphArc) -> Result<(), Memory>
    requires fans { IsFans (length outs.old.later) outs.old }
    requires from { arc.from < length outs.old.later }
    ensures { OnOk result
        (outs.new ≡ with_list outs.old arc.from (fan_at outs.old arc.from ++ arc ∷ [])) }
{
    let mut arcs = Items::from_slice(alloc, outs.at(arc.from))?;
    arcs.push(arc)?;
    outs.set(alloc, arc.from, arcs)
}

/// Takes the arcs into a node away from those out of the nodes before it.
fn take_all(alloc: Global, outs: &mut Fans, node: u32, old: &[GraphArc]) -> Result<(), Memory>
    requires fans { IsFans (length outs.old.later) outs.old }
    requires within { All (λ arc. arc.from < length outs.old.later) old.now }
    ensures { OnOk result (AreTaken (length outs.old.later) node old.now outs.old outs.new) }
{
    for arc in old {
        take_out(alloc, outs, arc.from, node)?;
    }
    Ok(())
}

/// Adds arcs to those out of the nodes from which they lead.
fn put_all(alloc: Global, outs: &mut Fans, new: &[GraphArc]) -> Result<(), Memory>
    requires fans { IsFans (length outs.old.later) outs.old }
    requires within { All (λ arc. arc.from < length outs.old.later) new.now }
    ensures { OnOk result (ArePut (length outs.old.later) new.now outs.old outs.new) }
{
    for arc in new {
        put_out(alloc, outs, *arc)?;
    }
    Ok(())
}

/// The arcs into a pin's node: one for all library arcs from the same node.
fn arcs_to(
    alloc: Global,
    store: &Store,
    network: &CowTable<bool>,
    library: &[PinArc],
    pin: u32,
    tran: Tran,
) -> Result<Items<GraphArc>, Memory>
    requires fault { net_fault store.now.design ≡ None }
    requires network { length network.now ≡ length store.now.pins }
    requires library { library.now ≡ arcs_into store.now pin }
    requires pin { pin < length store.now.pins }
    ensures { IfOk result (AreJoined (raw_into store.now network.now (node_number pin tran))) }
{
    store.laws();
    let _bound = store.pin_bound();
    let raw = pulled(alloc, network, driver_of(store, pin), library, pin, tran)?;
    joined_few(alloc, raw.as_slice())
}

/// Whether two sorts of arcs are the same.
fn same_kind(a: GraphKind, b: GraphKind) -> bool
    ensures { result ≡ true → a ≡ b }
{
    match a {
        GraphKind::Net => matches!(b, GraphKind::Net),
        GraphKind::Cell => matches!(b, GraphKind::Cell),
        GraphKind::Register => matches!(b, GraphKind::Register),
    }
}

/// Whether two arcs are the same.
fn same_arc(a: GraphArc, b: GraphArc) -> bool
    ensures { result ≡ true → a ≡ b }
{
    a.from == b.from && a.to == b.to && same_kind(a.kind, b.kind) && a.edge == b.edge
}

/// Whether two lists have the same arcs, in one order.
fn same_arcs(a: &[GraphArc], b: &[GraphArc]) -> bool
    ensures { result ≡ true → a.now ≡ b.now }
{
    if a.len() != b.len() {
        return false;
    }
    for at in 0..a.len() {
        if !same_arc(a[at], b[at]) {
            return false;
        }
    }
    true
}

/// Gives a node other arcs in, and the nodes before it their arcs out.
fn put_node(
    alloc: Global,
    ins: &mut Fans,
    outs: &mut Fans,
    node: u32,
    arcs: Items<GraphArc>,
) -> Result<(), Memory>
    requires both { AreBothFans (length ins.old.later) ins.old outs.old }
    requires node { node < length ins.old.later }
    requires within { All (λ arc. (arc.from < length ins.old.later) × (arc.to ≡ node)) arcs }
    requires once { (from : ℕ) → count_by (λ arc. nat_eq arc.from from) arcs ≤ 1 }
    ensures { OnOk result (IsPutNode (length ins.old.later) node arcs ins.old ins.new outs.new) }
{
    take_all(alloc, outs, node, ins.at(node))?;
    put_all(alloc, outs, arcs.as_slice())?;
    ins.set(alloc, node, arcs)
}

/// Finds the arcs into a pin's node anew.
fn relink_node(
    alloc: Global,
    store: &Store,
    network: &CowTable<bool>,
    ins: &mut Fans,
    outs: &mut Fans,
    library: &[PinArc],
    pin: u32,
    tran: Tran,
) -> Result<(), Memory>
    requires fault { net_fault store.now.design ≡ None }
    requires network { length network.now ≡ length store.now.pins }
    requires both { AreBothFans (node_bound store.now) ins.old outs.old }
    requires library { library.now ≡ arcs_into store.now pin }
    requires pin { pin < length store.now.pins }
    ensures { OnOk result
        (IsNodeRelinked store.now network.now (node_number pin tran) ins.old ins.new outs.new) }
{
    store.laws();
    let _bound = store.pin_bound();
    let node = node_number(pin, tran);
    let arcs = arcs_to(alloc, store, network, library, pin, tran)?;
    if same_arcs(ins.at(node), arcs.as_slice()) {
        return Ok(());
    }
    put_node(alloc, ins, outs, node, arcs)
}

/// Finds the arcs into a pin's nodes anew.
fn relink_pin(
    alloc: Global,
    store: &Store,
    network: &CowTable<bool>,
    ins: &mut Fans,
    outs: &mut Fans,
    pin: u32,
) -> Result<(), Memory>
    requires fault { net_fault store.now.design ≡ None }
    requires network { length network.now ≡ length store.now.pins }
    requires both { AreBothFans (node_bound store.now) ins.old outs.old }
    requires pin { pin < length store.now.pins }
    ensures { OnOk result (AreRelinked store.now network.now (pin ∷ []) ins.old ins.new outs.new) }
{
    let library = arcs_into(alloc, store, pin)?;
    let library = library.as_slice();
    relink_node(alloc, store, network, ins, outs, library, pin, Tran::Rise)?;
    relink_node(alloc, store, network, ins, outs, library, pin, Tran::Fall)
}

/// Finds the arcs into the nodes of some pins, or of numbers that stand for none, anew: both fans hold the
/// same arcs again. Nodes of other pins keep their arcs in. Where the arcs into a node are as before, no
/// list is written.
pub(crate) fn relink(
    alloc: Global,
    store: &Store,
    network: &CowTable<bool>,
    ins: &mut Fans,
    outs: &mut Fans,
    pins: &[u32],
) -> Result<(), Memory>
    requires fault { net_fault store.now.design ≡ None }
    requires network { length network.now ≡ length store.now.pins }
    requires both { AreBothFans (node_bound store.now) ins.old outs.old }
    requires pins { All (λ pin. pin < length store.now.pins) pins.now }
    ensures { OnOk result (AreRelinked store.now network.now pins.now ins.old ins.new outs.new) }
{
    for pin in pins {
        relink_pin(alloc, store, network, ins, outs, *pin)?;
    }
    Ok(())
}
