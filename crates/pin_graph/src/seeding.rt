//! The seeds of an update: the nodes of pins that an ECO touched, and those whose arcs in or membership
//! of the clock network are other than in the base.

ghost use Rattle.std.specs.Prelude.{◌≡◌, ◌&&◌, ◌||◌, ◌++◌, ◌∷◌, [], ◌<◌, ◌^◌, ℕ, not, nat_eq, true, All, IsTrue, IfOk, OnOk, if◌then◌else◌};
ghost use Rattle.std.specs.List.{list_any, list_all, filter_map, flat_map, range_with_len};
ghost use Rattle.std.specs.List.Sorted.{IsStrictlyIncreasing};
ghost use Rattle.timing_rules.specs.Cones.{same_truth};
ghost use Rattle.netlist_store.specs.Applying.{IsEditOf};
ghost use Rattle.netlist_store.specs.Numbering.{is_number};
ghost use Rattle.pin_graph.specs.Joins.{own_number};
ghost use Rattle.pin_graph.specs.NodeArcs.{is_cell, marked};
ghost use Rattle.pin_graph.specs.Nodes.{node_bound, pin_under};
ghost use Rattle.pin_graph.specs.Seeds.{is_joined_at, is_owned_at, is_touched_at, numbers_of, same_graph_arc, same_fans, is_turned, is_moved, is_unmarked, turned_at, gone_at, AreSeeds};

use crate::arcs::{GraphArc, GraphKind};
use crate::graphs::Graph;
use crate::keeping::keeps_links;
use crate::networks::add_number;
use crate::nodes::node_number;
use crate::pin_arcs::own_number;
use netlist_store::{Store, Touched};
use sta_units::Memory;
use std::alloc::Global;
use timing_defs::{Cell, Inst, Items, Name, Split, Tran};

/// Adds numbers.
pub(crate) fn add_all(numbers: &mut Items<u32>, more: &[u32]) -> Result<(), Memory>
    ensures { OnOk result (numbers.new ≡ numbers.old ++ more.now) }
{
    for number in more {
        numbers.push(*number)?;
    }
    Ok(())
}

/// Adds the pins on a net, where it is there.
fn add_net_pins(pins: &mut Items<u32>, store: &Store, name: &Name) -> Result<(), Memory>
    ensures { OnOk result
        ((pin : ℕ) → list_any (nat_eq pin) pins.new
        ≡ (list_any (nat_eq pin) pins.old || is_joined_at store.now (name.now ∷ []) pin)) }
{
    store.laws();
    match store.net(name) {
        Some(net) => add_all(pins, store.net_pins(net)),
        None => Ok(()),
    }
}

/// The pins on some nets.
fn nets_pins(alloc: Global, store: &Store, names: &[Name]) -> Result<Items<u32>, Memory>
    ensures { IfOk result
        (λ pins. (pin : ℕ) → list_any (nat_eq pin) pins ≡ is_joined_at store.now names.now pin) }
{
    let mut pins = Items::new(alloc);
    for name in names {
        add_net_pins(&mut pins, store, name)?;
    }
    Ok(pins)
}

/// Adds the pins of an instance.
#[tactic(auto, using(crate::proofs::ArcLaws::mapped_more))]
fn add_own_pins(
    alloc: Global,
    pins: &mut Items<u32>,
    store: &Store,
    inst: &Inst,
    cell: &Cell,
) -> Result<(), Memory>
    ensures { OnOk result
        (pins.new
        ≡ pins.old ++ filter_map (λ pin. own_number store.now inst.now pin.name) cell.now.pins) }
{
    for pin in cell.pins.as_slice() {
        let number = own_number(alloc, store, inst, &pin.name)?;
        add_number(pins, number)?;
    }
    Ok(())
}

/// Adds the pins of the instance of a name, where it is there.
fn add_inst_pins(
    alloc: Global,
    pins: &mut Items<u32>,
    store: &Store,
    name: &Name,
) -> Result<(), Memory>
    ensures { OnOk result
        ((pin : ℕ) → list_any (nat_eq pin) pins.new
        ≡ (list_any (nat_eq pin) pins.old || is_owned_at store.now (name.now ∷ []) pin)) }
{
    store.laws();
    match store.inst(name) {
        Some(inst) => {
            let cell = store.cell_at(inst, Split::Late);
            add_own_pins(alloc, pins, store, store.inst_at(inst), cell)
        }
        None => Ok(()),
    }
}

/// Adds the pins of instances.
fn add_insts_pins(
    alloc: Global,
    pins: &mut Items<u32>,
    store: &Store,
    names: &[Name],
) -> Result<(), Memory>
    ensures { OnOk result
        ((pin : ℕ) → list_any (nat_eq pin) pins.new
        ≡ (list_any (nat_eq pin) pins.old || is_owned_at store.now names.now pin)) }
{
    for name in names {
        add_inst_pins(alloc, pins, store, name)?;
    }
    Ok(())
}

/// The pins on touched nets and of touched instances.
pub(crate) fn touched_pins(
    alloc: Global,
    store: &Store,
    touched: &Touched,
) -> Result<Items<u32>, Memory>
    ensures each { IfOk result
        (λ pins. (pin : ℕ) → list_any (nat_eq pin) pins
        ≡ is_touched_at store.now (record { insts = touched.now.insts; nets = touched.now.nets })
        pin) }
    ensures below { IfOk result (λ pins. All (λ pin. pin < 2 ^ 31) pins) }
{
    store.laws();
    let mut pins = nets_pins(alloc, store, touched.nets.as_slice())?;
    add_insts_pins(alloc, &mut pins, store, touched.insts.as_slice())?;
    Ok(pins)
}

/// Adds the nodes of a pin.
fn add_nodes(nodes: &mut Items<u32>, pin: u32) -> Result<(), Memory>
    requires { pin < 2 ^ 31 }
    ensures { OnOk result (nodes.new ≡ nodes.old ++ numbers_of pin) }
{
    nodes.push(node_number(pin, Tran::Rise))?;
    nodes.push(node_number(pin, Tran::Fall))
}

/// The nodes of pins.
pub(crate) fn nodes_of(alloc: Global, pins: &[u32]) -> Result<Items<u32>, Memory>
    requires { All (λ pin. pin < 2 ^ 31) pins.now }
    ensures { IfOk result (λ nodes. nodes ≡ flat_map numbers_of pins.now) }
{
    let mut nodes = Items::new(alloc);
    for pin in pins {
        add_nodes(&mut nodes, *pin)?;
    }
    Ok(nodes)
}

fn is_cell(kind: GraphKind) -> bool
    ensures { result ≡ is_cell kind }
{
    match kind {
        GraphKind::Cell => true,
        GraphKind::Net | GraphKind::Register => false,
    }
}

fn same_truth(a: bool, b: bool) -> bool
    ensures { result ≡ same_truth a b }
{
    if a { b } else { !b }
}

/// Whether two arcs into a node are of the same node and sorts.
fn same_arc(a: &GraphArc, b: &GraphArc) -> bool
    ensures { result ≡ same_graph_arc a.now b.now }
{
    a.from == b.from && same_truth(is_cell(a.kind), is_cell(b.kind)) && same_truth(a.edge, b.edge)
}

/// Whether an arc stands among those of the edited design.
fn is_kept(now: &[GraphArc], arc: &GraphArc) -> bool
    ensures { result ≡ list_any (same_graph_arc arc.now) now.now }
{
    now.iter().any(|other| same_arc(arc, other))
}

/// Whether an arc stood among those of the base.
fn is_old(before: &[GraphArc], arc: &GraphArc) -> bool
    ensures { result ≡ list_any (λ a. same_graph_arc a arc.now) before.now }
{
    before.iter().any(|other| same_arc(other, arc))
}

fn are_kept(before: &[GraphArc], now: &[GraphArc]) -> bool
    ensures { result ≡ list_all (λ a. list_any (same_graph_arc a) now.now) before.now }
{
    before.iter().all(|arc| is_kept(now, arc))
}

fn are_old(before: &[GraphArc], now: &[GraphArc]) -> bool
    ensures { result ≡ list_all (λ b. list_any (λ a. same_graph_arc a b) before.now) now.now }
{
    now.iter().all(|arc| is_old(before, arc))
}

/// Whether the arcs into a node are the same before and after.
fn same_fans(before: &[GraphArc], now: &[GraphArc]) -> bool
    ensures { result ≡ same_fans before.now now.now }
{
    are_kept(before, now) && are_old(before, now)
}

/// Whether the base lacks a node, or it has other arcs in or another membership of the clock network there.
fn is_turned(base: &Graph, graph: &Graph, node: u32) -> bool
    requires { node < node_bound graph.now.stored }
    ensures { result ≡ is_turned base.now graph.now node }
{
    if !base.has(node) {
        return true;
    }
    if !same_fans(base.arcs_in(node), graph.arcs_in(node)) {
        return true;
    }
    !same_truth(base.is_network(node), graph.is_network(node))
}

/// The number of a node that is there and turned.
fn turned_at(base: &Graph, graph: &Graph, node: u32) -> Option<u32>
    requires { node < node_bound graph.now.stored }
    ensures { result ≡ turned_at base.now graph.now node }
{
    if graph.has(node) && is_turned(base, graph, node) {
        Some(node)
    } else {
        None
    }
}

/// The nodes that are turned. Goes over all nodes and arcs.
#[tactic(auto, using(crate::proofs::ArcLaws::mapped_numbers_more))]
fn turned_nodes(alloc: Global, base: &Graph, graph: &Graph) -> Result<Items<u32>, Memory>
    ensures { IfOk result
        (λ nodes. nodes
        ≡ filter_map (turned_at base.now graph.now)
        (range_with_len 0 (node_bound graph.now.stored))) }
{
    let mut nodes = Items::new(alloc);
    for node in 0..graph.count() {
        add_number(&mut nodes, turned_at(base, graph, node))?;
    }
    Ok(nodes)
}

/// Whether a pin is of the clock network neither before nor after an ECO.
fn is_unmarked(base: &Graph, graph: &Graph, pin: u32) -> bool
    ensures { result ≡ is_unmarked base.now graph.now pin }
{
    !base.is_marked(pin) && !graph.is_marked(pin)
}

fn are_unmarked(base: &Graph, graph: &Graph, pins: &[u32]) -> bool
    ensures { result ≡ list_all (is_unmarked base.now graph.now) pins.now }
{
    pins.iter().all(|pin| is_unmarked(base, graph, *pin))
}

/// Whether no pin at which an ECO changed links is of the clock network before or after it: then it left the
/// network. Given the pins that it touched.
fn leaves_marks(
    alloc: Global,
    base: &Graph,
    graph: &Graph,
    touched: &Touched,
    pins: &[u32],
) -> Result<bool, Memory>
    requires made { IsEditOf base.now.stored
        (record { insts = touched.now.insts; nets = touched.now.nets }) graph.now.stored }
    requires pins { (pin : ℕ) → list_any (nat_eq pin) pins.now
        ≡ is_touched_at graph.now.stored
        (record { insts = touched.now.insts; nets = touched.now.nets }) pin }
    ensures { IfOk result
        (λ left. IsTrue left → (pin : ℕ) → marked graph.now.network pin
        ≡ marked base.now.network pin) }
{
    base.kept();
    graph.kept();
    if !are_unmarked(base, graph, pins) {
        return Ok(false);
    }
    let gone = gone_pins(alloc, base, graph, touched)?;
    Ok(are_unmarked(base, graph, gone.as_slice()))
}

/// Whether the ECO left all links, or the clock network: then only nodes of touched pins are turned. Given
/// these, in the time of the change.
fn leaves_nodes(
    alloc: Global,
    base: &Graph,
    graph: &Graph,
    touched: &Touched,
    pins: &[u32],
) -> Result<bool, Memory>
    requires made { IsEditOf base.now.stored
        (record { insts = touched.now.insts; nets = touched.now.nets }) graph.now.stored }
    requires pins { (pin : ℕ) → list_any (nat_eq pin) pins.now
        ≡ is_touched_at graph.now.stored
        (record { insts = touched.now.insts; nets = touched.now.nets }) pin }
    ensures { IfOk result
        (λ left. IsTrue left → (node : ℕ)
        → is_moved base.now graph.now
        (record { insts = touched.now.insts; nets = touched.now.nets }) node
        ≡ is_touched_at graph.now.stored
        (record { insts = touched.now.insts; nets = touched.now.nets }) (pin_under node)) }
{
    base.kept();
    graph.kept();
    if keeps_links(base.store(), graph.store(), touched) {
        return Ok(true);
    }
    leaves_marks(alloc, base, graph, touched, pins)
}

/// Nodes that are turned, all but those of touched pins, which are given. Goes over all nodes and arcs where
/// the ECO changed links at a pin that is of the clock network before or after it.
fn changed_nodes(
    alloc: Global,
    base: &Graph,
    graph: &Graph,
    touched: &Touched,
    pins: &[u32],
) -> Result<Items<u32>, Memory>
    requires made { IsEditOf base.now.stored
        (record { insts = touched.now.insts; nets = touched.now.nets }) graph.now.stored }
    requires pins { (pin : ℕ) → list_any (nat_eq pin) pins.now
        ≡ is_touched_at graph.now.stored
        (record { insts = touched.now.insts; nets = touched.now.nets }) pin }
    ensures { IfOk result
        (λ nodes. (node : ℕ)
        →
        (is_touched_at graph.now.stored
        (record { insts = touched.now.insts; nets = touched.now.nets }) (pin_under node) || list_any
        (nat_eq node) nodes)
        ≡ is_moved base.now graph.now
        (record { insts = touched.now.insts; nets = touched.now.nets }) node) }
{
    base.kept();
    graph.kept();
    if leaves_nodes(alloc, base, graph, touched, pins)? {
        return Ok(Items::new(alloc));
    }
    turned_nodes(alloc, base, graph)
}

/// Numbers in rising order, each once.
pub(crate) fn distinct(numbers: Items<u32>) -> Items<u32>
    ensures rising { IsStrictlyIncreasing result }
    ensures same { (n : ℕ) → list_any (nat_eq n) result ≡ list_any (nat_eq n) numbers }
{
    let mut numbers = numbers.into_vec();
    numbers.sort_unstable();
    numbers.dedup();
    Items::from_vec(numbers)
}

/// The nodes of touched pins and those that are turned.
fn found_nodes(
    alloc: Global,
    base: &Graph,
    graph: &Graph,
    touched: &Touched,
) -> Result<Items<u32>, Memory>
    requires { IsEditOf base.now.stored
        (record { insts = touched.now.insts; nets = touched.now.nets }) graph.now.stored }
    ensures { IfOk result
        (λ nodes. (node : ℕ) → list_any (nat_eq node) nodes
        ≡ is_moved base.now graph.now
        (record { insts = touched.now.insts; nets = touched.now.nets }) node) }
{
    let pins = touched_pins(alloc, graph.store(), touched)?;
    let mut nodes = nodes_of(alloc, pins.as_slice())?;
    let turned = changed_nodes(alloc, base, graph, touched, pins.as_slice())?;
    add_all(&mut nodes, turned.as_slice())?;
    Ok(nodes)
}

/// The seeds of the update of an analysis: the numbers of the nodes of pins that the ECO touched, and of
/// those that the base lacks or whose arcs in or membership of the clock network are other than in the base,
/// in rising order. In the time of the change; where the ECO changed links at a pin that is of the clock network
/// before or after it, in that of all nodes and arcs.
pub fn seeds(
    alloc: Global,
    base: &Graph,
    graph: &Graph,
    touched: &Touched,
) -> Result<Items<u32>, Memory>
    requires { IsEditOf base.now.stored
        (record { insts = touched.now.insts; nets = touched.now.nets }) graph.now.stored }
    ensures { IfOk result
        (AreSeeds base.now.stored graph.now.stored
        (record { insts = touched.now.insts; nets = touched.now.nets })) }
{
    base.kept();
    graph.kept();
    let nodes = found_nodes(alloc, base, graph, touched)?;
    Ok(distinct(nodes))
}

/// A pin that stands for nothing in a store.
fn gone_at(store: &Store, pin: u32) -> Option<u32>
    ensures { result ≡ gone_at store.now pin }
{
    if store.has_pin(pin) { None } else { Some(pin) }
}

/// Those of some pins that stand for nothing in a store.
#[tactic(auto, using(crate::proofs::ArcLaws::first_mapped_more))]
fn gone_of(alloc: Global, store: &Store, pins: &[u32]) -> Result<Items<u32>, Memory>
    ensures { IfOk result (λ gone. gone ≡ filter_map (gone_at store.now) pins.now) }
{
    let mut gone = Items::new(alloc);
    for pin in pins {
        add_number(&mut gone, gone_at(store, *pin))?;
    }
    Ok(gone)
}

/// The pins of a base that are gone after an ECO, in time of the instances that it touched.
pub(crate) fn gone(
    alloc: Global,
    base: &Store,
    store: &Store,
    touched: &Touched,
) -> Result<Items<u32>, Memory>
    requires { IsEditOf base.now (record { insts = touched.now.insts; nets = touched.now.nets })
        store.now }
    ensures { IfOk result
        (λ gone. (pin : ℕ) → list_any (nat_eq pin) gone
        ≡ (is_number base.now.pins pin && not (is_number store.now.pins pin))) }
{
    base.laws();
    store.laws();
    let mut pins = Items::new(alloc);
    add_insts_pins(alloc, &mut pins, base, touched.insts.as_slice())?;
    gone_of(alloc, store, pins.as_slice())
}

/// The numbers of pins of the base that stand for nothing after an ECO, in time of the instances that it
/// touched.
pub fn gone_pins(
    alloc: Global,
    base: &Graph,
    graph: &Graph,
    touched: &Touched,
) -> Result<Items<u32>, Memory>
    requires { IsEditOf base.now.stored
        (record { insts = touched.now.insts; nets = touched.now.nets }) graph.now.stored }
    ensures { IfOk result
        (λ gone. (pin : ℕ) → list_any (nat_eq pin) gone
        ≡ (is_number base.now.stored.pins pin && not (is_number graph.now.stored.pins pin))) }
{
    gone(alloc, base.store(), graph.store(), touched)
}
