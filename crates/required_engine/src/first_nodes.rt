//! The nodes whose required times an edit may change of itself, not by those of the nodes after them.

ghost use Rattle.std.specs.Prelude.{ℕ, ◌≡◌, ◌==◌, ◌<◌, ◌||◌, ◌&&◌, false, All, IfOk, OnOk};
ghost use Rattle.std.specs.List.{list_any};
ghost use Rattle.std.specs.Option.{option_map_or};
ghost use Rattle.netlist_store.specs.Numbering.{is_number};
ghost use Rattle.pin_graph.specs.Nodes.{node_bound, pin_under};
ghost use Rattle.required_engine.specs.Updated.{is_in, is_tail, is_tail_at, is_tail_of, is_own, is_data, is_data_by, is_clocked_at, is_clocked_of, is_first_of};

use netlist_store::{Store, full_name};
use pin_graph::{Graph, GraphArc};
use sta_units::Memory;
use std::alloc::Global;
use timing_defs::{CellTest, Inst, Items, Name, Split, Tran};

/// Adds a node.
fn add(nodes: &mut Items<u32>, node: u32) -> Result<(), Memory>
    ensures { OnOk result ((n : ℕ) → is_in nodes.new n ≡ (is_in nodes.old n || (node == n))) }
{
    nodes.push(node)
}

/// Adds nodes.
fn add_all(nodes: &mut Items<u32>, others: &[u32]) -> Result<(), Memory>
    ensures { OnOk result
        ((n : ℕ) → is_in nodes.new n ≡ (is_in nodes.old n || is_in others.now n)) }
{
    for node in others {
        add(nodes, *node)?;
    }
    Ok(())
}

/// Whether a number is that of a node.
fn is_node(graph: &Graph, node: u32) -> bool
    ensures { result ≡ is_number graph.now.stored.pins (pin_under node) }
{
    if node >= graph.count() {
        return false;
    }
    graph.pin_of(node).is_some()
}

/// Adds the node at which an arc begins, where it is one of the graph.
fn add_tail(nodes: &mut Items<u32>, graph: &Graph, arc: &GraphArc) -> Result<(), Memory>
    ensures { OnOk result
        ((n : ℕ) → is_in nodes.new n ≡ (is_in nodes.old n || is_tail graph.now.stored n arc.now)) }
{
    if is_node(graph, arc.from) {
        add(nodes, arc.from)
    } else {
        Ok(())
    }
}

/// Adds the nodes at which arcs begin, where they are nodes of the graph.
fn add_tails(nodes: &mut Items<u32>, graph: &Graph, arcs: &[GraphArc]) -> Result<(), Memory>
    ensures { OnOk result
        ((n : ℕ) → is_in nodes.new n
        ≡ (is_in nodes.old n || list_any (is_tail graph.now.stored n) arcs.now)) }
{
    for arc in arcs {
        add_tail(nodes, graph, arc)?;
    }
    Ok(())
}

/// Adds the nodes from which arcs of a base lead to a number.
fn add_tails_at(
    nodes: &mut Items<u32>,
    base: &Graph,
    graph: &Graph,
    node: u32,
) -> Result<(), Memory>
    ensures { OnOk result
        ((n : ℕ) → is_in nodes.new n
        ≡ (is_in nodes.old n || is_tail_at base.now graph.now.stored n node)) }
{
    if node < base.count() {
        add_tails(nodes, graph, base.arcs_in(node))
    } else {
        Ok(())
    }
}

/// Adds the nodes from which arcs of a base lead to numbers.
fn add_tails_of(
    nodes: &mut Items<u32>,
    base: &Graph,
    graph: &Graph,
    others: &[u32],
) -> Result<(), Memory>
    ensures { OnOk result
        ((n : ℕ) → is_in nodes.new n
        ≡ (is_in nodes.old n || is_tail_of base.now graph.now.stored others.now n)) }
{
    for node in others {
        add_tails_at(nodes, base, graph, *node)?;
    }
    Ok(())
}

/// The number of an instance's node, by the name of its pin in the cell.
fn own_node(
    alloc: Global,
    graph: &Graph,
    inst: &Inst,
    own: &Name,
    tran: Tran,
) -> Result<Option<u32>, Memory>
    ensures { IfOk result
        (λ node. (n : ℕ) → option_map_or (λ k. k == n) node false
        ≡ is_own graph.now.stored inst.now n own.now tran) }
{
    let name = full_name(alloc, &inst.name, own)?;
    Ok(graph.node(&name, tran))
}

/// Whether that is the number of a node.
fn is_that(told: Option<u32>, node: u32) -> bool
    ensures { result ≡ option_map_or (λ k. k == node) told false }
{
    match told {
        Some(number) => number == node,
        None => false,
    }
}

/// Adds a node, where it is there.
fn add_some(nodes: &mut Items<u32>, node: Option<u32>) -> Result<(), Memory>
    ensures { OnOk result
        ((n : ℕ) → is_in nodes.new n
        ≡ (is_in nodes.old n || option_map_or (λ k. k == n) node false)) }
{
    match node {
        Some(node) => add(nodes, node),
        None => Ok(()),
    }
}

/// Adds the data node of a test, where its clock node is that one.
fn add_data(
    alloc: Global,
    nodes: &mut Items<u32>,
    graph: &Graph,
    inst: &Inst,
    clock: u32,
    test: &CellTest,
) -> Result<(), Memory>
    ensures { OnOk result
        ((n : ℕ) → is_in nodes.new n
        ≡ (is_in nodes.old n || is_data graph.now.stored inst.now clock n test.now)) }
{
    let by = own_node(alloc, graph, inst, &test.clock, test.active)?;
    if is_that(by, clock) {
        add_some(nodes, own_node(alloc, graph, inst, &test.pin, test.tran)?)
    } else {
        Ok(())
    }
}

/// Adds the data nodes of the tests of an instance whose clock node is that one.
fn add_inst_data(
    alloc: Global,
    nodes: &mut Items<u32>,
    graph: &Graph,
    inst: &Inst,
    clock: u32,
    tests: &[CellTest],
) -> Result<(), Memory>
    ensures { OnOk result
        ((n : ℕ) → is_in nodes.new n
        ≡ (is_in nodes.old n || list_any (is_data graph.now.stored inst.now clock n) tests.now)) }
{
    for test in tests {
        add_data(alloc, nodes, graph, inst, clock, test)?;
    }
    Ok(())
}

/// Adds the data nodes of the tests whose clock node is that one.
fn add_clocked_at(
    alloc: Global,
    nodes: &mut Items<u32>,
    store: &Store,
    graph: &Graph,
    clock: u32,
) -> Result<(), Memory>
    requires graph { graph.now.stored ≡ store.now }
    requires clock { clock < node_bound graph.now.stored }
    ensures { OnOk result
        ((n : ℕ) → is_in nodes.new n
        ≡ (is_in nodes.old n || is_clocked_at graph.now.stored n clock)) }
{
    let Some(pin) = graph.pin_of(clock) else {
        return Ok(());
    };
    let Some(inst) = store.inst_of(pin) else {
        return Ok(());
    };
    let tests = store.cell_at(inst, Split::Late).tests.as_slice();
    add_inst_data(alloc, nodes, graph, store.inst_at(inst), clock, tests)
}

/// Adds the data nodes of the tests whose clock node is one of some.
fn add_clocked_of(
    alloc: Global,
    nodes: &mut Items<u32>,
    store: &Store,
    graph: &Graph,
    clocks: &[u32],
) -> Result<(), Memory>
    requires graph { graph.now.stored ≡ store.now }
    requires clocks { All (λ n. n < node_bound graph.now.stored) clocks.now }
    ensures { OnOk result
        ((n : ℕ) → is_in nodes.new n
        ≡ (is_in nodes.old n || is_clocked_of graph.now.stored clocks.now n)) }
{
    for clock in clocks {
        add_clocked_at(alloc, nodes, store, graph, *clock)?;
    }
    Ok(())
}

/// The seeds of an edit, the nodes whose rows it changed, those from which arcs lead to a seed in either
/// graph, and the data nodes of the tests whose clock node is a seed or has another row; some several
/// times.
pub(crate) fn first_nodes(
    alloc: Global,
    base: &Graph,
    store: &Store,
    graph: &Graph,
    seeds: &[u32],
    changed: &[u32],
) -> Result<Items<u32>, Memory>
    requires graph { graph.now.stored ≡ store.now }
    requires seeds { All (λ n. n < node_bound graph.now.stored) seeds.now }
    requires changed { All (λ n. n < node_bound graph.now.stored) changed.now }
    ensures { IfOk result
        (λ first. (n : ℕ) → is_in first n
        ≡ is_first_of base.now graph.now seeds.now changed.now n) }
{
    let mut first = Items::new(alloc);
    add_all(&mut first, seeds)?;
    add_all(&mut first, changed)?;
    add_tails_of(&mut first, graph, graph, seeds)?;
    add_tails_of(&mut first, base, graph, seeds)?;
    add_clocked_of(alloc, &mut first, store, graph, seeds)?;
    add_clocked_of(alloc, &mut first, store, graph, changed)?;
    Ok(first)
}
