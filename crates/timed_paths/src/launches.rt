//! What launches a path, and what captures it.

ghost use Rattle.std.specs.Prelude.{ℕ, ◌≡◌, ◌<◌, ◌∷◌, List, length, map, option_map, slice_get, true, if◌then◌else◌, IfOk};
ghost use Rattle.timing_rules.specs.Paths.{Named, is_network_named, launch_of, owner_named, path_named};
ghost use Rattle.timing_rules.specs.Stages.{named_node};
ghost use Rattle.netlist_store.specs.Numbering.{is_number, name_at};
ghost use Rattle.timed_paths.specs.Ends.{launch_over, capture_named, edge_of_path};

use crate::delays::number_of;
use netlist_store::Store;
use pin_graph::Graph;
use sta_units::Memory;
use std::alloc::Global;
use timing_defs::{Capture, Launch, Name, Path, PathNode};

/// Whether a node of a path is of the clock network.
fn is_network(store: &Store, graph: &Graph, node: &PathNode) -> bool
    requires { graph.now.stored ≡ store.now }
    ensures { result ≡ is_network_named store.now.design (named_node node.now) }
{
    store.laws();
    graph.laws();
    match number_of(graph, node) {
        Some(number) => graph.is_network(number),
        None => false,
    }
}

/// The place of the launch node behind a further node.
fn next_launch(store: &Store, graph: &Graph, node: &PathNode, at: usize, launch: usize) -> usize
    requires { graph.now.stored ≡ store.now }
    ensures { result
        ≡ (if is_network_named store.now.design (named_node node.now) then at else launch) }
{
    if is_network(store, graph, node) {
        at
    } else {
        launch
    }
}

/// The place of the launch node of a path: of its last node of the clock network behind the first, else 0.
fn launch_place(store: &Store, graph: &Graph, nodes: &[PathNode]) -> usize
    requires graph { graph.now.stored ≡ store.now }
    requires some { 0 < length nodes.now }
    ensures low { result < length nodes.now }
    ensures place { option_map named_node (slice_get nodes.now result)
        ≡ launch_over store.now.design (map named_node nodes.now) }
{
    let mut launch = 0;
    for at in 1..nodes.len() {
        launch = next_launch(store, graph, &nodes[at], at, launch);
    }
    launch
}

/// The name of the instance that has the pin of a number; none of a port.
fn owner_name(alloc: Global, store: &Store, pin: u32) -> Result<Option<Name>, Memory>
    requires { is_number store.now.pins pin ≡ true }
    ensures { IfOk result
        (λ cell. (name : List ℕ) → name_at store.now.pins pin ≡ Some name → cell
        ≡ owner_named store.now.design name) }
{
    store.laws();
    match store.inst_of(pin) {
        Some(inst) => Ok(Some(store.inst_at(inst).name.copied(alloc)?)),
        None => Ok(None),
    }
}

/// The name of the instance that has the pin of a name; none of a port, and where the pin is not there.
fn owner_of(alloc: Global, store: &Store, pin: &Name) -> Result<Option<Name>, Memory>
    ensures { IfOk result (λ cell. cell ≡ owner_named store.now.design pin.now) }
{
    store.laws();
    match store.pin(pin) {
        Some(number) => owner_name(alloc, store, number),
        None => Ok(None),
    }
}

/// What launches a path.
pub(crate) fn launch_of(
    alloc: Global,
    store: &Store,
    graph: &Graph,
    path: &Path,
) -> Result<Launch, Memory>
    requires graph { graph.now.stored ≡ store.now }
    requires some { 0 < length path.now.nodes }
    ensures { IfOk result
        (λ launch. (n : Named) (ms : List Named) → path_named path.now ≡ n ∷ ms → launch
        ≡ launch_of store.now.design n ms (edge_of_path path.now)) }
{
    let nodes = path.nodes.as_slice();
    let place = launch_place(store, graph, nodes);
    let node = &nodes[place];
    let cell = owner_of(alloc, store, &node.pin)?;
    let pin = node.pin.copied(alloc)?;
    Ok(Launch {
        pin,
        cell,
        clock: path.launch_clock,
    })
}

/// What captures at a pin on an edge of a clock.
pub(crate) fn capture_at(
    alloc: Global,
    store: &Store,
    pin: &Name,
    clock: u32,
) -> Result<Capture, Memory>
    ensures { IfOk result (λ capture. capture ≡ capture_named store.now.design pin.now clock) }
{
    let cell = owner_of(alloc, store, pin)?;
    let name = pin.copied(alloc)?;
    Ok(Capture {
        pin: name,
        cell,
        clock,
    })
}
