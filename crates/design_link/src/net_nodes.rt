//! The nodes of a net with parasitics, and whether there are too many.

ghost use Rattle.std.specs.Prelude.{◌≡◌, ◌≤◌, [], ℕ, List, true, Some, map, filter, if◌then◌else◌, IfOk};
ghost use Rattle.timing_defs.specs.Netlist.{pins, is_on};
ghost use Rattle.timing_defs.specs.Wires.{is_lumped, root_node};
ghost use Rattle.timing_defs.specs.NetChecks.{nodes_of_rc, different, is_large_net};
ghost use Rattle.netlist_store.specs.Numbering.{name_at, is_number};
ghost use Rattle.design_link.specs.Failing.{IsRcOf};
ghost use Rattle.design_link.specs.Nodes.{nodes_in, HaveSameNodes};

use crate::node_sets::NodeSet;
use netlist_store::Store;
use sta_units::Memory;
use std::alloc::Global;
use store_pins::pins_on;
use timing_defs::NetRc;

/// The most nodes of a net with parasitics.
const MOST_NODES: usize = 65_535;

/// So many pins, resistors and capacitances never make too many nodes.
const FEW: usize = 16_383;

/// The pins of a net, as nodes.
fn pin_nodes(alloc: Global, store: &Store, net: u32) -> Result<NodeSet, Memory>
    requires { is_number store.now.nets net ≡ true }
    ensures { IfOk result
        (λ set. (name : List ℕ) → name_at store.now.nets net ≡ Some name
        → HaveSameNodes (nodes_in set)
        (map root_node (filter (is_on name) (pins store.now.design)))) }
{
    store.laws();
    let mut nodes = NodeSet::new(alloc);
    for pin in pins_on(store, net) {
        nodes = nodes.with_pin(alloc, store.pin_name(*pin))?;
    }
    Ok(nodes)
}

/// The pins of a net, where it is lumped.
fn lumped_nodes(alloc: Global, store: &Store, net: u32, rc: &NetRc) -> Result<NodeSet, Memory>
    requires net { is_number store.now.nets net ≡ true }
    requires rc { IsRcOf store.now net rc.now }
    ensures { IfOk result
        (λ set. HaveSameNodes (nodes_in set)
        (if is_lumped rc.now then map root_node (filter (is_on rc.now.net) (pins store.now.design))
        else [])) }
{
    if rc.ress.len() > 0 {
        return Ok(NodeSet::new(alloc));
    }
    let nodes = pin_nodes(alloc, store, net)?;
    Ok(nodes)
}

/// All nodes of a net with parasitics.
fn rc_nodes(alloc: Global, store: &Store, net: u32, rc: &NetRc) -> Result<NodeSet, Memory>
    requires net { is_number store.now.nets net ≡ true }
    requires rc { IsRcOf store.now net rc.now }
    ensures { IfOk result
        (λ set. HaveSameNodes (nodes_in set) (nodes_of_rc store.now.design rc.now)) }
{
    let lumped = lumped_nodes(alloc, store, net, rc)?;
    let ends = lumped.with_resistors(alloc, rc.ress.as_slice())?;
    let all = ends.with_caps(alloc, rc.caps.as_slice())?;
    Ok(all)
}

/// Whether so many resistors, capacitances and pins cannot make too many nodes.
fn are_few(ress: usize, caps: usize, pins: usize) -> bool
    ensures ress { result ≡ true → ress ≤ 16383 }
    ensures caps { result ≡ true → caps ≤ 16383 }
    ensures pins { result ≡ true → pins ≤ 16383 }
{
    ress <= FEW && caps <= FEW && pins <= FEW
}

/// Whether a net has so little of all that its nodes cannot be too many.
fn has_few(store: &Store, net: u32, rc: &NetRc) -> bool
    requires net { is_number store.now.nets net ≡ true }
    requires rc { IsRcOf store.now net rc.now }
    ensures { result ≡ true → different [] (nodes_of_rc store.now.design rc.now) ≤ 65535 }
{
    store.laws();
    let pins = pins_on(store, net);
    are_few(rc.ress.len(), rc.caps.len(), pins.len())
}

/// Whether a net with parasitics has too many nodes.
pub(crate) fn is_large(alloc: Global, store: &Store, net: u32, rc: &NetRc) -> Result<bool, Memory>
    requires net { is_number store.now.nets net ≡ true }
    requires rc { IsRcOf store.now net rc.now }
    ensures { IfOk result (λ large. large ≡ is_large_net store.now.design rc.now) }
{
    if has_few(store, net, rc) {
        return Ok(false);
    }
    let nodes = rc_nodes(alloc, store, net, rc)?;
    Ok(nodes.len() > MOST_NODES)
}
