//! Whether the parasitics of a net name its pins.

ghost use Rattle.std.specs.Prelude.{◌≡◌, ◌&&◌, ℕ, List, All, Some, true, filter, IfOk};
ghost use Rattle.std.specs.List.{list_all, list_any};
ghost use Rattle.timing_defs.specs.Netlist.{pins, is_on};
ghost use Rattle.timing_defs.specs.Wires.{same_rc, root_node, touches};
ghost use Rattle.timing_defs.specs.NetChecks.{is_pin_of, has_resistor, named_nodes, pins_agree};
ghost use Rattle.netlist_store.specs.Numbering.{name_at, is_named, is_number, is_on_number};
ghost use Rattle.design_link.specs.Failing.{IsRcOf};
ghost use Rattle.design_link.specs.Nodes.{is_node, nodes_in};

use crate::node_sets::NodeSet;
use netlist_store::Store;
use sta_units::Memory;
use std::alloc::Global;
use store_pins::pins_on;
use timing_defs::{Name, NetRc, RcCap, RcNode, RcRes};

/// The most pins or resistors of a net that are looked through.
const FEW: usize = 16;

/// Whether a pin is on a net.
fn is_on(store: &Store, net: u32, pin: u32) -> bool
    requires { is_number store.now.pins pin ≡ true }
    ensures { result ≡ is_on_number store.now net pin }
{
    match store.net_of(pin) {
        Some(its) => net == its,
        None => false,
    }
}

/// Whether one of some pins has a name.
fn has_name(store: &Store, pins: &[u32], name: &Name) -> bool
    requires { All (λ pin. is_number store.now.pins pin ≡ true) pins.now }
    ensures { result ≡ list_any (λ pin. is_named name.now (name_at store.now.pins pin)) pins.now }
{
    for pin in pins {
        if *store.pin_name(*pin) == *name {
            return true;
        }
    }
    false
}

/// Whether a pin of a name is on a net. The pins of most nets are few, and are looked through.
fn is_named_on(store: &Store, net: u32, name: &Name) -> bool
    requires { is_number store.now.nets net ≡ true }
    ensures { (word : List ℕ) → name_at store.now.nets net ≡ Some word → result
        ≡ is_pin_of store.now.design word (RcNode.Pin name.now) }
{
    store.laws();
    let pins = pins_on(store, net);
    if pins.len() <= FEW {
        return has_name(store, pins, name);
    }
    match store.pin(name) {
        Some(pin) => is_on(store, net, pin),
        None => false,
    }
}

/// Whether a node is inner, or a pin on a net.
fn is_pin_of(store: &Store, net: u32, node: &RcNode) -> bool
    requires { is_number store.now.nets net ≡ true }
    ensures { (word : List ℕ) → name_at store.now.nets net ≡ Some word → result
        ≡ is_pin_of store.now.design word node.now }
{
    match node {
        RcNode::Pin(name) => is_named_on(store, net, name),
        RcNode::Inner(_) => true,
    }
}

/// Whether the pins at the ends of a resistor are on a net.
fn has_ends_on(store: &Store, net: u32, resistor: &RcRes) -> bool
    requires { is_number store.now.nets net ≡ true }
    ensures { (word : List ℕ) → name_at store.now.nets net ≡ Some word → result
        ≡
        (is_pin_of store.now.design word resistor.now.a && is_pin_of store.now.design word
        resistor.now.b) }
{
    if !is_pin_of(store, net, &resistor.a) {
        return false;
    }
    is_pin_of(store, net, &resistor.b)
}

/// Whether all pins at the ends of resistors are on a net.
fn are_ends_on(store: &Store, net: u32, ress: &[RcRes]) -> bool
    requires { is_number store.now.nets net ≡ true }
    ensures { (word : List ℕ) → name_at store.now.nets net ≡ Some word → result
        ≡ list_all (λ r. is_pin_of store.now.design word r.a && is_pin_of store.now.design word r.b)
        ress.now }
{
    for resistor in ress {
        if !has_ends_on(store, net, resistor) {
            return false;
        }
    }
    true
}

/// Whether all pins at capacitances are on a net.
fn are_caps_on(store: &Store, net: u32, caps: &[RcCap]) -> bool
    requires { is_number store.now.nets net ≡ true }
    ensures { (word : List ℕ) → name_at store.now.nets net ≡ Some word → result
        ≡ list_all (λ c. is_pin_of store.now.design word c.node) caps.now }
{
    for cap in caps {
        if !is_pin_of(store, net, &cap.node) {
            return false;
        }
    }
    true
}

/// Whether each pin that some parasitics name is on their net.
fn are_named_on(store: &Store, net: u32, rc: &NetRc) -> bool
    requires { is_number store.now.nets net ≡ true }
    ensures { (word : List ℕ) → name_at store.now.nets net ≡ Some word → result
        ≡ list_all (is_pin_of store.now.design word) (named_nodes rc.now) }
{
    if !are_ends_on(store, net, rc.ress.as_slice()) {
        return false;
    }
    are_caps_on(store, net, rc.caps.as_slice())
}

/// Whether all pins on a net are in a set.
fn are_pins_in(store: &Store, net: u32, ends: &NodeSet) -> bool
    requires { is_number store.now.nets net ≡ true }
    ensures { (word : List ℕ) → name_at store.now.nets net ≡ Some word → result
        ≡ list_all (λ pin. is_node (nodes_in ends.now) (root_node pin))
        (filter (is_on word) (pins store.now.design)) }
{
    store.laws();
    for pin in pins_on(store, net) {
        if !ends.has_pin(store.pin_name(*pin)) {
            return false;
        }
    }
    true
}

/// Whether a node is the pin of a name.
pub(crate) fn is_pin(node: &RcNode, name: &Name) -> bool
    ensures { result ≡ same_rc node.now (RcNode.Pin name.now) }
{
    match node {
        RcNode::Pin(own) => *own == *name,
        RcNode::Inner(_) => false,
    }
}

/// Whether a pin is at an end of a resistor.
fn ends_at(resistor: &RcRes, name: &Name) -> bool
    ensures { result ≡ touches resistor.now (RcNode.Pin name.now) }
{
    is_pin(&resistor.a, name) || is_pin(&resistor.b, name)
}

/// Whether a pin is at an end of one of some resistors.
fn is_at_end(ress: &[RcRes], name: &Name) -> bool
    ensures { result ≡ list_any (λ r. touches r (RcNode.Pin name.now)) ress.now }
{
    ress.iter().any(|resistor| ends_at(resistor, name))
}

/// Whether each pin on a net is at the end of one of some resistors, which are looked through for each.
fn are_pins_at(store: &Store, net: u32, ress: &[RcRes]) -> bool
    requires { is_number store.now.nets net ≡ true }
    ensures { (word : List ℕ) → name_at store.now.nets net ≡ Some word → result
        ≡ list_all (λ pin. list_any (λ r. touches r (root_node pin)) ress.now)
        (filter (is_on word) (pins store.now.design)) }
{
    store.laws();
    for pin in pins_on(store, net) {
        if !is_at_end(ress, store.pin_name(*pin)) {
            return false;
        }
    }
    true
}

/// Whether each pin on a net is at the end of a resistor. The ends are hashed where resistors are many.
fn are_pins_at_ends(alloc: Global, store: &Store, net: u32, rc: &NetRc) -> Result<bool, Memory>
    requires { is_number store.now.nets net ≡ true }
    ensures { IfOk result
        (λ all. (word : List ℕ) → name_at store.now.nets net ≡ Some word → all
        ≡ list_all (has_resistor rc.now) (filter (is_on word) (pins store.now.design))) }
{
    if rc.ress.len() <= FEW {
        return Ok(are_pins_at(store, net, rc.ress.as_slice()));
    }
    let none = NodeSet::new(alloc);
    let ends = none.with_resistors(alloc, rc.ress.as_slice())?;
    Ok(are_pins_in(store, net, &ends))
}

/// Whether the pins that some parasitics name are on their net, and where there are resistors each pin
/// of the net is at the end of one.
pub(crate) fn pins_agree(alloc: Global, store: &Store, net: u32, rc: &NetRc) -> Result<bool, Memory>
    requires net { is_number store.now.nets net ≡ true }
    requires rc { IsRcOf store.now net rc.now }
    ensures { IfOk result (λ agree. agree ≡ pins_agree store.now.design rc.now) }
{
    if !are_named_on(store, net, rc) {
        return Ok(false);
    }
    if rc.ress.len() == 0 {
        return Ok(true);
    }
    are_pins_at_ends(alloc, store, net, rc)
}
