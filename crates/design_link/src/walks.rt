//! Whether resistors stand in the order of a walk from a root: each then leads from a node that was met
//! to one that was not, and they are a tree. Takes no memory.

ghost use Rattle.std.specs.Prelude.{◌≡◌, true, length};
ghost use Rattle.std.specs.List.{list_all, list_any};
ghost use Rattle.timing_defs.specs.Wires.{same_rc, touches};
ghost use Rattle.design_link.specs.Rooted.{is_rooted};
ghost use Rattle.design_link.specs.Walks.{is_met, leads_on, IsWalkTo};

use crate::rc_pins::is_pin;
use timing_defs::{Name, NetRc, RcCap, RcNode, RcRes};

/// The most resistors that are looked through for each of them.
const FEW: usize = 16;

/// Whether a node is the inner node of a number.
fn is_inner(node: &RcNode, number: u32) -> bool
    ensures { result ≡ same_rc node.now (RcNode.Inner number) }
{
    match node {
        RcNode::Pin(_) => false,
        RcNode::Inner(own) => *own == number,
    }
}

/// Whether two nodes are the same.
fn is_same(a: &RcNode, b: &RcNode) -> bool
    ensures { result ≡ same_rc a.now b.now }
{
    match b {
        RcNode::Pin(name) => is_pin(a, name),
        RcNode::Inner(number) => is_inner(a, *number),
    }
}

/// Whether a node is at an end of a resistor.
fn touches(resistor: &RcRes, node: &RcNode) -> bool
    ensures { result ≡ touches resistor.now node.now }
{
    is_same(&resistor.a, node) || is_same(&resistor.b, node)
}

/// Whether a node is at an end of one of some resistors.
fn is_at_end(ress: &[RcRes], node: &RcNode) -> bool
    ensures { result ≡ list_any (λ r. touches r node.now) ress.now }
{
    ress.iter().any(|resistor| touches(resistor, node))
}

/// Whether a node is the root, or at an end of one of some resistors.
fn is_met(root: &Name, ress: &[RcRes], node: &RcNode) -> bool
    ensures { result ≡ is_met root.now ress.now node.now }
{
    is_pin(node, root) || is_at_end(ress, node)
}

/// Whether one end of a resistor was met, and the other was not.
fn leads_on(root: &Name, before: &[RcRes], resistor: &RcRes) -> bool
    ensures { result ≡ leads_on root.now before.now resistor.now }
{
    let met = is_met(root, before, &resistor.b);
    if is_met(root, before, &resistor.a) {
        !met
    } else {
        met
    }
}

/// Whether each of some resistors leads on from those before it.
fn are_walked(root: &Name, ress: &[RcRes]) -> bool
    ensures { result ≡ true → IsWalkTo root.now ress.now (length ress.now) }
{
    for (at, resistor) in ress.iter().enumerate() {
        if !leads_on(root, &ress[..at], resistor) {
            return false;
        }
    }
    true
}

/// Whether all nodes at capacitances were met.
fn are_caps_met(root: &Name, ress: &[RcRes], caps: &[RcCap]) -> bool
    ensures { result ≡ list_all (λ c. is_met root.now ress.now c.node) caps.now }
{
    caps.iter().all(|cap| is_met(root, ress, &cap.node))
}

/// Whether a net of few resistors has them in the order of a walk from a root to all nodes that it names.
pub(crate) fn is_walk(rc: &NetRc, root: &Name) -> bool
    ensures { result ≡ true → is_rooted rc.now root.now ≡ true }
{
    let ress = rc.ress.as_slice();
    if ress.len() > FEW {
        return false;
    }
    if !are_walked(root, ress) {
        return false;
    }
    are_caps_met(root, ress, rc.caps.as_slice())
}
