//! Whether a tree can be asked for: each pin is listed, and each number is within its limit.

ghost use Rattle.std.specs.Prelude.{◌≡◌, ◌&&◌, IsTrue};
ghost use Rattle.rc_tree.specs.Trees.{is_amount, is_listed_pin, IsMeasured};
ghost use Rattle.kernel_rows.specs.Measures.{are_ends_listed, are_nodes_listed, are_resistances, are_capacitances, are_pins_light, is_named, is_limited};
ghost use Rattle.timing_defs.specs.declared.parasitics.RcNode.TheVariants.{Pin as rc_pin};

use sta_units::LIM;
use timing_defs::{Name, NetRc, PinCap, RcCap, RcNode, RcRes};

fn is_amount(value: i64) -> bool
    ensures { result ≡ is_amount value }
{
    0 <= value && value <= LIM
}

fn is_pin_listed(pins: &[PinCap], name: &Name) -> bool
    ensures { result ≡ is_listed_pin pins.now (rc_pin name.now) }
{
    pins.iter().any(|pin| *name == pin.pin)
}

fn is_listed(pins: &[PinCap], node: &RcNode) -> bool
    ensures { result ≡ is_listed_pin pins.now node.now }
{
    match node {
        RcNode::Pin(name) => is_pin_listed(pins, name),
        RcNode::Inner(_) => true,
    }
}

fn are_ends_listed(pins: &[PinCap], ress: &[RcRes]) -> bool
    ensures { result ≡ are_ends_listed pins.now ress.now }
{
    ress.iter()
        .all(|res| is_listed(pins, &res.a) && is_listed(pins, &res.b))
}

fn are_nodes_listed(pins: &[PinCap], caps: &[RcCap]) -> bool
    ensures { result ≡ are_nodes_listed pins.now caps.now }
{
    caps.iter().all(|cap| is_listed(pins, &cap.node))
}

fn are_resistances(ress: &[RcRes]) -> bool
    ensures { result ≡ are_resistances ress.now }
{
    ress.iter().all(|res| is_amount(res.res.0))
}

fn are_capacitances(caps: &[RcCap]) -> bool
    ensures { result ≡ are_capacitances caps.now }
{
    caps.iter().all(|cap| is_amount(cap.cap.0))
}

fn are_pins_light(pins: &[PinCap]) -> bool
    ensures { result ≡ are_pins_light pins.now }
{
    pins.iter().all(|pin| is_amount(pin.cap.0))
}

/// Whether all names are listed.
fn is_named(net: &NetRc, root: &Name, pins: &[PinCap]) -> bool
    ensures { result ≡ is_named net.now root.now pins.now }
{
    let ends = are_ends_listed(pins, net.ress.as_slice());
    let nodes = are_nodes_listed(pins, net.caps.as_slice());
    (ends && nodes) && is_pin_listed(pins, root)
}

/// Whether all numbers are within the limit.
fn is_limited(net: &NetRc, pins: &[PinCap]) -> bool
    ensures { result ≡ is_limited net.now pins.now }
{
    let resistances = are_resistances(net.ress.as_slice());
    let capacitances = are_capacitances(net.caps.as_slice());
    let light = are_pins_light(pins);
    (resistances && capacitances) && (light && is_amount(net.lump.0))
}

/// Whether a tree of the net can be asked for.
#[tactic(auto, using(crate::proofs::Measuring::measured))]
pub(crate) fn is_measured(net: &NetRc, root: &Name, pins: &[PinCap]) -> bool
    ensures { IsTrue result → IsMeasured net.now root.now pins.now }
{
    is_named(net, root, pins) && is_limited(net, pins)
}
