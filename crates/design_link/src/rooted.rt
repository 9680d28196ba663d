//! Whether the resistors of a net are a tree from its driver.

ghost use Rattle.std.specs.Prelude.{◌≡◌, ◌∷◌, ◌++◌, [], Some, true, map, IfOk, OnOk};
ghost use Rattle.std.specs.List.{filter_map, flat_map};
ghost use Rattle.timing_defs.specs.Documents.{is_net_rc};
ghost use Rattle.design_link.specs.Rooted.{bare, bare_pin, bare_pins, is_rooted, rooted_by};

use crate::walks::is_walk;
use rc_tree::{RcFault, Tree};
use sta_units::{Af, Memory};
use std::alloc::Global;
use timing_defs::{Items, Name, NetRc, PinCap, RcCap, RcNode, RcRes};

/// Adds a pin, of no capacitance.
fn add_pin(alloc: Global, pins: &mut Items<PinCap>, name: &Name) -> Result<(), Memory>
    ensures { OnOk result (pins.new ≡ pins.old ++ bare name.now ∷ []) }
{
    let pin = name.copied(alloc)?;
    pins.push(PinCap { pin, cap: Af(0) })?;
    Ok(())
}

/// Adds the pin of a node; an inner node has none.
fn add_node(alloc: Global, pins: &mut Items<PinCap>, node: &RcNode) -> Result<(), Memory>
    ensures { OnOk result (pins.new ≡ pins.old ++ filter_map bare_pin (node.now ∷ [])) }
{
    match node {
        RcNode::Pin(name) => add_pin(alloc, pins, name),
        RcNode::Inner(_) => Ok(()),
    }
}

/// Adds the pins at the ends of a resistor.
fn add_ends(alloc: Global, pins: &mut Items<PinCap>, resistor: &RcRes) -> Result<(), Memory>
    ensures { OnOk result
        (pins.new ≡ pins.old ++ filter_map bare_pin (resistor.now.a ∷ resistor.now.b ∷ [])) }
{
    add_node(alloc, pins, &resistor.a)?;
    add_node(alloc, pins, &resistor.b)?;
    Ok(())
}

/// Adds the pins at the ends of resistors.
fn add_resistors(alloc: Global, pins: &mut Items<PinCap>, ress: &[RcRes]) -> Result<(), Memory>
    ensures { OnOk result
        (pins.new ≡ pins.old ++ filter_map bare_pin (flat_map (λ r. r.a ∷ r.b ∷ []) ress.now)) }
{
    for resistor in ress {
        add_ends(alloc, pins, resistor)?;
    }
    Ok(())
}

/// Adds the pins at capacitances.
fn add_caps(alloc: Global, pins: &mut Items<PinCap>, caps: &[RcCap]) -> Result<(), Memory>
    ensures { OnOk result
        (pins.new ≡ pins.old ++ filter_map bare_pin (map (λ c. c.node) caps.now)) }
{
    for cap in caps {
        add_node(alloc, pins, &cap.node)?;
    }
    Ok(())
}

/// A root and all pins that a net names, of no capacitance.
fn bare_pins(alloc: Global, rc: &NetRc, root: &Name) -> Result<Items<PinCap>, Memory>
    ensures { IfOk result (λ pins. pins ≡ bare_pins rc.now root.now) }
{
    let mut pins = Items::new(alloc);
    add_pin(alloc, &mut pins, root)?;
    add_resistors(alloc, &mut pins, rc.ress.as_slice())?;
    add_caps(alloc, &mut pins, rc.caps.as_slice())?;
    Ok(pins)
}

/// Whether a net is a tree all the same, by why no tree was made of it.
fn rooted_by(fault: RcFault) -> Result<bool, Memory>
    ensures { IfOk result (λ rooted. Some rooted ≡ rooted_by fault) }
{
    match fault {
        RcFault::Loop => Ok(false),
        RcFault::Unreached => Ok(false),
        RcFault::TooLarge => Ok(true),
        RcFault::OutOfRange => Ok(true),
        RcFault::Memory => Err(Memory),
    }
}

/// Whether a net has no resistors, or its resistors are a tree from a root to all nodes that it names.
pub(crate) fn is_rooted(alloc: Global, rc: &NetRc, root: &Name) -> Result<bool, Memory>
    requires { is_net_rc rc.now ≡ true }
    ensures { IfOk result (λ rooted. rooted ≡ is_rooted rc.now root.now) }
{
    if rc.ress.len() == 0 {
        return Ok(true);
    }
    if is_walk(rc, root) {
        return Ok(true);
    }
    let pins = bare_pins(alloc, rc, root)?;
    match Tree::of(alloc, rc, root, &pins) {
        Ok(_) => Ok(true),
        Err(fault) => rooted_by(fault),
    }
}
