//! The capacitance at each place of a forest.

ghost use Rattle.std.specs.Prelude.{◌≡◌, ◌<◌, ◌≤◌, ◌+◌, ◌*◌, ◌^◌, ◌++◌, [], map, true, length, option_and_then, nat_abs, IfOk, IfErr, IfSome, pos, ◌+ℤ◌};
ghost use Rattle.std.specs.List.{AllByRecursion};
ghost use Rattle.timing_defs.specs.Wires.{sum_of, res_of};
ghost use Rattle.timing_defs.specs.declared.parasitics.RcNode.TheVariants.{Pin as rc_pin};
ghost use Rattle.rc_tree.specs.declared.faults.RcFault.TheVariants.{Memory as memory};
ghost use Rattle.rc_tree.specs.Trees.{is_amount, pin_charges, total_load};
ghost use Rattle.rc_tree.specs.Numbering.{numbered};
ghost use Rattle.rc_tree.specs.Growth.{place_of};
ghost use Rattle.rc_tree.specs.Moments.{weight_at};
ghost use Rattle.rc_tree.specs.Weights.{IsPlacing, IsPlaceOf, IsWeighed, AreAdded, AreUnder, heavier, charge_of};

use crate::faults::RcFault;
use crate::forests::{Forest, place_of};
use crate::nodes::Nodes;
use sta_units::Af;
use std::alloc::Global;
use timing_defs::{NetRc, PinCap, RcCap, RcNode, RcRes};

/// Adds an amount at a place, if there is one.
fn add_at(weights: Vec<u128>, place: Option<usize>, amount: u64) -> Vec<u128>
    requires place { IfSome place (λ p. p < length weights.items) }
    requires room { IfSome place (λ p. weight_at weights.items p ≤ 2 ^ 120) }
    ensures { result.items ≡ heavier weights.items place amount }
{
    let mut more = weights;
    if let Some(place) = place {
        more[place] += u128::from(amount);
    }
    more
}

/// A capacitance that is not negative, in aF.
fn amount(cap: Af) -> u64
    ensures { result ≡ nat_abs cap.0 }
{
    cap.0.unsigned_abs()
}

/// The place of a node by its number.
fn place_at(forest: &Forest, number: Option<usize>) -> Option<usize>
    requires { IfSome number (λ n. n < length forest.now.places.items) }
    ensures { result ≡ option_and_then (place_of forest.now) number }
{
    match number {
        Some(number) => place_of(forest, number),
        None => None,
    }
}

/// The place of a node.
#[tactic(auto, using(crate::proofs::Weighing::place_finding))]
fn place_of_node(nodes: &Nodes, forest: &Forest, node: &RcNode) -> Option<usize>
    requires { IsPlacing (numbered nodes.now) forest.now }
    ensures { IsPlaceOf (numbered nodes.now) forest.now node.now result }
{
    place_at(forest, nodes.number(node))
}

/// The place of a pin.
#[tactic(auto, using(crate::proofs::Weighing::place_finding))]
fn place_of_pin(nodes: &Nodes, forest: &Forest, pin: &PinCap) -> Option<usize>
    requires { IsPlacing (numbered nodes.now) forest.now }
    ensures { IsPlaceOf (numbered nodes.now) forest.now (rc_pin pin.now.pin) result }
{
    place_at(forest, nodes.pin_number(&pin.pin))
}

/// Adds the ground capacitances of a net at their places.
fn add_caps(weights: Vec<u128>, nodes: &Nodes, forest: &Forest, caps: &[RcCap]) -> Vec<u128>
    requires placing { IsPlacing (numbered nodes.now) forest.now }
    requires len { length weights.items ≡ length forest.now.rows.items }
    requires amounts { AllByRecursion (λ c. is_amount c.cap.0 ≡ true) caps.now }
    requires bound { AreUnder 0 weights.items }
    ensures added { AreAdded (numbered nodes.now) forest.now caps.now weights.items result.items }
    ensures bound { AreUnder (length caps.now * 2 ^ 40) result.items }
{
    let mut all = weights;
    for cap in caps {
        let place = place_of_node(nodes, forest, &cap.node);
        all = add_at(all, place, amount(cap.cap));
    }
    all
}

/// Adds the capacitances of pins at their places.
fn add_pins(weights: Vec<u128>, nodes: &Nodes, forest: &Forest, pins: &[PinCap]) -> Vec<u128>
    requires placing { IsPlacing (numbered nodes.now) forest.now }
    requires len { length weights.items ≡ length forest.now.rows.items }
    requires amounts { AllByRecursion (λ c. is_amount c.cap.0 ≡ true) (map charge_of pins.now) }
    requires bound { AreUnder (2 ^ 104) weights.items }
    ensures { AreAdded (numbered nodes.now) forest.now (map charge_of pins.now) weights.items
        result.items }
{
    let mut all = weights;
    for pin in pins {
        let place = place_of_pin(nodes, forest, pin);
        all = add_at(all, place, amount(pin.cap));
    }
    all
}

/// The capacitance at each place, in aF: to ground, and that of the pins.
pub(crate) fn weights(
    alloc: Global,
    nodes: &Nodes,
    forest: &Forest,
    net: &NetRc,
    pins: &[PinCap],
) -> Result<Vec<u128>, RcFault>
    requires placing { IsPlacing (numbered nodes.now) forest.now }
    requires amounts { AllByRecursion (λ c. is_amount c.cap.0 ≡ true)
        (pin_charges net.now pins.now) }
    ensures len { IfOk result (λ weights. length weights.items ≡ length forest.now.rows.items) }
    ensures weighed { IfOk result
        (λ weights. IsWeighed (numbered nodes.now) forest.now (pin_charges net.now pins.now)
        (weight_at weights.items)) }
    ensures err { IfErr result (λ fault. fault ≡ memory) }
{
    let none = vec![in alloc; 0; forest.rows.len()]?;
    let caps = add_caps(none, nodes, forest, net.caps.as_slice());
    Ok(add_pins(caps, nodes, forest, pins))
}

/// The resistance of a resistor that is not negative, in mΩ.
fn resistance(resistor: &RcRes) -> u64
    ensures { result ≡ nat_abs (res_of resistor.now) }
{
    resistor.res.0.unsigned_abs()
}

/// The sum of resistances, in mΩ.
pub(crate) fn total_resistance(resistors: &[RcRes]) -> u128
    requires { AllByRecursion (λ r. is_amount (res_of r) ≡ true) resistors.now }
    ensures { pos result ≡ sum_of res_of resistors.now }
{
    let mut total = 0;
    for resistor in resistors {
        total += u128::from(resistance(resistor));
    }
    total
}

/// The sum of ground capacitances, in aF.
fn total_caps(caps: &[RcCap]) -> u128
    requires { AllByRecursion (λ c. is_amount c.cap.0 ≡ true) caps.now }
    ensures sum { pos result ≡ sum_of (λ c. c.cap.0) caps.now }
    ensures bound { result ≤ 2 ^ 104 }
{
    let mut total = 0;
    for cap in caps {
        total += u128::from(amount(cap.cap));
    }
    total
}

/// The sum of the capacitances of pins, in aF.
fn total_pins(pins: &[PinCap]) -> u128
    requires { AllByRecursion (λ p. is_amount p.cap.0 ≡ true) pins.now }
    ensures sum { pos result ≡ sum_of (λ p. p.cap.0) pins.now }
    ensures bound { result ≤ 2 ^ 104 }
{
    let mut total = 0;
    for pin in pins {
        total += u128::from(amount(pin.cap));
    }
    total
}

/// All capacitance of a net, in aF.
pub(crate) fn total_load(net: &NetRc, pins: &[PinCap]) -> u128
    requires lump { is_amount net.now.lump.0 ≡ true }
    requires amounts { AllByRecursion (λ c. is_amount c.cap.0 ≡ true)
        (pin_charges net.now pins.now) }
    ensures { pos result ≡ total_load net.now pins.now }
{
    let caps = total_caps(net.caps.as_slice());
    u128::from(amount(net.lump)) + caps + total_pins(pins)
}
