//! The links of one pin: those into it and those out of it, found in the store in time of its cell and its net.

ghost use Rattle.std.specs.Prelude.{◌≡◌, ◌++◌, ◌==◌, ◌∷◌, [], ℕ, None, nat_eq, true, All, map, filter, not, IfOk, OnOk, if◌then◌else◌};
ghost use Rattle.std.specs.List.{list_any};
ghost use Rattle.std.specs.Option.{option_to_list};
ghost use Rattle.timing_defs.specs.NetChecks.{net_fault};
ghost use Rattle.netlist_store.specs.Numbering.{is_number, owner_number};
ghost use Rattle.pin_graph.specs.Joins.{before, arcs_of};
ghost use Rattle.pin_graph.specs.Networks.{is_comb_arc, clock_pins};
ghost use Rattle.pin_graph.specs.Pulls.{net_driven, arcs_into, arcs_from, from_pin, to_pin, pins_before, sinks_of, pins_behind, network_tails, network_heads, own_arcs, own_clocks, driven_net, is_sink};

use crate::networks::{add_inst_tests, add_number, edge_pins};
use crate::pin_arcs::{PinArc, add_inst_arcs};
use netlist_store::Store;
use sta_units::Memory;
use std::alloc::Global;
use store_pins::{driver_at, drives, pins_on};
use timing_defs::{ArcKind, Items};

/// The pin from which a net arc leads to a pin; none leads to a pin that drives.
pub(crate) fn driver_of(store: &Store, pin: u32) -> Option<u32>
    requires { net_fault store.now.design ≡ None }
    ensures { result ≡ before store.now pin }
{
    store.laws();
    if !store.has_pin(pin) || drives(store, pin) {
        return None;
    }
    let net = store.net_of(pin)?;
    driver_at(store, net)
}

/// The instance that owns a pin; none of a port or a gap.
#[tactic(auto, using(crate::proofs::PullLaws::gap_owner))]
fn owner_of(store: &Store, pin: u32) -> Option<u32>
    ensures { result ≡ owner_number store.now pin }
{
    store.laws();
    if store.has_pin(pin) {
        store.inst_of(pin)
    } else {
        None
    }
}

/// The arcs of the cell of an instance.
fn inst_arcs(alloc: Global, store: &Store, inst: u32) -> Result<Items<PinArc>, Memory>
    ensures { IfOk result (λ arcs. arcs ≡ arcs_of store.now inst) }
{
    let mut arcs = Items::new(alloc);
    add_inst_arcs(alloc, store, &mut arcs, inst)?;
    Ok(arcs)
}

/// The arcs of the cell of a pin's instance.
#[tactic(auto, using(crate::proofs::PullLaws::own_put, crate::proofs::PullLaws::own_none))]
fn own_arcs(alloc: Global, store: &Store, pin: u32) -> Result<Items<PinArc>, Memory>
    ensures { IfOk result (λ arcs. arcs ≡ own_arcs store.now pin) }
{
    match owner_of(store, pin) {
        Some(inst) => inst_arcs(alloc, store, inst),
        None => Ok(Items::new(alloc)),
    }
}

/// Those of some arcs that lead to a pin.
fn arcs_to(alloc: Global, arcs: &[PinArc], pin: u32) -> Result<Items<PinArc>, Memory>
    ensures { IfOk result (λ found. found ≡ filter (λ arc. arc.to == pin) arcs.now) }
{
    let mut found = Items::new(alloc);
    for arc in arcs {
        if arc.to == pin {
            found.push(*arc)?;
        }
    }
    Ok(found)
}

/// Those of some arcs that lead from a pin.
fn arcs_out(alloc: Global, arcs: &[PinArc], pin: u32) -> Result<Items<PinArc>, Memory>
    ensures { IfOk result (λ found. found ≡ filter (λ arc. arc.from == pin) arcs.now) }
{
    let mut found = Items::new(alloc);
    for arc in arcs {
        if arc.from == pin {
            found.push(*arc)?;
        }
    }
    Ok(found)
}

fn is_comb(arc: &PinArc) -> bool
    ensures { result ≡ is_comb_arc arc.now }
{
    match arc.kind {
        ArcKind::Comb => true,
        ArcKind::Edge => false,
    }
}

/// Those of some arcs that are combinational.
fn comb_arcs(alloc: Global, arcs: &[PinArc]) -> Result<Items<PinArc>, Memory>
    ensures { IfOk result (λ found. found ≡ filter is_comb_arc arcs.now) }
{
    let mut found = Items::new(alloc);
    for arc in arcs {
        if is_comb(arc) {
            found.push(*arc)?;
        }
    }
    Ok(found)
}

/// The arcs of cells into a pin.
pub(crate) fn arcs_into(alloc: Global, store: &Store, pin: u32) -> Result<Items<PinArc>, Memory>
    ensures { IfOk result (λ arcs. arcs ≡ arcs_into store.now pin) }
{
    store.laws();
    let arcs = own_arcs(alloc, store, pin)?;
    arcs_to(alloc, arcs.as_slice(), pin)
}

/// The arcs of cells out of a pin.
pub(crate) fn arcs_from(alloc: Global, store: &Store, pin: u32) -> Result<Items<PinArc>, Memory>
    ensures { IfOk result (λ arcs. arcs ≡ arcs_from store.now pin) }
{
    store.laws();
    let arcs = own_arcs(alloc, store, pin)?;
    arcs_out(alloc, arcs.as_slice(), pin)
}

/// A pin, where it is there, and those from which arcs lead.
fn tails(alloc: Global, first: Option<u32>, arcs: &[PinArc]) -> Result<Items<u32>, Memory>
    ensures { IfOk result (λ pins. pins ≡ option_to_list first ++ map from_pin arcs.now) }
{
    let mut pins = Items::new(alloc);
    add_number(&mut pins, first)?;
    for arc in arcs {
        pins.push(arc.from)?;
    }
    Ok(pins)
}

/// The pins from which links lead to a pin, in time of its cell's arcs and its net's pins.
pub(crate) fn pins_before(alloc: Global, store: &Store, pin: u32) -> Result<Items<u32>, Memory>
    requires { net_fault store.now.design ≡ None }
    ensures { IfOk result (λ pins. pins ≡ pins_before store.now pin) }
{
    let arcs = arcs_into(alloc, store, pin)?;
    tails(alloc, driver_of(store, pin), arcs.as_slice())
}

/// The pins from which clocks go to a pin.
pub(crate) fn network_tails(alloc: Global, store: &Store, pin: u32) -> Result<Items<u32>, Memory>
    requires { net_fault store.now.design ≡ None }
    ensures { IfOk result (λ pins. pins ≡ network_tails store.now pin) }
{
    let arcs = arcs_into(alloc, store, pin)?;
    let comb = comb_arcs(alloc, arcs.as_slice())?;
    tails(alloc, driver_of(store, pin), comb.as_slice())
}

/// A net, where a pin drives it.
fn net_driven(store: &Store, pin: u32, net: u32) -> Option<u32>
    requires { net_fault store.now.design ≡ None }
    ensures { result ≡ net_driven store.now pin net }
{
    let driver = driver_at(store, net)?;
    if pin == driver { Some(net) } else { None }
}

/// The net that a pin drives.
#[tactic(auto, using(crate::proofs::PullLaws::gap_net, crate::proofs::PullLaws::driven_none, crate::proofs::PullLaws::driven_some))]
fn driven_net(store: &Store, pin: u32) -> Option<u32>
    requires { net_fault store.now.design ≡ None }
    ensures { result ≡ driven_net store.now pin }
{
    store.laws();
    if !store.has_pin(pin) {
        return None;
    }
    let net = store.net_of(pin)?;
    net_driven(store, pin, net)
}

/// Those of some pins that drive no net.
fn sinks_among(alloc: Global, store: &Store, pins: &[u32]) -> Result<Items<u32>, Memory>
    requires { All (λ pin. is_number store.now.pins pin ≡ true) pins.now }
    ensures { IfOk result (λ sinks. sinks ≡ filter (is_sink store.now) pins.now) }
{
    let mut sinks = Items::new(alloc);
    for pin in pins {
        if !drives(store, *pin) {
            sinks.push(*pin)?;
        }
    }
    Ok(sinks)
}

/// The sinks that a pin drives.
fn sinks_of(alloc: Global, store: &Store, pin: u32) -> Result<Items<u32>, Memory>
    requires { net_fault store.now.design ≡ None }
    ensures { IfOk result
        (λ sinks. (sink : ℕ) → list_any (nat_eq sink) sinks
        ≡ list_any (nat_eq sink) (sinks_of store.now pin)) }
{
    store.laws();
    match driven_net(store, pin) {
        Some(net) => sinks_among(alloc, store, pins_on(store, net)),
        None => Ok(Items::new(alloc)),
    }
}

/// Adds the pins to which arcs lead.
fn add_heads(pins: &mut Items<u32>, arcs: &[PinArc]) -> Result<(), Memory>
    ensures { OnOk result (pins.new ≡ pins.old ++ map to_pin arcs.now) }
{
    for arc in arcs {
        pins.push(arc.to)?;
    }
    Ok(())
}

/// The pins to which links lead from a pin, in no order that is told; in time of its cell's arcs and its
/// net's pins.
pub(crate) fn pins_behind(alloc: Global, store: &Store, pin: u32) -> Result<Items<u32>, Memory>
    requires { net_fault store.now.design ≡ None }
    ensures { IfOk result
        (λ pins. (n : ℕ) → list_any (nat_eq n) pins
        ≡ list_any (nat_eq n) (pins_behind store.now pin)) }
{
    let mut pins = sinks_of(alloc, store, pin)?;
    let arcs = arcs_from(alloc, store, pin)?;
    add_heads(&mut pins, arcs.as_slice())?;
    Ok(pins)
}

/// The pins to which clocks go from a pin, in no order that is told.
pub(crate) fn network_heads(alloc: Global, store: &Store, pin: u32) -> Result<Items<u32>, Memory>
    requires { net_fault store.now.design ≡ None }
    ensures { IfOk result
        (λ pins. (n : ℕ) → list_any (nat_eq n) pins
        ≡ list_any (nat_eq n) (network_heads store.now pin)) }
{
    let mut pins = sinks_of(alloc, store, pin)?;
    let arcs = arcs_from(alloc, store, pin)?;
    let comb = comb_arcs(alloc, arcs.as_slice())?;
    add_heads(&mut pins, comb.as_slice())?;
    Ok(pins)
}

/// The clock pins of an instance's cell: those of its edge arcs and those of its tests.
fn own_clocks(alloc: Global, store: &Store, inst: u32) -> Result<Items<u32>, Memory>
    ensures { IfOk result (λ pins. pins ≡ own_clocks store.now inst) }
{
    let arcs = inst_arcs(alloc, store, inst)?;
    let mut pins = edge_pins(alloc, arcs.as_slice())?;
    add_inst_tests(alloc, store, &mut pins, inst)?;
    Ok(pins)
}

/// Whether a pin is one of some.
pub(crate) fn is_among(pins: &[u32], pin: u32) -> bool
    ensures { result ≡ list_any (nat_eq pin) pins.now }
{
    pins.iter().any(|other| pin == *other)
}

/// Whether a pin is a register's clock pin, in time of its cell's arcs and tests.
pub(crate) fn is_register_clock(alloc: Global, store: &Store, pin: u32) -> Result<bool, Memory>
    ensures { IfOk result (λ found. found ≡ list_any (nat_eq pin) (clock_pins store.now)) }
{
    store.laws();
    match owner_of(store, pin) {
        Some(inst) => {
            let pins = own_clocks(alloc, store, inst)?;
            Ok(is_among(pins.as_slice(), pin))
        }
        None => Ok(false),
    }
}
