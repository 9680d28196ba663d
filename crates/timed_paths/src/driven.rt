//! The nets that pins of a path drive.

ghost use Rattle.std.specs.Prelude.{◌≡◌, ◌≤◌, pos, true, All, Some, map, length, option_map, option_and_then, IfOk};
ghost use Rattle.timing_defs.specs.Netlist.{pin_named, sinks};
ghost use Rattle.timing_defs.specs.Wires.{sum_of};
ghost use Rattle.timing_rules.specs.Stages.{driven_net, driven_by};
ghost use Rattle.netlist_store.specs.Numbering.{is_number, name_at, pin_numbered};
ghost use Rattle.node_rows.specs.WireTables.{AreWires};
ghost use Rattle.timed_paths.specs.Numbers.{sink_at};

use netlist_store::Store;
use node_rows::Wires;
use sta_units::{Af, Memory};
use std::alloc::Global;
use store_pins::{drives, pins_on};
use timing_defs::{DrivenNet, Name, Split};

/// 1 for a pin that drives nothing, 0 for a driver.
fn sink_count(store: &Store, pin: u32) -> u64
    requires { is_number store.now.pins pin ≡ true }
    ensures value { pos result ≡ sink_at store.now pin }
    ensures most { result ≤ 1 }
{
    if drives(store, pin) { 0 } else { 1 }
}

/// How many of some pins drive nothing.
fn count_sinks(store: &Store, pins: &[u32]) -> u64
    requires { All (λ pin. is_number store.now.pins pin ≡ true) pins.now }
    ensures { pos result ≡ sum_of (sink_at store.now) pins.now }
{
    let mut count = 0;
    for pin in pins {
        count += sink_count(store, *pin);
    }
    count
}

/// How many sinks are on a net.
fn fanout_of(store: &Store, net: u32) -> u64
    requires { is_number store.now.nets net ≡ true }
    ensures { option_map (λ name. length (sinks store.now.design name)) (name_at store.now.nets net)
        ≡ Some result }
{
    store.laws();
    count_sinks(store, pins_on(store, net))
}

/// A net as a driver drives it: its name, its load, and the count of its sinks.
fn driven_net(
    alloc: Global,
    store: &Store,
    wires: &Wires,
    split: Split,
    net: u32,
) -> Result<DrivenNet, Memory>
    requires net { is_number store.now.nets net ≡ true }
    requires wires { AreWires store.now wires.now }
    ensures { IfOk result
        (λ made. option_map (driven_net store.now.design split) (name_at store.now.nets net)
        ≡ Some made) }
{
    store.laws();
    let load = wires.load(net, split);
    let fanout = fanout_of(store, net);
    let net = store.net_name(net).copied(alloc)?;
    Ok(DrivenNet {
        net,
        load: Af(load),
        fanout,
    })
}

/// What a pin drives; none of a sink, and of a pin on no net.
fn driven_by(
    alloc: Global,
    store: &Store,
    wires: &Wires,
    split: Split,
    pin: u32,
) -> Result<Option<DrivenNet>, Memory>
    requires pin { is_number store.now.pins pin ≡ true }
    requires wires { AreWires store.now wires.now }
    ensures { IfOk result
        (λ made. option_and_then (driven_by store.now.design split) (pin_numbered store.now pin)
        ≡ made) }
{
    store.laws();
    if !drives(store, pin) {
        return Ok(None);
    }
    match store.net_of(pin) {
        Some(net) => Ok(Some(driven_net(alloc, store, wires, split, net)?)),
        None => Ok(None),
    }
}

/// What the pin of a name drives; none where it is not there.
pub(crate) fn driven_named(
    alloc: Global,
    store: &Store,
    wires: &Wires,
    split: Split,
    pin: &Name,
) -> Result<Option<DrivenNet>, Memory>
    requires wires { AreWires store.now wires.now }
    ensures { IfOk result
        (λ made. made
        ≡ option_and_then (driven_by store.now.design split)
        (pin_named store.now.design pin.now)) }
{
    store.laws();
    match store.pin(pin) {
        Some(number) => driven_by(alloc, store, wires, split, number),
        None => Ok(None),
    }
}
