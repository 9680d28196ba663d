//! The loads of nets without resistors.

ghost use Rattle.std.specs.Prelude.{◌≡◌, ◌≤◌, ◌^◌, ◌+◌, ◌||◌, not, pos, true, false, None, Some, All, nat_abs, option_map, option_and_then, IfOk, IfErr};
ghost use Rattle.std.specs.List.{list_all};
ghost use Rattle.sta_units.specs.Numbers.{is_within};
ghost use Rattle.timing_defs.specs.Wires.{sum_of, net_load, rc_of};
ghost use Rattle.netlist_store.specs.Numbering.{is_number, name_at};
ghost use Rattle.timing_defs.specs.Documents.{is_amount};
ghost use Rattle.node_rows.specs.PortTables.{ArePorts};
ghost use Rattle.node_rows.specs.NetPins.{cap_at};

use crate::pins::pin_cap;
use crate::ports::Ports;
use netlist_store::Store;
use nldm_lookup::OutOfRange;
use sta_units::Af;
use store_pins::{drives, pins_on};
use timing_defs::{NetRc, RcCap, Split};

/// The greatest load, in aF.
const GREATEST: u128 = 1_000_000_000_000;

/// Whether a pin's capacitance counts: that of a pin that drives, where those count too.
fn counts_as(drivers: bool, driving: bool) -> bool
    ensures { result ≡ (drivers || not driving) }
{
    drivers || !driving
}

/// The capacitance of a pin in aF; 0 of a pin that drives, where those do not count.
fn counted(store: &Store, ports: &Ports, split: Split, drivers: bool, pin: u32) -> u64
    requires pin { is_number store.now.pins pin ≡ true }
    requires ports { ArePorts store.now.design.constraints ports.now }
    ensures { result ≡ nat_abs (cap_at store.now split drivers pin) }
{
    if counts_as(drivers, drives(store, pin)) {
        pin_cap(store, ports, split, pin).unsigned_abs()
    } else {
        0
    }
}

/// The sum of the capacitances of pins in aF, with or without those that drive.
fn pins_load(store: &Store, ports: &Ports, split: Split, drivers: bool, pins: &[u32]) -> u128
    requires pins { All (λ pin. is_number store.now.pins pin ≡ true) pins.now }
    requires ports { ArePorts store.now.design.constraints ports.now }
    ensures sum { pos result ≡ sum_of (cap_at store.now split drivers) pins.now }
    ensures bound { result ≤ 2 ^ 104 }
{
    store.laws();
    let mut total = 0;
    for pin in pins {
        total += u128::from(counted(store, ports, split, drivers, *pin));
    }
    total
}

/// A capacitance that is not negative, in aF.
fn amount(cap: Af) -> u64
    ensures { result ≡ nat_abs cap.0 }
{
    cap.0.unsigned_abs()
}

/// The sum of ground capacitances, in aF.
fn caps_load(caps: &[RcCap]) -> u128
    requires { list_all (λ c. is_amount c.cap.0) caps.now ≡ true }
    ensures sum { pos result ≡ sum_of (λ c. c.cap.0) caps.now }
    ensures bound { result ≤ 2 ^ 104 }
{
    let mut total = 0;
    for cap in caps {
        total += u128::from(amount(cap.cap));
    }
    total
}

/// A load within the limit.
fn in_range(load: u128) -> Result<i64, OutOfRange>
    ensures value { IfOk result (λ v. v ≡ pos load) }
    ensures within { IfOk result (λ _. is_within (pos load) ≡ true) }
    ensures err { IfErr result (λ _. is_within (pos load) ≡ false) }
{
    if load <= GREATEST {
        Ok(load as i64)
    } else {
        Err(OutOfRange)
    }
}

/// The load of a net without parasitics: that of its sinks. `OutOfRange` exactly where it leaves its
/// limit.
pub(crate) fn bare_load(
    store: &Store,
    ports: &Ports,
    split: Split,
    net: u32,
) -> Result<i64, OutOfRange>
    requires net { is_number store.now.nets net ≡ true }
    requires bare { option_and_then (rc_of store.now.design) (name_at store.now.nets net) ≡ None }
    requires ports { ArePorts store.now.design.constraints ports.now }
    ensures value { IfOk result
        (λ v. option_map (net_load store.now.design split) (name_at store.now.nets net) ≡ Some v) }
    ensures within { IfOk result (λ v. is_within v ≡ true) }
    ensures err { IfErr result
        (λ _. option_map (λ name. is_within (net_load store.now.design split name))
        (name_at store.now.nets net) ≡ Some false) }
{
    store.laws();
    in_range(pins_load(store, ports, split, false, pins_on(store, net)))
}

/// The load of a net with parasitics but without resistors: all its capacitance. `OutOfRange` exactly
/// where it leaves its limit.
pub(crate) fn lumped_load(
    store: &Store,
    ports: &Ports,
    split: Split,
    net: u32,
    rc: &NetRc,
) -> Result<i64, OutOfRange>
    requires net { is_number store.now.nets net ≡ true }
    requires rc { option_and_then (rc_of store.now.design) (name_at store.now.nets net)
        ≡ Some rc.now }
    requires ports { ArePorts store.now.design.constraints ports.now }
    ensures value { IfOk result
        (λ v. option_map (net_load store.now.design split) (name_at store.now.nets net) ≡ Some v) }
    ensures within { IfOk result (λ v. is_within v ≡ true) }
    ensures err { IfErr result
        (λ _. option_map (λ name. is_within (net_load store.now.design split name))
        (name_at store.now.nets net) ≡ Some false) }
{
    store.laws();
    let pins = pins_load(store, ports, split, true, pins_on(store, net));
    let caps = caps_load(rc.caps.as_slice());
    in_range(u128::from(amount(rc.lump)) + caps + pins)
}
