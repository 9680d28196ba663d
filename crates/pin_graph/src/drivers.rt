//! The drivers of nets, and the net arcs into pins.

ghost use Rattle.std.specs.Prelude.{◌≡◌, None, IfOk};
ghost use Rattle.timing_defs.specs.NetChecks.{net_fault};
ghost use Rattle.pin_graph.specs.Joins.{drivers_of, before, befores};

use netlist_store::Store;
use sta_units::Memory;
use std::alloc::Global;
use store_pins::{driver_at, drives};
use timing_defs::Items;

/// The driver of each net, by the net's number.
fn drivers(alloc: Global, store: &Store) -> Result<Items<Option<u32>>, Memory>
    requires { net_fault store.now.design ≡ None }
    ensures { IfOk result (λ found. found ≡ drivers_of store.now) }
{
    let mut drivers = Items::new(alloc);
    for net in 0..store.net_bound() {
        drivers.push(driver_at(store, net))?;
    }
    Ok(drivers)
}

/// The pin from which a net arc leads to a pin; none leads to a pin that drives.
fn before(store: &Store, drivers: &[Option<u32>], pin: u32) -> Option<u32>
    requires { drivers.now ≡ drivers_of store.now }
    ensures { result ≡ before store.now pin }
{
    store.laws();
    if !store.has_pin(pin) || drives(store, pin) {
        return None;
    }
    let net = store.net_of(pin)?;
    drivers[net as usize]
}

/// For each number the pin from which a net arc leads to it. Takes as many steps as there are pins.
pub(crate) fn befores(alloc: Global, store: &Store) -> Result<Items<Option<u32>>, Memory>
    requires { net_fault store.now.design ≡ None }
    ensures { IfOk result (λ found. found ≡ befores store.now) }
{
    let drivers = drivers(alloc, store)?;
    let mut befores = Items::new(alloc);
    for pin in 0..store.pin_bound() {
        befores.push(before(store, drivers.as_slice(), pin))?;
    }
    Ok(befores)
}
