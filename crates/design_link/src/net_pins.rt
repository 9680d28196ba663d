//! How many pins drive a net.

ghost use Rattle.std.specs.Prelude.{◌≡◌, ◌≤◌, Some, true, length, option_map, if◌then◌else◌};
ghost use Rattle.timing_defs.specs.Netlist.{drivers};
ghost use Rattle.netlist_store.specs.Numbering.{name_at, is_number};

use netlist_store::Store;
use store_pins::{is_driving, pins_on};

/// One where it holds.
fn one_if(holds: bool) -> usize
    ensures value { result ≡ (if holds then 1 else 0) }
    ensures small { result ≤ 1 }
{
    if holds { 1 } else { 0 }
}

/// How many pins drive a net.
pub(crate) fn driver_count(store: &Store, net: u32) -> usize
    requires { is_number store.now.nets net ≡ true }
    ensures { option_map (λ name. length (drivers store.now.design name))
        (name_at store.now.nets net) ≡ Some result }
{
    store.laws();
    let mut count = 0;
    for pin in pins_on(store, net) {
        count += one_if(is_driving(store, *pin));
    }
    count
}
