//! The names of a net's sinks in their order.

ghost use Rattle.std.specs.Prelude.{◌≡◌, true, All, Some, map, IfOk};
ghost use Rattle.netlist_store.specs.Numbering.{name_at, is_number};
ghost use Rattle.net_reports.specs.Sinks.{sink_words, AreSinkNames};

use netlist_store::Store;
use sta_units::Memory;
use std::alloc::Global;
use store_pins::{is_driving, pins_on};
use timing_defs::Name;

/// The names of those pins that do not drive.
fn sink_names<'a>(alloc: Global, store: &'a Store, pins: &[u32]) -> Result<Vec<&'a Name>, Memory>
    requires { All (λ pin. is_number store.now.pins pin ≡ true) pins.now }
    ensures { IfOk result (λ names. map (λ name. name.now) names.items ≡ sink_words store.now pins.now) }
{
    let mut names = Vec::new(alloc);
    for pin in pins {
        if !is_driving(store, *pin) {
            names.push(store.pin_name(*pin))?;
        }
    }
    Ok(names)
}

/// The names of the sinks of a net, rising.
pub(crate) fn sorted_sinks<'a>(
    alloc: Global,
    store: &'a Store,
    net: &Name,
    number: u32,
) -> Result<Vec<&'a Name>, Memory>
    requires { name_at store.now.nets number ≡ Some net.now }
    ensures { IfOk result (λ names. AreSinkNames store.now.design net.now (map (λ name. name.now) names.items)) }
{
    store.laws();
    // The name is asked for by the contract alone.
    let _ = net;
    let mut names = sink_names(alloc, store, pins_on(store, number))?;
    names.sort_unstable();
    Ok(names)
}
