//! How many pins, instances and nets a design has.

ghost use Rattle.std.specs.Prelude.{◌≡◌, ◌≤◌, nat_lt, length, if◌then◌else◌};
ghost use Rattle.timing_defs.specs.NetChecks.{most};
ghost use Rattle.timing_defs.specs.Netlist.{pins};
ghost use Rattle.design_link.specs.Counts.{large_count};

use netlist_store::Store;
use timing_defs::Large;

/// The most pins, instances or nets of a design.
const MOST: u32 = 200_000;

/// One where a number stands for something.
fn one_if(there: bool) -> u32
    ensures value { result ≡ (if there then 1 else 0) }
    ensures small { result ≤ 1 }
{
    if there { 1 } else { 0 }
}

fn pin_count(store: &Store) -> u32
    ensures { result ≡ length (pins store.now.design) }
{
    store.laws();
    let mut count = 0;
    for pin in 0..store.pin_bound() {
        count += one_if(store.has_pin(pin));
    }
    count
}

fn inst_count(store: &Store) -> u32
    ensures { result ≡ length store.now.design.insts }
{
    store.laws();
    let mut count = 0;
    for inst in 0..store.inst_bound() {
        count += one_if(store.has_inst(inst));
    }
    count
}

fn net_count(store: &Store) -> u32
    ensures { result ≡ length store.now.design.nets }
{
    store.laws();
    let mut count = 0;
    for net in 0..store.net_bound() {
        count += one_if(store.has_net(net));
    }
    count
}

/// Whether there are too many pins; they are counted only where their numbers pass the limit.
fn has_many_pins(store: &Store) -> bool
    ensures { result ≡ nat_lt most (length (pins store.now.design)) }
{
    store.laws();
    if store.pin_bound() <= MOST {
        return false;
    }
    pin_count(store) > MOST
}

/// Whether there are too many instances; they are counted only where their numbers pass the limit.
fn has_many_insts(store: &Store) -> bool
    ensures { result ≡ nat_lt most (length store.now.design.insts) }
{
    store.laws();
    if store.inst_bound() <= MOST {
        return false;
    }
    inst_count(store) > MOST
}

/// Whether there are too many nets; they are counted only where their numbers pass the limit.
fn has_many_nets(store: &Store) -> bool
    ensures { result ≡ nat_lt most (length store.now.design.nets) }
{
    store.laws();
    if store.net_bound() <= MOST {
        return false;
    }
    net_count(store) > MOST
}

/// Which of pins, instances and nets there are too many of, the first of them.
pub(crate) fn large_count(store: &Store) -> Option<Large>
    ensures { result ≡ large_count store.now.design }
{
    if has_many_pins(store) {
        return Some(Large::Pins);
    }
    if has_many_insts(store) {
        return Some(Large::Insts);
    }
    if has_many_nets(store) {
        return Some(Large::Nets);
    }
    None
}
