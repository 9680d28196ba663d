//! Pins of a store: whether they drive, their names in their cells, and the pins and drivers of nets.

ghost use Rattle.std.specs.Prelude.{◌≡◌, ◌+◌, ◌≤◌, ℕ, All, Contains, None, Some, true, count_by, drop, length, nat_eq, option_and_then, option_map, if◌then◌else◌, IfSome};
ghost use Rattle.timing_defs.specs.Netlist.{same_dir, is_driver, driver};
ghost use Rattle.timing_defs.specs.NetChecks.{net_fault};
ghost use Rattle.netlist_store.specs.Numbering.{name_at, is_number, is_on_number, pin_numbered};
ghost use Rattle.store_pins.specs.Drivers.{driver_at, drives_at};

use netlist_store::Store;
use timing_defs::Dir;

/// Whether a pin of an instance, or a port, of this direction drives its net.
fn drives_as(owned: bool, dir: Dir) -> bool
    ensures { result ≡ (if owned then same_dir dir Dir.Output else same_dir dir Dir.Input) }
{
    match dir {
        Dir::Input => !owned,
        Dir::Output => owned,
    }
}

/// Whether a pin drives its net: an input port or an output pin of an instance.
pub fn drives(store: &Store, pin: u32) -> bool
    requires { is_number store.now.pins pin ≡ true }
    ensures { option_map is_driver (pin_numbered store.now pin) ≡ Some result }
{
    drives_as(store.inst_of(pin).is_some(), store.dir_of(pin))
}

/// As [`drives`], told of the number alone.
pub fn is_driving(store: &Store, pin: u32) -> bool
    requires { is_number store.now.pins pin ≡ true }
    ensures { result ≡ drives_at store.now pin }
{
    drives(store, pin)
}

/// What stands in a name after its beginning and the byte behind that.
fn after<'a>(name: &'a [u8], beginning: &[u8]) -> &'a [u8]
    requires { length beginning.now + 1 ≤ length name.now }
    ensures { result.now ≡ drop (length beginning.now + 1) name.entry.now }
{
    &name[beginning.len() + 1..]
}

/// The name of a pin in its cell, or of a port. Takes no memory.
pub fn own_name(store: &Store, pin: u32) -> &[u8]
    requires { is_number store.now.pins pin ≡ true }
    ensures { option_map (λ p. p.own) (pin_numbered store.now pin) ≡ Some result.now }
{
    store.laws();
    let name = store.pin_name(pin).as_bytes();
    match store.inst_of(pin) {
        Some(inst) => after(name, store.inst_at(inst).name.as_bytes()),
        None => name,
    }
}

/// The pins on a net, each once.
pub fn pins_on(store: &Store, net: u32) -> &[u32]
    requires { is_number store.now.nets net ≡ true }
    ensures counts { (pin : ℕ) → count_by (nat_eq pin) result.now
        ≡ (if is_on_number store.now net pin then 1 else 0) }
    ensures numbers { All (λ pin. is_number store.now.pins pin ≡ true) result.now }
    ensures on { All (λ pin. is_on_number store.now net pin ≡ true) result.now }
    ensures all { (pin : ℕ) → is_on_number store.now net pin ≡ true → Contains result.now pin }
{
    store.net_pins(net)
}

/// The driver of a net of which no net has two; none where it has none.
pub fn net_driver(store: &Store, net: u32) -> Option<u32>
    requires net { is_number store.now.nets net ≡ true }
    requires fault { net_fault store.now.design ≡ None }
    ensures at { result ≡ driver_at store.now net }
    ensures number { IfSome result (λ pin. is_number store.now.pins pin ≡ true) }
    ensures driver { option_and_then (pin_numbered store.now) result
        ≡ option_and_then (driver store.now.design) (name_at store.now.nets net) }
{
    store.laws();
    for pin in pins_on(store, net) {
        if drives(store, *pin) {
            return Some(*pin);
        }
    }
    None
}

/// The driver of the net with a number; a gap has none.
pub fn driver_at(store: &Store, net: u32) -> Option<u32>
    requires { net_fault store.now.design ≡ None }
    ensures { result ≡ driver_at store.now net }
{
    if store.has_net(net) {
        net_driver(store, net)
    } else {
        None
    }
}
