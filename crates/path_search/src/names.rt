//! Names of pins and of their instances.

ghost use Rattle.std.specs.Prelude.{ℕ, List, ◌≡◌, Some, true, IfOk};
ghost use Rattle.timing_rules.specs.Paths.{owner_named};
ghost use Rattle.netlist_store.specs.Numbering.{is_number, name_at};
ghost use Rattle.path_search.specs.Slacks.{ArePinNames};

use netlist_store::Store;
use sta_units::Memory;
use std::alloc::Global;
use timing_defs::Name;

/// The name of a pin, and that of its instance (none for a port).
#[derive(Drop)]
pub(crate) struct PinNames {
    pub(crate) pin: Name,
    pub(crate) cell: Option<Name>,
}

/// The name of the instance of a pin.
fn owner_name(alloc: Global, store: &Store, pin: u32) -> Result<Option<Name>, Memory>
    requires { is_number store.now.pins pin ≡ true }
    ensures { IfOk result
        (λ cell. (name : List ℕ) → name_at store.now.pins pin ≡ Some name → cell
        ≡ owner_named store.now.design name) }
{
    store.laws();
    match store.inst_of(pin) {
        Some(inst) => Ok(Some(store.inst_at(inst).name.copied(alloc)?)),
        None => Ok(None),
    }
}

/// The names of a pin and of its instance.
pub(crate) fn pin_names(alloc: Global, store: &Store, pin: u32) -> Result<PinNames, Memory>
    requires { is_number store.now.pins pin ≡ true }
    ensures { IfOk result (ArePinNames store.now pin) }
{
    let name = store.pin_name(pin).copied(alloc)?;
    let cell = owner_name(alloc, store, pin)?;
    Ok(PinNames { pin: name, cell })
}
