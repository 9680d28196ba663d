//! The checks of edits: whether an instance or a net is there, or its name is free.

ghost use Rattle.std.specs.Prelude.{◌≡◌, true, not, Some, None, IfOk, OnOk};
ghost use Rattle.std.specs.Option.{option_copied, option_map_or};
ghost use Rattle.timing_defs.specs.declared.faults.Fault.TheVariants.{PinsDiffer, InUse};
ghost use Rattle.timing_defs.specs.Edits.{need_inst, need_net, need_cell, cell_for, inst_named, fits_cell, is_buffer, is_open, free_inst, free_net, net_in_use, unless};
ghost use Rattle.netlist_store.specs.Numbering.{number_of};
ghost use Rattle.netlist_store.specs.Applying.{IsChecked};

use crate::agreement::cells_agree;
use crate::cell_pins::{is_buffer, is_open, keeps_pins};
use crate::stores::Store;
use std::alloc::Global;
use timing_defs::{Cell, Fault, Name};

/// The number of an instance that has to be there.
pub(crate) fn needed_inst(store: &Store, alloc: Global, name: &Name) -> Result<u32, Fault>
    ensures checked { IsChecked result (need_inst store.now.design name.now) }
    ensures number { IfOk result (λ inst. number_of store.now.insts name.now ≡ Some inst) }
{
    store.laws();
    match store.inst(name) {
        Some(inst) => Ok(inst),
        None => Err(Fault::UnknownInstance(name.copied(alloc)?)),
    }
}

/// The number of a net that has to be there.
pub(crate) fn needed_net(store: &Store, alloc: Global, name: &Name) -> Result<u32, Fault>
    ensures checked { IsChecked result (need_net store.now.design name.now) }
    ensures number { IfOk result (λ net. number_of store.now.nets name.now ≡ Some net) }
{
    store.laws();
    match store.net(name) {
        Some(net) => Ok(net),
        None => Err(Fault::UnknownNet(name.copied(alloc)?)),
    }
}

/// Refuses the name of an instance that is there.
pub(crate) fn check_free_inst(store: &Store, alloc: Global, name: &Name) -> Result<(), Fault>
    ensures checked { IsChecked result (free_inst store.now.design name.now) }
    ensures free { OnOk result (number_of store.now.insts name.now ≡ None) }
{
    store.laws();
    match store.inst(name) {
        Some(_) => Err(Fault::NameTaken(name.copied(alloc)?)),
        None => Ok(()),
    }
}

/// Refuses the name of a net that is there.
pub(crate) fn check_free_net(store: &Store, alloc: Global, name: &Name) -> Result<(), Fault>
    ensures checked { IsChecked result (free_net store.now.design name.now) }
    ensures free { OnOk result (number_of store.now.nets name.now ≡ None) }
{
    store.laws();
    match store.net(name) {
        Some(_) => Err(Fault::NameTaken(name.copied(alloc)?)),
        None => Ok(()),
    }
}

/// The cell that both libraries have, alike; none where there is none.
pub(crate) fn usable_cell<'a>(store: &'a Store, name: &Name) -> Option<&'a Cell>
    ensures { option_copied result ≡ cell_for store.now.design name.now }
{
    let early = store.early_cell(name)?;
    let late = store.late_cell(name)?;
    if cells_agree(early, late) {
        Some(late)
    } else {
        None
    }
}

/// The cell that has to be in both libraries, alike.
pub(crate) fn needed_cell<'a>(
    store: &'a Store,
    alloc: Global,
    name: &Name,
) -> Result<&'a Cell, Fault>
    ensures checked { IsChecked result (need_cell store.now.design name.now) }
    ensures cell { IfOk result (λ cell. cell_for store.now.design name.now ≡ Some cell.now) }
{
    match usable_cell(store, name) {
        Some(cell) => Ok(cell),
        None => Err(Fault::UnknownCell(name.copied(alloc)?)),
    }
}

/// Refuses a new cell that lacks a connected or tied pin of the instance, or turns one round.
pub(crate) fn check_fits(
    store: &Store,
    alloc: Global,
    name: &Name,
    cell_name: &Name,
    cell: &Cell,
) -> Result<(), Fault>
    requires { cell_for store.now.design cell_name.now ≡ Some cell.now }
    ensures checked { IsChecked result
        (unless (fits_cell store.now.design name.now cell_name.now) (PinsDiffer name.now)) }
{
    let Some(inst) = store.inst_named(name) else {
        return Ok(());
    };
    if keeps_pins(store, inst, cell, inst.conns.as_slice()) {
        return Ok(());
    }
    let _ = cell_name;
    Err(Fault::PinsDiffer(name.copied(alloc)?))
}

/// Refuses a buffer's cell that has not one input pin and one output pin.
pub(crate) fn check_buffer(alloc: Global, inst: &Name, cell: &Cell) -> Result<(), Fault>
    ensures checked { IsChecked result (unless (is_buffer cell.now) (PinsDiffer inst.now)) }
{
    if is_buffer(cell) {
        return Ok(());
    }
    Err(Fault::PinsDiffer(inst.copied(alloc)?))
}

/// Refuses an instance that has a pin on a net.
pub(crate) fn check_open(store: &Store, alloc: Global, name: &Name) -> Result<(), Fault>
    ensures checked { IsChecked result
        (unless (option_map_or is_open (inst_named store.now.design.insts name.now) true)
        (InUse name.now)) }
{
    match store.inst_named(name) {
        Some(inst) if !is_open(inst) => Err(Fault::InUse(name.copied(alloc)?)),
        _ => Ok(()),
    }
}

/// Refuses a net that a port or a connection joins.
pub(crate) fn check_unused(store: &Store, alloc: Global, name: &Name, net: u32) -> Result<(), Fault>
    requires { number_of store.now.nets name.now ≡ Some net }
    ensures { IsChecked result
        (unless (not (net_in_use store.now.design name.now)) (InUse name.now)) }
{
    if store.has_pins(name, net) {
        return Err(Fault::InUse(name.copied(alloc)?));
    }
    Ok(())
}
