//! The checks of each edit, in the order of their codes.

ghost use Rattle.std.specs.Prelude.{◌≡◌, ◌∷◌, ◌++◌, [], true, Some, None, map, not};
ghost use Rattle.std.specs.List.{list_all};
ghost use Rattle.std.specs.Option.{option_map_or};
ghost use Rattle.timing_defs.specs.declared.edits.Edit.TheVariants.{Repower, InsertGate, RemoveGate, InsertNet, RemoveNet, Connect, Disconnect, InsertBuffer, SetParasitics};
ghost use Rattle.timing_defs.specs.declared.faults.Fault.TheVariants.{PinsDiffer, InUse};
ghost use Rattle.timing_defs.specs.Edits.{edit_faults, first_fault, need_pin_inst, need_net, need_cell, need_sink, free_inst, free_net, unless, is_buffer, cell_for, has_colon, sink_faults, net_in_use};
ghost use Rattle.netlist_store.specs.Numbering.{number_of};
ghost use Rattle.netlist_store.specs.Applying.{IsChecked};

use crate::checks::{
    check_buffer, check_fits, check_free_inst, check_free_net, check_open, check_unused,
    needed_cell, needed_inst, needed_net,
};
use crate::pin_words::{
    check_pin_inst, check_pin_insts, check_sinks, check_unconnected, needed_net_of, needed_pin,
};
use crate::sinks::check_sinks_on;
use crate::stores::Store;
use std::alloc::Global;
use timing_defs::{Cell, Edit, Fault, Name};

/// A resize: E1, E3, E6.
fn check_repower(store: &Store, alloc: Global, inst: &Name, cell: &Name) -> Result<(), Fault>
    ensures { IsChecked result
        (first_fault (edit_faults store.now.design (Repower inst.now cell.now))) }
{
    needed_inst(store, alloc, inst)?;
    let found = needed_cell(store, alloc, cell)?;
    check_fits(store, alloc, inst, cell, found)
}

/// A new gate: E3, E5.
fn check_insert_gate(store: &Store, alloc: Global, inst: &Name, cell: &Name) -> Result<(), Fault>
    ensures { IsChecked result
        (first_fault (edit_faults store.now.design (InsertGate inst.now cell.now))) }
{
    needed_cell(store, alloc, cell)?;
    check_free_inst(store, alloc, inst)
}

/// A gate that goes: E1, E9.
fn check_remove_gate(store: &Store, alloc: Global, inst: &Name) -> Result<(), Fault>
    ensures { IsChecked result (first_fault (edit_faults store.now.design (RemoveGate inst.now))) }
{
    needed_inst(store, alloc, inst)?;
    check_open(store, alloc, inst)
}

/// A net of which something is said: E2.
fn check_net(store: &Store, alloc: Global, net: &Name) -> Result<(), Fault>
    ensures { IsChecked result (need_net store.now.design net.now) }
{
    needed_net(store, alloc, net)?;
    Ok(())
}

/// A net that goes: E2, E9.
fn check_remove_net(store: &Store, alloc: Global, net: &Name) -> Result<(), Fault>
    ensures { IsChecked result (first_fault (edit_faults store.now.design (RemoveNet net.now))) }
{
    let number = needed_net(store, alloc, net)?;
    check_unused(store, alloc, net, number)
}

/// A pin that joins a net: E1, E2, E4, E7.
fn check_connect(store: &Store, alloc: Global, pin: &Name, to: &Name) -> Result<(), Fault>
    ensures { IsChecked result
        (first_fault (edit_faults store.now.design (Connect pin.now to.now))) }
{
    check_pin_inst(store, alloc, pin)?;
    needed_net(store, alloc, to)?;
    needed_pin(store, alloc, pin)?;
    check_unconnected(store, alloc, pin)
}

/// A pin that leaves its net: E1, E4, E8.
fn check_disconnect(store: &Store, alloc: Global, pin: &Name) -> Result<(), Fault>
    ensures { IsChecked result (first_fault (edit_faults store.now.design (Disconnect pin.now))) }
{
    check_pin_inst(store, alloc, pin)?;
    needed_pin(store, alloc, pin)?;
    needed_net_of(store, alloc, pin)?;
    Ok(())
}

/// What a buffer adds: E5, E6, E8.
fn check_buffer_added(
    store: &Store,
    alloc: Global,
    net: &Name,
    inst: &Name,
    fresh: &Name,
    cell: &Cell,
    sinks: &[Name],
) -> Result<(), Fault>
    requires { list_all has_colon sinks.now ≡ true }
    ensures { IsChecked result
        (first_fault
        (free_inst store.now.design inst.now ∷ free_net store.now.design fresh.now ∷ unless
        (is_buffer cell.now) (PinsDiffer inst.now) ∷ sink_faults store.now.design net.now []
        sinks.now)) }
{
    check_free_inst(store, alloc, inst)?;
    check_free_net(store, alloc, fresh)?;
    check_buffer(alloc, inst, cell)?;
    check_sinks_on(store, alloc, net, sinks)
}

/// The sinks of a buffer, and what it adds: E4, E5, E6, E8.
fn check_buffer_sinks(
    store: &Store,
    alloc: Global,
    net: &Name,
    inst: &Name,
    fresh: &Name,
    cell: &Cell,
    sinks: &[Name],
) -> Result<(), Fault>
    ensures { IsChecked result
        (first_fault
        (map (need_sink store.now.design) sinks.now ++ free_inst store.now.design inst.now ∷
        free_net store.now.design fresh.now ∷ unless (is_buffer cell.now) (PinsDiffer inst.now) ∷
        sink_faults store.now.design net.now [] sinks.now)) }
{
    check_sinks(store, alloc, sinks)?;
    check_buffer_added(store, alloc, net, inst, fresh, cell, sinks)
}

/// A buffer: E1, E2, E3, E4, E5, E6, E8.
fn check_insert_buffer(
    store: &Store,
    alloc: Global,
    net: &Name,
    inst: &Name,
    fresh: &Name,
    cell: &Name,
    sinks: &[Name],
) -> Result<(), Fault>
    ensures { IsChecked result
        (first_fault
        (edit_faults store.now.design
        (InsertBuffer net.now inst.now fresh.now cell.now sinks.now))) }
{
    check_pin_insts(store, alloc, sinks)?;
    needed_net(store, alloc, net)?;
    let found = needed_cell(store, alloc, cell)?;
    check_buffer_sinks(store, alloc, net, inst, fresh, found, sinks)
}

/// Refuses an edit that has a fault, by its first one.
pub(crate) fn check_edit(store: &Store, alloc: Global, edit: &Edit) -> Result<(), Fault>
    ensures { IsChecked result (first_fault (edit_faults store.now.design edit.now)) }
{
    match edit {
        Edit::Repower { inst, cell } => check_repower(store, alloc, inst, cell),
        Edit::InsertGate { inst, cell } => check_insert_gate(store, alloc, inst, cell),
        Edit::RemoveGate { inst } => check_remove_gate(store, alloc, inst),
        Edit::InsertNet { net } => check_free_net(store, alloc, net),
        Edit::RemoveNet { net } => check_remove_net(store, alloc, net),
        Edit::Connect { pin, net } => check_connect(store, alloc, pin, net),
        Edit::Disconnect { pin } => check_disconnect(store, alloc, pin),
        Edit::InsertBuffer {
            net,
            inst,
            fresh,
            cell,
            sinks,
        } => check_insert_buffer(store, alloc, net, inst, fresh, cell, sinks.as_slice()),
        Edit::SetParasitics { net, rc: _ } => check_net(store, alloc, net),
    }
}
