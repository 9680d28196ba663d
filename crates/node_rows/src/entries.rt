//! How arcs enter the nodes of a pin: by a wire, or by the arcs of a cell.

ghost use Rattle.std.specs.Prelude.{◌≡◌, ◌≤◌, true, Some, option_map, unsigned_abs};
ghost use Rattle.sta_units.specs.Numbers.{limit};
ghost use Rattle.timing_rules.specs.Rows.{load_at};
ghost use Rattle.netlist_store.specs.Numbering.{is_number, pin_numbered, owner_number};
ghost use Rattle.node_rows.specs.Evaluation.{IsSetting};
ghost use Rattle.node_rows.specs.Entries.{IsDrivingCell, IsEntry};

use crate::scaling::factor_of;
use crate::settings::Setting;
use store_pins::{drives, own_name};
use timing_defs::{CellArc, Split};

/// The cell of the instance that has an output pin, with what all arcs to the pin have in common.
#[derive(Clone, Copy, Drop)]
pub(crate) struct DrivingCell<'a> {
    /// The arcs of the cell.
    pub(crate) arcs: &'a [CellArc],
    /// The name of the pin in the cell.
    pub(crate) own: &'a [u8],
    /// The load of the pin's net, in aF.
    pub(crate) load: i64,
    /// The factor of the cell's delays, in millionths.
    pub(crate) factor: u32,
}

/// How arcs enter the nodes of a pin in a split.
#[derive(Clone, Copy, Drop)]
pub(crate) enum Entry<'a> {
    /// By the wire from the driver of the pin's net.
    Wire,
    /// By the arcs of a cell, to one of its output pins.
    Cell(DrivingCell<'a>),
    /// Not at all: the pin is an input port.
    Port,
}

/// The load of the net of a pin, in aF; 0 where it is on none.
fn load_at(setting: &Setting<'_>, split: Split, pin: u32) -> i64
    requires setting { IsSetting setting.now }
    requires pin { is_number setting.now.store.now.pins pin ≡ true }
    ensures value { option_map (load_at setting.now.store.now.design split)
        (pin_numbered setting.now.store.now pin) ≡ Some result }
    ensures bound { unsigned_abs result ≤ limit }
{
    setting.store.laws();
    match setting.store.net_of(pin) {
        Some(net) => setting.wires.load(net, split),
        None => 0,
    }
}

/// The cell of an instance in a split, for one of its output pins.
fn driving_cell<'a>(setting: &Setting<'a>, split: Split, pin: u32, inst: u32) -> DrivingCell<'a>
    requires setting { IsSetting setting.now }
    requires pin { is_number setting.now.store.now.pins pin ≡ true }
    requires owner { owner_number setting.now.store.now pin ≡ Some inst }
    requires inst { is_number setting.now.store.now.insts inst ≡ true }
    ensures { IsDrivingCell setting.now.store.now split pin result }
{
    setting.store.laws();
    DrivingCell {
        arcs: setting.store.cell_at(inst, split).arcs.as_slice(),
        own: own_name(setting.store, pin),
        load: load_at(setting, split, pin),
        factor: factor_of(&setting.store.constraints().derates, split, true),
    }
}

/// How arcs enter the nodes of a pin in a split. Takes no memory.
pub(crate) fn entry_of<'a>(setting: &Setting<'a>, split: Split, pin: u32) -> Entry<'a>
    requires setting { IsSetting setting.now }
    requires pin { is_number setting.now.store.now.pins pin ≡ true }
    ensures { IsEntry setting.now.store.now split pin result }
{
    if !drives(setting.store, pin) {
        return Entry::Wire;
    }
    match setting.store.inst_of(pin) {
        Some(inst) => Entry::Cell(driving_cell(setting, split, pin, inst)),
        None => Entry::Port,
    }
}
