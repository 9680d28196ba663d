//! The row of a node, with the delays of the arcs into it.

ghost use Rattle.std.specs.Prelude.{◌≡◌, ℕ, List, Bool, true, false, not, ◌||◌, None, Some, map, length, option_map, IfOk, IfErr, OnOk};
ghost use Rattle.std.specs.List.{list_any, list_all};
ghost use Rattle.timing_defs.specs.declared.rows.NodeRow.{NodeRow};
ghost use Rattle.timing_defs.specs.declared.faults.Fault.{Fault};
ghost use Rattle.timing_defs.specs.Netlist.{Node};
ghost use Rattle.timing_rules.specs.Rows.{as_fs, launch_edges};
ghost use Rattle.timing_rules.specs.Range.{within_some};
ghost use Rattle.netlist_store.specs.Numbering.{is_number, pin_numbered, name_at};
ghost use Rattle.node_rows.specs.Between.{are_within};
ghost use Rattle.node_rows.specs.Evaluation.{IsSetting, AreBefore, HaveRows, IsRow, IsRefused, IsPlaced, IsUnfit, node_of, told_slew_over, told_row, told_delays, is_wide, is_wide_split};

use crate::arcs::ArcValues;
use crate::delays::{BothDelays, both_delays};
use crate::merges::{all_values, arrivals, is_input_port, merged_slew};
use crate::settings::{Before, NodeAt, Setting};
use crate::unfit::Unfit;
use netlist_store::Store;
use sta_units::Fs;
use std::alloc::Global;
use timing_defs::{EdgeTimes, Fault, Items, NodeRow, Place, Split};

/// The slew of a node in fs and its arrivals in one split, with what the arcs into it bring.
#[derive(Drop)]
pub(crate) struct SplitRow {
    pub(crate) slew: Option<Fs>,
    pub(crate) times: EdgeTimes,
    pub(crate) values: Items<ArcValues>,
}

/// The row of a node, and the delays of the arcs into it, in the order of the nodes before it.
#[derive(Drop)]
pub struct RowAndDelays {
    pub row: NodeRow,
    pub delays: Items<BothDelays>,
}

/// The slew of a node over what its arcs bring.
fn node_slew(setting: &Setting<'_>, split: Split, to: NodeAt, values: &[ArcValues]) -> Option<i64>
    requires setting { IsSetting setting.now }
    requires pin { is_number setting.now.store.now.pins to.pin ≡ true }
    requires values { list_all are_within values.now ≡ true }
    ensures value { result ≡ told_slew_over setting.now.store.now split to values.now }
    ensures within { within_some result ≡ true }
{
    setting.store.laws();
    if is_input_port(setting.store, to.pin) {
        let name = setting.store.pin_name(to.pin);
        Some(setting.ports.slew(split, to.tran, name))
    } else {
        merged_slew(split, values)
    }
}

/// The row of a node in one split.
fn split_row(
    alloc: Global,
    setting: &Setting<'_>,
    split: Split,
    to: NodeAt,
    before: &[Before<'_>],
) -> Result<SplitRow, Unfit>
    requires setting { IsSetting setting.now }
    requires before { AreBefore setting.now.store.now to before.now }
    ensures row { IfOk result (λ row. row ≡ told_row setting.now.store.now split to before.now) }
    ensures fine { OnOk result (is_wide_split setting.now.store.now split to before.now ≡ false) }
    ensures err { IfErr result (IsUnfit (is_wide_split setting.now.store.now split to before.now)) }
{
    let values = all_values(alloc, setting, split, to, before)?;
    let slew = node_slew(setting, split, to, values.as_slice());
    let times = arrivals(alloc, setting, split, to, before, values.as_slice())?;
    Ok(SplitRow {
        slew: slew.map(Fs),
        times,
        values,
    })
}

/// The row of a node in both splits, with the delays of the arcs into it.
fn both_rows(
    alloc: Global,
    setting: &Setting<'_>,
    to: NodeAt,
    before: &[Before<'_>],
) -> Result<RowAndDelays, Unfit>
    requires setting { IsSetting setting.now }
    requires before { AreBefore setting.now.store.now to before.now }
    ensures row { IfOk result
        (λ found. (row_of : Node → NodeRow) (node : Node) → node_of setting.now.store.now to
        ≡ Some node → HaveRows setting.now.store.now row_of before.now
        → IsRow setting.now.store.now.design row_of node found.row) }
    ensures delays { IfOk result
        (λ found. found.delays ≡ map (told_delays setting.now.store.now to) before.now) }
    ensures err { IfErr result
        (λ unfit. (row_of : Node → NodeRow) (node : Node) → node_of setting.now.store.now to
        ≡ Some node → HaveRows setting.now.store.now row_of before.now
        → IsUnfit (is_wide setting.now.store.now.design row_of node) unfit) }
{
    setting.store.laws();
    let early = split_row(alloc, setting, Split::Early, to, before)?;
    let late = split_row(alloc, setting, Split::Late, to, before)?;
    let delays = both_delays(alloc, early.values.as_slice(), late.values.as_slice())?;
    let row = NodeRow {
        early_slew: early.slew,
        late_slew: late.slew,
        early: early.times,
        late: late.times,
    };
    Ok(RowAndDelays { row, delays })
}

/// The fault of a pin: a quantity leaves its limit there, or memory is wanting.
fn fault_at(alloc: Global, store: &Store, pin: u32, unfit: Unfit) -> Fault
    requires { is_number store.now.pins pin ≡ true }
    ensures { (wide : Bool) (name : List ℕ) → name_at store.now.pins pin ≡ Some name
        → IsUnfit wide unfit → IsPlaced wide name result }
{
    match unfit {
        Unfit::Memory => Fault::Memory,
        Unfit::Range => match store.pin_name(pin).copied(alloc) {
            Ok(name) => Fault::OutOfRange(Place::Pin(name)),
            Err(_) => Fault::Memory,
        },
    }
}

/// The row of a node over the rows of the nodes before it: `before` has each node from which an arc
/// leads to it, in any order, and no other, with a row of quantities within their limits. With it come
/// the delays of these arcs, in the order of `before`. `OutOfRange` at the node's pin exactly where a
/// looked-up slew or delay of an arc, a scaled delay, the slew or an arrival of the node leaves its
/// limit.
pub fn node_row(
    alloc: Global,
    setting: &Setting<'_>,
    to: NodeAt,
    before: &[Before<'_>],
) -> Result<RowAndDelays, Fault>
    requires setting { IsSetting setting.now }
    requires before { AreBefore setting.now.store.now to before.now }
    ensures row { IfOk result
        (λ found. (row_of : Node → NodeRow) (node : Node) → node_of setting.now.store.now to
        ≡ Some node → HaveRows setting.now.store.now row_of before.now
        → IsRow setting.now.store.now.design row_of node found.row) }
    ensures delays { IfOk result
        (λ found. found.delays ≡ map (told_delays setting.now.store.now to) before.now) }
    ensures err { IfErr result
        (λ fault. (row_of : Node → NodeRow) (node : Node) → node_of setting.now.store.now to
        ≡ Some node → HaveRows setting.now.store.now row_of before.now
        → IsRefused setting.now.store.now.design row_of node fault) }
{
    setting.store.laws();
    match both_rows(alloc, setting, to, before) {
        Ok(found) => Ok(found),
        Err(unfit) => Err(fault_at(alloc, setting.store, to.pin, unfit)),
    }
}
