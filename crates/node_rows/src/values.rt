//! What an arc brings to a node from another: the slew at its end, and its delay.

ghost use Rattle.std.specs.Prelude.{◌≡◌, ◌≤◌, ◌*ℤ◌, ◌^◌, ◌&&◌, pos, not, true, false, Some, unsigned_abs, option_map, option_and_then, MatchResult, IfOk, IfErr};
ghost use Rattle.sta_units.specs.Numbers.{limit, rounded, is_within};
ghost use Rattle.timing_defs.specs.Netlist.{is_driver};
ghost use Rattle.timing_defs.specs.RowTimes.{slew_in};
ghost use Rattle.timing_rules.specs.Rows.{factor_of};
ghost use Rattle.timing_rules.specs.Range.{within_some};
ghost use Rattle.netlist_store.specs.Numbering.{is_number, pin_numbered};
ghost use Rattle.node_rows.specs.Between.{no_values, are_within};
ghost use Rattle.node_rows.specs.Entries.{IsDrivingCell, IsEntry};
ghost use Rattle.node_rows.specs.WireTables.{root_slew, told_slew, told_delay, wire_at};
ghost use Rattle.node_rows.specs.Evaluation.{IsJoined, IsSetting, IsAlong, told_values, told_wide, is_row_within, scaled_values};

use crate::arcs::{ArcEnds, ArcValues, arc_values};
use crate::entries::{DrivingCell, Entry};
use crate::pin_wires::PinWire;
use crate::scaling::{factor_of, scaled};
use crate::settings::{Before, NodeAt, Setting};
use netlist_store::Store;
use nldm_lookup::OutOfRange;
use sta_units::{LIM, root};
use store_pins::own_name;
use timing_defs::{NodeRow, Split};

/// What nothing brings.
fn no_values() -> ArcValues
    ensures { result ≡ no_values }
{
    ArcValues {
        slew: None,
        delay: None,
    }
}

/// The slew of a row in a split, in fs.
pub fn slew_in(row: &NodeRow, split: Split) -> Option<i64>
    ensures { result ≡ slew_in split row.now }
{
    match split {
        Split::Early => row.early_slew.map(|slew| slew.0),
        Split::Late => row.late_slew.map(|slew| slew.0),
    }
}

/// The values with the delay times a factor. `OutOfRange` exactly where that leaves its limit.
fn scaled_values(values: ArcValues, factor: u32) -> Result<ArcValues, OutOfRange>
    requires within { are_within values ≡ true }
    requires factor { factor ≤ 10000000 }
    ensures value { IfOk result (λ told. told ≡ scaled_values values factor) }
    ensures within { IfOk result (λ told. are_within told ≡ true) }
    ensures err { IfErr result (λ _. within_some (scaled_values values factor).delay ≡ false) }
{
    match values.delay {
        Some(delay) => Ok(ArcValues {
            slew: values.slew,
            delay: Some(scaled(delay, factor)?),
        }),
        None => Ok(values),
    }
}

/// The ends of an arc of a cell from one node to another, whose pin has that name in the cell.
fn ends_between<'a>(store: &'a Store, from: NodeAt, to: NodeAt, own: &'a [u8]) -> ArcEnds<'a>
    requires from { is_number store.now.pins from.pin ≡ true }
    ensures from { option_map (λ p. p.own) (pin_numbered store.now from.pin)
        ≡ Some result.from.now }
    ensures from_tran { result.from_tran ≡ from.tran }
    ensures to { result.to.now ≡ own.now }
    ensures to_tran { result.to_tran ≡ to.tran }
    ensures registers { result.registers ≡ (from.network && not to.network) }
{
    ArcEnds {
        from: own_name(store, from.pin),
        from_tran: from.tran,
        to: own,
        to_tran: to.tran,
        registers: from.network && !to.network,
    }
}

/// What the arcs of a cell bring to one of its output pins, from a node with this slew. `OutOfRange`
/// exactly where a value that is looked up or a scaled delay leaves its limit.
fn inst_values(
    setting: &Setting<'_>,
    split: Split,
    to: NodeAt,
    before: &Before<'_>,
    slew: i64,
    cell: &DrivingCell<'_>,
) -> Result<ArcValues, OutOfRange>
    requires setting { IsSetting setting.now }
    requires joined { IsJoined setting.now.store.now to before.now.node }
    requires row { is_row_within before.now.row.now ≡ true }
    requires drives { option_map is_driver (pin_numbered setting.now.store.now to.pin) ≡ Some true }
    requires slew { slew_in split before.now.row.now ≡ Some slew }
    requires cell { IsDrivingCell setting.now.store.now split to.pin cell.now }
    ensures { MatchResult result (IsAlong setting.now.store.now split to before.now)
        (λ _. told_wide setting.now.store.now split to before.now ≡ true) }
{
    setting.store.laws();
    let ends = ends_between(setting.store, before.node, to, cell.own);
    let values = arc_values(split, cell.arcs, &ends, slew, cell.load)?;
    scaled_values(values, cell.factor)
}

/// What the arcs of a cell bring to one of its output pins; nothing from a node without a slew.
fn cell_values(
    setting: &Setting<'_>,
    split: Split,
    to: NodeAt,
    before: &Before<'_>,
    cell: &DrivingCell<'_>,
) -> Result<ArcValues, OutOfRange>
    requires setting { IsSetting setting.now }
    requires joined { IsJoined setting.now.store.now to before.now.node }
    requires row { is_row_within before.now.row.now ≡ true }
    requires drives { option_map is_driver (pin_numbered setting.now.store.now to.pin) ≡ Some true }
    requires cell { IsDrivingCell setting.now.store.now split to.pin cell.now }
    ensures { MatchResult result (IsAlong setting.now.store.now split to before.now)
        (λ _. told_wide setting.now.store.now split to before.now ≡ true) }
{
    match slew_in(before.row, split) {
        Some(slew) => inst_values(setting, split, to, before, slew, cell),
        None => Ok(no_values()),
    }
}

/// The root of the sum of a slew's square and an impulse. `OutOfRange` exactly where it leaves its
/// limit.
fn root_slew(slew: i64, impulse: u128) -> Result<i64, OutOfRange>
    requires { unsigned_abs slew ≤ limit }
    ensures value { IfOk result (λ end. end ≡ root_slew slew impulse) }
    ensures within { IfOk result (λ end. is_within end ≡ true) }
    ensures err { IfErr result (λ _. is_within (root_slew slew impulse) ≡ false) }
{
    let size = u128::from(slew.unsigned_abs());
    let Some(sum) = impulse.checked_add(size * size) else {
        return Err(OutOfRange);
    };
    let end = root(sum);
    if end <= LIM.unsigned_abs() {
        Ok(end as i64)
    } else {
        Err(OutOfRange)
    }
}

/// The slew at the end of a wire. `OutOfRange` exactly where it leaves its limit.
fn wire_slew(wire: &Option<PinWire>, split: Split, slew: i64) -> Result<i64, OutOfRange>
    requires { unsigned_abs slew ≤ limit }
    ensures value { IfOk result (λ end. end ≡ told_slew split wire.now slew) }
    ensures within { IfOk result (λ end. is_within end ≡ true) }
    ensures err { IfErr result (λ _. is_within (told_slew split wire.now slew) ≡ false) }
{
    match (wire, split) {
        (Some(wire), Split::Early) => root_slew(slew, wire.early.impulse),
        (Some(wire), Split::Late) => root_slew(slew, wire.late.impulse),
        (None, _) => Ok(slew),
    }
}

/// The delay of a wire.
fn wire_delay(wire: &Option<PinWire>, split: Split) -> i64
    ensures { result ≡ told_delay split wire.now }
{
    match (wire, split) {
        (Some(wire), Split::Early) => wire.early.delay.0,
        (Some(wire), Split::Late) => wire.late.delay.0,
        (None, _) => 0,
    }
}

/// The slew that the wire to a sink brings, with its scaled delay.
fn end_values(
    setting: &Setting<'_>,
    split: Split,
    to: NodeAt,
    before: &Before<'_>,
    wire: &Option<PinWire>,
    delay: i64,
) -> Result<ArcValues, OutOfRange>
    requires setting { IsSetting setting.now }
    requires joined { IsJoined setting.now.store.now to before.now.node }
    requires row { is_row_within before.now.row.now ≡ true }
    requires drives { option_map is_driver (pin_numbered setting.now.store.now to.pin)
        ≡ Some false }
    requires wire { wire.now ≡ wire_at setting.now.wires.now.pins to.pin }
    requires delay { delay
        ≡ rounded
        (told_delay split wire.now *ℤ pos
        (factor_of setting.now.store.now.design.constraints.derates split false)) (pos (10 ^ 6)) }
    requires within { is_within delay ≡ true }
    ensures { MatchResult result (IsAlong setting.now.store.now split to before.now)
        (λ _. told_wide setting.now.store.now split to before.now ≡ true) }
{
    setting.store.laws();
    let Some(slew) = slew_in(before.row, split) else {
        return Ok(no_values());
    };
    let end = wire_slew(wire, split, slew)?;
    Ok(ArcValues {
        slew: Some(end),
        delay: Some(delay),
    })
}

/// What the wire to a sink brings to it. `OutOfRange` exactly where its scaled delay or the slew at its
/// end leaves its limit.
fn net_values(
    setting: &Setting<'_>,
    split: Split,
    to: NodeAt,
    before: &Before<'_>,
) -> Result<ArcValues, OutOfRange>
    requires setting { IsSetting setting.now }
    requires joined { IsJoined setting.now.store.now to before.now.node }
    requires row { is_row_within before.now.row.now ≡ true }
    requires drives { option_map is_driver (pin_numbered setting.now.store.now to.pin)
        ≡ Some false }
    ensures { MatchResult result (IsAlong setting.now.store.now split to before.now)
        (λ _. told_wide setting.now.store.now split to before.now ≡ true) }
{
    setting.store.laws();
    let wire = setting.wires.wire(to.pin);
    let factor = factor_of(&setting.store.constraints().derates, split, false);
    let delay = scaled(wire_delay(&wire, split), factor)?;
    end_values(setting, split, to, before, &wire, delay)
}

/// What an arc brings to a node from another. `OutOfRange` exactly where a quantity of the arc leaves its
/// limit. Takes no memory.
pub(crate) fn values_into(
    setting: &Setting<'_>,
    split: Split,
    to: NodeAt,
    entry: &Entry<'_>,
    before: &Before<'_>,
) -> Result<ArcValues, OutOfRange>
    requires setting { IsSetting setting.now }
    requires joined { IsJoined setting.now.store.now to before.now.node }
    requires entry { IsEntry setting.now.store.now split to.pin entry.now }
    requires row { is_row_within before.now.row.now ≡ true }
    ensures { MatchResult result (IsAlong setting.now.store.now split to before.now)
        (λ _. told_wide setting.now.store.now split to before.now ≡ true) }
{
    match entry {
        Entry::Wire => net_values(setting, split, to, before),
        Entry::Cell(cell) => cell_values(setting, split, to, before, cell),
        Entry::Port => Ok(no_values()),
    }
}
