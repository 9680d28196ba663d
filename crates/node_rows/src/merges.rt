//! What the arcs into a node bring together: its slew, and its arrivals per launch edge.

ghost use Rattle.std.specs.Prelude.{◌≡◌, ◌+◌, ◌++◌, ◌≤◌, ◌*◌, [], ◌∷◌, ◌&&◌, pos, true, false, not, if◌then◌else◌, map, length, None, Some, option_map, IfOk, IfErr, OnOk};
ghost use Rattle.std.specs.List.{list_any, list_all};
ghost use Rattle.std.specs.Option.{option_to_list};
ghost use Rattle.timing_defs.specs.Netlist.{same_tran};
ghost use Rattle.timing_rules.specs.Rows.{outermost, edge_time, start_at, launch_edges, is_input_port, is_clock_at};
ghost use Rattle.timing_defs.specs.RowTimes.{times_in, time_on, plus_some};
ghost use Rattle.timing_rules.specs.Clocking.{is_clock_port};
ghost use Rattle.timing_rules.specs.Range.{within_some};
ghost use Rattle.netlist_store.specs.Numbering.{is_number, pin_numbered};
ghost use Rattle.node_rows.specs.Between.{are_within};
ghost use Rattle.node_rows.specs.Evaluation.{IsSetting, AreBefore, told_values, told_wide, is_row_within, node_of, IsUnfit, merged_over, arrival_over, times_on, are_wide_times, has_clock};

use crate::arcs::{ArcValues, outer_some};
use crate::entries::entry_of;
use crate::settings::{Before, NodeAt, Setting};
use crate::unfit::Unfit;
use crate::values::values_into;
use netlist_store::Store;
use sta_units::{Fs, LIM};
use std::alloc::Global;
use store_pins::drives;
use timing_defs::{Clock, EdgeTime, EdgeTimes, Items, Name, NodeRow, Split, Tran};

/// What the arcs into a node bring, in the order of the nodes before it.
pub(crate) fn all_values(
    alloc: Global,
    setting: &Setting<'_>,
    split: Split,
    to: NodeAt,
    before: &[Before<'_>],
) -> Result<Items<ArcValues>, Unfit>
    requires setting { IsSetting setting.now }
    requires before { AreBefore setting.now.store.now to before.now }
    ensures values { IfOk result
        (λ values. values ≡ map (told_values setting.now.store.now split to) before.now) }
    ensures within { IfOk result (λ values. list_all are_within values ≡ true) }
    ensures fine { OnOk result
        (list_any (told_wide setting.now.store.now split to) before.now ≡ false) }
    ensures err { IfErr result
        (IsUnfit (list_any (told_wide setting.now.store.now split to) before.now)) }
{
    let mut values = Items::with_room(alloc, before.len())?;
    let entry = entry_of(setting, split, to.pin);
    for node in before {
        let value = values_into(setting, split, to, &entry, node)?;
        values.push(value)?;
    }
    Ok(values)
}

/// The outermost of the slews that arcs bring.
pub(crate) fn merged_slew(split: Split, values: &[ArcValues]) -> Option<i64>
    requires { list_all are_within values.now ≡ true }
    ensures value { result ≡ outermost split (λ v. v.slew) None values.now }
    ensures within { within_some result ≡ true }
{
    let mut best = None;
    for value in values {
        best = outer_some(split, best, value.slew);
    }
    best
}

/// The times of a row in a split.
pub fn times_in(row: &NodeRow, split: Split) -> &[EdgeTime]
    ensures { result.now ≡ times_in split row.now }
{
    match split {
        Split::Early => row.early.as_slice(),
        Split::Late => row.late.as_slice(),
    }
}

/// The time on a launch edge, in fs.
pub fn time_on(times: &[EdgeTime], clock: u32, tran: Tran) -> Option<i64>
    ensures { result ≡ time_on times.now (clock, tran) }
{
    for time in times {
        if time.clock == clock && time.tran.is(tran) {
            return Some(time.time.0);
        }
    }
    None
}

/// A time and a delay together, where both are there.
pub fn plus_some(time: Option<i64>, delay: Option<i64>) -> Option<i64>
    requires time { within_some time ≡ true }
    requires delay { within_some delay ≡ true }
    ensures { result ≡ plus_some time delay }
{
    match (time, delay) {
        (Some(time), Some(delay)) => Some(time + delay),
        _ => None,
    }
}

/// The arrival that an arc brings on a launch edge.
fn arrival_along(
    split: Split,
    node: &Before<'_>,
    values: &ArcValues,
    clock: u32,
    tran: Tran,
) -> Option<i64>
    requires row { is_row_within node.now.row.now ≡ true }
    requires values { are_within values.now ≡ true }
    ensures { result
        ≡ plus_some (time_on (times_in split node.now.row.now) (clock, tran)) values.now.delay }
{
    plus_some(
        time_on(times_in(node.row, split), clock, tran),
        values.delay,
    )
}

/// The outermost of the arrivals that arcs bring on a launch edge.
fn merged_arrival(
    split: Split,
    before: &[Before<'_>],
    values: &[ArcValues],
    clock: u32,
    tran: Tran,
) -> Option<i64>
    requires len { length values.now ≡ length before.now }
    requires rows { list_all (λ b. is_row_within b.row.now) before.now ≡ true }
    requires values { list_all are_within values.now ≡ true }
    ensures { result ≡ merged_over split (clock, tran) None before.now values.now }
{
    let mut best = None;
    for (at, node) in before.iter().enumerate() {
        let next = arrival_along(split, node, &values[at], clock, tran);
        best = outer_some(split, best, next);
    }
    best
}

/// Whether the port of the clock at a place has that name.
fn is_clock_at(clocks: &[Clock], clock: u32, port: &Name) -> bool
    ensures { result ≡ is_clock_at clocks.now clock port.now }
{
    match clocks.get(clock as usize) {
        Some(clock) => has_port(clock, port),
        None => false,
    }
}

/// Whether the port of a clock has that name.
fn has_port(clock: &Clock, port: &Name) -> bool
    ensures { result ≡ has_clock port.now clock.now }
{
    match &clock.port {
        Some(name) => port == name,
        None => false,
    }
}

/// Whether a launch edge is that of the port of this name, with its own transition.
fn is_own_edge(clocks: &[Clock], clock: u32, port: &Name, tran: Tran, own: Tran) -> bool
    ensures { result ≡ (is_clock_at clocks.now clock port.now && same_tran tran own) }
{
    is_clock_at(clocks, clock, port) && tran.is(own)
}

/// Whether a clock has a port of that name.
fn is_clock_port(clocks: &[Clock], port: &Name) -> bool
    ensures { result ≡ list_any (has_clock port.now) clocks.now }
{
    clocks.iter().any(|clock| has_port(clock, port))
}

/// When an input port starts on a launch edge, in fs.
fn port_start(
    setting: &Setting<'_>,
    split: Split,
    to: NodeAt,
    clock: u32,
    tran: Tran,
) -> Option<i64>
    requires setting { IsSetting setting.now }
    requires pin { is_number setting.now.store.now.pins to.pin ≡ true }
    requires port { option_map is_input_port (pin_numbered setting.now.store.now to.pin)
        ≡ Some true }
    ensures { option_map (λ node. start_at setting.now.store.now.design split node (clock, tran))
        (node_of setting.now.store.now to) ≡ Some result }
{
    setting.store.laws();
    let clocks = setting.store.constraints().clocks.as_slice();
    let name = setting.store.pin_name(to.pin);
    if is_clock_port(clocks, name) {
        return clock_start(is_own_edge(clocks, clock, name, tran, to.tran));
    }
    match tran {
        Tran::Rise => setting.ports.input_delay(split, to.tran, name, clock),
        Tran::Fall => None,
    }
}

/// A clock's port starts at 0 on its own edge, and on no other.
fn clock_start(own: bool) -> Option<i64>
    ensures { result ≡ (if own then Some (pos 0) else None) }
{
    if own { Some(0) } else { None }
}

/// Whether a pin is an input port.
pub(crate) fn is_input_port(store: &Store, pin: u32) -> bool
    requires { is_number store.now.pins pin ≡ true }
    ensures { option_map is_input_port (pin_numbered store.now pin) ≡ Some result }
{
    store.laws();
    match store.inst_of(pin) {
        Some(_) => false,
        None => drives(store, pin),
    }
}

/// When a node starts on a launch edge, in fs; none where nothing starts there. `port` tells whether its
/// pin is an input port.
fn start_at(
    setting: &Setting<'_>,
    split: Split,
    to: NodeAt,
    port: bool,
    clock: u32,
    tran: Tran,
) -> Option<i64>
    requires setting { IsSetting setting.now }
    requires pin { is_number setting.now.store.now.pins to.pin ≡ true }
    requires port { option_map is_input_port (pin_numbered setting.now.store.now to.pin)
        ≡ Some port }
    ensures { option_map (λ node. start_at setting.now.store.now.design split node (clock, tran))
        (node_of setting.now.store.now to) ≡ Some result }
{
    if port {
        port_start(setting, split, to, clock, tran)
    } else {
        None
    }
}

/// The arrival at a node on a launch edge, in fs.
fn arrival_on(
    setting: &Setting<'_>,
    split: Split,
    to: NodeAt,
    port: bool,
    before: &[Before<'_>],
    values: &[ArcValues],
    clock: u32,
    tran: Tran,
) -> Option<i64>
    requires setting { IsSetting setting.now }
    requires pin { is_number setting.now.store.now.pins to.pin ≡ true }
    requires port { option_map is_input_port (pin_numbered setting.now.store.now to.pin)
        ≡ Some port }
    requires len { length values.now ≡ length before.now }
    requires rows { list_all (λ b. is_row_within b.row.now) before.now ≡ true }
    requires values { list_all are_within values.now ≡ true }
    ensures { result
        ≡ arrival_over setting.now.store.now split to before.now values.now (clock, tran) }
{
    match start_at(setting, split, to, port, clock, tran) {
        Some(time) => Some(time),
        None => merged_arrival(split, before, values, clock, tran),
    }
}

/// Adds the time of a launch edge, where there is one. `Range` exactly where it leaves its limit.
fn add_time(times: &mut EdgeTimes, clock: u32, tran: Tran, time: Option<i64>) -> Result<(), Unfit>
    ensures times { OnOk result
        (times.new ≡ times.old ++ option_to_list (option_map (edge_time (clock, tran)) time)) }
    ensures fine { OnOk result (within_some time ≡ true) }
    ensures err { IfErr result (IsUnfit (not (within_some time))) }
{
    let Some(time) = time else {
        return Ok(());
    };
    if time.unsigned_abs() > LIM.unsigned_abs() {
        return Err(Unfit::Range);
    }
    let edge = EdgeTime {
        clock,
        tran,
        time: Fs(time),
    };
    times.push(edge)?;
    Ok(())
}

/// Adds the arrivals on both edges of a clock. `Range` exactly where one leaves its limit.
fn add_clock(
    times: &mut EdgeTimes,
    setting: &Setting<'_>,
    split: Split,
    to: NodeAt,
    port: bool,
    before: &[Before<'_>],
    values: &[ArcValues],
    clock: u32,
) -> Result<(), Unfit>
    requires setting { IsSetting setting.now }
    requires pin { is_number setting.now.store.now.pins to.pin ≡ true }
    requires port { option_map is_input_port (pin_numbered setting.now.store.now to.pin)
        ≡ Some port }
    requires len { length values.now ≡ length before.now }
    requires rows { list_all (λ b. is_row_within b.row.now) before.now ≡ true }
    requires values { list_all are_within values.now ≡ true }
    ensures times { OnOk result
        (times.new
        ≡ times.old ++ times_on (arrival_over setting.now.store.now split to before.now values.now)
        ((clock, Tran.Rise) ∷ (clock, Tran.Fall) ∷ [])) }
    ensures fine { OnOk result
        (are_wide_times (arrival_over setting.now.store.now split to before.now values.now)
        ((clock, Tran.Rise) ∷ (clock, Tran.Fall) ∷ []) ≡ false) }
    ensures err { IfErr result
        (IsUnfit
        (are_wide_times (arrival_over setting.now.store.now split to before.now values.now)
        ((clock, Tran.Rise) ∷ (clock, Tran.Fall) ∷ []))) }
{
    let rise = arrival_on(setting, split, to, port, before, values, clock, Tran::Rise);
    add_time(times, clock, Tran::Rise, rise)?;
    let fall = arrival_on(setting, split, to, port, before, values, clock, Tran::Fall);
    add_time(times, clock, Tran::Fall, fall)
}

/// The arrivals at a node, in the order of the launch edges. `Range` exactly where one leaves its limit.
pub(crate) fn arrivals(
    alloc: Global,
    setting: &Setting<'_>,
    split: Split,
    to: NodeAt,
    before: &[Before<'_>],
    values: &[ArcValues],
) -> Result<EdgeTimes, Unfit>
    requires setting { IsSetting setting.now }
    requires pin { is_number setting.now.store.now.pins to.pin ≡ true }
    requires len { length values.now ≡ length before.now }
    requires rows { list_all (λ b. is_row_within b.row.now) before.now ≡ true }
    requires values { list_all are_within values.now ≡ true }
    ensures times { IfOk result
        (λ times. times
        ≡ times_on (arrival_over setting.now.store.now split to before.now values.now)
        (launch_edges setting.now.store.now.design)) }
    ensures fine { OnOk result
        (are_wide_times (arrival_over setting.now.store.now split to before.now values.now)
        (launch_edges setting.now.store.now.design) ≡ false) }
    ensures err { IfErr result
        (IsUnfit
        (are_wide_times (arrival_over setting.now.store.now split to before.now values.now)
        (launch_edges setting.now.store.now.design))) }
{
    setting.store.laws();
    let port = is_input_port(setting.store, to.pin);
    let mut times = EdgeTimes::new(alloc);
    for (at, _) in setting
        .store
        .constraints()
        .clocks
        .as_slice()
        .iter()
        .enumerate()
    {
        add_clock(
            &mut times, setting, split, to, port, before, values, at as u32,
        )?;
    }
    Ok(times)
}
