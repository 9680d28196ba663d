//! The sinks of a net.

ghost use Rattle.std.specs.Prelude.{◌≡◌, All, Some, None, map, is_some, if◌then◌else◌, IfOk};
ghost use Rattle.timing_defs.specs.Firsts.{AreAll};
ghost use Rattle.timing_defs.specs.Netlist.{driver};
ghost use Rattle.timing_rules.specs.Connections.{sink_before, IsSink};
ghost use Rattle.netlist_store.specs.Numbering.{name_at};
ghost use Rattle.node_rows.specs.Evaluation.{IsSetting};
ghost use Rattle.node_rows.specs.WireTables.{told_delay};
ghost use Rattle.net_reports.specs.Sinks.{report_under, IsSinkName};

use crate::caps::pin_cap;
use crate::orders::sorted_sinks;
use node_rows::{PinWire, Setting};
use sta_units::{Af, Fs, Memory};
use std::alloc::Global;
use timing_defs::{Items, Name, SinkReport, Split};

/// The delay of a wire, in fs; 0 without resistors on the way.
fn wire_delay(wire: &Option<PinWire>, split: Split) -> Fs
    ensures { result.0 ≡ told_delay split wire.now }
{
    match (wire, split) {
        (Some(wire), Split::Early) => wire.early.delay,
        (Some(wire), Split::Late) => wire.late.delay,
        (None, _) => Fs(0),
    }
}

/// The delay of the wire to a sink; none where nothing drives the net.
fn sink_delay(driven: bool, wire: &Option<PinWire>, split: Split) -> Option<Fs>
    ensures { result ≡ (if driven then Some (record { 0 = told_delay split wire.now }) else None) }
{
    if driven {
        Some(wire_delay(wire, split))
    } else {
        None
    }
}

/// The report of the sink of a pin's number.
fn sink_at(
    alloc: Global,
    setting: &Setting<'_>,
    net: &Name,
    driven: bool,
    pin: &Name,
    number: u32,
) -> Result<SinkReport, Memory>
    requires setting { IsSetting setting.now }
    requires driven { driven ≡ is_some (driver setting.now.store.now.design net.now) }
    requires sink { IsSinkName setting.now.store.now.design net.now pin.now }
    requires number { name_at setting.now.store.now.pins number ≡ Some pin.now }
    ensures { IfOk result (λ sink. sink ≡ report_under setting.now.store.now.design net.now pin.now) }
{
    let Setting {
        store,
        wires,
        ports,
    } = *setting;
    store.laws();
    // The net is asked for by the contract alone.
    let _ = net;
    let wire = wires.wire(number);
    let early_cap = pin_cap(store, ports, Split::Early, number);
    let late_cap = pin_cap(store, ports, Split::Late, number);
    let early_delay = sink_delay(driven, &wire, Split::Early);
    let late_delay = sink_delay(driven, &wire, Split::Late);
    let name = pin.copied(alloc)?;
    Ok(SinkReport {
        pin: name,
        early_cap: Af(early_cap),
        late_cap: Af(late_cap),
        early_delay,
        late_delay,
    })
}

/// The report of the sink of a name.
fn sink_named(
    alloc: Global,
    setting: &Setting<'_>,
    net: &Name,
    driven: bool,
    pin: &Name,
) -> Result<SinkReport, Memory>
    requires setting { IsSetting setting.now }
    requires driven { driven ≡ is_some (driver setting.now.store.now.design net.now) }
    requires sink { IsSinkName setting.now.store.now.design net.now pin.now }
    ensures { IfOk result (λ sink. sink ≡ report_under setting.now.store.now.design net.now pin.now) }
{
    setting.store.laws();
    match setting.store.pin(pin) {
        Some(number) => sink_at(alloc, setting, net, driven, pin, number),
        None => unreachable!(),
    }
}

/// The reports of sinks by their names, in their order.
fn sinks_named(
    alloc: Global,
    setting: &Setting<'_>,
    net: &Name,
    driven: bool,
    pins: &[&Name],
) -> Result<Items<SinkReport>, Memory>
    requires setting { IsSetting setting.now }
    requires driven { driven ≡ is_some (driver setting.now.store.now.design net.now) }
    requires sinks { All (λ pin. IsSinkName setting.now.store.now.design net.now pin.now) pins.now }
    ensures { IfOk result (λ sinks. sinks ≡ map (λ pin. report_under setting.now.store.now.design net.now pin.now) pins.now) }
{
    let mut sinks = Items::with_room(alloc, pins.len())?;
    for pin in pins {
        let sink = sink_named(alloc, setting, net, driven, pin)?;
        sinks.push(sink)?;
    }
    Ok(sinks)
}

/// The reports of the sinks of a net, by name.
pub(crate) fn sinks_of(
    alloc: Global,
    setting: &Setting<'_>,
    net: &Name,
    number: u32,
    driven: bool,
) -> Result<Items<SinkReport>, Memory>
    requires setting { IsSetting setting.now }
    requires net { name_at setting.now.store.now.nets number ≡ Some net.now }
    requires driven { driven ≡ is_some (driver setting.now.store.now.design net.now) }
    ensures { IfOk result (AreAll sink_before (IsSink setting.now.store.now.design net.now)) }
{
    setting.store.laws();
    let names = sorted_sinks(alloc, setting.store, net, number)?;
    sinks_named(alloc, setting, net, driven, names.as_slice())
}
