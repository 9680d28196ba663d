//! The answer to a question for a net.

ghost use Rattle.std.specs.Prelude.{◌≡◌, Some, None, IfOk, IfErr, OnOk, option_map};
ghost use Rattle.std.specs.Option.{option_copied};
ghost use Rattle.timing_defs.specs.Netlist.{name_of, driver};
ghost use Rattle.timing_defs.specs.NetChecks.{net_fault};
ghost use Rattle.timing_rules.specs.Checks.{IsSound};
ghost use Rattle.timing_rules.specs.Range.{NoOrigin};
ghost use Rattle.timing_rules.specs.Connections.{IsNet};
ghost use Rattle.timing_rules.specs.Closing.{unknown_net};
ghost use Rattle.netlist_store.specs.Numbering.{name_at};
ghost use Rattle.node_rows.specs.Evaluation.{IsSetting};
ghost use Rattle.node_rows.specs.PortTables.{ArePorts};
ghost use Rattle.node_rows.specs.WireTables.{AreWires};
ghost use Rattle.net_reports.specs.Asked.{IsRefusal};

use crate::kept::kept_rc;
use crate::sinks::sinks_of;
use crate::wires::wires_of;
use netlist_store::Store;
use node_rows::{Setting, Wired};
use sta_units::{Af, Memory};
use std::alloc::Global;
use store_pins::net_driver;
use timing_defs::{Name, NetReport, QueryFault, Split};

/// The fault of a name of no net.
fn unknown_name(alloc: Global, net: &Name) -> QueryFault
    ensures { IsRefusal (Some (QueryFault.UnknownName net.now)) result }
{
    match net.copied(alloc) {
        Ok(name) => QueryFault::UnknownName(name),
        Err(_) => QueryFault::Memory,
    }
}

/// The number of a net; `UnknownName` exactly where no net has that name.
fn net_there(alloc: Global, store: &Store, net: &Name) -> Result<u32, QueryFault>
    ensures number { IfOk result (λ number. name_at store.now.nets number ≡ Some net.now) }
    ensures there { OnOk result (unknown_net store.now.design net.now ≡ None) }
    ensures refused { IfErr result (IsRefusal (unknown_net store.now.design net.now)) }
{
    store.laws();
    match store.net(net) {
        Some(number) => Ok(number),
        None => Err(unknown_name(alloc, net)),
    }
}

/// The name of the pin that drives a net; none where nothing does.
pub(crate) fn driver_name<'a>(store: &'a Store, net: &Name, number: u32) -> Option<&'a Name>
    requires net { name_at store.now.nets number ≡ Some net.now }
    requires fault { net_fault store.now.design ≡ None }
    ensures { option_copied result ≡ option_map name_of (driver store.now.design net.now) }
{
    store.laws();
    // The name is asked for by the contract alone.
    let _ = net;
    match net_driver(store, number) {
        Some(pin) => Some(store.pin_name(pin)),
        None => None,
    }
}

/// A copy of a name that may be there.
fn copied_name(alloc: Global, name: Option<&Name>) -> Result<Option<Name>, Memory>
    ensures { IfOk result (λ copy. copy ≡ option_copied name.entry) }
{
    match name {
        Some(name) => {
            let copy = name.copied(alloc)?;
            Ok(Some(copy))
        }
        None => Ok(None),
    }
}

/// The report of a net by its number.
fn net_report(
    alloc: Global,
    setting: &Setting<'_>,
    net: &Name,
    number: u32,
) -> Result<NetReport, Memory>
    requires setting { IsSetting setting.now }
    requires sound { IsSound setting.now.store.now.design }
    requires none { NoOrigin setting.now.store.now.design }
    requires net { name_at setting.now.store.now.nets number ≡ Some net.now }
    ensures { IfOk result (IsNet setting.now.store.now.design net.now) }
{
    let Setting { store, wires, .. } = *setting;
    store.laws();
    let root = driver_name(store, net, number);
    let rc = store.net_rc(number);
    let model = wires_of(rc);
    let early = wires.load(number, Split::Early);
    let late = wires.load(number, Split::Late);
    let driver = copied_name(alloc, root)?;
    let kept = kept_rc(alloc, root, rc)?;
    let sinks = sinks_of(alloc, setting, net, number, root.is_some())?;
    Ok(NetReport {
        driver,
        early_load: Af(early),
        late_load: Af(late),
        wires: model,
        sinks,
        rc: kept,
    })
}

/// The report of a net of a sound design in which no quantity leaves its limit: its driver, its load in
/// aF of both splits, the sum of its resistors in mΩ, its sinks by name with their capacitances in aF and
/// the delays of the wires to them in fs, before derates, and its parasitics as an edit gives them. Loads
/// and delays are those of the tables that `arrivals` is kept with. `UnknownName` exactly where no net has
/// that name; the one other error is want of memory. Takes time of the pins and the parasitics of the net,
/// and of sorting its sinks.
pub fn answer_net<A: Wired>(
    alloc: Global,
    store: &Store,
    arrivals: &A,
    net: &Name,
) -> Result<NetReport, QueryFault>
    requires sound { IsSound store.now.design }
    requires none { NoOrigin store.now.design }
    requires wires { AreWires store.now (A.wires arrivals.now) }
    requires ports { ArePorts store.now.design.constraints (A.ports arrivals.now) }
    ensures there { OnOk result (unknown_net store.now.design net.now ≡ None) }
    ensures told { IfOk result (IsNet store.now.design net.now) }
    ensures refused { IfErr result (IsRefusal (unknown_net store.now.design net.now)) }
{
    let setting = Setting {
        store,
        wires: arrivals.wires(),
        ports: arrivals.ports(),
    };
    let number = net_there(alloc, store, net)?;
    let report = net_report(alloc, &setting, net, number)?;
    Ok(report)
}
