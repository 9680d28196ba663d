//! The tables of loads and wires of an edited store, from those of its base.

ghost use Rattle.std.specs.Prelude.{◌≡◌, ◌<◌, ◌≤◌, ℕ, List, [], ◌∷◌, None, true, false, All, take, length, slice_set, IfOk, IfErr, OnOk};
ghost use Rattle.netlist_store.specs.Numbering.{is_number};
ghost use Rattle.netlist_store.specs.Applying.{IsEditOf};
ghost use Rattle.node_rows.specs.PortTables.{ArePorts};
ghost use Rattle.node_rows.specs.WireTables.{AreWires};
ghost use Rattle.node_rows.specs.NetTrees.{IsSoundNets, IsLarge, is_wide_net};
ghost use Rattle.node_rows.specs.FoundNets.{IsFoundNet};
ghost use Rattle.node_rows.specs.RenewedNets.{resized, no_load, without_wires, AreSized, IsRenewed, HaveNetsBut};

use crate::found_nets::{FoundNet, put_wires};
use crate::pin_wires::{NetLoad, PinWire, Wires};
use crate::ports::Ports;
use crate::wire_tables::{fault_of, found_net};
use cow_table::CowTable;
use netlist_store::{Store, Touched};
use sta_units::{Af, Again, Memory};
use std::alloc::Global;
use store_pins::pins_on;
use timing_defs::{Fault, Name};

/// Adds copies of an item up to that many items.
fn lengthen<T: Again + Copy + Drop>(
    table: &mut CowTable<T>,
    count: usize,
    more: T,
) -> Result<(), Memory>
    requires { length table.old ≤ count }
    ensures { OnOk result (table.new ≡ resized table.old count more) }
{
    for at in table.len()..count {
        let _ = at;
        table.push(more)?;
    }
    Ok(())
}

/// A copy of the first items.
fn first_items<T: Again + Copy + Drop>(
    alloc: Global,
    table: &CowTable<T>,
    count: usize,
) -> Result<CowTable<T>, Memory>
    requires { count ≤ length table.now }
    ensures { IfOk result (λ first. first ≡ take count table.now) }
{
    let mut first = CowTable::new(alloc);
    for at in 0..count {
        first.push(*table.get(at))?;
    }
    Ok(first)
}

/// That many items: those that are there, shared with the table, then copies of one.
fn resized<T: Again + Copy + Drop>(
    alloc: Global,
    table: &CowTable<T>,
    count: usize,
    more: T,
) -> Result<CowTable<T>, Memory>
    ensures { IfOk result (λ items. items ≡ resized table.now count more) }
{
    if count < table.len() {
        return first_items(alloc, table, count);
    }
    let mut items = table.copy()?;
    lengthen(&mut items, count, more)?;
    Ok(items)
}

/// Takes the wire to a pin out of a table. Where it has none no memory is taken.
fn clear_wire(table: &mut CowTable<Option<PinWire>>, pin: u32) -> Result<(), Memory>
    requires { pin < length table.old }
    ensures { OnOk result (table.new ≡ slice_set table.old pin None) }
{
    if table.get(pin as usize).is_none() {
        return Ok(());
    }
    table.set(pin as usize, None)
}

/// Takes the wires to some pins out of a table.
fn clear_wires(table: &mut CowTable<Option<PinWire>>, pins: &[u32]) -> Result<(), Memory>
    requires { All (λ pin. pin < length table.old) pins.now }
    ensures { OnOk result (table.new ≡ without_wires table.old pins.now) }
{
    for pin in pins {
        clear_wire(table, *pin)?;
    }
    Ok(())
}

/// Puts what is found of a net into tables in place of what they had of it.
fn put_anew(store: &Store, wires: &mut Wires, net: u32, found: &FoundNet) -> Result<(), Memory>
    requires net { is_number store.now.nets net ≡ true }
    requires found { IsFoundNet store.now net found.now }
    requires sized { AreSized store.now wires.old }
    ensures { OnOk result (IsRenewed store.now net wires.old wires.new) }
{
    store.laws();
    let pins = pins_on(store, net);
    wires.loads.set(net as usize, found.load)?;
    clear_wires(&mut wires.pins, pins)?;
    put_wires(&mut wires.pins, found.wires.as_slice())
}

/// Finds a net anew. `OutOfRange` exactly where a quantity of it leaves its limit.
fn renew_net(
    alloc: Global,
    store: &Store,
    ports: &Ports,
    wires: &mut Wires,
    net: u32,
) -> Result<(), Fault>
    requires net { is_number store.now.nets net ≡ true }
    requires sound { IsSoundNets store.now }
    requires ports { ArePorts store.now.design.constraints ports.now }
    requires sized { AreSized store.now wires.old }
    ensures renewed { OnOk result (IsRenewed store.now net wires.old wires.new) }
    ensures err { IfErr result (IsLarge store.now.design) }
{
    match found_net(alloc, store, ports, net) {
        Ok(found) => Ok(put_anew(store, wires, net, &found)?),
        Err(unfit) => Err(fault_of(alloc, store, net, unfit)),
    }
}

/// Finds the net of a name anew, where it is there.
fn renew_named(
    alloc: Global,
    store: &Store,
    ports: &Ports,
    wires: &mut Wires,
    name: &Name,
) -> Result<(), Fault>
    requires sound { IsSoundNets store.now }
    requires ports { ArePorts store.now.design.constraints ports.now }
    requires sized { AreSized store.now wires.old }
    ensures renewed { OnOk result
        ((rest : List (List ℕ)) → HaveNetsBut store.now (name.now ∷ rest) wires.old
        → HaveNetsBut store.now rest wires.new) }
    ensures err { IfErr result (IsLarge store.now.design) }
{
    store.laws();
    match store.net(name) {
        Some(net) => renew_net(alloc, store, ports, wires, net),
        None => Ok(()),
    }
}

/// Finds the nets of some names anew.
fn renew_nets(
    alloc: Global,
    store: &Store,
    ports: &Ports,
    wires: &mut Wires,
    names: &[Name],
) -> Result<(), Fault>
    requires sound { IsSoundNets store.now }
    requires ports { ArePorts store.now.design.constraints ports.now }
    requires before { HaveNetsBut store.now names.now wires.old }
    ensures after { OnOk result (HaveNetsBut store.now [] wires.new) }
    ensures err { IfErr result (IsLarge store.now.design) }
{
    for name in names {
        renew_named(alloc, store, ports, wires, name)?;
    }
    Ok(())
}

impl Wires {
    /// Tables of as many nets and pins as a store has, which share what is here.
    fn sized_for(&self, alloc: Global, store: &Store) -> Result<Wires, Memory>
        ensures loads { IfOk result
            (λ w. w.loads ≡ resized self.now.loads (length store.now.nets) no_load) }
        ensures pins { IfOk result
            (λ w. w.pins ≡ resized self.now.pins (length store.now.pins) None) }
    {
        let none = NetLoad {
            early: Af(0),
            late: Af(0),
        };
        let loads = resized(alloc, &self.loads, store.net_bound() as usize, none)?;
        let pins = resized(alloc, &self.pins, store.pin_bound() as usize, None)?;
        Ok(Wires { loads, pins })
    }

    /// The tables of the store that an ECO made of the store of these tables: what is found of the nets
    /// that it touched is found anew, and all else is shared. `OutOfRange` at a touched net where its total
    /// resistance, its total capacitance or a wire delay leaves its limit. Takes time of the touched nets,
    /// their pins and parasitics.
    pub fn update(
        &self,
        alloc: Global,
        base: &Store,
        store: &Store,
        ports: &Ports,
        touched: &Touched,
    ) -> Result<Wires, Fault>
        requires made { IsEditOf base.now
            (record { insts = touched.now.insts; nets = touched.now.nets }) store.now }
        requires wires { AreWires base.now self.now }
        requires fine { (net : ℕ) → is_wide_net base.now net ≡ false }
        requires sound { IsSoundNets store.now }
        requires ports { ArePorts store.now.design.constraints ports.now }
        ensures wires { IfOk result (AreWires store.now) }
        ensures fine { OnOk result ((net : ℕ) → is_wide_net store.now net ≡ false) }
        ensures err { IfErr result (IsLarge store.now.design) }
    {
        base.laws();
        store.laws();
        let mut wires = self.sized_for(alloc, store)?;
        renew_nets(alloc, store, ports, &mut wires, touched.nets.as_slice())?;
        Ok(wires)
    }
}
