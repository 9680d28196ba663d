//! Values at ports, of which the last one written counts.

ghost use Rattle.std.specs.Prelude.{◌≡◌, [], map, true, OnOk, IfOk};
ghost use Rattle.sdc_reader.specs.Tables.{written, meant, corner, written_if, at_split, at_port, load_at, at_ports, loads_at, split_of, tran_of, delay_of, slew_of, load_of};

use crate::draft::Flags;
use indexmap::IndexMap;
use sta_units::{Af, Fs, Memory};
use std::alloc::{AllocFailed, Global};
use std::marker::Model;
use timing_defs::{Items, Name, PortDelay, PortLoad, PortSlew, Split, Tran};

/// A port with a split, late or early, and a transition, fall or rise. A load has no transition; it
/// stands under rise.
#[derive(PartialEq, Eq, Hash, Drop)]
pub(crate) struct Corner {
    pub port: Name,
    pub late: bool,
    pub fall: bool,
}

/// A value in fs or aF, and the place of its clock from 0; a slew or a load has place 0.
#[derive(Clone, Copy, Drop)]
pub(crate) struct Amount {
    pub clock: u32,
    pub value: i64,
}

/// Values at corners of ports. Contracts see the list of its pairs, in the order in which the
/// corners were first written. A look-up takes constant time on average.
#[derive(Drop)]
pub(crate) struct PortTable {
    amounts: IndexMap<Corner, Amount>,
}

impl Model for PortTable {
    ghost use Rattle.std.specs.Prelude.{List};
    ghost use Rattle.sdc_reader.specs.declared.tables.Corner.{Corner};
    ghost use Rattle.sdc_reader.specs.declared.tables.Amount.{Amount};

    ghost Value = { List (Corner × Amount) };

    ghost view = { λ t. t.amounts.entries };
}

fn map_set(
    amounts: &mut IndexMap<Corner, Amount>,
    corner: Corner,
    amount: Amount,
) -> Result<Option<Amount>, AllocFailed<(Corner, Amount)>>
    ensures { OnOk result (amounts.new.entries ≡ written corner amount amounts.old.entries) }
{
    amounts.insert(corner, amount)
}

impl PortTable {
    /// The empty table. Takes no memory.
    pub(crate) fn new(alloc: Global) -> PortTable
        ensures { result ≡ [] }
    {
        PortTable {
            amounts: IndexMap::new(alloc),
        }
    }

    /// Writes the value of a corner, in the place of the one before.
    fn write(&mut self, corner: Corner, amount: Amount) -> Result<(), Memory>
        ensures { OnOk result (self.new ≡ written corner amount self.old) }
    {
        match map_set(&mut self.amounts, corner, amount) {
            Ok(_) => Ok(()),
            Err(_) => Err(Memory),
        }
    }
}

/// Whether the first of two options is meant: it stands, or neither does.
pub(crate) fn meant(first: bool, second: bool) -> bool
    ensures { result ≡ meant first second }
{
    first || !second
}

impl PortTable {
    /// Writes a value at a corner of a port where it is meant.
    fn write_if(
        &mut self,
        alloc: Global,
        chosen: bool,
        port: &Name,
        late: bool,
        fall: bool,
        amount: Amount,
    ) -> Result<(), Memory>
        ensures { OnOk result
            (self.new ≡ written_if chosen (corner port.now late fall) amount self.old) }
    {
        if !chosen {
            return Ok(());
        }
        let port = port.copied(alloc)?;
        self.write(Corner { port, late, fall }, amount)
    }

    /// Writes a value of a port at one split, for the transitions that are meant.
    fn write_split(
        &mut self,
        alloc: Global,
        flags: Flags,
        late: bool,
        port: &Name,
        amount: Amount,
    ) -> Result<(), Memory>
        ensures { OnOk result (self.new ≡ at_split flags late amount port.now self.old) }
    {
        let rise = meant(flags.rise, flags.fall);
        let fall = meant(flags.fall, flags.rise);
        self.write_if(alloc, rise, port, late, false, amount)?;
        self.write_if(alloc, fall, port, late, true, amount)
    }

    /// Writes a value of a port, for the splits and transitions that are meant.
    #[tactic(auto, unfolding(crate::specs::Tables::at_port))]
    fn write_port(
        &mut self,
        alloc: Global,
        flags: Flags,
        port: &Name,
        amount: Amount,
    ) -> Result<(), Memory>
        ensures { OnOk result (self.new ≡ at_port flags amount port.now self.old) }
    {
        if meant(flags.early, flags.late) {
            self.write_split(alloc, flags, false, port, amount)?;
        }
        if meant(flags.late, flags.early) {
            self.write_split(alloc, flags, true, port, amount)?;
        }
        Ok(())
    }

    /// Writes a load of a port, for the splits that are meant.
    #[tactic(auto, unfolding(crate::specs::Tables::load_at))]
    fn write_load(
        &mut self,
        alloc: Global,
        flags: Flags,
        port: &Name,
        amount: Amount,
    ) -> Result<(), Memory>
        ensures { OnOk result (self.new ≡ load_at flags amount port.now self.old) }
    {
        let early = meant(flags.early, flags.late);
        let late = meant(flags.late, flags.early);
        self.write_if(alloc, early, port, false, false, amount)?;
        self.write_if(alloc, late, port, true, false, amount)
    }

    /// Writes a value of each of some ports.
    #[tactic(auto, unfolding(crate::specs::Tables::at_ports), using(std::proofs::lemmas::List::drop_more))]
    pub(crate) fn write_ports(
        &mut self,
        alloc: Global,
        flags: Flags,
        ports: &[Name],
        amount: Amount,
    ) -> Result<(), Memory>
        ensures { OnOk result (self.new ≡ at_ports flags amount ports.now self.old) }
    {
        for port in ports {
            self.write_port(alloc, flags, port, amount)?;
        }
        Ok(())
    }

    /// Writes a load of each of some ports.
    #[tactic(auto, unfolding(crate::specs::Tables::loads_at), using(std::proofs::lemmas::List::drop_more))]
    pub(crate) fn write_loads(
        &mut self,
        alloc: Global,
        flags: Flags,
        ports: &[Name],
        amount: Amount,
    ) -> Result<(), Memory>
        ensures { OnOk result (self.new ≡ loads_at flags amount ports.now self.old) }
    {
        for port in ports {
            self.write_load(alloc, flags, port, amount)?;
        }
        Ok(())
    }
}

fn split_of(corner: &Corner) -> Split
    ensures { result ≡ split_of corner.now }
{
    if corner.late {
        Split::Late
    } else {
        Split::Early
    }
}

fn tran_of(corner: &Corner) -> Tran
    ensures { result ≡ tran_of corner.now }
{
    if corner.fall { Tran::Fall } else { Tran::Rise }
}

fn delay_of(alloc: Global, corner: &Corner, amount: &Amount) -> Result<PortDelay, Memory>
    ensures { IfOk result (λ delay. delay ≡ delay_of (corner.now, amount.now)) }
{
    Ok(PortDelay {
        port: corner.port.copied(alloc)?,
        split: split_of(corner),
        tran: tran_of(corner),
        clock: amount.clock,
        delay: Fs(amount.value),
    })
}

fn slew_of(alloc: Global, corner: &Corner, amount: &Amount) -> Result<PortSlew, Memory>
    ensures { IfOk result (λ slew. slew ≡ slew_of (corner.now, amount.now)) }
{
    Ok(PortSlew {
        port: corner.port.copied(alloc)?,
        split: split_of(corner),
        tran: tran_of(corner),
        slew: Fs(amount.value),
    })
}

fn load_of(alloc: Global, corner: &Corner, amount: &Amount) -> Result<PortLoad, Memory>
    ensures { IfOk result (λ load. load ≡ load_of (corner.now, amount.now)) }
{
    Ok(PortLoad {
        port: corner.port.copied(alloc)?,
        split: split_of(corner),
        load: Af(amount.value),
    })
}

impl PortTable {
    /// The delays of the table.
    #[tactic(auto, using(std::proofs::lemmas::List::drop_more))]
    pub(crate) fn delays(&self, alloc: Global) -> Result<Items<PortDelay>, Memory>
        ensures { IfOk result (λ delays. delays ≡ map delay_of self.now) }
    {
        let mut delays = Items::new(alloc);
        for (corner, amount) in self.amounts.iter() {
            delays.push(delay_of(alloc, corner, amount)?)?;
        }
        Ok(delays)
    }

    /// The slews of the table.
    #[tactic(auto, using(std::proofs::lemmas::List::drop_more))]
    pub(crate) fn slews(&self, alloc: Global) -> Result<Items<PortSlew>, Memory>
        ensures { IfOk result (λ slews. slews ≡ map slew_of self.now) }
    {
        let mut slews = Items::new(alloc);
        for (corner, amount) in self.amounts.iter() {
            slews.push(slew_of(alloc, corner, amount)?)?;
        }
        Ok(slews)
    }

    /// The loads of the table.
    #[tactic(auto, using(std::proofs::lemmas::List::drop_more))]
    pub(crate) fn loads(&self, alloc: Global) -> Result<Items<PortLoad>, Memory>
        ensures { IfOk result (λ loads. loads ≡ map load_of self.now) }
    {
        let mut loads = Items::new(alloc);
        for (corner, amount) in self.amounts.iter() {
            loads.push(load_of(alloc, corner, amount)?)?;
        }
        Ok(loads)
    }
}
