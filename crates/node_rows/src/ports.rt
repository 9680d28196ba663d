//! Tables of what constraints say of ports.

ghost use Rattle.std.specs.Prelude.{◌≡◌, ℕ, List, [], ◌∷◌, pos, true, None, Some, if◌then◌else◌, ◌&&◌, option_and_then, IfOk, OnOk};
ghost use Rattle.std.specs.Option.{option_or, option_map_or};
ghost use Rattle.std.specs.Str.{bytes_eq};
ghost use Rattle.timing_defs.specs.declared.constraints.Constraints.{Constraints};
ghost use Rattle.timing_defs.specs.Wires.{port_load};
//ghost use NLS
ghost use Rattle.node_rows.specs.PortTables.{under, slew_in, load_in, start_in, delay_from, are_apart, slew_of_port, delay_of_port, slew_under, load_under, start_under, AreSlews, AreLoads, AreStarts, ArePorts};

use indexmap::IndexMap;
use sta_units::{Af, Fs, Memory};
use std::alloc::Global;
use timing_defs::{Constraints, Name, PortDelay, PortLoad, PortSlew, Split, Tran};

/// When a port starts: the place of a clock in the list of clocks, and the delay in fs from its
/// rise edge.
#[derive(Clone, Copy, Drop)]
pub(crate) struct Start {
    pub(crate) clock: u32,
    pub(crate) delay: Fs,
}

type Slews = IndexMap<Name, Fs>;

type Loads = IndexMap<Name, Af>;

type Starts = IndexMap<Name, Start>;

/// The slews of ports, for each split and transition.
#[derive(Drop)]
pub(crate) struct SlewTables {
    pub(crate) early_rise: Slews,
    pub(crate) early_fall: Slews,
    pub(crate) late_rise: Slews,
    pub(crate) late_fall: Slews,
}

/// The loads of ports, for each split.
#[derive(Drop)]
pub(crate) struct LoadTables {
    pub(crate) early: Loads,
    pub(crate) late: Loads,
}

/// The starts of ports, for each split and transition.
#[derive(Drop)]
pub(crate) struct StartTables {
    pub(crate) early_rise: Starts,
    pub(crate) early_fall: Starts,
    pub(crate) late_rise: Starts,
    pub(crate) late_fall: Starts,
}

/// What constraints say of ports, by the ports' names: slews, loads and input delays.
#[derive(Drop)]
pub struct Ports {
    slews: SlewTables,
    loads: LoadTables,
    starts: StartTables,
}

/// Adds a value under a name, where none is there.
fn add_slew_under(alloc: Global, table: &mut Slews, name: &Name, slew: Fs) -> Result<(), Memory>
    ensures { OnOk result
        ((q : List ℕ) → under table.new q
        ≡ option_or (under table.old q) (if bytes_eq name.now q then Some slew else None)) }
{
    if table.contains_key(name) {
        return Ok(());
    }
    match table.insert(name.copied(alloc)?, slew) {
        Ok(_) => Ok(()),
        Err(_) => Err(Memory),
    }
}

/// Adds the slew of a port, where it is of this split and transition and the first of its port.
fn add_slew(
    alloc: Global,
    table: &mut Slews,
    split: Split,
    tran: Tran,
    slew: &PortSlew,
) -> Result<(), Memory>
    ensures { OnOk result
        ((q : List ℕ) → under table.new q
        ≡ option_or (under table.old q) (slew_in (slew.now ∷ []) split tran q)) }
{
    if slew.split.is(split) && slew.tran.is(tran) {
        add_slew_under(alloc, table, &slew.port, slew.slew)
    } else {
        Ok(())
    }
}

/// The slews of ports in a split and a transition.
fn slews_at(alloc: Global, slews: &[PortSlew], split: Split, tran: Tran) -> Result<Slews, Memory>
    ensures { IfOk result (λ table. (q : List ℕ) → under table q ≡ slew_in slews.now split tran q) }
{
    let mut table = IndexMap::new(alloc);
    for slew in slews {
        add_slew(alloc, &mut table, split, tran, slew)?;
    }
    Ok(table)
}

/// Adds a load under a name, where none is there.
fn add_load_under(alloc: Global, table: &mut Loads, name: &Name, load: Af) -> Result<(), Memory>
    ensures { OnOk result
        ((q : List ℕ) → under table.new q
        ≡ option_or (under table.old q) (if bytes_eq name.now q then Some load else None)) }
{
    if table.contains_key(name) {
        return Ok(());
    }
    match table.insert(name.copied(alloc)?, load) {
        Ok(_) => Ok(()),
        Err(_) => Err(Memory),
    }
}

/// Adds the load of a port, where it is of this split and the first of its port.
fn add_load(alloc: Global, table: &mut Loads, split: Split, load: &PortLoad) -> Result<(), Memory>
    ensures { OnOk result
        ((q : List ℕ) → under table.new q
        ≡ option_or (under table.old q) (load_in (load.now ∷ []) split q)) }
{
    if load.split.is(split) {
        add_load_under(alloc, table, &load.port, load.load)
    } else {
        Ok(())
    }
}

/// The loads of ports in a split.
fn loads_at(alloc: Global, loads: &[PortLoad], split: Split) -> Result<Loads, Memory>
    ensures { IfOk result (λ table. (q : List ℕ) → under table q ≡ load_in loads.now split q) }
{
    let mut table = IndexMap::new(alloc);
    for load in loads {
        add_load(alloc, &mut table, split, load)?;
    }
    Ok(table)
}

/// Adds a start under a name, where none is there.
fn add_start_under(
    alloc: Global,
    table: &mut Starts,
    name: &Name,
    start: Start,
) -> Result<(), Memory>
    ensures { OnOk result
        ((q : List ℕ) → under table.new q
        ≡ option_or (under table.old q) (if bytes_eq name.now q then Some start else None)) }
{
    if table.contains_key(name) {
        return Ok(());
    }
    match table.insert(name.copied(alloc)?, start) {
        Ok(_) => Ok(()),
        Err(_) => Err(Memory),
    }
}

/// Adds the start of a port, where it is of this split and transition and the first of its port.
fn add_start(
    alloc: Global,
    table: &mut Starts,
    split: Split,
    tran: Tran,
    input: &PortDelay,
) -> Result<(), Memory>
    ensures { OnOk result
        ((q : List ℕ) → under table.new q
        ≡ option_or (under table.old q) (start_in (input.now ∷ []) split tran q)) }
{
    if input.split.is(split) && input.tran.is(tran) {
        let start = Start {
            clock: input.clock,
            delay: input.delay,
        };
        add_start_under(alloc, table, &input.port, start)
    } else {
        Ok(())
    }
}

/// The starts of ports in a split and a transition.
fn starts_at(
    alloc: Global,
    inputs: &[PortDelay],
    split: Split,
    tran: Tran,
) -> Result<Starts, Memory>
    ensures { IfOk result
        (λ table. (q : List ℕ) → under table q ≡ start_in inputs.now split tran q) }
{
    let mut table = IndexMap::new(alloc);
    for input in inputs {
        add_start(alloc, &mut table, split, tran, input)?;
    }
    Ok(table)
}

/// The slews of ports.
fn slew_tables(alloc: Global, slews: &[PortSlew]) -> Result<SlewTables, Memory>
    ensures { IfOk result (AreSlews slews.now) }
{
    Ok(SlewTables {
        early_rise: slews_at(alloc, slews, Split::Early, Tran::Rise)?,
        early_fall: slews_at(alloc, slews, Split::Early, Tran::Fall)?,
        late_rise: slews_at(alloc, slews, Split::Late, Tran::Rise)?,
        late_fall: slews_at(alloc, slews, Split::Late, Tran::Fall)?,
    })
}

/// The loads of ports.
fn load_tables(alloc: Global, loads: &[PortLoad]) -> Result<LoadTables, Memory>
    ensures { IfOk result (AreLoads loads.now) }
{
    Ok(LoadTables {
        early: loads_at(alloc, loads, Split::Early)?,
        late: loads_at(alloc, loads, Split::Late)?,
    })
}

/// The starts of ports.
fn start_tables(alloc: Global, inputs: &[PortDelay]) -> Result<StartTables, Memory>
    ensures { IfOk result (AreStarts inputs.now) }
{
    Ok(StartTables {
        early_rise: starts_at(alloc, inputs, Split::Early, Tran::Rise)?,
        early_fall: starts_at(alloc, inputs, Split::Early, Tran::Fall)?,
        late_rise: starts_at(alloc, inputs, Split::Late, Tran::Rise)?,
        late_fall: starts_at(alloc, inputs, Split::Late, Tran::Fall)?,
    })
}

impl SlewTables {
    /// The slew that is written for a port.
    fn get(&self, split: Split, tran: Tran, port: &Name) -> Option<Fs>
        ensures { result ≡ slew_under self.now split tran port.now }
    {
        match (split, tran) {
            (Split::Early, Tran::Rise) => self.early_rise.get(port).copied(),
            (Split::Early, Tran::Fall) => self.early_fall.get(port).copied(),
            (Split::Late, Tran::Rise) => self.late_rise.get(port).copied(),
            (Split::Late, Tran::Fall) => self.late_fall.get(port).copied(),
        }
    }
}

impl LoadTables {
    /// The load that is written for a port.
    fn get(&self, split: Split, port: &Name) -> Option<Af>
        ensures { result ≡ load_under self.now split port.now }
    {
        match split {
            Split::Early => self.early.get(port).copied(),
            Split::Late => self.late.get(port).copied(),
        }
    }
}

impl StartTables {
    /// The start that is written for a port.
    fn get(&self, split: Split, tran: Tran, port: &Name) -> Option<Start>
        ensures { result ≡ start_under self.now split tran port.now }
    {
        match (split, tran) {
            (Split::Early, Tran::Rise) => self.early_rise.get(port).copied(),
            (Split::Early, Tran::Fall) => self.early_fall.get(port).copied(),
            (Split::Late, Tran::Rise) => self.late_rise.get(port).copied(),
            (Split::Late, Tran::Fall) => self.late_fall.get(port).copied(),
        }
    }
}

impl Ports {
    /// The tables of what these constraints say of ports, in time of the constraints.
    pub fn of(alloc: Global, constraints: &Constraints) -> Result<Ports, Memory>
        ensures { IfOk result (ArePorts constraints.now) }
    {
        let slews = slew_tables(alloc, constraints.slews.as_slice())?;
        let loads = load_tables(alloc, constraints.loads.as_slice())?;
        let starts = start_tables(alloc, constraints.inputs.as_slice())?;
        Ok(Ports {
            slews,
            loads,
            starts,
        })
    }

    /// The slew of an input port, in fs: that of its input transition, or 0. Takes no memory.
    pub fn slew(&self, split: Split, tran: Tran, port: &Name) -> i64
        ensures { (c : Constraints) → ArePorts c self.now → result
            ≡ slew_of_port c split tran port.now }
    {
        time_or_zero(self.slews.get(split, tran, port))
    }

    /// The load of a port, in aF; 0 where none is written. Takes no memory.
    pub fn load(&self, split: Split, port: &Name) -> i64
        ensures { (c : Constraints) → ArePorts c self.now → result
            ≡ port_load c.loads split port.now }
    {
        cap_or_zero(self.loads.get(split, port))
    }

    /// The input delay of a port from the rise edge of a clock, by the clock's place, in fs; none
    /// where none is written for it. A port, split and transition has one delay. Takes no memory.
    pub fn input_delay(&self, split: Split, tran: Tran, port: &Name, clock: u32) -> Option<i64>
        ensures { (c : Constraints) → ArePorts c self.now → are_apart c.inputs ≡ true → result
            ≡ delay_of_port c split tran port.now clock }
    {
        delay_from(self.starts.get(split, tran, port), clock)
    }
}

/// A time, or 0 where none is written.
fn time_or_zero(time: Option<Fs>) -> i64
    ensures { result ≡ option_map_or (λ t. t.0) time (pos 0) }
{
    match time {
        Some(time) => time.0,
        None => 0,
    }
}

/// A capacitance, or 0 where none is written.
fn cap_or_zero(cap: Option<Af>) -> i64
    ensures { result ≡ option_map_or (λ c. c.0) cap (pos 0) }
{
    match cap {
        Some(cap) => cap.0,
        None => 0,
    }
}

/// The delay of a start from that clock.
fn delay_from(start: Option<Start>, clock: u32) -> Option<i64>
    ensures { result ≡ option_and_then (delay_from clock) start }
{
    let start = start?;
    if start.clock == clock {
        Some(start.delay.0)
    } else {
        None
    }
}
