//! What the links of a pin give it: its level, and whether clocks reach it and it reaches registers.

ghost use Rattle.std.specs.Prelude.{◌≡◌, ◌<◌, None, All, length, slice_index};
ghost use Rattle.std.specs.List.{list_any};
ghost use Rattle.timing_defs.specs.NetChecks.{net_fault};
ghost use Rattle.settling.specs.Settled.{AreLow};
ghost use Rattle.pin_graph.specs.PinValues.{level_over, is_set};

use crate::pulls::{
    is_among, is_register_clock, network_heads, network_tails, pins_before, pins_behind,
};
use crate::tables::flag_of;
use cow_table::CowTable;
use netlist_store::Store;
use settling::Rule;
use sta_units::Memory;
use std::alloc::Global;
use timing_defs::Items;

/// The value of a pin.
pub(crate) fn value_at(values: &CowTable<u32>, pin: u32) -> u32
    requires { pin < length values.now }
    ensures { result ≡ slice_index values.now pin }
{
    *values.get(pin as usize)
}

/// One more than the greatest level among some pins, 0 of none.
pub(crate) fn level_over(levels: &CowTable<u32>, befores: &[u32]) -> u32
    requires within { All (λ pin. pin < length levels.now) befores.now }
    requires low { AreLow levels.now }
    ensures { result ≡ level_over levels.now befores.now }
{
    let mut level = 0;
    for pin in befores {
        level = level.max(value_at(levels, *pin) + 1);
    }
    level
}

/// Whether the flag of a pin is 1.
fn is_set(flags: &CowTable<u32>, pin: u32) -> bool
    requires { pin < length flags.now }
    ensures { result ≡ is_set flags.now pin }
{
    value_at(flags, pin) == 1
}

/// Whether the flag of some pin is 1.
fn any_set(flags: &CowTable<u32>, pins: &[u32]) -> bool
    requires { All (λ pin. pin < length flags.now) pins.now }
    ensures { result ≡ list_any (is_set flags.now) pins.now }
{
    for pin in pins {
        if is_set(flags, *pin) {
            return true;
        }
    }
    false
}

/// The levels of pins over all links: 0 where none leads to a pin, else one more than the greatest of those
/// before it.
#[derive(Drop)]
pub(crate) struct PinLevels<'a> {
    pub(crate) store: &'a Store,
}

impl Rule for PinLevels<'_> {
    ghost use Rattle.std.specs.Prelude.{◌≡◌, None, length};
    ghost use Rattle.timing_defs.specs.NetChecks.{net_fault};
    ghost use Rattle.pin_graph.specs.Pulls.{pins_behind};
    ghost use Rattle.pin_graph.specs.PinValues.{pin_level};

    ghost count = { λ r. length r.store.now.pins };

    ghost is_ready = { λ r. net_fault r.store.now.design ≡ None };

    ghost value = { λ r. pin_level r.store.now };

    ghost behind = { λ r. pins_behind r.store.now };

    fn value(&self, alloc: Global, values: &CowTable<u32>, at: u32) -> Result<u32, Memory> {
        self.store.laws();
        let befores = pins_before(alloc, self.store, at)?;
        Ok(level_over(values, befores.as_slice()))
    }

    fn behind(&self, alloc: Global, at: u32) -> Result<Items<u32>, Memory> {
        self.store.laws();
        pins_behind(alloc, self.store, at)
    }

    fn key(&self, values: &CowTable<u32>, at: u32) -> u32 {
        value_at(values, at)
    }
}

/// Whether clocks reach a pin, by 1 and 0: `ports` are the clocks' ports. The work goes by rising levels.
#[derive(Drop)]
pub(crate) struct Fed<'a> {
    pub(crate) store: &'a Store,
    pub(crate) ports: &'a [u32],
    pub(crate) levels: &'a CowTable<u32>,
}

impl Rule for Fed<'_> {
    ghost use Rattle.std.specs.Prelude.{◌≡◌, None, length};
    ghost use Rattle.timing_defs.specs.NetChecks.{net_fault};
    ghost use Rattle.pin_graph.specs.Networks.{clock_ports};
    ghost use Rattle.pin_graph.specs.Pulls.{network_heads};
    ghost use Rattle.pin_graph.specs.PinValues.{fed_flag};

    ghost count = { λ r. length r.store.now.pins };

    ghost is_ready = { λ r. (net_fault r.store.now.design ≡ None)
        × (r.ports.now ≡ clock_ports r.store.now)
        × (length r.levels.now ≡ length r.store.now.pins) };

    ghost value = { λ r. fed_flag r.store.now };

    ghost behind = { λ r. network_heads r.store.now };

    fn value(&self, alloc: Global, values: &CowTable<u32>, at: u32) -> Result<u32, Memory> {
        self.store.laws();
        if is_among(self.ports, at) {
            return Ok(1);
        }
        let tails = network_tails(alloc, self.store, at)?;
        Ok(flag_of(any_set(values, tails.as_slice())))
    }

    fn behind(&self, alloc: Global, at: u32) -> Result<Items<u32>, Memory> {
        self.store.laws();
        network_heads(alloc, self.store, at)
    }

    fn key(&self, _values: &CowTable<u32>, at: u32) -> u32 {
        value_at(self.levels, at)
    }
}

/// Whether a pin reaches registers, by 1 and 0. The work goes by falling levels.
#[derive(Drop)]
pub(crate) struct Feeds<'a> {
    pub(crate) store: &'a Store,
    pub(crate) levels: &'a CowTable<u32>,
}

impl Rule for Feeds<'_> {
    ghost use Rattle.std.specs.Prelude.{◌≡◌, None, length};
    ghost use Rattle.timing_defs.specs.NetChecks.{net_fault};
    ghost use Rattle.pin_graph.specs.Pulls.{network_tails};
    ghost use Rattle.pin_graph.specs.PinValues.{feeds_flag};

    ghost count = { λ r. length r.store.now.pins };

    ghost is_ready = { λ r. (net_fault r.store.now.design ≡ None)
        × (length r.levels.now ≡ length r.store.now.pins) };

    ghost value = { λ r. feeds_flag r.store.now };

    ghost behind = { λ r. network_tails r.store.now };

    fn value(&self, alloc: Global, values: &CowTable<u32>, at: u32) -> Result<u32, Memory> {
        self.store.laws();
        let clock = is_register_clock(alloc, self.store, at)?;
        if clock {
            return Ok(1);
        }
        let heads = network_heads(alloc, self.store, at)?;
        Ok(flag_of(any_set(values, heads.as_slice())))
    }

    fn behind(&self, alloc: Global, at: u32) -> Result<Items<u32>, Memory> {
        self.store.laws();
        network_tails(alloc, self.store, at)
    }

    fn key(&self, _values: &CowTable<u32>, at: u32) -> u32 {
        u32::MAX - value_at(self.levels, at)
    }
}
