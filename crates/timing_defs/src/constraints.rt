//! Constraints: clocks, delays and slews at ports, loads, exceptions and derates.

ghost use Rattle.std.specs.Prelude.{◌≡◌, false, slice_get};
ghost use Rattle.std.specs.Option.{option_copied, option_map_or};
ghost use Rattle.std.specs.Str.{bytes_eq};
ghost use Rattle.timing_defs.specs.Kinds.{uncertainty};
ghost use Rattle.timing_defs.specs.Documents.{no_derates};

use crate::items::Items;
use crate::kinds::{Kind, Split, Tran};
use crate::names::Name;
use sta_units::{Af, Fs};

/// A clock. Its period, its rise and fall within a period and its uncertainties are in fs. `port`
/// is none for a clock without a port.
#[derive(Drop)]
pub struct Clock {
    pub name: Name,
    pub port: Option<Name>,
    pub period: Fs,
    pub rise: Fs,
    pub fall: Fs,
    pub unc_setup: Fs,
    pub unc_hold: Fs,
}

impl Clock {
    /// Its uncertainty for a kind of tests.
    pub fn uncertainty(&self, kind: Kind) -> Fs
        ensures { result.0 ≡ uncertainty kind self.now }
    {
        match kind {
            Kind::Setup => self.unc_setup,
            Kind::Hold => self.unc_hold,
        }
    }

    /// Whether its port has that name.
    pub fn has_port(&self, port: &Name) -> bool
        ensures { result ≡ option_map_or (bytes_eq port.now) self.now.port false }
    {
        match &self.port {
            Some(name) => port == name,
            None => false,
        }
    }
}

/// An input or output delay in fs at a port, for a split and a transition. `clock` is the place of
/// its clock in the list of clocks, from 0.
#[derive(Drop)]
pub struct PortDelay {
    pub port: Name,
    pub split: Split,
    pub tran: Tran,
    pub clock: u32,
    pub delay: Fs,
}

/// The slew in fs of an input port, for a split and a transition.
#[derive(Drop)]
pub struct PortSlew {
    pub port: Name,
    pub split: Split,
    pub tran: Tran,
    pub slew: Fs,
}

/// The load in aF of a port, for a split.
#[derive(Drop)]
pub struct PortLoad {
    pub port: Name,
    pub split: Split,
    pub load: Af,
}

/// What an exception names: a clock, a port, an instance pin (`instance:pin`), an instance, or a
/// word of which the kind is not written.
#[derive(Drop)]
pub enum Object {
    Clock(Name),
    Port(Name),
    Pin(Name),
    Cell(Name),
    Any(Name),
}

/// What an exception does: it removes the test of a kind, or sets the number of cycles of a kind.
#[derive(Clone, Copy, Drop)]
pub enum Effect {
    FalseSetup,
    FalseHold,
    CyclesSetup(u32),
    CyclesHold(u32),
}

/// An exception for the paths from one of `from` to one of `to`; none stands for all.
#[derive(Drop)]
pub struct Exception {
    pub from: Option<Items<Object>>,
    pub to: Option<Items<Object>>,
    pub effect: Effect,
}

/// Factors of delays in millionths, per split, for cell and register arcs and for net arcs. They
/// are from 0 to 10,000,000; 1,000,000 changes nothing.
#[derive(Clone, Copy, Drop)]
pub struct Derates {
    pub early_cell: u32,
    pub late_cell: u32,
    pub early_net: u32,
    pub late_net: u32,
}

impl Derates {
    /// Factors that change nothing.
    pub fn none() -> Derates
        ensures { result ≡ no_derates }
    {
        Derates {
            early_cell: 1_000_000,
            late_cell: 1_000_000,
            early_net: 1_000_000,
            late_net: 1_000_000,
        }
    }
}

/// The constraints of a design, each list in the order of the text.
#[derive(Drop)]
pub struct Constraints {
    pub clocks: Items<Clock>,
    pub inputs: Items<PortDelay>,
    pub outputs: Items<PortDelay>,
    pub slews: Items<PortSlew>,
    pub loads: Items<PortLoad>,
    pub exceptions: Items<Exception>,
    pub derates: Derates,
}

impl Constraints {
    /// The clock at a place of the list of clocks, from 0; none where the list ends before it.
    pub fn clock(&self, place: u32) -> Option<&Clock>
        ensures { option_copied result ≡ slice_get self.now.clocks place }
    {
        self.clocks.get(place as usize)
    }
}
