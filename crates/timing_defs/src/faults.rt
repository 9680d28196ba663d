//! Faults of a design, of an edit and of a question.

use crate::items::Items;
use crate::names::Name;
use sta_units::Memory;
use std::alloc::AllocError;

/// Where a quantity leaves its range.
#[derive(Drop)]
pub enum Place {
    Pin(Name),
    Net(Name),
}

/// What there is too much of: pins, instances, nets, or nodes of a net.
#[derive(Drop)]
pub enum Large {
    Pins,
    Insts,
    Nets,
    Net(Name),
}

/// Why a design or an edit is refused. The printed codes are `E1` to `E17`, in this order.
#[derive(Drop)]
pub enum Fault {
    /// `E1`: no instance has that name.
    UnknownInstance(Name),
    /// `E2`: no net has that name.
    UnknownNet(Name),
    /// `E3`: the cell is not in both libraries, or differs there.
    UnknownCell(Name),
    /// `E4`: the cell lacks that pin, or a listed sink of a buffer is no input pin.
    UnknownPin(Name),
    /// `E5`: an instance or a net of that name is there.
    NameTaken(Name),
    /// `E6`: the new cell of that instance does not fit its pins.
    PinsDiffer(Name),
    /// `E7`: the pin is on a net.
    AlreadyConnected(Name),
    /// `E8`: the pin is on no net, or a listed sink is not on the net.
    NotConnected(Name),
    /// `E9`: the gate has a pin on a net, or the net has a pin or a port.
    InUse(Name),
    /// `E10`: two output pins or input ports drive the net.
    ManyDrivers(Name),
    /// `E11`: the pins of a cycle, in the order of its arcs, from the least pin on.
    Loop(Items<Name>),
    /// `E12`: the pin breaks the rule that a clock network is a tree.
    ClockNotTree(Name),
    /// `E13`: a constraint names a port, pin or cell that is not there or has the wrong direction.
    ConstraintDangling(Name),
    /// `E14`: the parasitics of the net are no tree from its driver.
    RcNotTree(Name),
    /// `E15`: the parasitics of the net do not name its pins.
    RcPinsDiffer(Name),
    /// `E16`: a quantity leaves its range there.
    OutOfRange(Place),
    /// `E17`: more pins, instances, nets or nodes of a net than are allowed.
    TooLarge(Large),
    /// Want of memory.
    Memory,
}

impl From<Memory> for Fault {
    ghost use Rattle.std.specs.Prelude.{◌≡◌};
    ghost use Rattle.timing_defs.specs.declared.faults.Fault.TheVariants as fault;

    ghost from_gives = { λ _ told. told ≡ fault.Memory };

    fn from(_wanting: Memory) -> Fault {
        Fault::Memory
    }
}

impl From<AllocError> for Fault {
    ghost use Rattle.std.specs.Prelude.{◌≡◌};
    ghost use Rattle.timing_defs.specs.declared.faults.Fault.TheVariants as fault;

    ghost from_gives = { λ _ told. told ≡ fault.Memory };

    fn from(_refused: AllocError) -> Fault {
        Fault::Memory
    }
}

/// What a question asks too many of: instances, or candidates of a resize.
#[derive(Clone, Copy, Drop)]
pub enum Many {
    Instances,
    Candidates,
}

/// Why a question has no answer: there is no such pin (`Q1`), the pin is no endpoint (`Q2`), it is on
/// no clock network that the question needs (`Q3`), there is no such net, instance or usable cell (`Q4`), or it
/// asks too many (`Q5`).
#[derive(Drop)]
pub enum QueryFault {
    /// `Q1`
    UnknownPin(Name),
    /// `Q2`
    NotEndpoint(Name),
    /// `Q3`
    NotClocked(Name),
    /// `Q4`
    UnknownName(Name),
    /// `Q5`
    TooMany(Many),
    /// Want of memory.
    Memory,
}

impl From<Memory> for QueryFault {
    ghost use Rattle.std.specs.Prelude.{◌≡◌};
    ghost use Rattle.timing_defs.specs.declared.faults.QueryFault.TheVariants as fault;

    ghost from_gives = { λ _ told. told ≡ fault.Memory };

    fn from(_wanting: Memory) -> QueryFault {
        QueryFault::Memory
    }
}

impl From<AllocError> for QueryFault {
    ghost use Rattle.std.specs.Prelude.{◌≡◌};
    ghost use Rattle.timing_defs.specs.declared.faults.QueryFault.TheVariants as fault;

    ghost from_gives = { λ _ told. told ≡ fault.Memory };

    fn from(_refused: AllocError) -> QueryFault {
        QueryFault::Memory
    }
}
