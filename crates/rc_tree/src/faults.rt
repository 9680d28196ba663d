//! Why the parasitics of a net are no tree within the limits.

use sta_units::Memory;
use std::alloc::AllocError;

/// The first fault of a net's parasitics, in this order; or want of memory.
#[derive(Clone, Copy, Drop)]
pub enum RcFault {
    /// Resistors close a loop.
    Loop,
    /// The resistors do not lead from the root to each node.
    Unreached,
    /// There are more than 65,535 nodes.
    TooLarge,
    /// The total resistance, the total capacitance or a delay is beyond its limit.
    OutOfRange,
    /// Want of memory.
    Memory,
}

impl From<AllocError> for RcFault {
    ghost use Rattle.std.specs.Prelude.{◌≡◌};
    ghost use Rattle.rc_tree.specs.declared.faults.RcFault.TheVariants as fault;

    ghost from_gives = { λ _ told. told ≡ fault.Memory };

    fn from(_: AllocError) -> RcFault {
        RcFault::Memory
    }
}

impl From<Memory> for RcFault {
    ghost use Rattle.std.specs.Prelude.{◌≡◌};
    ghost use Rattle.rc_tree.specs.declared.faults.RcFault.TheVariants as fault;

    ghost from_gives = { λ _ told. told ≡ fault.Memory };

    fn from(_: Memory) -> RcFault {
        RcFault::Memory
    }
}
