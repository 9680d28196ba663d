//! Why a graph has no levels.

use sta_units::Memory;
use timing_defs::Items;

/// Why there are no levels: the nodes of a cycle in arc order, each once, or want of memory.
#[derive(Debug, Drop)]
pub enum LevelFault {
    /// An arc leads from each of these nodes to the next, and from the last to the first.
    Cycle(Items<u32>),
    Memory,
}

impl From<Memory> for LevelFault {
    ghost use Rattle.std.specs.Prelude.{◌≡◌};
    ghost use Rattle.levelizer.specs.declared.faults.LevelFault.TheVariants as fault;

    ghost from_gives = { λ _ told. told ≡ fault.Memory };

    fn from(_wanting: Memory) -> LevelFault {
        LevelFault::Memory
    }
}
