//! Why a row is not evaluated.

use nldm_lookup::OutOfRange;
use sta_units::Memory;
use std::alloc::AllocError;

/// A quantity leaves its limit, or memory is wanting.
#[derive(Clone, Copy, Drop)]
pub(crate) enum Unfit {
    Range,
    Memory,
}

impl From<OutOfRange> for Unfit {
    ghost use Rattle.std.specs.Prelude.{◌≡◌};
    ghost use Rattle.node_rows.specs.declared.unfit.Unfit.TheVariants as unfit;

    ghost from_gives = { λ _ told. told ≡ unfit.Range };

    fn from(_beyond: OutOfRange) -> Unfit {
        Unfit::Range
    }
}

impl From<Memory> for Unfit {
    ghost use Rattle.std.specs.Prelude.{◌≡◌};
    ghost use Rattle.node_rows.specs.declared.unfit.Unfit.TheVariants as unfit;

    ghost from_gives = { λ _ told. told ≡ unfit.Memory };

    fn from(_wanting: Memory) -> Unfit {
        Unfit::Memory
    }
}

impl From<AllocError> for Unfit {
    ghost use Rattle.std.specs.Prelude.{◌≡◌};
    ghost use Rattle.node_rows.specs.declared.unfit.Unfit.TheVariants as unfit;

    ghost from_gives = { λ _ told. told ≡ unfit.Memory };

    fn from(_refused: AllocError) -> Unfit {
        Unfit::Memory
    }
}
