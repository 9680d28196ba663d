//! Why required times are not found.

use sta_units::Memory;

/// A required time leaves its limit, or memory is wanting.
#[derive(Clone, Copy, Drop)]
pub(crate) enum Unfit {
    Range,
    Memory,
}

impl From<Memory> for Unfit {
    ghost use Rattle.std.specs.Prelude.{◌≡◌};
    ghost use Rattle.required_engine.specs.declared.unfit.Unfit.TheVariants as unfit;

    ghost from_gives = { λ _ told. told ≡ unfit.Memory };

    fn from(_wanting: Memory) -> Unfit {
        Unfit::Memory
    }
}
