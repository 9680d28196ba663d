//! Why words give no value.

use sta_units::Memory;

/// Why the words of a line give no value: want of memory, words of another form, or a number word,
/// which begins at that byte, that is no number or out of its range.
#[derive(Clone, Copy, Drop)]
pub enum Stop {
    Memory,
    Unfit,
    Flawed(usize),
}

impl From<Memory> for Stop {
    ghost use Rattle.std.specs.Prelude.{◌≡◌};
    ghost use Rattle.eco_journal.specs.declared.stops.Stop.TheVariants as stop;

    ghost from_gives = { λ _ told. told ≡ stop.Memory };

    fn from(_wanting: Memory) -> Stop {
        Stop::Memory
    }
}
