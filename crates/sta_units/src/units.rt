//! The quantities as types of their own, and the one answer for want of memory.

ghost use Rattle.std.specs.Prelude.{◌≡◌};

use std::alloc::{AllocError, AllocFailed};

/// A time or a slew in whole femtoseconds.
#[derive(Debug, Clone, Copy, PartialEq, Eq, PartialOrd, Ord, Default, Drop)]
pub struct Fs(pub i64);

/// A capacitance in whole attofarads.
#[derive(Debug, Clone, Copy, PartialEq, Eq, Drop)]
pub struct Af(pub i64);

/// A resistance in whole milliohms.
#[derive(Debug, Clone, Copy, PartialEq, Eq, Drop)]
pub struct Mo(pub i64);

/// A unit as a power of ten, from -40 to 40: a written number times `10^ten` is the number of
/// femtoseconds, attofarads or milliohms.
#[derive(Clone, Copy, Drop)]
pub struct Unit {
    pub ten: i32,
}

/// Want of memory: a growth that the allocator refused.
#[derive(Debug, Clone, Copy, PartialEq, Eq, Drop)]
pub struct Memory;

impl From<AllocError> for Memory {
    ghost from_gives = { λ _ told. told ≡ record {} };

    fn from(_refused: AllocError) -> Memory {
        Memory
    }
}

impl<T: Drop> From<AllocFailed<T>> for Memory {
    ghost from_gives = { λ _ told. told ≡ record {} };

    fn from(_refused: AllocFailed<T>) -> Memory {
        Memory
    }
}
