//! Copies that are equal to what they were made of.

ghost use Rattle.std.specs.Prelude.{IfOk, ◌≡◌};

use crate::units::{Af, Fs, Memory, Mo};
use std::alloc::Global;

/// A value that can be copied where memory allows it; the copy equals the value.
pub trait Again: Sized {
    fn again(&self, alloc: Global) -> Result<Self, Memory>
        ensures { IfOk result (λ copy. copy ≡ self.now) };
}

impl Again for bool {
    fn again(&self, _alloc: Global) -> Result<bool, Memory> {
        Ok(*self)
    }
}

impl Again for u32 {
    fn again(&self, _alloc: Global) -> Result<u32, Memory> {
        Ok(*self)
    }
}

impl Again for u64 {
    fn again(&self, _alloc: Global) -> Result<u64, Memory> {
        Ok(*self)
    }
}

impl Again for Fs {
    fn again(&self, _alloc: Global) -> Result<Fs, Memory> {
        Ok(*self)
    }
}

impl Again for Af {
    fn again(&self, _alloc: Global) -> Result<Af, Memory> {
        Ok(*self)
    }
}

impl Again for Mo {
    fn again(&self, _alloc: Global) -> Result<Mo, Memory> {
        Ok(*self)
    }
}

impl<T: Again> Again for Option<T> {
    fn again(&self, alloc: Global) -> Result<Option<T>, Memory> {
        match self {
            Some(value) => Ok(Some(value.again(alloc)?)),
            None => Ok(None),
        }
    }
}
