//! A count of steps that has no bytes at run time.

use crate::counting::Count;
use std::marker::{Model, PhantomData};

/// A count that a contract sees as a number, named by `L`. It has no bytes at run time. It is how
/// often `tick` was called for it, with what `add` brought in, and says no more: that each step of
/// an algorithm ticks is for the algorithm to keep.
#[derive(Drop)]
pub struct Steps<L> {
    count: Count,
    of: PhantomData<L>,
}

impl<L> Model for Steps<L> {
    ghost use Rattle.std.specs.Prelude.{ℕ};
    ghost use Rattle.std.specs.Coded.{coded_ℕ};

    ghost Value = { ℕ };

    ghost coded = { coded_ℕ };

    ghost view = { λ steps. steps.count.n };
}

// It owns nothing, and no value of `L`.
unsafe impl<L> Send for Steps<L> {}

impl<L> Steps<L> {
    ghost use Rattle.std.specs.Prelude.{◌≡◌, ◌+◌};

    /// A count of 0.
    pub fn none() -> Steps<L>
        ensures { result ≡ 0 }
    {
        Steps {
            count: Count::zero(),
            of: PhantomData,
        }
    }

    /// Counts one step.
    pub fn tick(&mut self)
        ensures { self.new ≡ self.old + 1 }
    {
        self.count = Count::sum(&self.count, &Count::one());
    }

    /// Counts the steps that the other has counted.
    pub fn add(&mut self, other: Steps<L>)
        ensures { self.new ≡ self.old + other }
    {
        self.count = Count::sum(&self.count, &other.count);
    }
}
