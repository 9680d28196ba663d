//! What gives each value from others.

use cow_table::CowTable;
use sta_units::Memory;
use std::alloc::Global;
use timing_defs::Items;

/// Values are below it.
pub const LIMIT: u32 = u32::MAX;

/// A rule that gives a value for each number below a count, from the values of other numbers.
pub trait Rule {
    ghost use Rattle.std.specs.Prelude.{List, ℕ, ◌≡◌, ◌<◌, true, All, IfOk, length};
    ghost use Rattle.settling.specs.Settled.{is_among, AreLow};

    /// How many values there are.
    ghost count: { Self → ℕ };

    /// What the rule itself rests on.
    ghost is_ready: { Self → Type 0 };

    /// The value that the rule gives for a number, from all values.
    ghost value: { Self → List ℕ → ℕ → ℕ };

    /// The numbers whose value is given from that of a number.
    ghost behind: { Self → ℕ → List ℕ };

    /// The value of a number. The one error is want of memory.
    fn value(&self, alloc: Global, values: &CowTable<u32>, at: u32) -> Result<u32, Memory>
        requires ready { is_ready self.now }
        requires count { length values.now ≡ count self.now }
        requires low { AreLow values.now }
        requires at { at < count self.now }
        ensures { IfOk result (λ found. found ≡ value self.now values.now at) };

    /// The numbers whose value is given from that of a number; others may be among them. The one error
    /// is want of memory.
    fn behind(&self, alloc: Global, at: u32) -> Result<Items<u32>, Memory>
        requires ready { is_ready self.now }
        requires at { at < count self.now }
        ensures within { IfOk result (λ found. All (λ a. a < count self.now) found) }
        ensures all { IfOk result (λ found. (a : ℕ) → a < count self.now → is_among (behind self.now at) a ≡ true → is_among found a ≡ true) };

    /// The place of a number in the order of work: the lowest first. It decides what work is done, and
    /// no value.
    fn key(&self, values: &CowTable<u32>, at: u32) -> u32
        requires ready { is_ready self.now }
        requires count { length values.now ≡ count self.now }
        requires at { at < count self.now };
}
