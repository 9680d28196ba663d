//! Values whose entries are kept in a file.

ghost use Rattle.std.specs.Prelude.{◌≡◌, ℕ, ◌+◌, ◌-◌, ◌≤◌, List, [], length, drop, IfOk};
ghost use Rattle.timing_defs.specs.declared.constraints.Derates.{Derates};
ghost use Rattle.live_journal.specs.Desk.{JoinsLists};

use sta_units::Memory;
use std::alloc::Global;
use timing_defs::Derates;
use version_board::Stands;

/// A value that stands for a list of entries, each of which has a text in a file.
pub trait Saves: Stands {
    /// The text of entries that stand behind a number, under these factors.
    ghost text: { Derates → ℕ → List Self.Entry → List ℕ };

    /// The text of the entries behind the number `from`, in bytes.
    ///
    /// # Errors
    ///
    /// Want of memory alone.
    fn text_from(&self, alloc: Global, derates: &Derates, from: u64) -> Result<Vec<u8>, Memory>
        requires low { Self.from self.now ≤ from }
        requires high { from ≤ Self.from self.now + length (Self.entries self.now) }
        ensures { IfOk result (λ bytes. bytes.items
            ≡ text derates.now from (drop (from - Self.from self.now) (Self.entries self.now))) };

    ghost none: { (d : Derates) (n : ℕ) → text d n [] ≡ [] };

    ghost joins: { JoinsLists text };
}
