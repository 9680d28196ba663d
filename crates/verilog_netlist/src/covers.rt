//! Stretches of numbers, and whether a number stands in one of them.

ghost use Rattle.std.specs.Prelude.{◌≡◌, ◌<◌, ◌+◌, ℕ, IfOk, length, get_or, take};
ghost use Rattle.std.specs.List.{list_any};
ghost use Rattle.std.specs.List.Sorted.{IsNonDecreasingBy, IsPermutation};
ghost use Rattle.verilog_netlist.specs.Late.{holds};
ghost use Rattle.verilog_netlist.specs.Covers.{reach, IsCover};

use sta_units::Memory;
use std::alloc::Global;
use std::marker::Model;
use timing_defs::Items;

/// The numbers from `low` to `high`, both among them.
#[derive(Clone, Copy, Drop)]
pub(crate) struct Stretch {
    pub low: u128,
    pub high: u128,
}

/// Stretches in the order of their lower ends, each with the greatest upper end up to it. Contracts
/// see the list of the stretches.
#[derive(Drop)]
pub(crate) struct Cover {
    stretches: Vec<Stretch>,
    reaches: Items<u128>,
}

impl Model for Cover {
    ghost use Rattle.std.specs.Prelude.{List};
    ghost use Rattle.verilog_netlist.specs.declared.covers.Stretch.{Stretch};
    ghost use Rattle.verilog_netlist.specs.Covers.{IsCover};

    ghost Value = { List Stretch };

    ghost view = { λ c. c.stretches.items };

    ghost invariant = { λ c. IsCover c.stretches.items c.reaches };
}

/// The stretches in the order of their lower ends.
fn in_order(mut stretches: Vec<Stretch>) -> Result<Vec<Stretch>, Memory>
    ensures order { IfOk result (λ sorted. IsNonDecreasingBy (λ s. s.low) sorted.items) }
    ensures same { IfOk result (λ sorted. IsPermutation stretches.items sorted.items) }
{
    stretches.sort_by_key(|stretch| stretch.low)?;
    Ok(stretches)
}

/// The greatest upper end up to each stretch.
fn reaches(alloc: Global, stretches: &[Stretch]) -> Result<Items<u128>, Memory>
    ensures count { IfOk result (λ ends. length ends ≡ length stretches.now) }
    ensures reaches { IfOk result
        (λ ends. (i : ℕ) → i < length stretches.now → get_or ends i 0
        ≡ reach (take (i + 1) stretches.now)) }
{
    let mut ends = Items::new(alloc);
    let mut end = 0u128;
    for stretch in stretches {
        end = end.max(stretch.high);
        ends.push(end)?;
    }
    Ok(ends)
}

/// Whether a number stands in one of the stretches.
fn covers(stretches: &[Stretch], reaches: &[u128], k: u128) -> bool
    requires { IsCover stretches.now reaches.now }
    ensures { result ≡ list_any (holds k) stretches.now }
{
    let below = stretches.partition_point(|stretch| stretch.low <= k);
    below > 0 && k <= reaches[below - 1]
}

impl Cover {
    /// What these stretches cover, in time `n log n`.
    pub(crate) fn of(alloc: Global, stretches: Vec<Stretch>) -> Result<Cover, Memory>
        ensures { IfOk result
            (λ cover. (k : ℕ) → list_any (holds k) cover ≡ list_any (holds k) stretches.items) }
    {
        let stretches = in_order(stretches)?;
        let reaches = reaches(alloc, stretches.as_slice())?;
        Ok(Cover { stretches, reaches })
    }

    /// Whether a number stands in a stretch, by binary search. Takes no memory.
    pub(crate) fn has(&self, k: u128) -> bool
        ensures { result ≡ list_any (holds k) self.now }
    {
        covers(self.stretches.as_slice(), self.reaches.as_slice(), k)
    }
}
