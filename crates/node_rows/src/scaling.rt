//! Delays times the factors of their split and kind.

ghost use Rattle.std.specs.Prelude.{◌≡◌, ◌≤◌, ◌*◌, ◌^◌, pos, ◌*ℤ◌, true, false, unsigned_abs, IfOk, IfErr};
ghost use Rattle.sta_units.specs.Numbers.{limit, rounded, is_within};
ghost use Rattle.timing_rules.specs.Rows.{factor_of};
ghost use Rattle.timing_defs.specs.Documents.{are_derates};

use nldm_lookup::OutOfRange;
use sta_units::{LIM, rnd};
use timing_defs::{Derates, Split};

/// The factor of a split, of cell arcs or of net arcs, in millionths.
pub(crate) fn factor_of(derates: &Derates, split: Split, cell: bool) -> u32
    requires { are_derates derates.now ≡ true }
    ensures value { result ≡ factor_of derates.now split cell }
    ensures bound { result ≤ 10000000 }
{
    match (split, cell) {
        (Split::Early, true) => derates.early_cell,
        (Split::Early, false) => derates.early_net,
        (Split::Late, true) => derates.late_cell,
        (Split::Late, false) => derates.late_net,
    }
}

/// The product of a delay and a factor.
#[tactic(auto, using(sta_units::proofs::Rounding::signed_steps))]
fn product(delay: i128, factor: i128) -> i128
    requires delay { unsigned_abs delay ≤ limit }
    requires factor { unsigned_abs factor ≤ 10000000 }
    ensures value { result ≡ delay *ℤ factor }
    ensures bound { unsigned_abs result ≤ limit * 10000000 }
{
    delay * factor
}

/// A value within the limit.
fn in_range(value: i128) -> Result<i64, OutOfRange>
    ensures value { IfOk result (λ v. v ≡ value) }
    ensures within { IfOk result (λ v. is_within v ≡ true) }
    ensures err { IfErr result (λ _. is_within value ≡ false) }
{
    if value.unsigned_abs() <= LIM.unsigned_abs() as u128 {
        Ok(value as i64)
    } else {
        Err(OutOfRange)
    }
}

/// A delay times a factor in millionths, rounded once. `OutOfRange` exactly where that leaves its
/// limit.
pub(crate) fn scaled(delay: i64, factor: u32) -> Result<i64, OutOfRange>
    requires delay { unsigned_abs delay ≤ limit }
    requires factor { factor ≤ 10000000 }
    ensures value { IfOk result (λ v. v ≡ rounded (delay *ℤ pos factor) (pos (10 ^ 6))) }
    ensures within { IfOk result (λ v. is_within v ≡ true) }
    ensures err { IfErr result
        (λ _. is_within (rounded (delay *ℤ pos factor) (pos (10 ^ 6))) ≡ false) }
{
    in_range(rnd(product(i128::from(delay), i128::from(factor)), 1_000_000))
}
