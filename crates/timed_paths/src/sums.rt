//! Signed arithmetic of one step each.

ghost use Rattle.std.specs.Prelude.{◌≡◌, ◌+◌, ◌*◌, ◌≤◌, ◌+ℤ◌, ◌-ℤ◌, neg_ℤ, unsigned_abs};
ghost use Rattle.std.specs.Ordering.{int_eq};
ghost use Rattle.sta_units.specs.Numbers.{limit};

/// A sum of two numbers that are far from their limits.
#[tactic(auto, using(sta_units::proofs::Rounding::signed_steps))]
pub(crate) fn sum(x: i64, y: i64) -> i64
    requires x_within { unsigned_abs x ≤ 4000 * limit }
    requires y_within { unsigned_abs y ≤ 4000 * limit }
    ensures value { result ≡ x +ℤ y }
    ensures bound { unsigned_abs result ≤ unsigned_abs x + unsigned_abs y }
{
    x + y
}

/// A difference of two numbers that are far from their limits.
#[tactic(auto, using(sta_units::proofs::Rounding::signed_steps))]
pub(crate) fn difference(x: i64, y: i64) -> i64
    requires x_within { unsigned_abs x ≤ 4000 * limit }
    requires y_within { unsigned_abs y ≤ 4000 * limit }
    ensures value { result ≡ x -ℤ y }
    ensures bound { unsigned_abs result ≤ unsigned_abs x + unsigned_abs y }
{
    x - y
}

/// A number with its sign turned.
pub(crate) fn negated(x: i64) -> i64
    requires { unsigned_abs x ≤ 2 * limit }
    ensures { result ≡ neg_ℤ x }
{
    -x
}

/// A difference of any two numbers.
#[tactic(auto, using(sta_units::proofs::Rounding::signed_steps))]
pub(crate) fn wide_difference(x: i64, y: i64) -> i128
    ensures { result ≡ x -ℤ y }
{
    i128::from(x) - i128::from(y)
}

/// Whether two numbers are the same.
#[tactic(auto, using(sta_units::proofs::Rounding::signed_steps))]
pub(crate) fn is_same(x: i128, y: i64) -> bool
    ensures { result ≡ int_eq x y }
{
    x == i128::from(y)
}
