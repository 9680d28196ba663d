//! Signed arithmetic of one step each.

ghost use Rattle.std.specs.Prelude.{◌≡◌, ◌+◌, ◌*◌, ◌≤◌, ◌+ℤ◌, ◌-ℤ◌, unsigned_abs};
ghost use Rattle.sta_units.specs.Numbers.{limit};

#[tactic(auto, using(sta_units::proofs::Rounding::signed_steps))]
pub(crate) fn sum(x: i64, y: i64) -> i64
    requires x_within { unsigned_abs x ≤ 4000 * limit }
    requires y_within { unsigned_abs y ≤ 4000 * limit }
    ensures value { result ≡ x +ℤ y }
    ensures bound { unsigned_abs result ≤ unsigned_abs x + unsigned_abs y }
{
    x + y
}

#[tactic(auto, using(sta_units::proofs::Rounding::signed_steps))]
pub(crate) fn difference(x: i64, y: i64) -> i64
    requires x_within { unsigned_abs x ≤ 4000 * limit }
    requires y_within { unsigned_abs y ≤ 4000 * limit }
    ensures value { result ≡ x -ℤ y }
    ensures bound { unsigned_abs result ≤ unsigned_abs x + unsigned_abs y }
{
    x - y
}
