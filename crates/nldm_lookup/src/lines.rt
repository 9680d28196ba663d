//! Signed arithmetic of one step each, and the line through two values: in 64 bits where all are near 0, as
//! those of most tables are, and else in 128.

ghost use Rattle.std.specs.Prelude.{◌≡◌, ◌+◌, ◌*◌, ◌^◌, ◌≤◌, pos, ◌+ℤ◌, ◌-ℤ◌, ◌*ℤ◌, ◌≤ℤ◌, ◌<ℤ◌, unsigned_abs, nat_le, true};
ghost use Rattle.sta_units.specs.Numbers.{limit, rounded};
ghost use Rattle.timing_defs.specs.Lookup.{line};

use sta_units::rnd;

/// Two neighbouring entries of an axis, the lower first.
#[derive(Clone, Copy, Drop)]
pub struct Span {
    pub from: i64,
    pub to: i64,
}

#[tactic(auto, using(sta_units::proofs::Rounding::signed_steps))]
fn difference(x: i128, y: i128) -> i128
    requires x_within { unsigned_abs x ≤ 10 ^ 25 }
    requires y_within { unsigned_abs y ≤ 10 ^ 25 }
    ensures value { result ≡ x -ℤ y }
    ensures bound { unsigned_abs result ≤ unsigned_abs x + unsigned_abs y }
{
    x - y
}

#[tactic(auto, using(sta_units::proofs::Rounding::signed_steps))]
fn sum(x: i128, y: i128) -> i128
    requires x_within { unsigned_abs x ≤ 10 ^ 25 }
    requires y_within { unsigned_abs y ≤ 10 ^ 38 }
    ensures value { result ≡ x +ℤ y }
    ensures bound { unsigned_abs result ≤ unsigned_abs x + unsigned_abs y }
{
    x + y
}

#[tactic(auto, using(sta_units::proofs::Rounding::signed_steps))]
fn product(x: i128, y: i128) -> i128
    requires x_within { unsigned_abs x ≤ 10 ^ 25 }
    requires y_within { unsigned_abs y ≤ 2 * limit }
    ensures value { result ≡ x *ℤ y }
    ensures bound { unsigned_abs result ≤ unsigned_abs x * (2 * limit) }
{
    x * y
}

/// The line through `p` at the span's lower end and `q` at its upper end, taken at `x`, in 128 bits.
#[tactic(auto, using(sta_units::proofs::Rounding::signed_steps))]
fn wide_line(p: i128, q: i128, span: Span, x: i64) -> i128
    requires p_within { unsigned_abs p ≤ 5 * 10 ^ 24 }
    requires q_within { unsigned_abs q ≤ 5 * 10 ^ 24 }
    requires from_within { unsigned_abs span.from ≤ limit }
    requires to_within { unsigned_abs span.to ≤ limit }
    requires rising { span.from <ℤ span.to }
    requires x_within { unsigned_abs x ≤ limit }
    ensures value { result ≡ line p q span.from span.to x }
    ensures bound { unsigned_abs result ≤ unsigned_abs p + (unsigned_abs p + unsigned_abs q) *
        (2 * limit) }
{
    let rise = difference(q, p);
    let into = difference(i128::from(x), i128::from(span.from));
    let width = difference(i128::from(span.to), i128::from(span.from));
    sum(p, rnd(product(rise, into), width))
}

/// The greatest absolute value that is near 0: no step of a line through such values leaves 64 bits.
const NEAR: u64 = 1 << 29;

/// Whether a value is near 0.
fn is_near(x: i64) -> bool
    ensures { result ≡ nat_le (unsigned_abs x) (2 ^ 29) }
{
    x.unsigned_abs() <= NEAR
}

/// Whether two values, the ends of a span and a place are near 0.
fn are_near(p: i64, q: i64, span: Span, x: i64) -> bool
    ensures p_near { result ≡ true → unsigned_abs p ≤ 2 ^ 29 }
    ensures q_near { result ≡ true → unsigned_abs q ≤ 2 ^ 29 }
    ensures from_near { result ≡ true → unsigned_abs span.from ≤ 2 ^ 29 }
    ensures to_near { result ≡ true → unsigned_abs span.to ≤ 2 ^ 29 }
    ensures x_near { result ≡ true → unsigned_abs x ≤ 2 ^ 29 }
{
    if !is_near(p) || !is_near(q) || !is_near(x) {
        return false;
    }
    is_near(span.from) && is_near(span.to)
}

#[tactic(auto, using(sta_units::proofs::Rounding::signed_steps))]
fn near_difference(x: i64, y: i64) -> i64
    requires x_near { unsigned_abs x ≤ 2 ^ 29 }
    requires y_near { unsigned_abs y ≤ 2 ^ 29 }
    ensures value { result ≡ x -ℤ y }
    ensures bound { unsigned_abs result ≤ unsigned_abs x + unsigned_abs y }
{
    x - y
}

#[tactic(auto, using(sta_units::proofs::Rounding::signed_steps))]
fn near_sum(x: i64, y: i64) -> i64
    requires x_near { unsigned_abs x ≤ 2 ^ 29 }
    requires y_within { unsigned_abs y ≤ 2 ^ 60 }
    ensures value { result ≡ x +ℤ y }
    ensures bound { unsigned_abs result ≤ unsigned_abs x + unsigned_abs y }
{
    x + y
}

#[tactic(auto, using(sta_units::proofs::Rounding::signed_steps))]
fn near_product(x: i64, y: i64) -> i64
    requires x_within { unsigned_abs x ≤ 2 ^ 30 }
    requires y_within { unsigned_abs y ≤ 2 ^ 30 }
    ensures value { result ≡ x *ℤ y }
    ensures bound { unsigned_abs result ≤ unsigned_abs x * 2 ^ 30 }
{
    x * y
}

/// `n / d` to the nearest whole number, halves upward, as `sta_units::rnd` has it.
fn near_quotient(n: i64, d: i64) -> i64
    requires positive { pos 1 ≤ℤ d }
    requires divisor { d ≤ℤ pos (2 ^ 30) }
    requires dividend { unsigned_abs n ≤ 2 ^ 60 }
    ensures value { result ≡ rounded n d }
    ensures bound { unsigned_abs result ≤ unsigned_abs n }
{
    (2 * n + d).div_euclid(2 * d)
}

/// The line through `p` at the span's lower end and `q` at its upper end, taken at `x`, in 64 bits.
#[tactic(auto, using(sta_units::proofs::Rounding::signed_steps))]
fn near_line(p: i64, q: i64, span: Span, x: i64) -> i64
    requires p_near { unsigned_abs p ≤ 2 ^ 29 }
    requires q_near { unsigned_abs q ≤ 2 ^ 29 }
    requires from_near { unsigned_abs span.from ≤ 2 ^ 29 }
    requires to_near { unsigned_abs span.to ≤ 2 ^ 29 }
    requires rising { span.from <ℤ span.to }
    requires x_near { unsigned_abs x ≤ 2 ^ 29 }
    ensures value { result ≡ line p q span.from span.to x }
    ensures bound { unsigned_abs result ≤ unsigned_abs p + (unsigned_abs p + unsigned_abs q) *
        (2 * limit) }
{
    let rise = near_difference(q, p);
    let into = near_difference(x, span.from);
    let width = near_difference(span.to, span.from);
    near_sum(p, near_quotient(near_product(rise, into), width))
}

/// The line through `p` at the span's lower end and `q` at its upper end, taken at `x`, rounded
/// once. Takes no memory.
pub fn line(p: i128, q: i128, span: Span, x: i64) -> i128
    requires p_within { unsigned_abs p ≤ 5 * 10 ^ 24 }
    requires q_within { unsigned_abs q ≤ 5 * 10 ^ 24 }
    requires from_within { unsigned_abs span.from ≤ limit }
    requires to_within { unsigned_abs span.to ≤ limit }
    requires rising { span.from <ℤ span.to }
    requires x_within { unsigned_abs x ≤ limit }
    ensures value { result ≡ line p q span.from span.to x }
    ensures bound { unsigned_abs result ≤ unsigned_abs p + (unsigned_abs p + unsigned_abs q) *
        (2 * limit) }
{
    match (i64::try_from(p), i64::try_from(q)) {
        (Ok(low), Ok(high)) if are_near(low, high, span, x) => {
            i128::from(near_line(low, high, span, x))
        }
        _ => wide_line(p, q, span, x),
    }
}
