//! Decimal numbers in a text, as whole numbers of a unit.

ghost use Rattle.std.specs.Prelude.{◌≡◌, ◌+◌, ◌^◌, ◌<◌, ◌≤◌, ◌++◌, pos, neg_ℤ, ◌*ℤ◌, ◌≤ℤ◌, unsigned_abs, length, min, IfOk, IfSome, MatchOption, true, false, nat_lt, ◌||◌, if◌then◌else◌, ◌+ℤ◌, ◌-ℤ◌};
ghost use Rattle.std.specs.List.{prefix_len, list_all};
ghost use Rattle.std.specs.Char.{is_ascii_digit};
ghost use Rattle.sta_units.specs.Numbers.{rounded, limit};
ghost use Rattle.sta_units.specs.Decimal.{digits_at, after_digits, has_minus, after_sign, after_point, after_fraction, is_whole, is_exponent, after_letter, written_of, number_on, signed, scaled, in_range, value_of, decimal_of};

use crate::numbers::{LIM, rnd};
use crate::units::Unit;

/// Why a text gives no number of a unit, in the order in which the faults are looked for.
#[derive(Debug, Clone, Copy, PartialEq, Eq, Drop)]
pub enum DecFault {
    /// The text is no decimal.
    NotDecimal,
    /// More than 30 digits, or an exponent outside -30 to 30.
    TooLong,
    /// The rounded value lies outside `LIM`.
    OutOfUnitRange,
}

// The parts of a decimal: its digits before and after the point, whether the exponent has a minus,
// and the exponent's digits, which are none where there is no exponent.
#[derive(Drop)]
struct Written<'a> {
    negative: bool,
    whole: &'a [u8],
    fraction: &'a [u8],
    lowers: bool,
    exponent: &'a [u8],
}

fn has_minus(text: &[u8]) -> bool
    ensures { result ≡ has_minus text.now }
{
    matches!(text, [b'-', ..])
}

fn after_sign(text: &[u8]) -> &[u8]
    ensures { result.now ≡ after_sign text.now }
{
    match text {
        [b'+' | b'-', rest @ ..] => rest,
        _ => text,
    }
}

fn after_point(text: &[u8]) -> &[u8]
    ensures { result.now ≡ after_point text.now }
{
    match text {
        [b'.', rest @ ..] => rest,
        _ => &[],
    }
}

fn after_letter(text: &[u8]) -> &[u8]
    ensures { result.now ≡ after_letter text.now }
{
    match text {
        [_, rest @ ..] => rest,
        [] => text,
    }
}

fn digit_count(text: &[u8]) -> usize
    ensures value { result ≡ prefix_len is_ascii_digit text.now }
    ensures within { result ≤ length text.now }
{
    text.iter().take_while(|byte| byte.is_ascii_digit()).count()
}

#[tactic(auto, using(crate::proofs::Digits::leading_digits))]
fn digits_at(text: &[u8]) -> &[u8]
    ensures value { result.now ≡ digits_at text.now }
    ensures digits { list_all is_ascii_digit result.now ≡ true }
{
    &text[..digit_count(text)]
}

fn after_digits(text: &[u8]) -> &[u8]
    ensures { result.now ≡ after_digits text.now }
{
    &text[digit_count(text)..]
}

fn after_fraction(text: &[u8]) -> &[u8]
    ensures { result.now ≡ after_fraction text.now }
{
    match text {
        [b'.', rest @ ..] => after_digits(rest),
        _ => text,
    }
}

fn are_digits(text: &[u8]) -> bool
    ensures { result ≡ list_all is_ascii_digit text.now }
{
    text.iter().all(|byte| byte.is_ascii_digit())
}

fn is_whole(text: &[u8]) -> bool
    ensures { result ≡ is_whole text.now }
{
    !text.is_empty() && are_digits(text)
}

fn is_exponent(text: &[u8]) -> bool
    ensures { result ≡ is_exponent text.now }
{
    match text {
        [] => true,
        [b'e' | b'E', rest @ ..] => is_whole(after_sign(rest)),
        _ => false,
    }
}

#[tactic(auto, unfolding(crate::specs::Decimal::written_of))]
fn written_of(text: &[u8]) -> Option<Written<'_>>
    ensures digits { IfSome result (λ parts. (list_all is_ascii_digit parts.whole.now ≡ true) × (list_all is_ascii_digit parts.fraction.now ≡ true)) }
    ensures value { MatchOption result (written_of text.now ≡ None) (λ parts. written_of text.now ≡ Some (record {
      negative = parts.negative;
      whole = parts.whole.now;
      fraction = parts.fraction.now;
      lowers = parts.lowers;
      exponent = parts.exponent.now;
    })) }
{
    let unsigned = after_sign(text);
    let whole = digits_at(unsigned);
    let rest = after_digits(unsigned);
    let fraction = digits_at(after_point(rest));
    let tail = after_fraction(rest);
    if whole.is_empty() && fraction.is_empty() {
        return None;
    }
    if !is_exponent(tail) {
        return None;
    }
    let scale = after_letter(tail);
    Some(Written {
        negative: has_minus(text),
        whole,
        fraction,
        lowers: has_minus(scale),
        exponent: after_sign(scale),
    })
}

// The number that digits write after those of `start`.
fn number_on(start: u128, digits: &[u8]) -> u128
    requires { number_on start digits.now < 10 ^ 30 }
    ensures { result ≡ number_on start digits.now }
{
    let mut number = start;
    for digit in digits {
        number = 10 * number + u128::from(digit.saturating_sub(b'0'));
    }
    number
}

// The number that digits write, or 31 where it is greater.
fn exponent_of(digits: &[u8]) -> i64
    ensures { result ≡ pos (min (number_on 0 digits.now) 31) }
{
    let mut number: u32 = 0;
    for digit in digits {
        number = (10 * number + u32::from(digit.saturating_sub(b'0'))).min(31);
    }
    i64::from(number)
}

fn signed(negative: bool, number: u128) -> i128
    requires { number < 10 ^ 30 }
    ensures value { result ≡ signed negative number }
    ensures bound { unsigned_abs result ≡ number }
{
    let number = number as i128;
    if negative { -number } else { number }
}

fn ten_to(power: u32) -> i128
    requires { power ≤ 31 }
    ensures value { result ≡ pos (10 ^ power) }
    ensures low { pos 1 ≤ℤ result }
    ensures high { result ≤ℤ pos (10 ^ 31) }
{
    10_i128.pow(power)
}

fn in_range(value: i128) -> Result<i64, DecFault>
    ensures { result ≡ in_range value }
{
    if value.unsigned_abs() <= LIM.unsigned_abs() as u128 {
        Ok(value as i64)
    } else {
        Err(DecFault::OutOfUnitRange)
    }
}

// `mantissa * 10^power`, where it lies in range.
fn scaled_up(mantissa: i128, power: u64) -> Result<i64, DecFault>
    requires { unsigned_abs mantissa < 10 ^ 30 }
    ensures { result ≡ in_range (mantissa *ℤ pos (10 ^ power)) }
{
    if mantissa == 0 {
        return Ok(0);
    }
    if power > 12 {
        return Err(DecFault::OutOfUnitRange);
    }
    if mantissa.unsigned_abs() > LIM.unsigned_abs() as u128 {
        return Err(DecFault::OutOfUnitRange);
    }
    in_range(mantissa * ten_to(power as u32))
}

// `mantissa / 10^power`, rounded once, where it lies in range.
fn scaled_down(mantissa: i128, power: u64) -> Result<i64, DecFault>
    requires { unsigned_abs mantissa < 10 ^ 30 }
    ensures { result ≡ in_range (rounded mantissa (pos (10 ^ power))) }
{
    if power > 30 {
        return Ok(0);
    }
    in_range(rnd(mantissa, ten_to(power as u32)))
}

fn in_unit(mantissa: i128, power: i64) -> Result<i64, DecFault>
    requires { unsigned_abs mantissa < 10 ^ 30 }
    ensures { result ≡ in_range (scaled mantissa power) }
{
    if power >= 0 {
        scaled_up(mantissa, power.unsigned_abs())
    } else {
        scaled_down(mantissa, power.unsigned_abs())
    }
}

// More than 30 digits, or an exponent outside -30 to 30.
fn is_long(parts: &Written<'_>) -> bool
    ensures { result ≡ (nat_lt 30 (length parts.now.whole.now + length parts.now.fraction.now) || nat_lt 30 (number_on 0 parts.now.exponent.now)) }
{
    parts.whole.len() + parts.fraction.len() > 30 || exponent_of(parts.exponent) > 30
}

// The number that the digits before and after the point write together.
fn digits_number(whole: &[u8], fraction: &[u8]) -> u128
    requires short { length whole.now + length fraction.now ≤ 30 }
    requires whole { list_all is_ascii_digit whole.now ≡ true }
    requires fraction { list_all is_ascii_digit fraction.now ≡ true }
    ensures value { result ≡ number_on 0 (whole.now ++ fraction.now) }
    ensures bound { result < 10 ^ 30 }
{
    number_on(number_on(0, whole), fraction)
}

fn mantissa_of(parts: &Written<'_>) -> i128
    requires short { length parts.now.whole.now + length parts.now.fraction.now ≤ 30 }
    requires whole { list_all is_ascii_digit parts.now.whole.now ≡ true }
    requires fraction { list_all is_ascii_digit parts.now.fraction.now ≡ true }
    ensures value { result ≡ signed parts.now.negative (number_on 0 (parts.now.whole.now ++ parts.now.fraction.now)) }
    ensures bound { unsigned_abs result < 10 ^ 30 }
{
    signed(parts.negative, digits_number(parts.whole, parts.fraction))
}

fn turned(lowers: bool, exponent: i64) -> i64
    requires low { pos 0 ≤ℤ exponent }
    requires high { exponent ≤ℤ pos 31 }
    ensures value { result ≡ (if lowers then neg_ℤ exponent else exponent) }
    ensures bound { unsigned_abs result ≤ 31 }
{
    if lowers { -exponent } else { exponent }
}

// The power of ten that the mantissa is to be multiplied by.
fn power_of(parts: &Written<'_>, unit: Unit) -> i64
    requires short { length parts.now.fraction.now ≤ 30 }
    requires small { number_on 0 parts.now.exponent.now ≤ 30 }
    ensures { result ≡ signed parts.now.lowers (number_on 0 parts.now.exponent.now) +ℤ unit.ten -ℤ pos (length parts.now.fraction.now) }
{
    let exponent = turned(parts.lowers, exponent_of(parts.exponent));
    exponent + i64::from(unit.ten) - parts.fraction.len() as i64
}

fn value_of(parts: &Written<'_>, unit: Unit) -> Result<i64, DecFault>
    requires whole { list_all is_ascii_digit parts.now.whole.now ≡ true }
    requires fraction { list_all is_ascii_digit parts.now.fraction.now ≡ true }
    ensures { result ≡ value_of (record {
      negative = parts.now.negative;
      whole = parts.now.whole.now;
      fraction = parts.now.fraction.now;
      lowers = parts.now.lowers;
      exponent = parts.now.exponent.now;
    }) unit.ten }
{
    if is_long(parts) {
        return Err(DecFault::TooLong);
    }
    in_unit(mantissa_of(parts), power_of(parts, unit))
}

/// The whole number of a unit that a written decimal gives: its exact value times `10^ten`,
/// rounded once, halves upward. The text is an optional sign, digits with an optional point (at
/// least one digit), and an optional `e` or `E` with an optionally signed whole exponent. Takes no
/// memory. Of several faults the first counts, in the order of [`DecFault`].
#[tactic(auto, unfolding(crate::specs::Decimal::decimal_of))]
pub fn decimal(text: &[u8], unit: Unit) -> Result<i64, DecFault>
    ensures value { result ≡ decimal_of text.now unit.ten }
    ensures within { IfOk result (λ number. unsigned_abs number ≤ limit) }
{
    let Some(parts) = written_of(text) else {
        return Err(DecFault::NotDecimal);
    };
    value_of(&parts, unit)
}
