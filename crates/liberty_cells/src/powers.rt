//! Decimals that are powers of ten.

ghost use Rattle.std.specs.Prelude.{◌≡◌, ◌+◌, ◌<◌, ◌≤◌, ◌^◌, ◌++◌, ◌-ℤ◌, ◌==◌, length, pos, unsigned_abs, true, IfSome};
ghost use Rattle.std.specs.List.{prefix_len, list_all};
ghost use Rattle.std.specs.Char.{is_ascii_digit};
ghost use Rattle.std.specs.Result.{is_ok};
ghost use Rattle.sta_units.specs.Decimal.{digits_at, after_digits, has_minus, after_sign, after_point, after_fraction, after_letter, number_on, signed, decimal_of};
ghost use Rattle.liberty_cells.specs.Units.{is_ten_to, power_from_hundred, power_from_one, power_with, parts, plain_power, power_of};

use sta_units::{Unit, decimal};

fn has_minus(text: &[u8]) -> bool
    ensures { result ≡ has_minus text.now }
{
    matches!(text, [b'-', ..])
}

fn after_sign(text: &[u8]) -> &[u8]
    ensures { result.now ≡ after_sign text.now }
{
    match text {
        [b'+' | b'-', rest @ ..] => rest,
        _ => text,
    }
}

fn after_point(text: &[u8]) -> &[u8]
    ensures { result.now ≡ after_point text.now }
{
    match text {
        [b'.', rest @ ..] => rest,
        _ => &[],
    }
}

fn after_letter(text: &[u8]) -> &[u8]
    ensures { result.now ≡ after_letter text.now }
{
    match text {
        [_, rest @ ..] => rest,
        [] => text,
    }
}

fn digit_count(text: &[u8]) -> usize
    ensures value { result ≡ prefix_len is_ascii_digit text.now }
    ensures within { result ≤ length text.now }
{
    text.iter().take_while(|byte| byte.is_ascii_digit()).count()
}

fn digits_at(text: &[u8]) -> &[u8]
    ensures { result.now ≡ digits_at text.now }
{
    &text[..digit_count(text)]
}

fn after_digits(text: &[u8]) -> &[u8]
    ensures { result.now ≡ after_digits text.now }
{
    &text[digit_count(text)..]
}

fn after_fraction(text: &[u8]) -> &[u8]
    ensures { result.now ≡ after_fraction text.now }
{
    match text {
        [b'.', rest @ ..] => after_digits(rest),
        _ => text,
    }
}

/// The number that digits write after those of `start`.
fn number_on(start: u128, digits: &[u8]) -> u128
    requires { number_on start digits.now < 10 ^ 30 }
    ensures { result ≡ number_on start digits.now }
{
    let mut number = start;
    for digit in digits {
        number = 10 * number + u128::from(digit.saturating_sub(b'0'));
    }
    number
}

/// The number that the digits before and behind the point write together.
fn digits_number(whole: &[u8], fraction: &[u8]) -> u128
    requires short { length whole.now + length fraction.now ≤ 30 }
    requires whole { list_all is_ascii_digit whole.now ≡ true }
    requires fraction { list_all is_ascii_digit fraction.now ≡ true }
    ensures value { result ≡ number_on 0 (whole.now ++ fraction.now) }
    ensures bound { result < 10 ^ 30 }
{
    number_on(number_on(0, whole), fraction)
}

/// The exponent that digits write, with a minus or not.
fn signed(lowers: bool, number: u128) -> i64
    requires { number ≤ 30 }
    ensures value { result ≡ signed lowers number }
    ensures bound { unsigned_abs result ≤ 30 }
{
    let exponent = number as i64;
    if lowers { -exponent } else { exponent }
}

/// An exponent less the number of places behind the point.
fn lowered(exponent: i64, places: usize) -> i64
    requires exponent { unsigned_abs exponent ≤ 30 }
    requires places { places ≤ 30 }
    ensures value { result ≡ exponent -ℤ pos places }
    ensures bound { unsigned_abs result ≤ 60 }
{
    exponent - places as i64
}

fn ten_to(power: u32) -> u128
    requires { power ≤ 30 }
    ensures { result ≡ 10 ^ power }
{
    10_u128.pow(power)
}

#[tactic(auto, using(crate::proofs::PowersLemmas::below_power))]
fn is_power(number: u128, power: u64) -> bool
    requires { number < 10 ^ 30 }
    ensures { result ≡ (number == 10 ^ power) }
{
    if power > 30 {
        return false;
    }
    number == ten_to(power as u32)
}

/// Whether a number is ten to this power.
#[tactic(auto, using(crate::proofs::PowersLemmas::is_ten_below, crate::proofs::PowersLemmas::is_ten_above))]
fn is_ten_to(number: u128, power: i64) -> bool
    requires { number < 10 ^ 30 }
    ensures { result ≡ is_ten_to number power }
{
    if power < 0 {
        return false;
    }
    is_power(number, power.unsigned_abs())
}

/// The power of a power of ten from 0.001 to 1000 that is a number times ten to the exponent.
fn power_with(number: u128, exponent: i64) -> Option<i32>
    requires number { number < 10 ^ 30 }
    requires exponent { unsigned_abs exponent ≤ 60 }
    ensures value { result ≡ power_with number exponent }
    ensures within { IfSome result (λ p. unsigned_abs p ≤ 3) }
{
    if is_ten_to(number, -3 - exponent) {
        Some(-3)
    } else if is_ten_to(number, -2 - exponent) {
        Some(-2)
    } else if is_ten_to(number, -1 - exponent) {
        Some(-1)
    } else {
        power_from_one(number, exponent)
    }
}

/// The same from 1 to 1000.
fn power_from_one(number: u128, exponent: i64) -> Option<i32>
    requires number { number < 10 ^ 30 }
    requires exponent { unsigned_abs exponent ≤ 60 }
    ensures value { result ≡ power_from_one number exponent }
    ensures within { IfSome result (λ p. unsigned_abs p ≤ 3) }
{
    if is_ten_to(number, -exponent) {
        Some(0)
    } else if is_ten_to(number, 1 - exponent) {
        Some(1)
    } else {
        power_from_hundred(number, exponent)
    }
}

/// The same from 100 to 1000.
fn power_from_hundred(number: u128, exponent: i64) -> Option<i32>
    requires number { number < 10 ^ 30 }
    requires exponent { unsigned_abs exponent ≤ 60 }
    ensures value { result ≡ power_from_hundred number exponent }
    ensures within { IfSome result (λ p. unsigned_abs p ≤ 3) }
{
    if is_ten_to(number, 2 - exponent) {
        Some(2)
    } else if is_ten_to(number, 3 - exponent) {
        Some(3)
    } else {
        None
    }
}

/// The power of a decimal without a minus.
#[tactic(auto, using(crate::proofs::PowersLemmas::short_whole, crate::proofs::PowersLemmas::short_exponent, sta_units::proofs::Digits::leading_digits))]
fn plain_power(text: &[u8]) -> Option<i32>
    requires { is_ok (decimal_of text.now (pos 0)) ≡ true }
    ensures value { result ≡ plain_power (parts text.now) }
    ensures within { IfSome result (λ p. unsigned_abs p ≤ 3) }
{
    let unsigned = after_sign(text);
    let whole = digits_at(unsigned);
    let rest = after_digits(unsigned);
    let fraction = digits_at(after_point(rest));
    let scale = after_letter(after_fraction(rest));
    let exponent = signed(has_minus(scale), number_on(0, after_sign(scale)));
    power_with(
        digits_number(whole, fraction),
        lowered(exponent, fraction.len()),
    )
}

/// The power of a decimal that is a power of ten from 0.001 to 1000.
#[tactic(auto, using(crate::proofs::PowersLemmas::is_written))]
pub(crate) fn power_of(text: &[u8]) -> Option<i32>
    ensures value { result ≡ power_of text.now }
    ensures within { IfSome result (λ p. unsigned_abs p ≤ 3) }
{
    if decimal(text, Unit { ten: 0 }).is_err() || has_minus(text) {
        return None;
    }
    plain_power(text)
}
