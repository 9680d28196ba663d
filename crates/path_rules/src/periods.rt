//! Common periods of clocks.

ghost use Rattle.std.specs.Prelude.{◌≡◌, ◌<◌, ◌≤◌};
ghost use Rattle.timing_rules.specs.Tests.{divisor_up_to};

/// The greatest common divisor of two numbers, the first not 0 (Euclid). Takes as many steps as the
/// numbers have digits.
pub(crate) fn common_divisor(a: u64, b: u64) -> u64
    requires { 0 < a }
    ensures value { result ≡ divisor_up_to a a b }
    ensures positive { 0 < result }
    ensures bound { result ≤ a }
{
    let mut x = a;
    let mut y = b;
    while y != 0 {
        let rest = x % y;
        x = y;
        y = rest;
    }
    x
}
