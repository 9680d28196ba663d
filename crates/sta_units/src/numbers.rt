//! Rounded division and whole square roots.

ghost use Rattle.std.specs.Prelude.{◌≡◌, ◌+◌, ◌*◌, ◌^◌, ◌<◌, ◌≤◌, pos, ◌≤ℤ◌, unsigned_abs};
ghost use Rattle.std.specs.Int.{int_div_euclid};
ghost use Rattle.sta_units.specs.Numbers.{rounded, root_of};

/// The greatest absolute value of a computed quantity, in its own unit.
pub const LIM: i64 = 1_000_000_000_000;

/// `n / d` to the nearest whole number, halves upward: `floor((2n + d) / (2d))`.
/// `d` is from 1 to `2^125`, and `n` within `2^125` of 0. Takes no memory.
pub fn rnd(n: i128, d: i128) -> i128
    requires positive { pos 1 ≤ℤ d }
    requires divisor { d ≤ℤ pos (2 ^ 125) }
    requires dividend { unsigned_abs n ≤ 2 ^ 125 }
    ensures value { result ≡ rounded n d }
    ensures bound { unsigned_abs result ≤ unsigned_abs n }
{
    quotient(2 * n + d, 2 * d)
}

/// The whole quotient below, in 64 bits where both numbers fit in them.
fn quotient(n: i128, d: i128) -> i128
    requires { pos 1 ≤ℤ d }
    ensures { result ≡ int_div_euclid n d }
{
    match (i64::try_from(n), i64::try_from(d)) {
        (Ok(narrow), Ok(by)) => i128::from(narrow.div_euclid(by)),
        _ => n.div_euclid(d),
    }
}

/// The greatest `r` with `r * r <= n`, in 64 bits.
fn near_root(n: u64) -> u64
    requires { 0 < n }
    ensures value { result ≡ root_of n }
    ensures below { result * result ≤ n }
    ensures greatest { n < (result + 1) * (result + 1) }
{
    let half = n.ilog2() / 2;
    let mut low: u64 = 1 << half;
    let mut high: u64 = 2 << half;
    while high - low > 1 {
        let middle = (low + high) / 2;
        if middle * middle <= n {
            low = middle;
        } else {
            high = middle;
        }
    }
    low
}

/// The greatest `r` with `r * r <= n`, in 128 bits.
fn wide_root(n: u128) -> u64
    requires { 0 < n }
    ensures value { result ≡ root_of n }
    ensures below { result * result ≤ n }
    ensures greatest { n < (result + 1) * (result + 1) }
{
    let half = n.ilog2() / 2;
    let mut low: u128 = 1 << half;
    let mut high: u128 = 2 << half;
    while high - low > 1 {
        let middle = (low + high) / 2;
        if middle * middle <= n {
            low = middle;
        } else {
            high = middle;
        }
    }
    low as u64
}

/// The greatest `r` with `r * r <= n`, in a step for each binary digit of `r`. Takes no memory.
pub fn root(n: u128) -> u64
    ensures value { result ≡ root_of n }
    ensures below { result * result ≤ n }
    ensures greatest { n < (result + 1) * (result + 1) }
{
    if n == 0 {
        return 0;
    }
    match u64::try_from(n) {
        Ok(near) => near_root(near),
        Err(_) => wide_root(n),
    }
}
