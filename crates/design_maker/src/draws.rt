//! Drawn numbers.

ghost use Rattle.std.specs.Prelude.{◌≡◌, ◌<◌};
ghost use Rattle.design_maker.specs.Draws.{drawn, chosen};

/// The number behind `x`, modulo 2^64.
pub(crate) fn draw(x: u64) -> u64
    ensures { result ≡ drawn x }
{
    let next = 6_364_136_223_846_793_005u128 * x as u128 + 1_442_695_040_888_963_407;
    (next % (1u128 << 64)) as u64
}

/// A choice among `count`, from 0, by the upper bits of `x`.
pub(crate) fn choose(x: u64, count: u32) -> u32
    requires { 0 < count }
    ensures value { result ≡ chosen x count }
    ensures within { result < count }
{
    ((x >> 33) % count as u64) as u32
}
