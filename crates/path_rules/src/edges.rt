//! Separations of launch and capture edges.

ghost use Rattle.std.specs.Prelude.{◌≡◌, ◌*◌, ◌≤◌, pos, ◌≤ℤ◌, unsigned_abs};
ghost use Rattle.sta_units.specs.Numbers.{limit};
ghost use Rattle.timing_rules.specs.Tests.{offset, common_period, separation};
ghost use Rattle.path_rules.specs.Clocks.{IsClock};

use crate::periods::common_divisor;
use crate::sums::{difference, sum};
use sta_units::Fs;
use timing_defs::{Clock, Kind, Tran};

/// The time of an edge within a clock's period, in fs.
#[tactic(auto, using(sta_units::proofs::Rounding::signed_steps))]
fn edge_time(clock: &Clock, edge: Tran) -> i64
    requires { IsClock clock.now }
    ensures value { result ≡ offset clock.now edge }
    ensures low { pos 0 ≤ℤ result }
    ensures high { unsigned_abs result ≤ 2 * limit }
{
    match edge {
        Tran::Rise => clock.rise.0,
        Tran::Fall => clock.fall.0,
    }
}

/// The greatest common divisor of two periods, in fs.
#[tactic(auto, using(sta_units::proofs::Rounding::signed_steps), unfolding(timing_rules::specs::Tests::common_period))]
fn common_period_of(launch: &Clock, capture: &Clock) -> i64
    requires launch { IsClock launch.now }
    requires capture { IsClock capture.now }
    ensures value { result ≡ pos (common_period launch.now.period.0 capture.now.period.0) }
    ensures positive { pos 1 ≤ℤ result }
    ensures bound { unsigned_abs result ≤ limit }
{
    let launch_period = launch.period.0.unsigned_abs();
    let capture_period = capture.period.0.unsigned_abs();
    common_divisor(launch_period, capture_period) as i64
}

/// The time from a launch edge to the capture edge that it is tested against, in fs: for setup the
/// least positive one over all repetitions of both edges, for hold that of the capture edge one common
/// period before. Takes no memory.
#[tactic(auto, using(sta_units::proofs::Rounding::signed_steps))]
pub fn separation(launch: &Clock, from: Tran, capture: &Clock, to: Tran, kind: Kind) -> Fs
    requires launch { IsClock launch.now }
    requires capture { IsClock capture.now }
    ensures { result.0 ≡ separation kind launch.now from capture.now to }
{
    let common = common_period_of(launch, capture);
    let apart = edge_time(capture, to) - edge_time(launch, from);
    let rest = (apart - 1).rem_euclid(common);
    let setup = sum(rest, 1);
    match kind {
        Kind::Setup => Fs(setup),
        Kind::Hold => Fs(difference(setup, common)),
    }
}
