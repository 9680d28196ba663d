//! Separations moved by multicycles.

ghost use Rattle.std.specs.Prelude.{◌≡◌, ◌≤◌, unsigned_abs};
ghost use Rattle.sta_units.specs.Numbers.{limit};
ghost use Rattle.timing_rules.specs.Rules.{with_cycles};
ghost use Rattle.path_rules.specs.Clocks.{IsClock};

use crate::overrides::Rule;
use crate::sums::{difference, product, sum};
use sta_units::Fs;
use timing_defs::{Clock, Kind};

/// A separation in fs under a rule: a setup multicycle of `N` adds `N - 1` capture periods, and a hold
/// multicycle of `M` takes `M` launch periods from the hold separation. Takes no memory.
#[tactic(auto, using(sta_units::proofs::Rounding::signed_steps))]
pub fn moved(sep: Fs, kind: Kind, rule: Rule, launch: &Clock, capture: &Clock) -> Fs
    requires sep { unsigned_abs sep.0 ≤ limit }
    requires setup_cycles { rule.setup_cycles ≤ 1000 }
    requires hold_cycles { rule.hold_cycles ≤ 1000 }
    requires launch { IsClock launch.now }
    requires capture { IsClock capture.now }
    ensures { result.0
        ≡ with_cycles kind sep.0 rule.setup_cycles rule.hold_cycles launch.now capture.now }
{
    let more = i64::from(rule.setup_cycles) - 1;
    let later = sum(sep.0, product(more, capture.period.0));
    match kind {
        Kind::Setup => Fs(later),
        Kind::Hold => {
            let back = product(i64::from(rule.hold_cycles), launch.period.0);
            Fs(difference(later, back))
        }
    }
}
