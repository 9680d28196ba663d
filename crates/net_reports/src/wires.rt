//! The resistors of a net.

ghost use Rattle.std.specs.Prelude.{◌≡◌, ◌≤◌, ◌^◌, pos, true, nat_abs};
ghost use Rattle.std.specs.List.{list_all};
ghost use Rattle.std.specs.Option.{option_copied, option_map_or};
ghost use Rattle.timing_defs.specs.Documents.{is_amount};
ghost use Rattle.timing_defs.specs.Wires.{sum_of, res_of};
ghost use Rattle.timing_rules.specs.Connections.{wires_of};
ghost use Rattle.net_reports.specs.Parasitics.{is_fit};

use sta_units::Mo;
use timing_defs::{NetRc, RcRes, WireModel};

/// A resistance that is not negative, in mΩ.
fn amount(res: Mo) -> u64
    ensures { result ≡ nat_abs res.0 }
{
    res.0.unsigned_abs()
}

/// The sum of the resistances of some resistors, in mΩ.
fn total_resistance(ress: &[RcRes]) -> u128
    requires { list_all (λ r. is_amount r.res.0) ress.now ≡ true }
    ensures sum { pos result ≡ sum_of res_of ress.now }
    ensures bound { result ≤ 2 ^ 104 }
{
    let mut total = 0;
    for res in ress {
        total += u128::from(amount(res.res));
    }
    total
}

/// The wires of a net that has parasitics of numbers within their limits.
fn rc_wires(rc: &NetRc) -> WireModel
    requires { is_fit rc.now ≡ true }
    ensures { result ≡ wires_of (Some rc.now) }
{
    if rc.ress.is_empty() {
        return WireModel::Lumped;
    }
    let total = total_resistance(rc.ress.as_slice());
    WireModel::Tree {
        nodes: rc.ress.len() as u64 + 1,
        resistance: Mo(total as i64),
    }
}

/// The wires of a net: ideal without parasitics, lumped without resistors, else a tree with the sum of its
/// resistances in mΩ.
pub(crate) fn wires_of(rc: Option<&NetRc>) -> WireModel
    requires { option_map_or is_fit (option_copied rc) true ≡ true }
    ensures { result ≡ wires_of (option_copied rc.entry) }
{
    match rc {
        Some(rc) => rc_wires(rc),
        None => WireModel::Ideal,
    }
}
