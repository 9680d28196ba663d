//! Separations of a path's edges as multicycles move them, and uncertainties of clocks.

ghost use Rattle.std.specs.Prelude.{◌≡◌, ◌<◌, ◌≤◌, ◌*◌, Some, length, slice_get, unsigned_abs};
ghost use Rattle.sta_units.specs.Numbers.{limit, Within};
ghost use Rattle.timing_rules.specs.Tests.{uncertainty_on};
ghost use Rattle.timing_rules.specs.Paths.{moved};
ghost use Rattle.path_rules.specs.Clocks.{IsClock};
ghost use Rattle.path_rules.specs.Exceptions.{rule_of};
ghost use Rattle.path_search.specs.Slacks.{tested_by_rule};

use netlist_store::Store;
use path_rules::{Rule, moved, separation};
use sta_units::Fs;
use timing_defs::{Capture, Clock, Kind, Launch, Tran};

/// A clock by its place in the list of clocks.
fn clock_at(store: &Store, clock: u32) -> &Clock
    requires { clock < length store.now.design.constraints.clocks }
    ensures there { slice_get store.now.design.constraints.clocks clock ≡ Some result.now }
    ensures clock { IsClock result.now }
    ensures setup { Within result.now.unc_setup.0 }
    ensures hold { Within result.now.unc_hold.0 }
{
    store.laws();
    &store.constraints().clocks.as_slice()[clock as usize]
}

/// Whether a rule tests paths of a kind.
pub(crate) fn is_tested(rule: Rule, kind: Kind) -> bool
    ensures { result ≡ tested_by_rule rule kind }
{
    match kind {
        Kind::Setup => rule.setup_tested,
        Kind::Hold => rule.hold_tested,
    }
}

/// The time from a launch edge to a capture edge in fs, as multicycles move it.
pub(crate) fn moved_between(
    store: &Store,
    kind: Kind,
    rule: Rule,
    launch: &Launch,
    from: Tran,
    capture: &Capture,
    to: Tran,
) -> Fs
    requires rule { rule ≡ rule_of store.now.design.constraints launch.now capture.now }
    requires launch { launch.now.clock < length store.now.design.constraints.clocks }
    requires capture { capture.now.clock < length store.now.design.constraints.clocks }
    ensures value { result.0
        ≡ moved store.now.design kind launch.now capture.now (launch.now.clock, from)
        (capture.now.clock, to) }
    ensures bound { unsigned_abs result.0 ≤ 2001 * limit }
{
    store.laws();
    let launching = clock_at(store, launch.clock);
    let capturing = clock_at(store, capture.clock);
    let apart = separation(launching, from, capturing, to, kind);
    moved(apart, kind, rule, launching, capturing)
}

/// The uncertainty of a clock for tests of a kind, in fs.
pub(crate) fn uncertainty_of(store: &Store, kind: Kind, clock: u32) -> Fs
    requires { clock < length store.now.design.constraints.clocks }
    ensures value { result.0 ≡ uncertainty_on store.now.design kind clock }
    ensures bound { Within result.0 }
{
    let clock = clock_at(store, clock);
    match kind {
        Kind::Setup => clock.unc_setup,
        Kind::Hold => clock.unc_hold,
    }
}
