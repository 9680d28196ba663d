//! The tests of an output port.

ghost use Rattle.std.specs.Prelude.{◌≡◌, ◌++◌, [], ◌∷◌, true, filter, map, IfOk, OnOk};
ghost use Rattle.std.specs.List.{list_all};
ghost use Rattle.sta_units.specs.Numbers.{is_within};
ghost use Rattle.timing_defs.specs.Kinds.{data_split};
ghost use Rattle.timing_rules.specs.Tests.{output_need};
ghost use Rattle.node_tests.specs.Outputs.{is_delay_of, delay_test};

use crate::node_test::NodeTest;
use sta_units::{Fs, Memory};
use std::alloc::Global;
use timing_defs::{Items, Kind, Name, PortDelay, Split, Tran};

/// Whether an output delay is written for a port, a split and a transition.
fn is_delay_of(delay: &PortDelay, port: &Name, split: Split, tran: Tran) -> bool
    ensures { result ≡ is_delay_of port.now split tran delay.now }
{
    delay.port == *port && delay.split.is(split) && delay.tran.is(tran)
}

/// The time that the test of an output delay needs, in fs.
fn output_need(kind: Kind, delay: i64) -> i64
    requires { is_within delay ≡ true }
    ensures { result ≡ output_need kind delay }
{
    match kind {
        Kind::Setup => delay,
        Kind::Hold => -delay,
    }
}

/// The test of an output delay.
fn delay_test(kind: Kind, delay: &PortDelay) -> NodeTest
    requires { is_within delay.now.delay.0 ≡ true }
    ensures { result ≡ delay_test kind delay.now }
{
    NodeTest {
        clock: None,
        need: Fs(output_need(kind, delay.delay.0)),
        capture_clock: delay.clock,
        capture_tran: Tran::Rise,
        early: Fs(0),
        late: Fs(0),
    }
}

/// Adds the test of an output delay, where it is written for this port and transition.
fn add_delay(
    tests: &mut Items<NodeTest>,
    kind: Kind,
    port: &Name,
    tran: Tran,
    delay: &PortDelay,
) -> Result<(), Memory>
    requires { is_within delay.now.delay.0 ≡ true }
    ensures { OnOk result
        (tests.new
        ≡ tests.old ++ map (delay_test kind)
        (filter (is_delay_of port.now (data_split kind) tran) (delay.now ∷ []))) }
{
    if is_delay_of(delay, port, kind.data_split(), tran) {
        tests.push(delay_test(kind, delay))
    } else {
        Ok(())
    }
}

/// The tests of an output port: its output delays for a transition and the data's split, in the order of
/// the constraints.
pub(crate) fn output_tests(
    alloc: Global,
    delays: &[PortDelay],
    kind: Kind,
    port: &Name,
    tran: Tran,
) -> Result<Items<NodeTest>, Memory>
    requires { list_all (λ delay. is_within delay.delay.0) delays.now ≡ true }
    ensures { IfOk result
        (λ tests. tests
        ≡ map (delay_test kind) (filter (is_delay_of port.now (data_split kind) tran) delays.now)) }
{
    let mut tests = Items::new(alloc);
    for delay in delays {
        add_delay(&mut tests, kind, port, tran, delay)?;
    }
    Ok(tests)
}
