//! The required times of a node, over what lies behind it.

ghost use Rattle.std.specs.Prelude.{◌≡◌, ◌++◌, true, false, not, map, option_map, IfOk, IfErr, OnOk};
ghost use Rattle.std.specs.Option.{option_to_list};
ghost use Rattle.sta_units.specs.Numbers.{is_within};
ghost use Rattle.timing_rules.specs.Rows.{edge_time};
ghost use Rattle.timing_rules.specs.Range.{within_some};
ghost use Rattle.node_rows.specs.Evaluation.{times_on, are_wide_times};
ghost use Rattle.required_engine.specs.Behinds.{AreTabled, over_behind, edge_of};
ghost use Rattle.required_engine.specs.Worked.{IsUnfit};

use crate::arcs_out::{ArcsOut, over_arcs};
use crate::limits::over_tests;
use crate::unfit::Unfit;
use netlist_store::Store;
use node_tests::NodeTest;
use sta_units::{Fs, LIM};
use std::alloc::Global;
use timing_defs::{EdgeTime, EdgeTimes, Split, Tran};

/// What lies behind a node: the tests of an endpoint, or the arcs out of another.
#[derive(Clone, Copy, Drop)]
pub(crate) enum Behind<'a> {
    Tests(&'a [NodeTest]),
    Arcs(ArcsOut<'a>),
}

/// The required time on a launch edge, in fs.
fn over_behind(
    store: &Store,
    split: Split,
    behind: &Behind<'_>,
    clock: u32,
    tran: Tran,
) -> Option<i128>
    requires { AreTabled behind.now }
    ensures { result ≡ over_behind store.now.design split behind.now (clock, tran) }
{
    match behind {
        Behind::Tests(tests) => over_tests(store, split, tests, clock, tran),
        Behind::Arcs(out) => over_arcs(out, split, clock, tran),
    }
}

/// A time within its limit. `Range` exactly where it leaves it.
fn in_range(time: i128) -> Result<i64, Unfit>
    ensures value { IfOk result (λ t. t ≡ time) }
    ensures fine { OnOk result (is_within time ≡ true) }
    ensures err { IfErr result (IsUnfit (not (is_within time))) }
{
    if time.unsigned_abs() <= LIM.unsigned_abs() as u128 {
        Ok(time as i64)
    } else {
        Err(Unfit::Range)
    }
}

/// Adds the time of a launch edge, where there is one. `Range` only where it leaves its limit.
fn add_time(times: &mut EdgeTimes, clock: u32, tran: Tran, time: Option<i128>) -> Result<(), Unfit>
    ensures times { OnOk result
        (times.new ≡ times.old ++ option_to_list (option_map (edge_time (clock, tran)) time)) }
    ensures fine { OnOk result (within_some time ≡ true) }
    ensures err { IfErr result (IsUnfit (not (within_some time))) }
{
    let Some(time) = time else {
        return Ok(());
    };
    let edge = EdgeTime {
        clock,
        tran,
        time: Fs(in_range(time)?),
    };
    times.push(edge)?;
    Ok(())
}

/// Adds the required time on the launch edge of an arrival, where there is one. `Range` only where it
/// leaves its limit.
fn add_required(
    times: &mut EdgeTimes,
    store: &Store,
    split: Split,
    behind: &Behind<'_>,
    arrival: &EdgeTime,
) -> Result<(), Unfit>
    requires { AreTabled behind.now }
    ensures times { OnOk result
        (times.new
        ≡ times.old ++ option_to_list
        (option_map (edge_time (edge_of arrival.now))
        (over_behind store.now.design split behind.now (edge_of arrival.now)))) }
    ensures fine { OnOk result
        (within_some (over_behind store.now.design split behind.now (edge_of arrival.now)) ≡ true) }
    ensures err { IfErr result
        (IsUnfit
        (not (within_some (over_behind store.now.design split behind.now (edge_of arrival.now))))) }
{
    let time = over_behind(store, split, behind, arrival.clock, arrival.tran);
    add_time(times, arrival.clock, arrival.tran, time)
}

/// The required times of a node on the launch edges that arrive there. `Range` only where one leaves its
/// limit.
pub(crate) fn required_times(
    alloc: Global,
    store: &Store,
    split: Split,
    behind: &Behind<'_>,
    arrived: &[EdgeTime],
) -> Result<EdgeTimes, Unfit>
    requires { AreTabled behind.now }
    ensures times { IfOk result
        (λ times. times
        ≡ times_on (over_behind store.now.design split behind.now) (map edge_of arrived.now)) }
    ensures fine { OnOk result
        (are_wide_times (over_behind store.now.design split behind.now) (map edge_of arrived.now)
        ≡ false) }
    ensures err { IfErr result
        (IsUnfit
        (are_wide_times (over_behind store.now.design split behind.now)
        (map edge_of arrived.now))) }
{
    let mut times = EdgeTimes::new(alloc);
    for arrival in arrived {
        add_required(&mut times, store, split, behind, arrival)?;
    }
    Ok(times)
}
