//! The totals by clock.

ghost use Rattle.std.specs.Prelude.{◌≡◌, ◌<◌, length, is_none, count_by, IfOk};
ghost use Rattle.timing_rules.specs.Summaries.{clock_slacks, clock_summary, clock_summaries, IsSummary};
ghost use Rattle.clock_summaries.specs.Totals.{IsSummaryOf};

use crate::captures::{Captured, all_captured};
use crate::totals::clock_summary;
use affected_cone::Analysis;
use netlist_store::Store;
use sta_units::Memory;
use std::alloc::Global;
use timing_defs::{ClockSummary, Items, Kind, TimingSummary};

/// The totals of the clock at a place.
fn clock_row(store: &Store, at: usize, captured: &[Captured]) -> ClockSummary
    requires { at < length store.now.design.constraints.clocks }
    ensures { result ≡ clock_summary at (clock_slacks at captured.now) }
{
    store.laws();
    clock_summary(at as u32, captured)
}

/// The totals of each clock, in the order of the clocks.
fn all_clocks(
    alloc: Global,
    store: &Store,
    captured: &[Captured],
) -> Result<Items<ClockSummary>, Memory>
    ensures { IfOk result
        (λ rows. rows ≡ clock_summaries 0 store.now.design.constraints.clocks captured.now) }
{
    let mut rows = Items::new(alloc);
    for at in 0..store.constraints().clocks.len() {
        rows.push(clock_row(store, at, captured))?;
    }
    Ok(rows)
}

/// Whether no clock captures an endpoint.
fn is_untested(captured: &Captured) -> bool
    ensures { result ≡ is_none captured.now }
{
    captured.is_none()
}

/// How many endpoints no clock captures.
fn untested_count(captured: &[Captured]) -> usize
    ensures { result ≡ count_by is_none captured.now }
{
    captured.iter().filter(|one| is_untested(*one)).count()
}

/// The totals by clock of what captures endpoints.
fn summary_of(alloc: Global, store: &Store, captured: &[Captured]) -> Result<TimingSummary, Memory>
    ensures { IfOk result (IsSummaryOf store.now.design.constraints.clocks captured.now) }
{
    let clocks = all_clocks(alloc, store, captured)?;
    Ok(TimingSummary {
        clocks,
        untested: untested_count(captured) as u64,
    })
}

/// The totals of a kind by capture clock, for each clock in the order of the constraints: how many endpoints have a shown path that
/// the clock captures, how many of these have a negative slack, their least slack and the sum of the negative ones, in fs (or
/// `-(2^63 - 1)` where it is less); and how many endpoints have no tested path. Searches the worst path of each endpoint that has a slack or is not clocked. The one
/// error is want of memory.
pub fn clock_totals(
    alloc: Global,
    store: &Store,
    analysis: &Analysis,
    kind: Kind,
) -> Result<TimingSummary, Memory>
    requires { store.now ≡ analysis.now.stored }
    ensures { IfOk result (IsSummary analysis.now.stored.design kind) }
{
    store.laws();
    let search = analysis.search(store);
    let captured = all_captured(alloc, &search, analysis, kind)?;
    let summary = summary_of(alloc, store, captured.as_slice())?;
    Ok(summary)
}
