//! The endpoints that fail: how many, and the worst of them.

ghost use Rattle.std.specs.Prelude.{◌≡◌, IfOk, IfSome, take, length};
ghost use Rattle.std.specs.List.{position};
ghost use Rattle.timing_rules.specs.Summaries.{AreFailing};
ghost use Rattle.slack_summaries.specs.Failures.{is_met, negative_count, listed_count, AreWorstRows};

use affected_cone::{Analysis, ask};
use netlist_store::Store;
use sta_units::Memory;
use std::alloc::Global;
use timing_defs::{EndRow, FailingEndpoints, Items, Kind, Query, Report};

/// So many endpoints are listed at most.
const LISTED: usize = 10_000;

/// The worst endpoints, by the answer to the question that asks for them.
#[tactic(auto, using(crate::proofs::FailingLaws::worst_of))]
fn rows_asked(
    alloc: Global,
    store: &Store,
    analysis: &Analysis,
    kind: Kind,
    count: u32,
    q: &Query,
) -> Result<Items<EndRow>, Memory>
    requires store { store.now ≡ analysis.now.stored }
    requires asked { q.now ≡ Query.Worst kind count }
    ensures { IfOk result (AreWorstRows analysis.now.stored.design kind count) }
{
    match ask(alloc, store, analysis, q) {
        Ok(Report::Ends(rows)) => Ok(rows),
        Ok(_) => unreachable!(),
        Err(fault) => {
            drop(fault);
            Err(Memory)
        }
    }
}

/// The worst endpoints, at most so many.
fn worst_rows(
    alloc: Global,
    store: &Store,
    analysis: &Analysis,
    kind: Kind,
    count: u32,
) -> Result<Items<EndRow>, Memory>
    requires { store.now ≡ analysis.now.stored }
    ensures { IfOk result (AreWorstRows analysis.now.stored.design kind count) }
{
    let q = Query::Worst { kind, count };
    let rows = rows_asked(alloc, store, analysis, kind, count, &q);
    drop(q);
    rows
}

/// Whether the slack of an endpoint is not negative.
fn is_met(row: &EndRow) -> bool
    ensures { result ≡ is_met row.now }
{
    !(row.slack.0 < 0)
}

/// The place of the first row whose slack is not negative.
fn first_met(rows: &[EndRow]) -> Option<usize>
    ensures { result ≡ position is_met rows.now }
{
    rows.iter().position(|row| is_met(row))
}

/// How many rows stand before the first whose slack is not negative.
fn negative_count(rows: &[EndRow]) -> usize
    ensures { result ≡ negative_count rows.now }
{
    match first_met(rows) {
        Some(place) => place,
        None => rows.len(),
    }
}

/// How many of so many rows are listed.
fn listed_count(negative: usize) -> usize
    ensures { result ≡ listed_count negative }
{
    if negative < LISTED { negative } else { LISTED }
}

/// The first rows.
fn first_rows(rows: Items<EndRow>, count: usize) -> Items<EndRow>
    ensures { result ≡ take count rows }
{
    let mut rows = rows.into_vec();
    rows.truncate(count);
    Items::from_vec(rows)
}

/// The endpoints that fail, where there are fewer than so many of them.
fn failing_among(
    alloc: Global,
    store: &Store,
    analysis: &Analysis,
    kind: Kind,
    most: u32,
) -> Result<Option<FailingEndpoints>, Memory>
    requires { store.now ≡ analysis.now.stored }
    ensures { IfOk result
        (λ found. IfSome found (AreFailing analysis.now.stored.design kind)) }
{
    store.laws();
    analysis.laws();
    let rows = worst_rows(alloc, store, analysis, kind, most)?;
    let negative = negative_count(rows.as_slice());
    if negative < most as usize {
        Ok(Some(FailingEndpoints {
            count: negative as u64,
            rows: first_rows(rows, listed_count(negative)),
        }))
    } else {
        drop(rows);
        Ok(None)
    }
}

/// How many endpoints have a negative slack, and these from the least slack on, by name where slacks are equal, at most 10,000.
/// Slacks are in fs. Looks through the slacks that the analysis keeps and sorts the endpoints; no path is searched for. The one
/// error is want of memory.
pub fn failing(
    alloc: Global,
    store: &Store,
    analysis: &Analysis,
    kind: Kind,
) -> Result<FailingEndpoints, Memory>
    requires { store.now ≡ analysis.now.stored }
    ensures { IfOk result (AreFailing analysis.now.stored.design kind) }
{
    match failing_among(alloc, store, analysis, kind, LISTED as u32 + 1)? {
        Some(found) => Ok(found),
        None => match failing_among(alloc, store, analysis, kind, u32::MAX)? {
            Some(found) => Ok(found),
            None => Err(Memory),
        },
    }
}
