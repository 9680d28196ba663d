//! The worst paths over all endpoints.

ghost use Rattle.std.specs.Prelude.{◌≡◌, [], true, Contains, IfOk, IfSome, OnOk};
ghost use Rattle.timing_rules.specs.Questions.{Told};
ghost use Rattle.timing_rules.specs.Reports.{endpoints, AreWorst};
ghost use Rattle.timing_rules.specs.Summaries.{AreDesignPaths};
ghost use Rattle.affected_cone.specs.Analysed.{IsSearch};
ghost use Rattle.design_paths.specs.Ends.{is_ends};
ghost use Rattle.design_paths.specs.Seen.{AreAdded};

use crate::kept::{are_full, keep_all};
use affected_cone::{Analysis, Search, ask};
use netlist_store::Store;
use path_ranking::k_worst;
use sta_units::Memory;
use std::alloc::Global;
use timing_defs::{EndRow, Items, Kind, Name, Path, Query, Report};

/// Which paths are asked for: so many of all, and at most so many of one endpoint.
#[derive(Clone, Copy, Drop)]
struct Asked {
    kind: Kind,
    count: u32,
    each: u32,
}

/// The report on the worst endpoints.
fn rows_report(
    alloc: Global,
    store: &Store,
    analysis: &Analysis,
    kind: Kind,
    most: u32,
) -> Result<Report, Memory>
    requires { store.now ≡ analysis.now.stored }
    ensures { IfOk result (Told store.now.design (Query.Worst kind most)) }
{
    match ask(alloc, store, analysis, &Query::Worst { kind, count: most }) {
        Ok(report) => Ok(report),
        Err(_) => Err(Memory),
    }
}

/// The rows of a report on endpoints.
fn rows_of(report: Report) -> Items<EndRow>
    requires { is_ends report ≡ true }
    ensures { report ≡ Report.Ends result }
{
    match report {
        Report::Ends(rows) => rows,
        _ => unreachable!(),
    }
}

/// At most so many endpoints that have a slack, the worst first.
fn worst_rows(
    alloc: Global,
    store: &Store,
    analysis: &Analysis,
    kind: Kind,
    most: u32,
) -> Result<Items<EndRow>, Memory>
    requires { store.now ≡ analysis.now.stored }
    ensures { IfOk result (AreWorst store.now.design kind most) }
{
    let report = rows_report(alloc, store, analysis, kind, most)?;
    Ok(rows_of(report))
}

/// Puts the worst paths of an endpoint among the worst so far.
fn add_end(
    alloc: Global,
    search: &Search<'_>,
    asked: &Asked,
    pin: &Name,
    kept: &mut Vec<Path>,
) -> Result<(), Memory>
    requires search { IsSearch search.now }
    requires pin { Contains (endpoints search.now.store.now.design) pin.now }
    ensures { OnOk result
        (AreAdded search.now.store.now.design asked.now.kind asked.now.count asked.now.each pin.now
        kept.old.items kept.new.items) }
{
    let Search {
        store,
        graph,
        arrivals,
        tree,
    } = *search;
    let paths = k_worst(
        alloc, store, graph, arrivals, tree, pin, asked.kind, asked.each,
    )?;
    keep_all(kept, paths, asked.count as usize)
}

/// Finds the worst paths of endpoints in the order of their slacks, up to the first endpoint whose
/// slack is above those of as many paths as are asked for. Whether these are the worst of all
/// endpoints.
fn add_ends(
    alloc: Global,
    search: &Search<'_>,
    asked: &Asked,
    rows: &[EndRow],
    most: u32,
    kept: &mut Vec<Path>,
) -> Result<bool, Memory>
    requires search { IsSearch search.now }
    requires rows { AreWorst search.now.store.now.design asked.now.kind most rows.now }
    requires none { kept.old.items ≡ [] }
    ensures { IfOk result
        (λ whole. whole ≡ true
        → AreDesignPaths search.now.store.now.design asked.now.kind asked.now.count asked.now.each
        kept.new.items) }
{
    for row in rows {
        if are_full(kept.as_slice(), asked.count as usize, row.slack) {
            return Ok(true);
        }
        add_end(alloc, search, asked, &row.pin, kept)?;
    }
    Ok(rows.len() < most as usize)
}

/// The worst paths of all endpoints, found among so many worst endpoints; none where these do not
/// tell.
fn found_among(
    alloc: Global,
    store: &Store,
    analysis: &Analysis,
    asked: &Asked,
    most: u32,
) -> Result<Option<Items<Path>>, Memory>
    requires { store.now ≡ analysis.now.stored }
    ensures { IfOk result
        (λ found. IfSome found
        (AreDesignPaths store.now.design asked.now.kind asked.now.count asked.now.each)) }
{
    let rows = worst_rows(alloc, store, analysis, asked.kind, most)?;
    let mut kept = Vec::new(alloc);
    let search = analysis.search(store);
    if add_ends(alloc, &search, asked, rows.as_slice(), most, &mut kept)? {
        Ok(Some(Items::from_vec(kept)))
    } else {
        Ok(None)
    }
}

/// The worst paths over all endpoints for a kind of tests, at most `count` of all and `each` of one
/// endpoint, worst first: ordered by slack (the least over a path's tests) and then by their nodes,
/// each with its slack, credit, edges and times in fs; fewer than `count` exactly where there are
/// fewer. Slacks of endpoints are looked up; searched are the fan-ins of the worst endpoints alone,
/// up to the first whose slack is above those of `count` paths. The one error is want of memory,
/// which is also told of `2^32 - 1` endpoints that have a slack.
pub fn worst_paths(
    alloc: Global,
    store: &Store,
    analysis: &Analysis,
    kind: Kind,
    count: u32,
    each: u32,
) -> Result<Items<Path>, Memory>
    requires { store.now ≡ analysis.now.stored }
    ensures { IfOk result (AreDesignPaths store.now.design kind count each) }
{
    let asked = Asked { kind, count, each };
    if let Some(paths) = found_among(alloc, store, analysis, &asked, count.saturating_add(1))? {
        return Ok(paths);
    }
    match found_among(alloc, store, analysis, &asked, u32::MAX)? {
        Some(paths) => Ok(paths),
        None => Err(Memory),
    }
}
