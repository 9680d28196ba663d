//! The answers to questions that closing timing needs.

ghost use Rattle.std.specs.Prelude.{◌≡◌, ◌≤◌, true, IfOk, IfErr};
ghost use Rattle.timing_defs.specs.Documents.{is_closing};
ghost use Rattle.timing_defs.specs.declared.closing.ClosingQuery.TheVariants.{Sizes, Timing, TimingThrough, Failing, Summary, AdviseTns, AdviseSizes};
ghost use Rattle.timing_rules.specs.Checks.{IsSound};
ghost use Rattle.timing_rules.specs.Closing.{closing_fault};
ghost use Rattle.timing_rules.specs.Questions.{Told, query_fault};
ghost use Rattle.affected_cone.specs.Analysed.{IsSearch};
ghost use Rattle.affected_cone.specs.Asked.{IsRefusal};
ghost use Rattle.further_answers.specs.Answers.{IsAnswer};

use crate::asked::pins_there;
use affected_cone::{Analysis, Search, end_named, pin_there};
use clock_summaries::clock_totals;
use design_paths::worst_paths;
use instance_reports::{instance_report, size_report};
use net_reports::answer_net;
use netlist_store::Store;
use path_search::Sources;
use size_advice::{Target, advise_sizes, advise_tns};
use slack_summaries::{failing, skews};
use std::alloc::Global;
use std::thread::Threads;
use timed_paths::{timing, timing_through};
use timing_defs::{
    Candidate, ClosingQuery, ClosingReport, Items, Kind, Name, Query, QueryFault, Report,
};

/// The cells to which an instance may be resized.
fn size_choices(alloc: Global, store: &Store, inst: &Name) -> Result<ClosingReport, QueryFault>
    requires { IsSound store.now.design }
    ensures told { IfOk result (IsAnswer store.now.design (Sizes inst.now)) }
    ensures refused { IfErr result
        (IsRefusal (closing_fault store.now.design (Sizes inst.now))) }
{
    let report = size_report(alloc, store, inst)?;
    Ok(ClosingReport::Sizes(report))
}

/// The worst path of an endpoint stage by stage.
fn timed_path(
    alloc: Global,
    search: &Search<'_>,
    pin: &Name,
    kind: Kind,
) -> Result<ClosingReport, QueryFault>
    requires { IsSearch search.now }
    ensures told { IfOk result (IsAnswer search.now.store.now.design (Timing pin.now kind)) }
    ensures refused { IfErr result
        (IsRefusal (closing_fault search.now.store.now.design (Timing pin.now kind))) }
{
    let Search {
        store,
        graph,
        arrivals,
        tree,
    } = *search;
    let _number = end_named(alloc, store, graph, pin, kind)?;
    store.laws();
    let sources = Sources {
        store,
        graph,
        arrivals,
        tree,
        kind,
    };
    let path = timing(alloc, &sources, pin)?;
    Ok(ClosingReport::Timing(path))
}

/// The worst path of an endpoint through pins, stage by stage.
fn timed_path_through(
    alloc: Global,
    search: &Search<'_>,
    pin: &Name,
    kind: Kind,
    pins: &Items<Name>,
) -> Result<ClosingReport, QueryFault>
    requires { IsSearch search.now }
    ensures told { IfOk result
        (IsAnswer search.now.store.now.design (TimingThrough pin.now kind pins.now)) }
    ensures refused { IfErr result
        (IsRefusal
        (closing_fault search.now.store.now.design (TimingThrough pin.now kind pins.now))) }
{
    let Search {
        store,
        graph,
        arrivals,
        tree,
    } = *search;
    let _pin = pin_there(alloc, store, pin)?;
    pins_there(alloc, store, pins.as_slice())?;
    let _number = end_named(alloc, store, graph, pin, kind)?;
    store.laws();
    let sources = Sources {
        store,
        graph,
        arrivals,
        tree,
        kind,
    };
    let path = timing_through(alloc, &sources, pin, pins)?;
    Ok(ClosingReport::Timing(path))
}

/// The endpoints that fail.
fn failing_endpoints(
    alloc: Global,
    store: &Store,
    analysis: &Analysis,
    kind: Kind,
) -> Result<ClosingReport, QueryFault>
    requires { store.now ≡ analysis.now.stored }
    ensures told { IfOk result (IsAnswer store.now.design (Failing kind)) }
    ensures refused { IfErr result (IsRefusal (closing_fault store.now.design (Failing kind))) }
{
    let report = failing(alloc, store, analysis, kind)?;
    Ok(ClosingReport::Failing(report))
}

/// The totals by capture clock.
fn totals_by_clock(
    alloc: Global,
    store: &Store,
    analysis: &Analysis,
    kind: Kind,
) -> Result<ClosingReport, QueryFault>
    requires { store.now ≡ analysis.now.stored }
    ensures told { IfOk result (IsAnswer store.now.design (Summary kind)) }
    ensures refused { IfErr result (IsRefusal (closing_fault store.now.design (Summary kind))) }
{
    let report = clock_totals(alloc, store, analysis, kind)?;
    Ok(ClosingReport::Summary(report))
}

/// The best resizes by the total negative slack.
fn advised_by_total<H: Threads + Sync>(
    rt: &H,
    alloc: Global,
    store: &Store,
    analysis: &Analysis,
    kind: Kind,
    candidates: &Items<Candidate>,
    workers: u32,
) -> Result<ClosingReport, QueryFault>
    requires store { store.now ≡ analysis.now.stored }
    requires some { 1 ≤ workers }
    requires most { workers ≤ 32 }
    ensures told { IfOk result (IsAnswer store.now.design (AdviseTns kind candidates.now)) }
    ensures refused { IfErr result
        (IsRefusal (closing_fault store.now.design (AdviseTns kind candidates.now))) }
{
    let report = advise_tns(rt, alloc, store, analysis, kind, candidates, workers)?;
    Ok(ClosingReport::Advices(report))
}

/// The best of all sizes of some instances.
fn advised_sizes<H: Threads + Sync>(
    rt: &H,
    alloc: Global,
    store: &Store,
    analysis: &Analysis,
    target: Target,
    insts: &Items<Name>,
    workers: u32,
) -> Result<ClosingReport, QueryFault>
    requires store { store.now ≡ analysis.now.stored }
    requires some { 1 ≤ workers }
    requires most { workers ≤ 32 }
    ensures told { IfOk result
        (IsAnswer store.now.design (AdviseSizes target.kind target.aim insts.now)) }
    ensures refused { IfErr result
        (IsRefusal
        (closing_fault store.now.design (AdviseSizes target.kind target.aim insts.now))) }
{
    let report = advise_sizes(
        rt,
        alloc,
        store,
        analysis,
        target,
        insts.as_slice(),
        workers,
    )?;
    Ok(ClosingReport::Advices(report))
}

/// The report that a question is answered.
fn report_of<H: Threads + Sync>(
    rt: &H,
    alloc: Global,
    store: &Store,
    analysis: &Analysis,
    query: &ClosingQuery,
    workers: u32,
) -> Result<ClosingReport, QueryFault>
    requires store { store.now ≡ analysis.now.stored }
    requires closing { is_closing query.now ≡ true }
    requires some { 1 ≤ workers }
    requires most { workers ≤ 32 }
    ensures told { IfOk result (IsAnswer store.now.design query.now) }
    ensures refused { IfErr result (IsRefusal (closing_fault store.now.design query.now)) }
{
    let search = analysis.search(store);
    match query {
        ClosingQuery::Net { net } => {
            let report = answer_net(alloc, store, search.arrivals, net)?;
            Ok(ClosingReport::Net(report))
        }
        ClosingQuery::Instance { inst } => {
            let report = instance_report(alloc, store, inst)?;
            Ok(ClosingReport::Instance(report))
        }
        ClosingQuery::Sizes { inst } => {
            analysis.laws();
            size_choices(alloc, store, inst)
        }
        ClosingQuery::Timing { pin, kind } => timed_path(alloc, &search, pin, *kind),
        ClosingQuery::TimingThrough { pin, kind, pins } => {
            timed_path_through(alloc, &search, pin, *kind, pins)
        }
        ClosingQuery::WorstPaths { kind, count, each } => {
            let paths = worst_paths(alloc, store, analysis, *kind, *count, *each)?;
            Ok(ClosingReport::WorstPaths(paths))
        }
        ClosingQuery::Failing { kind } => failing_endpoints(alloc, store, analysis, *kind),
        ClosingQuery::Summary { kind } => totals_by_clock(alloc, store, analysis, *kind),
        ClosingQuery::Skew => {
            let rows = skews(alloc, store, analysis)?;
            Ok(ClosingReport::Skew(rows))
        }
        ClosingQuery::AdviseTns { kind, candidates } => {
            advised_by_total(rt, alloc, store, analysis, *kind, candidates, workers)
        }
        ClosingQuery::AdviseSizes { kind, aim, insts } => {
            let target = Target {
                kind: *kind,
                aim: *aim,
            };
            advised_sizes(rt, alloc, store, analysis, target, insts, workers)
        }
    }
}

/// The answer to a question that closing timing needs.
pub(crate) fn closing<H: Threads + Sync>(
    rt: &H,
    alloc: Global,
    store: &Store,
    analysis: &Analysis,
    query: &ClosingQuery,
    workers: u32,
) -> Result<Report, QueryFault>
    requires store { store.now ≡ analysis.now.stored }
    requires closing { is_closing query.now ≡ true }
    requires some { 1 ≤ workers }
    requires most { workers ≤ 32 }
    ensures told { IfOk result (Told store.now.design (Query.Closing query.now)) }
    ensures refused { IfErr result
        (IsRefusal (query_fault store.now.design (Query.Closing query.now))) }
{
    let report = report_of(rt, alloc, store, analysis, query, workers)?;
    Ok(Report::Closing(report))
}
