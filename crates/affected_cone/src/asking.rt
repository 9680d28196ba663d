//! The answers to questions.

ghost use Rattle.std.specs.Prelude.{◌≡◌, true, pos, map, Some, IfOk, IfErr};
ghost use Rattle.timing_rules.specs.Reports.{fs_value};
ghost use Rattle.timing_defs.specs.Documents.{is_plain};
ghost use Rattle.timing_rules.specs.Questions.{Told, query_fault};
ghost use Rattle.affected_cone.specs.Analysed.{slack_in};
ghost use Rattle.affected_cone.specs.Asked.{IsRefusal};
ghost use Rattle.affected_cone.specs.Floors.{floored};
ghost use Rattle.affected_cone.specs.Known.{IsKnown, IsThere, IsSlackReport};

use crate::asked::{end_named, node_named};
use crate::ends::{EndSlacks, find_end, slack_in};
use crate::graph_slacks::graph_slack;
use crate::ranking::worst_ends;
use crate::totals::{as_fs, negative_total, worst_slack_of};
use arrival_engine::Arrivals;
use netlist_store::Store;
use node_rows::{slew_in, times_in};
use path_search::worst_path;
use pessimism_credit::ClockTree;
use pin_graph::Graph;
use required_engine::Required;
use sta_units::Memory;
use std::alloc::Global;
use timing_defs::{EdgeTime, Items, Kind, Name, Query, QueryFault, Report, Split, Tran};

/// What questions are answered from: a store with the parts of its analysis.
#[derive(Clone, Copy, Drop)]
pub(crate) struct Known<'a> {
    pub(crate) store: &'a Store,
    pub(crate) graph: &'a Graph,
    pub(crate) arrivals: &'a Arrivals,
    pub(crate) required: &'a Required,
    pub(crate) tree: &'a ClockTree,
    pub(crate) ends: &'a [EndSlacks],
}

/// A report of times.
fn times_report(alloc: Global, times: &[EdgeTime]) -> Result<Report, Memory>
    ensures { IfOk result (λ report. report ≡ Report.Times times.now) }
{
    Ok(Report::Times(Items::from_slice(alloc, times)?))
}

/// A report of one time, in fs.
fn value_report(value: Option<i64>) -> Report
    ensures { result ≡ fs_value value }
{
    Report::Value(as_fs(value))
}

/// The slew of a node.
fn slew(
    alloc: Global,
    known: &Known<'_>,
    pin: &Name,
    split: Split,
    tran: Tran,
) -> Result<Report, QueryFault>
    requires { IsKnown known.now }
    ensures told { IfOk result (Told known.now.store.now.design (Query.Slew pin.now split tran)) }
    ensures refused { IfErr result
        (IsRefusal (query_fault known.now.store.now.design (Query.Slew pin.now split tran))) }
{
    let node = node_named(alloc, known.store, known.graph, pin, tran)?;
    Ok(value_report(slew_in(known.arrivals.row(node), split)))
}

/// The arrivals of a node.
fn arrivals(
    alloc: Global,
    known: &Known<'_>,
    pin: &Name,
    split: Split,
    tran: Tran,
) -> Result<Report, QueryFault>
    requires { IsKnown known.now }
    ensures told { IfOk result (Told known.now.store.now.design (Query.At pin.now split tran)) }
    ensures refused { IfErr result
        (IsRefusal (query_fault known.now.store.now.design (Query.At pin.now split tran))) }
{
    let node = node_named(alloc, known.store, known.graph, pin, tran)?;
    let report = times_report(alloc, times_in(known.arrivals.row(node), split))?;
    Ok(report)
}

/// The required times of a node.
fn required_times(
    alloc: Global,
    known: &Known<'_>,
    pin: &Name,
    split: Split,
    tran: Tran,
) -> Result<Report, QueryFault>
    requires { IsKnown known.now }
    ensures told { IfOk result (Told known.now.store.now.design (Query.Rat pin.now split tran)) }
    ensures refused { IfErr result
        (IsRefusal (query_fault known.now.store.now.design (Query.Rat pin.now split tran))) }
{
    let node = node_named(alloc, known.store, known.graph, pin, tran)?;
    let report = times_report(alloc, known.required.row(node).times(split).as_slice())?;
    Ok(report)
}

/// The graph slack of a node by its number.
fn slack_at(known: &Known<'_>, node: u32, split: Split) -> Report
    requires known { IsKnown known.now }
    requires node { IsThere known.now node }
    ensures { IsSlackReport known.now node split result }
{
    known.store.laws();
    known.graph.laws();
    let clocks = known.store.constraints().clocks.as_slice();
    let row = known.arrivals.row(node);
    let back = known.required.row(node);
    value_report(graph_slack(clocks, row, back, split))
}

/// The graph slack of a node.
fn slack(
    alloc: Global,
    known: &Known<'_>,
    pin: &Name,
    split: Split,
    tran: Tran,
) -> Result<Report, QueryFault>
    requires { IsKnown known.now }
    ensures told { IfOk result (Told known.now.store.now.design (Query.Slack pin.now split tran)) }
    ensures refused { IfErr result
        (IsRefusal (query_fault known.now.store.now.design (Query.Slack pin.now split tran))) }
{
    let node = node_named(alloc, known.store, known.graph, pin, tran)?;
    Ok(slack_at(known, node, split))
}

/// The slack of an endpoint.
fn end_slack(alloc: Global, known: &Known<'_>, pin: &Name, kind: Kind) -> Result<Report, QueryFault>
    requires { IsKnown known.now }
    ensures told { IfOk result (Told known.now.store.now.design (Query.Endpoint pin.now kind)) }
    ensures refused { IfErr result
        (IsRefusal (query_fault known.now.store.now.design (Query.Endpoint pin.now kind))) }
{
    let number = end_named(alloc, known.store, known.graph, pin, kind)?;
    known.store.laws();
    match find_end(known.ends, number) {
        Some(end) => Ok(value_report(slack_in(&end, kind))),
        None => unreachable!(),
    }
}

/// The worst path to an endpoint.
fn path_to(alloc: Global, known: &Known<'_>, pin: &Name, kind: Kind) -> Result<Report, QueryFault>
    requires { IsKnown known.now }
    ensures told { IfOk result (Told known.now.store.now.design (Query.WorstPath pin.now kind)) }
    ensures refused { IfErr result
        (IsRefusal (query_fault known.now.store.now.design (Query.WorstPath pin.now kind))) }
{
    let Known {
        store,
        graph,
        arrivals,
        tree,
        ..
    } = *known;
    let _number = end_named(alloc, store, graph, pin, kind)?;
    store.laws();
    let path = worst_path(alloc, store, graph, arrivals, tree, pin, kind)?;
    Ok(Report::Shown(path))
}

/// The worst endpoints.
fn worst(alloc: Global, known: &Known<'_>, kind: Kind, count: u32) -> Result<Report, QueryFault>
    requires { IsKnown known.now }
    ensures told { IfOk result (Told known.now.store.now.design (Query.Worst kind count)) }
    ensures refused { IfErr result
        (IsRefusal (query_fault known.now.store.now.design (Query.Worst kind count))) }
{
    known.store.laws();
    let rows = worst_ends(alloc, known.store, known.ends, kind, count)?;
    Ok(Report::Ends(rows))
}

/// The least slack of all endpoints.
fn least_slack(known: &Known<'_>, kind: Kind) -> Report
    requires { IsKnown known.now }
    ensures { Told known.now.store.now.design (Query.Wns kind) result }
{
    known.store.laws();
    value_report(worst_slack_of(known.ends, kind))
}

/// The total negative slack of endpoints, in fs, which is always there.
fn total_of(ends: &[EndSlacks], kind: Kind) -> Option<i64>
    ensures { result ≡ Some (floored (pos 0) (map (slack_in kind) ends.now)) }
{
    Some(negative_total(ends, kind))
}

/// The total negative slack of all endpoints.
fn total_slack(known: &Known<'_>, kind: Kind) -> Report
    requires { IsKnown known.now }
    ensures { Told known.now.store.now.design (Query.Tns kind) result }
{
    known.store.laws();
    value_report(total_of(known.ends, kind))
}

/// Whether a question is a plain one: of one node, one endpoint, or the totals and the worst endpoints of a design.
pub fn is_plain(q: &Query) -> bool
    ensures { result ≡ is_plain q.now }
{
    match q {
        Query::Through { .. }
        | Query::Paths { .. }
        | Query::WhatIf { .. }
        | Query::Advise { .. }
        | Query::Closing { .. } => false,
        Query::Slew { .. }
        | Query::At { .. }
        | Query::Rat { .. }
        | Query::Slack { .. }
        | Query::Endpoint { .. }
        | Query::WorstPath { .. }
        | Query::Wns { .. }
        | Query::Tns { .. }
        | Query::Worst { .. } => true,
    }
}

/// The answer to a plain question.
pub(crate) fn answer(alloc: Global, known: &Known<'_>, q: &Query) -> Result<Report, QueryFault>
    requires known { IsKnown known.now }
    requires plain { is_plain q.now ≡ true }
    ensures told { IfOk result (Told known.now.store.now.design q.now) }
    ensures refused { IfErr result (IsRefusal (query_fault known.now.store.now.design q.now)) }
{
    match q {
        Query::Slew { pin, split, tran } => slew(alloc, known, pin, *split, *tran),
        Query::At { pin, split, tran } => arrivals(alloc, known, pin, *split, *tran),
        Query::Rat { pin, split, tran } => required_times(alloc, known, pin, *split, *tran),
        Query::Slack { pin, split, tran } => slack(alloc, known, pin, *split, *tran),
        Query::Endpoint { pin, kind } => end_slack(alloc, known, pin, *kind),
        Query::WorstPath { pin, kind } => path_to(alloc, known, pin, *kind),
        Query::Wns { kind } => Ok(least_slack(known, *kind)),
        Query::Tns { kind } => Ok(total_slack(known, *kind)),
        Query::Worst { kind, count } => worst(alloc, known, *kind, *count),
        Query::Through { .. }
        | Query::Paths { .. }
        | Query::WhatIf { .. }
        | Query::Advise { .. }
        | Query::Closing { .. } => unreachable!(),
    }
}
