//! The answers to questions that closing timing needs.

ghost use Rattle.std.specs.Prelude.{◌≡◌, ◌++◌, OnOk};
ghost use Rattle.timing_defs.specs.Output.{kind_text, asked_name, asked_kind, closing_text, closing_told};

use crate::nets::{push_instance, push_net, push_sizes};
use crate::timed::{
    push_advices, push_failing, push_skews, push_summary, push_timed, push_worst_paths,
};
use sta_units::Memory;
use timing_defs::{Clock, ClosingQuery, ClosingReport, Kind, Query};

/// The name that a question has, of a net, an instance or a pin.
fn asked_name(query: &ClosingQuery) -> &[u8]
    ensures { result.now ≡ asked_name query.now }
{
    match query {
        ClosingQuery::Net { net } => net.as_bytes(),
        ClosingQuery::Instance { inst } => inst.as_bytes(),
        ClosingQuery::Sizes { inst } => inst.as_bytes(),
        ClosingQuery::Timing { pin, .. } => pin.as_bytes(),
        ClosingQuery::TimingThrough { pin, .. } => pin.as_bytes(),
        ClosingQuery::WorstPaths { .. }
        | ClosingQuery::Failing { .. }
        | ClosingQuery::Summary { .. }
        | ClosingQuery::Skew
        | ClosingQuery::AdviseTns { .. }
        | ClosingQuery::AdviseSizes { .. } => b"",
    }
}

/// The word of a kind.
fn kind_word(kind: Kind) -> &'static [u8]
    ensures { result.now ≡ kind_text kind }
{
    match kind {
        Kind::Setup => b"setup",
        Kind::Hold => b"hold",
    }
}

/// The word of the kind that a question has.
fn asked_kind(query: &ClosingQuery) -> &'static [u8]
    ensures { result.now ≡ asked_kind query.now }
{
    match query {
        ClosingQuery::Timing { kind, .. } => kind_word(*kind),
        ClosingQuery::TimingThrough { kind, .. } => kind_word(*kind),
        ClosingQuery::WorstPaths { kind, .. } => kind_word(*kind),
        ClosingQuery::Failing { kind } => kind_word(*kind),
        ClosingQuery::Summary { kind } => kind_word(*kind),
        ClosingQuery::AdviseTns { kind, .. } => kind_word(*kind),
        ClosingQuery::AdviseSizes { kind, .. } => kind_word(*kind),
        ClosingQuery::Net { .. }
        | ClosingQuery::Instance { .. }
        | ClosingQuery::Sizes { .. }
        | ClosingQuery::Skew => b"",
    }
}

/// The answer to a question that closing timing needs, by the question.
fn push_closing(
    out: &mut Vec<u8>,
    clocks: &[Clock],
    query: &ClosingQuery,
    report: &ClosingReport,
) -> Result<(), Memory>
    ensures { OnOk result
        (out.new.items ≡ out.old.items ++ closing_text clocks.now query.now report.now) }
{
    let name = asked_name(query);
    let kind = asked_kind(query);
    match report {
        ClosingReport::Net(net) => push_net(out, name, net),
        ClosingReport::Instance(instance) => push_instance(out, name, instance),
        ClosingReport::Sizes(sizes) => push_sizes(out, name, sizes),
        ClosingReport::Timing(timed) => push_timed(out, clocks, kind, name, timed),
        ClosingReport::WorstPaths(paths) => push_worst_paths(out, clocks, kind, paths.as_slice()),
        ClosingReport::Failing(failing) => push_failing(out, failing),
        ClosingReport::Summary(summary) => push_summary(out, clocks, kind, summary),
        ClosingReport::Skew(rows) => push_skews(out, clocks, rows.as_slice()),
        ClosingReport::Advices(advice) => push_advices(out, advice),
    }
}

/// The answer by a question; nothing where that is another one.
pub(crate) fn push_closing_told(
    out: &mut Vec<u8>,
    clocks: &[Clock],
    query: &Query,
    report: &ClosingReport,
) -> Result<(), Memory>
    ensures { OnOk result
        (out.new.items ≡ out.old.items ++ closing_told clocks.now query.now report.now) }
{
    match query {
        Query::Closing { query } => push_closing(out, clocks, query, report),
        Query::Slew { .. }
        | Query::At { .. }
        | Query::Rat { .. }
        | Query::Slack { .. }
        | Query::Endpoint { .. }
        | Query::WorstPath { .. }
        | Query::Wns { .. }
        | Query::Tns { .. }
        | Query::Worst { .. }
        | Query::Through { .. }
        | Query::Paths { .. }
        | Query::WhatIf { .. }
        | Query::Advise { .. } => Ok(()),
    }
}
