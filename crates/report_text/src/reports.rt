//! The lines of reports.

ghost use Rattle.std.specs.Prelude.{◌≡◌, ◌++◌, OnOk, codes, length};
ghost use Rattle.std.specs.List.{flat_map};
ghost use Rattle.sta_units.specs.Picoseconds.{ps_text};
ghost use Rattle.timing_defs.specs.declared.reports.Report.TheVariants.{Shown};
ghost use Rattle.timing_defs.specs.Output.{line, word, number, time_text, kind_text, clock_text, edge_text, query_word, edge_time_text, path_node_text, path_head, path_of, path_text, end_text, advice_text, single_text, report_text};

use crate::closing::push_closing_told;
use crate::drafts::push_drafted;
use crate::pieces::{
    push, push_count, push_end, push_kind, push_number, push_ps, push_time, push_tran,
    push_tran_time, push_word,
};
use sta_units::{Fs, Memory};
use timing_defs::{
    Advice, Clock, EdgeTime, EndRow, Kind, Name, Path, PathNode, Query, Report, Tran,
};

/// A blank and the name of the clock at a place, from 0; no name where there is no such clock.
fn push_clock(out: &mut Vec<u8>, clocks: &[Clock], place: u32) -> Result<(), Memory>
    ensures { OnOk result (out.new.items ≡ out.old.items ++ word (clock_text clocks.now place)) }
{
    match clocks.get(place as usize) {
        Some(clock) => push_word(out, clock.name.as_bytes()),
        None => push(out, b" "),
    }
}

/// A launch or capture edge: its clock and its transition.
pub(crate) fn push_edge(
    out: &mut Vec<u8>,
    clocks: &[Clock],
    clock: u32,
    tran: Tran,
) -> Result<(), Memory>
    ensures { OnOk result (out.new.items ≡ out.old.items ++ edge_text clocks.now clock tran) }
{
    push_clock(out, clocks, clock)?;
    push_tran(out, tran)
}

/// A launch edge and the time there.
fn push_edge_time(out: &mut Vec<u8>, clocks: &[Clock], time: &EdgeTime) -> Result<(), Memory>
    ensures { OnOk result (out.new.items ≡ out.old.items ++ edge_time_text clocks.now time.now) }
{
    push_edge(out, clocks, time.clock, time.tran)?;
    push_ps(out, time.time)
}

#[tactic(auto, using(std::proofs::lemmas::List::drop_more))]
fn push_edge_times(out: &mut Vec<u8>, clocks: &[Clock], times: &[EdgeTime]) -> Result<(), Memory>
    ensures { OnOk result
        (out.new.items ≡ out.old.items ++ flat_map (edge_time_text clocks.now) times.now) }
{
    for time in times {
        push_edge_time(out, clocks, time)?;
    }
    Ok(())
}

/// The line of a node of a path: its pin, its transition and its arrival.
fn push_path_node(out: &mut Vec<u8>, node: &PathNode) -> Result<(), Memory>
    ensures { OnOk result (out.new.items ≡ out.old.items ++ path_node_text node.now) }
{
    push(out, node.pin.as_bytes())?;
    push_tran_time(out, node.tran, node.time)
}

#[tactic(auto, using(std::proofs::lemmas::List::drop_more))]
pub(crate) fn push_path_nodes(out: &mut Vec<u8>, nodes: &[PathNode]) -> Result<(), Memory>
    ensures { OnOk result (out.new.items ≡ out.old.items ++ flat_map path_node_text nodes.now) }
{
    for node in nodes {
        push_path_node(out, node)?;
    }
    Ok(())
}

/// The slack and the credit of a path.
fn push_slack(out: &mut Vec<u8>, slack: Fs, credit: Fs) -> Result<(), Memory>
    ensures { OnOk result
        (out.new.items
        ≡ out.old.items ++
        (codes " slack" ++ word (ps_text slack.0) ++ codes " credit" ++ word (ps_text credit.0))) }
{
    push(out, b" slack")?;
    push_ps(out, slack)?;
    push(out, b" credit")?;
    push_ps(out, credit)
}

/// The launch and the capture edge of a path.
fn push_edges(out: &mut Vec<u8>, clocks: &[Clock], path: &Path) -> Result<(), Memory>
    ensures { OnOk result
        (out.new.items
        ≡ out.old.items ++
        (codes " from" ++ edge_text clocks.now path.now.launch_clock path.now.launch_tran
        ++ codes " to" ++ edge_text clocks.now path.now.capture_clock path.now.capture_tran)) }
{
    push(out, b" from")?;
    push_edge(out, clocks, path.launch_clock, path.launch_tran)?;
    push(out, b" to")?;
    push_edge(out, clocks, path.capture_clock, path.capture_tran)
}

/// What the first line of a path says of the path itself.
pub(crate) fn push_path_head(out: &mut Vec<u8>, clocks: &[Clock], path: &Path) -> Result<(), Memory>
    ensures { OnOk result (out.new.items ≡ out.old.items ++ path_head clocks.now path.now) }
{
    push_slack(out, path.slack, path.credit)?;
    push_edges(out, clocks, path)?;
    push_count(out, b" nodes", path.nodes.len() as u64)
}

fn push_end_of(out: &mut Vec<u8>, kind: Kind, pin: &Name) -> Result<(), Memory>
    ensures { OnOk result
        (out.new.items ≡ out.old.items ++ (word (kind_text kind) ++ word pin.now)) }
{
    push_kind(out, kind)?;
    push_word(out, pin.as_bytes())
}

/// What the first line of a path says of the question: its kind and its endpoint.
fn push_path_of(out: &mut Vec<u8>, query: &Query) -> Result<(), Memory>
    ensures { OnOk result (out.new.items ≡ out.old.items ++ path_of query.now) }
{
    match query {
        Query::WorstPath { pin, kind } => push_end_of(out, *kind, pin),
        Query::Through { pin, kind, pins: _ } => push_end_of(out, *kind, pin),
        Query::Paths {
            pin,
            kind,
            count: _,
        } => push_end_of(out, *kind, pin),
        Query::Slew { .. }
        | Query::At { .. }
        | Query::Rat { .. }
        | Query::Slack { .. }
        | Query::Endpoint { .. }
        | Query::Wns { .. }
        | Query::Tns { .. }
        | Query::Worst { .. }
        | Query::WhatIf { .. }
        | Query::Advise { .. }
        | Query::Closing { .. } => Ok(()),
    }
}

fn push_path(out: &mut Vec<u8>, clocks: &[Clock], query: &Query, path: &Path) -> Result<(), Memory>
    ensures { OnOk result
        (out.new.items ≡ out.old.items ++ path_text clocks.now query.now path.now) }
{
    push(out, b"path")?;
    push_path_of(out, query)?;
    push_path_head(out, clocks, path)?;
    push_end(out)?;
    push_path_nodes(out, path.nodes.as_slice())
}

/// The path of least slack, or that there is none.
fn push_shown(
    out: &mut Vec<u8>,
    clocks: &[Clock],
    query: &Query,
    path: &Option<Path>,
) -> Result<(), Memory>
    ensures { OnOk result
        (out.new.items ≡ out.old.items ++ single_text clocks.now query.now (Shown path.now)) }
{
    match path {
        None => push(out, b"path none\n"),
        Some(path) => push_path(out, clocks, query, path),
    }
}

/// The line of an endpoint: its pin and its slack.
fn push_end_row(out: &mut Vec<u8>, row: &EndRow) -> Result<(), Memory>
    ensures { OnOk result (out.new.items ≡ out.old.items ++ end_text row.now) }
{
    push(out, row.pin.as_bytes())?;
    push_ps(out, row.slack)?;
    push_end(out)
}

#[tactic(auto, using(std::proofs::lemmas::List::drop_more))]
pub(crate) fn push_end_rows(out: &mut Vec<u8>, rows: &[EndRow]) -> Result<(), Memory>
    ensures { OnOk result (out.new.items ≡ out.old.items ++ flat_map end_text rows.now) }
{
    for row in rows {
        push_end_row(out, row)?;
    }
    Ok(())
}

/// The worst endpoints: how many, and a line for each.
fn push_ends(out: &mut Vec<u8>, rows: &[EndRow]) -> Result<(), Memory>
    ensures { OnOk result
        (out.new.items
        ≡ out.old.items ++
        (line (codes "worst" ++ number (length rows.now)) ++ flat_map end_text rows.now)) }
{
    push_count(out, b"worst", rows.len() as u64)?;
    push_end(out)?;
    push_end_rows(out, rows)
}

/// The word of a question.
fn push_query_word(out: &mut Vec<u8>, query: &Query) -> Result<(), Memory>
    ensures { OnOk result (out.new.items ≡ out.old.items ++ query_word query.now) }
{
    match query {
        Query::Slew { .. } => push(out, b"slew"),
        Query::At { .. } => push(out, b"at"),
        Query::Rat { .. } => push(out, b"rat"),
        Query::Slack { .. } => push(out, b"slack"),
        Query::Endpoint { .. } => push(out, b"endpoint"),
        Query::WorstPath { .. } => push(out, b"path"),
        Query::Wns { .. } => push(out, b"wns"),
        Query::Tns { .. } => push(out, b"tns"),
        Query::Worst { .. } => push(out, b"worst"),
        Query::Through { .. } => push(out, b"path"),
        Query::Paths { .. } => push(out, b"paths"),
        Query::WhatIf { .. } => push(out, b"what_if"),
        Query::Advise { .. } => push(out, b"advice"),
        Query::Closing { .. } => Ok(()),
    }
}

/// The word of a question and one time, or `none`.
fn push_value(out: &mut Vec<u8>, query: &Query, time: Option<Fs>) -> Result<(), Memory>
    ensures { OnOk result
        (out.new.items ≡ out.old.items ++ line (query_word query.now ++ word (time_text time))) }
{
    push_query_word(out, query)?;
    push_time(out, time)?;
    push_end(out)
}

/// The word of a question, how many launch edges have a time, and these.
fn push_times(
    out: &mut Vec<u8>,
    clocks: &[Clock],
    query: &Query,
    times: &[EdgeTime],
) -> Result<(), Memory>
    ensures { OnOk result
        (out.new.items
        ≡ out.old.items ++ line
        (query_word query.now ++ number (length times.now) ++ flat_map (edge_time_text clocks.now)
        times.now)) }
{
    push_query_word(out, query)?;
    push_number(out, times.len() as u64)?;
    push_edge_times(out, clocks, times)?;
    push_end(out)
}

#[tactic(auto, using(std::proofs::lemmas::List::drop_more))]
fn push_each_path(
    out: &mut Vec<u8>,
    clocks: &[Clock],
    query: &Query,
    paths: &[Path],
) -> Result<(), Memory>
    ensures { OnOk result
        (out.new.items ≡ out.old.items ++ flat_map (path_text clocks.now query.now) paths.now) }
{
    for path in paths {
        push_path(out, clocks, query, path)?;
    }
    Ok(())
}

/// The worst paths of an endpoint: how many, and each.
fn push_paths(
    out: &mut Vec<u8>,
    clocks: &[Clock],
    query: &Query,
    paths: &[Path],
) -> Result<(), Memory>
    ensures { OnOk result
        (out.new.items
        ≡ out.old.items ++
        (line (codes "paths" ++ number (length paths.now)) ++ flat_map
        (path_text clocks.now query.now) paths.now)) }
{
    push_count(out, b"paths", paths.len() as u64)?;
    push_end(out)?;
    push_each_path(out, clocks, query, paths)
}

fn push_advice(out: &mut Vec<u8>, advice: &Advice) -> Result<(), Memory>
    ensures { OnOk result
        (out.new.items
        ≡ out.old.items ++ line
        (codes "advice" ++ word advice.now.inst ++ word advice.now.cell ++ word
        (ps_text advice.now.wns.0))) }
{
    push(out, b"advice")?;
    push_word(out, advice.inst.as_bytes())?;
    push_word(out, advice.cell.as_bytes())?;
    push_ps(out, advice.wns)?;
    push_end(out)
}

/// The advised resize with its worst slack, or that there is none.
fn push_advised(out: &mut Vec<u8>, advice: &Option<Advice>) -> Result<(), Memory>
    ensures { OnOk result (out.new.items ≡ out.old.items ++ advice_text advice.now) }
{
    match advice {
        None => push(out, b"advice none\n"),
        Some(advice) => push_advice(out, advice),
    }
}

/// A report by its question; nothing of the rows of a draft.
pub(crate) fn push_single(
    out: &mut Vec<u8>,
    clocks: &[Clock],
    query: &Query,
    report: &Report,
) -> Result<(), Memory>
    ensures { OnOk result
        (out.new.items ≡ out.old.items ++ single_text clocks.now query.now report.now) }
{
    match report {
        Report::Value(time) => push_value(out, query, *time),
        Report::Times(times) => push_times(out, clocks, query, times.as_slice()),
        Report::Shown(path) => push_shown(out, clocks, query, path),
        Report::Ends(rows) => push_ends(out, rows.as_slice()),
        Report::Paths(paths) => push_paths(out, clocks, query, paths.as_slice()),
        Report::Drafted(_) => Ok(()),
        Report::Advised(advice) => push_advised(out, advice),
        Report::Closing(report) => push_closing_told(out, clocks, query, report),
    }
}

/// A report by its question, the rows of a draft too.
pub(crate) fn push_report(
    out: &mut Vec<u8>,
    clocks: &[Clock],
    query: &Query,
    report: &Report,
) -> Result<(), Memory>
    ensures { OnOk result
        (out.new.items ≡ out.old.items ++ report_text clocks.now query.now report.now) }
{
    match report {
        Report::Drafted(rows) => push_drafted(out, clocks, rows.as_slice()),
        Report::Value(_)
        | Report::Times(_)
        | Report::Shown(_)
        | Report::Ends(_)
        | Report::Paths(_)
        | Report::Advised(_)
        | Report::Closing(_) => push_single(out, clocks, query, report),
    }
}
