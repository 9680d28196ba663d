//! The lines of paths stage by stage, of the worst paths and of the totals of a design.

ghost use Rattle.std.specs.Prelude.{◌≡◌, ◌++◌, OnOk, codes, length};
ghost use Rattle.std.specs.List.{flat_map};
ghost use Rattle.sta_units.specs.Picoseconds.{ps_text};
ghost use Rattle.timing_defs.specs.Output.{line, word, number, clock_text, driven_text, stage_text, part_text, sort_text, edge_part, parts_text, timed_head, timed_text, path_head, last_pin, ended_text, worst_paths_text, failing_text, clock_summary_text, summary_text, extreme_text, skew_text, skews_text, totals_text, size_advice_text, advices_text};

use crate::nets::push_amount;
use crate::pieces::{
    push, push_count, push_end, push_number, push_ps, push_time, push_tran, push_word,
};
use crate::reports::{push_edge, push_end_rows, push_path_head, push_path_nodes};
use sta_units::{Fs, Memory};
use timing_defs::{
    AdviceReport, Clock, ClockSummary, DrivenNet, FailingEndpoints, Items, Path, PathNode,
    PathStage, RequiredParts, SizeAdvice, SkewReport, SlackTotals, TestSort, TimedPath,
    TimingSummary,
};

fn push_driven_net(out: &mut Vec<u8>, driven: &DrivenNet) -> Result<(), Memory>
    ensures { OnOk result
        (out.new.items
        ≡ out.old.items ++
        (codes " net" ++ word driven.now.net ++ word (ps_text driven.now.load.0) ++ number
        driven.now.fanout)) }
{
    push(out, b" net")?;
    push_word(out, driven.net.as_bytes())?;
    push_amount(out, driven.load.0)?;
    push_number(out, driven.fanout)
}

/// What a pin drives; nothing of a sink.
fn push_driven(out: &mut Vec<u8>, drives: &Option<DrivenNet>) -> Result<(), Memory>
    ensures { OnOk result (out.new.items ≡ out.old.items ++ driven_text drives.now) }
{
    match drives {
        None => Ok(()),
        Some(driven) => push_driven_net(out, driven),
    }
}

/// The line of a node of a path: its arrival, delay and slew, and what it drives.
fn push_stage(out: &mut Vec<u8>, stage: &PathStage) -> Result<(), Memory>
    ensures { OnOk result (out.new.items ≡ out.old.items ++ stage_text stage.now) }
{
    push(out, stage.pin.as_bytes())?;
    push_tran(out, stage.tran)?;
    push_ps(out, stage.time)?;
    push_time(out, stage.delay)?;
    push_time(out, stage.slew)?;
    push_driven(out, &stage.drives)?;
    push_end(out)
}

#[tactic(auto, using(std::proofs::lemmas::List::drop_more))]
fn push_stages(out: &mut Vec<u8>, stages: &[PathStage]) -> Result<(), Memory>
    ensures { OnOk result (out.new.items ≡ out.old.items ++ flat_map stage_text stages.now) }
{
    for stage in stages {
        push_stage(out, stage)?;
    }
    Ok(())
}

/// The line of a part of the required time.
fn push_part(out: &mut Vec<u8>, name: &[u8], time: Fs) -> Result<(), Memory>
    ensures { OnOk result (out.new.items ≡ out.old.items ++ part_text name.now time) }
{
    push(out, name)?;
    push_ps(out, time)?;
    push_end(out)
}

/// The line of the time of a test.
fn push_test(out: &mut Vec<u8>, sort: TestSort, time: Fs) -> Result<(), Memory>
    ensures { OnOk result (out.new.items ≡ out.old.items ++ part_text (sort_text sort) time) }
{
    match sort {
        TestSort::SetupTime => push_part(out, b"setup_time", time),
        TestSort::HoldTime => push_part(out, b"hold_time", time),
        TestSort::OutputDelay => push_part(out, b"output_delay", time),
    }
}

/// The line of the capture edge and its separation.
fn push_edge_part(out: &mut Vec<u8>, clocks: &[Clock], path: &Path, time: Fs) -> Result<(), Memory>
    ensures { OnOk result (out.new.items ≡ out.old.items ++ edge_part clocks.now path.now time) }
{
    push(out, b"capture_edge")?;
    push_edge(out, clocks, path.capture_clock, path.capture_tran)?;
    push_ps(out, time)?;
    push_end(out)
}

/// The lines of the parts that add up to a required time, behind that of the capture edge.
fn push_addends(out: &mut Vec<u8>, parts: &RequiredParts) -> Result<(), Memory>
    ensures { OnOk result
        (out.new.items
        ≡ out.old.items ++
        (part_text (codes "capture_arrival") parts.now.clock ++ part_text
        (sort_text parts.now.sort) parts.now.test ++ part_text (codes "uncertainty")
        parts.now.uncertainty ++ part_text (codes "credit") parts.now.credit)) }
{
    push_part(out, b"capture_arrival", parts.clock)?;
    push_test(out, parts.sort, parts.test)?;
    push_part(out, b"uncertainty", parts.uncertainty)?;
    push_part(out, b"credit", parts.credit)
}

/// The lines of the parts of a required time behind that of the capture edge.
fn push_parts(out: &mut Vec<u8>, parts: &RequiredParts) -> Result<(), Memory>
    ensures { OnOk result (out.new.items ≡ out.old.items ++ parts_text parts.now) }
{
    push_addends(out, parts)?;
    push_part(out, b"required", parts.required)?;
    push_part(out, b"arrival", parts.arrival)?;
    push_part(out, b"slack", parts.slack)
}

fn push_timed_head(
    out: &mut Vec<u8>,
    clocks: &[Clock],
    kind: &[u8],
    pin: &[u8],
    timed: &TimedPath,
) -> Result<(), Memory>
    ensures { OnOk result
        (out.new.items ≡ out.old.items ++ timed_head clocks.now kind.now pin.now timed.now) }
{
    push(out, b"timing")?;
    push_word(out, kind)?;
    push_word(out, pin)?;
    push_path_head(out, clocks, &timed.path)?;
    push_count(out, b" capture", timed.capture.len() as u64)?;
    push(out, b" parts 8\n")
}

fn push_timed_path(
    out: &mut Vec<u8>,
    clocks: &[Clock],
    kind: &[u8],
    pin: &[u8],
    timed: &TimedPath,
) -> Result<(), Memory>
    ensures { OnOk result
        (out.new.items
        ≡ out.old.items ++
        (timed_head clocks.now kind.now pin.now timed.now ++ flat_map stage_text timed.now.stages ++
        flat_map stage_text timed.now.capture ++ edge_part clocks.now timed.now.path
        timed.now.parts.separation ++ parts_text timed.now.parts)) }
{
    push_timed_head(out, clocks, kind, pin, timed)?;
    push_stages(out, timed.stages.as_slice())?;
    push_stages(out, timed.capture.as_slice())?;
    push_edge_part(out, clocks, &timed.path, timed.parts.separation)?;
    push_parts(out, &timed.parts)
}

/// A path stage by stage with the parts of its required time, or that there is none.
pub(crate) fn push_timed(
    out: &mut Vec<u8>,
    clocks: &[Clock],
    kind: &[u8],
    pin: &[u8],
    timed: &Option<TimedPath>,
) -> Result<(), Memory>
    ensures { OnOk result
        (out.new.items ≡ out.old.items ++ timed_text clocks.now kind.now pin.now timed.now) }
{
    match timed {
        None => push(out, b"timing none\n"),
        Some(timed) => push_timed_path(out, clocks, kind, pin, timed),
    }
}

/// A blank and the pin of the last node.
fn push_last_pin(out: &mut Vec<u8>, nodes: &Items<PathNode>) -> Result<(), Memory>
    ensures { OnOk result (out.new.items ≡ out.old.items ++ word (last_pin nodes.now)) }
{
    match nodes.get(nodes.len().saturating_sub(1)) {
        None => push(out, b" "),
        Some(node) => push_word(out, node.pin.as_bytes()),
    }
}

/// The line of a path with its endpoint.
fn push_ended_line(
    out: &mut Vec<u8>,
    clocks: &[Clock],
    kind: &[u8],
    path: &Path,
) -> Result<(), Memory>
    ensures { OnOk result
        (out.new.items
        ≡ out.old.items ++ line
        (codes "path" ++ word kind.now ++ word (last_pin path.now.nodes) ++ path_head clocks.now
        path.now)) }
{
    push(out, b"path")?;
    push_word(out, kind)?;
    push_last_pin(out, &path.nodes)?;
    push_path_head(out, clocks, path)?;
    push_end(out)
}

/// A path with its endpoint: a line, and one for each node.
fn push_ended(out: &mut Vec<u8>, clocks: &[Clock], kind: &[u8], path: &Path) -> Result<(), Memory>
    ensures { OnOk result
        (out.new.items ≡ out.old.items ++ ended_text clocks.now kind.now path.now) }
{
    push_ended_line(out, clocks, kind, path)?;
    push_path_nodes(out, path.nodes.as_slice())
}

#[tactic(auto, using(std::proofs::lemmas::List::drop_more))]
fn push_ended_paths(
    out: &mut Vec<u8>,
    clocks: &[Clock],
    kind: &[u8],
    paths: &[Path],
) -> Result<(), Memory>
    ensures { OnOk result
        (out.new.items ≡ out.old.items ++ flat_map (ended_text clocks.now kind.now) paths.now) }
{
    for path in paths {
        push_ended(out, clocks, kind, path)?;
    }
    Ok(())
}

/// The worst paths of a design: how many, and each.
pub(crate) fn push_worst_paths(
    out: &mut Vec<u8>,
    clocks: &[Clock],
    kind: &[u8],
    paths: &[Path],
) -> Result<(), Memory>
    ensures { OnOk result
        (out.new.items ≡ out.old.items ++ worst_paths_text clocks.now kind.now paths.now) }
{
    push_count(out, b"worst_paths", paths.len() as u64)?;
    push_end(out)?;
    push_ended_paths(out, clocks, kind, paths)
}

/// The endpoints that fail: how many, and a line for each that is listed.
pub(crate) fn push_failing(out: &mut Vec<u8>, failing: &FailingEndpoints) -> Result<(), Memory>
    ensures { OnOk result (out.new.items ≡ out.old.items ++ failing_text failing.now) }
{
    push_count(out, b"failing", failing.count)?;
    push_count(out, b" listed", failing.rows.len() as u64)?;
    push_end(out)?;
    push_end_rows(out, failing.rows.as_slice())
}

/// The name of the clock at a place, from 0; no name where there is no such clock.
fn push_clock_name(out: &mut Vec<u8>, clocks: &[Clock], place: u32) -> Result<(), Memory>
    ensures { OnOk result (out.new.items ≡ out.old.items ++ clock_text clocks.now place) }
{
    match clocks.get(place as usize) {
        Some(clock) => push(out, clock.name.as_bytes()),
        None => Ok(()),
    }
}

/// The line of a clock: its endpoints, those that fail, worst and total slack.
fn push_clock_row(out: &mut Vec<u8>, clocks: &[Clock], row: &ClockSummary) -> Result<(), Memory>
    ensures { OnOk result (out.new.items ≡ out.old.items ++ clock_summary_text clocks.now row.now) }
{
    push_clock_name(out, clocks, row.clock)?;
    push_count(out, b" tested", row.tested)?;
    push_count(out, b" failing", row.failing)?;
    push(out, b" worst")?;
    push_time(out, row.wns)?;
    push(out, b" total")?;
    push_ps(out, row.tns)?;
    push_end(out)
}

#[tactic(auto, using(std::proofs::lemmas::List::drop_more))]
fn push_clock_rows(out: &mut Vec<u8>, clocks: &[Clock], rows: &[ClockSummary]) -> Result<(), Memory>
    ensures { OnOk result
        (out.new.items ≡ out.old.items ++ flat_map (clock_summary_text clocks.now) rows.now) }
{
    for row in rows {
        push_clock_row(out, clocks, row)?;
    }
    Ok(())
}

/// The totals by clock: a line, and one for each clock.
pub(crate) fn push_summary(
    out: &mut Vec<u8>,
    clocks: &[Clock],
    kind: &[u8],
    summary: &TimingSummary,
) -> Result<(), Memory>
    ensures { OnOk result
        (out.new.items ≡ out.old.items ++ summary_text clocks.now kind.now summary.now) }
{
    push(out, b"summary")?;
    push_word(out, kind)?;
    push_count(out, b" clocks", summary.clocks.len() as u64)?;
    push_count(out, b" untested", summary.untested)?;
    push_end(out)?;
    push_clock_rows(out, clocks, summary.clocks.as_slice())
}

/// A node and its arrival.
fn push_extreme(out: &mut Vec<u8>, node: &PathNode) -> Result<(), Memory>
    ensures { OnOk result (out.new.items ≡ out.old.items ++ extreme_text node.now) }
{
    push_word(out, node.pin.as_bytes())?;
    push_tran(out, node.tran)?;
    push_ps(out, node.time)
}

/// The line of a launch edge: its skew, and the two pins with their arrivals.
fn push_skew_row(out: &mut Vec<u8>, clocks: &[Clock], row: &SkewReport) -> Result<(), Memory>
    ensures { OnOk result (out.new.items ≡ out.old.items ++ skew_text clocks.now row.now) }
{
    push_clock_name(out, clocks, row.clock)?;
    push_tran(out, row.tran)?;
    push_ps(out, row.skew)?;
    push(out, b" late")?;
    push_extreme(out, &row.late)?;
    push(out, b" early")?;
    push_extreme(out, &row.early)?;
    push_end(out)
}

#[tactic(auto, using(std::proofs::lemmas::List::drop_more))]
fn push_skew_rows(out: &mut Vec<u8>, clocks: &[Clock], rows: &[SkewReport]) -> Result<(), Memory>
    ensures { OnOk result
        (out.new.items ≡ out.old.items ++ flat_map (skew_text clocks.now) rows.now) }
{
    for row in rows {
        push_skew_row(out, clocks, row)?;
    }
    Ok(())
}

/// The skews of launch edges: how many, and a line for each.
pub(crate) fn push_skews(
    out: &mut Vec<u8>,
    clocks: &[Clock],
    rows: &[SkewReport],
) -> Result<(), Memory>
    ensures { OnOk result (out.new.items ≡ out.old.items ++ skews_text clocks.now rows.now) }
{
    push_count(out, b"skew", rows.len() as u64)?;
    push_end(out)?;
    push_skew_rows(out, clocks, rows)
}

/// Both kinds' worst and total slack.
fn push_slack_totals(out: &mut Vec<u8>, totals: &SlackTotals) -> Result<(), Memory>
    ensures { OnOk result (out.new.items ≡ out.old.items ++ totals_text totals.now) }
{
    push(out, b" setup")?;
    push_time(out, totals.setup_wns)?;
    push_ps(out, totals.setup_tns)?;
    push(out, b" hold")?;
    push_time(out, totals.hold_wns)?;
    push_ps(out, totals.hold_tns)
}

/// The line of an advised resize: both kinds' slacks with it.
fn push_advice_row(out: &mut Vec<u8>, row: &SizeAdvice) -> Result<(), Memory>
    ensures { OnOk result (out.new.items ≡ out.old.items ++ size_advice_text row.now) }
{
    push(out, row.inst.as_bytes())?;
    push_word(out, row.cell.as_bytes())?;
    push_slack_totals(out, &row.after)?;
    push_end(out)
}

#[tactic(auto, using(std::proofs::lemmas::List::drop_more))]
fn push_advice_rows(out: &mut Vec<u8>, rows: &[SizeAdvice]) -> Result<(), Memory>
    ensures { OnOk result (out.new.items ≡ out.old.items ++ flat_map size_advice_text rows.now) }
{
    for row in rows {
        push_advice_row(out, row)?;
    }
    Ok(())
}

/// The advised resizes: how many, how many were tried and refused, the totals now, and a line for each.
pub(crate) fn push_advices(out: &mut Vec<u8>, advice: &AdviceReport) -> Result<(), Memory>
    ensures { OnOk result (out.new.items ≡ out.old.items ++ advices_text advice.entry.now) }
{
    push_count(out, b"resizes", advice.rows.len() as u64)?;
    push_count(out, b" tried", advice.tried)?;
    push_count(out, b" refused", advice.refused)?;
    push_slack_totals(out, &advice.now)?;
    push_end(out)?;
    push_advice_rows(out, advice.rows.as_slice())
}
