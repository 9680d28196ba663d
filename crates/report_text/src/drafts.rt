//! The rows of trials on a draft.

ghost use Rattle.std.specs.Prelude.{◌≡◌, ◌++◌, OnOk, codes, length};
ghost use Rattle.std.specs.List.{flat_map};
ghost use Rattle.timing_defs.specs.Output.{line, number, singly_told, trial_text, trial_row_text};

use crate::pieces::{push, push_count, push_end};
use crate::reports::push_single;
use crate::rows::{push_no, push_refused};
use sta_units::Memory;
use timing_defs::{Clock, Query, Report, TrialAnswer, TrialRow};

/// A report by its question; nothing where there is no question.
fn push_singly_told(
    out: &mut Vec<u8>,
    clocks: &[Clock],
    query: &Option<Query>,
    report: &Report,
) -> Result<(), Memory>
    ensures { OnOk result
        (out.new.items ≡ out.old.items ++ singly_told clocks.now query.now report.now) }
{
    match query {
        None => Ok(()),
        Some(query) => push_single(out, clocks, query, report),
    }
}

fn push_trial(
    out: &mut Vec<u8>,
    clocks: &[Clock],
    query: &Option<Query>,
    answer: &TrialAnswer,
) -> Result<(), Memory>
    ensures { OnOk result
        (out.new.items ≡ out.old.items ++ trial_text clocks.now query.now answer.now) }
{
    match answer {
        TrialAnswer::Tried => push(out, b"tried\n"),
        TrialAnswer::Refused(fault) => push_refused(out, fault),
        TrialAnswer::Dropped => push(out, b"dropped\n"),
        TrialAnswer::NoDraft => push(out, b"no_draft\n"),
        TrialAnswer::No(fault) => push_no(out, fault),
        TrialAnswer::Told(report) => push_singly_told(out, clocks, query, report),
    }
}

fn push_trial_row(out: &mut Vec<u8>, clocks: &[Clock], row: &TrialRow) -> Result<(), Memory>
    ensures { OnOk result (out.new.items ≡ out.old.items ++ trial_row_text clocks.now row.now) }
{
    push_trial(out, clocks, &row.query, &row.answer)
}

#[tactic(auto, using(std::proofs::lemmas::List::drop_more))]
fn push_trial_rows(out: &mut Vec<u8>, clocks: &[Clock], rows: &[TrialRow]) -> Result<(), Memory>
    ensures { OnOk result
        (out.new.items ≡ out.old.items ++ flat_map (trial_row_text clocks.now) rows.now) }
{
    for row in rows {
        push_trial_row(out, clocks, row)?;
    }
    Ok(())
}

/// The trials on a draft: how many, and the answer of each.
pub(crate) fn push_drafted(
    out: &mut Vec<u8>,
    clocks: &[Clock],
    rows: &[TrialRow],
) -> Result<(), Memory>
    ensures { OnOk result
        (out.new.items
        ≡ out.old.items ++
        (line (codes "what_if" ++ number (length rows.now)) ++ flat_map (trial_row_text clocks.now)
        rows.now)) }
{
    push_count(out, b"what_if", rows.len() as u64)?;
    push_end(out)?;
    push_trial_rows(out, clocks, rows)
}
