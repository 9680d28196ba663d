//! The rows of a session.

ghost use Rattle.std.specs.Prelude.{◌≡◌, ◌++◌, OnOk, IfOk, codes, length};
ghost use Rattle.std.specs.List.{flat_map};
ghost use Rattle.timing_defs.specs.Output.{line, word, number, fault_text, query_fault_text, told_text, answer_text, row_text};

use crate::faults::{push_fault, push_query_fault};
use crate::pieces::{push, push_count, push_digits, push_end, push_number};
use crate::reports::push_report;
use sta_units::Memory;
use std::alloc::Global;
use timing_defs::{Answer, Clock, Fault, Items, Query, QueryFault, Report, Row};

pub(crate) fn push_refused(out: &mut Vec<u8>, fault: &Fault) -> Result<(), Memory>
    ensures { OnOk result
        (out.new.items ≡ out.old.items ++ line (codes "refused" ++ word (fault_text fault.now))) }
{
    push(out, b"refused ")?;
    push_fault(out, fault)?;
    push_end(out)
}

pub(crate) fn push_no(out: &mut Vec<u8>, fault: &QueryFault) -> Result<(), Memory>
    ensures { OnOk result
        (out.new.items ≡ out.old.items ++ line (codes "no" ++ word (query_fault_text fault.now))) }
{
    push(out, b"no ")?;
    push_query_fault(out, fault)?;
    push_end(out)
}

/// How many looks did not find the awaited version.
fn push_not_yet(out: &mut Vec<u8>, looks: usize) -> Result<(), Memory>
    ensures { OnOk result
        (out.new.items ≡ out.old.items ++ line (codes "not_yet" ++ number looks)) }
{
    push_count(out, b"not_yet", looks as u64)?;
    push_end(out)
}

/// A report by its question; nothing where there is no question.
fn push_told(
    out: &mut Vec<u8>,
    clocks: &[Clock],
    query: &Option<Query>,
    report: &Report,
) -> Result<(), Memory>
    ensures { OnOk result
        (out.new.items ≡ out.old.items ++ told_text clocks.now query.now report.now) }
{
    match query {
        None => Ok(()),
        Some(query) => push_report(out, clocks, query, report),
    }
}

fn push_answer(
    out: &mut Vec<u8>,
    clocks: &[Clock],
    query: &Option<Query>,
    answer: &Answer,
) -> Result<(), Memory>
    ensures { OnOk result
        (out.new.items ≡ out.old.items ++ answer_text clocks.now query.now answer.now) }
{
    match answer {
        Answer::Taken => push(out, b"taken\n"),
        Answer::Reached => push(out, b"reached\n"),
        Answer::NotYet(looks) => push_not_yet(out, looks.len()),
        Answer::Accepted => push(out, b"accepted\n"),
        Answer::Refused(fault) => push_refused(out, fault),
        Answer::No(fault) => push_no(out, fault),
        Answer::Told(report) => push_told(out, clocks, query, report),
    }
}

/// A row: the place of its command, the number of its version, and its answer.
fn push_row(out: &mut Vec<u8>, clocks: &[Clock], row: &Row) -> Result<(), Memory>
    ensures { OnOk result (out.new.items ≡ out.old.items ++ row_text clocks.now row.now) }
{
    push_digits(out, u64::from(row.command))?;
    push_number(out, row.number)?;
    push(out, b" ")?;
    push_answer(out, clocks, &row.query, &row.answer)
}

#[tactic(auto, using(std::proofs::lemmas::List::drop_more))]
pub(crate) fn push_rows(out: &mut Vec<u8>, clocks: &[Clock], rows: &[Row]) -> Result<(), Memory>
    ensures { OnOk result
        (out.new.items ≡ out.old.items ++ flat_map (row_text clocks.now) rows.now) }
{
    for row in rows {
        push_row(out, clocks, row)?;
    }
    Ok(())
}

/// The bytes of a row: the place of its command, the number of the version that it answers for, and
/// the answer. The row of a path or of the worst endpoints has further lines. `clocks` are those
/// that launch and capture edges name by their places, from 0.
///
/// A place past the clocks has no name, a report without a question no text, and want of memory in
/// an answer no code; a run writes no such rows.
///
/// # Errors
///
/// Want of memory alone.
pub fn report_bytes(alloc: Global, row: &Row, clocks: &Items<Clock>) -> Result<Vec<u8>, Memory>
    ensures { IfOk result (λ bytes. bytes.items ≡ row_text clocks.now row.now) }
{
    let mut out = Vec::new(alloc);
    push_row(&mut out, clocks.as_slice(), row)?;
    Ok(out)
}
