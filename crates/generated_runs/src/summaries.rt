//! The line of a generated run.

ghost use Rattle.std.specs.Prelude.{◌≡◌, ◌++◌, IfOk, OnOk, codes};
ghost use Rattle.sta_units.specs.Picoseconds.{ps_text};
ghost use Rattle.timing_defs.specs.Output.{word, number, time_text, line, generated_text};

use sta_units::{Fs, Memory, print_ps};
use std::alloc::Global;
use timing_defs::Totals;

fn push(out: &mut Vec<u8>, text: &[u8]) -> Result<(), Memory>
    ensures { OnOk result (out.new.items ≡ out.old.items ++ text.now) }
{
    out.extend_from_slice(text)?;
    Ok(())
}

/// A blank and a number.
fn push_number(alloc: Global, out: &mut Vec<u8>, n: u64) -> Result<(), Memory>
    ensures { OnOk result (out.new.items ≡ out.old.items ++ number n) }
{
    let digits = n.to_string(alloc)?;
    push(out, b" ")?;
    push(out, digits.as_bytes())
}

/// A blank and a time.
fn push_ps(alloc: Global, out: &mut Vec<u8>, time: Fs) -> Result<(), Memory>
    ensures { OnOk result (out.new.items ≡ out.old.items ++ word (ps_text time.0)) }
{
    let text = print_ps(alloc, time)?;
    push(out, b" ")?;
    push(out, text.as_bytes())
}

/// A blank and a time, or `none`.
fn push_time(alloc: Global, out: &mut Vec<u8>, time: Option<Fs>) -> Result<(), Memory>
    ensures { OnOk result (out.new.items ≡ out.old.items ++ word (time_text time)) }
{
    match time {
        None => push(out, b" none"),
        Some(time) => push_ps(alloc, out, time),
    }
}

/// How many gates, edits and accepted edits there are.
fn push_counts(
    alloc: Global,
    out: &mut Vec<u8>,
    gates: u32,
    edits: u32,
    accepted: u64,
) -> Result<(), Memory>
    ensures { OnOk result
        (out.new.items
        ≡ out.old.items ++
        (codes "generated" ++ number gates ++ number edits ++ codes " accepted" ++ number
        accepted)) }
{
    push(out, b"generated")?;
    push_number(alloc, out, gates as u64)?;
    push_number(alloc, out, edits as u64)?;
    push(out, b" accepted")?;
    push_number(alloc, out, accepted)
}

/// The totals of a kind.
fn push_totals(
    alloc: Global,
    out: &mut Vec<u8>,
    kind: &[u8],
    wns: Option<Fs>,
    tns: Fs,
) -> Result<(), Memory>
    ensures { OnOk result
        (out.new.items
        ≡ out.old.items ++ (kind.now ++ word (time_text wns) ++ word (ps_text tns.0))) }
{
    push(out, kind)?;
    push_time(alloc, out, wns)?;
    push_ps(alloc, out, tns)
}

/// The line of a generated run: its gates and edits, how many edits were accepted, and the totals of
/// the design behind them.
///
/// # Errors
///
/// Want of memory alone.
pub fn summary_line(
    alloc: Global,
    gates: u32,
    edits: u32,
    accepted: u64,
    totals: &Totals,
) -> Result<Vec<u8>, Memory>
    ensures { IfOk result (λ text. text.items ≡ generated_text gates edits accepted totals.now) }
{
    let mut out = Vec::new(alloc);
    push_counts(alloc, &mut out, gates, edits, accepted)?;
    push_totals(
        alloc,
        &mut out,
        b" setup",
        totals.setup_wns,
        totals.setup_tns,
    )?;
    push_totals(alloc, &mut out, b" hold", totals.hold_wns, totals.hold_tns)?;
    push(&mut out, b"\n")?;
    Ok(out)
}
