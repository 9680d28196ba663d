//! The arcs of a cell from one of its nodes to another, and what their tables give.

ghost use Rattle.std.specs.Prelude.{◌≡◌, ◌≤◌, [], ◌∷◌, true, false, Some, filter, unsigned_abs, IfOk, IfErr};
ghost use Rattle.std.specs.List.{list_all};
ghost use Rattle.sta_units.specs.Numbers.{limit};
ghost use Rattle.timing_defs.specs.Kinds.{is_comb};
ghost use Rattle.timing_rules.specs.Rows.{outer, outer_some};
ghost use Rattle.timing_defs.specs.Lookup.{look};
ghost use Rattle.node_rows.specs.Between.{is_between, has_tables, is_looked, outer_values, no_values, are_within};

use nldm_lookup::{OutOfRange, look_up};
use timing_defs::{ArcKind, CellArc, Split, Tran};

/// The ends of an arc of a cell: the names of two pins in it, with their transitions.
#[derive(Clone, Copy, Drop)]
pub struct ArcEnds<'a> {
    pub from: &'a [u8],
    pub from_tran: Tran,
    pub to: &'a [u8],
    pub to_tran: Tran,
    /// Whether register arcs stand: the first pin is on the clock network and the second is not.
    pub registers: bool,
}

/// The slew at the end of arcs and their delay, in fs; none where no arc leads there.
#[derive(Clone, Copy, Drop)]
pub struct ArcValues {
    pub slew: Option<i64>,
    pub delay: Option<i64>,
}

/// The greater of two late values, the lesser of two early ones.
fn outer(split: Split, x: i64, y: i64) -> i64
    ensures { result ≡ outer split x y }
{
    match split {
        Split::Early => x.min(y),
        Split::Late => x.max(y),
    }
}

/// The greater of two late values, the lesser of two early ones; the other where there is one alone.
pub fn outer_some(split: Split, best: Option<i64>, next: Option<i64>) -> Option<i64>
    ensures { result ≡ outer_some split best next }
{
    match (best, next) {
        (None, _) => next,
        (Some(_), None) => best,
        (Some(x), Some(y)) => Some(outer(split, x, y)),
    }
}

/// Whether an arc is combinational.
fn is_comb(arc: &CellArc) -> bool
    ensures { result ≡ is_comb arc.now }
{
    match arc.kind {
        ArcKind::Comb => true,
        ArcKind::Edge => false,
    }
}

/// Whether an arc of the cell leads from one node to the other.
fn is_between(ends: &ArcEnds<'_>, arc: &CellArc) -> bool
    ensures { result ≡ is_between ends.now arc.now }
{
    arc.from.as_bytes() == ends.from
        && arc.from_tran.is(ends.from_tran)
        && arc.to.as_bytes() == ends.to
        && arc.to_tran.is(ends.to_tran)
        && (is_comb(arc) || ends.registers)
}

/// The values of an arc as looked up; `OutOfRange` exactly where one leaves its limit.
fn looked(arc: &CellArc, slew: i64, load: i64) -> Result<ArcValues, OutOfRange>
    requires tables { has_tables arc.now ≡ true }
    requires slew { unsigned_abs slew ≤ limit }
    requires load { unsigned_abs load ≤ limit }
    ensures values { IfOk result
        (λ values. values
        ≡ record {
          slew = Some (look arc.now.slew slew load);
          delay = Some
              (look arc.now.delay slew load);
        }) }
    ensures fine { IfOk result (λ _. is_looked slew load arc.now ≡ true) }
    ensures err { IfErr result (λ _. is_looked slew load arc.now ≡ false) }
{
    let end = look_up(&arc.slew, slew, load)?;
    let delay = look_up(&arc.delay, slew, load)?;
    Ok(ArcValues {
        slew: Some(end),
        delay: Some(delay),
    })
}

/// The outer values of two.
fn outer_of(split: Split, best: ArcValues, next: ArcValues) -> ArcValues
    ensures { result
        ≡ record {
          slew = outer_some split best.slew next.slew;
          delay = outer_some split best.delay
              next.delay;
        } }
{
    ArcValues {
        slew: outer_some(split, best.slew, next.slew),
        delay: outer_some(split, best.delay, next.delay),
    }
}

/// The outermost values so far, with those of an arc that leads from one node to the other.
fn with_arc(
    split: Split,
    best: ArcValues,
    arc: &CellArc,
    ends: &ArcEnds<'_>,
    slew: i64,
    load: i64,
) -> Result<ArcValues, OutOfRange>
    requires tables { has_tables arc.now ≡ true }
    requires slew { unsigned_abs slew ≤ limit }
    requires load { unsigned_abs load ≤ limit }
    ensures values { IfOk result
        (λ values. values
        ≡ outer_values split slew load best (filter (is_between ends.now) (arc.now ∷ []))) }
    ensures fine { IfOk result
        (λ _. list_all (is_looked slew load) (filter (is_between ends.now) (arc.now ∷ [])) ≡ true) }
    ensures err { IfErr result
        (λ _. list_all (is_looked slew load) (filter (is_between ends.now) (arc.now ∷ []))
        ≡ false) }
{
    if is_between(ends, arc) {
        let next = looked(arc, slew, load)?;
        Ok(outer_of(split, best, next))
    } else {
        Ok(best)
    }
}

/// The outermost slew and delay of the arcs that lead from one node to the other, at the slew of the
/// first in fs and the load of the second in aF. `OutOfRange` exactly where a value of one of these
/// arcs leaves its limit. Takes no memory.
pub fn arc_values(
    split: Split,
    arcs: &[CellArc],
    ends: &ArcEnds<'_>,
    slew: i64,
    load: i64,
) -> Result<ArcValues, OutOfRange>
    requires tables { list_all has_tables arcs.now ≡ true }
    requires slew { unsigned_abs slew ≤ limit }
    requires load { unsigned_abs load ≤ limit }
    ensures values { IfOk result
        (λ values. values
        ≡ outer_values split slew load no_values (filter (is_between ends.now) arcs.now)) }
    ensures fine { IfOk result
        (λ _. list_all (is_looked slew load) (filter (is_between ends.now) arcs.now) ≡ true) }
    ensures err { IfErr result
        (λ _. list_all (is_looked slew load) (filter (is_between ends.now) arcs.now) ≡ false) }
    ensures within { IfOk result (λ values. are_within values ≡ true) }
{
    let mut best = ArcValues {
        slew: None,
        delay: None,
    };
    for arc in arcs {
        best = with_arc(split, best, arc, ends, slew, load)?;
    }
    Ok(best)
}
