//! The order of resizes that improve: by what is aimed at, and then by their names.

ghost use Rattle.std.specs.Prelude.{◌≡◌};
ghost use Rattle.std.specs.Ordering.{nat_cmp, ordering_then, is_lt};
ghost use Rattle.std.specs.Cmp.Lexicographic.{slice_cmp};
ghost use Rattle.timing_rules.specs.SizeAdvice.{aimed, improves, value_cmp, advised_before};
ghost use Rattle.size_advice.specs.Keeping.{advice_of};

use std::cmp::Ordering;
use timing_defs::{Aim, Candidate, Kind, SlackTotals};

/// What resizes are advised for: a kind of slack, and its worst or its total.
#[derive(Clone, Copy, Drop)]
pub struct Target {
    pub kind: Kind,
    pub aim: Aim,
}

/// A candidate that improves, and the totals after it.
#[derive(Clone, Copy, Drop)]
pub(crate) struct Found<'a> {
    pub(crate) candidate: &'a Candidate,
    pub(crate) after: SlackTotals,
}

/// What is aimed at, in fs.
fn aimed(target: Target, totals: SlackTotals) -> Option<i64>
    ensures { result ≡ aimed target.kind target.aim totals }
{
    match (target.kind, target.aim) {
        (Kind::Setup, Aim::Wns) => totals.setup_wns.map(|slack| slack.0),
        (Kind::Setup, Aim::Tns) => Some(totals.setup_tns.0),
        (Kind::Hold, Aim::Wns) => totals.hold_wns.map(|slack| slack.0),
        (Kind::Hold, Aim::Tns) => Some(totals.hold_tns.0),
    }
}

/// Whether one value improves another: where both are there and it is greater.
fn is_greater(now: Option<i64>, after: Option<i64>) -> bool
    ensures { result ≡ improves now after }
{
    match (now, after) {
        (Some(now), Some(after)) => now < after,
        (None, _) | (_, None) => false,
    }
}

/// Whether the totals after a resize improve those now.
pub(crate) fn improves(target: Target, now: SlackTotals, after: SlackTotals) -> bool
    ensures { result
        ≡ improves (aimed target.kind target.aim now) (aimed target.kind target.aim after) }
{
    is_greater(aimed(target, now), aimed(target, after))
}

/// How one value compares with another; those that are not there do not differ from any.
fn value_order(one: Option<i64>, other: Option<i64>) -> Ordering
    ensures { result ≡ value_cmp one other }
{
    match (one, other) {
        (Some(one), Some(other)) => one.cmp(&other),
        (None, _) | (_, None) => Ordering::Equal,
    }
}

/// Whether a candidate comes before another by its instance, and then by its cell.
fn named_before(one: &Candidate, other: &Candidate) -> bool
    ensures { result
        ≡ is_lt (ordering_then (slice_cmp nat_cmp one.now.inst other.now.inst)
        (slice_cmp nat_cmp one.now.cell other.now.cell)) }
{
    match one.inst.cmp(&other.inst) {
        Ordering::Less => true,
        Ordering::Greater => false,
        Ordering::Equal => matches!(one.cell.cmp(&other.cell), Ordering::Less),
    }
}

/// Whether a resize comes before another. Names are compared only where the values are equal.
pub(crate) fn found_before(target: Target, one: &Found<'_>, other: &Found<'_>) -> bool
    ensures { result
        ≡ advised_before target.kind target.aim (advice_of one.now) (advice_of other.now) }
{
    match value_order(aimed(target, other.after), aimed(target, one.after)) {
        Ordering::Less => true,
        Ordering::Greater => false,
        Ordering::Equal => named_before(one.candidate, other.candidate),
    }
}
