//! The best resizes so far, in order.

ghost use Rattle.std.specs.Prelude.{◌≡◌, ◌≤◌, [], ◌∷◌, length, take, map, IfOk, OnOk};
ghost use Rattle.std.specs.List.{insert};
ghost use Rattle.timing_rules.specs.SizeAdvice.{advised_before, improving};
ghost use Rattle.size_advice.specs.Keeping.{advice_of, found_first, put_by, kept_by};

use crate::ordering::{Found, Target, found_before, improves};
use sta_units::Memory;
use std::alloc::Global;
use timing_defs::{Candidate, SlackTotals};

/// The most resizes that are advised.
const MOST: usize = 5;

/// The place of a resize among others in order: that of the first that it comes before.
#[tactic(auto, using(crate::proofs::Placing::put_step, crate::proofs::Placing::put_here, crate::proofs::Placing::put_last))]
fn place_of(target: Target, kept: &[Found<'_>], found: &Found<'_>) -> usize
    ensures within { result ≤ length kept.now }
    ensures place { insert kept.now result found.now
        ≡ put_by (found_first target.kind target.aim) found.now kept.now }
{
    for place in 0..kept.len() {
        if found_before(target, found, &kept[place]) {
            return place;
        }
    }
    kept.len()
}

/// Puts a resize among others in order, of which at most five are kept.
fn keep<'a>(target: Target, kept: &mut Vec<Found<'a>>, found: Found<'a>) -> Result<(), Memory>
    ensures { OnOk result (kept.new.items
        ≡ take 5 (put_by (found_first target.kind target.aim) found.entry kept.old.items)) }
{
    let place = place_of(target, kept.as_slice(), &found);
    match kept.insert(place, found) {
        Ok(()) => {
            kept.truncate(MOST);
            Ok(())
        }
        Err(_) => Err(Memory),
    }
}

/// Puts a candidate with its outcome among the best so far, where it improves.
#[tactic(auto, using(crate::proofs::Placing::put_better, crate::proofs::Placing::not_better))]
fn keep_better<'a>(
    target: Target,
    now: SlackTotals,
    kept: &mut Vec<Found<'a>>,
    candidate: &'a Candidate,
    outcome: &Option<SlackTotals>,
) -> Result<(), Memory>
    ensures { OnOk result (map advice_of kept.new.items
        ≡ kept_by (advised_before target.kind target.aim) 5 (map advice_of kept.old.items)
        (improving target.kind target.aim now (candidate.now ∷ []) (outcome.now ∷ []))) }
{
    match *outcome {
        Some(after) => {
            if improves(target, now, after) {
                keep(target, kept, Found { candidate, after })
            } else {
                Ok(())
            }
        }
        None => Ok(()),
    }
}

/// The best of some candidates with their outcomes, in order: at most five of those that improve.
pub(crate) fn best_found<'a>(
    alloc: Global,
    target: Target,
    now: SlackTotals,
    candidates: &'a [Candidate],
    outcomes: &[Option<SlackTotals>],
) -> Result<Vec<Found<'a>>, Memory>
    requires { length outcomes.now ≡ length candidates.now }
    ensures { IfOk result (λ best. map advice_of best.items
        ≡ kept_by (advised_before target.kind target.aim) 5 []
        (improving target.kind target.aim now candidates.now outcomes.now)) }
{
    let mut kept = Vec::new(alloc);
    for place in 0..candidates.len() {
        keep_better(target, now, &mut kept, &candidates[place], &outcomes[place])?;
    }
    Ok(kept)
}
