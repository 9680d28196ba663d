//! The best candidate so far.

ghost use Rattle.std.specs.Prelude.{◌≡◌, IfOk};
ghost use Rattle.timing_rules.specs.Advice.{better, advice_of};
ghost use Rattle.sizing_advisor.specs.Trying.{as_number, as_advice};

use sta_units::{Fs, Memory};
use std::alloc::Global;
use timing_defs::{Advice, Candidate};

/// The best candidate so far, and the worst slack in fs with it.
#[derive(Clone, Copy, Drop)]
pub(crate) struct Best<'a> {
    pub(crate) candidate: &'a Candidate,
    pub(crate) wns: Fs,
}

/// The better of the best so far and a candidate with its value: the former where they are equal.
pub(crate) fn better<'a>(
    best: Option<Best<'a>>,
    candidate: &'a Candidate,
    value: Option<Fs>,
) -> Option<Best<'a>>
    ensures { as_advice result ≡ better (as_advice best.entry) candidate.now (as_number value) }
{
    match (best, value) {
        (_, None) => best,
        (None, Some(wns)) => Some(Best { candidate, wns }),
        (Some(held), Some(wns)) => {
            if held.wns.0 < wns.0 {
                Some(Best { candidate, wns })
            } else {
                best
            }
        }
    }
}

/// The advice of a candidate; its names are copied.
fn advice_of(alloc: Global, best: &Best<'_>) -> Result<Advice, Memory>
    ensures { IfOk result (λ advice. advice ≡ advice_of best.now.candidate.now best.now.wns.0) }
{
    let inst = best.candidate.inst.copied(alloc)?;
    let cell = best.candidate.cell.copied(alloc)?;
    Ok(Advice {
        inst,
        cell,
        wns: best.wns,
    })
}

/// The advice of the best candidate, where there is one.
pub(crate) fn as_advice(alloc: Global, best: Option<Best<'_>>) -> Result<Option<Advice>, Memory>
    ensures { IfOk result (λ advice. advice ≡ as_advice best.entry) }
{
    match best {
        Some(best) => Ok(Some(advice_of(alloc, &best)?)),
        None => Ok(None),
    }
}
