//! The outcomes of many candidates, one after another or shared between the processors.

ghost use Rattle.std.specs.Prelude.{IfOk};
ghost use denote.Param.Send.{IsSync};
ghost use Rattle.level_workers.specs.Mapped.{IsMap};
ghost use Rattle.timing_rules.specs.SizeAdvice.{IsOutcome};

use crate::bases::Base;
use crate::trials::{outcome_alone, outcome_of};
use affected_cone::map_shared;
use sta_units::Memory;
use std::thread::Threads;
use timing_defs::{Candidate, Items, SlackTotals};

/// The outcomes of some candidates, tried one after another with all workers.
fn outcomes_in_turn<H: Threads + Sync>(
    base: &Base<'_, H>,
    candidates: &[Candidate],
) -> Result<Items<Option<SlackTotals>>, Memory>
    ensures { IfOk result (IsMap (IsOutcome base.now.store.now.design) candidates.now) }
{
    let mut outcomes = Items::new(base.alloc);
    for candidate in candidates {
        let outcome = outcome_of(base, candidate)?;
        outcomes.push(outcome)?;
    }
    Ok(outcomes)
}

/// The outcomes of some candidates, in their order, by as many threads as there are processors;
/// each with one worker.
fn outcomes_shared<H: Threads + Sync>(
    base: &Base<'_, H>,
    candidates: &[Candidate],
) -> Result<Items<Option<SlackTotals>>, Memory>
    ensures { IfOk result (IsMap (IsOutcome base.now.store.now.design) candidates.now) }
{
    let trial = |candidate: &Candidate| -> Result<Option<SlackTotals>, Memory>
        requires { IsSync H.row }
        ensures { IfOk result (IsOutcome base.entry.now.store.now.design candidate.now) }
    { outcome_alone(base, candidate) };
    map_shared(base.rt, base.alloc, candidates, &trial)
}

/// The outcomes of some candidates in their order: where there are several, and several workers,
/// their trials are shared between threads, and else each is tried with all workers.
pub(crate) fn outcomes_of<H: Threads + Sync>(
    base: &Base<'_, H>,
    candidates: &[Candidate],
) -> Result<Items<Option<SlackTotals>>, Memory>
    ensures { IfOk result (IsMap (IsOutcome base.now.store.now.design) candidates.now) }
{
    if base.workers < 2 || candidates.len() < 2 {
        outcomes_in_turn(base, candidates)
    } else {
        outcomes_shared(base, candidates)
    }
}
