//! The trial of one candidate.

ghost use Rattle.std.specs.Prelude.{◌≡◌, true, None, IfOk, OnOk};
ghost use Rattle.timing_rules.specs.Advice.{candidate_eco};
ghost use Rattle.timing_rules.specs.SizeAdvice.{IsOutcome};
ghost use Rattle.eco_analysis.specs.Counting.{tells};

use crate::bases::Base;
use crate::totals::slack_totals;
use eco_analysis::{after_eco, tells};
use sta_outside::NoGate;
use sta_units::{Memory, Steps};
use std::alloc::Global;
use std::thread::Threads;
use timing_defs::{Candidate, Eco, Edit, Fault, Items, SlackTotals};

/// Names the count of evaluations for a trial.
#[derive(Drop)]
struct Evaluated;

/// The ECO of a resize.
pub(crate) fn candidate_eco(alloc: Global, candidate: &Candidate) -> Result<Eco, Memory>
    ensures { IfOk result (λ eco. eco ≡ candidate_eco candidate.now) }
{
    let inst = candidate.inst.copied(alloc)?;
    let cell = candidate.cell.copied(alloc)?;
    let mut edits = Items::new(alloc);
    edits.push(Edit::Repower { inst, cell })?;
    Ok(Eco { edits })
}

/// The outcome of a candidate that is refused: no totals, but for want of memory.
fn refused_outcome(fault: Fault) -> Result<Option<SlackTotals>, Memory>
    ensures none { IfOk result (λ outcome. outcome ≡ None) }
    ensures told { OnOk result (tells fault ≡ true) }
{
    if tells(&fault) { Ok(None) } else { Err(Memory) }
}

/// The totals after an ECO of one resize; none where that is refused.
fn outcome_after<H: Threads + Sync>(
    base: &Base<'_, H>,
    candidate: &Candidate,
    eco: &Eco,
) -> Result<Option<SlackTotals>, Memory>
    requires { eco.now ≡ candidate_eco candidate.now }
    ensures { IfOk result (IsOutcome base.now.store.now.design candidate.now) }
{
    let mut steps: Steps<Evaluated> = Steps::none();
    match after_eco(
        base.rt,
        base.alloc,
        base.store,
        base.analysis,
        eco,
        base.workers,
        &NoGate,
        &mut steps,
    ) {
        Ok(edited) => {
            let totals = slack_totals(&edited.analysis);
            edited.discard();
            Ok(Some(totals))
        }
        Err(fault) => refused_outcome(fault),
    }
}

/// Gives an ECO up.
pub(crate) fn discard(_eco: Eco) {}

/// The outcome of a candidate: the totals of the design that its resize makes; none where the
/// resize is refused.
pub(crate) fn outcome_of<H: Threads + Sync>(
    base: &Base<'_, H>,
    candidate: &Candidate,
) -> Result<Option<SlackTotals>, Memory>
    ensures { IfOk result (IsOutcome base.now.store.now.design candidate.now) }
{
    let eco = candidate_eco(base.alloc, candidate)?;
    let outcome = outcome_after(base, candidate, &eco);
    discard(eco);
    outcome
}

/// The outcome of a candidate by one worker.
pub(crate) fn outcome_alone<H: Threads + Sync>(
    base: &Base<'_, H>,
    candidate: &Candidate,
) -> Result<Option<SlackTotals>, Memory>
    ensures { IfOk result (IsOutcome base.now.store.now.design candidate.now) }
{
    let alone = base.alone();
    outcome_of(&alone, candidate)
}
