//! The trial of one candidate.

ghost use Rattle.std.specs.Prelude.{◌≡◌, ◌-◌, ◌≤◌, true, None, IfOk, OnOk};
ghost use Rattle.timing_rules.specs.Advice.{candidate_eco};
ghost use Rattle.timing_rules.specs.Cones.{IsCounted};
ghost use Rattle.timing_rules.specs.Reports.{IsWns};
ghost use Rattle.eco_analysis.specs.Counting.{tells};
ghost use Rattle.sizing_advisor.specs.Trying.{as_number, IsTried, IsTrial};

use crate::bases::Base;
use affected_cone::Analysis;
use eco_analysis::{after_eco, tells};
use sta_outside::Gate;
use sta_units::{Fs, Memory, Steps};
use std::alloc::Global;
use std::thread::Threads;
use timing_defs::{Candidate, Eco, Edit, Fault, Items, Kind};

/// The ECO of a resize.
fn candidate_eco(alloc: Global, candidate: &Candidate) -> Result<Eco, Memory>
    ensures { IfOk result (λ eco. eco ≡ candidate_eco candidate.now) }
{
    let inst = candidate.inst.copied(alloc)?;
    let cell = candidate.cell.copied(alloc)?;
    let mut edits = Items::new(alloc);
    edits.push(Edit::Repower { inst, cell })?;
    Ok(Eco { edits })
}

/// The worst slack of a kind over the endpoints of an analysis.
fn wns_of(analysis: &Analysis, kind: Kind) -> Option<Fs>
    ensures { IsWns analysis.now.stored.design kind (as_number result) }
{
    let totals = analysis.totals(0);
    match kind {
        Kind::Setup => totals.setup_wns,
        Kind::Hold => totals.hold_wns,
    }
}

/// The value of a candidate that is refused: none, but for want of memory.
fn value_refused(fault: Fault) -> Result<Option<Fs>, Memory>
    ensures none { IfOk result (λ value. value ≡ None) }
    ensures told { OnOk result (tells fault ≡ true) }
{
    if tells(&fault) { Ok(None) } else { Err(Memory) }
}

/// The worst slack of a kind after an ECO of one resize; none where that is refused.
fn value_after<H: Threads + Sync, G: Gate, L>(
    base: &Base<'_, H, G>,
    candidate: &Candidate,
    eco: &Eco,
    steps: &mut Steps<L>,
) -> Result<Option<Fs>, Memory>
    requires { eco.now ≡ candidate_eco candidate.now }
    ensures value { IfOk result (IsTried base.now.store.now.design base.now.kind candidate.now) }
    ensures rises { steps.old ≤ steps.new }
    ensures counted { OnOk result
        (IsCounted base.now.store.now.design (candidate_eco candidate.now) true
        (steps.new - steps.old)) }
{
    match after_eco(
        base.rt,
        base.alloc,
        base.store,
        base.analysis,
        eco,
        base.workers,
        base.gate,
        steps,
    ) {
        Ok(edited) => {
            let wns = wns_of(&edited.analysis, base.kind);
            edited.discard();
            Ok(wns)
        }
        Err(fault) => value_refused(fault),
    }
}

fn discard(_eco: Eco) {}

/// The value of a candidate: the worst slack of a kind, in fs, of the design that its resize makes; none
/// where the resize is refused, or where no endpoint has a slack.
pub(crate) fn value_of<H: Threads + Sync, G: Gate, L>(
    base: &Base<'_, H, G>,
    candidate: &Candidate,
    steps: &mut Steps<L>,
) -> Result<Option<Fs>, Memory>
    ensures value { IfOk result (IsTried base.now.store.now.design base.now.kind candidate.now) }
    ensures rises { steps.old ≤ steps.new }
    ensures counted { OnOk result
        (IsCounted base.now.store.now.design (candidate_eco candidate.now) true
        (steps.new - steps.old)) }
{
    let eco = candidate_eco(base.alloc, candidate)?;
    let value = value_after(base, candidate, &eco, steps);
    discard(eco);
    value
}

/// The trial of a candidate: its value, and the steps that it counted.
#[derive(Drop)]
pub(crate) struct Tried<L> {
    pub(crate) value: Option<Fs>,
    pub(crate) steps: Steps<L>,
}

/// The trial of a candidate by one worker, with a count of its own.
pub(crate) fn trial_of<H: Threads + Sync, G: Gate, L>(
    base: &Base<'_, H, G>,
    candidate: &Candidate,
) -> Result<Tried<L>, Memory>
    ensures { IfOk result (IsTrial base.now.store.now.design base.now.kind candidate.now) }
{
    let alone = base.alone();
    let mut steps = Steps::none();
    let value = value_of(&alone, candidate, &mut steps)?;
    Ok(Tried { value, steps })
}
