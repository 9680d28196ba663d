//! The advised resize.

ghost use Rattle.std.specs.Prelude.{◌≡◌, ◌-◌, ◌≤◌, map, IfOk, OnOk};
ghost use Rattle.timing_rules.specs.Advice.{candidate_eco, IsAdvice};
ghost use Rattle.timing_rules.specs.Cones.{AreCounted};
ghost use Rattle.sizing_advisor.specs.Greatest.{IsGreatestAdvice};
ghost use Rattle.sizing_advisor.specs.Trying.{IsBest};

use crate::bases::Base;
use crate::choices::{Best, as_advice, better};
use crate::sharing::shared_trials;
use crate::trials::{Tried, value_of};
use affected_cone::Analysis;
use netlist_store::Store;
use sta_outside::Gate;
use sta_units::{Memory, Steps};
use std::alloc::Global;
use std::thread::Threads;
use timing_defs::{Advice, Candidate, Items, Kind};

/// The best of some candidates, tried one after another.
fn best_in_turn<'a, H: Threads + Sync, G: Gate, L>(
    base: &Base<'_, H, G>,
    candidates: &'a [Candidate],
    steps: &mut Steps<L>,
) -> Result<Option<Best<'a>>, Memory>
    ensures best { IfOk result
        (λ best. IsBest base.now.store.now.design base.now.kind candidates.now best steps.old
        steps.new) }
    ensures rises { steps.old ≤ steps.new }
{
    let mut best = None;
    for candidate in candidates {
        let value = value_of(base, candidate, steps)?;
        best = better(best, candidate, value);
    }
    Ok(best)
}

/// The best of some candidates, whose trials are shared between threads.
fn best_shared<'a, H: Threads + Sync, G: Gate, L>(
    base: &Base<'_, H, G>,
    candidates: &'a [Candidate],
    steps: &mut Steps<L>,
) -> Result<Option<Best<'a>>, Memory>
    ensures best { IfOk result
        (λ best. IsBest base.now.store.now.design base.now.kind candidates.now best steps.old
        steps.new) }
    ensures rises { steps.old ≤ steps.new }
{
    let trials = shared_trials(base, candidates)?;
    let mut best = None;
    for (candidate, trial) in candidates.iter().zip(trials.into_vec()) {
        let Tried {
            value,
            steps: counted,
        } = trial;
        steps.add(counted);
        best = better(best, candidate, value);
    }
    Ok(best)
}

/// The best of some candidates: where there are several, and several workers, their trials are shared between
/// threads, and else each is tried with all workers.
fn best_of<'a, H: Threads + Sync, G: Gate, L>(
    base: &Base<'_, H, G>,
    candidates: &'a [Candidate],
    steps: &mut Steps<L>,
) -> Result<Option<Best<'a>>, Memory>
    ensures best { IfOk result
        (λ best. IsBest base.now.store.now.design base.now.kind candidates.now best steps.old
        steps.new) }
    ensures rises { steps.old ≤ steps.new }
{
    if base.workers < 2 || candidates.len() < 2 {
        best_in_turn(base, candidates, steps)
    } else {
        best_shared(base, candidates, steps)
    }
}

/// The advised resize: of the candidates, each tried alone on the store, the first with which the worst
/// slack of the kind is greatest, and that slack in fs; none where each is refused or no endpoint has a slack.
/// A refused candidate has no value. The store and its analysis stay as they are. With more than one worker
/// several candidates are shared between as many threads as there are processors; the answer is the same.
/// `steps` counts the evaluations of nodes, summed over the candidates: of each whose resize is accepted at
/// least the nodes that it affects forward, of each whose design is sound at most these and those that it
/// affects backward, and else none.
#[tactic(auto, using(crate::proofs::BestIsGreatest::greatest_told))]
pub fn advise<H: Threads + Sync, G: Gate, L>(
    rt: &H,
    alloc: Global,
    store: &Store,
    analysis: &Analysis,
    kind: Kind,
    candidates: &Items<Candidate>,
    workers: u32,
    gate: &G,
    steps: &mut Steps<L>,
) -> Result<Option<Advice>, Memory>
    requires analysis { store.now ≡ analysis.now.stored }
    requires some { 1 ≤ workers }
    requires most { workers ≤ 32 }
    ensures advice { IfOk result (IsAdvice store.now.design kind candidates.now) }
    ensures greatest { IfOk result (IsGreatestAdvice store.now.design kind candidates.now) }
    ensures rises { steps.old ≤ steps.new }
    ensures counted { OnOk result
        (AreCounted store.now.design (map candidate_eco candidates.now) (steps.new - steps.old)) }
{
    let base = Base {
        rt,
        alloc,
        store,
        analysis,
        kind,
        workers,
        gate,
    };
    let best = best_of(&base, candidates.as_slice(), steps)?;
    as_advice(alloc, best)
}
