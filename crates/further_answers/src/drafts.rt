//! The answers to questions about ECOs that are tried: drafts and advised sizes.

ghost use Rattle.std.specs.Prelude.{◌≡◌, ◌≤◌, true, [], List, Option, IfOk, IfErr};
ghost use Rattle.std.specs.List.{list_all};
ghost use Rattle.timing_defs.specs.declared.reports.Report.{Drafted};
ghost use Rattle.timing_defs.specs.declared.reports.TrialRow.{TrialRow};
ghost use Rattle.timing_defs.specs.declared.reports.Advice.{Advice};
ghost use Rattle.timing_defs.specs.Documents.{is_draft_trial};
ghost use Rattle.timing_rules.specs.Drafts.{AreTrials};
ghost use Rattle.timing_rules.specs.Advice.{IsAdvice};

use affected_cone::Analysis;
use netlist_store::Store;
use sizing_advisor::advise;
use sta_outside::NoGate;
use sta_units::Steps;
use std::alloc::Global;
use std::thread::Threads;
use timing_defs::{Candidate, Items, Kind, QueryFault, Report, Trial};
use what_if::{DraftAnswers, trial_rows};

/// Names the count of evaluations for an advice.
#[derive(Drop)]
struct Evaluated;

/// What trials on a draft of the design answer; questions that are no plain ones by `answers`.
pub(crate) fn drafted<H: Threads + Sync, A: DraftAnswers>(
    rt: &H,
    alloc: Global,
    store: &Store,
    analysis: &Analysis,
    trials: &Items<Trial>,
    workers: u32,
    answers: &A,
) -> Result<Report, QueryFault>
    requires store { store.now ≡ analysis.now.stored }
    requires trials { list_all is_draft_trial trials.now ≡ true }
    requires some { 1 ≤ workers }
    requires most { workers ≤ 32 }
    ensures told { IfOk result
        (λ r. (rows : List TrialRow) × AreTrials store.now.design [] trials.now rows
        × (r ≡ Drafted rows)) }
    ensures refused { IfErr result (λ fault. fault ≡ QueryFault.Memory) }
{
    let rows = trial_rows(rt, alloc, store, analysis, trials, workers, answers)?;
    Ok(Report::Drafted(rows))
}

/// The resize with which the worst slack is greatest.
pub(crate) fn advised<H: Threads + Sync>(
    rt: &H,
    alloc: Global,
    store: &Store,
    analysis: &Analysis,
    kind: Kind,
    candidates: &Items<Candidate>,
    workers: u32,
) -> Result<Report, QueryFault>
    requires store { store.now ≡ analysis.now.stored }
    requires some { 1 ≤ workers }
    requires most { workers ≤ 32 }
    ensures told { IfOk result
        (λ r. (advice : Option Advice) × IsAdvice store.now.design kind candidates.now advice
        × (r ≡ Report.Advised advice)) }
    ensures refused { IfErr result (λ fault. fault ≡ QueryFault.Memory) }
{
    let mut steps: Steps<Evaluated> = Steps::none();
    let advice = advise(
        rt, alloc, store, analysis, kind, candidates, workers, &NoGate, &mut steps,
    )?;
    Ok(Report::Advised(advice))
}
