//! The answers to a list of trials on a draft.

ghost use Rattle.std.specs.Prelude.{◌≡◌, ◌≤◌, ◌⊎◌, [], ◌∷◌, true, Some, IfOk, IfErr, OnOk};
ghost use Rattle.std.specs.List.{list_all};
ghost use Rattle.timing_defs.specs.declared.design.Design.{Design};
ghost use Rattle.timing_defs.specs.declared.faults.QueryFault.TheVariants.{Memory as no_answer};
ghost use Rattle.timing_defs.specs.declared.reports.Trial.TheVariants.{Try, Drop as drop_trial, Ask};
ghost use Rattle.timing_defs.specs.Documents.{is_eco, is_draft_trial, is_single};
ghost use Rattle.timing_rules.specs.Drafts.{AreTrials};
ghost use Rattle.timing_rules.specs.Questions.{Told, query_fault};
ghost use Rattle.what_if.specs.Layers.{OfLast, Follows, IsRowOf};

use crate::answers::DraftAnswers;
use crate::bases::Base;
use crate::drafts::Draft;
use affected_cone::{Analysis, is_plain};
use eco_analysis::tells;
use netlist_store::Store;
use sta_outside::NoGate;
use sta_units::{Again, Memory, Steps};
use std::alloc::Global;
use std::thread::Threads;
use timing_defs::{Eco, Items, Query, QueryFault, Report, Trial, TrialAnswer, TrialRow};

/// The count of nodes that are evaluated for trials.
struct Evaluated;

fn discard_query(_query: Query) {}

/// The answer to an ECO that is tried.
fn tried<H: Threads + Sync, A: DraftAnswers>(
    base: &Base<'_, H, A>,
    draft: &mut Draft<'_>,
    eco: &Eco,
) -> Result<TrialAnswer, Memory>
    requires { is_eco eco.now ≡ true }
    ensures { IfOk result (λ answer. Follows draft.old (Try eco.now) answer draft.new) }
{
    let mut steps: Steps<Evaluated> = Steps::none();
    match draft.try_eco(base.rt, eco, base.workers, &NoGate, &mut steps) {
        Ok(()) => Ok(TrialAnswer::Tried),
        Err(fault) => {
            if tells(&fault) {
                Ok(TrialAnswer::Refused(fault))
            } else {
                Err(Memory)
            }
        }
    }
}

/// The answer where the last design is to be dropped.
fn dropped(draft: &mut Draft<'_>) -> TrialAnswer
    ensures { Follows draft.old drop_trial result draft.new }
{
    if draft.drop_last() {
        TrialAnswer::Dropped
    } else {
        TrialAnswer::NoDraft
    }
}

/// What the last design answers a question that is about no draft.
fn asked<H: Threads + Sync, A: DraftAnswers>(
    base: &Base<'_, H, A>,
    draft: &Draft<'_>,
    query: &Query,
) -> Result<Report, QueryFault>
    requires { is_single query.now ≡ true }
    ensures told { IfOk result
        (λ report. OfLast draft.now (λ last. Told last query.now report)) }
    ensures refused { IfErr result
        (λ x. OfLast draft.now (λ last. (x ≡ no_answer) ⊎ (query_fault last query.now ≡ Some x))) }
{
    if is_plain(query) {
        draft.ask(query)
    } else {
        draft.ask_further(base.rt, base.answers, query)
    }
}

/// The answer to a question that is about no draft.
fn told<H: Threads + Sync, A: DraftAnswers>(
    base: &Base<'_, H, A>,
    draft: &Draft<'_>,
    query: &Query,
) -> Result<TrialAnswer, Memory>
    requires { is_single query.now ≡ true }
    ensures { IfOk result (λ answer. Follows draft.now (Ask query.now) answer draft.now) }
{
    match asked(base, draft, query) {
        Ok(report) => Ok(TrialAnswer::Told(report)),
        Err(QueryFault::Memory) => Err(Memory),
        Err(fault) => Ok(TrialAnswer::No(fault)),
    }
}

/// The row of a question that is about no draft, with a copy of it.
fn told_row<H: Threads + Sync, A: DraftAnswers>(
    base: &Base<'_, H, A>,
    draft: &Draft<'_>,
    query: &Query,
) -> Result<TrialRow, Memory>
    requires { is_single query.now ≡ true }
    ensures { IfOk result (λ row. IsRowOf draft.now (Ask query.now) row draft.now) }
{
    let copy = query.again(base.alloc)?;
    match told(base, draft, query) {
        Ok(answer) => Ok(TrialRow {
            query: Some(copy),
            answer,
        }),
        Err(Memory) => {
            discard_query(copy);
            Err(Memory)
        }
    }
}

/// The row of a trial.
fn row_of<H: Threads + Sync, A: DraftAnswers>(
    base: &Base<'_, H, A>,
    draft: &mut Draft<'_>,
    trial: &Trial,
) -> Result<TrialRow, Memory>
    requires { is_draft_trial trial.now ≡ true }
    ensures { IfOk result (λ row. IsRowOf draft.old trial.now row draft.new) }
{
    match trial {
        Trial::Try(eco) => {
            let answer = tried(base, draft, eco)?;
            Ok(TrialRow {
                query: None,
                answer,
            })
        }
        Trial::Drop => Ok(TrialRow {
            query: None,
            answer: dropped(draft),
        }),
        Trial::Ask(query) => told_row(base, draft, query),
    }
}

/// Adds the rows of all trials to none, on a draft over which nothing is tried yet.
fn push_rows<H: Threads + Sync, A: DraftAnswers>(
    base: &Base<'_, H, A>,
    draft: &mut Draft<'_>,
    rows: &mut Items<TrialRow>,
    trials: &[Trial],
) -> Result<(), Memory>
    requires none { rows.old ≡ [] }
    requires trials { list_all is_draft_trial trials.now ≡ true }
    ensures { OnOk result
        ((snapshot : Design) → draft.old ≡ snapshot ∷ []
        → AreTrials snapshot [] trials.now rows.new) }
{
    for trial in trials {
        let row = row_of(base, draft, trial)?;
        rows.push(row)?;
    }
    Ok(())
}

/// Adds the rows of all trials on a draft of a design to none.
fn push_draft_rows<H: Threads + Sync, A: DraftAnswers>(
    base: &Base<'_, H, A>,
    rows: &mut Items<TrialRow>,
    trials: &[Trial],
) -> Result<(), Memory>
    requires none { rows.old ≡ [] }
    requires trials { list_all is_draft_trial trials.now ≡ true }
    ensures { OnOk result (AreTrials base.now.store.now.design [] trials.now rows.new) }
{
    let mut draft = Draft::over(base.alloc, base.store, base.analysis);
    let done = push_rows(base, &mut draft, rows, trials);
    draft.discard();
    done
}

fn discard_rows(_rows: Items<TrialRow>) {}

/// The rows of trials on a draft of a design, one each, in order: edits are tried over the last design, the last
/// accepted ones are dropped, or the last design is asked, by `answers` where the question is no plain one. The store and its
/// analysis stay as they are.
///
/// # Errors
///
/// Want of memory alone.
pub fn trial_rows<H: Threads + Sync, A: DraftAnswers>(
    rt: &H,
    alloc: Global,
    store: &Store,
    analysis: &Analysis,
    trials: &Items<Trial>,
    workers: u32,
    answers: &A,
) -> Result<Items<TrialRow>, Memory>
    requires analysis { store.now ≡ analysis.now.stored }
    requires trials { list_all is_draft_trial trials.now ≡ true }
    requires some { 1 ≤ workers }
    requires most { workers ≤ 32 }
    ensures { IfOk result (λ rows. AreTrials store.now.design [] trials.now rows) }
{
    let base = Base {
        rt,
        alloc,
        store,
        analysis,
        workers,
        answers,
    };
    match Items::with_room(alloc, trials.len()) {
        Ok(mut rows) => match push_draft_rows(&base, &mut rows, trials.as_slice()) {
            Ok(()) => Ok(rows),
            Err(Memory) => {
                discard_rows(rows);
                Err(Memory)
            }
        },
        Err(Memory) => Err(Memory),
    }
}
