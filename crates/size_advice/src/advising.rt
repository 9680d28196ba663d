//! The report on the best of some resizes.

ghost use Rattle.std.specs.Prelude.{◌≡◌, ◌≤◌, length, map, filter, is_none, IfOk};
ghost use Rattle.timing_rules.specs.SizeAdvice.{IsAdviceReport};
ghost use Rattle.size_advice.specs.Keeping.{advice_of, IsMadeOf, AreApart};

use crate::bases::Base;
use crate::kept::best_found;
use crate::ordering::{Found, Target};
use crate::outcomes::outcomes_of;
use crate::totals::slack_totals;
use affected_cone::Analysis;
use netlist_store::Store;
use sta_units::Memory;
use std::alloc::Global;
use std::thread::Threads;
use timing_defs::{AdviceReport, Candidate, Items, SizeAdvice, SlackTotals};

/// How many resizes are refused.
fn refused_count(outcomes: &[Option<SlackTotals>]) -> u64
    ensures { result ≡ length (filter is_none outcomes.now) }
{
    outcomes.iter().filter(|outcome| outcome.is_none()).count() as u64
}

/// The advice of a resize; its names are copied.
fn advice_of(alloc: Global, found: &Found<'_>) -> Result<SizeAdvice, Memory>
    ensures { IfOk result (λ advice. advice ≡ advice_of found.now) }
{
    let inst = found.candidate.inst.copied(alloc)?;
    let cell = found.candidate.cell.copied(alloc)?;
    Ok(SizeAdvice {
        inst,
        cell,
        after: found.after,
    })
}

/// The advices of resizes, in their order.
fn advices_of(alloc: Global, found: &[Found<'_>]) -> Result<Items<SizeAdvice>, Memory>
    ensures { IfOk result (λ rows. rows ≡ map advice_of found.now) }
{
    let mut rows = Items::new(alloc);
    for one in found {
        let row = advice_of(alloc, one)?;
        rows.push(row)?;
    }
    Ok(rows)
}

/// The report on some candidates with their outcomes.
fn report_of(
    alloc: Global,
    target: Target,
    now: SlackTotals,
    candidates: &[Candidate],
    outcomes: &[Option<SlackTotals>],
) -> Result<AdviceReport, Memory>
    requires { length outcomes.now ≡ length candidates.now }
    ensures { IfOk result
        (IsMadeOf target.kind target.aim now candidates.now outcomes.now) }
{
    let best = best_found(alloc, target, now, candidates, outcomes)?;
    let rows = advices_of(alloc, best.as_slice())?;
    Ok(AdviceReport {
        now,
        tried: candidates.len() as u64,
        refused: refused_count(outcomes),
        rows,
    })
}

/// The best of some candidates, each tried alone on the store: of those with which what is aimed at
/// is greater than now the five with which it is greatest, the greatest first, of equals the first
/// by the instance's name and then by the cell's. The report has the totals now, how many
/// candidates there are, and how many of them are refused. The store and its analysis stay as they
/// are. With more than one worker several candidates are shared between as many threads as there
/// are processors; the report is the same. The one error is want of memory.
#[tactic(auto, using(crate::proofs::ReportLaws::outcomes_long))]
pub fn advice_report<H: Threads + Sync>(
    rt: &H,
    alloc: Global,
    store: &Store,
    analysis: &Analysis,
    target: Target,
    candidates: &Items<Candidate>,
    workers: u32,
) -> Result<AdviceReport, Memory>
    requires analysis { store.now ≡ analysis.now.stored }
    requires some { 1 ≤ workers }
    requires most { workers ≤ 32 }
    requires apart { AreApart candidates.now }
    ensures { IfOk result
        (IsAdviceReport store.now.design target.kind target.aim candidates.now) }
{
    let base = Base {
        rt,
        alloc,
        store,
        analysis,
        workers,
    };
    let outcomes = outcomes_of(&base, candidates.as_slice())?;
    let now = slack_totals(analysis);
    report_of(
        alloc,
        target,
        now,
        candidates.as_slice(),
        outcomes.as_slice(),
    )
}
