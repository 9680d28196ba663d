//! The answers to the questions for the best of some resizes: of candidates by the total negative
//! slack, and of all sizes of instances.

ghost use Rattle.std.specs.Prelude.{◌≡◌, ◌≤◌, [], None, IfOk, IfErr, OnOk};
ghost use Rattle.timing_defs.specs.declared.closing.Aim.TheVariants.{Tns};
ghost use Rattle.timing_defs.specs.declared.closing.ClosingQuery.TheVariants.{AdviseTns, AdviseSizes};
ghost use Rattle.timing_rules.specs.Closing.{closing_fault};
ghost use Rattle.timing_rules.specs.SizeAdvice.{IsAdviceReport, once, same_candidate, all_sizes};
ghost use Rattle.affected_cone.specs.Asked.{IsRefusal};

use crate::advising::advice_report;
use crate::candidates::{candidates_there, once};
use crate::ordering::Target;
use crate::sizes::sizes_asked;
use affected_cone::Analysis;
use netlist_store::Store;
use sta_units::Memory;
use std::alloc::Global;
use std::thread::Threads;
use timing_defs::{AdviceReport, Aim, Candidate, Items, Kind, Name, QueryFault};

/// The best of some candidates, each once.
fn report_once<H: Threads + Sync>(
    rt: &H,
    alloc: Global,
    store: &Store,
    analysis: &Analysis,
    target: Target,
    candidates: &Items<Candidate>,
    workers: u32,
) -> Result<AdviceReport, Memory>
    requires analysis { store.now ≡ analysis.now.stored }
    requires some { 1 ≤ workers }
    requires most { workers ≤ 32 }
    ensures { IfOk result
        (IsAdviceReport store.now.design target.kind target.aim
        (once same_candidate [] candidates.now)) }
{
    let each = once(alloc, candidates)?;
    advice_report(rt, alloc, store, analysis, target, &each, workers)
}

/// The best of some candidates by the total negative slack, each once: the five with which it is
/// greatest, where it is greater than now, with the totals now, how many were tried and how many
/// refused. `UnknownName` of the first instance, or else cell, that is not there; the one other
/// error is want of memory.
#[tactic(auto, using(crate::proofs::ReportLaws::sound_of))]
pub fn advise_tns<H: Threads + Sync>(
    rt: &H,
    alloc: Global,
    store: &Store,
    analysis: &Analysis,
    kind: Kind,
    candidates: &Items<Candidate>,
    workers: u32,
) -> Result<AdviceReport, QueryFault>
    requires analysis { store.now ≡ analysis.now.stored }
    requires some { 1 ≤ workers }
    requires most { workers ≤ 32 }
    ensures there { OnOk result
        (closing_fault store.now.design (AdviseTns kind candidates.now) ≡ None) }
    ensures report { IfOk result
        (IsAdviceReport store.now.design kind Tns (once same_candidate [] candidates.now)) }
    ensures refused { IfErr result
        (IsRefusal (closing_fault store.now.design (AdviseTns kind candidates.now))) }
{
    analysis.laws();
    candidates_there(alloc, store, candidates)?;
    let target = Target {
        kind,
        aim: Aim::Tns,
    };
    let report = report_once(rt, alloc, store, analysis, target, candidates, workers)?;
    Ok(report)
}

/// The best of all sizes of instances by what the target says, each instance once: the five with
/// which it is greatest, where it is greater than now, with the totals now, how many were tried and
/// how many refused. `UnknownName` of the first instance that is not there; else `TooMany` where
/// more than 20 instances are written, or where they have more than 200 sizes; the one other error
/// is want of memory.
#[tactic(auto, using(crate::proofs::ReportLaws::sound_of))]
pub fn advise_sizes<H: Threads + Sync>(
    rt: &H,
    alloc: Global,
    store: &Store,
    analysis: &Analysis,
    target: Target,
    insts: &[Name],
    workers: u32,
) -> Result<AdviceReport, QueryFault>
    requires analysis { store.now ≡ analysis.now.stored }
    requires some { 1 ≤ workers }
    requires most { workers ≤ 32 }
    ensures there { OnOk result
        (closing_fault store.now.design (AdviseSizes target.kind target.aim insts.now) ≡ None) }
    ensures report { IfOk result
        (IsAdviceReport store.now.design target.kind target.aim
        (all_sizes store.now.design insts.now)) }
    ensures refused { IfErr result
        (IsRefusal
        (closing_fault store.now.design (AdviseSizes target.kind target.aim insts.now))) }
{
    analysis.laws();
    let sizes = sizes_asked(alloc, store, insts)?;
    let report = advice_report(rt, alloc, store, analysis, target, &sizes, workers);
    drop(sizes);
    Ok(report?)
}
