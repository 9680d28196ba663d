//! The store that an ECO makes of another one, and its analysis.

ghost use Rattle.std.specs.Prelude.{◌≡◌, ◌+◌, ◌-◌, ◌≤◌, true, IfOk, IfErr, OnOk};
ghost use Rattle.std.specs.Arc.{arc_value};
ghost use Rattle.timing_defs.specs.Documents.{is_eco};
ghost use Rattle.timing_defs.specs.declared.design.Design.{Design};
ghost use Rattle.timing_defs.specs.declared.faults.Fault.{Fault};
ghost use Rattle.timing_rules.specs.Checks.{Accepts, Refuses, IsSound};
ghost use Rattle.timing_rules.specs.Cones.{forward_count, backward_count, IsCounted};
ghost use Rattle.netlist_store.specs.Applying.{IsApplied, IsRefused};
ghost use Rattle.design_link.specs.After.{IsMadeOf};
ghost use Rattle.affected_cone.specs.Analysed.{IsAnalysis};
ghost use Rattle.eco_analysis.specs.Soundness.{IsRefusal};
ghost use Rattle.eco_analysis.specs.Counting.{tells, is_told};

use crate::analysing::analysed_edited;
use crate::owners::{shared, tell_laws};
use affected_cone::Analysis;
use netlist_store::{Store, Touched};
use sta_outside::Gate;
use sta_units::{Memory, Steps};
use std::alloc::Global;
use std::sync::Arc;
use std::thread::Threads;
use timing_defs::{Eco, Fault};

/// A store that an ECO made of another one, and its analysis, each with one owner.
#[derive(Drop)]
pub struct Edited {
    pub store: Arc<Store>,
    pub analysis: Arc<Analysis>,
}

impl Edited {
    /// What the analysis keeps, told to the proofs of callers; the call does nothing.
    pub fn laws(&self)
        ensures { IsAnalysis (arc_value self.now.analysis) }
    {
        tell_laws(&self.analysis);
    }

    /// Gives both up. Takes no memory.
    pub fn discard(self) {
        let Edited { store, analysis } = self;
        let _ = (store, analysis);
    }
}

/// Whether a fault tells of a design: each but want of memory.
pub fn tells(fault: &Fault) -> bool
    ensures { result ≡ tells fault.now }
{
    !matches!(fault, Fault::Memory)
}

/// The store after an ECO on an analysed one, and what it touched.
#[tactic(auto, using(crate::proofs::EditLaws::base_sized))]
fn store_after(
    alloc: Global,
    store: &Store,
    analysis: &Analysis,
    eco: &Eco,
) -> Result<(Store, Touched), Fault>
    requires analysis { store.now ≡ analysis.now.stored }
    requires eco { is_eco eco.now ≡ true }
    ensures made { IfOk result
        (λ made. IsMadeOf store.now.design eco.now made.1.nets made.0.design) }
    ensures applied { IfOk result
        (λ made. IsApplied store.now eco.now made.0
        (record { insts = made.1.insts; nets = made.1.nets })) }
    ensures refused { IfErr result (IsRefused store.now.design eco.now) }
{
    analysis.laws();
    store.laws();
    let made = store.apply(alloc, eco)?;
    Ok(made)
}

/// The store after an ECO, with one owner, and what it touched.
fn shared_edit(
    alloc: Global,
    store: Store,
    touched: Touched,
) -> Result<(Arc<Store>, Touched), Memory>
    ensures { IfOk result (λ made. (arc_value made.0 ≡ store) × (made.1 ≡ touched)) }
{
    match shared(alloc, store) {
        Ok(store) => Ok((store, touched)),
        Err(Memory) => Err(Memory),
    }
}

/// The store that an ECO made of a base, with its analysis.
#[tactic(auto, using(crate::proofs::EditLaws::base_edit, crate::proofs::EditLaws::base_applied, crate::proofs::EditLaws::analysed_accepted, crate::proofs::SoundLaws::unsound_refused))]
fn prepared<H: Threads + Sync, G: Gate, L>(
    rt: &H,
    alloc: Global,
    base: &Store,
    analysis: &Analysis,
    eco: &Eco,
    store: Arc<Store>,
    touched: &Touched,
    workers: u32,
    gate: &G,
    steps: &mut Steps<L>,
) -> Result<Edited, Fault>
    requires analysis { base.now ≡ analysis.now.stored }
    requires some { 1 ≤ workers }
    requires most { workers ≤ 32 }
    requires made { IsMadeOf base.now.design eco.now touched.now.nets (arc_value store).design }
    requires applied { IsApplied base.now eco.now (arc_value store)
        (record { insts = touched.now.insts; nets = touched.now.nets }) }
    ensures accepts { IfOk result
        (λ next. Accepts base.now.design eco.now (arc_value next.store).design) }
    ensures analysed { IfOk result
        (λ next. (arc_value next.analysis).stored ≡ arc_value next.store) }
    ensures least { OnOk result
        (steps.old + forward_count base.now.design (arc_value store).design
        (record { insts = touched.now.insts; nets = touched.now.nets }) ≤ steps.new) }
    ensures rises { steps.old ≤ steps.new }
    ensures most { steps.new ≤ steps.old + forward_count base.now.design (arc_value store).design
        (record { insts = touched.now.insts; nets = touched.now.nets }) + backward_count
        base.now.design (arc_value store).design
        (record { insts = touched.now.insts; nets = touched.now.nets }) }
    ensures unsound { (IsSound (arc_value store).design → ⊥) → steps.new ≡ steps.old }
    ensures refused { IfErr result (IsRefusal base.now.design eco.now) }
{
    analysis.laws();
    match analysed_edited(rt, alloc, analysis, &store, touched, workers, gate, steps) {
        Ok(analysis) => {
            tell_laws(&analysis);
            Ok(Edited { store, analysis })
        }
        Err(fault) => Err(fault),
    }
}

/// An ECO is accepted with one design, and what is accepted is not refused, told to the proofs of callers;
/// the call does nothing.
#[tactic(auto, using(timing_rules::proofs::LongerJournals::accepted_once, timing_rules::proofs::LongerJournals::not_both))]
pub fn exclusion(eco: &Eco)
    ensures once { (d : Design) → (a : Design) → (b : Design) → Accepts d eco.now a
        → Accepts d eco.now b → a ≡ b }
    ensures apart { (d : Design) → (a : Design) → Accepts d eco.now a → (x : Fault)
        → Refuses d eco.now x → ⊥ }
{
    let _ = eco;
}

/// The store that an ECO makes of an analysed one, with its analysis; the base stays as it is. An ECO is
/// refused by the first fault of its edits (`E1` to `E9`), or else by the first that stands in the design
/// after them, in the order too large (`E17`), two drivers (`E10`), a loop (`E11`), a clock network that is
/// no tree (`E12`), a constraint on nothing (`E13`), parasitics that are no tree (`E14`) or of other pins
/// (`E15`), a quantity out of its range (`E16`). The checks of nets and data look at what the ECO touched,
/// and so does the graph where it left the clock network; the analysis is that of the base where the ECO
/// leads to no change. `steps` counts the evaluations of nodes: where the ECO is accepted at least those
/// that it affects forward, where its design is sound at most these and those that it affects backward,
/// and else none.
#[tactic(auto, using(crate::proofs::CountLaws::counted, crate::proofs::CountLaws::uncounted, crate::proofs::CountLaws::unheard))]
pub fn after_eco<H: Threads + Sync, G: Gate, L>(
    rt: &H,
    alloc: Global,
    store: &Store,
    analysis: &Analysis,
    eco: &Eco,
    workers: u32,
    gate: &G,
    steps: &mut Steps<L>,
) -> Result<Edited, Fault>
    requires analysis { store.now ≡ analysis.now.stored }
    requires eco { is_eco eco.now ≡ true }
    requires some { 1 ≤ workers }
    requires most { workers ≤ 32 }
    ensures accepts { IfOk result
        (λ next. Accepts store.now.design eco.now (arc_value next.store).design) }
    ensures analysed { IfOk result
        (λ next. (arc_value next.analysis).stored ≡ arc_value next.store) }
    ensures rises { steps.old ≤ steps.new }
    ensures counted { IsCounted store.now.design eco.now (is_told result) (steps.new - steps.old) }
    ensures refused { IfErr result (IsRefusal store.now.design eco.now) }
{
    match store_after(alloc, store, analysis, eco) {
        Ok((after, touched)) => {
            let (after, touched) = shared_edit(alloc, after, touched)?;
            prepared(
                rt, alloc, store, analysis, eco, after, &touched, workers, gate, steps,
            )
        }
        Err(fault) => Err(fault),
    }
}
