//! Trials of ECOs on a design, one over the other.

ghost use Rattle.std.specs.Prelude.{◌≡◌, ◌⊎◌, ◌-◌, ◌≤◌, [], ◌∷◌, ◌++◌, true, false, Some, IfOk, IfErr, OnOk, OnErr};
ghost use Rattle.timing_defs.specs.declared.design.Design.{Design};
ghost use Rattle.timing_defs.specs.declared.faults.QueryFault.TheVariants.{Memory as no_answer};
ghost use Rattle.timing_rules.specs.Checks.{Accepts};
ghost use Rattle.timing_rules.specs.Cones.{IsCounted};
ghost use Rattle.timing_defs.specs.Documents.{is_eco};
ghost use Rattle.timing_rules.specs.Questions.{Told, query_fault};
ghost use Rattle.timing_defs.specs.Documents.{is_plain, is_single};
ghost use Rattle.eco_analysis.specs.Counting.{is_told};
ghost use Rattle.eco_analysis.specs.Soundness.{IsRefusal};
ghost use Rattle.what_if.specs.Layers.{OfLast, Drops};

use crate::answers::DraftAnswers;
use affected_cone::{Analysis, ask};
use eco_analysis::{Edited, after_eco};
use netlist_store::Store;
use sta_outside::Gate;
use sta_units::Steps;
use std::alloc::Global;
use std::marker::Model;
use std::thread::Threads;
use timing_defs::{Eco, Fault, Query, QueryFault, Report};

/// A store and its analysis.
#[derive(Drop)]
struct Shown<'a> {
    store: &'a Store,
    analysis: &'a Analysis,
}

/// What an accepted ECO made. Contracts see the design.
#[derive(Drop)]
struct Layer {
    edited: Edited,
}

impl Model for Layer {
    ghost use Rattle.std.specs.Prelude.{◌≡◌};
    ghost use Rattle.std.specs.Arc.{arc_value};
    ghost use Rattle.timing_defs.specs.declared.design.Design.{Design};

    ghost Value = { Design };

    ghost view = { λ l. (arc_value l.edited.store).design };

    ghost invariant = { λ l. (arc_value l.edited.analysis).stored ≡ arc_value l.edited.store };
}

impl Layer {
    fn shown(&self) -> Shown<'_>
        ensures design { result.store.now.design ≡ self.now }
        ensures analysis { result.store.now ≡ result.analysis.now.stored }
    {
        Shown {
            store: &self.edited.store,
            analysis: &self.edited.analysis,
        }
    }

    /// Gives up what an ECO made. Takes no memory.
    fn discard(self) {
        let Layer { edited } = self;
        edited.discard();
    }
}

/// Trials of ECOs on a design, one over the other, of which the last can be dropped. Contracts see the list of
/// designs, the snapshot's first.
#[derive(Drop)]
pub struct Draft<'a> {
    alloc: Global,
    store: &'a Store,
    analysis: &'a Analysis,
    layers: Vec<Layer>,
}

impl<'a> Model for Draft<'a> {
    ghost use Rattle.std.specs.Prelude.{◌≡◌, List, ◌∷◌};
    ghost use Rattle.timing_defs.specs.declared.design.Design.{Design};

    ghost Value = { List Design };

    ghost view = { λ d. d.store.now.design ∷ d.layers.items };

    ghost invariant = { λ d. d.store.now ≡ d.analysis.now.stored };
}

impl<'a> Draft<'a> {
    /// The draft of a snapshot's store and analysis, over which nothing is tried yet. Takes no memory.
    pub fn over(alloc: Global, store: &'a Store, analysis: &'a Analysis) -> Draft<'a>
        requires { store.now ≡ analysis.now.stored }
        ensures { result ≡ store.now.design ∷ [] }
    {
        Draft {
            alloc,
            store,
            analysis,
            layers: Vec::new(alloc),
        }
    }

    /// The last design.
    fn shown(&self) -> Shown<'_>
        ensures design { OfLast self.now (λ last. result.store.now.design ≡ last) }
        ensures analysis { result.store.now ≡ result.analysis.now.stored }
    {
        match self.layers.as_slice().last() {
            Some(layer) => layer.shown(),
            None => Shown {
                store: self.store,
                analysis: self.analysis,
            },
        }
    }

    /// What an ECO makes of the last design.
    fn edited<H: Threads + Sync, G: Gate, L>(
        &self,
        rt: &H,
        eco: &Eco,
        workers: u32,
        gate: &G,
        steps: &mut Steps<L>,
    ) -> Result<Layer, Fault>
        requires eco { is_eco eco.now ≡ true }
        requires some { 1 ≤ workers }
        requires most { workers ≤ 32 }
        ensures accepts { IfOk result
            (λ layer. OfLast self.now (λ last. Accepts last eco.now layer)) }
        ensures rises { steps.old ≤ steps.new }
        ensures counted { OfLast self.now
            (λ last. IsCounted last eco.now (is_told result) (steps.new - steps.old)) }
        ensures refused { IfErr result
            (λ fault. OfLast self.now (λ last. IsRefusal last eco.now fault)) }
    {
        let shown = self.shown();
        match after_eco(
            rt,
            self.alloc,
            shown.store,
            shown.analysis,
            eco,
            workers,
            gate,
            steps,
        ) {
            Ok(edited) => Ok(Layer { edited }),
            Err(fault) => Err(fault),
        }
    }

    /// Tries an ECO on the last design: where it is accepted, the design after it is the last one then. `steps` counts
    /// the evaluations of nodes: where the ECO is accepted at least those that it affects forward, where its design is
    /// sound at most these and those that it affects backward, and else none.
    ///
    /// # Errors
    ///
    /// The first fault of the edits (`E1` to `E9`), or else the first that stands in the design after them (`E10` to
    /// `E17`); want of memory. The draft is then as before.
    #[tactic(auto, using(eco_analysis::proofs::CountLaws::unheard))]
    pub fn try_eco<H: Threads + Sync, G: Gate, L>(
        &mut self,
        rt: &H,
        eco: &Eco,
        workers: u32,
        gate: &G,
        steps: &mut Steps<L>,
    ) -> Result<(), Fault>
        requires eco { is_eco eco.now ≡ true }
        requires some { 1 ≤ workers }
        requires most { workers ≤ 32 }
        ensures tried { OnOk result
            (OfLast self.old
            (λ last. (d : Design) × Accepts last eco.now d × (self.new ≡ self.old ++ d ∷ []))) }
        ensures kept { OnErr result (self.new ≡ self.old) }
        ensures rises { steps.old ≤ steps.new }
        ensures counted { OfLast self.old
            (λ last. IsCounted last eco.now (is_told result) (steps.new - steps.old)) }
        ensures refused { IfErr result
            (λ fault. OfLast self.old (λ last. IsRefusal last eco.now fault)) }
    {
        match self.layers.reserve(1) {
            Ok(()) => match self.edited(rt, eco, workers, gate, steps) {
                Ok(layer) => {
                    self.layers.push_reserved(layer);
                    Ok(())
                }
                Err(fault) => Err(fault),
            },
            Err(_) => Err(Fault::Memory),
        }
    }

    /// Drops the last design, so that the one before it is the last again: true; or false where the snapshot's is the
    /// only one, which stays. Takes no memory.
    pub fn drop_last(&mut self) -> bool
        ensures { Drops self.old result self.new }
    {
        match self.layers.pop() {
            Some(layer) => {
                layer.discard();
                true
            }
            None => false,
        }
    }

    /// The answer to a plain question of the last design.
    ///
    /// # Errors
    ///
    /// `UnknownPin`, `NotEndpoint` or `NotClocked`, as the design has it; want of memory.
    pub fn ask(&self, q: &Query) -> Result<Report, QueryFault>
        requires { is_plain q.now ≡ true }
        ensures told { IfOk result (λ report. OfLast self.now (λ last. Told last q.now report)) }
        ensures refused { IfErr result
            (λ x. OfLast self.now (λ last. (x ≡ no_answer) ⊎ (query_fault last q.now ≡ Some x))) }
    {
        let shown = self.shown();
        ask(self.alloc, shown.store, shown.analysis, q)
    }

    /// The answer to a question of the last design that is neither plain nor about a draft.
    ///
    /// # Errors
    ///
    /// The fault of the question, as the design has it; want of memory.
    pub fn ask_further<H: Threads + Sync, A: DraftAnswers>(
        &self,
        rt: &H,
        answers: &A,
        q: &Query,
    ) -> Result<Report, QueryFault>
        requires single { is_single q.now ≡ true }
        requires further { is_plain q.now ≡ false }
        ensures told { IfOk result (λ report. OfLast self.now (λ last. Told last q.now report)) }
        ensures refused { IfErr result
            (λ x. OfLast self.now (λ last. (x ≡ no_answer) ⊎ (query_fault last q.now ≡ Some x))) }
    {
        let shown = self.shown();
        answers.answer_draft(rt, self.alloc, shown.store, shown.analysis, q)
    }

    /// Gives the draft up. Takes no memory.
    pub fn discard(self) {}
}
