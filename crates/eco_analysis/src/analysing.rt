//! The analysis of a design in which nothing stands, from nothing or from that before an ECO.

ghost use Rattle.std.specs.Prelude.{◌≡◌, ◌+◌, ◌≤◌, IfOk, IfErr, OnOk};
ghost use Rattle.std.specs.Arc.{arc_value};
ghost use Rattle.timing_rules.specs.Checks.{IsSound};
ghost use Rattle.timing_rules.specs.Cones.{forward_count, backward_count};
ghost use Rattle.netlist_store.specs.Applying.{IsEditOf};
ghost use Rattle.eco_analysis.specs.Soundness.{IsUnsound, IsSoundEdit};

use crate::owners::shared;
use crate::soundness::{sound_graph, sound_graph_edited};
use affected_cone::Analysis;
use netlist_store::{Store, Touched};
use sta_outside::Gate;
use sta_units::Steps;
use std::alloc::Global;
use std::sync::Arc;
use std::thread::Threads;
use timing_defs::Fault;

/// The analysis of a store, or the first fault that stands in its design.
#[tactic(auto, using(crate::proofs::SoundLaws::range_refused))]
fn analysis_of<H: Threads + Sync, G: Gate>(
    rt: &H,
    alloc: Global,
    store: &Store,
    workers: u32,
    gate: &G,
) -> Result<Analysis, Fault>
    requires some { 1 ≤ workers }
    requires most { workers ≤ 32 }
    ensures analysis { IfOk result (λ a. a.stored ≡ store.now) }
    ensures refused { IfErr result (IsUnsound store.now.design) }
{
    match sound_graph(rt, alloc, store) {
        Ok(graph) => Analysis::full(rt, alloc, store, graph, workers, gate),
        Err(fault) => Err(fault),
    }
}

/// The analysis of a store, with one owner; or the first fault that stands in its design.
pub fn analysed<H: Threads + Sync, G: Gate>(
    rt: &H,
    alloc: Global,
    store: &Store,
    workers: u32,
    gate: &G,
) -> Result<Arc<Analysis>, Fault>
    requires some { 1 ≤ workers }
    requires most { workers ≤ 32 }
    ensures analysis { IfOk result (λ a. (arc_value a).stored ≡ store.now) }
    ensures refused { IfErr result (IsUnsound store.now.design) }
{
    match analysis_of(rt, alloc, store, workers, gate) {
        Ok(analysis) => Ok(shared(alloc, analysis)?),
        Err(fault) => Err(fault),
    }
}

/// The analysis of a store that an ECO made, from that of its base; or the first fault that stands in the
/// design after the ECO.
#[tactic(auto, using(crate::proofs::SoundLaws::range_refused, crate::proofs::SoundLaws::edit_of_graph))]
fn edited_analysis<H: Threads + Sync, G: Gate, L>(
    rt: &H,
    alloc: Global,
    base: &Analysis,
    store: &Store,
    touched: &Touched,
    workers: u32,
    gate: &G,
    steps: &mut Steps<L>,
) -> Result<Analysis, Fault>
    requires some { 1 ≤ workers }
    requires most { workers ≤ 32 }
    requires edit { IsSoundEdit touched.now.nets store.now.design }
    requires applied { IsEditOf base.now.stored
        (record { insts = touched.now.insts; nets = touched.now.nets }) store.now }
    ensures analysis { IfOk result (λ a. a.stored ≡ store.now) }
    ensures least { OnOk result
        (steps.old + forward_count base.now.stored.design store.now.design
        (record { insts = touched.now.insts; nets = touched.now.nets }) ≤ steps.new) }
    ensures rises { steps.old ≤ steps.new }
    ensures most { steps.new ≤ steps.old + forward_count base.now.stored.design store.now.design
        (record { insts = touched.now.insts; nets = touched.now.nets }) + backward_count
        base.now.stored.design store.now.design
        (record { insts = touched.now.insts; nets = touched.now.nets }) }
    ensures unsound { (IsSound store.now.design → ⊥) → steps.new ≡ steps.old }
    ensures refused { IfErr result (IsUnsound store.now.design) }
{
    match sound_graph_edited(alloc, base.graph(), store, touched) {
        Ok(graph) => base.update(rt, alloc, store, graph, touched, workers, gate, steps),
        Err(fault) => Err(fault),
    }
}

/// The analysis of a store that an ECO made, with one owner; or the first fault that stands in the design
/// after the ECO.
pub(crate) fn analysed_edited<H: Threads + Sync, G: Gate, L>(
    rt: &H,
    alloc: Global,
    base: &Analysis,
    store: &Store,
    touched: &Touched,
    workers: u32,
    gate: &G,
    steps: &mut Steps<L>,
) -> Result<Arc<Analysis>, Fault>
    requires some { 1 ≤ workers }
    requires most { workers ≤ 32 }
    requires edit { IsSoundEdit touched.now.nets store.now.design }
    requires applied { IsEditOf base.now.stored
        (record { insts = touched.now.insts; nets = touched.now.nets }) store.now }
    ensures analysis { IfOk result (λ a. (arc_value a).stored ≡ store.now) }
    ensures least { OnOk result
        (steps.old + forward_count base.now.stored.design store.now.design
        (record { insts = touched.now.insts; nets = touched.now.nets }) ≤ steps.new) }
    ensures rises { steps.old ≤ steps.new }
    ensures most { steps.new ≤ steps.old + forward_count base.now.stored.design store.now.design
        (record { insts = touched.now.insts; nets = touched.now.nets }) + backward_count
        base.now.stored.design store.now.design
        (record { insts = touched.now.insts; nets = touched.now.nets }) }
    ensures unsound { (IsSound store.now.design → ⊥) → steps.new ≡ steps.old }
    ensures refused { IfErr result (IsUnsound store.now.design) }
{
    match edited_analysis(rt, alloc, base, store, touched, workers, gate, steps) {
        Ok(analysis) => Ok(shared(alloc, analysis)?),
        Err(fault) => Err(fault),
    }
}
