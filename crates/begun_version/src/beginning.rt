//! The version with which a run begins, or why there is none.

ghost use Rattle.std.specs.Prelude.{◌≡◌, ◌≤◌, [], length, Some, None, IfOk, IfErr};
ghost use Rattle.std.specs.Arc.{arc_value};
ghost use Rattle.shell_core.specs.Kept.{IsKeptDesign, AreReplayable};
ghost use Rattle.begun_version.specs.Beginning.{entries_in, BeginsOver, BeginsWith, IsUnbegun};
ghost use Rattle.begun_version.specs.Telling.{Tells, TellsReplay, TellsOver};
ghost use Rattle.session_engine.specs.declared.replaying.ReplayFault.TheVariants.{Refused};

use design_link::link;
use netlist_store::Store;
use session_engine::{ReplayFault, Version, replay};
use shell_core::{DesignDocuments, End, entry_end, fault_end};
use sta_outside::Gate;
use sta_units::Memory;
use std::alloc::Global;
use std::sync::Arc;
use std::thread::Threads;
use timing_defs::{Entry, Fault, Items};

/// Why a run does not begin: it is refused, and ends with status 3 and a line that tells why; or want of
/// memory.
#[derive(Drop)]
pub enum Unbegun {
    Refused(End),
    Memory,
}

/// The number of the first version of a run without saved entries.
const FIRST: u64 = 0;

/// The refusal of a run by a fault of its documents or its design.
fn faulty(alloc: Global, fault: Fault) -> Unbegun
    ensures { Tells fault result }
{
    let end = fault_end(alloc, &fault);
    drop(fault);
    match end {
        Ok(end) => Unbegun::Refused(end),
        Err(Memory) => Unbegun::Memory,
    }
}

/// The refusal of a run by a saved entry, counted from 1.
fn refused_entry(alloc: Global, entry: u64, fault: Fault) -> Unbegun
    ensures { TellsReplay (Refused entry fault) result }
{
    let end = entry_end(alloc, entry, &fault);
    drop(fault);
    match end {
        Ok(end) => Unbegun::Refused(end),
        Err(Memory) => Unbegun::Memory,
    }
}

/// The refusal of a run by a fault of its design or by a saved entry.
#[tactic(auto, using(crate::proofs::BeginLaws::fault_told))]
fn unreplayed(alloc: Global, fault: ReplayFault) -> Unbegun
    ensures { TellsReplay fault result }
{
    match fault {
        ReplayFault::First(fault) => faulty(alloc, fault),
        ReplayFault::Refused { entry, fault } => refused_entry(alloc, entry, fault),
        ReplayFault::Memory => Unbegun::Memory,
    }
}

/// The first version of a linked design.
#[tactic(auto, using(crate::proofs::BeginLaws::unsound_told))]
fn first<H: Threads + Sync, G: Gate>(
    rt: &H,
    alloc: Global,
    store: Store,
    workers: u32,
    gate: &G,
) -> Result<Arc<Version>, Unbegun>
    requires some { 1 ≤ workers }
    requires most { workers ≤ 32 }
    ensures number { IfOk result (λ v. (arc_value v).first ≡ 0) }
    ensures journal { IfOk result (λ v. (arc_value v).journal ≡ []) }
    ensures stored { IfOk result (λ v. (arc_value v).stored.design ≡ (arc_value v).origin) }
    ensures begins { IfOk result (λ v. BeginsOver store.design None (arc_value v).origin) }
    ensures refused { IfErr result (TellsOver store.design None) }
{
    match Version::first(rt, alloc, FIRST, store, workers, gate) {
        Ok(version) => {
            version.laws();
            Ok(version)
        }
        Err(fault) => Err(faulty(alloc, fault)),
    }
}

/// The version of a linked design behind saved entries.
#[tactic(auto, using(crate::proofs::BeginLaws::replay_told))]
fn continued<H: Threads + Sync, G: Gate>(
    rt: &H,
    alloc: Global,
    store: Store,
    saved: &Items<Entry>,
    workers: u32,
    gate: &G,
) -> Result<Arc<Version>, Unbegun>
    requires some { 1 ≤ workers }
    requires most { workers ≤ 32 }
    requires saved { AreReplayable (Some saved.now) }
    ensures number { IfOk result (λ v. (arc_value v).first ≡ length saved.now) }
    ensures journal { IfOk result (λ v. (arc_value v).journal ≡ []) }
    ensures stored { IfOk result (λ v. (arc_value v).stored.design ≡ (arc_value v).origin) }
    ensures begins { IfOk result
        (λ v. BeginsOver store.design (Some saved.now) (arc_value v).origin) }
    ensures refused { IfErr result (TellsOver store.design (Some saved.now)) }
{
    match replay(rt, alloc, store, saved, workers, gate) {
        Ok(version) => Ok(version),
        Err(fault) => Err(unreplayed(alloc, fault)),
    }
}

/// The version of a linked design, behind saved entries where there are some.
fn version_of<H: Threads + Sync, G: Gate>(
    rt: &H,
    alloc: Global,
    store: Store,
    saved: &Option<Items<Entry>>,
    workers: u32,
    gate: &G,
) -> Result<Arc<Version>, Unbegun>
    requires some { 1 ≤ workers }
    requires most { workers ≤ 32 }
    requires saved { AreReplayable saved.now }
    ensures number { IfOk result (λ v. (arc_value v).first ≡ length (entries_in saved.now)) }
    ensures journal { IfOk result (λ v. (arc_value v).journal ≡ []) }
    ensures stored { IfOk result (λ v. (arc_value v).stored.design ≡ (arc_value v).origin) }
    ensures begins { IfOk result (λ v. BeginsOver store.design saved.now (arc_value v).origin) }
    ensures refused { IfErr result (TellsOver store.design saved.now) }
{
    match saved {
        None => first(rt, alloc, store, workers, gate),
        Some(saved) => continued(rt, alloc, store, saved, workers, gate),
    }
}

/// The version with which a run over these documents begins: the documents are linked, and the entries of a
/// saved journal stand before those of the run. Its number is the count of saved entries, its journal is
/// empty, and its origin is the linked design after all saved entries, each accepted at its turn. Takes the
/// work of one full analysis, and of one analysis for each saved entry.
///
/// # Errors
///
/// `Refused`, with status 3 and the line `fault design ..`, by the fault that keeps the documents from being
/// linked, or a fault of the linked design; with the line `fault journal J4 ..` by the first saved entry that
/// is refused at its turn. Want of memory.
#[tactic(auto, using(crate::proofs::BeginLaws::linkable, crate::proofs::BeginLaws::unlinked_told, crate::proofs::BeginLaws::linked_told))]
pub fn begun_version<H: Threads + Sync, G: Gate>(
    rt: &H,
    alloc: Global,
    docs: DesignDocuments,
    saved: &Option<Items<Entry>>,
    workers: u32,
    gate: &G,
) -> Result<Arc<Version>, Unbegun>
    requires some { 1 ≤ workers }
    requires most { workers ≤ 32 }
    requires kept { IsKeptDesign docs }
    requires saved { AreReplayable saved.now }
    ensures number { IfOk result (λ v. (arc_value v).first ≡ length (entries_in saved.now)) }
    ensures journal { IfOk result (λ v. (arc_value v).journal ≡ []) }
    ensures stored { IfOk result (λ v. (arc_value v).stored.design ≡ (arc_value v).origin) }
    ensures begins { IfOk result (λ v. BeginsWith docs saved.now (arc_value v).origin) }
    ensures refused { IfErr result (IsUnbegun docs saved.now) }
{
    let DesignDocuments {
        early,
        late,
        netlist,
        sdc,
        spef,
    } = docs;
    match link(alloc, early, late, netlist, sdc, spef) {
        Ok(store) => version_of(rt, alloc, store, saved, workers, gate),
        Err(fault) => Err(faulty(alloc, fault)),
    }
}
