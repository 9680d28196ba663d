//! Versions that go on where a saved journal stopped.

ghost use Rattle.std.specs.Prelude.{◌≡◌, ◌+◌, ◌^◌, ◌≤◌, true, [], length, IfOk, IfErr, OnOk};
ghost use Rattle.std.specs.Arc.{arc_value};
ghost use Rattle.std.specs.List.{list_all};
ghost use Rattle.timing_defs.specs.Documents.{is_eco};
ghost use Rattle.timing_rules.specs.Sessions.{IsInitial};
ghost use Rattle.eco_analysis.specs.Soundness.{IsFaultless};
ghost use Rattle.session_engine.specs.Versions.{IsNext};
ghost use Rattle.session_engine.specs.declared.replaying.ReplayFault.TheVariants.{Memory as no_memory};
ghost use Rattle.session_engine.specs.Replaying.{IsReplayFault, IsStepFault};

use crate::preparing::prepare;
use crate::versions::Version;
use netlist_store::Store;
use sta_outside::Gate;
use sta_units::{Memory, Steps};
use std::alloc::Global;
use std::sync::Arc;
use std::thread::Threads;
use timing_defs::{Entry, Fault, Items};

/// Why a saved journal is not replayed.
#[derive(Drop)]
pub enum ReplayFault {
    /// A fault of the design before all entries.
    First(Fault),
    /// `J4`: the first entry that is refused at its turn, counted from 1, and why.
    Refused { entry: u64, fault: Fault },
    /// Want of memory.
    Memory,
}

/// The count of nodes that are evaluated for saved entries.
struct Replayed;

/// The version after the entry at a place, counted from 1; the version before it is given up.
fn step<H: Threads + Sync, G: Gate>(
    rt: &H,
    alloc: Global,
    base: Arc<Version>,
    place: u64,
    entry: &Entry,
    workers: u32,
    gate: &G,
) -> Result<Arc<Version>, ReplayFault>
    requires eco { is_eco entry.now.eco ≡ true }
    requires some { 1 ≤ workers }
    requires most { workers ≤ 32 }
    ensures next { IfOk result
        (λ v. IsNext (arc_value base) entry.now.session entry.now.eco (arc_value v)) }
    ensures refused { IfErr result
        (IsStepFault (arc_value base).stored.design place entry.now.eco) }
{
    let mut steps: Steps<Replayed> = Steps::none();
    let next = prepare(
        rt,
        alloc,
        &base,
        entry.session,
        &entry.eco,
        workers,
        gate,
        &mut steps,
    );
    Version::discard(base);
    match next {
        Ok(next) => Ok(next),
        Err(Fault::Memory) => Err(ReplayFault::Memory),
        Err(fault) => Err(ReplayFault::Refused {
            entry: place,
            fault,
        }),
    }
}

/// The version after all entries, over one without entries.
fn steps<H: Threads + Sync, G: Gate>(
    rt: &H,
    alloc: Global,
    version: Arc<Version>,
    entries: &[Entry],
    workers: u32,
    gate: &G,
) -> Result<Arc<Version>, ReplayFault>
    requires empty { (arc_value version).journal ≡ [] }
    requires ecos { list_all (λ entry. is_eco entry.eco) entries.now ≡ true }
    requires many { length entries.now ≤ 2 ^ 62 }
    requires some { 1 ≤ workers }
    requires most { workers ≤ 32 }
    ensures origin { IfOk result (λ v. (arc_value v).origin ≡ (arc_value version).origin) }
    ensures journal { IfOk result (λ v. (arc_value v).journal ≡ entries.now) }
    ensures refused { IfErr result (IsReplayFault (arc_value version).origin entries.now) }
{
    let mut held = version;
    let mut place = 1u64;
    for entry in entries {
        held.laws();
        held = step(rt, alloc, held, place, entry, workers, gate)?;
        place += 1;
    }
    Ok(held)
}

/// The version that begins where another ends, at that number; the other is given up.
fn restarted(alloc: Global, first: u64, last: Arc<Version>) -> Result<Arc<Version>, ReplayFault>
    requires { first ≤ 2 ^ 62 }
    ensures first { IfOk result (λ v. (arc_value v).first ≡ first) }
    ensures origin { IfOk result (λ v. (arc_value v).origin ≡ (arc_value last).stored.design) }
    ensures journal { IfOk result (λ v. (arc_value v).journal ≡ []) }
    ensures stored { IfOk result (λ v. (arc_value v).stored ≡ (arc_value last).stored) }
    ensures wanting { IfErr result (λ x. x ≡ no_memory) }
{
    let begun = last.begun_anew(alloc, first);
    Version::discard(last);
    match begun {
        Ok(version) => Ok(version),
        Err(Memory) => Err(ReplayFault::Memory),
    }
}

/// The version that goes on where a saved journal stopped: its number is the count of the entries, its
/// journal is empty, and its origin is the design after all entries, each accepted at its turn. The
/// entries are taken one after another, each at the cost of an ECO over the version before it.
///
/// # Errors
///
/// `First` where a fault stands in the design before all entries, which it names; else `Refused` with the
/// first entry that is refused, by a fault of its edits or of the design after them; want of memory.
pub fn replay<H: Threads + Sync, G: Gate>(
    rt: &H,
    alloc: Global,
    store: Store,
    entries: &Items<Entry>,
    workers: u32,
    gate: &G,
) -> Result<Arc<Version>, ReplayFault>
    requires ecos { list_all (λ entry. is_eco entry.eco) entries.now ≡ true }
    requires many { length entries.now ≤ 2 ^ 62 }
    requires some { 1 ≤ workers }
    requires most { workers ≤ 32 }
    ensures first { IfOk result (λ v. (arc_value v).first ≡ length entries.now) }
    ensures origin { IfOk result (λ v. IsInitial store.design entries.now (arc_value v).origin) }
    ensures journal { IfOk result (λ v. (arc_value v).journal ≡ []) }
    ensures stored { IfOk result (λ v. (arc_value v).stored.design ≡ (arc_value v).origin) }
    ensures sound { OnOk result (IsFaultless store.design) }
    ensures refused { IfErr result (IsReplayFault store.design entries.now) }
{
    match Version::first(rt, alloc, 0, store, workers, gate) {
        Ok(version) => {
            let last = steps(rt, alloc, version, entries.as_slice(), workers, gate)?;
            last.laws();
            restarted(alloc, entries.len() as u64, last)
        }
        Err(Fault::Memory) => Err(ReplayFault::Memory),
        Err(fault) => Err(ReplayFault::First(fault)),
    }
}
