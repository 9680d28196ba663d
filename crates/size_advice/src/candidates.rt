//! The candidates of a question: each once, and whether they are there.

ghost use Rattle.std.specs.Prelude.{◌≡◌, [], None, IfOk, IfErr, OnOk};
ghost use Rattle.std.specs.List.{list_any};
ghost use Rattle.timing_defs.specs.Wires.{first_some};
ghost use Rattle.timing_rules.specs.Advice.{candidate_eco};
ghost use Rattle.timing_rules.specs.Checks.{IsSound};
ghost use Rattle.timing_rules.specs.Closing.{unknown_candidate};
ghost use Rattle.timing_rules.specs.SizeAdvice.{once, same_candidate};
ghost use Rattle.netlist_store.specs.Linked.{IsSized};
ghost use Rattle.affected_cone.specs.Asked.{IsRefusal};
ghost use Rattle.size_advice.specs.Keeping.{AreApart};
ghost use Rattle.size_advice.specs.Unknown.{IsUnknown};

use crate::trials::{candidate_eco, discard};
use netlist_store::Store;
use sta_units::Memory;
use std::alloc::Global;
use timing_defs::{Candidate, Eco, Fault, Items, QueryFault};

/// Whether two candidates are the same resize.
fn is_same(one: &Candidate, other: &Candidate) -> bool
    ensures { result ≡ same_candidate one.now other.now }
{
    one.inst == other.inst && one.cell == other.cell
}

/// Whether a candidate is among some.
fn is_among(candidate: &Candidate, candidates: &[Candidate]) -> bool
    ensures { result ≡ list_any (same_candidate candidate.now) candidates.now }
{
    candidates.iter().any(|one| is_same(candidate, one))
}

/// A copy of a candidate.
fn copied(alloc: Global, candidate: &Candidate) -> Result<Candidate, Memory>
    ensures { IfOk result (λ copy. copy ≡ candidate.now) }
{
    let inst = candidate.inst.copied(alloc)?;
    let cell = candidate.cell.copied(alloc)?;
    Ok(Candidate { inst, cell })
}

/// The candidates, each once, where it is first. The one error is want of memory.
#[tactic(auto, using(crate::proofs::OnceLaws::once_seen, crate::proofs::OnceLaws::once_new, crate::proofs::OnceLaws::once_done))]
pub fn once(alloc: Global, candidates: &Items<Candidate>) -> Result<Items<Candidate>, Memory>
    ensures value { IfOk result (λ made. made ≡ once same_candidate [] candidates.now) }
    ensures apart { IfOk result AreApart }
{
    let mut made = Items::new(alloc);
    for candidate in candidates.as_slice() {
        if !is_among(candidate, made.as_slice()) {
            let copy = copied(alloc, candidate)?;
            made.push(copy)?;
        }
    }
    Ok(made)
}

/// What the fault of a resize tells of its names: that the instance, or else the cell, is not
/// there.
fn unknown_name(fault: Fault) -> Result<(), QueryFault>
    ensures { IsUnknown fault result }
{
    match fault {
        Fault::UnknownInstance(name) | Fault::UnknownCell(name) => {
            Err(QueryFault::UnknownName(name))
        }
        Fault::Memory => Err(QueryFault::Memory),
        other => {
            drop(other);
            Ok(())
        }
    }
}

/// That the instance and the cell of a resize are there, by its ECO on the store.
fn names_there(
    alloc: Global,
    store: &Store,
    candidate: &Candidate,
    eco: &Eco,
) -> Result<(), QueryFault>
    requires eco { eco.now ≡ candidate_eco candidate.now }
    requires sized { IsSized store.now.design }
    ensures there { OnOk result (unknown_candidate store.now.design candidate.now ≡ None) }
    ensures refused { IfErr result
        (IsRefusal (unknown_candidate store.now.design candidate.now)) }
{
    match store.apply(alloc, eco) {
        Ok(made) => {
            let (after, touched) = made;
            after.discard();
            drop(touched);
            Ok(())
        }
        Err(fault) => unknown_name(fault),
    }
}

/// That the instance and the cell of a candidate are there.
fn candidate_there(alloc: Global, store: &Store, candidate: &Candidate) -> Result<(), QueryFault>
    requires { IsSized store.now.design }
    ensures there { OnOk result (unknown_candidate store.now.design candidate.now ≡ None) }
    ensures refused { IfErr result
        (IsRefusal (unknown_candidate store.now.design candidate.now)) }
{
    let eco = candidate_eco(alloc, candidate)?;
    let there = names_there(alloc, store, candidate, &eco);
    discard(eco);
    there
}

/// That the instances and cells of candidates are there: `UnknownName` of the first instance, or
/// else cell, that is not, in the order of the candidates. A cell is there where both libraries
/// have it, alike.
#[tactic(auto, using(eco_analysis::proofs::SoundLaws::sound_sized))]
pub fn candidates_there(
    alloc: Global,
    store: &Store,
    candidates: &Items<Candidate>,
) -> Result<(), QueryFault>
    requires { IsSound store.now.design }
    ensures there { OnOk result
        (first_some (unknown_candidate store.now.design) candidates.now ≡ None) }
    ensures refused { IfErr result
        (IsRefusal (first_some (unknown_candidate store.now.design) candidates.now)) }
{
    for candidate in candidates.as_slice() {
        candidate_there(alloc, store, candidate)?;
    }
    Ok(())
}
