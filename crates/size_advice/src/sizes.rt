//! The sizes of the instances of a question: each instance once, whether all are there, and whether
//! they are too many.

ghost use Rattle.std.specs.Prelude.{◌≡◌, ◌++◌, [], Some, None, IfOk, IfErr, OnOk};
ghost use Rattle.std.specs.List.{list_any};
ghost use Rattle.std.specs.Str.{bytes_eq};
ghost use Rattle.timing_defs.specs.Wires.{first_some};
ghost use Rattle.timing_rules.specs.Checks.{IsSound};
ghost use Rattle.timing_rules.specs.Closing.{unknown_inst, many_sizes, sizes_fault};
ghost use Rattle.timing_rules.specs.SizeAdvice.{once, all_sizes};
ghost use Rattle.affected_cone.specs.Asked.{IsRefusal};
ghost use Rattle.size_advice.specs.Keeping.{EachApart, AreApart};
ghost use Rattle.size_advice.specs.Sizes.{sizes_under, sizes_of_all};

use instance_reports::sizes_of;
use netlist_store::Store;
use sta_units::Memory;
use std::alloc::Global;
use timing_defs::{Candidate, Items, Many, Name, QueryFault};

/// The most instances that a question may name.
const MOST_INSTS: usize = 20;

/// The most sizes of them together.
const MOST_SIZES: usize = 200;

/// Whether a name is among some.
fn is_among(name: &Name, names: &[Name]) -> bool
    ensures { result ≡ list_any (bytes_eq name.now) names.now }
{
    names.iter().any(|one| name == one)
}

/// Names, each once, where it is first.
#[tactic(auto, using(crate::proofs::OnceLaws::name_seen, crate::proofs::OnceLaws::name_new, crate::proofs::OnceLaws::name_done))]
fn names_once(alloc: Global, insts: &[Name]) -> Result<Items<Name>, Memory>
    ensures value { IfOk result (λ made. made ≡ once bytes_eq [] insts.now) }
    ensures apart { IfOk result (EachApart bytes_eq) }
{
    let mut made = Items::new(alloc);
    for inst in insts {
        if !is_among(inst, made.as_slice()) {
            let copy = inst.copied(alloc)?;
            made.push(copy)?;
        }
    }
    Ok(made)
}

/// Adds candidates behind others.
fn add_all(made: &mut Items<Candidate>, more: Items<Candidate>) -> Result<(), Memory>
    ensures { OnOk result (made.new ≡ made.old ++ more) }
{
    for candidate in more.into_vec() {
        made.push(candidate)?;
    }
    Ok(())
}

/// Adds the sizes of an instance; none where it is not there.
fn add_sizes(
    alloc: Global,
    store: &Store,
    inst: &Name,
    made: &mut Items<Candidate>,
) -> Result<(), Memory>
    requires { IsSound store.now.design }
    ensures { OnOk result (made.new ≡ made.old ++ sizes_under store.now.design inst.now) }
{
    let sizes = sizes_of(alloc, store, inst)?;
    add_all(made, sizes)
}

/// The sizes of instances, one instance after another.
#[tactic(auto, using(crate::proofs::SizeLaws::sizes_more, crate::proofs::SizeLaws::sizes_done))]
fn sizes_of_all(alloc: Global, store: &Store, names: &[Name]) -> Result<Items<Candidate>, Memory>
    requires { IsSound store.now.design }
    ensures { IfOk result (λ made. made ≡ sizes_of_all store.now.design names.now) }
{
    let mut made = Items::new(alloc);
    for name in names {
        add_sizes(alloc, store, name, &mut made)?;
    }
    Ok(made)
}

/// All sizes of instances as candidates of a resize, each instance once. The one error is want of
/// memory.
#[tactic(auto, using(crate::proofs::SizeLaws::all_told))]
fn all_sizes(alloc: Global, store: &Store, insts: &[Name]) -> Result<Items<Candidate>, Memory>
    requires { IsSound store.now.design }
    ensures value { IfOk result (λ made. made ≡ all_sizes store.now.design insts.now) }
    ensures apart { IfOk result AreApart }
{
    store.laws();
    let names = names_once(alloc, insts)?;
    let sizes = sizes_of_all(alloc, store, names.as_slice());
    drop(names);
    sizes
}

/// The fault of a name of no instance.
fn unknown_name(alloc: Global, inst: &Name) -> QueryFault
    ensures { IsRefusal (Some (QueryFault.UnknownName inst.now)) result }
{
    match inst.copied(alloc) {
        Ok(name) => QueryFault::UnknownName(name),
        Err(_) => QueryFault::Memory,
    }
}

/// That an instance is there.
fn inst_there(alloc: Global, store: &Store, inst: &Name) -> Result<(), QueryFault>
    ensures there { OnOk result (unknown_inst store.now.design inst.now ≡ None) }
    ensures refused { IfErr result (IsRefusal (unknown_inst store.now.design inst.now)) }
{
    store.laws();
    match store.inst(inst) {
        Some(_) => Ok(()),
        None => Err(unknown_name(alloc, inst)),
    }
}

/// That instances are there: `UnknownName` of the first that is not, in the order written.
fn insts_there(alloc: Global, store: &Store, insts: &[Name]) -> Result<(), QueryFault>
    ensures there { OnOk result
        (first_some (unknown_inst store.now.design) insts.now ≡ None) }
    ensures refused { IfErr result
        (IsRefusal (first_some (unknown_inst store.now.design) insts.now)) }
{
    for inst in insts {
        inst_there(alloc, store, inst)?;
    }
    Ok(())
}

/// All sizes of instances where neither they nor their sizes are too many: at most 20 as they are
/// written, and at most 200 sizes of them together.
fn few_sizes(alloc: Global, store: &Store, insts: &[Name]) -> Result<Items<Candidate>, QueryFault>
    requires { IsSound store.now.design }
    ensures value { IfOk result (λ made. made ≡ all_sizes store.now.design insts.now) }
    ensures apart { IfOk result AreApart }
    ensures few { OnOk result (many_sizes store.now.design insts.now ≡ None) }
    ensures refused { IfErr result (IsRefusal (many_sizes store.now.design insts.now)) }
{
    if insts.len() > MOST_INSTS {
        return Err(QueryFault::TooMany(Many::Instances));
    }
    let sizes = all_sizes(alloc, store, insts)?;
    if sizes.len() > MOST_SIZES {
        drop(sizes);
        Err(QueryFault::TooMany(Many::Candidates))
    } else {
        Ok(sizes)
    }
}

/// All sizes of the instances of a question, as candidates of a resize: each instance once, its
/// sizes in the order of the late library. `UnknownName` of the first instance that is not there,
/// or else `TooMany`; the one other error is want of memory.
pub(crate) fn sizes_asked(
    alloc: Global,
    store: &Store,
    insts: &[Name],
) -> Result<Items<Candidate>, QueryFault>
    requires { IsSound store.now.design }
    ensures value { IfOk result (λ made. made ≡ all_sizes store.now.design insts.now) }
    ensures apart { IfOk result AreApart }
    ensures there { OnOk result (sizes_fault store.now.design insts.now ≡ None) }
    ensures refused { IfErr result (IsRefusal (sizes_fault store.now.design insts.now)) }
{
    insts_there(alloc, store, insts)?;
    few_sizes(alloc, store, insts)
}
