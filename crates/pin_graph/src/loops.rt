//! Loops of a design: cyclic walks over the arcs of its nets and cells.

ghost use Rattle.std.specs.Prelude.{◌≡◌, ◌++◌, ◌<◌, ◌≤◌, ℕ, [], None, true, false, All, map, take, drop, length, slice_index_or, if◌then◌else◌, IfOk, IfErr, OnOk};
ghost use Rattle.timing_defs.specs.NetChecks.{is_before, net_fault};
ghost use Rattle.timing_rules.specs.Checks.{is_loop, HasNoLoop};
ghost use Rattle.netlist_store.specs.Numbering.{is_number};
ghost use Rattle.levelizer.specs.Levels.{AreLevels, IsCycle};
ghost use Rattle.pin_graph.specs.Refusals.{IsGraphRefused};
ghost use Rattle.pin_graph.specs.Joins.{pin_links};
ghost use Rattle.pin_graph.specs.Loops.{number_name};

use levelizer::{LevelFault, Link, levels};
use netlist_store::Store;
use sta_units::Memory;
use std::alloc::Global;
use std::cmp::Ordering;
use timing_defs::{Fault, Items, Name};

/// Whether a name comes before another, by bytes.
fn comes_before(a: &Name, b: &Name) -> bool
    ensures { result ≡ is_before a.now b.now }
{
    match a.cmp(b) {
        Ordering::Less => true,
        Ordering::Equal | Ordering::Greater => false,
    }
}

/// The place of the lesser of two names, the first where they are the same.
fn lesser_place(names: &[Name], a: usize, b: usize) -> usize
    requires a { a < length names.now }
    requires b { b < length names.now }
    ensures { result
        ≡
        (if is_before (slice_index_or names.now b []) (slice_index_or names.now a []) then b else
        a) }
{
    if comes_before(&names[b], &names[a]) {
        b
    } else {
        a
    }
}

/// The place of the least of some names.
#[tactic(auto, using(crate::proofs::LoopLaws::best_none, crate::proofs::LoopLaws::best_more))]
pub(crate) fn least_place(names: &[Name]) -> usize
    requires { 0 < length names.now }
    ensures within { result < length names.now }
    ensures least { (k : ℕ) → k < length names.now
        → is_before (slice_index_or names.now k []) (slice_index_or names.now result []) ≡ false }
{
    let mut place = 0;
    for at in 0..names.len() {
        place = lesser_place(names, place, at);
    }
    place
}

/// The names of pins.
pub(crate) fn names_of(alloc: Global, store: &Store, nodes: &[u32]) -> Result<Items<Name>, Memory>
    requires { All (λ node. is_number store.now.pins node ≡ true) nodes.now }
    ensures { IfOk result (λ names. names ≡ map (number_name store.now) nodes.now) }
{
    let mut names = Items::new(alloc);
    for node in nodes {
        let name = store.pin_name(*node);
        names.push(name.copied(alloc)?)?;
    }
    Ok(names)
}

/// Adds copies of names.
fn add_names(alloc: Global, all: &mut Items<Name>, names: &[Name]) -> Result<(), Memory>
    ensures { OnOk result (all.new ≡ all.old ++ names.now) }
{
    for name in names {
        all.push(name.copied(alloc)?)?;
    }
    Ok(())
}

/// The names from a place on, and then those before it.
fn from_place(alloc: Global, names: &[Name], place: usize) -> Result<Items<Name>, Memory>
    requires { place ≤ length names.now }
    ensures { IfOk result (λ turned. turned ≡ drop place names.now ++ take place names.now) }
{
    let mut turned = Items::new(alloc);
    add_names(alloc, &mut turned, &names[place..])?;
    add_names(alloc, &mut turned, &names[..place])?;
    Ok(turned)
}

/// The names of the pins of a cycle in arc order, from the least on.
fn loop_of(alloc: Global, store: &Store, nodes: &[u32]) -> Result<Items<Name>, Memory>
    requires { IsCycle (pin_links store.now) nodes.now }
    ensures { IfOk result (λ names. is_loop store.now.design names ≡ true) }
{
    store.laws();
    let names = names_of(alloc, store, nodes)?;
    let place = least_place(names.as_slice());
    from_place(alloc, names.as_slice(), place)
}

/// The levels of pins over the arcs of nets and of cells; where a walk is cyclic, the names of the
/// pins of one such. Takes as many steps as there are pins and arcs.
pub(crate) fn pin_levels(alloc: Global, store: &Store, links: &[Link]) -> Result<Items<u32>, Fault>
    requires fault { net_fault store.now.design ≡ None }
    requires links { links.now ≡ pin_links store.now }
    ensures levels { IfOk result (AreLevels (length store.now.pins) (pin_links store.now)) }
    ensures no_loop { OnOk result (HasNoLoop store.now.design) }
    ensures refused { IfErr result (IsGraphRefused store.now.design) }
{
    store.laws();
    match levels(alloc, store.pin_bound(), links) {
        Ok(levels) => Ok(levels),
        Err(LevelFault::Cycle(nodes)) => {
            let names = loop_of(alloc, store, nodes.as_slice())?;
            Err(Fault::Loop(names))
        }
        Err(LevelFault::Memory) => Err(Fault::Memory),
    }
}
