//! The slacks of endpoints after an ECO: those to which the edit leads are weighed, and searched for where they may
//! have others; all others keep theirs.

ghost use Rattle.std.specs.Prelude.{◌≡◌, ◌++◌, nat_lt, not, true, All, map, IfOk, OnOk};
ghost use Rattle.std.specs.List.{position, filter_map};
ghost use Rattle.std.specs.List.Sorted.{IsNonDecreasingBy, IsPermutation, IsStrictlyIncreasing};
ghost use Rattle.std.specs.Option.{option_to_list};
ghost use Rattle.netlist_store.specs.Numbering.{IsNumbered};
ghost use Rattle.netlist_store.specs.Applying.{IsEditOf};
ghost use Rattle.level_workers.specs.Mapped.{IsMap};
ghost use Rattle.edit_reach.specs.Reach.{HasSeeds, AreBehind};
ghost use Rattle.affected_cone.specs.Analysed.{is_end, ends_of, IsEnd, IsSearch};
ghost use Rattle.affected_cone.specs.Bounds.{IsWeighed};
ghost use Rattle.affected_cone.specs.Cuts.{from_number, begins_with, cut_end, IsRisingOf, IsInOrder};
ghost use Rattle.affected_cone.specs.Renewed.{kept_end, end_number, pin_of, AreKeptEnds};
ghost use Rattle.affected_cone.specs.Rising.{AreRising};
ghost use Rattle.affected_cone.specs.Updated.{IsBase};

use crate::bounds::{Weighed, end_after, pin_after, weigh};
use crate::ends::{EndSlacks, Search, is_end};
use crate::sharing::map_shared;
use crate::updating::Base;
use edit_reach::dirty_pins;
use indexmap::IndexSet;
use netlist_store::{Store, Touched};
use pin_graph::{Graph, gone_pins};
use sta_units::Memory;
use std::alloc::Global;
use std::thread::Threads;
use timing_defs::Items;

/// The place of the first of some numbers that is not below another.
fn first_from(numbers: &[u32], number: u32) -> Option<usize>
    ensures { result ≡ position (λ n. not (nat_lt n number)) numbers.now }
{
    numbers.iter().position(|n| !(*n < number))
}

/// Numbers from the first on that is not below another.
fn from_number(numbers: &[u32], number: u32) -> &[u32]
    ensures { result.now ≡ from_number number numbers.now }
{
    match first_from(numbers, number) {
        Some(at) => &numbers[at..],
        None => &[],
    }
}

/// Whether a number is the first of some.
fn begins_with(numbers: &[u32], number: u32) -> bool
    ensures { result ≡ begins_with number numbers.now }
{
    match numbers {
        [first, ..] => *first == number,
        [] => false,
    }
}

/// An endpoint, where it is not the first of the pins to which the edit leads, from it on: then it keeps its
/// slacks.
fn cut_end(rest: &[u32], end: EndSlacks) -> Option<EndSlacks>
    ensures { result ≡ cut_end rest.now end }
{
    if begins_with(rest, end.pin) {
        None
    } else {
        Some(end)
    }
}

/// Adds a number, where it is there.
fn add_number(numbers: &mut Items<u32>, number: Option<u32>) -> Result<(), Memory>
    ensures { OnOk result (numbers.new ≡ numbers.old ++ option_to_list number) }
{
    match number {
        Some(number) => numbers.push(number),
        None => Ok(()),
    }
}

/// Adds numbers.
fn add_numbers(numbers: &mut Items<u32>, more: &[u32]) -> Result<(), Memory>
    ensures { OnOk result (numbers.new ≡ numbers.old ++ more.now) }
{
    for number in more {
        numbers.push(*number)?;
    }
    Ok(())
}

/// Numbers with those of a set behind them.
fn with_numbers(numbers: Items<u32>, more: IndexSet<u32>) -> Result<Items<u32>, Memory>
    ensures { IfOk result (λ all. all ≡ numbers ++ more.keys) }
{
    let mut numbers = numbers;
    match add_numbers(&mut numbers, more.as_slice()) {
        Ok(()) => {
            drop(more);
            Ok(numbers)
        }
        Err(wanting) => {
            drop(more);
            drop(numbers);
            Err(wanting)
        }
    }
}

/// Adds an endpoint, where it is there.
fn add_end(ends: &mut Items<EndSlacks>, end: Option<EndSlacks>) -> Result<(), Memory>
    ensures { OnOk result (ends.new ≡ ends.old ++ option_to_list end) }
{
    match end {
        Some(end) => ends.push(end),
        None => Ok(()),
    }
}

/// The endpoints that keep their slacks: both lists rise, and are gone through once.
fn kept_ends(alloc: Global, dirty: &[u32], ends: &[EndSlacks]) -> Result<Items<EndSlacks>, Memory>
    requires dirty { IsStrictlyIncreasing dirty.now }
    requires ends { AreRising ends.now }
    ensures { IfOk result (λ kept. kept ≡ filter_map (kept_end dirty.now) ends.now) }
{
    let mut kept = Items::with_room(alloc, ends.len())?;
    let mut rest = dirty;
    for end in ends {
        rest = from_number(rest, end.pin);
        add_end(&mut kept, cut_end(rest, *end))?;
    }
    Ok(kept)
}

/// A pin, where it is an endpoint.
fn end_number(store: &Store, pin: u32) -> Option<u32>
    ensures { result ≡ end_number store.now pin }
{
    if is_end(store, pin) { Some(pin) } else { None }
}

/// The endpoints among pins.
fn ends_among(alloc: Global, store: &Store, pins: &[u32]) -> Result<Items<u32>, Memory>
    ensures { IfOk result (λ ends. ends ≡ filter_map (end_number store.now) pins.now) }
{
    let mut ends = Items::new(alloc);
    for pin in pins {
        add_number(&mut ends, end_number(store, *pin))?;
    }
    Ok(ends)
}

/// So many endpoints are weighed by the calling thread alone.
const FEW: usize = 64;

/// The slacks of endpoints, one after another.
fn each_slacks(
    alloc: Global,
    weighed: &Weighed<'_>,
    ends: &[u32],
) -> Result<Items<EndSlacks>, Memory>
    requires weighed { IsWeighed weighed.now }
    requires ends { All (λ pin. is_end weighed.now.search.now.store.now pin ≡ true) ends.now }
    ensures { IfOk result (IsMap (IsEnd weighed.now.search.now.store.now) ends.now) }
{
    let mut found = Items::with_room(alloc, ends.len())?;
    for pin in ends {
        found.push(end_after(alloc, weighed, *pin)?)?;
    }
    Ok(found)
}

/// The slacks of endpoints, shared between as many threads as there are processors.
fn shared_slacks<H: Threads + Sync>(
    rt: &H,
    alloc: Global,
    weighed: &Weighed<'_>,
    ends: &[u32],
) -> Result<Items<EndSlacks>, Memory>
    requires weighed { IsWeighed weighed.now }
    requires ends { All (λ pin. is_end weighed.now.search.now.store.now pin ≡ true) ends.now }
    ensures { IfOk result (IsMap (IsEnd weighed.now.search.now.store.now) ends.now) }
{
    let found = |pin: &u32| -> Result<EndSlacks, Memory>
        requires { IsWeighed weighed.now }
        ensures { is_end weighed.entry.now.search.now.store.now pin.now ≡ true
            → IfOk result (IsEnd weighed.entry.now.search.now.store.now pin.now) }
    { pin_after(alloc, weighed, *pin) };
    map_shared(rt, alloc, ends, &found)
}

/// The slacks of endpoints, many shared between threads.
fn searched<H: Threads + Sync>(
    rt: &H,
    alloc: Global,
    weighed: &Weighed<'_>,
    ends: &[u32],
) -> Result<Items<EndSlacks>, Memory>
    requires weighed { IsWeighed weighed.now }
    requires ends { All (λ pin. is_end weighed.now.search.now.store.now pin ≡ true) ends.now }
    ensures { IfOk result (IsMap (IsEnd weighed.now.search.now.store.now) ends.now) }
{
    if ends.len() < FEW {
        each_slacks(alloc, weighed, ends)
    } else {
        shared_slacks(rt, alloc, weighed, ends)
    }
}

/// Adds endpoints.
fn add_ends(ends: &mut Items<EndSlacks>, more: &[EndSlacks]) -> Result<(), Memory>
    ensures { OnOk result (ends.new ≡ ends.old ++ more.now) }
{
    for end in more {
        ends.push(*end)?;
    }
    Ok(())
}

/// Puts endpoints in the order of their numbers, in time of their number where they are a few rising lists one after
/// another.
fn sort_ends(ends: &mut Vec<EndSlacks>) -> Result<(), Memory>
    ensures same { IsPermutation ends.old.items ends.new.items }
    ensures rising { OnOk result (IsNonDecreasingBy pin_of ends.new.items) }
{
    ends.sort_by_key(
        |end: &EndSlacks| -> u32
            ensures { result ≡ pin_of end.now }
        { end.pin },
    )?;
    Ok(())
}

/// Endpoints in the order of their numbers.
fn in_order(ends: Items<EndSlacks>) -> Result<Items<EndSlacks>, Memory>
    ensures { IfOk result (IsInOrder ends) }
{
    let mut ends = ends.into_vec();
    sort_ends(&mut ends)?;
    Ok(Items::from_vec(ends))
}

/// Numbers in rising order, each once.
fn distinct(numbers: Items<u32>) -> Items<u32>
    ensures { IsRisingOf numbers result }
{
    let mut numbers = numbers.into_vec();
    numbers.sort_unstable();
    numbers.dedup();
    Items::from_vec(numbers)
}

/// Numbers in rising order.
fn rising(alloc: Global, numbers: &[u32]) -> Result<Items<u32>, Memory>
    ensures { IfOk result (IsRisingOf numbers.now) }
{
    let copy = Items::from_slice(alloc, numbers)?;
    Ok(distinct(copy))
}

/// The endpoints of a base that keep their slacks, and those found anew, in the order of their numbers.
fn joined(
    alloc: Global,
    dirty: &[u32],
    ends: &[EndSlacks],
    found: &[EndSlacks],
) -> Result<Items<EndSlacks>, Memory>
    requires dirty { IsStrictlyIncreasing dirty.now }
    requires ends { AreRising ends.now }
    ensures { IfOk result (IsInOrder (filter_map (kept_end dirty.now) ends.now ++ found.now)) }
{
    let mut all = kept_ends(alloc, dirty, ends)?;
    match add_ends(&mut all, found) {
        Ok(()) => in_order(all),
        Err(wanting) => {
            drop(all);
            Err(wanting)
        }
    }
}

/// The slacks of all endpoints of an edited store, by those of the base, and the pins to which the edit leads, with the
/// endpoints among them.
fn renewed_with<H: Threads + Sync>(
    rt: &H,
    alloc: Global,
    weighed: &Weighed<'_>,
    pins: &[u32],
    again: &[u32],
) -> Result<Items<EndSlacks>, Memory>
    requires weighed { IsWeighed weighed.now }
    requires kept { AreKeptEnds weighed.now.base.now.graph.now.stored
        weighed.now.search.now.store.now pins.now }
    requires rising { IsStrictlyIncreasing pins.now }
    requires again { again.now ≡ filter_map (end_number weighed.now.search.now.store.now) pins.now }
    ensures { IfOk result
        (IsMap (IsEnd weighed.now.search.now.store.now)
        (ends_of weighed.now.search.now.store.now)) }
{
    let found = searched(rt, alloc, weighed, again)?;
    let ends = joined(alloc, pins, weighed.base.ends, found.as_slice());
    drop(found);
    ends
}

/// The same, by rising pins to which the edit leads.
fn renewed_at<H: Threads + Sync>(
    rt: &H,
    alloc: Global,
    weighed: &Weighed<'_>,
    pins: &[u32],
) -> Result<Items<EndSlacks>, Memory>
    requires weighed { IsWeighed weighed.now }
    requires kept { AreKeptEnds weighed.now.base.now.graph.now.stored
        weighed.now.search.now.store.now pins.now }
    requires rising { IsStrictlyIncreasing pins.now }
    ensures { IfOk result
        (IsMap (IsEnd weighed.now.search.now.store.now)
        (ends_of weighed.now.search.now.store.now)) }
{
    let again = ends_among(alloc, weighed.search.store, pins)?;
    let ends = renewed_with(rt, alloc, weighed, pins, again.as_slice());
    drop(again);
    ends
}

/// The slacks of all endpoints of an edited store, by those of the base, the pins to which the edit leads,
/// and those of the base that are gone.
fn renewed<H: Threads + Sync>(
    rt: &H,
    alloc: Global,
    weighed: &Weighed<'_>,
    dirty: &[u32],
) -> Result<Items<EndSlacks>, Memory>
    requires weighed { IsWeighed weighed.now }
    requires kept { AreKeptEnds weighed.now.base.now.graph.now.stored
        weighed.now.search.now.store.now dirty.now }
    ensures { IfOk result
        (IsMap (IsEnd weighed.now.search.now.store.now)
        (ends_of weighed.now.search.now.store.now)) }
{
    let numbers = rising(alloc, dirty)?;
    let ends = renewed_at(rt, alloc, weighed, numbers.as_slice());
    drop(numbers);
    ends
}

/// The pins to which the edit leads, and those of the base that are gone: every other one is an endpoint in both
/// stores or in none, with the same slacks.
fn other_pins(
    alloc: Global,
    base: &Graph,
    search: &Search<'_>,
    touched: &Touched,
    seeds: &[u32],
    nodes: &[u32],
) -> Result<Items<u32>, Memory>
    requires numbered { IsNumbered base.now.stored }
    requires search { IsSearch search.now }
    requires made { IsEditOf base.now.stored
        (record { insts = touched.now.insts; nets = touched.now.nets }) search.now.store.now }
    requires seeds { HasSeeds base.now.stored search.now.store.now
        (record { insts = touched.now.insts; nets = touched.now.nets }) seeds.now }
    requires behind { AreBehind search.now.graph.now seeds.now nodes.now }
    ensures { IfOk result (AreKeptEnds base.now.stored search.now.store.now) }
{
    base.laws();
    search.graph.laws();
    search.store.laws();
    let dirty = dirty_pins(alloc, search.store, seeds, nodes)?;
    match gone_pins(alloc, base, search.graph, touched) {
        Ok(gone) => with_numbers(gone, dirty),
        Err(wanting) => {
            drop(dirty);
            Err(wanting)
        }
    }
}

/// The slacks of all endpoints of the store that an ECO made of a base, by those of the base's. `seeds` are
/// the nodes at which the ECO begins to change paths, and `nodes` these and all behind them. An endpoint is
/// weighed where one of `nodes` is of it or of another pin of its instance, and searched for where paths through
/// what changed may have less slack, or where `nodes` are thousands; every other one keeps its slacks. Takes time of these nodes and searches, and
/// goes through the list of endpoints a few times.
pub(crate) fn ends_after<H: Threads + Sync>(
    rt: &H,
    alloc: Global,
    base: &Base<'_>,
    search: &Search<'_>,
    touched: &Touched,
    seeds: &[u32],
    nodes: &[u32],
) -> Result<Items<EndSlacks>, Memory>
    requires base { IsBase base.now }
    requires numbered { IsNumbered base.now.graph.now.stored }
    requires search { IsSearch search.now }
    requires made { IsEditOf base.now.graph.now.stored
        (record { insts = touched.now.insts; nets = touched.now.nets }) search.now.store.now }
    requires seeds { HasSeeds base.now.graph.now.stored search.now.store.now
        (record { insts = touched.now.insts; nets = touched.now.nets }) seeds.now }
    requires behind { AreBehind search.now.graph.now seeds.now nodes.now }
    ensures { IfOk result (IsMap (IsEnd search.now.store.now) (ends_of search.now.store.now)) }
{
    let dirty = other_pins(alloc, base.graph, search, touched, seeds, nodes)?;
    match weigh(alloc, base, search, touched, seeds, nodes) {
        Ok(weighed) => {
            let ends = renewed(rt, alloc, &weighed, dirty.as_slice());
            drop(weighed);
            drop(dirty);
            ends
        }
        Err(wanting) => {
            drop(dirty);
            Err(wanting)
        }
    }
}
