//! Whether the clock network is a tree: each of its pins is entered from one pin, and with one sense.

ghost use Rattle.std.specs.Prelude.{◌≡◌, ◌<◌, [], None, Some, false, All, length, slice_index_or, if◌then◌else◌, IfOk, IfErr, OnOk};
ghost use Rattle.timing_defs.specs.NetChecks.{net_fault};
ghost use Rattle.timing_rules.specs.Checks.{clock_not_tree, HasNoLoop};
ghost use Rattle.pin_graph.specs.Refusals.{IsGraphRefused};
ghost use Rattle.pin_graph.specs.Networks.{IsNetwork};
ghost use Rattle.pin_graph.specs.Joins.{pin_arcs};
ghost use Rattle.pin_graph.specs.Trees.{enters, entry_of, same_entry, noted_entries, noted_apart, AreAllApart};

use crate::loops::{least_place, names_of};
use crate::pin_arcs::PinArc;
use cow_table::CowTable;
use netlist_store::Store;
use sta_units::Memory;
use std::alloc::Global;
use timing_defs::{ArcKind, Fault, Items, Name};

/// How an arc enters a pin: from which pin, and whether it keeps the transition.
#[derive(Clone, Copy, Drop)]
pub(crate) struct Entry {
    pub(crate) from: u32,
    pub(crate) keeps: bool,
}

/// Whether an arc is combinational and between pins of the network.
fn enters(network: &CowTable<bool>, arc: PinArc) -> bool
    requires from { arc.from < length network.now }
    requires to { arc.to < length network.now }
    ensures { result ≡ enters network.now arc }
{
    match arc.kind {
        ArcKind::Comb => *network.get(arc.from as usize) && *network.get(arc.to as usize),
        ArcKind::Edge => false,
    }
}

fn entry_of(arc: PinArc) -> Entry
    ensures { result ≡ entry_of arc }
{
    Entry {
        from: arc.from,
        keeps: arc.from_tran.is(arc.to_tran),
    }
}

fn same_entry(a: Entry, b: Entry) -> bool
    ensures { result ≡ same_entry a b }
{
    a.from == b.from && a.keeps == b.keeps
}

/// Notes how an arc enters its pin, and the pin where another arc entered it in another way.
fn note(
    network: &CowTable<bool>,
    entries: &mut [Option<Entry>],
    apart: &mut Items<u32>,
    arc: PinArc,
) -> Result<(), Memory>
    requires from { arc.from < length network.now }
    requires to { arc.to < length network.now }
    requires entries { arc.to < length entries.old }
    ensures entries { OnOk result (entries.new ≡ noted_entries network.now arc entries.old) }
    ensures apart { OnOk result (apart.new ≡ noted_apart network.now arc entries.old apart.old) }
{
    if !enters(network, arc) {
        return Ok(());
    }
    let entry = entry_of(arc);
    let first = entries[arc.to as usize].unwrap_or(entry);
    if !same_entry(first, entry) {
        apart.push(arc.to)?;
    }
    entries[arc.to as usize] = Some(first);
    Ok(())
}

/// The pins that arcs of the network enter in different ways.
fn pins_apart(
    alloc: Global,
    network: &CowTable<bool>,
    arcs: &[PinArc],
) -> Result<Items<u32>, Memory>
    requires { All (λ arc. (arc.from < length network.now) × (arc.to < length network.now))
        arcs.now }
    ensures { IfOk result (AreAllApart network.now arcs.now) }
{
    let mut entries = vec![in alloc; None; network.len()]?;
    let mut apart = Items::new(alloc);
    for arc in arcs {
        note(network, &mut entries, &mut apart, *arc)?;
    }
    Ok(apart)
}

/// The name at a place.
fn name_at(alloc: Global, names: &[Name], place: usize) -> Result<Name, Memory>
    requires { place < length names.now }
    ensures { IfOk result (λ name. name ≡ slice_index_or names.now place []) }
{
    names[place].copied(alloc)
}

/// Refuses a clock network that is no tree, by the least name of a pin that breaks it.
pub(crate) fn check_tree(
    alloc: Global,
    store: &Store,
    network: &CowTable<bool>,
    arcs: &[PinArc],
) -> Result<(), Fault>
    requires fault { net_fault store.now.design ≡ None }
    requires no_loop { HasNoLoop store.now.design }
    requires arcs { arcs.now ≡ pin_arcs store.now }
    requires network { IsNetwork store.now network.now }
    ensures ok { OnOk result (clock_not_tree store.now.design ≡ None) }
    ensures refused { IfErr result (IsGraphRefused store.now.design) }
{
    store.laws();
    let apart = pins_apart(alloc, network, arcs)?;
    let names = names_of(alloc, store, apart.as_slice())?;
    if names.is_empty() {
        return Ok(());
    }
    let place = least_place(names.as_slice());
    let name = name_at(alloc, names.as_slice(), place)?;
    Err(Fault::ClockNotTree(name))
}
