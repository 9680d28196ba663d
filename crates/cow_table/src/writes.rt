//! Writes to many places of a table by several threads.

ghost use Rattle.std.specs.Prelude.{◌≡◌, ◌+◌, ◌*◌, ◌<◌, ◌≤◌, [], ◌∷◌, length, OnOk, flat_map};
ghost use Rattle.std.specs.Arc.{arc_value};
ghost use denote.Param.Send.{IsSync, IsSend};
ghost use Rattle.cow_table.specs.Pieces.{IsCut};
ghost use Rattle.cow_table.specs.Writes.{put_at, written};

use crate::pages::{PAGE, Page};
use crate::tables::set_at;
use sta_units::{Again, Memory};
use std::alloc::Global;
use std::sync::Arc;
use std::thread::{Threads, join_mut};

/// Writes a copy of a value at its place, where both are there: the `count` items of the pages are
/// those from place `first` on.
fn put_one<T: Again + Drop, E>(
    alloc: Global,
    first: usize,
    count: usize,
    place: usize,
    value: &Result<T, E>,
    pages: &mut [Arc<Page<T>>],
) -> Result<(), Memory>
    requires cut { IsCut 4096 arc_value pages.old }
    requires counted { count ≡ length (flat_map arc_value pages.old) }
    ensures cut { IsCut 4096 arc_value pages.new }
    ensures len { length (flat_map arc_value pages.new) ≡ count }
    ensures ok { OnOk result (flat_map arc_value pages.new ≡ put_at first (flat_map arc_value pages.old) place value.now) }
{
    match value {
        Ok(value) if first <= place && place - first < count => {
            set_at(pages, place - first, value.again(alloc)?)
        }
        _ => Ok(()),
    }
}

/// Writes copies of the values that are there at their places, in order: the `count` items of the pages
/// are those from place `first` on.
fn put_within<T: Again + Drop, E>(
    alloc: Global,
    first: usize,
    count: usize,
    places: &[u32],
    values: &[Result<T, E>],
    pages: &mut [Arc<Page<T>>],
) -> Result<(), Memory>
    requires cut { IsCut 4096 arc_value pages.old }
    requires counted { count ≡ length (flat_map arc_value pages.old) }
    requires same { length places.now ≡ length values.now }
    ensures cut { IsCut 4096 arc_value pages.new }
    ensures len { length (flat_map arc_value pages.new) ≡ count }
    ensures ok { OnOk result (flat_map arc_value pages.new ≡ written first (flat_map arc_value pages.old) places.now values.now) }
{
    for (at, place) in places.iter().enumerate() {
        put_one(alloc, first, count, *place as usize, &values[at], pages)?;
    }
    Ok(())
}

/// The page with which the last of some parts begins, of `all` parts that share the places evenly.
fn last_part(places: &[u32], parts: usize, all: usize, pages: usize) -> usize
    requires some { 0 < parts }
    requires part { parts ≤ all }
    requires several { 1 < pages }
    ensures { result < pages }
{
    match places.get(places.len() / all * (parts - 1)) {
        Some(place) => (*place as usize / PAGE).min(pages - 1),
        None => 0,
    }
}

/// Writes copies of the values that are there at their places by that many threads, each of which
/// writes some pages that stand side by side.
#[cycle(parts)]
pub(crate) fn put_parts<H: Threads + Sync, T: Again + Send + Sync + Drop, E: Sync>(
    rt: &H,
    alloc: Global,
    parts: usize,
    all: usize,
    count: usize,
    places: &[u32],
    values: &[Result<T, E>],
    pages: &mut [Arc<Page<T>>],
) -> Result<(), Memory>
    requires some { 0 < all }
    requires part { parts ≤ all }
    requires cut { IsCut 4096 arc_value pages.old }
    requires counted { count ≡ length (flat_map arc_value pages.old) }
    requires same { length places.now ≡ length values.now }
    ensures cut { IsCut 4096 arc_value pages.new }
    ensures len { length (flat_map arc_value pages.new) ≡ count }
    ensures ok { OnOk result (flat_map arc_value pages.new ≡ written 0 (flat_map arc_value pages.old) places.now values.now) }
{
    if parts < 2 || pages.len() < 2 {
        return put_within(alloc, 0, count, places, values, pages);
    }
    let at = last_part(places, parts, all, pages.len());
    let (front, back) = pages.split_at_mut(at);
    put_both(
        rt,
        alloc,
        parts - 1,
        all,
        at * PAGE,
        count - at * PAGE,
        places,
        values,
        front,
        back,
    )
}

/// The same for two runs of pages: the last part's thread writes the second one.
#[cycle(parts)]
fn put_both<H: Threads + Sync, T: Again + Send + Sync + Drop, E: Sync>(
    rt: &H,
    alloc: Global,
    others: usize,
    all: usize,
    before: usize,
    behind: usize,
    places: &[u32],
    values: &[Result<T, E>],
    front: &mut [Arc<Page<T>>],
    back: &mut [Arc<Page<T>>],
) -> Result<(), Memory>
    requires some { 0 < all }
    requires part { others ≤ all }
    requires front_cut { IsCut 4096 arc_value front.old }
    requires back_cut { IsCut 4096 arc_value back.old }
    requires before { before ≡ length (flat_map arc_value front.old) }
    requires behind { behind ≡ length (flat_map arc_value back.old) }
    requires same { length places.now ≡ length values.now }
    ensures front_cut { IsCut 4096 arc_value front.new }
    ensures back_cut { IsCut 4096 arc_value back.new }
    ensures before { length (flat_map arc_value front.new) ≡ before }
    ensures behind { length (flat_map arc_value back.new) ≡ behind }
    ensures front { OnOk result (flat_map arc_value front.new ≡ written 0 (flat_map arc_value front.old) places.now values.now) }
    ensures back { OnOk result (flat_map arc_value back.new ≡ written before (flat_map arc_value back.old) places.now values.now) }
{
    let mut ours = || -> Result<(), Memory>
        requires { IsSync H.row × IsSend T.row × IsSync T.row × IsSync E.row × (0 < all) × (others ≤ all) × IsCut 4096 arc_value front.now × (before ≡ length (flat_map arc_value front.now)) × (length places.now ≡ length values.now) }
        ensures { IsCut 4096 arc_value front.exit.now × (length (flat_map arc_value front.exit.now) ≡ before) × OnOk result (flat_map arc_value front.exit.now ≡ written 0 (flat_map arc_value front.entry.now) places.entry.now values.entry.now) }
    { put_parts(rt, alloc, others, all, before, places, values, front) };
    let mut theirs = || -> Result<(), Memory>
        requires { IsSend T.row × IsSync T.row × IsSync E.row × IsCut 4096 arc_value back.now × (behind ≡ length (flat_map arc_value back.now)) × (length places.now ≡ length values.now) }
        ensures { IsCut 4096 arc_value back.exit.now × (length (flat_map arc_value back.exit.now) ≡ behind) × OnOk result (flat_map arc_value back.exit.now ≡ written before (flat_map arc_value back.entry.now) places.entry.now values.entry.now) }
    { put_within(alloc, before, behind, places, values, back) };
    let (last, first) = join_mut(rt, &mut theirs, &mut ours);
    first?;
    last
}
