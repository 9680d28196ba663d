//! The worst endpoints: those of least slack, by name where slacks are equal.

ghost use Rattle.std.specs.Prelude.{◌≡◌, true, All, map, option_map, IfOk};
ghost use Rattle.std.specs.Vec.Iter.{into_iter_items};
ghost use Rattle.itertools.specs.Extremes.{IsKLeast, by_cmp};
ghost use Rattle.timing_rules.specs.Reports.{goes_before};
ghost use Rattle.netlist_store.specs.Numbering.{is_number};
ghost use Rattle.affected_cone.specs.Ranks.{end_row, row_of, rows_of};

use crate::ends::{EndSlacks, slack_in};
use itertools::Itertools;
use netlist_store::Store;
use sta_units::{Fs, Memory};
use std::alloc::{AllocError, Global};
use std::vec::IntoIter;
use timing_defs::{EndRow, Items, Kind, Name};

/// An endpoint with its slack, ordered by slack and then by name.
#[derive(Clone, Copy, PartialEq, Eq, PartialOrd, Ord, Drop)]
pub(crate) struct Ranked<'a> {
    pub(crate) slack: Fs,
    pub(crate) pin: &'a Name,
}

/// An endpoint that has a slack of a kind.
fn ranked_end<'a>(store: &'a Store, end: &EndSlacks, kind: Kind) -> Option<Ranked<'a>>
    requires { is_number store.now.pins end.now.pin ≡ true }
    ensures { option_map end_row result ≡ row_of store.now kind end.now }
{
    let slack = slack_in(end, kind)?;
    Some(Ranked {
        slack: Fs(slack),
        pin: store.pin_name(end.pin),
    })
}

/// The endpoints that have a slack of a kind.
fn ranked_ends<'a>(
    alloc: Global,
    store: &'a Store,
    ends: &[EndSlacks],
    kind: Kind,
) -> Result<Vec<Ranked<'a>>, Memory>
    requires { All (λ end. is_number store.now.pins end.pin ≡ true) ends.now }
    ensures { IfOk result (λ found. map end_row found.items ≡ rows_of store.now kind ends.now) }
{
    let mut found = Vec::new(alloc);
    for end in ends {
        if let Some(ranked) = ranked_end(store, end, kind) {
            found.push(ranked)?;
        }
    }
    Ok(found)
}

/// So many items are picked out one by one; of more, all are sorted.
const PICKED: usize = 256;

/// The least items, rising, at most that many, by sorting all.
fn first_sorted<T: Ord + Copy + Drop>(
    alloc: Global,
    items: &[T],
    count: usize,
) -> Result<IntoIter<T, Global>, AllocError>
    ensures { IfOk result (λ it. IsKLeast (by_cmp T.cmp) count items.now (into_iter_items it)) }
{
    let mut sorted = Vec::from_slice(alloc, items)?;
    sorted.sort()?;
    sorted.truncate(count);
    Ok(sorted.into_iter())
}

/// The least items, rising, at most that many. Takes time of the items times the logarithm of their
/// number.
fn least<T: Ord + Copy + Drop>(
    alloc: Global,
    items: &[T],
    count: usize,
) -> Result<IntoIter<T, Global>, AllocError>
    ensures { IfOk result (λ it. IsKLeast (by_cmp T.cmp) count items.now (into_iter_items it)) }
{
    if count > PICKED {
        return first_sorted(alloc, items, count);
    }
    items.iter().copied().k_smallest(alloc, count)
}

/// The rows of endpoints, in their order.
fn end_rows(alloc: Global, ends: IntoIter<Ranked<'_>, Global>) -> Result<Items<EndRow>, Memory>
    ensures { IfOk result (λ rows. rows ≡ map end_row (into_iter_items ends.entry)) }
{
    let mut rows = Items::new(alloc);
    for end in ends {
        let pin = end.pin.copied(alloc)?;
        rows.push(EndRow {
            pin,
            slack: end.slack,
        })?;
    }
    Ok(rows)
}

/// The rows of at most that many endpoints, the worst first.
fn worst_rows(alloc: Global, ends: &[Ranked<'_>], count: u32) -> Result<Items<EndRow>, Memory>
    ensures { IfOk result (IsKLeast goes_before count (map end_row ends.now)) }
{
    let worst = least(alloc, ends, count as usize)?;
    end_rows(alloc, worst)
}

/// At most that many endpoints that have a slack of a kind, the worst first.
pub(crate) fn worst_ends(
    alloc: Global,
    store: &Store,
    ends: &[EndSlacks],
    kind: Kind,
    count: u32,
) -> Result<Items<EndRow>, Memory>
    requires { All (λ end. is_number store.now.pins end.pin ≡ true) ends.now }
    ensures { IfOk result (IsKLeast goes_before count (rows_of store.now kind ends.now)) }
{
    let found = ranked_ends(alloc, store, ends, kind)?;
    let rows = worst_rows(alloc, found.as_slice(), count);
    drop(found);
    rows
}
