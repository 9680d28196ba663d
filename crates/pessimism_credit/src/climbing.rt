//! Climbing a clock tree from a place to its root.

ghost use Rattle.std.specs.Prelude.{◌≡◌, ◌-ℤ◌, None, reverse, slice_get, IfOk};
ghost use Rattle.std.specs.Int.{int_min};
ghost use Rattle.sta_units.specs.Numbers.{Within};
ghost use Rattle.pessimism_credit.specs.Credit.{IsTree, parent_of, pessimism_at, root_path, last_common, least_credit_of};

use crate::rows::TreeRow;
use sta_units::{Fs, Memory};
use std::alloc::Global;
use timing_defs::Items;

/// The row of a place, if there is one.
fn row_at(rows: &[TreeRow], n: u32) -> Option<TreeRow>
    ensures { result ≡ slice_get rows.now n }
{
    rows.get(n as usize).copied()
}

/// The parent of a place.
#[tactic(auto, using(crate::proofs::Climbs::row_reads))]
fn parent_at(rows: &[TreeRow], n: u32) -> Option<u32>
    ensures { result ≡ parent_of rows.now n }
{
    match row_at(rows, n) {
        Some(row) => row.parent,
        None => None,
    }
}

/// Late less early arrival of a row, in fs.
fn pessimism_of(row: TreeRow) -> Fs
    requires early { Within row.early.0 }
    requires late { Within row.late.0 }
    ensures { result.0 ≡ row.late.0 -ℤ row.early.0 }
{
    Fs(row.late.0 - row.early.0)
}

/// Late less early arrival at a place, in fs.
#[tactic(auto, using(crate::proofs::Climbs::row_reads))]
pub(crate) fn pessimism_in(rows: &[TreeRow], n: u32) -> Fs
    requires { IsTree rows.now }
    ensures { result.0 ≡ pessimism_at rows.now n }
{
    match row_at(rows, n) {
        Some(row) => pessimism_of(row),
        None => Fs(0),
    }
}

/// The places from `n` up to the root.
#[tactic(auto, using(crate::proofs::Climbs::climbs))]
fn path_up(alloc: Global, rows: &[TreeRow], n: u32) -> Result<Items<u32>, Memory>
    requires { IsTree rows.now }
    ensures { IfOk result (λ path. reverse path ≡ root_path rows.now n) }
{
    let mut path = Items::new(alloc);
    let mut at = Some(n);
    while let Some(place) = at {
        path.push(place)?;
        at = parent_at(rows, place);
    }
    Ok(path)
}

/// The places from the root to `n`.
pub(crate) fn path_in(alloc: Global, rows: &[TreeRow], n: u32) -> Result<Items<u32>, Memory>
    requires { IsTree rows.now }
    ensures { IfOk result (λ path. path ≡ root_path rows.now n) }
{
    let mut path = path_up(alloc, rows, n)?.into_vec();
    path.reverse();
    Ok(Items::from_vec(path))
}

/// The last place that the paths from the root to `a` and to `b` share.
#[tactic(auto, using(crate::proofs::Climbs::climbs))]
pub(crate) fn last_shared(rows: &[TreeRow], a: u32, b: u32) -> Option<u32>
    requires { IsTree rows.now }
    ensures { result ≡ last_common None (root_path rows.now a) (root_path rows.now b) }
{
    let mut left = a;
    let mut right = b;
    while left != right {
        if right < left {
            match parent_at(rows, left) {
                None => return None,
                Some(parent) => left = parent,
            }
        } else {
            match parent_at(rows, right) {
                None => return None,
                Some(parent) => right = parent,
            }
        }
    }
    Some(left)
}

/// The lesser of two times, in fs.
fn lesser(x: Fs, y: Fs) -> Fs
    ensures { result.0 ≡ int_min x.0 y.0 }
{
    Fs(x.0.min(y.0))
}

/// The least pessimism at a place and at those above it, in fs; 0 where none is less.
#[tactic(auto, using(crate::proofs::Climbs::climbs))]
pub(crate) fn least_above(rows: &[TreeRow], n: u32) -> Fs
    requires { IsTree rows.now }
    ensures { result.0 ≡ least_credit_of rows.now n }
{
    let mut least = Fs(0);
    let mut at = Some(n);
    while let Some(place) = at {
        least = lesser(least, pessimism_in(rows, place));
        at = parent_at(rows, place);
    }
    least
}
