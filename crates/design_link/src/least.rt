//! The least name by bytes.

ghost use Rattle.std.specs.Prelude.{◌≡◌, ◌<◌, ℕ, [], false, length, slice_index_or, if◌then◌else◌, IfOk};
ghost use Rattle.timing_defs.specs.NetChecks.{is_before, least};

use sta_units::Memory;
use std::alloc::Global;
use std::cmp::Ordering;
use timing_defs::Name;

/// Whether a name comes before another.
fn comes_before(a: &Name, b: &Name) -> bool
    ensures { result ≡ is_before a.now b.now }
{
    match a.cmp(b) {
        Ordering::Less => true,
        Ordering::Equal | Ordering::Greater => false,
    }
}

/// The place of the lesser of two names, the first where they are the same.
fn lesser_place(names: &[Name], a: usize, b: usize) -> usize
    requires a { a < length names.now }
    requires b { b < length names.now }
    ensures { result
        ≡
        (if is_before (slice_index_or names.now b []) (slice_index_or names.now a []) then b else
        a) }
{
    if comes_before(&names[b], &names[a]) {
        b
    } else {
        a
    }
}

/// The place of the least of some names.
#[tactic(auto, using(crate::proofs::Orders::best_none, crate::proofs::Orders::best_more))]
fn least_place(names: &[Name]) -> usize
    requires { 0 < length names.now }
    ensures within { result < length names.now }
    ensures least { (k : ℕ) → k < length names.now
        → is_before (slice_index_or names.now k []) (slice_index_or names.now result []) ≡ false }
{
    let mut place = 0;
    for at in 0..names.len() {
        place = lesser_place(names, place, at);
    }
    place
}

/// The name at a place.
fn name_at(alloc: Global, names: &[Name], place: usize) -> Result<Name, Memory>
    requires { place < length names.now }
    ensures { IfOk result (λ name. name ≡ slice_index_or names.now place []) }
{
    names[place].copied(alloc)
}

/// The least of some names; none where there are none.
pub(crate) fn least_name(alloc: Global, names: &[Name]) -> Result<Option<Name>, Memory>
    ensures { IfOk result (λ name. name ≡ least names.now) }
{
    if names.is_empty() {
        return Ok(None);
    }
    let place = least_place(names);
    let name = name_at(alloc, names, place)?;
    Ok(Some(name))
}
