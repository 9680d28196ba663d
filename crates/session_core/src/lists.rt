//! Lists that grow together or not at all.

ghost use Rattle.std.specs.Prelude.{◌≡◌, [], ◌∷◌, ◌++◌, OnOk, OnErr};

use sta_units::Memory;
use std::alloc::Global;
use std::mem;
use timing_defs::Items;

/// Takes the elements out of a list, which is empty then. Takes no memory.
pub(crate) fn take_out<T: Drop>(alloc: Global, items: &mut Items<T>) -> Vec<T>
    ensures elements { result.items ≡ items.old }
    ensures left { items.new ≡ [] }
{
    mem::replace(items, Items::new(alloc)).into_vec()
}

/// Adds an element to each of two vectors, or to neither.
fn push_each<A: Drop, B: Drop>(
    firsts: &mut Vec<A>,
    first: A,
    seconds: &mut Vec<B>,
    second: B,
) -> Result<(), Memory>
    ensures first_ok { OnOk result (firsts.new.items ≡ firsts.old.items ++ first ∷ []) }
    ensures second_ok { OnOk result (seconds.new.items ≡ seconds.old.items ++ second ∷ []) }
    ensures first_err { OnErr result (firsts.new.items ≡ firsts.old.items) }
    ensures second_err { OnErr result (seconds.new.items ≡ seconds.old.items) }
{
    seconds.reserve(1)?;
    firsts.push(first)?;
    Ok(seconds.push(second)?)
}

/// Adds an element to each of two lists, or to neither where memory is wanting.
pub(crate) fn push_both<A: Drop, B: Drop>(
    alloc: Global,
    firsts: &mut Items<A>,
    first: A,
    seconds: &mut Items<B>,
    second: B,
) -> Result<(), Memory>
    ensures first_ok { OnOk result (firsts.new ≡ firsts.old ++ first ∷ []) }
    ensures second_ok { OnOk result (seconds.new ≡ seconds.old ++ second ∷ []) }
    ensures first_err { OnErr result (firsts.new ≡ firsts.old) }
    ensures second_err { OnErr result (seconds.new ≡ seconds.old) }
{
    let mut left = take_out(alloc, firsts);
    let mut right = take_out(alloc, seconds);
    let pushed = push_each(&mut left, first, &mut right, second);
    *firsts = Items::from_vec(left);
    *seconds = Items::from_vec(right);
    pushed
}
