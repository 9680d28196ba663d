//! The pins on a net, as one joins it or leaves it.

ghost use Rattle.std.specs.Prelude.{◌≡◌, ◌++◌, ◌∷◌, [], ℕ, List, nat_eq, not, filter, slice_get, Some, IfOk, OnOk};
ghost use Rattle.netlist_store.specs.Drafts.{joined_list, left_list};

use cow_table::{CowTable, Held};
use sta_units::{Again, Memory};
use std::alloc::Global;
use timing_defs::Items;

/// Adds a pin that is not this one.
fn push_other(left: &mut Items<u32>, other: u32, pin: u32) -> Result<(), Memory>
    ensures { OnOk result (left.new ≡ left.old ++ filter (λ p. not (nat_eq pin p)) (other ∷ [])) }
{
    if pin == other {
        return Ok(());
    }
    left.push(other)
}

/// The pins but one.
fn without_pin(alloc: Global, pins: &[u32], pin: u32) -> Result<Items<u32>, Memory>
    ensures { IfOk result (λ left. left ≡ filter (λ p. not (nat_eq pin p)) pins.now) }
{
    let mut left = Items::new(alloc);
    for other in pins {
        push_other(&mut left, *other, pin)?;
    }
    Ok(left)
}

/// A pin joins a net.
pub(crate) fn join_net(
    lists: &mut CowTable<Held<Items<u32>>>,
    alloc: Global,
    to: Option<u32>,
    pin: u32,
) -> Result<(), Memory>
    ensures { OnOk result
        ((k : ℕ) (pins : List ℕ) → slice_get lists.old k ≡ Some pins → slice_get lists.new k
        ≡ Some (joined_list to pin k pins)) }
{
    let Some(net) = to else {
        return Ok(());
    };
    if net as usize >= lists.len() {
        return Ok(());
    }
    let mut pins = lists.get(net as usize).get().again(alloc)?;
    pins.push(pin)?;
    lists.set(net as usize, Held::of(alloc, pins)?)
}

/// A pin leaves a net.
pub(crate) fn leave_net(
    lists: &mut CowTable<Held<Items<u32>>>,
    alloc: Global,
    from: Option<u32>,
    pin: u32,
) -> Result<(), Memory>
    ensures { OnOk result
        ((k : ℕ) (pins : List ℕ) → slice_get lists.old k ≡ Some pins → slice_get lists.new k
        ≡ Some (left_list from pin k pins)) }
{
    let Some(net) = from else {
        return Ok(());
    };
    if net as usize >= lists.len() {
        return Ok(());
    }
    let pins = without_pin(alloc, lists.get(net as usize).get().as_slice(), pin)?;
    lists.set(net as usize, Held::of(alloc, pins)?)
}
