//! Numbers in an order in which new ones stand last.

ghost use Rattle.std.specs.Prelude.{◌≡◌, ◌≢◌, ◌<◌, ◌++◌, ◌∷◌, [], ℕ, Some, true, false, not, nat_eq, filter, length, slice_get, IfOk};
ghost use Rattle.std.specs.List.{list_any};
ghost use Rattle.netlist_store.specs.Building.{first_numbers};
ghost use Rattle.timing_defs.specs.Documents.{differ};
ghost use Rattle.netlist_store.specs.Orders.{KeepsPlaces};

use cow_table::CowTable;
use sta_units::Memory;
use std::alloc::Global;
use std::marker::Model;

/// Distinct numbers in order. A new one stands last, and what goes leaves the rest in order.
/// Contracts see the list.
#[derive(Drop)]
pub(crate) struct Roll {
    order: CowTable<Option<u32>>,
    places: CowTable<u32>,
}

impl Model for Roll {
    ghost use Rattle.std.specs.Prelude.{List, ℕ};
    ghost use Rattle.netlist_store.specs.Orders.{standing, ArePlaced};

    ghost Value = { List ℕ };

    ghost view = { λ r. standing r.order };

    ghost invariant = { λ r. ArePlaced r.order r.places };
}

impl Roll {
    /// No numbers. Takes no memory.
    pub(crate) fn new(alloc: Global) -> Roll
        ensures { result ≡ [] }
    {
        Roll {
            order: CowTable::new(alloc),
            places: CowTable::new(alloc),
        }
    }

    /// Gives the numbers up.
    pub(crate) fn discard(self) {}

    /// A copy, which shares what neither changes.
    pub(crate) fn copy(&self) -> Result<Roll, Memory>
        ensures { IfOk result (λ copy. copy ≡ self.now) }
    {
        let order = self.order.copy()?;
        let places = self.places.copy()?;
        Ok(Roll { order, places })
    }

    /// The numbers with another one at the end.
    pub(crate) fn with(self, number: u32) -> Result<Roll, Memory>
        requires { list_any (nat_eq number) self ≡ false }
        ensures { IfOk result (λ after. after ≡ self ++ number ∷ []) }
    {
        let place = self.order.len();
        if place > 0xffff_ffff {
            return Err(Memory);
        }
        let Roll { mut order, places } = self;
        order.push(Some(number))?;
        let places = with_place(places, number, place as u32)?;
        Ok(Roll { order, places })
    }

    /// The numbers without one of them.
    pub(crate) fn without(self, number: u32) -> Result<Roll, Memory>
        requires { list_any (nat_eq number) self ≡ true }
        ensures { IfOk result (λ after. after ≡ filter (λ n. not (nat_eq number n)) self) }
    {
        let Roll { mut order, places } = self;
        let place = *places.get(number as usize);
        order.set(place as usize, None)?;
        Ok(Roll { order, places })
    }
}

/// The first numbers in their order.
pub(crate) fn first_roll(alloc: Global, count: u32) -> Result<Roll, Memory>
    ensures { IfOk result (λ roll. roll ≡ first_numbers count) }
{
    let mut roll = Roll::new(alloc);
    for number in 0..count {
        roll = roll.with(number)?;
    }
    Ok(roll)
}

/// Distinct numbers in their order.
pub(crate) fn roll_of(alloc: Global, numbers: &[u32]) -> Result<Roll, Memory>
    requires { differ nat_eq numbers.now ≡ true }
    ensures { IfOk result (λ roll. roll ≡ numbers.now) }
{
    let mut roll = Roll::new(alloc);
    for number in numbers {
        roll = roll.with(*number)?;
    }
    Ok(roll)
}

/// As many places as there are numbers up to this one.
fn widened(places: CowTable<u32>, number: u32) -> Result<CowTable<u32>, Memory>
    ensures within { IfOk result (λ after. number < length after) }
    ensures kept { IfOk result
        (λ after. (n p : ℕ) → slice_get places n ≡ Some p → slice_get after n ≡ Some p) }
{
    let mut after = places;
    for _i in after.len()..number as usize + 1 {
        after.push(0)?;
    }
    Ok(after)
}

/// The places with that of a number.
fn with_place(places: CowTable<u32>, number: u32, place: u32) -> Result<CowTable<u32>, Memory>
    ensures placed { IfOk result (λ after. slice_get after number ≡ Some place) }
    ensures kept { IfOk result (λ after. KeepsPlaces number places after) }
{
    let mut after = widened(places, number)?;
    after.set(number as usize, place)?;
    Ok(after)
}
