//! Writes of single rows.

ghost use Rattle.std.specs.Prelude.{◌≡◌, ◌≢◌, ℕ, ◌<◌, nat_eq, length, slice_get, Some, None, if◌then◌else◌, OnOk};
ghost use Rattle.netlist_store.specs.Stores.{at};
ghost use Rattle.netlist_store.specs.Drafts.{KeepsItems};

use cow_table::{CowTable, Held};
use sta_units::{Again, Memory};
use std::alloc::Global;

/// Makes a table so long that it has a row of this number; the new rows are empty.
fn widen<T: Drop>(rows: &mut CowTable<Option<Held<T>>>, number: u32) -> Result<(), Memory>
    ensures within { OnOk result (number < length rows.new) }
    ensures kept { OnOk result ((n : ℕ) → at rows.new n ≡ at rows.old n) }
{
    for _i in rows.len()..number as usize + 1 {
        rows.push(None)?;
    }
    Ok(())
}

/// Writes the row of a number; none takes it out.
pub(crate) fn set_row<T: Drop>(
    rows: &mut CowTable<Option<Held<T>>>,
    number: u32,
    row: Option<Held<T>>,
) -> Result<(), Memory>
    ensures { OnOk result
        ((n : ℕ) → at rows.new n ≡ (if nat_eq number n then row else at rows.old n)) }
{
    widen(rows, number)?;
    rows.set(number as usize, row)
}

/// Makes a table so long that it has a row of this number; the new rows are copies of one.
fn widen_with<T: Again + Drop>(
    rows: &mut CowTable<T>,
    alloc: Global,
    number: u32,
    row: &T,
) -> Result<(), Memory>
    ensures within { OnOk result (number < length rows.new) }
    ensures kept { OnOk result (KeepsItems rows.old rows.new) }
{
    for _i in rows.len()..number as usize + 1 {
        rows.push(row.again(alloc)?)?;
    }
    Ok(())
}

/// Writes the row of a number in a table without empty rows.
pub(crate) fn put_row<T: Again + Drop>(
    rows: &mut CowTable<T>,
    alloc: Global,
    number: u32,
    row: T,
) -> Result<(), Memory>
    ensures here { OnOk result (slice_get rows.new number ≡ Some row) }
    ensures kept { OnOk result
        ((n : ℕ) (r : T) → n ≢ number → slice_get rows.old n ≡ Some r → slice_get rows.new n
        ≡ Some r) }
{
    widen_with(rows, alloc, number, &row)?;
    rows.set(number as usize, row)
}
