//! The pins of a store by their names, as their rows are written and as pins go.

ghost use Rattle.std.specs.Prelude.{◌≡◌, ℕ, List, if◌then◌else◌, None, Some, IfOk, OnOk};
ghost use Rattle.std.specs.Str.{bytes_eq};
ghost use Rattle.netlist_store.specs.Numbering.{number_of};
ghost use Rattle.netlist_store.specs.Drafts.{Follows, IsFilled, KeepsNames, row_named};

use crate::numberings::Numbering;
use crate::row_edits::put_row;
use crate::tables::PinRow;
use cow_table::CowTable;
use sta_units::Memory;
use std::alloc::Global;
use timing_defs::Name;

/// Writes the row of a pin that has none.
fn add_pin(
    names: Numbering,
    rows: &mut CowTable<PinRow>,
    alloc: Global,
    base: &Numbering,
    name: Name,
    row: PinRow,
) -> Result<Numbering, Memory>
    requires new { number_of names name ≡ None }
    requires follows { Follows base.now names }
    requires filled { IsFilled names rows.old }
    ensures rows { IfOk result
        (λ after. (q : List ℕ) → row_named after rows.new q
        ≡ (if bytes_eq q name then Some row else row_named names rows.old q)) }
    ensures kept { IfOk result (λ after. KeepsNames names after) }
    ensures follows { IfOk result (λ after. Follows base.now after) }
    ensures filled { IfOk result (λ after. IsFilled after rows.new) }
{
    names.laws();
    let made = names.with(base, name)?;
    let (after, number) = made;
    after.laws();
    put_row(rows, alloc, number, row)?;
    Ok(after)
}

/// Writes the row of a pin that has one.
fn change_pin(
    names: &Numbering,
    rows: &mut CowTable<PinRow>,
    alloc: Global,
    name: &Name,
    number: u32,
    row: PinRow,
) -> Result<(), Memory>
    requires known { number_of names.now name.now ≡ Some number }
    requires filled { IsFilled names.now rows.old }
    ensures rows { OnOk result
        ((q : List ℕ) → row_named names.now rows.new q
        ≡ (if bytes_eq q name.now then Some row else row_named names.now rows.old q)) }
    ensures filled { OnOk result (IsFilled names.now rows.new) }
{
    names.laws();
    let _ = name;
    put_row(rows, alloc, number, row)?;
    Ok(())
}

/// Writes the row of a pin, and numbers the pin where it has no number.
pub(crate) fn put_pin(
    names: Numbering,
    rows: &mut CowTable<PinRow>,
    alloc: Global,
    base: &Numbering,
    name: Name,
    row: PinRow,
) -> Result<Numbering, Memory>
    requires follows { Follows base.now names }
    requires filled { IsFilled names rows.old }
    ensures rows { IfOk result
        (λ after. (q : List ℕ) → row_named after rows.new q
        ≡ (if bytes_eq q name then Some row else row_named names rows.old q)) }
    ensures kept { IfOk result (λ after. KeepsNames names after) }
    ensures follows { IfOk result (λ after. Follows base.now after) }
    ensures filled { IfOk result (λ after. IsFilled after rows.new) }
{
    match names.number(&name) {
        Some(number) => {
            change_pin(&names, rows, alloc, &name, number, row)?;
            Ok(names)
        }
        None => add_pin(names, rows, alloc, base, name, row),
    }
}
