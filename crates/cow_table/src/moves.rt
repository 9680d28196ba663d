//! Values that move to their places in a table.

ghost use Rattle.std.specs.Prelude.{◌≡◌, None, length, set, IfOk, OnOk, flat_map};
ghost use Rattle.std.specs.Arc.{arc_value};
ghost use Rattle.cow_table.specs.Pieces.{IsCut};
ghost use Rattle.cow_table.specs.Writes.{first_refused, written};

use crate::pages::Page;
use crate::tables::set_at;
use sta_units::{Again, Memory};
use std::sync::Arc;

/// The first error among some values; none exactly where all are there.
pub(crate) fn first_refused<T: Drop, E: Drop>(values: Vec<Result<T, E>>) -> Option<E>
    ensures { result ≡ first_refused values.items }
{
    for value in values {
        if let Err(refused) = value {
            return Some(refused);
        }
    }
    None
}

/// Writes a value at its place, where that is there: the pages have `count` items.
fn move_one<T: Again + Drop>(
    count: usize,
    place: usize,
    value: T,
    pages: &mut [Arc<Page<T>>],
) -> Result<(), Memory>
    requires cut { IsCut 4096 arc_value pages.old }
    requires counted { count ≡ length (flat_map arc_value pages.old) }
    ensures cut { IsCut 4096 arc_value pages.new }
    ensures len { length (flat_map arc_value pages.new) ≡ count }
    ensures ok { OnOk result (flat_map arc_value pages.new ≡ set (flat_map arc_value pages.old) place value) }
{
    if place < count {
        set_at(pages, place, value)
    } else {
        Ok(())
    }
}

/// Writes each value at its place, in order, up to the first that is an error, which is given back: the
/// pages have `count` items. A place that is not below `count` is passed by.
pub(crate) fn move_all<T: Again + Drop, E: Drop>(
    count: usize,
    places: &[u32],
    values: Vec<Result<T, E>>,
    pages: &mut [Arc<Page<T>>],
) -> Result<Option<E>, Memory>
    requires cut { IsCut 4096 arc_value pages.old }
    requires counted { count ≡ length (flat_map arc_value pages.old) }
    requires same { length places.now ≡ length values.items }
    ensures cut { IsCut 4096 arc_value pages.new }
    ensures len { length (flat_map arc_value pages.new) ≡ count }
    ensures refused { IfOk result (λ refused. refused ≡ first_refused values.items) }
    ensures ok { IfOk result (λ refused. refused ≡ None → flat_map arc_value pages.new ≡ written 0 (flat_map arc_value pages.old) places.now values.items) }
{
    let mut at = 0;
    for value in values {
        match value {
            Ok(value) => move_one(count, places[at] as usize, value, pages)?,
            Err(refused) => return Ok(Some(refused)),
        }
        at += 1;
    }
    Ok(None)
}
