//! Seats are made from one another, and taken in again at the end.
ghost use Rattle.std.specs.Prelude.{◌≡◌, ◌≤◌, ◌<◌, ◌^◌, true, false, [], None, IfOk};
ghost use Rattle.std.specs.Arc.{arc_value};
ghost use Rattle.version_board.specs.Callers.{meaning, IsSized};
ghost use Rattle.version_board.specs.Closed.{Closes};
ghost use Rattle.version_board.specs.Orderly.{opened};
ghost use Rattle.version_board.specs.Seats.{stays, comes, joined, spent};

use crate::views::{Place, Row, Shelf, Stands, View};
use atomic_table::{Join, Split, Table};
use sta_units::Memory;
use std::alloc::Global;
use std::snapshot::Snapshot;
use std::sync::Arc;

struct Grant;

impl<E, O> Split<View<E, O>> for Grant {
    ghost left = { stays };

    ghost right = { comes };
}

struct Gather;

impl<E, O> Join<View<E, O>> for Gather {
    ghost both = { joined };

    ghost spent = { spent };
}

/// The next seat, which has seen what the maker had.
pub(crate) fn split_seat<T: Stands>(row: &Row<T>, place: &mut Place<T>) -> Place<T>
    requires table { (place.old.table_id ≡ row.now.table_id) × (row.now.table_id.words ≡ 3) }
    requires maker { (place.old.me.0.spent ≡ false) × (place.old.me.0.turn ≡ None) × (place.old.me.0.maker ≡ true) × (2 ≤ place.old.me.0.parts) }
    requires early { place.old.me.0.mine ≡ [] }
    ensures left { (place.new.table_id ≡ place.old.table_id) × (place.new.me ≡ (stays place.old.me.0, place.old.me.1)) }
    ensures next { (result.table_id ≡ place.old.table_id) × (result.me ≡ (comes place.old.me.0, [])) }
{
    row.split_seat::<Grant>(place)
}

/// Takes in another seat.
pub(crate) fn join_seat<T: Stands>(row: &Row<T>, place: &mut Place<T>, other: Place<T>)
    requires table { (place.old.table_id ≡ row.now.table_id) × (other.table_id ≡ row.now.table_id) × (row.now.table_id.words ≡ 3) }
    requires seat { place.old.me.0.spent ≡ false }
    requires other { (other.me.0.spent ≡ false) × (other.me.0.turn ≡ None) × (other.me.0.inside ≡ false) × (other.me.1 ≡ []) }
    ensures { (place.new.table_id ≡ place.old.table_id) × (place.new.me ≡ (joined place.old.me.0 other.me.0, place.old.me.1)) }
{
    row.join_seat::<Gather>(place, other);
}

/// The last value, once one seat took in all others.
pub(crate) fn finish<T: Stands>(table: Shelf<T>, whole: Place<T>) -> Arc<T>
    requires table { (whole.table_id ≡ table.shared.table_id) × IsSized table.shared.table_id }
    requires whole { (whole.me.0.spent ≡ false) × (whole.me.0.turn ≡ None) × (whole.me.0.parts ≡ table.shared.key.1) }
    ensures { Closes (meaning T.entries T.from T.origin T.by) (T.from table.shared.key.0.value) (T.origin table.shared.key.0.value) whole.me.0 (arc_value result) }
{
    let mut closed = table.close_with(whole);
    let value = closed.take(0).unwrap();
    closed.free();
    value
}

/// The table of a board for so many seats, with its first seat, which makes the others.
pub(crate) fn lay<T: Stands>(
    alloc: Global,
    first: u64,
    value: Arc<T>,
    seats: u32,
) -> Result<(Shelf<T>, Place<T>), Memory>
    requires room { (0 < seats) × (first ≤ 2 ^ 62) }
    requires value { (T.entries (arc_value value) ≡ []) × (T.from (arc_value value) ≡ first) }
    ensures table { IfOk result (λ t. IsSized t.0.shared.table_id × (t.0.shared.key.0.value ≡ arc_value value) × (t.0.shared.key.1 ≡ seats)) }
    ensures seat { IfOk result (λ t. (t.1.table_id ≡ t.0.shared.table_id) × (t.1.me ≡ (opened first (T.origin (arc_value value)) seats, []))) }
{
    let about = (Snapshot::of(&*value), u64::from(seats));
    let mut slots = Vec::with_capacity(alloc, 1)?;
    slots.push_reserved(Some(value));
    Table::new(alloc, &[0, 0, first], slots, &about).map_err(|_| Memory)
}
