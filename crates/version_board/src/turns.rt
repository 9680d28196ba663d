//! A turn on the board: draw a ticket, wait until it is served, lift the value, read the count, add an
//! entry or not, lay a value back, leave.
ghost use Rattle.std.specs.Prelude.{◌≡◌, ◌+◌, true, false, [], ◌∷◌, ◌++◌, length, Some, None};
ghost use Rattle.std.specs.Arc.{arc_value};
ghost use mathlib.Core.List.{IsPrefix};
ghost use Rattle.version_board.specs.History.{shared, Fits};
ghost use Rattle.version_board.specs.Steps.{waiting, entered, tallied, marked, away};

use crate::plays::{Draw, Leave, Look, Mark, Tally};
use crate::views::{Place, Row, Stands};
use std::sync::{Arc, Wait};
use std::thread;

/// Draws the next ticket. It waits for ever once 2^62 tickets were drawn.
pub(crate) fn draw<T: Stands, R: Wait>(rt: &R, row: &Row<T>, place: &mut Place<T>) -> u64
    requires table { (place.old.table_id ≡ row.now.table_id) × (row.now.table_id.words ≡ 3) }
    requires idle { (place.old.me.0.turn ≡ None) × (place.old.me.0.spent ≡ false) }
    ensures { (place.new.table_id ≡ place.old.table_id) × (place.new.id ≡ place.old.id) × (place.new.me ≡ (waiting result place.old.me.0, place.old.me.1)) }
{
    for _ in rt.forever() {
        let ticket = row.peek(0);
        if ticket < 1 << 62
            && row.compare_exchange::<Draw>(place, 0, ticket, ticket + 1) == ticket
        {
            return ticket;
        }
    }
    unreachable!()
}

/// Waits until the ticket is served, and lifts the value.
pub(crate) fn wait<T: Stands, R: Wait>(
    rt: &R,
    row: &Row<T>,
    place: &mut Place<T>,
    ticket: u64,
) -> Arc<T>
    requires table { (place.old.table_id ≡ row.now.table_id) × (row.now.table_id.words ≡ 3) }
    requires outside { (place.old.me.0.turn ≡ Some ticket) × (place.old.me.0.inside ≡ false) × (place.old.me.0.spent ≡ false) }
    ensures seat { (place.new.table_id ≡ place.old.table_id) × (place.new.id ≡ place.old.id) × (place.new.me ≡ (entered (T.entries (arc_value result)) place.old.me.0, (0, None) ∷ place.old.me.1)) }
    ensures value { Fits (shared T.entries T.from T.origin T.by) place.old.me.0 result }
{
    for _ in rt.forever() {
        if row.load::<Look<T>>(place, 1) == ticket {
            return row.exchange(place, 0, None).unwrap();
        }
        thread::yield_now();
    }
    unreachable!()
}

/// Reads the count: the seat has now seen the lifted value's list.
pub(crate) fn tally<T: Stands>(row: &Row<T>, place: &mut Place<T>) -> u64
    requires table { (place.old.table_id ≡ row.now.table_id) × (row.now.table_id.words ≡ 3) }
    requires inside { (place.old.me.0.inside ≡ true) × (place.old.me.0.spent ≡ false) }
    ensures seat { (place.new.table_id ≡ place.old.table_id) × (place.new.id ≡ place.old.id) × (place.new.me ≡ (tallied result place.old.me.0, place.old.me.1)) }
    ensures count { (result ≡ place.old.me.0.first + length place.old.me.0.held) × IsPrefix place.old.me.0.seen place.old.me.0.held }
{
    row.load::<Tally>(place, 2)
}

/// Lays the lifted value back and leaves.
pub(crate) fn leave<T: Stands>(row: &Row<T>, place: &mut Place<T>, value: Arc<T>)
    requires table { (place.old.table_id ≡ row.now.table_id) × (row.now.table_id.words ≡ 3) }
    requires inside { (place.old.me.0.inside ≡ true) × (place.old.me.0.spent ≡ false) × (place.old.me.1 ≡ (0, None) ∷ []) }
    requires value { (T.entries (arc_value value) ≡ place.old.me.0.held) × Fits (shared T.entries T.from T.origin T.by) place.old.me.0 value }
    ensures { (place.new.table_id ≡ place.old.table_id) × (place.new.id ≡ place.old.id) × (place.new.me ≡ (away place.old.me.0, [])) }
{
    row.exchange(place, 0, Some(value));
    row.fetch_add::<Leave>(place, 1, 1);
}

/// Counts the one entry that the next value has more than was seen, and leaves with that value laid
/// down.
pub(crate) fn add<T: Stands>(row: &Row<T>, place: &mut Place<T>, next: Arc<T>)
    requires table { (place.old.table_id ≡ row.now.table_id) × (row.now.table_id.words ≡ 3) }
    requires inside { (place.old.me.0.inside ≡ true) × (place.old.me.0.spent ≡ false) × (place.old.me.0.marked ≡ false) × (place.old.me.0.seen ≡ place.old.me.0.held) × (place.old.me.1 ≡ (0, None) ∷ []) }
    requires next { (e : T.Entry) × (T.entries (arc_value next) ≡ place.old.me.0.seen ++ e ∷ []) × (T.by e ≡ place.old.me.0.number) × Fits (shared T.entries T.from T.origin T.by) place.old.me.0 next }
    ensures seat { (place.new.table_id ≡ place.old.table_id) × (place.new.id ≡ place.old.id) }
    ensures entry { (e : T.Entry) → T.entries (arc_value next) ≡ place.old.me.0.seen ++ e ∷ [] → place.new.me ≡ (away (marked e place.old.me.0), []) }
{
    row.exchange(place, 0, Some(next));
    row.fetch_add::<Mark<T>>(place, 2, 1);
    row.fetch_add::<Leave>(place, 1, 1);
}
