//! The board and its seats, as callers use them.
ghost use Rattle.std.specs.Prelude.{◌≡◌, ℕ, ◌+◌, ◌^◌, ◌<◌, ◌≤◌, false, [], length, map, reverse, None, IfOk, IfErr, IfSome, All, slice_get};
ghost use Rattle.std.specs.Arc.{arc_value};
ghost use Rattle.version_board.specs.Callers.{meaning, IsSeatOf, IsResting, IsSame, IsNew, IsSized, SitsAt, StandsFor, Continues, Looks, Publishes, AgreesWith, number};
ghost use Rattle.std.specs.List.{Contains};
ghost use Rattle.version_board.specs.Gathered.{tells};
ghost use Rattle.version_board.specs.History.{told};
ghost use Rattle.version_board.specs.Orderly.{opened};
ghost use Rattle.version_board.specs.Returns.{Refuses};

use crate::seats::{finish, join_seat, lay, split_seat};
use crate::turns::{add, draw, leave, tally, wait};
use crate::views::{Place, Row, Shelf, Stands};
use sta_units::Memory;
use std::alloc::Global;
use std::marker::Model;
use std::sync::{Arc, Wait};

/// A seat at a board: what one session has seen and added. It goes from thread to thread.
#[derive(Drop)]
pub struct Seat<T: Stands> {
    place: Place<T>,
}

impl<T: Stands> Model for Seat<T> {
    ghost use Rattle.version_board.specs.Callers.{Sitting, IsResting};

    ghost Value = { Sitting T.Entry T.Origin };

    ghost view = { λ s. record { board = s.place.table_id; view = s.place.me.0 } };

    ghost invariant = { λ s. IsResting s.place.me };
}

/// A board of versions. It holds the newest value, and threads share it by reference.
#[derive(Drop)]
pub struct Board<T: Stands> {
    table: Shelf<T>,
}

impl<T: Stands> Model for Board<T> {
    ghost use Rattle.std.specs.Prelude.{◌<◌};
    ghost use Rattle.version_board.specs.Callers.{Standing, IsSized};

    ghost Value = { Standing T };

    ghost view = { λ b. record { id = b.table.shared.table_id; opening = b.table.shared.key.0.value; seats = b.table.shared.key.1 } };

    ghost invariant = { λ b. IsSized b.table.shared.table_id × (0 < b.table.shared.key.1) };
}

/// A new board with its seats.
#[derive(Drop)]
pub struct Begun<T: Stands> {
    pub board: Board<T>,
    pub seats: Vec<Seat<T>>,
}

/// Why a value was not published. The value comes back.
#[derive(Drop)]
pub enum Unpublished<T: Drop> {
    /// Another value was published since: the newest.
    Moved { newest: Arc<T>, back: Arc<T> },
    /// The same, but there was no room for one more owner of the newest value.
    Memory { back: Arc<T> },
}

fn seated<T: Stands>(place: Place<T>) -> Seat<T>
    requires { IsResting place.me }
    ensures { (result.board ≡ place.table_id) × (result.view ≡ place.me.0) }
{
    Seat { place }
}

impl<T: Stands> Seat<T> {
    fn into_place(self) -> Place<T>
        ensures { (result.table_id ≡ self.board) × (result.me.0 ≡ self.view) × IsResting result.me }
    {
        self.place
    }
}

/// One seat that took in all these.
fn gather<T: Stands>(row: &Row<T>, mut seats: Vec<Seat<T>>) -> Place<T>
    requires table { row.now.table_id.words ≡ 3 }
    requires seats { (0 < length seats.items) × All (λ s. s.board ≡ row.now.table_id) seats.items }
    ensures table { result.table_id ≡ row.now.table_id }
    ensures whole { (result.me.0.spent ≡ false) × (result.me.0.turn ≡ None) × (result.me.0.parts ≡ length seats.items) }
    ensures seats { map tells seats.items ≡ reverse (told result.me.0) }
{
    let mut whole = seats.pop().unwrap().into_place();
    while let Some(seat) = seats.pop() {
        join_seat(row, &mut whole, seat.into_place());
    }
    whole
}

/// The seats of a board, of which this place is the first, and made the others.
fn seat_all<T: Stands>(
    alloc: Global,
    row: &Row<T>,
    mut place: Place<T>,
    seats: u32,
) -> Result<Vec<Seat<T>>, Memory>
    requires table { (place.table_id ≡ row.now.table_id) × (row.now.table_id.words ≡ 3) }
    requires place { (0 < seats) × (place.me ≡ (opened (T.from row.now.key.0.value) (T.origin row.now.key.0.value) seats, [])) }
    ensures seats { IfOk result (λ l. (length l.items ≡ seats) × All (SitsAt row.now.table_id (T.from row.now.key.0.value) (T.origin row.now.key.0.value)) l.items) }
    ensures new { IfOk result (λ l. (k : ℕ) → k < seats → IfSome (slice_get l.items k) (IsNew (k + 1))) }
{
    let mut list = Vec::with_capacity(alloc, seats as usize)?;
    for _made in 1..seats {
        let next = split_seat(row, &mut place);
        list.push_reserved(seated(place));
        place = next;
    }
    list.push_reserved(seated(place));
    Ok(list)
}

impl<T: Stands> Board<T> {
    /// A board with its seats, which have the numbers from 1. The value stands for the empty list from
    /// `first`, and there are 1 to 17 seats.
    pub fn begin(alloc: Global, first: u64, value: Arc<T>, seats: u32) -> Result<Begun<T>, Memory>
        requires seats { (1 ≤ seats) × (seats ≤ 17) }
        requires first { first ≤ 2 ^ 62 }
        requires value { (T.entries (arc_value value) ≡ []) × (T.from (arc_value value) ≡ first) }
        ensures board { IfOk result (λ b. (b.board.opening ≡ arc_value value) × (b.board.seats ≡ seats)) }
        ensures seats { IfOk result (λ b. (length b.seats.items ≡ seats) × All (IsSeatOf (meaning T.entries T.from T.origin T.by) b.board) b.seats.items) }
        ensures new { IfOk result (λ b. (k : ℕ) → k < seats → IfSome (slice_get b.seats.items k) (IsNew (k + 1))) }
    {
        let (table, place) = lay(alloc, first, value, seats)?;
        let list = seat_all(alloc, &table.shared, place, seats)?;
        Ok(Begun {
            board: Board { table },
            seats: list,
        })
    }

    fn into_table(self) -> Shelf<T>
        ensures { (result.shared.table_id ≡ self.id) × (result.shared.key.0.value ≡ self.opening) × (result.shared.key.1 ≡ self.seats) × IsSized result.shared.table_id × (0 < result.shared.key.1) }
    {
        self.table
    }

    /// Takes the board and all its seats back, and gives the last value.
    pub fn close(self, seats: Vec<Seat<T>>) -> Arc<T>
        requires all { length seats.items ≡ self.seats }
        requires seats { All (IsSeatOf (meaning T.entries T.from T.origin T.by) self) seats.items }
        ensures value { (T.from (arc_value result) ≡ T.from self.opening) × (T.origin (arc_value result) ≡ T.origin self.opening) }
        ensures seats { All (AgreesWith T.by (T.entries (arc_value result))) seats.items }
        ensures entries { All (λ e. Contains (map number seats.items) (T.by e)) (T.entries (arc_value result)) }
    {
        let table = self.into_table();
        let whole = gather(&table.shared, seats);
        finish(table, whole)
    }

    fn row(&self) -> &Row<T>
        ensures { (result.now.table_id ≡ self.now.id) × (result.now.key.0.value ≡ self.now.opening) × (result.now.key.1 ≡ self.now.seats) × IsSized result.now.table_id }
    {
        &self.table.shared
    }

    /// Waits for a turn and gives the newest value. The seat has seen its list then. `Memory` where the
    /// value can have no more owners: the seat has looked all the same.
    pub fn take<R: Wait>(&self, rt: &R, seat: &mut Seat<T>) -> Result<Arc<T>, Memory>
        requires { IsSeatOf (meaning T.entries T.from T.origin T.by) self.now seat.old }
        ensures seat { IsSame seat.old seat.new }
        ensures look { Looks seat.old.view seat.new.view.seen seat.new.view }
        ensures mine { seat.new.view.mine ≡ seat.old.view.mine }
        ensures value { IfOk result (λ a. StandsFor (meaning T.entries T.from T.origin T.by) self.now seat.new.view.seen (arc_value a)) }
    {
        let row = self.row();
        let place = &mut seat.place;
        let ticket = draw(rt, row, place);
        let value = wait(rt, row, place, ticket);
        tally(row, place);
        let copy = Arc::try_clone(&value);
        leave(row, place, value);
        Ok(copy?)
    }

    /// Waits for a turn, and publishes `next` where the board's list has the count `base`: then it takes
    /// no memory and gives the new count. Else the board stays as it is and `next` comes back.
    pub fn publish<R: Wait>(
        &self,
        rt: &R,
        seat: &mut Seat<T>,
        base: u64,
        next: Arc<T>,
    ) -> Result<u64, Unpublished<T>>
        requires seat { IsSeatOf (meaning T.entries T.from T.origin T.by) self.now seat.old }
        requires next { Continues (meaning T.entries T.from T.origin T.by) self.now seat.old.view base (arc_value next) }
        ensures seat { IsSame seat.old seat.new }
        ensures published { IfOk result (λ n. (n ≡ base + 1) × Publishes seat.old.view (T.entries (arc_value next)) seat.new.view) }
        ensures refused { IfErr result (λ u. Refuses (meaning T.entries T.from T.origin T.by) self.now base seat.old.view seat.new.view next u) }
    {
        let row = self.row();
        let place = &mut seat.place;
        let ticket = draw(rt, row, place);
        let value = wait(rt, row, place, ticket);
        if tally(row, place) == base {
            let after = next.count();
            add(row, place, next);
            return Ok(after);
        }
        let newest = Arc::try_clone(&value);
        leave(row, place, value);
        match newest {
            Ok(newest) => Err(Unpublished::Moved { newest, back: next }),
            Err(_) => Err(Unpublished::Memory { back: next }),
        }
    }
}
