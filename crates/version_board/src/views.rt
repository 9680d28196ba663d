//! What stands on the board, what each seat knows of it, and the rule between any two steps.
ghost use Rattle.std.specs.Prelude.{◌≡◌, ℕ, ◌+◌, List, length};

use atomic_table::{Seat, Shared, Table, TableRule};
use std::alloc::Global;
use std::collections::LinkedList;
use std::marker::PhantomData;
use std::snapshot::Snapshot;
use std::sync::Arc;

/// A value that stands for a list of entries, which begins at a first number, over an origin.
pub trait Stands: Drop {
    /// What each list consists of. Contracts see of an entry the number of its seat.
    type Entry;

    /// What the list starts from: plain data, seen by contracts alone.
    type Origin;

    ghost entries: { Self → List Self.Entry };

    ghost from: { Self → ℕ };

    ghost origin: { Self → Self.Origin };

    ghost by: { Self.Entry → ℕ };

    /// The number of the empty list.
    fn first(&self) -> u64
        ensures { result ≡ from self.now };

    /// The first number plus the length of the list.
    fn count(&self) -> u64
        ensures { result ≡ from self.now + length (entries self.now) };
}

/// What the board keeps of a seat that another seat took in. No value of it is made.
pub struct Old<E> {
    pub number: u64,
    pub seen: LinkedList<E>,
    pub mine: LinkedList<E>,
}

/// What a seat knows. No value of it is made.
pub struct View<E, O> {
    /// The seat's number, from 1.
    pub number: u64,
    /// The ticket that it drew.
    pub turn: Option<u64>,
    /// It saw its ticket served, and has the slot.
    pub inside: bool,
    /// It counted an entry in this turn.
    pub marked: bool,
    /// Another seat took it in.
    pub spent: bool,
    /// The list of the value that it lifted, and after a mark with the new entry.
    pub held: LinkedList<E>,
    /// The list at its last look, and after a mark with the new entry.
    pub seen: LinkedList<E>,
    /// Its own entries.
    pub mine: LinkedList<E>,
    /// The counts that it looked at.
    pub looks: LinkedList<u64>,
    /// The board's origin.
    pub origin: Option<O>,
    /// The board's first number.
    pub first: u64,
    /// For how many seats it counts.
    pub parts: u64,
    /// It may make the next seat.
    pub maker: bool,
    /// As a maker: how many seats were made.
    pub made: u64,
    /// The seats that it took in.
    pub olds: LinkedList<Old<E>>,
}

/// The rule of the board's table. Word 0 is the next ticket, word 1 the ticket that is served and
/// word 2 the count. The one slot has the newest value.
pub struct Rule<T> {
    value: PhantomData<T>,
}

impl<T: Stands> TableRule<
    Option<Arc<T>>,
    View<<T as Stands>::Entry, <T as Stands>::Origin>,
    (Snapshot<T>, u64),
> for Rule<T> {
    ghost use Rattle.version_board.specs.History.{shared};
    ghost use Rattle.version_board.specs.Orderly.{Orderly, opened};

    ghost holds = { λ key. Orderly (shared T.entries T.from T.origin T.by) (T.from key.0.value) (T.origin key.0.value) key.1 };

    ghost first = { λ key. opened (T.from key.0.value) (T.origin key.0.value) key.1 };
}

/// The part of the board that threads share.
pub type Row<T> = Shared<
    Option<Arc<T>>,
    View<<T as Stands>::Entry, <T as Stands>::Origin>,
    (Snapshot<T>, u64),
    Rule<T>,
>;

/// A seat at the table.
pub type Place<T> = Seat<Option<Arc<T>>, View<<T as Stands>::Entry, <T as Stands>::Origin>>;

/// The table of a board.
pub type Shelf<T> = Table<
    Option<Arc<T>>,
    View<<T as Stands>::Entry, <T as Stands>::Origin>,
    (Snapshot<T>, u64),
    Rule<T>,
    Global,
>;
