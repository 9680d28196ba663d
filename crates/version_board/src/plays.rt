//! What each step on the board's words tells.
ghost use Rattle.version_board.specs.History.{shared};
ghost use Rattle.version_board.specs.Steps.{drew, looked, tallies, marks, left};

use crate::views::{Stands, View};
use atomic_table::Play;
use std::marker::PhantomData;
use std::sync::Arc;

pub(crate) struct Draw;

impl<A, E, O> Play<Option<A>, View<E, O>> for Draw {
    ghost then = { drew };
}

pub(crate) struct Look<T> {
    value: PhantomData<T>,
}

impl<T: Stands> Play<Option<Arc<T>>, View<<T as Stands>::Entry, <T as Stands>::Origin>>
    for Look<T> {
    ghost then = { looked (shared T.entries T.from T.origin T.by) };
}

pub(crate) struct Tally;

impl<A, E, O> Play<Option<A>, View<E, O>> for Tally {
    ghost then = { tallies };
}

pub(crate) struct Mark<T> {
    value: PhantomData<T>,
}

impl<T: Stands> Play<Option<Arc<T>>, View<<T as Stands>::Entry, <T as Stands>::Origin>>
    for Mark<T> {
    ghost then = { marks (shared T.entries T.from T.origin T.by) };
}

pub(crate) struct Leave;

impl<A, E, O> Play<Option<A>, View<E, O>> for Leave {
    ghost then = { left };
}
