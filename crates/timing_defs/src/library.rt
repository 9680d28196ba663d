//! Cells and their look-up tables.

use crate::items::Items;
use crate::kinds::{ArcKind, Dir, Kind, Tran};
use crate::names::Name;
use sta_units::{Af, Unit};

/// A table of one or two variables. Both axes rise strictly and have from 1 to 64 entries; `vals`
/// has one value for each pair, row by row of `xs`. Of a delay table (delay or slew, in fs) `xs` is
/// the slew in fs and `ys` the load in aF. Of a constraint table (in fs) `xs` is the clock's slew
/// and `ys` the data's slew, both in fs.
#[derive(Drop)]
pub struct Table {
    pub xs: Items<i64>,
    pub ys: Items<i64>,
    pub vals: Items<i64>,
}

/// A pin of a cell, with its capacitance in aF.
#[derive(Drop)]
pub struct CellPin {
    pub name: Name,
    pub dir: Dir,
    pub cap: Af,
}

/// An arc of a cell, from a transition of one pin to a transition of another, with the tables of
/// its delay and of the slew at its end.
#[derive(Drop)]
pub struct CellArc {
    pub from: Name,
    pub from_tran: Tran,
    pub to: Name,
    pub to_tran: Tran,
    pub kind: ArcKind,
    pub delay: Table,
    pub slew: Table,
}

/// A setup or hold test of a transition of a data pin against the active edge of a clock pin.
/// `need` gives the setup or hold time in fs.
#[derive(Drop)]
pub struct CellTest {
    pub pin: Name,
    pub tran: Tran,
    pub clock: Name,
    pub active: Tran,
    pub kind: Kind,
    pub need: Table,
}

/// A cell: its pins, arcs and tests in the order of the text.
#[derive(Drop)]
pub struct Cell {
    pub name: Name,
    pub pins: Items<CellPin>,
    pub arcs: Items<CellArc>,
    pub tests: Items<CellTest>,
}

/// A library: its cells in the order of the text.
#[derive(Drop)]
pub struct Library {
    pub cells: Items<Cell>,
}

/// The units of a library: of its times (to fs) and of its capacitances (to aF).
#[derive(Clone, Copy, Drop)]
pub struct Units {
    pub time: Unit,
    pub cap: Unit,
}
