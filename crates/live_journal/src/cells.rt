//! The cell that ties receipts to a desk. Its desk has the pass that keeps, and each receipt one that tells.

ghost use Rattle.std.specs.Prelude.{◌≡◌, [], IfOk};
ghost use Rattle.crossbeam_utils.specs.Seq.{cell_view};
ghost use Rattle.live_journal.specs.Receipts.{nothing, knowing, IsAtMost};
ghost use Rattle.live_journal.specs.Passes.{IsTeller};

use atomic_table::{Join, Split};
use crossbeam_utils::atomic::seq_cell::{Pass, RuledSeqCell, Words};
use crossbeam_utils::rule::{Outcome, Protocol};
use sta_units::Memory;
use std::alloc::Global;
use std::marker::Model;
use std::sync::Wait;

/// What is known of a journal's file.
#[derive(Clone, Copy)]
pub struct Known {
    /// The number up to which all entries stand there for certain.
    pub upto: u64,
    /// Whether a put failed.
    pub torn: bool,
}

impl Words<2> for Known {
    ghost use Rattle.live_journal.specs.Receipts.{words};

    ghost words = { words };

    fn to_words(self) -> [u64; 2] {
        if self.torn {
            [self.upto, 1]
        } else {
            [self.upto, 0]
        }
    }

    fn from_words(bits: &[u64; 2]) -> Known {
        Known {
            upto: bits[0],
            torn: bits[1] == 1,
        }
    }
}

/// What a pass of the cell knows: whether it keeps, what it keeps, and what it tells. No value of it is made.
pub struct View {
    pub keeps: bool,
    pub kept: Known,
    pub told: Known,
}

/// The rule of the cell.
pub struct Rule;

impl Protocol<Known, View> for Rule {
    ghost use Rattle.live_journal.specs.Receipts.{keeping_pass, nothing, Holds};

    ghost holds = { Holds };

    ghost first = { keeping_pass nothing };
}

pub(crate) struct Rising;

impl Outcome<Known, View> for Rising {
    ghost use Rattle.live_journal.specs.Receipts.{Rises};

    ghost then = { Rises };
}

pub(crate) struct Comparing;

impl Outcome<Known, View> for Comparing {
    ghost use Rattle.live_journal.specs.Receipts.{Compares};

    ghost then = { Compares };
}

pub(crate) struct Telling;

impl Split<View> for Telling {
    ghost use Rattle.live_journal.specs.Receipts.{tells};

    ghost left = { λ v. v };

    ghost right = { tells };
}

impl Join<View> for Telling {
    ghost use Rattle.live_journal.specs.Receipts.{takes, telling_pass, nothing};

    ghost both = { takes };

    ghost spent = { telling_pass nothing };
}

/// The cell that ties receipts to a desk.
pub type Cell = RuledSeqCell<Known, View, Rule, 2>;

/// The pass of a cell with which a desk begins. Contracts see which cell it is, and what the pass knows.
#[derive(Drop)]
pub struct Keeper {
    pass: Pass<Known, View>,
}

impl Model for Keeper {
    ghost use Rattle.std.specs.Prelude.{◌≡◌};
    ghost use Rattle.crossbeam_utils.specs.Seq.{cell_view};
    ghost use Rattle.live_journal.specs.Receipts.{keeping_pass, Knowing, knowing};

    ghost Value = { Knowing };

    ghost view = { λ k. knowing k.pass.table_id (cell_view k.pass).kept };

    ghost invariant = { λ k. cell_view k.pass ≡ keeping_pass (cell_view k.pass).kept };
}

impl Keeper {
    /// Lets the cell know more.
    pub(crate) fn rise<R: Wait>(&mut self, rt: &R, cell: &Cell, more: Known)
        requires cell { cell.now.table.shared.table_id ≡ self.old.cell }
        requires more { IsAtMost self.old.known more }
        ensures { self.new ≡ knowing self.old.cell more }
    {
        cell.swap_as::<Rising, R>(rt, &mut self.pass, more);
    }

    /// A pass that tells what is known.
    pub(crate) fn tell(&mut self, cell: &Cell) -> Pass<Known, View>
        requires cell { cell.now.table.shared.table_id ≡ self.old.cell }
        ensures same { self.new ≡ self.old }
        ensures pass { IsTeller self.old.cell self.old.known result }
    {
        cell.split_pass::<Telling>(&mut self.pass)
    }

    /// What a pass tells is known.
    pub(crate) fn compare<R: Wait>(&mut self, rt: &R, cell: &Cell, other: Pass<Known, View>)
        requires cell { cell.now.table.shared.table_id ≡ self.old.cell }
        requires pass { (other.table_id ≡ self.old.cell) × (other.me.1 ≡ []) }
        ensures same { self.new ≡ self.old }
        ensures known { IsAtMost (cell_view other).told self.old.known }
    {
        cell.join_pass::<Telling>(&mut self.pass, other);
        cell.load_as::<Comparing, R>(rt, &mut self.pass);
    }
}

/// A new cell, and the keeper with which its desk begins.
///
/// # Errors
///
/// Want of memory alone.
pub fn open_cell(alloc: Global) -> Result<(Cell, Keeper), Memory>
    ensures { IfOk result (λ r. r.1 ≡ knowing r.0.table.shared.table_id nothing) }
{
    let known = Known {
        upto: 0,
        torn: false,
    };
    match Cell::ruled(alloc, known) {
        Ok((cell, pass)) => Ok((cell, Keeper { pass })),
        Err(_) => Err(Memory),
    }
}
