//! Receipts: what a session knows of a journal's file, whoever has the desk.

ghost use Rattle.std.specs.Prelude.{◌≡◌, []};
ghost use Rattle.crossbeam_utils.specs.Seq.{cell_view};
ghost use Rattle.live_journal.specs.Receipts.{both};
ghost use Rattle.live_journal.specs.Passes.{IsTeller};

use crate::cells::{Cell, Known, Telling, View};
use crate::rooms::Room;
use crossbeam_utils::atomic::seq_cell::Pass;
use std::marker::{Model, PhantomData};
use timing_defs::Design;

/// What a session knows of the journal's file. Contracts see the number up to which all entries stand there for certain, and
/// whether a put failed.
#[derive(Drop)]
pub struct Receipt<B: Room<O>, O = Design> {
    pass: Pass<Known, View>,
    room: PhantomData<(B, O)>,
}

impl<B: Room<O>, O> Model for Receipt<B, O> {
    ghost use Rattle.std.specs.Prelude.{◌≡◌, []};
    ghost use Rattle.crossbeam_utils.specs.Seq.{cell_view};
    ghost use Rattle.live_journal.specs.declared.cells.Known.{Known};

    ghost Value = { Known };

    ghost view = { λ r. (cell_view r.pass).told };

    ghost invariant = { λ r. (r.pass.table_id ≡ B.about.cell) × (r.pass.me.1 ≡ []) };
}

impl<B: Room<O>, O> Receipt<B, O> {
    /// A receipt of what a pass tells.
    pub(crate) fn of(pass: Pass<Known, View>) -> Receipt<B, O>
        requires { (pass.table_id ≡ B.about.cell) × (pass.me.1 ≡ []) }
        ensures { result ≡ (cell_view pass).told }
    {
        Receipt {
            pass,
            room: PhantomData,
        }
    }

    /// Takes in what another receipt tells.
    pub fn take_in(&mut self, cell: &Cell, other: Receipt<B, O>)
        requires cell { cell.now.table.shared.table_id ≡ B.about.cell }
        ensures { self.new ≡ both self.old other }
    {
        cell.join_pass::<Telling>(&mut self.pass, other.into_pass());
        self.pass = cell.split_pass::<Telling>(&mut self.pass);
    }

    pub(crate) fn into_pass(self) -> Pass<Known, View>
        ensures { IsTeller B.about.cell self result }
    {
        let Receipt { pass, room: _ } = self;
        pass
    }
}
