//! The rows of instances.

ghost use Rattle.std.specs.Prelude.{◌≡◌};
ghost use Rattle.std.specs.Option.{option_copied};
ghost use Rattle.timing_defs.specs.Netlist.{cell_named};

use crate::tables::Frame;
use std::marker::Model;
use timing_defs::{Cell, Inst};

/// An instance, with the places where its cell is looked for first in the tables of both libraries.
/// The places save a hash of the cell's name. Contracts see the instance.
#[derive(Drop)]
pub(crate) struct InstRow {
    inst: Inst,
    early: usize,
    late: usize,
}

impl Model for InstRow {
    ghost use Rattle.timing_defs.specs.declared.netlist.Inst.{Inst};

    ghost Value = { Inst };

    ghost view = { λ r. r.inst };
}

impl InstRow {
    /// The row of an instance.
    pub(crate) fn of(frame: &Frame, inst: Inst) -> InstRow
        ensures { result ≡ inst }
    {
        let early = frame.early.place(&inst.cell);
        let late = frame.late.place(&inst.cell);
        InstRow { inst, early, late }
    }

    /// The instance.
    pub(crate) fn inst(&self) -> &Inst
        ensures { result.now ≡ self.now }
    {
        &self.inst
    }

    /// The cell of the instance in the early library; none where it has none. Takes no memory.
    pub(crate) fn early_cell<'a>(&self, frame: &'a Frame) -> Option<&'a Cell>
        ensures { option_copied result ≡ cell_named frame.entry.now.early.cells self.now.cell }
    {
        frame.early.cell_near(&self.inst.cell, self.early)
    }

    /// The cell of the instance in the late library; none where it has none. Takes no memory.
    pub(crate) fn late_cell<'a>(&self, frame: &'a Frame) -> Option<&'a Cell>
        ensures { option_copied result ≡ cell_named frame.entry.now.late.cells self.now.cell }
    {
        frame.late.cell_near(&self.inst.cell, self.late)
    }
}
