//! The rows of a store's tables.

ghost use Rattle.std.specs.Prelude.{◌≡◌, IfOk};
ghost use Rattle.std.specs.Option.{option_copied};
ghost use Rattle.netlist_store.specs.Numbering.{AreNumbers};
ghost use Rattle.netlist_store.specs.Stores.{at};

use crate::cells::Cells;
use crate::inst_rows::InstRow;
use crate::numberings::Numbering;
use crate::rolls::Roll;
use cow_table::{CowTable, Held};
use sta_units::{Again, Memory};
use std::alloc::Global;
use timing_defs::{Constraints, Dir, Items, NetRc, Port};

/// The parts of a design that no edit changes.
#[derive(Drop)]
pub(crate) struct Frame {
    pub early: Cells,
    pub late: Cells,
    pub ports: Items<Port>,
    pub constraints: Constraints,
}

impl Frame {
    /// Gives the parts up.
    pub(crate) fn discard(self) {
        let Frame {
            early,
            late,
            ports,
            constraints,
        } = self;
        early.discard();
        late.discard();
        give_up(ports, constraints);
    }
}

/// Gives ports and constraints up.
fn give_up(_ports: Items<Port>, _constraints: Constraints) {}

/// The names of instances, nets and pins, with their numbers.
#[derive(Drop)]
pub(crate) struct Names {
    pub insts: Numbering,
    pub nets: Numbering,
    pub pins: Numbering,
}

impl Names {
    /// What numberings keep, told to the proofs of callers; the call does nothing.
    pub(crate) fn laws(&self)
        ensures insts { AreNumbers self.now.insts }
        ensures nets { AreNumbers self.now.nets }
        ensures pins { AreNumbers self.now.pins }
    {
        self.insts.laws();
        self.nets.laws();
        self.pins.laws();
    }

    /// Gives the names up.
    pub(crate) fn discard(self) {
        let Names { insts, nets, pins } = self;
        insts.discard();
        nets.discard();
        pins.discard();
    }

    /// A copy, which shares what neither changes.
    pub(crate) fn copy(&self) -> Result<Names, Memory>
        ensures { IfOk result (λ copy. copy ≡ self.now) }
    {
        let insts = self.insts.copy()?;
        match self.nets.copy() {
            Ok(nets) => match self.pins.copy() {
                Ok(pins) => Ok(Names { insts, nets, pins }),
                Err(wanting) => {
                    insts.discard();
                    nets.discard();
                    Err(wanting)
                }
            },
            Err(wanting) => {
                insts.discard();
                Err(wanting)
            }
        }
    }
}

/// The orders of the lists of a design: the numbers of its instances, of its nets, and of the nets
/// with parasitics.
#[derive(Drop)]
pub(crate) struct Orders {
    pub insts: Roll,
    pub nets: Roll,
    pub rcs: Roll,
}

impl Orders {
    /// Gives the orders up.
    pub(crate) fn discard(self) {
        let Orders { insts, nets, rcs } = self;
        insts.discard();
        nets.discard();
        rcs.discard();
    }

    /// A copy, which shares what neither changes.
    pub(crate) fn copy(&self) -> Result<Orders, Memory>
        ensures { IfOk result (λ copy. copy ≡ self.now) }
    {
        let insts = self.insts.copy()?;
        let nets = self.nets.copy()?;
        let rcs = self.rcs.copy()?;
        Ok(Orders { insts, nets, rcs })
    }
}

/// What a store knows of a pin: the number of its instance (none for a port), the number of its
/// net (none where it is open or tied), and its direction.
#[derive(Clone, Copy)]
pub(crate) struct PinRow {
    pub owner: Option<u32>,
    pub net: Option<u32>,
    pub dir: Dir,
}

impl Again for PinRow {
    fn again(&self, _alloc: Global) -> Result<PinRow, Memory> {
        Ok(*self)
    }
}

/// What is known of each number: its instance; of a net its parasitics and the numbers of its pins;
/// of a pin its row.
#[derive(Drop)]
pub(crate) struct Rows {
    pub insts: CowTable<Option<Held<InstRow>>>,
    pub rcs: CowTable<Option<Held<NetRc>>>,
    pub net_pins: CowTable<Held<Items<u32>>>,
    pub pins: CowTable<PinRow>,
}

impl Rows {
    /// Gives the rows up.
    pub(crate) fn discard(self) {}

    /// A copy, which shares what neither changes.
    pub(crate) fn copy(&self) -> Result<Rows, Memory>
        ensures { IfOk result (λ copy. copy ≡ self.now) }
    {
        let insts = self.insts.copy()?;
        let rcs = self.rcs.copy()?;
        let net_pins = self.net_pins.copy()?;
        let pins = self.pins.copy()?;
        Ok(Rows {
            insts,
            rcs,
            net_pins,
            pins,
        })
    }
}

/// Gives up what is left of a store without its names.
pub(crate) fn give_up_unnamed(frame: Held<Frame>, rows: Rows, orders: Orders) {
    frame.discard();
    rows.discard();
    orders.discard();
}

/// Gives up what is left of a store without its orders.
pub(crate) fn give_up_unordered(frame: Held<Frame>, names: Names, rows: Rows) {
    frame.discard();
    names.discard();
    rows.discard();
}

/// What a table has at a number; none at a gap and past the end.
pub(crate) fn row_at<T>(rows: &CowTable<Option<Held<T>>>, number: u32) -> Option<&Held<T>>
    ensures { option_copied result ≡ at rows.now number }
{
    let number = number as usize;
    if number < rows.len() {
        rows.get(number).as_ref()
    } else {
        None
    }
}
