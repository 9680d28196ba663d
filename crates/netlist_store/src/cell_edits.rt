//! Instances as they become another cell.

ghost use Rattle.std.specs.Prelude.{◌≡◌, ◌++◌, ◌∷◌, ℕ, List, true, false, map, nat_eq, is_some, option_and_then, None, Some, if◌then◌else◌, IfOk};
ghost use Rattle.std.specs.List.{list_any};
ghost use Rattle.std.specs.Option.{option_or};
ghost use Rattle.timing_defs.specs.declared.kinds.Split.TheVariants.{Late};
ghost use Rattle.timing_defs.specs.declared.netlist.Inst.{Inst};
ghost use Rattle.timing_defs.specs.declared.edits.Edit.TheVariants.{Repower};
ghost use Rattle.timing_defs.specs.Netlist.{are_distinct, cell_named, cell_of, cell_pins};
ghost use Rattle.timing_defs.specs.Edits.{edit_faults, first_fault, changed};
ghost use Rattle.netlist_store.specs.Numbering.{number_of, is_number, inst_numbered, AreNumbers};
ghost use Rattle.netlist_store.specs.Stores.{at};
ghost use Rattle.netlist_store.specs.Drafts.{Follows, IsFilled, row_named, inst_row, row_among, is_lost};

use crate::gate_edits::put_inst;
use crate::inst_rows::InstRow;
use crate::numberings::Numbering;
use crate::pin_edits::put_other_pins;
use crate::stores::Store;
use crate::tables::{Frame, Names, Orders, PinRow, Rows};
use cow_table::{CowTable, Held};
use sta_units::{Again, Memory};
use std::alloc::Global;
use timing_defs::{CellPin, Inst, Items, Name};

/// An instance as it is with another cell, and the pins of its cell and of the other one.
#[derive(Drop)]
struct OtherCell {
    row: Inst,
    old: Items<CellPin>,
    new: Items<CellPin>,
}

/// Writes the rows of an instance and of its pins as it becomes another cell.
fn put_other_cell(
    names: Numbering,
    rows: &mut CowTable<PinRow>,
    insts: &mut CowTable<Option<Held<InstRow>>>,
    alloc: Global,
    base: &Numbering,
    nets: &Numbering,
    frame: &Frame,
    inst: u32,
    other: OtherCell,
) -> Result<Numbering, Memory>
    requires distinct { are_distinct (map (λ p. p.name) other.new) ≡ true }
    requires follows { Follows base.now names }
    requires filled { IsFilled names rows.old }
    ensures numbers { IfOk result (λ after. AreNumbers after) }
    ensures rows { IfOk result
        (λ after. (q : List ℕ) → row_named after rows.new q
        ≡ option_or (row_among other.row.name (inst_row nets.now other.row inst) other.new q)
        (if list_any (is_lost other.row.name other.new q) other.old then None else row_named names
        rows.old q)) }
    ensures kept { IfOk result
        (λ after. (q : List ℕ) (n : ℕ) → list_any (is_lost other.row.name other.new q) other.old
        ≡ false → number_of names q ≡ Some n → number_of after q ≡ Some n) }
    ensures follows { IfOk result (λ after. Follows base.now after) }
    ensures filled { IfOk result (λ after. IsFilled after rows.new) }
    ensures put { IfOk result
        (λ after. (n : ℕ) → at insts.new n
        ≡ (if nat_eq inst n then Some other.row else at insts.old n)) }
{
    let OtherCell {
        row,
        old: old_pins,
        new: new_pins,
    } = other;
    let old = old_pins.as_slice();
    let new = new_pins.as_slice();
    match put_other_pins(names, rows, alloc, base, nets, &row, inst, old, new) {
        Ok(after) => {
            after.laws();
            match put_inst(insts, alloc, frame, inst, row) {
                Ok(()) => Ok(after),
                Err(wanting) => {
                    after.discard();
                    Err(wanting)
                }
            }
        }
        Err(wanting) => Err(wanting),
    }
}

/// Gives up what is left of a store whose pins are gone.
fn give_up(frame: Held<Frame>, insts: Numbering, nets: Numbering, rows: Rows, orders: Orders) {
    frame.discard();
    insts.discard();
    nets.discard();
    rows.discard();
    orders.discard();
}

impl Store {
    /// An instance with another cell.
    fn with_other_cell(&self, alloc: Global, inst: u32, cell: &Name) -> Result<Inst, Memory>
        requires { is_number self.now.insts inst ≡ true }
        ensures { IfOk result
            (λ made. (i : Inst) → inst_numbered self.now inst ≡ Some i → made
            ≡ record { name = i.name; cell = cell.now; conns = i.conns }) }
    {
        let inst = self.inst_at(inst);
        let name = inst.name.copied(alloc)?;
        let cell = cell.copied(alloc)?;
        let conns = inst.conns.again(alloc)?;
        Ok(Inst { name, cell, conns })
    }

    /// An instance with another cell, and the pins of both cells.
    fn other_cell(&self, alloc: Global, inst: u32, cell: &Name) -> Result<OtherCell, Memory>
        requires inst { is_number self.now.insts inst ≡ true }
        requires cell { is_some (cell_named self.now.design.late.cells cell.now) ≡ true }
        ensures row { IfOk result
            (λ other. (i : Inst) → inst_numbered self.now inst ≡ Some i → other.row
            ≡ record { name = i.name; cell = cell.now; conns = i.conns }) }
        ensures old { IfOk result
            (λ other. other.old
            ≡ cell_pins
            (option_and_then (cell_of self.now.design Late) (inst_numbered self.now inst))) }
        ensures new { IfOk result
            (λ other. other.new ≡ cell_pins (cell_named self.now.design.late.cells cell.now)) }
    {
        let row = self.with_other_cell(alloc, inst, cell)?;
        let old = self.pins_of_inst(alloc, inst)?;
        let new = self.pins_of_cell(alloc, cell)?;
        Ok(OtherCell { row, old, new })
    }

    /// The store with another cell of an instance, where no check of that edit has a fault.
    pub(crate) fn with_cell(
        self,
        alloc: Global,
        base: &Store,
        name: &Name,
        inst: u32,
        cell: &Name,
    ) -> Result<Store, Memory>
        requires number { number_of self.insts name.now ≡ Some inst }
        requires faults { first_fault (edit_faults self.design (Repower name.now cell.now)) ≡ None }
        requires pins { Follows base.now.pins self.pins }
        ensures design { IfOk result
            (λ after. after.design ≡ changed self.design (Repower name.now cell.now)) }
        ensures insts { IfOk result (λ after. after.insts ≡ self.insts) }
        ensures nets { IfOk result (λ after. after.nets ≡ self.nets) }
        ensures pins { IfOk result (λ after. Follows base.now.pins after.pins) }
    {
        let _ = name;
        match self.other_cell(alloc, inst, cell) {
            Ok(other) => {
                let Store {
                    frame,
                    names,
                    mut rows,
                    orders,
                } = self;
                let Names { insts, nets, pins } = names;
                match put_other_cell(
                    pins,
                    &mut rows.pins,
                    &mut rows.insts,
                    alloc,
                    &base.names.pins,
                    &nets,
                    frame.get(),
                    inst,
                    other,
                ) {
                    Ok(pins) => Ok(Store {
                        frame,
                        names: Names { insts, nets, pins },
                        rows,
                        orders,
                    }),
                    Err(wanting) => {
                        give_up(frame, insts, nets, rows, orders);
                        Err(wanting)
                    }
                }
            }
            Err(wanting) => {
                self.discard();
                Err(wanting)
            }
        }
    }
}
