//! Gates as they come, with open pins.

ghost use Rattle.std.specs.Prelude.{◌≡◌, ◌≤◌, ◌++◌, ◌∷◌, [], ℕ, List, true, false, length, map, is_some, nat_eq, Some, None, if◌then◌else◌, IfOk, OnOk};
ghost use Rattle.std.specs.List.{list_any};
ghost use Rattle.std.specs.Option.{option_or};
ghost use Rattle.timing_defs.specs.Netlist.{are_distinct, cell_named, cell_pins};
ghost use Rattle.timing_defs.specs.Edits.{cell_for};
ghost use Rattle.netlist_store.specs.Numbering.{name_at, number_of, with_name, AreKept};
ghost use Rattle.netlist_store.specs.Stores.{at};
ghost use Rattle.netlist_store.specs.Drafts.{Follows, IsFilled, KeepsNames, row_named, inst_row, row_among};

use crate::inst_rows::InstRow;
use crate::pin_edits::put_inst_pins;
use crate::row_edits::set_row;
use crate::stores::Store;
use crate::tables::{Frame, Names, Orders, PinRow, give_up_unnamed, give_up_unordered};
use cow_table::{CowTable, Held};
use sta_units::{Again, Memory};
use std::alloc::Global;
use timing_defs::{CellPin, Inst, Items, Name};

/// Writes the row of an instance.
pub(crate) fn put_inst(
    rows: &mut CowTable<Option<Held<InstRow>>>,
    alloc: Global,
    frame: &Frame,
    number: u32,
    inst: Inst,
) -> Result<(), Memory>
    ensures { OnOk result
        ((n : ℕ) → at rows.new n ≡ (if nat_eq number n then Some inst else at rows.old n)) }
{
    let held = Held::of(alloc, InstRow::of(frame, inst))?;
    set_row(rows, number, Some(held))
}

impl Names {
    /// The names with those of a new instance and of its pins, and its number. The rows of the pins
    /// are written.
    fn with_inst_names(
        self,
        alloc: Global,
        base: &Names,
        inst: &Inst,
        cell_pins: &[CellPin],
        rows: &mut CowTable<PinRow>,
    ) -> Result<(Names, u32), Memory>
        requires fresh { number_of self.insts inst.now.name ≡ None }
        requires insts { Follows base.now.insts self.insts }
        requires distinct { are_distinct (map (λ p. p.name) cell_pins.now) ≡ true }
        requires pins { Follows base.now.pins self.pins }
        requires filled { IsFilled self.pins rows.old }
        ensures added { IfOk result
            (λ made. made.0.insts ≡ with_name self.insts made.1 inst.now.name) }
        ensures gap { IfOk result (λ made. name_at self.insts made.1 ≡ None) }
        ensures within { IfOk result (λ made. made.1 ≤ length self.insts) }
        ensures insts { IfOk result (λ made. AreKept base.now.insts made.0.insts) }
        ensures nets { IfOk result (λ made. made.0.nets ≡ self.nets) }
        ensures rows { IfOk result
            (λ made. (q : List ℕ) → row_named made.0.pins rows.new q
            ≡ option_or
            (row_among inst.now.name (inst_row self.nets inst.now made.1) cell_pins.now q)
            (row_named self.pins rows.old q)) }
        ensures kept { IfOk result (λ made. KeepsNames self.pins made.0.pins) }
        ensures pins { IfOk result (λ made. Follows base.now.pins made.0.pins) }
        ensures filled { IfOk result (λ made. IsFilled made.0.pins rows.new) }
    {
        match inst.name.copied(alloc) {
            Ok(name) => {
                let Names { insts, nets, pins } = self;
                match insts.with(&base.insts, name) {
                    Ok(made) => {
                        let (insts, number) = made;
                        match put_inst_pins(
                            pins, rows, alloc, &base.pins, &nets, inst, number, cell_pins,
                        ) {
                            Ok(pins) => Ok((Names { insts, nets, pins }, number)),
                            Err(wanting) => {
                                insts.discard();
                                nets.discard();
                                Err(wanting)
                            }
                        }
                    }
                    Err(wanting) => {
                        nets.discard();
                        pins.discard();
                        Err(wanting)
                    }
                }
            }
            Err(wanting) => {
                self.discard();
                Err(wanting)
            }
        }
    }
}

impl Orders {
    /// The orders with a new instance as the last one.
    fn with_inst(self, inst: u32) -> Result<Orders, Memory>
        requires { list_any (nat_eq inst) self.insts ≡ false }
        ensures { IfOk result (λ after. after ≡ record self { insts = self.insts ++ inst ∷ [] }) }
    {
        let Orders { insts, nets, rcs } = self;
        match insts.with(inst) {
            Ok(insts) => Ok(Orders { insts, nets, rcs }),
            Err(wanting) => {
                nets.discard();
                rcs.discard();
                Err(wanting)
            }
        }
    }
}

/// Writes the row of a new gate, which is the last one in the orders.
fn put_gate(
    orders: Orders,
    rows: &mut CowTable<Option<Held<InstRow>>>,
    alloc: Global,
    frame: &Frame,
    number: u32,
    gate: Inst,
) -> Result<Orders, Memory>
    requires { list_any (nat_eq number) orders.insts ≡ false }
    ensures orders { IfOk result
        (λ after. after ≡ record orders { insts = orders.insts ++ number ∷ [] }) }
    ensures rows { IfOk result
        (λ after. (n : ℕ) → at rows.new n
        ≡ (if nat_eq number n then Some gate else at rows.old n)) }
{
    match put_inst(rows, alloc, frame, number, gate) {
        Ok(()) => orders.with_inst(number),
        Err(wanting) => {
            orders.discard();
            Err(wanting)
        }
    }
}

/// An instance with all pins open.
fn open_inst(alloc: Global, name: &Name, cell: &Name) -> Result<Inst, Memory>
    ensures { IfOk result (λ made. made ≡ record { name = name.now; cell = cell.now; conns = [] }) }
{
    let name = name.copied(alloc)?;
    let cell = cell.copied(alloc)?;
    let conns = Items::new(alloc);
    Ok(Inst { name, cell, conns })
}

impl Store {
    /// The pins of a cell of the late library, which has it.
    pub(crate) fn pins_of_cell(&self, alloc: Global, cell: &Name) -> Result<Items<CellPin>, Memory>
        requires { is_some (cell_named self.now.design.late.cells cell.now) ≡ true }
        ensures { IfOk result
            (λ pins. pins ≡ cell_pins (cell_named self.now.design.late.cells cell.now)) }
    {
        match self.late_cell(cell) {
            Some(cell) => cell.pins.again(alloc),
            None => unreachable!(),
        }
    }

    /// A gate whose pins are open, and the pins of its cell.
    fn open_gate(
        &self,
        alloc: Global,
        inst: &Name,
        cell: &Name,
    ) -> Result<(Inst, Items<CellPin>), Memory>
        requires { is_some (cell_named self.now.design.late.cells cell.now) ≡ true }
        ensures gate { IfOk result
            (λ made. made.0 ≡ record { name = inst.now; cell = cell.now; conns = [] }) }
        ensures pins { IfOk result
            (λ made. made.1 ≡ cell_pins (cell_named self.now.design.late.cells cell.now)) }
    {
        let gate = open_inst(alloc, inst, cell)?;
        let pins = self.pins_of_cell(alloc, cell)?;
        Ok((gate, pins))
    }

    /// The store with a new gate, whose pins are open, as the last instance.
    pub(crate) fn with_gate(
        self,
        alloc: Global,
        base: &Store,
        inst: &Name,
        cell: &Name,
    ) -> Result<Store, Memory>
        requires cell { is_some (cell_for self.design cell.now) ≡ true }
        requires fresh { number_of self.insts inst.now ≡ None }
        requires insts { Follows base.now.insts self.insts }
        requires pins { Follows base.now.pins self.pins }
        ensures design { IfOk result
            (λ after. after.design
            ≡ record self.design {
              insts = self.design.insts ++ record { name = inst.now; cell = cell.now; conns = [] } ∷
                  [];
            }) }
        ensures nets { IfOk result (λ after. after.nets ≡ self.nets) }
        ensures insts { IfOk result (λ after. Follows base.now.insts after.insts) }
        ensures pins { IfOk result (λ after. Follows base.now.pins after.pins) }
    {
        match self.open_gate(alloc, inst, cell) {
            Ok(open) => {
                let (gate, cell_pins) = open;
                let Store {
                    frame,
                    names,
                    mut rows,
                    orders,
                } = self;
                let pins = cell_pins.as_slice();
                match names.with_inst_names(alloc, &base.names, &gate, pins, &mut rows.pins) {
                    Ok(made) => {
                        let (names, number) = made;
                        names.laws();
                        match put_gate(orders, &mut rows.insts, alloc, frame.get(), number, gate) {
                            Ok(orders) => Ok(Store {
                                frame,
                                names,
                                rows,
                                orders,
                            }),
                            Err(wanting) => {
                                give_up_unordered(frame, names, rows);
                                Err(wanting)
                            }
                        }
                    }
                    Err(wanting) => {
                        give_up_unnamed(frame, rows, orders);
                        Err(wanting)
                    }
                }
            }
            Err(wanting) => {
                self.discard();
                Err(wanting)
            }
        }
    }
}
