//! Gates as they go.

ghost use Rattle.std.specs.Prelude.{◌≡◌, ◌≤◌, [], ℕ, List, true, not, nat_eq, filter, length, set, None, Some, option_and_then, if◌then◌else◌, IfOk};
ghost use Rattle.std.specs.List.{list_any};
ghost use Rattle.std.specs.Option.{option_map_or};
ghost use Rattle.std.specs.Str.{bytes_eq};
ghost use Rattle.timing_defs.specs.declared.kinds.Split.TheVariants.{Late};
ghost use Rattle.timing_defs.specs.Netlist.{cell_of, cell_pins};
ghost use Rattle.timing_defs.specs.Edits.{inst_named, is_open};
ghost use Rattle.netlist_store.specs.Numbering.{number_of, is_number, inst_numbered};
ghost use Rattle.netlist_store.specs.Stores.{at};
ghost use Rattle.netlist_store.specs.Drafts.{IsPart, is_lost};

use crate::inst_rows::InstRow;
use crate::pin_edits::without_lost_pins;
use crate::row_edits::set_row;
use crate::stores::Store;
use crate::tables::{Names, Orders, give_up_unnamed, give_up_unordered};
use cow_table::{CowTable, Held};
use sta_units::{Again, Memory};
use std::alloc::Global;
use timing_defs::{CellPin, Items, Name, Split};

impl Orders {
    /// The orders without an instance.
    fn without_inst(self, inst: u32) -> Result<Orders, Memory>
        requires { list_any (nat_eq inst) self.insts ≡ true }
        ensures { IfOk result
            (λ after. after
            ≡ record self { insts = filter (λ n. not (nat_eq inst n)) self.insts }) }
    {
        let Orders { insts, nets, rcs } = self;
        match insts.without(inst) {
            Ok(insts) => Ok(Orders { insts, nets, rcs }),
            Err(wanting) => {
                nets.discard();
                rcs.discard();
                Err(wanting)
            }
        }
    }
}

/// Takes the row of a gate out, and its number out of the orders.
fn take_gate(
    orders: Orders,
    rows: &mut CowTable<Option<Held<InstRow>>>,
    inst: u32,
) -> Result<Orders, Memory>
    requires { list_any (nat_eq inst) orders.insts ≡ true }
    ensures orders { IfOk result
        (λ after. after
        ≡ record orders { insts = filter (λ n. not (nat_eq inst n)) orders.insts }) }
    ensures rows { IfOk result
        (λ after. (n : ℕ) → at rows.new n ≡ (if nat_eq inst n then None else at rows.old n)) }
{
    match set_row(rows, inst, None) {
        Ok(()) => orders.without_inst(inst),
        Err(wanting) => {
            orders.discard();
            Err(wanting)
        }
    }
}

impl Names {
    /// The names without those of an instance and of its pins.
    fn without_inst_names(
        self,
        alloc: Global,
        name: &Name,
        inst: u32,
        cell_pins: &[CellPin],
    ) -> Result<Names, Memory>
        requires { is_number self.insts inst ≡ true }
        ensures insts { IfOk result (λ after. after.insts ≡ set self.insts inst None) }
        ensures nets { IfOk result (λ after. after.nets ≡ self.nets) }
        ensures pins { IfOk result
            (λ after. (q : List ℕ) → number_of after.pins q
            ≡
            (if list_any (is_lost name.now [] q) cell_pins.now then None else number_of self.pins
            q)) }
        ensures longer { IfOk result (λ after. length self.pins ≤ length after.pins) }
    {
        let Names { insts, nets, pins } = self;
        match insts.without(inst) {
            Ok(insts) => match without_lost_pins(pins, alloc, name, cell_pins, &[]) {
                Ok(pins) => Ok(Names { insts, nets, pins }),
                Err(wanting) => {
                    insts.discard();
                    nets.discard();
                    Err(wanting)
                }
            },
            Err(wanting) => {
                nets.discard();
                pins.discard();
                Err(wanting)
            }
        }
    }
}

impl Store {
    /// The pins of the cell of an instance, in the late library.
    pub(crate) fn pins_of_inst(&self, alloc: Global, inst: u32) -> Result<Items<CellPin>, Memory>
        requires { is_number self.now.insts inst ≡ true }
        ensures { IfOk result
            (λ pins. pins
            ≡ cell_pins
            (option_and_then (cell_of self.now.design Late) (inst_numbered self.now inst))) }
    {
        self.cell_at(inst, Split::Late).pins.again(alloc)
    }

    /// The store without a gate whose pins are all open.
    pub(crate) fn without_gate(self, alloc: Global, name: &Name, inst: u32) -> Result<Store, Memory>
        requires number { number_of self.insts name.now ≡ Some inst }
        requires opened { option_map_or is_open (inst_named self.design.insts name.now) true
            ≡ true }
        ensures design { IfOk result
            (λ after. after.design
            ≡ record self.design
            { insts = filter (λ i. not (bytes_eq i.name name.now)) self.design.insts }) }
        ensures nets { IfOk result (λ after. after.nets ≡ self.nets) }
        ensures insts { IfOk result (λ after. IsPart after.insts self.insts) }
        ensures pins { IfOk result (λ after. IsPart after.pins self.pins) }
    {
        match self.pins_of_inst(alloc, inst) {
            Ok(cell_pins) => {
                let Store {
                    frame,
                    names,
                    mut rows,
                    orders,
                } = self;
                let pins = cell_pins.as_slice();
                match names.without_inst_names(alloc, name, inst, pins) {
                    Ok(names) => {
                        names.laws();
                        match take_gate(orders, &mut rows.insts, inst) {
                            Ok(orders) => Ok(Store {
                                frame,
                                names,
                                rows,
                                orders,
                            }),
                            Err(wanting) => {
                                give_up_unordered(frame, names, rows);
                                Err(wanting)
                            }
                        }
                    }
                    Err(wanting) => {
                        give_up_unnamed(frame, rows, orders);
                        Err(wanting)
                    }
                }
            }
            Err(wanting) => {
                self.discard();
                Err(wanting)
            }
        }
    }
}
