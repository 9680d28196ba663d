//! The cells to which an instance may be resized.

ghost use Rattle.std.specs.Prelude.{◌≡◌, ◌⊎◌, true, Some, None, map, filter, IfOk, IfErr, OnOk};
ghost use Rattle.timing_defs.specs.Firsts.{AreAll};
ghost use Rattle.timing_defs.specs.Netlist.{same_dir, cell_of, are_distinct};
ghost use Rattle.timing_rules.specs.Checks.{IsSound};
ghost use Rattle.timing_rules.specs.Closing.{unknown_inst};
ghost use Rattle.timing_rules.specs.Connections.{may_be, input_cap, input_before, choice_before, IsInputOf, IsChoice, AreSizes};
ghost use Rattle.netlist_store.specs.Linked.{IsSized};
ghost use Rattle.instance_reports.specs.Resizes.{IsChoiceOf, AreChoicesOf, AddsChoice};

use crate::asked::inst_there;
use crate::ordering::in_order;
use crate::resizing::may_be;
use netlist_store::{Store, cells_agree};
use sta_units::{Memory, Pair, both};
use std::alloc::Global;
use timing_defs::{
    Cell, CellPin, Dir, Inst, Items, Name, PinCap, QueryFault, SizeChoice, SizesReport, Split,
};

/// The capacitance of a pin of a cell.
fn input_row(alloc: Global, pin: &CellPin) -> Result<PinCap, Memory>
    ensures { IfOk result (λ row. row ≡ input_cap pin.now) }
{
    let name = pin.name.copied(alloc)?;
    Ok(PinCap {
        pin: name,
        cap: pin.cap,
    })
}

/// The capacitances of the input pins of a cell, in their order in the cell.
fn input_rows(alloc: Global, pins: &[CellPin]) -> Result<Items<PinCap>, Memory>
    ensures { IfOk result
        (λ rows. rows ≡ map input_cap (filter (λ p. same_dir p.dir Dir.Input) pins.now)) }
{
    let mut rows = Items::new(alloc);
    for pin in pins {
        if pin.dir.is(Dir::Input) {
            rows.push(input_row(alloc, pin)?)?;
        }
    }
    Ok(rows)
}

/// The capacitances of the input pins of a cell, by name.
#[tactic(auto, using(crate::proofs::SizeLaws::inputs_told))]
fn inputs_of(alloc: Global, cell: &Cell) -> Result<Items<PinCap>, Memory>
    requires { are_distinct (map (λ p. p.name) cell.now.pins) ≡ true }
    ensures { IfOk result (AreAll input_before (IsInputOf cell.now)) }
{
    let rows = input_rows(alloc, cell.pins.as_slice())?;
    Ok(in_order(rows))
}

/// The row of a cell, by the present one.
fn choice(alloc: Global, now: &Cell, cell: &Cell) -> Result<SizeChoice, Memory>
    requires { are_distinct (map (λ p. p.name) cell.now.pins) ≡ true }
    ensures { IfOk result (IsChoiceOf now.now cell.now) }
{
    let inputs = inputs_of(alloc, cell);
    let Pair {
        one: name,
        other: inputs,
    } = both(cell.name.copied(alloc), inputs)?;
    Ok(SizeChoice {
        cell: name,
        alike: cells_agree(now, cell),
        inputs,
    })
}

/// Adds the row of a cell where the instance may be resized to it.
fn add_choice(
    alloc: Global,
    store: &Store,
    inst: &Name,
    now: &Cell,
    rows: &mut Items<SizeChoice>,
    cell: &Cell,
) -> Result<(), Memory>
    requires sized { IsSized store.now.design }
    requires pins { are_distinct (map (λ p. p.name) cell.now.pins) ≡ true }
    ensures { OnOk result
        (AddsChoice store.now.design inst.now now.now cell.now rows.old rows.new) }
{
    if may_be(alloc, store, inst, &cell.name)? {
        rows.push(choice(alloc, now, cell)?)?;
    }
    Ok(())
}

/// The rows of the cells to which an instance may be resized, in their order in the library.
fn choices_among(
    alloc: Global,
    store: &Store,
    inst: &Name,
    now: &Cell,
    cells: &[Cell],
) -> Result<Items<SizeChoice>, Memory>
    requires sound { IsSound store.now.design }
    requires cells { cells.now ≡ store.now.design.late.cells }
    ensures { IfOk result
        (AreChoicesOf now.now
        (filter (λ cell. may_be store.now.design inst.now cell.name) cells.now)) }
{
    store.laws();
    let mut rows = Items::new(alloc);
    for cell in cells {
        add_choice(alloc, store, inst, now, &mut rows, cell)?;
    }
    Ok(rows)
}

/// The rows of the cells to which an instance may be resized, by name.
fn choices_of(
    alloc: Global,
    store: &Store,
    inst: &Inst,
    now: &Cell,
    cells: &[Cell],
) -> Result<Items<SizeChoice>, Memory>
    requires sound { IsSound store.now.design }
    requires now { cell_of store.now.design Split.Late inst.now ≡ Some now.now }
    requires cells { cells.now ≡ store.now.design.late.cells }
    ensures { IfOk result (AreAll choice_before (IsChoice store.now.design inst.now)) }
{
    store.laws();
    let rows = choices_among(alloc, store, &inst.name, now, cells)?;
    Ok(in_order(rows))
}

/// The cell of an instance, and the cells to which it may be resized by name, each with whether it
/// is alike and with the capacitances of its input pins in aF (late). `UnknownName` exactly where no
/// instance has that name. Takes time of the library's cells, each with its pins, arcs and tests and
/// the instance's connections.
pub fn size_report(alloc: Global, store: &Store, inst: &Name) -> Result<SizesReport, QueryFault>
    requires { IsSound store.now.design }
    ensures told { IfOk result (AreSizes store.now.design inst.now) }
    ensures there { IfOk result (λ report. unknown_inst store.now.design inst.now ≡ None) }
    ensures refused { IfErr result
        (λ fault. (fault ≡ QueryFault.Memory)
        ⊎ (unknown_inst store.now.design inst.now ≡ Some fault)) }
{
    let number = inst_there(alloc, store, inst)?;
    let found = store.inst_at(number);
    let now = store.cell_at(number, Split::Late);
    let choices = choices_of(alloc, store, found, now, store.late_cells());
    let Pair {
        one: choices,
        other: cell,
    } = both(choices, found.cell.copied(alloc))?;
    Ok(SizesReport { cell, choices })
}
