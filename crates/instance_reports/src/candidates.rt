//! The sizes of an instance as candidates of a resize.

ghost use Rattle.std.specs.Prelude.{◌≡◌, [], Some, map, filter, IfOk};
ghost use Rattle.std.specs.Option.{option_map_or};
ghost use Rattle.timing_defs.specs.declared.reports.Candidate.{Candidate};
ghost use Rattle.timing_defs.specs.Edits.{inst_named};
ghost use Rattle.timing_defs.specs.Netlist.{cell_of};
ghost use Rattle.timing_rules.specs.Checks.{IsSound};
ghost use Rattle.timing_rules.specs.SizeAdvice.{is_candidate, sizes_of};
ghost use Rattle.netlist_store.specs.Linked.{IsSized};
ghost use Rattle.instance_reports.specs.Resizes.{candidate_by};

use crate::resizing::may_be;
use netlist_store::{Store, cells_agree};
use sta_units::{Memory, Pair, both};
use std::alloc::Global;
use timing_defs::{Candidate, Cell, Inst, Items, Name, Split};

/// Whether a cell is another size of an instance: one that is alike, to which it may be resized.
fn is_candidate(
    alloc: Global,
    store: &Store,
    inst: &Inst,
    now: &Cell,
    cell: &Cell,
) -> Result<bool, Memory>
    requires sized { IsSized store.now.design }
    requires now { cell_of store.now.design Split.Late inst.now ≡ Some now.now }
    ensures { IfOk result (λ is. is ≡ is_candidate store.now.design inst.now cell.now) }
{
    if cell.name == inst.cell || !cells_agree(now, cell) {
        return Ok(false);
    }
    may_be(alloc, store, &inst.name, &cell.name)
}

/// The resize of an instance to a cell.
fn candidate(alloc: Global, inst: &Name, cell: &Name) -> Result<Candidate, Memory>
    ensures { IfOk result (λ made. made ≡ candidate_by inst.now cell.now) }
{
    let Pair {
        one: inst,
        other: cell,
    } = both(inst.copied(alloc), cell.copied(alloc))?;
    Ok(Candidate { inst, cell })
}

/// The other sizes of an instance among some cells, in their order.
fn sizes_among(
    alloc: Global,
    store: &Store,
    inst: &Inst,
    now: &Cell,
    cells: &[Cell],
) -> Result<Items<Candidate>, Memory>
    requires sized { IsSized store.now.design }
    requires now { cell_of store.now.design Split.Late inst.now ≡ Some now.now }
    ensures { IfOk result
        (λ made. made
        ≡ map (λ cell. candidate_by inst.now.name cell.name)
        (filter (is_candidate store.now.design inst.now) cells.now)) }
{
    let mut made = Items::new(alloc);
    for cell in cells {
        if is_candidate(alloc, store, inst, now, cell)? {
            made.push(candidate(alloc, &inst.name, &cell.name)?)?;
        }
    }
    Ok(made)
}

/// The other sizes of an instance as candidates of a resize, in the order of the late library; none
/// of an instance that is not there. The one error is want of memory.
pub fn sizes_of(alloc: Global, store: &Store, inst: &Name) -> Result<Items<Candidate>, Memory>
    requires { IsSound store.now.design }
    ensures { IfOk result
        (λ made. made
        ≡ option_map_or (sizes_of store.now.design)
        (inst_named store.now.design.insts inst.now) []) }
{
    store.laws();
    match store.inst(inst) {
        Some(number) => {
            let now = store.cell_at(number, Split::Late);
            let cells = store.late_cells();
            sizes_among(alloc, store, store.inst_at(number), now, cells)
        }
        None => Ok(Items::new(alloc)),
    }
}
