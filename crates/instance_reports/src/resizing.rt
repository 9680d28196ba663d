//! Whether an instance may be resized to a cell: whether the store accepts that edit.

ghost use Rattle.std.specs.Prelude.{◌≡◌, true, is_ok, IfOk};
ghost use Rattle.timing_defs.specs.Documents.{is_eco};
ghost use Rattle.timing_defs.specs.Edits.{edited};
ghost use Rattle.timing_rules.specs.Connections.{may_be};
ghost use Rattle.netlist_store.specs.Linked.{IsSized};
ghost use Rattle.instance_reports.specs.Resizes.{resize, tells};

use netlist_store::Store;
use sta_units::{Memory, Pair, both};
use std::alloc::Global;
use timing_defs::{Eco, Edit, Fault, Items, Name};

/// The ECO of a resize.
fn resize(alloc: Global, inst: &Name, cell: &Name) -> Result<Eco, Memory>
    ensures { IfOk result (λ eco. eco ≡ resize inst.now cell.now) }
{
    let Pair {
        one: inst,
        other: cell,
    } = both(inst.copied(alloc), cell.copied(alloc))?;
    let mut edits = Items::new(alloc);
    edits.push(Edit::Repower { inst, cell })?;
    Ok(Eco { edits })
}

/// Whether a fault tells of a design: each but want of memory.
fn tells(fault: &Fault) -> bool
    ensures { result ≡ tells fault.now }
{
    !matches!(fault, Fault::Memory)
}

/// Whether a store accepts an ECO.
fn accepts(alloc: Global, store: &Store, eco: &Eco) -> Result<bool, Memory>
    requires eco { is_eco eco.now ≡ true }
    requires sized { IsSized store.now.design }
    ensures { IfOk result (λ accepted. accepted ≡ is_ok (edited store.now.design eco.now)) }
{
    match store.apply(alloc, eco) {
        Ok(made) => {
            let (after, touched) = made;
            after.discard();
            drop(touched);
            Ok(true)
        }
        Err(fault) => {
            let told = tells(&fault);
            drop(fault);
            if told { Ok(false) } else { Err(Memory) }
        }
    }
}

/// Whether an instance may be resized to a cell. Takes the time of that edit: of the instance's
/// connections and the pins of both cells.
#[tactic(auto, using(crate::proofs::ResizeLaws::resized))]
pub(crate) fn may_be(alloc: Global, store: &Store, inst: &Name, cell: &Name) -> Result<bool, Memory>
    requires { IsSized store.now.design }
    ensures { IfOk result (λ may. may ≡ may_be store.now.design inst.now cell.now) }
{
    let eco = resize(alloc, inst, cell)?;
    let accepted = accepts(alloc, store, &eco);
    drop(eco);
    accepted
}
