//! A design that is linked stays linked under edits, told to the proofs of callers.

ghost use Rattle.std.specs.Prelude.{◌≡◌, true, Ok};
ghost use Rattle.timing_defs.specs.declared.design.Design.{Design};
ghost use Rattle.timing_defs.specs.Edits.{edit, edited};
ghost use Rattle.netlist_store.specs.Linked.{IsLinked};
ghost use Rattle.timing_defs.specs.Documents.{is_edit, is_eco};

use crate::stores::Store;
use timing_defs::{Eco, Edit};

/// What an edit makes of the store's design is linked; the call does nothing.
pub(crate) fn edit_law(store: &Store, change: &Edit)
    ensures linked { is_edit change.now ≡ true → (d : Design) → edit store.now.design change.now
        ≡ Ok d → IsLinked d }
{
    store.laws();
    let _ = change;
}

/// What all edits of an ECO make of the store's design is linked; the call does nothing.
pub(crate) fn eco_law(store: &Store, eco: &Eco)
    ensures linked { is_eco eco.now ≡ true → (d : Design) → edited store.now.design eco.now ≡ Ok d
        → IsLinked d }
{
    store.laws();
    let _ = eco;
}
