//! ECOs on a store: all edits in order, or the first fault.

ghost use Rattle.std.specs.Prelude.{◌≡◌, ◌∷◌, List, true, Ok, Err, IfOk, IfErr, OnOk};
ghost use Rattle.timing_defs.specs.declared.edits.Edit.{Edit};
ghost use Rattle.timing_defs.specs.Edits.{edit, edited, edit_faults, first_fault, changed};
ghost use Rattle.timing_defs.specs.Touches.{touched_list};
ghost use Rattle.netlist_store.specs.Touching.{touched_with};
ghost use Rattle.netlist_store.specs.Numbering.{KeepsNumbers};
ghost use Rattle.netlist_store.specs.Linked.{IsSized};
ghost use Rattle.timing_defs.specs.Documents.{is_eco, is_edit};
ghost use Rattle.netlist_store.specs.Applying.{IsApplied, IsChecked, IsEdited, IsRefused};
ghost use Rattle.netlist_store.specs.Drafts.{FollowsAll};

use crate::edit_checks::check_edit;
use crate::stores::Store;
use crate::tables::{Names, give_up_unnamed};
use crate::touched::Touched;
use sta_units::Memory;
use std::alloc::Global;
use timing_defs::{Eco, Edit, Fault};

impl Names {
    /// The names, with the numbers that became free ready for other names.
    fn settled(self) -> Result<Names, Memory>
        ensures { IfOk result (λ after. after ≡ self) }
    {
        let Names { insts, nets, pins } = self;
        match insts.settled() {
            Ok(insts) => match nets.settled() {
                Ok(nets) => match pins.settled() {
                    Ok(pins) => Ok(Names { insts, nets, pins }),
                    Err(wanting) => {
                        insts.discard();
                        nets.discard();
                        Err(wanting)
                    }
                },
                Err(wanting) => {
                    insts.discard();
                    pins.discard();
                    Err(wanting)
                }
            },
            Err(wanting) => {
                nets.discard();
                pins.discard();
                Err(wanting)
            }
        }
    }
}

impl Store {
    /// The store, with the numbers that became free ready for other names.
    fn settled(self) -> Result<Store, Memory>
        ensures { IfOk result (λ after. after ≡ self) }
    {
        let Store {
            frame,
            names,
            rows,
            orders,
        } = self;
        match names.settled() {
            Ok(names) => Ok(Store {
                frame,
                names,
                rows,
                orders,
            }),
            Err(wanting) => {
                give_up_unnamed(frame, rows, orders);
                Err(wanting)
            }
        }
    }

    /// The first fault of an edit. What the edit touches is added where it has none.
    fn checked(&self, alloc: Global, touched: &mut Touched, change: &Edit) -> Result<(), Fault>
        ensures checked { IsChecked result (first_fault (edit_faults self.now.design change.now)) }
        ensures touched { OnOk result
            ((edits : List Edit)
            → touched_with touched.new (changed self.now.design change.now) edits
            ≡ touched_with touched.old self.now.design (change.now ∷ edits)) }
    {
        check_edit(self, alloc, change)?;
        touched.touch(alloc, self, change)?;
        Ok(())
    }

    /// The store after one edit, or the edit's first fault. What the edit touches is added.
    fn after(
        self,
        alloc: Global,
        base: &Store,
        touched: &mut Touched,
        change: &Edit,
    ) -> Result<Store, Fault>
        requires edit { is_edit change.now ≡ true }
        requires follows { FollowsAll base.now self }
        ensures edited { IsEdited result (edit self.design change.now) }
        ensures follows { IfOk result (λ after. FollowsAll base.now after) }
        ensures touched { IfOk result
            (λ after. (edits : List Edit) → touched_with touched.new after.design edits
            ≡ touched_with touched.old self.design (change.now ∷ edits)) }
    {
        match self.checked(alloc, touched, change) {
            Ok(()) => {
                let after = self.changed(alloc, base, change)?;
                Ok(after)
            }
            Err(fault) => {
                self.discard();
                Err(fault)
            }
        }
    }

    /// The store after all edits in order, in which the numbers that became free wait, or the first fault.
    #[tactic(auto, using(crate::proofs::EditEnds::follows_copy))]
    fn applied(&self, alloc: Global, eco: &Eco) -> Result<(Store, Touched), Fault>
        requires eco { is_eco eco.now ≡ true }
        requires sized { IsSized self.now.design }
        ensures design { IfOk result (λ made. edited self.now.design eco.now ≡ Ok made.0.design) }
        ensures insts { IfOk result
            (λ made. made.1.insts ≡ (touched_list self.now.design eco.now.edits).insts) }
        ensures nets { IfOk result
            (λ made. made.1.nets ≡ (touched_list self.now.design eco.now.edits).nets) }
        ensures numbers { IfOk result (λ made. KeepsNumbers self.now made.0) }
        ensures fault { IfErr result (λ fault. IsRefused self.now.design eco.now fault) }
    {
        let edits = eco.edits.as_slice();
        let copy = self.copy()?;
        let mut store = copy;
        let mut touched = Touched::none(alloc);
        for edit in edits {
            store = store.after(alloc, self, &mut touched, edit)?;
        }
        Ok((store, touched))
    }

    /// The store after all edits of an ECO in order, or the first fault. The base stays as it is, and
    /// shares with the edited store what the edits do not change. The time grows with the edits, the
    /// pins of their cells and the connections of their instances and nets, and not with the design.
    /// A name keeps its number, and a number that the base has stands for no other name.
    pub fn apply(&self, alloc: Global, eco: &Eco) -> Result<(Store, Touched), Fault>
        requires eco { is_eco eco.now ≡ true }
        requires sized { IsSized self.now.design }
        ensures design { IfOk result (λ made. edited self.now.design eco.now ≡ Ok made.0.design) }
        ensures insts { IfOk result
            (λ made. made.1.insts ≡ (touched_list self.now.design eco.now.edits).insts) }
        ensures nets { IfOk result
            (λ made. made.1.nets ≡ (touched_list self.now.design eco.now.edits).nets) }
        ensures numbers { IfOk result (λ made. KeepsNumbers self.now made.0) }
        ensures applied { IfOk result
            (λ made. IsApplied self.now eco.now made.0
            (record { insts = made.1.insts; nets = made.1.nets })) }
        ensures fault { IfErr result (λ fault. IsRefused self.now.design eco.now fault) }
    {
        self.laws();
        let made = self.applied(alloc, eco)?;
        let (store, touched) = made;
        let store = store.settled()?;
        Ok((store, touched))
    }
}
