//! Edits without a fault, as they change a store.

ghost use Rattle.std.specs.Prelude.{◌≡◌, true, set, Some, None, is_some, IfOk, IfSome};
ghost use Rattle.timing_defs.specs.declared.edits.Edit.TheVariants.{Repower, InsertGate, RemoveGate, InsertNet, RemoveNet, Connect, Disconnect, SetParasitics};
ghost use Rattle.timing_defs.specs.Netlist.{is_listed};
ghost use Rattle.timing_defs.specs.Edits.{inst_named, edit_faults, first_fault, changed, has_colon, word_direction, word_net, with_rc, without_rc};
ghost use Rattle.netlist_store.specs.Numbering.{number_of};
ghost use Rattle.timing_defs.specs.Documents.{is_edit, is_rc_for};
ghost use Rattle.netlist_store.specs.Drafts.{FollowsAll, with_design, with_rcs};

use crate::stores::Store;
use sta_units::{Again, Memory};
use std::alloc::Global;
use timing_defs::{Edit, Name, NetRc};

impl Store {
    /// The number of a net that is there.
    pub(crate) fn known_net(&self, net: &Name) -> u32
        requires { is_listed self.now.design.nets net.now ≡ true }
        ensures { number_of self.now.nets net.now ≡ Some result }
    {
        self.laws();
        match self.net(net) {
            Some(number) => number,
            None => unreachable!(),
        }
    }

    /// The number of a pin that has a direction.
    #[tactic(auto, using(crate::proofs::EditFacts::word_pin))]
    fn known_pin(&self, pin: &Name) -> u32
        requires { is_some (word_direction self.now.design pin.now) ≡ true }
        ensures { number_of self.now.pins pin.now ≡ Some result }
    {
        self.laws();
        match self.pin(pin) {
            Some(number) => number,
            None => unreachable!(),
        }
    }

    /// A net's parasitics are replaced.
    fn replace_rc(self, alloc: Global, net: &Name, rc: &NetRc) -> Result<Store, Memory>
        requires edit { is_rc_for net.now rc.now ≡ true }
        requires listed { is_listed self.design.nets net.now ≡ true }
        ensures { IfOk result (λ after. after ≡ with_rcs self (with_rc rc.now self.design.rcs)) }
    {
        let number = self.known_net(net);
        match rc.again(alloc) {
            Ok(copy) => self.with_rc(alloc, copy, number),
            Err(wanting) => {
                self.discard();
                Err(wanting)
            }
        }
    }

    /// A net's parasitics are dropped.
    fn drop_rc(self, net: &Name) -> Result<Store, Memory>
        requires { is_listed self.design.nets net.now ≡ true }
        ensures { IfOk result
            (λ after. after ≡ with_rcs self (without_rc net.now self.design.rcs)) }
    {
        let number = self.known_net(net);
        self.without_rc(net, number)
    }

    /// The store with other parasitics of a net, or without them.
    fn with_other_rc(self, alloc: Global, net: &Name, rc: &Option<NetRc>) -> Result<Store, Memory>
        requires edit { is_edit (SetParasitics net.now rc.now) ≡ true }
        requires listed { is_listed self.design.nets net.now ≡ true }
        ensures { IfOk result
            (λ after. after
            ≡ with_design self (changed self.design (SetParasitics net.now rc.now))) }
    {
        match rc {
            Some(rc) => self.replace_rc(alloc, net, rc),
            None => self.drop_rc(net),
        }
    }

    /// A net's parasitics are replaced, or dropped.
    fn set_parasitics(
        self,
        alloc: Global,
        base: &Store,
        net: &Name,
        rc: &Option<NetRc>,
    ) -> Result<Store, Memory>
        requires edit { is_edit (SetParasitics net.now rc.now) ≡ true }
        requires faults { first_fault (edit_faults self.design (SetParasitics net.now rc.now))
            ≡ None }
        requires follows { FollowsAll base.now self }
        ensures design { IfOk result
            (λ after. after.design ≡ changed self.design (SetParasitics net.now rc.now)) }
        ensures follows { IfOk result (λ after. FollowsAll base.now after) }
    {
        let _ = base;
        let after = self.with_other_rc(alloc, net, rc)?;
        Ok(after)
    }

    /// A net without pins comes.
    fn insert_net(self, alloc: Global, base: &Store, net: &Name) -> Result<Store, Memory>
        requires faults { first_fault (edit_faults self.design (InsertNet net.now)) ≡ None }
        requires follows { FollowsAll base.now self }
        ensures design { IfOk result
            (λ after. after.design ≡ changed self.design (InsertNet net.now)) }
        ensures follows { IfOk result (λ after. FollowsAll base.now after) }
    {
        self.laws();
        let after = self.with_net(alloc, base, net)?;
        Ok(after)
    }

    /// A net without pins goes, and its parasitics with it.
    fn remove_net(self, base: &Store, net: &Name) -> Result<Store, Memory>
        requires faults { first_fault (edit_faults self.design (RemoveNet net.now)) ≡ None }
        requires follows { FollowsAll base.now self }
        ensures design { IfOk result
            (λ after. after.design ≡ changed self.design (RemoveNet net.now)) }
        ensures follows { IfOk result (λ after. FollowsAll base.now after) }
    {
        self.laws();
        let _ = base;
        let number = self.known_net(net);
        let bare = self.without_rc(net, number)?;
        let after = bare.without_net(net, number)?;
        after.laws();
        Ok(after)
    }

    /// A pin joins a net.
    fn connect(self, alloc: Global, base: &Store, pin: &Name, net: &Name) -> Result<Store, Memory>
        requires faults { first_fault (edit_faults self.design (Connect pin.now net.now)) ≡ None }
        requires follows { FollowsAll base.now self }
        ensures design { IfOk result
            (λ after. after.design ≡ changed self.design (Connect pin.now net.now)) }
        ensures follows { IfOk result (λ after. FollowsAll base.now after) }
    {
        self.laws();
        let _ = base;
        let number = self.known_pin(pin);
        let to = self.known_net(net);
        let bare = self.without_rc(net, to)?;
        let after = bare.with_join(alloc, pin, number, net, to)?;
        Ok(after)
    }

    /// The name of the net of a pin that is on one.
    fn known_net_of(&self, alloc: Global, pin: &Name, number: u32) -> Result<Name, Memory>
        requires colon { has_colon pin.now ≡ true }
        requires number { number_of self.now.pins pin.now ≡ Some number }
        requires net { is_some (word_net self.now.design pin.now) ≡ true }
        ensures { IfOk result (λ net. word_net self.now.design pin.now ≡ Some net) }
    {
        self.laws();
        let _ = pin;
        match self.net_of(number) {
            Some(net) => {
                let name = self.net_name(net).copied(alloc)?;
                Ok(name)
            }
            None => unreachable!(),
        }
    }

    /// A pin leaves its net.
    fn disconnect(self, alloc: Global, base: &Store, pin: &Name) -> Result<Store, Memory>
        requires faults { first_fault (edit_faults self.design (Disconnect pin.now)) ≡ None }
        requires follows { FollowsAll base.now self }
        ensures design { IfOk result
            (λ after. after.design ≡ changed self.design (Disconnect pin.now)) }
        ensures follows { IfOk result (λ after. FollowsAll base.now after) }
    {
        self.laws();
        let _ = base;
        let number = self.known_pin(pin);
        match self.known_net_of(alloc, pin, number) {
            Ok(net) => {
                let from = self.known_net(&net);
                let bare = self.without_rc(&net, from)?;
                let after = bare.with_leave(alloc, pin, number)?;
                Ok(after)
            }
            Err(wanting) => {
                self.discard();
                Err(wanting)
            }
        }
    }

    /// The number of an instance that is there.
    fn known_inst(&self, inst: &Name) -> u32
        requires { is_some (inst_named self.now.design.insts inst.now) ≡ true }
        ensures { number_of self.now.insts inst.now ≡ Some result }
    {
        self.laws();
        match self.inst(inst) {
            Some(number) => number,
            None => unreachable!(),
        }
    }

    /// An instance becomes another cell.
    fn repower_gate(
        self,
        alloc: Global,
        base: &Store,
        inst: &Name,
        cell: &Name,
    ) -> Result<Store, Memory>
        requires faults { first_fault (edit_faults self.design (Repower inst.now cell.now)) ≡ None }
        requires follows { FollowsAll base.now self }
        ensures design { IfOk result
            (λ after. after.design ≡ changed self.design (Repower inst.now cell.now)) }
        ensures follows { IfOk result (λ after. FollowsAll base.now after) }
    {
        let number = self.known_inst(inst);
        let after = self.with_cell(alloc, base, inst, number, cell)?;
        Ok(after)
    }

    /// An instance comes, with all pins open.
    fn insert_gate(
        self,
        alloc: Global,
        base: &Store,
        inst: &Name,
        cell: &Name,
    ) -> Result<Store, Memory>
        requires faults { first_fault (edit_faults self.design (InsertGate inst.now cell.now))
            ≡ None }
        requires follows { FollowsAll base.now self }
        ensures design { IfOk result
            (λ after. after.design ≡ changed self.design (InsertGate inst.now cell.now)) }
        ensures follows { IfOk result (λ after. FollowsAll base.now after) }
    {
        self.laws();
        let after = self.with_gate(alloc, base, inst, cell)?;
        Ok(after)
    }

    /// An instance whose pins are all open goes.
    fn remove_gate(self, alloc: Global, base: &Store, inst: &Name) -> Result<Store, Memory>
        requires faults { first_fault (edit_faults self.design (RemoveGate inst.now)) ≡ None }
        requires follows { FollowsAll base.now self }
        ensures design { IfOk result
            (λ after. after.design ≡ changed self.design (RemoveGate inst.now)) }
        ensures follows { IfOk result (λ after. FollowsAll base.now after) }
    {
        let _ = base;
        let number = self.known_inst(inst);
        let after = self.without_gate(alloc, inst, number)?;
        Ok(after)
    }

    /// The store after an edit that has no fault.
    pub(crate) fn changed(self, alloc: Global, base: &Store, edit: &Edit) -> Result<Store, Memory>
        requires edit { is_edit edit.now ≡ true }
        requires faults { first_fault (edit_faults self.design edit.now) ≡ None }
        requires follows { FollowsAll base.now self }
        ensures design { IfOk result (λ after. after.design ≡ changed self.design edit.now) }
        ensures follows { IfOk result (λ after. FollowsAll base.now after) }
    {
        match edit {
            Edit::Repower { inst, cell } => self.repower_gate(alloc, base, inst, cell),
            Edit::InsertGate { inst, cell } => self.insert_gate(alloc, base, inst, cell),
            Edit::RemoveGate { inst } => self.remove_gate(alloc, base, inst),
            Edit::InsertNet { net } => self.insert_net(alloc, base, net),
            Edit::RemoveNet { net } => self.remove_net(base, net),
            Edit::Connect { pin, net } => self.connect(alloc, base, pin, net),
            Edit::Disconnect { pin } => self.disconnect(alloc, base, pin),
            Edit::InsertBuffer {
                net,
                inst,
                fresh,
                cell,
                sinks,
            } => self.insert_buffer(alloc, base, net, inst, fresh, cell, sinks.as_slice()),
            Edit::SetParasitics { net, rc } => self.set_parasitics(alloc, base, net, rc),
        }
    }
}
