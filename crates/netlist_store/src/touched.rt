//! What an ECO touches: the instances that its edits name, add or remove, and the nets on which
//! they act.

ghost use Rattle.std.specs.Prelude.{◌≡◌, ◌++◌, ◌∷◌, [], List, None, true, is_some, IfOk, OnOk};
ghost use Rattle.std.specs.List.{filter_map};
ghost use Rattle.std.specs.Option.{option_to_list};
ghost use Rattle.timing_defs.specs.declared.design.Design.{Design};
ghost use Rattle.timing_defs.specs.declared.edits.Edit.{Edit};
ghost use Rattle.timing_defs.specs.Edits.{inst_named, word_net, before_last, edit_faults, first_fault, changed};
ghost use Rattle.timing_defs.specs.Touches.{nets_of_inst, touched_by, touched_list};
ghost use Rattle.netlist_store.specs.Touching.{IsWord, touched_with};

use crate::pin_words::word_net;
use crate::stores::Store;
use crate::words::last_colon;
use sta_units::Memory;
use std::alloc::Global;
use timing_defs::{Conn, Edit, Items, Name};

/// What an ECO touches, by names, in the order of its edits: the instances that an edit names, adds
/// or removes, and the nets on which it acts. A name stands once for each edit that touches it.
/// - A resize touches the instance, and the nets of its connections.
/// - `Connect` and `Disconnect` touch the instance of their pin, and the net.
/// - A buffer touches its own instance, its net and the new one; its sinks name no instance.
#[derive(Drop)]
pub struct Touched {
    pub insts: Items<Name>,
    pub nets: Items<Name>,
}

/// The name of the instance of a pin word, where the instance is there.
fn owner_of<'a>(store: &'a Store, alloc: Global, word: &Name) -> Result<&'a Name, Memory>
    requires { IsWord store.now.design word.now }
    ensures { IfOk result (λ inst. inst.now ≡ before_last word.now) }
{
    let word = word.as_bytes();
    let Some(colon) = last_colon(word) else {
        unreachable!();
    };
    match store.inst_called(alloc, &word[..colon])? {
        Some(inst) => Ok(&inst.name),
        None => unreachable!(),
    }
}

/// Adds the net of a connection, where it has one.
fn add_conn(alloc: Global, nets: &mut Items<Name>, conn: &Conn) -> Result<(), Memory>
    ensures { OnOk result (nets.new ≡ nets.old ++ filter_map (λ conn. conn.net) (conn.now ∷ [])) }
{
    match &conn.net {
        Some(net) => nets.push(net.copied(alloc)?),
        None => Ok(()),
    }
}

/// Adds the nets of connections, in their order.
fn add_nets(alloc: Global, nets: &mut Items<Name>, conns: &[Conn]) -> Result<(), Memory>
    ensures { OnOk result (nets.new ≡ nets.old ++ filter_map (λ conn. conn.net) conns.now) }
{
    for conn in conns {
        add_conn(alloc, nets, conn)?;
    }
    Ok(())
}

impl Touched {
    /// What no edit touches: nothing. Takes no memory.
    pub(crate) fn none(alloc: Global) -> Touched
        ensures insts { result.insts ≡ [] }
        ensures nets { result.nets ≡ [] }
        ensures left { (d : Design) (edits : List Edit) → touched_with result d edits
            ≡ touched_list d edits }
    {
        Touched {
            insts: Items::new(alloc),
            nets: Items::new(alloc),
        }
    }

    /// One instance more.
    fn add_inst(&mut self, alloc: Global, inst: &Name) -> Result<(), Memory>
        ensures insts { OnOk result (self.new.insts ≡ self.old.insts ++ inst.now ∷ []) }
        ensures nets { OnOk result (self.new.nets ≡ self.old.nets ++ []) }
    {
        self.insts.push(inst.copied(alloc)?)?;
        Ok(())
    }

    /// One net more.
    fn add_net(&mut self, alloc: Global, net: &Name) -> Result<(), Memory>
        ensures insts { OnOk result (self.new.insts ≡ self.old.insts ++ []) }
        ensures nets { OnOk result (self.new.nets ≡ self.old.nets ++ net.now ∷ []) }
    {
        self.nets.push(net.copied(alloc)?)?;
        Ok(())
    }

    /// An instance and a net.
    fn add_both(&mut self, alloc: Global, inst: &Name, net: &Name) -> Result<(), Memory>
        ensures insts { OnOk result (self.new.insts ≡ self.old.insts ++ inst.now ∷ []) }
        ensures nets { OnOk result (self.new.nets ≡ self.old.nets ++ net.now ∷ []) }
    {
        self.insts.push(inst.copied(alloc)?)?;
        self.nets.push(net.copied(alloc)?)?;
        Ok(())
    }

    /// A buffer, its net and its new net.
    fn add_buffer(
        &mut self,
        alloc: Global,
        net: &Name,
        inst: &Name,
        fresh: &Name,
    ) -> Result<(), Memory>
        ensures insts { OnOk result (self.new.insts ≡ self.old.insts ++ inst.now ∷ []) }
        ensures nets { OnOk result (self.new.nets ≡ self.old.nets ++ net.now ∷ fresh.now ∷ []) }
    {
        self.add_both(alloc, inst, net)?;
        self.nets.push(fresh.copied(alloc)?)?;
        Ok(())
    }

    /// An instance and the nets of its connections.
    fn add_inst_nets(&mut self, alloc: Global, inst: &Name, conns: &[Conn]) -> Result<(), Memory>
        ensures insts { OnOk result (self.new.insts ≡ self.old.insts ++ inst.now ∷ []) }
        ensures nets { OnOk result
            (self.new.nets ≡ self.old.nets ++ filter_map (λ conn. conn.net) conns.now) }
    {
        self.insts.push(inst.copied(alloc)?)?;
        add_nets(alloc, &mut self.nets, conns)
    }

    /// A resize of an instance that is there.
    fn add_repower(&mut self, alloc: Global, store: &Store, inst: &Name) -> Result<(), Memory>
        requires { is_some (inst_named store.now.design.insts inst.now) ≡ true }
        ensures insts { OnOk result (self.new.insts ≡ self.old.insts ++ inst.now ∷ []) }
        ensures nets { OnOk result
            (self.new.nets ≡ self.old.nets ++ nets_of_inst store.now.design inst.now) }
    {
        match store.inst_named(inst) {
            Some(found) => self.add_inst_nets(alloc, inst, found.conns.as_slice()),
            None => unreachable!(),
        }
    }

    /// A pin that joins a net.
    fn add_connect(
        &mut self,
        alloc: Global,
        store: &Store,
        pin: &Name,
        net: &Name,
    ) -> Result<(), Memory>
        requires { IsWord store.now.design pin.now }
        ensures insts { OnOk result (self.new.insts ≡ self.old.insts ++ before_last pin.now ∷ []) }
        ensures nets { OnOk result (self.new.nets ≡ self.old.nets ++ net.now ∷ []) }
    {
        let inst = owner_of(store, alloc, pin)?;
        self.add_both(alloc, inst, net)
    }

    /// A pin that leaves its net.
    fn add_disconnect(&mut self, alloc: Global, store: &Store, pin: &Name) -> Result<(), Memory>
        requires { IsWord store.now.design pin.now }
        ensures insts { OnOk result (self.new.insts ≡ self.old.insts ++ before_last pin.now ∷ []) }
        ensures nets { OnOk result
            (self.new.nets ≡ self.old.nets ++ option_to_list (word_net store.now.design pin.now)) }
    {
        let inst = owner_of(store, alloc, pin)?;
        match word_net(store, alloc, pin)? {
            Some(net) => self.add_both(alloc, inst, net),
            None => self.add_inst(alloc, inst),
        }
    }

    /// What an edit touches in the design that it finds.
    #[tactic(auto, using(crate::proofs::TouchLaws::repower_there, crate::proofs::TouchLaws::connect_word, crate::proofs::TouchLaws::disconnect_word))]
    fn add_edit(&mut self, alloc: Global, store: &Store, edit: &Edit) -> Result<(), Memory>
        requires { first_fault (edit_faults store.now.design edit.now) ≡ None }
        ensures insts { OnOk result
            (self.new.insts ≡ self.old.insts ++ (touched_by store.now.design edit.now).insts) }
        ensures nets { OnOk result
            (self.new.nets ≡ self.old.nets ++ (touched_by store.now.design edit.now).nets) }
    {
        match edit {
            Edit::Repower { inst, cell: _ } => self.add_repower(alloc, store, inst),
            Edit::InsertGate { inst, cell: _ } => self.add_inst(alloc, inst),
            Edit::RemoveGate { inst } => self.add_inst(alloc, inst),
            Edit::InsertNet { net } => self.add_net(alloc, net),
            Edit::RemoveNet { net } => self.add_net(alloc, net),
            Edit::Connect { pin, net } => self.add_connect(alloc, store, pin, net),
            Edit::Disconnect { pin } => self.add_disconnect(alloc, store, pin),
            Edit::InsertBuffer {
                net,
                inst,
                fresh,
                cell: _,
                sinks: _,
            } => self.add_buffer(alloc, net, inst, fresh),
            Edit::SetParasitics { net, rc: _ } => self.add_net(alloc, net),
        }
    }

    /// One edit more: what it touches in the design that it finds, which is the store's before the
    /// edit. It takes time of the edit and, for a resize, of the instance's connections.
    #[tactic(auto, using(crate::proofs::TouchLaws::touch_step))]
    pub(crate) fn touch(&mut self, alloc: Global, store: &Store, edit: &Edit) -> Result<(), Memory>
        requires { first_fault (edit_faults store.now.design edit.now) ≡ None }
        ensures insts { OnOk result
            (self.new.insts ≡ self.old.insts ++ (touched_by store.now.design edit.now).insts) }
        ensures nets { OnOk result
            (self.new.nets ≡ self.old.nets ++ (touched_by store.now.design edit.now).nets) }
        ensures left { OnOk result
            ((edits : List Edit) → touched_with self.new (changed store.now.design edit.now) edits
            ≡ touched_with self.old store.now.design (edit.now ∷ edits)) }
    {
        self.add_edit(alloc, store, edit)?;
        Ok(())
    }
}
