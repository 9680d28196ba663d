//! Pins of instances, as they join nets and leave them.

ghost use Rattle.std.specs.Prelude.{◌≡◌, ◌≢◌, ◌<◌, ℕ, List, true, find, length, nat_eq, not, filter, slice_get, None, Some, if◌then◌else◌, IfOk, OnOk};
ghost use Rattle.std.specs.Option.{option_copied};
ghost use Rattle.std.specs.Str.{bytes_eq};
ghost use Rattle.timing_defs.specs.declared.netlist.Inst.{Inst};
ghost use Rattle.timing_defs.specs.Edits.{has_colon, before_last, after_last, connected, is_conn_of, on_inst, with_conns};
ghost use Rattle.netlist_store.specs.declared.tables.PinRow.{PinRow};
ghost use Rattle.netlist_store.specs.Numbering.{number_of, is_number, inst_numbered};
ghost use Rattle.netlist_store.specs.Stores.{at};
ghost use Rattle.netlist_store.specs.Words.{IsLastColon};
ghost use Rattle.netlist_store.specs.Drafts.{joined_list, left_list, with_insts};

use crate::conn_edits::{connected, unconnected};
use crate::gate_edits::put_inst;
use crate::net_lists::{join_net, leave_net};
use crate::row_edits::put_row;
use crate::stores::Store;
use crate::tables::{Frame, PinRow, Rows};
use crate::words::last_colon;
use sta_units::Memory;
use std::alloc::Global;
use timing_defs::{Cell, CellPin, Conn, Inst, Items, Name, Split};

/// The pin of a cell that goes by these bytes.
fn find_pin<'a>(cell: &'a Cell, own: &[u8]) -> Option<&'a CellPin>
    ensures { option_copied result ≡ find (λ p. bytes_eq p.name own.now) cell.now.pins }
{
    cell.pins
        .as_slice()
        .iter()
        .find(|pin| pin.name.as_bytes() == own)
}

/// What follows the last colon of a word.
fn after_colon(word: &[u8]) -> &[u8]
    requires { has_colon word.now ≡ true }
    ensures { result.now ≡ after_last word.now }
{
    match last_colon(word) {
        Some(colon) => &word[colon + 1..],
        None => unreachable!(),
    }
}

/// Other connections of an instance, of which one pin is on another net, are written into the rows.
fn move_rows(
    rows: &mut Rows,
    alloc: Global,
    frame: &Frame,
    inst: u32,
    row: Inst,
    pin: u32,
    to: Option<u32>,
) -> Result<(), Memory>
    requires { pin < length rows.old.pins }
    ensures insts { OnOk result
        ((k : ℕ) → at rows.new.insts k
        ≡ (if nat_eq inst k then Some row else at rows.old.insts k)) }
    ensures rcs { OnOk result (rows.new.rcs ≡ rows.old.rcs) }
    ensures pin { OnOk result
        ((r : PinRow) → slice_get rows.old.pins pin ≡ Some r → slice_get rows.new.pins pin
        ≡ Some (record { owner = r.owner; net = to; dir = r.dir })) }
    ensures pins { OnOk result
        ((k : ℕ) (r : PinRow) → k ≢ pin → slice_get rows.old.pins k ≡ Some r
        → slice_get rows.new.pins k ≡ Some r) }
    ensures nets { OnOk result
        ((r : PinRow) → slice_get rows.old.pins pin ≡ Some r → (k : ℕ) (xs : List ℕ)
        → slice_get rows.old.net_pins k ≡ Some xs → slice_get rows.new.net_pins k
        ≡ Some (joined_list to pin k (left_list r.net pin k xs))) }
{
    put_inst(&mut rows.insts, alloc, frame, inst, row)?;
    let PinRow { owner, net, dir } = *rows.pins.get(pin as usize);
    leave_net(&mut rows.net_pins, alloc, net, pin)?;
    join_net(&mut rows.net_pins, alloc, to, pin)?;
    let net = to;
    put_row(&mut rows.pins, alloc, pin, PinRow { owner, net, dir })
}

impl Store {
    /// The number of the instance of a pin word.
    fn owner_there(&self, word: &Name, pin: u32) -> u32
        requires colon { has_colon word.now ≡ true }
        requires pin { number_of self.now.pins word.now ≡ Some pin }
        ensures { number_of self.now.insts (before_last word.now) ≡ Some result }
    {
        self.laws();
        let _ = word;
        match self.inst_of(pin) {
            Some(inst) => inst,
            None => unreachable!(),
        }
    }

    /// The own name of the pin of a word.
    fn own_name(&self, alloc: Global, word: &Name, pin: u32, inst: u32) -> Result<Name, Memory>
        requires colon { has_colon word.now ≡ true }
        requires pin { number_of self.now.pins word.now ≡ Some pin }
        requires inst { number_of self.now.insts (before_last word.now) ≡ Some inst }
        ensures { IfOk result (λ own. own ≡ after_last word.now) }
    {
        self.laws();
        let _ = pin;
        let cell = self.cell_at(inst, Split::Late);
        let after = after_colon(word.as_bytes());
        match find_pin(cell, after) {
            Some(own) => own.name.copied(alloc),
            None => unreachable!(),
        }
    }

    /// An instance with other connections.
    fn with_other_conns(&self, alloc: Global, inst: u32, conns: Items<Conn>) -> Result<Inst, Memory>
        requires { is_number self.now.insts inst ≡ true }
        ensures { IfOk result
            (λ made. (i : Inst) → inst_numbered self.now inst ≡ Some i → made
            ≡ record { name = i.name; cell = i.cell; conns = conns }) }
    {
        let inst = self.inst_at(inst);
        let name = inst.name.copied(alloc)?;
        let cell = inst.cell.copied(alloc)?;
        Ok(Inst { name, cell, conns })
    }

    /// An instance as a pin of it joins a net.
    fn joined_row(
        &self,
        alloc: Global,
        word: &Name,
        pin: u32,
        net: &Name,
        owner: u32,
        inst: &Inst,
    ) -> Result<Inst, Memory>
        requires colon { has_colon word.now ≡ true }
        requires pin { number_of self.now.pins word.now ≡ Some pin }
        requires inst { number_of self.now.insts (before_last word.now) ≡ Some owner }
        ensures { IfOk result
            (λ row. (i : Inst) → inst_numbered self.now owner ≡ Some i → row
            ≡ record {
              name = i.name;
              cell = i.cell;
              conns = connected (after_last word.now) net.now
                  inst.now.conns;
            }) }
    {
        let own = self.own_name(alloc, word, pin, owner)?;
        let conns = connected(alloc, &inst.conns, &own, net)?;
        self.with_other_conns(alloc, owner, conns)
    }

    /// An instance as a pin of it leaves its net.
    fn left_row(
        &self,
        alloc: Global,
        word: &Name,
        pin: u32,
        owner: u32,
        inst: &Inst,
    ) -> Result<Inst, Memory>
        requires colon { has_colon word.now ≡ true }
        requires pin { number_of self.now.pins word.now ≡ Some pin }
        requires inst { number_of self.now.insts (before_last word.now) ≡ Some owner }
        ensures { IfOk result
            (λ row. (i : Inst) → inst_numbered self.now owner ≡ Some i → row
            ≡ record {
              name = i.name;
              cell = i.cell;
              conns = filter
                  (λ conn. not (is_conn_of (after_last word.now) conn)) inst.now.conns;
            }) }
    {
        let own = self.own_name(alloc, word, pin, owner)?;
        let conns = unconnected(alloc, inst.conns.as_slice(), &own)?;
        self.with_other_conns(alloc, owner, conns)
    }

    /// The store with a pin of an instance on a net; the parasitics of nets stay.
    pub(crate) fn with_join(
        self,
        alloc: Global,
        word: &Name,
        pin: u32,
        net: &Name,
        to: u32,
    ) -> Result<Store, Memory>
        requires colon { has_colon word.now ≡ true }
        requires pin { number_of self.pins word.now ≡ Some pin }
        requires net { number_of self.nets net.now ≡ Some to }
        ensures { IfOk result
            (λ after. after
            ≡ with_insts self
            (on_inst (before_last word.now) (with_conns (connected (after_last word.now) net.now))
            self.design.insts)) }
    {
        let owner = self.owner_there(word, pin);
        let inst = self.inst_at(owner);
        match self.joined_row(alloc, word, pin, net, owner, inst) {
            Ok(row) => {
                let Store {
                    frame,
                    names,
                    mut rows,
                    orders,
                } = self;
                match move_rows(&mut rows, alloc, frame.get(), owner, row, pin, Some(to)) {
                    Ok(()) => Ok(Store {
                        frame,
                        names,
                        rows,
                        orders,
                    }),
                    Err(wanting) => {
                        frame.discard();
                        names.discard();
                        rows.discard();
                        orders.discard();
                        Err(wanting)
                    }
                }
            }
            Err(wanting) => {
                self.discard();
                Err(wanting)
            }
        }
    }

    /// The store with a pin of an instance on no net; the parasitics of nets stay.
    pub(crate) fn with_leave(self, alloc: Global, word: &Name, pin: u32) -> Result<Store, Memory>
        requires colon { has_colon word.now ≡ true }
        requires pin { number_of self.pins word.now ≡ Some pin }
        ensures { IfOk result
            (λ after. after
            ≡ with_insts self
            (on_inst (before_last word.now)
            (with_conns (filter (λ conn. not (is_conn_of (after_last word.now) conn))))
            self.design.insts)) }
    {
        let owner = self.owner_there(word, pin);
        let inst = self.inst_at(owner);
        match self.left_row(alloc, word, pin, owner, inst) {
            Ok(row) => {
                let Store {
                    frame,
                    names,
                    mut rows,
                    orders,
                } = self;
                match move_rows(&mut rows, alloc, frame.get(), owner, row, pin, None) {
                    Ok(()) => Ok(Store {
                        frame,
                        names,
                        rows,
                        orders,
                    }),
                    Err(wanting) => {
                        frame.discard();
                        names.discard();
                        rows.discard();
                        orders.discard();
                        Err(wanting)
                    }
                }
            }
            Err(wanting) => {
                self.discard();
                Err(wanting)
            }
        }
    }
}
