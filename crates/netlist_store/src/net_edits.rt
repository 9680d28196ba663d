//! Nets as they come and go.

ghost use Rattle.std.specs.Prelude.{◌≡◌, ◌≢◌, ◌≤◌, ◌++◌, ◌∷◌, [], ℕ, List, true, false, not, nat_eq, filter, length, set, slice_get, Some, None, IfOk, OnOk};
ghost use Rattle.std.specs.List.{list_any};
ghost use Rattle.std.specs.Str.{bytes_eq};
ghost use Rattle.timing_defs.specs.Wires.{rc_of};
ghost use Rattle.timing_defs.specs.Edits.{net_in_use};
ghost use Rattle.netlist_store.specs.Numbering.{name_at, number_of, is_number, with_name, AreKept};
ghost use Rattle.netlist_store.specs.Drafts.{Follows, with_nets};

use crate::row_edits::put_row;
use crate::stores::Store;
use crate::tables::{Names, Orders, give_up_unnamed, give_up_unordered};
use cow_table::{CowTable, Held};
use sta_units::Memory;
use std::alloc::Global;
use timing_defs::{Items, Name};

impl Names {
    /// The names with that of a new net, and its number.
    fn with_net_name(self, base: &Names, name: Name) -> Result<(Names, u32), Memory>
        requires fresh { number_of self.nets name ≡ None }
        requires follows { Follows base.now.nets self.nets }
        ensures added { IfOk result
            (λ made. made.0 ≡ record self { nets = with_name self.nets made.1 name }) }
        ensures gap { IfOk result (λ made. name_at self.nets made.1 ≡ None) }
        ensures within { IfOk result (λ made. made.1 ≤ length self.nets) }
        ensures kept { IfOk result (λ made. AreKept base.now.nets made.0.nets) }
    {
        let Names { insts, nets, pins } = self;
        match nets.with(&base.nets, name) {
            Ok(made) => {
                let (nets, net) = made;
                Ok((Names { insts, nets, pins }, net))
            }
            Err(wanting) => {
                insts.discard();
                pins.discard();
                Err(wanting)
            }
        }
    }

    /// The names without that of a net.
    fn without_net_name(self, net: u32) -> Result<Names, Memory>
        requires { is_number self.nets net ≡ true }
        ensures { IfOk result (λ after. after ≡ record self { nets = set self.nets net None }) }
    {
        let Names { insts, nets, pins } = self;
        match nets.without(net) {
            Ok(nets) => Ok(Names { insts, nets, pins }),
            Err(wanting) => {
                insts.discard();
                pins.discard();
                Err(wanting)
            }
        }
    }
}

impl Orders {
    /// The orders with a new net as the last one.
    fn with_net_last(self, net: u32) -> Result<Orders, Memory>
        requires { list_any (nat_eq net) self.nets ≡ false }
        ensures { IfOk result (λ after. after ≡ record self { nets = self.nets ++ net ∷ [] }) }
    {
        let Orders { insts, nets, rcs } = self;
        match nets.with(net) {
            Ok(nets) => Ok(Orders { insts, nets, rcs }),
            Err(wanting) => {
                insts.discard();
                rcs.discard();
                Err(wanting)
            }
        }
    }

    /// The orders without a net.
    fn without_net_place(self, net: u32) -> Result<Orders, Memory>
        requires { list_any (nat_eq net) self.nets ≡ true }
        ensures { IfOk result
            (λ after. after ≡ record self { nets = filter (λ n. not (nat_eq net n)) self.nets }) }
    {
        let Orders { insts, nets, rcs } = self;
        match nets.without(net) {
            Ok(nets) => Ok(Orders { insts, nets, rcs }),
            Err(wanting) => {
                insts.discard();
                rcs.discard();
                Err(wanting)
            }
        }
    }
}

/// Writes the row of a net that has no pins.
fn put_bare(rows: &mut CowTable<Held<Items<u32>>>, alloc: Global, net: u32) -> Result<(), Memory>
    ensures here { OnOk result (slice_get rows.new net ≡ Some []) }
    ensures kept { OnOk result
        ((n : ℕ) (pins : List ℕ) → n ≢ net → slice_get rows.old n ≡ Some pins → slice_get rows.new n
        ≡ Some pins) }
{
    let empty = Held::of(alloc, Items::new(alloc))?;
    put_row(rows, alloc, net, empty)
}

/// Writes the row of a new net without pins, which is the last one in the orders.
fn put_net(
    orders: Orders,
    rows: &mut CowTable<Held<Items<u32>>>,
    alloc: Global,
    net: u32,
) -> Result<Orders, Memory>
    requires { list_any (nat_eq net) orders.nets ≡ false }
    ensures orders { IfOk result
        (λ after. after ≡ record orders { nets = orders.nets ++ net ∷ [] }) }
    ensures here { IfOk result (λ after. slice_get rows.new net ≡ Some []) }
    ensures kept { IfOk result
        (λ after. (n : ℕ) (pins : List ℕ) → n ≢ net → slice_get rows.old n ≡ Some pins
        → slice_get rows.new n ≡ Some pins) }
{
    match put_bare(rows, alloc, net) {
        Ok(()) => orders.with_net_last(net),
        Err(wanting) => {
            orders.discard();
            Err(wanting)
        }
    }
}

impl Store {
    /// The store with a new net that has no pins, as the last one.
    pub(crate) fn with_net(self, alloc: Global, base: &Store, name: &Name) -> Result<Store, Memory>
        requires fresh { number_of self.nets name.now ≡ None }
        requires follows { Follows base.now.nets self.nets }
        ensures changed { IfOk result
            (λ after. after ≡ with_nets self (self.design.nets ++ name.now ∷ []) after.nets) }
        ensures follows { IfOk result (λ after. Follows base.now.nets after.nets) }
    {
        match name.copied(alloc) {
            Ok(copy) => {
                let Store {
                    frame,
                    names,
                    mut rows,
                    orders,
                } = self;
                match names.with_net_name(&base.names, copy) {
                    Ok(made) => {
                        let (names, net) = made;
                        names.nets.laws();
                        match put_net(orders, &mut rows.net_pins, alloc, net) {
                            Ok(orders) => Ok(Store {
                                frame,
                                names,
                                rows,
                                orders,
                            }),
                            Err(wanting) => {
                                give_up_unordered(frame, names, rows);
                                Err(wanting)
                            }
                        }
                    }
                    Err(wanting) => {
                        give_up_unnamed(frame, rows, orders);
                        Err(wanting)
                    }
                }
            }
            Err(wanting) => {
                self.discard();
                Err(wanting)
            }
        }
    }

    /// The store without a net that has no pins and no parasitics.
    pub(crate) fn without_net(self, name: &Name, net: u32) -> Result<Store, Memory>
        requires number { number_of self.nets name.now ≡ Some net }
        requires unused { net_in_use self.design name.now ≡ false }
        requires bare { rc_of self.design name.now ≡ None }
        ensures { IfOk result
            (λ after. after
            ≡ with_nets self (filter (λ n. not (bytes_eq n name.now)) self.design.nets)
            (set self.nets net None)) }
    {
        let _ = name;
        let Store {
            frame,
            names,
            rows,
            orders,
        } = self;
        match names.without_net_name(net) {
            Ok(names) => {
                names.nets.laws();
                match orders.without_net_place(net) {
                    Ok(orders) => Ok(Store {
                        frame,
                        names,
                        rows,
                        orders,
                    }),
                    Err(wanting) => {
                        give_up_unordered(frame, names, rows);
                        Err(wanting)
                    }
                }
            }
            Err(wanting) => {
                give_up_unnamed(frame, rows, orders);
                Err(wanting)
            }
        }
    }
}
