//! The parasitics of a net, as they come and go.

ghost use Rattle.std.specs.Prelude.{◌≡◌, ℕ, true, not, nat_eq, filter, ◌++◌, ◌∷◌, [], Some, if◌then◌else◌, IfOk, OnOk};
ghost use Rattle.std.specs.List.{list_any};
ghost use Rattle.timing_defs.specs.Edits.{without_rc, with_rc};
ghost use Rattle.netlist_store.specs.Numbering.{number_of};
ghost use Rattle.timing_defs.specs.Documents.{is_net_rc};
ghost use Rattle.netlist_store.specs.Drafts.{with_rcs};
ghost use Rattle.netlist_store.specs.Stores.{at};

use crate::row_edits::set_row;
use crate::stores::Store;
use crate::tables::{Orders, give_up_unordered, row_at};
use cow_table::{CowTable, Held};
use sta_units::Memory;
use std::alloc::Global;
use timing_defs::{Name, NetRc};

impl Orders {
    /// The orders without the parasitics of a net.
    fn without_rc(self, net: u32) -> Result<Orders, Memory>
        requires { list_any (nat_eq net) self.rcs ≡ true }
        ensures { IfOk result
            (λ after. after ≡ record self { rcs = filter (λ n. not (nat_eq net n)) self.rcs }) }
    {
        let Orders { insts, nets, rcs } = self;
        match rcs.without(net) {
            Ok(rcs) => Ok(Orders { insts, nets, rcs }),
            Err(wanting) => {
                insts.discard();
                nets.discard();
                Err(wanting)
            }
        }
    }

    /// The orders with the parasitics of a net; as the last ones, where it has none yet.
    fn with_rc_place(self, known: bool, net: u32) -> Result<Orders, Memory>
        requires { list_any (nat_eq net) self.rcs ≡ known }
        ensures { IfOk result
            (λ after. after
            ≡ record self { rcs = (if known then self.rcs else self.rcs ++ net ∷ []) }) }
    {
        if known {
            return Ok(self);
        }
        let Orders { insts, nets, rcs } = self;
        match rcs.with(net) {
            Ok(rcs) => Ok(Orders { insts, nets, rcs }),
            Err(wanting) => {
                insts.discard();
                nets.discard();
                Err(wanting)
            }
        }
    }
}

/// Writes the parasitics of a net.
fn put_rc(
    rows: &mut CowTable<Option<Held<NetRc>>>,
    alloc: Global,
    rc: NetRc,
    net: u32,
) -> Result<(), Memory>
    ensures { OnOk result
        ((n : ℕ) → at rows.new n ≡ (if nat_eq net n then Some rc else at rows.old n)) }
{
    let held = Held::of(alloc, rc)?;
    set_row(rows, net, Some(held))
}

impl Store {
    /// The store without the parasitics of a net.
    pub(crate) fn without_rc(self, name: &Name, net: u32) -> Result<Store, Memory>
        requires { number_of self.nets name.now ≡ Some net }
        ensures { IfOk result
            (λ after. after ≡ with_rcs self (without_rc name.now self.design.rcs)) }
    {
        let _ = name;
        if row_at(&self.rows.rcs, net).is_none() {
            return Ok(self);
        }
        let Store {
            frame,
            names,
            mut rows,
            orders,
        } = self;
        match set_row(&mut rows.rcs, net, None) {
            Ok(()) => match orders.without_rc(net) {
                Ok(orders) => Ok(Store {
                    frame,
                    names,
                    rows,
                    orders,
                }),
                Err(wanting) => {
                    give_up_unordered(frame, names, rows);
                    Err(wanting)
                }
            },
            Err(wanting) => {
                give_up_unordered(frame, names, rows);
                orders.discard();
                Err(wanting)
            }
        }
    }

    /// The store with these parasitics of a net, in place of others or as the last ones.
    pub(crate) fn with_rc(self, alloc: Global, rc: NetRc, net: u32) -> Result<Store, Memory>
        requires number { number_of self.nets rc.net ≡ Some net }
        requires amounts { is_net_rc rc ≡ true }
        ensures { IfOk result (λ after. after ≡ with_rcs self (with_rc rc self.design.rcs)) }
    {
        let known = row_at(&self.rows.rcs, net).is_some();
        let Store {
            frame,
            names,
            mut rows,
            orders,
        } = self;
        match put_rc(&mut rows.rcs, alloc, rc, net) {
            Ok(()) => match orders.with_rc_place(known, net) {
                Ok(orders) => Ok(Store {
                    frame,
                    names,
                    rows,
                    orders,
                }),
                Err(wanting) => {
                    give_up_unordered(frame, names, rows);
                    Err(wanting)
                }
            },
            Err(wanting) => {
                give_up_unordered(frame, names, rows);
                orders.discard();
                Err(wanting)
            }
        }
    }
}
