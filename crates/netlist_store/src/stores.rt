//! Stores, their copies and look-ups.

ghost use Rattle.std.specs.Prelude.{◌≡◌, ◌<◌, ◌^◌, ℕ, true, false, None, length, count_by, map, nat_eq, is_some, option_and_then, option_map, if◌then◌else◌, IfOk, IfSome};
ghost use Rattle.std.specs.Option.{option_copied};
ghost use Rattle.timing_defs.specs.Netlist.{cell_named, cell_of, name_of, net_of};
ghost use Rattle.timing_defs.specs.Wires.{rc_of};
ghost use Rattle.timing_defs.specs.Names.{is_name};
ghost use Rattle.timing_defs.specs.Edits.{inst_named, net_in_use};
ghost use Rattle.netlist_store.specs.Numbering.{name_at, number_of, is_number, inst_numbered, pin_numbered, owner_number, net_number, is_on_number, IsNumbered};
ghost use Rattle.std.specs.List.{filter_map};
ghost use Rattle.netlist_store.specs.Building.{first_numbers, of_pins};
ghost use Rattle.netlist_store.specs.Linked.{IsLinked, IsSized};
ghost use Rattle.netlist_store.specs.Stores.{TellsInst, TellsPin};

use crate::building::{frame_of, names_of, orders_of, rows_of};
use crate::inst_rows::InstRow;
use crate::tables::{Frame, Names, Orders, PinRow, Rows, row_at};
use cow_table::Held;
use sta_units::Memory;
use std::alloc::Global;
use std::marker::Model;
use timing_defs::{Cell, Constraints, Design, Dir, Inst, Items, Name, NetRc, Port, Split};

/// A linked design with numbers for its instances, nets and pins. Contracts see the design and,
/// for each kind, the list of the names that the numbers stand for, with gaps. A name keeps its
/// number from a base to the stores that edits make of it. An edit gives a new store and leaves
/// its base as it is; the two share what the edit does not change.
#[derive(Drop)]
pub struct Store {
    pub(crate) frame: Held<Frame>,
    pub(crate) names: Names,
    pub(crate) rows: Rows,
    pub(crate) orders: Orders,
}

impl Model for Store {
    ghost use Rattle.netlist_store.specs.Numbering.{Stored};
    ghost use Rattle.netlist_store.specs.Stores.{stored_in, AreTables};

    ghost Value = { Stored };

    ghost view = { λ s. stored_in s.frame s.names s.rows s.orders };

    ghost invariant = { λ s. AreTables (stored_in s.frame s.names s.rows s.orders) s.rows
        s.orders };
}

/// The lists of a design, of which tables are made.
#[derive(Drop)]
struct Lists {
    nets: Items<Name>,
    insts: Items<Inst>,
    rcs: Items<NetRc>,
}

impl Lists {
    /// Gives the lists up.
    fn discard(self) {}
}

/// Gives up the names of nets.
fn give_up_nets(_nets: Items<Name>) {}

/// Gives up a frame and names.
fn give_up(frame: Held<Frame>, names: Names) {
    frame.discard();
    names.discard();
}

impl Store {
    /// The store of a frame, names, orders and lists that are of one linked design. The lists move into it.
    fn of_orders(
        alloc: Global,
        frame: Frame,
        names: Names,
        orders: Orders,
        lists: Lists,
    ) -> Result<Store, Memory>
        requires linked { IsLinked
            (record {
              early = frame.early;
              late = frame.late;
              ports = frame.ports;
              nets = lists.nets;
              insts = lists.insts;
              constraints = frame.constraints;
              rcs = lists.rcs;
            }) }
        requires insts { names.insts ≡ map Some (map (λ inst. inst.name) lists.insts) }
        requires nets { names.nets ≡ map Some lists.nets }
        requires pins { names.pins
            ≡ map Some (of_pins name_of frame.ports frame.late.cells lists.insts) }
        requires inst_order { orders.insts ≡ first_numbers (length names.insts) }
        requires net_order { orders.nets ≡ first_numbers (length names.nets) }
        requires rc_order { orders.rcs ≡ filter_map (λ rc. number_of names.nets rc.net) lists.rcs }
        ensures { IfOk result
            (λ store. store.design
            ≡ record {
              early = frame.early;
              late = frame.late;
              ports = frame.ports;
              nets = lists.nets;
              insts = lists.insts;
              constraints = frame.constraints;
              rcs = lists.rcs;
            }) }
    {
        names.laws();
        let Lists { nets, insts, rcs } = lists;
        give_up_nets(nets);
        match rows_of(alloc, &frame, &names, insts, rcs) {
            Ok(rows) => match Held::of(alloc, frame) {
                Ok(frame) => Ok(Store {
                    frame,
                    names,
                    rows,
                    orders,
                }),
                Err(wanting) => {
                    names.discard();
                    rows.discard();
                    orders.discard();
                    Err(wanting)
                }
            },
            Err(wanting) => {
                frame.discard();
                names.discard();
                orders.discard();
                Err(wanting)
            }
        }
    }

    /// The store of a frame, names and lists that are of one linked design.
    fn of_names(alloc: Global, frame: Frame, names: Names, lists: Lists) -> Result<Store, Memory>
        requires linked { IsLinked
            (record {
              early = frame.early;
              late = frame.late;
              ports = frame.ports;
              nets = lists.nets;
              insts = lists.insts;
              constraints = frame.constraints;
              rcs = lists.rcs;
            }) }
        requires insts { names.insts ≡ map Some (map (λ inst. inst.name) lists.insts) }
        requires nets { names.nets ≡ map Some lists.nets }
        requires pins { names.pins
            ≡ map Some (of_pins name_of frame.ports frame.late.cells lists.insts) }
        ensures { IfOk result
            (λ store. store.design
            ≡ record {
              early = frame.early;
              late = frame.late;
              ports = frame.ports;
              nets = lists.nets;
              insts = lists.insts;
              constraints = frame.constraints;
              rcs = lists.rcs;
            }) }
    {
        match orders_of(alloc, &names, &lists.rcs) {
            Ok(orders) => Store::of_orders(alloc, frame, names, orders, lists),
            Err(wanting) => {
                frame.discard();
                names.discard();
                lists.discard();
                Err(wanting)
            }
        }
    }

    /// The store of a frame and of lists that are of one linked design.
    fn of_lists(alloc: Global, frame: Frame, lists: Lists) -> Result<Store, Memory>
        requires { IsLinked
            (record {
              early = frame.early;
              late = frame.late;
              ports = frame.ports;
              nets = lists.nets;
              insts = lists.insts;
              constraints = frame.constraints;
              rcs = lists.rcs;
            }) }
        ensures { IfOk result
            (λ store. store.design
            ≡ record {
              early = frame.early;
              late = frame.late;
              ports = frame.ports;
              nets = lists.nets;
              insts = lists.insts;
              constraints = frame.constraints;
              rcs = lists.rcs;
            }) }
    {
        match names_of(alloc, &frame, &lists.nets, &lists.insts) {
            Ok(names) => Store::of_names(alloc, frame, names, lists),
            Err(wanting) => {
                frame.discard();
                lists.discard();
                Err(wanting)
            }
        }
    }

    /// The store of a linked design, in time of its pins. It fails for want of memory alone.
    #[tactic(auto, using(crate::proofs::NewStores::store_ready))]
    pub fn of(alloc: Global, design: Design) -> Result<Store, Memory>
        requires linked { IsLinked design }
        requires sized { IsSized design }
        ensures { IfOk result (λ store. store.design ≡ design) }
    {
        let Design {
            early,
            late,
            ports,
            nets,
            insts,
            constraints,
            rcs,
        } = design;
        let lists = Lists { nets, insts, rcs };
        match frame_of(alloc, early, late, ports, constraints) {
            Ok(frame) => Store::of_lists(alloc, frame, lists),
            Err(wanting) => {
                lists.discard();
                Err(wanting)
            }
        }
    }

    /// Gives the store up.
    pub fn discard(self) {
        let Store {
            frame,
            names,
            rows,
            orders,
        } = self;
        frame.discard();
        names.discard();
        rows.discard();
        orders.discard();
    }

    /// A copy, which shares what neither changes.
    pub fn copy(&self) -> Result<Store, Memory>
        ensures { IfOk result (λ copy. copy ≡ self.now) }
    {
        let frame = self.frame.share()?;
        match self.names.copy() {
            Ok(names) => match self.rows.copy() {
                Ok(rows) => match self.orders.copy() {
                    Ok(orders) => Ok(Store {
                        frame,
                        names,
                        rows,
                        orders,
                    }),
                    Err(wanting) => {
                        give_up(frame, names);
                        rows.discard();
                        Err(wanting)
                    }
                },
                Err(wanting) => {
                    give_up(frame, names);
                    Err(wanting)
                }
            },
            Err(wanting) => {
                frame.discard();
                Err(wanting)
            }
        }
    }

    /// What every store keeps, told to the proofs of callers; the call does nothing.
    pub fn laws(&self)
        ensures numbered { IsNumbered self.now }
        ensures linked { IsLinked self.now.design }
    {
        let _ = &self.frame;
    }

    /// The number of an instance; none exactly where no instance has that name. Takes no memory.
    pub fn inst(&self, name: &Name) -> Option<u32>
        ensures { result ≡ number_of self.now.insts name.now }
    {
        self.names.insts.number(name)
    }

    /// The number of a net; none exactly where no net has that name. Takes no memory.
    pub fn net(&self, name: &Name) -> Option<u32>
        ensures { result ≡ number_of self.now.nets name.now }
    {
        self.names.nets.number(name)
    }

    /// The number of a pin; none exactly where no pin has that name. Takes no memory.
    pub fn pin(&self, name: &Name) -> Option<u32>
        ensures { result ≡ number_of self.now.pins name.now }
    {
        self.names.pins.number(name)
    }

    /// The number of the net that a pin is on; none exactly where it is on no net. Takes no memory.
    pub fn net_of(&self, pin: u32) -> Option<u32>
        requires { is_number self.now.pins pin ≡ true }
        ensures value { result ≡ net_number self.now pin }
        ensures none { is_some result
            ≡ is_some (option_and_then net_of (pin_numbered self.now pin)) }
        ensures net { IfSome result (λ net. is_number self.now.nets net ≡ true) }
    {
        self.pin_row(pin).net
    }

    /// A number above that of every instance.
    pub fn inst_bound(&self) -> u32
        ensures bound { result ≡ length self.now.insts }
        ensures below { result < 2 ^ 31 }
    {
        self.names.insts.bound()
    }

    /// A number above that of every net.
    pub fn net_bound(&self) -> u32
        ensures bound { result ≡ length self.now.nets }
        ensures below { result < 2 ^ 31 }
    {
        self.names.nets.bound()
    }

    /// A number above that of every pin.
    pub fn pin_bound(&self) -> u32
        ensures bound { result ≡ length self.now.pins }
        ensures below { result < 2 ^ 31 }
    {
        self.names.pins.bound()
    }

    /// Whether a number is that of an instance.
    pub fn has_inst(&self, inst: u32) -> bool
        ensures { result ≡ is_number self.now.insts inst }
    {
        self.names.insts.has(inst)
    }

    /// Whether a number is that of a net.
    pub fn has_net(&self, net: u32) -> bool
        ensures { result ≡ is_number self.now.nets net }
    {
        self.names.nets.has(net)
    }

    /// Whether a number is that of a pin.
    pub fn has_pin(&self, pin: u32) -> bool
        ensures { result ≡ is_number self.now.pins pin }
    {
        self.names.pins.has(pin)
    }

    /// The instance of a number.
    pub fn inst_at(&self, inst: u32) -> &Inst
        requires { is_number self.now.insts inst ≡ true }
        ensures value { inst_numbered self.now inst ≡ Some result.now }
        ensures name { name_at self.now.insts inst ≡ Some result.now.name }
    {
        self.inst_row(inst).inst()
    }

    /// The cell of an instance in the library of a split.
    pub fn cell_at(&self, inst: u32, split: Split) -> &Cell
        requires { is_number self.now.insts inst ≡ true }
        ensures { option_and_then (cell_of self.now.design split) (inst_numbered self.now inst)
            ≡ Some result.now }
    {
        let row = self.inst_row(inst);
        match split {
            Split::Early => row.early_cell(self.frame.get()).unwrap(),
            Split::Late => row.late_cell(self.frame.get()).unwrap(),
        }
    }

    /// The cells of the late library.
    pub fn late_cells(&self) -> &[Cell]
        ensures { result.now ≡ self.now.design.late.cells }
    {
        self.frame.get().late.library().cells.as_slice()
    }

    /// The name of a net.
    pub fn net_name(&self, net: u32) -> &Name
        requires { is_number self.now.nets net ≡ true }
        ensures { name_at self.now.nets net ≡ Some result.now }
    {
        self.names.nets.name(net)
    }

    /// The numbers of the pins on a net, each once, in no order that is told.
    pub fn net_pins(&self, net: u32) -> &[u32]
        requires { is_number self.now.nets net ≡ true }
        ensures { (pin : ℕ) → count_by (nat_eq pin) result.now
            ≡ (if is_on_number self.now net pin then 1 else 0) }
    {
        self.rows.net_pins.get(net as usize).get().as_slice()
    }

    /// The parasitics of a net; none exactly where the design has none of it.
    pub fn net_rc(&self, net: u32) -> Option<&NetRc>
        requires { is_number self.now.nets net ≡ true }
        ensures { option_copied result
            ≡ option_and_then (rc_of self.now.design) (name_at self.now.nets net) }
    {
        match row_at(&self.rows.rcs, net) {
            Some(rc) => Some(rc.get()),
            None => None,
        }
    }

    /// The name of a pin: a port's, or `instance:pin`.
    pub fn pin_name(&self, pin: u32) -> &Name
        requires { is_number self.now.pins pin ≡ true }
        ensures { name_at self.now.pins pin ≡ Some result.now }
    {
        self.names.pins.name(pin)
    }

    /// The number of the instance that has a pin; none exactly for a port.
    pub fn inst_of(&self, pin: u32) -> Option<u32>
        requires { is_number self.now.pins pin ≡ true }
        ensures value { result ≡ owner_number self.now pin }
        ensures none { is_some result
            ≡ is_some (option_and_then (λ p. p.owner) (pin_numbered self.now pin)) }
        ensures inst { IfSome result (λ inst. is_number self.now.insts inst ≡ true) }
    {
        self.pin_row(pin).owner
    }

    /// The direction of a pin, as its cell or, of a port, the module has it.
    pub fn dir_of(&self, pin: u32) -> Dir
        requires { is_number self.now.pins pin ≡ true }
        ensures { option_map (λ p. p.dir) (pin_numbered self.now pin) ≡ Some result }
    {
        self.pin_row(pin).dir
    }

    /// The ports of the design, in the order of the module.
    pub fn ports(&self) -> &[Port]
        ensures { result.now ≡ self.now.design.ports }
    {
        self.frame.get().ports.as_slice()
    }

    /// The constraints of the design.
    pub fn constraints(&self) -> &Constraints
        ensures { result.now ≡ self.now.design.constraints }
    {
        &self.frame.get().constraints
    }

    /// The row of a pin.
    fn pin_row(&self, pin: u32) -> &PinRow
        requires { is_number self.now.pins pin ≡ true }
        ensures { TellsPin self.now pin result.now }
    {
        self.rows.pins.get(pin as usize)
    }

    /// The row of an instance.
    fn inst_row(&self, inst: u32) -> &InstRow
        requires { is_number self.now.insts inst ≡ true }
        ensures { TellsInst self.now inst result.now }
    {
        match row_at(&self.rows.insts, inst) {
            Some(inst) => inst.get(),
            None => unreachable!(),
        }
    }
}

/// Look-ups by names, for the checks of edits.
impl Store {
    /// The cell of a name in the early library.
    pub(crate) fn early_cell(&self, name: &Name) -> Option<&Cell>
        ensures { option_copied result ≡ cell_named self.now.design.early.cells name.now }
    {
        self.frame.get().early.cell(name)
    }

    /// The cell of a name in the late library.
    pub(crate) fn late_cell(&self, name: &Name) -> Option<&Cell>
        ensures { option_copied result ≡ cell_named self.now.design.late.cells name.now }
    {
        self.frame.get().late.cell(name)
    }

    /// The instance of a name.
    pub(crate) fn inst_named(&self, name: &Name) -> Option<&Inst>
        ensures { option_copied result ≡ inst_named self.now.design.insts name.now }
    {
        self.laws();
        match self.inst(name) {
            Some(inst) => Some(self.inst_at(inst)),
            None => None,
        }
    }

    /// What is no name is the name of no instance; told to the proofs of callers.
    fn nameless(&self, bytes: &[u8])
        requires { is_name bytes.now ≡ false }
        ensures { inst_named self.now.design.insts bytes.now ≡ None }
    {
        self.laws();
        self.names.insts.nameless(bytes);
    }

    /// The instance that goes by these bytes.
    pub(crate) fn inst_called(&self, alloc: Global, bytes: &[u8]) -> Result<Option<&Inst>, Memory>
        ensures { IfOk result
            (λ inst. option_copied inst ≡ inst_named self.now.design.insts bytes.now) }
    {
        match Name::from_bytes(alloc, bytes)? {
            Some(name) => Ok(self.inst_named(&name)),
            None => {
                self.nameless(bytes);
                Ok(None)
            }
        }
    }

    /// Whether a net has a port or a pin; the net by its name and its number.
    pub(crate) fn has_pins(&self, name: &Name, net: u32) -> bool
        requires { number_of self.now.nets name.now ≡ Some net }
        ensures { result ≡ net_in_use self.now.design name.now }
    {
        self.laws();
        let _ = name;
        !self.net_pins(net).is_empty()
    }
}
