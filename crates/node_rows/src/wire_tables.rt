//! The tables of the loads of all nets and of the wires to their sinks.

ghost use Rattle.rc_tree.specs.declared.faults.RcFault.TheVariants as rc_fault;
ghost use Rattle.std.specs.Prelude.{◌≡◌, ◌⊎◌, ◌+◌, ◌≤◌, Bool, ℕ, length, replicate, true, false, None, Some, All, option_map, option_and_then, IfOk, IfErr, OnOk};
ghost use Rattle.std.specs.List.{range_with_len};
ghost use Rattle.std.specs.Option.{option_copied, option_map_or, unwrap_or};
ghost use Rattle.sta_units.specs.Numbers.{is_within};
ghost use Rattle.timing_defs.specs.declared.kinds.Split.TheVariants.{Early, Late};
ghost use Rattle.timing_defs.specs.Wires.{is_lumped, rc_of, net_load};
ghost use Rattle.timing_rules.specs.Range.{is_net_origin};
ghost use Rattle.timing_defs.specs.NetChecks.{has_cycle};
ghost use Rattle.netlist_store.specs.Numbering.{is_number, name_at};
ghost use Rattle.rc_tree.specs.Trees.{Told, IsMeasured, IsTreeOf, is_unreached, is_too_large, is_out_of_range};
ghost use Rattle.level_workers.specs.Mapped.{IsMap};
ghost use Rattle.node_rows.specs.PortTables.{ArePorts};
ghost use Rattle.node_rows.specs.NetPins.{IsOnNet};
ghost use Rattle.node_rows.specs.WireTables.{AreWires};
ghost use Rattle.node_rows.specs.NetTrees.{IsSoundNets, IsTreeNet, IsSplitTree, AreTrees, AreUpTo, IsLarge, late_of, is_wide_net, is_wide_tree};
ghost use Rattle.node_rows.specs.FoundNets.{IsFoundNet, IsNetAnswer};
ghost use Rattle.node_rows.specs.Evaluation.{IsUnfit};

use crate::found_nets::{FoundNet, put_found};
use crate::loads::{bare_load, lumped_load};
use crate::net_trees::{NetTrees, driver_of, have_one_cap, pin_caps, wires_to};
use crate::pin_wires::{NetLoad, PinWire, Wires};
use crate::ports::Ports;
use crate::unfit::Unfit;
use cow_table::CowTable;
use level_workers::map_level;
use netlist_store::Store;
use rc_tree::{RcFault, Tree};
use sta_outside::NoGate;
use sta_units::{Af, Memory};
use std::alloc::Global;
use std::thread::Threads;
use store_pins::pins_on;
use timing_defs::{Fault, Items, Name, NetRc, PinCap, Place, Split};

/// Why a tree is not made: memory is wanting, or a quantity of it leaves its limit.
fn unfit_of(fault: RcFault) -> Unfit
    ensures { (wide : Bool) → (fault ≡ rc_fault.Memory) ⊎ (wide ≡ true) → IsUnfit wide result }
{
    match fault {
        RcFault::Memory => Unfit::Memory,
        RcFault::Loop | RcFault::Unreached | RcFault::TooLarge | RcFault::OutOfRange =>
            Unfit::Range,
    }
}

/// The tree of a net whose resistors form one. `Range` exactly where a total or a delay leaves its
/// limit.
fn tree_of(alloc: Global, net: &NetRc, root: &Name, caps: &Items<PinCap>) -> Result<Tree, Unfit>
    requires measured { IsMeasured net.now root.now caps.now }
    requires acyclic { has_cycle net.now ≡ false }
    requires reached { is_unreached net.now root.now ≡ false }
    requires small { is_too_large net.now root.now caps.now ≡ false }
    ensures tree { IfOk result (IsTreeOf net.now root.now caps.now) }
    ensures fine { OnOk result (is_out_of_range net.now root.now caps.now ≡ false) }
    ensures err { IfErr result (IsUnfit (is_out_of_range net.now root.now caps.now)) }
{
    match Tree::of(alloc, net, root, caps) {
        Ok(tree) => Ok(tree),
        Err(fault) => Err(unfit_of(fault)),
    }
}

/// The tree of a net with resistors in a split, from its driver. `Range` exactly where a total or a
/// delay leaves its limit in the split.
fn split_tree(
    alloc: Global,
    store: &Store,
    ports: &Ports,
    split: Split,
    rc: &NetRc,
    root: u32,
    pins: &[u32],
) -> Result<Tree, Unfit>
    requires net { IsTreeNet store.now rc.now root pins.now }
    requires ports { ArePorts store.now.design.constraints ports.now }
    ensures tree { IfOk result (IsSplitTree store.now rc.now root pins.now split) }
    ensures fine { OnOk result (is_wide_tree store.now rc.now root pins.now split ≡ false) }
    ensures err { IfErr result (IsUnfit (is_wide_tree store.now rc.now root pins.now split)) }
{
    store.laws();
    let name = store.pin_name(root);
    let caps = pin_caps(alloc, store, ports, split, pins)?;
    tree_of(alloc, rc, name, &caps)
}

/// The late tree of a net with resistors where a pin's capacitances differ; none where the early tree is
/// that of both splits. `Range` only where a total or a delay leaves its limit late.
fn own_late_tree(
    alloc: Global,
    store: &Store,
    ports: &Ports,
    rc: &NetRc,
    root: u32,
    pins: &[u32],
) -> Result<Option<Tree>, Unfit>
    requires net { IsTreeNet store.now rc.now root pins.now }
    requires ports { ArePorts store.now.design.constraints ports.now }
    ensures tree { IfOk result
        (λ late. (early : Told) → IsSplitTree store.now rc.now root pins.now Early early
        → IsSplitTree store.now rc.now root pins.now Late (unwrap_or late early)) }
    ensures fine { OnOk result
        (is_wide_tree store.now rc.now root pins.now Early ≡ false
        → is_wide_tree store.now rc.now root pins.now Late ≡ false) }
    ensures err { IfErr result (IsUnfit (is_wide_tree store.now rc.now root pins.now Late)) }
{
    store.laws();
    if have_one_cap(store, ports, pins) {
        return Ok(None);
    }
    let late = split_tree(alloc, store, ports, Split::Late, rc, root, pins)?;
    Ok(Some(late))
}

/// The trees of a net with resistors, from its driver. `Range` exactly where a total or a delay of the
/// net leaves its limit.
fn net_trees(
    alloc: Global,
    store: &Store,
    ports: &Ports,
    rc: &NetRc,
    root: u32,
    pins: &[u32],
) -> Result<NetTrees, Unfit>
    requires net { IsTreeNet store.now rc.now root pins.now }
    requires ports { ArePorts store.now.design.constraints ports.now }
    ensures trees { IfOk result (AreTrees store.now rc.now root pins.now) }
    ensures fine { OnOk result (is_net_origin store.now.design rc.now.net ≡ false) }
    ensures err { IfErr result (IsUnfit (is_net_origin store.now.design rc.now.net)) }
{
    store.laws();
    let early = split_tree(alloc, store, ports, Split::Early, rc, root, pins)?;
    let late = own_late_tree(alloc, store, ports, rc, root, pins)?;
    Ok(NetTrees { early, late })
}

/// The pin that drives a net with resistors.
fn tree_root(store: &Store, net: u32, rc: &NetRc, pins: &[u32]) -> u32
    requires sound { IsSoundNets store.now }
    requires rc { option_and_then (rc_of store.now.design) (name_at store.now.nets net)
        ≡ Some rc.now }
    requires ress { is_lumped rc.now ≡ false }
    requires numbers { All (λ pin. is_number store.now.pins pin ≡ true) pins.now }
    requires on { IsOnNet store.now net pins.now }
    ensures { IsTreeNet store.now rc.now result pins.now }
{
    store.laws();
    // The number and the parasitics are asked for by the contract alone.
    let _ = net;
    let _ = rc;
    match driver_of(store, pins) {
        Some(root) => root,
        None => unreachable!(),
    }
}

/// The loads that the trees of a net tell.
fn tree_load(trees: &NetTrees) -> NetLoad
    ensures early { result.early.0 ≡ trees.now.early.load }
    ensures late { result.late.0 ≡ (late_of trees.now).load }
{
    NetLoad {
        early: trees.early.load(),
        late: trees.late_tree().load(),
    }
}

/// What is found of a net with resistors.
fn found_tree(
    alloc: Global,
    store: &Store,
    ports: &Ports,
    net: u32,
    rc: &NetRc,
) -> Result<FoundNet, Unfit>
    requires sound { IsSoundNets store.now }
    requires net { is_number store.now.nets net ≡ true }
    requires rc { option_and_then (rc_of store.now.design) (name_at store.now.nets net)
        ≡ Some rc.now }
    requires ress { is_lumped rc.now ≡ false }
    requires ports { ArePorts store.now.design.constraints ports.now }
    ensures found { IfOk result (IsFoundNet store.now net) }
    ensures err { IfErr result (IsUnfit (is_wide_net store.now net)) }
{
    store.laws();
    let pins = pins_on(store, net);
    let root = tree_root(store, net, rc, pins);
    let trees = net_trees(alloc, store, ports, rc, root, pins)?;
    let wires = wires_to(alloc, store, &trees, pins)?;
    Ok(FoundNet {
        load: tree_load(&trees),
        wires,
    })
}

/// The loads of a net without parasitics. `Range` exactly where one leaves its limit.
fn bare_loads(store: &Store, ports: &Ports, net: u32) -> Result<NetLoad, Unfit>
    requires net { is_number store.now.nets net ≡ true }
    requires bare { option_and_then (rc_of store.now.design) (name_at store.now.nets net) ≡ None }
    requires ports { ArePorts store.now.design.constraints ports.now }
    ensures early { IfOk result
        (λ load. option_map (net_load store.now.design Early) (name_at store.now.nets net)
        ≡ Some load.early.0) }
    ensures late { IfOk result
        (λ load. option_map (net_load store.now.design Late) (name_at store.now.nets net)
        ≡ Some load.late.0) }
    ensures early_within { IfOk result (λ load. is_within load.early.0 ≡ true) }
    ensures late_within { IfOk result (λ load. is_within load.late.0 ≡ true) }
    ensures err { IfErr result (IsUnfit (is_wide_net store.now net)) }
{
    let early = bare_load(store, ports, Split::Early, net)?;
    let late = bare_load(store, ports, Split::Late, net)?;
    Ok(NetLoad {
        early: Af(early),
        late: Af(late),
    })
}

/// The loads of a net with parasitics but without resistors. `Range` exactly where one leaves its limit.
fn lumped_loads(store: &Store, ports: &Ports, net: u32, rc: &NetRc) -> Result<NetLoad, Unfit>
    requires net { is_number store.now.nets net ≡ true }
    requires rc { option_and_then (rc_of store.now.design) (name_at store.now.nets net)
        ≡ Some rc.now }
    requires ports { ArePorts store.now.design.constraints ports.now }
    ensures early { IfOk result
        (λ load. option_map (net_load store.now.design Early) (name_at store.now.nets net)
        ≡ Some load.early.0) }
    ensures late { IfOk result
        (λ load. option_map (net_load store.now.design Late) (name_at store.now.nets net)
        ≡ Some load.late.0) }
    ensures early_within { IfOk result (λ load. is_within load.early.0 ≡ true) }
    ensures late_within { IfOk result (λ load. is_within load.late.0 ≡ true) }
    ensures err { IfErr result (IsUnfit (is_wide_net store.now net)) }
{
    let early = lumped_load(store, ports, Split::Early, net, rc)?;
    let late = lumped_load(store, ports, Split::Late, net, rc)?;
    Ok(NetLoad {
        early: Af(early),
        late: Af(late),
    })
}

/// The loads of a net without resistors. `Range` exactly where one leaves its limit.
fn plain_loads(store: &Store, ports: &Ports, net: u32, rc: Option<&NetRc>) -> Result<NetLoad, Unfit>
    requires net { is_number store.now.nets net ≡ true }
    requires rc { option_copied rc
        ≡ option_and_then (rc_of store.now.design) (name_at store.now.nets net) }
    requires ports { ArePorts store.now.design.constraints ports.now }
    ensures early { IfOk result
        (λ load. option_map (net_load store.now.design Early) (name_at store.now.nets net)
        ≡ Some load.early.0) }
    ensures late { IfOk result
        (λ load. option_map (net_load store.now.design Late) (name_at store.now.nets net)
        ≡ Some load.late.0) }
    ensures early_within { IfOk result (λ load. is_within load.early.0 ≡ true) }
    ensures late_within { IfOk result (λ load. is_within load.late.0 ≡ true) }
    ensures err { IfErr result (IsUnfit (is_wide_net store.now net)) }
{
    match rc {
        None => bare_loads(store, ports, net),
        Some(rc) => lumped_loads(store, ports, net, rc),
    }
}

/// What is found of a net without resistors.
fn found_plain(
    alloc: Global,
    store: &Store,
    ports: &Ports,
    net: u32,
    rc: Option<&NetRc>,
) -> Result<FoundNet, Unfit>
    requires sound { IsSoundNets store.now }
    requires net { is_number store.now.nets net ≡ true }
    requires rc { option_copied rc
        ≡ option_and_then (rc_of store.now.design) (name_at store.now.nets net) }
    requires lumped { option_map_or is_lumped (option_copied rc) true ≡ true }
    requires ports { ArePorts store.now.design.constraints ports.now }
    ensures found { IfOk result (IsFoundNet store.now net) }
    ensures err { IfErr result (IsUnfit (is_wide_net store.now net)) }
{
    let load = plain_loads(store, ports, net, rc)?;
    Ok(FoundNet {
        load,
        wires: Items::new(alloc),
    })
}

/// What is found of a number that is no net's.
fn found_gap(alloc: Global, store: &Store, net: u32) -> FoundNet
    requires { is_number store.now.nets net ≡ false }
    ensures { IsFoundNet store.now net result }
{
    // The store and the number are asked for by the contract alone.
    let _ = store;
    let _ = net;
    FoundNet {
        load: NetLoad {
            early: Af(0),
            late: Af(0),
        },
        wires: Items::new(alloc),
    }
}

/// What is found of a number. `Range` exactly where a quantity of its net leaves its limit.
pub(crate) fn found_net(
    alloc: Global,
    store: &Store,
    ports: &Ports,
    net: u32,
) -> Result<FoundNet, Unfit>
    requires sound { IsSoundNets store.now }
    requires ports { ArePorts store.now.design.constraints ports.now }
    ensures found { IfOk result (IsFoundNet store.now net) }
    ensures err { IfErr result (IsUnfit (is_wide_net store.now net)) }
{
    if !store.has_net(net) {
        return Ok(found_gap(alloc, store, net));
    }
    match store.net_rc(net) {
        Some(rc) => {
            if rc.ress.is_empty() {
                found_plain(alloc, store, ports, net, Some(rc))
            } else {
                found_tree(alloc, store, ports, net, rc)
            }
        }
        None => found_plain(alloc, store, ports, net, None),
    }
}

/// The numbers below a bound.
fn numbers_below(alloc: Global, bound: u32) -> Result<Items<u32>, Memory>
    ensures { IfOk result (λ numbers. numbers ≡ range_with_len 0 bound) }
{
    let mut numbers = Items::with_room(alloc, bound as usize)?;
    for number in 0..bound {
        numbers.push(number)?;
    }
    Ok(numbers)
}

/// What is found of some numbers, by several threads.
fn answers_of<H: Threads + Sync>(
    rt: &H,
    alloc: Global,
    store: &Store,
    ports: &Ports,
    workers: u32,
    nets: &[u32],
) -> Result<Items<Result<FoundNet, Unfit>>, Memory>
    requires some { 1 ≤ workers }
    requires most { workers ≤ 32 }
    requires sound { IsSoundNets store.now }
    requires ports { ArePorts store.now.design.constraints ports.now }
    ensures { IfOk result (IsMap (IsNetAnswer store.now) nets.now) }
{
    let find = |net: &u32| -> Result<Result<FoundNet, Unfit>, Memory>
        requires { IsSoundNets store.now × ArePorts store.now.design.constraints ports.now }
        ensures { IfOk result (IsNetAnswer store.entry.now net.now) }
    { Ok(found_net(alloc, store, ports, *net)) };
    map_level(rt, alloc, workers, 0, nets, &find, &NoGate)
}

/// What is found of all nets, by several threads.
fn net_answers<H: Threads + Sync>(
    rt: &H,
    alloc: Global,
    store: &Store,
    ports: &Ports,
    workers: u32,
) -> Result<Items<Result<FoundNet, Unfit>>, Memory>
    requires some { 1 ≤ workers }
    requires most { workers ≤ 32 }
    requires sound { IsSoundNets store.now }
    requires ports { ArePorts store.now.design.constraints ports.now }
    ensures { IfOk result
        (IsMap (IsNetAnswer store.now) (range_with_len 0 (length store.now.nets))) }
{
    let nets = numbers_below(alloc, store.net_bound())?;
    answers_of(rt, alloc, store, ports, workers, nets.as_slice())
}

/// A table without wires, of that many pins, made by several threads.
fn no_wires<H: Threads + Sync>(
    rt: &H,
    alloc: Global,
    workers: u32,
    pins: u32,
) -> Result<CowTable<Option<PinWire>>, Memory>
    ensures { IfOk result (λ wires. wires ≡ replicate pins None) }
{
    CowTable::filled(rt, alloc, workers, pins as usize, &None)
}

/// The fault of a net: it is too large, or memory is wanting.
pub(crate) fn fault_of(alloc: Global, store: &Store, net: u32, unfit: Unfit) -> Fault
    requires { IsUnfit (is_wide_net store.now net) unfit }
    ensures { IsLarge store.now.design result }
{
    store.laws();
    match unfit {
        Unfit::Memory => Fault::Memory,
        Unfit::Range => match store.net_name(net).copied(alloc) {
            Ok(name) => Fault::OutOfRange(Place::Net(name)),
            Err(_) => Fault::Memory,
        },
    }
}

/// Puts what is found of a number into the tables.
fn put_answer(
    alloc: Global,
    store: &Store,
    wires: &mut Wires,
    net: u32,
    answer: &Result<FoundNet, Unfit>,
) -> Result<(), Fault>
    requires answer { IsNetAnswer store.now net answer.now }
    requires before { AreUpTo store.now wires.old net }
    ensures after { OnOk result (AreUpTo store.now wires.new (net + 1)) }
    ensures fine { OnOk result (is_wide_net store.now net ≡ false) }
    ensures err { IfErr result (IsLarge store.now.design) }
{
    match answer {
        Ok(found) => Ok(put_found(store, wires, net, found)?),
        Err(unfit) => Err(fault_of(alloc, store, net, *unfit)),
    }
}

impl Wires {
    /// The loads of all nets and the wires to their sinks, each net in time of its pins and parasitics,
    /// the nets shared between that many threads. The tables are the same whatever the number of workers.
    /// `OutOfRange` at a net where its total resistance, its total capacitance or a wire delay leaves its
    /// limit, and only there.
    pub fn of<H: Threads + Sync>(
        rt: &H,
        alloc: Global,
        store: &Store,
        ports: &Ports,
        workers: u32,
    ) -> Result<Wires, Fault>
        requires some { 1 ≤ workers }
        requires most { workers ≤ 32 }
        requires sound { IsSoundNets store.now }
        requires ports { ArePorts store.now.design.constraints ports.now }
        ensures wires { IfOk result (AreWires store.now) }
        ensures fine { OnOk result ((net : ℕ) → is_wide_net store.now net ≡ false) }
        ensures err { IfErr result (IsLarge store.now.design) }
    {
        store.laws();
        let found = net_answers(rt, alloc, store, ports, workers)?;
        let answers = found.as_slice();
        let mut wires = Wires {
            loads: CowTable::new(alloc),
            pins: no_wires(rt, alloc, workers, store.pin_bound())?,
        };
        for net in 0..store.net_bound() {
            put_answer(alloc, store, &mut wires, net, &answers[net as usize])?;
        }
        Ok(wires)
    }
}
