//! The checks of a whole design, but those of its graph and its range; and the same after an ECO.

ghost use Rattle.std.specs.Prelude.{◌≡◌, None, option_map};
ghost use Rattle.std.specs.Option.{option_copied};
ghost use Rattle.timing_defs.specs.declared.design.Design.{Design};
ghost use Rattle.timing_defs.specs.declared.edits.Eco.{Eco};
ghost use Rattle.timing_defs.specs.declared.faults.Fault.TheVariants.{TooLarge as too_large, ManyDrivers as many_drivers, ConstraintDangling as constraint_dangling, RcNotTree as rc_not_tree, RcPinsDiffer as rc_pins_differ};
ghost use Rattle.timing_defs.specs.declared.faults.Large.TheVariants.{Net as large_net};
ghost use Rattle.timing_defs.specs.NetChecks.{net_fault};
ghost use Rattle.timing_rules.specs.Checks.{data_fault};
ghost use Rattle.netlist_store.specs.Applying.{IsChecked};
ghost use Rattle.design_link.specs.Counts.{large_count};
ghost use Rattle.design_link.specs.Failing.{least_among};
ghost use Rattle.design_link.specs.After.{IsMadeOf, net_fault_among, dangling_among, data_fault_among, link_data_fault};

use crate::counts::large_count;
use crate::dangling::dangling_among;
use crate::least::least_name;
use crate::net_tests::{NetTest, least_net};
use netlist_store::{Store, Touched};
use std::alloc::Global;
use timing_defs::{Fault, Items, Large, Name};

/// Refuses too many pins, instances or nets.
fn check_counts(store: &Store) -> Result<(), Fault>
    ensures { IsChecked result (option_map too_large (large_count store.now.design)) }
{
    match large_count(store) {
        Some(large) => Err(Fault::TooLarge(large)),
        None => Ok(()),
    }
}

/// Refuses the least net, of all or of some, whose parasitics have too many nodes.
fn check_nodes(alloc: Global, store: &Store, among: Option<&Items<Name>>) -> Result<(), Fault>
    ensures { IsChecked result
        (option_map too_large
        (option_map large_net
        (least_among (option_copied among.entry) NetTest.TooManyNodes store.now.design))) }
{
    let least = least_net(alloc, store, NetTest::TooManyNodes, among)?;
    match least {
        Some(net) => Err(Fault::TooLarge(Large::Net(net))),
        None => Ok(()),
    }
}

/// Refuses the least net, of all or of some, with more than one driver.
fn check_drivers(alloc: Global, store: &Store, among: Option<&Items<Name>>) -> Result<(), Fault>
    ensures { IsChecked result
        (option_map many_drivers
        (least_among (option_copied among.entry) NetTest.TooManyDrivers store.now.design)) }
{
    let least = least_net(alloc, store, NetTest::TooManyDrivers, among)?;
    match least {
        Some(net) => Err(Fault::ManyDrivers(net)),
        None => Ok(()),
    }
}

/// Refuses a design that is too large, or a net of all or of some.
fn check_nets_among(alloc: Global, store: &Store, among: Option<&Items<Name>>) -> Result<(), Fault>
    ensures { IsChecked result (net_fault_among (option_copied among.entry) store.now.design) }
{
    check_counts(store)?;
    check_nodes(alloc, store, among)?;
    check_drivers(alloc, store, among)
}

/// Refuses a design that is too large: more than 200,000 pins, instances or nets, in this order, or
/// else a net with parasitics of more than 65,535 nodes, the least by its bytes (`E17`). Of any other
/// it refuses the least net that more than one pin drives (`E10`). Takes as many steps as the design
/// has pins, nets and parasitics.
pub fn check_nets(alloc: Global, store: &Store) -> Result<(), Fault>
    ensures { IsChecked result (net_fault store.now.design) }
{
    check_nets_among(alloc, store, None)
}

/// What `check_nets` answers, after an ECO on a base that it accepts: `store` and `touched` are what
/// `apply` gave of the base. It looks at the nets that the ECO touched, with their pins and parasitics,
/// and at no others; pins, instances and nets are counted only where their numbers pass the limit.
pub fn check_nets_after(alloc: Global, store: &Store, touched: &Touched) -> Result<(), Fault>
    ensures { (base : Design) (eco : Eco) → IsMadeOf base eco touched.now.nets store.now.design
        → net_fault base ≡ None → IsChecked result (net_fault store.now.design) }
{
    store.laws();
    check_nets_among(alloc, store, Some(&touched.nets))
}

/// Refuses the least name of a constraint, or of an exception alone, that stands for nothing.
fn check_dangling(alloc: Global, store: &Store, among: Option<&Items<Name>>) -> Result<(), Fault>
    ensures { IsChecked result
        (option_map constraint_dangling
        (dangling_among (option_copied among.entry) store.now.design)) }
{
    let names = dangling_among(alloc, store, among)?;
    let least = least_name(alloc, names.as_slice())?;
    match least {
        Some(name) => Err(Fault::ConstraintDangling(name)),
        None => Ok(()),
    }
}

/// Refuses the least net, of all or of some, whose parasitics are no tree.
fn check_trees(alloc: Global, store: &Store, among: Option<&Items<Name>>) -> Result<(), Fault>
    requires { net_fault store.now.design ≡ None }
    ensures { IsChecked result
        (option_map rc_not_tree
        (least_among (option_copied among.entry) NetTest.NoTree store.now.design)) }
{
    let least = least_net(alloc, store, NetTest::NoTree, among)?;
    match least {
        Some(net) => Err(Fault::RcNotTree(net)),
        None => Ok(()),
    }
}

/// Refuses the least net, of all or of some, whose parasitics do not name its pins.
fn check_pins(alloc: Global, store: &Store, among: Option<&Items<Name>>) -> Result<(), Fault>
    ensures { IsChecked result
        (option_map rc_pins_differ
        (least_among (option_copied among.entry) NetTest.OtherPins store.now.design)) }
{
    let least = least_net(alloc, store, NetTest::OtherPins, among)?;
    match least {
        Some(net) => Err(Fault::RcPinsDiffer(net)),
        None => Ok(()),
    }
}

/// Refuses a dangling constraint, or the parasitics of a net of all or of some.
fn check_data_among(alloc: Global, store: &Store, among: Option<&Items<Name>>) -> Result<(), Fault>
    requires { net_fault store.now.design ≡ None }
    ensures { IsChecked result (data_fault_among (option_copied among.entry) store.now.design) }
{
    check_dangling(alloc, store, among)?;
    check_trees(alloc, store, among)?;
    check_pins(alloc, store, among)
}

/// Refuses the least name by which a constraint names a port, pin or instance that is not there or a
/// port of the wrong direction (`E13`); else the least net with parasitics that has no driver or whose
/// resistors are no tree from its driver to all nodes that it names (`E14`); else the least net whose
/// parasitics name a pin that is not on it, or that has a pin at no resistor where it has resistors
/// (`E15`). It is asked of a design that `check_nets` accepts. Takes as many steps as the design has
/// nets, parasitics and constraints.
pub fn check_data(alloc: Global, store: &Store) -> Result<(), Fault>
    requires { net_fault store.now.design ≡ None }
    ensures { IsChecked result (link_data_fault store.now.design) }
{
    check_data_among(alloc, store, None)
}

/// What `check_data` answers, after an ECO on a base in which no such fault stands: `store` and
/// `touched` are what `apply` gave of the base. It looks at the objects of exceptions, whose pins and
/// instances may have gone, and at the nets that the ECO touched, and at nothing else.
pub fn check_data_after(alloc: Global, store: &Store, touched: &Touched) -> Result<(), Fault>
    requires { net_fault store.now.design ≡ None }
    ensures { (base : Design) (eco : Eco) → IsMadeOf base eco touched.now.nets store.now.design
        → data_fault base ≡ None → IsChecked result (link_data_fault store.now.design) }
{
    store.laws();
    check_data_among(alloc, store, Some(&touched.nets))
}
