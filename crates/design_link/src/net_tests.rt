//! Nets that fail a test, and the least of them.

ghost use Rattle.std.specs.Prelude.{◌≡◌, ◌++◌, ◌∷◌, [], None, true, not, filter, length, IfOk, OnOk};
ghost use Rattle.std.specs.Option.{option_copied};
ghost use Rattle.timing_defs.specs.NetChecks.{is_tree, pins_agree, net_fault, least};
ghost use Rattle.netlist_store.specs.Numbering.{name_at, is_number};
ghost use Rattle.design_link.specs.Counts.{names_below, with_name};
ghost use Rattle.design_link.specs.Failing.{IsRcOf, IsReadyFor, fails, fails_at, fails_here, least_among};

use crate::least::least_name;
use crate::net_nodes::is_large;
use crate::net_pins::driver_count;
use crate::rc_pins::pins_agree;
use crate::rooted::is_rooted;
use netlist_store::Store;
use sta_units::Memory;
use std::alloc::Global;
use store_pins::net_driver;
use timing_defs::{Items, Name, NetRc};

/// What a net is tested for.
#[derive(Clone, Copy, Drop)]
pub(crate) enum NetTest {
    /// Its parasitics have more than 65,535 nodes.
    TooManyNodes,
    /// More than one pin drives it.
    TooManyDrivers,
    /// Its parasitics are no tree from its driver.
    NoTree,
    /// Its parasitics do not name its pins.
    OtherPins,
}

/// Whether a net has parasitics with too many nodes.
fn has_many_nodes(alloc: Global, store: &Store, net: u32) -> Result<bool, Memory>
    requires { is_number store.now.nets net ≡ true }
    ensures { IfOk result (λ failing. failing ≡ fails_at NetTest.TooManyNodes store.now net) }
{
    match store.net_rc(net) {
        Some(rc) => is_large(alloc, store, net, rc),
        None => Ok(false),
    }
}

/// Whether a net has more than one driver.
fn has_many_drivers(store: &Store, net: u32) -> bool
    requires { is_number store.now.nets net ≡ true }
    ensures { result ≡ fails_at NetTest.TooManyDrivers store.now net }
{
    driver_count(store, net) > 1
}

/// Whether the parasitics of a net are a tree from its driver.
fn is_tree(alloc: Global, store: &Store, net: u32, rc: &NetRc) -> Result<bool, Memory>
    requires net { is_number store.now.nets net ≡ true }
    requires rc { IsRcOf store.now net rc.now }
    requires fault { net_fault store.now.design ≡ None }
    ensures { IfOk result (λ tree. tree ≡ is_tree store.now.design rc.now) }
{
    store.laws();
    match net_driver(store, net) {
        Some(pin) => is_rooted(alloc, rc, store.pin_name(pin)),
        None => Ok(false),
    }
}

/// Whether the parasitics of a net are no tree.
fn is_no_tree(alloc: Global, store: &Store, net: u32, rc: &NetRc) -> Result<bool, Memory>
    requires net { is_number store.now.nets net ≡ true }
    requires rc { IsRcOf store.now net rc.now }
    requires fault { net_fault store.now.design ≡ None }
    ensures { IfOk result (λ failing. failing ≡ not (is_tree store.now.design rc.now)) }
{
    let tree = is_tree(alloc, store, net, rc)?;
    Ok(!tree)
}

/// Whether the parasitics of a net do not name its pins.
fn pins_differ(alloc: Global, store: &Store, net: u32, rc: &NetRc) -> Result<bool, Memory>
    requires net { is_number store.now.nets net ≡ true }
    requires rc { IsRcOf store.now net rc.now }
    ensures { IfOk result (λ failing. failing ≡ not (pins_agree store.now.design rc.now)) }
{
    let agree = pins_agree(alloc, store, net, rc)?;
    Ok(!agree)
}

/// Whether a net has parasitics that are no tree.
fn has_no_tree(alloc: Global, store: &Store, net: u32) -> Result<bool, Memory>
    requires net { is_number store.now.nets net ≡ true }
    requires fault { net_fault store.now.design ≡ None }
    ensures { IfOk result (λ failing. failing ≡ fails_at NetTest.NoTree store.now net) }
{
    match store.net_rc(net) {
        Some(rc) => is_no_tree(alloc, store, net, rc),
        None => Ok(false),
    }
}

/// Whether a net has parasitics that do not name its pins.
fn has_other_pins(alloc: Global, store: &Store, net: u32) -> Result<bool, Memory>
    requires { is_number store.now.nets net ≡ true }
    ensures { IfOk result (λ failing. failing ≡ fails_at NetTest.OtherPins store.now net) }
{
    match store.net_rc(net) {
        Some(rc) => pins_differ(alloc, store, net, rc),
        None => Ok(false),
    }
}

/// Whether the net of a number fails a test; a gap does not.
fn fails_at(alloc: Global, store: &Store, test: NetTest, net: u32) -> Result<bool, Memory>
    requires { IsReadyFor test store.now.design }
    ensures { IfOk result (λ failing. failing ≡ fails_at test store.now net) }
{
    if !store.has_net(net) {
        return Ok(false);
    }
    match test {
        NetTest::TooManyNodes => has_many_nodes(alloc, store, net),
        NetTest::TooManyDrivers => Ok(has_many_drivers(store, net)),
        NetTest::NoTree => has_no_tree(alloc, store, net),
        NetTest::OtherPins => has_other_pins(alloc, store, net),
    }
}

/// Adds the name of a net, where it is to be added and is there.
fn add_net(
    alloc: Global,
    store: &Store,
    names: &mut Items<Name>,
    net: u32,
    failing: bool,
) -> Result<(), Memory>
    ensures { OnOk result (names.new ≡ with_name failing (name_at store.now.nets net) names.old) }
{
    if !failing {
        return Ok(());
    }
    if !store.has_net(net) {
        return Ok(());
    }
    let name = store.net_name(net).copied(alloc)?;
    names.push(name)?;
    Ok(())
}

/// The nets that fail a test.
fn failing_nets(alloc: Global, store: &Store, test: NetTest) -> Result<Items<Name>, Memory>
    requires { IsReadyFor test store.now.design }
    ensures { IfOk result
        (λ names. names
        ≡ filter (fails test store.now.design)
        (names_below store.now.nets (length store.now.nets))) }
{
    let mut names = Items::new(alloc);
    for net in 0..store.net_bound() {
        let failing = fails_at(alloc, store, test, net)?;
        add_net(alloc, store, &mut names, net, failing)?;
    }
    Ok(names)
}

/// Adds the name of a net, where it is there and fails a test.
fn add_failing(
    alloc: Global,
    store: &Store,
    test: NetTest,
    names: &mut Items<Name>,
    net: &Name,
) -> Result<(), Memory>
    requires { IsReadyFor test store.now.design }
    ensures { OnOk result
        (names.new ≡ names.old ++ filter (fails_here test store.now.design) (net.now ∷ [])) }
{
    store.laws();
    let Some(number) = store.net(net) else {
        return Ok(());
    };
    let failing = fails_at(alloc, store, test, number)?;
    if failing {
        names.push(net.copied(alloc)?)?;
    }
    Ok(())
}

/// The nets that fail a test, of some that may be there.
fn failing_of(
    alloc: Global,
    store: &Store,
    test: NetTest,
    nets: &[Name],
) -> Result<Items<Name>, Memory>
    requires { IsReadyFor test store.now.design }
    ensures { IfOk result (λ names. names ≡ filter (fails_here test store.now.design) nets.now) }
{
    let mut names = Items::new(alloc);
    for net in nets {
        add_failing(alloc, store, test, &mut names, net)?;
    }
    Ok(names)
}

/// The nets that fail a test, of all or of some.
fn failing_among(
    alloc: Global,
    store: &Store,
    test: NetTest,
    among: Option<&Items<Name>>,
) -> Result<Items<Name>, Memory>
    requires { IsReadyFor test store.now.design }
    ensures { IfOk result
        (λ names. least names ≡ least_among (option_copied among.entry) test store.now.design) }
{
    store.laws();
    match among {
        Some(nets) => failing_of(alloc, store, test, nets.as_slice()),
        None => failing_nets(alloc, store, test),
    }
}

/// The least net that fails a test, of all or of some; none where no net does.
pub(crate) fn least_net(
    alloc: Global,
    store: &Store,
    test: NetTest,
    among: Option<&Items<Name>>,
) -> Result<Option<Name>, Memory>
    requires { IsReadyFor test store.now.design }
    ensures { IfOk result
        (λ name. name ≡ least_among (option_copied among.entry) test store.now.design) }
{
    let names = failing_among(alloc, store, test, among)?;
    let least = least_name(alloc, names.as_slice())?;
    Ok(least)
}
