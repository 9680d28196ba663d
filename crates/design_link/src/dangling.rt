//! The names of constraints that stand for nothing in a design.

ghost use Rattle.std.specs.Prelude.{◌≡◌, ◌++◌, ◌∷◌, [], is_none, map, filter, IfOk, OnOk};
ghost use Rattle.std.specs.List.{filter_map, flat_map};
ghost use Rattle.std.specs.Option.{option_copied};
ghost use Rattle.timing_defs.specs.declared.kinds.Dir.TheVariants.{Input as input, Output as output};
ghost use Rattle.timing_rules.specs.Checks.{port_named, not_ports, dangling_exception};
ghost use Rattle.timing_defs.specs.NetChecks.{least};
ghost use Rattle.design_link.specs.Dangling.{dangling_ports, dangling_names};
ghost use Rattle.design_link.specs.After.{dangling_among};

use crate::objects::{add_if, add_objects, is_port, port_dir};
use netlist_store::Store;
use sta_units::Memory;
use std::alloc::Global;
use timing_defs::{Clock, Dir, Exception, Items, Name, PortDelay, PortLoad, PortSlew};

/// Adds a name, where no port has it and this direction.
fn add_port(
    alloc: Global,
    store: &Store,
    names: &mut Items<Name>,
    dir: Dir,
    name: &Name,
) -> Result<(), Memory>
    ensures { OnOk result
        (names.new ≡ names.old ++ not_ports store.now.design dir (name.now ∷ [])) }
{
    add_if(alloc, names, !is_port(store, dir, name), name)?;
    Ok(())
}

/// Adds the port of a clock, where no input port has its name.
fn add_clock(
    alloc: Global,
    store: &Store,
    names: &mut Items<Name>,
    clock: &Clock,
) -> Result<(), Memory>
    ensures { OnOk result
        (names.new
        ≡ names.old ++ not_ports store.now.design input
        (filter_map (λ c. c.port) (clock.now ∷ []))) }
{
    match &clock.port {
        Some(port) => add_port(alloc, store, names, Dir::Input, port),
        None => Ok(()),
    }
}

/// Adds the ports of clocks that are no input ports.
fn add_clocks(
    alloc: Global,
    store: &Store,
    names: &mut Items<Name>,
    clocks: &[Clock],
) -> Result<(), Memory>
    ensures { OnOk result
        (names.new
        ≡ names.old ++ not_ports store.now.design input
        (filter_map (λ clock. clock.port) clocks.now)) }
{
    for clock in clocks {
        add_clock(alloc, store, names, clock)?;
    }
    Ok(())
}

/// Adds the ports of delays that are no ports of a direction.
fn add_delays(
    alloc: Global,
    store: &Store,
    names: &mut Items<Name>,
    dir: Dir,
    delays: &[PortDelay],
) -> Result<(), Memory>
    ensures { OnOk result
        (names.new ≡ names.old ++ not_ports store.now.design dir (map (λ i. i.port) delays.now)) }
{
    for delay in delays {
        add_port(alloc, store, names, dir, &delay.port)?;
    }
    Ok(())
}

/// Adds the ports of slews that are no input ports.
fn add_slews(
    alloc: Global,
    store: &Store,
    names: &mut Items<Name>,
    slews: &[PortSlew],
) -> Result<(), Memory>
    ensures { OnOk result
        (names.new ≡ names.old ++ not_ports store.now.design input (map (λ s. s.port) slews.now)) }
{
    for slew in slews {
        add_port(alloc, store, names, Dir::Input, &slew.port)?;
    }
    Ok(())
}

/// Adds the port of a load, where no port has its name.
fn add_load(
    alloc: Global,
    store: &Store,
    names: &mut Items<Name>,
    load: &PortLoad,
) -> Result<(), Memory>
    ensures { OnOk result
        (names.new
        ≡ names.old ++ filter (λ name. is_none (port_named store.now.design name))
        (load.now.port ∷ [])) }
{
    add_if(
        alloc,
        names,
        port_dir(store, &load.port).is_none(),
        &load.port,
    )?;
    Ok(())
}

/// Adds the ports of loads that are no ports.
fn add_loads(
    alloc: Global,
    store: &Store,
    names: &mut Items<Name>,
    loads: &[PortLoad],
) -> Result<(), Memory>
    ensures { OnOk result
        (names.new
        ≡ names.old ++ filter (λ name. is_none (port_named store.now.design name))
        (map (λ l. l.port) loads.now)) }
{
    for load in loads {
        add_load(alloc, store, names, load)?;
    }
    Ok(())
}

/// Adds the words of an exception that stand for nothing.
fn add_exception(
    alloc: Global,
    store: &Store,
    names: &mut Items<Name>,
    exception: &Exception,
) -> Result<(), Memory>
    ensures { OnOk result
        (names.new ≡ names.old ++ dangling_exception store.now.design exception.now) }
{
    add_objects(alloc, store, names, Dir::Input, &exception.from)?;
    add_objects(alloc, store, names, Dir::Output, &exception.to)?;
    Ok(())
}

/// Adds the words of exceptions that stand for nothing.
fn add_exceptions(
    alloc: Global,
    store: &Store,
    names: &mut Items<Name>,
    exceptions: &[Exception],
) -> Result<(), Memory>
    ensures { OnOk result
        (names.new ≡ names.old ++ flat_map (dangling_exception store.now.design) exceptions.now) }
{
    for exception in exceptions {
        add_exception(alloc, store, names, exception)?;
    }
    Ok(())
}

/// The names of ports that are not there or have the wrong direction.
fn dangling_ports(alloc: Global, store: &Store) -> Result<Items<Name>, Memory>
    ensures { IfOk result (λ names. names ≡ dangling_ports store.now.design) }
{
    let mut names = Items::new(alloc);
    let all = store.constraints();
    add_clocks(alloc, store, &mut names, all.clocks.as_slice())?;
    add_delays(alloc, store, &mut names, Dir::Input, all.inputs.as_slice())?;
    add_slews(alloc, store, &mut names, all.slews.as_slice())?;
    add_delays(
        alloc,
        store,
        &mut names,
        Dir::Output,
        all.outputs.as_slice(),
    )?;
    add_loads(alloc, store, &mut names, all.loads.as_slice())?;
    Ok(names)
}

/// The names of exceptions that stand for nothing.
fn exception_names(alloc: Global, store: &Store) -> Result<Items<Name>, Memory>
    ensures { IfOk result
        (λ names. names
        ≡ flat_map (dangling_exception store.now.design) store.now.design.constraints.exceptions) }
{
    let mut names = Items::new(alloc);
    add_exceptions(
        alloc,
        store,
        &mut names,
        store.constraints().exceptions.as_slice(),
    )?;
    Ok(names)
}

/// All names of constraints that stand for nothing, or for a port of the wrong direction.
fn dangling_names(alloc: Global, store: &Store) -> Result<Items<Name>, Memory>
    ensures { IfOk result (λ names. names ≡ dangling_names store.now.design) }
{
    let mut names = dangling_ports(alloc, store)?;
    add_exceptions(
        alloc,
        store,
        &mut names,
        store.constraints().exceptions.as_slice(),
    )?;
    Ok(names)
}

/// The names that stand for nothing: of all constraints, or of exceptions alone, since ports stay.
pub(crate) fn dangling_among(
    alloc: Global,
    store: &Store,
    among: Option<&Items<Name>>,
) -> Result<Items<Name>, Memory>
    ensures { IfOk result
        (λ names. least names ≡ dangling_among (option_copied among.entry) store.now.design) }
{
    match among {
        Some(_) => exception_names(alloc, store),
        None => dangling_names(alloc, store),
    }
}
