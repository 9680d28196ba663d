//! The module that a text writes.

ghost use Rattle.std.specs.Prelude.{◌≡◌, ◌++◌, ◌∷◌, [], List, ℕ, true, is_some, map, Some, None, IfOk, MatchOption, if◌then◌else◌};
ghost use Rattle.timing_defs.specs.declared.netlist.Conn.{Conn};
ghost use Rattle.verilog_netlist.specs.declared.events.Event.{Event};
ghost use Rattle.verilog_netlist.specs.declared.events.Event.TheVariants as event;
ghost use Rattle.verilog_netlist.specs.Nets.{nets_of};
ghost use Rattle.verilog_netlist.specs.Modules.{dir_of, port_of, ports_of, net_name, conns_of, insts_of, begun_insts, module_name, module_nets, module_of};

use crate::events::{Event, Kind, Net, Role};
use crate::names::nets_of;
use crate::nets::NetSet;
use sta_units::{Memory, Pair, both};
use std::alloc::Global;
use std::mem;
use timing_defs::{Conn, Dir, Inst, Items, Module, Name, Port};

fn dir_of(role: Role) -> Dir
    ensures { result ≡ dir_of role }
{
    if role.is_output() {
        Dir::Output
    } else {
        Dir::Input
    }
}

/// Adds the ports of a declared name.
#[tactic(auto, using(std::proofs::lemmas::List::drop_more))]
fn add_ports(alloc: Global, ports: &mut Items<Port>, dir: Dir, names: &[Name]) -> Result<(), Memory>
    ensures { IfOk result (λ _. ports.new ≡ ports.old ++ map (port_of dir) names.now) }
{
    for name in names {
        ports.push(Port {
            name: name.copied(alloc)?,
            dir,
        })?;
    }
    Ok(())
}

#[tactic(auto, unfolding(crate::specs::Modules::ports_of))]
fn add_declared(alloc: Global, ports: &mut Items<Port>, event: &Event) -> Result<(), Memory>
    ensures { IfOk result
        (λ _. (rest : List Event) → ports.new ++ ports_of rest
        ≡ ports.old ++ ports_of (event.now ∷ rest)) }
{
    match event {
        Event::Declared(kind, name, _) => {
            if !kind.role.is_port() {
                return Ok(());
            }
            let names = nets_of(alloc, kind.span, name)?;
            let added = add_ports(alloc, ports, dir_of(kind.role), names.as_slice());
            drop(names);
            added
        }
        _ => Ok(()),
    }
}

/// The ports, in the order in which the text gives them their directions.
#[tactic(auto, unfolding(crate::specs::Modules::ports_of), using(std::proofs::lemmas::List::drop_more))]
fn ports_of(alloc: Global, events: &[Event]) -> Result<Items<Port>, Memory>
    ensures { IfOk result (λ ports. ports ≡ ports_of events.now) }
{
    let mut ports = Items::new(alloc);
    for event in events {
        match add_declared(alloc, &mut ports, event) {
            Ok(()) => {}
            Err(wanting) => {
                drop(ports);
                return Err(wanting);
            }
        }
    }
    Ok(ports)
}

/// The net of a connection; none for a constant or nothing.
fn net_name(net: Net) -> Option<Name>
    ensures { result ≡ net_name net }
{
    match net {
        Net::Tied => None,
        Net::Alone(name, _) | Net::Bit(name, _) => Some(name),
    }
}

/// Begins an instance; the one that had begun before has all its connections.
#[tactic(auto, unfolding(crate::specs::Modules::insts_of, crate::specs::Modules::conns_of))]
fn begin(
    alloc: Global,
    insts: &mut Items<Inst>,
    begun: &mut Option<Inst>,
    cell: Name,
    name: Name,
) -> Result<(), Memory>
    ensures { IfOk result
        (λ _. (at : ℕ) (rest : List Event) → insts.new ++ begun_insts begun.new rest
        ≡ insts.old ++ begun_insts begun.old (event.Instance cell name at ∷ rest)) }
{
    let inst = Inst {
        name,
        cell,
        conns: Items::new(alloc),
    };
    match mem::replace(begun, Some(inst)) {
        None => Ok(()),
        Some(before) => insts.push(before),
    }
}

/// Adds a connection to the instance that has begun, where one has.
#[tactic(auto, unfolding(crate::specs::Modules::insts_of, crate::specs::Modules::conns_of))]
fn join(begun: &mut Option<Inst>, pin: Name, net: Net) -> Result<(), Memory>
    ensures { IfOk result
        (λ _. (rest : List Event) → begun_insts begun.new rest
        ≡ begun_insts begun.old (event.Connection pin net ∷ rest)) }
{
    match begun {
        None => {
            drop(pin);
            drop(net);
            Ok(())
        }
        Some(inst) => inst.conns.push(Conn {
            pin,
            net: net_name(net),
        }),
    }
}

/// Takes an event.
#[tactic(auto, unfolding(crate::specs::Modules::insts_of, crate::specs::Modules::conns_of))]
fn take_event(
    alloc: Global,
    insts: &mut Items<Inst>,
    begun: &mut Option<Inst>,
    event: Event,
) -> Result<(), Memory>
    ensures { IfOk result
        (λ _. (rest : List Event) → insts.new ++ begun_insts begun.new rest
        ≡ insts.old ++ begun_insts begun.old (event ∷ rest)) }
{
    match event {
        Event::Instance(cell, name, _) => begin(alloc, insts, begun, cell, name),
        Event::Connection(pin, net) => join(begun, pin, net),
        other => {
            drop(other);
            Ok(())
        }
    }
}

/// Adds the instance that has begun, where one has.
#[tactic(auto, unfolding(crate::specs::Modules::insts_of, crate::specs::Modules::conns_of))]
fn end(insts: &mut Items<Inst>, begun: Option<Inst>) -> Result<(), Memory>
    ensures { IfOk result (λ _. insts.new ≡ insts.old ++ begun_insts begun []) }
{
    match begun {
        None => Ok(()),
        Some(inst) => insts.push(inst),
    }
}

/// The instances, in the order of the text.
#[tactic(auto, unfolding(crate::specs::Modules::insts_of), using(crate::proofs::ModuleLemmas::begun_last))]
fn insts_of(alloc: Global, events: Vec<Event>) -> Result<Items<Inst>, Memory>
    ensures { IfOk result (λ insts. insts ≡ insts_of events.items) }
{
    let mut insts = Items::new(alloc);
    let mut begun = None;
    for event in events {
        match take_event(alloc, &mut insts, &mut begun, event) {
            Ok(()) => {}
            Err(wanting) => {
                drop(insts);
                drop(begun);
                return Err(wanting);
            }
        }
    }
    match end(&mut insts, begun) {
        Ok(()) => Ok(insts),
        Err(wanting) => {
            drop(insts);
            Err(wanting)
        }
    }
}

#[tactic(auto, unfolding(crate::specs::Modules::module_name))]
fn named(event: &Event) -> Option<&Name>
    ensures { (rest : List Event)
        → MatchOption result (module_name (event.now ∷ rest) ≡ module_name rest)
        (λ name. module_name (event.now ∷ rest) ≡ Some name.now) }
{
    match event {
        Event::Module(name) => Some(name),
        _ => None,
    }
}

/// The module's name.
#[tactic(auto, unfolding(crate::specs::Modules::module_name), using(std::proofs::lemmas::List::drop_more))]
fn module_name(alloc: Global, events: &[Event]) -> Result<Name, Memory>
    requires { is_some (module_name events.now) ≡ true }
    ensures { IfOk result (λ name. module_name events.now ≡ Some name) }
{
    for event in events {
        if let Some(name) = named(event) {
            return name.copied(alloc);
        }
    }
    unreachable!()
}

/// The module of a text without faults, of which these are the nets.
pub(crate) fn module_of(alloc: Global, events: Vec<Event>, nets: NetSet) -> Result<Module, Memory>
    requires named { is_some (module_name events.items) ≡ true }
    requires nets { nets ≡ module_nets events.items }
    ensures { IfOk result (λ module_. module_of events.items ≡ Some module_) }
{
    let head = both(
        module_name(alloc, events.as_slice()),
        ports_of(alloc, events.as_slice()),
    );
    let body = both(nets.into_items(alloc), insts_of(alloc, events));
    let Pair {
        one: head,
        other: body,
    } = both(head, body)?;
    let Pair {
        one: name,
        other: ports,
    } = head;
    let Pair {
        one: nets,
        other: insts,
    } = body;
    Ok(Module {
        name,
        ports,
        nets,
        insts,
    })
}
