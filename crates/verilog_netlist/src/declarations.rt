//! The nets of a module, and the faults of their declarations.

ghost use Rattle.std.specs.Prelude.{◌≡◌, ◌∷◌, [], List, true, false, Some, None, IfOk, MatchResult};
ghost use Rattle.std.specs.Option.{option_to_list};
ghost use Rattle.sta_text.specs.Faults.{least_from};
ghost use Rattle.sta_text.specs.declared.faults.Wrong.{Wrong};
ghost use Rattle.verilog_netlist.specs.declared.events.Event.{Event};
ghost use Rattle.verilog_netlist.specs.declared.events.Event.TheVariants as event;
ghost use Rattle.verilog_netlist.specs.Nets.{nets_of};
ghost use Rattle.verilog_netlist.specs.Late.{IsDeclared};
ghost use Rattle.verilog_netlist.specs.Faults.{clashes, alike, declaring, is_wide, passes, declaration_fault, declaration_faults, nothing, all_declared, undeclared_bits, with_implicit, with_names, excess, all_nets, net_excess, told, wrong};

use crate::checks::note;
use crate::events::{Event, Kind, Net, Role, Span};
use crate::few::FewNames;
use crate::known::{Declared, Known};
use crate::names::nets_of;
use crate::nets::NetSet;
use sta_text::Wrong;
use sta_units::Memory;
use std::alloc::Global;
use timing_defs::{Code, Items, Name};

/// The greatest number of nets, and of instances.
pub(crate) const LIMIT: usize = 200_000;

fn is_wide(span: Option<Span>) -> bool
    ensures { result ≡ is_wide span }
{
    match span {
        None => false,
        Some(span) => (LIMIT as u64) < span.width(),
    }
}

/// What is declared as this role.
fn alike(known: &Known, role: Role) -> &NetSet
    ensures { result.now ≡ alike role known.now }
{
    if role.is_port() {
        &known.ports
    } else {
        &known.wires
    }
}

/// Adds the nets of a declared name.
fn declare(alloc: Global, known: &mut Known, role: Role, names: Items<Name>) -> Result<(), Memory>
    ensures { IfOk result (λ _. known.new ≡ declaring role known.old names) }
{
    let added = if role.is_port() {
        known.ports.add_all(alloc, names.as_slice())
    } else {
        known.wires.add_all(alloc, names.as_slice())
    };
    match added {
        Ok(()) => known.nets.take_all(names),
        Err(wanting) => {
            drop(names);
            Err(wanting)
        }
    }
}

/// Adds a declared name whose range does not pass the limit; its fault where it has one.
fn declare_narrow(
    alloc: Global,
    known: &mut Known,
    kind: Kind,
    name: &Name,
    at: usize,
) -> Result<Option<Wrong>, Memory>
    requires { is_wide kind.span ≡ false }
    ensures fault { IfOk result (λ found. found ≡ declaration_fault known.old kind name.now at) }
    ensures known { IfOk result
        (λ found. found ≡ None → known.new
        ≡ declaring kind.role known.old (nets_of kind.span name.now)) }
    ensures nets { IfOk result
        (λ found. IsDeclared known.old.nets (nets_of kind.span name.now) known.new.nets) }
{
    let nets = nets_of(alloc, kind.span, name)?;
    if alike(known, kind.role).has_any(nets.as_slice()) {
        drop(nets);
        return Ok(Some(Wrong {
            code: Code::VerilogDoubleName,
            at,
        }));
    }
    declare(alloc, known, kind.role, nets)?;
    if LIMIT < known.nets.len() {
        return Ok(Some(Wrong {
            code: Code::VerilogTooMany,
            at,
        }));
    }
    Ok(None)
}

/// The fault of a declared name whose range alone passes the limit.
fn wide_fault(
    alloc: Global,
    known: &Known,
    kind: Kind,
    span: Span,
    name: &Name,
    at: usize,
) -> Result<Wrong, Memory>
    requires span { kind.span ≡ Some span }
    requires wide { is_wide kind.span ≡ true }
    ensures { IfOk result (λ w. declaration_fault known.now kind name.now at ≡ Some w) }
{
    let code = if alike(known, kind.role).has_bit(alloc, span, name)? {
        Code::VerilogDoubleName
    } else {
        Code::VerilogTooMany
    };
    Ok(Wrong { code, at })
}

/// Adds a declared name; its fault where it has one.
fn declare_name(
    alloc: Global,
    known: &mut Known,
    kind: Kind,
    name: &Name,
    at: usize,
) -> Result<Option<Wrong>, Memory>
    ensures fault { IfOk result (λ found. found ≡ declaration_fault known.old kind name.now at) }
    ensures known { IfOk result
        (λ found. found ≡ None → known.new
        ≡ declaring kind.role known.old (nets_of kind.span name.now)) }
    ensures nets { IfOk result
        (λ found. IsDeclared known.old.nets (nets_of kind.span name.now) known.new.nets) }
{
    match kind.span {
        Some(span) if is_wide(kind.span) => {
            Ok(Some(wide_fault(alloc, known, kind, span, name, at)?))
        }
        _ => declare_narrow(alloc, known, kind, name, at),
    }
}

#[tactic(auto, unfolding(crate::specs::Faults::declaration_faults, crate::specs::Faults::all_declared), using(crate::proofs::LateLemmas::declared_again))]
fn declare_event(alloc: Global, known: &mut Known, event: &Event) -> Result<Option<Wrong>, Memory>
    ensures fault { IfOk result
        (λ found. (rest : List Event) → declaration_faults known.old (event.now ∷ rest)
        ≡ told found (declaration_faults known.new rest)) }
    ensures nets { IfOk result
        (λ found. found ≡ None → (rest : List Event)
        → all_declared known.old.nets (event.now ∷ rest) ≡ all_declared known.new.nets rest) }
    ensures kept { IfOk result
        (λ _. (rest : List Event) → all_declared known.new.nets (event.now ∷ rest)
        ≡ all_declared known.old.nets (event.now ∷ rest)) }
{
    match event {
        Event::Declared(kind, name, at) => declare_name(alloc, known, *kind, name, *at),
        _ => Ok(None),
    }
}

/// The first fault of a declaration, where one has a fault, and all declared nets.
#[derive(Drop)]
pub(crate) struct Declarations<'a> {
    pub fault: Option<Wrong>,
    pub nets: Declared<'a>,
}

/// The first fault of a declaration, and all declared nets. Nets of the declarations from that one on are
/// not listed.
#[tactic(auto, unfolding(crate::specs::Faults::declaration_faults, crate::specs::Faults::all_declared), using(std::proofs::lemmas::List::drop_more))]
pub(crate) fn declared_nets<'a>(
    alloc: Global,
    events: &'a [Event],
) -> Result<Declarations<'a>, Memory>
    ensures fault { IfOk result
        (λ found. declaration_faults nothing events.entry.now ≡ option_to_list found.fault) }
    ensures nets { IfOk result (λ found. found.nets ≡ all_declared [] events.entry.now) }
{
    let mut known = Known {
        ports: NetSet::new(alloc),
        wires: NetSet::new(alloc),
        nets: NetSet::new(alloc),
    };
    for (at, event) in events.iter().enumerate() {
        if let Some(wrong) = declare_event(alloc, &mut known, event)? {
            return Ok(Declarations {
                fault: Some(wrong),
                nets: Declared::of(alloc, known.nets, &events[at..])?,
            });
        }
    }
    Ok(Declarations {
        fault: None,
        nets: Declared::of(alloc, known.nets, &events[events.len()..])?,
    })
}

/// Notes a bit that no declaration has.
#[tactic(auto, unfolding(crate::specs::Faults::undeclared_bits))]
fn undeclared_bit(
    alloc: Global,
    declared: &Declared<'_>,
    event: &Event,
    best: Option<Wrong>,
) -> Result<Option<Wrong>, Memory>
    ensures { IfOk result
        (λ least. (rest : List Event) → least_from least (undeclared_bits declared.now rest)
        ≡ least_from best (undeclared_bits declared.now (event.now ∷ rest))) }
{
    match event {
        Event::Connection(_, Net::Bit(name, at)) => {
            if declared.has(alloc, name)? {
                return Ok(best);
            }
            Ok(note(best, Code::VerilogUndeclared, *at))
        }
        _ => Ok(best),
    }
}

/// Bits that no declaration has.
#[tactic(auto, unfolding(crate::specs::Faults::undeclared_bits, sta_text::specs::Faults::least_from), using(std::proofs::lemmas::List::drop_more))]
pub(crate) fn undeclared_bits(
    alloc: Global,
    declared: &Declared<'_>,
    events: &[Event],
    best: Option<Wrong>,
) -> Result<Option<Wrong>, Memory>
    ensures { IfOk result
        (λ least. least ≡ least_from best (undeclared_bits declared.now events.now)) }
{
    let mut least = best;
    for event in events {
        least = undeclared_bit(alloc, declared, event, least)?;
    }
    Ok(least)
}

/// The nets pass the limit at this place.
fn excess(nets: &NetSet, at: usize) -> Option<Wrong>
    ensures { result ≡ excess None nets.now at }
{
    if LIMIT < nets.len() {
        return Some(Wrong {
            code: Code::VerilogTooMany,
            at,
        });
    }
    None
}

/// Adds a net that is connected, where it is not declared.
fn add_implicit(
    alloc: Global,
    nets: &mut NetSet,
    declared: &Declared<'_>,
    vectors: &FewNames<'_>,
    name: &Name,
) -> Result<(), Memory>
    ensures { IfOk result
        (λ _. nets.new ≡ with_implicit declared.now vectors.now nets.old name.now) }
{
    if declared.has(alloc, name)? || vectors.has(name.as_bytes()) {
        return Ok(());
    }
    nets.add(name.copied(alloc)?)
}

/// Adds the nets of a declared name; the fault where they pass the limit, or its range does alone.
fn add_declared(
    alloc: Global,
    nets: &mut NetSet,
    kind: Kind,
    name: &Name,
    at: usize,
) -> Result<Option<Wrong>, Memory>
    ensures fault { IfOk result
        (λ found. found ≡ excess kind.span (with_names nets.old (nets_of kind.span name.now)) at) }
    ensures nets { IfOk result
        (λ found. found ≡ None → nets.new ≡ with_names nets.old (nets_of kind.span name.now)) }
{
    if is_wide(kind.span) {
        return Ok(Some(Wrong {
            code: Code::VerilogTooMany,
            at,
        }));
    }
    let names = nets_of(alloc, kind.span, name)?;
    nets.take_all(names)?;
    Ok(excess(nets, at))
}

/// Adds the nets of an event; the fault where they pass the limit.
#[tactic(auto, unfolding(crate::specs::Faults::net_excess, crate::specs::Faults::all_nets))]
fn add_nets(
    alloc: Global,
    nets: &mut NetSet,
    declared: &Declared<'_>,
    vectors: &FewNames<'_>,
    event: &Event,
) -> Result<Option<Wrong>, Memory>
    ensures fault { IfOk result
        (λ found. (rest : List Event)
        → net_excess declared.now vectors.now nets.old (event.now ∷ rest)
        ≡ told found (net_excess declared.now vectors.now nets.new rest)) }
    ensures nets { IfOk result
        (λ found. found ≡ None → (rest : List Event)
        → all_nets declared.now vectors.now nets.old (event.now ∷ rest)
        ≡ all_nets declared.now vectors.now nets.new rest) }
{
    match event {
        Event::Declared(kind, name, at) => add_declared(alloc, nets, *kind, name, *at),
        Event::Connection(_, Net::Alone(name, at)) => {
            add_implicit(alloc, nets, declared, vectors, name)?;
            Ok(excess(nets, *at))
        }
        _ => Ok(None),
    }
}

/// All nets, or the place where they pass the limit.
#[tactic(auto, unfolding(crate::specs::Faults::net_excess, crate::specs::Faults::all_nets), using(std::proofs::lemmas::List::drop_more))]
pub(crate) fn all_nets(
    alloc: Global,
    declared: &Declared<'_>,
    vectors: &FewNames<'_>,
    events: &[Event],
) -> Result<Result<NetSet, Wrong>, Memory>
    ensures { IfOk result
        (λ found. MatchResult found
        (λ nets. (net_excess declared.now vectors.now [] events.now ≡ [])
        × (nets ≡ all_nets declared.now vectors.now [] events.now))
        (λ w. net_excess declared.now vectors.now [] events.now ≡ w ∷ [])) }
{
    let mut nets = NetSet::new(alloc);
    for event in events {
        match add_nets(alloc, &mut nets, declared, vectors, event) {
            Ok(None) => {}
            Ok(Some(wrong)) => {
                drop(nets);
                return Ok(Err(wrong));
            }
            Err(wanting) => {
                drop(nets);
                return Err(wanting);
            }
        }
    }
    Ok(Ok(nets))
}
