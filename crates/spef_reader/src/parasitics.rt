//! The parasitics that a text writes.

ghost use Rattle.std.specs.Prelude.{◌≡◌, ◌≤◌, ◌++◌, ◌∷◌, [], List, IfOk, IfSome, if◌then◌else◌};
ghost use Rattle.sta_units.specs.Numbers.{limit};
ghost use Rattle.std.specs.List.{list_any};
ghost use Rattle.spef_reader.specs.declared.events.Event.{Event};
ghost use Rattle.spef_reader.specs.Faults.{rows_of, is_resistance, lump_of, pins_on};
ghost use Rattle.spef_reader.specs.Parasitics.{farads, ohms, cap_at, counted_at, caps_of, ress_of, small, net_rc, net_of, nets_of, parasitics_of};

use crate::checks::{asked_pins, is_own};
use crate::events::Event;
use crate::lumps::{has_resistance, lump_of};
use crate::rows::rows_of;
use crate::sizes::Size;
use sta_text::Names;
use sta_units::{Af, LIM, Memory, Mo};
use std::alloc::Global;
use timing_defs::{Items, Name, NetRc, Parasitics, RcCap, RcNode, RcRes};

fn copied(alloc: Global, node: &RcNode) -> Result<RcNode, Memory>
    ensures { IfOk result (λ copy. copy ≡ node.now) }
{
    match node {
        RcNode::Pin(name) => Ok(RcNode::Pin(name.copied(alloc)?)),
        RcNode::Inner(number) => Ok(RcNode::Inner(*number)),
    }
}

fn farads(number: u64) -> Af
    requires { number ≤ limit }
    ensures { result ≡ farads number }
{
    Af(number as i64)
}

fn ohms(number: u64) -> Mo
    requires { number ≤ limit }
    ensures { result ≡ ohms number }
{
    Mo(number as i64)
}

/// Adds a capacitance to ground.
fn push_cap(
    alloc: Global,
    caps: &mut Items<RcCap>,
    node: &RcNode,
    size: &Size,
) -> Result<(), Memory>
    ensures { IfOk result (λ _. caps.new ≡ caps.old ++ cap_at node.now size.now ∷ []) }
{
    caps.push(RcCap {
        node: copied(alloc, node)?,
        cap: farads(size.get()),
    })
}

/// The node at which a capacitance between two nodes counts.
fn counted_at<'b>(pins: &Names<'_>, a: &'b RcNode, b: &'b RcNode) -> &'b RcNode
    ensures { result.now ≡ counted_at pins.now a.entry.now b.entry.now }
{
    if is_own(pins, a) { a } else { b }
}

/// Adds the capacitance of an event.
#[tactic(auto, unfolding(crate::specs::Parasitics::caps_of))]
fn add_cap(
    alloc: Global,
    pins: &Names<'_>,
    caps: &mut Items<RcCap>,
    event: &Event,
) -> Result<(), Memory>
    ensures { IfOk result
        (λ _. (rest : List Event) → caps.new ++ caps_of pins.now rest
        ≡ caps.old ++ caps_of pins.now (event.now ∷ rest)) }
{
    match event {
        Event::Ground(Some(a), Some(size)) => push_cap(alloc, caps, a, size),
        Event::Coupling(_, Some(a), Some(b), Some(size)) => {
            push_cap(alloc, caps, counted_at(pins, a, b), size)
        }
        _ => Ok(()),
    }
}

/// The capacitances to ground of a net with these pins.
#[tactic(auto, unfolding(crate::specs::Parasitics::caps_of), using(std::proofs::lemmas::List::drop_more))]
fn caps_of(alloc: Global, pins: &Names<'_>, rows: &[Event]) -> Result<Items<RcCap>, Memory>
    ensures { IfOk result (λ caps. caps ≡ caps_of pins.now rows.now) }
{
    let mut caps = Items::new(alloc);
    for event in rows {
        add_cap(alloc, pins, &mut caps, event)?;
    }
    Ok(caps)
}

/// Adds a resistance.
fn push_res(
    alloc: Global,
    ress: &mut Items<RcRes>,
    a: &RcNode,
    b: &RcNode,
    size: &Size,
) -> Result<(), Memory>
    ensures { IfOk result
        (λ _. ress.new ≡ ress.old ++ record { a = a.now; b = b.now; res = ohms size.now } ∷ []) }
{
    ress.push(RcRes {
        a: copied(alloc, a)?,
        b: copied(alloc, b)?,
        res: ohms(size.get()),
    })
}

/// Adds the resistance of an event.
#[tactic(auto, unfolding(crate::specs::Parasitics::ress_of))]
fn add_res(alloc: Global, ress: &mut Items<RcRes>, event: &Event) -> Result<(), Memory>
    ensures { IfOk result
        (λ _. (rest : List Event) → ress.new ++ ress_of rest
        ≡ ress.old ++ ress_of (event.now ∷ rest)) }
{
    match event {
        Event::Resistor(Some(a), Some(b), Some(size)) => push_res(alloc, ress, a, b, size),
        _ => Ok(()),
    }
}

/// The resistances of a net.
#[tactic(auto, unfolding(crate::specs::Parasitics::ress_of), using(std::proofs::lemmas::List::drop_more))]
fn ress_of(alloc: Global, rows: &[Event]) -> Result<Items<RcRes>, Memory>
    ensures { IfOk result (λ ress. ress ≡ ress_of rows.now) }
{
    let mut ress = Items::new(alloc);
    for event in rows {
        add_res(alloc, &mut ress, event)?;
    }
    Ok(ress)
}

/// The capacitances at the nodes of a net, which has none without resistances.
fn node_caps(alloc: Global, rows: &[Event]) -> Result<Items<RcCap>, Memory>
    ensures { IfOk result
        (λ caps. caps
        ≡
        (if list_any is_resistance rows.now then caps_of (pins_on [] rows.now) rows.now else [])) }
{
    if !has_resistance(rows) {
        return Ok(Items::new(alloc));
    }
    let pins = asked_pins(alloc, rows)?;
    caps_of(alloc, &pins, rows)
}

fn net_rc(alloc: Global, name: &Name, rows: &[Event], lump: u64) -> Result<NetRc, Memory>
    requires { lump ≤ limit }
    ensures { IfOk result (λ net. net ≡ net_rc name.now rows.now lump) }
{
    Ok(NetRc {
        net: name.copied(alloc)?,
        caps: node_caps(alloc, rows)?,
        ress: ress_of(alloc, rows)?,
        lump: farads(lump),
    })
}

fn small(lump: Option<u128>) -> Option<u64>
    ensures value { result ≡ small lump }
    ensures bound { IfSome result (λ n. n ≤ limit) }
{
    match lump {
        Some(number) if number <= (LIM as u128) => Some(number as u64),
        _ => None,
    }
}

/// Adds the net of a name, of which these are the rows.
fn push_net(
    alloc: Global,
    nets: &mut Items<NetRc>,
    name: &Option<Name>,
    rows: &[Event],
) -> Result<(), Memory>
    ensures { IfOk result
        (λ _. nets.new ≡ nets.old ++ net_of name.now rows.now (small (lump_of rows.now))) }
{
    match (name, small(lump_of(rows))) {
        (Some(name), Some(lump)) => nets.push(net_rc(alloc, name, rows, lump)?),
        _ => Ok(()),
    }
}

/// Adds the net that begins with an event.
#[tactic(auto, unfolding(crate::specs::Parasitics::nets_of))]
fn add_net(
    alloc: Global,
    nets: &mut Items<NetRc>,
    event: &Event,
    behind: &[Event],
) -> Result<(), Memory>
    ensures { IfOk result
        (λ _. nets.new ++ nets_of behind.now ≡ nets.old ++ nets_of (event.now ∷ behind.now)) }
{
    match event {
        Event::Net(_, name, _) => push_net(alloc, nets, name, rows_of(behind)),
        _ => Ok(()),
    }
}

/// The nets, in the order of the text.
#[tactic(auto, unfolding(crate::specs::Parasitics::nets_of), using(std::proofs::lemmas::List::drop_more))]
fn nets_of(alloc: Global, events: &[Event]) -> Result<Items<NetRc>, Memory>
    ensures { IfOk result (λ nets. nets ≡ nets_of events.now) }
{
    let mut nets = Items::new(alloc);
    for (i, event) in events.iter().enumerate() {
        add_net(alloc, &mut nets, event, events.split_at(i + 1).1)?;
    }
    Ok(nets)
}

/// The parasitics of a text without faults.
pub(crate) fn parasitics_of(alloc: Global, events: &[Event]) -> Result<Parasitics, Memory>
    ensures { IfOk result (λ parasitics. parasitics ≡ parasitics_of events.now) }
{
    Ok(Parasitics {
        nets: nets_of(alloc, events)?,
    })
}
