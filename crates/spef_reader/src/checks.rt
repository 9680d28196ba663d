//! The checks of what a text writes. Each takes the least fault that is known, and gives the least
//! of that one and its own.

ghost use Rattle.std.specs.Prelude.{◌≡◌, ◌≤◌, ◌++◌, ◌∷◌, [], List, length, Some, None, IfOk, if◌then◌else◌};
ghost use Rattle.std.specs.List.{list_all, list_any, prefix_len};
ghost use Rattle.sta_text.specs.Faults.{least_from};
ghost use Rattle.sta_text.specs.Names.{stands};
ghost use Rattle.sta_text.specs.declared.faults.Wrong.{Wrong};
ghost use Rattle.spef_reader.specs.declared.events.Event.{Event};
ghost use Rattle.spef_reader.specs.Parasitics.{caps_of};
ghost use Rattle.spef_reader.specs.Faults.{wrong, token_faults, double_nets, is_clear, with_one, with_node, pins_on, is_own, strange_couplings, coupling_faults, is_above, only_if, lump_of, net_faults, nets_faults, faults_of, is_of_net, rows_of, begins_end, is_whole_net};

use crate::events::Event;
use crate::lumps::{has_coupling, lump_of};
use crate::rows::{is_whole_net, rows_of};
use sta_text::{Names, Wrong, lesser};
use sta_units::{LIM, Memory};
use std::alloc::Global;
use timing_defs::{Code, Name, RcNode};

/// Notes a fault.
#[tactic(auto, unfolding(sta_text::specs::Faults::least_from))]
fn note(best: Option<Wrong>, code: Code, at: usize) -> Option<Wrong>
    ensures { (rest : List Wrong) → least_from result rest
        ≡ least_from best (wrong code at ∷ rest) }
{
    lesser(best, Wrong { code, at })
}

#[tactic(auto, unfolding(crate::specs::Faults::token_faults, sta_text::specs::Faults::least_from))]
fn token_fault(event: &Event, best: Option<Wrong>) -> Option<Wrong>
    ensures { (rest : List Event) → least_from result (token_faults rest)
        ≡ least_from best (token_faults (event.now ∷ rest)) }
{
    match event {
        Event::Fault(wrong) => lesser(best, *wrong),
        _ => best,
    }
}

/// Faults that stand in one token, and the one that ended the reading.
#[tactic(auto, unfolding(crate::specs::Faults::token_faults, sta_text::specs::Faults::least_from), using(std::proofs::lemmas::List::drop_more))]
fn token_faults(events: &[Event], best: Option<Wrong>) -> Option<Wrong>
    ensures { result ≡ least_from best (token_faults events.now) }
{
    let mut least = best;
    for event in events {
        least = token_fault(event, least);
    }
    least
}

/// Notes a net that stands twice.
fn note_net<'a>(
    names: &mut Names<'a>,
    name: &'a Name,
    place: usize,
    best: Option<Wrong>,
) -> Result<Option<Wrong>, Memory>
    ensures { IfOk result
        (λ least. (names.new ≡ with_one names.old name.entry.now)
        ×
        ((rest : List Wrong) → least_from least rest
        ≡ least_from best
        (if stands names.old name.entry.now then wrong Code.SpefDoubleNet place ∷ rest else
        rest))) }
{
    if names.add(name.as_bytes())? {
        return Ok(best);
    }
    Ok(note(best, Code::SpefDoubleNet, place))
}

#[tactic(auto, unfolding(crate::specs::Faults::double_nets))]
fn double_net<'a>(
    names: &mut Names<'a>,
    event: &'a Event,
    best: Option<Wrong>,
) -> Result<Option<Wrong>, Memory>
    ensures { IfOk result
        (λ least. (rest : List Event) → least_from least (double_nets names.new rest)
        ≡ least_from best (double_nets names.old (event.entry.now ∷ rest))) }
{
    match event {
        Event::Net(_, Some(name), place) => note_net(names, name, *place, best),
        _ => Ok(best),
    }
}

/// Nets that stand twice.
#[tactic(auto, unfolding(crate::specs::Faults::double_nets, sta_text::specs::Faults::least_from), using(std::proofs::lemmas::List::drop_more))]
fn double_nets(
    alloc: Global,
    events: &[Event],
    best: Option<Wrong>,
) -> Result<Option<Wrong>, Memory>
    ensures { IfOk result (λ least. least ≡ least_from best (double_nets [] events.now)) }
{
    let mut names = Names::new(alloc);
    let mut least = best;
    for event in events {
        least = double_net(&mut names, event, least)?;
    }
    Ok(least)
}

fn is_clear(event: &Event) -> bool
    ensures { result ≡ is_clear event.now }
{
    match event {
        Event::Connection(node) => node.is_some(),
        Event::Resistor(a, b, _) => a.is_some() && b.is_some(),
        _ => true,
    }
}

fn are_clear(rows: &[Event]) -> bool
    ensures { result ≡ list_all is_clear rows.now }
{
    rows.iter().all(|event| is_clear(event))
}

/// Adds the pin that a node is.
fn add_node<'a>(pins: &mut Names<'a>, node: &'a Option<RcNode>) -> Result<(), Memory>
    ensures { IfOk result (λ _. pins.new ≡ with_node pins.old node.entry.now) }
{
    match node {
        Some(RcNode::Pin(name)) => {
            let _ = pins.add(name.as_bytes())?;
            Ok(())
        }
        _ => Ok(()),
    }
}

#[tactic(auto, unfolding(crate::specs::Faults::pins_on))]
fn add_pins<'a>(pins: &mut Names<'a>, event: &'a Event) -> Result<(), Memory>
    ensures { IfOk result
        (λ _. (rest : List Event) → pins_on pins.new rest
        ≡ pins_on pins.old (event.entry.now ∷ rest)) }
{
    match event {
        Event::Connection(node) => add_node(pins, node),
        Event::Resistor(a, b, _) => {
            add_node(pins, a)?;
            add_node(pins, b)
        }
        _ => Ok(()),
    }
}

/// The pins that stand in connections or at resistances.
#[tactic(auto, unfolding(crate::specs::Faults::pins_on), using(std::proofs::lemmas::List::drop_more))]
fn pins_of<'a>(alloc: Global, rows: &'a [Event]) -> Result<Names<'a>, Memory>
    ensures { IfOk result (λ pins. pins ≡ pins_on [] rows.entry.now) }
{
    let mut pins = Names::new(alloc);
    for event in rows {
        add_pins(&mut pins, event)?;
    }
    Ok(pins)
}

/// The pins of a net as capacitances between two nodes ask for them; none where there are none of these.
#[tactic(auto, using(crate::proofs::CouplingLemmas::strange_unasked, crate::proofs::CouplingLemmas::caps_unasked))]
pub(crate) fn asked_pins<'a>(alloc: Global, rows: &'a [Event]) -> Result<Names<'a>, Memory>
    ensures strange { IfOk result
        (λ pins. strange_couplings pins rows.entry.now
        ≡ strange_couplings (pins_on [] rows.entry.now) rows.entry.now) }
    ensures caps { IfOk result
        (λ pins. caps_of pins rows.entry.now ≡ caps_of (pins_on [] rows.entry.now) rows.entry.now) }
{
    if has_coupling(rows) {
        pins_of(alloc, rows)
    } else {
        Ok(Names::new(alloc))
    }
}

/// Whether the node is one of the net with these pins.
pub(crate) fn is_own(pins: &Names<'_>, node: &RcNode) -> bool
    ensures { result ≡ is_own pins.now node.now }
{
    match node {
        RcNode::Pin(name) => pins.has(name.as_bytes()),
        RcNode::Inner(_) => true,
    }
}

#[tactic(auto, unfolding(crate::specs::Faults::strange_couplings))]
fn strange_coupling(pins: &Names<'_>, event: &Event, best: Option<Wrong>) -> Option<Wrong>
    ensures { (rest : List Event) → least_from result (strange_couplings pins.now rest)
        ≡ least_from best (strange_couplings pins.now (event.now ∷ rest)) }
{
    match event {
        Event::Coupling(at, Some(a), Some(b), _) => {
            if is_own(pins, a) || is_own(pins, b) {
                return best;
            }
            note(best, Code::SpefUnknownName, *at)
        }
        _ => best,
    }
}

/// Capacitances between two nodes of which none is of the net.
#[tactic(auto, unfolding(crate::specs::Faults::strange_couplings, sta_text::specs::Faults::least_from), using(std::proofs::lemmas::List::drop_more))]
fn strange_couplings(pins: &Names<'_>, rows: &[Event], best: Option<Wrong>) -> Option<Wrong>
    ensures { result ≡ least_from best (strange_couplings pins.now rows.now) }
{
    let mut least = best;
    for event in rows {
        least = strange_coupling(pins, event, least);
    }
    least
}

#[tactic(auto, unfolding(sta_text::specs::Faults::least_from))]
fn coupling_faults(
    alloc: Global,
    rows: &[Event],
    best: Option<Wrong>,
) -> Result<Option<Wrong>, Memory>
    ensures { IfOk result (λ least. least ≡ least_from best (coupling_faults rows.now)) }
{
    if !are_clear(rows) {
        return Ok(best);
    }
    let pins = asked_pins(alloc, rows)?;
    Ok(strange_couplings(&pins, rows, best))
}

fn is_above(sum: Option<u128>) -> bool
    ensures { result ≡ is_above sum }
{
    match sum {
        None => false,
        Some(sum) => (LIM as u128) < sum,
    }
}

/// The faults of a whole net, of which the section begins at a place.
#[tactic(auto, using(sta_text::proofs::FaultsLemmas::least_append))]
fn net_faults(
    alloc: Global,
    at: usize,
    rows: &[Event],
    best: Option<Wrong>,
) -> Result<Option<Wrong>, Memory>
    ensures { IfOk result (λ least. least ≡ least_from best (net_faults at rows.now)) }
{
    let sum = note_if(best, is_above(lump_of(rows)), Code::SpefBadNumber, at);
    coupling_faults(alloc, rows, sum)
}

#[tactic(auto, unfolding(sta_text::specs::Faults::least_from))]
fn note_if(best: Option<Wrong>, is_wrong: bool, code: Code, at: usize) -> Option<Wrong>
    ensures { result ≡ least_from best (only_if is_wrong (wrong code at)) }
{
    if is_wrong {
        lesser(best, Wrong { code, at })
    } else {
        best
    }
}

/// The faults of the net that begins with an event, where it does.
#[tactic(auto, unfolding(crate::specs::Faults::nets_faults, sta_text::specs::Faults::least_from), using(sta_text::proofs::FaultsLemmas::least_append))]
fn faults_behind(
    alloc: Global,
    event: &Event,
    behind: &[Event],
    best: Option<Wrong>,
) -> Result<Option<Wrong>, Memory>
    ensures { IfOk result
        (λ least. least_from least (nets_faults behind.now)
        ≡ least_from best (nets_faults (event.now ∷ behind.now))) }
{
    match event {
        Event::Net(at, _, _) => {
            if !is_whole_net(behind) {
                return Ok(best);
            }
            net_faults(alloc, *at, rows_of(behind), best)
        }
        _ => Ok(best),
    }
}

/// The faults of all whole nets.
#[tactic(auto, unfolding(crate::specs::Faults::nets_faults, sta_text::specs::Faults::least_from), using(std::proofs::lemmas::List::drop_more))]
fn nets_faults(
    alloc: Global,
    events: &[Event],
    best: Option<Wrong>,
) -> Result<Option<Wrong>, Memory>
    ensures { IfOk result (λ least. least ≡ least_from best (nets_faults events.now)) }
{
    let mut least = best;
    for (i, event) in events.iter().enumerate() {
        least = faults_behind(alloc, event, events.split_at(i + 1).1, least)?;
    }
    Ok(least)
}

/// The least fault of a text.
#[tactic(auto, using(sta_text::proofs::FaultsLemmas::least_append))]
pub(crate) fn least_fault(alloc: Global, events: &[Event]) -> Result<Option<Wrong>, Memory>
    ensures { IfOk result (λ least. least ≡ least_from None (faults_of events.now)) }
{
    let tokens = token_faults(events, None);
    let doubles = double_nets(alloc, events, tokens)?;
    nets_faults(alloc, events, doubles)
}
