//! The checks of what a text writes. Each takes the least fault that is known, and gives the least
//! of that one and its own.

ghost use Rattle.std.specs.Prelude.{◌≡◌, ◌≤◌, ◌∷◌, [], List, ℕ, true, not, IfOk, MatchResult, if◌then◌else◌};
ghost use Rattle.sta_text.specs.Faults.{least_from};
ghost use Rattle.sta_text.specs.Names.{stands};
ghost use Rattle.sta_text.specs.declared.faults.Wrong.{Wrong};
ghost use Rattle.verilog_netlist.specs.declared.events.Event.{Event};
ghost use Rattle.verilog_netlist.specs.declared.events.Event.TheVariants as event;
ghost use Rattle.verilog_netlist.specs.Faults.{wrongs, strays, header_doubles, instance_doubles, pin_doubles, whole_vectors, all_vectors, all_directed, undirected, vectors_with, with_name, instance_excess, limit, wrong};

use crate::declarations::LIMIT;
use crate::events::{Event, Kind, Net, Span};
use crate::few::FewNames;
use sta_text::{Names, Wrong, lesser};
use sta_units::Memory;
use std::alloc::Global;
use timing_defs::{Code, Name};

/// Notes a fault.
#[tactic(auto, unfolding(sta_text::specs::Faults::least_from))]
pub(crate) fn note(best: Option<Wrong>, code: Code, at: usize) -> Option<Wrong>
    ensures { (rest : List Wrong) → least_from result rest
        ≡ least_from best (wrong code at ∷ rest) }
{
    lesser(best, Wrong { code, at })
}

/// Adds a name; whether it is new.
fn is_new<'a>(names: &mut Names<'a>, name: &'a Name) -> Result<bool, Memory>
    ensures found { IfOk result (λ new. new ≡ not (stands names.old name.entry.now)) }
    ensures list { IfOk result (λ new. names.new ≡ with_name names.old name.entry.now) }
{
    names.add(name.as_bytes())
}

/// Notes a name that stands twice.
fn note_double<'a>(
    names: &mut Names<'a>,
    name: &'a Name,
    at: usize,
    best: Option<Wrong>,
) -> Result<Option<Wrong>, Memory>
    ensures { IfOk result
        (λ least. (names.new ≡ with_name names.old name.entry.now)
        ×
        ((rest : List Wrong) → least_from least rest
        ≡ least_from best
        (if stands names.old name.entry.now then wrong Code.VerilogDoubleName at ∷ rest else
        rest))) }
{
    if is_new(names, name)? {
        return Ok(best);
    }
    Ok(note(best, Code::VerilogDoubleName, at))
}

/// Notes what ended the reading.
#[tactic(auto, unfolding(crate::specs::Faults::wrongs, sta_text::specs::Faults::least_from))]
fn note_wrong(event: &Event, best: Option<Wrong>) -> Option<Wrong>
    ensures { (rest : List Event) → least_from result (wrongs rest)
        ≡ least_from best (wrongs (event.now ∷ rest)) }
{
    match event {
        Event::Fault(wrong) => lesser(best, *wrong),
        _ => best,
    }
}

/// What ended the reading.
#[tactic(auto, unfolding(crate::specs::Faults::wrongs, sta_text::specs::Faults::least_from), using(std::proofs::lemmas::List::drop_more))]
pub(crate) fn wrongs(events: &[Event], best: Option<Wrong>) -> Option<Wrong>
    ensures { result ≡ least_from best (wrongs events.now) }
{
    let mut least = best;
    for event in events {
        least = note_wrong(event, least);
    }
    least
}

/// Notes a declared direction for a name that the header does not have.
#[tactic(auto, unfolding(crate::specs::Faults::strays))]
fn note_stray<'a>(
    header: &mut Names<'a>,
    kind: Kind,
    name: &'a Name,
    at: usize,
    best: Option<Wrong>,
) -> Result<Option<Wrong>, Memory>
    ensures { IfOk result
        (λ least. (rest : List Event) → least_from least (strays header.new rest)
        ≡ least_from best (strays header.old (event.Declared kind name.entry.now at ∷ rest))) }
{
    if kind.role.is_header() {
        let _ = is_new(header, name)?;
        return Ok(best);
    }
    if kind.role.is_port() && !header.has(name.as_bytes()) {
        return Ok(note(best, Code::VerilogBadToken, at));
    }
    Ok(best)
}

#[tactic(auto, unfolding(crate::specs::Faults::strays))]
fn stray<'a>(
    header: &mut Names<'a>,
    event: &'a Event,
    best: Option<Wrong>,
) -> Result<Option<Wrong>, Memory>
    ensures { IfOk result
        (λ least. (rest : List Event) → least_from least (strays header.new rest)
        ≡ least_from best (strays header.old (event.entry.now ∷ rest))) }
{
    match event {
        Event::Header(name, _) => {
            let _ = is_new(header, name)?;
            Ok(best)
        }
        Event::Declared(kind, name, at) => note_stray(header, *kind, name, *at, best),
        _ => Ok(best),
    }
}

/// Directions of names that the header does not have.
#[tactic(auto, unfolding(crate::specs::Faults::strays, sta_text::specs::Faults::least_from), using(std::proofs::lemmas::List::drop_more))]
pub(crate) fn strays(
    alloc: Global,
    events: &[Event],
    best: Option<Wrong>,
) -> Result<Option<Wrong>, Memory>
    ensures { IfOk result (λ least. least ≡ least_from best (strays [] events.now)) }
{
    let mut header = Names::new(alloc);
    let mut least = best;
    for event in events {
        match stray(&mut header, event, least) {
            Ok(next) => least = next,
            Err(wanting) => {
                drop(header);
                return Err(wanting);
            }
        }
    }
    drop(header);
    Ok(least)
}

#[tactic(auto, unfolding(crate::specs::Faults::header_doubles))]
fn header_double<'a>(
    names: &mut Names<'a>,
    event: &'a Event,
    best: Option<Wrong>,
) -> Result<Option<Wrong>, Memory>
    ensures { IfOk result
        (λ least. (rest : List Event) → least_from least (header_doubles names.new rest)
        ≡ least_from best (header_doubles names.old (event.entry.now ∷ rest))) }
{
    match event {
        Event::Header(name, at) => note_double(names, name, *at, best),
        Event::Declared(kind, name, at) => {
            if kind.role.is_header() && names.has(name.as_bytes()) {
                return Ok(note(best, Code::VerilogDoubleName, *at));
            }
            Ok(best)
        }
        _ => Ok(best),
    }
}

/// Ports that stand twice in the header, where their name stands alone.
#[tactic(auto, unfolding(crate::specs::Faults::header_doubles, sta_text::specs::Faults::least_from), using(std::proofs::lemmas::List::drop_more))]
pub(crate) fn header_doubles(
    alloc: Global,
    events: &[Event],
    best: Option<Wrong>,
) -> Result<Option<Wrong>, Memory>
    ensures { IfOk result (λ least. least ≡ least_from best (header_doubles [] events.now)) }
{
    let mut names = Names::new(alloc);
    let mut least = best;
    for event in events {
        match header_double(&mut names, event, least) {
            Ok(next) => least = next,
            Err(wanting) => {
                drop(names);
                return Err(wanting);
            }
        }
    }
    drop(names);
    Ok(least)
}

#[tactic(auto, unfolding(crate::specs::Faults::instance_doubles))]
fn instance_double<'a>(
    names: &mut Names<'a>,
    event: &'a Event,
    best: Option<Wrong>,
) -> Result<Option<Wrong>, Memory>
    ensures { IfOk result
        (λ least. (rest : List Event) → least_from least (instance_doubles names.new rest)
        ≡ least_from best (instance_doubles names.old (event.entry.now ∷ rest))) }
{
    match event {
        Event::Instance(_, name, at) => note_double(names, name, *at, best),
        _ => Ok(best),
    }
}

/// Instances that stand twice.
#[tactic(auto, unfolding(crate::specs::Faults::instance_doubles, sta_text::specs::Faults::least_from), using(std::proofs::lemmas::List::drop_more))]
pub(crate) fn instance_doubles(
    alloc: Global,
    events: &[Event],
    best: Option<Wrong>,
) -> Result<Option<Wrong>, Memory>
    ensures { IfOk result (λ least. least ≡ least_from best (instance_doubles [] events.now)) }
{
    let mut names = Names::new(alloc);
    let mut least = best;
    for event in events {
        match instance_double(&mut names, event, least) {
            Ok(next) => least = next,
            Err(wanting) => {
                drop(names);
                return Err(wanting);
            }
        }
    }
    drop(names);
    Ok(least)
}

/// The number of instances behind an event; none where they pass the limit with it.
#[tactic(auto, unfolding(crate::specs::Faults::instance_excess))]
fn counted(event: &Event, count: usize) -> Result<usize, Wrong>
    requires { count ≤ limit }
    ensures { MatchResult result
        (λ n. (n ≤ limit)
        × ((rest : List Event) → instance_excess n rest ≡ instance_excess count (event.now ∷ rest)))
        (λ w. (rest : List Event) → instance_excess count (event.now ∷ rest) ≡ w ∷ []) }
{
    match event {
        Event::CellWord(at) => {
            if count < LIMIT {
                return Ok(count + 1);
            }
            Err(Wrong {
                code: Code::VerilogTooMany,
                at: *at,
            })
        }
        _ => Ok(count),
    }
}

/// The instance with which the instances pass the limit.
#[tactic(auto, unfolding(crate::specs::Faults::instance_excess, sta_text::specs::Faults::least_from), using(std::proofs::lemmas::List::drop_more))]
pub(crate) fn instance_excess(events: &[Event], best: Option<Wrong>) -> Option<Wrong>
    ensures { result ≡ least_from best (instance_excess 0 events.now) }
{
    let mut count = 0;
    for event in events {
        match counted(event, count) {
            Ok(more) => count = more,
            Err(wrong) => return lesser(best, wrong),
        }
    }
    best
}

/// Notes a pin's name that stands twice.
fn note_pin<'a>(
    names: &mut FewNames<'a>,
    name: &'a Name,
    at: usize,
    best: Option<Wrong>,
) -> Result<Option<Wrong>, Memory>
    ensures { IfOk result
        (λ least. (names.new ≡ with_name names.old name.entry.now)
        ×
        ((rest : List Wrong) → least_from least rest
        ≡ least_from best
        (if stands names.old name.entry.now then wrong Code.VerilogDoubleName at ∷ rest else
        rest))) }
{
    if names.add(name.as_bytes())? {
        return Ok(best);
    }
    Ok(note(best, Code::VerilogDoubleName, at))
}

/// Notes a pin that is connected twice; the pins of an instance are looked at by themselves.
#[tactic(auto, unfolding(crate::specs::Faults::pin_doubles))]
fn pin_double<'a>(
    alloc: Global,
    names: &mut FewNames<'a>,
    event: &'a Event,
    best: Option<Wrong>,
) -> Result<Option<Wrong>, Memory>
    ensures { IfOk result
        (λ least. (rest : List Event) → least_from least (pin_doubles names.new rest)
        ≡ least_from best (pin_doubles names.old (event.entry.now ∷ rest))) }
{
    match event {
        Event::Instance(_, _, _) => {
            names.clear(alloc);
            Ok(best)
        }
        Event::Pin(name, at) => note_pin(names, name, *at, best),
        _ => Ok(best),
    }
}

/// Pins that are connected twice.
#[tactic(auto, unfolding(crate::specs::Faults::pin_doubles, sta_text::specs::Faults::least_from), using(std::proofs::lemmas::List::drop_more))]
pub(crate) fn pin_doubles(
    alloc: Global,
    events: &[Event],
    best: Option<Wrong>,
) -> Result<Option<Wrong>, Memory>
    ensures { IfOk result (λ least. least ≡ least_from best (pin_doubles [] events.now)) }
{
    let mut names = FewNames::new(alloc);
    let mut least = best;
    for event in events {
        match pin_double(alloc, &mut names, event, least) {
            Ok(next) => least = next,
            Err(wanting) => {
                drop(names);
                return Err(wanting);
            }
        }
    }
    drop(names);
    Ok(least)
}

/// Adds a declared name where it is a vector.
fn add_vector<'a>(
    vectors: &mut FewNames<'a>,
    span: Option<Span>,
    name: &'a Name,
) -> Result<(), Memory>
    ensures { IfOk result (λ _. vectors.new ≡ vectors_with vectors.old span name.entry.now) }
{
    match span {
        None => Ok(()),
        Some(_) => {
            let _ = vectors.add(name.as_bytes())?;
            Ok(())
        }
    }
}

#[tactic(auto, unfolding(crate::specs::Faults::all_vectors))]
fn vector<'a>(vectors: &mut FewNames<'a>, event: &'a Event) -> Result<(), Memory>
    ensures { IfOk result
        (λ _. (rest : List Event) → all_vectors vectors.new rest
        ≡ all_vectors vectors.old (event.entry.now ∷ rest)) }
{
    match event {
        Event::Declared(kind, name, _) => add_vector(vectors, kind.span, name),
        _ => Ok(()),
    }
}

/// All vectors.
#[tactic(auto, unfolding(crate::specs::Faults::all_vectors), using(std::proofs::lemmas::List::drop_more))]
pub(crate) fn all_vectors<'a>(alloc: Global, events: &'a [Event]) -> Result<FewNames<'a>, Memory>
    ensures { IfOk result (λ vectors. vectors ≡ all_vectors [] events.entry.now) }
{
    let mut vectors = FewNames::new(alloc);
    for event in events {
        match vector(&mut vectors, event) {
            Ok(()) => {}
            Err(wanting) => {
                drop(vectors);
                return Err(wanting);
            }
        }
    }
    Ok(vectors)
}

/// Notes a vector that is connected whole.
#[tactic(auto, unfolding(crate::specs::Faults::whole_vectors))]
fn whole_net(vectors: &FewNames<'_>, net: &Net, best: Option<Wrong>) -> Option<Wrong>
    ensures { (pin : List ℕ) (rest : List Event)
        → least_from result (whole_vectors vectors.now rest)
        ≡ least_from best (whole_vectors vectors.now (event.Connection pin net.now ∷ rest)) }
{
    match net {
        Net::Alone(name, at) => {
            if vectors.has(name.as_bytes()) {
                return note(best, Code::VerilogLeftOut, *at);
            }
            best
        }
        Net::Tied | Net::Bit(_, _) => best,
    }
}

#[tactic(auto, unfolding(crate::specs::Faults::whole_vectors))]
fn whole_vector<'a>(
    vectors: &mut FewNames<'a>,
    event: &'a Event,
    best: Option<Wrong>,
) -> Result<Option<Wrong>, Memory>
    ensures { IfOk result
        (λ least. (rest : List Event) → least_from least (whole_vectors vectors.new rest)
        ≡ least_from best (whole_vectors vectors.old (event.entry.now ∷ rest))) }
{
    match event {
        Event::Declared(kind, name, _) => {
            add_vector(vectors, kind.span, name)?;
            Ok(best)
        }
        Event::Connection(_, net) => Ok(whole_net(vectors, net, best)),
        _ => Ok(best),
    }
}

/// Vectors that are connected whole, where these are known already.
#[tactic(auto, unfolding(crate::specs::Faults::whole_vectors, sta_text::specs::Faults::least_from), using(std::proofs::lemmas::List::drop_more))]
pub(crate) fn whole_vectors<'a>(
    known: FewNames<'a>,
    events: &'a [Event],
    best: Option<Wrong>,
) -> Result<Option<Wrong>, Memory>
    ensures { IfOk result
        (λ least. least ≡ least_from best (whole_vectors known.entry events.entry.now)) }
{
    let mut vectors = known;
    let mut least = best;
    for event in events {
        match whole_vector(&mut vectors, event, least) {
            Ok(next) => least = next,
            Err(wanting) => {
                drop(vectors);
                return Err(wanting);
            }
        }
    }
    drop(vectors);
    Ok(least)
}

#[tactic(auto, unfolding(crate::specs::Faults::all_directed))]
fn directed<'a>(names: &mut Names<'a>, event: &'a Event) -> Result<(), Memory>
    ensures { IfOk result
        (λ _. (rest : List Event) → all_directed names.new rest
        ≡ all_directed names.old (event.entry.now ∷ rest)) }
{
    match event {
        Event::Declared(kind, name, _) => {
            if kind.role.is_port() {
                let _ = is_new(names, name)?;
            }
            Ok(())
        }
        _ => Ok(()),
    }
}

/// All names that have a direction.
#[tactic(auto, unfolding(crate::specs::Faults::all_directed), using(std::proofs::lemmas::List::drop_more))]
fn all_directed<'a>(alloc: Global, events: &'a [Event]) -> Result<Names<'a>, Memory>
    ensures { IfOk result (λ names. names ≡ all_directed [] events.entry.now) }
{
    let mut names = Names::new(alloc);
    for event in events {
        match directed(&mut names, event) {
            Ok(()) => {}
            Err(wanting) => {
                drop(names);
                return Err(wanting);
            }
        }
    }
    Ok(names)
}

#[tactic(auto, unfolding(crate::specs::Faults::undirected))]
fn undirected_port(directed: &Names<'_>, event: &Event, best: Option<Wrong>) -> Option<Wrong>
    ensures { (rest : List Event) → least_from result (undirected directed.now rest)
        ≡ least_from best (undirected directed.now (event.now ∷ rest)) }
{
    match event {
        Event::Header(name, at) => {
            if directed.has(name.as_bytes()) {
                return best;
            }
            note(best, Code::VerilogUndeclared, *at)
        }
        _ => best,
    }
}

/// Ports of the header without a direction.
#[tactic(auto, unfolding(crate::specs::Faults::undirected, sta_text::specs::Faults::least_from), using(std::proofs::lemmas::List::drop_more))]
pub(crate) fn undirected(
    alloc: Global,
    events: &[Event],
    best: Option<Wrong>,
) -> Result<Option<Wrong>, Memory>
    ensures { IfOk result
        (λ least. least ≡ least_from best (undirected (all_directed [] events.now) events.now)) }
{
    let directed = all_directed(alloc, events)?;
    let mut least = best;
    for event in events {
        least = undirected_port(&directed, event, least);
    }
    drop(directed);
    Ok(least)
}
