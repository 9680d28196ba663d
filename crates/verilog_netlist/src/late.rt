//! The nets of the declarations from the first that has a fault on. They may be more than any limit, so
//! they are not listed, but asked for one by one.

ghost use Rattle.std.specs.Prelude.{◌≡◌, ◌==◌, ◌+◌, ◌∷◌, ◌++◌, ◌<◌, ◌^◌, ◌&&◌, ◌||◌, Bool, nat_lt, if◌then◌else◌, ℕ, List, [], false, true, None, Some, IfOk, OnOk, MatchOption, length, take};
ghost use Rattle.std.specs.List.{list_any};
ghost use Rattle.std.specs.Str.{bytes_eq};
ghost use Rattle.sta_text.specs.Names.{stands, said};
ghost use Rattle.verilog_netlist.specs.declared.events.Event.{Event};
ghost use Rattle.verilog_netlist.specs.declared.events.Event.TheVariants as event;
ghost use Rattle.verilog_netlist.specs.Nets.{bit_name};
ghost use Rattle.verilog_netlist.specs.Late.{declares, declares_alone, declares_bit, vector_of, vector_place, key, holds, stretch, stretches, Small, AreSmall, IsLate, IsBitTold};

use crate::covers::{Cover, Stretch};
use crate::events::{Event, Span};
use crate::names::{bit_number, is_place_text};
use sta_text::{Names, Places};
use sta_units::{Memory, Pair, both};
use std::alloc::Global;
use timing_defs::{Items, Name};

/// The last bracket of a net's name.
fn last_bracket(net: &[u8]) -> Option<usize>
    ensures { MatchOption result (list_any (λ b. b == 91) net.now ≡ false)
        (λ at. (at < length net.now) × (take at net.now ≡ vector_of net.now)) }
{
    let mut last = None;
    for (place, byte) in net.iter().enumerate() {
        if *byte == b'[' {
            last = Some(place);
        }
    }
    last
}

/// The ends of a range are numbers below 2^32, told to proofs; the call does nothing.
fn ends_are_small(span: Span)
    ensures first { span.first < 2 ^ 32 }
    ensures last { span.last < 2 ^ 32 }
{
    let _ = span;
}

/// Notes where a vector is declared.
#[tactic(auto, unfolding(crate::specs::Late::vector_place))]
fn set_place<'a>(places: &mut Places<'a>, place: usize, event: &'a Event) -> Result<(), Memory>
    ensures places { IfOk result
        (λ _. (vector : List ℕ) (rest : List Event)
        → vector_place (place + 1) (said places.new vector) rest vector
        ≡ vector_place place (said places.old vector) (event.entry.now ∷ rest) vector) }
    ensures small { Small event.entry.now }
{
    let Event::Declared(kind, name, _) = event else {
        return Ok(());
    };
    match kind.span {
        Some(span) => {
            ends_are_small(span);
            places.set(name.as_bytes(), place)
        }
        None => Ok(()),
    }
}

/// The last declaration of each vector, by its place.
#[tactic(auto, unfolding(crate::specs::Late::vector_place), using(std::proofs::lemmas::List::drop_more))]
fn vector_places<'a>(alloc: Global, events: &'a [Event]) -> Result<Places<'a>, Memory>
    ensures places { IfOk result
        (λ places. (vector : List ℕ) → said places vector
        ≡ vector_place 0 None events.entry.now vector) }
    ensures small { OnOk result (AreSmall events.entry.now) }
{
    let mut places = Places::new(alloc);
    for (place, event) in events.iter().enumerate() {
        match set_place(&mut places, place, event) {
            Ok(()) => {}
            Err(wanting) => {
                drop(places);
                return Err(wanting);
            }
        }
    }
    Ok(places)
}

/// The number of a bit among those of all vectors.
fn key(place: usize, k: u32) -> u128
    ensures { result ≡ key place k }
{
    place as u128 * 0x1_0000_0000 + u128::from(k)
}

/// The stretch of a vector's range.
fn stretch_of(place: usize, span: Span) -> Stretch
    ensures { result ≡ stretch place span }
{
    if span.last < span.first {
        Stretch {
            low: key(place, span.last),
            high: key(place, span.first),
        }
    } else {
        Stretch {
            low: key(place, span.first),
            high: key(place, span.last),
        }
    }
}

/// Adds the stretch of a declared range.
#[tactic(auto, unfolding(crate::specs::Late::stretches))]
fn add_stretch(found: &mut Items<Stretch>, places: &Places<'_>, event: &Event) -> Result<(), Memory>
    ensures { IfOk result
        (λ _. (rest : List Event) → found.new ++ stretches (said places.now) rest
        ≡ found.old ++ stretches (said places.now) (event.now ∷ rest)) }
{
    let Event::Declared(kind, name, _) = event else {
        return Ok(());
    };
    match (places.find(name.as_bytes()), kind.span) {
        (Some(place), Some(span)) => found.push(stretch_of(place, span)),
        _ => Ok(()),
    }
}

/// The stretches of all declared ranges.
#[tactic(auto, unfolding(crate::specs::Late::stretches), using(std::proofs::lemmas::List::drop_more))]
fn stretches(alloc: Global, places: &Places<'_>, events: &[Event]) -> Result<Items<Stretch>, Memory>
    ensures { IfOk result (λ found. found ≡ stretches (said places.now) events.now) }
{
    let mut found = Items::new(alloc);
    for event in events {
        match add_stretch(&mut found, places, event) {
            Ok(()) => {}
            Err(wanting) => {
                drop(found);
                return Err(wanting);
            }
        }
    }
    Ok(found)
}

/// What all declared ranges cover.
fn cover_of(alloc: Global, places: &Places<'_>, events: &[Event]) -> Result<Cover, Memory>
    ensures { IfOk result
        (λ cover. (k : ℕ) → list_any (holds k) cover
        ≡ list_any (holds k) (stretches (said places.now) events.now)) }
{
    Cover::of(alloc, stretches(alloc, places, events)?.into_vec())
}

/// Adds a name that is declared alone.
#[tactic(auto, using(crate::proofs::LateLemmas::or_past))]
fn add_alone<'a>(names: &mut Names<'a>, event: &'a Event) -> Result<(), Memory>
    ensures { IfOk result
        (λ _. (net : List ℕ) (rest : Bool) → (stands names.new net || rest)
        ≡ (stands names.old net || (declares_alone net event.entry.now || rest))) }
{
    match event {
        Event::Declared(kind, name, _) if kind.span.is_none() => {
            names.add(name.as_bytes())?;
            Ok(())
        }
        _ => Ok(()),
    }
}

/// The names that are declared alone.
#[tactic(auto, using(std::proofs::lemmas::List::drop_more, crate::proofs::LateLemmas::or_nothing))]
fn alone<'a>(alloc: Global, events: &'a [Event]) -> Result<Names<'a>, Memory>
    ensures { IfOk result
        (λ names. (net : List ℕ) → stands names net
        ≡ list_any (declares_alone net) events.entry.now) }
{
    let mut names = Names::new(alloc);
    for event in events {
        match add_alone(&mut names, event) {
            Ok(()) => {}
            Err(wanting) => {
                drop(names);
                return Err(wanting);
            }
        }
    }
    Ok(names)
}

/// What the declarations of some events have.
#[derive(Drop)]
pub(crate) struct Late<'a> {
    alone: Names<'a>,
    places: Places<'a>,
    cover: Cover,
}

impl<'a> Late<'a> {
    /// Reads the events once, and sorts the ranges.
    pub(crate) fn of(alloc: Global, events: &'a [Event]) -> Result<Late<'a>, Memory>
        ensures { IfOk result (λ late. IsLate late events.entry.now) }
    {
        let Pair {
            one: alone,
            other: places,
        } = both(alone(alloc, events), vector_places(alloc, events))?;
        match cover_of(alloc, &places, events) {
            Ok(cover) => Ok(Late {
                alone,
                places,
                cover,
            }),
            Err(wanting) => {
                drop(alone);
                drop(places);
                Err(wanting)
            }
        }
    }

    /// Whether a bit of this number of the vector of this place is declared.
    fn has_number(&self, place: usize, k: u64) -> bool
        ensures { result
            ≡ (if nat_lt k (2 ^ 32) then list_any (holds (key place k)) self.now.cover else false) }
    {
        match u32::try_from(k) {
            Ok(k) => self.cover.has(key(place, k)),
            Err(_) => false,
        }
    }

    /// Whether the net is a declared bit of the vector that is named before `at`.
    fn has_bit(&self, alloc: Global, net: &[u8], at: usize) -> Result<bool, Memory>
        requires { at < length net.now }
        ensures { IfOk result (λ is. IsBitTold self.now net.now at is) }
    {
        let (vector, place_text) = net.split_at(at);
        let Some(k) = bit_number(vector, net) else {
            return Ok(false);
        };
        let Some(place) = self.places.find(vector) else {
            return Ok(false);
        };
        if !self.has_number(place, k) {
            return Ok(false);
        }
        is_place_text(alloc, place_text, k as u32)
    }

    /// Whether a declaration has the net, in constant time on average but for the search among the ranges.
    pub(crate) fn has(&self, alloc: Global, net: &Name) -> Result<bool, Memory>
        ensures { IfOk result
            (λ is. (events : List Event) → IsLate self.now events → is
            ≡ list_any (declares net.now) events) }
    {
        let net = net.as_bytes();
        if self.alone.has(net) {
            return Ok(true);
        }
        match last_bracket(net) {
            Some(at) => self.has_bit(alloc, net, at),
            None => Ok(false),
        }
    }
}
