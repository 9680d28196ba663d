//! The capacitance of a net that belongs to no node.

ghost use Rattle.std.specs.Prelude.{◌≡◌, ◌≤◌, ◌*◌, ◌+◌, ◌<◌, ◌^◌, ◌∷◌, List, true, is_some, Some, IfSome, MatchOption};
ghost use Rattle.std.specs.List.{list_any};
ghost use Rattle.sta_units.specs.Numbers.{limit};
ghost use Rattle.spef_reader.specs.declared.events.Event.{Event};
ghost use Rattle.spef_reader.specs.Faults.{is_capacitance, is_coupling, is_resistance, plus, sum_on, sum_from, total_of, lump_of};

use crate::events::Event;
use crate::sizes::Size;

pub(crate) fn is_capacitance(event: &Event) -> bool
    ensures { result ≡ is_capacitance event.now }
{
    match event {
        Event::Ground(_, _) | Event::Coupling(_, _, _, _) => true,
        _ => false,
    }
}

pub(crate) fn is_coupling(event: &Event) -> bool
    ensures { result ≡ is_coupling event.now }
{
    match event {
        Event::Coupling(_, _, _, _) => true,
        _ => false,
    }
}

pub(crate) fn is_resistance(event: &Event) -> bool
    ensures { result ≡ is_resistance event.now }
{
    match event {
        Event::Resistor(_, _, _) => true,
        _ => false,
    }
}

/// Whether a resistance stands in the rows.
pub(crate) fn has_resistance(rows: &[Event]) -> bool
    ensures { result ≡ list_any is_resistance rows.now }
{
    rows.iter().any(|event| is_resistance(event))
}

/// Whether a capacitance between two nodes stands in the rows.
pub(crate) fn has_coupling(rows: &[Event]) -> bool
    ensures { result ≡ list_any is_coupling rows.now }
{
    rows.iter().any(|event| is_coupling(event))
}

fn has_capacitance(rows: &[Event]) -> bool
    ensures { result ≡ list_any is_capacitance rows.now }
{
    rows.iter().any(|event| is_capacitance(event))
}

/// The sum with a size; none where either is not known.
fn sum_on(sum: Option<u128>, size: &Option<Size>) -> Option<u128>
    requires { IfSome sum (λ n. n + limit < 2 ^ 128) }
    ensures value { result ≡ sum_on sum size.now }
    ensures bound { IfSome result (λ n. (is_some sum ≡ true) × IfSome sum (λ m. n ≤ m + limit)) }
{
    match (sum, size) {
        (Some(sum), Some(size)) => Some(sum + u128::from(size.get())),
        _ => None,
    }
}

/// The sum with the capacitance of an event.
#[tactic(auto, unfolding(crate::specs::Faults::sum_from))]
fn sum_with(sum: Option<u128>, event: &Event) -> Option<u128>
    requires { IfSome sum (λ n. n + limit < 2 ^ 128) }
    ensures value { (rest : List Event) → sum_from result rest ≡ sum_from sum (event.now ∷ rest) }
    ensures bound { IfSome result (λ n. (is_some sum ≡ true) × IfSome sum (λ m. n ≤ m + limit)) }
{
    match event {
        Event::Ground(_, size) | Event::Coupling(_, _, _, size) => sum_on(sum, size),
        _ => sum,
    }
}

/// The sum of all capacitances; none where one is not known.
#[tactic(auto, unfolding(crate::specs::Faults::sum_from), using(std::proofs::lemmas::List::drop_more))]
fn sum_of(rows: &[Event]) -> Option<u128>
    ensures { result ≡ sum_from (Some 0) rows.now }
{
    let mut sum = Some(0);
    for event in rows {
        sum = sum_with(sum, event);
    }
    sum
}

#[tactic(auto, unfolding(crate::specs::Faults::total_of))]
fn total_in(event: &Event) -> Option<Option<u128>>
    ensures { (rest : List Event)
        → MatchOption result (total_of (event.now ∷ rest) ≡ total_of rest)
        (λ total. total_of (event.now ∷ rest) ≡ total) }
{
    match event {
        Event::Total(size) => Some(size.as_ref().map(|size| u128::from(size.get()))),
        _ => None,
    }
}

/// The total that is written behind the net's name.
#[tactic(auto, unfolding(crate::specs::Faults::total_of), using(std::proofs::lemmas::List::drop_more))]
fn total_of(rows: &[Event]) -> Option<u128>
    ensures { result ≡ total_of rows.now }
{
    for event in rows {
        if let Some(total) = total_in(event) {
            return total;
        }
    }
    None
}

/// The capacitance that belongs to no node; none where a part of it is not known.
pub(crate) fn lump_of(rows: &[Event]) -> Option<u128>
    ensures { result ≡ lump_of rows.now }
{
    if has_resistance(rows) {
        Some(0)
    } else if has_capacitance(rows) {
        sum_of(rows)
    } else {
        total_of(rows)
    }
}
