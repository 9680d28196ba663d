//! The checks of simple attributes. Each check takes the least fault that is known, and gives the
//! least of that one and its own.

ghost use Rattle.std.specs.Prelude.{◌≡◌, IfOk};
ghost use Rattle.sta_text.specs.Faults.{least_from};
ghost use Rattle.liberty_cells.specs.Statements.{told, values, one_text};
ghost use Rattle.liberty_cells.specs.Faults.{at, at_first, missing, is_time_unit, is_sense, is_direction, meets, passes_text, value_faults, each_value};

use crate::library_units::time_named;
use crate::numbers::is_cap;
use crate::scope::Extent;
use crate::statements::{one_text, values};
use sta_text::{Wrong, lesser};
use sta_units::{Memory, Unit};
use std::alloc::Global;
use timing_defs::{Code, Item, Lexeme};

/// What the value of a simple attribute has to be.
#[derive(Clone, Copy, Drop)]
pub(crate) enum Check {
    TimeUnit,
    DelayModel,
    Sense,
    Direction,
    Capacitance(Option<Unit>),
    OneToken,
}

/// Notes a fault at a token.
#[tactic(auto, unfolding(sta_text::specs::Faults::least_from))]
pub(crate) fn note(best: Option<Wrong>, code: Code, token: &Lexeme) -> Option<Wrong>
    ensures { result ≡ least_from best (at code token.now) }
{
    lesser(
        best,
        Wrong {
            code,
            at: token.offset as usize,
        },
    )
}

/// Notes a fault at the first token of a value or list.
#[tactic(auto, unfolding(sta_text::specs::Faults::least_from))]
pub(crate) fn note_first(best: Option<Wrong>, code: Code, tokens: &[Lexeme]) -> Option<Wrong>
    ensures { result ≡ least_from best (at_first code tokens.now) }
{
    match tokens.split_first() {
        None => best,
        Some((first, _)) => note(best, code, first),
    }
}

/// Notes what is missing in a whole text.
#[tactic(auto, unfolding(sta_text::specs::Faults::least_from))]
pub(crate) fn note_missing(best: Option<Wrong>, code: Code, extent: Extent) -> Option<Wrong>
    ensures { result ≡ least_from best (missing code extent) }
{
    if !extent.whole {
        return best;
    }
    lesser(
        best,
        Wrong {
            code,
            at: extent.size,
        },
    )
}

fn is_time_unit(text: &[u8]) -> bool
    ensures { result ≡ is_time_unit text.now }
{
    time_named(text).is_some()
}

fn is_sense(text: &[u8]) -> bool
    ensures { result ≡ is_sense text.now }
{
    text == b"positive_unate".as_slice()
        || text == b"negative_unate".as_slice()
        || text == b"non_unate".as_slice()
}

fn is_direction(text: &[u8]) -> bool
    ensures { result ≡ is_direction text.now }
{
    text == b"input".as_slice()
        || text == b"output".as_slice()
        || text == b"inout".as_slice()
        || text == b"internal".as_slice()
}

fn meets(check: Check, text: &[u8]) -> bool
    ensures { result ≡ meets check text.now }
{
    match check {
        Check::TimeUnit => is_time_unit(text),
        Check::DelayModel => text == b"table_lookup".as_slice(),
        Check::Sense => is_sense(text),
        Check::Direction => is_direction(text),
        Check::Capacitance(unit) => is_cap(unit, text),
        Check::OneToken => true,
    }
}

fn passes(check: Check, value: &[Lexeme]) -> bool
    ensures { result ≡ passes_text check (one_text value.now) }
{
    match one_text(value) {
        None => false,
        Some(text) => meets(check, text),
    }
}

#[tactic(auto, unfolding(sta_text::specs::Faults::least_from))]
fn note_value(best: Option<Wrong>, code: Code, check: Check, value: &[Lexeme]) -> Option<Wrong>
    ensures { result ≡ least_from best (value_faults code check value.now) }
{
    if passes(check, value) {
        return best;
    }
    note_first(best, code, value)
}

#[tactic(auto, unfolding(sta_text::specs::Faults::least_from), using(std::proofs::lemmas::List::drop_more, sta_text::proofs::FaultsLemmas::least_append))]
fn note_values(best: Option<Wrong>, code: Code, check: Check, found: &[&[Lexeme]]) -> Option<Wrong>
    ensures { result ≡ least_from best (each_value code check (told found.now)) }
{
    let mut least = best;
    for value in found {
        least = note_value(least, code, check, *value);
    }
    least
}

/// Checks each value of a simple attribute.
pub(crate) fn check_attribute(
    alloc: Global,
    best: Option<Wrong>,
    code: Code,
    check: Check,
    name: &[u8],
    items: &[Item],
) -> Result<Option<Wrong>, Memory>
    ensures { IfOk result
        (λ least. least ≡ least_from best (each_value code check (values name.now items.now))) }
{
    let found = values(alloc, items, name)?;
    let least = note_values(best, code, check, found.as_slice());
    drop(found);
    Ok(least)
}
