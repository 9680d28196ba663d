//! The checks of a library's units and delay model.

ghost use Rattle.std.specs.Prelude.{◌≡◌, IfOk};
ghost use Rattle.sta_text.specs.Faults.{least_from};
ghost use Rattle.liberty_cells.specs.Statements.{told};
ghost use Rattle.liberty_cells.specs.Faults.{factor_faults, cap_word_faults, cap_unit_faults, cap_units_faults, time_faults, load_faults, model_faults, header_faults};

use crate::attributes::{Check, check_attribute, note, note_first, note_missing};
use crate::library_units::cap_ten;
use crate::powers::power_of;
use crate::scope::Extent;
use crate::statements::lists;
use sta_text::Wrong;
use sta_units::{Memory, Unit, decimal};
use std::alloc::Global;
use timing_defs::{Code, Item, Lexeme};

#[tactic(auto, unfolding(sta_text::specs::Faults::least_from))]
fn check_factor(best: Option<Wrong>, factor: &Lexeme) -> Option<Wrong>
    ensures { result ≡ least_from best (factor_faults factor.now) }
{
    let text = factor.text.as_slice();
    if decimal(text, Unit { ten: 0 }).is_err() {
        return note(best, Code::LibertyBadToken, factor);
    }
    if power_of(text).is_none() {
        return note(best, Code::LibertyBadUnit, factor);
    }
    best
}

#[tactic(auto, unfolding(sta_text::specs::Faults::least_from))]
fn check_cap_word(best: Option<Wrong>, word: &Lexeme) -> Option<Wrong>
    ensures { result ≡ least_from best (cap_word_faults word.now) }
{
    if cap_ten(word.text.as_slice()).is_none() {
        return note(best, Code::LibertyBadUnit, word);
    }
    best
}

/// Checks a list of a power of ten and a unit of capacitance.
#[tactic(auto, using(sta_text::proofs::FaultsLemmas::least_append))]
fn check_cap_unit(best: Option<Wrong>, extent: Extent, args: &[Lexeme]) -> Option<Wrong>
    ensures { result ≡ least_from best (cap_unit_faults extent args.now) }
{
    let Some((factor, rest)) = args.split_first() else {
        return note_missing(best, Code::LibertyBadUnit, extent);
    };
    let least = check_factor(best, factor);
    match rest.split_first() {
        None => note_missing(least, Code::LibertyBadUnit, extent),
        Some((word, more)) => {
            note_first(check_cap_word(least, word), Code::LibertyBadToken, more)
        }
    }
}

/// Checks all lists of units of capacitance, of which a whole text has one.
#[tactic(auto, unfolding(crate::specs::Faults::cap_units_faults, sta_text::specs::Faults::least_from), using(std::proofs::lemmas::List::drop_more, sta_text::proofs::FaultsLemmas::least_append))]
fn check_cap_units(best: Option<Wrong>, extent: Extent, found: &[&[Lexeme]]) -> Option<Wrong>
    ensures { result ≡ least_from best (cap_units_faults extent (told found.now)) }
{
    if found.is_empty() {
        return note_missing(best, Code::LibertyBadUnit, extent);
    }
    let mut least = best;
    for args in found {
        least = check_cap_unit(least, extent, *args);
    }
    least
}

#[tactic(auto, unfolding(crate::specs::Faults::time_faults))]
fn check_time(alloc: Global, best: Option<Wrong>, items: &[Item]) -> Result<Option<Wrong>, Memory>
    ensures { IfOk result (λ least. least ≡ least_from best (time_faults items.now)) }
{
    let code = Code::LibertyBadUnit;
    check_attribute(alloc, best, code, Check::TimeUnit, b"time_unit", items)
}

#[tactic(auto, unfolding(crate::specs::Faults::load_faults))]
fn check_load(
    alloc: Global,
    best: Option<Wrong>,
    extent: Extent,
    items: &[Item],
) -> Result<Option<Wrong>, Memory>
    ensures { IfOk result (λ least. least ≡ least_from best (load_faults extent items.now)) }
{
    let found = lists(alloc, items, b"capacitive_load_unit")?;
    let least = check_cap_units(best, extent, found.as_slice());
    drop(found);
    Ok(least)
}

#[tactic(auto, unfolding(crate::specs::Faults::model_faults))]
fn check_model(alloc: Global, best: Option<Wrong>, items: &[Item]) -> Result<Option<Wrong>, Memory>
    ensures { IfOk result (λ least. least ≡ least_from best (model_faults items.now)) }
{
    let code = Code::LibertyOtherDelayModel;
    check_attribute(alloc, best, code, Check::DelayModel, b"delay_model", items)
}

/// Checks the units and the delay model.
#[tactic(auto, unfolding(crate::specs::Faults::header_faults), using(sta_text::proofs::FaultsLemmas::least_append))]
pub(crate) fn check_header(
    alloc: Global,
    best: Option<Wrong>,
    extent: Extent,
    items: &[Item],
) -> Result<Option<Wrong>, Memory>
    ensures { IfOk result (λ least. least ≡ least_from best (header_faults extent items.now)) }
{
    let time = check_time(alloc, best, items)?;
    let load = check_load(alloc, time, extent, items)?;
    check_model(alloc, load, items)
}
