//! The units of a library.

ghost use Rattle.std.specs.Prelude.{◌≡◌, ◌≤◌, unsigned_abs, option_map, IfOk, IfSome};
ghost use Rattle.liberty_cells.specs.Units.{time_named, time_of, time_unit, is_ff, is_pf, cap_ten, cap_with, cap_of, last_cap, cap_unit, known, power_of};

use crate::powers::power_of;
use crate::statements::{last, lists, one_text, values};
use sta_units::{Memory, Unit};
use std::alloc::Global;
use timing_defs::{Item, Lexeme};

/// The units that are known.
#[derive(Clone, Copy, Drop)]
pub(crate) struct Known {
    pub(crate) time: Option<Unit>,
    pub(crate) cap: Option<Unit>,
}

/// A written unit of time.
pub(crate) fn time_named(text: &[u8]) -> Option<Unit>
    ensures { result ≡ time_named text.now }
{
    if text == b"1ps".as_slice() {
        Some(Unit { ten: 3 })
    } else if text == b"10ps".as_slice() {
        Some(Unit { ten: 4 })
    } else if text == b"100ps".as_slice() {
        Some(Unit { ten: 5 })
    } else if text == b"1ns".as_slice() {
        Some(Unit { ten: 6 })
    } else {
        None
    }
}

/// The unit of time that a value writes; without one it is 1 ns in a whole text.
#[tactic(auto, unfolding(crate::specs::Units::time_of))]
fn time_of(whole: bool, value: Option<&[Lexeme]>) -> Option<Unit>
    ensures { result ≡ time_of whole (option_map (λ v. v.now) value.entry) }
{
    let Some(value) = value else {
        if whole {
            return Some(Unit { ten: 6 });
        }
        return None;
    };
    match one_text(value) {
        None => None,
        Some(text) => time_named(text),
    }
}

fn time_unit(alloc: Global, whole: bool, items: &[Item]) -> Result<Option<Unit>, Memory>
    ensures { IfOk result (λ unit. unit ≡ time_unit whole items.now) }
{
    let found = values(alloc, items, b"time_unit")?;
    let unit = time_of(whole, last(found.as_slice()));
    drop(found);
    Ok(unit)
}

fn is_ff(text: &[u8]) -> bool
    ensures { result ≡ is_ff text.now }
{
    text == b"ff".as_slice()
        || text == b"fF".as_slice()
        || text == b"Ff".as_slice()
        || text == b"FF".as_slice()
}

fn is_pf(text: &[u8]) -> bool
    ensures { result ≡ is_pf text.now }
{
    text == b"pf".as_slice()
        || text == b"pF".as_slice()
        || text == b"Pf".as_slice()
        || text == b"PF".as_slice()
}

/// A written unit of capacitance, as the power of ten of its aF.
pub(crate) fn cap_ten(text: &[u8]) -> Option<i32>
    ensures value { result ≡ cap_ten text.now }
    ensures within { IfSome result (λ ten. unsigned_abs ten ≤ 6) }
{
    if is_ff(text) {
        Some(3)
    } else if is_pf(text) {
        Some(6)
    } else {
        None
    }
}

/// The unit of a power of ten and a written unit.
fn cap_with(power: Option<i32>, ten: Option<i32>) -> Option<Unit>
    requires power { IfSome power (λ p. unsigned_abs p ≤ 3) }
    requires ten { IfSome ten (λ t. unsigned_abs t ≤ 6) }
    ensures { result ≡ cap_with power ten }
{
    let Some(power) = power else {
        return None;
    };
    let Some(ten) = ten else {
        return None;
    };
    Some(Unit { ten: power + ten })
}

/// The unit of a list of a power of ten and a written unit.
fn cap_of(args: &[Lexeme]) -> Option<Unit>
    ensures { result ≡ cap_of args.now }
{
    let Some((power, rest)) = args.split_first() else {
        return None;
    };
    let Some((word, more)) = rest.split_first() else {
        return None;
    };
    if !more.is_empty() {
        return None;
    }
    cap_with(
        power_of(power.text.as_slice()),
        cap_ten(word.text.as_slice()),
    )
}

#[tactic(auto, unfolding(crate::specs::Units::last_cap))]
fn last_cap(args: Option<&[Lexeme]>) -> Option<Unit>
    ensures { result ≡ last_cap (option_map (λ v. v.now) args.entry) }
{
    match args {
        None => None,
        Some(args) => cap_of(args),
    }
}

fn cap_unit(alloc: Global, items: &[Item]) -> Result<Option<Unit>, Memory>
    ensures { IfOk result (λ unit. unit ≡ cap_unit items.now) }
{
    let found = lists(alloc, items, b"capacitive_load_unit")?;
    let unit = last_cap(last(found.as_slice()));
    drop(found);
    Ok(unit)
}

/// The units that a library's statements write, or that a whole text has without them.
pub(crate) fn known_units(alloc: Global, whole: bool, items: &[Item]) -> Result<Known, Memory>
    ensures { IfOk result (λ units. units ≡ known whole items.now) }
{
    Ok(Known {
        time: time_unit(alloc, whole, items)?,
        cap: cap_unit(alloc, items)?,
    })
}
