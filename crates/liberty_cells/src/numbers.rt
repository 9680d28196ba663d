//! Decimals in a unit, and the numbers of strings.

ghost use Rattle.std.specs.Prelude.{◌≡◌, ◌++◌, ◌∷◌, [], pos, IfOk};
ghost use Rattle.sta_units.specs.Decimal.{decimal_of};
ghost use Rattle.std.specs.Option.{unwrap_or};
ghost use Rattle.std.specs.List.{list_all};
ghost use Rattle.liberty_cells.specs.Units.{number, is_number, number_or_zero, is_cap, is_short_decimal};
ghost use Rattle.liberty_cells.specs.Tables.{numbers, is_row, row, all_rows, flat};

use crate::words::{Words, has_all};
use sta_units::{DecFault, Memory, Unit, decimal};
use std::alloc::Global;
use timing_defs::{Items, Lexeme};

/// Whether a text is a decimal that is not too long, whatever its value.
fn is_short_decimal(text: &[u8]) -> bool
    ensures { result ≡ is_short_decimal (decimal_of text.now (pos 0)) }
{
    match decimal(text, Unit { ten: 0 }) {
        Ok(_) | Err(DecFault::OutOfUnitRange) => true,
        Err(DecFault::NotDecimal | DecFault::TooLong) => false,
    }
}

/// A decimal in range of a unit. Where the unit is not known the range is not looked at, and 0
/// stands for the number.
pub(crate) fn number(unit: Option<Unit>, text: &[u8]) -> Option<i64>
    ensures { result ≡ number unit text.now }
{
    match unit {
        None => {
            if is_short_decimal(text) {
                Some(0)
            } else {
                None
            }
        }
        Some(unit) => decimal(text, unit).ok(),
    }
}

/// The number, or 0 where it is none.
pub(crate) fn number_or_zero(unit: Option<Unit>, text: &[u8]) -> i64
    ensures { result ≡ number_or_zero unit text.now }
{
    number(unit, text).unwrap_or(0)
}

/// Whether a text is a capacitance, which is not negative.
pub(crate) fn is_cap(unit: Option<Unit>, text: &[u8]) -> bool
    ensures { result ≡ is_cap unit text.now }
{
    match number(unit, text) {
        None => false,
        Some(value) => value >= 0,
    }
}

/// Adds a number, or 0 where it is none; whether it is one.
fn add_number(unit: Option<Unit>, text: &[u8], found: &mut Items<i64>) -> Result<bool, Memory>
    ensures { IfOk result
        (λ good. (good ≡ is_number unit text.now)
        × (found.new ≡ found.old ++ number_or_zero unit text.now ∷ [])) }
{
    match number(unit, text) {
        None => {
            found.push(0)?;
            Ok(false)
        }
        Some(value) => {
            found.push(value)?;
            Ok(true)
        }
    }
}

/// Adds the numbers of a string, with 0 for what is none; whether each is one.
fn add_numbers(unit: Option<Unit>, text: &[u8], found: &mut Items<i64>) -> Result<bool, Memory>
    ensures { IfOk result
        (λ good. (good ≡ list_all (is_number unit) (numbers text.now))
        × (found.new ≡ found.old ++ row unit text.now)) }
{
    let mut good = true;
    let mut words = Words::new(text, true);
    while let Some(word) = words.next() {
        let is_good = add_number(unit, word, found)?;
        good = good && is_good;
    }
    Ok(good)
}

/// Adds the numbers of a string; whether it is a row of decimals in range.
pub(crate) fn add_row(
    unit: Option<Unit>,
    text: &[u8],
    found: &mut Items<i64>,
) -> Result<bool, Memory>
    ensures { IfOk result
        (λ good. (good ≡ is_row unit text.now) × (found.new ≡ found.old ++ row unit text.now)) }
{
    let good = add_numbers(unit, text, found)?;
    Ok(has_all(text) && good)
}

/// Numbers, and whether each string that they were read from is a row of decimals in range.
#[derive(Drop)]
pub(crate) struct Numbers {
    pub(crate) good: bool,
    pub(crate) values: Items<i64>,
}

/// The numbers of all strings of a list.
#[tactic(auto, using(std::proofs::lemmas::List::drop_more))]
pub(crate) fn flat(alloc: Global, unit: Option<Unit>, args: &[Lexeme]) -> Result<Numbers, Memory>
    ensures { IfOk result
        (λ numbers. (numbers.good ≡ all_rows unit args.now)
        × (numbers.values ≡ flat unit args.now)) }
{
    let mut good = true;
    let mut values = Items::new(alloc);
    for arg in args {
        match add_row(unit, arg.text.as_slice(), &mut values) {
            Ok(is_good) => good = good && is_good,
            Err(wanting) => {
                drop(values);
                return Err(wanting);
            }
        }
    }
    Ok(Numbers { good, values })
}
