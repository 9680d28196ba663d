//! Decimals in a unit, rounded quotients, roots and printed times.
//!
//!     units decimal 6 |0.0125|    the number of a text in the unit 10^6: 12500, or why it has none
//!     units round 5 2             5 / 2 to the nearest whole number, halves upward: 3
//!     units root 24               the whole part of a square root: 4
//!     units picoseconds -2        a time in fs as it is printed: -0.002

use crate::answers::Answer;
use crate::words::{Stop, between_bars, number, parted};
use sta_units::{DecFault, Fs, Memory, Unit, decimal, print_ps, rnd, root};
use std::alloc::Global;

fn fault_word(fault: DecFault) -> &'static str {
    match fault {
        DecFault::NotDecimal => "no decimal",
        DecFault::TooLong => "too long",
        DecFault::OutOfUnitRange => "out of range",
    }
}

fn decimal_row(answer: &mut Answer, row: &str) -> Result<(), Stop> {
    let (ten, text) = parted(row, ' ')?;
    let ten = number(ten)?;
    if ten < -40 || ten > 40 {
        return Err(Stop::Row);
    }
    let text = between_bars(text)?;
    match decimal(text.as_bytes(), Unit { ten: ten as i32 }) {
        Ok(value) => answer.value(value),
        Err(fault) => answer.word(fault_word(fault)),
    }
}

fn round_row(answer: &mut Answer, row: &str) -> Result<(), Stop> {
    let (dividend, divisor) = parted(row, ' ')?;
    let dividend = number(dividend)?;
    let divisor = number(divisor)?;
    if divisor < 1 {
        return Err(Stop::Row);
    }
    answer.value(rnd(i128::from(dividend), i128::from(divisor)))
}

fn root_row(answer: &mut Answer, row: &str) -> Result<(), Stop> {
    let square = number(row)?;
    if square < 0 {
        return Err(Stop::Row);
    }
    answer.value(root(square as u128))
}

fn picoseconds_row(alloc: Global, answer: &mut Answer, row: &str) -> Result<(), Stop> {
    match print_ps(alloc, Fs(number(row)?)) {
        Ok(text) => answer.word(text.as_str()),
        Err(Memory) => Err(Stop::Memory),
    }
}

pub(crate) fn answer(alloc: Global, answer: &mut Answer, row: &str) -> Result<(), Stop> {
    let (kind, rest) = parted(row, ' ')?;
    match kind {
        "decimal" => decimal_row(answer, rest),
        "round" => round_row(answer, rest),
        "root" => root_row(answer, rest),
        "picoseconds" => picoseconds_row(alloc, answer, rest),
        _ => Err(Stop::Row),
    }
}
