//! The numbers of constraints.

ghost use Rattle.std.specs.Prelude.{◌≡◌, ◌≤ℤ◌, ◌<ℤ◌, ◌+ℤ◌, int_lt, pos, ℤ, unsigned_abs, ◌≤◌, ◌^◌, IfSome, true, false, Some, None};
ghost use Rattle.sdc_reader.specs.Numbers.{scale, fits, number_of, is_absent, is_faulty, are_cycles, is_waveform, checked_edges, edges, misfits};

use crate::commands::Quantity;
use crate::draft::{Figure, Wave};
use sta_units::{Unit, decimal};
use timing_defs::Units;

/// The unit of a quantity.
fn scale(units: &Units, quantity: Quantity) -> Unit
    ensures { result.ten ≡ scale units.now quantity }
{
    match quantity {
        Quantity::Load => units.cap,
        Quantity::Cycles => Unit { ten: 0 },
        Quantity::Factor => Unit { ten: 6 },
        _ => units.time,
    }
}

/// Whether the number is in the range of the quantity.
pub(crate) fn fits(quantity: Quantity, value: i64) -> bool
    ensures { result ≡ fits quantity value }
{
    match quantity {
        Quantity::Period => 2 <= value,
        Quantity::Slew | Quantity::Load => 0 <= value,
        Quantity::Factor => 0 <= value && value <= 10_000_000,
        _ => true,
    }
}

/// The number that a word writes.
#[tactic(auto, unfolding(crate::specs::Numbers::number_of))]
pub(crate) fn number_of(units: &Units, quantity: Quantity, word: &[u8]) -> Figure
    ensures { result ≡ number_of units.now quantity word.now }
{
    match decimal(word, scale(units, quantity)) {
        Ok(value) => {
            if fits(quantity, value) {
                Figure::Value(value)
            } else {
                Figure::Faulty
            }
        }
        Err(_) => Figure::Faulty,
    }
}

impl Figure {
    /// Whether none was written.
    pub(crate) fn is_absent(self) -> bool
        ensures { result ≡ is_absent self }
    {
        match self {
            Figure::Absent => true,
            _ => false,
        }
    }

    /// Whether what was written is no number in range.
    pub(crate) fn is_faulty(self) -> bool
        ensures { result ≡ is_faulty self }
    {
        match self {
            Figure::Faulty => true,
            _ => false,
        }
    }
}

/// Whether the number is one of cycles, of hold or of setup.
pub(crate) fn are_cycles(hold: bool, value: i64) -> bool
    ensures { result ≡ are_cycles hold value }
{
    let least = if hold { 0 } else { 1 };
    least <= value && value <= 1000
}

/// The next rise of a clock.
fn next_rise(rise: i64, period: i64) -> i128
    ensures { result ≡ rise +ℤ period }
{
    i128::from(rise) + i128::from(period)
}

/// Whether the fall comes before the next rise.
#[tactic(auto, using(crate::proofs::Signed::signed_steps))]
fn falls_in_time(period: i64, rise: i64, fall: i64) -> bool
    ensures { result ≡ int_lt fall (rise +ℤ period) }
{
    i128::from(fall) < next_rise(rise, period)
}

/// Whether the edges are those of a waveform.
fn is_waveform(period: i64, rise: i64, fall: i64) -> bool
    ensures { result ≡ is_waveform period rise fall }
{
    0 <= rise && rise < fall && falls_in_time(period, rise, fall)
}

fn checked_edges(period: i64, rise: Figure, fall: Figure) -> Option<(i64, i64)>
    ensures { result ≡ checked_edges period rise fall }
{
    match (rise, fall) {
        (Figure::Value(rise), Figure::Value(fall)) => {
            if is_waveform(period, rise, fall) {
                Some((rise, fall))
            } else {
                None
            }
        }
        _ => None,
    }
}

/// The rise and the fall of a clock; none where they do not fit into the period.
pub(crate) fn edges(period: i64, wave: Wave) -> Option<(i64, i64)>
    ensures { result ≡ edges period wave }
{
    match wave.at {
        None => Some((0, period.div_euclid(2))),
        Some(_) => checked_edges(period, wave.rise, wave.fall),
    }
}

/// Whether the period and the waveform were read and do not fit together.
pub(crate) fn misfits(period: Figure, rise: Figure, fall: Figure) -> bool
    ensures { result ≡ misfits period rise fall }
{
    match (period, rise, fall) {
        (Figure::Value(period), Figure::Value(rise), Figure::Value(fall)) => {
            !is_waveform(period, rise, fall)
        }
        _ => false,
    }
}
