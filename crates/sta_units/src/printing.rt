//! Times as text.

ghost use Rattle.std.specs.Prelude.{◌≡◌, IfOk, string_bytes};
ghost use Rattle.sta_units.specs.Picoseconds.{thousandths_text, ps_text};

use crate::units::{Fs, Memory};
use std::alloc::Global;

// The whole part, a point and three digits.
#[tactic(auto, unfolding(crate::specs::Picoseconds::thousandths_text))]
fn thousandths(alloc: Global, count: u64) -> Result<String, Memory>
    ensures { IfOk result (λ text. string_bytes text ≡ thousandths_text count) }
{
    let whole = count / 1000;
    let tenths = count / 100 % 10;
    let hundredths = count / 10 % 10;
    let rest = count % 10;
    let text = format!(in alloc; "{whole}.{tenths}{hundredths}{rest}")?;
    Ok(text)
}

/// A time in picoseconds with three decimals: `-` where it is negative, the whole part without
/// leading zeros, a point, three digits. `Memory` is its only error.
#[tactic(auto, unfolding(crate::specs::Picoseconds::ps_text))]
pub fn print_ps(alloc: Global, v: Fs) -> Result<String, Memory>
    ensures { IfOk result (λ text. string_bytes text ≡ ps_text v.0) }
{
    let text = thousandths(alloc, v.0.unsigned_abs())?;
    if v.0 < 0 {
        let negative = format!(in alloc; "-{text}")?;
        return Ok(negative);
    }
    Ok(text)
}
