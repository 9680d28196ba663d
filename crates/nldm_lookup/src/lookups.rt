//! Look-up in a table of one or two variables.

ghost use Rattle.std.specs.Prelude.{◌≡◌, ◌*◌, ◌^◌, ◌≤◌, unsigned_abs, true, false, MatchResult, IfOk};
ghost use Rattle.sta_units.specs.Numbers.{limit, is_within};
ghost use Rattle.timing_defs.specs.Lookup.{look, is_well_formed};

use crate::axes::{segment, span};
use crate::columns::column;
use crate::lines::line;
use sta_units::LIM;
use timing_defs::Table;

/// The value lies more than `sta_units::LIM` from 0.
#[derive(Debug, Clone, Copy, PartialEq, Eq, Drop)]
pub struct OutOfRange;

/// The value of a well-formed table at `x` of its first axis and `y` of its second, both within
/// `sta_units::LIM`: interpolated along the first axis in two columns and then along the second,
/// each step rounded once. Outside an axis its end segment is extended, and an axis of one entry is
/// constant. Of a delay table `x` is the slew in fs, `y` the load in aF, and the value is in fs.
/// `OutOfRange` exactly where the value lies outside `sta_units::LIM`. Takes no memory.
pub fn look_up(t: &Table, x: i64, y: i64) -> Result<i64, OutOfRange>
    requires well_formed { is_well_formed t.now ≡ true }
    requires x_within { unsigned_abs x ≤ limit }
    requires y_within { unsigned_abs y ≤ limit }
    ensures value { MatchResult result (λ v. v ≡ look t.now x y)
        (λ _. is_within (look t.now x y) ≡ false) }
    ensures within { IfOk result (λ v. unsigned_abs v ≤ limit) }
{
    in_range(interpolated(t, x, y))
}

fn in_range(value: i128) -> Result<i64, OutOfRange>
    ensures value { MatchResult result (λ v. v ≡ value) (λ _. is_within value ≡ false) }
    ensures within { IfOk result (λ v. unsigned_abs v ≤ limit) }
{
    if value.unsigned_abs() <= LIM.unsigned_abs() as u128 {
        Ok(value as i64)
    } else {
        Err(OutOfRange)
    }
}

fn interpolated(t: &Table, x: i64, y: i64) -> i128
    requires well_formed { is_well_formed t.now ≡ true }
    requires x_within { unsigned_abs x ≤ limit }
    requires y_within { unsigned_abs y ≤ limit }
    ensures { result ≡ look t.now x y }
{
    let i = segment(t.xs.as_slice(), x);
    if t.ys.len() == 1 {
        return column(t, i, 0, x);
    }
    let j = segment(t.ys.as_slice(), y);
    let left = column(t, i, j, x);
    let right = column(t, i, j + 1, x);
    line(left, right, span(t.ys.as_slice(), j), y)
}
