//! Values of a table, and its columns along the first axis.

ghost use Rattle.std.specs.Prelude.{◌≡◌, ◌*◌, ◌^◌, ◌<◌, ◌≤◌, unsigned_abs, length, true};
ghost use Rattle.sta_units.specs.Numbers.{limit};
ghost use Rattle.timing_defs.specs.Lookup.{segment, along, entry_at, is_well_formed};

use crate::axes::{entry, span};
use crate::lines::line;
use timing_defs::Table;

// The value at entry `i` of the first axis and `j` of the second.
fn value(t: &Table, i: usize, j: usize) -> i64
    requires well_formed { is_well_formed t.now ≡ true }
    requires row_within { i < length t.now.xs }
    requires column_within { j < length t.now.ys }
    ensures value { result ≡ entry_at t.now i j }
    ensures bound { unsigned_abs result ≤ limit }
{
    entry(t.vals.as_slice(), i * t.ys.len() + j)
}

/// The value at `x` in column `j`, along the first axis, of which `i` is the segment at `x`.
/// Takes no memory.
pub fn column(t: &Table, i: usize, j: usize, x: i64) -> i128
    requires well_formed { is_well_formed t.now ≡ true }
    requires row { i ≡ segment t.now.xs x }
    requires column_within { j < length t.now.ys }
    requires x_within { unsigned_abs x ≤ limit }
    ensures value { result ≡ along t.now.xs (λ i. entry_at t.now i j) x }
    ensures bound { unsigned_abs result ≤ 5 * 10 ^ 24 }
{
    if t.xs.len() == 1 {
        return i128::from(value(t, 0, j));
    }
    let below = i128::from(value(t, i, j));
    let above = i128::from(value(t, i + 1, j));
    line(below, above, span(t.xs.as_slice(), i), x)
}
