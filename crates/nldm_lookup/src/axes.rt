//! Places on an axis.

ghost use Rattle.std.specs.Prelude.{◌≡◌, ◌+◌, ◌<◌, ◌≤◌, pos, ◌<ℤ◌, unsigned_abs, length, get_or, true};
ghost use Rattle.std.specs.List.{list_all};
ghost use Rattle.sta_units.specs.Numbers.{limit, is_within};
ghost use Rattle.timing_defs.specs.Lookup.{segment, is_axis};

use crate::lines::Span;

/// The element at `at` of a list within the limit. Takes no memory.
#[tactic(auto, using(crate::proofs::Rising::entry_within))]
pub fn entry(list: &[i64], at: usize) -> i64
    requires in_limit { list_all is_within list.now ≡ true }
    requires at_within { at < length list.now }
    ensures value { result ≡ get_or list.now at (pos 0) }
    ensures bound { unsigned_abs result ≤ limit }
{
    list[at]
}

/// The number of the segment of an axis at `x`: the inner entries that are not above `x`, by
/// binary search. Takes no memory.
pub fn segment(axis: &[i64], x: i64) -> usize
    requires axis { is_axis axis.now ≡ true }
    ensures value { result ≡ segment axis.now x }
    ensures within { 2 ≤ length axis.now → result + 1 < length axis.now }
{
    if axis.len() < 2 {
        return 0;
    }
    let inner = &axis[1..axis.len() - 1];
    inner.partition_point(|entry| *entry <= x)
}

/// The ends of the segment `at` of an axis. Takes no memory.
pub fn span(axis: &[i64], at: usize) -> Span
    requires axis { is_axis axis.now ≡ true }
    requires at_within { at + 1 < length axis.now }
    ensures from { result.from ≡ get_or axis.now at (pos 0) }
    ensures to { result.to ≡ get_or axis.now (at + 1) (pos 0) }
    ensures from_within { unsigned_abs result.from ≤ limit }
    ensures to_within { unsigned_abs result.to ≤ limit }
    ensures rising { result.from <ℤ result.to }
{
    Span {
        from: entry(axis, at),
        to: entry(axis, at + 1),
    }
}
