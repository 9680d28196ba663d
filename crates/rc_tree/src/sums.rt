//! Sums over the places of a forest, by one pass up and one down.

ghost use Rattle.std.specs.Prelude.{◌≡◌, ◌<◌, ◌≤◌, ◌+◌, ◌*◌, ◌^◌, length, IfOk, IfErr, IfSome};
ghost use Rattle.std.specs.Option.{option_map_or};
ghost use Rattle.rc_tree.specs.declared.faults.RcFault.TheVariants.{Memory as memory};
ghost use Rattle.rc_tree.specs.Growth.{row_at};
ghost use Rattle.rc_tree.specs.Moments.{IsRising, weight_at, given, sum_below, AreSubtotals, AreMoments, AreSmall};

use crate::faults::RcFault;
use crate::forests::Row;
use std::alloc::Global;
use timing_defs::Items;

/// The weight of a place goes to its parent too.
fn give(totals: &mut Vec<u128>, row: Row, place: usize)
    requires place { place < length totals.old.items }
    requires parent { IfSome row.parent (λ p. p < place) }
    requires room { IfSome row.parent
        (λ p. weight_at totals.old.items p + weight_at totals.old.items place ≤ 2 ^ 125) }
    ensures { totals.new.items ≡ given totals.old.items row.parent place }
{
    if let Some(parent) = row.parent {
        let weight = totals[place];
        totals[parent] += weight;
    }
}

/// The row of a place.
fn row_of(rows: &[Row], place: usize) -> Row
    requires { place < length rows.now }
    ensures { result ≡ row_at rows.now place }
{
    rows[place]
}

/// The weight of each place with that of all below it.
#[tactic(auto, using(crate::proofs::Passes::passing_up))]
fn subtotals(rows: &[Row], weights: Vec<u128>) -> Vec<u128>
    requires rising { IsRising rows.now }
    requires len { length weights.items ≡ length rows.now }
    requires bound { sum_below (weight_at weights.items) (length rows.now) ≤ 2 ^ 125 }
    ensures len { length result.items ≡ length rows.now }
    ensures totals { AreSubtotals rows.now weights.items result.items }
{
    let mut totals = weights;
    let mut place = rows.len();
    while 0 < place {
        place -= 1;
        give(&mut totals, row_of(rows, place), place);
    }
    totals
}

/// The moment at a place: that of its parent, and the resistance to it times what is below.
fn moment(moments: &[u128], row: Row, total: u128) -> u128
    requires parent { IfSome row.parent (λ p. p < length moments.now) }
    requires small { option_map_or (λ p. weight_at moments.now p + row.res * total) row.parent 0 ≤ 2
        ^ 125 }
    ensures { result ≡ option_map_or (λ p. weight_at moments.now p + row.res * total) row.parent 0 }
{
    match row.parent {
        Some(parent) => moments[parent] + u128::from(row.res) * total,
        None => 0,
    }
}

/// The sums, at each place, of the resistance that all places share with it, times their weights.
#[tactic(auto, using(crate::proofs::Passes::passing_down))]
pub(crate) fn moments(
    alloc: Global,
    rows: &[Row],
    weights: Vec<u128>,
) -> Result<Items<u128>, RcFault>
    requires rising { IsRising rows.now }
    requires len { length weights.items ≡ length rows.now }
    requires bound { sum_below (weight_at weights.items) (length rows.now) ≤ 2 ^ 125 }
    requires small { AreSmall rows.now weights.items }
    ensures moments { IfOk result (λ moments. AreMoments rows.now weights.items moments) }
    ensures err { IfErr result (λ fault. fault ≡ memory) }
{
    let totals = subtotals(rows, weights);
    let mut moments = Items::with_room(alloc, rows.len())?;
    for place in 0..rows.len() {
        let next = moment(moments.as_slice(), row_of(rows, place), totals[place]);
        moments.push(next)?;
    }
    Ok(moments)
}
