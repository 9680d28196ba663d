//! Numbers whose values are found anew.

ghost use Rattle.std.specs.Prelude.{◌≡◌, ◌<◌, ◌++◌, [], ◌∷◌, true, length, All, slice_set, IfOk, OnOk};
ghost use Rattle.settling.specs.Settled.{is_among, AreLow, IsRule};
ghost use Rattle.settling.specs.Steps.{AreAdded, IsStep};

use crate::rules::{LIMIT, Rule};
use cow_table::CowTable;
use level_cone::LevelQueue;
use sta_units::Memory;
use std::alloc::Global;
use timing_defs::Items;

/// The numbers that wait for their turn, and those whose values were written.
#[derive(Drop)]
pub(crate) struct Work {
    pub(crate) queue: LevelQueue,
    pub(crate) changed: Items<u32>,
}

/// Lets numbers wait in the order of their keys.
pub(crate) fn wait_all<R: Rule>(
    rule: &R,
    values: &CowTable<u32>,
    queue: &mut LevelQueue,
    numbers: &[u32],
) -> Result<(), Memory>
    requires ready { R.is_ready rule.now }
    requires count { length values.now ≡ R.count rule.now }
    requires within { All (λ a. a < R.count rule.now) numbers.now }
    ensures { OnOk result (AreAdded (R.count rule.now) numbers.now queue.old queue.new) }
{
    for number in numbers {
        queue.add(rule.key(values, *number), *number)?;
    }
    Ok(())
}

/// Writes the value of a number, notes the number, and lets those behind it wait.
fn put<R: Rule>(
    alloc: Global,
    rule: &R,
    values: &mut CowTable<u32>,
    work: &mut Work,
    number: u32,
    value: u32,
) -> Result<(), Memory>
    requires ready { R.is_ready rule.now }
    requires count { length values.old ≡ R.count rule.now }
    requires number { number < R.count rule.now }
    ensures values { OnOk result (values.new ≡ slice_set values.old number value) }
    ensures changed { OnOk result (work.new.changed ≡ work.old.changed ++ number ∷ []) }
    ensures waiting { OnOk result (AreAdded (R.count rule.now) (R.behind rule.now number) work.old.queue work.new.queue) }
{
    values.set(number as usize, value)?;
    work.changed.push(number)?;
    let behind = rule.behind(alloc, number)?;
    wait_all(rule, values, &mut work.queue, behind.as_slice())
}

/// Finds the value of a number anew; where it is another, it is written, and those behind the number
/// wait. `false` where it is too high: then the values are spoiled.
fn settle_one<R: Rule>(
    alloc: Global,
    rule: &R,
    values: &mut CowTable<u32>,
    work: &mut Work,
    number: u32,
) -> Result<bool, Memory>
    requires ready { R.is_ready rule.now }
    requires rule { IsRule (R.count rule.now) (R.value rule.now) (R.behind rule.now) }
    requires count { length values.old ≡ R.count rule.now }
    requires low { AreLow values.old }
    requires number { number < R.count rule.now }
    ensures count { OnOk result (length values.new ≡ length values.old) }
    ensures step { IfOk result (λ fits. fits ≡ true → IsStep (R.count rule.now) (R.value rule.now) (number ∷ []) values.old work.old.queue work.old.changed values.new work.new.queue work.new.changed) }
{
    let value = rule.value(alloc, values, number)?;
    if value == *values.get(number as usize) {
        return Ok(true);
    }
    if value >= LIMIT {
        return Ok(false);
    }
    put(alloc, rule, values, work, number, value)?;
    Ok(true)
}

/// Finds the values of numbers anew, one after the other. `false` where one is too high: then the values
/// are spoiled.
pub(crate) fn settle_all<R: Rule>(
    alloc: Global,
    rule: &R,
    values: &mut CowTable<u32>,
    work: &mut Work,
    numbers: &[u32],
) -> Result<bool, Memory>
    requires ready { R.is_ready rule.now }
    requires rule { IsRule (R.count rule.now) (R.value rule.now) (R.behind rule.now) }
    requires count { length values.old ≡ R.count rule.now }
    requires low { AreLow values.old }
    requires within { All (λ a. a < R.count rule.now) numbers.now }
    ensures count { OnOk result (length values.new ≡ length values.old) }
    ensures step { IfOk result (λ fits. fits ≡ true → IsStep (R.count rule.now) (R.value rule.now) numbers.now values.old work.old.queue work.old.changed values.new work.new.queue work.new.changed) }
{
    for number in numbers {
        if !settle_one(alloc, rule, values, work, *number)? {
            return Ok(false);
        }
    }
    Ok(true)
}
