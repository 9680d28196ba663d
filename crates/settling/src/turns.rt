//! Turns of numbers, until none waits.

ghost use Rattle.std.specs.Prelude.{◌≡◌, ◌<◌, true, length, All, IfOk, OnOk, IfSome};
ghost use Rattle.settling.specs.Settled.{is_among, IsRule, IsSettled, IsResettled};
ghost use Rattle.settling.specs.Steps.{IsState, IsTurned, IsDone};

use crate::rules::Rule;
use crate::steps::{Work, settle_all, wait_all};
use cow_table::CowTable;
use level_cone::LevelQueue;
use sta_units::Memory;
use std::alloc::Global;
use timing_defs::Items;

/// What a turn leaves.
#[derive(Drop)]
pub(crate) enum Outcome {
    /// No number waits: all values are right.
    Settled,
    /// Some numbers may wait.
    Unsettled,
    /// A value is too high.
    Beyond,
}

/// Finds the values of those numbers anew that wait with the lowest key.
fn take_turn<R: Rule>(
    alloc: Global,
    rule: &R,
    values: &mut CowTable<u32>,
    work: &mut Work,
) -> Result<Outcome, Memory>
    requires ready { R.is_ready rule.now }
    requires rule { IsRule (R.count rule.now) (R.value rule.now) (R.behind rule.now) }
    requires state { IsState (R.count rule.now) (R.value rule.now) values.old work.old.queue }
    ensures count { OnOk result (length values.new ≡ length values.old) }
    ensures turned { IfOk result (λ outcome. IsTurned (R.count rule.now) (R.value rule.now) values.old work.old.changed values.new work.new.queue work.new.changed outcome) }
{
    let Some(turn) = work.queue.take_level(alloc)? else {
        return Ok(Outcome::Settled);
    };
    if settle_all(alloc, rule, values, work, turn.nodes.as_slice())? {
        Ok(Outcome::Unsettled)
    } else {
        Ok(Outcome::Beyond)
    }
}

/// Takes turns until no number waits. `false` where a value is too high, or so many turns did not do.
fn take_turns<R: Rule>(
    alloc: Global,
    rule: &R,
    values: &mut CowTable<u32>,
    work: &mut Work,
    turns: usize,
) -> Result<bool, Memory>
    requires ready { R.is_ready rule.now }
    requires rule { IsRule (R.count rule.now) (R.value rule.now) (R.behind rule.now) }
    requires state { IsState (R.count rule.now) (R.value rule.now) values.old work.old.queue }
    ensures count { OnOk result (length values.new ≡ length values.old) }
    ensures done { IfOk result (λ done. done ≡ true → IsDone (R.count rule.now) (R.value rule.now) values.old work.old.changed values.new work.new.changed) }
{
    for turn in 0..turns {
        let _ = turn;
        match take_turn(alloc, rule, values, work)? {
            Outcome::Settled => return Ok(true),
            Outcome::Unsettled => {}
            Outcome::Beyond => return Ok(false),
        }
    }
    Ok(false)
}

/// Makes all values right that a rule gives, where they are so at all numbers but some; gives the numbers
/// whose values were written, in order. None where it gave up: a value came to [`LIMIT`](crate::LIMIT), or
/// numbers still waited after more turns than twice the number of values, as where values are given in a
/// circle; then, or where memory is wanting, what the values are is not told. Takes the values that are
/// found anew, in the order of the rule's keys: those that are told to be wrong, and those behind a value
/// that is written.
pub fn settle<R: Rule>(
    alloc: Global,
    rule: &R,
    values: &mut CowTable<u32>,
    wrong: &[u32],
) -> Result<Option<Items<u32>>, Memory>
    requires ready { R.is_ready rule.now }
    requires rule { IsRule (R.count rule.now) (R.value rule.now) (R.behind rule.now) }
    requires wrong { All (λ a. a < R.count rule.now) wrong.now }
    requires settled { IsSettled (R.count rule.now) (R.value rule.now) values.old (is_among wrong.now) }
    ensures count { OnOk result (length values.new ≡ length values.old) }
    ensures settled { IfOk result (λ ended. IfSome ended (λ changed. IsResettled (R.count rule.now) (R.value rule.now) values.old values.new changed)) }
{
    let mut work = Work {
        queue: LevelQueue::new(alloc),
        changed: Items::new(alloc),
    };
    wait_all(rule, values, &mut work.queue, wrong)?;
    let turns = values.len().saturating_mul(2).saturating_add(64);
    if take_turns(alloc, rule, values, &mut work, turns)? {
        Ok(Some(work.changed))
    } else {
        Ok(None)
    }
}
