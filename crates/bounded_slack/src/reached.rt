//! The nodes that a search has reached and not taken.

ghost use Rattle.std.specs.Prelude.{◌≡◌, OnOk, Some, None};
ghost use Rattle.bounded_slack.specs.Cuts.{sum_at, greater, AreNone, HasRaised, IsPopped};

use sta_units::Memory;
use std::alloc::Global;
use std::collections::BTreeMap;

/// A node with its level and the sum of delays of a walk from it to the end node in fs.
#[derive(Clone, Copy, Drop)]
pub(crate) struct Held {
    pub(crate) level: u32,
    pub(crate) node: u32,
    pub(crate) sum: i64,
}

/// Nodes by level and number, each with the greatest sum of delays from it found so far.
#[derive(Drop)]
pub(crate) struct Reached {
    pub(crate) sums: BTreeMap<(u32, u32), i64>,
}

/// The greater of a sum that is there and a further one.
fn greater(sum: Option<i64>, held: Held) -> i64
    ensures { result ≡ greater sum held.sum }
{
    match sum {
        None => held.sum,
        Some(found) => if found < held.sum { held.sum } else { found },
    }
}

impl Reached {
    /// No nodes. Takes no memory.
    pub(crate) fn new(alloc: Global) -> Reached
        ensures { AreNone (sum_at result) }
    {
        Reached {
            sums: BTreeMap::new(alloc),
        }
    }

    /// The sum of a node.
    fn sum_of(&self, held: Held) -> Option<i64>
        ensures { result ≡ sum_at self.now held.level held.node }
    {
        self.sums.get(&(held.level, held.node)).copied()
    }

    /// Gives a node the greater of its sum and this one. Where memory is wanting all sums stay.
    pub(crate) fn raise(&mut self, held: Held) -> Result<(), Memory>
        ensures { OnOk result
            (HasRaised (sum_at self.old) (sum_at self.new) held.level held.node held.sum) }
    {
        let sum = greater(self.sum_of(held), held);
        match self.sums.insert((held.level, held.node), sum) {
            Ok(_) => Ok(()),
            Err(_) => Err(Memory),
        }
    }

    /// Takes the last node by level and number; none where there is no node.
    pub(crate) fn pop(&mut self) -> Option<Held>
        ensures { IsPopped (sum_at self.old) (sum_at self.new) result }
    {
        match self.sums.pop_last() {
            Some(((level, node), sum)) => Some(Held { level, node, sum }),
            None => None,
        }
    }
}
