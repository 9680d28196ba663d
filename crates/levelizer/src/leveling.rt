//! Levels of nodes.

ghost use Rattle.std.specs.Prelude.{◌≡◌, ℕ, ◌^◌, ◌<◌, length, slice_index, MatchOption, IfOk, IfErr, OnOk};
ghost use Rattle.levelizer.specs.Levels.{AreWithin, AreLevels, HasNoCycle, IsTrueFault};

use crate::cycles::cycle_from;
use crate::faults::LevelFault;
use crate::links::Link;
use crate::sweeping::{Swept, sweep};
use std::alloc::Global;
use timing_defs::Items;

/// The first node that waits.
fn first_waiting(waiting: &[usize]) -> Option<u32>
    requires { length waiting.now < 2 ^ 32 }
    ensures { MatchOption result ((m : ℕ) → m < length waiting.now → slice_index waiting.now m ≡ 0) (λ m. 0 < slice_index waiting.now m) }
{
    for (node, count) in waiting.iter().enumerate() {
        if *count > 0 {
            return Some(node as u32);
        }
    }
    None
}

/// The level of each node below `n`: 0 without arcs in, else one more than that of its greatest
/// predecessor. Where there is a cycle it names the nodes of one, in arc order and each once. Takes as
/// many steps as there are nodes and arcs.
pub fn levels(alloc: Global, n: u32, arcs: &[Link]) -> Result<Items<u32>, LevelFault>
    requires { AreWithin n arcs.now }
    ensures levels { IfOk result (AreLevels n arcs.now) }
    ensures no_cycle { OnOk result (HasNoCycle arcs.now) }
    ensures cycle { IfErr result (IsTrueFault arcs.now) }
{
    let Swept { levels, waiting } = sweep(alloc, n, arcs)?;
    match first_waiting(waiting.as_slice()) {
        None => Ok(Items::from_vec(levels)),
        Some(start) => {
            let nodes = cycle_from(alloc, arcs, waiting.as_slice(), start)?;
            Err(LevelFault::Cycle(nodes))
        }
    }
}
