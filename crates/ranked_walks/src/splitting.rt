//! How a walk that is given splits the walks of its branch.

ghost use Rattle.std.specs.Prelude.{◌≡◌, ◌++◌, ◌∷◌, [], ◌<◌, ◌≤◌, length, OnOk};
ghost use Rattle.worst_walks.specs.Walks.{count_of, IsCone, IsOrdered};
ghost use Rattle.ranked_walks.specs.Outs.{AreTables};
ghost use Rattle.ranked_walks.specs.Searching.{IsSearched, IsTaken, Nothing};

use crate::branches::{Branch, Tables, add, again_of, part_of};
use sta_units::Memory;
use std::alloc::Global;
use worst_walks::{Cone, Walk, WalkOrder};

/// Adds a branch for each place at which a walk of a branch can part from its first walk. Takes a step
/// for each node of that walk from there on and each arc out of it.
pub(crate) fn split<O: WalkOrder>(
    alloc: Global,
    cone: &Cone,
    order: &O,
    tables: &Tables,
    given: &[Walk],
    walk: &Walk,
    branch: Branch,
    branches: &mut Vec<Branch>,
) -> Result<(), Memory>
    requires cone { IsCone cone.now }
    requires order { IsOrdered cone.now (O.count order.now) (O.rank order.now) }
    requires tables { AreTables (O.rank order.now) cone.now tables.now }
    requires taken { IsTaken (O.rank order.now) (O.before order.now) cone.now tables.now given.now
        branches.old.items branch walk.now }
    ensures { OnOk result
        (IsSearched (O.rank order.now) (O.before order.now) cone.now tables.now
        (given.now ++ walk.now ∷ []) branches.new.items Nothing) }
{
    let kept = branch.kept;
    let made = again_of(cone, order, tables, walk, given.len(), branch)?;
    add(branches, made)?;
    for last in kept..walk.nodes.len() - 1 {
        let made = part_of(alloc, cone, order, tables, walk, given.len(), last)?;
        add(branches, made)?;
    }
    Ok(())
}
