//! A queue of nodes by their levels.

ghost use Rattle.std.specs.Prelude.{◌≡◌, ℕ, ◌<◌, ◌==◌, ◌&&◌, ◌||◌, [], ◌∷◌, ◌++◌, IfOk, OnOk, OnErr, IfSome, IfNone};
ghost use Rattle.std.specs.BTreeMap.{insert_entry};
ghost use Rattle.std.specs.Ordering.{nat_cmp};
ghost use Rattle.level_cone.specs.Waiting.{waits, IsIdle, IsRisingOf, IsTurn};

use sta_units::Memory;
use std::alloc::Global;
use std::collections::BTreeMap;
use std::marker::Model;
use timing_defs::Items;

/// The nodes that a level's turn takes out of a queue, each once, rising.
#[derive(Drop)]
pub struct LevelTurn {
    pub level: u32,
    pub nodes: Items<u32>,
}

/// Nodes that wait for their turn, by their levels. Contracts see the keys of those that wait, and
/// speak of them by `waits`.
#[derive(Drop)]
pub struct LevelQueue {
    alloc: Global,
    /// The nodes that wait at each level at which some do, as they were added.
    lists: BTreeMap<u32, Items<u32>>,
}

impl Model for LevelQueue {
    ghost use Rattle.std.specs.Prelude.{List, ℕ};
    ghost use Rattle.level_cone.specs.Waiting.{listed_keys, AreLists};

    ghost Value = { List ℕ };

    ghost view = { λ q. listed_keys q.lists.entries };

    ghost invariant = { λ q. AreLists q.lists.entries };
}

/// The same numbers in rising order, each once.
fn distinct(nodes: Items<u32>) -> Items<u32>
    ensures { IsRisingOf nodes result }
{
    let mut nodes = nodes.into_vec();
    nodes.sort_unstable();
    nodes.dedup();
    Items::from_vec(nodes)
}

/// Puts the list of a level in; where memory is wanting all lists stay.
fn put_list(
    lists: &mut BTreeMap<u32, Items<u32>>,
    level: u32,
    nodes: Items<u32>,
) -> Result<(), Memory>
    ensures ok { OnOk result
        (lists.new.entries ≡ insert_entry nat_cmp lists.old.entries level nodes) }
    ensures err { OnErr result (lists.new.entries ≡ lists.old.entries) }
{
    match lists.insert(level, nodes) {
        Ok(before) => drop(before),
        Err(failed) => {
            drop(failed);
            return Err(Memory);
        }
    }
    Ok(())
}

/// The list of one node.
fn list_of(alloc: Global, node: u32) -> Result<Items<u32>, Memory>
    ensures { IfOk result (λ nodes. nodes ≡ node ∷ []) }
{
    let mut nodes = Items::new(alloc);
    nodes.push(node)?;
    Ok(nodes)
}

impl LevelQueue {
    /// A queue in which no node waits. Takes no memory.
    pub fn new(alloc: Global) -> LevelQueue
        ensures { IsIdle result }
    {
        LevelQueue {
            alloc,
            lists: BTreeMap::new(alloc),
        }
    }

    /// Adds a node at its level; nothing changes where it waits there already. Where memory is
    /// wanting the queue is as before. Takes the logarithm of how many levels have nodes that wait.
    pub fn add(&mut self, level: u32, node: u32) -> Result<(), Memory>
        ensures ok { OnOk result
            ((l n : ℕ) → waits self.new l n
            ≡ (waits self.old l n || ((level == l) && (node == n)))) }
        ensures err { OnErr result (self.new ≡ self.old) }
    {
        match self.lists.get_mut(&level) {
            Some(nodes) => nodes.push(node),
            None => put_list(&mut self.lists, level, list_of(self.alloc, node)?),
        }
    }

    /// Takes all nodes out that wait at the least level at which nodes wait, rising; none where none
    /// waits. Takes no memory, and the time to order how often nodes were added at that level.
    pub fn take_level(&mut self, _: Global) -> Result<Option<LevelTurn>, Memory>
        ensures some { IfOk result
            (λ taken. IfSome taken (λ turn. IsTurn self.old self.new turn.level turn.nodes)) }
        ensures none { IfOk result (λ taken. IfNone taken (IsIdle self.old)) }
        ensures kept { IfOk result (λ taken. IfNone taken (self.new ≡ self.old)) }
    {
        let Some((level, nodes)) = self.lists.pop_first() else {
            return Ok(None);
        };
        Ok(Some(LevelTurn {
            level,
            nodes: distinct(nodes),
        }))
    }
}
