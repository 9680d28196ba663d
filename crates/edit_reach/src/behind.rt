//! The nodes behind the seeds of an edit.

ghost use Rattle.std.specs.Prelude.{◌≡◌, ◌<◌, nat_eq, All, map, [], IfOk, OnOk};
ghost use Rattle.indexmap.specs.IndexSet.{insert_key, insert_all};
ghost use Rattle.pin_graph.specs.Nodes.{node_bound};
ghost use Rattle.pin_graph.specs.Graphs.{to_of};
ghost use Rattle.edit_reach.specs.Reach.{AreBehind};

use indexmap::IndexSet;
use pin_graph::{Graph, GraphArc};
use sta_units::Memory;
use std::alloc::Global;

/// Adds a number, where it is not there.
fn put_number(found: &mut IndexSet<u32>, number: u32) -> Result<(), Memory>
    ensures { OnOk result (found.new.keys ≡ insert_key nat_eq found.old.keys number) }
{
    match found.insert(number) {
        Ok(_) => Ok(()),
        Err(_) => Err(Memory),
    }
}

/// Room for the nodes and pins of most edits.
const ROOM: usize = 64;

/// Some numbers, each once.
pub(crate) fn number_set(alloc: Global, numbers: &[u32]) -> Result<IndexSet<u32>, Memory>
    ensures { IfOk result (λ found. found.keys ≡ insert_all nat_eq [] numbers.now) }
{
    let mut found = IndexSet::with_capacity(alloc, ROOM)?;
    for number in numbers {
        put_number(&mut found, *number)?;
    }
    Ok(found)
}

/// Adds the nodes to which these arcs lead.
fn put_targets(found: &mut IndexSet<u32>, arcs: &[GraphArc]) -> Result<(), Memory>
    ensures { OnOk result (found.new.keys ≡ insert_all nat_eq found.old.keys (map to_of arcs.now)) }
{
    for arc in arcs {
        put_number(found, arc.to)?;
    }
    Ok(())
}

/// The seeds and all nodes to which walks lead from them, each once, in time of the arcs out of them.
pub fn nodes_behind(alloc: Global, graph: &Graph, seeds: &[u32]) -> Result<IndexSet<u32>, Memory>
    requires { All (λ seed. seed < node_bound graph.now.stored) seeds.now }
    ensures { IfOk result (λ nodes. AreBehind graph.now seeds.now nodes.keys) }
{
    graph.laws();
    let mut found = number_set(alloc, seeds)?;
    for at in 0..1 << 32 {
        let Some(node) = found.get_index(at).copied() else {
            return Ok(found);
        };
        put_targets(&mut found, graph.arcs_out(node))?;
    }
    Err(Memory)
}
