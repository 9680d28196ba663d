//! The stages of a path: each node with the delay into it, its slew and the net that it drives.

ghost use Rattle.std.specs.Prelude.{◌≡◌, ◌<◌, Option, option_and_then, IfOk, IfSome};
ghost use Rattle.timing_rules.specs.Paths.{Named};
ghost use Rattle.timing_rules.specs.Stages.{named_node, stage_at, stages};
ghost use Rattle.pin_graph.specs.Nodes.{node_bound};
ghost use Rattle.timed_paths.specs.Numbers.{number_named, IsTimer};

use crate::delays::{delay_into, in_fs, number_of, slew_at};
use crate::driven::driven_named;
use arc_delays::Delayed;
use node_rows::Wired;
use path_search::Sources;
use sta_units::Memory;
use std::alloc::Global;
use timing_defs::{Items, PathNode, PathStage, Rows, Split};

/// The stage of a node, by the number of the node before it and its own.
fn stage_at<A: Rows + Delayed + Wired>(
    alloc: Global,
    sources: &Sources<'_, A>,
    split: Split,
    before: Option<u32>,
    number: Option<u32>,
    node: &PathNode,
) -> Result<PathStage, Memory>
    requires sources { IsTimer sources.now.store.now sources.now.graph.now
        (A.rows sources.now.arrivals.now) (A.delays sources.now.arrivals.now)
        (A.wires sources.now.arrivals.now) }
    requires number { number ≡ number_named sources.now.store.now (named_node node.now) }
    requires below { IfSome number (λ n. n < node_bound sources.now.store.now) }
    ensures { IfOk result
        (λ made. (from : Option Named)
        → before ≡ option_and_then (number_named sources.now.store.now) from
        → made ≡ stage_at sources.now.store.now.design split from node.now) }
{
    let delay = delay_into(
        sources.graph,
        sources.arrivals.delays(),
        split,
        before,
        number,
    );
    let slew = slew_at(sources.store, sources.arrivals, split, number);
    let pin = node.pin.copied(alloc)?;
    let drives = driven_named(
        alloc,
        sources.store,
        sources.arrivals.wires(),
        split,
        &node.pin,
    )?;
    Ok(PathStage {
        pin,
        tran: node.tran,
        time: node.time,
        delay: in_fs(delay),
        slew: in_fs(slew),
        drives,
    })
}

/// The stages of some nodes of a path in a split, one by one. Takes a step for each arc into a node and
/// each pin on a net that is driven.
pub(crate) fn stages_of<A: Rows + Delayed + Wired>(
    alloc: Global,
    sources: &Sources<'_, A>,
    split: Split,
    nodes: &[PathNode],
) -> Result<Items<PathStage>, Memory>
    requires sources { IsTimer sources.now.store.now sources.now.graph.now
        (A.rows sources.now.arrivals.now) (A.delays sources.now.arrivals.now)
        (A.wires sources.now.arrivals.now) }
    ensures { IfOk result
        (λ made. made ≡ stages sources.now.store.now.design split nodes.now) }
{
    let mut made = Items::with_room(alloc, nodes.len())?;
    let mut before = None;
    for node in nodes {
        let number = number_of(sources.graph, node);
        let stage = stage_at(alloc, sources, split, before, number, node)?;
        made.push(stage)?;
        before = number;
    }
    Ok(made)
}
