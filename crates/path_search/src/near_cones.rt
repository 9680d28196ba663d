//! The cone of the worst paths to a pin: of the nodes of walks that have its least slack.

ghost use Rattle.std.specs.Prelude.{◌≡◌, ◌<◌, ◌++◌, true, IfOk};
ghost use Rattle.netlist_store.specs.Numbering.{is_number};
ghost use Rattle.pin_graph.specs.Nodes.{node_bound, pin_under};
ghost use Rattle.bounded_slack.specs.Nets.{IsNet};
ghost use Rattle.path_search.specs.NearCones.{AreNearNodes, AreNearTwo, IsNearCone, IsNearFound, IsNearTwo};
ghost use Rattle.path_search.specs.PinCones.{AreEndNodes};
ghost use Rattle.path_search.specs.Sources.{AreSources};

use crate::cones::{EndNodes, PinCone, cone_over};
use crate::node_fans::end_fan;
use crate::sources::Sources;
use arc_delays::Delayed;
use bounded_slack::{Fan, least_of_two, near_nodes};
use path_cones::fan_among;
use sta_units::Memory;
use std::alloc::Global;
use timing_defs::{Items, Name, Rows};

/// The least slack of an endpoint's nodes in fs, and the nodes of the walks that have it.
#[derive(Drop)]
pub(crate) struct NearEnds {
    pub(crate) least: i64,
    pub(crate) nodes: Items<u32>,
}

/// The nodes of two lists, one after the other.
fn joined(first: Items<u32>, second: &[u32]) -> Result<Items<u32>, Memory>
    ensures { IfOk result (λ all. all ≡ first ++ second.now) }
{
    let mut all = first;
    for node in second {
        all.push(*node)?;
    }
    Ok(all)
}

/// The nodes of the walks to either of two end nodes with at most a slack in fs.
fn near_of_two<F: Fan>(alloc: Global, one: &F, other: &F, most: i64) -> Result<Items<u32>, Memory>
    requires one { IsNet (F.net one.now) }
    requires other { IsNet (F.net other.now) }
    ensures { IfOk result (AreNearTwo (F.net one.now) (F.net other.now) most) }
{
    let first = near_nodes(alloc, one, most)?;
    let second = near_nodes(alloc, other, most)?;
    joined(first, second.as_slice())
}

/// The least slack of the walks to either of two end nodes, and the nodes of the walks that have it; none
/// where there is no walk to either.
fn least_near<F: Fan>(alloc: Global, one: &F, other: &F) -> Result<Option<NearEnds>, Memory>
    requires one { IsNet (F.net one.now) }
    requires other { IsNet (F.net other.now) }
    ensures { IfOk result (IsNearTwo (F.net one.now) (F.net other.now)) }
{
    let slack = least_of_two(alloc, one, other)?;
    match slack {
        None => Ok(None),
        Some(least) => {
            let nodes = near_of_two(alloc, one, other, least)?;
            Ok(Some(NearEnds { least, nodes }))
        }
    }
}

/// The least slack of two end nodes for a kind of tests, as `either_slack` has it, and the nodes of the
/// walks that have it. Fails for want of memory, and where a level is `2^22` or more.
pub(crate) fn near_ends<A: Rows + Delayed>(
    alloc: Global,
    sources: &Sources<'_, A>,
    ends: EndNodes,
) -> Result<Option<NearEnds>, Memory>
    requires sources { AreSources sources.now.store.now sources.now.graph.now
        (A.rows sources.now.arrivals.now) (A.delays sources.now.arrivals.now) sources.now.tree.now }
    requires rise { ends.rise < node_bound sources.now.store.now }
    requires rise_there { is_number sources.now.store.now.pins (pin_under ends.rise) ≡ true }
    requires fall { ends.fall < node_bound sources.now.store.now }
    requires fall_there { is_number sources.now.store.now.pins (pin_under ends.fall) ≡ true }
    ensures { IfOk result
        (IsNearFound sources.now.store.now sources.now.graph.now sources.now.kind ends) }
{
    sources.store.laws();
    sources.graph.laws();
    let rise = end_fan(alloc, sources, ends.rise)?;
    let fall = end_fan(alloc, sources, ends.fall)?;
    least_near(alloc, &rise, &fall)
}

/// The cone in which the worst path to an endpoint is searched, over the nodes of the walks that have its
/// least slack.
pub(crate) fn near_cone<A: Rows + Delayed>(
    alloc: Global,
    sources: &Sources<'_, A>,
    endpoint: &Name,
    ends: EndNodes,
    near: &NearEnds,
) -> Result<PinCone, Memory>
    requires sources { AreSources sources.now.store.now sources.now.graph.now
        (A.rows sources.now.arrivals.now) (A.delays sources.now.arrivals.now) sources.now.tree.now }
    requires ends { AreEndNodes sources.now.store.now endpoint.now ends }
    requires near { AreNearNodes sources.now.graph.now sources.now.kind ends near.now }
    ensures { IfOk result
        (IsNearCone sources.now.graph.now sources.now.kind endpoint.now near.now.least) }
{
    let fan = fan_among(
        alloc,
        sources.store,
        sources.graph,
        sources.arrivals.delays(),
        &[ends.rise, ends.fall],
        near.nodes.as_slice(),
        sources.kind,
    )?;
    cone_over(alloc, sources, endpoint, ends, fan)
}
