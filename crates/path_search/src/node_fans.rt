//! The graph in front of an end node, as a search with a bound asks for it.

ghost use Rattle.std.specs.Prelude.{◌≡◌, ◌<◌, ◌^◌, true, IfOk};
ghost use Rattle.timing_rules.specs.Paths.{named};
ghost use Rattle.timing_defs.specs.Netlist.{Node};
ghost use Rattle.netlist_store.specs.Numbering.{is_number};
ghost use Rattle.pin_graph.specs.Nodes.{node_at, node_bound, pin_under};
ghost use Rattle.bounded_slack.specs.Nets.{IsNet};
ghost use Rattle.path_search.specs.NodeNets.{IsFanNet, fan_net};
ghost use Rattle.path_search.specs.NodeSlacks.{IsEitherSlack};
ghost use Rattle.path_search.specs.Sources.{AreSources};

use crate::cones::EndNodes;
use crate::ends::{EndTest, end_tests};
use crate::launches::launch_node;
use crate::lows::lows_of;
use crate::sources::Sources;
use crate::test_slacks::least_slack;
use arc_delays::Delayed;
use bounded_slack::{Fan, least_of_two, least_room};
use path_cones::arcs_into;
use pin_graph::Graph;
use sta_units::Memory;
use std::alloc::Global;
use std::marker::Model;
use timing_defs::{EdgeTime, Items, Kind, Rows};
use worst_walks::WalkArc;

/// What a search in front of an end node asks for: the graph with its rows, the tests of the end node and
/// its lowest offers.
#[derive(Drop)]
pub(crate) struct NodeFan<'a, A: Rows + Delayed> {
    sources: &'a Sources<'a, A>,
    tests: Items<EndTest>,
    lows: Items<EdgeTime>,
    end: u32,
}

impl<'a, A: Rows + Delayed> Model for NodeFan<'a, A> {
    ghost use Rattle.std.specs.Prelude.{ℕ, List};
    ghost use Rattle.timing_defs.specs.declared.kinds.Kind.{Kind};
    ghost use Rattle.pin_graph.specs.Graphs.{Graphed};
    ghost use Rattle.pessimism_credit.specs.declared.rows.TreeRow.{TreeRow};
    ghost use Rattle.path_search.specs.declared.ends.EndTest.{EndTest};
    ghost use Rattle.path_search.specs.NodeNets.{IsFanOf};

    ghost Value = { Graphed × Kind × List TreeRow × List EndTest × ℕ };

    ghost view = { λ f.
        (f.sources.now.graph.now, f.sources.now.kind, f.sources.now.tree.now, f.tests, f.end) };

    ghost invariant = { λ f. IsFanOf f.sources.now.store.now f.sources.now.graph.now
        (A.rows f.sources.now.arrivals.now) (A.delays f.sources.now.arrivals.now)
        f.sources.now.tree.now f.sources.now.kind f.end f.tests f.lows };
}

impl<A: Rows + Delayed> Fan for NodeFan<'_, A> {
    ghost use Rattle.path_search.specs.NodeNets.{net_told};

    ghost net = { λ v. net_told v.0 v.1 v.2 v.3 v.4 };

    fn end(&self) -> u32 {
        self.end
    }

    fn level(&self, node: u32) -> u32 {
        self.sources.graph.level(node)
    }

    fn bound(&self, node: u32) -> Option<i64> {
        let sources = self.sources;
        sources.store.laws();
        sources.graph.laws();
        let row = sources.arrivals.row(node);
        least_room(
            sources.kind,
            self.lows.as_slice(),
            row.times(sources.kind.data_split()),
        )
    }

    fn arcs_into(&self, alloc: Global, node: u32) -> Result<Items<WalkArc>, Memory> {
        let sources = self.sources;
        sources.store.laws();
        sources.graph.laws();
        arcs_into(
            alloc,
            sources.graph,
            sources.arrivals.delays(),
            sources.kind,
            node,
        )
    }

    fn offer(&self, alloc: Global, node: u32, arcs: &[WalkArc]) -> Result<Option<i64>, Memory> {
        let sources = self.sources;
        sources.store.laws();
        sources.graph.laws();
        if !arcs.is_empty() {
            return Ok(None);
        }
        let launch = launch_node(
            alloc,
            sources.store,
            sources.graph,
            sources.arrivals,
            sources.kind,
            node,
        )?;
        match launch {
            Some(launch) => Ok(least_slack(
                sources.store,
                sources.tree,
                sources.kind,
                &launch,
                self.tests.as_slice(),
            )),
            None => Ok(None),
        }
    }
}

/// What a search in front of an end node asks for.
fn node_fan<'a, A: Rows + Delayed>(
    alloc: Global,
    sources: &'a Sources<'a, A>,
    end: u32,
) -> Result<NodeFan<'a, A>, Memory>
    requires sources { AreSources sources.now.store.now sources.now.graph.now
        (A.rows sources.now.arrivals.now) (A.delays sources.now.arrivals.now) sources.now.tree.now }
    requires end { end < node_bound sources.now.store.now }
    requires there { is_number sources.now.store.now.pins (pin_under end) ≡ true }
    ensures { IfOk result
        (IsFanNet sources.now.store.now sources.now.graph.now (A.rows sources.now.arrivals.now)
        (A.delays sources.now.arrivals.now) sources.now.tree.now sources.now.kind end) }
{
    sources.store.laws();
    sources.graph.laws();
    let tests = end_tests(
        alloc,
        sources.store,
        sources.graph,
        sources.arrivals,
        sources.kind,
        end,
    )?;
    let lows = lows_of(
        alloc,
        sources.store,
        sources.tree,
        sources.kind,
        tests.as_slice(),
    )?;
    Ok(NodeFan {
        sources,
        tests,
        lows,
        end,
    })
}

/// The numbers of a graph's nodes fit.
fn bounded(graph: &Graph)
    ensures { node_bound graph.now.stored < 2 ^ 32 }
{
    let _ = graph.count();
}

/// What a search in front of an end node asks for, bounded by arrivals. Fails for want of memory, and where
/// the end node's level is `2^22` or more, above that of a sound design.
pub(crate) fn end_fan<'a, A: Rows + Delayed>(
    alloc: Global,
    sources: &'a Sources<'a, A>,
    end: u32,
) -> Result<NodeFan<'a, A>, Memory>
    requires sources { AreSources sources.now.store.now sources.now.graph.now
        (A.rows sources.now.arrivals.now) (A.delays sources.now.arrivals.now) sources.now.tree.now }
    requires end { end < node_bound sources.now.store.now }
    requires there { is_number sources.now.store.now.pins (pin_under end) ≡ true }
    ensures net { IfOk result
        (IsFanNet sources.now.store.now sources.now.graph.now (A.rows sources.now.arrivals.now)
        (A.delays sources.now.arrivals.now) sources.now.tree.now sources.now.kind end) }
    ensures bounded { IfOk result (λ fan. IsNet (fan_net fan)) }
{
    sources.store.laws();
    sources.graph.laws();
    bounded(sources.graph);
    if sources.graph.level(end) >= 1 << 22 {
        return Err(Memory);
    }
    node_fan(alloc, sources, end)
}

/// The slack of two end nodes for a kind of tests, in fs: the least over all paths to either that are
/// tested; none where there is no such path. Of a node whose arrivals leave no room for a lesser slack than
/// the other's nothing is searched. Fails for want of memory, and where a level is `2^22` or more.
pub(crate) fn either_slack<A: Rows + Delayed>(
    alloc: Global,
    sources: &Sources<'_, A>,
    ends: EndNodes,
) -> Result<Option<i64>, Memory>
    requires sources { AreSources sources.now.store.now sources.now.graph.now
        (A.rows sources.now.arrivals.now) (A.delays sources.now.arrivals.now) sources.now.tree.now }
    requires rise { ends.rise < node_bound sources.now.store.now }
    requires rise_there { is_number sources.now.store.now.pins (pin_under ends.rise) ≡ true }
    requires fall { ends.fall < node_bound sources.now.store.now }
    requires fall_there { is_number sources.now.store.now.pins (pin_under ends.fall) ≡ true }
    ensures { IfOk result
        (λ slack. (rise fall : Node) → node_at sources.now.store.now ends.rise ≡ Some rise
        → node_at sources.now.store.now ends.fall ≡ Some fall
        → IsEitherSlack sources.now.store.now.design sources.now.kind (named rise) (named fall)
        slack) }
{
    sources.store.laws();
    sources.graph.laws();
    let rise = end_fan(alloc, sources, ends.rise)?;
    let fall = end_fan(alloc, sources, ends.fall)?;
    least_of_two(alloc, &rise, &fall)
}
