//! What no path to an end node has a lesser slack than, with its length put back.

ghost use Rattle.std.specs.Prelude.{◌≡◌, ◌<◌, true, All, length, IfOk, IfSome};
ghost use Rattle.timing_defs.specs.declared.kinds.Split.TheVariants.{Early};
ghost use Rattle.timing_rules.specs.Rows.{outer_some};
ghost use Rattle.timing_defs.specs.RowTimes.{times_in};
ghost use Rattle.timing_defs.specs.Kinds.{data_split};
ghost use Rattle.netlist_store.specs.Numbering.{is_number};
ghost use Rattle.pin_graph.specs.Nodes.{node_bound, pin_under};
ghost use Rattle.pin_graph.specs.RowTables.{row_numbered};
ghost use Rattle.path_search.specs.EndLows.{low_on, IsEndLow};
ghost use Rattle.path_search.specs.Slacks.{IsReadyTest};
ghost use Rattle.path_search.specs.Sources.{AreSources};
ghost use Rattle.pessimism_credit.specs.Credit.{IsTree};

use crate::ends::{EndTest, end_tests};
use crate::lows::low_on;
use crate::sources::Sources;
use arc_delays::Delayed;
use netlist_store::Store;
use node_rows::outer_some;
use pessimism_credit::ClockTree;
use sta_units::Memory;
use std::alloc::Global;
use timing_defs::{EdgeTime, EdgeTimes, Kind, Rows, Split};

/// The lesser of the lowest offers on the launch edges of two lists of times.
fn low_on_both(
    store: &Store,
    tree: &ClockTree,
    kind: Kind,
    tests: &[EndTest],
    before: &[EdgeTime],
    after: &[EdgeTime],
) -> Option<i64>
    requires tree { IsTree tree.now }
    requires tests { All (IsReadyTest store.now.design) tests.now }
    requires places { All (λ t. IfSome t.place (λ p. p < length tree.now)) tests.now }
    requires before { All (λ t. t.clock < length store.now.design.constraints.clocks) before.now }
    requires after { All (λ t. t.clock < length store.now.design.constraints.clocks) after.now }
    ensures { result
        ≡ outer_some Early (low_on store.now.design kind tree.now tests.now before.now)
        (low_on store.now.design kind tree.now tests.now after.now) }
{
    let low = low_on(store, tree, kind, tests, before);
    let other = low_on(store, tree, kind, tests, after);
    outer_some(Split::Early, low, other)
}

/// What no path to an end node has a lesser slack than by one of the node's tests, in fs, with its length put
/// back: of the paths that are launched on an edge of its own arrivals, or of the times `before`. None only
/// where there is no such edge or no test. The one error is want of memory.
pub fn end_low<A: Rows + Delayed>(
    alloc: Global,
    sources: &Sources<'_, A>,
    end: u32,
    before: &EdgeTimes,
) -> Result<Option<i64>, Memory>
    requires sources { AreSources sources.now.store.now sources.now.graph.now
        (A.rows sources.now.arrivals.now) (A.delays sources.now.arrivals.now) sources.now.tree.now }
    requires end { end < node_bound sources.now.store.now }
    requires there { is_number sources.now.store.now.pins (pin_under end) ≡ true }
    requires clocks { All (λ t. t.clock < length sources.now.store.now.design.constraints.clocks)
        before.now }
    ensures before { IfOk result (IsEndLow sources.now.store.now sources.now.kind end before.now) }
    ensures after { IfOk result
        (IsEndLow sources.now.store.now sources.now.kind end
        (times_in (data_split sources.now.kind) (row_numbered sources.now.store.now end))) }
{
    sources.store.laws();
    sources.graph.laws();
    let tests = end_tests(
        alloc,
        sources.store,
        sources.graph,
        sources.arrivals,
        sources.kind,
        end,
    )?;
    let row = sources.arrivals.row(end);
    let after = row.times(sources.kind.data_split());
    Ok(low_on_both(
        sources.store,
        sources.tree,
        sources.kind,
        tests.as_slice(),
        before.as_slice(),
        after.as_slice(),
    ))
}
