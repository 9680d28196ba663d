//! The tests of an endpoint's two nodes, found once for several paths.

ghost use Rattle.std.specs.Prelude.{◌≡◌, ◌<◌, true, Contains, Some, IfOk};
ghost use Rattle.sta_units.specs.Numbers.{Within};
ghost use Rattle.timing_rules.specs.Reports.{endpoints};
ghost use Rattle.netlist_store.specs.Numbering.{is_number};
ghost use Rattle.pin_graph.specs.Nodes.{node_bound, pin_under};
ghost use Rattle.path_search.specs.Counts.{IsCountedAt};
ghost use Rattle.path_search.specs.Slacks.{IsOfferOf};
ghost use Rattle.path_search.specs.Sources.{AreSources};
ghost use Rattle.path_search.specs.Tested.{AreTested};

use crate::cones::end_nodes;
use crate::counted::{Counted, counted_by, test_that_counts};
use crate::ends::EndTest;
use crate::offers::{PinTests, pin_tests};
use crate::sources::Sources;
use arc_delays::Delayed;
use sta_units::Memory;
use std::alloc::Global;
use timing_defs::{Items, Name, Rows};

/// The tests of an endpoint's two nodes, beside the numbers of these.
#[derive(Drop)]
pub struct Tested {
    pub(crate) rise: u32,
    pub(crate) fall: u32,
    pub(crate) rises: Items<EndTest>,
    pub(crate) falls: Items<EndTest>,
}

/// The tests of an endpoint's two nodes for a kind of tests. Takes the time of these tests. The one error is
/// want of memory.
pub fn find_tests<A: Rows + Delayed>(
    alloc: Global,
    sources: &Sources<'_, A>,
    endpoint: &Name,
) -> Result<Tested, Memory>
    requires sources { AreSources sources.now.store.now sources.now.graph.now
        (A.rows sources.now.arrivals.now) (A.delays sources.now.arrivals.now) sources.now.tree.now }
    requires endpoint { Contains (endpoints sources.now.store.now.design) endpoint.now }
    ensures { IfOk result (AreTested sources.now.graph.now sources.now.kind) }
{
    let ends = end_nodes(sources.store, sources.graph, endpoint);
    let PinTests {
        rise: rises,
        fall: falls,
    } = pin_tests(alloc, sources, ends.rise, ends.fall)?;
    Ok(Tested {
        rise: ends.rise,
        fall: ends.fall,
        rises,
        falls,
    })
}

/// What a path from a launch node to an end node holds, as `test_that_counts` has it, by the tests that are
/// found where they are of the end node.
pub(crate) fn counted_in<A: Rows + Delayed>(
    alloc: Global,
    sources: &Sources<'_, A>,
    tested: &Tested,
    launch: u32,
    end: u32,
    offer: i64,
) -> Result<Counted, Memory>
    requires sources { AreSources sources.now.store.now sources.now.graph.now
        (A.rows sources.now.arrivals.now) (A.delays sources.now.arrivals.now) sources.now.tree.now }
    requires tested { AreTested sources.now.graph.now sources.now.kind tested.now }
    requires launch { launch < node_bound sources.now.store.now }
    requires end { end < node_bound sources.now.store.now }
    requires there { is_number sources.now.store.now.pins (pin_under end) ≡ true }
    requires offer { IsOfferOf sources.now.store.now sources.now.kind launch end (Some offer) }
    ensures counted { IfOk result
        (IsCountedAt sources.now.store.now sources.now.kind launch end offer) }
    ensures time { IfOk result (λ c. Within c.time.0) }
{
    if end == tested.rise {
        return counted_by(alloc, sources, tested.rises.as_slice(), launch, end, offer);
    }
    if end == tested.fall {
        return counted_by(alloc, sources, tested.falls.as_slice(), launch, end, offer);
    }
    test_that_counts(alloc, sources, launch, end, offer)
}
