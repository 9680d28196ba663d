//! What the nodes of a fan-in cone offer as launches of paths to its end nodes.

ghost use Rattle.std.specs.Prelude.{◌≡◌, ◌++◌, ◌∷◌, ◌<◌, ◌≤◌, ◌^◌, [], ℤ, true, Option, Some, All, length, IfOk, OnOk};
ghost use Rattle.timing_defs.specs.Netlist.{Node};
ghost use Rattle.timing_rules.specs.Paths.{named};
ghost use Rattle.timing_defs.specs.Kinds.{data_split};
ghost use Rattle.netlist_store.specs.Numbering.{is_number};
ghost use Rattle.pin_graph.specs.Nodes.{node_at, node_bound, pin_under};
ghost use Rattle.pin_graph.specs.RowTables.{AreRowsFine};
ghost use Rattle.path_search.specs.Offers.{AreOffers};
ghost use Rattle.path_search.specs.Slacks.{AreEndTestsOf, IsLaunchNode, IsOfferOf, put_offer};
ghost use Rattle.path_search.specs.Sources.{AreSources};

use crate::ends::{EndTest, end_tests};
use crate::launches::{LaunchNode, launch_node};
use crate::sources::Sources;
use crate::test_slacks::least_slack;
use arc_delays::Delayed;
use sta_units::Memory;
use std::alloc::Global;
use timing_defs::{Items, Rows};
use worst_walks::Launch;

/// The tests of a pin's two nodes.
#[derive(Drop)]
pub(crate) struct PinTests {
    pub(crate) rise: Items<EndTest>,
    pub(crate) fall: Items<EndTest>,
}

/// What a node offers for the tests of a pin's two nodes.
#[derive(Drop)]
struct NodeOffers {
    rise: Option<i64>,
    fall: Option<i64>,
}

/// What the nodes of a list offer for a pin's two nodes.
#[derive(Drop)]
pub(crate) struct PinOffers {
    pub(crate) rise: Items<Launch>,
    pub(crate) fall: Items<Launch>,
}

/// The tests of two end nodes.
pub(crate) fn pin_tests<A: Rows + Delayed>(
    alloc: Global,
    sources: &Sources<'_, A>,
    rise: u32,
    fall: u32,
) -> Result<PinTests, Memory>
    requires sources { AreSources sources.now.store.now sources.now.graph.now
        (A.rows sources.now.arrivals.now) (A.delays sources.now.arrivals.now) sources.now.tree.now }
    requires rise { rise < node_bound sources.now.store.now }
    requires rise_there { is_number sources.now.store.now.pins (pin_under rise) ≡ true }
    requires fall { fall < node_bound sources.now.store.now }
    requires fall_there { is_number sources.now.store.now.pins (pin_under fall) ≡ true }
    ensures rises { IfOk result
        (λ tests. AreEndTestsOf sources.now.graph.now sources.now.kind rise tests.rise) }
    ensures falls { IfOk result
        (λ tests. AreEndTestsOf sources.now.graph.now sources.now.kind fall tests.fall) }
{
    let rises = end_tests(
        alloc,
        sources.store,
        sources.graph,
        sources.arrivals,
        sources.kind,
        rise,
    )?;
    let falls = end_tests(
        alloc,
        sources.store,
        sources.graph,
        sources.arrivals,
        sources.kind,
        fall,
    )?;
    Ok(PinTests {
        rise: rises,
        fall: falls,
    })
}

/// What a launch node offers for the tests of an end node: the least slack of its paths there in fs, less
/// the delays after it.
fn launch_offer<A: Rows + Delayed>(
    sources: &Sources<'_, A>,
    tests: &[EndTest],
    launch: &LaunchNode,
    node: u32,
    end: u32,
) -> Option<i64>
    requires sources { AreSources sources.now.store.now sources.now.graph.now
        (A.rows sources.now.arrivals.now) (A.delays sources.now.arrivals.now) sources.now.tree.now }
    requires tests { AreEndTestsOf sources.now.graph.now sources.now.kind end tests.now }
    requires launch { IsLaunchNode sources.now.graph.now (data_split sources.now.kind) node
        launch.now }
    requires there { is_number sources.now.store.now.pins (pin_under end) ≡ true }
    ensures { IsOfferOf sources.now.store.now sources.now.kind node end result }
{
    sources.store.laws();
    sources.graph.laws();
    // The numbers are asked for by the contract alone.
    let _ = node;
    let _ = end;
    least_slack(sources.store, sources.tree, sources.kind, launch, tests)
}

/// What a node offers for the tests of two end nodes. Its launch is found once for both.
fn node_offers<A: Rows + Delayed>(
    alloc: Global,
    sources: &Sources<'_, A>,
    tests: &PinTests,
    node: u32,
    rise: u32,
    fall: u32,
) -> Result<NodeOffers, Memory>
    requires sources { AreSources sources.now.store.now sources.now.graph.now
        (A.rows sources.now.arrivals.now) (A.delays sources.now.arrivals.now) sources.now.tree.now }
    requires rises { AreEndTestsOf sources.now.graph.now sources.now.kind rise tests.now.rise }
    requires falls { AreEndTestsOf sources.now.graph.now sources.now.kind fall tests.now.fall }
    requires node { node < node_bound sources.now.store.now }
    requires rise_there { is_number sources.now.store.now.pins (pin_under rise) ≡ true }
    requires fall_there { is_number sources.now.store.now.pins (pin_under fall) ≡ true }
    ensures rise { IfOk result
        (λ offered. IsOfferOf sources.now.store.now sources.now.kind node rise offered.rise) }
    ensures fall { IfOk result
        (λ offered. IsOfferOf sources.now.store.now sources.now.kind node fall offered.fall) }
{
    sources.store.laws();
    sources.graph.laws();
    let launch = launch_node(
        alloc,
        sources.store,
        sources.graph,
        sources.arrivals,
        sources.kind,
        node,
    )?;
    match launch {
        Some(launch) => Ok(NodeOffers {
            rise: launch_offer(sources, tests.rise.as_slice(), &launch, node, rise),
            fall: launch_offer(sources, tests.fall.as_slice(), &launch, node, fall),
        }),
        None => Ok(NodeOffers {
            rise: None,
            fall: None,
        }),
    }
}

/// Adds what the node at a place of a list offers, where it offers something.
fn add_offer(launches: &mut Items<Launch>, place: u32, offer: Option<i64>) -> Result<(), Memory>
    ensures { OnOk result (launches.new ≡ launches.old ++ put_offer place offer) }
{
    match offer {
        Some(offer) => launches.push(Launch { node: place, offer }),
        None => Ok(()),
    }
}

/// Adds what the node at a place of a list offers for two end nodes.
fn add_node_offers<A: Rows + Delayed>(
    alloc: Global,
    sources: &Sources<'_, A>,
    tests: &PinTests,
    made: &mut PinOffers,
    place: u32,
    node: u32,
    rise: u32,
    fall: u32,
) -> Result<(), Memory>
    requires sources { AreSources sources.now.store.now sources.now.graph.now
        (A.rows sources.now.arrivals.now) (A.delays sources.now.arrivals.now) sources.now.tree.now }
    requires rises { AreEndTestsOf sources.now.graph.now sources.now.kind rise tests.now.rise }
    requires falls { AreEndTestsOf sources.now.graph.now sources.now.kind fall tests.now.fall }
    requires node { node < node_bound sources.now.store.now }
    requires rise_there { is_number sources.now.store.now.pins (pin_under rise) ≡ true }
    requires fall_there { is_number sources.now.store.now.pins (pin_under fall) ≡ true }
    ensures rise { OnOk result
        ((offer : Option ℤ) × IsOfferOf sources.now.store.now sources.now.kind node rise offer
        × (made.new.rise ≡ made.old.rise ++ put_offer place offer)) }
    ensures fall { OnOk result
        ((offer : Option ℤ) × IsOfferOf sources.now.store.now sources.now.kind node fall offer
        × (made.new.fall ≡ made.old.fall ++ put_offer place offer)) }
{
    let offered = node_offers(alloc, sources, tests, node, rise, fall)?;
    add_offer(&mut made.rise, place, offered.rise)?;
    add_offer(&mut made.fall, place, offered.fall)
}

/// What each node of a list offers for the tests of two end nodes, in the order of the list.
fn tested_offers<A: Rows + Delayed>(
    alloc: Global,
    sources: &Sources<'_, A>,
    tests: &PinTests,
    nodes: &[u32],
    rise: u32,
    fall: u32,
) -> Result<PinOffers, Memory>
    requires sources { AreSources sources.now.store.now sources.now.graph.now
        (A.rows sources.now.arrivals.now) (A.delays sources.now.arrivals.now) sources.now.tree.now }
    requires rises { AreEndTestsOf sources.now.graph.now sources.now.kind rise tests.now.rise }
    requires falls { AreEndTestsOf sources.now.graph.now sources.now.kind fall tests.now.fall }
    requires nodes { All (λ node. node < node_bound sources.now.store.now) nodes.now }
    requires few { length nodes.now ≤ 2 ^ 32 }
    requires rise_there { is_number sources.now.store.now.pins (pin_under rise) ≡ true }
    requires fall_there { is_number sources.now.store.now.pins (pin_under fall) ≡ true }
    ensures rises { IfOk result
        (λ made. (node : Node) → node_at sources.now.store.now rise ≡ Some node
        → AreOffers sources.now.store.now sources.now.kind nodes.now (named node) made.rise) }
    ensures falls { IfOk result
        (λ made. (node : Node) → node_at sources.now.store.now fall ≡ Some node
        → AreOffers sources.now.store.now sources.now.kind nodes.now (named node) made.fall) }
{
    let mut made = PinOffers {
        rise: Items::new(alloc),
        fall: Items::new(alloc),
    };
    for (place, node) in nodes.iter().enumerate() {
        add_node_offers(
            alloc,
            sources,
            tests,
            &mut made,
            place as u32,
            *node,
            rise,
            fall,
        )?;
    }
    Ok(made)
}

/// What each node of a list offers for two end nodes that are there, in the order of the list: the least
/// slack of the node's paths to the end node in fs, less the delays after it. Takes as many steps as the
/// launch nodes of the list times the tests of the end nodes, and the exceptions that are tried for each.
pub(crate) fn offers<A: Rows + Delayed>(
    alloc: Global,
    sources: &Sources<'_, A>,
    nodes: &[u32],
    rise: u32,
    fall: u32,
) -> Result<PinOffers, Memory>
    requires sources { AreSources sources.now.store.now sources.now.graph.now
        (A.rows sources.now.arrivals.now) (A.delays sources.now.arrivals.now) sources.now.tree.now }
    requires nodes { All (λ node. node < node_bound sources.now.store.now) nodes.now }
    requires few { length nodes.now ≤ 2 ^ 32 }
    requires rise { rise < node_bound sources.now.store.now }
    requires rise_there { is_number sources.now.store.now.pins (pin_under rise) ≡ true }
    requires fall { fall < node_bound sources.now.store.now }
    requires fall_there { is_number sources.now.store.now.pins (pin_under fall) ≡ true }
    ensures rises { IfOk result
        (λ made. (node : Node) → node_at sources.now.store.now rise ≡ Some node
        → AreOffers sources.now.store.now sources.now.kind nodes.now (named node) made.rise) }
    ensures falls { IfOk result
        (λ made. (node : Node) → node_at sources.now.store.now fall ≡ Some node
        → AreOffers sources.now.store.now sources.now.kind nodes.now (named node) made.fall) }
{
    let tests = pin_tests(alloc, sources, rise, fall)?;
    tested_offers(alloc, sources, &tests, nodes, rise, fall)
}
