//! The skews of launch edges at the clock pins of registers.

ghost use Rattle.std.specs.Prelude.{◌≡◌, ◌<◌, ◌-ℤ◌, true, length, Some, Contains, IfOk, OnOk};
ghost use Rattle.sta_units.specs.Numbers.{Within};
ghost use Rattle.timing_defs.specs.RowTimes.{edge_of};
ghost use Rattle.timing_rules.specs.Rows.{launch_edges};
ghost use Rattle.timing_rules.specs.Summaries.{AreSkews};
ghost use Rattle.netlist_store.specs.Numbering.{is_number};
ghost use Rattle.pin_graph.specs.Nodes.{pin_under, tran_under};
ghost use Rattle.affected_cone.specs.Analysed.{IsSearch};
ghost use Rattle.slack_summaries.specs.Registers.{register_pins};
ghost use Rattle.slack_summaries.specs.Skews.{first_end, AreEnds, IsNodeOf, IsSkewOf, IsEdgeSkew, IsWithEdge, IsWithClock};

use crate::outermost::{Reached, outermost};
use crate::registers::register_pins;
use affected_cone::{Analysis, Search};
use netlist_store::Store;
use sta_units::{Fs, Memory, Pair, both};
use std::alloc::Global;
use timing_defs::{Items, LaunchEdge, PathNode, SkewReport, Split, Tran};

/// The nodes between which a skew is: of outermost late and of outermost early arrival.
#[derive(Clone, Copy, Drop)]
pub(crate) struct SkewEnds {
    pub(crate) late: Reached,
    pub(crate) early: Reached,
}

/// A node with its arrival.
#[tactic(auto, using(crate::proofs::EndLaws::node_made))]
fn path_node(alloc: Global, store: &Store, reached: Reached) -> Result<PathNode, Memory>
    requires { is_number store.now.pins (pin_under reached.node) ≡ true }
    ensures { IfOk result (IsNodeOf store.now reached) }
{
    let pin = store.pin_name(reached.node / 2).copied(alloc)?;
    Ok(PathNode {
        pin,
        tran: tran_of(reached.node),
        time: Fs(reached.time),
    })
}

/// The transition of a node.
fn tran_of(node: u32) -> Tran
    ensures { result ≡ tran_under node }
{
    if node % 2 == 0 {
        Tran::Rise
    } else {
        Tran::Fall
    }
}

/// A late less an early arrival, in fs.
fn between(late: i64, early: i64) -> Fs
    requires late { Within late }
    requires early { Within early }
    ensures { result.0 ≡ late -ℤ early }
{
    Fs(late - early)
}

/// The node of outermost early arrival on a launch edge that reaches one late: the cells of both libraries have the same arcs, so it
/// reaches that node early, too.
#[tactic(auto, using(crate::proofs::SkewLaws::pins_low))]
fn early_end(search: &Search<'_>, edge: LaunchEdge, pins: &[u32], late: Reached) -> Reached
    requires search { IsSearch search.now }
    requires edge { Contains (launch_edges search.now.store.now.design) (edge_of edge) }
    requires pins { pins.now ≡ register_pins search.now.store.now }
    requires late { first_end search.now.store.now Split.Late (edge_of edge) ≡ Some late }
    ensures { first_end search.now.store.now Split.Early (edge_of edge) ≡ Some result }
{
    search.store.laws();
    search.graph.laws();
    match outermost(search, Split::Early, edge, pins) {
        Some(early) => early,
        None => unreachable!(),
    }
}

/// The nodes between which the skew of a launch edge is; none where it reaches no register's clock pin.
#[tactic(auto, using(crate::proofs::EndLaws::end_first, crate::proofs::EndLaws::no_ends, crate::proofs::SkewLaws::pins_low))]
fn skew_ends(search: &Search<'_>, edge: LaunchEdge, pins: &[u32]) -> Option<SkewEnds>
    requires search { IsSearch search.now }
    requires edge { Contains (launch_edges search.now.store.now.design) (edge_of edge) }
    requires pins { pins.now ≡ register_pins search.now.store.now }
    ensures { AreEnds search.now.store.now (edge_of edge) result }
{
    search.store.laws();
    search.graph.laws();
    match outermost(search, Split::Late, edge, pins) {
        Some(late) => {
            let early = early_end(search, edge, pins, late);
            Some(SkewEnds { late, early })
        }
        None => None,
    }
}

/// The skew of a launch edge, by the nodes between which it is.
#[tactic(auto, using(crate::proofs::EndLaws::skew_made))]
fn skew_between(
    alloc: Global,
    store: &Store,
    edge: LaunchEdge,
    ends: SkewEnds,
) -> Result<SkewReport, Memory>
    requires ends { AreEnds store.now (edge_of edge) (Some ends) }
    ensures { IfOk result (IsSkewOf store.now (edge_of edge) ends) }
{
    let late = path_node(alloc, store, ends.late);
    let early = path_node(alloc, store, ends.early);
    let Pair {
        one: late,
        other: early,
    } = both(late, early)?;
    Ok(SkewReport {
        clock: edge.clock,
        tran: edge.tran,
        skew: between(ends.late.time, ends.early.time),
        late,
        early,
    })
}

/// The skew of a launch edge; none where it reaches no register's clock pin.
#[tactic(auto, using(crate::proofs::SkewLaws::skew_told, crate::proofs::SkewLaws::unreached))]
fn edge_skew(
    alloc: Global,
    search: &Search<'_>,
    edge: LaunchEdge,
    pins: &[u32],
) -> Result<Option<SkewReport>, Memory>
    requires search { IsSearch search.now }
    requires edge { Contains (launch_edges search.now.store.now.design) (edge_of edge) }
    requires pins { pins.now ≡ register_pins search.now.store.now }
    ensures { IfOk result (IsEdgeSkew search.now.store.now.design (edge_of edge)) }
{
    search.store.laws();
    match skew_ends(search, edge, pins) {
        Some(ends) => {
            let skew = skew_between(alloc, search.store, edge, ends)?;
            Ok(Some(skew))
        }
        None => Ok(None),
    }
}

/// Adds the skew of a launch edge, where it reaches a register's clock pin.
#[tactic(auto, using(crate::proofs::EndLaws::put_some, crate::proofs::EndLaws::put_none))]
fn add_skew(
    alloc: Global,
    search: &Search<'_>,
    edge: LaunchEdge,
    pins: &[u32],
    skews: &mut Items<SkewReport>,
) -> Result<(), Memory>
    requires search { IsSearch search.now }
    requires edge { Contains (launch_edges search.now.store.now.design) (edge_of edge) }
    requires pins { pins.now ≡ register_pins search.now.store.now }
    ensures { OnOk result
        (IsWithEdge search.now.store.now.design (edge_of edge) skews.old skews.new) }
{
    match edge_skew(alloc, search, edge, pins)? {
        Some(skew) => skews.push(skew),
        None => Ok(()),
    }
}

/// Adds the skews of both launch edges of the clock at a place.
#[tactic(auto, using(crate::proofs::SkewLaws::edge_there))]
fn add_clock(
    alloc: Global,
    search: &Search<'_>,
    at: usize,
    pins: &[u32],
    skews: &mut Items<SkewReport>,
) -> Result<(), Memory>
    requires search { IsSearch search.now }
    requires at { at < length search.now.store.now.design.constraints.clocks }
    requires pins { pins.now ≡ register_pins search.now.store.now }
    ensures { OnOk result (IsWithClock search.now.store.now.design at skews.old skews.new) }
{
    search.store.laws();
    let clock = at as u32;
    let rise = LaunchEdge {
        clock,
        tran: Tran::Rise,
    };
    let fall = LaunchEdge {
        clock,
        tran: Tran::Fall,
    };
    add_skew(alloc, search, rise, pins, skews)?;
    add_skew(alloc, search, fall, pins, skews)
}

/// The skews of all launch edges.
fn all_skews(alloc: Global, search: &Search<'_>, pins: &[u32]) -> Result<Items<SkewReport>, Memory>
    requires search { IsSearch search.now }
    requires pins { pins.now ≡ register_pins search.now.store.now }
    ensures { IfOk result (AreSkews search.now.store.now.design) }
{
    let mut skews = Items::new(alloc);
    for at in 0..search.store.constraints().clocks.len() {
        add_clock(alloc, search, at, pins, &mut skews)?;
    }
    Ok(skews)
}

/// The skew of each launch edge that reaches a register's clock pin through a clock network, in the order of the clocks, rise before
/// fall: the greatest late less the least early arrival there, with the nodes of both, of equal ones the first by name. Times are in
/// fs. Takes a step for each pin, and four look-ups for each such clock pin and launch edge. The one error is want of memory.
pub fn skews(alloc: Global, store: &Store, analysis: &Analysis) -> Result<Items<SkewReport>, Memory>
    requires { store.now ≡ analysis.now.stored }
    ensures { IfOk result (AreSkews analysis.now.stored.design) }
{
    let search = analysis.search(store);
    let pins = register_pins(alloc, store, search.graph)?;
    all_skews(alloc, &search, pins.as_slice())
}
