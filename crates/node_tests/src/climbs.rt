//! Walks over the clock network, from a node back to the clock's port on which they start.

ghost use Rattle.std.specs.Prelude.{◌≡◌, ◌<◌, ◌≤◌, true, length, option_and_then, IfSome};
ghost use Rattle.std.specs.List.{position};
ghost use Rattle.timing_rules.specs.Tests.{network_walk};
ghost use Rattle.netlist_store.specs.Numbering.{is_number, pin_numbered, IsNumbered};
ghost use Rattle.netlist_store.specs.Linked.{IsLinked};
ghost use Rattle.pin_graph.specs.Nodes.{node_at, node_bound, pin_under};
ghost use Rattle.pin_graph.specs.Graphs.{fan_at, network_at};
ghost use Rattle.node_tests.specs.Walks.{has_clock, clock_of, first_from, IsTop, StartsOn};

use netlist_store::Store;
use pin_graph::Graph;
use timing_defs::{Clock, Dir, Name, Tran};

/// Where a walk over the clock network starts: the number of the clock port's node, and its launch edge
/// (the clock's place in the list of clocks, and the port's transition).
#[derive(Clone, Copy, Drop)]
pub struct WalkStart {
    pub node: u32,
    pub clock: u32,
    pub tran: Tran,
}

/// The node from which the first arc leads to a node; none where no arc does.
fn before(graph: &Graph, node: u32) -> Option<u32>
    requires { node < node_bound graph.now.stored }
    ensures { result ≡ first_from (fan_at graph.now.ins node) }
{
    match graph.arcs_in(node) {
        [arc, ..] => Some(arc.from),
        [] => None,
    }
}

/// The node of the clock network to which no arc leads, on the way back from a node.
fn climbed(graph: &Graph, node: u32) -> u32
    requires numbered { IsNumbered graph.now.stored }
    requires linked { IsLinked graph.now.stored.design }
    requires below { node < node_bound graph.now.stored }
    requires network { network_at graph.now node ≡ true }
    ensures { IsTop graph.now node result }
{
    graph.laws();
    let mut top = node;
    while let Some(from) = before(graph, top) {
        top = from;
    }
    top
}

/// Whether the port of a clock has that name.
fn has_port(clock: &Clock, port: &Name) -> bool
    ensures { result ≡ has_clock port.now clock.now }
{
    match &clock.port {
        Some(name) => port == name,
        None => false,
    }
}

/// The place of the first clock whose port has that name.
fn clock_at(clocks: &[Clock], port: &Name) -> Option<usize>
    ensures place { result ≡ position (has_clock port.now) clocks.now }
    ensures below { IfSome result (λ at. at < length clocks.now) }
{
    clocks.iter().position(|clock| has_port(clock, port))
}

/// The first of some clocks whose port has that name, by its place.
fn clock_number(clocks: &[Clock], port: &Name) -> Option<u32>
    requires { length clocks.now ≤ 8 }
    ensures { result ≡ position (has_clock port.now) clocks.now }
{
    let at = clock_at(clocks, port)?;
    Some(at as u32)
}

/// The place of the first clock whose port a pin is.
fn port_clock(store: &Store, pin: u32) -> Option<u32>
    requires { is_number store.now.pins pin ≡ true }
    ensures { result ≡ option_and_then (clock_of store.now.design) (pin_numbered store.now pin) }
{
    store.laws();
    if store.inst_of(pin).is_some() {
        return None;
    }
    match store.dir_of(pin) {
        Dir::Input => clock_number(store.constraints().clocks.as_slice(), store.pin_name(pin)),
        Dir::Output => None,
    }
}

/// The place of the first clock whose port is the pin of a node.
#[tactic(auto, using(crate::proofs::ClimbLaws::no_pin))]
fn top_clock(store: &Store, graph: &Graph, top: u32) -> Option<u32>
    requires graph { graph.now.stored ≡ store.now }
    requires top { top < node_bound store.now }
    ensures { result
        ≡ option_and_then (clock_of store.now.design) (pin_numbered store.now (pin_under top)) }
{
    match graph.pin_of(top) {
        Some(pin) => port_clock(store, pin),
        None => None,
    }
}

/// Where the walk over the clock network to a node starts; none exactly where no walk leads there. Takes
/// a step for each node of the walk, and no memory.
pub fn walk_start(store: &Store, graph: &Graph, node: u32) -> Option<WalkStart>
    requires graph { graph.now.stored ≡ store.now }
    requires node { node < node_bound store.now }
    ensures { StartsOn store.now
        (option_and_then (network_walk store.now.design) (node_at store.now node)) result }
{
    store.laws();
    graph.laws();
    if !graph.is_network(node) {
        return None;
    }
    let top = climbed(graph, node);
    match top_clock(store, graph, top) {
        Some(clock) => Some(WalkStart {
            node: top,
            clock,
            tran: graph.tran_of(top),
        }),
        None => None,
    }
}
