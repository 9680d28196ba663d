//! The places of the nodes of the pins that a path is to pass.

ghost use Rattle.std.specs.Prelude.{◌≡◌, ◌<◌, ◌^◌, map, length, nat_eq, IfOk, None, Some};
ghost use Rattle.std.specs.List.{position};
ghost use Rattle.netlist_store.specs.Numbering.{number_of};
ghost use Rattle.path_cones.specs.Reaching.{AreOnce};
ghost use Rattle.through_paths.specs.Passing.{place_or_past, IsStop, AreStops};

use pin_graph::Graph;
use sta_units::Memory;
use std::alloc::Global;
use through_walks::Stop;
use timing_defs::{Items, Name, Tran};

/// The place of a node in a list.
fn place_in(nodes: &[u32], node: u32) -> Option<usize>
    ensures { result ≡ position (λ n. nat_eq node n) nodes.now }
{
    nodes.iter().position(|n| node == *n)
}

/// The place of a node in a list; past the list where it is not there.
fn place_or_past(nodes: &[u32], node: Option<u32>) -> u32
    requires { length nodes.now < 2 ^ 22 }
    ensures { result ≡ place_or_past nodes.now node }
{
    let Some(node) = node else {
        return nodes.len() as u32;
    };
    match place_in(nodes, node) {
        Some(place) => place as u32,
        None => nodes.len() as u32,
    }
}

/// The stop of a pin: the places of its two nodes.
#[tactic(auto, using(crate::proofs::StopLaws::stop_is))]
fn stop_of(graph: &Graph, nodes: &[u32], pin: &Name) -> Stop
    requires few { length nodes.now < 2 ^ 22 }
    requires once { AreOnce nodes.now }
    ensures { IsStop nodes.now (number_of graph.now.stored.pins pin.now) result }
{
    Stop {
        rise: place_or_past(nodes, graph.node(pin, Tran::Rise)),
        fall: place_or_past(nodes, graph.node(pin, Tran::Fall)),
    }
}

/// The stops of pins in their order. Takes a step for each pin and node of the list.
pub(crate) fn stops_of(
    alloc: Global,
    graph: &Graph,
    nodes: &[u32],
    pins: &[Name],
) -> Result<Items<Stop>, Memory>
    requires few { length nodes.now < 2 ^ 22 }
    requires once { AreOnce nodes.now }
    ensures { IfOk result (AreStops nodes.now (map (number_of graph.now.stored.pins) pins.now)) }
{
    let mut stops = Items::with_room(alloc, pins.len())?;
    for pin in pins {
        stops.push(stop_of(graph, nodes, pin))?;
    }
    Ok(stops)
}
