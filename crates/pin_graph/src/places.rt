//! The places of clock network nodes, each parent's before its children's.

ghost use Rattle.std.specs.Prelude.{◌≡◌, ◌++◌, ◌*◌, ◌<◌, ◌≤◌, ◌^◌, All, map, length, IfOk, OnOk};
ghost use Rattle.std.specs.List.{filter_map, flat_map};
ghost use Rattle.std.specs.List.Sorted.{IsNonDecreasingBy, IsPermutation};
ghost use Rattle.std.specs.Option.{option_to_list};
ghost use Rattle.pin_graph.specs.Nodes.{pin_under};
ghost use Rattle.pin_graph.specs.NodeArcs.{AreNodes};
ghost use Rattle.pin_graph.specs.Placing.{network_link, port_nodes, at_level, leveled, node_of, AreClocked, AreInOrder, AreInPlace, AreOrdered, ArePlaced};

use crate::arcs::GraphArc;
use crate::nodes::{node_number, pin_under};
use cow_table::CowTable;
use levelizer::{Link, reached};
use sta_units::Memory;
use std::alloc::Global;
use timing_defs::{Items, Tran};

/// An arc into a network node.
fn network_link(network: &CowTable<bool>, arc: GraphArc) -> Option<Link>
    requires { pin_under arc.to < length network.now }
    ensures { result ≡ network_link network.now arc }
{
    if *network.get(pin_under(arc.to) as usize) {
        Some(Link {
            from: arc.from,
            to: arc.to,
        })
    } else {
        None
    }
}

/// Adds an arc, where it is there.
fn add_link(links: &mut Items<Link>, link: Option<Link>) -> Result<(), Memory>
    ensures { OnOk result (links.new ≡ links.old ++ option_to_list link) }
{
    match link {
        Some(link) => links.push(link),
        None => Ok(()),
    }
}

/// The arcs into network nodes.
#[tactic(auto, using(crate::proofs::ArcLaws::first_mapped_more))]
fn network_links(
    alloc: Global,
    network: &CowTable<bool>,
    arcs: &[GraphArc],
) -> Result<Items<Link>, Memory>
    requires { All (λ arc. pin_under arc.to < length network.now) arcs.now }
    ensures { IfOk result (λ links. links ≡ filter_map (network_link network.now) arcs.now) }
{
    let mut links = Items::new(alloc);
    for arc in arcs {
        add_link(&mut links, network_link(network, *arc))?;
    }
    Ok(links)
}

/// Adds the nodes of a pin, where it is of the network.
fn add_port_nodes(nodes: &mut Items<u32>, network: &CowTable<bool>, port: u32) -> Result<(), Memory>
    requires long { length network.now ≤ 2 ^ 31 }
    requires port { port < length network.now }
    ensures { OnOk result (nodes.new ≡ nodes.old ++ port_nodes network.now port) }
{
    if !*network.get(port as usize) {
        return Ok(());
    }
    nodes.push(node_number(port, Tran::Rise))?;
    nodes.push(node_number(port, Tran::Fall))
}

/// The nodes of the clocks' ports that are of the network.
fn ports_nodes(alloc: Global, network: &CowTable<bool>, ports: &[u32]) -> Result<Items<u32>, Memory>
    requires long { length network.now ≤ 2 ^ 31 }
    requires ports { All (λ port. port < length network.now) ports.now }
    ensures { IfOk result (λ nodes. nodes ≡ flat_map (port_nodes network.now) ports.now) }
{
    let mut nodes = Items::new(alloc);
    for port in ports {
        add_port_nodes(&mut nodes, network, *port)?;
    }
    Ok(nodes)
}

/// A node and its level.
#[derive(Clone, Copy, Drop)]
pub(crate) struct AtLevel {
    pub(crate) level: u32,
    pub(crate) node: u32,
}

/// A node with its level, where it is marked.
fn at_level(marks: &[bool], levels: &[u32], node: u32) -> Option<AtLevel>
    requires marks { node < length marks.now }
    requires levels { node < length levels.now }
    ensures { result ≡ at_level marks.now levels.now node }
{
    if marks[node as usize] {
        Some(AtLevel {
            level: levels[node as usize],
            node,
        })
    } else {
        None
    }
}

/// Adds a node, where it is there.
fn add_node(nodes: &mut Items<AtLevel>, node: Option<AtLevel>) -> Result<(), Memory>
    ensures { OnOk result (nodes.new ≡ nodes.old ++ option_to_list node) }
{
    match node {
        Some(node) => nodes.push(node),
        None => Ok(()),
    }
}

/// The marked nodes with their levels.
#[tactic(auto, using(crate::proofs::ArcLaws::mapped_numbers_more))]
fn leveled(alloc: Global, n: u32, marks: &[bool], levels: &[u32]) -> Result<Items<AtLevel>, Memory>
    requires marks { length marks.now ≡ n }
    requires levels { length levels.now ≡ n }
    ensures { IfOk result (λ nodes. nodes ≡ leveled n marks.now levels.now) }
{
    let mut nodes = Items::new(alloc);
    for node in 0..n {
        add_node(&mut nodes, at_level(marks, levels, node))?;
    }
    Ok(nodes)
}

/// Nodes in the order of their levels.
fn by_level(mut nodes: Vec<AtLevel>) -> Result<Vec<AtLevel>, Memory>
    ensures order { IfOk result (λ sorted. IsNonDecreasingBy (λ at. at.level) sorted.items) }
    ensures same { IfOk result (λ sorted. IsPermutation nodes.items sorted.items) }
{
    nodes.sort_by_key(|at| at.level)?;
    Ok(nodes)
}

/// The marked nodes in the order of their levels.
fn ordered(alloc: Global, n: u32, marks: &[bool], levels: &[u32]) -> Result<Vec<AtLevel>, Memory>
    requires marks { length marks.now ≡ n }
    requires levels { length levels.now ≡ n }
    ensures { IfOk result (λ nodes. AreOrdered n marks.now levels.now nodes.items) }
{
    let nodes = leveled(alloc, n, marks, levels)?;
    by_level(nodes.into_vec())
}

/// For each node below `n` its place in a list.
fn places_in(alloc: Global, n: u32, nodes: &[AtLevel]) -> Result<Items<Option<u32>>, Memory>
    requires nodes { All (λ at. at.node < n) nodes.now }
    requires few { length nodes.now ≤ n }
    ensures { IfOk result (AreInPlace n nodes.now (length nodes.now)) }
{
    let mut places = vec![in alloc; None; n as usize]?;
    for (place, at) in nodes.iter().enumerate() {
        places[at.node as usize] = Some(place as u32);
    }
    Ok(Items::from_vec(places))
}

/// The nodes of the network to which walks lead from the clocks' ports.
fn clocked(
    alloc: Global,
    n: u32,
    network: &CowTable<bool>,
    ports: &[u32],
    arcs: &[GraphArc],
) -> Result<Items<bool>, Memory>
    requires long { 2 * length network.now ≡ n }
    requires ports { All (λ port. port < length network.now) ports.now }
    requires arcs { AreNodes n arcs.now }
    ensures { IfOk result (AreClocked n network.now ports.now arcs.now) }
{
    let links = network_links(alloc, network, arcs)?;
    let first = ports_nodes(alloc, network, ports)?;
    reached(alloc, n, links.as_slice(), first.as_slice())
}

/// The nodes of a list.
fn nodes_in(alloc: Global, nodes: &[AtLevel]) -> Result<Items<u32>, Memory>
    ensures { IfOk result (λ found. found ≡ map node_of nodes.now) }
{
    let mut found = Items::with_room(alloc, nodes.len())?;
    for at in nodes {
        found.push(at.node)?;
    }
    Ok(found)
}

/// The places of nodes, and the nodes that have places, in the order of these.
#[derive(Drop)]
pub(crate) struct NodePlaces {
    pub(crate) places: Items<Option<u32>>,
    pub(crate) order: Items<u32>,
}

/// The place of each node below `n`, and the nodes by their places. Takes as many steps as there are nodes
/// and arcs, and those of sorting the network's nodes by their levels.
pub(crate) fn places(
    alloc: Global,
    n: u32,
    network: &CowTable<bool>,
    ports: &[u32],
    arcs: &[GraphArc],
    levels: &[u32],
) -> Result<NodePlaces, Memory>
    requires long { 2 * length network.now ≡ n }
    requires ports { All (λ port. port < length network.now) ports.now }
    requires arcs { AreNodes n arcs.now }
    requires levels { length levels.now ≡ n }
    ensures placed { IfOk result
        (λ made. ArePlaced n network.now ports.now arcs.now levels.now made.places) }
    ensures ordered { IfOk result (λ made. AreInOrder made.places made.order) }
{
    let marks = clocked(alloc, n, network, ports, arcs)?;
    let nodes = ordered(alloc, n, marks.as_slice(), levels)?;
    let places = places_in(alloc, n, nodes.as_slice())?;
    let order = nodes_in(alloc, nodes.as_slice())?;
    Ok(NodePlaces { places, order })
}
