//! The path that is read off a walk.

ghost use Rattle.std.specs.Prelude.{◌≡◌, ◌<◌, ◌≤◌, ◌+◌, ◌-◌, ◌*◌, ◌^◌, ◌+ℤ◌, ◌++◌, ◌∷◌, [], true, All, Some, IsSome, length, map, slice_index, unsigned_abs, IfOk, OnOk};
ghost use Rattle.sta_units.specs.Numbers.{Within};
ghost use Rattle.netlist_store.specs.Numbering.{is_number};
ghost use Rattle.pin_graph.specs.Nodes.{node_bound, pin_under, tran_under};
ghost use Rattle.pin_graph.specs.RowTables.{AreRows};
ghost use Rattle.worst_walks.specs.Walks.{most_nodes, count_of, delay_between, listed_into, delay_in, IsCone, IsWalk};
ghost use Rattle.path_search.specs.Launches.{signed};
ghost use Rattle.path_search.specs.Sources.{AreSources};
ghost use Rattle.path_search.specs.Tested.{AreTested};
ghost use Rattle.path_search.specs.PinCones.{capture_edge, capture_part, launch_part, name_part, name_told, place_name, time_part, time_numbered, IsNodePlace, IsWalkOn, AreEndsFine, AreEndsOf, AreNodesOf, IsWalkFine, IsWalkPath, IsPinCone, IsPinPart};
ghost use Rattle.path_search.specs.Counts.{counted_edge, IsCountedAt};
ghost use Rattle.path_search.specs.Ranks.{climb};
ghost use Rattle.path_search.specs.WalkTimes.{time_next, times_after};

use crate::cones::PinCone;
use crate::counted::{Counted, test_that_counts};
use crate::orders::climb;
use crate::sources::Sources;
use crate::tested::{Tested, counted_in};
use arc_delays::Delayed;
use netlist_store::Store;
use node_rows::{time_on, times_in};
use pin_graph::Graph;
use sta_units::{Fs, Memory};
use std::alloc::Global;
use timing_defs::{Items, Kind, Name, Path, PathNode, Rows, Split, Tran};
use worst_walks::{Cone, Walk, WalkArc};

/// The transition of a node.
fn tran_of(node: u32) -> Tran
    ensures { result ≡ tran_under node }
{
    if node % 2 == 0 {
        Tran::Rise
    } else {
        Tran::Fall
    }
}

/// A node of a path.
fn path_node(alloc: Global, store: &Store, node: u32, time: i64) -> Result<PathNode, Memory>
    requires { is_number store.now.pins (pin_under node) ≡ true }
    ensures name { IfOk result (λ made. name_part made ≡ name_told store.now node) }
    ensures time { IfOk result (λ made. time_part made ≡ time) }
{
    store.laws();
    let pin = store.pin_name(node / 2).copied(alloc)?;
    Ok(PathNode {
        pin,
        tran: tran_of(node),
        time: Fs(time),
    })
}

/// The arrival of a node on a launch edge in fs; 0 where it has none.
fn arrival_at<A: Rows>(
    store: &Store,
    arrivals: &A,
    split: Split,
    counted: &Counted,
    node: u32,
) -> i64
    requires rows { AreRows store.now (A.rows arrivals.now) }
    requires node { node < node_bound store.now }
    ensures { result ≡ time_numbered store.now split (counted_edge counted.now) node }
{
    let _ = store.pin_bound();
    let times = times_in(arrivals.row(node), split);
    match time_on(times, counted.launch_clock, counted.launch_tran) {
        Some(time) => time,
        None => 0,
    }
}

/// The nodes of the clock network before a launch node, with their arrivals on the launch edge, and room for
/// so many more.
fn network_nodes<A: Rows>(
    alloc: Global,
    store: &Store,
    arrivals: &A,
    split: Split,
    counted: &Counted,
    nodes: &[u32],
    more: usize,
) -> Result<Items<PathNode>, Memory>
    requires rows { AreRows store.now (A.rows arrivals.now) }
    requires nodes { All (λ n. n < node_bound store.now) nodes.now }
    requires numbers { All (λ n. is_number store.now.pins (pin_under n) ≡ true) nodes.now }
    ensures names { IfOk result (λ made. map name_part made ≡ map (name_told store.now) nodes.now) }
    ensures times { IfOk result
        (λ made. map time_part made
        ≡ map (time_numbered store.now split (counted_edge counted.now)) nodes.now) }
{
    let mut path = Items::with_room(alloc, nodes.len().saturating_add(more))?;
    for node in nodes {
        let time = arrival_at(store, arrivals, split, counted, *node);
        let made = path_node(alloc, store, *node, time)?;
        path.push(made)?;
    }
    Ok(path)
}

/// The delay of the arc from a node, where there is one.
fn delay_from(arcs: &[WalkArc], from: u32) -> Option<i64>
    ensures { result ≡ delay_in arcs.now from }
{
    for arc in arcs {
        if arc.from == from {
            return Some(arc.delay);
        }
    }
    None
}

/// The arcs that a cone lists into a node.
fn arcs_at(cone: &Cone, node: u32) -> &[WalkArc]
    requires cone { IsCone cone.now }
    requires node { node < count_of cone.now }
    ensures { result.now ≡ listed_into cone.now node }
{
    let node = node as usize;
    let starts = cone.starts.as_slice();
    &cone.arcs.as_slice()[starts[node] as usize..starts[node + 1] as usize]
}

/// A time with a delay as a search takes it.
fn with_delay(kind: Kind, time: i64, delay: i64) -> i64
    requires time { unsigned_abs time ≤ most_nodes * 10 ^ 12 }
    requires delay { Within delay }
    ensures { result ≡ time +ℤ signed kind delay }
{
    match kind {
        Kind::Setup => time + delay,
        Kind::Hold => time - delay,
    }
}

/// The time at a node of a walk, by that at the node before it.
fn time_after(cone: &Cone, kind: Kind, from: u32, to: u32, time: i64) -> i64
    requires cone { IsCone cone.now }
    requires to { to < count_of cone.now }
    requires arc { IsSome (delay_between cone.now from to) }
    requires time { unsigned_abs time ≤ (most_nodes - from) * 10 ^ 12 }
    ensures value { result ≡ time_next kind cone.now time from to }
    ensures bound { unsigned_abs result ≤ (most_nodes - to) * 10 ^ 12 }
{
    let arcs = arcs_at(cone, to);
    match delay_from(arcs, from) {
        Some(delay) => with_delay(kind, time, delay),
        None => unreachable!(),
    }
}

/// Adds the node at a place of a cone to a path.
fn add_node(
    alloc: Global,
    store: &Store,
    nodes: &[u32],
    place: u32,
    time: i64,
    path: &mut Items<PathNode>,
) -> Result<(), Memory>
    requires place { place < length nodes.now }
    requires number { is_number store.now.pins (pin_under (slice_index nodes.now place)) ≡ true }
    ensures names { OnOk result
        (map name_part path.new
        ≡ map name_part path.old ++ place_name store.now nodes.now place ∷ []) }
    ensures times { OnOk result (map time_part path.new ≡ map time_part path.old ++ time ∷ []) }
{
    let made = path_node(alloc, store, nodes[place as usize], time)?;
    path.push(made)?;
    Ok(())
}

/// Adds the nodes of a walk after its first, with the times along its arcs.
fn add_rest(
    alloc: Global,
    store: &Store,
    search: &PinCone,
    kind: Kind,
    first: u32,
    rest: &[u32],
    start: i64,
    path: &mut Items<PathNode>,
) -> Result<(), Memory>
    requires cone { IsCone search.now.cone }
    requires count { count_of search.now.cone ≡ length search.now.nodes }
    requires walk { IsWalkOn store.now search.now first rest.now }
    requires start { Within start }
    ensures names { OnOk result
        (map name_part path.new
        ≡ map name_part path.old ++ map (place_name store.now search.now.nodes) rest.now) }
    ensures times { OnOk result
        (map time_part path.new
        ≡ map time_part path.old ++ times_after kind search.now.cone start first rest.now) }
{
    let mut time = start;
    let mut at = first;
    for next in rest {
        time = time_after(&search.cone, kind, at, *next, time);
        at = *next;
        add_node(alloc, store, search.nodes.as_slice(), at, time, path)?;
    }
    Ok(())
}

/// What a walk is read by: the places of its launch and its end node, the numbers of these nodes in the
/// graph, and what the launch offers.
#[derive(Clone, Copy, Drop)]
pub(crate) struct Ends {
    pub(crate) launch: u32,
    pub(crate) end: u32,
    pub(crate) offer: i64,
}

/// The ends of a walk of a cone.
fn ends_of(search: &PinCone, walk: &Walk) -> Ends
    requires count { count_of search.now.cone ≡ length search.now.nodes }
    requires cone { IsCone search.now.cone }
    requires walk { IsWalk search.now.cone walk.now }
    ensures { AreEndsOf search.now walk.now result }
{
    let end = &search.cone.ends.as_slice()[walk.end as usize];
    let launch = &end.launches.as_slice()[walk.launch as usize];
    let nodes = search.nodes.as_slice();
    Ends {
        launch: nodes[launch.node as usize],
        end: nodes[end.node as usize],
        offer: launch.offer,
    }
}

/// The nodes of a path: those of the clock network before its launch node, and those of its walk.
fn nodes_of<A: Rows + Delayed>(
    alloc: Global,
    sources: &Sources<'_, A>,
    search: &PinCone,
    launch: u32,
    counted: &Counted,
    first: u32,
    rest: &[u32],
) -> Result<Items<PathNode>, Memory>
    requires sources { AreSources sources.now.store.now sources.now.graph.now
        (A.rows sources.now.arrivals.now) (A.delays sources.now.arrivals.now) sources.now.tree.now }
    requires launch { launch < node_bound sources.now.graph.now.stored }
    requires before { All (λ n. is_number sources.now.store.now.pins (pin_under n) ≡ true)
        (climb sources.now.graph.now launch) }
    requires cone { IsCone search.now.cone }
    requires count { count_of search.now.cone ≡ length search.now.nodes }
    requires first { IsNodePlace sources.now.store.now search.now.nodes first }
    requires walk { IsWalkOn sources.now.store.now search.now first rest.now }
    requires start { Within counted.now.time.0 }
    ensures { IfOk result
        (AreNodesOf sources.now.graph.now sources.now.kind search.now launch counted.now first
        rest.now) }
{
    let split = sources.kind.data_split();
    let before = climb(alloc, sources.graph, launch)?;
    let mut path = network_nodes(
        alloc,
        sources.store,
        sources.arrivals,
        split,
        counted,
        before.as_slice(),
        rest.len().saturating_add(1),
    )?;
    let nodes = search.nodes.as_slice();
    add_node(
        alloc,
        sources.store,
        nodes,
        first,
        counted.time.0,
        &mut path,
    )?;
    add_rest(
        alloc,
        sources.store,
        search,
        sources.kind,
        first,
        rest,
        counted.time.0,
        &mut path,
    )?;
    Ok(path)
}

/// A path of these nodes with the slack of a walk, by the test that counts.
fn path_with(nodes: Items<PathNode>, slack: i64, counted: &Counted) -> Path
    ensures nodes { result.nodes ≡ nodes }
    ensures slack { result.slack.0 ≡ slack }
    ensures credit { result.credit.0 ≡ counted.now.credit.0 }
    ensures launch { launch_part result ≡ counted_edge counted.now }
    ensures capture { capture_part result ≡ capture_edge counted.now }
{
    Path {
        nodes,
        slack: Fs(slack),
        credit: counted.credit,
        launch_clock: counted.launch_clock,
        launch_tran: counted.launch_tran,
        capture_clock: counted.capture_clock,
        capture_tran: counted.capture_tran,
    }
}

/// The first node of a walk, and the others.
fn split_walk(walk: &[u32]) -> (u32, &[u32])
    requires { 0 < length walk.now }
    ensures { walk.now ≡ result.0 ∷ result.1.now }
{
    (walk[0], &walk[1..])
}

/// What is told of a walk of a pin's cone; the call does nothing.
fn walk_laws(
    store: &Store,
    graph: &Graph,
    kind: Kind,
    endpoint: &Name,
    search: &PinCone,
    walk: &Walk,
)
    requires graph { graph.now.stored ≡ store.now }
    requires search { IsPinPart graph.now kind endpoint.now search.now }
    requires walk { IsWalk search.now.cone walk.now }
    ensures { IsWalkFine store.now search.now walk.now }
{
    store.laws();
    graph.laws();
    let _ = kind;
    let _ = endpoint;
    let _ = search;
    let _ = walk;
}

/// What is told of the ends of a walk; the call does nothing.
fn end_laws(
    store: &Store,
    graph: &Graph,
    kind: Kind,
    endpoint: &Name,
    search: &PinCone,
    walk: &Walk,
    ends: Ends,
)
    requires graph { graph.now.stored ≡ store.now }
    requires search { IsPinPart graph.now kind endpoint.now search.now }
    requires walk { IsWalk search.now.cone walk.now }
    requires ends { AreEndsOf search.now walk.now ends }
    ensures { AreEndsFine store.now graph.now kind ends }
{
    store.laws();
    graph.laws();
    let _ = kind;
    let _ = endpoint;
    let _ = search;
    let _ = walk;
    let _ = ends;
}

/// That a path is of a walk; the call does nothing.
fn path_law(
    store: &Store,
    graph: &Graph,
    kind: Kind,
    endpoint: &Name,
    search: &PinCone,
    walk: &Walk,
    ends: Ends,
    counted: &Counted,
    first: u32,
    rest: &[u32],
    path: &Path,
)
    requires graph { graph.now.stored ≡ store.now }
    requires search { IsPinPart graph.now kind endpoint.now search.now }
    requires walk { IsWalk search.now.cone walk.now }
    requires ends { AreEndsOf search.now walk.now ends }
    requires counted { IsCountedAt store.now kind ends.launch ends.end ends.offer counted.now }
    requires whole { walk.now.nodes ≡ first ∷ rest.now }
    requires nodes { AreNodesOf graph.now kind search.now ends.launch counted.now first rest.now
        path.now.nodes }
    requires slack { path.now.slack.0 ≡ walk.now.slack }
    requires credit { path.now.credit.0 ≡ counted.now.credit.0 }
    requires launch { launch_part path.now ≡ counted_edge counted.now }
    requires capture { capture_part path.now ≡ capture_edge counted.now }
    ensures { IsWalkPath graph.now kind endpoint.now search.now walk.now path.now }
{
    store.laws();
    graph.laws();
    let _ = kind;
    let _ = endpoint;
    let _ = search;
    let _ = walk;
    let _ = ends;
    let _ = counted;
    let _ = first;
    let _ = rest;
    let _ = path;
}

/// The path of a walk by its ends and the test that counts.
fn path_by<A: Rows + Delayed>(
    alloc: Global,
    sources: &Sources<'_, A>,
    endpoint: &Name,
    search: &PinCone,
    walk: &Walk,
    ends: Ends,
    counted: &Counted,
) -> Result<Path, Memory>
    requires sources { AreSources sources.now.store.now sources.now.graph.now
        (A.rows sources.now.arrivals.now) (A.delays sources.now.arrivals.now) sources.now.tree.now }
    requires search { IsPinPart sources.now.graph.now sources.now.kind endpoint.now search.now }
    requires walk { IsWalk search.now.cone walk.now }
    requires ends { AreEndsOf search.now walk.now ends }
    requires counted { IsCountedAt sources.now.store.now sources.now.kind ends.launch ends.end
        ends.offer counted.now }
    requires start { Within counted.now.time.0 }
    ensures { IfOk result
        (IsWalkPath sources.now.graph.now sources.now.kind endpoint.now search.now walk.now) }
{
    let store = sources.store;
    let graph = sources.graph;
    let kind = sources.kind;
    walk_laws(store, graph, kind, endpoint, search, walk);
    let (first, rest) = split_walk(walk.nodes.as_slice());
    end_laws(store, graph, kind, endpoint, search, walk, ends);
    let nodes = nodes_of(alloc, sources, search, ends.launch, counted, first, rest)?;
    let path = path_with(nodes, walk.slack, counted);
    path_law(
        store, graph, kind, endpoint, search, walk, ends, counted, first, rest, &path,
    );
    Ok(path)
}

/// The path of a walk of a part of an endpoint's cone, by the test that counts.
pub(crate) fn path_in<A: Rows + Delayed>(
    alloc: Global,
    sources: &Sources<'_, A>,
    endpoint: &Name,
    search: &PinCone,
    walk: &Walk,
) -> Result<Path, Memory>
    requires sources { AreSources sources.now.store.now sources.now.graph.now
        (A.rows sources.now.arrivals.now) (A.delays sources.now.arrivals.now) sources.now.tree.now }
    requires search { IsPinPart sources.now.graph.now sources.now.kind endpoint.now search.now }
    requires walk { IsWalk search.now.cone walk.now }
    ensures { IfOk result
        (IsWalkPath sources.now.graph.now sources.now.kind endpoint.now search.now walk.now) }
{
    let store = sources.store;
    let graph = sources.graph;
    let kind = sources.kind;
    walk_laws(store, graph, kind, endpoint, search, walk);
    let ends = ends_of(search, walk);
    end_laws(store, graph, kind, endpoint, search, walk, ends);
    let counted = test_that_counts(alloc, sources, ends.launch, ends.end, ends.offer)?;
    path_by(alloc, sources, endpoint, search, walk, ends, &counted)
}

/// The path of a walk of an endpoint's cone, by the test that counts. Times, slack and credit are in fs.
/// Takes a step for each node of the path, each arc into a node of the walk and each test of the endpoint.
/// The one error is want of memory.
pub fn path_of<A: Rows + Delayed>(
    alloc: Global,
    sources: &Sources<'_, A>,
    endpoint: &Name,
    search: &PinCone,
    walk: &Walk,
) -> Result<Path, Memory>
    requires sources { AreSources sources.now.store.now sources.now.graph.now
        (A.rows sources.now.arrivals.now) (A.delays sources.now.arrivals.now) sources.now.tree.now }
    requires search { IsPinCone sources.now.graph.now sources.now.kind endpoint.now search.now }
    requires walk { IsWalk search.now.cone walk.now }
    ensures { IfOk result
        (IsWalkPath sources.now.graph.now sources.now.kind endpoint.now search.now walk.now) }
{
    path_in(alloc, sources, endpoint, search, walk)
}

/// The path of a walk of an endpoint's cone, as `path_of` has it, by the endpoint's tests, which are found
/// once for several paths. The one error is want of memory.
pub fn path_of_tested<A: Rows + Delayed>(
    alloc: Global,
    sources: &Sources<'_, A>,
    tested: &Tested,
    endpoint: &Name,
    search: &PinCone,
    walk: &Walk,
) -> Result<Path, Memory>
    requires sources { AreSources sources.now.store.now sources.now.graph.now
        (A.rows sources.now.arrivals.now) (A.delays sources.now.arrivals.now) sources.now.tree.now }
    requires search { IsPinCone sources.now.graph.now sources.now.kind endpoint.now search.now }
    requires walk { IsWalk search.now.cone walk.now }
    requires tested { AreTested sources.now.graph.now sources.now.kind tested.now }
    ensures { IfOk result
        (IsWalkPath sources.now.graph.now sources.now.kind endpoint.now search.now walk.now) }
{
    let store = sources.store;
    let graph = sources.graph;
    let kind = sources.kind;
    walk_laws(store, graph, kind, endpoint, search, walk);
    let ends = ends_of(search, walk);
    end_laws(store, graph, kind, endpoint, search, walk, ends);
    let counted = counted_in(alloc, sources, tested, ends.launch, ends.end, ends.offer)?;
    path_by(alloc, sources, endpoint, search, walk, ends, &counted)
}
