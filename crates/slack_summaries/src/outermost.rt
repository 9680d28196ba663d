//! The node of outermost arrival on a launch edge.

ghost use Rattle.std.specs.Prelude.{◌≡◌, ◌<◌, All, None, length};
ghost use Rattle.timing_defs.specs.RowTimes.{edge_of};
ghost use Rattle.pin_graph.specs.Nodes.{node_bound};
ghost use Rattle.path_search.specs.Ranks.{pin_name_at, number_cmp};
ghost use Rattle.affected_cone.specs.Analysed.{IsSearch};
ghost use Rattle.slack_summaries.specs.Outermost.{arrival_numbered, split_cmp, goes_first, better, with_node, outermost_from};

use affected_cone::Search;
use netlist_store::Store;
use node_rows::{time_on, times_in};
use std::cmp::Ordering;
use timing_defs::{LaunchEdge, Rows, Split};

/// A node that a launch edge reaches, with its arrival in fs.
#[derive(Clone, Copy, Drop)]
pub(crate) struct Reached {
    pub(crate) node: u32,
    pub(crate) time: i64,
}

/// The arrival of a node on a launch edge, in fs; none where it has none.
fn arrival_at(search: &Search<'_>, split: Split, edge: LaunchEdge, node: u32) -> Option<i64>
    requires search { IsSearch search.now }
    requires node { node < node_bound search.now.store.now }
    ensures { result ≡ arrival_numbered search.now.store.now split (edge_of edge) node }
{
    time_on(
        times_in(search.arrivals.row(node), split),
        edge.clock,
        edge.tran,
    )
}

/// The bytes of the name of a node's pin; none of a number that is of no node.
fn name_under(store: &Store, node: u32) -> &[u8]
    ensures { result.now ≡ pin_name_at store.now node }
{
    let pin = node / 2;
    if store.has_pin(pin) {
        return store.pin_name(pin).as_bytes();
    }
    &[]
}

/// The order of nodes by the bytes of the names, then by the numbers.
fn number_cmp(store: &Store, one: u32, other: u32) -> Ordering
    ensures { result ≡ number_cmp store.now one other }
{
    name_under(store, one)
        .cmp(name_under(store, other))
        .then(one.cmp(&other))
}

/// The order of times from the outermost inwards.
fn split_cmp(split: Split, one: i64, other: i64) -> Ordering
    ensures { result ≡ split_cmp split one other }
{
    match split {
        Split::Early => one.cmp(&other),
        Split::Late => other.cmp(&one),
    }
}

/// Whether a node goes before another: by the outermost time, then by name.
fn goes_first(store: &Store, split: Split, one: Reached, other: Reached) -> bool
    ensures { result ≡ goes_first store.now split one other }
{
    split_cmp(split, one.time, other.time)
        .then(number_cmp(store, one.node, other.node))
        .is_lt()
}

/// The first of two nodes, the one of which may not be there.
fn better(store: &Store, split: Split, best: Option<Reached>, one: Reached) -> Reached
    ensures { result ≡ better store.now split best one }
{
    match best {
        Some(best) => {
            if goes_first(store, split, one, best) {
                one
            } else {
                best
            }
        }
        None => one,
    }
}

/// The first of a node and those before.
fn with_node(
    search: &Search<'_>,
    split: Split,
    edge: LaunchEdge,
    best: Option<Reached>,
    node: u32,
) -> Option<Reached>
    requires search { IsSearch search.now }
    requires node { node < node_bound search.now.store.now }
    ensures { result ≡ with_node search.now.store.now split (edge_of edge) best node }
{
    match arrival_at(search, split, edge, node) {
        Some(time) => Some(better(search.store, split, best, Reached { node, time })),
        None => best,
    }
}

/// The node of outermost arrival on a launch edge among those of pins, of equal ones the first by name, rise before fall; none
/// where the edge reaches none.
pub(crate) fn outermost(
    search: &Search<'_>,
    split: Split,
    edge: LaunchEdge,
    pins: &[u32],
) -> Option<Reached>
    requires search { IsSearch search.now }
    requires pins { All (λ pin. pin < length search.now.store.now.pins) pins.now }
    ensures { result ≡ outermost_from search.now.store.now split (edge_of edge) None pins.now }
{
    let _ = search.store.pin_bound();
    let mut best = None;
    for pin in pins {
        best = with_node(search, split, edge, best, 2 * pin);
        best = with_node(search, split, edge, best, 2 * pin + 1);
    }
    best
}
