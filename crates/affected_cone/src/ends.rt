//! Endpoints and their slacks.

ghost use Rattle.std.specs.Prelude.{◌≡◌, ◌<◌, ◌≤◌, ◌-◌, nat_eq, true, find, All, IfOk};
ghost use Rattle.level_workers.specs.Mapped.{IsMap};
ghost use Rattle.affected_cone.specs.Analysed.{is_end, ends_of, slack_in, IsEnd, IsSearch};
ghost use Rattle.affected_cone.specs.Rising.{AreRising, AreBounds};

use crate::sharing::map_shared;
use arrival_engine::Arrivals;
use netlist_store::Store;
use node_tests::is_endpoint;
use path_search::{EndpointSlacks, worst_slacks};
use pessimism_credit::ClockTree;
use pin_graph::Graph;
use sta_units::{Fs, Memory};
use std::alloc::Global;
use std::thread::Threads;
use timing_defs::{Items, Kind};

/// The slacks of an endpoint in fs, by the number of its pin; none where no path to it is tested.
#[derive(Clone, Copy, Drop)]
pub struct EndSlacks {
    pub pin: u32,
    pub setup: Option<Fs>,
    pub hold: Option<Fs>,
}

/// What paths are searched over.
#[derive(Clone, Copy, Drop)]
pub struct Search<'a> {
    pub store: &'a Store,
    pub graph: &'a Graph,
    pub arrivals: &'a Arrivals,
    pub tree: &'a ClockTree,
}

/// The slack of an endpoint of a kind.
pub(crate) fn slack_in(end: &EndSlacks, kind: Kind) -> Option<i64>
    ensures { result ≡ slack_in kind end.now }
{
    match kind {
        Kind::Setup => end.setup.map(|slack| slack.0),
        Kind::Hold => end.hold.map(|slack| slack.0),
    }
}

/// Half of the places between two bounds in which the first endpoint from a number on may stand.
fn halved(ends: &[EndSlacks], pin: u32, low: usize, high: usize) -> (usize, usize)
    requires rising { AreRising ends.now }
    requires bounds { AreBounds ends.now pin low high }
    requires some { low < high }
    ensures bounds { AreBounds ends.now pin result.0 result.1 }
    ensures less { result.1 - result.0 < high - low }
{
    let middle = low + (high - low) / 2;
    if ends[middle].pin < pin {
        (middle + 1, high)
    } else {
        (low, middle)
    }
}

/// The place of the first endpoint from a number on, in time of the logarithm of the number of endpoints.
fn first_from(ends: &[EndSlacks], pin: u32) -> usize
    requires { AreRising ends.now }
    ensures { AreBounds ends.now pin result result }
{
    let mut low = 0;
    let mut high = ends.len();
    while low < high {
        (low, high) = halved(ends, pin, low, high);
    }
    low
}

/// The slacks of the endpoint of a pin's number.
pub(crate) fn find_end(ends: &[EndSlacks], pin: u32) -> Option<EndSlacks>
    requires { AreRising ends.now }
    ensures { result ≡ find (λ end. nat_eq end.pin pin) ends.now }
{
    let at = first_from(ends, pin);
    if at < ends.len() {
        let end = ends[at];
        if end.pin == pin {
            return Some(end);
        }
    }
    None
}

/// Whether a number is that of an endpoint's pin.
pub(crate) fn is_end(store: &Store, pin: u32) -> bool
    ensures { result ≡ is_end store.now pin }
{
    if !store.has_pin(pin) {
        return false;
    }
    is_endpoint(store, pin)
}

/// The numbers of all endpoints, rising.
pub(crate) fn all_ends(alloc: Global, store: &Store) -> Result<Items<u32>, Memory>
    ensures { IfOk result (λ ends. ends ≡ ends_of store.now) }
{
    let mut ends = Items::new(alloc);
    for pin in 0..store.pin_bound() {
        if is_end(store, pin) {
            ends.push(pin)?;
        }
    }
    Ok(ends)
}

/// The slacks of an endpoint, by a search for each kind.
fn end_slacks(alloc: Global, search: &Search<'_>, pin: u32) -> Result<EndSlacks, Memory>
    requires search { IsSearch search.now }
    requires pin { is_end search.now.store.now pin ≡ true }
    ensures { IfOk result (IsEnd search.now.store.now pin) }
{
    let Search {
        store,
        graph,
        arrivals,
        tree,
    } = *search;
    store.laws();
    let name = store.pin_name(pin);
    let EndpointSlacks { setup, hold } = worst_slacks(alloc, store, graph, arrivals, tree, name)?;
    Ok(EndSlacks { pin, setup, hold })
}

/// The slacks of an endpoint; none of another number.
fn pin_slacks(alloc: Global, search: &Search<'_>, pin: u32) -> Result<EndSlacks, Memory>
    requires { IsSearch search.now }
    ensures { is_end search.now.store.now pin ≡ true
        → IfOk result (IsEnd search.now.store.now pin) }
{
    if is_end(search.store, pin) {
        return end_slacks(alloc, search, pin);
    }
    Ok(EndSlacks {
        pin,
        setup: None,
        hold: None,
    })
}

/// The slacks of endpoints by their numbers, in their order. The searches are shared between as many
/// threads as there are processors.
pub(crate) fn slacks_of<H: Threads + Sync>(
    rt: &H,
    alloc: Global,
    search: &Search<'_>,
    ends: &[u32],
) -> Result<Items<EndSlacks>, Memory>
    requires search { IsSearch search.now }
    requires ends { All (λ pin. is_end search.now.store.now pin ≡ true) ends.now }
    ensures { IfOk result (IsMap (IsEnd search.now.store.now) ends.now) }
{
    let found = |pin: &u32| -> Result<EndSlacks, Memory>
        requires { IsSearch search.now }
        ensures { is_end search.entry.now.store.now pin.now ≡ true
            → IfOk result (IsEnd search.entry.now.store.now pin.now) }
    { pin_slacks(alloc, search, *pin) };
    map_shared(rt, alloc, ends, &found)
}
