//! Endpoints that keep their slacks, since the paths through what an ECO changes leave more.

ghost use Rattle.std.specs.Prelude.{◌≡◌, ◌<◌, ◌<ℤ◌, ◌^◌, ℤ, true, All, Some, IfOk, IfSome, option_map};
ghost use Rattle.std.specs.List.{list_any};
ghost use Rattle.timing_defs.specs.RowTimes.{slew_in};
ghost use Rattle.netlist_store.specs.Numbering.{is_number};
ghost use Rattle.netlist_store.specs.Applying.{IsEditOf};
ghost use Rattle.pin_graph.specs.Nodes.{node_bound, pin_under};
ghost use Rattle.edit_reach.specs.Reach.{HasSeeds, AreBehind};
ghost use Rattle.bounded_changes.specs.Carried.{room};
ghost use Rattle.carried_times.specs.KeptPins.{IsKeptPin};
ghost use Rattle.carried_times.specs.Sides.{AreCarriedTimes};
ghost use Rattle.required_engine.specs.Updated.{touch_of};
ghost use Rattle.affected_cone.specs.Analysed.{is_end, slack_in, IsEnd, IsSearch};
ghost use Rattle.affected_cone.specs.Bounds.{is_reached, is_other_reached, HasRoom, HasRooms, IsAlone, StandsAlone, IsKeptSlack, IsLeftNode, AreLeftNodes, IsSlackAt, IsWeighed};
ghost use Rattle.affected_cone.specs.Updated.{IsBase};

use crate::ends::{EndSlacks, Search, find_end, is_end};
use crate::updating::Base;
use arrival_engine::Arrivals;
use carried_times::{CarriedTimes, carried_times};
use edit_reach::inst_pins;
use netlist_store::Touched;
use path_search::{Sources, end_low, worst_slack};
use sta_units::{Fs, Memory};
use std::alloc::Global;
use timing_defs::{Kind, NodeRow, Split};

/// What tells of an endpoint of an edited store whether it keeps its slacks. Where times are far from 0, or nodes behind
/// the ECO are many, nothing is carried, and none is told to keep them.
#[derive(Drop)]
pub(crate) struct Weighed<'a> {
    pub(crate) base: &'a Base<'a>,
    pub(crate) search: &'a Search<'a>,
    pub(crate) carried: Option<CarriedTimes>,
}

/// So many nodes behind an ECO are more than a design has that is read: times are carried to all of fewer. To search the
/// endpoints anew that would keep their slacks costs more than to carry times to nodes whose endpoints do not.
const MOST_BEHIND: usize = 1 << 20;

/// The times carried from the seeds of an ECO to the nodes behind them; none where these are many.
fn carried_behind(
    alloc: Global,
    base: &Base<'_>,
    search: &Search<'_>,
    touched: &Touched,
    seeds: &[u32],
    nodes: &[u32],
) -> Result<Option<CarriedTimes>, Memory>
    requires base { IsBase base.now }
    requires search { IsSearch search.now }
    requires made { IsEditOf base.now.graph.now.stored (touch_of touched.now) search.now.store.now }
    requires seeds { HasSeeds base.now.graph.now.stored search.now.store.now (touch_of touched.now)
        seeds.now }
    requires behind { AreBehind search.now.graph.now seeds.now nodes.now }
    ensures { IfOk result
        (λ found. IfSome found
        (AreCarriedTimes base.now.graph.now.stored search.now.graph.now.stored seeds.now
        nodes.now)) }
{
    if nodes.len() > MOST_BEHIND {
        return Ok(None);
    }
    carried_times(
        alloc,
        base.graph,
        base.arrivals,
        search.graph,
        search.arrivals,
        touched,
        seeds,
        nodes,
    )
}

/// The same, by the seeds of an ECO and the nodes behind them.
pub(crate) fn weigh<'a>(
    alloc: Global,
    base: &'a Base<'a>,
    search: &'a Search<'a>,
    touched: &Touched,
    seeds: &[u32],
    nodes: &[u32],
) -> Result<Weighed<'a>, Memory>
    requires base { IsBase base.now }
    requires search { IsSearch search.now }
    requires made { IsEditOf base.now.graph.now.stored (touch_of touched.now) search.now.store.now }
    requires seeds { HasSeeds base.now.graph.now.stored search.now.store.now (touch_of touched.now)
        seeds.now }
    requires behind { AreBehind search.now.graph.now seeds.now nodes.now }
    ensures weighed { IfOk result IsWeighed }
    ensures base { IfOk result (λ w. w.base.now ≡ base.now) }
    ensures search { IfOk result (λ w. w.search.now ≡ search.now) }
{
    let carried = carried_behind(alloc, base, search, touched, seeds, nodes)?;
    Ok(Weighed {
        base,
        search,
        carried,
    })
}

/// Whether what a time leaves of a lowest slack is more than a slack; it is where one of the two is not there.
fn is_more(kind: Kind, low: Option<i64>, time: Option<i64>, slack: Fs) -> bool
    ensures { result ≡ true → (t : ℤ) → time ≡ Some t → IfSome low (λ l. slack.0 <ℤ room kind l t) }
{
    match (low, time) {
        (Some(low), Some(time)) => match kind {
            Kind::Setup => low as i128 - time as i128 > slack.0 as i128,
            Kind::Hold => low as i128 + time as i128 > slack.0 as i128,
        },
        _ => true,
    }
}

/// Whether two rows have the same slew in a split.
fn same_slew(one: &NodeRow, other: &NodeRow, split: Split) -> bool
    ensures { result ≡ true → slew_in split one.now ≡ slew_in split other.now }
{
    match (one.slew(split), other.slew(split)) {
        (None, None) => true,
        (Some(one), Some(other)) => one.0 == other.0,
        _ => false,
    }
}

/// Whether the paths that carry a time to a node of both stores leave more than a slack there; they do where none is
/// carried.
fn has_room(
    alloc: Global,
    base: &Base<'_>,
    search: &Search<'_>,
    kind: Kind,
    node: u32,
    time: Option<i64>,
    slack: Fs,
) -> Result<bool, Memory>
    requires base { IsBase base.now }
    requires search { IsSearch search.now }
    requires same { base.now.graph.now.stored.design.constraints
        ≡ search.now.store.now.design.constraints }
    requires below { node < node_bound search.now.store.now }
    requires there { is_number search.now.store.now.pins (pin_under node) ≡ true }
    ensures { IfOk result
        (λ is. is ≡ true
        → HasRoom base.now.graph.now.stored search.now.store.now kind node time slack.0) }
{
    let Some(_) = time else {
        return Ok(true);
    };
    if node >= base.graph.count() {
        return Ok(false);
    }
    base.graph.laws();
    base.graph.store().laws();
    let Search {
        store,
        graph,
        arrivals,
        tree,
    } = *search;
    let sources = Sources {
        store,
        graph,
        arrivals,
        tree,
        kind,
    };
    let row = base.arrivals.row(node);
    let low = end_low(alloc, &sources, node, row.times(kind.data_split()))?;
    Ok(is_more(kind, low, time, slack))
}

/// Whether the paths that carry times to the nodes of a pin leave more than a slack there.
fn has_rooms(
    alloc: Global,
    base: &Base<'_>,
    search: &Search<'_>,
    carried: &CarriedTimes,
    kind: Kind,
    slack: Fs,
    pin: u32,
) -> Result<bool, Memory>
    requires base { IsBase base.now }
    requires search { IsSearch search.now }
    requires same { base.now.graph.now.stored.design.constraints
        ≡ search.now.store.now.design.constraints }
    requires there { is_number search.now.store.now.pins pin ≡ true }
    requires low { pin < 2 ^ 31 }
    ensures { IfOk result
        (λ is. is ≡ true
        → HasRooms base.now.graph.now.stored search.now.store.now carried.now kind pin slack.0) }
{
    let split = kind.data_split();
    let rise = carried.at(2 * pin).of(split);
    let fall = carried.at(2 * pin + 1).of(split);
    if has_room(alloc, base, search, kind, 2 * pin, rise, slack)? {
        has_room(alloc, base, search, kind, 2 * pin + 1, fall, slack)
    } else {
        Ok(false)
    }
}

/// Whether a node of a pin is a seed or behind one.
fn is_reached(carried: &CarriedTimes, pin: u32) -> bool
    requires { pin < 2 ^ 31 }
    ensures { result ≡ is_reached carried.now.nodes.keys pin }
{
    carried.has(2 * pin) || carried.has(2 * pin + 1)
}

/// Whether another pin than one has a node that is a seed or behind one.
fn is_other_reached(carried: &CarriedTimes, pin: u32, other: u32) -> bool
    requires { other < 2 ^ 31 }
    ensures { result ≡ is_other_reached carried.now.nodes.keys pin other }
{
    other != pin && is_reached(carried, other)
}

/// Whether some pin of a list, but for one, has a node that is a seed or behind one.
fn any_reached(carried: &CarriedTimes, pin: u32, pins: &[u32]) -> bool
    requires { All (λ other. other < 2 ^ 31) pins.now }
    ensures { result ≡ list_any (is_other_reached carried.now.nodes.keys pin) pins.now }
{
    for other in pins {
        if is_other_reached(carried, pin, *other) {
            return true;
        }
    }
    false
}

/// Whether no other pin of a pin's instance has a node that is a seed or behind one; a port has no other.
fn is_alone(
    alloc: Global,
    search: &Search<'_>,
    carried: &CarriedTimes,
    pin: u32,
) -> Result<bool, Memory>
    requires { is_number search.now.store.now.pins pin ≡ true }
    ensures { IfOk result
        (λ is. is ≡ true → IsAlone search.now.store.now carried.now.nodes.keys pin) }
{
    search.store.laws();
    // All pins' numbers are below that.
    let _ = search.store.pin_bound();
    match search.store.inst_of(pin) {
        Some(inst) => {
            let pins = inst_pins(alloc, search.store, inst)?;
            let reached = any_reached(carried, pin, pins.as_slice());
            drop(pins);
            Ok(!reached)
        }
        None => Ok(true),
    }
}

/// Whether times are carried, and none to another pin of a pin's instance.
fn stands_alone(alloc: Global, weighed: &Weighed<'_>, pin: u32) -> Result<bool, Memory>
    requires { is_number weighed.now.search.now.store.now.pins pin ≡ true }
    ensures { IfOk result (λ is. is ≡ true → StandsAlone weighed.now pin) }
{
    match &weighed.carried {
        Some(carried) => is_alone(alloc, weighed.search, carried, pin),
        None => Ok(false),
    }
}

/// Whether a node is no seed, was there before, and keeps its slew in a split, off the clock network.
fn is_left(
    base: &Base<'_>,
    search: &Search<'_>,
    carried: &CarriedTimes,
    split: Split,
    node: u32,
) -> bool
    requires base { IsBase base.now }
    requires search { IsSearch search.now }
    requires below { node < node_bound search.now.store.now }
    ensures { result ≡ true
        → IsLeftNode base.now.graph.now.stored search.now.graph.now carried.now.seeds.keys split
        node }
{
    base.graph.laws();
    search.graph.laws();
    if node >= base.graph.count() || carried.is_seed(node) || search.graph.is_network(node) {
        return false;
    }
    same_slew(search.arrivals.row(node), base.arrivals.row(node), split)
}

/// Whether both nodes of a pin are left so.
fn are_left(
    base: &Base<'_>,
    search: &Search<'_>,
    carried: &CarriedTimes,
    split: Split,
    pin: u32,
) -> bool
    requires base { IsBase base.now }
    requires search { IsSearch search.now }
    requires there { is_number search.now.store.now.pins pin ≡ true }
    requires low { pin < 2 ^ 31 }
    ensures { result ≡ true
        → AreLeftNodes base.now.graph.now.stored search.now.graph.now carried.now.seeds.keys split
        pin }
{
    is_left(base, search, carried, split, 2 * pin)
        && is_left(base, search, carried, split, 2 * pin + 1)
}

/// Whether the tests of an endpoint are kept, by whether it is alone.
fn keeps_tests(
    base: &Base<'_>,
    search: &Search<'_>,
    carried: &CarriedTimes,
    alone: bool,
    split: Split,
    pin: u32,
) -> bool
    requires base { IsBase base.now }
    requires search { IsSearch search.now }
    requires there { is_number search.now.store.now.pins pin ≡ true }
    requires low { pin < 2 ^ 31 }
    requires alone { alone ≡ true → IsAlone search.now.store.now carried.now.nodes.keys pin }
    ensures { result ≡ true
        → IsKeptPin base.now.graph.now.stored search.now.graph.now carried.now.seeds.keys
        carried.now.nodes.keys split pin }
{
    alone && are_left(base, search, carried, split, pin)
}

/// Whether an endpoint keeps a slack of a kind, if it had it, by whether it is alone.
fn keeps(
    alloc: Global,
    weighed: &Weighed<'_>,
    alone: bool,
    kind: Kind,
    slack: Fs,
    pin: u32,
) -> Result<bool, Memory>
    requires weighed { IsWeighed weighed.now }
    requires there { is_number weighed.now.search.now.store.now.pins pin ≡ true }
    requires alone { alone ≡ true → StandsAlone weighed.now pin }
    ensures { IfOk result
        (λ is. is ≡ true
        → IsKeptSlack weighed.now.base.now.graph.now.stored weighed.now.search.now.store.now kind
        pin slack.0) }
{
    let Some(carried) = &weighed.carried else {
        return Ok(false);
    };
    let base = weighed.base;
    let search = weighed.search;
    base.graph.laws();
    search.graph.laws();
    base.graph.store().laws();
    search.store.laws();
    // All pins' numbers are below that.
    let _ = search.store.pin_bound();
    if keeps_tests(base, search, carried, alone, kind.data_split(), pin) {
        has_rooms(alloc, base, search, carried, kind, slack, pin)
    } else {
        Ok(false)
    }
}

/// The slack of an endpoint of a kind.
fn slack_of(end: &EndSlacks, kind: Kind) -> Option<Fs>
    ensures { option_map (λ slack. slack.0) result ≡ slack_in kind end.now }
{
    match kind {
        Kind::Setup => end.setup,
        Kind::Hold => end.hold,
    }
}

/// The slack of a kind that an endpoint had.
fn old_slack(base: &Base<'_>, kind: Kind, pin: u32) -> Option<Fs>
    requires { IsBase base.now }
    ensures { IfSome result (λ slack. IsSlackAt base.now.graph.now.stored kind pin (Some slack.0)) }
{
    let end = find_end(base.ends, pin)?;
    slack_of(&end, kind)
}

/// The slack of a kind that an endpoint keeps, by whether it is alone; none where it has to be searched for.
fn kept_slack(
    alloc: Global,
    weighed: &Weighed<'_>,
    alone: bool,
    kind: Kind,
    pin: u32,
) -> Result<Option<Fs>, Memory>
    requires weighed { IsWeighed weighed.now }
    requires there { is_number weighed.now.search.now.store.now.pins pin ≡ true }
    requires alone { alone ≡ true → StandsAlone weighed.now pin }
    ensures { IfOk result
        (λ kept. IfSome kept
        (λ slack. IsSlackAt weighed.now.search.now.store.now kind pin (Some slack.0))) }
{
    let Some(slack) = old_slack(weighed.base, kind, pin) else {
        return Ok(None);
    };
    if keeps(alloc, weighed, alone, kind, slack, pin)? {
        Ok(Some(slack))
    } else {
        Ok(None)
    }
}

/// The slack of a kind of an endpoint: that which it keeps, by whether it is alone, or else by a search.
fn slack_after(
    alloc: Global,
    weighed: &Weighed<'_>,
    alone: bool,
    kind: Kind,
    pin: u32,
) -> Result<Option<Fs>, Memory>
    requires weighed { IsWeighed weighed.now }
    requires pin { is_end weighed.now.search.now.store.now pin ≡ true }
    requires alone { alone ≡ true → StandsAlone weighed.now pin }
    ensures { IfOk result
        (λ slack. IsSlackAt weighed.now.search.now.store.now kind pin
        (option_map (λ s. s.0) slack)) }
{
    if let Some(slack) = kept_slack(alloc, weighed, alone, kind, pin)? {
        return Ok(Some(slack));
    }
    let Search {
        store,
        graph,
        arrivals,
        tree,
    } = *weighed.search;
    store.laws();
    let name = store.pin_name(pin);
    worst_slack(alloc, store, graph, arrivals, tree, name, kind)
}

/// The slacks of an endpoint of the edited store.
pub(crate) fn end_after(alloc: Global, weighed: &Weighed<'_>, pin: u32) -> Result<EndSlacks, Memory>
    requires weighed { IsWeighed weighed.now }
    requires pin { is_end weighed.now.search.now.store.now pin ≡ true }
    ensures { IfOk result (IsEnd weighed.now.search.now.store.now pin) }
{
    let alone = stands_alone(alloc, weighed, pin)?;
    let setup = slack_after(alloc, weighed, alone, Kind::Setup, pin)?;
    let hold = slack_after(alloc, weighed, alone, Kind::Hold, pin)?;
    Ok(EndSlacks { pin, setup, hold })
}

/// The slacks of an endpoint of the edited store; none of another number.
pub(crate) fn pin_after(alloc: Global, weighed: &Weighed<'_>, pin: u32) -> Result<EndSlacks, Memory>
    requires { IsWeighed weighed.now }
    ensures { is_end weighed.now.search.now.store.now pin ≡ true
        → IfOk result (IsEnd weighed.now.search.now.store.now pin) }
{
    if is_end(weighed.search.store, pin) {
        return end_after(alloc, weighed, pin);
    }
    Ok(EndSlacks {
        pin,
        setup: None,
        hold: None,
    })
}
