//! The capture clock and the slack of the shown path of each endpoint.

ghost use Rattle.std.specs.Prelude.{◌≡◌, true, option_map, IfOk, OnOk};
ghost use Rattle.level_workers.specs.Mapped.{IsMap};
ghost use Rattle.timing_rules.specs.Paths.{IsShown};
ghost use Rattle.affected_cone.specs.Analysed.{is_end, ends_of, IsSearch};
ghost use Rattle.clock_summaries.specs.Captures.{captured_by, IsCapturedAt, IsWithPin};

use crate::kept::lacks_slack;
use affected_cone::{Analysis, Search};
use netlist_store::Store;
use node_tests::is_endpoint;
use path_search::worst_path;
use sta_units::Memory;
use std::alloc::Global;
use timing_defs::{Items, Kind, Path};

/// The capture clock (its place in the list of clocks) and the slack in fs of the shown path of an endpoint; none where no path to it
/// is tested.
pub(crate) type Captured = Option<(u32, i64)>;

/// The capture clock and the slack of a path.
fn captured_by(path: &Option<Path>) -> Captured
    ensures { result ≡ option_map captured_by path.now }
{
    match path {
        Some(path) => Some((path.capture_clock, path.slack.0)),
        None => None,
    }
}

/// What captures an endpoint, by the shown path that is searched.
fn captured_at(alloc: Global, search: &Search<'_>, kind: Kind, pin: u32) -> Result<Captured, Memory>
    requires search { IsSearch search.now }
    requires pin { is_end search.now.store.now pin ≡ true }
    ensures { IfOk result (IsCapturedAt search.now.store.now kind pin) }
{
    let Search {
        store,
        graph,
        arrivals,
        tree,
    } = *search;
    store.laws();
    let name = store.pin_name(pin);
    let path = worst_path(alloc, store, graph, arrivals, tree, name, kind)?;
    let captured = captured_by(&path);
    drop(path);
    Ok(captured)
}

/// What captures an endpoint. Where the analysis tells that it has no slack no path is searched.
#[tactic(auto, using(crate::proofs::KeptLaws::none_captured))]
fn captured_end(
    alloc: Global,
    search: &Search<'_>,
    analysis: &Analysis,
    kind: Kind,
    pin: u32,
) -> Result<Captured, Memory>
    requires search { IsSearch search.now }
    requires analysis { search.now.store.now ≡ analysis.now.stored }
    requires pin { is_end search.now.store.now pin ≡ true }
    ensures { IfOk result (IsCapturedAt search.now.store.now kind pin) }
{
    let name = search.store.pin_name(pin);
    if lacks_slack(alloc, search.store, analysis, kind, name)? {
        return Ok(None);
    }
    captured_at(alloc, search, kind, pin)
}

/// Whether a number is that of an endpoint's pin.
#[tactic(auto, using(affected_cone::proofs::EndNumbers::told_end, affected_cone::proofs::EndNumbers::gap_no_end))]
fn is_end(store: &Store, pin: u32) -> bool
    ensures { result ≡ is_end store.now pin }
{
    if !store.has_pin(pin) {
        return false;
    }
    is_endpoint(store, pin)
}

/// Adds what captures a pin, where it is an endpoint.
#[tactic(auto, using(crate::proofs::CaptureLaws::put_none))]
fn add_pin(
    alloc: Global,
    search: &Search<'_>,
    analysis: &Analysis,
    kind: Kind,
    pin: u32,
    captured: &mut Items<Captured>,
) -> Result<(), Memory>
    requires search { IsSearch search.now }
    requires analysis { search.now.store.now ≡ analysis.now.stored }
    ensures { OnOk result
        (IsWithPin search.now.store.now kind pin captured.old captured.new) }
{
    if is_end(search.store, pin) {
        let one = captured_end(alloc, search, analysis, kind, pin)?;
        captured.push(one)
    } else {
        Ok(())
    }
}

/// What captures each endpoint, in the order of the numbers of their pins.
pub(crate) fn all_captured(
    alloc: Global,
    search: &Search<'_>,
    analysis: &Analysis,
    kind: Kind,
) -> Result<Items<Captured>, Memory>
    requires search { IsSearch search.now }
    requires analysis { search.now.store.now ≡ analysis.now.stored }
    ensures { IfOk result
        (IsMap (IsCapturedAt search.now.store.now kind) (ends_of search.now.store.now)) }
{
    let mut captured = Items::new(alloc);
    for pin in 0..search.store.pin_bound() {
        add_pin(alloc, search, analysis, kind, pin, &mut captured)?;
    }
    Ok(captured)
}
