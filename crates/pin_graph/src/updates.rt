//! The tables of a graph after an ECO that changed links and left the clock network.

ghost use Rattle.std.specs.Prelude.{List, ℕ, ◌≡◌, ◌<◌, ◌≤◌, ◌^◌, false, map, All, length, slice_index_or, IsTrue, IfOk, IfSome, None};
ghost use Rattle.settling.specs.Settled.{is_among, IsRule, IsSettled};
ghost use Rattle.levelizer.specs.Levels.{AreLevels};
ghost use Rattle.levelizer.specs.Reaching.{AreReached};
ghost use Rattle.pin_graph.specs.Joins.{pin_links};
ghost use Rattle.pin_graph.specs.Networks.{clock_ports, clock_pins, network_links, turned};
ghost use Rattle.pin_graph.specs.NodeArcs.{marked};
ghost use Rattle.pin_graph.specs.PinValues.{IsLonger};
ghost use Rattle.pin_graph.specs.Renewed.{IsEdited, AreDirty, AreResettled, AreFlagged, ArePinsAfter, IsOff, is_noted};

use crate::networks::clock_ports;
use crate::pin_rules::{Fed, Feeds, PinLevels};
use crate::tables::Tables;
use cow_table::CowTable;
use netlist_store::{Store, Touched};
use settling::{Rule, settle};
use sta_units::Memory;
use std::alloc::Global;
use timing_defs::Items;

/// Values after an ECO, and the numbers at which they are other than before.
#[derive(Drop)]
pub(crate) struct Resettled {
    pub(crate) values: CowTable<u32>,
    pub(crate) changed: Items<u32>,
}

/// What is found of pins after an ECO: their levels, whether clocks reach them, and whether they reach
/// registers.
#[derive(Drop)]
pub(crate) struct PinsAfter {
    pub(crate) levels: CowTable<u32>,
    pub(crate) fed: Resettled,
    pub(crate) feeds: Resettled,
}

/// A copy of a table with 0 at each number more, up to that many.
#[tactic(auto, using(crate::proofs::AfterLaws::longer_start, crate::proofs::AfterLaws::longer_more, crate::proofs::AfterLaws::longer_end))]
fn lengthened(table: &CowTable<u32>, n: u32) -> Result<CowTable<u32>, Memory>
    requires { length table.now ≤ n }
    ensures { IfOk result (IsLonger n table.now) }
{
    let mut longer = table.copy()?;
    for at in longer.len()..n as usize {
        let _ = at;
        longer.push(0)?;
    }
    Ok(longer)
}

/// The values that a rule gives, of those of a base that are right but at some numbers; none where they
/// are not found in turns enough.
#[tactic(auto, using(crate::proofs::AfterLaws::resettled_from))]
pub(crate) fn settled_again<R: Rule>(
    alloc: Global,
    rule: &R,
    base: &CowTable<u32>,
    n: u32,
    wrong: &[u32],
) -> Result<Option<Resettled>, Memory>
    requires ready { R.is_ready rule.now }
    requires rule { IsRule (R.count rule.now) (R.value rule.now) (R.behind rule.now) }
    requires count { n ≡ R.count rule.now }
    requires few { length base.now ≤ R.count rule.now }
    requires wrong { All (λ a. a < R.count rule.now) wrong.now }
    requires settled { (t : List ℕ) → IsLonger (R.count rule.now) base.now t
        → IsSettled (R.count rule.now) (R.value rule.now) t (is_among wrong.now) }
    ensures { IfOk result
        (λ ended. IfSome ended (AreResettled (R.count rule.now) (R.value rule.now) base.now)) }
{
    let mut values = lengthened(base, n)?;
    match settle(alloc, rule, &mut values, wrong)? {
        Some(changed) => Ok(Some(Resettled { values, changed })),
        None => Ok(None),
    }
}

/// The levels of pins after an ECO.
#[tactic(auto, using(crate::proofs::AfterLaws::levels_wrong))]
fn pin_levels_after(
    alloc: Global,
    base: &Store,
    store: &Store,
    touched: &Touched,
    tables: &Tables,
    dirty: &[u32],
) -> Result<Option<CowTable<u32>>, Memory>
    requires edited { IsEdited base.now store.now
        (record { insts = touched.now.insts; nets = touched.now.nets }) tables.now }
    requires dirty { AreDirty base.now store.now
        (record { insts = touched.now.insts; nets = touched.now.nets }) dirty.now }
    ensures { IfOk result
        (λ ended. IfSome ended (AreLevels (length store.now.pins) (pin_links store.now))) }
{
    // The base and what was touched are asked for by the contract alone.
    let _ = base;
    let _ = touched;
    let rule = PinLevels { store };
    match settled_again(alloc, &rule, &tables.pin_levels, store.pin_bound(), dirty)? {
        Some(found) => Ok(Some(found.values)),
        None => Ok(None),
    }
}

/// Which pins clocks reach after an ECO.
#[tactic(auto, using(crate::proofs::AfterLaws::fed_wrong, crate::proofs::AfterLaws::fed_flagged))]
fn fed_after(
    alloc: Global,
    base: &Store,
    store: &Store,
    touched: &Touched,
    tables: &Tables,
    levels: &CowTable<u32>,
    dirty: &[u32],
) -> Result<Option<Resettled>, Memory>
    requires edited { IsEdited base.now store.now
        (record { insts = touched.now.insts; nets = touched.now.nets }) tables.now }
    requires dirty { AreDirty base.now store.now
        (record { insts = touched.now.insts; nets = touched.now.nets }) dirty.now }
    requires levels { length levels.now ≡ length store.now.pins }
    ensures { IfOk result
        (λ ended. IfSome ended
        (AreFlagged (length store.now.pins)
        (AreReached (length store.now.pins) (network_links store.now) (clock_ports store.now))
        tables.now.fed)) }
{
    let _ = base;
    let _ = touched;
    let ports = clock_ports(alloc, store)?;
    let rule = Fed {
        store,
        ports: ports.as_slice(),
        levels,
    };
    settled_again(alloc, &rule, &tables.fed, store.pin_bound(), dirty)
}

/// Which pins reach registers after an ECO.
#[tactic(auto, using(crate::proofs::AfterLaws::feeds_wrong, crate::proofs::AfterLaws::feeds_flagged))]
fn feeds_after(
    alloc: Global,
    base: &Store,
    store: &Store,
    touched: &Touched,
    tables: &Tables,
    levels: &CowTable<u32>,
    dirty: &[u32],
) -> Result<Option<Resettled>, Memory>
    requires edited { IsEdited base.now store.now
        (record { insts = touched.now.insts; nets = touched.now.nets }) tables.now }
    requires dirty { AreDirty base.now store.now
        (record { insts = touched.now.insts; nets = touched.now.nets }) dirty.now }
    requires levels { length levels.now ≡ length store.now.pins }
    ensures { IfOk result
        (λ ended. IfSome ended
        (AreFlagged (length store.now.pins)
        (AreReached (length store.now.pins) (map turned (network_links store.now))
        (clock_pins store.now)) tables.now.feeds)) }
{
    let _ = base;
    let _ = touched;
    let rule = Feeds { store, levels };
    settled_again(alloc, &rule, &tables.feeds, store.pin_bound(), dirty)
}

/// What is found of pins after an ECO; none where it is not found in turns enough.
pub(crate) fn pins_after(
    alloc: Global,
    base: &Store,
    store: &Store,
    touched: &Touched,
    tables: &Tables,
    dirty: &[u32],
) -> Result<Option<PinsAfter>, Memory>
    requires edited { IsEdited base.now store.now
        (record { insts = touched.now.insts; nets = touched.now.nets }) tables.now }
    requires dirty { AreDirty base.now store.now
        (record { insts = touched.now.insts; nets = touched.now.nets }) dirty.now }
    ensures { IfOk result (λ ended. IfSome ended (ArePinsAfter store.now tables.now)) }
{
    let Some(levels) = pin_levels_after(alloc, base, store, touched, tables, dirty)? else {
        return Ok(None);
    };
    let Some(fed) = fed_after(alloc, base, store, touched, tables, &levels, dirty)? else {
        return Ok(None);
    };
    let Some(feeds) = feeds_after(alloc, base, store, touched, tables, &levels, dirty)? else {
        return Ok(None);
    };
    Ok(Some(PinsAfter { levels, fed, feeds }))
}

/// Whether a pin is of the network; a number past all pins is not.
#[tactic(auto, using(std::proofs::lemmas::List::get_or_past))]
pub(crate) fn is_marked(network: &CowTable<bool>, pin: u32) -> bool
    ensures { result ≡ marked network.now pin }
{
    let at = pin as usize;
    if network.len() <= at {
        return false;
    }
    *network.get(at)
}

/// Whether a pin is of the network neither before nor after an ECO.
fn is_off(network: &CowTable<bool>, pins: &PinsAfter, pin: u32) -> bool
    requires fed { pin < length pins.now.fed.values }
    requires feeds { pin < length pins.now.feeds.values }
    ensures { IsTrue result → IsOff network.now pins.now pin }
{
    !is_marked(network, pin)
        && !(*pins.fed.values.get(pin as usize) == 1 && *pins.feeds.values.get(pin as usize) == 1)
}

/// Whether pins are of the network neither before nor after an ECO.
#[tactic(auto, using(crate::proofs::AfterLaws::each_more, crate::proofs::AfterLaws::each_all))]
fn are_off(network: &CowTable<bool>, pins: &PinsAfter, list: &[u32]) -> bool
    requires fed { All (λ pin. pin < length pins.now.fed.values) list.now }
    requires feeds { All (λ pin. pin < length pins.now.feeds.values) list.now }
    ensures { IsTrue result → All (IsOff network.now pins.now) list.now }
{
    for pin in list {
        if !is_off(network, pins, *pin) {
            return false;
        }
    }
    true
}

/// Whether an ECO left the clock network.
#[tactic(auto, using(crate::proofs::AfterLaws::off_all))]
pub(crate) fn leaves_network(
    store: &Store,
    tables: &Tables,
    pins: &PinsAfter,
    dirty: &[u32],
) -> bool
    requires pins { ArePinsAfter store.now tables.now pins.now }
    requires dirty { All (λ pin. pin < length store.now.pins) dirty.now }
    ensures { IsTrue result → (pin : ℕ) → IsTrue (is_noted dirty.now pins.now pin)
        → IsOff tables.now.network pins.now pin }
{
    // The store is asked for by the contract alone.
    let _ = store;
    let network = &tables.network;
    if !are_off(network, pins, dirty) {
        return false;
    }
    if !are_off(network, pins, pins.fed.changed.as_slice()) {
        return false;
    }
    are_off(network, pins, pins.feeds.changed.as_slice())
}

/// The marks of the network, false at each pin more, up to that many.
#[tactic(auto, using(crate::proofs::AfterLaws::reads_start, crate::proofs::AfterLaws::reads_more, crate::proofs::AfterLaws::reads_end))]
pub(crate) fn network_after(network: &CowTable<bool>, n: u32) -> Result<CowTable<bool>, Memory>
    requires { length network.now ≤ n }
    ensures count { IfOk result (λ marks. length marks ≡ n) }
    ensures same { IfOk result (λ marks. (x : ℕ) → marked marks x ≡ marked network.now x) }
{
    let mut marks = network.copy()?;
    for at in marks.len()..n as usize {
        let _ = at;
        marks.push(false)?;
    }
    Ok(marks)
}

/// The places of nodes, none at each node more, up to that many.
#[tactic(auto, using(crate::proofs::AfterLaws::reads_start, crate::proofs::AfterLaws::reads_more, crate::proofs::AfterLaws::reads_end))]
pub(crate) fn places_after(
    places: &CowTable<Option<u32>>,
    n: u32,
) -> Result<CowTable<Option<u32>>, Memory>
    requires { length places.now ≤ n }
    ensures count { IfOk result (λ longer. length longer ≡ n) }
    ensures same { IfOk result
        (λ longer. (x : ℕ) → slice_index_or longer x None ≡ slice_index_or places.now x None) }
{
    let mut longer = places.copy()?;
    for at in longer.len()..n as usize {
        let _ = at;
        longer.push(None)?;
    }
    Ok(longer)
}
