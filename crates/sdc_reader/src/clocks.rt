//! The clocks that were created.

ghost use Rattle.std.specs.Prelude.{◌≡◌, ◌≤◌, ◌<◌, ◌++◌, ◌∷◌, [], true, false, map, length, drop, take, IfOk, OnOk, IfSome, MatchOption, Some, None, pos};
ghost use Rattle.std.specs.List.{list_any};
ghost use Rattle.std.specs.Option.{option_map, option_map_or};
ghost use Rattle.sta_text.specs.Names.{stands};
ghost use Rattle.sdc_reader.specs.Meaning.{clock_limit, is_clock_named, is_clock_at, is_created, is_second, is_spread, clock_name, first, named, clock_with, clock_of_period, new_clock, with_clock, place_from, clock_place, amount_with, delay_amount, plain_amount, uncertain, uncertain_if, uncertain_clocks};
ghost use Rattle.sdc_reader.specs.Numbers.{edges};
ghost use Rattle.sdc_reader.specs.Tables.{meant};

use crate::draft::{Draft, Figure, Flags};
use crate::numbers::edges;
use crate::tables::{Amount, meant};
use sta_units::{Again, Fs, Memory};
use std::alloc::Global;
use timing_defs::{Clock, Items, Name};

/// At most so many clocks.
pub(crate) const CLOCK_LIMIT: usize = 8;

/// Whether the clock stands on the port.
fn is_clock_at(port: &Name, clock: &Clock) -> bool
    ensures { result ≡ is_clock_at port.now clock.now }
{
    match &clock.port {
        Some(own) => *port == *own,
        None => false,
    }
}

/// Whether a clock was created with this name.
pub(crate) fn is_created(clocks: &[Clock], name: &Name) -> bool
    ensures { result ≡ is_created clocks.now name.now }
{
    clocks.iter().any(|clock| clock.name == *name)
}

fn is_on_port(clocks: &[Clock], port: &Name) -> bool
    ensures { result ≡ list_any (is_clock_at port.now) clocks.now }
{
    clocks.iter().any(|clock| is_clock_at(port, clock))
}

fn has_name(clocks: &[Clock], draft: &Draft) -> bool
    ensures { result ≡ option_map_or (is_created clocks.now) (clock_name draft.now) false }
{
    match draft.clock_name() {
        Some(name) => is_created(clocks, name),
        None => false,
    }
}

fn has_port(clocks: &[Clock], draft: &Draft) -> bool
    ensures { result
        ≡ option_map_or (λ port. list_any (is_clock_at port) clocks.now) (first (named draft.now))
        false }
{
    match draft.port() {
        Some(port) => is_on_port(clocks, port),
        None => false,
    }
}

/// Whether the clock of the command is a second one of its name or on its port.
pub(crate) fn is_second(clocks: &[Clock], draft: &Draft) -> bool
    ensures { result ≡ is_second clocks.now draft.now }
{
    has_name(clocks, draft) || has_port(clocks, draft)
}

/// Whether the clock of the command stands on several ports.
pub(crate) fn is_spread(draft: &Draft) -> bool
    ensures { result ≡ is_spread draft.now }
{
    1 < draft.named().len()
}

/// A copy of a port's name.
fn port_copy(alloc: Global, draft: &Draft) -> Result<Option<Name>, Memory>
    ensures { IfOk result (λ port. port ≡ first (named draft.now)) }
{
    match draft.port() {
        Some(port) => Ok(Some(port.copied(alloc)?)),
        None => Ok(None),
    }
}

/// A clock with this name, period and waveform.
fn clock_with(
    alloc: Global,
    draft: &Draft,
    name: &Name,
    period: i64,
    times: (i64, i64),
) -> Result<Clock, Memory>
    ensures { IfOk result
        (λ clock. clock ≡ clock_with name.now (first (named draft.now)) period times) }
{
    Ok(Clock {
        name: name.copied(alloc)?,
        port: port_copy(alloc, draft)?,
        period: Fs(period),
        rise: Fs(times.0),
        fall: Fs(times.1),
        unc_setup: Fs(0),
        unc_hold: Fs(0),
    })
}

fn clock_of(alloc: Global, draft: &Draft, name: &Name, period: i64) -> Result<Option<Clock>, Memory>
    ensures { IfOk result
        (λ clock. clock
        ≡ option_map (clock_with name.now (first (named draft.now)) period)
        (edges period draft.now.wave)) }
{
    match edges(period, draft.wave) {
        Some(times) => Ok(Some(clock_with(alloc, draft, name, period, times)?)),
        None => Ok(None),
    }
}

/// The clock of the command. One whose period is missing is created all the same, with the least
/// period, since what follows may name it.
fn clock_of_period(alloc: Global, draft: &Draft) -> Result<Option<Clock>, Memory>
    ensures { IfOk result
        (λ clock. clock ≡ clock_of_period draft.now (clock_name draft.now) draft.now.period) }
{
    match draft.clock_name() {
        Some(name) => match draft.period {
            Figure::Absent => Ok(Some(clock_with(alloc, draft, name, 2, (0, 1))?)),
            Figure::Faulty => Ok(None),
            Figure::Value(period) => clock_of(alloc, draft, name, period),
        },
        None => Ok(None),
    }
}

/// The clock that the command creates, where nothing is wrong with it.
pub(crate) fn new_clock(
    alloc: Global,
    clocks: &[Clock],
    draft: &Draft,
) -> Result<Option<Clock>, Memory>
    ensures { IfOk result (λ clock. clock ≡ new_clock clocks.now draft.now) }
{
    if is_spread(draft) || is_second(clocks, draft) || CLOCK_LIMIT <= clocks.len() {
        return Ok(None);
    }
    clock_of_period(alloc, draft)
}

/// The place of a clock among those that were created.
#[tactic(auto, unfolding(crate::specs::Meaning::place_from), using(std::proofs::lemmas::List::drop_more))]
fn clock_place(clocks: &[Clock], name: &Name) -> Option<usize>
    ensures value { result ≡ clock_place clocks.now name.now }
    ensures within { IfSome result (λ place. place < length clocks.now) }
{
    for (place, clock) in clocks.iter().enumerate() {
        if clock.name == *name {
            return Some(place);
        }
    }
    None
}

/// The place of the clock of a delay.
fn delay_clock(clocks: &[Clock], draft: &Draft) -> Option<usize>
    ensures value { result ≡ option_map_or (clock_place clocks.now) draft.now.clock None }
    ensures within { IfSome result (λ place. place < length clocks.now) }
{
    match &draft.clock {
        Some(name) => clock_place(clocks, name),
        None => None,
    }
}

/// The delay that the command sets, with its clock.
pub(crate) fn delay_amount(clocks: &[Clock], draft: &Draft) -> Option<Amount>
    requires { length clocks.now ≤ clock_limit }
    ensures { result ≡ delay_amount clocks.now draft.now }
{
    match (draft.number, delay_clock(clocks, draft)) {
        (Figure::Value(value), Some(clock)) => Some(Amount {
            clock: clock as u32,
            value,
        }),
        _ => None,
    }
}

/// The slew or the load that the command sets.
pub(crate) fn plain_amount(draft: &Draft) -> Option<Amount>
    ensures { result ≡ plain_amount draft.now }
{
    match draft.number {
        Figure::Value(value) => Some(Amount { clock: 0, value }),
        _ => None,
    }
}

fn stands(names: &[Name], name: &Name) -> bool
    ensures { result ≡ stands names.now name.now }
{
    names.iter().any(|other| *name == *other)
}

/// A clock with an uncertainty of the tests that are meant.
fn uncertain(flags: Flags, value: i64, clock: Clock) -> Clock
    ensures { result ≡ uncertain flags value clock }
{
    let unc_setup = if meant(flags.setup, flags.hold) {
        Fs(value)
    } else {
        clock.unc_setup
    };
    let unc_hold = if meant(flags.hold, flags.setup) {
        Fs(value)
    } else {
        clock.unc_hold
    };
    Clock {
        unc_setup,
        unc_hold,
        ..clock
    }
}

fn uncertain_if(draft: &Draft, value: i64, clock: Clock) -> Clock
    ensures { result ≡ uncertain_if draft.now value clock }
{
    if stands(draft.named(), &clock.name) {
        uncertain(draft.flags, value, clock)
    } else {
        clock
    }
}

/// Gives clocks an uncertainty.
#[tactic(auto, using(std::proofs::lemmas::List::drop_more))]
fn uncertain_all(
    alloc: Global,
    draft: &Draft,
    value: i64,
    clocks: &[Clock],
) -> Result<Items<Clock>, Memory>
    ensures { IfOk result (λ found. found ≡ map (uncertain_if draft.now value) clocks.now) }
{
    let mut found = Items::with_room(alloc, clocks.len())?;
    for clock in clocks {
        found.push(uncertain_if(draft, value, clock.again(alloc)?))?;
    }
    Ok(found)
}

/// The clocks with the uncertainty that the command sets.
pub(crate) fn uncertain_clocks(
    alloc: Global,
    draft: &Draft,
    clocks: &[Clock],
) -> Result<Items<Clock>, Memory>
    ensures { IfOk result
        (λ found. found ≡ uncertain_clocks draft.now draft.now.number clocks.now) }
{
    match draft.number {
        Figure::Value(value) => uncertain_all(alloc, draft, value, clocks),
        _ => copies(alloc, clocks),
    }
}

/// Copies of clocks.
#[tactic(auto, using(std::proofs::lemmas::List::drop_more))]
fn copies(alloc: Global, clocks: &[Clock]) -> Result<Items<Clock>, Memory>
    ensures { IfOk result (λ found. found ≡ clocks.now) }
{
    let mut found = Items::with_room(alloc, clocks.len())?;
    for clock in clocks {
        found.push(clock.again(alloc)?)?;
    }
    Ok(found)
}
