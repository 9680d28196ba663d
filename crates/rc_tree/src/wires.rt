//! Delays and impulses of wires, each rounded once.

ghost use Rattle.std.specs.Prelude.{◌≡◌, ◌⊎◌, ◌<◌, ◌≤◌, ◌+◌, ◌-◌, ◌*◌, ◌^◌, map, length, Some, IfOk, IfErr, IfSome};
ghost use Rattle.rc_tree.specs.declared.faults.RcFault.TheVariants.{Memory as memory, OutOfRange as out_of_range};
ghost use Rattle.rc_tree.specs.Moments.{weight_at};
ghost use Rattle.rc_tree.specs.Weights.{AreUnder};
ghost use Rattle.rc_tree.specs.Wiring.{micro, IsAnyOver, IsOver, AreTimes, wire_at, ArePlaces, IsLimited, AreWires};

use crate::faults::RcFault;
use crate::forests::Forest;
use crate::sums::moments;
use std::alloc::Global;
use timing_defs::Items;

/// The delay of the wire to a node in fs, and its impulse in fs².
#[derive(Clone, Copy, Drop)]
pub(crate) struct Wire {
    pub(crate) delay: i64,
    pub(crate) impulse: u128,
}

/// The greatest total and the greatest delay.
const LIMIT: u128 = 1_000_000_000_000;

/// An amount within the limit.
pub(crate) fn within(amount: u128) -> Result<u64, RcFault>
    ensures ok { IfOk result (λ fine. (fine ≡ amount) × (amount ≤ 10 ^ 12)) }
    ensures err { IfErr result (λ fault. (fault ≡ out_of_range) × (10 ^ 12 < amount)) }
{
    if amount <= LIMIT {
        return Ok(amount as u64);
    }
    Err(RcFault::OutOfRange)
}

/// A moment over 10^6 to the nearest whole number, halves upward.
fn micro(moment: u128) -> u128
    requires { moment ≤ 2 ^ 125 }
    ensures { result ≡ micro moment }
{
    (2 * moment + 1_000_000) / 2_000_000
}

/// The delay of a moment in mΩ times aF, in fs.
fn delay_of(moment: u128) -> Result<u64, RcFault>
    requires { moment ≤ 2 ^ 125 }
    ensures ok { IfOk result (λ delay. (delay ≡ micro moment) × (delay ≤ 10 ^ 12)) }
    ensures err { IfErr result (λ fault. (fault ≡ out_of_range) × (10 ^ 12 < micro moment)) }
{
    within(micro(moment))
}

/// The delay at each place, in fs.
fn delays_of(alloc: Global, moments: &[u128]) -> Result<Items<u64>, RcFault>
    requires { AreUnder (2 ^ 125) moments.now }
    ensures delays { IfOk result (λ delays. delays ≡ map micro moments.now) }
    ensures bound { IfOk result (λ delays. AreUnder (10 ^ 12) delays) }
    ensures err { IfErr result
        (λ fault. (fault ≡ memory) ⊎ ((fault ≡ out_of_range) × IsAnyOver moments.now)) }
{
    let mut delays = Items::with_room(alloc, moments.len())?;
    for moment in moments {
        delays.push(delay_of(*moment)?)?;
    }
    Ok(delays)
}

/// The weight of a place.
fn weight_at(weights: &[u128], place: usize) -> u128
    requires { place < length weights.now }
    ensures { result ≡ weight_at weights.now place }
{
    weights[place]
}

/// The delay of a place.
fn delay_at(delays: &[u64], place: usize) -> u64
    requires { place < length delays.now }
    ensures { result ≡ weight_at delays.now place }
{
    delays[place]
}

/// The capacitance at a place times its delay.
fn product(weight: u128, delay: u64) -> u128
    requires weight { weight ≤ 10 ^ 12 }
    requires delay { delay ≤ 10 ^ 12 }
    ensures { result ≡ weight * delay }
{
    weight * u128::from(delay)
}

/// The capacitance at each place times its delay.
fn times(alloc: Global, weights: &[u128], delays: &[u64]) -> Result<Vec<u128>, RcFault>
    requires len { length delays.now ≡ length weights.now }
    requires weights { AreUnder (10 ^ 12) weights.now }
    requires delays { AreUnder (10 ^ 12) delays.now }
    ensures times { IfOk result (λ products. AreTimes weights.now delays.now products.items) }
    ensures err { IfErr result (λ fault. fault ≡ memory) }
{
    let mut products = Vec::with_capacity(alloc, weights.len())?;
    for place in 0..weights.len() {
        let next = product(weight_at(weights, place), delay_at(delays, place));
        match products.push(next) {
            Ok(()) => (),
            Err(_) => return Err(RcFault::Memory),
        }
    }
    Ok(products)
}

/// Twice the second moment less the square of the delay, or 0 where that is negative.
fn impulse_of(second: u128, delay: u64) -> u128
    requires second { second ≤ 2 ^ 125 }
    requires delay { delay ≤ 10 ^ 12 }
    ensures { result ≡ 2 * micro second - delay * delay }
{
    let square = u128::from(delay) * u128::from(delay);
    (2 * micro(second)).saturating_sub(square)
}

/// The wire to a place.
fn wire_there(delays: &[u64], seconds: &[u128], place: usize) -> Wire
    requires delay { place < length delays.now }
    requires second { place < length seconds.now }
    requires delays { AreUnder (10 ^ 12) delays.now }
    requires seconds { AreUnder (2 ^ 125) seconds.now }
    ensures { result ≡ wire_at delays.now seconds.now (Some place) }
{
    let delay = delay_at(delays, place);
    Wire {
        delay: delay as i64,
        impulse: impulse_of(weight_at(seconds, place), delay),
    }
}

/// The wire to the place of a node.
fn wire_at(delays: &[u64], seconds: &[u128], place: Option<usize>) -> Wire
    requires place { IfSome place (λ p. (p < length delays.now) × (p < length seconds.now)) }
    requires delays { AreUnder (10 ^ 12) delays.now }
    requires seconds { AreUnder (2 ^ 125) seconds.now }
    ensures { result ≡ wire_at delays.now seconds.now place }
{
    match place {
        Some(place) => wire_there(delays, seconds, place),
        None => Wire {
            delay: 0,
            impulse: 0,
        },
    }
}

/// The wires to the places of nodes.
fn wires_at(
    alloc: Global,
    places: &[Option<usize>],
    delays: &[u64],
    seconds: &[u128],
) -> Result<Items<Wire>, RcFault>
    requires places { ArePlaces (length delays.now) places.now }
    requires len { length seconds.now ≡ length delays.now }
    requires delays { AreUnder (10 ^ 12) delays.now }
    requires seconds { AreUnder (2 ^ 125) seconds.now }
    ensures wires { IfOk result (λ wires. wires ≡ map (wire_at delays.now seconds.now) places.now) }
    ensures err { IfErr result (λ fault. fault ≡ memory) }
{
    let mut wires = Items::with_room(alloc, places.len())?;
    for place in places {
        wires.push(wire_at(delays, seconds, *place))?;
    }
    Ok(wires)
}

/// The wires to the nodes of a forest by their numbers, over the capacitance at each place.
pub(crate) fn wires(
    alloc: Global,
    forest: &Forest,
    weights: Vec<u128>,
) -> Result<Items<Wire>, RcFault>
    requires { IsLimited forest.now.rows.items forest.now.places.items weights.items }
    ensures wires { IfOk result
        (AreWires forest.now.rows.items weights.items forest.now.places.items) }
    ensures err { IfErr result
        (λ fault. (fault ≡ memory)
        ⊎ ((fault ≡ out_of_range) × IsOver forest.now.rows.items weights.items)) }
{
    let first = moments(alloc, &forest.rows, Vec::from_slice(alloc, &weights)?)?;
    let delays = delays_of(alloc, first.as_slice())?;
    let products = times(alloc, &weights, delays.as_slice())?;
    let seconds = moments(alloc, &forest.rows, products)?;
    let wires = wires_at(alloc, &forest.places, delays.as_slice(), seconds.as_slice())?;
    Ok(wires)
}
