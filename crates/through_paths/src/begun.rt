//! How many pins are passed where the walks of a cone begin: those before a launch node count, and the node itself.

ghost use Rattle.std.specs.Prelude.{◌≡◌, ◌<◌, ◌≤◌, ◌^◌, ℕ, if◌then◌else◌, map, length, slice_index, All, IfOk, OnOk};
ghost use Rattle.netlist_store.specs.Numbering.{number_of};
ghost use Rattle.worst_walks.specs.Walks.{count_of, is_launched, IsCone};
ghost use Rattle.path_search.specs.Ranks.{places_before};
ghost use Rattle.through_paths.specs.Passing.{is_wanted, next_pass, pass_all, begun_at, AreBegun};

use netlist_store::Store;
use path_search::{ByName, node_of};
use sta_units::Memory;
use std::alloc::Global;
use timing_defs::{Items, Name};
use worst_walks::{Cone, Launch, WalkOrder};

/// The numbers of pins by their names, in their order; none for a name of no pin.
pub(crate) fn wanted_pins(
    alloc: Global,
    store: &Store,
    pins: &[Name],
) -> Result<Items<Option<u32>>, Memory>
    ensures { IfOk result (λ wanted. wanted ≡ map (number_of store.now.pins) pins.now) }
{
    let mut wanted = Items::with_room(alloc, pins.len())?;
    for pin in pins {
        wanted.push(store.pin(pin))?;
    }
    Ok(wanted)
}

/// Whether the node of a number is of a wanted pin.
fn is_wanted(nodes: &[u32], number: u32, pin: Option<u32>) -> bool
    ensures { result ≡ is_wanted nodes.now number pin }
{
    match pin {
        Some(pin) => node_of(nodes, number) / 2 == pin,
        None => false,
    }
}

/// How many pins are passed behind a node.
fn next_pass(nodes: &[u32], wanted: &[Option<u32>], passed: u32, number: u32) -> u32
    requires few { length wanted.now < 2 ^ 31 }
    requires passed { passed ≤ length wanted.now }
    ensures value { result ≡ next_pass nodes.now wanted.now passed number }
    ensures most { result ≤ length wanted.now }
{
    let Some(pin) = wanted.get(passed as usize) else {
        return passed;
    };
    if is_wanted(nodes, number, *pin) {
        passed + 1
    } else {
        passed
    }
}

/// How many pins are passed behind some nodes.
fn pass_all(nodes: &[u32], wanted: &[Option<u32>], numbers: &[u32]) -> u32
    requires few { length wanted.now < 2 ^ 31 }
    ensures value { result ≡ pass_all nodes.now wanted.now 0 numbers.now }
    ensures most { result ≤ length wanted.now }
{
    let mut passed = 0;
    for number in numbers {
        passed = next_pass(nodes, wanted, passed, *number);
    }
    passed
}

/// How many pins are passed where walks begin at a place.
fn begun_at(
    alloc: Global,
    order: &ByName<'_>,
    wanted: &[Option<u32>],
    place: u32,
) -> Result<u32, Memory>
    requires few { length wanted.now < 2 ^ 31 }
    requires place { place < length order.now.nodes.now }
    ensures { IfOk result
        (λ passed. passed
        ≡ begun_at (places_before order.now.graph.now order.now.nodes.now) order.now.nodes.now
        wanted.now place) }
{
    let before = order.nodes_before(alloc, place)?;
    let passed = pass_all(order.nodes, wanted, before.as_slice());
    Ok(next_pass(order.nodes, wanted, passed, place))
}

/// Notes at the node of each launch how many pins are passed where its walks begin.
#[tactic(auto, using(crate::proofs::BegunLaws::noted_more))]
fn note_launches(
    alloc: Global,
    order: &ByName<'_>,
    wanted: &[Option<u32>],
    launches: &[Launch],
    begun: &mut [u32],
) -> Result<(), Memory>
    requires few { length wanted.now < 2 ^ 31 }
    requires places { length begun.old ≡ length order.now.nodes.now }
    requires launches { All (λ launch. launch.node < length begun.old) launches.now }
    ensures { OnOk result
        ((n : ℕ) → slice_index begun.new n
        ≡
        (if is_launched launches.now n then begun_at
        (places_before order.now.graph.now order.now.nodes.now) order.now.nodes.now wanted.now n
        else slice_index begun.old n)) }
{
    for launch in launches {
        let passed = begun_at(alloc, order, wanted, launch.node)?;
        begun[launch.node as usize] = passed;
    }
    Ok(())
}

/// How many pins are passed where walks begin, at the place of each launch node of a cone. Takes the nodes before each
/// launch.
pub(crate) fn begun_in(
    alloc: Global,
    order: &ByName<'_>,
    cone: &Cone,
    wanted: &[Option<u32>],
) -> Result<Vec<u32>, Memory>
    requires cone { IsCone cone.now }
    requires count { count_of cone.now ≡ length order.now.nodes.now }
    requires few { length wanted.now < 2 ^ 31 }
    ensures { IfOk result
        (λ begun. AreBegun (places_before order.now.graph.now order.now.nodes.now) cone.now
        order.now.nodes.now wanted.now begun.items) }
{
    let mut begun = vec![in alloc; 0; cone.count as usize]?;
    for end in cone.ends.as_slice() {
        note_launches(alloc, order, wanted, end.launches.as_slice(), &mut begun)?;
    }
    Ok(begun)
}
