//! Trees of resistors.

ghost use Rattle.std.specs.Prelude.{◌≡◌, ◌⊎◌, ◌<◌, ◌≤◌, ◌*◌, ◌^◌, ◌&&◌, ◌||◌, not, true, false, None, [], length, get_or, pos, OnOk, IfOk, IfErr};
ghost use Rattle.std.specs.List.{AllByRecursion, list_all};
ghost use Rattle.sta_units.specs.Numbers.{is_within};
ghost use Rattle.timing_defs.specs.declared.parasitics.RcNode.TheVariants.{Pin as rc_pin};
ghost use Rattle.timing_defs.specs.Wires.{sum_of, res_of};
ghost use Rattle.timing_defs.specs.NetChecks.{has_cycle};
ghost use Rattle.rc_tree.specs.declared.faults.RcFault.TheVariants.{Loop as loop_fault, Unreached as unreached, TooLarge as too_large, OutOfRange as out_of_range, Memory as memory};
ghost use Rattle.rc_tree.specs.Trees.{IsMeasured, IsTreeOf, IsFaultOf, rc_fault, is_amount, pin_charges, total_load, tree_nodes};
ghost use Rattle.rc_tree.specs.Numbering.{numbered, node_at, AreApart, IsJoined, IsNumberOf};
ghost use Rattle.rc_tree.specs.Ends.{IsResistorOf};
ghost use Rattle.rc_tree.specs.Loops.{IsReady, IsFound, IsLoopOf};
ghost use Rattle.rc_tree.specs.Founded.{IsFounded, IsPassed, told_of};
ghost use Rattle.rc_tree.specs.Wiring.{IsForestOf, is_whole, is_reached};

use crate::faults::RcFault;
use crate::forests::{Forest, Row, found_forest};
use crate::links::node_links;
use crate::nodes::{Nodes, tree_nodes};
use crate::segments::{Segment, segments};
use crate::weights::{total_load, total_resistance, weights};
use crate::wires::{Wire, wires, within};
use sta_units::{Af, Fs};
use std::alloc::Global;
use std::marker::Model;
use timing_defs::{Items, Name, NetRc, PinCap};

/// The most nodes of a net with parasitics.
const MOST_NODES: usize = 65_535;

/// The tree of a net's resistors. Contracts see its nodes by their numbers, with the delay and the
/// impulse of the wire from the root to each, and the load of the root.
#[derive(Drop)]
pub struct Tree {
    nodes: Nodes,
    wires: Items<Wire>,
    load: Af,
}

impl Model for Tree {
    ghost use Rattle.std.specs.Prelude.{◌≡◌, ◌≤◌, map, length};
    ghost use Rattle.rc_tree.specs.Trees.{Told};
    ghost use Rattle.rc_tree.specs.Numbering.{numbered};

    ghost Value = { Told };

    ghost view = { λ t. record {
      nodes = numbered t.nodes;
      delays = map (λ w. w.delay) t.wires;
      impulses = map
          (λ w. w.impulse) t.wires;
      load = t.load.0;
    } };

    ghost invariant = { λ t. (length t.wires ≡ length (numbered t.nodes))
        × (length t.wires ≤ 65535) };
}

/// The forest of segments between `count` nodes.
fn forest_of(alloc: Global, count: usize, segments: &[Segment]) -> Result<Forest, RcFault>
    requires { IsReady segments.now count }
    ensures found { IfOk result (IsFound segments.now count) }
    ensures looped { IfErr result (IsLoopOf segments.now count) }
{
    let links = node_links(alloc, count, segments)?;
    found_forest(alloc, segments, &links)
}

/// The forest of a net's resistors between its nodes.
fn net_forest(alloc: Global, nodes: &Nodes, net: &NetRc) -> Result<Forest, RcFault>
    requires { AllByRecursion (IsResistorOf (numbered nodes.now)) net.now.ress }
    ensures found { IfOk result (IsForestOf (numbered nodes.now) net.now.ress) }
    ensures apart { IfOk result (λ _. AreApart (numbered nodes.now)) }
    ensures acyclic { IfOk result (λ _. has_cycle net.now ≡ false) }
    ensures looped { IfErr result
        (λ fault. (fault ≡ memory) ⊎ ((fault ≡ loop_fault) × (has_cycle net.now ≡ true))) }
{
    let segments = segments(alloc, nodes, net.ress.as_slice())?;
    let forest = forest_of(alloc, nodes.len(), segments.as_slice())?;
    Ok(forest)
}

/// Whether all places are of the first part.
fn is_whole(rows: &[Row]) -> bool
    ensures { result ≡ is_whole rows.now }
{
    rows.iter().all(|row| row.home == 0)
}

/// Refuses a net with resistors that do not lead from the root to each node.
fn check_reached(net: &NetRc, forest: &Forest) -> Result<(), RcFault>
    ensures fine { OnOk result (is_reached net.now forest.now.rows.items ≡ true) }
    ensures err { IfErr result
        (λ fault. (fault ≡ unreached) × (is_reached net.now forest.now.rows.items ≡ false)) }
{
    if net.ress.len() == 0 {
        return Ok(());
    }
    if is_whole(&forest.rows) {
        return Ok(());
    }
    Err(RcFault::Unreached)
}

/// Refuses more nodes than are allowed.
fn check_size(nodes: &Nodes) -> Result<(), RcFault>
    ensures fine { OnOk result (length (numbered nodes.now) ≤ 65535) }
    ensures err { IfErr result
        (λ fault. (fault ≡ too_large) × (65535 < length (numbered nodes.now))) }
{
    if nodes.len() <= MOST_NODES {
        return Ok(());
    }
    Err(RcFault::TooLarge)
}

/// The load of a net whose totals are within the limit.
fn checked_load(net: &NetRc, pins: &[PinCap]) -> Result<u64, RcFault>
    requires resistances { AllByRecursion (λ r. is_amount (res_of r) ≡ true) net.now.ress }
    requires lump { is_amount net.now.lump.0 ≡ true }
    requires amounts { AllByRecursion (λ c. is_amount c.cap.0 ≡ true)
        (pin_charges net.now pins.now) }
    ensures load { IfOk result
        (λ load. (pos load ≡ total_load net.now pins.now) × (load ≤ 10 ^ 12)) }
    ensures fine { IfOk result (λ _. is_within (sum_of res_of net.now.ress) ≡ true) }
    ensures err { IfErr result
        (λ fault. (fault ≡ out_of_range)
        ×
        ((not (is_within (sum_of res_of net.now.ress)) || not
        (is_within (total_load net.now pins.now))) ≡ true)) }
{
    within(total_resistance(net.ress.as_slice()))?;
    let load = within(total_load(net, pins))?;
    Ok(load)
}

/// The load of a net whose forest, nodes and totals are within the limits.
fn load_of(
    nodes: &Nodes,
    forest: &Forest,
    net: &NetRc,
    root: &Name,
    pins: &[PinCap],
) -> Result<u64, RcFault>
    requires { IsFounded net.now root.now pins.now (numbered nodes.now) forest.now }
    ensures passed { IfOk result (IsPassed net.now pins.now (numbered nodes.now) forest.now) }
    ensures fault { IfErr result (IsFaultOf net.now root.now pins.now) }
{
    // The root is asked for by the contract alone.
    let _ = root;
    check_reached(net, forest)?;
    check_size(nodes)?;
    let load = checked_load(net, pins)?;
    Ok(load)
}

/// The wires of a net with that load.
fn wires_of(
    alloc: Global,
    nodes: &Nodes,
    forest: &Forest,
    net: &NetRc,
    root: &Name,
    pins: &[PinCap],
    load: u64,
) -> Result<Items<Wire>, RcFault>
    requires founded { IsFounded net.now root.now pins.now (numbered nodes.now) forest.now }
    requires passed { IsPassed net.now pins.now (numbered nodes.now) forest.now load }
    ensures fine { OnOk result (rc_fault net.now root.now pins.now ≡ None) }
    ensures tree { IfOk result
        (λ wires. IsTreeOf net.now root.now pins.now
        (told_of (numbered nodes.now) wires (pos load))) }
    ensures size { IfOk result (λ wires. length wires ≡ length (numbered nodes.now)) }
    ensures fault { IfErr result (IsFaultOf net.now root.now pins.now) }
{
    // The root and the load are asked for by the contract alone.
    let _ = root;
    let _ = load;
    let weights = weights(alloc, nodes, forest, net, pins)?;
    let wires = wires(alloc, forest, weights)?;
    Ok(wires)
}

/// The wires to the nodes of a net by their numbers, and its load.
#[derive(Drop)]
struct Wired {
    wires: Items<Wire>,
    load: Af,
}

/// The wires and the load of a net with these nodes.
fn wires_and_load(
    alloc: Global,
    nodes: &Nodes,
    net: &NetRc,
    root: &Name,
    pins: &[PinCap],
) -> Result<Wired, RcFault>
    requires joined { IsJoined [] (tree_nodes net.now root.now pins.now) (numbered nodes.now) }
    requires root { node_at (numbered nodes.now) 0 ≡ rc_pin root.now }
    requires measured { IsMeasured net.now root.now pins.now }
    ensures fine { OnOk result (rc_fault net.now root.now pins.now ≡ None) }
    ensures tree { IfOk result
        (λ wired. IsTreeOf net.now root.now pins.now
        (told_of (numbered nodes.now) wired.wires wired.load.0)) }
    ensures size { IfOk result (λ wired. length wired.wires ≡ length (numbered nodes.now)) }
    ensures few { IfOk result (λ wired. length wired.wires ≤ 65535) }
    ensures fault { IfErr result (IsFaultOf net.now root.now pins.now) }
{
    let forest = net_forest(alloc, nodes, net)?;
    let load = load_of(nodes, &forest, net, root, pins)?;
    let wires = wires_of(alloc, nodes, &forest, net, root, pins, load)?;
    Ok(Wired {
        wires,
        load: Af(load as i64),
    })
}

impl Tree {
    /// The tree of a net's resistors from `root`, with the capacitances of `pins` at them: delays as
    /// Elmore has them and impulses as the TAU 2015 contest has them, each an exact sum that is
    /// rounded once. `pins` has the root and each pin that the net names; all numbers are from 0 to
    /// `sta_units::LIM`. Takes as many steps as the net has resistors, capacitances and pins.
    pub fn of(
        alloc: Global,
        net: &NetRc,
        root: &Name,
        pins: &Items<PinCap>,
    ) -> Result<Tree, RcFault>
        requires { IsMeasured net.now root.now pins.now }
        ensures fine { IfOk result (λ tree. rc_fault net.now root.now pins.now ≡ None) }
        ensures tree { IfOk result (IsTreeOf net.now root.now pins.now) }
        ensures fault { IfErr result (IsFaultOf net.now root.now pins.now) }
    {
        let pins = pins.as_slice();
        let nodes = tree_nodes(alloc, net, root, pins)?;
        match wires_and_load(alloc, &nodes, net, root, pins) {
            Ok(found) => Ok(Tree {
                nodes,
                wires: found.wires,
                load: found.load,
            }),
            Err(fault) => {
                nodes.discard();
                Err(fault)
            }
        }
    }

    /// The number of the node of a pin; none exactly where the pin is no node of the tree. Takes no
    /// memory.
    pub fn find(&self, pin: &Name) -> Option<u32>
        ensures { IsNumberOf self.now.nodes (rc_pin pin.now) result }
    {
        match self.nodes.pin_number(pin) {
            Some(number) => Some(number as u32),
            None => None,
        }
    }

    /// The delay of the wire from the root to a node, in fs. Takes no memory.
    pub fn delay(&self, node: u32) -> Fs
        requires { node < length self.now.nodes }
        ensures { result.0 ≡ get_or self.now.delays node result.0 }
    {
        Fs(self.wires.as_slice()[node as usize].delay)
    }

    /// The impulse of the wire from the root to a node, in fs². Takes no memory.
    pub fn impulse(&self, node: u32) -> u128
        requires { node < length self.now.nodes }
        ensures { result ≡ get_or self.now.impulses node result }
    {
        self.wires.as_slice()[node as usize].impulse
    }

    /// The load of the root, in aF: all capacitance of the net. Takes no memory.
    pub fn load(&self) -> Af
        ensures { result.0 ≡ self.now.load }
    {
        self.load
    }
}
