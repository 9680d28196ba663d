//! The wires of a net with resistors: one tree from its driver, or one for each split where a pin's
//! capacitances differ.

ghost use Rattle.std.specs.Prelude.{◌≡◌, ℕ, List, [], true, All, map, find, IfOk};
ghost use Rattle.std.specs.List.{list_all};
ghost use Rattle.std.specs.Option.{unwrap_or};
ghost use Rattle.timing_defs.specs.declared.parasitics.RcNode.TheVariants.{Pin as rc_pin};
ghost use Rattle.timing_defs.specs.declared.parasitics.NetRc.{NetRc};
ghost use Rattle.timing_defs.specs.declared.rows.PinCap.{PinCap};
ghost use Rattle.netlist_store.specs.Numbering.{is_number, name_at};
ghost use Rattle.rc_tree.specs.Trees.{IsTreeOf, is_node};
ghost use Rattle.node_rows.specs.PortTables.{ArePorts};
ghost use Rattle.node_rows.specs.NetPins.{pin_cap_at, has_one_cap};
ghost use Rattle.store_pins.specs.Drivers.{drives_at};
ghost use Rattle.node_rows.specs.NetTrees.{IsSink, late_of};
ghost use Rattle.node_rows.specs.FoundNets.{AreWiresTo};

use crate::found_nets::WireTo;
use crate::pin_wires::{PinWire, SinkWire};
use crate::pins::pin_cap;
use crate::ports::Ports;
use netlist_store::Store;
use rc_tree::Tree;
use sta_units::{Af, Fs, Memory};
use std::alloc::Global;
use store_pins::is_driving;
use timing_defs::{Items, Name, NetRc, PinCap, Split};

/// The trees of a net in both splits. Without a late tree the early one is that of both.
#[derive(Drop)]
pub(crate) struct NetTrees {
    pub(crate) early: Tree,
    pub(crate) late: Option<Tree>,
}

impl NetTrees {
    /// The late tree; the early one where none is made apart.
    pub(crate) fn late_tree(&self) -> &Tree
        ensures { result.now ≡ late_of self.now }
    {
        match &self.late {
            Some(tree) => tree,
            None => &self.early,
        }
    }
}

/// A pin with its capacitance.
fn pin_cap_of(
    alloc: Global,
    store: &Store,
    ports: &Ports,
    split: Split,
    pin: u32,
) -> Result<PinCap, Memory>
    requires pin { is_number store.now.pins pin ≡ true }
    requires ports { ArePorts store.now.design.constraints ports.now }
    ensures { IfOk result (λ cap. cap ≡ pin_cap_at store.now split pin) }
{
    let name = store.pin_name(pin).copied(alloc)?;
    let cap = pin_cap(store, ports, split, pin);
    Ok(PinCap {
        pin: name,
        cap: Af(cap),
    })
}

/// Pins with their capacitances.
pub(crate) fn pin_caps(
    alloc: Global,
    store: &Store,
    ports: &Ports,
    split: Split,
    pins: &[u32],
) -> Result<Items<PinCap>, Memory>
    requires pins { All (λ pin. is_number store.now.pins pin ≡ true) pins.now }
    requires ports { ArePorts store.now.design.constraints ports.now }
    ensures { IfOk result (λ caps. caps ≡ map (pin_cap_at store.now split) pins.now) }
{
    let mut caps = Items::with_room(alloc, pins.len())?;
    for pin in pins {
        let cap = pin_cap_of(alloc, store, ports, split, *pin)?;
        caps.push(cap)?;
    }
    Ok(caps)
}

/// Whether a pin has the same capacitance in both splits.
fn has_one_cap(store: &Store, ports: &Ports, pin: u32) -> bool
    requires pin { is_number store.now.pins pin ≡ true }
    requires ports { ArePorts store.now.design.constraints ports.now }
    ensures { result ≡ has_one_cap store.now pin }
{
    pin_cap(store, ports, Split::Early, pin) == pin_cap(store, ports, Split::Late, pin)
}

/// Whether each of some pins has the same capacitance in both splits. Takes no memory.
pub(crate) fn have_one_cap(store: &Store, ports: &Ports, pins: &[u32]) -> bool
    requires pins { All (λ pin. is_number store.now.pins pin ≡ true) pins.now }
    requires ports { ArePorts store.now.design.constraints ports.now }
    ensures { result ≡ list_all (has_one_cap store.now) pins.now }
{
    for pin in pins {
        if !has_one_cap(store, ports, *pin) {
            return false;
        }
    }
    true
}

/// The first of some pins that drives.
pub(crate) fn driver_of(store: &Store, pins: &[u32]) -> Option<u32>
    requires { All (λ pin. is_number store.now.pins pin ≡ true) pins.now }
    ensures { result ≡ find (drives_at store.now) pins.now }
{
    for pin in pins {
        if is_driving(store, *pin) {
            return Some(*pin);
        }
    }
    None
}

/// The wire to a pin that is a node of a tree.
fn sink_wire(tree: &Tree, pin: &Name) -> SinkWire
    requires { is_node tree.now.nodes (rc_pin pin.now) ≡ true }
    ensures { (net : NetRc) (root : List ℕ) (caps : List PinCap) → IsTreeOf net root caps tree.now
        → IsSink net root caps pin.now result }
{
    match tree.find(pin) {
        Some(node) => SinkWire {
            delay: tree.delay(node),
            impulse: tree.impulse(node),
        },
        None => SinkWire {
            delay: Fs(0),
            impulse: 0,
        },
    }
}

/// The late wire to a pin: its early one where one tree serves both splits.
fn late_wire(trees: &NetTrees, pin: &Name, early: SinkWire) -> SinkWire
    requires early { (net : NetRc) (root : List ℕ) (caps : List PinCap)
        → IsTreeOf net root caps trees.now.early → IsSink net root caps pin.now early }
    requires late { is_node (late_of trees.now).nodes (rc_pin pin.now) ≡ true }
    ensures { (net : NetRc) (root : List ℕ) (caps : List PinCap)
        → IsTreeOf net root caps (late_of trees.now) → IsSink net root caps pin.now result }
{
    match &trees.late {
        Some(tree) => sink_wire(tree, pin),
        None => early,
    }
}

/// The wire to a pin that is a node of both trees.
fn pin_wire(trees: &NetTrees, pin: &Name) -> PinWire
    requires early { is_node trees.now.early.nodes (rc_pin pin.now) ≡ true }
    requires late { is_node (late_of trees.now).nodes (rc_pin pin.now) ≡ true }
    ensures early { (net : NetRc) (root : List ℕ) (caps : List PinCap)
        → IsTreeOf net root caps trees.now.early → IsSink net root caps pin.now result.early }
    ensures late { (net : NetRc) (root : List ℕ) (caps : List PinCap)
        → IsTreeOf net root caps (late_of trees.now) → IsSink net root caps pin.now result.late }
{
    let early = sink_wire(&trees.early, pin);
    PinWire {
        early,
        late: late_wire(trees, pin, early),
    }
}

/// The wire to a pin that is a node of both trees, by its number.
fn wire_to(store: &Store, trees: &NetTrees, pin: u32) -> WireTo
    requires pin { is_number store.now.pins pin ≡ true }
    requires early { is_node trees.now.early.nodes
        (rc_pin (unwrap_or (name_at store.now.pins pin) [])) ≡ true }
    requires late { is_node (late_of trees.now).nodes
        (rc_pin (unwrap_or (name_at store.now.pins pin) [])) ≡ true }
    ensures pin { result.pin ≡ pin }
    ensures early { (net : NetRc) (root : List ℕ) (caps : List PinCap)
        → IsTreeOf net root caps trees.now.early
        → IsSink net root caps (unwrap_or (name_at store.now.pins pin) []) result.wire.early }
    ensures late { (net : NetRc) (root : List ℕ) (caps : List PinCap)
        → IsTreeOf net root caps (late_of trees.now)
        → IsSink net root caps (unwrap_or (name_at store.now.pins pin) []) result.wire.late }
{
    let wire = pin_wire(trees, store.pin_name(pin));
    WireTo { pin, wire }
}

/// The wires to pins.
pub(crate) fn wires_to(
    alloc: Global,
    store: &Store,
    trees: &NetTrees,
    pins: &[u32],
) -> Result<Items<WireTo>, Memory>
    requires pins { All (λ pin. is_number store.now.pins pin ≡ true) pins.now }
    requires early { All
        (λ pin. is_node trees.now.early.nodes (rc_pin (unwrap_or (name_at store.now.pins pin) []))
        ≡ true) pins.now }
    requires late { All
        (λ pin. is_node (late_of trees.now).nodes
        (rc_pin (unwrap_or (name_at store.now.pins pin) [])) ≡ true) pins.now }
    ensures { IfOk result (AreWiresTo store.now trees.now pins.now) }
{
    let mut wires = Items::with_room(alloc, pins.len())?;
    for pin in pins {
        wires.push(wire_to(store, trees, *pin))?;
    }
    Ok(wires)
}
