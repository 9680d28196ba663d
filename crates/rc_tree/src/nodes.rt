//! The nodes of a net by their numbers.

ghost use Rattle.std.specs.Prelude.{◌≡◌, ◌<◌, [], ◌∷◌, ◌++◌, map, length, true, if◌then◌else◌, IfOk, OnOk};
ghost use Rattle.std.specs.List.{flat_map};
ghost use Rattle.timing_defs.specs.declared.parasitics.RcNode.TheVariants.{Pin as rc_pin, Inner as rc_inner};
ghost use Rattle.timing_defs.specs.Wires.{is_lumped};
ghost use Rattle.rc_tree.specs.Trees.{is_node, tree_nodes};
ghost use Rattle.rc_tree.specs.Numbering.{numbered, node_at, AreApart, IsNumberOf, IsJoined};

use crate::keys::Keys;
use sta_units::Memory;
use std::alloc::Global;
use timing_defs::{Name, NetRc, PinCap, RcCap, RcNode, RcRes};

/// The nodes of a net, each once: pins and inner nodes in the order in which they came. Numbers
/// count the pins first.
#[derive(Drop)]
pub(crate) struct Nodes {
    pins: Keys<Name>,
    inners: Keys<u32>,
}

impl Nodes {
    /// No nodes.
    pub(crate) fn new(alloc: Global) -> Nodes
        ensures { numbered result ≡ [] }
    {
        Nodes {
            pins: Keys::new(alloc),
            inners: Keys::new(alloc),
        }
    }

    /// Gives the nodes up.
    pub(crate) fn discard(self) {}

    /// Adds a pin, if it is not there.
    pub(crate) fn insert_pin(&mut self, alloc: Global, pin: &Name) -> Result<(), Memory>
        ensures { OnOk result
            (IsJoined (numbered self.old) (rc_pin pin.now ∷ []) (numbered self.new)) }
    {
        match self.pins.place(pin) {
            Some(_) => Ok(()),
            None => self.pins.push(pin.copied(alloc)?),
        }
    }

    /// Adds an inner node, if it is not there.
    fn insert_inner(&mut self, inner: u32) -> Result<(), Memory>
        ensures { OnOk result
            (IsJoined (numbered self.old) (rc_inner inner ∷ []) (numbered self.new)) }
    {
        match self.inners.place(&inner) {
            Some(_) => Ok(()),
            None => self.inners.push(inner),
        }
    }

    /// Adds a node, if it is not there.
    pub(crate) fn insert(&mut self, alloc: Global, node: &RcNode) -> Result<(), Memory>
        ensures { OnOk result (IsJoined (numbered self.old) (node.now ∷ []) (numbered self.new)) }
    {
        match node {
            RcNode::Pin(pin) => self.insert_pin(alloc, pin),
            RcNode::Inner(inner) => self.insert_inner(*inner),
        }
    }

    /// How many nodes there are.
    pub(crate) fn len(&self) -> usize
        ensures len { result ≡ length (numbered self.now) }
        ensures apart { AreApart (numbered self.now) }
    {
        self.pins.len() + self.inners.len()
    }

    /// The number of a pin.
    pub(crate) fn pin_number(&self, pin: &Name) -> Option<usize>
        ensures { IsNumberOf (numbered self.now) (rc_pin pin.now) result }
    {
        self.pins.place(pin)
    }

    /// The number of an inner node.
    fn inner_number(&self, inner: u32) -> Option<usize>
        ensures { IsNumberOf (numbered self.now) (rc_inner inner) result }
    {
        match self.inners.place(&inner) {
            Some(place) => {
                let inners = self.inners.len();
                prove!(place < inners);
                Some(self.pins.len() + place)
            }
            None => None,
        }
    }

    /// The number of a node.
    pub(crate) fn number(&self, node: &RcNode) -> Option<usize>
        ensures { IsNumberOf (numbered self.now) node.now result }
    {
        match node {
            RcNode::Pin(pin) => self.pin_number(pin),
            RcNode::Inner(inner) => self.inner_number(*inner),
        }
    }

    /// The number of a node that is there.
    pub(crate) fn number_there(&self, node: &RcNode) -> usize
        requires { is_node (numbered self.now) node.now ≡ true }
        ensures within { result < length (numbered self.now) }
        ensures node { node_at (numbered self.now) result ≡ node.now }
    {
        match self.number(node) {
            Some(number) => number,
            None => 0,
        }
    }
}

/// Adds pins.
fn add_pins(alloc: Global, nodes: &mut Nodes, pins: &[PinCap]) -> Result<(), Memory>
    ensures { OnOk result
        (IsJoined (numbered nodes.old) (map (λ p. rc_pin p.pin) pins.now) (numbered nodes.new)) }
{
    for pin in pins {
        nodes.insert_pin(alloc, &pin.pin)?;
    }
    Ok(())
}

/// Adds the two ends of a resistor.
fn add_ends(alloc: Global, nodes: &mut Nodes, resistor: &RcRes) -> Result<(), Memory>
    ensures { OnOk result
        (IsJoined (numbered nodes.old) (resistor.now.a ∷ resistor.now.b ∷ [])
        (numbered nodes.new)) }
{
    nodes.insert(alloc, &resistor.a)?;
    nodes.insert(alloc, &resistor.b)?;
    Ok(())
}

/// Adds the ends of resistors.
fn add_resistors(alloc: Global, nodes: &mut Nodes, resistors: &[RcRes]) -> Result<(), Memory>
    ensures { OnOk result
        (IsJoined (numbered nodes.old) (flat_map (λ r. r.a ∷ r.b ∷ []) resistors.now)
        (numbered nodes.new)) }
{
    for resistor in resistors {
        add_ends(alloc, nodes, resistor)?;
    }
    Ok(())
}

/// Adds the nodes of capacitances.
fn add_caps(alloc: Global, nodes: &mut Nodes, caps: &[RcCap]) -> Result<(), Memory>
    ensures { OnOk result
        (IsJoined (numbered nodes.old) (map (λ c. c.node) caps.now) (numbered nodes.new)) }
{
    for cap in caps {
        nodes.insert(alloc, &cap.node)?;
    }
    Ok(())
}

/// Adds the pins of a net, where it is lumped.
fn add_lumped(alloc: Global, nodes: &mut Nodes, net: &NetRc, pins: &[PinCap]) -> Result<(), Memory>
    ensures { OnOk result
        (IsJoined (numbered nodes.old)
        (if is_lumped net.now then map (λ p. rc_pin p.pin) pins.now else []) (numbered nodes.new)) }
{
    if net.ress.len() == 0 {
        return add_pins(alloc, nodes, pins);
    }
    Ok(())
}

/// Adds the nodes of the tree of a net, its root first, where there are none.
fn add_tree_nodes(
    alloc: Global,
    nodes: &mut Nodes,
    net: &NetRc,
    root: &Name,
    pins: &[PinCap],
) -> Result<(), Memory>
    requires { numbered nodes.old ≡ [] }
    ensures nodes { OnOk result
        (IsJoined [] (tree_nodes net.now root.now pins.now) (numbered nodes.new)) }
    ensures root { OnOk result (node_at (numbered nodes.new) 0 ≡ rc_pin root.now) }
{
    nodes.insert_pin(alloc, root)?;
    add_lumped(alloc, nodes, net, pins)?;
    add_resistors(alloc, nodes, net.ress.as_slice())?;
    add_caps(alloc, nodes, net.caps.as_slice())?;
    Ok(())
}

/// The nodes of the tree of a net, its root first.
pub(crate) fn tree_nodes(
    alloc: Global,
    net: &NetRc,
    root: &Name,
    pins: &[PinCap],
) -> Result<Nodes, Memory>
    ensures nodes { IfOk result
        (λ nodes. IsJoined [] (tree_nodes net.now root.now pins.now) (numbered nodes)) }
    ensures root { IfOk result (λ nodes. node_at (numbered nodes) 0 ≡ rc_pin root.now) }
{
    let mut nodes = Nodes::new(alloc);
    match add_tree_nodes(alloc, &mut nodes, net, root, pins) {
        Ok(()) => Ok(nodes),
        Err(wanting) => {
            nodes.discard();
            Err(wanting)
        }
    }
}
