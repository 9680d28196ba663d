//! Sets of nodes of a net.

ghost use Rattle.std.specs.Prelude.{◌≡◌, ◌∷◌, ◌++◌, [], ℕ, map, length, IfOk};
ghost use Rattle.std.specs.List.{flat_map};
ghost use Rattle.timing_defs.specs.declared.parasitics.RcNode.TheVariants.{Pin as rc_pin, Inner as rc_inner};
ghost use Rattle.timing_defs.specs.NetChecks.{different};
ghost use Rattle.design_link.specs.Nodes.{is_node, nodes_in, HaveSameNodes};

use indexmap::IndexSet;
use sta_units::Memory;
use std::alloc::Global;
use timing_defs::{Name, RcCap, RcNode, RcRes};

/// Some nodes of a net, each once.
#[derive(Drop)]
pub(crate) struct NodeSet {
    pub(crate) pins: IndexSet<Name>,
    pub(crate) inners: IndexSet<u32>,
}

impl NodeSet {
    /// No nodes.
    pub(crate) fn new(alloc: Global) -> NodeSet
        ensures { nodes_in result ≡ [] }
    {
        NodeSet {
            pins: IndexSet::new(alloc),
            inners: IndexSet::new(alloc),
        }
    }

    /// Adds a pin, if it is not there.
    pub(crate) fn with_pin(self, alloc: Global, pin: &Name) -> Result<NodeSet, Memory>
        ensures { IfOk result
            (λ more. HaveSameNodes (nodes_in more) (nodes_in self ++ rc_pin pin.now ∷ [])) }
    {
        let NodeSet { mut pins, inners } = self;
        match pins.insert(pin.copied(alloc)?) {
            Ok(_) => Ok(NodeSet { pins, inners }),
            Err(_) => Err(Memory),
        }
    }

    /// Adds an inner node, if it is not there.
    fn with_inner(self, inner: u32) -> Result<NodeSet, Memory>
        ensures { IfOk result
            (λ more. HaveSameNodes (nodes_in more) (nodes_in self ++ rc_inner inner ∷ [])) }
    {
        let NodeSet { pins, mut inners } = self;
        match inners.insert(inner) {
            Ok(_) => Ok(NodeSet { pins, inners }),
            Err(_) => Err(Memory),
        }
    }

    /// Adds a node, if it is not there.
    fn with_node(self, alloc: Global, node: &RcNode) -> Result<NodeSet, Memory>
        ensures { IfOk result
            (λ more. HaveSameNodes (nodes_in more) (nodes_in self ++ node.now ∷ [])) }
    {
        match node {
            RcNode::Pin(pin) => self.with_pin(alloc, pin),
            RcNode::Inner(inner) => self.with_inner(*inner),
        }
    }

    /// Adds the ends of a resistor.
    fn with_ends(self, alloc: Global, resistor: &RcRes) -> Result<NodeSet, Memory>
        ensures { IfOk result
            (λ more. HaveSameNodes (nodes_in more)
            (nodes_in self ++ resistor.now.a ∷ resistor.now.b ∷ [])) }
    {
        let first = self.with_node(alloc, &resistor.a)?;
        let both = first.with_node(alloc, &resistor.b)?;
        Ok(both)
    }

    /// Adds the ends of resistors.
    pub(crate) fn with_resistors(
        self,
        alloc: Global,
        resistors: &[RcRes],
    ) -> Result<NodeSet, Memory>
        ensures { IfOk result
            (λ more. HaveSameNodes (nodes_in more)
            (nodes_in self ++ flat_map (λ r. r.a ∷ r.b ∷ []) resistors.now)) }
    {
        let mut all = self;
        for resistor in resistors {
            all = all.with_ends(alloc, resistor)?;
        }
        Ok(all)
    }

    /// Adds the nodes of capacitances.
    pub(crate) fn with_caps(self, alloc: Global, caps: &[RcCap]) -> Result<NodeSet, Memory>
        ensures { IfOk result
            (λ more. HaveSameNodes (nodes_in more) (nodes_in self ++ map (λ c. c.node) caps.now)) }
    {
        let mut all = self;
        for cap in caps {
            all = all.with_node(alloc, &cap.node)?;
        }
        Ok(all)
    }

    /// How many nodes there are.
    pub(crate) fn len(&self) -> usize
        ensures { result ≡ different [] (nodes_in self.now) }
    {
        self.pins.len() + self.inners.len()
    }

    /// Whether a pin is there.
    pub(crate) fn has_pin(&self, pin: &Name) -> bool
        ensures { result ≡ is_node (nodes_in self.now) (rc_pin pin.now) }
    {
        self.pins.contains(pin)
    }
}
