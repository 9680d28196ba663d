//! The nodes whose row after an ECO is another than the base's.

ghost use Rattle.std.specs.Prelude.{◌≡◌, ◌++◌, ◌<◌, length, filter, if◌then◌else◌, [], ◌∷◌, IfOk, OnOk};
ghost use Rattle.timing_rules.specs.Cones.{row_differs};
ghost use Rattle.netlist_store.specs.Applying.{IsEditOf};
ghost use Rattle.pin_graph.specs.Graphs.{of_node};
ghost use Rattle.pin_graph.specs.RowTables.{AreRows};
ghost use Rattle.arrival_engine.specs.Updated.{AreArrivals, AreOther, is_other};

use crate::tables::Arrivals;
use crate::updates::{has_node, is_moved};
use cow_table::CowTable;
use netlist_store::Touched;
use pin_graph::Graph;
use sta_units::Memory;
use std::alloc::Global;
use timing_defs::{Items, NodeRow};

/// The rows of a base and of the store that an ECO made of it.
#[derive(Drop)]
struct Both<'a> {
    base: &'a Graph,
    graph: &'a Graph,
    before: &'a CowTable<NodeRow>,
    after: &'a CowTable<NodeRow>,
}

/// Whether a number is that of a node of the edited store whose row is another than the base's.
fn is_other(both: &Both<'_>, node: u32) -> bool
    requires rows { AreRows both.now.graph.now.stored both.now.after.now }
    ensures { result
        ≡ is_other both.now.base.now.stored both.now.graph.now.stored both.now.before.now node }
{
    has_node(both.graph, node)
        && ((node as usize) >= both.before.len()
            || is_moved(both.base, both.before, node, both.after.get(node as usize)))
}

/// Adds a node, where its row is another.
fn add_other(found: &mut Items<u32>, both: &Both<'_>, node: u32) -> Result<(), Memory>
    requires rows { AreRows both.now.graph.now.stored both.now.after.now }
    ensures { OnOk result
        (found.new
        ≡ found.old ++
        (if is_other both.now.base.now.stored both.now.graph.now.stored both.now.before.now node
        then node ∷ [] else [])) }
{
    if is_other(both, node) {
        found.push(node)?;
    }
    Ok(())
}

/// Those of some nodes whose row is another.
fn others(alloc: Global, both: &Both<'_>, nodes: &[u32]) -> Result<Items<u32>, Memory>
    requires rows { AreRows both.now.graph.now.stored both.now.after.now }
    ensures { IfOk result
        (λ found. found
        ≡ filter (is_other both.now.base.now.stored both.now.graph.now.stored both.now.before.now)
        nodes.now) }
{
    let mut found = Items::new(alloc);
    for node in nodes {
        add_other(&mut found, both, *node)?;
    }
    Ok(found)
}

impl Arrivals {
    /// Those of some nodes of the store that an ECO made of the base's store whose slews or arrivals are
    /// others than the base's, or which the base lacks; `before` is the base's graph, `graph` that of the
    /// edited store.
    pub fn moved(
        &self,
        alloc: Global,
        base: &Arrivals,
        before: &Graph,
        graph: &Graph,
        touched: &Touched,
        nodes: &[u32],
    ) -> Result<Items<u32>, Memory>
        requires made { IsEditOf before.now.stored
            (record { insts = touched.now.insts; nets = touched.now.nets }) graph.now.stored }
        requires was { AreArrivals before.now.stored base.now }
        requires rows { AreRows graph.now.stored self.now.rows }
        ensures { IfOk result (AreOther before.now.stored graph.now.stored nodes.now) }
    {
        // What was touched is asked for by the contract alone.
        let _ = touched;
        before.laws();
        graph.laws();
        before.store().laws();
        graph.store().laws();
        let both = Both {
            base: before,
            graph,
            before: &base.rows,
            after: &self.rows,
        };
        others(alloc, &both, nodes)
    }
}
