//! The tests of a node.

ghost use Rattle.std.specs.Prelude.{◌≡◌, ◌<◌, false, IfOk, IfErr, OnOk};
ghost use Rattle.pin_graph.specs.Nodes.{node_bound};
ghost use Rattle.pin_graph.specs.RowTables.{AreRows, AreRowsFine};
ghost use Rattle.node_tests.specs.NodeTests.{AreTests, tests_numbered, is_wide_numbered, IsTestFault};

use crate::node_test::NodeTest;
use crate::outputs::output_tests;
use crate::registers::{Asked, register_tests};
use netlist_store::Store;
use pin_graph::Graph;
use std::alloc::Global;
use store_pins::{drives, own_name};
use timing_defs::{Fault, Items, Kind, Rows};

/// The tests of a node of a kind, in the order of the definition: at a data pin of a register its setup or
/// hold tests, at an output port its output delays; a node that drives a net has none, and so has a
/// number of no node. `arrivals` has the row of each node. `OutOfRange` at the node's pin exactly where a
/// setup or hold time leaves its limit. Takes as many steps as the cell has pins and tests.
pub fn node_tests<A: Rows>(
    alloc: Global,
    store: &Store,
    graph: &Graph,
    arrivals: &A,
    node: u32,
    kind: Kind,
) -> Result<Items<NodeTest>, Fault>
    requires graph { graph.now.stored ≡ store.now }
    requires node { node < node_bound store.now }
    requires rows { AreRows store.now (A.rows arrivals.now) }
    requires range { AreRowsFine store.now.design }
    ensures tests { IfOk result
        (λ tests. AreTests store.now tests (tests_numbered store.now kind node)) }
    ensures fine { OnOk result (is_wide_numbered store.now kind node ≡ false) }
    ensures err { IfErr result (IsTestFault store.now kind node) }
{
    store.laws();
    let Some(pin) = graph.pin_of(node) else {
        return Ok(Items::new(alloc));
    };
    if drives(store, pin) {
        return Ok(Items::new(alloc));
    }
    match store.inst_of(pin) {
        Some(inst) => {
            let asked = Asked {
                store,
                graph,
                kind,
                node,
                pin,
                tran: graph.tran_of(node),
                inst,
                own: own_name(store, pin),
                row: arrivals.row(node),
            };
            register_tests(alloc, &asked, arrivals)
        }
        None => {
            let delays = store.constraints().outputs.as_slice();
            let port = store.pin_name(pin);
            Ok(output_tests(alloc, delays, kind, port, graph.tran_of(node))?)
        }
    }
}
