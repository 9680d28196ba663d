//! What paths are searched in.

use netlist_store::Store;
use pessimism_credit::ClockTree;
use pin_graph::Graph;
use timing_defs::Kind;

/// What paths of a kind are searched in: a store with its graph, the rows of its nodes with the delays
/// of arcs (times in fs), and its clock tree. A search asks that all are of one sound design.
#[derive(Drop)]
pub struct Sources<'a, A> {
    pub store: &'a Store,
    pub graph: &'a Graph,
    pub arrivals: &'a A,
    pub tree: &'a ClockTree,
    pub kind: Kind,
}
