//! The timing graph of a design over the numbers of a store, and its checks: that no walk over its arcs
//! is cyclic, and that its clock network is a tree.
//!
//! The rise node of the pin with the number `n` has the number `2 n`, its fall node `2 n + 1`; a number
//! whose pin is a gap is no node. Arcs are first found between pins (`drivers`, `pin_arcs`), with the
//! pins' levels (`loops`), the clock network (`networks`) and its tree (`trees`). From these come the
//! arcs between nodes that stand (`node_arcs`), one for several between the same two nodes (`merging`),
//! side by side by their ends (`fans`), the nodes' levels (`node_levels`) and the places of the clock
//! network's nodes (`places`). All stands in `tables` whose copies share what neither changes; what holds
//! of them is stated of each pin and each node alone. A `Graph` keeps a copy of its store, which shares the
//! store's tables. Where an ECO left all links (`keeping`) the graph after it shares the tables of that
//! before it; `pulls` finds the links of one pin, `relinking` the arcs into some nodes anew (`held_fans`), and
//! `pin_rules` and `node_rules` give pins and nodes their levels again, and pins their flags (`settling`).
//! `seeding` finds the nodes at which an update of an analysis begins.
#![tactic(auto)]

mod arcs;
mod drivers;
mod fans;
mod graphs;
mod held_fans;
mod keeping;
mod loops;
mod merging;
mod networks;
mod node_arcs;
mod node_levels;
mod node_rules;
mod nodes;
mod pin_arcs;
mod pin_links;
mod pin_rules;
mod pins;
mod places;
mod pulls;
mod relinking;
mod replacing;
mod seeding;
mod tables;
mod trees;
mod updates;

pub use arcs::{GraphArc, GraphKind};
pub use graphs::Graph;
pub use seeding::{gone_pins, seeds};
