//! The row of a node, from the rows of the nodes before it: what the arcs of cells and wires give,
//! what the constraints say of ports, and the slews and arrivals that are merged of these. The delays of
//! the arcs into the node, each found once, come with its row.
#![tactic(auto)]

mod arcs;
mod delays;
mod entries;
mod found_nets;
mod loads;
mod merges;
mod net_trees;
mod pin_wires;
mod pins;
mod ports;
mod rows;
mod scaling;
mod settings;
mod unfit;
mod values;
mod wire_tables;
mod wire_updates;

pub use arcs::{ArcEnds, ArcValues, arc_values, outer_some};
pub use delays::BothDelays;
pub use merges::{plus_some, time_on, times_in};
pub use pin_wires::{NetLoad, PinWire, SinkWire, Wires};
pub use ports::Ports;
pub use rows::{RowAndDelays, node_row};
pub use settings::{Before, NodeAt, Setting, Wired};
pub use values::slew_in;
