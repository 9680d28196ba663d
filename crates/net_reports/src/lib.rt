//! The report of a net: its driver, loads, wires, sinks by name, and its parasitics as an edit gives them.
//!
//! `answers` finds the net and puts the report together. The names of its sinks come in their order from the
//! pins on the net (`orders`); each sink has its capacitances (`caps`) and the delays of the wire to it, which
//! the analysis keeps (`sinks`). `wires` sums up the resistors, and `kept` gives the parasitics as an edit does.
#![tactic(auto)]

mod answers;
mod caps;
mod kept;
mod orders;
mod sinks;
mod wires;

pub use answers::answer_net;
