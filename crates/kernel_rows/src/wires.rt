//! Loads, delays, impulses and faults of nets.
//!
//!     wires net r d m 1000000, c m 10000, lump 200; d 0, m 0    parts, and pins in aF
//!     wires chain 65534 7                                       a chain of nodes and 7 mΩ more
//!
//! A part is a resistor between two nodes in mΩ, a capacitance at a node in aF, or the lumped one.
//! A node with a number for its name is no pin, and the pin d is the root. The answer is the load
//! in aF and then, for each pin, the delay in fs and the impulse in fs² of the wire to it. Where
//! there is a fault, the answer is the first: a loop comes before nodes that are not reached, and
//! those before a number out of range.

use crate::answers::Answer;
use crate::measures::is_measured;
use crate::nets::{add_parts, add_pins, add_resistor, bare};
use crate::words::{Stop, name, number, parted, place};
use rc_tree::{RcFault, Tree};
use std::alloc::Global;
use timing_defs::{Items, Name, NetRc, PinCap, RcNode};

/// Adds the delay and the impulse of the wire to a pin, or that it is no node.
fn add_wire(answer: &mut Answer, tree: &Tree, pin: &Name) -> Result<(), Stop> {
    answer.push(";")?;
    match tree.find(pin) {
        Some(node) => {
            answer.value(tree.delay(node).0)?;
            answer.value(tree.impulse(node))
        }
        None => answer.word("none"),
    }
}

/// Adds the load, and the wires to all pins.
fn add_tree(answer: &mut Answer, tree: &Tree, pins: &[PinCap]) -> Result<(), Stop> {
    answer.value(tree.load().0)?;
    for pin in pins {
        add_wire(answer, tree, &pin.pin)?;
    }
    Ok(())
}

fn fault_word(fault: RcFault) -> Result<&'static str, Stop> {
    match fault {
        RcFault::Loop => Ok("loop"),
        RcFault::Unreached => Ok("unreached"),
        RcFault::TooLarge => Ok("too large"),
        RcFault::OutOfRange => Ok("out of range"),
        RcFault::Memory => Err(Stop::Memory),
    }
}

/// Adds what the tree of a net from a root tells, or its fault.
fn add_told(
    alloc: Global,
    answer: &mut Answer,
    net: &NetRc,
    root: &Name,
    pins: &Items<PinCap>,
) -> Result<(), Stop> {
    if !is_measured(net, root, pins.as_slice()) {
        return Err(Stop::Row);
    }
    match Tree::of(alloc, net, root, pins) {
        Ok(tree) => add_tree(answer, &tree, pins.as_slice()),
        Err(fault) => answer.word(fault_word(fault)?),
    }
}

/// The same of a net with the pins of a text, from d.
fn add_net(alloc: Global, answer: &mut Answer, net: &NetRc, listed: &str) -> Result<(), Stop> {
    let mut pins = Items::new(alloc);
    add_pins(alloc, &mut pins, listed)?;
    let root = name(alloc, "d")?;
    add_told(alloc, answer, net, &root, &pins)
}

fn net_row(alloc: Global, answer: &mut Answer, row: &str) -> Result<(), Stop> {
    let (parts, listed) = parted(row, ';')?;
    let mut net = bare(alloc)?;
    add_parts(alloc, &mut net, parts)?;
    add_net(alloc, answer, &net, listed)
}

/// Adds a resistor from the inner node of a number to the next.
fn add_link(net: &mut NetRc, number: u32, milliohms: i64) -> Result<(), Stop> {
    let next = RcNode::Inner(number.saturating_add(1));
    add_resistor(net, RcNode::Inner(number), next, milliohms)
}

/// Adds a chain of inner nodes after the root, by resistors of 1 mΩ.
fn add_chain(alloc: Global, net: &mut NetRc, nodes: u32) -> Result<(), Stop> {
    add_parts(alloc, net, "r d 1 1")?;
    for number in 1..nodes {
        add_link(net, number, 1)?;
    }
    Ok(())
}

fn chain_row(alloc: Global, answer: &mut Answer, row: &str) -> Result<(), Stop> {
    let mut net = bare(alloc)?;
    let mut words = row.split_whitespace();
    let mut nodes = match words.next() {
        Some(word) => place(word)?,
        None => return Err(Stop::Row),
    };
    add_chain(alloc, &mut net, nodes)?;
    for word in words {
        add_link(&mut net, nodes, number(word)?)?;
        nodes = nodes.saturating_add(1);
    }
    add_net(alloc, answer, &net, "d 0")
}

pub(crate) fn answer(alloc: Global, answer: &mut Answer, row: &str) -> Result<(), Stop> {
    let (kind, rest) = parted(row, ' ')?;
    match kind {
        "net" => net_row(alloc, answer, rest),
        "chain" => chain_row(alloc, answer, rest),
        _ => Err(Stop::Row),
    }
}
