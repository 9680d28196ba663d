//! Nets and pins as texts.

use crate::words::{Stop, add, name, number, parted};
use sta_units::{Af, Mo, Pair, both};
use std::alloc::Global;
use timing_defs::{Items, NetRc, PinCap, RcCap, RcNode, RcRes};

fn pin(alloc: Global, text: &str) -> Result<PinCap, Stop> {
    let (pin, cap) = parted(text.trim(), ' ')?;
    let cap = Af(number(cap)?);
    Ok(PinCap {
        pin: name(alloc, pin)?,
        cap,
    })
}

/// Adds the pins of a text such as `d 0, s 1000`, with their capacitances in aF.
pub(crate) fn add_pins(alloc: Global, pins: &mut Items<PinCap>, text: &str) -> Result<(), Stop> {
    for part in text.split(',') {
        add(pins, pin(alloc, part)?)?;
    }
    Ok(())
}

/// The inner node of a number, or a pin.
fn node(alloc: Global, word: &str) -> Result<RcNode, Stop> {
    match word.parse::<u32>() {
        Ok(number) => Ok(RcNode::Inner(number)),
        Err(_) => Ok(RcNode::Pin(name(alloc, word)?)),
    }
}

/// Adds a resistor between two nodes to a net.
pub(crate) fn add_resistor(net: &mut NetRc, a: RcNode, b: RcNode, res: i64) -> Result<(), Stop> {
    add(&mut net.ress, RcRes { a, b, res: Mo(res) })
}

/// Adds a resistor between the nodes of two words.
fn add_resistance(alloc: Global, net: &mut NetRc, words: &[&str]) -> Result<(), Stop> {
    let [a, b, milliohms] = words else {
        return Err(Stop::Row);
    };
    let res = number(milliohms)?;
    match both(node(alloc, a), node(alloc, b)) {
        Ok(Pair { one, other }) => add_resistor(net, one, other, res),
        Err(_) => Err(Stop::Row),
    }
}

fn add_capacitance(alloc: Global, net: &mut NetRc, words: &[&str]) -> Result<(), Stop> {
    let [at, attofarads] = words else {
        return Err(Stop::Row);
    };
    let cap = Af(number(attofarads)?);
    let node = node(alloc, at)?;
    add(&mut net.caps, RcCap { node, cap })
}

/// Adds `r NODE NODE MILLIOHMS`, `c NODE ATTOFARADS` or `lump ATTOFARADS`.
fn add_part(alloc: Global, net: &mut NetRc, words: &[&str]) -> Result<(), Stop> {
    match words {
        ["r", rest @ ..] => add_resistance(alloc, net, rest),
        ["c", rest @ ..] => add_capacitance(alloc, net, rest),
        ["lump", attofarads] => {
            net.lump = Af(number(attofarads)?);
            Ok(())
        }
        _ => Err(Stop::Row),
    }
}

/// Adds the parts of a text such as `r d m 1000000, c m 10000` to a net.
pub(crate) fn add_parts(alloc: Global, net: &mut NetRc, text: &str) -> Result<(), Stop> {
    for part in text.split(',') {
        let words: Vec<&str> = part.split_whitespace().collect(alloc)?;
        let added = add_part(alloc, net, words.as_slice());
        drop(words);
        added?;
    }
    Ok(())
}

/// A net without resistors and capacitances.
pub(crate) fn bare(alloc: Global) -> Result<NetRc, Stop> {
    Ok(NetRc {
        net: name(alloc, "n")?,
        caps: Items::new(alloc),
        ress: Items::new(alloc),
        lump: Af(0),
    })
}
