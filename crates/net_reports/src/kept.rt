//! The parasitics of a net as an edit gives them.

ghost use Rattle.std.specs.Prelude.{◌≡◌, ◌∷◌, IfOk};
ghost use Rattle.std.specs.Option.{option_copied};
ghost use Rattle.timing_rules.specs.Connections.{has_items};
ghost use Rattle.net_reports.specs.Parasitics.{root_cap, has_items_alone, items_from, kept_from};

use sta_units::{Af, Again, Memory, Pair, both};
use std::alloc::Global;
use timing_defs::{Items, Name, NetRc, RcCap, RcNode};

/// A capacitance at a pin.
fn cap_at(alloc: Global, pin: &Name, cap: Af) -> Result<RcCap, Memory>
    ensures { IfOk result (λ at. at ≡ root_cap pin.now cap) }
{
    let name = pin.copied(alloc)?;
    Ok(RcCap {
        node: RcNode::Pin(name),
        cap,
    })
}

/// The capacitances of a net, with that of no node at its driver before all others.
fn caps_from(alloc: Global, root: &Name, rc: &NetRc) -> Result<Items<RcCap>, Memory>
    ensures { IfOk result (λ caps. caps ≡ root_cap root.now rc.now.lump ∷ rc.now.caps) }
{
    let mut caps = Items::with_room(alloc, rc.caps.len())?;
    caps.push(cap_at(alloc, root, rc.lump)?)?;
    for cap in rc.caps.as_slice() {
        caps.push(cap.again(alloc)?)?;
    }
    Ok(caps)
}

/// Whether a net has a capacitance at a node or a resistor.
fn has_items(rc: &NetRc) -> bool
    ensures { result ≡ has_items rc.now }
{
    0 < rc.caps.len() || 0 < rc.ress.len()
}

/// Whether each capacitance of a net is at a node, and there is one or a resistor.
fn has_items_alone(rc: &NetRc) -> bool
    ensures { result ≡ has_items_alone rc.now }
{
    !(0 < rc.lump.0) && has_items(rc)
}

/// The parasitics with each capacitance at a node: one of no node stands at the driver.
fn items_from(alloc: Global, root: &Name, rc: &NetRc) -> Result<NetRc, Memory>
    ensures { IfOk result (λ kept. kept ≡ items_from root.now rc.now) }
{
    if has_items_alone(rc) {
        return rc.again(alloc);
    }
    let rows = both(caps_from(alloc, root, rc), rc.ress.again(alloc));
    let Pair {
        one: net,
        other: rows,
    } = both(rc.net.copied(alloc), rows)?;
    let Pair {
        one: caps,
        other: ress,
    } = rows;
    Ok(NetRc {
        net,
        caps,
        ress,
        lump: Af(0),
    })
}

/// The parasitics that an edit would give a net; none without a driver or without parasitics.
pub(crate) fn kept_rc(
    alloc: Global,
    root: Option<&Name>,
    rc: Option<&NetRc>,
) -> Result<Option<NetRc>, Memory>
    ensures { IfOk result (λ kept. kept ≡ kept_from (option_copied root.entry) (option_copied rc.entry)) }
{
    match (root, rc) {
        (Some(root), Some(rc)) => {
            let kept = items_from(alloc, root, rc)?;
            Ok(Some(kept))
        }
        (Some(_), None) | (None, _) => Ok(None),
    }
}
