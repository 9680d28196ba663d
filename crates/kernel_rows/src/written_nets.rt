//! Fan-ins written node by node, as a search with a bound asks for them, and a check of them.

ghost use Rattle.std.specs.Prelude.{◌≡◌, ℕ, ◌<◌, ◌≤◌, IsTrue, All, length, slice_index_or, None};
ghost use Rattle.sta_units.specs.Numbers.{Within};
ghost use Rattle.bounded_slack.specs.Nets.{arcs_into, bound_of, IsArcInto, IsFalling, IsLow, IsNet};
ghost use Rattle.kernel_rows.specs.WrittenNets.{net_of, falls, is_under, IsPlace};

use crate::checked_cones::are_apart;
use bounded_slack::Fan;
use sta_units::Memory;
use std::alloc::Global;
use timing_defs::Items;
use worst_walks::WalkArc;

/// The fan-in of an end node: the arcs into each node, from nodes of higher numbers, and what each
/// node offers and its bound, in fs.
#[derive(Clone, Copy, Drop)]
pub(crate) struct Written<'a> {
    pub(crate) end: u32,
    pub(crate) arcs: &'a [Items<WalkArc>],
    pub(crate) offers: &'a [Option<i64>],
    pub(crate) bounds: &'a [Option<i64>],
}

/// The value of a node; none past the end of the list.
pub(crate) fn value_at(values: &[Option<i64>], node: u32) -> Option<i64>
    ensures { result ≡ slice_index_or values.now node None }
{
    match values.get(node as usize) {
        Some(value) => *value,
        None => None,
    }
}

impl Fan for Written<'_> {
    ghost use Rattle.kernel_rows.specs.WrittenNets.{net_of};

    ghost net = { net_of };

    fn end(&self) -> u32 {
        self.end
    }

    fn level(&self, node: u32) -> u32 {
        4_194_303u32.saturating_sub(node)
    }

    fn bound(&self, node: u32) -> Option<i64> {
        value_at(self.bounds, node)
    }

    fn arcs_into(&self, alloc: Global, node: u32) -> Result<Items<WalkArc>, Memory> {
        Items::from_slice(alloc, arcs_at(self, node))
    }

    fn offer(&self, _alloc: Global, node: u32, _arcs: &[WalkArc]) -> Result<Option<i64>, Memory> {
        Ok(value_at(self.offers, node))
    }
}

/// Whether a number is in the range of offers and bounds.
fn is_low(value: Option<i64>) -> bool
    ensures { IsTrue result → IsLow value }
{
    match value {
        None => true,
        Some(x) => x.unsigned_abs() <= 1_000_000_000_000_000_000,
    }
}

/// Whether a bound is at most an offer.
fn is_under(offer: Option<i64>, bound: Option<i64>) -> bool
    ensures { result ≡ is_under offer bound }
{
    match (offer, bound) {
        (None, _) => true,
        (Some(_), None) => false,
        (Some(most), Some(least)) => least <= most,
    }
}

/// Whether the bound behind an arc is at most the one before it, less the delay.
fn falls(before: Option<i64>, here: Option<i64>, arc: WalkArc) -> bool
    requires here { IsLow here }
    requires delay { Within arc.delay }
    ensures { result ≡ falls before here arc.delay }
{
    match (before, here) {
        (None, _) => true,
        (Some(_), None) => false,
        (Some(most), Some(least)) => least + arc.delay <= most,
    }
}

/// Whether an arc leads from a node of a higher number, with a delay in range.
fn leads(fan: &Written<'_>, node: u32, arc: WalkArc) -> bool
    requires { length fan.now.arcs.now ≤ 4194303 }
    ensures { IsTrue result → IsArcInto (net_of fan.now) node arc }
{
    let from = arc.from as usize;
    (node as usize) < from && from < fan.arcs.len() && arc.delay.unsigned_abs() <= 1_000_000_000_000
}

/// Whether an arc into a node leads to it, and the bound falls along it.
fn is_arc(fan: &Written<'_>, node: u32, arc: WalkArc) -> bool
    requires few { length fan.now.arcs.now ≤ 4194303 }
    requires here { IsLow (bound_of (net_of fan.now) node) }
    ensures into { IsTrue result → IsArcInto (net_of fan.now) node arc }
    ensures falling { IsTrue result → IsFalling (net_of fan.now) node arc }
{
    if !leads(fan, node, arc) {
        return false;
    }
    let before = value_at(fan.bounds, arc.from);
    let here = value_at(fan.bounds, node);
    falls(before, here, arc)
}

/// Whether all arcs into a node are.
fn are_arcs(fan: &Written<'_>, node: u32, arcs: &[WalkArc]) -> bool
    requires few { length fan.now.arcs.now ≤ 4194303 }
    requires here { IsLow (bound_of (net_of fan.now) node) }
    ensures into { IsTrue result → All (IsArcInto (net_of fan.now) node) arcs.now }
    ensures falling { IsTrue result → All (IsFalling (net_of fan.now) node) arcs.now }
{
    for arc in arcs {
        if !is_arc(fan, node, *arc) {
            return false;
        }
    }
    true
}

/// The arcs into a node.
fn arcs_at<'a>(fan: &Written<'a>, node: u32) -> &'a [WalkArc]
    requires { node < length fan.now.arcs.now }
    ensures { result.now ≡ arcs_into (net_of fan.now) node }
{
    fan.arcs[node as usize].as_slice()
}

/// Whether a node is as a search wants it.
fn is_place(fan: &Written<'_>, node: u32) -> bool
    requires few { length fan.now.arcs.now ≤ 4194303 }
    requires node { node < length fan.now.arcs.now }
    ensures { IsTrue result → IsPlace (net_of fan.now) node }
{
    let offer = value_at(fan.offers, node);
    let bound = value_at(fan.bounds, node);
    let arcs = arcs_at(fan, node);
    if !is_low(offer) || !is_low(bound) || !is_under(offer, bound) || !are_apart(arcs) {
        return false;
    }
    are_arcs(fan, node, arcs)
}

/// Whether all nodes are.
fn are_places(fan: &Written<'_>) -> bool
    requires { length fan.now.arcs.now ≤ 4194303 }
    ensures { IsTrue result → (n : ℕ) → n < length fan.now.arcs.now → IsPlace (net_of fan.now) n }
{
    for node in 0..fan.arcs.len() {
        if !is_place(fan, node as u32) {
            return false;
        }
    }
    true
}

/// Whether a fan-in is as a search wants it, with bounds that are bounds.
pub(crate) fn is_written(fan: &Written<'_>) -> bool
    ensures { IsTrue result → IsNet (net_of fan.now) }
{
    if fan.arcs.len() > 4_194_303 || fan.end as usize >= fan.arcs.len() {
        return false;
    }
    are_places(fan)
}
