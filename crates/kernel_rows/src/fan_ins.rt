//! Least slacks of small fan-ins by the search with a bound.
//!
//!     fans 0; 1 2, 2 4 / 3 9 / 3 6 / -; - - - 20; 9 11 14 20      to node 0
//!     fans 1 2; 1 2, 2 4 / 3 9 / 3 6 / -; - - - 20; 9 11 14 20    to node 1 or 2
//!
//! A row has the end, the arcs into each node, what each node offers, and a bound of each node. An
//! arc has the node that it leads from, which has a higher number, and its delay. A list without
//! items is `-`, and so is no offer or bound. The answer is the least slack of a walk to the end, or
//! `none`. That of two ends is sought in both orders.

ghost use Rattle.std.specs.Prelude.{IsTrue};
ghost use Rattle.bounded_slack.specs.Nets.{IsNet};
ghost use Rattle.kernel_rows.specs.WrittenNets.{net_of};

use crate::answers::Answer;
use crate::arc_lists::add_arcs;
use crate::words::{Stop, add, add_maybe_numbers, parted, place, three_parts};
use crate::written_nets::{Written, is_written};
use bounded_slack::{least_of_two, least_slack};
use sta_units::Memory;
use std::alloc::Global;
use timing_defs::Items;
use worst_walks::WalkArc;

/// The lists of a row.
#[derive(Drop)]
struct Lists {
    arcs: Items<Items<WalkArc>>,
    offers: Items<Option<i64>>,
    bounds: Items<Option<i64>>,
}

impl Lists {
    /// The fan-in of an end node.
    fn fan_in(&self, end: u32) -> Written<'_> {
        Written {
            end,
            arcs: self.arcs.as_slice(),
            offers: self.offers.as_slice(),
            bounds: self.bounds.as_slice(),
        }
    }
}

fn add_node(alloc: Global, nodes: &mut Items<Items<WalkArc>>, text: &str) -> Result<(), Stop> {
    let mut arcs = Items::new(alloc);
    match add_arcs(&mut arcs, text) {
        Ok(()) => add(nodes, arcs),
        Err(stop) => {
            drop(arcs);
            Err(stop)
        }
    }
}

/// Adds the arcs into each node of a text such as `1 2, 2 4 / 3 9 / -`.
fn add_nodes(alloc: Global, nodes: &mut Items<Items<WalkArc>>, text: &str) -> Result<(), Stop> {
    for node in text.split('/') {
        add_node(alloc, nodes, node)?;
    }
    Ok(())
}

/// Adds the arcs, the offers and the bounds of a row to lists.
fn add_lists(alloc: Global, lists: &mut Lists, row: &str) -> Result<(), Stop> {
    let (arcs, offers, bounds) = three_parts(row)?;
    add_nodes(alloc, &mut lists.arcs, arcs)?;
    add_maybe_numbers(&mut lists.offers, offers)?;
    add_maybe_numbers(&mut lists.bounds, bounds)
}

fn add_slack(answer: &mut Answer, slack: Option<i64>) -> Result<(), Stop> {
    match slack {
        Some(slack) => answer.value(slack),
        None => answer.word("none"),
    }
}

/// Adds the least slack to one end.
fn add_least(alloc: Global, answer: &mut Answer, fan: &Written<'_>) -> Result<(), Stop> {
    if !is_written(fan) {
        return Err(Stop::Row);
    }
    match least_slack(alloc, fan) {
        Ok(slack) => add_slack(answer, slack),
        Err(Memory) => Err(Stop::Memory),
    }
}

/// Adds the least slack to either of two ends.
fn add_either(
    alloc: Global,
    answer: &mut Answer,
    one: &Written<'_>,
    other: &Written<'_>,
) -> Result<(), Stop> {
    if !is_written(one) || !is_written(other) {
        return Err(Stop::Row);
    }
    match least_of_two(alloc, one, other) {
        Ok(slack) => add_slack(answer, slack),
        Err(Memory) => Err(Stop::Memory),
    }
}

/// Adds the least slack to the ends of a text.
fn add_ends(alloc: Global, answer: &mut Answer, lists: &Lists, ends: &str) -> Result<(), Stop> {
    match ends.split_once(' ') {
        None => add_least(alloc, answer, &lists.fan_in(place(ends)?)),
        Some((one, other)) => {
            let one = lists.fan_in(place(one)?);
            let other = lists.fan_in(place(other)?);
            add_either(alloc, answer, &one, &other)?;
            add_either(alloc, answer, &other, &one)
        }
    }
}

pub(crate) fn answer(alloc: Global, answer: &mut Answer, row: &str) -> Result<(), Stop> {
    let (ends, rest) = parted(row, ';')?;
    let mut lists = Lists {
        arcs: Items::new(alloc),
        offers: Items::new(alloc),
        bounds: Items::new(alloc),
    };
    let told = match add_lists(alloc, &mut lists, rest) {
        Ok(()) => add_ends(alloc, answer, &lists, ends),
        Err(stop) => Err(stop),
    };
    drop(lists);
    told
}
