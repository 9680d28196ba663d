//! Worst walks of small cones.
//!
//!     walks 0 2 3 4 4; 1 2, 2 4, 3 9, 3 6; 0: 3 20, 1 5 / 1: -; 8 5 1 3
//!
//! A row tells where the arcs into each node begin, and where the last end; the arcs, each by the
//! node that it leads from and its delay; the end nodes, each with its launches by node and offer;
//! and a rank for each node, which orders walks that tie. The answer is the slack, the end, the
//! launch and the nodes of the worst walk, or `no walk`.

use crate::answers::Answer;
use crate::arc_lists::add_arcs;
use crate::checked_cones::{are_ordered, is_sound};
use crate::words::{Stop, add_places, is_none, parted, place, place_and_amount};
use sta_units::Memory;
use std::alloc::Global;
use timing_defs::Items;
use worst_walks::{Cone, Launch, Walk, WalkEnd, WalkOrder, worst_walk};

/// Nodes by ranks. The first four are those of a cone; `launch + 4` comes before a launch's node.
#[derive(Clone, Copy, Drop)]
struct ByRank<'a> {
    ranks: &'a [u32],
}

impl WalkOrder for ByRank<'_> {
    ghost use Rattle.std.specs.Prelude.{nat_lt, ◌+◌, ◌&&◌, [], ◌∷◌, length, slice_index, if◌then◌else◌};

    ghost count = { λ order. length order.ranks.now };

    ghost rank = { λ order n. slice_index order.ranks.now n };

    ghost before = { λ order launch. if nat_lt launch 4 && nat_lt (launch + 4)
        (length order.ranks.now) then (launch + 4) ∷ [] else [] };

    fn comes_first(&self, one: u32, other: u32) -> bool {
        self.ranks[one as usize] < self.ranks[other as usize]
    }

    fn nodes_before(&self, alloc: Global, launch: u32) -> Result<Items<u32>, Memory> {
        let mut nodes = Items::new(alloc);
        if launch < 4 && launch as usize + 4 < self.ranks.len() {
            nodes.push(launch + 4)?;
        }
        Ok(nodes)
    }
}

/// Adds the launches of a text such as `3 20, 1 5`; `-` has none.
fn add_launches(launches: &mut Items<Launch>, text: &str) -> Result<(), Stop> {
    if is_none(text) {
        return Ok(());
    }
    for part in text.split(',') {
        let (node, offer) = place_and_amount(part)?;
        launches.push(Launch { node, offer })?;
    }
    Ok(())
}

fn add_end(alloc: Global, ends: &mut Items<WalkEnd>, text: &str) -> Result<(), Stop> {
    let (node, offers) = parted(text, ':')?;
    let node = place(node)?;
    let mut launches = Items::new(alloc);
    add_launches(&mut launches, offers)?;
    ends.push(WalkEnd { node, launches })?;
    Ok(())
}

/// A cone without nodes.
fn bare(alloc: Global) -> Cone {
    Cone {
        count: 0,
        starts: Items::new(alloc),
        arcs: Items::new(alloc),
        ends: Items::new(alloc),
    }
}

/// The number of nodes that so many starts make: one less.
fn count_by(starts: usize) -> Result<u32, Stop> {
    match u32::try_from(starts) {
        Ok(starts) => Ok(starts.saturating_sub(1)),
        Err(_) => Err(Stop::Row),
    }
}

/// Adds the starts, the arcs and the ends of a row to a cone.
fn add_parts(alloc: Global, cone: &mut Cone, row: &str) -> Result<(), Stop> {
    let (starts, rest) = parted(row, ';')?;
    let (arcs, ends) = parted(rest, ';')?;
    add_places(&mut cone.starts, starts)?;
    cone.count = count_by(cone.starts.len())?;
    add_arcs(&mut cone.arcs, arcs)?;
    for end in ends.split('/') {
        add_end(alloc, &mut cone.ends, end)?;
    }
    Ok(())
}

fn add_walk(answer: &mut Answer, walk: &Walk) -> Result<(), Stop> {
    answer.pair("slack", walk.slack)?;
    answer.pair("end", walk.end)?;
    answer.pair("launch", walk.launch)?;
    answer.word("by")?;
    answer.places(walk.nodes.as_slice())
}

/// Adds what a search answers of a cone, where it is sound.
fn add_worst(alloc: Global, answer: &mut Answer, cone: &Cone, ranks: &[u32]) -> Result<(), Stop> {
    if !is_sound(cone) || !are_ordered(cone, ranks) {
        return Err(Stop::Row);
    }
    match worst_walk(alloc, cone, &ByRank { ranks }) {
        Ok(Some(walk)) => add_walk(answer, &walk),
        Ok(None) => answer.word("no walk"),
        Err(Memory) => Err(Stop::Memory),
    }
}

pub(crate) fn answer(alloc: Global, answer: &mut Answer, row: &str) -> Result<(), Stop> {
    let Some((parts, order)) = row.rsplit_once(';') else {
        return Err(Stop::Row);
    };
    let mut ranks = Items::new(alloc);
    add_places(&mut ranks, order)?;
    let mut cone = bare(alloc);
    match add_parts(alloc, &mut cone, parts) {
        Ok(()) => add_worst(alloc, answer, &cone, ranks.as_slice()),
        Err(stop) => Err(stop),
    }
}
