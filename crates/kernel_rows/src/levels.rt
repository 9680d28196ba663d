//! Levels and cycles of graphs.
//!
//!     levels 3; 0 1, 1 2, 0 2    so many nodes and the arcs between them: `levels 0 1 2`
//!     levels 2; 0 1, 1 0         the nodes of a cycle: `cycle 0 1`
//!     levels 2; -                no arc: `levels 0 0`

ghost use Rattle.std.specs.Prelude.{IsTrue};
ghost use Rattle.levelizer.specs.Levels.{AreWithin};

use crate::answers::Answer;
use crate::words::{Stop, add, is_none, parted, place};
use levelizer::{LevelFault, Link, levels};
use std::alloc::Global;
use timing_defs::Items;

/// The arc of a text such as `0 1`.
fn link(text: &str) -> Result<Link, Stop> {
    let (from, to) = parted(text.trim(), ' ')?;
    Ok(Link {
        from: place(from)?,
        to: place(to)?,
    })
}

fn add_links(links: &mut Items<Link>, text: &str) -> Result<(), Stop> {
    if is_none(text) {
        return Ok(());
    }
    for part in text.split(',') {
        add(links, link(part)?)?;
    }
    Ok(())
}

/// Whether all arcs are between nodes below a number.
fn are_within(nodes: u32, links: &[Link]) -> bool
    ensures { IsTrue result → AreWithin nodes links.now }
{
    for link in links {
        if link.from >= nodes || link.to >= nodes {
            return false;
        }
    }
    true
}

/// Adds a word and nodes.
fn add_nodes(answer: &mut Answer, word: &str, nodes: &[u32]) -> Result<(), Stop> {
    answer.word(word)?;
    answer.places(nodes)
}

fn add_levels(alloc: Global, answer: &mut Answer, nodes: u32, links: &[Link]) -> Result<(), Stop> {
    if !are_within(nodes, links) {
        return Err(Stop::Row);
    }
    match levels(alloc, nodes, links) {
        Ok(levels) => {
            let told = add_nodes(answer, "levels", levels.as_slice());
            drop(levels);
            told
        }
        Err(LevelFault::Cycle(cycle)) => {
            let told = add_nodes(answer, "cycle", cycle.as_slice());
            drop(cycle);
            told
        }
        Err(LevelFault::Memory) => Err(Stop::Memory),
    }
}

pub(crate) fn answer(alloc: Global, answer: &mut Answer, row: &str) -> Result<(), Stop> {
    let (nodes, arcs) = parted(row, ';')?;
    let nodes = place(nodes)?;
    let mut links = Items::new(alloc);
    let told = match add_links(&mut links, arcs) {
        Ok(()) => add_levels(alloc, answer, nodes, links.as_slice()),
        Err(stop) => Err(stop),
    };
    drop(links);
    told
}
