//! Credits and paths of small clock trees.
//!
//!     trees buffer credit 3 4    the credit in fs of two places of a tree below
//!     trees buffer path 3        the places from the root to one

ghost use Rattle.std.specs.Prelude.{◌≡◌, ◌<◌, length, IfOk};
ghost use Rattle.pessimism_credit.specs.Credit.{IsTree};

use crate::answers::Answer;
use crate::words::{Stop, parted, place};
use pessimism_credit::{ClockTree, TreeRow};
use sta_units::{Fs, Memory};
use std::alloc::Global;
use timing_defs::Items;

const fn row(parent: Option<u32>, early: i64, late: i64) -> TreeRow
    ensures parent { result.parent ≡ parent }
    ensures early { result.early.0 ≡ early }
    ensures late { result.late.0 ≡ late }
{
    TreeRow {
        parent,
        early: Fs(early),
        late: Fs(late),
    }
}

/// A clock port, a buffer's two pins and two clock pins after it.
fn buffer(alloc: Global) -> Result<Items<TreeRow>, Memory>
    ensures tree { IfOk result IsTree }
    ensures count { IfOk result (λ rows. length rows ≡ 5) }
{
    let rows = [
        row(None, 0, 0),
        row(Some(0), 0, 0),
        row(Some(1), 10_000, 14_000),
        row(Some(2), 10_000, 14_000),
        row(Some(2), 10_000, 14_000),
    ];
    Items::from_slice(alloc, &rows)
}

/// Two trees: one with a fork at its root, and a root alone whose early arrival is the later.
fn forest(alloc: Global) -> Result<Items<TreeRow>, Memory>
    ensures tree { IfOk result IsTree }
    ensures count { IfOk result (λ rows. length rows ≡ 5) }
{
    let rows = [
        row(None, 0, 1),
        row(Some(0), 2, 5),
        row(None, 9, 5),
        row(Some(1), 10, 20),
        row(Some(0), 7, 14),
    ];
    Items::from_slice(alloc, &rows)
}

/// Adds what a tree of five places tells.
fn add_told(alloc: Global, answer: &mut Answer, tree: &ClockTree, asked: &str) -> Result<(), Stop>
    requires { length tree.now ≡ 5 }
{
    let (kind, rest) = parted(asked, ' ')?;
    match kind {
        "credit" => add_credit(answer, tree, rest),
        "path" => add_path(alloc, answer, tree, rest),
        _ => Err(Stop::Row),
    }
}

/// The place of a word, where it is one of five.
fn one_of_five(word: &str) -> Result<u32, Stop>
    ensures { IfOk result (λ place. place < 5) }
{
    let place = place(word)?;
    if place < 5 { Ok(place) } else { Err(Stop::Row) }
}

fn add_credit(answer: &mut Answer, tree: &ClockTree, places: &str) -> Result<(), Stop>
    requires { length tree.now ≡ 5 }
{
    let (one, other) = parted(places, ' ')?;
    let credit = tree.credit(one_of_five(one)?, one_of_five(other)?);
    answer.value(credit.0)
}

fn add_path(alloc: Global, answer: &mut Answer, tree: &ClockTree, to: &str) -> Result<(), Stop>
    requires { length tree.now ≡ 5 }
{
    match tree.path_to(alloc, one_of_five(to)?) {
        Ok(path) => answer.places(path.as_slice()),
        Err(Memory) => Err(Stop::Memory),
    }
}

/// The rows of the tree of a name.
fn named_rows(alloc: Global, name: &str) -> Result<Items<TreeRow>, Stop>
    ensures tree { IfOk result IsTree }
    ensures count { IfOk result (λ rows. length rows ≡ 5) }
{
    let rows = match name {
        "buffer" => buffer(alloc),
        "forest" => forest(alloc),
        _ => return Err(Stop::Row),
    };
    match rows {
        Ok(rows) => Ok(rows),
        Err(Memory) => Err(Stop::Memory),
    }
}

pub(crate) fn answer(alloc: Global, answer: &mut Answer, row: &str) -> Result<(), Stop> {
    let (name, asked) = parted(row, ' ')?;
    let rows = named_rows(alloc, name)?;
    let told = match ClockTree::of(alloc, &rows) {
        Ok(tree) => {
            let told = add_told(alloc, answer, &tree, asked);
            drop(tree);
            told
        }
        Err(Memory) => Err(Stop::Memory),
    };
    drop(rows);
    told
}
