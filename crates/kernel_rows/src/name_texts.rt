//! Texts that are names or not, and the order of names.
//!
//!     names text |u1:Z|        the name and its copy, or `no name`
//!     names order u1:A u1:Z    whether the first comes before the second, and whether it is the same

use crate::answers::Answer;
use crate::words::{Stop, between_bars, name, parted};
use sta_units::{Memory, Pair, both};
use std::alloc::Global;
use std::str;
use timing_defs::{Name, same_name};

/// Adds a name to an answer.
fn add_name(answer: &mut Answer, name: &Name) -> Result<(), Stop> {
    match str::from_utf8(name.as_bytes()) {
        Ok(text) => answer.word(text),
        Err(_) => Err(Stop::Row),
    }
}

/// Adds a name and its copy to an answer.
fn add_twice(alloc: Global, answer: &mut Answer, name: &Name) -> Result<(), Stop> {
    add_name(answer, name)?;
    match name.copied(alloc) {
        Ok(copy) => {
            let told = add_name(answer, &copy);
            drop(copy);
            told
        }
        Err(Memory) => Err(Stop::Memory),
    }
}

fn text_row(alloc: Global, answer: &mut Answer, row: &str) -> Result<(), Stop> {
    match Name::from_bytes(alloc, between_bars(row)?.as_bytes()) {
        Ok(Some(name)) => {
            let told = add_twice(alloc, answer, &name);
            drop(name);
            told
        }
        Ok(None) => answer.word("no name"),
        Err(Memory) => Err(Stop::Memory),
    }
}

fn add_order(answer: &mut Answer, one: &Name, other: &Name) -> Result<(), Stop> {
    answer.word(if one < other {
        "before,"
    } else {
        "not before,"
    })?;
    answer.word(if same_name(one, other) {
        "the same"
    } else {
        "another"
    })
}

fn order_row(alloc: Global, answer: &mut Answer, row: &str) -> Result<(), Stop> {
    let (one, other) = parted(row, ' ')?;
    match both(name(alloc, one), name(alloc, other)) {
        Ok(Pair { one, other }) => {
            let told = add_order(answer, &one, &other);
            drop(one);
            drop(other);
            told
        }
        Err(stop) => Err(stop),
    }
}

pub(crate) fn answer(alloc: Global, answer: &mut Answer, row: &str) -> Result<(), Stop> {
    let (kind, rest) = parted(row, ' ')?;
    match kind {
        "text" => text_row(alloc, answer, rest),
        "order" => order_row(alloc, answer, rest),
        _ => Err(Stop::Row),
    }
}
