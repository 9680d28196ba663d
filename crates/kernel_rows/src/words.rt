//! The words of a row: numbers, lists of them, and parts.

use sta_units::Memory;
use std::alloc::{AllocError, AllocFailed, Global};
use timing_defs::{Items, Name};

/// Why a row has no answer: it is in no known form, or memory is wanting.
#[derive(Clone, Copy, Drop)]
pub(crate) enum Stop {
    Row,
    Memory,
}

impl From<Memory> for Stop {
    fn from(_wanting: Memory) -> Stop {
        Stop::Memory
    }
}

impl From<AllocError> for Stop {
    fn from(_refused: AllocError) -> Stop {
        Stop::Memory
    }
}

impl<T: Drop> From<AllocFailed<T>> for Stop {
    fn from(_refused: AllocFailed<T>) -> Stop {
        Stop::Memory
    }
}

/// The parts of a text before and after a mark.
pub(crate) fn parted(text: &str, mark: char) -> Result<(&str, &str), Stop> {
    match text.split_once(mark) {
        Some(parts) => Ok(parts),
        None => Err(Stop::Row),
    }
}

/// The parts of a text before, between and after two semicolons.
pub(crate) fn three_parts(text: &str) -> Result<(&str, &str, &str), Stop> {
    let (first, rest) = parted(text, ';')?;
    match parted(rest, ';') {
        Ok((second, third)) => Ok((first, second, third)),
        Err(stop) => Err(stop),
    }
}

/// The text between two bars.
pub(crate) fn between_bars(text: &str) -> Result<&str, Stop> {
    match text.strip_prefix('|') {
        Some(rest) => match rest.strip_suffix('|') {
            Some(inner) => Ok(inner),
            None => Err(Stop::Row),
        },
        None => Err(Stop::Row),
    }
}

/// Whether a text says that a list has no items.
pub(crate) fn is_none(text: &str) -> bool {
    text.trim() == "-"
}

pub(crate) fn number(word: &str) -> Result<i64, Stop> {
    match word.trim().parse::<i64>() {
        Ok(number) => Ok(number),
        Err(_) => Err(Stop::Row),
    }
}

/// A number of a node, a place or a session.
pub(crate) fn place(word: &str) -> Result<u32, Stop> {
    match word.trim().parse::<u32>() {
        Ok(place) => Ok(place),
        Err(_) => Err(Stop::Row),
    }
}

/// A number, or none for `-`.
pub(crate) fn maybe_number(word: &str) -> Result<Option<i64>, Stop> {
    if is_none(word) {
        Ok(None)
    } else {
        Ok(Some(number(word)?))
    }
}

/// A pair of numbers, such as `3 -20`: a place and an amount.
pub(crate) fn place_and_amount(text: &str) -> Result<(u32, i64), Stop> {
    let (first, second) = parted(text.trim(), ' ')?;
    Ok((place(first)?, number(second)?))
}

/// Adds an item to a list.
pub(crate) fn add<T: Drop>(items: &mut Items<T>, item: T) -> Result<(), Stop> {
    match items.push(item) {
        Ok(()) => Ok(()),
        Err(Memory) => Err(Stop::Memory),
    }
}

/// Adds the places of a text to a list.
pub(crate) fn add_places(places: &mut Items<u32>, text: &str) -> Result<(), Stop> {
    for word in text.split_whitespace() {
        places.push(place(word)?)?;
    }
    Ok(())
}

/// Adds the numbers of a text to a list, none for each `-`.
pub(crate) fn add_maybe_numbers(numbers: &mut Items<Option<i64>>, text: &str) -> Result<(), Stop> {
    for word in text.split_whitespace() {
        add(numbers, maybe_number(word)?)?;
    }
    Ok(())
}

pub(crate) fn name(alloc: Global, word: &str) -> Result<Name, Stop> {
    match Name::from_bytes(alloc, word.as_bytes()) {
        Ok(Some(name)) => Ok(name),
        Ok(None) => Err(Stop::Row),
        Err(Memory) => Err(Stop::Memory),
    }
}
