//! The documents of the rows.

use crate::lines::Lines;
use sta_outside::MemShelf;
use std::alloc::{AllocError, Global};

/// Documents, by their names.
#[derive(Drop)]
pub(crate) struct Documents {
    names: Vec<String>,
    texts: Vec<Vec<u8>>,
}

/// A line with its number, counted from 0 and from 1.
fn with_numbers(alloc: Global, text: &str, number: u32) -> Result<String, AllocError> {
    let first = format!(in alloc; "{number}")?;
    let then = format!(in alloc; "{}", number.saturating_add(1))?;
    let half = text.replace(alloc, "<0>", first.as_str())?;
    half.as_str().replace(alloc, "<1>", then.as_str())
}

/// Adds a line with its number.
fn add_numbered(
    text: &mut Vec<u8>,
    alloc: Global,
    line: &str,
    number: u32,
) -> Result<(), AllocError> {
    let line = with_numbers(alloc, line, number)?;
    text.extend_from_slice(line.as_bytes())
}

/// Adds the line of a number.
fn add_line(
    text: &mut Vec<u8>,
    alloc: Global,
    lines: &Lines<'_>,
    number: u32,
) -> Result<(), AllocError> {
    if lines.numbered {
        add_numbered(text, alloc, lines.text, number)?;
    } else {
        text.extend_from_slice(lines.text.as_bytes())?;
    }
    if lines.ended {
        text.extend_from_slice(b"\n")?;
    }
    Ok(())
}

/// Adds lines.
fn add_lines(text: &mut Vec<u8>, alloc: Global, lines: &Lines<'_>) -> Result<(), AllocError> {
    for number in 0..lines.count {
        add_line(text, alloc, lines, number)?;
    }
    Ok(())
}

impl Documents {
    pub(crate) fn new(alloc: Global) -> Documents {
        Documents {
            names: Vec::new(alloc),
            texts: Vec::new(alloc),
        }
    }

    /// How many there are.
    pub(crate) fn count(&self) -> usize {
        self.names.len()
    }

    /// Adds one without text.
    pub(crate) fn begin(&mut self, alloc: Global, name: &str) -> Result<(), AllocError> {
        let name = String::from_str(alloc, name)?;
        self.names.push(name)?;
        self.texts.push(Vec::new(alloc))?;
        Ok(())
    }

    /// Adds lines to the last, and tells whether there is one.
    pub(crate) fn add(&mut self, alloc: Global, lines: &Lines<'_>) -> Result<bool, AllocError> {
        match self.texts.last_mut() {
            Some(text) => {
                add_lines(text, alloc, lines)?;
                Ok(true)
            }
            None => Ok(false),
        }
    }

    /// Keeps the first so many.
    pub(crate) fn keep(&mut self, count: usize) {
        self.names.truncate(count);
        self.texts.truncate(count);
    }

    /// A shelf that has them, and fails at the fetches of these numbers.
    pub(crate) fn shelf(&self, fails: Vec<u64>) -> Result<MemShelf, AllocError> {
        let names = self.names.clone()?;
        let texts = self.texts.clone()?;
        Ok(MemShelf::new(names, texts, fails))
    }
}
