//! The answer to a row, written word by word.

use crate::words::Stop;
use std::alloc::Global;
use std::fmt::Display;

/// The text of an answer.
#[derive(Drop)]
pub(crate) struct Answer {
    alloc: Global,
    text: String,
}

impl Answer {
    /// An answer without words.
    pub(crate) fn new(alloc: Global) -> Answer {
        Answer {
            alloc,
            text: String::new(alloc),
        }
    }

    pub(crate) fn as_str(&self) -> &str {
        self.text.as_str()
    }

    /// Adds a text as it is.
    pub(crate) fn push(&mut self, text: &str) -> Result<(), Stop> {
        match self.text.push_str(text) {
            Ok(()) => Ok(()),
            Err(_) => Err(Stop::Memory),
        }
    }

    /// Adds a word, with a blank before it where it is not the first.
    pub(crate) fn word(&mut self, word: &str) -> Result<(), Stop> {
        if !self.text.is_empty() {
            self.push(" ")?;
        }
        self.push(word)
    }

    /// Adds a value as a word.
    pub(crate) fn value<D: Display + Drop>(&mut self, value: D) -> Result<(), Stop> {
        match format!(in self.alloc; "{value}") {
            Ok(text) => {
                let told = self.word(text.as_str());
                drop(text);
                told
            }
            Err(refused) => {
                drop(refused);
                Err(Stop::Memory)
            }
        }
    }

    /// Adds a word and a value.
    pub(crate) fn pair<D: Display + Drop>(&mut self, word: &str, value: D) -> Result<(), Stop> {
        self.word(word)?;
        self.value(value)
    }

    /// Adds places, each as a word.
    pub(crate) fn places(&mut self, places: &[u32]) -> Result<(), Stop> {
        for place in places {
            self.value(*place)?;
        }
        Ok(())
    }
}
