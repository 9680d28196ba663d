//! What opens the ends of doors by their names.

ghost use Rattle.std.specs.Prelude.{ℕ, List, OnErr, ⊤};

use std::fs::File;
use std::io::{ErrorKind, Read, Write};
use std::rt::Files;
use std::{fs, io};

/// The outside of a hall: it opens files and pipes by their names.
pub trait Ends {
    /// A file or a pipe that is open.
    type End: Read + Write + Drop;

    /// The names that it may refuse to open.
    ghost refuses: { Self → List ℕ → Type 0 };

    /// Opens a file or a pipe to read.
    ///
    /// # Errors
    ///
    /// Only at a name that it may refuse.
    fn open_input(&self, name: &str) -> io::Result<Self::End>
        ensures { OnErr result (refuses self.now name.now) };

    /// Opens a file or a pipe to write from its start; a file that is missing is made.
    ///
    /// # Errors
    ///
    /// Only at a name that it may refuse.
    fn open_output(&self, name: &str) -> io::Result<Self::End>
        ensures { OnErr result (refuses self.now name.now) };
}

/// The files of a system, which may refuse any name: nothing is known of why it refuses one.
impl<R: Files> Ends for R {
    type End = R::File;

    ghost refuses = { λ _ _. ⊤ };

    fn open_input(&self, name: &str) -> io::Result<R::File> {
        fs::open(self, name)
    }

    fn open_output(&self, name: &str) -> io::Result<R::File> {
        match File::options().write(true).truncate(true).open(self, name) {
            Err(fault) if fault.kind() == ErrorKind::NotFound => File::create(self, name),
            opened => opened,
        }
    }
}
