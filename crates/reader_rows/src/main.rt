//! What the readers of texts give for rows of a table, which is read from the standard input.
//!
//! A row begins with `case READER NAME`, where the readers are those of [`rows`]. Its document follows,
//! a line for each piece:
//! - `| TEXT` adds the text and a line feed, and `|` a line feed alone;
//! - `+ TEXT` adds the text;
//! - `* COUNT TEXT` adds the text so many times;
//! - `@ COUNT TEXT` adds the text so many times, each time with a number behind it, from 0 on.
//!
//! In a text `^` and a character stand for the byte that differs from it by 64, so that `^M` is a carriage
//! return and `^?` the byte 127. Blank lines and lines that begin with `#` are passed over.
//!
//! The answer begins with the row's first line, and then has what was read, or `fault CODE PLACE`. So
//!
//! ```text
//! case netlist no_direction
//! + module m (a); endmodule
//! ```
//!
//! is answered by
//!
//! ```text
//! case netlist no_direction
//! fault V3 10
//! ```
#![tactic(auto)]

mod constraints;
mod documents;
mod journals;
mod libraries;
mod names;
mod netlists;
mod parasitics;
mod rows;
mod scripts;
mod sessions;
mod texts;
mod tokens;
mod trees;

use crate::rows::answer_rows;
use crate::texts::Text;
use std::io;
use std::io::{ErrorKind, Write};

fn main(rt: HostRuntime) -> io::Result<()> {
    let text = io::read_to_string(rt.alloc(), rt.reader())?;
    let mut out = Text::new(rt.alloc());
    answer_rows(rt.alloc(), text.as_str(), &mut out);
    if out.is_short() {
        return Err(io::Error::from(ErrorKind::OutOfMemory));
    }
    io::writer(&rt).write_all(out.as_bytes())
}
