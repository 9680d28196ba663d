//! Whole runs of the server. Each case of the standard input is one run. The program writes the status of the run, and after it
//! what the run writes.
//!
//! Each line of the input is a row. These rows make documents:
//!
//! - `document NAME` begins a document without text;
//! - `| TEXT` adds a line to it, and `+ TEXT` adds a text without the end of a line;
//! - `* N TEXT` adds N lines. Each line has its number in the place of `<0>`, counted from 0, and in that of `<1>`, counted from 1.
//!
//! All cases share the documents that come before the first case. A document that comes in a case belongs to that case alone.
//! These rows make a case:
//!
//! - `case NAME` begins a case, and ends the case before it;
//! - `words WORD ..` gives the words that follow the program's name;
//! - `fetch-fails N` makes the shelf fail at its Nth fetch;
//! - `put-fails N` makes the sink fail at its Nth piece;
//! - `room N` leaves the sink room for N bytes.
//!
//! The program passes over an empty line, and over one that begins with `# `. It writes `no row:` and the line for any other.
//! Here is a whole case over the shared documents:
//!
//! ```text
//! case a_slew
//! words run a.lib a.lib a.v empty none 1 s1
//! document s1
//! | report_slew u2:Z late rise
//! ```
#![tactic(auto)]

mod documents;
mod lines;
mod rows;
mod running;

use rows::Rows;
use std::io;
use std::io::Print;
use std::sync::Wait;
use std::thread::Threads;

/// Runs the cases of a text.
fn run_all<H: AllocGlobal + Print + Threads + Wait + Sync>(rt: &H, text: &str) -> io::Result<()> {
    let mut rows = Rows::new(rt.alloc());
    let ended = rows.take_all(rt, text);
    drop(rows);
    ended
}

fn main(rt: HostRuntime) -> io::Result<()> {
    let text = io::read_to_string(rt.alloc(), rt.stdin())?;
    run_all(&rt, text.as_str())
}
