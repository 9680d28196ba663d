//! Rows for the small crates: decimals, names, tables, levels, clock trees, path rules, wires,
//! walks, fan-ins and sessions.
//!
//! `stdin` has one row a line, and `stdout` has its answer on the same line:
//!
//!     case units rounds_halves_upward 1      repeated as it is, and so is an empty line
//!     units round 5 2                        3
//!
//! The first word of a row names its module here, whose head gives the forms of its rows. A row in
//! no known form is answered by `no such row`. To add a row, write it into `stdin` below a line
//! `case NAME`, and write into `stdout` what a sum by hand or another tool says.
#![tactic(auto)]

mod answers;
mod arc_lists;
mod checked_cones;
mod clock_trees;
mod clocks;
mod fan_ins;
mod levels;
mod measures;
mod name_texts;
mod nets;
mod path_rows;
mod scripts;
mod sessions;
mod tables;
mod units;
mod walks;
mod wires;
mod words;
mod written_nets;

use answers::Answer;
use std::alloc::Global;
use std::io;
use std::io::ErrorKind;
use words::Stop;

/// Answers a row by the module that its first word names.
fn answer_row(alloc: Global, answer: &mut Answer, row: &str) -> Result<(), Stop> {
    let (area, rest) = words::parted(row, ' ')?;
    match area {
        "units" => units::answer(alloc, answer, rest),
        "names" => name_texts::answer(alloc, answer, rest),
        "tables" => tables::answer(alloc, answer, rest),
        "levels" => levels::answer(alloc, answer, rest),
        "trees" => clock_trees::answer(alloc, answer, rest),
        "clocks" => clocks::answer(alloc, answer, rest),
        "paths" => path_rows::answer(alloc, answer, rest),
        "wires" => wires::answer(alloc, answer, rest),
        "walks" => walks::answer(alloc, answer, rest),
        "fans" => fan_ins::answer(alloc, answer, rest),
        "sessions" => sessions::answer(alloc, answer, rest),
        _ => Err(Stop::Row),
    }
}

/// Whether a line is repeated as it is.
fn is_repeated(line: &str) -> bool {
    line.is_empty() || line.starts_with("case ")
}

/// The answer to a line.
fn answered(alloc: Global, line: &str) -> Result<Answer, Stop> {
    let mut answer = Answer::new(alloc);
    let told = if is_repeated(line) {
        answer.push(line)
    } else {
        answer_row(alloc, &mut answer, line)
    };
    match told {
        Ok(()) => Ok(answer),
        Err(stop) => {
            drop(answer);
            Err(stop)
        }
    }
}

fn main(rt: HostRuntime) -> io::Result<()> {
    for line in rt.lines(rt.alloc()) {
        match answered(rt.alloc(), line?.as_str()) {
            Ok(answer) => println!(rt; "{}", answer.as_str())?,
            Err(Stop::Row) => println!(rt; "no such row")?,
            Err(Stop::Memory) => return Err(io::Error::from(ErrorKind::OutOfMemory)),
        }
    }
    Ok(())
}
