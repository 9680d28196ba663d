//! What matches ask for.

ghost use Rattle.std.specs.Prelude.{◌≡◌, ◌≤◌, IfOk, ◌%◌, IfSome, option_map, option_and_then, map, codes, length};
ghost use Rattle.clap.specs.Matches.{found_of};
ghost use Rattle.clap.specs.Walk.{rows_of, first_of, all_of};
ghost use Rattle.command_words.specs.Numbers.{within, multiple_within};
ghost use Rattle.command_words.specs.Asked.{run_words, generate_words};
ghost use Rattle.command_words.specs.Command.{Names, names_in, names_words, few_scripts, workers_in, scripts_in, journal_in, run_in, generate_in};

use crate::asked::{Generate, Run};
use crate::numbers::{multiple_of_four, number_within};
use clap::ArgMatches;
use std::alloc::{AllocError, Global};

/// The names of documents.
#[derive(Clone, Copy, Drop)]
pub(crate) struct Documents<'a> {
    early: &'a str,
    late: &'a str,
    netlist: &'a str,
    sdc: &'a str,
    spef: &'a str,
}

/// The value of a word.
#[tactic(auto, using(crate::proofs::ByRows::by_rows))]
fn word<'a>(matches: &ArgMatches<'a>, id: &str) -> Option<&'a str>
    ensures { option_map (λ s. s.now) result ≡ first_of id.now (rows_of (found_of matches.now)) }
{
    matches.get_str(id)
}

/// The number of a word, from `low` to `high`.
fn number(matches: &ArgMatches<'_>, id: &str, low: u64, high: u64) -> Option<u64>
    ensures value { result
        ≡ option_and_then (within low high) (first_of id.now (rows_of (found_of matches.now))) }
    ensures bounds { IfSome result (λ n. (low ≤ n) × (n ≤ high)) }
{
    match word(matches, id) {
        None => None,
        Some(text) => number_within(text.as_bytes(), low, high),
    }
}

/// The multiple of 4 of a word, from `low` to `high`.
fn multiple(matches: &ArgMatches<'_>, id: &str, low: u64, high: u64) -> Option<u64>
    ensures value { result
        ≡ option_and_then (multiple_within low high)
        (first_of id.now (rows_of (found_of matches.now))) }
    ensures bounds { IfSome result (λ n. (low ≤ n) × (n ≤ high)) }
    ensures fourth { IfSome result (λ n. n % 4 ≡ 0) }
{
    match word(matches, id) {
        None => None,
        Some(text) => multiple_of_four(text.as_bytes(), low, high),
    }
}

/// The names of the documents.
fn names_of<'a>(matches: &ArgMatches<'a>) -> Option<Documents<'a>>
    ensures { option_map names_words result ≡ names_in (rows_of (found_of matches.now)) }
{
    Some(Documents {
        early: word(matches, "EARLY")?,
        late: word(matches, "LATE")?,
        netlist: word(matches, "NETLIST")?,
        sdc: word(matches, "SDC")?,
        spef: word(matches, "SPEF")?,
    })
}

/// Names, where they are 1 to 16.
#[tactic(auto, using(crate::proofs::ByRows::lengths))]
fn few<'a>(alloc: Global, names: &[&'a str]) -> Result<Option<Vec<&'a str>>, AllocError>
    ensures names { IfOk result
        (λ found. option_map (λ kept. map (λ s. s.now) kept.items) found
        ≡ few_scripts (map (λ s. s.now) names.now)) }
    ensures count { IfOk result
        (λ found. IfSome found (λ kept. (1 ≤ length kept.items) × (length kept.items ≤ 16))) }
{
    if 1 <= names.len() && names.len() <= 16 {
        Ok(Some(Vec::from_slice(alloc, names)?))
    } else {
        Ok(None)
    }
}

/// The names of the scripts, 1 to 16.
#[tactic(auto, using(crate::proofs::ByRows::by_rows))]
fn scripts<'a>(alloc: Global, matches: &ArgMatches<'a>) -> Result<Option<Vec<&'a str>>, AllocError>
    ensures names { IfOk result
        (λ found. option_map (λ kept. map (λ s. s.now) kept.items) found
        ≡ scripts_in (rows_of (found_of matches.now))) }
    ensures count { IfOk result
        (λ found. IfSome found (λ kept. (1 ≤ length kept.items) × (length kept.items ≤ 16))) }
{
    match matches.get_strs("SCRIPT") {
        None => Ok(None),
        Some(names) => few(alloc, names),
    }
}

/// The run that the matches of `run` ask for.
pub(crate) fn run_of<'a>(
    alloc: Global,
    matches: &ArgMatches<'a>,
) -> Result<Option<Run<'a>>, AllocError>
    ensures asked { IfOk result
        (λ found. option_map run_words found ≡ run_in (rows_of (found_of matches.now))) }
    ensures workers { IfOk result
        (λ found. IfSome found (λ run. (1 ≤ run.workers) × (run.workers ≤ 32))) }
    ensures scripts { IfOk result
        (λ found. IfSome found
        (λ run. (1 ≤ length run.scripts.items) × (length run.scripts.items ≤ 16))) }
{
    match (names_of(matches), number(matches, "WORKERS", 1, 32)) {
        (Some(names), Some(workers)) => match scripts(alloc, matches)? {
            None => Ok(None),
            Some(scripts) => Ok(Some(Run {
                early: names.early,
                late: names.late,
                netlist: names.netlist,
                sdc: names.sdc,
                spef: names.spef,
                journal: word(matches, "JOURNAL"),
                workers: workers as u32,
                scripts,
            })),
        },
        _ => Ok(None),
    }
}

/// The generated run that the matches of `generate` ask for.
pub(crate) fn generate_of(matches: &ArgMatches<'_>) -> Option<Generate>
    ensures asked { option_map generate_words result
        ≡ generate_in (rows_of (found_of matches.now)) }
    ensures gates { IfSome result (λ g. (4 ≤ g.gates) × (g.gates ≤ 40000) × (g.gates % 4 ≡ 0)) }
    ensures edits { IfSome result (λ g. (g.edits ≤ 4000) × (g.edits % 4 ≡ 0)) }
{
    let number = number(matches, "NUMBER", 0, u64::MAX)?;
    let gates = multiple(matches, "GATES", 4, 40_000)?;
    let edits = multiple(matches, "EDITS", 0, 4_000)?;
    Some(Generate {
        number,
        gates: gates as u32,
        edits: edits as u32,
    })
}
