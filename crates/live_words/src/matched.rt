//! What matches ask for.

ghost use Rattle.std.specs.Prelude.{◌≡◌, ◌+◌, ◌≤◌, IfOk, IfSome, option_map, option_and_then, map, length};
ghost use Rattle.clap.specs.Matches.{found_of};
ghost use Rattle.clap.specs.Walk.{rows_of, first_of};
ghost use Rattle.command_words.specs.Command.{Names, names_in, workers_in};
ghost use Rattle.live_words.specs.Asked.{IsInRange, asked_words, pair_words};
ghost use Rattle.live_words.specs.Command.{few_pairs, live_in, pairs_in, pairs_of};
ghost use Rattle.live_words.specs.Matched.{names_words, pairs_behind};

use crate::asked::{LiveWords, Pair};
use crate::numbers::number_within;
use clap::ArgMatches;
use std::alloc::{AllocError, Global};

/// The names of documents.
#[derive(Clone, Copy, Drop)]
pub(crate) struct Documents<'a> {
    early: &'a str,
    late: &'a str,
    netlist: &'a str,
    sdc: &'a str,
    spef: &'a str,
}

/// The value of a word.
#[tactic(auto, using(crate::proofs::ByRows::by_rows))]
fn word<'a>(matches: &ArgMatches<'a>, id: &str) -> Option<&'a str>
    ensures { option_map (λ s. s.now) result ≡ first_of id.now (rows_of (found_of matches.now)) }
{
    matches.get_str(id)
}

/// The names of the documents.
fn names_of<'a>(matches: &ArgMatches<'a>) -> Option<Documents<'a>>
    ensures { option_map names_words result ≡ names_in (rows_of (found_of matches.now)) }
{
    Some(Documents {
        early: word(matches, "EARLY")?,
        late: word(matches, "LATE")?,
        netlist: word(matches, "NETLIST")?,
        sdc: word(matches, "SDC")?,
        spef: word(matches, "SPEF")?,
    })
}

/// The number of workers, from 1 to 32.
fn workers_of(matches: &ArgMatches<'_>) -> Option<u32>
    ensures value { result ≡ workers_in (rows_of (found_of matches.now)) }
    ensures bounds { IfSome result (λ n. (1 ≤ n) × (n ≤ 32)) }
{
    match word(matches, "WORKERS") {
        None => None,
        Some(text) => match number_within(text.as_bytes(), 1, 32) {
            None => None,
            Some(workers) => Some(workers as u32),
        },
    }
}

/// Pairs, and the names in turns as pairs behind them; none where a name is left over.
#[tactic(auto, using(crate::proofs::Pairs::no_names, crate::proofs::Pairs::pair_more))]
fn paired_behind<'a>(
    pairs: Vec<Pair<'a>>,
    names: &[&'a str],
) -> Result<Option<Vec<Pair<'a>>>, AllocError>
    ensures pairs { IfOk result
        (λ found. option_map (λ all. map pair_words all.items) found
        ≡ pairs_behind (map pair_words pairs.entry.items) (map (λ s. s.now) names.now)) }
    ensures count { IfOk result
        (λ found. IfSome found
        (λ all. length all.items + length all.items ≤ length pairs.entry.items + length
        pairs.entry.items + length names.now)) }
{
    match names {
        [] => Ok(Some(pairs)),
        [_] => {
            drop(pairs);
            Ok(None)
        }
        [input, output, rest @ ..] => {
            let mut pairs = pairs;
            pairs.push(Pair {
                input: *input,
                output: *output,
            })?;
            paired_behind(pairs, rest)
        }
    }
}

/// Names in turns as pairs; none where one is left over.
fn paired<'a>(alloc: Global, names: &[&'a str]) -> Result<Option<Vec<Pair<'a>>>, AllocError>
    ensures pairs { IfOk result
        (λ found. option_map (λ pairs. map pair_words pairs.items) found
        ≡ pairs_of (map (λ s. s.now) names.now)) }
    ensures count { IfOk result
        (λ found. IfSome found
        (λ pairs. length pairs.items + length pairs.items ≤ length names.now)) }
{
    paired_behind(Vec::new(alloc), names)
}

/// Names as pairs, where they are at most 16.
#[tactic(auto, using(crate::proofs::ByRows::lengths))]
fn few<'a>(alloc: Global, names: &[&'a str]) -> Result<Option<Vec<Pair<'a>>>, AllocError>
    ensures pairs { IfOk result
        (λ found. option_map (λ pairs. map pair_words pairs.items) found
        ≡ few_pairs (map (λ s. s.now) names.now)) }
    ensures count { IfOk result (λ found. IfSome found (λ pairs. length pairs.items ≤ 16)) }
{
    if names.len() <= 32 {
        paired(alloc, names)
    } else {
        Ok(None)
    }
}

/// The inputs and outputs, up to 16 pairs.
#[tactic(auto, using(crate::proofs::ByRows::by_rows))]
fn pairs<'a>(alloc: Global, matches: &ArgMatches<'a>) -> Result<Option<Vec<Pair<'a>>>, AllocError>
    ensures pairs { IfOk result
        (λ found. option_map (λ pairs. map pair_words pairs.items) found
        ≡ pairs_in (rows_of (found_of matches.now))) }
    ensures count { IfOk result (λ found. IfSome found (λ pairs. length pairs.items ≤ 16)) }
{
    match matches.get_strs("NAME") {
        None => Ok(Some(Vec::new(alloc))),
        Some(names) => few(alloc, names),
    }
}

/// The live run that the matches of `live` ask for.
pub(crate) fn live_of<'a>(
    alloc: Global,
    matches: &ArgMatches<'a>,
) -> Result<Option<LiveWords<'a>>, AllocError>
    ensures asked { IfOk result
        (λ found. option_map asked_words found ≡ live_in (rows_of (found_of matches.now))) }
    ensures ranges { IfOk result (λ found. IfSome found IsInRange) }
{
    match (names_of(matches), workers_of(matches)) {
        (Some(names), Some(workers)) => match pairs(alloc, matches)? {
            None => Ok(None),
            Some(pairs) => Ok(Some(LiveWords {
                early: names.early,
                late: names.late,
                netlist: names.netlist,
                sdc: names.sdc,
                spef: names.spef,
                journal: word(matches, "JOURNAL"),
                workers,
                pairs,
            })),
        },
        _ => Ok(None),
    }
}
