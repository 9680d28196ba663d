//! The words of a live run's command line.

ghost use Rattle.std.specs.Prelude.{◌≡◌, IfOk, IfSome, option_map, option_and_then, map};
ghost use Rattle.std.specs.String.{string_bytes};
ghost use Rattle.clap.specs.Matches.{found_of};
ghost use Rattle.clap.specs.Walk.{rows_of};
ghost use Rattle.clap.specs.Simple.{subcommand_rows_of};
ghost use Rattle.live_words.specs.Asked.{IsInRange, asked_words};
ghost use Rattle.live_words.specs.Command.{asked_in, words_of};

use crate::asked::LiveWords;
use crate::commands::lizdrog;
use crate::matched::live_of;
use clap::ArgMatches;
use clap::error::ErrorKind;
use sta_units::Memory;
use std::alloc::{AllocError, Global};

/// What the matches of a subcommand ask for.
fn asked_by<'a>(
    alloc: Global,
    name: &str,
    matches: &ArgMatches<'a>,
) -> Result<Option<LiveWords<'a>>, AllocError>
    ensures asked { IfOk result
        (λ found. option_map asked_words found
        ≡ asked_in (name.now, rows_of (found_of matches.now))) }
    ensures ranges { IfOk result (λ found. IfSome found IsInRange) }
{
    match name {
        "live" => live_of(alloc, matches),
        _ => Ok(None),
    }
}

/// What all matches ask for.
fn asked_of<'a>(
    alloc: Global,
    matches: &ArgMatches<'a>,
) -> Result<Option<LiveWords<'a>>, AllocError>
    ensures asked { IfOk result
        (λ found. option_map asked_words found
        ≡ option_and_then asked_in (subcommand_rows_of matches.now)) }
    ensures ranges { IfOk result (λ found. IfSome found IsInRange) }
{
    match matches.subcommand() {
        None => Ok(None),
        Some((name, inner)) => asked_by(alloc, name, inner),
    }
}

/// What the words after the program's name ask for: none exactly where the command refuses them, they
/// name no subcommand, or a number or a count is out of its range: 1 to 32 workers, and up to 16 pairs of an
/// input and an output.
///
/// # Errors
///
/// Want of memory alone.
#[tactic(auto, unfolding(crate::specs::Command::words_of))]
pub fn read_live_words<'a>(
    alloc: Global,
    words: &'a [String],
) -> Result<Option<LiveWords<'a>>, Memory>
    ensures asked { IfOk result
        (λ found. option_map asked_words found ≡ words_of (map string_bytes words.entry.now)) }
    ensures ranges { IfOk result (λ found. IfSome found IsInRange) }
{
    let command = lizdrog(alloc)?;
    match command.try_get_matches_from(words) {
        Ok(matches) => Ok(asked_of(alloc, &matches)?),
        Err(error) => match error.kind() {
            ErrorKind::OutOfMemory => Err(Memory),
            _ => Ok(None),
        },
    }
}
