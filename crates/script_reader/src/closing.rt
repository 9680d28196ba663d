//! The questions of a line that closing timing needs, by its words.

ghost use Rattle.std.specs.Prelude.{◌≡◌, map, IfOk};
ghost use Rattle.eco_journal.specs.Lines.{part_of};
ghost use Rattle.script_reader.specs.ClosingCommands.{one_name, name_query, timing_query, timed_through_of, each_of, worst_paths_of, kind_query, skew_of, advise_tns_of, aim_of, advise_sizes_of, other_of, closing_of};

use crate::commands::{
    CANDIDATE_LIMIT, PATH_LIMIT, PIN_LIMIT, candidates_of, endpoint_of, is, kind_of, names_of,
    number_in, only_kind,
};
use eco_journal::{Span, says, text_at};
use sta_units::Memory;
use std::alloc::Global;
use timing_defs::{Aim, ClosingQuery, Name};

/// N or I behind a command.
fn one_name(alloc: Global, words: &[Span<'_>]) -> Result<Option<Name>, Memory>
    ensures { IfOk result (λ name. name ≡ one_name (map part_of words.now)) }
{
    if words.len() != 2 {
        return Ok(None);
    }
    Name::from_bytes(alloc, text_at(words, 1))
}

/// The question of a line about a net or an instance.
fn name_query(alloc: Global, words: &[Span<'_>]) -> Result<Option<ClosingQuery>, Memory>
    ensures { IfOk result (λ query. query ≡ name_query (map part_of words.now)) }
{
    let Some(name) = one_name(alloc, words)? else {
        return Ok(None);
    };
    if says(words, 0, b"report_net") {
        Ok(Some(ClosingQuery::Net { net: name }))
    } else if says(words, 0, b"report_instance") {
        Ok(Some(ClosingQuery::Instance { inst: name }))
    } else if says(words, 0, b"report_sizes") {
        Ok(Some(ClosingQuery::Sizes { inst: name }))
    } else {
        Ok(None)
    }
}

/// The question of a line about the stages of a path.
fn timing_query(alloc: Global, words: &[Span<'_>]) -> Result<Option<ClosingQuery>, Memory>
    ensures { IfOk result (λ query. query ≡ timing_query (map part_of words.now)) }
{
    let Some((pin, kind)) = endpoint_of(alloc, words)? else {
        return Ok(None);
    };
    if says(words, 0, b"report_timing") {
        Ok(Some(ClosingQuery::Timing { pin, kind }))
    } else {
        Ok(None)
    }
}

/// PIN KIND and 1 to 16 names behind a command.
#[tactic(auto, using(eco_journal::proofs::EditLemmas::map_drop))]
fn timed_through_of(alloc: Global, words: &[Span<'_>]) -> Result<Option<ClosingQuery>, Memory>
    ensures { IfOk result (λ query. query ≡ timed_through_of (map part_of words.now)) }
{
    if words.len() < 4 || 3 + PIN_LIMIT < words.len() {
        return Ok(None);
    }
    let Some(kind) = kind_of(text_at(words, 2)) else {
        return Ok(None);
    };
    let Some(pin) = Name::from_bytes(alloc, text_at(words, 1))? else {
        return Ok(None);
    };
    match names_of(alloc, words.split_at(3).1)? {
        Some(pins) => Ok(Some(ClosingQuery::TimingThrough { pin, kind, pins })),
        None => Ok(None),
    }
}

/// How many paths of one endpoint: one where nothing is said.
fn each_of(words: &[Span<'_>], count: u64) -> Option<u64>
    ensures { result ≡ each_of (map part_of words.now) count }
{
    if words.len() == 3 {
        return Some(1);
    }
    if words.len() == 5 && says(words, 3, b"each") {
        return number_in(text_at(words, 4), 1, count);
    }
    None
}

/// KIND K, or KIND K each M, behind a command.
fn worst_paths_of(words: &[Span<'_>]) -> Option<ClosingQuery>
    ensures { result ≡ worst_paths_of (map part_of words.now) }
{
    let kind = kind_of(text_at(words, 1))?;
    let count = number_in(text_at(words, 2), 1, PATH_LIMIT)?;
    let each = each_of(words, count)?;
    Some(ClosingQuery::WorstPaths {
        kind,
        count: count as u32,
        each: each as u32,
    })
}

/// The question of a line about all endpoints.
fn kind_query(words: &[Span<'_>]) -> Option<ClosingQuery>
    ensures { result ≡ kind_query (map part_of words.now) }
{
    let kind = only_kind(words)?;
    if says(words, 0, b"report_failing") {
        Some(ClosingQuery::Failing { kind })
    } else if says(words, 0, b"report_summary") {
        Some(ClosingQuery::Summary { kind })
    } else {
        None
    }
}

fn skew_of(words: &[Span<'_>]) -> Option<ClosingQuery>
    ensures { result ≡ skew_of (map part_of words.now) }
{
    if words.len() == 1 {
        Some(ClosingQuery::Skew)
    } else {
        None
    }
}

/// KIND and 1 to 100 candidates behind a command.
#[tactic(auto, using(eco_journal::proofs::EditLemmas::map_drop))]
fn advise_tns_of(alloc: Global, words: &[Span<'_>]) -> Result<Option<ClosingQuery>, Memory>
    ensures { IfOk result (λ query. query ≡ advise_tns_of (map part_of words.now)) }
{
    if words.len() < 4 || 2 + 2 * CANDIDATE_LIMIT < words.len() {
        return Ok(None);
    }
    let Some(kind) = kind_of(text_at(words, 1)) else {
        return Ok(None);
    };
    match candidates_of(alloc, words.split_at(2).1)? {
        Some(candidates) => Ok(Some(ClosingQuery::AdviseTns { kind, candidates })),
        None => Ok(None),
    }
}

fn aim_of(word: &[u8]) -> Option<Aim>
    ensures { result ≡ aim_of word.now }
{
    if is(word, b"wns") {
        Some(Aim::Wns)
    } else if is(word, b"tns") {
        Some(Aim::Tns)
    } else {
        None
    }
}

/// KIND, what is aimed at, and names behind a command.
#[tactic(auto, using(eco_journal::proofs::EditLemmas::map_drop))]
fn advise_sizes_of(alloc: Global, words: &[Span<'_>]) -> Result<Option<ClosingQuery>, Memory>
    ensures { IfOk result (λ query. query ≡ advise_sizes_of (map part_of words.now)) }
{
    if words.len() < 4 {
        return Ok(None);
    }
    let (Some(kind), Some(aim)) = (kind_of(text_at(words, 1)), aim_of(text_at(words, 2))) else {
        return Ok(None);
    };
    match names_of(alloc, words.split_at(3).1)? {
        Some(insts) => Ok(Some(ClosingQuery::AdviseSizes { kind, aim, insts })),
        None => Ok(None),
    }
}

/// The question of a line that its first word alone does not tell.
fn other_of(alloc: Global, words: &[Span<'_>]) -> Result<Option<ClosingQuery>, Memory>
    ensures { IfOk result (λ query. query ≡ other_of (map part_of words.now)) }
{
    if let Some(query) = name_query(alloc, words)? {
        return Ok(Some(query));
    }
    if let Some(query) = timing_query(alloc, words)? {
        return Ok(Some(query));
    }
    Ok(kind_query(words))
}

/// The question of a line.
pub(crate) fn closing_of(alloc: Global, words: &[Span<'_>]) -> Result<Option<ClosingQuery>, Memory>
    ensures { IfOk result (λ query. query ≡ closing_of (map part_of words.now)) }
{
    if says(words, 0, b"report_timing_through") {
        timed_through_of(alloc, words)
    } else if says(words, 0, b"report_worst_paths") {
        Ok(worst_paths_of(words))
    } else if says(words, 0, b"report_skew") {
        Ok(skew_of(words))
    } else if says(words, 0, b"advise_tns") {
        advise_tns_of(alloc, words)
    } else if says(words, 0, b"advise_sizes") {
        advise_sizes_of(alloc, words)
    } else {
        other_of(alloc, words)
    }
}
