//! The command of a line, by its words.

ghost use Rattle.std.specs.Prelude.{◌≡◌, ◌≤◌, ◌&&◌, true, false, map, IfOk, IfSome, MatchOption};
ghost use Rattle.std.specs.List.{list_all};
ghost use Rattle.std.specs.Str.{bytes_eq};
ghost use Rattle.timing_defs.specs.Names.{is_name};
ghost use Rattle.eco_journal.specs.Lines.{part_of};
ghost use Rattle.eco_journal.specs.Words.{is_word, number_of, within};
ghost use Rattle.eco_journal.specs.EditLines.{texts_of};
ghost use Rattle.script_reader.specs.Words.{kind_of, endpoint_of, only_kind, are_pairs, candidates_of};
ghost use Rattle.script_reader.specs.ClosingCommands.{closing_of};
ghost use Rattle.script_reader.specs.Commands.{words_in, split_of, tran_of, node_of, worst_of, node_query, endpoint_query, total_query, through_of, paths_of, path_query, advise_of, advise_query, closing_query, query_of, await_of, take_of, command_of};

use crate::closing::closing_of;
use eco_journal::{Span, number_of, says, text_at, within};
use sta_text::Cursor;
use sta_units::Memory;
use std::alloc::Global;
use timing_defs::{Candidate, Command, Items, Kind, Name, Query, Split, Style, Tran};

/// The greatest number of looks of an `await`.
const LOOK_LIMIT: u64 = 1_000;

/// The greatest number of endpoints of a `report_worst`.
const WORST_LIMIT: u64 = 100;

/// The greatest number of pins of a `report_through`.
pub(crate) const PIN_LIMIT: usize = 16;

/// The greatest number of paths of a `report_paths`.
pub(crate) const PATH_LIMIT: u64 = 100;

/// The greatest number of candidates of an `advise`.
pub(crate) const CANDIDATE_LIMIT: usize = 100;

/// A node: a pin, a split and a transition.
#[derive(Drop)]
struct Node {
    pin: Name,
    split: Split,
    tran: Tran,
}

/// The words of a line, which blanks and tabs separate.
pub(crate) fn words_in<'a>(alloc: Global, line: &'a [u8]) -> Result<Items<Span<'a>>, Memory>
    ensures { IfOk result (λ words. map part_of words ≡ words_in line.entry.now) }
{
    let mut cursor = Cursor::new(line, Style::Script);
    let mut words = Items::new(alloc);
    while let Some(token) = cursor.next() {
        words.push(Span {
            text: token.text,
            at: token.start,
        })?;
    }
    Ok(words)
}

pub(crate) fn is(word: &[u8], wanted: &[u8]) -> bool
    ensures { result ≡ bytes_eq word.now wanted.now }
{
    word == wanted
}

/// The number that a word writes, where it lies in a range.
pub(crate) fn number_in(word: &[u8], low: u64, high: u64) -> Option<u64>
    ensures value { result ≡ within low high (number_of word.now) }
    ensures within { IfSome result (λ n. n ≤ high) }
{
    within(low, high, number_of(word))
}

fn split_of(word: &[u8]) -> Option<Split>
    ensures { result ≡ split_of word.now }
{
    if is(word, b"early") {
        Some(Split::Early)
    } else if is(word, b"late") {
        Some(Split::Late)
    } else {
        None
    }
}

fn tran_of(word: &[u8]) -> Option<Tran>
    ensures { result ≡ tran_of word.now }
{
    if is(word, b"rise") {
        Some(Tran::Rise)
    } else if is(word, b"fall") {
        Some(Tran::Fall)
    } else {
        None
    }
}

pub(crate) fn kind_of(word: &[u8]) -> Option<Kind>
    ensures { result ≡ kind_of word.now }
{
    if is(word, b"setup") {
        Some(Kind::Setup)
    } else if is(word, b"hold") {
        Some(Kind::Hold)
    } else {
        None
    }
}

/// PIN SPLIT TRAN behind a command.
fn node_of(alloc: Global, words: &[Span<'_>]) -> Result<Option<Node>, Memory>
    ensures { IfOk result (λ node. node ≡ node_of (map part_of words.now)) }
{
    if words.len() != 4 {
        return Ok(None);
    }
    let Some(pin) = Name::from_bytes(alloc, text_at(words, 1))? else {
        return Ok(None);
    };
    match (split_of(text_at(words, 2)), tran_of(text_at(words, 3))) {
        (Some(split), Some(tran)) => Ok(Some(Node { pin, split, tran })),
        _ => Ok(None),
    }
}

/// PIN KIND behind a command.
pub(crate) fn endpoint_of(alloc: Global, words: &[Span<'_>]) -> Result<Option<(Name, Kind)>, Memory>
    ensures { IfOk result (λ found. found ≡ endpoint_of (map part_of words.now)) }
{
    if words.len() != 3 {
        return Ok(None);
    }
    let Some(pin) = Name::from_bytes(alloc, text_at(words, 1))? else {
        return Ok(None);
    };
    match kind_of(text_at(words, 2)) {
        Some(kind) => Ok(Some((pin, kind))),
        None => Ok(None),
    }
}

/// KIND behind a command.
pub(crate) fn only_kind(words: &[Span<'_>]) -> Option<Kind>
    ensures { result ≡ only_kind (map part_of words.now) }
{
    if words.len() != 2 {
        return None;
    }
    kind_of(text_at(words, 1))
}

/// KIND N behind a command.
fn worst_of(words: &[Span<'_>]) -> Option<Query>
    ensures { result ≡ worst_of (map part_of words.now) }
{
    if words.len() != 3 {
        return None;
    }
    let kind = kind_of(text_at(words, 1))?;
    let count = number_in(text_at(words, 2), 1, WORST_LIMIT)?;
    Some(Query::Worst {
        kind,
        count: count as u32,
    })
}

/// The question of a line about a node.
fn node_query(alloc: Global, words: &[Span<'_>]) -> Result<Option<Query>, Memory>
    ensures { IfOk result (λ query. query ≡ node_query (map part_of words.now)) }
{
    let Some(Node { pin, split, tran }) = node_of(alloc, words)? else {
        return Ok(None);
    };
    if says(words, 0, b"report_slew") {
        Ok(Some(Query::Slew { pin, split, tran }))
    } else if says(words, 0, b"report_at") {
        Ok(Some(Query::At { pin, split, tran }))
    } else if says(words, 0, b"report_rat") {
        Ok(Some(Query::Rat { pin, split, tran }))
    } else if says(words, 0, b"report_slack") {
        Ok(Some(Query::Slack { pin, split, tran }))
    } else {
        Ok(None)
    }
}

/// The question of a line about an endpoint.
fn endpoint_query(alloc: Global, words: &[Span<'_>]) -> Result<Option<Query>, Memory>
    ensures { IfOk result (λ query. query ≡ endpoint_query (map part_of words.now)) }
{
    let Some((pin, kind)) = endpoint_of(alloc, words)? else {
        return Ok(None);
    };
    if says(words, 0, b"report_endpoint") {
        Ok(Some(Query::Endpoint { pin, kind }))
    } else if says(words, 0, b"report_path") {
        Ok(Some(Query::WorstPath { pin, kind }))
    } else {
        Ok(None)
    }
}

/// The question of a line about all endpoints.
fn total_query(words: &[Span<'_>]) -> Option<Query>
    ensures { result ≡ total_query (map part_of words.now) }
{
    if says(words, 0, b"report_worst") {
        return worst_of(words);
    }
    let kind = only_kind(words)?;
    if says(words, 0, b"report_wns") {
        Some(Query::Wns { kind })
    } else if says(words, 0, b"report_tns") {
        Some(Query::Tns { kind })
    } else {
        None
    }
}

/// The words as names; none where one is no name.
#[tactic(auto, using(std::proofs::lemmas::List::drop_more))]
pub(crate) fn names_of(alloc: Global, words: &[Span<'_>]) -> Result<Option<Items<Name>>, Memory>
    ensures { IfOk result
        (λ found. MatchOption found (list_all is_word (map part_of words.now) ≡ false)
        (λ names. (list_all is_word (map part_of words.now) ≡ true)
        × (names ≡ texts_of (map part_of words.now)))) }
{
    let mut names = Items::new(alloc);
    for word in words {
        let Some(name) = Name::from_bytes(alloc, word.text)? else {
            return Ok(None);
        };
        names.push(name)?;
    }
    Ok(Some(names))
}

/// PIN KIND and 1 to 16 names behind a command.
#[tactic(auto, using(eco_journal::proofs::EditLemmas::map_drop))]
fn through_of(alloc: Global, words: &[Span<'_>]) -> Result<Option<Query>, Memory>
    ensures { IfOk result (λ query. query ≡ through_of (map part_of words.now)) }
{
    if words.len() < 4 || 3 + PIN_LIMIT < words.len() {
        return Ok(None);
    }
    let Some(kind) = kind_of(text_at(words, 2)) else {
        return Ok(None);
    };
    let Some(pin) = Name::from_bytes(alloc, text_at(words, 1))? else {
        return Ok(None);
    };
    match names_of(alloc, words.split_at(3).1)? {
        Some(pins) => Ok(Some(Query::Through { pin, kind, pins })),
        None => Ok(None),
    }
}

/// PIN KIND K behind a command.
fn paths_of(alloc: Global, words: &[Span<'_>]) -> Result<Option<Query>, Memory>
    ensures { IfOk result (λ query. query ≡ paths_of (map part_of words.now)) }
{
    if words.len() != 4 {
        return Ok(None);
    }
    let Some(kind) = kind_of(text_at(words, 2)) else {
        return Ok(None);
    };
    let Some(count) = number_in(text_at(words, 3), 1, PATH_LIMIT) else {
        return Ok(None);
    };
    match Name::from_bytes(alloc, text_at(words, 1))? {
        Some(pin) => Ok(Some(Query::Paths {
            pin,
            kind,
            count: count as u32,
        })),
        None => Ok(None),
    }
}

/// The question of a line about paths to an endpoint.
fn path_query(alloc: Global, words: &[Span<'_>]) -> Result<Option<Query>, Memory>
    ensures { IfOk result (λ query. query ≡ path_query (map part_of words.now)) }
{
    if says(words, 0, b"report_through") {
        through_of(alloc, words)
    } else if says(words, 0, b"report_paths") {
        paths_of(alloc, words)
    } else {
        Ok(None)
    }
}

/// A candidate of a resize; none where a word is no name.
fn candidate_of(alloc: Global, inst: &[u8], cell: &[u8]) -> Result<Option<Candidate>, Memory>
    ensures { IfOk result
        (λ found. MatchOption found (is_name inst.now && is_name cell.now ≡ false)
        (λ it. (is_name inst.now && is_name cell.now ≡ true)
        × (it ≡ record { inst = inst.now; cell = cell.now }))) }
{
    let Some(inst) = Name::from_bytes(alloc, inst)? else {
        return Ok(None);
    };
    match Name::from_bytes(alloc, cell) {
        Ok(Some(cell)) => Ok(Some(Candidate { inst, cell })),
        Ok(None) => Ok(None),
        Err(wanting) => Err(wanting),
    }
}

/// The candidates that words name in pairs; none where a word is no name or stands alone.
pub(crate) fn candidates_of(
    alloc: Global,
    words: &[Span<'_>],
) -> Result<Option<Items<Candidate>>, Memory>
    ensures { IfOk result
        (λ found. MatchOption found (are_pairs (map part_of words.now) ≡ false)
        (λ cs. (are_pairs (map part_of words.now) ≡ true)
        × (cs ≡ candidates_of (map part_of words.now)))) }
{
    let mut candidates = Items::new(alloc);
    let mut left = words;
    while let [inst, pair @ ..] = left {
        let [cell, behind @ ..] = pair else {
            return Ok(None);
        };
        let Some(candidate) = candidate_of(alloc, inst.text, cell.text)? else {
            return Ok(None);
        };
        candidates.push(candidate)?;
        left = behind;
    }
    Ok(Some(candidates))
}

/// KIND and 1 to 100 candidates behind a command.
#[tactic(auto, using(eco_journal::proofs::EditLemmas::map_drop))]
fn advise_of(alloc: Global, words: &[Span<'_>]) -> Result<Option<Query>, Memory>
    ensures { IfOk result (λ query. query ≡ advise_of (map part_of words.now)) }
{
    if words.len() < 4 || 2 + 2 * CANDIDATE_LIMIT < words.len() {
        return Ok(None);
    }
    let Some(kind) = kind_of(text_at(words, 1)) else {
        return Ok(None);
    };
    match candidates_of(alloc, words.split_at(2).1)? {
        Some(candidates) => Ok(Some(Query::Advise { kind, candidates })),
        None => Ok(None),
    }
}

/// The question of a line about resizes.
fn advise_query(alloc: Global, words: &[Span<'_>]) -> Result<Option<Query>, Memory>
    ensures { IfOk result (λ query. query ≡ advise_query (map part_of words.now)) }
{
    if says(words, 0, b"advise") {
        advise_of(alloc, words)
    } else {
        Ok(None)
    }
}

/// The question of a line that closing timing needs.
fn closing_query(alloc: Global, words: &[Span<'_>]) -> Result<Option<Query>, Memory>
    ensures { IfOk result (λ query. query ≡ closing_query (map part_of words.now)) }
{
    match closing_of(alloc, words)? {
        Some(query) => Ok(Some(Query::Closing { query })),
        None => Ok(None),
    }
}

/// The question of a line.
fn query_of(alloc: Global, words: &[Span<'_>]) -> Result<Option<Query>, Memory>
    ensures { IfOk result (λ query. query ≡ query_of (map part_of words.now)) }
{
    if let Some(query) = node_query(alloc, words)? {
        return Ok(Some(query));
    }
    if let Some(query) = endpoint_query(alloc, words)? {
        return Ok(Some(query));
    }
    if let Some(query) = total_query(words) {
        return Ok(Some(query));
    }
    if let Some(query) = path_query(alloc, words)? {
        return Ok(Some(query));
    }
    if let Some(query) = advise_query(alloc, words)? {
        return Ok(Some(query));
    }
    closing_query(alloc, words)
}

/// `await N L`.
fn await_of(words: &[Span<'_>]) -> Option<Command>
    ensures { result ≡ await_of (map part_of words.now) }
{
    if words.len() != 3 {
        return None;
    }
    let number = number_in(text_at(words, 1), 0, u64::MAX)?;
    let looks = number_in(text_at(words, 2), 1, LOOK_LIMIT)?;
    Some(Command::Await {
        number,
        looks: looks as u32,
    })
}

fn take_of(words: &[Span<'_>]) -> Option<Command>
    ensures { result ≡ take_of (map part_of words.now) }
{
    if words.len() == 1 {
        Some(Command::Take)
    } else {
        None
    }
}

/// The command that the words of a line write, where it is no edit.
#[tactic(auto, unfolding(crate::specs::Commands::command_of))]
pub(crate) fn command_of(alloc: Global, words: &[Span<'_>]) -> Result<Option<Command>, Memory>
    ensures { IfOk result (λ command. command ≡ command_of (map part_of words.now)) }
{
    if says(words, 0, b"take") {
        return Ok(take_of(words));
    }
    if says(words, 0, b"await") {
        return Ok(await_of(words));
    }
    match query_of(alloc, words)? {
        Some(query) => Ok(Some(Command::Ask(query))),
        None => Ok(None),
    }
}
