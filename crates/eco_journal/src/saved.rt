//! Saved journals.

ghost use Rattle.std.specs.Prelude.{◌≡◌, ◌+◌, ◌<◌, ◌≤◌, ◌^◌, ◌∷◌, ◌==◌, ◌&&◌, true, Result, [], List, length, map, Ok, Err, None, Some, IfOk, MatchResult};
ghost use Rattle.std.specs.List.{list_all};
ghost use Rattle.timing_defs.specs.Documents.{is_eco};
ghost use Rattle.timing_defs.specs.declared.edits.Entry.{Entry};
ghost use Rattle.eco_journal.specs.Lines.{Part, part_of, words_of};
ghost use Rattle.eco_journal.specs.Words.{number_of, text as text_of, at as place_of};
ghost use Rattle.timing_defs.specs.declared.codes.ReadFault.{ReadFault};
ghost use Rattle.timing_defs.specs.declared.codes.ReadFault.TheVariants.{At};
ghost use Rattle.timing_defs.specs.declared.codes.Code.TheVariants.{JournalOtherDerates};
ghost use Rattle.timing_defs.specs.declared.constraints.Derates.{Derates};
ghost use Rattle.eco_journal.specs.Stops.{Gives};
ghost use Rattle.eco_journal.specs.Journal.{Text, at_line, entries, is_block, factors_next, same_derates, derates_of, block_form, block_head, first_block, later_block, factors, factors_read, block, block_left, entries_left, saved_of, Fails, Tells};
ghost use Rattle.eco_journal.specs.Saved.{behind_head};

use crate::entries::{are_graphic, entries, is_form, number_at};
use crate::faults::{bad_line, bad_number, count_at, fault_of, next_line};
use crate::lines::{Lines, Span, words_of};
use crate::numbers::{begin_of, number_of, says, text_at};
use crate::stops::Stop;
use std::alloc::Global;
use timing_defs::{Code, Derates, Entry, Items, ReadFault};

/// The greatest factor, in millionths.
const FACTOR_LIMIT: u64 = 10_000_000;

/// The head of a block: its first number stands or is flawed at a place, and its count.
#[derive(Clone, Copy, Drop)]
enum BlockHead {
    Plain(u128),
    Scaled { flaw: Option<usize>, count: u128 },
}

fn same_derates(a: &Derates, b: &Derates) -> bool
    ensures { result ≡ same_derates a.now b.now }
{
    a.early_cell == b.early_cell
        && a.late_cell == b.late_cell
        && a.early_net == b.early_net
        && a.late_net == b.late_net
}

fn other_derates(at: usize) -> ReadFault
    ensures { result ≡ At JournalOtherDerates at }
{
    ReadFault::At {
        code: Code::JournalOtherDerates,
        offset: at as u64,
    }
}

/// The factors of `derates EC LC EN LN`.
fn derates_of(words: &[Span<'_>]) -> Result<Derates, Stop>
    ensures { Gives result (derates_of (map part_of words.now)) }
{
    if !is_form(words, 5, b"derates") {
        return Err(Stop::Unfit);
    }
    let early_cell = number_at(words, 1, 0, FACTOR_LIMIT)? as u32;
    let late_cell = number_at(words, 2, 0, FACTOR_LIMIT)? as u32;
    let early_net = number_at(words, 3, 0, FACTOR_LIMIT)? as u32;
    let late_net = number_at(words, 4, 0, FACTOR_LIMIT)? as u32;
    Ok(Derates {
        early_cell,
        late_cell,
        early_net,
        late_net,
    })
}

/// The factors of a line.
fn factors(alloc: Global, line: &Span<'_>) -> Result<Derates, ReadFault>
    requires { line.now.at + length line.now.text.now < 2 ^ 64 }
    ensures { Tells result (at_line (part_of line.now) (derates_of (words_of (part_of line.now)))) }
{
    let words = words_of(alloc, line)?;
    match derates_of(words.as_slice()) {
        Ok(derates) => Ok(derates),
        Err(stop) => Err(fault_of(line.at, stop)),
    }
}

/// The count of a block of the first form, with so many entries before it.
fn first_block(
    words: &[Span<'_>],
    at: usize,
    before: usize,
    derates: &Derates,
) -> Result<BlockHead, ReadFault>
    ensures { (t : Text) (all : List Entry) (line : Part) → t.derates ≡ derates.now → length all
        ≡ before → line.at ≡ at
        → MatchResult result
        (λ head. first_block t all line (map part_of words.now)
        ≡ Ok (behind_head t line.at all head))
        (λ fault. Fails fault (first_block t all line (map part_of words.now))) }
{
    if words.len() != 3 || before != 0 {
        return Err(bad_line(at));
    }
    if !same_derates(&Derates::none(), derates) {
        return Err(other_derates(at));
    }
    let count = count_at(words, 2)?;
    Ok(BlockHead::Plain(count))
}

/// The count of a block of the second form, whose first number is flawed or not.
fn scaled_head(words: &[Span<'_>], flaw: Option<usize>) -> Result<BlockHead, ReadFault>
    ensures { (t : Text) (all : List Entry) (line : Part)
        → MatchResult result
        (λ head. factors_next all line flaw (place_of (map part_of words.now) 3)
        (number_of (text_of (map part_of words.now) 3)) ≡ Ok (behind_head t line.at all head))
        (λ fault. Fails fault
        (factors_next all line flaw (place_of (map part_of words.now) 3)
        (number_of (text_of (map part_of words.now) 3)))) }
{
    match number_of(text_at(words, 3)) {
        Some(count) => Ok(BlockHead::Scaled { flaw, count }),
        None => match flaw {
            Some(word) => Err(bad_number(word)),
            None => Err(bad_number(begin_of(words, 3))),
        },
    }
}

/// The head of a block of the second form, with so many entries before it.
fn later_block(words: &[Span<'_>], at: usize, before: usize) -> Result<BlockHead, ReadFault>
    ensures { (t : Text) (all : List Entry) (line : Part) → length all ≡ before → line.at ≡ at
        → MatchResult result
        (λ head. later_block all line (map part_of words.now) ≡ Ok (behind_head t line.at all head))
        (λ fault. Fails fault (later_block all line (map part_of words.now))) }
{
    if words.len() != 4 {
        return Err(bad_line(at));
    }
    match number_of(text_at(words, 2)) {
        None => scaled_head(words, Some(begin_of(words, 2))),
        Some(first) if first == before as u128 => scaled_head(words, None),
        Some(_) => Err(bad_line(at)),
    }
}

fn is_block(words: &[Span<'_>]) -> bool
    ensures { result ≡ is_block (map part_of words.now) }
{
    words.len() >= 2 && says(words, 0, b"journal") && are_graphic(words)
}

/// The head of a block by the words of its line, with so many entries before it.
fn block_form(
    words: &[Span<'_>],
    at: usize,
    before: usize,
    derates: &Derates,
) -> Result<BlockHead, ReadFault>
    ensures { (t : Text) (all : List Entry) (line : Part) → t.derates ≡ derates.now → length all
        ≡ before → line.at ≡ at
        → MatchResult result
        (λ head. block_form t all line (map part_of words.now)
        ≡ Ok (behind_head t line.at all head))
        (λ fault. Fails fault (block_form t all line (map part_of words.now))) }
{
    if !is_block(words) {
        return Err(bad_line(at));
    }
    match number_of(text_at(words, 1)) {
        None => Err(bad_number(begin_of(words, 1))),
        Some(1) => first_block(words, at, before, derates),
        Some(2) => later_block(words, at, before),
        Some(_) => Err(ReadFault::At {
            code: Code::JournalVersion,
            offset: begin_of(words, 1) as u64,
        }),
    }
}

fn block_head(
    alloc: Global,
    line: &Span<'_>,
    before: usize,
    derates: &Derates,
) -> Result<BlockHead, ReadFault>
    requires { line.now.at + length line.now.text.now < 2 ^ 64 }
    ensures { (t : Text) (all : List Entry) → t.derates ≡ derates.now → length all ≡ before
        → MatchResult result
        (λ head. block_head t all (part_of line.now) ≡ Ok (behind_head t line.now.at all head))
        (λ fault. Fails fault (block_head t all (part_of line.now))) }
{
    let words = words_of(alloc, line)?;
    block_form(words.as_slice(), line.at, before, derates)
}

/// The count of a block at a place, once its factors were read, or why they were not.
fn with_factors(
    told: Result<Derates, ReadFault>,
    at: usize,
    flaw: Option<usize>,
    count: u128,
    derates: &Derates,
) -> Result<u128, ReadFault>
    ensures { (t : Text) (all : List Entry) (defined : Result Derates ReadFault) → t.derates
        ≡ derates.now → Tells told defined
        → MatchResult result
        (λ n. factors_read t at flaw count all defined ≡ Ok (entries_left t n all))
        (λ fault. Fails fault (factors_read t at flaw count all defined)) }
{
    match told {
        Ok(found) if !same_derates(&found, derates) => Err(other_derates(at)),
        Ok(_) => match flaw {
            Some(word) => Err(bad_number(word)),
            None => Ok(count),
        },
        Err(ReadFault::Memory) => Err(ReadFault::Memory),
        Err(fault) => match flaw {
            Some(word) => Err(bad_number(word)),
            None => Err(fault),
        },
    }
}

/// The count of a scaled block, behind its line of factors.
#[tactic(auto, using(crate::proofs::JournalLemmas::stopped), unfolding(crate::specs::Journal::entries))]
fn scaled_count(
    alloc: Global,
    lines: &mut Lines<'_>,
    size: usize,
    at: usize,
    flaw: Option<usize>,
    count: u128,
    derates: &Derates,
) -> Result<u128, ReadFault>
    ensures value { (t : Text) (all : List Entry) → t.size ≡ size → t.derates ≡ derates.now
        → MatchResult result
        (λ n. entries t (Ok (entries_left t n all)) lines.new
        ≡ entries t (Ok (factors at flaw count all)) lines.old)
        (λ fault. Fails fault (entries t (Ok (factors at flaw count all)) lines.old)) }
    ensures fewer { IfOk result (λ _. length lines.new ≤ length lines.old) }
{
    match lines.next() {
        None => match flaw {
            Some(word) => Err(bad_number(word)),
            None => Err(bad_line(size)),
        },
        Some(line) => with_factors(factors(alloc, &line), at, flaw, count, derates),
    }
}

/// The count of a block at a place, behind all of its head.
fn block_count(
    alloc: Global,
    lines: &mut Lines<'_>,
    size: usize,
    at: usize,
    head: BlockHead,
    derates: &Derates,
) -> Result<u128, ReadFault>
    ensures value { (t : Text) (all : List Entry) → t.size ≡ size → t.derates ≡ derates.now
        → MatchResult result
        (λ n. entries t (Ok (entries_left t n all)) lines.new
        ≡ entries t (Ok (behind_head t at all head)) lines.old)
        (λ fault. Fails fault (entries t (Ok (behind_head t at all head)) lines.old)) }
    ensures fewer { IfOk result (λ _. length lines.new ≤ length lines.old) }
{
    match head {
        BlockHead::Plain(count) => Ok(count),
        BlockHead::Scaled { flaw, count } => {
            scaled_count(alloc, lines, size, at, flaw, count, derates)
        }
    }
}

/// The entries of a block whose head is this line.
#[tactic(auto, using(crate::proofs::JournalLemmas::stopped), unfolding(crate::specs::Journal::entries))]
fn read_block(
    alloc: Global,
    lines: &mut Lines<'_>,
    size: usize,
    line: &Span<'_>,
    derates: &Derates,
    all: &mut Items<Entry>,
) -> Result<(), ReadFault>
    requires { line.now.at + length line.now.text.now < 2 ^ 64 }
    ensures value { (t : Text) → t.size ≡ size → t.first ≡ 0 → t.saved ≡ true → t.derates
        ≡ derates.now
        → MatchResult result
        (λ _. entries t (Ok (block all.new)) lines.new
        ≡ entries t (Ok (block all.old)) (part_of line.now ∷ lines.old))
        (λ fault. Fails fault (entries t (Ok (block all.old)) (part_of line.now ∷ lines.old))) }
    ensures fewer { IfOk result (λ _. length lines.new ≤ length lines.old) }
{
    let head = block_head(alloc, line, all.len(), derates)?;
    let count = block_count(alloc, lines, size, line.at, head, derates)?;
    entries(alloc, lines, size, count, all)
}

/// The entries of the blocks of a saved journal.
#[tactic(auto, unfolding(crate::specs::Journal::entries))]
fn whole_saved(alloc: Global, bytes: &[u8], derates: &Derates) -> Result<Items<Entry>, ReadFault>
    ensures { Tells result (saved_of bytes.now derates.now) }
{
    let size = bytes.len();
    let mut lines = Lines::new(bytes);
    let mut all = Items::new(alloc);
    while let Some(line) = lines.next() {
        read_block(alloc, &mut lines, size, &line, derates, &mut all)?;
    }
    Ok(all)
}

/// The entries of a saved journal, which is a list of blocks: of journals that `read_entries` reads,
/// and of blocks `journal 2 FIRST COUNT`, `derates EC LC EN LN` and COUNT entries, where FIRST counts
/// the entries of the blocks before. The factors of each block, in millionths, are `derates`; those
/// of a block of the first form are all 1,000,000. The edits of each entry are such as `read_eco` gives.
///
/// # Errors
///
/// The fault of least place, and at one place the one of lowest number. `J1`: a line of another
/// form or out of count, as in `read_entries`. `J2`: a number word that is none or out of its
/// range. `J3`: a first number other than 1 and 2. `J5`: other factors, at the block's first byte.
/// Or want of memory.
pub fn read_saved(alloc: Global, bytes: &[u8], derates: &Derates) -> Result<Items<Entry>, ReadFault>
    ensures value { Tells result (saved_of bytes.now derates.now) }
    ensures kept { IfOk result (λ all. list_all (λ (e : Entry). is_eco e.eco) all ≡ true) }
{
    whole_saved(alloc, bytes, derates)
}
