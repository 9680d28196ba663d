//! The entries of a journal.

ghost use Rattle.std.specs.Prelude.{true, false, ◌≡◌, ◌+◌, ◌-◌, ◌<◌, ◌≤◌, ◌^◌, ◌∷◌, ◌++◌, [], ℕ, List, length, map, Ok, Err, IfOk, MatchResult};
ghost use Rattle.std.specs.List.{list_all};
ghost use Rattle.eco_journal.specs.Lines.{Part, part_of, words_of};
ghost use Rattle.eco_journal.specs.Words.{is_word};
ghost use Rattle.eco_journal.specs.Stops.{Gives, Stops};
ghost use Rattle.timing_defs.specs.declared.edits.Edit.{Edit};
ghost use Rattle.timing_defs.specs.Documents.{is_eco};
ghost use Rattle.timing_defs.specs.declared.edits.Entry.{Entry};
ghost use Rattle.eco_journal.specs.Journal.{Text, at_line, is_form, is_head, number_at, with_session, head_of, entry_head, edit_at, eco_edits, eco_of, entries, entries_left, edits_left, block_left, heading, entry, edit, plain_form, plain_head, entries_of, Fails, Tells};

use crate::edits::read_edit;
use crate::faults::{bad_line, bad_number, count_at, fault_of, next_line};
use crate::lines::{Lines, Span, words_of};
use crate::numbers::{begin_of, number_of, says, text_at, within};
use crate::stops::Stop;
use std::alloc::Global;
use timing_defs::{Code, Eco, Edit, Entry, Items, ReadFault, is_name};

/// The greatest number of edits of an entry.
const EDIT_LIMIT: usize = 1_000;

/// The greatest number of a session.
const SESSION_LIMIT: u64 = 16;

/// The head of an entry.
#[derive(Clone, Copy, Drop)]
struct EntryHead {
    session: u32,
    edits: usize,
}

/// Whether all words are of graphic bytes.
#[tactic(auto, using(std::proofs::lemmas::List::drop_more))]
pub(crate) fn are_graphic(words: &[Span<'_>]) -> bool
    ensures { result ≡ list_all is_word (map part_of words.now) }
{
    for word in words {
        if !is_name(word.text) {
            return false;
        }
    }
    true
}

/// Whether there are so many words, all of graphic bytes, of which the first is this one.
pub(crate) fn is_form(words: &[Span<'_>], count: usize, first: &[u8]) -> bool
    ensures { result ≡ is_form (map part_of words.now) count first.now }
{
    words.len() == count && says(words, 0, first) && are_graphic(words)
}

/// The number at a place, in its range.
pub(crate) fn number_at(words: &[Span<'_>], k: usize, low: u64, high: u64) -> Result<u64, Stop>
    ensures value { Gives result (number_at (map part_of words.now) k low high) }
    ensures within { IfOk result (λ n. (low ≤ n) × (n ≤ high)) }
{
    match within(low, high, number_of(text_at(words, k))) {
        Some(number) => Ok(number),
        None => Err(Stop::Flawed(begin_of(words, k))),
    }
}

/// The edit of a line.
fn line_edit(alloc: Global, line: &Span<'_>) -> Result<Edit, ReadFault>
    requires { line.now.at + length line.now.text.now < 2 ^ 64 }
    ensures { Tells result (edit_at (part_of line.now)) }
{
    let words = words_of(alloc, line)?;
    match read_edit(alloc, words.as_slice(), false) {
        Ok(edit) => Ok(edit),
        Err(stop) => Err(fault_of(line.at, stop)),
    }
}

/// The session and the number of edits of an entry's head.
fn session_and_edits(words: &[Span<'_>]) -> Result<EntryHead, Stop>
    ensures value { MatchResult result
        (λ head. with_session (map part_of words.now) (number_at (map part_of words.now) 3 1 16)
        ≡ Ok (head_of head))
        (λ stop. Stops stop
        (with_session (map part_of words.now) (number_at (map part_of words.now) 3 1 16))) }
    ensures some { IfOk result (λ head. 0 < head.edits) }
{
    let session = number_at(words, 3, 1, SESSION_LIMIT)?;
    let edits = number_at(words, 5, 1, EDIT_LIMIT as u64)?;
    Ok(EntryHead {
        session: session as u32,
        edits: edits as usize,
    })
}

fn is_head(words: &[Span<'_>]) -> bool
    ensures { result ≡ is_head (map part_of words.now) }
{
    is_form(words, 6, b"entry") && says(words, 2, b"session") && says(words, 4, b"edits")
}

/// The head of the entry with that number.
fn entry_head(words: &[Span<'_>], next: u128) -> Result<EntryHead, Stop>
    ensures value { MatchResult result
        (λ head. entry_head next (map part_of words.now) ≡ Ok (head_of head))
        (λ stop. Stops stop (entry_head next (map part_of words.now))) }
    ensures some { IfOk result (λ head. 0 < head.edits) }
{
    if !is_head(words) {
        return Err(Stop::Unfit);
    }
    match number_of(text_at(words, 1)) {
        None => Err(Stop::Flawed(begin_of(words, 1))),
        Some(number) if number == next => session_and_edits(words),
        Some(_) => Err(Stop::Unfit),
    }
}

/// The head of the entry with that number, by its line.
fn head(alloc: Global, line: &Span<'_>, next: u128) -> Result<EntryHead, ReadFault>
    requires { line.now.at + length line.now.text.now < 2 ^ 64 }
    ensures value { MatchResult result
        (λ head. at_line (part_of line.now) (entry_head next (words_of (part_of line.now)))
        ≡ Ok (head_of head))
        (λ fault. Fails fault
        (at_line (part_of line.now) (entry_head next (words_of (part_of line.now))))) }
    ensures some { IfOk result (λ head. 0 < head.edits) }
{
    let words = words_of(alloc, line)?;
    match entry_head(words.as_slice(), next) {
        Ok(head) => Ok(head),
        Err(stop) => Err(fault_of(line.at, stop)),
    }
}

/// The edit of the next line of a text of that length.
#[tactic(auto, using(crate::proofs::JournalLemmas::stopped), unfolding(crate::specs::Journal::entries))]
fn next_edit(alloc: Global, lines: &mut Lines<'_>, size: usize) -> Result<Edit, ReadFault>
    ensures value { (t : Text) (left session due : ℕ) (edits : List Edit) (all : List Entry)
        → t.size ≡ size
        → MatchResult result
        (λ e. entries t (Ok (edits_left t left session (due - 1) (edits ++ e ∷ []) all)) lines.new
        ≡ entries t (Ok (edit left session due edits all)) lines.old)
        (λ fault. Fails fault (entries t (Ok (edit left session due edits all)) lines.old)) }
    ensures fewer { IfOk result (λ _. length lines.new < length lines.old) }
{
    let line = next_line(lines, size)?;
    line_edit(alloc, &line)
}

/// The edits of an entry, so many lines of a text of that length.
#[tactic(auto, using(crate::proofs::JournalLemmas::stopped), unfolding(crate::specs::Journal::entries))]
fn edits(
    alloc: Global,
    lines: &mut Lines<'_>,
    size: usize,
    count: usize,
) -> Result<Items<Edit>, ReadFault>
    ensures value { (t : Text) (left session : ℕ) (all : List Entry) → t.size ≡ size
        → MatchResult result
        (λ edits. entries t (Ok (edits_left t left session 0 edits all)) lines.new
        ≡ entries t (Ok (edits_left t left session count [] all)) lines.old)
        (λ fault. Fails fault (entries t (Ok (edits_left t left session count [] all)) lines.old)) }
    ensures fewer { IfOk result (λ _. length lines.new ≤ length lines.old) }
{
    let mut edits = Items::new(alloc);
    let mut due = count;
    while due > 0 {
        edits.push(next_edit(alloc, lines, size)?)?;
        due -= 1;
    }
    Ok(edits)
}

/// The entry of that number, by its lines.
#[tactic(auto, using(crate::proofs::JournalLemmas::stopped), unfolding(crate::specs::Journal::entries))]
fn entry(alloc: Global, lines: &mut Lines<'_>, size: usize, next: u128) -> Result<Entry, ReadFault>
    ensures value { (t : Text) (left : ℕ) (all : List Entry) → t.size ≡ size
        → t.first + length all + 1 ≡ next
        → MatchResult result
        (λ found. entries t (Ok (entries_left t (left - 1) (all ++ found ∷ []))) lines.new
        ≡ entries t (Ok (entry left all)) lines.old)
        (λ fault. Fails fault (entries t (Ok (entry left all)) lines.old)) }
    ensures fewer { IfOk result (λ _. length lines.new < length lines.old) }
{
    let line = next_line(lines, size)?;
    let head = head(alloc, &line, next)?;
    let edits = edits(alloc, lines, size, head.edits)?;
    Ok(Entry {
        session: head.session,
        eco: Eco { edits },
    })
}

/// So many entries of a text of that length, behind those that were read.
#[tactic(auto, using(crate::proofs::JournalLemmas::stopped), unfolding(crate::specs::Journal::entries))]
pub(crate) fn entries(
    alloc: Global,
    lines: &mut Lines<'_>,
    size: usize,
    count: u128,
    all: &mut Items<Entry>,
) -> Result<(), ReadFault>
    ensures value { (t : Text) → t.size ≡ size → t.first ≡ 0
        → MatchResult result
        (λ _. entries t (Ok (block_left t all.new)) lines.new
        ≡ entries t (Ok (entries_left t count all.old)) lines.old)
        (λ fault. Fails fault (entries t (Ok (entries_left t count all.old)) lines.old)) }
    ensures fewer { IfOk result (λ _. length lines.new ≤ length lines.old) }
{
    let mut left = count;
    while left > 0 {
        let next = all.len() as u128 + 1;
        all.push(entry(alloc, lines, size, next)?)?;
        left -= 1;
    }
    Ok(())
}

/// The count of `journal 1 COUNT` by the words of its line, which begins at that place.
fn plain_count(words: &[Span<'_>], at: usize) -> Result<u128, ReadFault>
    ensures { (line : Part) → line.at ≡ at
        → Tells result (plain_form line (map part_of words.now)) }
{
    if !is_form(words, 3, b"journal") {
        return Err(bad_line(at));
    }
    match number_of(text_at(words, 1)) {
        None => Err(bad_number(begin_of(words, 1))),
        Some(1) => count_at(words, 2),
        Some(_) => Err(ReadFault::At {
            code: Code::JournalVersion,
            offset: begin_of(words, 1) as u64,
        }),
    }
}

fn plain_head(alloc: Global, line: &Span<'_>) -> Result<u128, ReadFault>
    requires { line.now.at + length line.now.text.now < 2 ^ 64 }
    ensures { Tells result (plain_head (part_of line.now)) }
{
    let words = words_of(alloc, line)?;
    plain_count(words.as_slice(), line.at)
}

/// The count of the entries of a journal, by its first line.
#[tactic(auto, unfolding(crate::specs::Journal::entries))]
fn counted(alloc: Global, lines: &mut Lines<'_>, size: usize) -> Result<u128, ReadFault>
    ensures { (t : Text) → t.size ≡ size
        → MatchResult result
        (λ count. entries t (Ok (entries_left t count [])) lines.new
        ≡ entries t (Ok heading) lines.old)
        (λ fault. Fails fault (entries t (Ok heading) lines.old)) }
{
    let line = next_line(lines, size)?;
    plain_head(alloc, &line)
}

/// The entries of a journal, of which these lines are all.
#[tactic(auto, using(crate::proofs::JournalLemmas::stopped), unfolding(crate::specs::Journal::entries))]
fn whole(alloc: Global, lines: &mut Lines<'_>, size: usize) -> Result<Items<Entry>, ReadFault>
    ensures { (t : Text) → t.size ≡ size → t.first ≡ 0 → t.saved ≡ false
        → Tells result (entries t (Ok heading) lines.old) }
{
    let count = counted(alloc, lines, size)?;
    let mut all = Items::new(alloc);
    entries(alloc, lines, size, count, &mut all)?;
    match lines.next() {
        None => Ok(all),
        Some(line) => Err(bad_line(line.at)),
    }
}

/// The entries of a journal: `journal 1 COUNT`, then for each entry `entry N session S edits M` and
/// its M edits, a line each, which are such as `read_eco` gives.
///
/// # Errors
///
/// The fault of least place. `J1`: a line of another form or out of count, at the line's first
/// byte; one that is missing is named by the text's length. `J2`: a number word that is none or
/// out of its range. `J3`: a first number other than 1. Or want of memory.
pub fn read_entries(alloc: Global, bytes: &[u8]) -> Result<Items<Entry>, ReadFault>
    ensures value { Tells result (entries_of bytes.now) }
    ensures kept { IfOk result (λ all. list_all (λ (e : Entry). is_eco e.eco) all ≡ true) }
{
    let mut lines = Lines::new(bytes);
    whole(alloc, &mut lines, bytes.len())
}

/// The edits of a text that has nothing else.
#[tactic(auto, using(crate::proofs::JournalLemmas::eco_stopped), unfolding(crate::specs::Journal::eco_edits))]
fn whole_eco(alloc: Global, lines: &[u8]) -> Result<Eco, ReadFault>
    ensures { Tells result (eco_of lines.now) }
{
    let size = lines.len();
    let mut rest = Lines::new(lines);
    let mut edits = Items::new(alloc);
    while let Some(line) = rest.next() {
        if edits.len() == EDIT_LIMIT {
            return Err(bad_line(line.at));
        }
        edits.push(line_edit(alloc, &line)?)?;
    }
    if edits.is_empty() {
        return Err(bad_line(size));
    }
    Ok(Eco { edits })
}

/// The edits of a text of edit lines alone, of which there are 1 to 1,000. New parasitics name the
/// net of their edit, with numbers from 0 to 10^12.
///
/// # Errors
///
/// The fault of least place. `J1`: a line of another form, the 1,001st line, or no line. `J2`: a
/// number word that is none or out of its range. Or want of memory.
pub fn read_eco(alloc: Global, lines: &[u8]) -> Result<Eco, ReadFault>
    ensures value { Tells result (eco_of lines.now) }
    ensures kept { IfOk result (λ eco. is_eco eco ≡ true) }
{
    whole_eco(alloc, lines)
}
