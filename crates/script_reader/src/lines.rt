//! What the lines of a script say.

ghost use Rattle.std.specs.Prelude.{◌≡◌, ℕ, true, map, IfOk};
ghost use Rattle.std.specs.List.{list_all};
ghost use Rattle.sta_text.specs.Bytes.{begins};
ghost use Rattle.eco_journal.specs.Lines.{part_of};
ghost use Rattle.eco_journal.specs.EditLines.{edit_of};
ghost use Rattle.script_reader.specs.Scripts.{is_ascii, is_passed, is_alone, edit_said, words_said, line_said};
ghost use Rattle.script_reader.specs.Progress.{said_events};

use crate::commands::{command_of, words_in};
use eco_journal::{Span, Stop, read_edit, says, text_at};
use sta_units::Memory;
use std::alloc::Global;
use timing_defs::{Command, Edit};

/// What a line says: nothing, the begin or the end of a group, the begin or the end of a draft, that
/// the last edits of a draft are dropped, an edit, another command, or none of these.
#[derive(Drop)]
pub(crate) enum Said {
    Passed,
    Begin,
    End,
    BeginDraft,
    EndDraft,
    Drops,
    Changes(Edit),
    Runs(Command),
    Unfit,
}

fn is_ascii(line: &[u8]) -> bool
    ensures { result ≡ list_all is_ascii line.now }
{
    line.iter().all(|byte| *byte <= 127)
}

fn begins_comment(word: &[u8]) -> bool
    ensures { result ≡ begins 35 word.now }
{
    match word.split_first() {
        Some((first, _)) => *first == b'#',
        None => false,
    }
}

/// Whether a line has no word, or is a comment.
fn is_passed(words: &[Span<'_>]) -> bool
    ensures { result ≡ is_passed (map part_of words.now) }
{
    words.is_empty() || begins_comment(text_at(words, 0))
}

/// Whether a line is this one word.
fn is_alone(words: &[Span<'_>], word: &[u8]) -> bool
    ensures { result ≡ is_alone (map part_of words.now) word.now }
{
    words.len() == 1 && says(words, 0, word)
}

/// What a line says that is an edit, or nothing that a script may say.
fn edit_said(alloc: Global, words: &[Span<'_>]) -> Result<Said, Memory>
    ensures { IfOk result
        (λ s. (n : ℕ) → edit_said n (edit_of true (map part_of words.now)) ≡ said_events n s) }
{
    match read_edit(alloc, words, true) {
        Ok(edit) => Ok(Said::Changes(edit)),
        Err(Stop::Memory) => Err(Memory),
        Err(_) => Ok(Said::Unfit),
    }
}

/// What the words of a line say.
fn words_said(alloc: Global, words: &[Span<'_>]) -> Result<Said, Memory>
    ensures { IfOk result (λ s. (n : ℕ) → words_said n (map part_of words.now) ≡ said_events n s) }
{
    if is_passed(words) {
        return Ok(Said::Passed);
    }
    if is_alone(words, b"begin_eco") {
        return Ok(Said::Begin);
    }
    if is_alone(words, b"commit_eco") {
        return Ok(Said::End);
    }
    if is_alone(words, b"begin_what_if") {
        return Ok(Said::BeginDraft);
    }
    if is_alone(words, b"end_what_if") {
        return Ok(Said::EndDraft);
    }
    if is_alone(words, b"drop_last") {
        return Ok(Said::Drops);
    }
    match command_of(alloc, words)? {
        Some(command) => Ok(Said::Runs(command)),
        None => edit_said(alloc, words),
    }
}

/// What a line says.
pub(crate) fn read_line(alloc: Global, line: &[u8]) -> Result<Said, Memory>
    ensures { IfOk result (λ s. (n : ℕ) → line_said n line.now ≡ said_events n s) }
{
    if !is_ascii(line) {
        return Ok(Said::Unfit);
    }
    let words = words_in(alloc, line)?;
    words_said(alloc, words.as_slice())
}
