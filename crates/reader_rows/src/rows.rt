//! Rows: the reader that each names, its document, and what answers it.
//!
//! The readers are
//! - `liberty-tokens`, `verilog-tokens`, `tcl-tokens`, `spef-tokens`, `script-tokens`: the tokens of a text;
//! - `names`: names of one byte, kept one after another;
//! - `tree`, `statements`, `library`, `sizes`, `units`: a Liberty text, as a tree, by the statements that
//!   have ended, by its cells, by how much they have, and by its units;
//! - `netlist`, `parasitics`;
//! - `constraints-ps`, `constraints-ns`: constraints in fF and in ps or ns;
//! - `script`, `commands`: a script, by its commands or by their count;
//! - `session`, `session-counts`: a session that is read line by line, by its items, or by its errors and the count of
//!   its commands;
//! - `journal`, `saved`, `saved-scaled`: a journal, and a saved one under derates that change nothing or some;
//! - `edits`, `edit-count`, `block`: edits, written as an entry, counted, or written as a block.

use crate::constraints::answer_constraints;
use crate::documents::add_piece;
use crate::journals::{
    answer_block, answer_edits, answer_journal, answer_saved, count_edits, scaled,
};
use crate::libraries::{answer_library, answer_sizes, answer_units};
use crate::names::answer_names;
use crate::netlists::answer_netlist;
use crate::parasitics::answer_parasitics;
use crate::scripts::{answer_script, count_commands};
use crate::sessions::{answer_session, count_session};
use crate::texts::Text;
use crate::tokens::answer_tokens;
use crate::trees::{answer_statements, answer_tree};
use std::alloc::Global;
use timing_defs::{Derates, Style};

/// What answers a row.
#[derive(Clone, Copy, Drop)]
enum Reader {
    Tokens(Style),
    Names,
    Tree,
    Statements,
    Library,
    Sizes,
    Units,
    Netlist,
    Parasitics,
    Constraints { time: i32 },
    Script,
    Commands,
    Session,
    SessionCounts,
    Journal,
    Saved { scaled: bool },
    Edits,
    EditCount,
    Block,
}

/// The reader of a word.
fn reader_of(word: &str) -> Option<Reader> {
    match word {
        "names" => Some(Reader::Names),
        "netlist" => Some(Reader::Netlist),
        "parasitics" => Some(Reader::Parasitics),
        "constraints-ps" => Some(Reader::Constraints { time: 3 }),
        "constraints-ns" => Some(Reader::Constraints { time: 6 }),
        "script" => Some(Reader::Script),
        "commands" => Some(Reader::Commands),
        "session" => Some(Reader::Session),
        "session-counts" => Some(Reader::SessionCounts),
        _ => match journal_reader(word) {
            None => liberty_reader(word),
            found => found,
        },
    }
}

fn journal_reader(word: &str) -> Option<Reader> {
    match word {
        "journal" => Some(Reader::Journal),
        "saved" => Some(Reader::Saved { scaled: false }),
        "saved-scaled" => Some(Reader::Saved { scaled: true }),
        "edits" => Some(Reader::Edits),
        "edit-count" => Some(Reader::EditCount),
        "block" => Some(Reader::Block),
        _ => None,
    }
}

fn liberty_reader(word: &str) -> Option<Reader> {
    match word {
        "tree" => Some(Reader::Tree),
        "statements" => Some(Reader::Statements),
        "library" => Some(Reader::Library),
        "sizes" => Some(Reader::Sizes),
        "units" => Some(Reader::Units),
        _ => match style_of(word) {
            Some(style) => Some(Reader::Tokens(style)),
            None => None,
        },
    }
}

fn style_of(word: &str) -> Option<Style> {
    match word {
        "liberty-tokens" => Some(Style::Liberty),
        "verilog-tokens" => Some(Style::Verilog),
        "tcl-tokens" => Some(Style::Tcl),
        "spef-tokens" => Some(Style::Spef),
        "script-tokens" => Some(Style::Script),
        _ => None,
    }
}

/// Writes what a reader gives for a document.
fn answer(alloc: Global, reader: Reader, document: &[u8], out: &mut Text) {
    match reader {
        Reader::Tokens(style) => answer_tokens(style, document, out),
        Reader::Names => answer_names(alloc, document, out),
        Reader::Tree => answer_tree(alloc, document, out),
        Reader::Statements => answer_statements(alloc, document, out),
        Reader::Library => answer_library(alloc, document, out),
        Reader::Sizes => answer_sizes(alloc, document, out),
        Reader::Units => answer_units(alloc, document, out),
        Reader::Netlist => answer_netlist(alloc, document, out),
        Reader::Parasitics => answer_parasitics(alloc, document, out),
        Reader::Constraints { time } => answer_constraints(alloc, time, document, out),
        Reader::Script => answer_script(alloc, document, out),
        Reader::Commands => count_commands(alloc, document, out),
        Reader::Session => answer_session(alloc, document, out),
        Reader::SessionCounts => count_session(alloc, document, out),
        Reader::Journal => answer_journal(alloc, document, out),
        Reader::Saved { scaled: true } => answer_saved(alloc, &scaled(), document, out),
        Reader::Saved { scaled: false } => answer_saved(alloc, &Derates::none(), document, out),
        Reader::Edits => answer_edits(alloc, document, out),
        Reader::EditCount => count_edits(alloc, document, out),
        Reader::Block => answer_block(alloc, document, out),
    }
}

/// The word behind `case`; none where a line begins no row.
fn reader_word(line: &str) -> Option<&str> {
    match line.split_once(' ') {
        Some(("case", rest)) => match rest.split_once(' ') {
            Some((word, _)) => Some(word),
            None => Some(rest),
        },
        _ => None,
    }
}

/// Begins a row with its first line, and gives the reader that its word names.
fn begin_row(line: &str, word: &str, out: &mut Text) -> Option<Reader> {
    out.line(line);
    let reader = reader_of(word);
    if reader.is_none() {
        out.add(b"no such reader\n");
    }
    reader
}

/// Writes the answer to a row of which the document is there; nothing where it has no reader.
fn answer_row(alloc: Global, reader: Option<Reader>, document: &Text, out: &mut Text) {
    if document.is_short() {
        out.want();
    }
    if let Some(reader) = reader {
        answer(alloc, reader, document.as_bytes(), out);
    }
}

/// Takes a line of a row's document, and writes a line that is none.
fn add_line(document: &mut Text, line: &str, out: &mut Text) {
    if line.is_empty() || line.starts_with("#") {
        return;
    }
    if !add_piece(document, line) {
        out.add(b"no line of a document: ");
        out.line(line);
    }
}

/// Writes the answers to all rows of a text.
pub(crate) fn answer_rows(alloc: Global, text: &str, out: &mut Text) {
    let mut document = Text::new(alloc);
    let mut reader = None;
    for line in text.lines() {
        match reader_word(line) {
            Some(word) => {
                answer_row(alloc, reader, &document, out);
                document.clear();
                reader = begin_row(line, word, out);
            }
            None => add_line(&mut document, line, out),
        }
    }
    answer_row(alloc, reader, &document, out);
}
