//! Liberty texts: the outermost group, each word with its place, and the statements of a text that is broken.

use crate::texts::Text;
use liberty_syntax::{Reading, read, read_tree};
use std::alloc::Global;
use timing_defs::{Item, Lexeme, Tree};

fn show_lexeme(lexeme: &Lexeme, out: &mut Text) {
    out.add(b" ");
    if lexeme.quoted {
        out.add(b"\"");
    }
    out.add(lexeme.text.as_slice());
    if lexeme.quoted {
        out.add(b"\"");
    }
    out.count(b"@", lexeme.offset);
}

fn show_statement(sort: &[u8], word: &Lexeme, more: &[Lexeme], out: &mut Text) {
    out.add(sort);
    show_lexeme(word, out);
    for lexeme in more {
        show_lexeme(lexeme, out);
    }
    out.end();
}

fn show_item(item: &Item, out: &mut Text) {
    match item {
        Item::Group(tree) => show_statement(b"group", &tree.word, tree.args.as_slice(), out),
        Item::Complex { word, args } => show_statement(b"complex", word, args.as_slice(), out),
        Item::Simple { word, value } => show_statement(b"simple", word, value.as_slice(), out),
    }
}

fn show_tree(tree: &Tree, out: &mut Text) {
    show_statement(b"group", &tree.word, tree.args.as_slice(), out);
    for item in tree.items.as_slice() {
        show_item(item, out);
    }
}

/// Writes the outermost group and its statements.
pub(crate) fn answer_tree(alloc: Global, document: &[u8], out: &mut Text) {
    match read_tree(alloc, document) {
        Ok(tree) => {
            show_tree(&tree, out);
            drop(tree);
        }
        Err(fault) => out.fault(fault),
    }
}

/// Writes how many statements of the outermost group have ended where the text is broken.
pub(crate) fn answer_statements(alloc: Global, document: &[u8], out: &mut Text) {
    match read(alloc, document) {
        Ok(reading) => {
            match &reading {
                Reading::Whole(_) => out.add(b"whole"),
                Reading::Broken { items, wrong: _ } => out.count(b"broken ", items.len() as u64),
            }
            out.end();
            drop(reading);
        }
        Err(_) => out.want(),
    }
}
