//! Journals and edits, read and written again.

use crate::texts::Text;
use eco_journal::{
    block_read_back, block_text, eco_can_be_written, eco_read_back, entry_text, journal_read_back,
    read_eco, read_entries, read_saved, saved_read_back,
};
use std::alloc::Global;
use timing_defs::{Derates, Eco, Entry, Items};

/// The session that makes the edits of a row.
const SESSION: u32 = 16;

/// Derates that change something.
pub(crate) fn scaled() -> Derates {
    Derates {
        early_cell: 900_000,
        late_cell: 1_100_000,
        early_net: 900_000,
        late_net: 1_000_000,
    }
}

/// Writes an entry as the text of a journal has it.
fn show_entry(alloc: Global, number: u64, entry: &Entry, out: &mut Text) {
    match entry_text(alloc, number, entry) {
        Ok(text) => out.add(text.as_bytes()),
        Err(_) => out.want(),
    }
}

fn show_count(mark: &[u8], count: usize, out: &mut Text) {
    out.count(mark, count as u64);
    out.end();
}

/// Writes how many entries there are, and each of them.
fn show_entries(alloc: Global, entries: &Items<Entry>, out: &mut Text) {
    show_count(b"entries ", entries.len(), out);
    let mut number = 0u64;
    for entry in entries.as_slice() {
        number = number.saturating_add(1);
        show_entry(alloc, number, entry, out);
    }
}

/// Writes the entries of a journal.
pub(crate) fn answer_journal(alloc: Global, document: &[u8], out: &mut Text) {
    journal_read_back();
    match read_entries(alloc, document) {
        Ok(entries) => {
            show_entries(alloc, &entries, out);
            drop(entries);
        }
        Err(fault) => out.fault(fault),
    }
}

/// Writes the entries of a saved journal under these derates.
pub(crate) fn answer_saved(alloc: Global, derates: &Derates, document: &[u8], out: &mut Text) {
    saved_read_back();
    match read_saved(alloc, document, derates) {
        Ok(entries) => {
            show_entries(alloc, &entries, out);
            drop(entries);
        }
        Err(fault) => out.fault(fault),
    }
}

/// Writes edits as the first entry of a journal.
pub(crate) fn answer_edits(alloc: Global, document: &[u8], out: &mut Text) {
    eco_read_back();
    eco_can_be_written();
    match read_eco(alloc, document) {
        Ok(eco) => {
            let entry = Entry {
                session: SESSION,
                eco,
            };
            show_entry(alloc, 1, &entry, out);
            drop(entry);
        }
        Err(fault) => out.fault(fault),
    }
}

/// Writes how many edits there are.
pub(crate) fn count_edits(alloc: Global, document: &[u8], out: &mut Text) {
    match read_eco(alloc, document) {
        Ok(eco) => {
            show_count(b"edits ", eco.edits.len(), out);
            drop(eco);
        }
        Err(fault) => out.fault(fault),
    }
}

/// Writes the block of a saved journal that has edits of the first session behind one entry.
fn show_block(alloc: Global, eco: Eco, out: &mut Text) {
    let mut entries = Items::new(alloc);
    if entries.push(Entry { session: 1, eco }).is_err() {
        out.want();
    }
    match block_text(alloc, 1, &Derates::none(), &entries) {
        Ok(text) => out.add(text.as_slice()),
        Err(_) => out.want(),
    }
    drop(entries);
}

/// Writes edits as a block of a saved journal.
pub(crate) fn answer_block(alloc: Global, document: &[u8], out: &mut Text) {
    block_read_back();
    match read_eco(alloc, document) {
        Ok(eco) => show_block(alloc, eco, out),
        Err(fault) => out.fault(fault),
    }
}
