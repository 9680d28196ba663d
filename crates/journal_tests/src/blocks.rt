//! Blocks of one entry each, by hand.

use eco_journal::{read_entries, read_saved};
use live_journal::{check_end, single_blocks};
use std::alloc::Global;
use std::process::Abort;
use timing_defs::{Code, Derates, Entry, Items, ReadFault};

const JOURNAL: &[u8] =
    b"journal 1 2\nentry 1 session 1 edits 1\nrepower_gate g1 BUF_X16\nentry 2 session 3 edits 2\ninsert_net n\nremove_net n\n";

const BLOCKS: &[u8] =
    b"journal 2 2 1\nderates 1000000 1000000 1000000 1000000\nentry 3 session 1 edits 1\nrepower_gate g1 BUF_X16\njournal 2 3 1\nderates 1000000 1000000 1000000 1000000\nentry 4 session 3 edits 2\ninsert_net n\nremove_net n\n";

fn entries(rt: &impl Abort, alloc: Global) -> Items<Entry> {
    read_entries(alloc, JOURNAL).expect(rt, "a journal")
}

/// The journal and the blocks behind it.
fn behind(rt: &impl Abort, alloc: Global, blocks: &[u8]) -> Vec<u8> {
    let mut bytes = Vec::from_slice(alloc, JOURNAL).expect(rt, "memory");
    sta_units::append(&mut bytes, blocks).expect(rt, "memory");
    bytes
}

/// How many entries a saved journal has.
fn count(rt: &impl Abort, alloc: Global, bytes: &[u8]) -> Result<usize, ReadFault> {
    let read = read_saved(alloc, bytes, &Derates::none());
    match read {
        Ok(entries) => Ok(entries.len()),
        Err(fault) => Err(fault),
    }
}

#[test]
fn each_entry_is_a_block_numbered_behind_those_before(rt: HostRuntime) {
    let alloc = rt.alloc();
    let entries = entries(&rt, alloc);
    let bytes = single_blocks(alloc, &Derates::none(), 2, entries.as_slice()).expect(&rt, "memory");
    assert_eq!(rt; bytes.as_slice(), BLOCKS);
}

#[test]
fn blocks_are_read_behind_a_saved_journal(rt: HostRuntime) {
    let alloc = rt.alloc();
    let saved = behind(&rt, alloc, BLOCKS);
    assert_eq!(rt; count(&rt, alloc, &saved), Ok(4));
    assert_eq!(rt; check_end(&saved), Ok(()));
}

#[test]
fn a_journal_that_lacks_its_last_line_feed_is_refused(rt: HostRuntime) {
    assert_eq!(rt; check_end(b""), Ok(()));
    assert_eq!(rt; check_end(b"\n"), Ok(()));
    assert_eq!(rt; check_end(b"journal 1 0\n"), Ok(()));
    let torn = Err(ReadFault::At {
        code: Code::JournalBadLine,
        offset: 11,
    });
    assert_eq!(rt; check_end(b"journal 1 0"), torn);
}
