//! What a shelf in memory answers, and how often it fails.

use sta_outside::{Fetch, MemShelf, Shelf};
use std::alloc::Global;
use std::process::Abort;

/// The names and the texts of a shelf's documents.
#[derive(Drop)]
struct Documents {
    names: Vec<String>,
    texts: Vec<Vec<u8>>,
}

fn no_documents(alloc: Global) -> Documents {
    Documents {
        names: Vec::new(alloc),
        texts: Vec::new(alloc),
    }
}

fn add_document(rt: &impl Abort, alloc: Global, docs: &mut Documents, name: &str, text: Vec<u8>) {
    let name = String::from_str(alloc, name).expect(rt, "memory");
    docs.names.push(name).expect(rt, "memory");
    docs.texts.push(text).expect(rt, "memory");
}

/// A library and an empty document, at a shelf that fails at its first and its fourth call.
fn failing_shelf(rt: &impl Abort, alloc: Global) -> MemShelf {
    let mut docs = no_documents(alloc);
    let library = b"library".to_vec(alloc).expect(rt, "memory");
    add_document(rt, alloc, &mut docs, "a.lib", library);
    add_document(rt, alloc, &mut docs, "s1", Vec::new(alloc));
    let fails = Vec::from_slice(alloc, &[1, 4]).expect(rt, "memory");
    MemShelf::new(docs.names, docs.texts, fails)
}

/// Asserts the text of a document, and how many calls have failed.
fn assert_text(
    rt: &impl Abort,
    alloc: Global,
    shelf: &mut MemShelf,
    name: &str,
    text: &str,
    faults: u64,
) {
    let doc = shelf.fetch(alloc, name).expect(rt, "a document");
    assert_eq!(rt; doc.as_slice(), text.as_bytes());
    assert_eq!(rt; shelf.fault_count(), faults);
}

/// Asserts why there is no document, and how many calls have failed.
fn assert_fault(
    rt: &impl Abort,
    alloc: Global,
    shelf: &mut MemShelf,
    name: &str,
    fault: Fetch,
    faults: u64,
) {
    assert_eq!(rt; shelf.fetch(alloc, name).err(), Some(fault));
    assert_eq!(rt; shelf.fault_count(), faults);
}

#[test]
fn a_shelf_in_memory_answers_by_its_plan_and_its_names(rt: HostRuntime) {
    let alloc = rt.alloc();
    let mut shelf = failing_shelf(&rt, alloc);
    assert_fault(&rt, alloc, &mut shelf, "a.lib", Fetch::Failed, 1);
    assert_text(&rt, alloc, &mut shelf, "a.lib", "library", 1);
    assert_fault(&rt, alloc, &mut shelf, "b.lib", Fetch::Absent, 1);
    assert_fault(&rt, alloc, &mut shelf, "b.lib", Fetch::Failed, 2);
    assert_text(&rt, alloc, &mut shelf, "s1", "", 2);
}

#[test]
fn a_document_past_the_limit_is_too_long(rt: HostRuntime) {
    let alloc = rt.alloc();
    let seen = 67_108_865;
    let mut docs = no_documents(alloc);
    let text = vec![in alloc; 32; 67_108_865].expect(&rt, "memory");
    add_document(&rt, alloc, &mut docs, "long", text);
    let mut shelf = MemShelf::new(docs.names, docs.texts, Vec::new(alloc));
    assert_fault(&rt, alloc, &mut shelf, "long", Fetch::TooLong { seen }, 0);
}
