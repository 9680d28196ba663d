//! A shelf in memory.

ghost use Rattle.std.specs.Prelude.{◌≡◌, ◌≤◌, Some, IfOk, IfErr, OnOk, length, map, zip, option_map};
ghost use Rattle.std.specs.String.{string_bytes};
ghost use Rattle.std.specs.Vec.{vec_items};
ghost use Rattle.sta_outside.specs.InMemory.{documents, Answers};
ghost use Rattle.sta_outside.specs.Plan.{next_fails, after_call};
ghost use Rattle.sta_outside.specs.Shelf.{held, document_limit, Told, HasCause};

use crate::plan::Plan;
use crate::shelf::{DOCUMENT_LIMIT, Fetch, Shelf};
use std::alloc::Global;

/// A shelf in memory, which tells its documents, and fails at the calls that are planned.
#[derive(Drop)]
pub struct MemShelf {
    names: Vec<String>,
    docs: Vec<Vec<u8>>,
    plan: Plan,
}

impl MemShelf {
    /// A shelf of the documents under the names at their places. Its calls are numbered from 1,
    /// and those in `fails` fail. Of a name that stands twice the first document counts.
    pub fn new(names: Vec<String>, docs: Vec<Vec<u8>>, fails: Vec<u64>) -> MemShelf
        ensures documents { documents result ≡ zip (map string_bytes names.items) (map vec_items docs.items) }
        ensures plan { result.plan ≡ record { fails = fails; calls = 0; faults = 0 } }
    {
        MemShelf {
            names,
            docs,
            plan: Plan::new(fails),
        }
    }

    /// How often it failed.
    pub fn fault_count(&self) -> u64
        ensures { result ≡ self.now.plan.faults }
    {
        self.plan.faults
    }
}

impl Shelf for MemShelf {
    ghost holds = { λ shelf. Some (documents shelf) };

    ghost faults = { λ shelf. shelf.plan.faults };

    fn fetch(&mut self, alloc: Global, name: &str) -> Result<Vec<u8>, Fetch>
        ensures map { documents self.new ≡ documents self.old }
        ensures count { self.old.plan.faults ≤ self.new.plan.faults }
        ensures bytes { IfOk result (λ doc. Told (Some (documents self.old)) name.now doc.items) }
        ensures within { IfOk result (λ doc. length doc.items ≤ document_limit) }
        ensures quiet { OnOk result (self.new.plan.faults ≡ self.old.plan.faults) }
        ensures cause { IfErr result (λ fault. HasCause fault (Some (documents self.old)) name.now self.old.plan.faults self.new.plan.faults) }
        // when each answer comes
        ensures answers { Answers result (next_fails self.old.plan) (held (documents self.old) name.now) }
        ensures plan { self.new.plan ≡ after_call self.old.plan }
    {
        if self.plan.next_fails() {
            return Err(Fetch::Failed);
        }
        let Some(doc) = find(&self.names, &self.docs, name) else {
            return Err(Fetch::Absent);
        };
        let seen = doc.len() as u64;
        if seen > DOCUMENT_LIMIT {
            return Err(Fetch::TooLong { seen });
        }
        Ok(Vec::from_slice(alloc, doc)?)
    }
}

/// The document of a name, the first where the name stands twice.
fn find<'a>(mut names: &[String], mut docs: &'a [Vec<u8>], wanted: &str) -> Option<&'a [u8]>
    ensures { option_map (λ doc. doc.now) result ≡ held (zip (map string_bytes names.now) (map vec_items docs.now)) wanted.now }
{
    while let [name, names_left @ ..] = names {
        let [doc, docs_left @ ..] = docs else {
            return None;
        };
        if name.as_str() == wanted {
            return Some(doc.as_slice());
        }
        names = names_left;
        docs = docs_left;
    }
    None
}
