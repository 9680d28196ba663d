//! The shelf of the file system.

ghost use Rattle.std.specs.Prelude.{◌≡◌, ◌+◌, ◌≤◌, IfOk, IfErr, OnOk, None, List, ℕ, length, vec_len};
ghost use Rattle.std.specs.Bool.{OnTrue};
ghost use Rattle.std.specs.declared.option.Option.{Option};
ghost use Rattle.std.specs.Io.KnownBytes.{Consumes, IsAtEnd};
ghost use Rattle.sta_outside.specs.Files.{IsReadFault, StopsPastLimit, AllOf};
ghost use Rattle.sta_outside.specs.Shelf.{document_limit, untold, Told, HasCause};

use crate::shelf::{DOCUMENT_LIMIT, Fetch, Shelf};
use std::alloc::Global;
use std::fs;
use std::io::{ErrorKind, Read};
use std::rt::Files;

/// A shelf of files by their paths. It tells no documents, and a missing file is a fault.
#[derive(Drop)]
pub struct FileShelf<'a, R: Files> {
    rt: &'a R,
    faults: u64,
}

impl<'a, R: Files> FileShelf<'a, R> {
    /// The shelf of a runtime's files.
    pub fn new(rt: &'a R) -> FileShelf<'a, R>
        ensures { result.faults ≡ 0 }
    {
        FileShelf { rt, faults: 0 }
    }

    /// How often it failed.
    pub fn fault_count(&self) -> u64
        ensures { result ≡ self.now.faults }
    {
        self.faults
    }
}

impl<R: Files> Shelf for FileShelf<'_, R> {
    ghost holds = { λ _. untold };

    ghost faults = { λ shelf. shelf.faults };

    fn fetch(&mut self, alloc: Global, name: &str) -> Result<Vec<u8>, Fetch>
        ensures map { untold ≡ untold }
        ensures count { self.old.faults ≤ self.new.faults }
        ensures bytes { IfOk result (λ doc. Told untold name.now doc.items) }
        ensures within { IfOk result (λ doc. length doc.items ≤ document_limit) }
        ensures quiet { OnOk result (self.new.faults ≡ self.old.faults) }
        ensures cause { IfErr result (λ fault. HasCause fault untold name.now self.old.faults self.new.faults) }
        // a document that is too long is read to one byte past the limit
        ensures stops { IfErr result (λ fault. StopsPastLimit fault None) }
    {
        let result = read_file(self.rt, alloc, name);
        if let Err(Fetch::Failed) = result {
            self.faults = self.faults.saturating_add(1);
        }
        result
    }
}

/// The bytes of a file.
fn read_file<R: Files>(rt: &R, alloc: Global, name: &str) -> Result<Vec<u8>, Fetch>
    ensures within { IfOk result (λ doc. length doc.items ≤ document_limit) }
    ensures stops { IfErr result (λ fault. StopsPastLimit fault None) }
{
    let Ok(mut file) = fs::open(rt, name) else {
        return Err(Fetch::Failed);
    };
    read_document(alloc, &mut file)
}

/// All bytes of a source, which is read to one byte past the limit at most.
///
/// # Errors
///
/// `Failed` where a read fails, `TooLong` past [`DOCUMENT_LIMIT`], and `Memory`.
pub fn read_document<F: Read>(alloc: Global, source: &mut F) -> Result<Vec<u8>, Fetch>
    ensures whole { IfOk result (λ doc. AllOf (F.remaining source.old) doc.items) }
    ensures within { IfOk result (λ doc. length doc.items ≤ document_limit) }
    ensures stops { IfErr result (λ fault. StopsPastLimit fault (F.remaining source.old)) }
{
    let mut doc = Vec::new(alloc);
    for _ in 0..u64::MAX {
        if read_piece(source, &mut doc)? {
            return Ok(doc);
        }
        let seen = doc.len() as u64;
        if seen > DOCUMENT_LIMIT {
            return Err(Fetch::TooLong { seen });
        }
    }
    Err(Fetch::Failed)
}

/// The bytes that one read asks for.
const PIECE: usize = 8192;

/// Reads once, to one byte past the limit at most, and appends what came. Tells whether the
/// source is at its end; where the read was interrupted nothing came.
fn read_piece<F: Read>(source: &mut F, doc: &mut Vec<u8>) -> Result<bool, Fetch>
    requires { vec_len doc.old ≤ document_limit }
    // what was read before, and what came, are the first bytes that the source had
    ensures read { (start : Option (List ℕ)) → Consumes start (F.remaining source.old) doc.old.items → OnOk result (Consumes start (F.remaining source.new) doc.new.items) }
    ensures within { vec_len doc.new ≤ document_limit + 1 }
    ensures end { IfOk result (λ is_end. OnTrue is_end (IsAtEnd (F.remaining source.new))) }
    ensures kept { IfOk result (λ is_end. OnTrue is_end (vec_len doc.new ≤ document_limit)) }
    ensures fault { IfErr result IsReadFault }
{
    let mut piece = [0; PIECE];
    let asked = PIECE.min(DOCUMENT_LIMIT as usize + 1 - doc.len());
    match source.read(&mut piece[..asked]) {
        Ok(0) => Ok(true),
        Ok(count) => {
            doc.extend_from_slice(&piece[..count])?;
            Ok(false)
        }
        Err(fault) if fault.kind() == ErrorKind::Interrupted => Ok(false),
        Err(_) => Err(Fetch::Failed),
    }
}
