//! Shelves of documents by name.

ghost use Rattle.std.specs.Prelude.{◌≡◌, ℕ, ◌≤◌, List};
ghost use Rattle.std.specs.Prelude.{IfOk, IfErr, OnOk, length};
ghost use Rattle.std.specs.declared.option.Option.{Option};
ghost use Rattle.std.specs.declared.option.Option.TheVariants.{Some};
ghost use Rattle.sta_outside.specs.Shelf.{Told, HasCause, document_limit};

use std::alloc::{AllocError, Global};
use thiserror::Error;

/// The greatest length of a document, in bytes: 64 MiB.
pub const DOCUMENT_LIMIT: u64 = 67_108_864;

/// Why a document was not fetched.
#[derive(Debug, Clone, Copy, PartialEq, Eq, Drop, Error)]
pub enum Fetch {
    /// The shelf failed, and its count of faults rose.
    #[error("the shelf failed")]
    Failed,
    /// The shelf has no document of this name.
    #[error("no such document")]
    Absent,
    /// The document has more bytes than the limit; `seen` of them were seen.
    #[error("the document has more than 64 MiB")]
    TooLong { seen: u64 },
    /// Want of memory.
    #[error("out of memory")]
    Memory,
}

impl From<AllocError> for Fetch {
    ghost use Rattle.sta_outside.specs.declared.shelf.Fetch.{Fetch};

    ghost from_gives = { λ _ told. told ≡ Fetch.Memory };

    fn from(_refused: AllocError) -> Fetch {
        Fetch::Memory
    }
}

/// A shelf of documents by name.
pub trait Shelf {
    /// The documents by name, where the shelf tells them. They never change.
    ghost holds: { Self → Option (List (List ℕ × List ℕ)) };

    /// How often the shelf failed. The count never falls, and stands still at `2^64 - 1`.
    ghost faults: { Self → ℕ };

    /// Fetches the bytes of a document, at most [`DOCUMENT_LIMIT`] of them.
    ///
    /// # Errors
    ///
    /// `Failed` only where the count of faults rose, `Absent` only where the told map lacks the
    /// name, `TooLong` only where the document is longer than the limit, and `Memory`. Every
    /// answer but `Failed` leaves the count as it was.
    fn fetch(&mut self, alloc: Global, name: &str) -> Result<Vec<u8>, Fetch>
        ensures map { holds self.new ≡ holds self.old }
        ensures count { faults self.old ≤ faults self.new }
        ensures bytes { IfOk result (λ doc. Told (holds self.old) name.now doc.items) }
        ensures within { IfOk result (λ doc. length doc.items ≤ document_limit) }
        ensures quiet { OnOk result (faults self.new ≡ faults self.old) }
        ensures cause { IfErr result (λ fault. HasCause fault (holds self.old) name.now (faults self.old) (faults self.new)) };
}
