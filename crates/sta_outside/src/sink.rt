//! Sinks of output.

ghost use Rattle.std.specs.Prelude.{◌≡◌, ℕ, ◌≤◌, List, OnOk, OnErr};
ghost use Rattle.std.specs.declared.option.Option.{Option};
ghost use Rattle.std.specs.declared.option.Option.TheVariants.{Some};
ghost use Rattle.sta_outside.specs.Shelf.{Rose};
ghost use Rattle.sta_outside.specs.Sink.{Appends, AppendsPrefix};

use thiserror::Error;

/// Why a piece was not put whole.
#[derive(Debug, Clone, Copy, PartialEq, Eq, Drop, Error)]
pub enum PutFault {
    /// The sink failed, and its count of faults rose.
    #[error("the sink failed")]
    Failed,
}

/// A sink of bytes.
pub trait Sink {
    /// The bytes that were written, where the sink tells them.
    ghost written: { Self → Option (List ℕ) };

    /// How often the sink failed. The count never falls, and stands still at `2^64 - 1`.
    ghost faults: { Self → ℕ };

    /// Appends a piece.
    ///
    /// # Errors
    ///
    /// `Failed` only where the count of faults rose; a prefix of the piece was appended.
    fn put(&mut self, bytes: &[u8]) -> Result<(), PutFault>
        ensures count { faults self.old ≤ faults self.new }
        ensures appended { OnOk result (Appends (written self.old) (written self.new) bytes.now) }
        ensures quiet { OnOk result (faults self.new ≡ faults self.old) }
        ensures cause { OnErr result (Rose (faults self.old) (faults self.new)) }
        ensures partly { OnErr result (AppendsPrefix (written self.old) (written self.new) bytes.now) };
}
