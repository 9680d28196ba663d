//! The file of a journal, where there is one.

ghost use Rattle.std.specs.Prelude.{◌≡◌};
ghost use Rattle.live_journal.specs.Sinks.{file_of};

use sta_outside::{PutFault, Sink};

/// The file of a journal. `Nowhere` takes all, tells nothing and never fails, so that a run without a journal has a desk, too.
#[derive(Drop)]
pub enum JournalSink<F> {
    File(F),
    Nowhere,
}

impl<F> JournalSink<F> {
    /// The file, where there is one.
    pub fn into_file(self) -> Option<F>
        ensures { result ≡ file_of self }
    {
        match self {
            JournalSink::File(file) => Some(file),
            JournalSink::Nowhere => None,
        }
    }
}

impl<F: Sink> Sink for JournalSink<F> {
    ghost use Rattle.live_journal.specs.Sinks.{written_of, faults_of};

    ghost written = { written_of F.written };

    ghost faults = { faults_of F.faults };

    fn put(&mut self, bytes: &[u8]) -> Result<(), PutFault> {
        match self {
            JournalSink::File(file) => file.put(bytes),
            JournalSink::Nowhere => Ok(()),
        }
    }
}
