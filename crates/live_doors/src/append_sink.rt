//! A journal's file: what is put is appended, and stands on the disk before the put returns.

ghost use Rattle.std.specs.Prelude.{◌≡◌, ◌≤◌, [], ◌++◌, Some, IfOk, OnOk, OnErr, length, take};
ghost use Rattle.std.specs.Io.KnownBytes.{Appends as Grows};
ghost use Rattle.live_doors.specs.Marks.{put_bytes, HasPut, HasPutPart, IsPut};
ghost use Rattle.sta_outside.specs.Shelf.{Rose};

use crate::log::Log;
use crate::writing::write_whole;
use sta_outside::{PutFault, Sink};
use std::fs::{File, OpenFile, TryLockError};
use std::io::{ErrorKind, Write};
use std::rt::Files;
use thiserror::Error;

/// Why a journal's file was not opened.
#[derive(Debug, Clone, Copy, PartialEq, Eq, Drop, Error)]
pub enum NotOpened {
    /// Another process holds the file's lock.
    #[error("the file is locked")]
    Locked,
    /// There is no such file.
    #[error("the file is missing")]
    Missing,
    /// The file can not be opened to append, or not locked.
    #[error("the file can not be opened")]
    Unreachable,
}

/// A file that is appended to, and synchronized behind each put. It tells the bytes that its writes took.
#[derive(Drop)]
pub struct AppendSink<F> {
    file: F,
    faults: u64,
    told: Log<u8, u8>,
}

impl<F> AppendSink<F> {
    /// A file that is open to append.
    pub fn over(file: F) -> AppendSink<F>
        ensures file { result.file ≡ file }
        ensures sound { result.faults ≡ 0 }
        ensures untouched { put_bytes result.told.items ≡ [] }
    {
        AppendSink {
            file,
            faults: 0,
            told: Log::new(),
        }
    }

    /// How often it failed.
    pub fn fault_count(&self) -> u64
        ensures { result ≡ self.now.faults }
    {
        self.faults
    }
}

impl AppendSink<File> {
    /// Opens a file to append, and takes its lock, which goes with the sink.
    ///
    /// # Errors
    ///
    /// `Locked` where another process holds the lock, `Missing` where there is no such file, else `Unreachable`.
    pub fn open<R: Files<File = File>>(rt: &R, name: &str) -> Result<AppendSink<File>, NotOpened>
        ensures sound { IfOk result (λ sink. sink.faults ≡ 0) }
        ensures untouched { IfOk result (λ sink. put_bytes sink.told.items ≡ []) }
    {
        let file = match File::options().append(true).open(rt, name) {
            Ok(file) => file,
            Err(fault) if fault.kind() == ErrorKind::NotFound => return Err(NotOpened::Missing),
            Err(_) => return Err(NotOpened::Unreachable),
        };
        match file.try_lock() {
            Ok(()) => Ok(AppendSink::over(file)),
            Err(TryLockError::WouldBlock) => Err(NotOpened::Locked),
            Err(TryLockError::Error(_)) => Err(NotOpened::Unreachable),
        }
    }
}

/// Writes a piece to a file and synchronizes it. It answers how many bytes were written, and whether all was done.
#[tactic(auto, using(crate::proofs::Streams::all_taken, crate::proofs::Streams::all_written))]
fn append<F: Write + OpenFile>(file: &mut F, piece: &[u8]) -> (usize, Result<(), PutFault>)
    ensures bound { result.0 ≤ length piece.now }
    ensures bytes { Grows (F.contents file.old) (F.contents file.new) (take result.0 piece.now) }
    ensures whole { OnOk result.1 (take result.0 piece.now ≡ piece.now) }
{
    match write_whole(file, piece) {
        Err(count) => (count, Err(PutFault::Failed)),
        Ok(()) => match file.sync_data() {
            Ok(()) => (piece.len(), Ok(())),
            Err(_) => (piece.len(), Err(PutFault::Failed)),
        },
    }
}

/// Tells bytes more that were put.
#[tactic(auto, using(crate::proofs::Pieces::marks))]
fn tell(told: &mut Log<u8, u8>, bytes: &[u8])
    ensures { put_bytes told.new.items ≡ put_bytes told.old.items ++ bytes.now }
{
    for byte in bytes {
        *told = told.and(byte, byte);
    }
}

#[tactic(auto, using(crate::proofs::Streams::part_told))]
impl<F: Write + OpenFile> Sink for AppendSink<F> {
    ghost written = { λ sink. Some (put_bytes sink.told.items) };

    ghost faults = { λ sink. sink.faults };

    fn put(&mut self, bytes: &[u8]) -> Result<(), PutFault>
        ensures count { self.old.faults ≤ self.new.faults }
        ensures appended { OnOk result (HasPut self.old self.new bytes.now) }
        ensures quiet { OnOk result (self.new.faults ≡ self.old.faults) }
        ensures cause { OnErr result (Rose self.old.faults self.new.faults) }
        ensures partly { OnErr result (HasPutPart self.old self.new bytes.now) }
        // the file was given what is told, where its bytes are known
        ensures file { IsPut F.contents self.old self.new }
    {
        let (count, result) = append(&mut self.file, bytes);
        tell(&mut self.told, &bytes[..count]);
        match result {
            Ok(()) => Ok(()),
            Err(PutFault::Failed) => {
                self.faults = self.faults.saturating_add(1);
                Err(PutFault::Failed)
            }
        }
    }
}
