//! A sink in memory.

ghost use Rattle.std.specs.Prelude.{◌≡◌, ◌≤◌, ◌-◌, [], ◌++◌, Ok, Err, Some, is_ok, OnOk, OnErr, IfOk, length, take, nat_le, vec_len, vec_capacity};
ghost use Rattle.sta_outside.specs.Plan.{next_fails, after_put};
ghost use Rattle.sta_outside.specs.Shelf.{Rose};
ghost use Rattle.sta_outside.specs.Sink.{Appends, AppendsPrefix, succeeds, taken};

use crate::plan::Plan;
use crate::sink::{PutFault, Sink};
use sta_units::Memory;
use std::alloc::Global;

/// A sink in memory with room for a stated number of bytes, which tells them, and fails at the
/// puts that are planned.
#[derive(Drop)]
pub struct MemSink {
    bytes: Vec<u8>,
    room: usize,
    plan: Plan,
    ghost reserved: { room ≤ vec_capacity bytes },
    ghost within: { vec_len bytes ≤ room },
}

impl MemSink {
    /// An empty sink, whose room is reserved. Its puts are numbered from 1, and those in `fails`
    /// fail and append nothing.
    ///
    /// # Errors
    ///
    /// Want of memory.
    pub fn new(alloc: Global, room: usize, fails: Vec<u64>) -> Result<MemSink, Memory>
        ensures empty { IfOk result (λ sink. sink.bytes.items ≡ []) }
        ensures room { IfOk result (λ sink. sink.room ≡ room) }
        ensures plan { IfOk result (λ sink. sink.plan ≡ record { fails = fails; calls = 0; faults = 0 }) }
    {
        Ok(MemSink {
            bytes: Vec::with_capacity(alloc, room)?,
            room,
            plan: Plan::new(fails),
        })
    }

    /// The bytes that were written.
    pub fn bytes(&self) -> &[u8]
        ensures { result.now ≡ self.now.bytes.items }
    {
        self.bytes.as_slice()
    }

    /// How often it failed.
    pub fn fault_count(&self) -> u64
        ensures { result ≡ self.now.plan.faults }
    {
        self.plan.faults
    }

    /// Takes of a piece what fits into the room, and tells whether all of it did.
    fn take_fitting(&mut self, piece: &[u8]) -> bool
        ensures answer { result ≡ nat_le (length piece.now) (self.old.room - vec_len self.old.bytes) }
        ensures bytes { self.new.bytes.items ≡ self.old.bytes.items ++ take (self.old.room - vec_len self.old.bytes) piece.now }
        ensures room { self.new.room ≡ self.old.room }
        ensures plan { self.new.plan ≡ self.old.plan }
    {
        let free = self.room - self.bytes.len();
        let fitting = free.min(piece.len());
        self.bytes.extend_from_slice(&piece[..fitting]).unwrap();
        fitting == piece.len()
    }
}

impl Sink for MemSink {
    ghost written = { λ sink. Some sink.bytes.items };

    ghost faults = { λ sink. sink.plan.faults };

    fn put(&mut self, bytes: &[u8]) -> Result<(), PutFault>
        ensures count { self.old.plan.faults ≤ self.new.plan.faults }
        ensures appended { OnOk result (Appends (Some self.old.bytes.items) (Some self.new.bytes.items) bytes.now) }
        ensures quiet { OnOk result (self.new.plan.faults ≡ self.old.plan.faults) }
        ensures cause { OnErr result (Rose self.old.plan.faults self.new.plan.faults) }
        ensures partly { OnErr result (AppendsPrefix (Some self.old.bytes.items) (Some self.new.bytes.items) bytes.now) }
        // when it fails, and what it takes
        ensures succeeds { is_ok result ≡ succeeds (next_fails self.old.plan) (self.old.room - vec_len self.old.bytes) bytes.now }
        ensures taken { self.new.bytes.items ≡ self.old.bytes.items ++ taken (next_fails self.old.plan) (self.old.room - vec_len self.old.bytes) bytes.now }
        ensures room { self.new.room ≡ self.old.room }
        // which puts raise the count, and by how much
        ensures plan { self.new.plan ≡ after_put self.old.plan (nat_le (length bytes.now) (self.old.room - vec_len self.old.bytes)) }
    {
        if self.plan.next_fails() {
            return Err(PutFault::Failed);
        }
        if self.take_fitting(bytes) {
            return Ok(());
        }
        self.plan.add_fault();
        Err(PutFault::Failed)
    }
}
