//! Doors in memory.

ghost use Rattle.std.specs.Prelude.{◌≡◌, ◌≤◌, [], ◌∷◌, IfOk, IfErr, IfSome, OnOk, OnErr, drop, is_ok, length, map, not, option_map, take};
ghost use Rattle.live_doors.specs.Doors.{kept, Loses, Grows, Says, SaysPart, HearsAt, HearsNothing};
ghost use Rattle.live_doors.specs.Halls.{seat_at, seat_lines, DeniesSeat};
ghost use Rattle.live_doors.specs.InMemory.{done_deed, kept_lines, next_fails, after_call, HearsBy, HasPlannedCause};
ghost use Rattle.live_doors.specs.Lines.{kept_length};
ghost use Rattle.live_doors.specs.Marks.{deeds};
ghost use Rattle.live_doors.specs.MemDoors.{lines_left, coming, told, said_by};
ghost use Rattle.sta_outside.specs.Shelf.{Rose};

use crate::door::{Door, Hall, Keeper, Lost};
use crate::lines::KEPT_LENGTH;
use crate::plan::Plan;
use crate::record::{Done, Record};
use sta_units::Memory;
use std::alloc::Global;

/// A door in memory, which tells the lines to come and what was done, and fails at the calls that are planned.
#[derive(Drop)]
pub struct MemDoor {
    lines: Vec<Vec<u8>>,
    next: usize,
    plan: Plan,
    account: Record,
}

impl MemDoor {
    /// A door at which these lines come in. Its calls to hear and to say are numbered from 1, and those in
    /// `fails` fail; of what is said then, half is written.
    pub fn new(alloc: Global, lines: Vec<Vec<u8>>, fails: Vec<u64>) -> MemDoor
        ensures lines { drop result.next result.lines.items ≡ lines.items }
        ensures plan { result.plan ≡ record { fails = fails; calls = 0; faults = 0 } }
        ensures untouched { deeds result.account.history ≡ [] }
    {
        MemDoor {
            lines,
            next: 0,
            plan: Plan::new(fails),
            account: Record::new(alloc),
        }
    }

    /// What was done, in order; none where memory was wanting for the record.
    pub fn done(&self) -> Option<&[Done]>
        ensures { IfSome result (λ done. map done_deed done.now ≡ deeds self.now.account.history) }
    {
        self.account.done()
    }

    /// How often it failed.
    pub fn fault_count(&self) -> u64
        ensures { result ≡ self.now.plan.faults }
    {
        self.plan.faults
    }
}

/// What is kept of a line.
#[tactic(auto, using(std::proofs::lemmas::List::take_min))]
fn kept_of(alloc: Global, line: &[u8]) -> Result<Vec<u8>, Lost>
    ensures line { IfOk result (λ copy. copy.items ≡ take kept_length line.now) }
    ensures within { IfOk result (λ copy. length copy.items ≤ kept_length) }
    ensures lost { IfErr result (λ lost. lost ≡ Lost.Memory) }
{
    match Vec::from_slice(alloc, &line[..KEPT_LENGTH.min(line.len())]) {
        Ok(copy) => Ok(copy),
        Err(_) => Err(Lost::Memory),
    }
}

impl Door for MemDoor {
    ghost left = { coming };

    ghost trace = { told };

    ghost faults = { λ door. door.plan.faults };

    fn hear(&mut self, alloc: Global) -> Result<Option<Vec<u8>>, Lost>
        ensures line { IfOk result (HearsAt coming told self.old self.new) }
        ensures within { IfOk result (λ got. IfSome got (λ line. length line.items ≤ kept_length)) }
        ensures quiet { OnOk result (self.new.plan.faults ≡ self.old.plan.faults) }
        ensures none { OnErr result (HearsNothing coming told self.old self.new) }
        ensures cause { IfErr result (λ lost. HasPlannedCause lost self.old.plan self.new.plan) }
        // when it fails
        ensures answer { HearsBy (next_fails self.old.plan) result }
        ensures plan { self.new.plan ≡ after_call self.old.plan }
    {
        if self.plan.next_fails() {
            return Err(Lost::Input);
        }
        let Some(line) = self.lines.get(self.next) else {
            return Ok(None);
        };
        let line = kept_of(alloc, line.as_slice())?;
        self.next += 1;
        self.account.hear(&line);
        Ok(Some(line))
    }

    fn say(&mut self, piece: &Vec<u8>) -> Result<(), Lost>
        ensures same { Loses (coming self.old) (coming self.new) [] }
        ensures whole { OnOk result (Says (told self.old) (told self.new) piece.now.items) }
        ensures quiet { OnOk result (self.new.plan.faults ≡ self.old.plan.faults) }
        ensures partly { OnErr result (SaysPart (told self.old) (told self.new) piece.now.items) }
        ensures cause { OnErr result (Rose self.old.plan.faults self.new.plan.faults) }
        ensures lost { IfErr result (λ lost. lost ≡ Lost.Output) }
        // when it fails, and what it writes
        ensures answer { is_ok result ≡ not (next_fails self.old.plan) }
        ensures said { Says (told self.old) (told self.new) (said_by self.old piece.now.items) }
        ensures plan { self.new.plan ≡ after_call self.old.plan }
    {
        if self.plan.next_fails() {
            self.account.cut(piece, piece.len() / 2);
            return Err(Lost::Output);
        }
        self.account.say(piece);
        Ok(())
    }

    fn note<K: Keeper>(&mut self, _keeper: &K, number: u64)
        ensures same { Loses (coming self.old) (coming self.new) [] }
        ensures kept { Grows (told self.old) (told self.new) (kept number ∷ []) }
        ensures quiet { self.new.plan.faults ≡ self.old.plan.faults }
        ensures plan { self.new.plan ≡ self.old.plan }
    {
        self.account.keep(number);
    }

    fn close(&mut self)
        ensures { self.new ≡ self.old }
    {}
}

/// A seat of a hall in memory: the lines that come in at it, and the calls of its door that fail, numbered
/// from 1.
#[derive(Drop)]
pub struct MemSeat {
    pub lines: Vec<Vec<u8>>,
    pub fails: Vec<u64>,
}

/// A hall in memory, which tells the lines of its seats. It has no input at a seat that it was not made with, and
/// at the others only memory can be wanting.
#[derive(Drop)]
pub struct MemHall {
    seats: Vec<MemSeat>,
}

impl MemHall {
    /// A hall of these seats.
    pub fn new(seats: Vec<MemSeat>) -> MemHall
        ensures { result.seats ≡ seats }
    {
        MemHall { seats }
    }
}

/// A copy of lines.
fn copied(alloc: Global, lines: &[Vec<u8>]) -> Result<Vec<Vec<u8>>, Memory>
    ensures { IfOk result (λ copies. kept_lines copies.items ≡ kept_lines lines.now) }
{
    let mut copies = Vec::new(alloc);
    for line in lines {
        copies.push(Vec::from_slice(alloc, line.as_slice())?)?;
    }
    Ok(copies)
}

/// The door of a seat.
fn door_of(alloc: Global, seat: &MemSeat) -> Result<MemDoor, Memory>
    ensures lines { IfOk result (λ door. lines_left door ≡ seat_lines seat.now) }
    ensures plan { IfOk result (λ door. door.plan.fails.items ≡ seat.now.fails.items) }
    ensures sound { IfOk result (λ door. (door.plan.calls ≡ 0) × (door.plan.faults ≡ 0)) }
    ensures untouched { IfOk result (λ door. deeds door.account.history ≡ []) }
{
    let lines = copied(alloc, seat.lines.as_slice())?;
    let fails = Vec::from_slice(alloc, seat.fails.as_slice())?;
    Ok(MemDoor::new(alloc, lines, fails))
}

impl Hall<MemDoor> for MemHall {
    ghost lines = { λ hall seat. option_map seat_lines (seat_at hall seat) };

    ghost denies = { λ hall seat lost. DeniesSeat (seat_at hall seat) lost };

    fn open(&self, alloc: Global, seat: u32) -> Result<MemDoor, Lost> {
        let Some(found) = self.seats.get(seat.saturating_sub(1) as usize) else {
            return Err(Lost::Input);
        };
        match door_of(alloc, found) {
            Ok(door) => Ok(door),
            Err(Memory) => Err(Lost::Memory),
        }
    }
}
