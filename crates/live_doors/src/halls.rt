//! The halls of the system: the standard input and output, and named files and pipes.

ghost use Rattle.std.specs.Prelude.{◌≡◌, [], None, OnOk, OnErr};
ghost use Rattle.std.specs.Io.{WritesAtMost};
ghost use Rattle.live_doors.specs.Halls.{names_at, seat_names, HasSeatMore, DeniesNames};

use crate::door::{Hall, Lost};
use crate::ends::Ends;
use crate::open_door::OpenDoor;
use sta_units::Memory;
use std::alloc::Global;
use std::io;
use std::io::{BufReader, Input, Print, Write};

/// The standard output of a runtime that it owns, as a writer without a buffer.
#[derive(Drop)]
pub struct Printed<R: Print> {
    rt: R,
}

impl<R: Print> Write for Printed<R> {
    fn write(&mut self, piece: &[u8]) -> io::Result<usize> {
        self.rt.write_some(piece)
    }

    fn flush(&mut self) -> io::Result<()> {
        Ok(())
    }
}

/// The door of the standard input, by its descriptor, and the standard output.
pub type StandardDoor<R> = OpenDoor<BufReader<<R as Input>::Reader>, Printed<R>>;

/// A hall with the standard input and output at each seat.
#[derive(Drop)]
pub struct StandardHall<R: Input + Print + Copy + Drop> {
    rt: R,
}

impl<R: Input + Print + Copy + Drop> StandardHall<R> {
    /// The hall of a runtime's standard input and output.
    pub fn new(rt: R) -> StandardHall<R> {
        StandardHall { rt }
    }
}

impl<R: Input + Print + Copy + Drop> Hall<StandardDoor<R>> for StandardHall<R> {
    ghost use Rattle.live_doors.specs.declared.door.Lost.{Lost};

    ghost lines = { λ _ _. None };

    ghost denies = { λ _ _ lost. lost ≡ Lost.Memory };

    fn open(&self, alloc: Global, _seat: u32) -> Result<StandardDoor<R>, Lost> {
        let Ok(input) = BufReader::new(alloc, self.rt.reader()) else {
            return Err(Lost::Memory);
        };
        Ok(OpenDoor::new(alloc, input, Printed { rt: self.rt }))
    }
}

/// The door of two files or pipes.
pub type NamedDoor<E> = OpenDoor<BufReader<<E as Ends>::End>, <E as Ends>::End>;

/// The names of a seat's input and output.
#[derive(Clone, Copy, Drop)]
struct NamedSeat<'a> {
    input: &'a str,
    output: &'a str,
}

/// A hall whose seats have names of their own, one of an input and one of an output each.
#[derive(Drop)]
pub struct NamedHall<'a, E> {
    ends: &'a E,
    seats: Vec<NamedSeat<'a>>,
}

#[tactic(auto, using(crate::proofs::Pieces::marks))]
impl<'a, E: Ends> NamedHall<'a, E> {
    /// A hall without a seat, whose ends are opened there.
    pub fn new(alloc: Global, ends: &'a E) -> NamedHall<'a, E>
        ensures ends { result.ends.now ≡ ends.now }
        ensures seats { seat_names result ≡ [] }
    {
        NamedHall {
            ends,
            seats: Vec::new(alloc),
        }
    }

    /// Adds a seat behind the others.
    ///
    /// # Errors
    ///
    /// Want of memory alone; the hall is then as before.
    pub fn add_seat(&mut self, input: &'a str, output: &'a str) -> Result<(), Memory>
        ensures ends { self.new.ends.now ≡ self.old.ends.now }
        ensures seat { OnOk result (HasSeatMore self.old self.new input.now output.now) }
        ensures none { OnErr result (seat_names self.new ≡ seat_names self.old) }
    {
        self.seats.push(NamedSeat { input, output })?;
        Ok(())
    }
}

impl<E: Ends> Hall<NamedDoor<E>> for NamedHall<'_, E> {
    ghost lines = { λ _ _. None };

    ghost denies = { λ hall seat. DeniesNames (E.refuses hall.ends.now) (names_at hall seat) };

    fn open(&self, alloc: Global, seat: u32) -> Result<NamedDoor<E>, Lost> {
        let Some(names) = self.seats.get(seat.saturating_sub(1) as usize) else {
            return Err(Lost::Input);
        };
        let Ok(input) = self.ends.open_input(names.input) else {
            return Err(Lost::Input);
        };
        let Ok(output) = self.ends.open_output(names.output) else {
            return Err(Lost::Output);
        };
        let Ok(input) = BufReader::new(alloc, input) else {
            return Err(Lost::Memory);
        };
        Ok(OpenDoor::new(alloc, input, output))
    }
}
