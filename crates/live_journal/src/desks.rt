//! The desk.

ghost use Rattle.std.specs.Prelude.{◌≡◌, ◌+◌, ◌<◌, ◌≤◌, true, false, length, IfOk, OnOk, IfErr};
ghost use Rattle.std.specs.Arc.{arc_value};
ghost use mathlib.Core.List.{IsPrefix};
ghost use Rattle.version_board.specs.Callers.{meaning, IsSeatOf, IsSame};
ghost use Rattle.live_journal.specs.declared.desks.Unkept.TheVariants.{Failed};
ghost use Rattle.live_journal.specs.Desk.{keeping, lacking_text, IsBoardOf, IsSeatAt, IsDesk, Keeps, Puts};
ghost use Rattle.live_journal.specs.Receipts.{nothing, known, knowing, IsAtMost};

use crate::cells::{Cell, Keeper, Known};
use crate::receipts::Receipt;
use crate::rooms::Room;
use crate::saving::Saves;
use sta_outside::{PutFault, Sink};
use sta_units::Memory;
use std::alloc::Global;
use std::marker::{Model, PhantomData};
use std::sync::{Arc, Mutex, Wait};
use std::thread;
use thiserror::Error;
use timing_defs::Derates;
use version_board::{Board, Seat, Stands};

/// Why the entries up to a number do not stand in the file.
#[derive(Debug, Clone, Copy, PartialEq, Eq, Drop, Error)]
pub enum Unkept {
    /// A put failed, now or before: the desk never writes again.
    #[error("the journal could not be written")]
    Failed,
    /// Want of memory. The file is as it was, and a later call may go well.
    #[error("out of memory")]
    Memory,
}

/// A file in which the entries of a board are kept, with a seat at the board.
#[derive(Drop)]
pub struct Desk<T: Saves, F: Sink, B: Room<<T as Stands>::Origin>> {
    seat: Seat<T>,
    sink: F,
    derates: Derates,
    kept: u64,
    sound: bool,
    keeper: Keeper,
    room: PhantomData<B>,
}

impl<T: Saves, F: Sink, B: Room<<T as Stands>::Origin>> Model for Desk<T, F, B> {
    ghost use Rattle.std.specs.Prelude.{◌≡◌};
    ghost use Rattle.live_journal.specs.Desk.{Keeping, keeping, IsDesk};
    ghost use Rattle.live_journal.specs.Receipts.{known, IsAtMost};

    ghost Value = { Keeping T.Entry T.Origin };

    ghost view = { λ d. keeping d.seat d.kept d.sound (F.written d.sink) (F.faults d.sink) };

    ghost invariant = { λ d.
        (d.derates ≡ B.about.derates)
        × IsDesk T.text B.about (keeping d.seat d.kept d.sound (F.written d.sink) (F.faults d.sink))
        × (d.keeper.cell ≡ B.about.cell)
        × IsAtMost d.keeper.known (known d.kept d.sound) };
}

/// What is left of a desk: its seat, for the board to close, and the file.
#[derive(Drop)]
pub struct Left<T: Saves, F> {
    pub seat: Seat<T>,
    pub file: F,
    /// The number up to which all entries stand in the file.
    pub kept: u64,
    /// Whether each put went well.
    pub sound: bool,
}

/// Looks at the board until it has the number, and gives the value.
#[tactic(auto, using(crate::proofs::Texts::prefix_self, crate::proofs::Texts::prefix_trans))]
fn await_number<T: Saves, R: Wait>(
    rt: &R,
    board: &Board<T>,
    seat: &mut Seat<T>,
    number: u64,
) -> Result<Arc<T>, Memory>
    requires { IsSeatOf (meaning T.entries T.from T.origin T.by) board.now seat.old }
    ensures same { IsSame seat.old seat.new × (seat.new.view.mine ≡ seat.old.view.mine) }
    ensures seen { IsPrefix seat.old.view.seen seat.new.view.seen }
    ensures value { IfOk result (λ a. T.entries (arc_value a) ≡ seat.new.view.seen) }
    ensures from { IfOk result (λ a. T.from (arc_value a) ≡ T.from board.now.opening) }
    ensures there { OnOk result (number ≤ T.from board.now.opening + length seat.new.view.seen) }
{
    for _ in rt.forever() {
        match board.take(rt, seat) {
            Ok(value) => {
                if number <= value.count() {
                    return Ok(value);
                }
            }
            Err(Memory) => return Err(Memory),
        }
        thread::yield_now();
    }
    unreachable!()
}

impl<T: Saves, F: Sink + Drop, B: Room<<T as Stands>::Origin>> Desk<T, F, B> {
    /// A desk before anything is put: `first` is the number before the board's first entry.
    pub fn begin(
        seat: Seat<T>,
        sink: F,
        derates: Derates,
        first: u64,
        keeper: Keeper,
    ) -> Desk<T, F, B>
        requires seat { IsSeatAt B.about seat }
        requires file { F.written sink ≡ B.about.before }
        requires faults { F.faults sink ≡ B.about.faults }
        requires derates { derates ≡ B.about.derates }
        requires first { first ≡ B.about.first }
        requires keeper { keeper ≡ knowing B.about.cell nothing }
        ensures { result ≡ keeping seat first true (F.written sink) (F.faults sink) }
    {
        Desk {
            seat,
            sink,
            derates,
            kept: first,
            sound: true,
            keeper,
            room: PhantomData,
        }
    }

    /// What every desk keeps, told to the proofs of callers; the call does nothing.
    pub fn laws(&self)
        ensures { IsDesk T.text B.about self.now }
    {
        let _ = &self.seat;
    }

    /// The number up to which all entries stand in the file.
    pub fn kept(&self) -> u64
        ensures { result ≡ self.now.kept }
    {
        self.kept
    }

    /// Sees to it that all entries up to a number stand in the file. Where they do not yet, the desk looks at the board until the
    /// number is there, and writes all that it has not written, in one put.
    ///
    /// # Errors
    ///
    /// `Failed` where a put failed, now or before; `Memory`, which leaves the file as it was.
    pub fn keep<R: Wait>(
        &mut self,
        rt: &R,
        alloc: Global,
        board: &Board<T>,
        number: u64,
    ) -> Result<(), Unkept>
        requires board { IsBoardOf (meaning T.entries T.from T.origin T.by) B.about board.now }
        ensures seen { IsPrefix self.old.seat.view.seen self.new.seat.view.seen }
        ensures kept { Keeps B.about.first number self.old self.new result }
    {
        if number <= self.kept {
            return Ok(());
        }
        if !self.sound {
            return Err(Unkept::Failed);
        }
        self.keep_more(rt, alloc, board, number)
    }

    /// The same, where the entries do not all stand there yet and each put went well.
    fn keep_more<R: Wait>(
        &mut self,
        rt: &R,
        alloc: Global,
        board: &Board<T>,
        number: u64,
    ) -> Result<(), Unkept>
        requires board { IsBoardOf (meaning T.entries T.from T.origin T.by) B.about board.now }
        requires more { self.old.kept < number }
        requires sound { self.old.sound ≡ true }
        ensures seen { IsPrefix self.old.seat.view.seen self.new.seat.view.seen }
        ensures kept { Keeps B.about.first number self.old self.new result }
    {
        match self.look(rt, board, number) {
            Ok(value) => match value.text_from(alloc, &self.derates, self.kept) {
                Ok(text) => self.put(&text, value.count()),
                Err(Memory) => Err(Unkept::Memory),
            },
            Err(Memory) => Err(Unkept::Memory),
        }
    }

    /// Looks at the board until it has the number. The file is as it was.
    fn look<R: Wait>(&mut self, rt: &R, board: &Board<T>, number: u64) -> Result<Arc<T>, Memory>
        requires board { IsBoardOf (meaning T.entries T.from T.origin T.by) B.about board.now }
        requires sound { self.old.sound ≡ true }
        ensures same { self.new ≡ record self.old { seat = self.new.seat } }
        ensures seen { IsPrefix self.old.seat.view.seen self.new.seat.view.seen }
        ensures value { IfOk result (λ a. T.entries (arc_value a) ≡ self.new.seat.view.seen) }
        ensures from { IfOk result (λ a. T.from (arc_value a) ≡ B.about.first) }
        ensures there { OnOk result (number ≤ B.about.first + length self.new.seat.view.seen) }
    {
        await_number(rt, board, &mut self.seat, number)
    }

    /// Puts the text of all that was seen and does not stand in the file; `upto` is the number of the last of these entries.
    fn put(&mut self, text: &[u8], upto: u64) -> Result<(), Unkept>
        requires sound { self.old.sound ≡ true }
        requires text { text.now ≡ lacking_text T.text B.about self.old }
        requires upto { upto ≡ B.about.first + length self.old.seat.view.seen }
        ensures seat { self.new.seat ≡ self.old.seat }
        ensures put { Puts B.about.first self.old self.new result }
    {
        match self.sink.put(text) {
            Ok(()) => {
                self.kept = upto;
                Ok(())
            }
            Err(PutFault::Failed) => {
                self.sound = false;
                Err(Unkept::Failed)
            }
        }
    }

    /// A receipt for all that stands in the file.
    pub fn first_receipt<R: Wait>(
        &mut self,
        rt: &R,
        cell: &Cell,
    ) -> Receipt<B, <T as Stands>::Origin>
        requires cell { cell.now.table.shared.table_id ≡ B.about.cell }
        ensures same { self.new ≡ self.old }
        ensures told { result ≡ known self.old.kept self.old.sound }
    {
        let known = Known {
            upto: self.kept,
            torn: !self.sound,
        };
        self.keeper.rise(rt, cell, known);
        Receipt::of(self.keeper.tell(cell))
    }

    /// What a receipt tells holds of the file.
    pub fn confirm<R: Wait>(
        &mut self,
        rt: &R,
        cell: &Cell,
        receipt: Receipt<B, <T as Stands>::Origin>,
    )
        requires cell { cell.now.table.shared.table_id ≡ B.about.cell }
        ensures same { self.new ≡ self.old }
        ensures stands { receipt.upto ≤ self.new.kept }
        ensures torn { receipt.torn ≡ true → self.new.sound ≡ false }
    {
        self.keeper.compare(rt, cell, receipt.into_pass());
    }

    /// Takes the desk apart.
    pub fn into_parts(self) -> Left<T, F>
        ensures seat { result.seat ≡ self.seat }
        ensures file { (F.written result.file ≡ self.file) × (F.faults result.file ≡ self.faults) }
        ensures kept { (result.kept ≡ self.kept) × (result.sound ≡ self.sound) }
        ensures laws { IsDesk T.text B.about self }
    {
        let Desk {
            seat,
            sink,
            derates: _,
            kept,
            sound,
            keeper: _,
            room: _,
        } = self;
        Left {
            seat,
            file: sink,
            kept,
            sound,
        }
    }
}

/// Sees to it, from any thread, that all entries up to a number stand in the file of a desk that threads share, and notes in the
/// receipt what stands there then. It waits for the desk, and then does as `Desk::keep`.
///
/// # Errors
///
/// Those of `Desk::keep`.
pub fn keep_shared<R: Wait, T: Saves, F: Sink + Drop, B: Room<<T as Stands>::Origin>>(
    rt: &R,
    alloc: Global,
    desk: &Mutex<Desk<T, F, B>>,
    cell: &Cell,
    board: &Board<T>,
    receipt: &mut Receipt<B, <T as Stands>::Origin>,
    number: u64,
) -> Result<(), Unkept>
    requires board { IsBoardOf (meaning T.entries T.from T.origin T.by) B.about board.now }
    requires cell { cell.now.table.shared.table_id ≡ B.about.cell }
    ensures rises { IsAtMost receipt.old receipt.new }
    ensures kept { OnOk result (number ≤ receipt.new.upto) }
    ensures torn { IfErr result (λ why. why ≡ Failed → receipt.new.torn ≡ true) }
{
    let mut desk = desk.lock(rt);
    let result = desk.keep(rt, alloc, board, number);
    receipt.take_in(cell, desk.first_receipt(rt, cell));
    result
}
