//! Buffers as they come into a net.

ghost use Rattle.std.specs.Prelude.{◌≡◌, ◌++◌, ◌∷◌, [], true, false, find, is_some, None, Some, IfOk};
ghost use Rattle.std.specs.List.{list_all};
ghost use Rattle.std.specs.Option.{option_copied, option_map_or};
ghost use Rattle.timing_defs.specs.declared.kinds.Dir.TheVariants.{Input, Output};
ghost use Rattle.timing_defs.specs.declared.library.Cell.{Cell};
ghost use Rattle.timing_defs.specs.declared.edits.Edit.TheVariants.{InsertBuffer};
ghost use Rattle.timing_defs.specs.Netlist.{same_dir, is_listed};
ghost use Rattle.timing_defs.specs.Edits.{edit_faults, first_fault, changed, cell_for, is_buffer, has_colon, before_last, after_last, on_inst, with_conns, connected, moved_sinks, buffer_inst, first_pin};
ghost use Rattle.netlist_store.specs.Numbering.{number_of};
ghost use Rattle.netlist_store.specs.Drafts.{Follows, FollowsAll, is_pin_word, with_insts};

use crate::building::full_name;
use crate::checks::usable_cell;
use crate::stores::Store;
use sta_units::Memory;
use std::alloc::Global;
use timing_defs::{Cell, CellPin, Dir, Name};

/// The first pin of a direction.
fn find_dir(cell: &Cell, dir: Dir) -> Option<&CellPin>
    ensures { option_copied result ≡ find (λ p. same_dir p.dir dir) cell.now.pins }
{
    cell.pins.as_slice().iter().find(|pin| pin.dir.is(dir))
}

/// The first pin of a direction of a buffer's cell.
fn pin_of_dir(cell: &Cell, dir: Dir) -> &CellPin
    requires { is_buffer cell.now ≡ true }
    ensures { find (λ p. same_dir p.dir dir) cell.now.pins ≡ Some result.now }
{
    match find_dir(cell, dir) {
        Some(pin) => pin,
        None => unreachable!(),
    }
}

/// The names of the pins of a buffer.
#[derive(Drop)]
struct BufferEnds {
    input: Name,
    output: Name,
}

impl Store {
    /// The number of a pin that has one.
    fn pin_there(&self, word: &Name) -> u32
        requires { is_some (number_of self.now.pins word.now) ≡ true }
        ensures { number_of self.now.pins word.now ≡ Some result }
    {
        match self.pin(word) {
            Some(pin) => pin,
            None => unreachable!(),
        }
    }

    /// The store with a pin of an instance on a net; the parasitics of nets stay.
    fn with_pin_on(self, alloc: Global, word: &Name, net: &Name) -> Result<Store, Memory>
        requires word { is_pin_word self.pins word.now ≡ true }
        requires net { is_listed self.design.nets net.now ≡ true }
        ensures { IfOk result
            (λ after. after
            ≡ with_insts self
            (on_inst (before_last word.now) (with_conns (connected (after_last word.now) net.now))
            self.design.insts)) }
    {
        let pin = self.pin_there(word);
        let to = self.known_net(net);
        self.with_join(alloc, word, pin, net, to)
    }

    /// The store with pins of instances on a net; the parasitics of nets stay. The sinks are halved at each
    /// step, so the stack grows as the logarithm of their number.
    #[cycle(sinks_on)]
    fn with_sinks_on(self, alloc: Global, sinks: &[Name], net: &Name) -> Result<Store, Memory>
        requires words { list_all (is_pin_word self.pins) sinks.now ≡ true }
        requires net { is_listed self.design.nets net.now ≡ true }
        ensures { IfOk result
            (λ after. after ≡ with_insts self (moved_sinks net.now sinks.now self.design.insts)) }
    {
        match sinks {
            [] => Ok(self),
            [sink] => self.with_pin_on(alloc, sink, net),
            _ => {
                let (front, back) = sinks.split_at(sinks.len() / 2);
                let half = self.with_sinks_on(alloc, front, net)?;
                half.with_sinks_on(alloc, back, net)
            }
        }
    }

    /// The name of the pin of a direction of an instance of a buffer's cell.
    fn buffer_pin(&self, alloc: Global, inst: &Name, cell: &Name, dir: Dir) -> Result<Name, Memory>
        requires { option_map_or is_buffer (cell_for self.now.design cell.now) false ≡ true }
        ensures { IfOk result
            (λ name. (c : Cell) → cell_for self.now.design cell.now ≡ Some c → name
            ≡ inst.now ++ 58 ∷ first_pin dir c) }
    {
        let Some(cell) = usable_cell(self, cell) else {
            unreachable!();
        };
        let name = full_name(alloc, inst, &pin_of_dir(cell, dir).name)?;
        Ok(name)
    }

    /// The names of the pins of an instance of a buffer's cell.
    fn buffer_ends(&self, alloc: Global, inst: &Name, cell: &Name) -> Result<BufferEnds, Memory>
        requires { option_map_or is_buffer (cell_for self.now.design cell.now) false ≡ true }
        ensures input { IfOk result
            (λ ends. (c : Cell) → cell_for self.now.design cell.now ≡ Some c → ends.input
            ≡ inst.now ++ 58 ∷ first_pin Input c) }
        ensures output { IfOk result
            (λ ends. (c : Cell) → cell_for self.now.design cell.now ≡ Some c → ends.output
            ≡ inst.now ++ 58 ∷ first_pin Output c) }
    {
        let input = self.buffer_pin(alloc, inst, cell, Dir::Input)?;
        let output = self.buffer_pin(alloc, inst, cell, Dir::Output)?;
        Ok(BufferEnds { input, output })
    }

    /// The store with a new buffer between two nets, as the last instance; the buffer's pins by names.
    fn with_ends_on(
        self,
        alloc: Global,
        base: &Store,
        net: &Name,
        inst: &Name,
        fresh: &Name,
        cell: &Name,
        ends: &BufferEnds,
    ) -> Result<Store, Memory>
        requires cell { option_map_or is_buffer (cell_for self.design cell.now) false ≡ true }
        requires new { number_of self.insts inst.now ≡ None }
        requires net { is_listed self.design.nets net.now ≡ true }
        requires fresh { is_listed self.design.nets fresh.now ≡ true }
        requires follows { FollowsAll base.now self }
        requires input { (c : Cell) → cell_for self.design cell.now ≡ Some c → ends.now.input
            ≡ inst.now ++ 58 ∷ first_pin Input c }
        requires output { (c : Cell) → cell_for self.design cell.now ≡ Some c → ends.now.output
            ≡ inst.now ++ 58 ∷ first_pin Output c }
        ensures design { IfOk result
            (λ after. after.design
            ≡ record self.design {
              insts = self.design.insts ++ buffer_inst self.design net.now inst.now fresh.now
                  cell.now ∷ [];
            }) }
        ensures follows { IfOk result (λ after. FollowsAll base.now after) }
    {
        self.laws();
        let gate = self.with_gate(alloc, base, inst, cell)?;
        gate.laws();
        let fed = gate.with_pin_on(alloc, &ends.input, net)?;
        let done = fed.with_pin_on(alloc, &ends.output, fresh)?;
        Ok(done)
    }

    /// The store with a new buffer between two nets, as the last instance.
    fn with_buffer(
        self,
        alloc: Global,
        base: &Store,
        net: &Name,
        inst: &Name,
        fresh: &Name,
        cell: &Name,
    ) -> Result<Store, Memory>
        requires cell { option_map_or is_buffer (cell_for self.design cell.now) false ≡ true }
        requires new { number_of self.insts inst.now ≡ None }
        requires net { is_listed self.design.nets net.now ≡ true }
        requires fresh { is_listed self.design.nets fresh.now ≡ true }
        requires follows { FollowsAll base.now self }
        ensures design { IfOk result
            (λ after. after.design
            ≡ record self.design {
              insts = self.design.insts ++ buffer_inst self.design net.now inst.now fresh.now
                  cell.now ∷ [];
            }) }
        ensures follows { IfOk result (λ after. FollowsAll base.now after) }
    {
        match self.buffer_ends(alloc, inst, cell) {
            Ok(ends) => self.with_ends_on(alloc, base, net, inst, fresh, cell, &ends),
            Err(wanting) => {
                self.discard();
                Err(wanting)
            }
        }
    }

    /// A buffer comes into a net, and takes sinks over to a new net.
    pub(crate) fn insert_buffer(
        self,
        alloc: Global,
        base: &Store,
        net: &Name,
        inst: &Name,
        fresh: &Name,
        cell: &Name,
        sinks: &[Name],
    ) -> Result<Store, Memory>
        requires faults { first_fault
            (edit_faults self.design (InsertBuffer net.now inst.now fresh.now cell.now sinks.now))
            ≡ None }
        requires follows { FollowsAll base.now self }
        ensures design { IfOk result
            (λ after. after.design
            ≡ changed self.design (InsertBuffer net.now inst.now fresh.now cell.now sinks.now)) }
        ensures follows { IfOk result (λ after. FollowsAll base.now after) }
    {
        self.laws();
        let number = self.known_net(net);
        let bare = self.without_rc(net, number)?;
        let wide = bare.with_net(alloc, base, fresh)?;
        let moved = wide.with_sinks_on(alloc, sinks, fresh)?;
        let done = moved.with_buffer(alloc, base, net, inst, fresh, cell)?;
        Ok(done)
    }
}
