//! The exceptions and derates that a command sets.

ghost use Rattle.std.specs.Prelude.{◌≡◌, ◌++◌, ◌∷◌, [], pos, unsigned_abs, ◌≤◌, IfOk, OnOk, Some, None};
ghost use Rattle.sdc_reader.specs.Meaning.{exception, exception_if, false_paths, cycles_effect, multicycles, factor_if, derated, derates_with};

use crate::commands::Quantity;
use crate::draft::{Draft, Figure, Flags};
use crate::numbers::{are_cycles, fits};
use crate::tables::meant;
use sta_units::{Again, Memory};
use std::alloc::Global;
use timing_defs::{Derates, Effect, Exception, Items, Object};

fn copy_of(alloc: Global, objects: &Option<Items<Object>>) -> Result<Option<Items<Object>>, Memory>
    ensures { IfOk result (λ copy. copy ≡ objects.now) }
{
    match objects {
        Some(objects) => Ok(Some(objects.again(alloc)?)),
        None => Ok(None),
    }
}

/// An exception for the paths that a command names.
fn exception(alloc: Global, draft: &Draft, effect: Effect) -> Result<Exception, Memory>
    ensures { IfOk result (λ made. made ≡ exception draft.now effect) }
{
    Ok(Exception {
        from: copy_of(alloc, &draft.from)?,
        to: copy_of(alloc, &draft.to)?,
        effect,
    })
}

/// Adds an exception where it is meant.
fn push_if(
    alloc: Global,
    exceptions: &mut Items<Exception>,
    chosen: bool,
    draft: &Draft,
    effect: Effect,
) -> Result<(), Memory>
    ensures { OnOk result
        (exceptions.new ≡ exceptions.old ++ exception_if chosen draft.now effect) }
{
    if !chosen {
        return Ok(());
    }
    exceptions.push(exception(alloc, draft, effect)?)
}

/// Adds a false path, for the tests that are meant.
pub(crate) fn push_false_paths(
    alloc: Global,
    exceptions: &mut Items<Exception>,
    draft: &Draft,
) -> Result<(), Memory>
    ensures { OnOk result (exceptions.new ≡ exceptions.old ++ false_paths draft.now) }
{
    let setup = meant(draft.flags.setup, draft.flags.hold);
    let hold = meant(draft.flags.hold, draft.flags.setup);
    push_if(alloc, exceptions, setup, draft, Effect::FalseSetup)?;
    push_if(alloc, exceptions, hold, draft, Effect::FalseHold)
}

fn cycles_effect(hold: bool, cycles: u32) -> Effect
    ensures { result ≡ cycles_effect hold cycles }
{
    if hold {
        Effect::CyclesHold(cycles)
    } else {
        Effect::CyclesSetup(cycles)
    }
}

/// Adds a multicycle, where its number is in range.
pub(crate) fn push_multicycle(
    alloc: Global,
    exceptions: &mut Items<Exception>,
    draft: &Draft,
) -> Result<(), Memory>
    ensures { OnOk result
        (exceptions.new ≡ exceptions.old ++ multicycles draft.now draft.now.number) }
{
    let hold = draft.flags.hold;
    let Figure::Value(value) = draft.number else {
        return Ok(());
    };
    if !are_cycles(hold, value) {
        return Ok(());
    }
    let effect = cycles_effect(hold, value as u32);
    push_if(alloc, exceptions, true, draft, effect)
}

fn factor_if(split: bool, arcs: bool, factor: u32, before: u32) -> u32
    ensures { result ≡ factor_if split arcs factor before }
{
    if split && arcs { factor } else { before }
}

/// The derates with a factor for the splits and arcs that are meant.
fn derated(flags: Flags, factor: u32, before: Derates) -> Derates
    ensures { result ≡ derated flags factor before }
{
    let early = meant(flags.early, flags.late);
    let late = meant(flags.late, flags.early);
    let cells = meant(flags.cells, flags.nets);
    let nets = meant(flags.nets, flags.cells);
    Derates {
        early_cell: factor_if(early, cells, factor, before.early_cell),
        late_cell: factor_if(late, cells, factor, before.late_cell),
        early_net: factor_if(early, nets, factor, before.early_net),
        late_net: factor_if(late, nets, factor, before.late_net),
    }
}

/// The derates with the factor that the command sets.
pub(crate) fn derates_with(draft: &Draft, before: Derates) -> Derates
    ensures { result ≡ derates_with draft.now draft.now.number before }
{
    let Figure::Value(value) = draft.number else {
        return before;
    };
    if !fits(Quantity::Factor, value) {
        return before;
    }
    derated(draft.flags, value as u32, before)
}
