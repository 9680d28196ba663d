//! Rules of the path from the register r1 to the register r2.
//!
//!     paths false_setup, from cell r1 hold 4    what is tested, and after how many cycles
//!     paths -                                   the same without exceptions
//!
//! An exception is `false_setup`, `false_hold`, `setup CYCLES` or `hold CYCLES`. Before it may
//! stand `from any NAME`, `from cell NAME` or `from clock NAME`.

ghost use Rattle.std.specs.Prelude.{◌≡◌, length, IfOk};

use crate::answers::Answer;
use crate::clocks::clock;
use crate::words::{Stop, is_none, name, place};
use path_rules::{Rule, rule};
use sta_units::Memory;
use std::alloc::Global;
use timing_defs::{Capture, Constraints, Derates, Effect, Exception, Items, Launch, Object};

/// The list of one item.
fn one<T: Drop>(alloc: Global, item: T) -> Result<Items<T>, Memory>
    ensures { IfOk result (λ items. length items ≡ 1) }
{
    let mut items = Items::new(alloc);
    match items.push(item) {
        Ok(()) => Ok(items),
        Err(Memory) => Err(Memory),
    }
}

fn effect(words: &[&str]) -> Result<Effect, Stop> {
    match words {
        ["false_setup"] => Ok(Effect::FalseSetup),
        ["false_hold"] => Ok(Effect::FalseHold),
        ["setup", cycles] => Ok(Effect::CyclesSetup(place(cycles)?)),
        ["hold", cycles] => Ok(Effect::CyclesHold(place(cycles)?)),
        _ => Err(Stop::Row),
    }
}

fn object(alloc: Global, kind: &str, text: &str) -> Result<Object, Stop> {
    let name = name(alloc, text)?;
    match kind {
        "any" => Ok(Object::Any(name)),
        "cell" => Ok(Object::Cell(name)),
        "clock" => Ok(Object::Clock(name)),
        _ => {
            drop(name);
            Err(Stop::Row)
        }
    }
}

/// An exception for the paths from an object.
fn exception_from(alloc: Global, object: Object, effect: Effect) -> Result<Exception, Stop> {
    match one(alloc, object) {
        Ok(from) => Ok(Exception {
            from: Some(from),
            to: None,
            effect,
        }),
        Err(Memory) => Err(Stop::Memory),
    }
}

fn exception(alloc: Global, words: &[&str]) -> Result<Exception, Stop> {
    match words {
        ["from", kind, text, rest @ ..] => {
            let effect = effect(rest)?;
            exception_from(alloc, object(alloc, kind, text)?, effect)
        }
        _ => Ok(Exception {
            from: None,
            to: None,
            effect: effect(words)?,
        }),
    }
}

fn add_exceptions(alloc: Global, exceptions: &mut Items<Exception>, row: &str) -> Result<(), Stop> {
    for part in row.split(',') {
        let words: Vec<&str> = part.split_whitespace().collect(alloc)?;
        let exception = exception(alloc, words.as_slice());
        drop(words);
        exceptions.push(exception?)?;
    }
    Ok(())
}

/// The constraints of one clock and some exceptions.
fn constraints(alloc: Global, exceptions: Items<Exception>) -> Result<Constraints, Stop>
    ensures { IfOk result (λ constraints. length constraints.clocks ≡ 1) }
{
    let clock = clock(alloc, "clk", 10, 5)?;
    match one(alloc, clock) {
        Ok(clocks) => Ok(Constraints {
            clocks,
            inputs: Items::new(alloc),
            outputs: Items::new(alloc),
            slews: Items::new(alloc),
            loads: Items::new(alloc),
            exceptions,
            derates: Derates {
                early_cell: 1_000_000,
                late_cell: 1_000_000,
                early_net: 1_000_000,
                late_net: 1_000_000,
            },
        }),
        Err(Memory) => Err(Stop::Memory),
    }
}

fn launch(alloc: Global) -> Result<Launch, Stop>
    ensures { IfOk result (λ launch. launch.clock ≡ 0) }
{
    match (name(alloc, "r1:CK"), name(alloc, "r1")) {
        (Ok(pin), Ok(cell)) => Ok(Launch {
            pin,
            cell: Some(cell),
            clock: 0,
        }),
        _ => Err(Stop::Memory),
    }
}

fn capture(alloc: Global) -> Result<Capture, Stop>
    ensures { IfOk result (λ capture. capture.clock ≡ 0) }
{
    match (name(alloc, "r2:D"), name(alloc, "r2")) {
        (Ok(pin), Ok(cell)) => Ok(Capture {
            pin,
            cell: Some(cell),
            clock: 0,
        }),
        _ => Err(Stop::Memory),
    }
}

/// The rule of the path under constraints of one clock.
fn path_rule(alloc: Global, constraints: &Constraints) -> Result<Rule, Stop>
    requires { length constraints.now.clocks ≡ 1 }
{
    match (launch(alloc), capture(alloc)) {
        (Ok(launch), Ok(capture)) => Ok(rule(constraints, &launch, &capture)),
        _ => Err(Stop::Memory),
    }
}

/// Adds the cycles of a kind, or that it is not tested.
fn add_kind(answer: &mut Answer, word: &str, tested: bool, cycles: u32) -> Result<(), Stop> {
    answer.pair(word, cycles)?;
    answer.word(if tested { "tested" } else { "untested" })
}

fn add_rule(alloc: Global, answer: &mut Answer, exceptions: Items<Exception>) -> Result<(), Stop> {
    match constraints(alloc, exceptions) {
        Ok(constraints) => {
            let rule = path_rule(alloc, &constraints)?;
            add_kind(answer, "setup", rule.setup_tested, rule.setup_cycles)?;
            add_kind(answer, "hold", rule.hold_tested, rule.hold_cycles)
        }
        Err(stop) => Err(stop),
    }
}

pub(crate) fn answer(alloc: Global, answer: &mut Answer, row: &str) -> Result<(), Stop> {
    let mut exceptions = Items::new(alloc);
    if is_none(row) {
        return add_rule(alloc, answer, exceptions);
    }
    match add_exceptions(alloc, &mut exceptions, row) {
        Ok(()) => add_rule(alloc, answer, exceptions),
        Err(stop) => Err(stop),
    }
}
