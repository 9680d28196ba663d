//! The faults that the events of a text show. Each function takes the least fault that is known, and
//! gives the least of that one and its own.

ghost use Rattle.std.specs.Prelude.{◌≡◌, ◌++◌, ◌∷◌, [], List, ◌||◌, true, false, is_none, Some, None};
ghost use Rattle.sta_text.specs.Faults.{least_from};
ghost use Rattle.sta_text.specs.declared.faults.Wrong.{Wrong};
ghost use Rattle.sdc_reader.specs.Numbers.{is_absent};
ghost use Rattle.sdc_reader.specs.Meaning.{clock_name};
ghost use Rattle.sdc_reader.specs.Faults.{fault_if, names_clock, lacks_both, lacks, misfit_at, clock_faults, is_beyond, complete_faults, found};
ghost use Rattle.sdc_reader.specs.declared.events.Event.TheVariants as events;

use crate::clocks::{CLOCK_LIMIT, is_created, is_second, is_spread};
use crate::commands::{Command, Role};
use crate::draft::{Draft, Figure};
use crate::events::Event;
use crate::interpreter::Interpreter;
use crate::numbers::{are_cycles, misfits, number_of};
use sta_text::{Wrong, lesser};
use timing_defs::Code;

/// Notes a fault where the test holds.
#[tactic(auto, unfolding(sta_text::specs::Faults::least_from))]
fn note_if(test: bool, code: Code, at: usize, best: Option<Wrong>) -> Option<Wrong>
    ensures { (rest : List Wrong) → least_from result rest
        ≡ least_from best (fault_if test code at ++ rest) }
{
    if test {
        lesser(best, Wrong { code, at })
    } else {
        best
    }
}

/// Whether objects in this role are clocks that have to be created before.
fn names_clock(role: Role) -> bool
    ensures { result ≡ names_clock role }
{
    match role {
        Role::Clocks | Role::Clock => true,
        _ => false,
    }
}

fn lacks_both(draft: &Draft) -> bool
    ensures { result ≡ lacks_both draft.now }
{
    draft.number.is_absent() || draft.names.is_none()
}

fn lacks_clock_part(draft: &Draft) -> bool
    ensures { result ≡ (is_absent draft.now.period || is_none (clock_name draft.now)) }
{
    draft.period.is_absent() || draft.clock_name().is_none()
}

/// Whether a required part of the command never came.
fn lacks(draft: &Draft) -> bool
    ensures { result ≡ lacks draft.now.command draft.now }
{
    match draft.command {
        Command::CreateClock => lacks_clock_part(draft),
        Command::InputDelay
        | Command::OutputDelay
        | Command::InputTransition
        | Command::Load
        | Command::Uncertainty => lacks_both(draft),
        Command::Multicycle | Command::Derate => draft.number.is_absent(),
        Command::FalsePath | Command::Units => false,
    }
}

/// Notes a waveform that does not fit into its period.
fn note_wave(draft: &Draft, best: Option<Wrong>) -> Option<Wrong>
    ensures { (rest : List Wrong) → least_from result rest
        ≡ least_from best (misfit_at draft.now.wave.at draft.now ++ rest) }
{
    match draft.wave.at {
        None => best,
        Some(at) => {
            let test = misfits(draft.period, draft.wave.rise, draft.wave.fall);
            note_if(test, Code::SdcBadNumber, at, best)
        }
    }
}

/// Notes what is wrong with a clock.
fn note_clock(set: &Interpreter, best: Option<Wrong>) -> Option<Wrong>
    ensures { (rest : List Wrong) → least_from result rest
        ≡ least_from best (clock_faults set.now set.now.draft ++ rest) }
{
    let draft = &set.draft;
    let clocks = set.clocks.as_slice();
    let second = is_spread(draft) || is_second(clocks, draft);
    let many = CLOCK_LIMIT <= clocks.len();
    let left_out = note_if(second, Code::SdcLeftOut, draft.at, best);
    let counted = note_if(many, Code::SdcTooManyClocks, draft.at, left_out);
    note_wave(draft, counted)
}

fn is_beyond(hold: bool, number: Figure) -> bool
    ensures { result ≡ is_beyond hold number }
{
    match number {
        Figure::Value(value) => !are_cycles(hold, value),
        _ => false,
    }
}

/// Notes what is wrong with a command that is complete.
fn note_complete(set: &Interpreter, best: Option<Wrong>) -> Option<Wrong>
    ensures { (rest : List Wrong) → least_from result rest
        ≡ least_from best (complete_faults set.now.draft.command set.now set.now.draft ++ rest) }
{
    let draft = &set.draft;
    match draft.command {
        Command::CreateClock => note_clock(set, best),
        Command::InputDelay | Command::OutputDelay => {
            note_if(draft.clock.is_none(), Code::SdcLeftOut, draft.at, best)
        }
        Command::Multicycle => {
            let test = is_beyond(draft.flags.hold, draft.number);
            note_if(test, Code::SdcBadNumber, draft.number_at, best)
        }
        _ => best,
    }
}

/// Notes what the end of a command shows.
fn note_end(size: usize, whole: bool, set: &Interpreter, best: Option<Wrong>) -> Option<Wrong>
    ensures { (rest : List Wrong) → least_from result rest
        ≡ least_from best (found size whole set.now events.End ++ rest) }
{
    let complete = note_complete(set, best);
    let test = whole && lacks(&set.draft);
    note_if(test, Code::SdcBadWord, size, complete)
}

/// Notes what an event shows.
#[tactic(auto, unfolding(sta_text::specs::Faults::least_from))]
pub(crate) fn note(
    size: usize,
    whole: bool,
    set: &Interpreter,
    event: &Event,
    best: Option<Wrong>,
) -> Option<Wrong>
    ensures { (rest : List Wrong) → least_from result rest
        ≡ least_from best (found size whole set.now event.now ++ rest) }
{
    match event {
        Event::Number(quantity, word, at) => {
            let number = number_of(&set.units, *quantity, word.as_bytes());
            note_if(number.is_faulty(), Code::SdcBadNumber, *at, best)
        }
        Event::Object(role, _, name, at) => {
            let test = names_clock(*role) && !is_created(set.clocks.as_slice(), name);
            note_if(test, Code::SdcUnknownClock, *at, best)
        }
        Event::End => note_end(size, whole, set, best),
        Event::Fault(wrong) => lesser(best, *wrong),
        _ => best,
    }
}
