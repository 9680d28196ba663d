//! The reader: the constraints of a text, or its least fault.

ghost use Rattle.std.specs.Prelude.{◌≡◌, ◌≤◌, ◌++◌, ◌∷◌, [], not, length, drop, true, false, Some, None, IfOk, MatchResult};
ghost use Rattle.std.specs.List.{list_any};
ghost use Rattle.timing_defs.specs.Documents.{are_constraints};
ghost use Rattle.sta_text.specs.Faults.{least_from, Fails};
ghost use Rattle.sdc_reader.specs.Grammar.{events_of};
ghost use Rattle.sdc_reader.specs.Meaning.{start, last, constraints_of};
ghost use Rattle.sdc_reader.specs.Faults.{is_fault, is_accepted, faults, faults_of};

use crate::events::Event;
use crate::faults::note;
use crate::interpreter::Interpreter;
use crate::texts::events_of;
use sta_text::Wrong;
use sta_units::Memory;
use std::alloc::Global;
use timing_defs::{Constraints, ReadFault, Units};

/// What all events have set, and the least fault that they show.
#[derive(Drop)]
struct Outcome {
    set: Interpreter,
    fault: Option<Wrong>,
}

fn is_fault(event: &Event) -> bool
    ensures { result ≡ is_fault event.now }
{
    match event {
        Event::Fault(_) => true,
        _ => false,
    }
}

fn has_fault(events: &[Event]) -> bool
    ensures { result ≡ list_any is_fault events.now }
{
    events.iter().any(|event| is_fault(event))
}

/// Whether the grammar accepts the whole text.
fn is_accepted(events: &[Event]) -> bool
    ensures { result ≡ is_accepted events.now }
{
    !has_fault(events)
}

/// Carries out all events, and looks for their faults.
#[tactic(auto, unfolding(crate::specs::Meaning::last, crate::specs::Faults::faults, sta_text::specs::Faults::least_from), using(std::proofs::lemmas::List::drop_more, crate::proofs::ClockLemmas::after_limit))]
fn carry_out(alloc: Global, events: &[Event], size: usize, units: Units) -> Result<Outcome, Memory>
    ensures set { IfOk result (λ outcome. outcome.set ≡ last (start units) events.now) }
    ensures fault { IfOk result
        (λ outcome. outcome.fault ≡ least_from None (faults_of size units events.now)) }
{
    let whole = is_accepted(events);
    let mut set = Interpreter::new(alloc, units);
    let mut fault = None;
    for event in events {
        fault = note(size, whole, &set, event, fault);
        set.step(alloc, event)?;
    }
    Ok(Outcome { set, fault })
}

/// The constraints of a text, or its least fault.
#[tactic(auto, using(sta_text::proofs::FaultsLemmas::least_none))]
fn whole_constraints(alloc: Global, bytes: &[u8], units: &Units) -> Result<Constraints, ReadFault>
    ensures { MatchResult result
        (λ c. (faults_of (length bytes.now) units.now (events_of bytes.now) ≡ [])
        × (c ≡ constraints_of units.now (events_of bytes.now)))
        (λ e. Fails e (faults_of (length bytes.now) units.now (events_of bytes.now))) }
{
    let events = events_of(alloc, bytes)?;
    let outcome = carry_out(alloc, events.as_slice(), bytes.len(), *units)?;
    match outcome.fault {
        Some(wrong) => Err(wrong.told()),
        None => Ok(outcome.set.constraints(alloc)?),
    }
}

/// The constraints that a text writes (a subset of SDC 2.1), its numbers being in these units up to
/// its own `set_units`.
///
/// Commands end at a line's end or `;`. A list is `{a b}`; an object is a word, a list, or
/// `[get_ports x]`, `[get_clocks x]`, `[get_pins x]` or `[get_cells x]` with a word or list. Read
/// are `create_clock`, `set_input_delay`, `set_output_delay`, `set_input_transition`, `set_load`,
/// `set_clock_uncertainty`, `set_false_path`, `set_multicycle_path`, `set_timing_derate` and
/// `set_units`. `set sdc_version`, `current_design`, `set_propagated_clock`,
/// `set_operating_conditions`, wire load modes and models, limits of area, fan-out, transition and
/// capacitance, and `group_path` are passed over. `-min` is early, `-max` is late; where neither of
/// two such options stands both hold. The last value written counts. A clock without a waveform
/// rises at 0 and falls at half its period, rounded down. At most 8 clocks are given, of distinct
/// names and at most one on a port; delays, slews and loads have one value for each port, split and
/// transition that they are given for; delays name clocks by their places.
///
/// # Errors
///
/// The fault of least offset, and at one offset the one of lowest code:
/// - `S1`: a word that does not fit, or a missing one;
/// - `S2`: an unknown command;
/// - `S3`: a command or option of SDC that is left out, a variable, a pattern, a second clock on a
///   port or of a name, a clock on several ports, a delay without `-clock`, a multicycle of both
///   `-setup` and `-hold`;
/// - `S4`: no decimal in range, a period below 2 fs, a waveform that does not fit into its period,
///   a negative slew or load, cycles outside 1 to 1,000 (setup) or 0 to 1,000 (hold), a derate
///   outside 0 to 10;
/// - `S5`: the clock of a delay, slew or uncertainty that was not created before;
/// - `S6`: a ninth clock.
///
/// What is missing in a command counts only where the grammar accepts the whole text. Want of memory
/// may come at any time. It reads the bytes once, in linear time.
pub fn read_constraints(
    alloc: Global,
    bytes: &[u8],
    units: &Units,
) -> Result<Constraints, ReadFault>
    ensures value { MatchResult result
        (λ c. (faults_of (length bytes.now) units.now (events_of bytes.now) ≡ [])
        × (c ≡ constraints_of units.now (events_of bytes.now)))
        (λ e. Fails e (faults_of (length bytes.now) units.now (events_of bytes.now))) }
    ensures kept { IfOk result (λ c. are_constraints c ≡ true) }
{
    whole_constraints(alloc, bytes, units)
}
