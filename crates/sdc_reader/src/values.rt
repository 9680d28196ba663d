//! Values of options: names, numbers, units and waveforms.

ghost use Rattle.std.specs.Prelude.{◌≡◌, ◌≤◌, ◌∷◌, ◌++◌, [], true, false, codes, length, MatchResult, if◌then◌else◌, Option, Some, None};
ghost use Rattle.sdc_reader.specs.declared.commands.Quantity.TheVariants as quantity;
ghost use Rattle.sdc_reader.specs.Grammar.{argument, name_value, period_value, time_value, capacitance_value, wave_open, wave_rise, wave_fall, wave_close};
ghost use Rattle.sdc_reader.specs.Reads.{Reads};

use crate::commands::{Line, Quantity, capacitance_unit, time_unit};
use crate::cursor::{Stop, any, check_value, unfit};
use crate::events::Event;
use crate::words::{is_mark, is_word, name_of};
use sta_text::Cursor;
use std::alloc::Global;

/// Takes the name of a clock.
#[tactic(auto, unfolding(crate::specs::Grammar::events))]
pub(crate) fn name(
    alloc: Global,
    cursor: &mut Cursor<'_>,
    size: usize,
    out: &mut Vec<Event>,
    line: Line,
) -> Result<Line, Stop>
    ensures { Reads result size (name_value line) (λ l. argument l) cursor.old cursor.new
        out.old.items out.new.items }
{
    let token = any(cursor, size, out)?;
    check_value(out, &token)?;
    out.push(Event::Named(name_of(alloc, token.text)?))?;
    Ok(line)
}

/// Takes the period of a clock.
#[tactic(auto, unfolding(crate::specs::Grammar::events))]
pub(crate) fn period(
    alloc: Global,
    cursor: &mut Cursor<'_>,
    size: usize,
    out: &mut Vec<Event>,
    line: Line,
) -> Result<Line, Stop>
    ensures { Reads result size (period_value line) (λ l. argument l) cursor.old cursor.new
        out.old.items out.new.items }
{
    let token = any(cursor, size, out)?;
    check_value(out, &token)?;
    let text = name_of(alloc, token.text)?;
    out.push(Event::Number(Quantity::Period, text, token.start))?;
    Ok(line)
}

/// Takes a unit of time.
#[tactic(auto, unfolding(crate::specs::Grammar::events))]
pub(crate) fn time(
    cursor: &mut Cursor<'_>,
    size: usize,
    out: &mut Vec<Event>,
    line: Line,
) -> Result<Line, Stop>
    ensures { Reads result size (time_value line) (λ l. argument l) cursor.old cursor.new
        out.old.items out.new.items }
{
    let token = any(cursor, size, out)?;
    check_value(out, &token)?;
    match time_unit(token.text) {
        None => Err(unfit(out, token.start)),
        Some(ten) => {
            out.push(Event::TimeUnit(ten))?;
            Ok(line)
        }
    }
}

/// Takes a unit of capacitance.
#[tactic(auto, unfolding(crate::specs::Grammar::events))]
pub(crate) fn capacitance(
    cursor: &mut Cursor<'_>,
    size: usize,
    out: &mut Vec<Event>,
    line: Line,
) -> Result<Line, Stop>
    ensures { Reads result size (capacitance_value line) (λ l. argument l) cursor.old cursor.new
        out.old.items out.new.items }
{
    let token = any(cursor, size, out)?;
    check_value(out, &token)?;
    match capacitance_unit(token.text) {
        None => Err(unfit(out, token.start)),
        Some(ten) => {
            out.push(Event::CapacitanceUnit(ten))?;
            Ok(line)
        }
    }
}

/// Takes the brace before a waveform.
#[tactic(auto, unfolding(crate::specs::Grammar::events))]
fn wave_open(
    cursor: &mut Cursor<'_>,
    size: usize,
    out: &mut Vec<Event>,
    line: Line,
) -> Result<Line, Stop>
    ensures { Reads result size (wave_open line) (λ l. wave_rise l) cursor.old cursor.new
        out.old.items out.new.items }
{
    let token = any(cursor, size, out)?;
    if is_mark(&token, b"{") {
        out.push(Event::Waveform(token.start))?;
        return Ok(line);
    }
    check_value(out, &token)?;
    Err(unfit(out, token.start))
}

/// Takes the time of a clock's rise.
#[tactic(auto, unfolding(crate::specs::Grammar::events))]
fn wave_rise(
    alloc: Global,
    cursor: &mut Cursor<'_>,
    size: usize,
    out: &mut Vec<Event>,
    line: Line,
) -> Result<Line, Stop>
    ensures { Reads result size (wave_rise line) (λ l. wave_fall l) cursor.old cursor.new
        out.old.items out.new.items }
{
    let token = any(cursor, size, out)?;
    if !is_word(&token) {
        return Err(unfit(out, token.start));
    }
    let text = name_of(alloc, token.text)?;
    out.push(Event::Number(Quantity::WaveRise, text, token.start))?;
    Ok(line)
}

/// Takes the time of a clock's fall.
#[tactic(auto, unfolding(crate::specs::Grammar::events))]
fn wave_fall(
    alloc: Global,
    cursor: &mut Cursor<'_>,
    size: usize,
    out: &mut Vec<Event>,
    line: Line,
) -> Result<Line, Stop>
    ensures { Reads result size (wave_fall line) (λ l. wave_close l) cursor.old cursor.new
        out.old.items out.new.items }
{
    let token = any(cursor, size, out)?;
    if !is_word(&token) {
        return Err(unfit(out, token.start));
    }
    let text = name_of(alloc, token.text)?;
    out.push(Event::Number(Quantity::WaveFall, text, token.start))?;
    Ok(line)
}

/// Takes the brace behind a waveform.
#[tactic(auto, unfolding(crate::specs::Grammar::events))]
fn wave_close(
    cursor: &mut Cursor<'_>,
    size: usize,
    out: &mut Vec<Event>,
    line: Line,
) -> Result<Line, Stop>
    ensures { Reads result size (wave_close line) (λ l. argument l) cursor.old cursor.new
        out.old.items out.new.items }
{
    let token = any(cursor, size, out)?;
    if is_mark(&token, b"}") {
        return Ok(line);
    }
    Err(unfit(out, token.start))
}

/// Takes a waveform: a rise and a fall, in a list.
pub(crate) fn waveform(
    alloc: Global,
    cursor: &mut Cursor<'_>,
    size: usize,
    out: &mut Vec<Event>,
    line: Line,
) -> Result<Line, Stop>
    ensures { Reads result size (wave_open line) (λ l. argument l) cursor.old cursor.new
        out.old.items out.new.items }
{
    let opened = wave_open(cursor, size, out, line)?;
    let risen = wave_rise(alloc, cursor, size, out, opened)?;
    let fallen = wave_fall(alloc, cursor, size, out, risen)?;
    wave_close(cursor, size, out, fallen)
}
