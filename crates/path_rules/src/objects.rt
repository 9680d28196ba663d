//! The objects of exceptions, and what they match.

ghost use Rattle.std.specs.Prelude.{◌≡◌};
ghost use Rattle.std.specs.List.{list_any};
ghost use Rattle.timing_rules.specs.Rules.{has_clock, is_clock_name, is_cell, is_object, is_among, applies};
ghost use Rattle.path_rules.specs.Ends.{end_of, is_word_of};

use crate::words::is_pin_word;
use timing_defs::{Capture, Clock, Constraints, Exception, Items, Launch, Name, Object};

/// An end of a path: a pin, its instance (none for a port) and the place of a clock.
#[derive(Clone, Copy)]
pub(crate) struct End<'a> {
    pub(crate) pin: &'a Name,
    pub(crate) cell: &'a Option<Name>,
    pub(crate) clock: u32,
}

/// Whether the clock at a place has that name.
fn has_clock(clocks: &[Clock], place: u32, name: &Name) -> bool
    ensures { result ≡ has_clock clocks.now place name.now }
{
    match clocks.get(place as usize) {
        Some(clock) => clock.name == *name,
        None => false,
    }
}

/// Whether some clock has that name.
fn is_clock_name(clocks: &[Clock], name: &Name) -> bool
    ensures { result ≡ is_clock_name clocks.now name.now }
{
    clocks.iter().any(|clock| clock.name == *name)
}

/// Whether the instance has that name.
fn is_cell(end: &End, name: &Name) -> bool
    ensures { result ≡ is_cell (end_of end.now) name.now }
{
    match end.cell {
        Some(cell) => cell == name,
        None => false,
    }
}

/// Whether a word of no written kind stands for the port, the pin or the instance.
fn is_word_of(end: &End, word: &Name) -> bool
    ensures { result ≡ is_word_of (end_of end.now) word.now }
{
    (end.cell.is_none() && end.pin == word)
        || is_pin_word(end.pin.as_bytes(), word.as_bytes())
        || is_cell(end, word)
}

/// Whether an object stands for the end.
fn is_object(clocks: &[Clock], end: &End, object: &Object) -> bool
    ensures { result ≡ is_object clocks.now (end_of end.now) object.now }
{
    match object {
        Object::Clock(name) => has_clock(clocks, end.clock, name),
        Object::Port(name) => end.pin == name,
        Object::Pin(name) => end.pin == name,
        Object::Cell(name) => is_cell(end, name),
        Object::Any(name) => {
            if is_clock_name(clocks, name) {
                has_clock(clocks, end.clock, name)
            } else {
                is_word_of(end, name)
            }
        }
    }
}

/// Whether one of the objects stands for the end.
fn is_any(clocks: &[Clock], end: &End, objects: &[Object]) -> bool
    ensures { result ≡ list_any (is_object clocks.now (end_of end.now)) objects.now }
{
    for object in objects {
        if is_object(clocks, end, object) {
            return true;
        }
    }
    false
}

/// Whether one of the objects stands for the end; no list stands for all.
fn is_among(clocks: &[Clock], end: &End, objects: &Option<Items<Object>>) -> bool
    ensures { result ≡ is_among clocks.now (end_of end.now) objects.now }
{
    match objects {
        Some(objects) => is_any(clocks, end, objects.as_slice()),
        None => true,
    }
}

/// Whether an exception is about the paths from a launch to a capture.
pub(crate) fn applies(c: &Constraints, launch: &Launch, capture: &Capture, x: &Exception) -> bool
    ensures { result ≡ applies c.now launch.now capture.now x.now }
{
    let clocks = c.clocks.as_slice();
    let from = End {
        pin: &launch.pin,
        cell: &launch.cell,
        clock: launch.clock,
    };
    let to = End {
        pin: &capture.pin,
        cell: &capture.cell,
        clock: capture.clock,
    };
    is_among(clocks, &from, &x.from) && is_among(clocks, &to, &x.to)
}
