//! Runs of small session cores.
//!
//!     sessions run 5; take, change a / await 3 1, ask; take 1, level 1 0, publish 1, answer 1
//!
//! A row has the number of the first version, the scripts, and the events, each with its session
//! and a level with its number. The answer is each session after all events, with its rows, and
//! then the entries of the journal. A row that begins with `steps` makes the events one by one. A
//! row that begins with `same` has one more event after a semicolon, which is not possible then,
//! and is answered by whether it changes anything.

ghost use Rattle.std.specs.Prelude.{◌≡◌, IsTrue};

use crate::answers::Answer;
use crate::scripts::{add_events, add_scripts, are_runnable, event};
use crate::words::{Stop, parted, place};
use session_core::{Core, CoreRow, CoreSession, Event, RowSort};
use sta_units::Memory;
use std::alloc::Global;
use std::str;
use timing_defs::{Edit, Entry, Items, Script};

/// The core of these scripts after all events.
fn core_after(
    alloc: Global,
    first: u32,
    scripts: Items<Script>,
    events: &[Event],
) -> Result<Core, Stop> {
    if scripts.is_empty() || scripts.len() > 16 || !are_runnable(scripts.as_slice()) {
        drop(scripts);
        return Err(Stop::Row);
    }
    match Core::all(alloc, u64::from(first), scripts, events) {
        Ok(core) => Ok(core),
        Err(Memory) => Err(Stop::Memory),
    }
}

/// The core of these scripts before its first event.
fn core_before(alloc: Global, first: u32, scripts: Items<Script>) -> Result<Core, Stop> {
    if scripts.is_empty() || scripts.len() > 16 || !are_runnable(scripts.as_slice()) {
        drop(scripts);
        return Err(Stop::Row);
    }
    match Core::begin(alloc, u64::from(first), scripts) {
        Ok(core) => Ok(core),
        Err(Memory) => Err(Stop::Memory),
    }
}

/// Adds a number, or `none`.
fn add_maybe(answer: &mut Answer, number: Option<u64>) -> Result<(), Stop> {
    match number {
        Some(number) => answer.value(number),
        None => answer.word("none"),
    }
}

fn add_looks(answer: &mut Answer, looks: &[u64]) -> Result<(), Stop> {
    for look in looks {
        answer.value(*look)?;
    }
    Ok(())
}

fn add_sort(answer: &mut Answer, sort: &RowSort) -> Result<(), Stop> {
    match sort {
        RowSort::Taken => answer.word("taken"),
        RowSort::Reached => answer.word("reached"),
        RowSort::Accepted => answer.word("accepted"),
        RowSort::Refused => answer.word("refused"),
        RowSort::Asked => answer.word("asked"),
        RowSort::NotYet(looks) => {
            answer.word("not yet")?;
            add_looks(answer, looks.as_slice())
        }
    }
}

/// Adds the rows of a session, each by its command, its number and its sort.
fn add_rows(answer: &mut Answer, rows: &[CoreRow]) -> Result<(), Stop> {
    for row in rows {
        answer.push(",")?;
        answer.value(row.command)?;
        answer.value(row.number)?;
        add_sort(answer, &row.sort)?;
    }
    Ok(())
}

fn add_session(answer: &mut Answer, session: &CoreSession) -> Result<(), Stop> {
    answer.pair("next", session.next)?;
    answer.word("held")?;
    add_maybe(answer, session.held)?;
    answer.word("looks")?;
    add_looks(answer, session.looks.as_slice())?;
    if let Some(draft) = session.draft {
        answer.pair("draft", draft.base)?;
        answer.value(draft.levels)?;
    }
    add_rows(answer, session.rows.as_slice())?;
    answer.word("/")
}

fn add_edit(answer: &mut Answer, edit: &Edit) -> Result<(), Stop> {
    match edit {
        Edit::InsertNet { net } => match str::from_utf8(net.as_bytes()) {
            Ok(text) => answer.word(text),
            Err(_) => Err(Stop::Row),
        },
        _ => Err(Stop::Row),
    }
}

/// Adds an entry of the journal by its session and the names of its new nets.
fn add_entry(answer: &mut Answer, entry: &Entry) -> Result<(), Stop> {
    answer.value(entry.session)?;
    for edit in entry.eco.edits.as_slice() {
        add_edit(answer, edit)?;
    }
    answer.push(",")
}

/// Adds the sessions and the entries of a core.
fn add_core(answer: &mut Answer, core: &Core) -> Result<(), Stop> {
    for session in core.sessions.as_slice() {
        add_session(answer, session)?;
    }
    for entry in core.entries.as_slice() {
        add_entry(answer, entry)?;
    }
    Ok(())
}

/// The number of the first version, the scripts and the events of a row.
#[derive(Drop)]
struct Run {
    first: u32,
    scripts: Items<Script>,
    events: Items<Event>,
}

/// Adds the scripts and the events of a row to a run.
fn add_run(alloc: Global, run: &mut Run, row: &str) -> Result<(), Stop> {
    let (first, rest) = parted(row, ';')?;
    let (scripts, events) = parted(rest, ';')?;
    run.first = place(first)?;
    add_scripts(alloc, &mut run.scripts, scripts)?;
    add_events(&mut run.events, events)
}

/// The run of a row.
fn run_of(alloc: Global, row: &str) -> Result<Run, Stop> {
    let mut run = Run {
        first: 0,
        scripts: Items::new(alloc),
        events: Items::new(alloc),
    };
    match add_run(alloc, &mut run, row) {
        Ok(()) => Ok(run),
        Err(stop) => {
            drop(run);
            Err(stop)
        }
    }
}

/// The core after all events of a row at once.
fn run_at_once(alloc: Global, row: &str) -> Result<Core, Stop> {
    match run_of(alloc, row) {
        Ok(
            Run {
                first,
                scripts,
                events,
            },
        ) => core_after(alloc, first, scripts, events.as_slice()),
        Err(stop) => Err(stop),
    }
}

fn step_all(core: &mut Core, events: &[Event]) -> Result<(), Stop> {
    for event in events {
        core.step(*event)?;
    }
    Ok(())
}

/// Adds what a core is after more events, each by a step.
fn add_stepped(answer: &mut Answer, mut core: Core, events: &[Event]) -> Result<(), Stop> {
    match step_all(&mut core, events) {
        Ok(()) => add_core(answer, &core),
        Err(stop) => Err(stop),
    }
}

fn run_row(alloc: Global, answer: &mut Answer, row: &str) -> Result<(), Stop> {
    match run_at_once(alloc, row) {
        Ok(core) => add_core(answer, &core),
        Err(stop) => Err(stop),
    }
}

fn steps_row(alloc: Global, answer: &mut Answer, row: &str) -> Result<(), Stop> {
    match run_of(alloc, row) {
        Ok(
            Run {
                first,
                scripts,
                events,
            },
        ) => match core_before(alloc, first, scripts) {
            Ok(core) => add_stepped(answer, core, events.as_slice()),
            Err(stop) => Err(stop),
        },
        Err(stop) => Err(stop),
    }
}

/// Whether an event leaves the core after all events of a row as it is, by their answers.
fn changes_nothing(alloc: Global, row: &str, event: Event) -> Result<bool, Stop> {
    let mut before = Answer::new(alloc);
    run_row(alloc, &mut before, row)?;
    let mut after = Answer::new(alloc);
    match run_at_once(alloc, row) {
        Ok(core) => add_stepped(&mut after, core, &[event])?,
        Err(stop) => return Err(stop),
    }
    Ok(before.as_str() == after.as_str())
}

fn same_row(alloc: Global, answer: &mut Answer, row: &str) -> Result<(), Stop> {
    let Some((first, last)) = row.rsplit_once(';') else {
        return Err(Stop::Row);
    };
    let same = changes_nothing(alloc, first, event(last)?)?;
    answer.word(if same { "nothing changes" } else { "a change" })
}

pub(crate) fn answer(alloc: Global, answer: &mut Answer, row: &str) -> Result<(), Stop> {
    let (kind, rest) = parted(row, ' ')?;
    match kind {
        "run" => run_row(alloc, answer, rest),
        "steps" => steps_row(alloc, answer, rest),
        "same" => same_row(alloc, answer, rest),
        _ => Err(Stop::Row),
    }
}
