//! Live runs over two inverters, and what was done at their doors as text.

ghost use Rattle.std.specs.Prelude.{◌≡◌, ◌≤◌, true, is_some, length};
ghost use Rattle.live_words.specs.Asked.{IsInRange, asked_words};

use live_doors::{Done, MemDoor, MemHall, MemSeat};
use live_run::Parted;
use live_server::{LiveLeft, Status, Surroundings, serve_live};
use live_words::{LiveWords, Pair};
use sta_outside::{Gate, MemShelf, MemSink};
use std::alloc::Global;
use std::process::Abort;
use std::sync::Wait;
use std::thread::Threads;

/// An inverter of two sizes.
pub(crate) const LIBRARY: &str = r#"library (a) { time_unit : "1ps"; capacitive_load_unit (1, ff);
 cell (INV) { pin (A) { direction : input; capacitance : 2; }
  pin (Z) { direction : output;
   timing () { related_pin : "A"; timing_sense : negative_unate;
    cell_rise (scalar) { values ("10"); } rise_transition (scalar) { values ("4"); }
    cell_fall (scalar) { values ("12"); } fall_transition (scalar) { values ("6"); } } } }
 cell (INVX2) { pin (A) { direction : input; capacitance : 4; }
  pin (Z) { direction : output;
   timing () { related_pin : "A"; timing_sense : negative_unate;
    cell_rise (scalar) { values ("7"); } rise_transition (scalar) { values ("3"); }
    cell_fall (scalar) { values ("8"); } fall_transition (scalar) { values ("5"); } } } } }
"#;

/// Two inverters.
pub(crate) const NETLIST: &str =
    "module top (in, out); input in; output out; wire w; INV u1 (.A(in), .Z(w)); INV u2 (.A(w), .Z(out)); endmodule\n";

/// A session: the lines that come in at its door, and the call of the door that fails, from 1; none at 0.
#[derive(Clone, Copy, Drop)]
pub(crate) struct Given<'a> {
    pub(crate) lines: &'a str,
    pub(crate) fails: u64,
}

/// A session at whose door nothing fails.
pub(crate) fn sound(lines: &str) -> Given<'_> {
    Given { lines, fails: 0 }
}

/// A journal: the text that was saved, whether its file is there, and the put that fails, from 1; none at 0.
#[derive(Clone, Copy, Drop)]
pub(crate) struct Saved<'a> {
    pub(crate) text: &'a str,
    pub(crate) is_there: bool,
    pub(crate) fails: u64,
}

/// An empty journal whose file takes all.
pub(crate) const EMPTY: Saved<'static> = Saved {
    text: "",
    is_there: true,
    fails: 0,
};

/// What a run leaves: its status, the stories of its sessions, what was put into the journal's file, and the last line.
#[derive(Drop)]
pub(crate) struct Told {
    pub(crate) status: Status,
    pub(crate) stories: Vec<u8>,
    pub(crate) journal: Vec<u8>,
    pub(crate) written: Vec<u8>,
}

fn append(rt: &impl Abort, text: &mut Vec<u8>, more: &[u8]) {
    text.extend_from_slice(more).expect(rt, "memory");
}

fn copied(rt: &impl Abort, alloc: Global, text: &[u8]) -> Vec<u8> {
    Vec::from_slice(alloc, text).expect(rt, "memory")
}

/// The lines of a text.
fn lines_of(rt: &impl Abort, alloc: Global, text: &str) -> Vec<Vec<u8>> {
    let mut lines = Vec::new(alloc);
    for line in text.lines() {
        lines
            .push(copied(rt, alloc, line.as_bytes()))
            .expect(rt, "memory");
    }
    lines
}

/// The hall of these sessions.
fn hall_of(rt: &impl Abort, alloc: Global, sessions: &[Given<'_>]) -> MemHall {
    let mut seats = Vec::new(alloc);
    for given in sessions {
        let lines = lines_of(rt, alloc, given.lines);
        let fails = Vec::from_slice(alloc, &[given.fails]).expect(rt, "memory");
        seats.push(MemSeat { lines, fails }).expect(rt, "memory");
    }
    MemHall::new(seats)
}

/// A sink of which the put of a number fails.
fn sink(rt: &impl Abort, alloc: Global, fails: u64) -> MemSink {
    let fails = Vec::from_slice(alloc, &[fails]).expect(rt, "memory");
    MemSink::new(alloc, 1_000_000, fails).expect(rt, "memory")
}

/// A shelf of the documents, and of a saved journal.
fn shelf_of(rt: &impl Abort, alloc: Global, saved: &str) -> MemShelf {
    let mut names = Vec::new(alloc);
    let mut texts = Vec::new(alloc);
    let documents = [
        ("a.lib", LIBRARY),
        ("a.v", NETLIST),
        ("empty", ""),
        ("saved", saved),
    ];
    for (name, text) in &documents {
        names
            .push(String::from_str(alloc, name).expect(rt, "memory"))
            .expect(rt, "memory");
        texts
            .push(copied(rt, alloc, text.as_bytes()))
            .expect(rt, "memory");
    }
    MemShelf::new(names, texts, Vec::new(alloc))
}

/// The names of a session's ends, which the hall in memory does not read.
const PAIR: Pair<'static> = Pair {
    input: "in",
    output: "out",
};

/// The pairs of one session or of two.
fn pairs_of(rt: &impl Abort, alloc: Global, count: usize) -> Vec<Pair<'static>>
    ensures { length result.items ≤ 16 }
{
    if count < 2 {
        Vec::new(alloc)
    } else {
        Vec::from_slice(alloc, &[PAIR, PAIR]).expect(rt, "memory")
    }
}

/// The words of a run of one session or of two.
fn words_of(rt: &impl Abort, alloc: Global, count: usize, keeps: bool) -> LiveWords<'static>
    ensures range { IsInRange result }
    ensures named { is_some (asked_words result).journal ≡ keeps }
{
    LiveWords {
        early: "a.lib",
        late: "a.lib",
        netlist: "a.v",
        sdc: "empty",
        spef: "none",
        journal: if keeps { Some("saved") } else { None },
        workers: 1,
        pairs: pairs_of(rt, alloc, count),
    }
}

/// What was done at a door, a line each: what was heard behind `<`, what was kept as `kept N`, and what was said as it is.
fn story(rt: &impl Abort, alloc: Global, text: &mut Vec<u8>, door: &MemDoor) {
    for done in door.done().expect(rt, "the deeds") {
        match done {
            Done::Heard(line) => {
                append(rt, text, b"< ");
                append(rt, text, line);
                append(rt, text, b"\n");
            }
            Done::Kept(number) => {
                let mark = format!(in alloc; "kept {number}\n").expect(rt, "memory");
                append(rt, text, mark.as_bytes());
            }
            Done::Said(piece) => append(rt, text, piece),
        }
    }
}

/// The stories of sessions, one behind the other.
fn stories(rt: &impl Abort, alloc: Global, sessions: &[Parted<MemDoor>]) -> Vec<u8> {
    let mut text = Vec::new(alloc);
    for session in sessions {
        if let Some(door) = &session.door {
            story(rt, alloc, &mut text, door);
        }
    }
    text
}

/// What was put into a journal's file, where there is one.
fn put_in(rt: &impl Abort, alloc: Global, journal: &Option<MemSink>) -> Vec<u8> {
    match journal {
        Some(file) => copied(rt, alloc, file.bytes()),
        None => Vec::new(alloc),
    }
}

/// The end of a run over what is given.
fn left<H: Threads + Wait + Sync, G: Gate>(
    rt: &H,
    alloc: Global,
    asked: &LiveWords<'_>,
    shelf: &mut MemShelf,
    journal: Option<MemSink>,
    out: &mut MemSink,
    around: &Surroundings<'_, MemHall, G>,
) -> LiveLeft<MemDoor, MemSink>
    requires asked { IsInRange asked.now }
    requires named { is_some journal ≡ true → is_some (asked_words asked.now).journal ≡ true }
{
    serve_live(rt, alloc, asked, shelf, journal, out, around)
}

/// What a run of one session or of two leaves, with a journal where one is given.
pub(crate) fn served<H: Abort + Threads + Wait + Sync, G: Gate>(
    rt: &H,
    alloc: Global,
    sessions: &[Given<'_>],
    saved: Option<Saved<'_>>,
    gate: &G,
) -> Told {
    let hall = hall_of(rt, alloc, sessions);
    let asked = words_of(rt, alloc, sessions.len(), saved.is_some());
    let kept = saved.unwrap_or(Saved {
        is_there: false,
        ..EMPTY
    });
    let mut shelf = shelf_of(rt, alloc, kept.text);
    let file = if kept.is_there {
        Some(sink(rt, alloc, kept.fails))
    } else {
        None
    };
    let mut out = sink(rt, alloc, 0);
    let around = Surroundings { hall: &hall, gate };
    let left = left(rt, alloc, &asked, &mut shelf, file, &mut out, &around);
    Told {
        status: left.status,
        stories: stories(rt, alloc, left.sessions.as_slice()),
        journal: put_in(rt, alloc, &left.journal),
        written: copied(rt, alloc, out.bytes()),
    }
}

/// What a run has to leave.
#[derive(Clone, Copy, Drop)]
pub(crate) struct Wanted<'a> {
    pub(crate) status: Status,
    pub(crate) stories: &'a str,
    pub(crate) journal: &'a str,
    pub(crate) written: &'a str,
}

/// Compares what a run leaves with what it has to leave.
pub(crate) fn assert_told(rt: &impl Abort, told: &Told, wanted: &Wanted<'_>) {
    assert_eq!(rt; told.stories.as_slice(), wanted.stories.as_bytes());
    assert_eq!(rt; told.journal.as_slice(), wanted.journal.as_bytes());
    assert_eq!(rt; told.written.as_slice(), wanted.written.as_bytes());
    assert_eq!(rt; told.status, wanted.status);
}
