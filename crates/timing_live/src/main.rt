//! The live timing server: sessions that are answered line by line, over the design of the documents that its command line names.
#![tactic(auto)]

ghost use Rattle.std.specs.Prelude.{◌≡◌, true, is_some};
ghost use Rattle.live_words.specs.Asked.{IsInRange, asked_words};

use live_doors::{AppendSink, Door, Hall, LiveGate, NamedHall, NotOpened, StandardHall};
use live_server::{LiveLeft, Status, Surroundings, refuse_words, serve_live};
use live_words::{LiveWords, read_live_words};
use sta_outside::{FileShelf, StdSink};
use sta_units::Memory;
use std::env;
use std::fs::File;
use std::io::ErrorKind;
use std::process::ExitCode;
use std::sync::Wait;
use std::thread::Threads;

/// The status of a run that wants memory.
const WANTING: Status = 6;

/// The status of a run whose journal another server has.
const LOCKED: Status = 5;

/// The words after the program's name; none of them where one is not text.
fn arguments(rt: &HostRuntime) -> Result<Vec<String>, Memory> {
    let mut words = Vec::new(rt.alloc());
    match env::args(rt) {
        Err(error) if error.kind() == ErrorKind::OutOfMemory => return Err(Memory),
        Err(_) => {}
        Ok(all) => {
            for word in all.skip(1) {
                if words.push(word).is_err() {
                    return Err(Memory);
                }
            }
        }
    }
    Ok(words)
}

/// A hall with a seat for each pair of names.
fn named_hall<'a>(
    rt: &'a HostRuntime,
    asked: &LiveWords<'a>,
) -> Result<NamedHall<'a, HostRuntime>, Memory> {
    let mut hall = NamedHall::new(rt.alloc(), rt);
    for pair in &asked.pairs {
        hall.add_seat(pair.input, pair.output)?;
    }
    Ok(hall)
}

/// Holds a run whose sessions find their doors in a hall.
fn hold_in<H: Threads + Wait + Sync, D: Door + Send + Drop, N: Hall<D> + Sync>(
    threads: &H,
    rt: &HostRuntime,
    asked: &LiveWords<'_>,
    journal: Option<AppendSink<File>>,
    hall: &N,
) -> Status
    requires asked { IsInRange asked.now }
    requires named { is_some journal ≡ true → is_some (asked_words asked.now).journal ≡ true }
{
    let mut shelf = FileShelf::new(rt);
    let mut out = StdSink::new(rt);
    let gate = LiveGate::new(rt);
    let around = Surroundings { hall, gate: &gate };
    let left: LiveLeft<D, AppendSink<File>> = serve_live(
        threads,
        rt.alloc(),
        asked,
        &mut shelf,
        journal,
        &mut out,
        &around,
    );
    left.status
}

/// Holds a run over a journal's file, where it could be opened: on the standard input and output where the words name no pair.
fn hold<H: Threads + Wait + Sync>(
    threads: &H,
    rt: &HostRuntime,
    asked: &LiveWords<'_>,
    journal: Option<AppendSink<File>>,
) -> Status
    requires asked { IsInRange asked.now }
    requires named { is_some journal ≡ true → is_some (asked_words asked.now).journal ≡ true }
{
    if asked.pairs.is_empty() {
        hold_in(threads, rt, asked, journal, &StandardHall::new(*rt))
    } else {
        match named_hall(rt, asked) {
            Ok(hall) => hold_in(threads, rt, asked, journal, &hall),
            Err(Memory) => {
                drop(journal);
                WANTING
            }
        }
    }
}

/// Opens the journal's file, where the words name one, before its text is read: so no other server writes behind what is read.
fn run<H: Threads + Wait + Sync>(threads: &H, rt: &HostRuntime, asked: &LiveWords<'_>) -> Status
    requires { IsInRange asked.now }
{
    match asked.journal {
        None => hold(threads, rt, asked, None),
        Some(name) => match AppendSink::open(rt, name) {
            Ok(file) => hold(threads, rt, asked, Some(file)),
            Err(NotOpened::Locked) => LOCKED,
            Err(NotOpened::Missing | NotOpened::Unreachable) => hold(threads, rt, asked, None),
        },
    }
}

fn main(rt: HostRuntime) -> ExitCode {
    let status = match arguments(&rt) {
        Err(Memory) => WANTING,
        Ok(words) => match read_live_words(rt.alloc(), words.as_slice()) {
            Err(Memory) => WANTING,
            Ok(None) => refuse_words(rt.alloc(), &mut StdSink::new(&rt)),
            Ok(Some(asked)) => run(&rt, &rt, &asked),
        },
    };
    ExitCode::from(status)
}
