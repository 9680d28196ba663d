//! Separations of clock edges, and separations that multicycles move.
//!
//!     clocks separation slow rise fast fall setup    the separation of two edges in fs
//!     clocks moved 5000000 setup 2 0 slow fast       one after 2 cycles of set-up, 0 of hold
//!
//! The clock `slow` has a period of 10 ns, and `fast` one of 4 ns. Both rise at 0 and fall after
//! half a period.

ghost use Rattle.std.specs.Prelude.{◌<ℤ◌, ◌≤ℤ◌, ◌≤◌, pos, IfOk};
ghost use Rattle.sta_units.specs.Numbers.{Within};
ghost use Rattle.path_rules.specs.Clocks.{IsClock};

use crate::answers::Answer;
use crate::words::{Stop, name, number, parted, place};
use path_rules::{Rule, moved, separation};
use sta_units::{Fs, LIM, Pair, both};
use std::alloc::Global;
use timing_defs::{Clock, Kind, Tran};

/// The clock of a name and a period, without uncertainty; it rises at 0.
pub(crate) fn clock(alloc: Global, text: &str, period: i64, fall: i64) -> Result<Clock, Stop>
    requires period { pos 2 ≤ℤ period }
    requires fall { pos 0 <ℤ fall }
    requires within { fall <ℤ period }
    requires period_limit { Within period }
    ensures { IfOk result IsClock }
{
    Ok(Clock {
        name: name(alloc, text)?,
        port: None,
        period: Fs(period),
        rise: Fs(0),
        fall: Fs(fall),
        unc_setup: Fs(0),
        unc_hold: Fs(0),
    })
}

/// The clock of a word.
fn named_clock(alloc: Global, word: &str) -> Result<Clock, Stop>
    ensures { IfOk result IsClock }
{
    match word {
        "slow" => clock(alloc, "slow", 10_000_000, 5_000_000),
        "fast" => clock(alloc, "fast", 4_000_000, 2_000_000),
        _ => Err(Stop::Row),
    }
}

fn edge(word: &str) -> Result<Tran, Stop> {
    match word {
        "rise" => Ok(Tran::Rise),
        "fall" => Ok(Tran::Fall),
        _ => Err(Stop::Row),
    }
}

fn kind(word: &str) -> Result<Kind, Stop> {
    match word {
        "setup" => Ok(Kind::Setup),
        "hold" => Ok(Kind::Hold),
        _ => Err(Stop::Row),
    }
}

/// Two clocks of which a path leaves the one and comes to the other.
#[derive(Drop)]
struct Crossing {
    launch: Clock,
    capture: Clock,
    ghost launched: { IsClock launch },
    ghost captured: { IsClock capture },
}

fn crossing_of(alloc: Global, launch: &str, capture: &str) -> Result<Crossing, Stop> {
    match both(named_clock(alloc, launch), named_clock(alloc, capture)) {
        Ok(Pair { one, other }) => Ok(Crossing {
            launch: one,
            capture: other,
        }),
        Err(stop) => Err(stop),
    }
}

fn separation_row(alloc: Global, answer: &mut Answer, words: &[&str]) -> Result<(), Stop> {
    let [launch, from, capture, to, tested] = words else {
        return Err(Stop::Row);
    };
    let from = edge(from)?;
    let to = edge(to)?;
    let tested = kind(tested)?;
    match crossing_of(alloc, launch, capture) {
        Ok(Crossing { launch, capture }) => {
            let apart = separation(&launch, from, &capture, to, tested).0;
            drop(launch);
            drop(capture);
            answer.value(apart)
        }
        Err(stop) => Err(stop),
    }
}

/// A rule that moves the separations of both kinds by cycles.
fn cycles(setup: &str, hold: &str) -> Result<Rule, Stop>
    ensures { IfOk result (λ rule. (rule.setup_cycles ≤ 1000) × (rule.hold_cycles ≤ 1000)) }
{
    let setup_cycles = place(setup)?;
    let hold_cycles = place(hold)?;
    if setup_cycles > 1000 || hold_cycles > 1000 {
        return Err(Stop::Row);
    }
    Ok(Rule {
        setup_tested: true,
        hold_tested: true,
        setup_cycles,
        hold_cycles,
    })
}

fn moved_row(alloc: Global, answer: &mut Answer, words: &[&str]) -> Result<(), Stop> {
    let [time, tested, setup, hold, launch, capture] = words else {
        return Err(Stop::Row);
    };
    let time = number(time)?;
    let tested = kind(tested)?;
    let rule = cycles(setup, hold)?;
    if time < -LIM || time > LIM {
        return Err(Stop::Row);
    }
    match crossing_of(alloc, launch, capture) {
        Ok(Crossing { launch, capture }) => {
            let time = moved(Fs(time), tested, rule, &launch, &capture).0;
            drop(launch);
            drop(capture);
            answer.value(time)
        }
        Err(stop) => Err(stop),
    }
}

pub(crate) fn answer(alloc: Global, answer: &mut Answer, row: &str) -> Result<(), Stop> {
    let words: Vec<&str> = row.split(' ').collect(alloc)?;
    match words.as_slice() {
        ["separation", rest @ ..] => separation_row(alloc, answer, rest),
        ["moved", rest @ ..] => moved_row(alloc, answer, rest),
        _ => Err(Stop::Row),
    }
}
