//! The run of a script: one session of several at a board of versions.

ghost use Rattle.std.specs.Prelude.{ℕ, ◌≡◌, ◌+◌, ◌<◌, ◌≤◌, [], ◌∷◌, ◌++◌, List, true, Some, length, vec_len, vec_capacity, IfOk, OnErr};
ghost use Rattle.std.specs.Arc.{arc_value};
ghost use Rattle.std.specs.List.{list_all};
ghost use Rattle.timing_defs.specs.declared.design.Design.{Design};
ghost use Rattle.timing_defs.specs.declared.scripts.Command.{Command};
ghost use Rattle.version_board.specs.Callers.{IsSeatOf, IsSame};
ghost use Rattle.session_engine.specs.Looking.{Sight, meant, Holds, Looked};
ghost use Rattle.session_engine.specs.Running.{is_runnable, IsRunnable, IsRun, RunsOn, Ran, Stopped};

use crate::commands::{answer, query_of, taken};
use crate::further::Further;
use crate::versions::Version;
use sta_outside::{Gate, Point};
use sta_units::Memory;
use std::alloc::Global;
use std::sync::{Arc, Wait};
use std::thread::Threads;
use timing_defs::{Command, Items, Query, Row, Script, Transcript};
use version_board::{Board, Seat};

fn discard_query(_query: Option<Query>) {}

fn discard_rows(_rows: Vec<Row>) {}

/// What a session has after a command: the version that it holds, and the command's row.
#[derive(Drop)]
pub struct Answered {
    pub held: Arc<Version>,
    pub row: Row,
}

/// Takes the newest version, as each session does before its first command.
///
/// # Errors
///
/// Want of memory alone.
pub fn begin_session<R: Wait, G: Gate>(
    rt: &R,
    who: u32,
    board: &Board<Version>,
    seat: &mut Seat<Version>,
    gate: &G,
) -> Result<Arc<Version>, Memory>
    requires seat { IsSeatOf meant board.now seat.old }
    ensures same { IsSame seat.old seat.new }
    ensures holds { IfOk result (λ held. Holds seat.new.view (arc_value held)) }
    ensures run { IfOk result
        (λ held. IsRun board.now.opening.origin board.now.opening.first who seat.old.view []
        seat.new.view (arc_value held) []) }
    ensures looked { OnErr result (Looked seat.old.view seat.new.view) }
{
    let held = taken(rt, who, board, seat, gate)?;
    held.laws();
    Ok(held)
}

/// Answers a command with its row, and gives the version that the session holds then. `take` and an ECO look at the newest
/// version on the board, `await` with at most its looks; a question is answered at the version that the session holds, one that
/// is not plain by `further`. An accepted ECO is published. The row's number is that of the version that the session then holds.
///
/// # Errors
///
/// Want of memory alone: the session may have looked at the board then, and has published nothing.
#[tactic(auto, using(crate::proofs::Sights::looked_none))]
pub fn answer_command<H: Threads + Wait + Sync, G: Gate, X: Further>(
    rt: &H,
    alloc: Global,
    who: u32,
    board: &Board<Version>,
    seat: &mut Seat<Version>,
    held: Arc<Version>,
    place: u32,
    command: &Command,
    workers: u32,
    gate: &G,
    further: &X,
) -> Result<Answered, Memory>
    requires seat { IsSeatOf meant board.now seat.old }
    requires number { seat.old.view.number ≡ who }
    requires held { Holds seat.old.view (arc_value held) }
    requires command { is_runnable command.now ≡ true }
    requires some { 1 ≤ workers }
    requires most { workers ≤ 32 }
    ensures same { IsSame seat.old seat.new }
    ensures holds { IfOk result (λ made. Holds seat.new.view (arc_value made.held)) }
    ensures run { IfOk result
        (λ made. RunsOn who seat.old.view (arc_value held) place command.now seat.new.view
        (arc_value made.held) made.row) }
    ensures looked { OnErr result (Looked seat.old.view seat.new.view) }
{
    held.laws();
    match query_of(alloc, command) {
        Ok(query) => match answer(
            rt, alloc, who, board, seat, held, command, workers, gate, further,
        ) {
            Ok((held, answer)) => {
                held.laws();
                let number = held.number();
                let row = Row {
                    command: place,
                    query,
                    number,
                    answer,
                };
                Ok(Answered { held, row })
            }
            Err(Memory) => {
                discard_query(query);
                Err(Memory)
            }
        },
        Err(Memory) => {
            Version::discard(held);
            Err(Memory)
        }
    }
}

/// Answers the command at a place: its row stands behind the others, and the session holds the version.
fn step<H: Threads + Wait + Sync, G: Gate, X: Further>(
    rt: &H,
    alloc: Global,
    who: u32,
    board: &Board<Version>,
    seat: &mut Seat<Version>,
    held: Arc<Version>,
    rows: &mut Vec<Row>,
    place: u32,
    command: &Command,
    workers: u32,
    gate: &G,
    further: &X,
) -> Result<Arc<Version>, Memory>
    requires seat { IsSeatOf meant board.now seat.old }
    requires number { seat.old.view.number ≡ who }
    requires held { Holds seat.old.view (arc_value held) }
    requires command { is_runnable command.now ≡ true }
    requires room { vec_len rows.old < vec_capacity rows.old }
    requires some { 1 ≤ workers }
    requires most { workers ≤ 32 }
    ensures same { IsSame seat.old seat.new }
    ensures holds { IfOk result (λ next. Holds seat.new.view (arc_value next)) }
    ensures long { IfOk result (λ next. vec_len rows.new ≡ vec_len rows.old + 1) }
    ensures room { IfOk result (λ next. vec_capacity rows.new ≡ vec_capacity rows.old) }
    ensures run { IfOk result
        (λ next. (origin : Design) (first : ℕ) (v : Sight) (commands : List Command)
        → seat.old.view.first ≡ first → seat.old.view.origin ≡ Some origin → place
        ≡ length commands + 1
        → IsRun origin first who v commands seat.old.view (arc_value held) rows.old.items
        → IsRun origin first who v (commands ++ command.now ∷ []) seat.new.view (arc_value next)
        rows.new.items) }
    ensures looked { OnErr result (Looked seat.old.view seat.new.view) }
{
    match answer_command(
        rt, alloc, who, board, seat, held, place, command, workers, gate, further,
    ) {
        Ok(answered) => {
            let Answered { held, row } = answered;
            rows.push_reserved(row);
            gate.at(Point::Answered {
                session: who,
                command: place,
            });
            Ok(held)
        }
        Err(Memory) => Err(Memory),
    }
}

/// Answers the commands of a script in order, over a first taking.
#[tactic(auto, using(crate::proofs::Rows::stopped_first))]
fn steps<H: Threads + Wait + Sync, G: Gate, X: Further>(
    rt: &H,
    alloc: Global,
    who: u32,
    board: &Board<Version>,
    seat: &mut Seat<Version>,
    rows: &mut Vec<Row>,
    commands: &[Command],
    workers: u32,
    gate: &G,
    further: &X,
) -> Result<Arc<Version>, Memory>
    requires seat { IsSeatOf meant board.now seat.old }
    requires number { seat.old.view.number ≡ who }
    requires commands { list_all is_runnable commands.now ≡ true }
    requires few { length commands.now ≤ 10000 }
    requires empty { rows.old.items ≡ [] }
    requires room { length commands.now ≤ vec_capacity rows.old }
    requires some { 1 ≤ workers }
    requires most { workers ≤ 32 }
    ensures same { IsSame seat.old seat.new }
    ensures run { IfOk result
        (λ held. IsRun board.now.opening.origin board.now.opening.first who seat.old.view
        commands.now seat.new.view (arc_value held) rows.new.items) }
    ensures stopped { OnErr result
        (Stopped board.now.opening.origin board.now.opening.first who commands.now seat.old.view
        seat.new.view) }
{
    let mut held = begin_session(rt, who, board, seat, gate)?;
    let mut place = 1u32;
    for command in commands {
        held = step(
            rt, alloc, who, board, seat, held, rows, place, command, workers, gate, further,
        )?;
        place += 1;
    }
    Ok(held)
}

/// Runs the script of one session at its seat: takes the newest version, and answers each command with a
/// row. `take` and an ECO look at the newest version on the board, `await` with at most its looks; a
/// question is answered at the version that the session holds, one that is not plain by `further`: the
/// worst path through 1 to 16 pins, 1 to 100 worst paths, 1 to 100 trials on a draft, 1 to 100 candidates
/// of a resize. An accepted ECO is published over the newest version: where another session published
/// since it was prepared, it is prepared over that one's again. Room for the rows is there before the
/// first look. The gate is called where no turn is held: after each look, before and after a publication,
/// after each row.
///
/// # Errors
///
/// Want of memory alone. What the session published until then stays: it is what the first commands of the
/// script publish, up to the one in which memory was wanting.
#[tactic(auto, using(crate::proofs::Rows::stopped_first, crate::proofs::Sights::looked_none))]
pub fn run_script<H: Threads + Wait + Sync, G: Gate, X: Further>(
    rt: &H,
    alloc: Global,
    who: u32,
    board: &Board<Version>,
    seat: &mut Seat<Version>,
    script: &Script,
    workers: u32,
    gate: &G,
    further: &X,
) -> Result<Transcript, Memory>
    requires seat { IsSeatOf meant board.now seat.old × (seat.old.view.number ≡ who) }
    requires script { IsRunnable script.now }
    requires some { 1 ≤ workers }
    requires most { workers ≤ 32 }
    ensures same { IsSame seat.old seat.new }
    ensures ran { IfOk result
        (Ran board.now.opening.origin board.now.opening.first who script.now seat.old.view
        seat.new.view) }
    ensures stopped { OnErr result
        (Stopped board.now.opening.origin board.now.opening.first who script.now.commands
        seat.old.view seat.new.view) }
{
    let commands = script.commands.as_slice();
    match Vec::with_capacity(alloc, commands.len()) {
        Ok(mut rows) => match steps(
            rt, alloc, who, board, seat, &mut rows, commands, workers, gate, further,
        ) {
            Ok(held) => {
                Version::discard(held);
                Ok(Transcript {
                    rows: Items::from_vec(rows),
                })
            }
            Err(Memory) => {
                discard_rows(rows);
                Err(Memory)
            }
        },
        Err(_) => Err(Memory),
    }
}
