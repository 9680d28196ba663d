//! How a session answers a command: at the newest version on the board, which it holds then, and a
//! question at the version that it holds.

ghost use Rattle.std.specs.Prelude.{◌≡◌, ◌≤◌, ◌||◌, [], ◌∷◌, true, Ok, IfOk, OnErr};
ghost use Rattle.std.specs.Arc.{arc_value};
ghost use Rattle.std.specs.Option.{option_map};
ghost use Rattle.timing_defs.specs.declared.edits.Eco.{Eco};
ghost use Rattle.timing_defs.specs.Documents.{is_eco};
ghost use Rattle.timing_defs.specs.Documents.{is_plain};
ghost use Rattle.timing_rules.specs.Sessions.{entry_by, query_of};
ghost use Rattle.version_board.specs.Callers.{IsSeatOf, IsSame};
ghost use Rattle.session_engine.specs.Versions.{IsNext};
ghost use Rattle.session_engine.specs.Looking.{meant, Holds, Saw, Looked, Offers, Waits, Tells, Changes, Answers};
ghost use Rattle.session_engine.specs.Running.{is_further, is_runnable};
ghost use Rattle.session_engine.specs.Trying.{Tried};

use crate::further::Further;
use crate::looking::{newer, newest, publish};
use crate::preparing::prepare;
use crate::snapshots::Snapshot;
use crate::versions::Version;
use sta_outside::{Gate, Point};
use sta_units::{Again, Memory, Steps};
use std::alloc::Global;
use std::sync::{Arc, Wait};
use std::thread::Threads;
use timing_defs::{Answer, Command, Eco, Fault, Items, Query, QueryFault};
use version_board::{Board, Seat};

/// The count of nodes that are evaluated for an ECO.
struct Evaluated;

/// What comes of one attempt to publish an ECO: the version that the session holds then and the answer,
/// or the newest version where the base is none.
#[derive(Drop)]
pub(crate) enum Attempt {
    Done(Arc<Version>, Answer),
    Moved(Arc<Version>),
}

/// One look at the newest version in place of the one that is held.
fn look<R: Wait, G: Gate>(
    rt: &R,
    who: u32,
    board: &Board<Version>,
    seat: &mut Seat<Version>,
    held: Arc<Version>,
    gate: &G,
) -> Result<Arc<Version>, Memory>
    requires seat { IsSeatOf meant board.now seat.old }
    requires held { Holds seat.old.view (arc_value held) }
    ensures same { IsSame seat.old seat.new }
    ensures saw { IfOk result (λ v. Saw seat.old.view ((arc_value v).number ∷ []) seat.new.view) }
    ensures holds { IfOk result (λ v. Holds seat.new.view (arc_value v)) }
    ensures rises { IfOk result (λ v. (arc_value held).number ≤ (arc_value v).number) }
    ensures looked { OnErr result (Looked seat.old.view seat.new.view) }
{
    let found = newer(rt, board, seat, &held);
    Version::discard(held);
    let newest = found?;
    gate.at(Point::Looked {
        session: who,
        number: newest.number(),
    });
    Ok(newest)
}

/// Waits for a number, with so many looks at most.
#[tactic(auto, using(crate::proofs::Sights::looked_then, crate::proofs::Sights::looked_both))]
fn wait<R: Wait, G: Gate>(
    rt: &R,
    alloc: Global,
    who: u32,
    board: &Board<Version>,
    seat: &mut Seat<Version>,
    held: Arc<Version>,
    number: u64,
    looks: u32,
    gate: &G,
) -> Result<(Arc<Version>, Answer), Memory>
    requires seat { IsSeatOf meant board.now seat.old }
    requires held { Holds seat.old.view (arc_value held) }
    ensures same { IsSame seat.old seat.new }
    ensures waits { IfOk result
        (λ got. Waits seat.old.view (arc_value held) number looks seat.new.view (arc_value got.0)
        got.1) }
    ensures holds { IfOk result (λ got. Holds seat.new.view (arc_value got.0)) }
    ensures looked { OnErr result (Looked seat.old.view seat.new.view) }
{
    let mut seen = Items::new(alloc);
    let mut newest = held;
    for at in 0..looks {
        let _ = at;
        newest = look(rt, who, board, seat, newest, gate)?;
        let found = newest.number();
        if number <= found {
            return Ok((newest, Answer::Reached));
        }
        if let Err(Memory) = seen.push(found) {
            Version::discard(newest);
            return Err(Memory);
        }
    }
    Ok((newest, Answer::NotYet(seen)))
}

/// What a snapshot answers a question.
fn told<H: Threads + Sync, X: Further>(
    rt: &H,
    alloc: Global,
    snapshot: &Snapshot,
    query: &Query,
    further: &X,
) -> Result<Answer, Memory>
    requires { is_plain query.now || is_further query.now ≡ true }
    ensures { IfOk result (Tells snapshot.now.stored.design query.now) }
{
    match snapshot.answer(rt, alloc, query, further) {
        Ok(report) => Ok(Answer::Told(report)),
        Err(QueryFault::Memory) => Err(Memory),
        Err(fault) => Ok(Answer::No(fault)),
    }
}

/// The answer of a version to a question.
fn ask<H: Threads + Sync, X: Further>(
    rt: &H,
    alloc: Global,
    held: &Arc<Version>,
    query: &Query,
    further: &X,
) -> Result<Answer, Memory>
    requires { is_plain query.now || is_further query.now ≡ true }
    ensures { IfOk result (Tells (arc_value held.now).stored.design query.now) }
{
    let snapshot = Snapshot::of(held.clone()?);
    let answer = told(rt, alloc, &snapshot, query, further);
    snapshot.discard();
    answer
}

/// Offers one more owner of the next version of a base to the board.
#[tactic(auto, using(crate::proofs::Sights::looked_none))]
fn offered<R: Wait>(
    rt: &R,
    who: u32,
    board: &Board<Version>,
    seat: &mut Seat<Version>,
    base: &Version,
    next: &Arc<Version>,
) -> Result<Option<Arc<Version>>, Memory>
    requires seat { IsSeatOf meant board.now seat.old }
    requires number { seat.old.view.number ≡ who }
    requires base { Holds seat.old.view base.now }
    requires next { (eco : Eco) × IsNext base.now who eco (arc_value next.now) }
    ensures same { IsSame seat.old seat.new }
    ensures offers { IfOk result
        (λ newest. (eco : Eco) → IsNext base.now who eco (arc_value next.now)
        → Offers seat.old.view (entry_by who eco) seat.new.view (arc_value next.now)
        (option_map arc_value newest)) }
    ensures looked { OnErr result (Looked seat.old.view seat.new.view) }
{
    publish(rt, board, seat, base, who, next.clone()?)
}

/// Publishes the next version of a base, or gives the newest one where the base is none.
fn offer<R: Wait, G: Gate>(
    rt: &R,
    who: u32,
    board: &Board<Version>,
    seat: &mut Seat<Version>,
    base: Arc<Version>,
    next: Arc<Version>,
    gate: &G,
) -> Result<Attempt, Memory>
    requires seat { IsSeatOf meant board.now seat.old }
    requires number { seat.old.view.number ≡ who }
    requires base { Holds seat.old.view (arc_value base) }
    requires next { (eco : Eco) × IsNext (arc_value base) who eco (arc_value next) }
    ensures same { IsSame seat.old seat.new }
    ensures tried { IfOk result
        (λ tried. (eco : Eco) → IsNext (arc_value base) who eco (arc_value next)
        → Tried who seat.old.view (arc_value base) eco seat.new.view tried) }
    ensures looked { OnErr result (Looked seat.old.view seat.new.view) }
{
    let offered = offered(rt, who, board, seat, &base, &next);
    Version::discard(base);
    match offered {
        Ok(None) => {
            gate.at(Point::Published {
                session: who,
                number: next.number(),
            });
            Ok(Attempt::Done(next, Answer::Accepted))
        }
        Ok(Some(newest)) => {
            Version::discard(next);
            gate.at(Point::Looked {
                session: who,
                number: newest.number(),
            });
            Ok(Attempt::Moved(newest))
        }
        Err(Memory) => {
            Version::discard(next);
            Err(Memory)
        }
    }
}

/// Prepares the version after an ECO over a base, and offers it to the board; or refuses the ECO.
#[tactic(auto, using(crate::proofs::Sights::looked_none))]
fn try_once<H: Threads + Wait + Sync, G: Gate>(
    rt: &H,
    alloc: Global,
    who: u32,
    board: &Board<Version>,
    seat: &mut Seat<Version>,
    base: Arc<Version>,
    eco: &Eco,
    workers: u32,
    gate: &G,
) -> Result<Attempt, Memory>
    requires seat { IsSeatOf meant board.now seat.old }
    requires number { seat.old.view.number ≡ who }
    requires base { Holds seat.old.view (arc_value base) }
    requires eco { is_eco eco.now ≡ true }
    requires some { 1 ≤ workers }
    requires most { workers ≤ 32 }
    ensures same { IsSame seat.old seat.new }
    ensures tried { IfOk result (Tried who seat.old.view (arc_value base) eco.now seat.new.view) }
    ensures looked { OnErr result (Looked seat.old.view seat.new.view) }
{
    let mut steps: Steps<Evaluated> = Steps::none();
    match prepare(rt, alloc, &base, who, eco, workers, gate, &mut steps) {
        Ok(next) => {
            gate.at(Point::Prepared {
                session: who,
                number: next.number(),
            });
            offer(rt, who, board, seat, base, next, gate)
        }
        Err(Fault::Memory) => {
            Version::discard(base);
            Err(Memory)
        }
        Err(fault) => Ok(Attempt::Done(base, Answer::Refused(fault))),
    }
}

/// Publishes an ECO over the newest version, or refuses it there: where another session published
/// since, over the then newest again.
#[tactic(auto, using(crate::proofs::Sights::saw_one, crate::proofs::Sights::tried_changes, crate::proofs::Sights::tried_holds, crate::proofs::Sights::last_looked))]
fn change<H: Threads + Wait + Sync, G: Gate>(
    rt: &H,
    alloc: Global,
    who: u32,
    board: &Board<Version>,
    seat: &mut Seat<Version>,
    held: Arc<Version>,
    eco: &Eco,
    workers: u32,
    gate: &G,
) -> Result<(Arc<Version>, Answer), Memory>
    requires seat { IsSeatOf meant board.now seat.old }
    requires number { seat.old.view.number ≡ who }
    requires held { Holds seat.old.view (arc_value held) }
    requires eco { is_eco eco.now ≡ true }
    requires some { 1 ≤ workers }
    requires most { workers ≤ 32 }
    ensures same { IsSame seat.old seat.new }
    ensures changes { IfOk result
        (λ got. Changes who seat.old.view eco.now seat.new.view (arc_value got.0) got.1) }
    ensures holds { IfOk result (λ got. Holds seat.new.view (arc_value got.0)) }
    ensures looked { OnErr result (Looked seat.old.view seat.new.view) }
{
    let mut base = look(rt, who, board, seat, held, gate)?;
    for _ in rt.forever() {
        match try_once(rt, alloc, who, board, seat, base, eco, workers, gate)? {
            Attempt::Done(held, answer) => return Ok((held, answer)),
            Attempt::Moved(newest) => base = newest,
        }
    }
    unreachable!()
}

/// Takes the newest version.
pub(crate) fn taken<R: Wait, G: Gate>(
    rt: &R,
    who: u32,
    board: &Board<Version>,
    seat: &mut Seat<Version>,
    gate: &G,
) -> Result<Arc<Version>, Memory>
    requires { IsSeatOf meant board.now seat.old }
    ensures same { IsSame seat.old seat.new }
    ensures saw { IfOk result (λ v. Saw seat.old.view ((arc_value v).number ∷ []) seat.new.view) }
    ensures holds { IfOk result (λ v. Holds seat.new.view (arc_value v)) }
    ensures looked { OnErr result (Looked seat.old.view seat.new.view) }
{
    let newest = newest(rt, board, seat)?;
    gate.at(Point::Taken {
        session: who,
        number: newest.number(),
    });
    Ok(newest)
}

/// The version that is held with an answer that leaves it.
fn held_with(
    held: Arc<Version>,
    answer: Result<Answer, Memory>,
) -> Result<(Arc<Version>, Answer), Memory>
    ensures { IfOk result (λ got. (arc_value got.0 ≡ arc_value held) × (answer ≡ Ok got.1)) }
{
    match answer {
        Ok(answer) => Ok((held, answer)),
        Err(Memory) => {
            Version::discard(held);
            Err(Memory)
        }
    }
}

/// The answer to a command, and the version that the session holds then.
#[tactic(auto, using(crate::proofs::Sights::saw_one, crate::proofs::Sights::looked_none))]
pub(crate) fn answer<H: Threads + Wait + Sync, G: Gate, X: Further>(
    rt: &H,
    alloc: Global,
    who: u32,
    board: &Board<Version>,
    seat: &mut Seat<Version>,
    held: Arc<Version>,
    command: &Command,
    workers: u32,
    gate: &G,
    further: &X,
) -> Result<(Arc<Version>, Answer), Memory>
    requires seat { IsSeatOf meant board.now seat.old }
    requires number { seat.old.view.number ≡ who }
    requires held { Holds seat.old.view (arc_value held) }
    requires command { is_runnable command.now ≡ true }
    requires some { 1 ≤ workers }
    requires most { workers ≤ 32 }
    ensures same { IsSame seat.old seat.new }
    ensures answers { IfOk result
        (λ got. Answers who seat.old.view (arc_value held) command.now seat.new.view
        (arc_value got.0) got.1) }
    ensures holds { IfOk result (λ got. Holds seat.new.view (arc_value got.0)) }
    ensures looked { OnErr result (Looked seat.old.view seat.new.view) }
{
    match command {
        Command::Take => {
            let newest = taken(rt, who, board, seat, gate);
            Version::discard(held);
            Ok((newest?, Answer::Taken))
        }
        Command::Await { number, looks } => {
            wait(rt, alloc, who, board, seat, held, *number, *looks, gate)
        }
        Command::Ask(query) => {
            let answer = ask(rt, alloc, &held, query, further);
            held_with(held, answer)
        }
        Command::Change(eco) => change(rt, alloc, who, board, seat, held, eco, workers, gate),
    }
}

/// The question of a command that asks.
pub(crate) fn query_of(alloc: Global, command: &Command) -> Result<Option<Query>, Memory>
    ensures { IfOk result (λ query. query ≡ query_of command.now) }
{
    match command {
        Command::Ask(query) => {
            let query = query.again(alloc)?;
            Ok(Some(query))
        }
        Command::Take | Command::Await { .. } | Command::Change(_) => Ok(None),
    }
}
