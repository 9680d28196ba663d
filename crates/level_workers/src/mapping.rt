//! The map of a level's items.

ghost use Rattle.std.specs.Prelude.{◌≡◌, ◌+◌, ◌<◌, ◌≤◌, ◌^◌, nat_lt, if◌then◌else◌, Ok, IfOk};
ghost use Rattle.std.specs.Fn.{FnReturnsAt};
ghost use denote.Param.Send.{IsSync, IsSend};
ghost use Rattle.level_workers.specs.Mapped.{IsMap};
ghost use Rattle.level_workers.specs.Parts.{AreRuns};

use crate::pieces::{Cut, Pieces};
use crate::runs::{Run, in_order, joined, map_piece, with_block};
use sta_outside::{Gate, Point};
use sta_units::Memory;
use std::alloc::Global;
use std::sync::atomic::{AtomicU64, Ordering};
use std::thread::{Threads, join};
use timing_defs::Items;

/// The runs with the results of those blocks of a piece that nobody has begun. The proof takes what the
/// counter gives for any number.
fn map_blocks<I, R: Drop, F: Fn(&I) -> Result<R, Memory>>(
    alloc: Global,
    runs: Vec<Run<R>>,
    items: &[I],
    cut: Cut,
    piece: usize,
    next: &AtomicU64,
    f: &F,
) -> Result<Vec<Run<R>>, Memory>
    requires callable { F.IsAlwaysCallable f.now }
    requires runs { AreRuns (λ x r. FnReturnsAt F.Fn f.now x (Ok r)) items.now runs.items }
    ensures { IfOk result (λ all. AreRuns (λ x r. FnReturnsAt F.Fn f.now x (Ok r)) items.now all.items) }
{
    let len = items.len();
    let end = cut.start(len, piece, cut.each());
    let mut all = runs;
    for _turn in 0..cut.each() {
        let block = next.fetch_add(1, Ordering::Relaxed) as usize;
        if block >= cut.each() {
            break;
        }
        let from = cut.start(len, piece, block);
        let to = cut.start(len, piece, block + 1).max(from);
        let room = if from == 0 {
            len
        } else {
            end.saturating_sub(from)
        };
        all = with_block(alloc, all, items, from, to, room, f)?;
    }
    Ok(all)
}

/// The results of the blocks that nobody has begun: those of one piece, and then those of the others.
fn map_all<I, R: Drop, F: Fn(&I) -> Result<R, Memory>>(
    alloc: Global,
    items: &[I],
    cut: Cut,
    piece: usize,
    next: &[AtomicU64],
    f: &F,
) -> Result<Vec<Run<R>>, Memory>
    requires callable { F.IsAlwaysCallable f.now }
    ensures { IfOk result (λ all. AreRuns (λ x r. FnReturnsAt F.Fn f.now x (Ok r)) items.now all.items) }
{
    let mut all = Vec::new(alloc);
    for k in 0..next.len() {
        let at = piece.wrapping_add(k) % next.len();
        all = map_blocks(alloc, all, items, cut, at, &next[at], f)?;
    }
    Ok(all)
}

/// The results of all blocks, by a thread for each piece. The last piece goes to a new thread, and the
/// caller's takes the first. A run from the first item on has room for all of them, so that each other
/// result is moved once.
#[cycle(pieces)]
fn map_pieces<
    H: Threads + Sync,
    I: Sync,
    R: Send + Drop,
    F: Fn(&I) -> Result<R, Memory> + Sync,
    G: Gate,
>(
    rt: &H,
    alloc: Global,
    pieces: Pieces,
    items: &[I],
    cut: Cut,
    next: &[AtomicU64],
    f: &F,
    gate: &G,
) -> Result<Vec<Run<R>>, Memory>
    requires numbers { pieces.first + pieces.count < 2 ^ 32 }
    requires callable { F.IsAlwaysCallable f.now }
    ensures { IfOk result (λ all. AreRuns (λ x r. FnReturnsAt F.Fn f.now x (Ok r)) items.now all.items) }
{
    if pieces.count < 2 {
        gate.at(Point::Piece {
            level: pieces.level,
            piece: pieces.first,
        });
        return map_all(alloc, items, cut, pieces.first as usize, next, f);
    }
    let (others, last) = pieces.but_last();
    let theirs = move || -> Result<Vec<Run<R>>, Memory>
        requires { IsSync H.row × IsSync I.row × IsSend R.row × IsSync F.row × IsSync G.row × (last.first + last.count < 2 ^ 32) × F.IsAlwaysCallable f.now }
        ensures { IfOk result (λ all. AreRuns (λ x r. FnReturnsAt F.Fn f.entry.now x (Ok r)) items.entry.now all.items) }
    { map_pieces(rt, alloc, last, items, cut, next, f, gate) };
    let ours = move || -> Result<Vec<Run<R>>, Memory>
        requires { IsSync H.row × IsSync I.row × IsSend R.row × IsSync F.row × IsSync G.row × (others.first + others.count < 2 ^ 32) × F.IsAlwaysCallable f.now }
        ensures { IfOk result (λ all. AreRuns (λ x r. FnReturnsAt F.Fn f.entry.now x (Ok r)) items.entry.now all.items) }
    { map_pieces(rt, alloc, others, items, cut, next, f, gate) };
    let (more, found) = join(rt, theirs, ours);
    let found = found?;
    let more = more?;
    joined(found, more)
}

/// A counter for each piece, at 0.
fn counters(alloc: Global, pieces: u32) -> Result<Vec<AtomicU64>, Memory> {
    let mut all = Vec::with_capacity(alloc, pieces as usize)?;
    for _ in 0..pieces {
        if all.push(AtomicU64::new(0)).is_err() {
            return Err(Memory);
        }
    }
    Ok(all)
}

/// The results of `f` for the items of a level, in their order, or want of memory: the list of the
/// plain map, whatever the number of workers. The items are cut, in order, into as many pieces as the
/// lesser of their number and that of the workers; pieces are numbered from 0, and the gate is called
/// once as each begins. Pieces run in threads of their own, one of them in the caller's. Each piece is
/// cut into blocks, and a thread that finds no more of its own takes those of the others' pieces that
/// nobody has begun.
pub fn map_level<
    H: Threads + Sync,
    I: Sync,
    R: Send + Drop,
    F: Fn(&I) -> Result<R, Memory> + Sync,
    G: Gate,
>(
    rt: &H,
    alloc: Global,
    workers: u32,
    level: u32,
    items: &[I],
    f: &F,
    gate: &G,
) -> Result<Items<R>, Memory>
    requires some { 1 ≤ workers }
    requires most { workers ≤ 32 }
    requires callable { F.IsAlwaysCallable f.now }
    ensures { IfOk result (IsMap (λ x r. FnReturnsAt F.Fn f.now x (Ok r)) items.now) }
{
    if items.is_empty() {
        return Ok(Items::new(alloc));
    }
    let count = items.len().min(workers as usize) as u32;
    if count < 2 {
        gate.at(Point::Piece { level, piece: 0 });
        return map_piece(alloc, items, items.len(), f);
    }
    let pieces = Pieces {
        level,
        first: 0,
        count,
    };
    let cut = Cut::of(items.len(), count);
    let next = counters(alloc, count)?;
    let runs = map_pieces(rt, alloc, pieces, items, cut, next.as_slice(), f, gate)?;
    in_order(alloc, items, runs, f)
}

/// How many threads the items of a level are worth: the caller's alone where there are fewer than 64, since
/// a thread then costs more than it saves, and else all.
pub fn worth_threads(items: usize, workers: u32) -> u32
    ensures some { 1 ≤ workers → 1 ≤ result }
    ensures most { 1 ≤ workers → result ≤ workers }
    ensures exact { result ≡ (if nat_lt items 64 then 1 else workers) }
{
    if items < 64 { 1 } else { workers }
}
