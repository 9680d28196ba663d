//! Runs of a level's items, with their results.

ghost use Rattle.std.specs.Prelude.{◌≡◌, ◌≤◌, ◌++◌, ◌∷◌, [], Ok, IfOk, length};
ghost use Rattle.std.specs.Fn.{FnReturnsAt};
ghost use Rattle.level_workers.specs.Mapped.{IsMap};
ghost use Rattle.level_workers.specs.Parts.{IsMapOnto, IsMapOf, AreRuns};

use sta_units::Memory;
use std::alloc::Global;
use timing_defs::Items;

/// The results of the items from one place to another.
#[derive(Drop)]
pub(crate) struct Run<R> {
    pub(crate) from: usize,
    pub(crate) to: usize,
    pub(crate) results: Items<R>,
}

/// The results of some items, one after another, added to those of others.
pub(crate) fn map_onto<I, R: Drop, F: Fn(&I) -> Result<R, Memory>>(
    before: Items<R>,
    items: &[I],
    f: &F,
) -> Result<Items<R>, Memory>
    requires { F.IsAlwaysCallable f.now }
    ensures { IfOk result (IsMapOnto (λ x r. FnReturnsAt F.Fn f.now x (Ok r)) before items.now) }
{
    let mut results = before;
    for item in items {
        let found = f(item)?;
        results.push(found)?;
    }
    Ok(results)
}

/// The results of some items, one after another, in a list with that much room.
pub(crate) fn map_piece<I, R: Drop, F: Fn(&I) -> Result<R, Memory>>(
    alloc: Global,
    items: &[I],
    room: usize,
    f: &F,
) -> Result<Items<R>, Memory>
    requires { F.IsAlwaysCallable f.now }
    ensures { IfOk result (IsMap (λ x r. FnReturnsAt F.Fn f.now x (Ok r)) items.now) }
{
    map_onto(Items::with_room(alloc, room)?, items, f)
}

/// The two lists end to end.
pub(crate) fn joined<T: Drop>(front: Vec<T>, back: Vec<T>) -> Result<Vec<T>, Memory>
    ensures { IfOk result (λ all. all.items ≡ front.items ++ back.items) }
{
    if front.is_empty() {
        return Ok(back);
    }
    let mut all = front;
    let mut rest = back;
    all.append(&mut rest)?;
    Ok(all)
}

/// The list with one element more.
fn pushed<T: Drop>(list: Vec<T>, item: T) -> Result<Vec<T>, Memory>
    ensures { IfOk result (λ all. all.items ≡ list.items ++ item ∷ []) }
{
    let mut all = list;
    match all.push(item) {
        Ok(()) => Ok(all),
        Err(_) => Err(Memory),
    }
}

/// The run of a few items more: those up to a place.
fn longer<I, R: Drop, F: Fn(&I) -> Result<R, Memory>>(
    run: Run<R>,
    items: &[I],
    to: usize,
    f: &F,
) -> Result<Run<R>, Memory>
    requires callable { F.IsAlwaysCallable f.now }
    requires run { IsMapOf (λ x r. FnReturnsAt F.Fn f.now x (Ok r)) items.now run.from run.to run.results }
    requires more { run.to ≤ to }
    requires within { to ≤ length items.now }
    ensures from { IfOk result (λ it. it.from ≡ run.from) }
    ensures to { IfOk result (λ it. it.to ≡ to) }
    ensures map { IfOk result (λ it. IsMapOf (λ x r. FnReturnsAt F.Fn f.now x (Ok r)) items.now it.from it.to it.results) }
{
    let Run {
        from,
        to: at,
        results,
    } = run;
    let results = map_onto(results, &items[at..to], f)?;
    Ok(Run { from, to, results })
}

/// A run of the items from one place to another, in a list with that much room.
fn fresh<I, R: Drop, F: Fn(&I) -> Result<R, Memory>>(
    alloc: Global,
    items: &[I],
    from: usize,
    to: usize,
    room: usize,
    f: &F,
) -> Result<Run<R>, Memory>
    requires callable { F.IsAlwaysCallable f.now }
    requires order { from ≤ to }
    requires within { to ≤ length items.now }
    ensures from { IfOk result (λ it. it.from ≡ from) }
    ensures to { IfOk result (λ it. it.to ≡ to) }
    ensures map { IfOk result (λ it. IsMapOf (λ x r. FnReturnsAt F.Fn f.now x (Ok r)) items.now it.from it.to it.results) }
{
    let results = map_piece(alloc, &items[from..to], room, f)?;
    Ok(Run { from, to, results })
}

/// The runs with the results of the items from one place to another added: in the last run where it ends
/// at the first place, or else in one of their own, with that much room.
pub(crate) fn with_block<I, R: Drop, F: Fn(&I) -> Result<R, Memory>>(
    alloc: Global,
    runs: Vec<Run<R>>,
    items: &[I],
    from: usize,
    to: usize,
    room: usize,
    f: &F,
) -> Result<Vec<Run<R>>, Memory>
    requires callable { F.IsAlwaysCallable f.now }
    requires runs { AreRuns (λ x r. FnReturnsAt F.Fn f.now x (Ok r)) items.now runs.items }
    requires order { from ≤ to }
    requires within { to ≤ length items.now }
    ensures { IfOk result (λ all. AreRuns (λ x r. FnReturnsAt F.Fn f.now x (Ok r)) items.now all.items) }
{
    let mut all = runs;
    let Some(last) = all.pop() else {
        return pushed(all, fresh(alloc, items, from, to, room, f)?);
    };
    if last.to == from {
        return pushed(all, longer(last, items, to, f)?);
    }
    pushed(pushed(all, last)?, fresh(alloc, items, from, to, room, f)?)
}

/// The results of all items, of which some stand in runs.
pub(crate) fn in_order<I, R: Drop, F: Fn(&I) -> Result<R, Memory>>(
    alloc: Global,
    items: &[I],
    runs: Vec<Run<R>>,
    f: &F,
) -> Result<Items<R>, Memory>
    requires callable { F.IsAlwaysCallable f.now }
    requires runs { AreRuns (λ x r. FnReturnsAt F.Fn f.now x (Ok r)) items.now runs.items }
    ensures { IfOk result (IsMap (λ x r. FnReturnsAt F.Fn f.now x (Ok r)) items.now) }
{
    let mut runs = runs;
    runs.sort_unstable_by_key(|run| run.from);
    let mut all = Vec::new(alloc);
    let mut at = 0;
    for run in runs {
        if run.from == at {
            at = run.to;
            all = joined(all, run.results.into_vec())?;
        }
    }
    map_onto(Items::from_vec(all), &items[at..], f)
}
