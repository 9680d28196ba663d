//! Work on lists that is shared between the processors.

ghost use Rattle.std.specs.Prelude.{◌≡◌, Ok, IfOk};
ghost use Rattle.std.specs.Fn.{FnReturnsAt};
ghost use Rattle.level_workers.specs.Mapped.{IsMap};

use rayon::prelude::*;
use sta_units::Memory;
use std::alloc::{AllocError, Global};
use std::thread::Threads;
use timing_defs::Items;

/// The results of `f` for some items, in their order, unless one wants memory.
fn collected<H: Threads + Sync, I: Sync, R: Send + Drop, F: Fn(&I) -> Result<R, Memory> + Sync>(
    rt: &H,
    alloc: Global,
    items: &[I],
    f: &F,
) -> Result<Result<Vec<R>, Memory>, AllocError>
    requires { F.IsAlwaysCallable f.now }
    ensures { IfOk result
        (λ found. IfOk found
        (λ results. IsMap (λ x r. FnReturnsAt F.Fn f.now x (Ok r)) items.now results.items)) }
{
    let call = |item: &I| -> Result<R, Memory>
        requires { F.IsAlwaysCallable f.now }
        ensures { FnReturnsAt F.Fn f.entry.now item.now result }
    { f(item) };
    items
        .par_iter()
        .with_min_len(1)
        .map(call)
        .collect(rt, alloc)
}

/// The results of `f` for some items, in their order, by as many threads as there are processors; or want
/// of memory.
pub fn map_shared<
    H: Threads + Sync,
    I: Sync,
    R: Send + Drop,
    F: Fn(&I) -> Result<R, Memory> + Sync,
>(rt: &H, alloc: Global, items: &[I], f: &F) -> Result<Items<R>, Memory>
    requires { F.IsAlwaysCallable f.now }
    ensures { IfOk result (IsMap (λ x r. FnReturnsAt F.Fn f.now x (Ok r)) items.now) }
{
    let results = collected(rt, alloc, items, f)??;
    Ok(Items::from_vec(results))
}
