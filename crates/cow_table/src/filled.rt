//! Equal items in full pages, made by several threads.

ghost use Rattle.std.specs.Prelude.{◌≡◌, All, length, replicate, IfOk};
ghost use Rattle.std.specs.Arc.{arc_value};
ghost use denote.Param.Send.{IsSync, IsSend};

use crate::pages::Page;
use sta_units::{Again, Memory};
use std::alloc::Global;
use std::sync::Arc;
use std::thread::{Threads, join};

/// A full page of copies of an item.
fn full_page<T: Again + Drop>(alloc: Global, item: &T) -> Result<Arc<Page<T>>, Memory>
    ensures { IfOk result (λ page. arc_value page ≡ replicate 4096 item.now) }
{
    let page = Page::filled(alloc, item)?;
    Ok(Arc::new(alloc, page)?)
}

/// That many full pages of copies of an item, in a list with that much room.
fn some_pages<T: Again + Drop>(
    alloc: Global,
    count: usize,
    room: usize,
    item: &T,
) -> Result<Vec<Arc<Page<T>>>, Memory>
    ensures len { IfOk result (λ pages. length pages.items ≡ count) }
    ensures each { IfOk result (λ pages. All (λ page. arc_value page ≡ replicate 4096 item.now) pages.items) }
{
    let mut pages = Vec::with_capacity(alloc, room)?;
    for at in 0..count {
        let _ = at;
        pages.push(full_page(alloc, item)?)?;
    }
    Ok(pages)
}

/// The same by that many threads, which share the pages evenly: the last part goes to a new thread.
#[cycle(parts)]
pub(crate) fn full_pages<H: Threads + Sync, T: Again + Send + Sync + Drop>(
    rt: &H,
    alloc: Global,
    parts: usize,
    count: usize,
    room: usize,
    item: &T,
) -> Result<Vec<Arc<Page<T>>>, Memory>
    ensures len { IfOk result (λ pages. length pages.items ≡ count) }
    ensures each { IfOk result (λ pages. All (λ page. arc_value page ≡ replicate 4096 item.now) pages.items) }
{
    if parts < 2 {
        return some_pages(alloc, count, room, item);
    }
    let share = count / parts;
    let others = parts - 1;
    let rest = count - share;
    let theirs = move || -> Result<Vec<Arc<Page<T>>>, Memory>
        ensures len { IfOk result (λ pages. length pages.items ≡ share) }
        ensures each { IfOk result (λ pages. All (λ page. arc_value page ≡ replicate 4096 item.entry.now) pages.items) }
    { some_pages(alloc, share, share, item) };
    let ours = move || -> Result<Vec<Arc<Page<T>>>, Memory>
        requires { IsSync H.row × IsSync T.row × IsSend T.row }
        ensures len { IfOk result (λ pages. length pages.items ≡ rest) }
        ensures each { IfOk result (λ pages. All (λ page. arc_value page ≡ replicate 4096 item.entry.now) pages.items) }
    { full_pages(rt, alloc, others, rest, room, item) };
    let (last, first) = join(rt, theirs, ours);
    let mut pages = first?;
    let mut more = last?;
    pages.append(&mut more)?;
    Ok(pages)
}
