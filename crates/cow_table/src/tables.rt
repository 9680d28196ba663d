//! A list in pages, which a table shares with its copies.

ghost use Rattle.std.specs.Prelude.{◌≡◌, ◌<◌, ◌≤◌, ◌*◌, ◌/◌, None, [], ◌∷◌, ◌++◌, length, replicate, slice_get, slice_set, IfOk, OnOk, OnErr, flat_map};
ghost use Rattle.std.specs.Arc.{arc_value};
ghost use Rattle.cow_table.specs.Pieces.{IsCut};
ghost use Rattle.cow_table.specs.Writes.{first_refused, written};

use crate::filled::full_pages;
use crate::moves::{first_refused, move_all};
use crate::pages::{PAGE, Page, push_in_page, set_in_page};
use crate::writes::put_parts;
use sta_units::{Again, Memory};
use std::alloc::Global;
use std::marker::Model;
use std::sync::Arc;
use std::thread::Threads;

/// So many writes are worth a thread.
const SHARE: usize = 256;

/// A list whose copies share what they have in common: a copy costs one step for each 4,096
/// items, and the first write to 64 items that are shared copies these alone, with a step for each 64 of the
/// 4,096 among which they stand.
#[derive(Drop)]
pub struct CowTable<T> {
    pages: Vec<Arc<Page<T>>>,
    len: usize,
    alloc: Global,
}

impl<T> Model for CowTable<T> {
    ghost use Rattle.std.specs.Prelude.{List, ◌≡◌, length, flat_map};
    ghost use Rattle.std.specs.Coded.{coded_list};
    ghost use Rattle.std.specs.Arc.{arc_value};
    ghost use Rattle.cow_table.specs.Pieces.{IsCut};

    ghost Value = { List T };

    ghost coded = { coded_list T.code };

    ghost view = { λ t. flat_map arc_value t.pages.items };

    ghost invariant = { λ t. IsCut 4096 arc_value t.pages.items × (t.len ≡ length (flat_map arc_value t.pages.items)) };
}

impl<T> CowTable<T> {
    /// An empty table, which takes no memory; its growth takes it from `alloc`.
    pub fn new(alloc: Global) -> CowTable<T>
        ensures { result ≡ [] }
    {
        CowTable {
            pages: Vec::new(alloc),
            len: 0,
            alloc,
        }
    }

    /// The number of items.
    pub fn len(&self) -> usize
        ensures { result ≡ length self.now }
    {
        self.len
    }

    /// The item at `i`, which is below the number of items.
    pub fn get(&self, i: usize) -> &T
        requires { i < length self.now }
        ensures { slice_get self.now i ≡ Some result.now }
    {
        item_in(self.pages.as_slice(), i)
    }
}

impl<T: Drop> CowTable<T> {
    /// A copy, which shares each page until one of its owners writes it; a later change of the
    /// table or of the copy leaves the other as it is.
    pub fn copy(&self) -> Result<CowTable<T>, Memory>
        ensures { IfOk result (λ table. table ≡ self.now) }
    {
        let pages = shared(&self.pages)?;
        Ok(CowTable {
            pages,
            len: self.len,
            alloc: self.alloc,
        })
    }
}

impl<T: Again + Drop> CowTable<T> {
    /// Writes `value` at `i`, which is below the number of items; a refusal leaves the table as it
    /// was. No copy of the table changes.
    pub fn set(&mut self, i: usize, value: T) -> Result<(), Memory>
        requires { i < length self.old }
        ensures ok { OnOk result (self.new ≡ slice_set self.old i value) }
        ensures err { OnErr result (self.new ≡ self.old) }
    {
        set_at(self.pages.as_mut_slice(), i, value)
    }

    /// Adds `value` at the end; a refusal leaves the table as it was. No copy of the table changes.
    pub fn push(&mut self, value: T) -> Result<(), Memory>
        ensures ok { OnOk result (self.new ≡ self.old ++ value ∷ []) }
        ensures err { OnErr result (self.new ≡ self.old) }
    {
        let Some(len) = self.len.checked_add(1) else {
            return Err(Memory);
        };
        push_at(&mut self.pages, self.alloc, self.len, value)?;
        self.len = len;
        Ok(())
    }
}

impl<T: Again + Send + Sync + Drop> CowTable<T> {
    /// A table of that many copies of an item, made by up to that many threads.
    pub fn filled<H: Threads + Sync>(
        rt: &H,
        alloc: Global,
        workers: u32,
        count: usize,
        item: &T,
    ) -> Result<CowTable<T>, Memory>
        ensures { IfOk result (λ table. table ≡ replicate count item.now) }
    {
        let full = count / PAGE;
        let parts = (workers as usize).min(full + 1);
        let pages = full_pages(rt, alloc, parts, full, full + 1, item)?;
        let mut table = CowTable {
            pages,
            len: full * PAGE,
            alloc,
        };
        for at in full * PAGE..count {
            let _ = at;
            table.push(item.again(alloc)?)?;
        }
        Ok(table)
    }

    /// Writes each value at its place, in order, by up to that many threads, each of which writes some
    /// pages that stand side by side. A place that is not below the number of items is passed by. Gives
    /// back the first error among the values, where there is one; then, or where memory is wanting, what
    /// the items are is not told. No copy of the table changes.
    pub fn put_all<H: Threads + Sync, E: Sync + Drop>(
        &mut self,
        rt: &H,
        workers: u32,
        places: &[u32],
        values: Vec<Result<T, E>>,
    ) -> Result<Option<E>, Memory>
        requires { length places.now ≡ length values.items }
        ensures len { length self.new ≡ length self.old }
        ensures refused { IfOk result (λ refused. refused ≡ first_refused values.items) }
        ensures ok { IfOk result (λ refused. refused ≡ None → self.new ≡ written 0 self.old places.now values.items) }
    {
        let parts = (workers as usize).min(places.len() / SHARE + 1).max(1);
        let pages = self.pages.as_mut_slice();
        if parts == 1 {
            return move_all(self.len, places, values, pages);
        }
        let copied = values.as_slice();
        put_parts(
            rt, self.alloc, parts, parts, self.len, places, copied, pages,
        )?;
        Ok(first_refused(values))
    }
}

impl<T: Drop> Again for CowTable<T> {
    fn again(&self, _alloc: Global) -> Result<CowTable<T>, Memory> {
        self.copy()
    }
}

/// The same pages, each with one owner more.
fn shared<T: Drop>(pages: &Vec<Arc<Page<T>>>) -> Result<Vec<Arc<Page<T>>>, Memory>
    requires { IsCut 4096 arc_value pages.now.items }
    ensures cut { IfOk result (λ copies. IsCut 4096 arc_value copies.items) }
    ensures items { IfOk result (λ copies. flat_map arc_value copies.items ≡ flat_map arc_value pages.now.items) }
{
    let copies = pages.clone()?;
    Ok(copies)
}

/// The item at `i` of the pages.
fn item_in<T>(pages: &[Arc<Page<T>>], i: usize) -> &T
    requires cut { IsCut 4096 arc_value pages.now }
    requires within { i < length (flat_map arc_value pages.now) }
    ensures { slice_get (flat_map arc_value pages.now) i ≡ Some result.now }
{
    pages[i / PAGE].get(i % PAGE)
}

/// Writes `value` at `i` of the pages; a refusal leaves the items as they were.
pub(crate) fn set_at<T: Again + Drop>(
    pages: &mut [Arc<Page<T>>],
    i: usize,
    value: T,
) -> Result<(), Memory>
    requires cut { IsCut 4096 arc_value pages.old }
    requires within { i < length (flat_map arc_value pages.old) }
    ensures cut { IsCut 4096 arc_value pages.new }
    ensures ok { OnOk result (flat_map arc_value pages.new ≡ slice_set (flat_map arc_value pages.old) i value) }
    ensures err { OnErr result (flat_map arc_value pages.new ≡ flat_map arc_value pages.old) }
{
    set_in_page(&mut pages[i / PAGE], i % PAGE, value)
}

/// Adds `value` after the `len` items of the pages; a refusal leaves the items as they were.
fn push_at<T: Again + Drop>(
    pages: &mut Vec<Arc<Page<T>>>,
    alloc: Global,
    len: usize,
    value: T,
) -> Result<(), Memory>
    requires cut { IsCut 4096 arc_value pages.old.items }
    requires counted { len ≡ length (flat_map arc_value pages.old.items) }
    ensures cut { IsCut 4096 arc_value pages.new.items }
    ensures ok { OnOk result (flat_map arc_value pages.new.items ≡ flat_map arc_value pages.old.items ++ value ∷ []) }
    ensures err { OnErr result (flat_map arc_value pages.new.items ≡ flat_map arc_value pages.old.items) }
{
    if len / PAGE < pages.len() {
        push_last(pages.as_mut_slice(), len, value)
    } else {
        begin(pages, alloc, value)
    }
}

/// Adds `value` to the last page, which has room.
fn push_last<T: Again + Drop>(
    pages: &mut [Arc<Page<T>>],
    len: usize,
    value: T,
) -> Result<(), Memory>
    requires cut { IsCut 4096 arc_value pages.old }
    requires counted { len ≡ length (flat_map arc_value pages.old) }
    requires room { len / 4096 < length pages.old }
    ensures cut { IsCut 4096 arc_value pages.new }
    ensures ok { OnOk result (flat_map arc_value pages.new ≡ flat_map arc_value pages.old ++ value ∷ []) }
    ensures err { OnErr result (flat_map arc_value pages.new ≡ flat_map arc_value pages.old) }
{
    push_in_page(&mut pages[len / PAGE], len % PAGE, value)
}

/// Begins a page with `value`, where every page is full.
fn begin<T: Drop>(pages: &mut Vec<Arc<Page<T>>>, alloc: Global, value: T) -> Result<(), Memory>
    requires cut { IsCut 4096 arc_value pages.old.items }
    requires full { 4096 * length pages.old.items ≤ length (flat_map arc_value pages.old.items) }
    ensures cut { IsCut 4096 arc_value pages.new.items }
    ensures ok { OnOk result (flat_map arc_value pages.new.items ≡ flat_map arc_value pages.old.items ++ value ∷ []) }
    ensures err { OnErr result (flat_map arc_value pages.new.items ≡ flat_map arc_value pages.old.items) }
{
    let page = page_of(alloc, value)?;
    Ok(pages.push(page)?)
}

/// A page of one item, with one owner.
fn page_of<T: Drop>(alloc: Global, first: T) -> Result<Arc<Page<T>>, Memory>
    ensures { IfOk result (λ page. arc_value page ≡ first ∷ []) }
{
    let page = Page::of(alloc, first)?;
    Ok(Arc::new(alloc, page)?)
}
