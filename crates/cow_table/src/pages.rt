//! Chunks that stand side by side in a table, which its copies share together.

ghost use Rattle.std.specs.Prelude.{◌≡◌, ◌<◌, ◌≤◌, ◌*◌, ◌/◌, [], ◌∷◌, ◌++◌, length, replicate, slice_get, slice_set, flat_map, IfOk, OnOk, OnErr};
ghost use Rattle.std.specs.Arc.{arc_value};
ghost use Rattle.cow_table.specs.Pieces.{IsCut};

use crate::chunks::{CHUNK, Chunk, push_in, set_in};
use sta_units::{Again, Memory};
use std::alloc::{AllocError, Global};
use std::marker::Model;
use std::sync::Arc;

/// The greatest number of chunks in a page.
const CHUNKS: usize = 64;

/// The greatest number of items in a page.
pub const PAGE: usize = CHUNKS * CHUNK;

/// Some items that stand side by side in a table, in chunks. A copy of a page shares its chunks, until one
/// of the two writes them.
#[derive(Drop)]
pub struct Page<T> {
    chunks: Vec<Arc<Chunk<T>>>,
}

impl<T> Model for Page<T> {
    ghost use Rattle.std.specs.Prelude.{List, flat_map};
    ghost use Rattle.std.specs.Coded.{coded_list};
    ghost use Rattle.std.specs.Arc.{arc_value};
    ghost use Rattle.cow_table.specs.Pieces.{IsCut};

    ghost Value = { List T };

    ghost coded = { coded_list T.code };

    ghost view = { λ p. flat_map arc_value p.chunks.items };

    ghost invariant = { λ p. IsCut 64 arc_value p.chunks.items };
}

/// The item at `at` of the chunks.
fn item_in<T>(chunks: &[Arc<Chunk<T>>], at: usize) -> &T
    requires cut { IsCut 64 arc_value chunks.now }
    requires within { at < length (flat_map arc_value chunks.now) }
    ensures { slice_get (flat_map arc_value chunks.now) at ≡ Some result.now }
{
    chunks[at / CHUNK].get(at % CHUNK)
}

/// Writes `value` at `at` of the chunks; a refusal leaves the items as they were.
fn set_at<T: Again + Drop>(chunks: &mut [Arc<Chunk<T>>], at: usize, value: T) -> Result<(), Memory>
    requires cut { IsCut 64 arc_value chunks.old }
    requires within { at < length (flat_map arc_value chunks.old) }
    ensures cut { IsCut 64 arc_value chunks.new }
    ensures ok { OnOk result (flat_map arc_value chunks.new ≡ slice_set (flat_map arc_value chunks.old) at value) }
    ensures err { OnErr result (flat_map arc_value chunks.new ≡ flat_map arc_value chunks.old) }
{
    set_in(&mut chunks[at / CHUNK], at % CHUNK, value)
}

/// A chunk of one item, with one owner.
fn chunk_of<T: Drop>(alloc: Global, first: T) -> Result<Arc<Chunk<T>>, Memory>
    ensures { IfOk result (λ chunk. arc_value chunk ≡ first ∷ []) }
{
    let chunk = Chunk::of(alloc, first)?;
    Ok(Arc::new(alloc, chunk)?)
}

/// Begins a chunk with `value`, where every chunk is full.
fn begin<T: Drop>(chunks: &mut Vec<Arc<Chunk<T>>>, alloc: Global, value: T) -> Result<(), Memory>
    requires cut { IsCut 64 arc_value chunks.old.items }
    requires full { 64 * length chunks.old.items ≤ length (flat_map arc_value chunks.old.items) }
    ensures cut { IsCut 64 arc_value chunks.new.items }
    ensures ok { OnOk result (flat_map arc_value chunks.new.items ≡ flat_map arc_value chunks.old.items ++ value ∷ []) }
    ensures err { OnErr result (flat_map arc_value chunks.new.items ≡ flat_map arc_value chunks.old.items) }
{
    let chunk = chunk_of(alloc, value)?;
    Ok(chunks.push(chunk)?)
}

/// Adds `value` to the last chunk, which has room.
fn push_last<T: Again + Drop>(
    chunks: &mut [Arc<Chunk<T>>],
    len: usize,
    value: T,
) -> Result<(), Memory>
    requires cut { IsCut 64 arc_value chunks.old }
    requires counted { len ≡ length (flat_map arc_value chunks.old) }
    requires room { len / 64 < length chunks.old }
    ensures cut { IsCut 64 arc_value chunks.new }
    ensures ok { OnOk result (flat_map arc_value chunks.new ≡ flat_map arc_value chunks.old ++ value ∷ []) }
    ensures err { OnErr result (flat_map arc_value chunks.new ≡ flat_map arc_value chunks.old) }
{
    push_in(&mut chunks[len / CHUNK], value)
}

/// Adds `value` after the `len` items of the chunks; a refusal leaves the items as they were.
fn push_at<T: Again + Drop>(
    chunks: &mut Vec<Arc<Chunk<T>>>,
    alloc: Global,
    len: usize,
    value: T,
) -> Result<(), Memory>
    requires cut { IsCut 64 arc_value chunks.old.items }
    requires counted { len ≡ length (flat_map arc_value chunks.old.items) }
    ensures cut { IsCut 64 arc_value chunks.new.items }
    ensures ok { OnOk result (flat_map arc_value chunks.new.items ≡ flat_map arc_value chunks.old.items ++ value ∷ []) }
    ensures err { OnErr result (flat_map arc_value chunks.new.items ≡ flat_map arc_value chunks.old.items) }
{
    if len / CHUNK < chunks.len() {
        push_last(chunks.as_mut_slice(), len, value)
    } else {
        begin(chunks, alloc, value)
    }
}

impl<T> Page<T> {
    /// The item at `at`, which is below the number of items.
    pub fn get(&self, at: usize) -> &T
        requires { at < length self.now }
        ensures { slice_get self.now at ≡ Some result.now }
    {
        item_in(self.chunks.as_slice(), at)
    }
}

impl<T: Drop> Page<T> {
    /// A page of one item.
    pub fn of(alloc: Global, first: T) -> Result<Page<T>, Memory>
        ensures { IfOk result (λ page. page ≡ first ∷ []) }
    {
        let mut chunks = Vec::new(alloc);
        begin(&mut chunks, alloc, first)?;
        Ok(Page { chunks })
    }
}

impl<T: Again + Drop> Page<T> {
    /// Writes `value` at `at`, which is below the number of items; a refusal leaves the items as they were.
    pub fn set(&mut self, at: usize, value: T) -> Result<(), Memory>
        requires { at < length self.old }
        ensures ok { OnOk result (self.new ≡ slice_set self.old at value) }
        ensures err { OnErr result (self.new ≡ self.old) }
    {
        set_at(self.chunks.as_mut_slice(), at, value)
    }

    /// Adds `value` after the `len` items; a refusal leaves the items as they were.
    pub fn push(&mut self, len: usize, value: T) -> Result<(), Memory>
        requires { len ≡ length self.old }
        ensures ok { OnOk result (self.new ≡ self.old ++ value ∷ []) }
        ensures err { OnErr result (self.new ≡ self.old) }
    {
        let alloc = *self.chunks.allocator();
        push_at(&mut self.chunks, alloc, len, value)
    }

    /// A full page of copies of an item.
    pub fn filled(alloc: Global, item: &T) -> Result<Page<T>, Memory>
        ensures { IfOk result (λ page. page ≡ replicate 4096 item.now) }
    {
        let mut chunks = Vec::with_capacity(alloc, CHUNKS)?;
        for at in 0..CHUNKS {
            let _ = at;
            let chunk = Chunk::filled(alloc, item)?;
            let chunk = Arc::new(alloc, chunk)?;
            chunks.push(chunk)?;
        }
        Ok(Page { chunks })
    }
}

impl<T: Drop> Clone for Page<T> {
    ghost use Rattle.std.specs.Prelude.{◌≡◌};

    ghost is_clone = { λ page copy. copy ≡ page };

    fn clone(&self) -> Result<Page<T>, AllocError> {
        let chunks = self.chunks.clone()?;
        Ok(Page { chunks })
    }
}

/// Writes `value` at `at` of the page, in place where the page has no other owner and else in a copy that
/// takes its place; the other owners keep what they have.
pub fn set_in_page<T: Again + Drop>(
    page: &mut Arc<Page<T>>,
    at: usize,
    value: T,
) -> Result<(), Memory>
    requires { at < length (arc_value page.old) }
    ensures ok { OnOk result (arc_value page.new ≡ slice_set (arc_value page.old) at value) }
    ensures err { OnErr result (arc_value page.new ≡ arc_value page.old) }
{
    Arc::make_mut(page)?.set(at, value)
}

/// Adds `value` after the `len` items of the page, in place where the page has no other owner and else in
/// a copy that takes its place; the other owners keep what they have.
pub fn push_in_page<T: Again + Drop>(
    page: &mut Arc<Page<T>>,
    len: usize,
    value: T,
) -> Result<(), Memory>
    requires { len ≡ length (arc_value page.old) }
    ensures ok { OnOk result (arc_value page.new ≡ arc_value page.old ++ value ∷ []) }
    ensures err { OnErr result (arc_value page.new ≡ arc_value page.old) }
{
    Arc::make_mut(page)?.push(len, value)
}
