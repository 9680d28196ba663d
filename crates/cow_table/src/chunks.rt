//! The least pieces that the copies of a table share.

ghost use Rattle.std.specs.Prelude.{◌≡◌, ◌<◌, [], ◌∷◌, ◌++◌, length, replicate, slice_get, slice_set, IfOk, OnOk, OnErr};
ghost use Rattle.std.specs.Arc.{arc_value};

use sta_units::{Again, Memory};
use std::alloc::{AllocError, Global};
use std::marker::Model;
use std::sync::Arc;

/// The greatest number of items in a chunk.
pub const CHUNK: usize = 64;

/// Some items that stand side by side in a table.
#[derive(Drop)]
pub struct Chunk<T> {
    items: Vec<T>,
}

impl<T> Model for Chunk<T> {
    ghost use Rattle.std.specs.Prelude.{List};
    ghost use Rattle.std.specs.Coded.{coded_list};

    ghost Value = { List T };

    ghost coded = { coded_list T.code };

    ghost view = { λ c. c.items.items };
}

impl<T> Chunk<T> {
    /// The item at `at`, which is below the number of items.
    pub fn get(&self, at: usize) -> &T
        requires { at < length self.now }
        ensures { slice_get self.now at ≡ Some result.now }
    {
        &self.items[at]
    }
}

impl<T: Drop> Chunk<T> {
    /// A chunk of one item.
    pub fn of(alloc: Global, first: T) -> Result<Chunk<T>, Memory>
        ensures { IfOk result (λ chunk. chunk ≡ first ∷ []) }
    {
        let mut items = Vec::new(alloc);
        items.push(first)?;
        Ok(Chunk { items })
    }

    /// Writes `value` at `at`, which is below the number of items.
    pub fn set(&mut self, at: usize, value: T)
        requires { at < length self.old }
        ensures { self.new ≡ slice_set self.old at value }
    {
        self.items[at] = value;
    }

    /// Adds `value` at the end; a refusal leaves the items as they were.
    pub fn push(&mut self, value: T) -> Result<(), Memory>
        ensures ok { OnOk result (self.new ≡ self.old ++ value ∷ []) }
        ensures err { OnErr result (self.new ≡ self.old) }
    {
        Ok(self.items.push(value)?)
    }
}

impl<T: Again + Drop> Chunk<T> {
    /// A full chunk of copies of an item.
    pub fn filled(alloc: Global, item: &T) -> Result<Chunk<T>, Memory>
        ensures { IfOk result (λ chunk. chunk ≡ replicate 64 item.now) }
    {
        let mut items = Vec::with_capacity(alloc, CHUNK)?;
        for at in 0..CHUNK {
            let _ = at;
            items.push(item.again(alloc)?)?;
        }
        Ok(Chunk { items })
    }
}

impl<T: Again + Drop> Clone for Chunk<T> {
    ghost use Rattle.std.specs.Prelude.{◌≡◌};

    ghost is_clone = { λ chunk copy. copy ≡ chunk };

    fn clone(&self) -> Result<Chunk<T>, AllocError> {
        let alloc = *self.items.allocator();
        let mut items = Vec::with_capacity(alloc, self.items.len())?;
        for item in self.items.as_slice() {
            let copy = item.again(alloc).map_err(|_| AllocError)?;
            items.push(copy)?;
        }
        Ok(Chunk { items })
    }
}

/// Writes `value` at `at` of the chunk, in place where the chunk has no other owner and else in a
/// copy that takes its place; the other owners keep what they have.
pub fn set_in<T: Again + Drop>(chunk: &mut Arc<Chunk<T>>, at: usize, value: T) -> Result<(), Memory>
    requires { at < length (arc_value chunk.old) }
    ensures ok { OnOk result (arc_value chunk.new ≡ slice_set (arc_value chunk.old) at value) }
    ensures err { OnErr result (arc_value chunk.new ≡ arc_value chunk.old) }
{
    Arc::make_mut(chunk)?.set(at, value);
    Ok(())
}

/// Adds `value` at the end of the chunk, in place where the chunk has no other owner and else in
/// a copy that takes its place; the other owners keep what they have.
pub fn push_in<T: Again + Drop>(chunk: &mut Arc<Chunk<T>>, value: T) -> Result<(), Memory>
    ensures ok { OnOk result (arc_value chunk.new ≡ arc_value chunk.old ++ value ∷ []) }
    ensures err { OnErr result (arc_value chunk.new ≡ arc_value chunk.old) }
{
    Arc::make_mut(chunk)?.push(value)
}
