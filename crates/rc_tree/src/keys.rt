//! Distinct keys by their places.

ghost use Rattle.std.specs.Prelude.{◌≡◌, ◌<◌, ◌≤◌, ◌+◌, ◌^◌, ◌++◌, ◌∷◌, [], length, is_some, false, position, OnOk, IfSome};
ghost use Rattle.std.specs.List.{list_any, IsDistinct};

use indexmap::IndexSet;
use sta_units::Memory;
use std::alloc::Global;
use std::hash::Hash;
use std::marker::Model;

/// The most keys that are looked through.
const FEW: usize = 16;

/// The most keys; no memory holds as many.
const MOST: usize = 1 << 62;

/// Keys, each once, in the order in which they came: the first few are looked through, those after
/// them are hashed. Contracts see the list of all.
#[derive(Drop)]
pub(crate) struct Keys<T: Eq + Hash> {
    first: Vec<T>,
    more: IndexSet<T>,
}

impl<T: Eq + Hash> Model for Keys<T> {
    ghost use Rattle.std.specs.Prelude.{List, length, ◌++◌, ◌≤◌, ◌^◌};
    ghost use Rattle.std.specs.List.{IsDistinct};
    ghost use Rattle.std.specs.Coded.{coded_list};

    ghost Value = { List T };

    ghost coded = { coded_list T.code };

    ghost view = { λ k. k.first.items ++ k.more.keys };

    ghost invariant = { λ k. IsDistinct T.eq (k.first.items ++ k.more.keys)
        × (length (k.first.items ++ k.more.keys) ≤ 2 ^ 62) };
}

/// The place of a key among those that are looked through.
fn first_place<T: Eq>(first: &[T], key: &T) -> Option<usize>
    ensures { result ≡ position (T.eq key.now) first.now }
{
    first.iter().position(|own| *key == *own)
}

/// The place of a key among those that are hashed.
fn later_place<T: Eq + Hash>(more: &IndexSet<T>, key: &T) -> Option<usize>
    ensures index { result ≡ position (T.eq key.now) more.now.keys }
    ensures within { IfSome result (λ place. place < length more.now.keys) }
{
    if more.is_empty() {
        return None;
    }
    more.get_index_of(key)
}

/// Adds a key to those that are looked through.
fn push_first<T: Eq + Drop>(first: &mut Vec<T>, key: T) -> Result<(), Memory>
    requires distinct { IsDistinct T.eq first.old.items }
    requires absent { list_any (T.eq key) first.old.items ≡ false }
    ensures added { OnOk result (first.new.items ≡ first.old.items ++ key ∷ []) }
    ensures distinct { IsDistinct T.eq first.new.items }
    ensures bound { length first.new.items ≤ length first.old.items + 1 }
{
    match first.push(key) {
        Ok(()) => Ok(()),
        Err(_) => Err(Memory),
    }
}

/// Adds a key to those that are hashed.
fn push_more<T: Eq + Hash + Drop>(first: &[T], more: &mut IndexSet<T>, key: T) -> Result<(), Memory>
    requires distinct { IsDistinct T.eq (first.now ++ more.old.keys) }
    requires absent { list_any (T.eq key) (first.now ++ more.old.keys) ≡ false }
    ensures added { OnOk result (more.new.keys ≡ more.old.keys ++ key ∷ []) }
    ensures distinct { IsDistinct T.eq (first.now ++ more.new.keys) }
    ensures bound { length more.new.keys ≤ length more.old.keys + 1 }
{
    match more.insert(key) {
        Ok(_) => Ok(()),
        Err(_) => Err(Memory),
    }
}

impl<T: Eq + Hash + Drop> Keys<T> {
    /// No keys. Takes no memory.
    pub(crate) fn new(alloc: Global) -> Keys<T>
        ensures { result ≡ [] }
    {
        Keys {
            first: Vec::new(alloc),
            more: IndexSet::new(alloc),
        }
    }

    /// How many keys there are.
    pub(crate) fn len(&self) -> usize
        ensures len { result ≡ length self.now }
        ensures unique { IsDistinct T.eq self.now }
        ensures bound { result ≤ 2 ^ 62 }
    {
        self.first.len() + self.more.len()
    }

    /// The place of a key; none exactly where it is not there.
    pub(crate) fn place(&self, key: &T) -> Option<usize>
        ensures index { result ≡ position (T.eq key.now) self.now }
        ensures found { is_some result ≡ list_any (T.eq key.now) self.now }
    {
        match first_place(&self.first, key) {
            Some(place) => Some(place),
            None => match later_place(&self.more, key) {
                Some(later) => {
                    let hashed = self.more.len();
                    prove!(later < hashed);
                    Some(self.first.len() + later)
                }
                None => None,
            },
        }
    }

    /// Adds a key that is not there.
    pub(crate) fn push(&mut self, key: T) -> Result<(), Memory>
        requires { list_any (T.eq key) self.old ≡ false }
        ensures { OnOk result (self.new ≡ self.old ++ key ∷ []) }
    {
        if MOST <= self.len() {
            return Err(Memory);
        }
        if self.first.len() < FEW && self.more.is_empty() {
            push_first(&mut self.first, key)
        } else {
            push_more(&self.first, &mut self.more, key)
        }
    }
}
