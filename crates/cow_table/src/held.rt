//! Values that tables share.

ghost use Rattle.std.specs.Prelude.{◌≡◌, IfOk};

use sta_units::{Again, Memory};
use std::alloc::Global;
use std::marker::Model;
use std::sync::Arc;

/// A value that several owners hold and none changes. Contracts see the value. In a table it makes the
/// copy of an item one count, so that the copy of a piece of 64 items takes no memory for their lists.
#[derive(Drop)]
pub struct Held<T> {
    held: Arc<T>,
}

impl<T> Model for Held<T> {
    ghost use Rattle.std.specs.Arc.{arc_value};

    ghost Value = { T };

    ghost coded = { T.code };

    ghost view = { λ h. arc_value h.held };
}

impl<T> Held<T> {
    /// The value.
    pub fn get(&self) -> &T
        ensures { result.now ≡ self.now }
    {
        &self.held
    }
}

impl<T: Drop> Held<T> {
    /// A value with one owner.
    pub fn of(alloc: Global, value: T) -> Result<Held<T>, Memory>
        ensures { IfOk result (λ held. held ≡ value) }
    {
        let held = Arc::new(alloc, value)?;
        Ok(Held { held })
    }
}

impl<T: Drop> Held<T> {
    /// Gives the value up.
    pub fn discard(self) {}

    /// One owner more.
    pub fn share(&self) -> Result<Held<T>, Memory>
        ensures { IfOk result (λ held. held ≡ self.now) }
    {
        let held = self.held.clone()?;
        Ok(Held { held })
    }
}

impl<T: Drop> Again for Held<T> {
    fn again(&self, _alloc: Global) -> Result<Held<T>, Memory> {
        self.share()
    }
}
