//! Names and lists that tests are given.

ghost use Rattle.std.specs.Prelude.{◌≡◌, [], ◌∷◌};

use std::alloc::Global;
use std::process::Abort;
use timing_defs::{Items, Name};

pub(crate) fn name(rt: &impl Abort, alloc: Global, text: &str) -> Name {
    Name::from_bytes(alloc, text.as_bytes())
        .expect(rt, "memory")
        .expect(rt, "a name")
}

/// The list of one item.
pub(crate) fn one<T: Drop>(rt: &impl Abort, alloc: Global, item: T) -> Items<T>
    ensures { result ≡ item ∷ [] }
{
    let mut items = Items::new(alloc);
    items.push(item).expect(rt, "memory");
    items
}
