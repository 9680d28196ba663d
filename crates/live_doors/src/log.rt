//! A history that only proofs read. It takes no memory, and its methods do nothing at run time.

ghost use Rattle.std.specs.Prelude.{◌≡◌, List, [], ◌∷◌, ◌++◌};
ghost use Rattle.std.specs.Borrow.{ftrue};

use std::marker::{Model, PhantomData};

/// Pairs in the order in which they were added. It owns nothing.
#[derive(Drop)]
pub(crate) struct Log<A, B> {
    of: PhantomData<(A, B)>,
    pub ghost items: { List (A × B) },
}

impl<A, B> Model for Log<A, B> {
    ghost also_owns = { λ _. ftrue };
}

// It owns nothing.
unsafe impl<A: Send, B: Send> Send for Log<A, B> {}

impl<A, B> Log<A, B> {
    /// The history of nothing.
    pub(crate) fn new() -> Log<A, B>
        ensures { result.items ≡ [] }
    {
        Log { of: PhantomData }
    }

    /// The history with a pair more at its end.
    pub(crate) fn and(&self, first: &A, second: &B) -> Log<A, B>
        ensures { result.items ≡ self.now.items ++ (first.now, second.now) ∷ [] }
    {
        Log { of: PhantomData }
    }
}
