//! A number that only proofs read.

ghost use Rattle.std.specs.Prelude.{◌≡◌, ℕ, ◌+◌};
ghost use Rattle.std.specs.Borrow.{ftrue};

use std::marker::Model;

// It takes no bytes, and only the calls below make one.
#[derive(Drop)]
pub struct Count {
    pub ghost n: { ℕ },
}

impl Model for Count {
    ghost also_owns = { λ _. ftrue };
}

// It owns nothing.
unsafe impl Send for Count {}

impl Count {
    pub(crate) fn zero() -> Count
        ensures { result.n ≡ 0 }
    {
        Count {}
    }

    pub(crate) fn one() -> Count
        ensures { result.n ≡ 1 }
    {
        Count {}
    }

    pub(crate) fn sum(first: &Count, second: &Count) -> Count
        ensures { result.n ≡ first.now.n + second.now.n }
    {
        Count {}
    }
}
