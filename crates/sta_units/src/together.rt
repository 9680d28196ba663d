//! Values that can each be refused, made beside each other.

ghost use Rattle.std.specs.Prelude.{◌≡◌, Ok, IfOk};

/// Two values.
#[derive(Drop)]
pub struct Pair<A, B> {
    pub one: A,
    pub other: B,
}

/// Both values where both are there, and else why one is not. The types are parameters here, so that giving up a value that has
/// no partner is proved once, and not at each place where two calls can fail.
pub fn both<A: Drop, B: Drop, E: Drop>(
    one: Result<A, E>,
    other: Result<B, E>,
) -> Result<Pair<A, B>, E>
    ensures one { IfOk result (λ both. one ≡ Ok both.one) }
    ensures other { IfOk result (λ both. other ≡ Ok both.other) }
{
    match one {
        Ok(one) => match other {
            Ok(other) => Ok(Pair { one, other }),
            Err(reason) => Err(reason),
        },
        Err(reason) => Err(reason),
    }
}
