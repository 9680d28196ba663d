//! How many cycles multicycles can make of a test.

ghost use Rattle.std.specs.Prelude.{◌≡◌};
ghost use Rattle.timing_rules.specs.Rules.{cycles_in};
ghost use Rattle.path_rules.specs.Ranges.{lesser, greater, widened, plain_range, range_of, IsRange};

use timing_defs::{Constraints, Effect, Kind};

/// The fewest and the most cycles of a kind of tests.
#[derive(Clone, Copy, Drop)]
pub struct CycleRange {
    pub fewest: u32,
    pub most: u32,
}

/// The number of cycles that an exception sets for a kind of tests; none where it sets none.
fn cycles_in(kind: Kind, effect: Effect) -> Option<u32>
    ensures { result ≡ cycles_in kind effect }
{
    match (kind, effect) {
        (Kind::Setup, Effect::CyclesSetup(n)) => Some(n),
        (Kind::Hold, Effect::CyclesHold(n)) => Some(n),
        (Kind::Setup, Effect::CyclesHold(_)) => None,
        (Kind::Hold, Effect::CyclesSetup(_)) => None,
        (_, Effect::FalseSetup | Effect::FalseHold) => None,
    }
}

/// The lesser of two numbers.
fn lesser(m: u32, n: u32) -> u32
    ensures { result ≡ lesser m n }
{
    if n < m { n } else { m }
}

/// The greater of two numbers.
fn greater(m: u32, n: u32) -> u32
    ensures { result ≡ greater m n }
{
    if m < n { n } else { m }
}

impl CycleRange {
    /// One cycle for setup, none for hold.
    fn plain(kind: Kind) -> CycleRange
        ensures { result ≡ plain_range kind }
    {
        match kind {
            Kind::Setup => CycleRange { fewest: 1, most: 1 },
            Kind::Hold => CycleRange { fewest: 0, most: 0 },
        }
    }

    /// The range with a number more, where there is one.
    fn widened(self, cycles: Option<u32>) -> CycleRange
        ensures { result ≡ widened self cycles }
    {
        match cycles {
            Some(n) => CycleRange {
                fewest: lesser(self.fewest, n),
                most: greater(self.most, n),
            },
            None => self,
        }
    }
}

/// The range of one test without multicycles and of all multicycles, whether they apply or not.
fn range_of(c: &Constraints, kind: Kind) -> CycleRange
    ensures { result ≡ range_of c.now kind }
{
    let exceptions = c.exceptions.as_slice();
    let mut range = CycleRange::plain(kind);
    for x in exceptions {
        range = range.widened(cycles_in(kind, x.effect));
    }
    range
}

/// The fewest and the most cycles of a kind of tests, of one without multicycles and of all multicycles,
/// whether they apply or not: no path has fewer or more, whatever launches and captures it. Takes no
/// memory, and a step for each exception.
pub fn cycle_range(c: &Constraints, kind: Kind) -> CycleRange
    ensures value { result ≡ range_of c.now kind }
    ensures range { IsRange c.now kind result }
{
    range_of(c, kind)
}
