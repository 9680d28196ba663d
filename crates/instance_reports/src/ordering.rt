//! Rows in the order of their names.

ghost use Rattle.std.specs.Prelude.{◌≡◌};
ghost use Rattle.std.specs.Cmp.Lexicographic.{slice_cmp};
ghost use Rattle.std.specs.Ordering.{nat_cmp};
ghost use Rattle.instance_reports.specs.Orders.{AreInOrder};

use std::cmp::Ordering;
use timing_defs::{Items, Name, PinCap, PinReport, SizeChoice};

/// A row of an answer, which goes by a name.
pub(crate) trait Row {
    ghost use Rattle.std.specs.Prelude.{ℕ, ◌≡◌, List};

    ghost called: { Self → List ℕ };

    /// The name of the row.
    fn name(&self) -> &Name
        ensures { result.now ≡ called self.now };
}

impl Row for PinReport {
    ghost called = { λ row. row.pin };

    fn name(&self) -> &Name {
        &self.pin
    }
}

impl Row for PinCap {
    ghost called = { λ row. row.pin };

    fn name(&self) -> &Name {
        &self.pin
    }
}

impl Row for SizeChoice {
    ghost called = { λ row. row.cell };

    fn name(&self) -> &Name {
        &self.cell
    }
}

/// The rows in the order of their names. Takes no memory.
pub(crate) fn in_order<T: Row>(rows: Items<T>) -> Items<T>
    ensures { AreInOrder T.called rows result }
{
    let mut rows = rows.into_vec();
    rows.sort_unstable_by(
        |a: &T, b: &T| -> Ordering
            ensures { result ≡ slice_cmp nat_cmp (T.called a.now) (T.called b.now) }
        { a.name().cmp(b.name()) },
    );
    Items::from_vec(rows)
}
