//! Values of resistances and capacitances.

ghost use Rattle.std.specs.Prelude.{◌≡◌, ◌≤◌};
ghost use Rattle.sta_units.specs.Numbers.{limit};

use std::marker::Model;

/// A capacitance in aF or a resistance in mΩ, from 0 to 10^12.
#[derive(Drop)]
pub(crate) struct Size {
    number: u64,
}

impl Model for Size {
    ghost use Rattle.std.specs.Prelude.{ℕ, ◌≤◌};
    ghost use Rattle.std.specs.Coded.{coded_ℕ};
    ghost use Rattle.sta_units.specs.Numbers.{limit};

    ghost Value = { ℕ };

    ghost coded = { coded_ℕ };

    ghost view = { λ s. s.number };

    ghost invariant = { λ s. s.number ≤ limit };
}

impl Size {
    /// The size of a number that is not above 10^12.
    pub(crate) fn new(number: u64) -> Size
        requires { number ≤ limit }
        ensures { result ≡ number }
    {
        Size { number }
    }

    pub(crate) fn get(&self) -> u64
        ensures value { result ≡ self.now }
        ensures bound { result ≤ limit }
    {
        self.number
    }
}
