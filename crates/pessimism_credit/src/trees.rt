//! Clock trees.

ghost use Rattle.std.specs.Prelude.{◌≡◌, ℕ, ◌<◌, ◌≤◌, ◌*◌, ◌≤ℤ◌, length, unsigned_abs, IfOk};
ghost use Rattle.sta_units.specs.Numbers.{limit};
ghost use Rattle.pessimism_credit.specs.Credit.{IsTree, root_path, credit_of, least_credit_of};

use crate::climbing::{last_shared, least_above, path_in, pessimism_in};
use crate::rows::TreeRow;
use sta_units::{Fs, Memory};
use std::alloc::Global;
use std::marker::Model;
use timing_defs::Items;

/// A clock tree, or several beside each other: each parent stands before its children. Contracts
/// see the list of its rows.
#[derive(Drop)]
pub struct ClockTree {
    rows: Items<TreeRow>,
}

impl Model for ClockTree {
    ghost use Rattle.std.specs.Prelude.{List};
    ghost use Rattle.pessimism_credit.specs.declared.rows.TreeRow.{TreeRow};
    ghost use Rattle.pessimism_credit.specs.Credit.{IsTree};

    ghost Value = { List TreeRow };

    ghost view = { λ t. t.rows };

    ghost invariant = { λ t. IsTree t.rows };
}

impl ClockTree {
    /// The tree of a copy of these rows, in which each parent stands before its children, and each
    /// arrival lies within `10^12` fs on either side of 0.
    pub fn of(alloc: Global, rows: &Items<TreeRow>) -> Result<ClockTree, Memory>
        requires { IsTree rows.now }
        ensures { IfOk result (λ tree. tree ≡ rows.now) }
    {
        Ok(ClockTree {
            rows: Items::from_slice(alloc, rows.as_slice())?,
        })
    }

    /// The places from the root to `n`, ends included, for a place `n` of a row.
    pub fn path_to(&self, alloc: Global, n: u32) -> Result<Items<u32>, Memory>
        requires { n < length self.now }
        ensures { IfOk result (λ path. path ≡ root_path self.now n) }
    {
        path_in(alloc, self.rows.as_slice(), n)
    }

    /// The credit of two places of rows, in fs: late less early arrival at the last place that
    /// their paths from the root share, or 0 where they share none. It is not clipped. Takes no
    /// memory, and as many steps as the two paths have places.
    pub fn credit(&self, a: u32, b: u32) -> Fs
        requires first { a < length self.now }
        requires second { b < length self.now }
        ensures { result.0 ≡ credit_of self.now a b }
    {
        let rows = self.rows.as_slice();
        match last_shared(rows, a, b) {
            Some(place) => pessimism_in(rows, place),
            None => Fs(0),
        }
    }

    /// A credit in fs that no credit of a place with another is below: the least of 0 and of late less
    /// early arrival at the place and at those above it. Takes no memory, and a step for each of these.
    #[tactic(auto, using(crate::proofs::Lowest::lowest))]
    pub fn least_credit(&self, b: u32) -> Fs
        requires { b < length self.now }
        ensures value { result.0 ≡ least_credit_of self.now b }
        ensures least { (a : ℕ) → result.0 ≤ℤ credit_of self.now a b }
        ensures bound { unsigned_abs result.0 ≤ 2 * limit }
    {
        least_above(self.rows.as_slice(), b)
    }
}
