//! Orders of nodes, asked only where walks tie.

use sta_units::Memory;
use std::alloc::Global;
use timing_defs::Items;

/// An order of the nodes of a cone and of those that stand before a launch, as that by names.
pub trait WalkOrder {
    ghost use Rattle.std.specs.Prelude.{ℕ, List, All, IfOk, nat_lt, ◌≡◌, ◌<◌};

    /// The numbers below it are known to the order.
    ghost count: { Self → ℕ };

    /// The place of a node in the order.
    ghost rank: { Self → ℕ → ℕ };

    /// The nodes that stand before a launch's node in the list by which walks of equal slack are
    /// ordered.
    ghost before: { Self → ℕ → List ℕ };

    /// Whether a node comes before another.
    fn comes_first(&self, one: u32, other: u32) -> bool
        requires one { one < count self.now }
        requires other { other < count self.now }
        ensures { result ≡ nat_lt (rank self.now one) (rank self.now other) };

    /// The nodes that stand before a launch's node. The one error is want of memory.
    fn nodes_before(&self, alloc: Global, launch: u32) -> Result<Items<u32>, Memory>
        requires { launch < count self.now }
        ensures value { IfOk result (λ nodes. nodes ≡ before self.now launch) }
        ensures known { IfOk result (λ nodes. All (λ n. n < count self.now) nodes) };
}
