//! What a search asks of nodes and arcs.

ghost use Rattle.bounded_slack.specs.Nets.{Net};

use sta_units::Memory;
use std::alloc::Global;
use timing_defs::Items;
use worst_walks::WalkArc;

/// The fan-in of an end node over node numbers, asked node by node: levels that rise along arcs, arcs
/// with their delays, what a launch at a node offers, and a bound on what walks leave of an offer. All
/// times are in fs; a search for the least slack of hold tests gives delays negated.
pub trait Fan {
    ghost use Rattle.std.specs.Prelude.{IfOk, ◌≡◌, ◌<◌};
    ghost use Rattle.bounded_slack.specs.Nets.{Net, count_of, end_of, level_of, arcs_into, offer_of, bound_of};

    /// The nodes and arcs that are asked for.
    ghost net: { Self → Net };

    /// The end node.
    fn end(&self) -> u32
        ensures { result ≡ end_of (net self.now) };

    /// The level of a node.
    fn level(&self, node: u32) -> u32
        requires { node < count_of (net self.now) }
        ensures { result ≡ level_of (net self.now) node };

    /// At most what any walk to a node from a launch leaves of the launch's offer; none where no walk
    /// from a launch leads.
    fn bound(&self, node: u32) -> Option<i64>
        requires { node < count_of (net self.now) }
        ensures { result ≡ bound_of (net self.now) node };

    /// The arcs that a walk can follow into a node. The one error is want of memory.
    fn arcs_into(&self, alloc: Global, node: u32) -> Result<Items<WalkArc>, Memory>
        requires { node < count_of (net self.now) }
        ensures { IfOk result (λ arcs. arcs ≡ arcs_into (net self.now) node) };

    /// What a launch at a node offers, to which these arcs lead: a walk from it with the delay sum `s` has
    /// the slack `offer - s`. None where no walk begins at the node. The one error is want of memory.
    fn offer(&self, alloc: Global, node: u32, arcs: &[WalkArc]) -> Result<Option<i64>, Memory>
        requires node { node < count_of (net self.now) }
        requires arcs { arcs.now ≡ arcs_into (net self.now) node }
        ensures { IfOk result (λ offer. offer ≡ offer_of (net self.now) node) };
}
