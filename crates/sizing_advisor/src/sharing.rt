//! The trials of many candidates, shared between the processors.

ghost use Rattle.std.specs.Prelude.{IfOk};
ghost use denote.Param.Send.{IsSync};
ghost use Rattle.level_workers.specs.Mapped.{IsMap};
ghost use Rattle.sizing_advisor.specs.Trying.{IsTrial};

use crate::bases::Base;
use crate::trials::{Tried, trial_of};
use affected_cone::map_shared;
use sta_outside::Gate;
use sta_units::Memory;
use std::thread::Threads;
use timing_defs::{Candidate, Items};

/// The trials of some candidates, in their order, by as many threads as there are processors; each with one worker.
pub(crate) fn shared_trials<H: Threads + Sync, G: Gate, L>(
    base: &Base<'_, H, G>,
    candidates: &[Candidate],
) -> Result<Items<Tried<L>>, Memory>
    ensures { IfOk result (IsMap (IsTrial base.now.store.now.design base.now.kind) candidates.now) }
{
    let trial = |candidate: &Candidate| -> Result<Tried<L>, Memory>
        requires { IsSync H.row × IsSync G.row }
        ensures { IfOk result
            (IsTrial base.entry.now.store.now.design base.entry.now.kind candidate.now) }
    { trial_of(base, candidate) };
    map_shared(base.rt, base.alloc, candidates, &trial)
}
