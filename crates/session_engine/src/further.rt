//! Questions beyond the plain ones: what answers them stands above this crate.

ghost use Rattle.std.specs.Prelude.{◌≡◌, ◌⊎◌, true, Some, IfOk, IfErr};
ghost use Rattle.std.specs.Thread.{IsSync};
ghost use Rattle.timing_rules.specs.Questions.{Told, query_fault};
ghost use Rattle.session_engine.specs.Running.{is_further};

use affected_cone::Analysis;
use netlist_store::Store;
use std::alloc::Global;
use std::thread::Threads;
use timing_defs::{Query, QueryFault, Report};

/// What answers further questions, over the store and the analysis of a version.
pub trait Further {
    /// The answer to a question: the worst path through 1 to 16 pins, 1 to 100 worst paths, 1 to 100 trials
    /// on a draft, or 1 to 100 candidates of a resize. It waits for nobody.
    ///
    /// # Errors
    ///
    /// The fault of the question, and want of memory.
    fn answer<H: Threads + Sync>(
        &self,
        rt: &H,
        alloc: Global,
        store: &Store,
        analysis: &Analysis,
        q: &Query,
    ) -> Result<Report, QueryFault>
        // the bound of H, which the proofs of what implements this don't get of the bound itself
        requires sync { IsSync H.row }
        requires store { store.now ≡ analysis.now.stored }
        requires further { is_further q.now ≡ true }
        ensures told { IfOk result (Told analysis.now.stored.design q.now) }
        ensures refused { IfErr result
            (λ x. (x ≡ QueryFault.Memory)
            ⊎ (query_fault analysis.now.stored.design q.now ≡ Some x)) };
}
