//! Questions that a draft is asked beyond the plain ones: what answers them stands above this crate.

ghost use Rattle.std.specs.Prelude.{◌≡◌, ◌⊎◌, true, false, Some, IfOk, IfErr};
ghost use Rattle.std.specs.Thread.{IsSync};
ghost use Rattle.timing_defs.specs.Documents.{is_plain, is_single};
ghost use Rattle.timing_rules.specs.Questions.{Told, query_fault};

use affected_cone::Analysis;
use netlist_store::Store;
use std::alloc::Global;
use std::thread::Threads;
use timing_defs::{Query, QueryFault, Report};

/// What answers the questions of a draft that are no plain ones, over the store and the analysis of its last design.
pub trait DraftAnswers {
    /// The answer to a question that is neither plain nor about a draft. It waits for nobody.
    ///
    /// # Errors
    ///
    /// The fault of the question, and want of memory.
    fn answer_draft<H: Threads + Sync>(
        &self,
        rt: &H,
        alloc: Global,
        store: &Store,
        analysis: &Analysis,
        q: &Query,
    ) -> Result<Report, QueryFault>
        // the bound of H, which the proofs of what implements this don't get of the bound itself
        requires sync { IsSync H.row }
        requires store { store.now ≡ analysis.now.stored }
        requires single { is_single q.now ≡ true }
        requires further { is_plain q.now ≡ false }
        ensures told { IfOk result (Told store.now.design q.now) }
        ensures refused { IfErr result
            (λ x. (x ≡ QueryFault.Memory) ⊎ (query_fault store.now.design q.now ≡ Some x)) };
}
