//! Questions of a version.

ghost use Rattle.std.specs.Prelude.{◌≡◌, ◌⊎◌, ◌||◌, true, Some, IfOk, IfErr};
ghost use Rattle.std.specs.Arc.{arc_value};
ghost use Rattle.timing_defs.specs.declared.faults.QueryFault.TheVariants.{Memory as no_answer};
ghost use Rattle.timing_defs.specs.Documents.{is_plain};
ghost use Rattle.timing_rules.specs.Questions.{Told, query_fault};
ghost use Rattle.session_engine.specs.Running.{is_further};

use crate::further::Further;
use crate::versions::Version;
use affected_cone::{ask, is_plain};
use std::alloc::Global;
use std::marker::Model;
use std::sync::Arc;
use std::thread::Threads;
use timing_defs::{Query, QueryFault, Report};

/// A version that is asked. Contracts see the version.
#[derive(Drop)]
pub struct Snapshot {
    version: Arc<Version>,
}

impl Model for Snapshot {
    ghost use Rattle.std.specs.Arc.{arc_value};
    ghost use Rattle.session_engine.specs.Versions.{Versioned};

    ghost Value = { Versioned };

    ghost view = { λ s. arc_value s.version };
}

impl Snapshot {
    /// A snapshot of a version. Takes no memory.
    pub fn of(version: Arc<Version>) -> Snapshot
        ensures { result ≡ arc_value version }
    {
        Snapshot { version }
    }

    /// Gives the snapshot up. Takes no memory.
    pub fn discard(self) {
        let Snapshot { version } = self;
        Version::discard(version);
    }

    /// The version of the snapshot. Takes no memory.
    pub fn version(&self) -> &Version
        ensures { result.now ≡ self.now }
    {
        &self.version
    }

    /// The number of the version. Takes no memory.
    pub fn number(&self) -> u64
        ensures { result ≡ self.now.number }
    {
        self.version().number()
    }

    /// The answer to a plain question of the version's design. A question is refused where its pin is not there
    /// (`Q1`), is no endpoint (`Q2`), or has no test of the kind with a network clock pin (`Q3`).
    pub fn query(&self, alloc: Global, question: &Query) -> Result<Report, QueryFault>
        requires { is_plain question.now ≡ true }
        ensures told { IfOk result (Told self.now.stored.design question.now) }
        ensures refused { IfErr result
            (λ x. (x ≡ no_answer) ⊎ (query_fault self.now.stored.design question.now ≡ Some x)) }
    {
        let version = self.version();
        version.laws();
        ask(alloc, version.store(), version.analysis(), question)
    }

    /// The answer to a further question of the version's design, by what answers such.
    fn further<H: Threads + Sync, X: Further>(
        &self,
        rt: &H,
        alloc: Global,
        question: &Query,
        further: &X,
    ) -> Result<Report, QueryFault>
        requires { is_further question.now ≡ true }
        ensures told { IfOk result (Told self.now.stored.design question.now) }
        ensures refused { IfErr result
            (λ x. (x ≡ no_answer) ⊎ (query_fault self.now.stored.design question.now ≡ Some x)) }
    {
        let version = self.version();
        version.laws();
        further.answer(rt, alloc, version.store(), version.analysis(), question)
    }

    /// The answer to a question of the version's design, plain or further: the worst path through 1 to 16
    /// pins, 1 to 100 worst paths, 1 to 100 trials on a draft, or 1 to 100 candidates of a resize. Refused
    /// as `query` has it, and a path through pins also where one of them is not there (`Q1`).
    pub fn answer<H: Threads + Sync, X: Further>(
        &self,
        rt: &H,
        alloc: Global,
        question: &Query,
        further: &X,
    ) -> Result<Report, QueryFault>
        requires { is_plain question.now || is_further question.now ≡ true }
        ensures told { IfOk result (Told self.now.stored.design question.now) }
        ensures refused { IfErr result
            (λ x. (x ≡ no_answer) ⊎ (query_fault self.now.stored.design question.now ≡ Some x)) }
    {
        if is_plain(question) {
            self.query(alloc, question)
        } else {
            self.further(rt, alloc, question, further)
        }
    }
}
