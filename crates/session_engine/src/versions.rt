//! Versions of a design.

ghost use Rattle.std.specs.Prelude.{◌≡◌, ◌+◌, ◌^◌, ◌<◌, ◌≤◌, true, [], ◌∷◌, ◌++◌, length, IfOk, IfErr, OnOk};
ghost use Rattle.std.specs.Arc.{arc_value};
ghost use Rattle.timing_defs.specs.Documents.{is_eco};
ghost use Rattle.timing_rules.specs.Checks.{Accepts};
ghost use Rattle.timing_rules.specs.Reports.{AreTotals};
ghost use Rattle.eco_analysis.specs.Soundness.{IsUnsound};
ghost use Rattle.session_engine.specs.Versions.{IsVersion, IsNext, entry_of, version_of};

use crate::histories::{History, listed};
use affected_cone::Analysis;
use eco_analysis::{analysed, shared, tell_laws};
use netlist_store::Store;
use sta_outside::Gate;
use sta_units::Memory;
use std::alloc::Global;
use std::marker::Model;
use std::sync::Arc;
use std::thread::Threads;
use timing_defs::{Design, Eco, Entry, Fault, Items, Totals};
use version_board::Stands;

/// A design after a journal of accepted ECOs, with its analysis. Contracts see the number of the origin and
/// the version's own, the origin's design, the journal, the store and the analysis.
#[derive(Drop)]
pub struct Version {
    pub(crate) history: History,
    pub(crate) store: Arc<Store>,
    pub(crate) analysis: Arc<Analysis>,
}

impl Model for Version {
    ghost use Rattle.std.specs.Arc.{arc_value};
    ghost use Rattle.session_engine.specs.Versions.{Versioned, IsVersion, version_of};

    ghost Value = { Versioned };

    ghost view = { λ v. version_of v.history.first (arc_value v.history.origin).design
        v.history.journal (arc_value v.store) (arc_value v.analysis) };

    ghost invariant = { λ v. IsVersion
        (version_of v.history.first (arc_value v.history.origin).design v.history.journal
        (arc_value v.store) (arc_value v.analysis)) };
}

/// The version of its parts.
fn version_of(history: History, store: Arc<Store>, analysis: Arc<Analysis>) -> Version
    requires { IsVersion
        (version_of history.first (arc_value history.origin).design history.journal
        (arc_value store) (arc_value analysis)) }
    ensures { result
        ≡ version_of history.first (arc_value history.origin).design history.journal
        (arc_value store) (arc_value analysis) }
{
    Version {
        history,
        store,
        analysis,
    }
}

impl Version {
    /// The version without entries.
    #[tactic(auto, using(crate::proofs::VersionLaws::first_version))]
    fn begun(
        alloc: Global,
        first: u64,
        store: Arc<Store>,
        analysis: Arc<Analysis>,
    ) -> Result<Arc<Version>, Memory>
        requires first { first ≤ 2 ^ 62 }
        requires analysis { (arc_value analysis).stored ≡ arc_value store }
        ensures first { IfOk result (λ v. (arc_value v).first ≡ first) }
        ensures origin { IfOk result (λ v. (arc_value v).origin ≡ (arc_value store).design) }
        ensures journal { IfOk result (λ v. (arc_value v).journal ≡ []) }
        ensures stored { IfOk result (λ v. (arc_value v).stored ≡ arc_value store) }
    {
        tell_laws(&analysis);
        match History::of(alloc, first, &store) {
            Ok(history) => shared(alloc, version_of(history, store, analysis)),
            Err(Memory) => Err(Memory),
        }
    }

    /// The first version of a store that is shared.
    fn first_shared<H: Threads + Sync, G: Gate>(
        rt: &H,
        alloc: Global,
        first: u64,
        store: Arc<Store>,
        workers: u32,
        gate: &G,
    ) -> Result<Arc<Version>, Fault>
        requires first { first ≤ 2 ^ 62 }
        requires some { 1 ≤ workers }
        requires most { workers ≤ 32 }
        ensures first { IfOk result (λ v. (arc_value v).first ≡ first) }
        ensures origin { IfOk result (λ v. (arc_value v).origin ≡ (arc_value store).design) }
        ensures journal { IfOk result (λ v. (arc_value v).journal ≡ []) }
        ensures stored { IfOk result (λ v. (arc_value v).stored ≡ arc_value store) }
        ensures refused { IfErr result (IsUnsound (arc_value store).design) }
    {
        match analysed(rt, alloc, &store, workers, gate) {
            Ok(analysis) => Ok(Version::begun(alloc, first, store, analysis)?),
            Err(fault) => Err(fault),
        }
    }

    /// The first version of a design: that number, no entries, the store as origin. A design in which
    /// something stands is refused by the first fault of the order too large (`E17`), two drivers (`E10`),
    /// a loop (`E11`), a clock network that is no tree (`E12`), a constraint on nothing (`E13`),
    /// parasitics that are no tree (`E14`) or of other pins (`E15`), a quantity out of its range (`E16`).
    /// It takes the time of the checks and of a full analysis.
    pub fn first<H: Threads + Sync, G: Gate>(
        rt: &H,
        alloc: Global,
        first: u64,
        store: Store,
        workers: u32,
        gate: &G,
    ) -> Result<Arc<Version>, Fault>
        requires first { first ≤ 2 ^ 62 }
        requires some { 1 ≤ workers }
        requires most { workers ≤ 32 }
        ensures first { IfOk result (λ v. (arc_value v).first ≡ first) }
        ensures origin { IfOk result (λ v. (arc_value v).origin ≡ store.design) }
        ensures journal { IfOk result (λ v. (arc_value v).journal ≡ []) }
        ensures stored { IfOk result (λ v. (arc_value v).stored ≡ store) }
        ensures refused { IfErr result (IsUnsound store.design) }
    {
        match shared(alloc, store) {
            Ok(store) => Version::first_shared(rt, alloc, first, store, workers, gate),
            Err(Memory) => Err(Fault::Memory),
        }
    }

    /// The version that begins at this one's store, with that number and no entries; it shares the store and
    /// the analysis.
    pub(crate) fn begun_anew(&self, alloc: Global, first: u64) -> Result<Arc<Version>, Memory>
        requires { first ≤ 2 ^ 62 }
        ensures first { IfOk result (λ v. (arc_value v).first ≡ first) }
        ensures origin { IfOk result (λ v. (arc_value v).origin ≡ self.now.stored.design) }
        ensures journal { IfOk result (λ v. (arc_value v).journal ≡ []) }
        ensures stored { IfOk result (λ v. (arc_value v).stored ≡ self.now.stored) }
    {
        self.laws();
        let store = self.store.clone()?;
        match self.analysis.clone() {
            Ok(analysis) => Version::begun(alloc, first, store, analysis),
            Err(_) => Err(Memory),
        }
    }

    /// The history with one entry more.
    fn longer(&self, alloc: Global, who: u32, eco: &Eco) -> Result<History, Memory>
        ensures first { IfOk result (λ h. h.first ≡ self.now.first) }
        ensures origin { IfOk result (λ h. (arc_value h.origin).design ≡ self.now.origin) }
        ensures journal { IfOk result
            (λ h. h.journal ≡ self.now.journal ++ entry_of who eco.now ∷ []) }
        ensures room { OnOk result (length self.now.journal < 2 ^ 62) }
    {
        self.history.with_entry(alloc, who, eco)
    }

    /// The version of a history with one entry more.
    fn after(
        &self,
        who: u32,
        eco: &Eco,
        history: History,
        store: Arc<Store>,
        analysis: Arc<Analysis>,
    ) -> Version
        requires eco { is_eco eco.now ≡ true }
        requires accepts { Accepts self.now.stored.design eco.now (arc_value store).design }
        requires analysis { (arc_value analysis).stored ≡ arc_value store }
        requires first { history.first ≡ self.now.first }
        requires origin { (arc_value history.origin).design ≡ self.now.origin }
        requires journal { history.journal ≡ self.now.journal ++ entry_of who eco.now ∷ [] }
        requires room { length self.now.journal < 2 ^ 62 }
        ensures next { IsNext self.now who eco.now result }
        ensures stored { result.stored ≡ arc_value store }
    {
        self.laws();
        tell_laws(&analysis);
        version_of(history, store, analysis)
    }

    /// The version after one more accepted ECO.
    pub(crate) fn next(
        &self,
        alloc: Global,
        who: u32,
        eco: &Eco,
        store: Arc<Store>,
        analysis: Arc<Analysis>,
    ) -> Result<Arc<Version>, Memory>
        requires eco { is_eco eco.now ≡ true }
        requires accepts { Accepts self.now.stored.design eco.now (arc_value store).design }
        requires analysis { (arc_value analysis).stored ≡ arc_value store }
        ensures next { IfOk result (λ v. IsNext self.now who eco.now (arc_value v)) }
        ensures stored { IfOk result (λ v. (arc_value v).stored ≡ arc_value store) }
    {
        match self.longer(alloc, who, eco) {
            Ok(history) => {
                let next = self.after(who, eco, history, store, analysis);
                shared(alloc, next)
            }
            Err(Memory) => Err(Memory),
        }
    }

    /// The accepted ECOs since the origin, with their sessions, in order; copied.
    pub fn entries(&self, alloc: Global) -> Result<Items<Entry>, Memory>
        ensures { IfOk result (λ entries. entries ≡ self.now.journal) }
    {
        listed(alloc, &self.history.journal)
    }

    /// The store after the last entry. Takes no memory.
    pub fn store(&self) -> &Store
        ensures { result.now ≡ self.now.stored }
    {
        &self.store
    }

    /// The number of the version: the origin's, and one more for each entry. Takes no memory.
    pub fn number(&self) -> u64
        ensures { result ≡ self.now.number }
    {
        self.history.first + self.history.journal.len() as u64
    }

    /// The analysis of the store. Takes no memory.
    pub fn analysis(&self) -> &Analysis
        ensures { result.now ≡ self.now.analysed }
    {
        &self.analysis
    }

    /// The number with the worst and the total negative slack of both kinds, in fs.
    pub fn totals(&self) -> Totals
        ensures { AreTotals self.now.stored.design self.now.number result }
    {
        self.laws();
        let analysis = self.analysis();
        analysis.totals(self.number())
    }

    /// Gives a version up. Takes no memory.
    pub fn discard(_version: Arc<Version>) {}

    /// What every version keeps, told to the proofs of callers; the call does nothing.
    pub fn laws(&self)
        ensures { IsVersion self.now }
    {
        let _ = &self.history;
    }
}

impl Stands for Version {
    type Entry = Entry;

    type Origin = Design;

    ghost entries = { λ v. v.journal };

    ghost from = { λ v. v.first };

    ghost origin = { λ v. v.origin };

    ghost by = { λ entry. entry.session };

    fn first(&self) -> u64 {
        self.history.first
    }

    fn count(&self) -> u64 {
        self.laws();
        self.number()
    }
}
