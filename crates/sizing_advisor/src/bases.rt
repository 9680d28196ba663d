//! What candidates are tried over.

ghost use Rattle.std.specs.Prelude.{◌≡◌, ◌≤◌};

use affected_cone::Analysis;
use netlist_store::Store;
use std::alloc::Global;
use timing_defs::Kind;

/// What candidates are tried over: a store and its analysis, with what works out the analyses after resizes, and the
/// kind of the slack that is to be greatest.
#[derive(Drop)]
pub(crate) struct Base<'a, H, G> {
    pub(crate) rt: &'a H,
    pub(crate) alloc: Global,
    pub(crate) store: &'a Store,
    pub(crate) analysis: &'a Analysis,
    pub(crate) kind: Kind,
    pub(crate) workers: u32,
    pub(crate) gate: &'a G,
    ghost analysed: { store.now ≡ analysis.now.stored },
    ghost some: { 1 ≤ workers },
    ghost most: { workers ≤ 32 },
}

impl<H, G> Base<'_, H, G> {
    /// The same with one worker, for a trial beside others.
    pub(crate) fn alone(&self) -> Base<'_, H, G>
        ensures store { result.store.now ≡ self.now.store.now }
        ensures kind { result.kind ≡ self.now.kind }
    {
        Base {
            rt: self.rt,
            alloc: self.alloc,
            store: self.store,
            analysis: self.analysis,
            kind: self.kind,
            workers: 1,
            gate: self.gate,
        }
    }
}
