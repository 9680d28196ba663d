//! What candidates are tried over.

ghost use Rattle.std.specs.Prelude.{◌≡◌, ◌≤◌};

use affected_cone::Analysis;
use netlist_store::Store;
use std::alloc::Global;

/// What candidates are tried over: a store and its analysis, with what works out the analyses after
/// resizes.
#[derive(Drop)]
pub(crate) struct Base<'a, H> {
    pub(crate) rt: &'a H,
    pub(crate) alloc: Global,
    pub(crate) store: &'a Store,
    pub(crate) analysis: &'a Analysis,
    pub(crate) workers: u32,
    ghost analysed: { store.now ≡ analysis.now.stored },
    ghost some: { 1 ≤ workers },
    ghost most: { workers ≤ 32 },
}

impl<H> Base<'_, H> {
    /// The same with one worker, for a trial beside others.
    pub(crate) fn alone(&self) -> Base<'_, H>
        ensures { result.store.now ≡ self.now.store.now }
    {
        Base {
            rt: self.rt,
            alloc: self.alloc,
            store: self.store,
            analysis: self.analysis,
            workers: 1,
        }
    }
}
