//! What trials are made over.

ghost use Rattle.std.specs.Prelude.{◌≡◌, ◌≤◌};

use affected_cone::Analysis;
use netlist_store::Store;
use std::alloc::Global;

/// What trials are made over: a store and its analysis, with what works out the analyses after ECOs and
/// answers questions that are no plain ones.
#[derive(Drop)]
pub(crate) struct Base<'a, H, A> {
    pub(crate) rt: &'a H,
    pub(crate) alloc: Global,
    pub(crate) store: &'a Store,
    pub(crate) analysis: &'a Analysis,
    pub(crate) workers: u32,
    pub(crate) answers: &'a A,
    ghost analysed: { store.now ≡ analysis.now.stored },
    ghost some: { 1 ≤ workers },
    ghost most: { workers ≤ 32 },
}
