//! The answer to a further question.

ghost use Rattle.std.specs.Prelude.{◌≤◌};

use crate::closing::closing;
use crate::drafts::{advised, drafted};
use crate::paths::{path_through, ranked_paths};
use affected_cone::Analysis;
use netlist_store::Store;
use session_engine::Further;
use std::alloc::Global;
use std::thread::Threads;
use timing_defs::{Query, QueryFault, Report};
use what_if::DraftAnswers;

/// Answers the questions beyond the plain ones: paths through pins, ranked paths, drafts and advised sizes.
#[derive(Drop)]
pub struct FurtherQueries {
    workers: u32,
    ghost some: { 1 ≤ workers },
    ghost most: { workers ≤ 32 },
}

impl FurtherQueries {
    /// Answers for which the analysis of each ECO that is tried is shared between so many threads, 1 to 32.
    pub fn new(workers: u32) -> FurtherQueries
        requires some { 1 ≤ workers }
        requires most { workers ≤ 32 }
    {
        FurtherQueries { workers }
    }
}

impl DraftAnswers for FurtherQueries {
    #[tactic(auto, using(std::proofs::lemmas::Bool::and_parts))]
    fn answer_draft<H: Threads + Sync>(
        &self,
        rt: &H,
        alloc: Global,
        store: &Store,
        analysis: &Analysis,
        q: &Query,
    ) -> Result<Report, QueryFault> {
        match q {
            Query::Through { pin, kind, pins } => {
                path_through(alloc, &analysis.search(store), pin, *kind, pins)
            }
            Query::Paths { pin, kind, count } => {
                ranked_paths(alloc, &analysis.search(store), pin, *kind, *count)
            }
            Query::Advise { kind, candidates } => {
                advised(rt, alloc, store, analysis, *kind, candidates, self.workers)
            }
            Query::Closing { query } => closing(rt, alloc, store, analysis, query, self.workers),
            Query::WhatIf { .. }
            | Query::Slew { .. }
            | Query::At { .. }
            | Query::Rat { .. }
            | Query::Slack { .. }
            | Query::Endpoint { .. }
            | Query::WorstPath { .. }
            | Query::Wns { .. }
            | Query::Tns { .. }
            | Query::Worst { .. } => unreachable!(),
        }
    }
}

impl Further for FurtherQueries {
    #[tactic(auto, using(std::proofs::lemmas::Bool::and_parts))]
    fn answer<H: Threads + Sync>(
        &self,
        rt: &H,
        alloc: Global,
        store: &Store,
        analysis: &Analysis,
        q: &Query,
    ) -> Result<Report, QueryFault> {
        match q {
            Query::WhatIf { items } => {
                drafted(rt, alloc, store, analysis, items, self.workers, self)
            }
            Query::Through { .. }
            | Query::Paths { .. }
            | Query::Advise { .. }
            | Query::Closing { .. } => self.answer_draft(rt, alloc, store, analysis, q),
            Query::Slew { .. }
            | Query::At { .. }
            | Query::Rat { .. }
            | Query::Slack { .. }
            | Query::Endpoint { .. }
            | Query::WorstPath { .. }
            | Query::Wns { .. }
            | Query::Tns { .. }
            | Query::Worst { .. } => unreachable!(),
        }
    }
}
