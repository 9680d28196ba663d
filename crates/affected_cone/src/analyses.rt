//! The analysis of a store.

ghost use Rattle.std.specs.Prelude.{◌≡◌, ◌+◌, ◌≤◌, ◌⊎◌, true, Some, IfOk, IfErr, OnOk};
ghost use Rattle.timing_rules.specs.Checks.{IsSound};
ghost use Rattle.timing_rules.specs.Cones.{forward_count, backward_count};
ghost use Rattle.timing_rules.specs.Reports.{AreTotals};
ghost use Rattle.timing_defs.specs.Documents.{is_plain};
ghost use Rattle.timing_rules.specs.Questions.{Told, query_fault};
ghost use Rattle.netlist_store.specs.Applying.{IsEditOf};
ghost use Rattle.pin_graph.specs.RowTables.{IsRangeFault};
ghost use Rattle.affected_cone.specs.Analysed.{IsAnalysis, IsSearch};

use crate::asking::{Known, answer};
use crate::ends::{EndSlacks, Search};
use crate::found::find_all;
use crate::totals::totals_of;
use crate::updating::{Base, find_after};
use arrival_engine::Arrivals;
use cow_table::Held;
use netlist_store::{Store, Touched};
use pessimism_credit::ClockTree;
use pin_graph::Graph;
use required_engine::Required;
use sta_outside::Gate;
use sta_units::Steps;
use std::alloc::Global;
use std::marker::Model;
use std::thread::Threads;
use timing_defs::{Fault, Items, Query, QueryFault, Report, Totals};

/// The whole timing analysis of a store: slews, arrivals and required times of all nodes, the clock
/// tree, and the slacks of all endpoints. Contracts see the store, the rows of nodes by their numbers,
/// and the slacks of endpoints by the numbers of their pins.
#[derive(Drop)]
pub struct Analysis {
    pub(crate) graph: Graph,
    pub(crate) arrivals: Arrivals,
    pub(crate) required: Required,
    pub(crate) tree: Held<ClockTree>,
    pub(crate) ends: Items<EndSlacks>,
}

impl Model for Analysis {
    ghost use Rattle.affected_cone.specs.Analysed.{Analysed, IsAnalysis, IsKept};

    ghost Value = { Analysed };

    ghost view = { λ a. record {
      stored = a.graph.stored;
      rows = a.arrivals.rows;
      backs = a.required.rows;
      ends =
          a.ends;
    } };

    ghost invariant = { λ a. IsAnalysis (record { stored = a.graph.stored; rows = a.arrivals.rows; backs = a.required.rows; ends = a.ends })
        × IsKept a.graph a.arrivals a.required.rows a.tree };
}

impl Analysis {
    /// The analysis of a sound store, from nothing: slews, arrivals and required times level by level,
    /// each level's nodes shared between that many threads and the gate called as each piece of a level
    /// begins, then the slacks of endpoints by one search for each endpoint and kind, shared between as
    /// many threads as there are processors. The rows are the same whatever the number of workers.
    /// `OutOfRange` exactly where a quantity leaves its limit, at a net or a pin where that begins.
    pub fn full<H: Threads + Sync, G: Gate>(
        rt: &H,
        alloc: Global,
        store: &Store,
        graph: Graph,
        workers: u32,
        gate: &G,
    ) -> Result<Analysis, Fault>
        requires some { 1 ≤ workers }
        requires most { workers ≤ 32 }
        requires sound { IsSound store.now.design }
        requires graph { graph.stored ≡ store.now }
        ensures analysis { IfOk result (λ analysis. analysis.stored ≡ store.now) }
        ensures refused { IfErr result (IsRangeFault store.now.design) }
    {
        store.laws();
        graph.laws();
        match find_all(rt, alloc, store, &graph, workers, gate) {
            Ok(found) => Ok(Analysis {
                graph,
                arrivals: found.arrivals,
                required: found.required,
                tree: found.tree,
                ends: found.ends,
            }),
            Err(fault) => {
                graph.discard();
                Err(fault)
            }
        }
    }

    /// The analysis of the store that an ECO made of this analysis's store; `touched` is what the ECO
    /// touched. Its rows are those of the full analysis of the edited store (`alike`). What the ECO does
    /// not lead to is shared with this analysis: slews and arrivals are evaluated where the ECO touched
    /// something or those before are others, required times where something after them is other, slacks
    /// where walks lead from what it touched, the clock tree where the ECO reaches a node of the clock network or
    /// changes the network. Each evaluation of a node's arrivals or required times is a step: as many as
    /// nodes that the ECO affects forward and those that it affects backward, each once; where the update is
    /// refused, at most as many. Workers and faults as `full` has them.
    pub fn update<H: Threads + Sync, G: Gate, L>(
        &self,
        rt: &H,
        alloc: Global,
        store: &Store,
        graph: Graph,
        touched: &Touched,
        workers: u32,
        gate: &G,
        steps: &mut Steps<L>,
    ) -> Result<Analysis, Fault>
        requires some { 1 ≤ workers }
        requires most { workers ≤ 32 }
        requires sound { IsSound store.now.design }
        requires graph { graph.stored ≡ store.now }
        requires made { IsEditOf self.now.stored
            (record { insts = touched.now.insts; nets = touched.now.nets }) store.now }
        ensures analysis { IfOk result (λ analysis. analysis.stored ≡ store.now) }
        ensures least { OnOk result
            (steps.old + forward_count self.now.stored.design store.now.design
            (record { insts = touched.now.insts; nets = touched.now.nets }) ≤ steps.new) }
        ensures rises { steps.old ≤ steps.new }
        ensures most { steps.new ≤ steps.old + forward_count self.now.stored.design store.now.design
            (record { insts = touched.now.insts; nets = touched.now.nets }) + backward_count
            self.now.stored.design store.now.design
            (record { insts = touched.now.insts; nets = touched.now.nets }) }
        ensures exact { OnOk result
            (steps.new
            ≡ steps.old + forward_count self.now.stored.design store.now.design
            (record { insts = touched.now.insts; nets = touched.now.nets }) + backward_count
            self.now.stored.design store.now.design
            (record { insts = touched.now.insts; nets = touched.now.nets })) }
        ensures refused { IfErr result (IsRangeFault store.now.design) }
    {
        store.laws();
        graph.laws();
        let base = Base {
            graph: &self.graph,
            arrivals: &self.arrivals,
            required: &self.required,
            tree: &self.tree,
            ends: self.ends.as_slice(),
        };
        match find_after(
            rt, alloc, &base, store, &graph, touched, workers, gate, steps,
        ) {
            Ok(found) => Ok(Analysis {
                graph,
                arrivals: found.arrivals,
                required: found.required,
                tree: found.tree,
                ends: found.ends,
            }),
            Err(fault) => {
                graph.discard();
                Err(fault)
            }
        }
    }

    /// What every analysis keeps, told to the proofs of callers; the call does nothing.
    pub fn laws(&self)
        ensures { IsAnalysis self.now }
    {
        let _ = &self.ends;
    }

    /// Two analyses of one store have the same rows and slacks, told to the proofs of callers; the call
    /// does nothing.
    pub fn alike(&self, other: &Analysis)
        requires { self.now.stored ≡ other.now.stored }
        ensures { self.now ≡ other.now }
    {
        let _ = &self.ends;
        let _ = &other.ends;
    }

    /// The graph of the analysis.
    pub fn graph(&self) -> &Graph
        ensures { result.now.stored ≡ self.now.stored }
    {
        &self.graph
    }

    /// What paths are searched over: the store with the graph, the arrivals and the clock tree of the
    /// analysis. Takes no memory.
    pub fn search<'a>(&'a self, store: &'a Store) -> Search<'a>
        requires { store.now ≡ self.now.stored }
        ensures store { result.store.now ≡ store.now }
        ensures search { IsSearch result }
    {
        Search {
            store,
            graph: &self.graph,
            arrivals: &self.arrivals,
            tree: self.tree.get(),
        }
    }

    /// The worst slack (none where there is none) and the total negative slack of both kinds, in fs,
    /// with a version's number. The slacks of endpoints are gone through once for each; no path is
    /// searched for.
    pub fn totals(&self, number: u64) -> Totals
        ensures { AreTotals self.now.stored.design number result }
    {
        totals_of(number, self.ends.as_slice())
    }
}

/// The answer to a plain question, for the store of the analysis. A report on a node, an endpoint's slack
/// and the totals are looked up or summed; a path is searched for. `UnknownPin`, else `NotEndpoint`,
/// else `NotClocked` exactly where the question's pin is not there, is no endpoint, or is a
/// register's pin that is not clocked for the kind.
pub fn ask(
    alloc: Global,
    store: &Store,
    analysis: &Analysis,
    q: &Query,
) -> Result<Report, QueryFault>
    requires store { store.now ≡ analysis.now.stored }
    requires plain { is_plain q.now ≡ true }
    ensures told { IfOk result (Told analysis.now.stored.design q.now) }
    ensures refused { IfErr result
        (λ fault. (fault ≡ QueryFault.Memory)
        ⊎ (query_fault analysis.now.stored.design q.now ≡ Some fault)) }
{
    let known = Known {
        store,
        graph: &analysis.graph,
        arrivals: &analysis.arrivals,
        required: &analysis.required,
        tree: analysis.tree.get(),
        ends: analysis.ends.as_slice(),
    };
    answer(alloc, &known, q)
}
