//! The checks of a whole design, in the order of their codes; and the same after an ECO.

ghost use Rattle.std.specs.Prelude.{◌≡◌, None, IfOk, IfErr, OnOk};
ghost use Rattle.timing_rules.specs.Checks.{IsSound, clock_not_tree, HasNoLoop};
ghost use Rattle.timing_defs.specs.NetChecks.{net_fault};
ghost use Rattle.netlist_store.specs.Linked.{IsSized};
ghost use Rattle.netlist_store.specs.Applying.{IsChecked, IsEditOf};
ghost use Rattle.pin_graph.specs.Refusals.{IsGraphRefused};
ghost use Rattle.design_link.specs.After.{link_data_fault};
ghost use Rattle.eco_analysis.specs.Soundness.{IsUnsound, IsSoundEdit};

use design_link::{check_data, check_data_after, check_nets, check_nets_after};
use netlist_store::{Store, Touched};
use pin_graph::Graph;
use std::alloc::Global;
use std::thread::{Threads, join};
use timing_defs::Fault;

/// The timing graph of a design, and what the checks of its data answer.
struct Looked {
    graph: Result<Graph, Fault>,
    checked: Result<(), Fault>,
}

/// The timing graph of a design whose nets are sound, and what the checks of its data answer, which a
/// thread of their own makes beside it.
fn graph_beside_data<H: Threads + Sync>(rt: &H, alloc: Global, store: &Store) -> Looked
    requires { net_fault store.now.design ≡ None }
    ensures graph { IfOk result.graph (λ graph. graph.stored ≡ store.now) }
    ensures refused { IfErr result.graph (IsGraphRefused store.now.design) }
    ensures checked { IsChecked result.checked (link_data_fault store.now.design) }
{
    let checks = move || -> Result<(), Fault>
        requires { net_fault store.now.design ≡ None }
        ensures { IsChecked result (link_data_fault store.entry.now.design) }
    { check_data(alloc, store) };
    let found = move || -> Result<Graph, Fault>
        requires { net_fault store.now.design ≡ None }
        ensures graph { IfOk result (λ graph. graph.stored ≡ store.entry.now) }
        ensures refused { IfErr result (IsGraphRefused store.entry.now.design) }
    { Graph::of(alloc, store) };
    let (checked, graph) = join(rt, checks, found);
    Looked { graph, checked }
}

/// A timing graph of a design whose nets are sound, or the first fault of its data by the answer of their checks.
#[tactic(auto, using(crate::proofs::SoundLaws::data_sound, crate::proofs::SoundLaws::data_refused))]
fn checked_graph(graph: Graph, checked: Result<(), Fault>) -> Result<Graph, Fault>
    requires nets { net_fault graph.stored.design ≡ None }
    requires checked { IsChecked checked (link_data_fault graph.stored.design) }
    ensures graph { IfOk result (λ got. got.stored ≡ graph.stored) }
    ensures sound { OnOk result (IsSound graph.stored.design) }
    ensures refused { IfErr result (IsUnsound graph.stored.design) }
{
    graph.laws();
    match checked {
        Ok(()) => Ok(graph),
        Err(fault) => {
            graph.discard();
            Err(fault)
        }
    }
}

/// The timing graph of a sound design. Another is refused by the first fault of the order too large
/// (`E17`), two drivers (`E10`), a loop (`E11`), a clock network that is no tree (`E12`), a constraint
/// on nothing (`E13`), parasitics that are no tree (`E14`) or of other pins (`E15`). Takes as many steps
/// as the design has pins, nets, parasitics and constraints and its cells have arcs; those of the last
/// three faults are made by a thread beside that which makes the graph.
pub fn sound_graph<H: Threads + Sync>(rt: &H, alloc: Global, store: &Store) -> Result<Graph, Fault>
    ensures graph { IfOk result (λ graph. graph.stored ≡ store.now) }
    ensures sound { OnOk result (IsSound store.now.design) }
    ensures sized { OnOk result (IsSized store.now.design) }
    ensures refused { IfErr result (IsUnsound store.now.design) }
{
    check_nets(alloc, store)?;
    let Looked { graph, checked } = graph_beside_data(rt, alloc, store);
    let graph = graph?;
    checked_graph(graph, checked)
}

/// The checks of the nets of a design that an ECO made of a sound one.
#[tactic(auto, using(crate::proofs::SoundLaws::nets_sound, crate::proofs::SoundLaws::nets_refused))]
fn check_nets_edited(alloc: Global, store: &Store, touched: &Touched) -> Result<(), Fault>
    requires { IsSoundEdit touched.now.nets store.now.design }
    ensures nets { OnOk result (net_fault store.now.design ≡ None) }
    ensures refused { IfErr result (IsUnsound store.now.design) }
{
    check_nets_after(alloc, store, touched)
}

/// The checks of the data of a design that an ECO made of a sound one, and whose nets and graph are sound.
#[tactic(auto, using(crate::proofs::SoundLaws::data_edited_sound, crate::proofs::SoundLaws::data_edited_refused))]
fn check_last_edited(alloc: Global, store: &Store, touched: &Touched) -> Result<(), Fault>
    requires edit { IsSoundEdit touched.now.nets store.now.design }
    requires nets { net_fault store.now.design ≡ None }
    requires no_loop { HasNoLoop store.now.design }
    requires tree { clock_not_tree store.now.design ≡ None }
    ensures sound { OnOk result (IsSound store.now.design) }
    ensures refused { IfErr result (IsUnsound store.now.design) }
{
    check_data_after(alloc, store, touched)
}

/// The timing graph of a sound design that an ECO made of a sound one, as `sound_graph` has it; `base` is
/// the graph before the ECO, and `touched` what it touched. Nets and parasitics are looked at where the
/// ECO touched them, and of the constraints the exceptions.
pub(crate) fn sound_graph_edited(
    alloc: Global,
    base: &Graph,
    store: &Store,
    touched: &Touched,
) -> Result<Graph, Fault>
    requires edit { IsSoundEdit touched.now.nets store.now.design }
    requires applied { IsEditOf base.now.stored
        (record { insts = touched.now.insts; nets = touched.now.nets }) store.now }
    ensures graph { IfOk result (λ graph. graph.stored ≡ store.now) }
    ensures sound { OnOk result (IsSound store.now.design) }
    ensures refused { IfErr result (IsUnsound store.now.design) }
{
    check_nets_edited(alloc, store, touched)?;
    let graph = base.update(alloc, store, touched)?;
    graph.laws();
    check_last_edited(alloc, store, touched)?;
    Ok(graph)
}
