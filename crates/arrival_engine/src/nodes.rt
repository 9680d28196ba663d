//! The evaluation of one node.

ghost use Rattle.std.specs.Prelude.{ℕ, ◌≡◌, ◌+◌, ◌<◌, [], true, false, All, length, IfOk, IfErr};
ghost use Rattle.timing_rules.specs.Checks.{IsSound};
ghost use Rattle.timing_rules.specs.Rows.{empty_row};
ghost use Rattle.netlist_store.specs.Numbering.{is_number};
ghost use Rattle.level_workers.specs.Mapped.{IsMap};
ghost use Rattle.pin_graph.specs.Nodes.{node_bound, pin_under};
ghost use Rattle.pin_graph.specs.Graphs.{fan_at};
ghost use Rattle.arc_delays.specs.Delays.{AreInto};
ghost use Rattle.arrival_engine.specs.Analysed.{AreTables, IsNodeRow, IsNodeFault, AreReady, IsPlan, place_told, with_sources, IsBefore, IsThere};

use crate::tables::Arrivals;
use arc_delays::ArcDelay;
use cow_table::{CowTable, Held};
use netlist_store::Store;
use node_rows::{Before, BothDelays, NodeAt, Setting, node_row};
use pin_graph::{Graph, GraphArc};
use sta_units::{Memory, Steps};
use std::alloc::Global;
use timing_defs::{EdgeTimes, Fault, Items, NodeRow};

/// The row of a node, and the delays of the arcs into it.
#[derive(Drop)]
pub(crate) struct NodeAnswer {
    pub(crate) row: NodeRow,
    pub(crate) delays: Held<Items<ArcDelay>>,
}

/// The row of a number that is of no node.
pub(crate) fn empty_row(alloc: Global) -> NodeRow
    ensures { result ≡ empty_row }
{
    NodeRow {
        early_slew: None,
        late_slew: None,
        early: EdgeTimes::new(alloc),
        late: EdgeTimes::new(alloc),
    }
}

/// What is answered for a number that is of no node: an empty row, and no delays.
pub(crate) fn no_answer(alloc: Global) -> Result<NodeAnswer, Memory>
    ensures row { IfOk result (λ found. found.row ≡ empty_row) }
    ensures delays { IfOk result (λ found. found.delays ≡ []) }
{
    let delays = Held::of(alloc, Items::new(alloc))?;
    Ok(NodeAnswer {
        row: empty_row(alloc),
        delays,
    })
}

/// A node by its pin's number; none of a gap.
fn place_of(graph: &Graph, node: u32) -> Option<NodeAt>
    requires { node < node_bound graph.now.stored }
    ensures { result ≡ place_told graph.now node }
{
    let pin = graph.pin_of(node)?;
    Some(NodeAt {
        pin,
        tran: graph.tran_of(node),
        network: graph.is_network(node),
    })
}

/// The node from which an arc leads, with its row.
fn before<'a>(graph: &Graph, rows: &'a CowTable<NodeRow>, arc: &GraphArc) -> Before<'a>
    requires { IsThere graph.now rows.now arc.now }
    ensures { IsBefore graph.now rows.now arc.now result }
{
    match place_of(graph, arc.from) {
        Some(node) => Before {
            node,
            row: rows.get(arc.from as usize),
        },
        None => unreachable!(),
    }
}

/// The nodes from which arcs lead to a node, with their rows, in time of the arcs.
fn befores<'a>(
    alloc: Global,
    graph: &Graph,
    rows: &'a CowTable<NodeRow>,
    node: u32,
) -> Result<Vec<Before<'a>>, Memory>
    requires node { node < node_bound graph.now.stored }
    requires arcs { All (IsThere graph.now rows.now) (fan_at graph.now.ins node) }
    ensures { IfOk result
        (λ found. IsMap (IsBefore graph.now rows.now) (fan_at graph.now.ins node) found.items) }
{
    let arcs = graph.arcs_in(node);
    let mut found = Vec::with_capacity(alloc, arcs.len())?;
    for arc in arcs {
        found.push(before(graph, rows, arc))?;
    }
    Ok(found)
}

/// The delays of arcs, each with the node from which its arc leads.
fn sourced(
    alloc: Global,
    arcs: &[GraphArc],
    delays: &[BothDelays],
) -> Result<Held<Items<ArcDelay>>, Memory>
    requires { length delays.now ≡ length arcs.now }
    ensures { IfOk result (λ all. all ≡ with_sources arcs.now delays.now) }
{
    let mut all = Items::with_room(alloc, arcs.len())?;
    for (at, arc) in arcs.iter().enumerate() {
        let delay = delays[at];
        all.push(ArcDelay {
            from: arc.from,
            early: delay.early,
            late: delay.late,
        })?;
    }
    Held::of(alloc, all)
}

/// The row of a node over the rows of the nodes before it, with the delays of the arcs into it, counted
/// as one step, in time of its arcs; an empty row and no delays of a number that is of no node.
/// `OutOfRange` at the node's pin where a quantity that the node brings leaves its limit.
pub(crate) fn evaluated<L>(
    alloc: Global,
    setting: &Setting<'_>,
    graph: &Graph,
    rows: &CowTable<NodeRow>,
    node: u32,
    steps: &mut Steps<L>,
) -> Result<NodeAnswer, Fault>
    requires plan { IsPlan setting.now graph.now }
    requires node { node < node_bound graph.now.stored }
    requires ready { AreReady graph.now rows.now node }
    ensures row { IfOk result (λ found. IsNodeRow graph.now.stored node found.row) }
    ensures delays { IfOk result (λ found. AreInto graph.now node found.delays) }
    ensures err { IfErr result (IsNodeFault graph.now.stored node) }
    ensures steps { steps.new ≡ steps.old + 1 }
{
    steps.tick();
    setting.store.laws();
    graph.laws();
    match place_of(graph, node) {
        None => Ok(no_answer(alloc)?),
        Some(to) => {
            let found = befores(alloc, graph, rows, node)?;
            let told = node_row(alloc, setting, to, found.as_slice())?;
            let delays = sourced(alloc, graph.arcs_in(node), told.delays.as_slice())?;
            Ok(NodeAnswer {
                row: told.row,
                delays,
            })
        }
    }
}

/// The row of a node over the rows of the nodes before it, counted as one step, in time of its arcs; an
/// empty row of a number that is of no node. `OutOfRange` at the node's pin where a slew or a delay of
/// an arc, the slew or an arrival of the node, in fs, leaves its limit.
pub fn eval_node<L>(
    alloc: Global,
    store: &Store,
    graph: &Graph,
    rows: &Arrivals,
    node: u32,
    steps: &mut Steps<L>,
) -> Result<NodeRow, Fault>
    requires sound { IsSound store.now.design }
    requires graph { graph.now.stored ≡ store.now }
    requires tables { AreTables store.now rows.now }
    requires node { node < node_bound store.now }
    requires ready { AreReady graph.now rows.now.rows node }
    ensures row { IfOk result (IsNodeRow store.now node) }
    ensures err { IfErr result (IsNodeFault store.now node) }
    ensures steps { steps.new ≡ steps.old + 1 }
{
    let setting = rows.setting(store);
    let found = evaluated(alloc, &setting, graph, &rows.rows, node, steps)?;
    Ok(found.row)
}
