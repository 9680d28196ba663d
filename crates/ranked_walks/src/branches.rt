//! Classes of walks that are not given yet, each with its first walk.

ghost use Rattle.std.specs.Prelude.{◌≡◌, ◌++◌, ◌∷◌, [], ◌<◌, ◌≤◌, ◌^◌, unsigned_abs, length, IfOk, OnOk, None};
ghost use Rattle.worst_walks.specs.Walks.{most_nodes, count_of, IsCone};
ghost use Rattle.worst_walks.specs.Tables.{row_in, IsBounded};
ghost use Rattle.ranked_walks.specs.Branches.{branch_by, start_by};
ghost use Rattle.ranked_walks.specs.Outs.{best_free, outs_in, rows_at, AreTables};
ghost use Rattle.ranked_walks.specs.Searching.{room_by, part_by, again_kept, made_list};
ghost use Rattle.ranked_walks.specs.Fitting.{IsFine, IsRoomy, IsFit, IsAgainFit};

use crate::outs::best_free;
use smallvec::SmallVec;
use sta_units::Memory;
use std::alloc::Global;
use std::marker::Model;
use timing_defs::Items;
use worst_walks::{Cone, Entry, Launch, Walk, WalkOrder, row_at};

/// An arc out of a node, with its delay in fs.
#[derive(Clone, Copy, Default, Drop)]
pub(crate) struct OutArc {
    pub(crate) to: u32,
    pub(crate) delay: i64,
}

/// The arcs out of a node, in order. Up to two stand in place, more in a block of their own. Contracts
/// see the list.
#[derive(Drop)]
pub(crate) struct OutArcs {
    arcs: SmallVec<OutArc, 2>,
}

impl Model for OutArcs {
    ghost use Rattle.std.specs.Prelude.{List};
    ghost use Rattle.ranked_walks.specs.declared.branches.OutArc.{OutArc};

    ghost Value = { List OutArc };

    ghost view = { λ outs. outs.arcs.items };
}

impl OutArcs {
    /// No arcs. Takes no memory.
    pub(crate) fn new(alloc: Global) -> OutArcs
        ensures { result ≡ [] }
    {
        OutArcs {
            arcs: SmallVec::new(alloc),
        }
    }

    pub(crate) fn as_slice(&self) -> &[OutArc]
        ensures { result.now ≡ self.now }
    {
        self.arcs.as_slice()
    }

    /// Adds an arc at the end.
    pub(crate) fn push(&mut self, arc: OutArc) -> Result<(), Memory>
        ensures { OnOk result (self.new ≡ self.old ++ arc ∷ []) }
    {
        match self.arcs.push(arc) {
            Ok(()) => Ok(()),
            Err(_) => Err(Memory),
        }
    }
}

/// The arcs out of each node of a cone, and for each end node the table of the best walks to it.
#[derive(Drop)]
pub(crate) struct Tables {
    pub(crate) outs: Items<OutArcs>,
    pub(crate) rows: Items<Items<Option<Entry>>>,
}

/// The nodes to which the walks of a class do not go on. Up to four stand in place, more in a block of their
/// own. Contracts see the list.
#[derive(Drop)]
pub(crate) struct Barred {
    nodes: SmallVec<u32, 4>,
}

impl Model for Barred {
    ghost use Rattle.std.specs.Prelude.{List, ℕ};

    ghost Value = { List ℕ };

    ghost view = { λ barred. barred.nodes.items };
}

impl Barred {
    /// No nodes. Takes no memory.
    fn none(alloc: Global) -> Barred
        ensures { result ≡ [] }
    {
        Barred {
            nodes: SmallVec::new(alloc),
        }
    }

    pub(crate) fn as_slice(&self) -> &[u32]
        ensures { result.now ≡ self.now }
    {
        self.nodes.as_slice()
    }

    /// Adds a node at the end.
    fn push(&mut self, node: u32) -> Result<(), Memory>
        ensures { OnOk result (self.new ≡ self.old ++ node ∷ []) }
    {
        match self.nodes.push(node) {
            Ok(()) => Ok(()),
            Err(_) => Err(Memory),
        }
    }
}

/// The walks from a launch to an end node whose first `kept` nodes are those of the walk given as
/// number `source` and whose next node is not barred. The first of them in order has this slack and
/// goes on to `next`, and from there as the table leads. `room` is what the kept nodes leave of the
/// launch's offer. Slack and room are in fs.
#[derive(Drop)]
pub(crate) struct Branch {
    pub(crate) slack: i64,
    pub(crate) room: i64,
    pub(crate) end: u32,
    pub(crate) launch: u32,
    pub(crate) source: usize,
    pub(crate) kept: usize,
    pub(crate) next: u32,
    pub(crate) barred: Barred,
}

/// A class of walks by the nodes that it keeps of a given walk, the arcs out of the last of which are
/// looked at.
#[derive(Clone, Copy, Drop)]
struct Stem {
    end: u32,
    launch: u32,
    source: usize,
    kept: usize,
    node: u32,
    room: i64,
}

impl Tables {
    /// The table of the end node at a place.
    pub(crate) fn rows_of(&self, place: u32) -> &[Option<Entry>]
        requires { place < length self.now.rows }
        ensures { result.now ≡ rows_at self.now place }
    {
        self.rows.as_slice()[place as usize].as_slice()
    }

    /// The arcs out of a node.
    fn outs_of(&self, node: u32) -> &[OutArc]
        requires { node < length self.now.outs }
        ensures { result.now ≡ outs_in self.now.outs node }
    {
        self.outs.as_slice()[node as usize].as_slice()
    }
}

/// The branch of all walks from a launch to an end node; none where there is no walk.
pub(crate) fn start_by(
    alloc: Global,
    rows: &[Option<Entry>],
    end: u32,
    place: u32,
    launch: &Launch,
) -> Option<Branch>
    requires offer { unsigned_abs launch.now.offer ≤ 10 ^ 18 }
    requires bounded { IsBounded most_nodes (row_in rows.now launch.now.node) }
    ensures { result ≡ start_by end place launch.now (row_in rows.now launch.now.node) }
{
    match row_at(rows, launch.node) {
        None => None,
        Some(entry) => Some(Branch {
            slack: launch.offer - entry.total,
            room: launch.offer,
            end,
            launch: place,
            source: 0,
            kept: 0,
            next: launch.node,
            barred: Barred::none(alloc),
        }),
    }
}

/// The branch of a class whose best way on is this entry.
fn branch_by(stem: Stem, barred: Barred, entry: Option<Entry>) -> Option<Branch>
    requires { IsFine stem.room entry }
    ensures { result ≡ branch_by stem.end stem.launch stem.source stem.kept stem.room barred entry }
{
    match entry {
        None => None,
        Some(found) => Some(Branch {
            slack: stem.room - found.total,
            room: stem.room,
            end: stem.end,
            launch: stem.launch,
            source: stem.source,
            kept: stem.kept,
            next: found.next,
            barred,
        }),
    }
}

/// The branch of a class.
fn branch_at<O: WalkOrder>(
    cone: &Cone,
    order: &O,
    tables: &Tables,
    stem: Stem,
    barred: Barred,
) -> Option<Branch>
    requires cone { IsCone cone.now }
    requires order { count_of cone.now ≤ O.count order.now }
    requires tables { AreTables (O.rank order.now) cone.now tables.now }
    requires end { stem.end < length cone.now.ends }
    requires node { stem.node < count_of cone.now }
    requires fits { IsFine stem.room
        (best_free (O.rank order.now) (rows_at tables.now stem.end) barred None
        (outs_in tables.now.outs stem.node)) }
    ensures { result
        ≡ branch_by stem.end stem.launch stem.source stem.kept stem.room barred
        (best_free (O.rank order.now) (rows_at tables.now stem.end) barred None
        (outs_in tables.now.outs stem.node)) }
{
    let rows = tables.rows_of(stem.end);
    let entry = best_free(order, rows, barred.as_slice(), tables.outs_of(stem.node));
    branch_by(stem, barred, entry)
}

/// What the first nodes of a walk leave of the launch's offer, where it goes on by an entry.
fn room_by(slack: i64, row: Option<Entry>) -> i64
    requires { IsRoomy slack row }
    ensures { result ≡ room_by slack row }
{
    match row {
        None => slack,
        Some(entry) => slack + entry.total,
    }
}

/// One node alone.
fn one_node(alloc: Global, node: u32) -> Result<Barred, Memory>
    ensures { IfOk result (λ nodes. nodes ≡ node ∷ []) }
{
    let mut nodes = Barred::none(alloc);
    nodes.push(node)?;
    Ok(nodes)
}

/// The branch of the walks that part from a walk right behind the node at a place, where the table
/// leads the walk on.
pub(crate) fn part_of<O: WalkOrder>(
    alloc: Global,
    cone: &Cone,
    order: &O,
    tables: &Tables,
    walk: &Walk,
    source: usize,
    last: usize,
) -> Result<Option<Branch>, Memory>
    requires cone { IsCone cone.now }
    requires order { count_of cone.now ≤ O.count order.now }
    requires tables { AreTables (O.rank order.now) cone.now tables.now }
    requires fit { IsFit (O.rank order.now) cone.now tables.now walk.now last }
    ensures { IfOk result
        (λ made. made ≡ part_by (O.rank order.now) tables.now walk.now source last) }
{
    let nodes = walk.nodes.as_slice();
    let node = nodes[last];
    let barred = one_node(alloc, nodes[last + 1])?;
    let stem = Stem {
        end: walk.end,
        launch: walk.launch,
        source,
        kept: last + 1,
        node,
        room: room_by(walk.slack, row_at(tables.rows_of(walk.end), node)),
    };
    Ok(branch_at(cone, order, tables, stem, barred))
}

/// The branch of the walks of a branch that part from its walk right behind the nodes that it keeps.
pub(crate) fn again_of<O: WalkOrder>(
    cone: &Cone,
    order: &O,
    tables: &Tables,
    walk: &Walk,
    source: usize,
    branch: Branch,
) -> Result<Option<Branch>, Memory>
    requires cone { IsCone cone.now }
    requires order { count_of cone.now ≤ O.count order.now }
    requires tables { AreTables (O.rank order.now) cone.now tables.now }
    requires fit { IsAgainFit (O.rank order.now) cone.now tables.now walk.now branch branch.kept }
    ensures { IfOk result
        (λ made. made
        ≡ again_kept (O.rank order.now) tables.now walk.now source branch branch.kept) }
{
    if branch.kept == 0 {
        return Ok(None);
    }
    let nodes = walk.nodes.as_slice();
    let stem = Stem {
        end: branch.end,
        launch: branch.launch,
        source,
        kept: branch.kept,
        node: nodes[branch.kept - 1],
        room: branch.room,
    };
    let mut barred = branch.barred;
    barred.push(nodes[branch.kept])?;
    Ok(branch_at(cone, order, tables, stem, barred))
}

/// Adds a branch, if there is one.
pub(crate) fn add(branches: &mut Vec<Branch>, made: Option<Branch>) -> Result<(), Memory>
    ensures { OnOk result (branches.new.items ≡ branches.old.items ++ made_list made) }
{
    match made {
        None => Ok(()),
        Some(branch) => Ok(branches.push(branch)?),
    }
}
