//! The arcs that a group of timing gives.

ghost use Rattle.std.specs.Prelude.{◌≡◌, ◌++◌, ◌∷◌, [], map, option_map, IfOk};
ghost use Rattle.liberty_cells.specs.Statements.{told, last};
ghost use Rattle.liberty_cells.specs.Cells.{other, kind_of, from_trans, trans_of, arc_from, arcs_to, table_named, table_of, delay_form, group_arcs, arcs_between, arcs_from, all_arcs};

use crate::axes::{Form, Purpose};
use crate::library_units::Known;
use crate::statements::groups;
use crate::templates::{Templates, read_table};
use crate::timing::{Sense, Timing, sense_of};
use sta_units::{Again, Memory, Pair, both};
use std::alloc::Global;
use timing_defs::{ArcKind, CellArc, Item, Items, Lexeme, Name, Table, Tran, Tree};

/// What a group of timing says of arcs.
#[derive(Drop)]
pub(crate) struct Arcs {
    pub(crate) timing: Timing,
    pub(crate) sense: Sense,
    pub(crate) rise_delay: Option<Table>,
    pub(crate) rise_slew: Option<Table>,
    pub(crate) fall_delay: Option<Table>,
    pub(crate) fall_slew: Option<Table>,
}

/// The table that a group writes.
fn table_named(
    alloc: Global,
    form: Form,
    templates: &Templates<'_>,
    items: &[Item],
    args: &[Lexeme],
) -> Result<Option<Table>, Memory>
    ensures { IfOk result
        (λ table. table ≡ table_named form (told templates.now.trees) items.now args.now) }
{
    let Some((name, _)) = args.split_first() else {
        return Ok(None);
    };
    match read_table(alloc, form, templates, name.text.as_slice(), items)? {
        Some(Ok(table)) => Ok(Some(table)),
        Some(Err(_)) | None => Ok(None),
    }
}

fn last_tree<'a>(found: &[&'a Tree]) -> Option<&'a Tree>
    ensures { option_map (λ t. t.now) result ≡ last (told found.now) }
{
    let mut tree = None;
    for next in found {
        tree = Some(*next);
    }
    tree
}

/// The last table of a name in a group of timing.
pub(crate) fn table_of(
    alloc: Global,
    form: Form,
    templates: &Templates<'_>,
    name: &[u8],
    group: &Tree,
) -> Result<Option<Table>, Memory>
    ensures { IfOk result
        (λ table. table ≡ table_of form (told templates.now.trees) name.now group.now) }
{
    let found = groups(alloc, group.items.as_slice(), name)?;
    let tree = last_tree(found.as_slice());
    drop(found);
    match tree {
        None => Ok(None),
        Some(tree) => table_named(
            alloc,
            form,
            templates,
            tree.items.as_slice(),
            tree.args.as_slice(),
        ),
    }
}

/// The tables of the delay and the slew at a transition.
#[derive(Drop)]
struct EdgeTables {
    delay: Option<Table>,
    slew: Option<Table>,
}

fn edge_tables(
    alloc: Global,
    known: Known,
    templates: &Templates<'_>,
    names: (&[u8], &[u8]),
    group: &Tree,
) -> Result<EdgeTables, Memory>
    ensures delay { IfOk result
        (λ tables. tables.delay
        ≡ table_of (delay_form known) (told templates.now.trees) names.entry.0.now group.now) }
    ensures slew { IfOk result
        (λ tables. tables.slew
        ≡ table_of (delay_form known) (told templates.now.trees) names.entry.1.now group.now) }
{
    let form = Form {
        purpose: Purpose::Delay,
        known,
    };
    let Pair {
        one: delay,
        other: slew,
    } = both(
        table_of(alloc, form, templates, names.0, group),
        table_of(alloc, form, templates, names.1, group),
    )?;
    Ok(EdgeTables { delay, slew })
}

/// What a group of timing says of arcs.
pub(crate) fn group_arcs(
    alloc: Global,
    known: Known,
    templates: &Templates<'_>,
    group: &Tree,
    timing: Timing,
) -> Result<Arcs, Memory>
    ensures { IfOk result
        (λ arcs. arcs ≡ group_arcs known (told templates.now.trees) group.now timing) }
{
    let sense = sense_of(alloc, group)?;
    let EdgeTables {
        delay: rise_delay,
        slew: rise_slew,
    } = edge_tables(
        alloc,
        known,
        templates,
        (b"cell_rise", b"rise_transition"),
        group,
    )?;
    let fall = edge_tables(
        alloc,
        known,
        templates,
        (b"cell_fall", b"fall_transition"),
        group,
    );
    match fall {
        Ok(
            EdgeTables {
                delay: fall_delay,
                slew: fall_slew,
            },
        ) => Ok(Arcs {
            timing,
            sense,
            rise_delay,
            rise_slew,
            fall_delay,
            fall_slew,
        }),
        Err(wanting) => {
            drop(rise_delay);
            drop(rise_slew);
            Err(wanting)
        }
    }
}

fn other(tran: Tran) -> Tran
    ensures { result ≡ other tran }
{
    match tran {
        Tran::Rise => Tran::Fall,
        Tran::Fall => Tran::Rise,
    }
}

fn kind_of(timing: Timing) -> ArcKind
    ensures { result ≡ kind_of timing }
{
    match timing {
        Timing::Between => ArcKind::Comb,
        Timing::From(_) | Timing::Test(_, _) => ArcKind::Edge,
    }
}

/// An arc of which the input transition is left open.
#[derive(Clone, Copy, Drop)]
struct Draft<'a> {
    timing: Timing,
    from: &'a Name,
    to: &'a Name,
    tran: Tran,
    delay: &'a Table,
    slew: &'a Table,
}

fn push_arc(
    alloc: Global,
    arcs: &mut Items<CellArc>,
    draft: &Draft<'_>,
    from_tran: Tran,
) -> Result<(), Memory>
    ensures { IfOk result
        (λ _. arcs.new
        ≡ arcs.old ++ arc_from draft.now.timing draft.now.from.now draft.now.to.now draft.now.tran
        draft.now.delay.now draft.now.slew.now from_tran ∷ []) }
{
    let Pair {
        one: ends,
        other: tables,
    } = both(
        both(draft.from.again(alloc), draft.to.again(alloc)),
        both(draft.delay.again(alloc), draft.slew.again(alloc)),
    )?;
    let Pair {
        one: from,
        other: to,
    } = ends;
    let Pair {
        one: delay,
        other: slew,
    } = tables;
    arcs.push(CellArc {
        from,
        from_tran,
        to,
        to_tran: draft.tran,
        kind: kind_of(draft.timing),
        delay,
        slew,
    })
}

/// Adds the arcs of a combinational draft.
fn push_sensed(
    alloc: Global,
    arcs: &mut Items<CellArc>,
    draft: &Draft<'_>,
    sense: Sense,
) -> Result<(), Memory>
    ensures { IfOk result
        (λ _. arcs.new
        ≡ arcs.old ++ map
        (arc_from draft.now.timing draft.now.from.now draft.now.to.now draft.now.tran
        draft.now.delay.now draft.now.slew.now) (from_trans sense draft.now.tran)) }
{
    match sense {
        Sense::Keeps => push_arc(alloc, arcs, draft, draft.tran),
        Sense::Inverts => push_arc(alloc, arcs, draft, other(draft.tran)),
        Sense::Any => {
            push_arc(alloc, arcs, draft, Tran::Rise)?;
            push_arc(alloc, arcs, draft, Tran::Fall)
        }
    }
}

/// Adds the arcs of a draft.
fn push_arcs(
    alloc: Global,
    arcs: &mut Items<CellArc>,
    draft: &Draft<'_>,
    sense: Sense,
) -> Result<(), Memory>
    ensures { IfOk result
        (λ _. arcs.new
        ≡ arcs.old ++ map
        (arc_from draft.now.timing draft.now.from.now draft.now.to.now draft.now.tran
        draft.now.delay.now draft.now.slew.now) (trans_of draft.now.timing sense draft.now.tran)) }
{
    match draft.timing {
        Timing::Between => push_sensed(alloc, arcs, draft, sense),
        Timing::From(edge) => push_arc(alloc, arcs, draft, edge),
        Timing::Test(_, _) => Ok(()),
    }
}

/// Adds the arcs between two pins to a rise.
fn add_rise(
    alloc: Global,
    arcs: &mut Items<CellArc>,
    group: &Arcs,
    from: &Name,
    to: &Name,
) -> Result<(), Memory>
    ensures { IfOk result
        (λ _. arcs.new
        ≡ arcs.old ++ arcs_to group.now.timing group.now.sense from.now to.now Tran.Rise
        group.now.rise_delay group.now.rise_slew) }
{
    let Some(delay) = &group.rise_delay else {
        return Ok(());
    };
    let Some(slew) = &group.rise_slew else {
        return Ok(());
    };
    let draft = Draft {
        timing: group.timing,
        from,
        to,
        tran: Tran::Rise,
        delay,
        slew,
    };
    push_arcs(alloc, arcs, &draft, group.sense)
}

/// Adds the arcs between two pins to a fall.
fn add_fall(
    alloc: Global,
    arcs: &mut Items<CellArc>,
    group: &Arcs,
    from: &Name,
    to: &Name,
) -> Result<(), Memory>
    ensures { IfOk result
        (λ _. arcs.new
        ≡ arcs.old ++ arcs_to group.now.timing group.now.sense from.now to.now Tran.Fall
        group.now.fall_delay group.now.fall_slew) }
{
    let Some(delay) = &group.fall_delay else {
        return Ok(());
    };
    let Some(slew) = &group.fall_slew else {
        return Ok(());
    };
    let draft = Draft {
        timing: group.timing,
        from,
        to,
        tran: Tran::Fall,
        delay,
        slew,
    };
    push_arcs(alloc, arcs, &draft, group.sense)
}

/// Adds the arcs between two pins, rise before fall.
fn add_between(
    alloc: Global,
    arcs: &mut Items<CellArc>,
    group: &Arcs,
    from: &Name,
    to: &Name,
) -> Result<(), Memory>
    ensures { IfOk result (λ _. arcs.new ≡ arcs.old ++ arcs_between group.now to.now from.now) }
{
    add_rise(alloc, arcs, group, from, to)?;
    add_fall(alloc, arcs, group, from, to)
}

/// Adds the arcs from these pins to one.
#[tactic(auto, using(std::proofs::lemmas::List::drop_more))]
fn add_from(
    alloc: Global,
    arcs: &mut Items<CellArc>,
    group: &Arcs,
    froms: &[Name],
    to: &Name,
) -> Result<(), Memory>
    ensures { IfOk result (λ _. arcs.new ≡ arcs.old ++ arcs_from group.now froms.now to.now) }
{
    for from in froms {
        add_between(alloc, arcs, group, from, to)?;
    }
    Ok(())
}

/// Adds the arcs from these pins to each of those.
#[tactic(auto, using(std::proofs::lemmas::List::drop_more))]
pub(crate) fn add_arcs(
    alloc: Global,
    arcs: &mut Items<CellArc>,
    group: &Arcs,
    froms: &[Name],
    tos: &[Name],
) -> Result<(), Memory>
    ensures { IfOk result (λ _. arcs.new ≡ arcs.old ++ all_arcs group.now froms.now tos.now) }
{
    for to in tos {
        add_from(alloc, arcs, group, froms, to)?;
    }
    Ok(())
}
