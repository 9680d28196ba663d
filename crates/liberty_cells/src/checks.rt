//! The checks of cells, pins, groups of timing and their tables.

ghost use Rattle.std.specs.Prelude.{◌≡◌, IfOk};
ghost use Rattle.std.specs.List.{flat_map};
ghost use Rattle.sta_text.specs.Faults.{least_from};
ghost use Rattle.liberty_cells.specs.Statements.{told};
ghost use Rattle.liberty_cells.specs.Cells.{pin_told, pins_told, timing_groups, delay_form, test_form};
ghost use Rattle.liberty_cells.specs.Faults.{form_faults, table_faults, tables_faults, delay_faults, need_faults, sense_faults, related_faults, type_faults, body_faults, reached_faults, typed_faults, timing_faults, direction_faults, load_of_pin_faults, pin_faults, pins_faults, cell_faults};

use crate::attributes::{Check, check_attribute, note, note_first, note_missing};
use crate::axes::{Form, Purpose};
use crate::library_units::Known;
use crate::names::{check_names, check_one_name, check_pin_count, check_pin_doubles};
use crate::pins::{Pin, pin_names, read_pins};
use crate::scope::Extent;
use crate::statements::groups;
use crate::templates::{Templates, read_table};
use crate::timing::{Timing, related, timing_of};
use sta_text::{Names, Wrong};
use sta_units::{Memory, Pair, Unit, both};
use std::alloc::Global;
use timing_defs::{Code, Dir, Item, Lexeme, Table, Tree};

/// Notes the fault of a table that was read.
#[tactic(auto, unfolding(sta_text::specs::Faults::least_from))]
fn note_read(
    best: Option<Wrong>,
    extent: Extent,
    table: &Tree,
    name: &Lexeme,
    read: Option<Result<Table, Code>>,
) -> Option<Wrong>
    ensures { result ≡ least_from best (form_faults extent table.now name.now read) }
{
    match read {
        None => {
            if extent.whole {
                return note(best, Code::LibertyUnknownTemplate, name);
            }
            best
        }
        Some(Ok(table)) => {
            drop(table);
            best
        }
        Some(Err(code)) => note(best, code, &table.word),
    }
}

/// What the checks of a cell need: the text's extent, the units that are known and the templates.
#[derive(Clone, Copy, Drop)]
pub(crate) struct Basis<'a, 'b> {
    pub(crate) extent: Extent,
    pub(crate) known: Known,
    pub(crate) templates: &'b Templates<'a>,
}

/// Checks a table.
#[tactic(auto, using(sta_text::proofs::FaultsLemmas::least_append))]
fn check_table(
    alloc: Global,
    best: Option<Wrong>,
    extent: Extent,
    form: Form,
    templates: &Templates<'_>,
    table: &Tree,
) -> Result<Option<Wrong>, Memory>
    ensures { IfOk result
        (λ least. least
        ≡ least_from best (table_faults extent form (told templates.now.trees) table.now)) }
{
    match table.args.as_slice().split_first() {
        None => Ok(note_missing(best, Code::LibertyUnknownTemplate, extent)),
        Some((name, rest)) => {
            let least = note_first(best, Code::LibertyBadToken, rest);
            let text = name.text.as_slice();
            let read = read_table(alloc, form, templates, text, table.items.as_slice())?;
            Ok(note_read(least, extent, table, name, read))
        }
    }
}

/// Checks the tables of a name in a group.
#[tactic(auto, unfolding(sta_text::specs::Faults::least_from), using(std::proofs::lemmas::List::drop_more, sta_text::proofs::FaultsLemmas::least_append))]
fn check_tables(
    alloc: Global,
    best: Option<Wrong>,
    extent: Extent,
    form: Form,
    templates: &Templates<'_>,
    name: &[u8],
    group: &Tree,
) -> Result<Option<Wrong>, Memory>
    ensures { IfOk result
        (λ least. least
        ≡ least_from best
        (tables_faults extent form (told templates.now.trees) name.now group.now)) }
{
    let found = groups(alloc, group.items.as_slice(), name)?;
    let mut least = best;
    for table in found.as_slice() {
        match check_table(alloc, least, extent, form, templates, *table) {
            Ok(next) => least = next,
            Err(wanting) => {
                drop(found);
                return Err(wanting);
            }
        }
    }
    drop(found);
    Ok(least)
}

/// Checks the tables of delays and slews of a group.
#[tactic(auto, unfolding(crate::specs::Faults::delay_faults), using(sta_text::proofs::FaultsLemmas::least_append))]
fn check_delays(
    alloc: Global,
    best: Option<Wrong>,
    extent: Extent,
    known: Known,
    templates: &Templates<'_>,
    group: &Tree,
) -> Result<Option<Wrong>, Memory>
    ensures { IfOk result
        (λ least. least
        ≡ least_from best
        (delay_faults extent (delay_form known) (told templates.now.trees) group.now)) }
{
    let form = Form {
        purpose: Purpose::Delay,
        known,
    };
    let rise = check_tables(alloc, best, extent, form, templates, b"cell_rise", group)?;
    let fall = check_tables(alloc, rise, extent, form, templates, b"cell_fall", group)?;
    let up = check_tables(
        alloc,
        fall,
        extent,
        form,
        templates,
        b"rise_transition",
        group,
    )?;
    check_tables(
        alloc,
        up,
        extent,
        form,
        templates,
        b"fall_transition",
        group,
    )
}

/// Checks the tables of setup or hold times of a group.
#[tactic(auto, unfolding(crate::specs::Faults::need_faults), using(sta_text::proofs::FaultsLemmas::least_append))]
fn check_needs(
    alloc: Global,
    best: Option<Wrong>,
    extent: Extent,
    known: Known,
    templates: &Templates<'_>,
    group: &Tree,
) -> Result<Option<Wrong>, Memory>
    ensures { IfOk result
        (λ least. least
        ≡ least_from best
        (need_faults extent (test_form known) (told templates.now.trees) group.now)) }
{
    let form = Form {
        purpose: Purpose::Constraint,
        known,
    };
    let rise = check_tables(
        alloc,
        best,
        extent,
        form,
        templates,
        b"rise_constraint",
        group,
    )?;
    check_tables(
        alloc,
        rise,
        extent,
        form,
        templates,
        b"fall_constraint",
        group,
    )
}

#[tactic(auto, unfolding(crate::specs::Faults::sense_faults))]
fn check_sense(alloc: Global, best: Option<Wrong>, items: &[Item]) -> Result<Option<Wrong>, Memory>
    ensures { IfOk result (λ least. least ≡ least_from best (sense_faults items.now)) }
{
    let code = Code::LibertyBadToken;
    check_attribute(alloc, best, code, Check::Sense, b"timing_sense", items)
}

/// Checks what is read of a group with a related pin of the cell.
#[tactic(auto, unfolding(crate::specs::Faults::body_faults), using(sta_text::proofs::FaultsLemmas::least_append))]
fn check_body(
    alloc: Global,
    best: Option<Wrong>,
    extent: Extent,
    known: Known,
    templates: &Templates<'_>,
    timing: Timing,
    group: &Tree,
) -> Result<Option<Wrong>, Memory>
    ensures { IfOk result
        (λ least. least
        ≡ least_from best (body_faults extent known (told templates.now.trees) timing group.now)) }
{
    match timing {
        Timing::Between => {
            let sense = check_sense(alloc, best, group.items.as_slice())?;
            check_delays(alloc, sense, extent, known, templates, group)
        }
        Timing::From(_) => check_delays(alloc, best, extent, known, templates, group),
        Timing::Test(_, _) => check_needs(alloc, best, extent, known, templates, group),
    }
}

/// Checks what is read of a group, where it has a related pin of the cell.
#[tactic(auto, unfolding(crate::specs::Faults::reached_faults, sta_text::specs::Faults::least_from))]
fn check_reached(
    alloc: Global,
    best: Option<Wrong>,
    basis: &Basis<'_, '_>,
    names: &Names<'_>,
    timing: Timing,
    group: &Tree,
) -> Result<Option<Wrong>, Memory>
    ensures { IfOk result
        (λ least. least
        ≡ least_from best
        (reached_faults basis.now.extent basis.now.known (told basis.now.templates.now.trees)
        names.now timing group.now)) }
{
    let found = related(alloc, names, group)?;
    let none = found.is_empty();
    drop(found);
    if none {
        return Ok(best);
    }
    check_body(
        alloc,
        best,
        basis.extent,
        basis.known,
        basis.templates,
        timing,
        group,
    )
}

#[tactic(auto, unfolding(crate::specs::Faults::related_faults))]
fn check_related(
    alloc: Global,
    best: Option<Wrong>,
    items: &[Item],
) -> Result<Option<Wrong>, Memory>
    ensures { IfOk result (λ least. least ≡ least_from best (related_faults items.now)) }
{
    let code = Code::LibertyBadToken;
    check_attribute(alloc, best, code, Check::OneToken, b"related_pin", items)
}

/// Checks a group of timing that is read, or is not.
#[tactic(auto, unfolding(crate::specs::Faults::typed_faults, sta_text::specs::Faults::least_from), using(sta_text::proofs::FaultsLemmas::least_append))]
fn check_typed(
    alloc: Global,
    best: Option<Wrong>,
    basis: &Basis<'_, '_>,
    names: &Names<'_>,
    timing: Option<Timing>,
    group: &Tree,
) -> Result<Option<Wrong>, Memory>
    ensures { IfOk result
        (λ least. least
        ≡ least_from best
        (typed_faults basis.now.extent basis.now.known (told basis.now.templates.now.trees)
        names.now group.now timing)) }
{
    match timing {
        None => Ok(best),
        Some(timing) => {
            let least = check_related(alloc, best, group.items.as_slice())?;
            check_reached(alloc, least, basis, names, timing, group)
        }
    }
}

#[tactic(auto, unfolding(crate::specs::Faults::type_faults))]
fn check_type(alloc: Global, best: Option<Wrong>, items: &[Item]) -> Result<Option<Wrong>, Memory>
    ensures { IfOk result (λ least. least ≡ least_from best (type_faults items.now)) }
{
    let code = Code::LibertyBadToken;
    check_attribute(alloc, best, code, Check::OneToken, b"timing_type", items)
}

/// Checks a group of timing.
#[tactic(auto, unfolding(crate::specs::Faults::timing_faults), using(sta_text::proofs::FaultsLemmas::least_append))]
fn check_timing(
    alloc: Global,
    best: Option<Wrong>,
    basis: &Basis<'_, '_>,
    names: &Names<'_>,
    dir: Dir,
    group: &Tree,
) -> Result<Option<Wrong>, Memory>
    ensures { IfOk result
        (λ least. least
        ≡ least_from best
        (timing_faults basis.now.extent basis.now.known (told basis.now.templates.now.trees)
        names.now dir group.now)) }
{
    let least = check_type(alloc, best, group.items.as_slice())?;
    let timing = timing_of(alloc, dir, group)?;
    check_typed(alloc, least, basis, names, timing, group)
}

/// Checks the groups of timing of a pin.
#[tactic(auto, unfolding(sta_text::specs::Faults::least_from), using(std::proofs::lemmas::List::drop_more, sta_text::proofs::FaultsLemmas::least_append))]
fn check_timings(
    alloc: Global,
    best: Option<Wrong>,
    basis: &Basis<'_, '_>,
    names: &Names<'_>,
    dir: Dir,
    found: &[&Tree],
) -> Result<Option<Wrong>, Memory>
    ensures { IfOk result
        (λ least. least
        ≡ least_from best
        (flat_map
        (timing_faults basis.now.extent basis.now.known (told basis.now.templates.now.trees)
        names.now dir) (told found.now))) }
{
    let mut least = best;
    for group in found {
        least = check_timing(alloc, least, basis, names, dir, *group)?;
    }
    Ok(least)
}

#[tactic(auto, unfolding(crate::specs::Faults::load_of_pin_faults))]
fn check_pin_load(
    alloc: Global,
    best: Option<Wrong>,
    unit: Option<Unit>,
    items: &[Item],
) -> Result<Option<Wrong>, Memory>
    ensures { IfOk result (λ least. least ≡ least_from best (load_of_pin_faults unit items.now)) }
{
    let code = Code::LibertyBadToken;
    let check = Check::Capacitance(unit);
    check_attribute(alloc, best, code, check, b"capacitance", items)
}

/// Checks the groups of timing of a pin.
fn check_pin_timings(
    alloc: Global,
    best: Option<Wrong>,
    basis: &Basis<'_, '_>,
    names: &Names<'_>,
    pin: &Pin<'_>,
) -> Result<Option<Wrong>, Memory>
    ensures { IfOk result
        (λ least. least
        ≡ least_from best
        (flat_map
        (timing_faults basis.now.extent basis.now.known (told basis.now.templates.now.trees)
        names.now pin.now.dir) (timing_groups pin.now.tree.now))) }
{
    let found = groups(alloc, pin.tree.items.as_slice(), b"timing")?;
    let least = check_timings(alloc, best, basis, names, pin.dir, found.as_slice());
    drop(found);
    least
}

/// Checks a pin that is read.
#[tactic(auto, unfolding(crate::specs::Faults::pin_faults), using(sta_text::proofs::FaultsLemmas::least_append))]
fn check_pin(
    alloc: Global,
    best: Option<Wrong>,
    basis: &Basis<'_, '_>,
    names: &Names<'_>,
    pin: &Pin<'_>,
) -> Result<Option<Wrong>, Memory>
    ensures { IfOk result
        (λ least. least
        ≡ least_from best
        (pin_faults basis.now.extent basis.now.known (told basis.now.templates.now.trees) names.now
        (pin_told pin.now))) }
{
    let named = check_names(best, basis.extent, pin.tree.args.as_slice());
    let load = check_pin_load(alloc, named, basis.known.cap, pin.tree.items.as_slice())?;
    check_pin_timings(alloc, load, basis, names, pin)
}

/// Checks the directions of pins.
#[tactic(auto, unfolding(sta_text::specs::Faults::least_from), using(std::proofs::lemmas::List::drop_more, sta_text::proofs::FaultsLemmas::least_append))]
fn check_directions(
    alloc: Global,
    best: Option<Wrong>,
    pins: &[&Tree],
) -> Result<Option<Wrong>, Memory>
    ensures { IfOk result
        (λ least. least ≡ least_from best (flat_map direction_faults (told pins.now))) }
{
    let mut least = best;
    for pin in pins {
        let items = pin.items.as_slice();
        let code = Code::LibertyBadToken;
        least = check_attribute(alloc, least, code, Check::Direction, b"direction", items)?;
    }
    Ok(least)
}

/// Checks each pin that is read.
#[tactic(auto, unfolding(sta_text::specs::Faults::least_from), using(std::proofs::lemmas::List::drop_more, sta_text::proofs::FaultsLemmas::least_append))]
fn check_each_pin(
    alloc: Global,
    best: Option<Wrong>,
    basis: &Basis<'_, '_>,
    names: &Names<'_>,
    pins: &[Pin<'_>],
) -> Result<Option<Wrong>, Memory>
    ensures { IfOk result
        (λ least. least
        ≡ least_from best
        (flat_map
        (pin_faults basis.now.extent basis.now.known (told basis.now.templates.now.trees) names.now)
        (pins_told pins.now))) }
{
    let mut least = best;
    for pin in pins {
        least = check_pin(alloc, least, basis, names, pin)?;
    }
    Ok(least)
}

/// Checks the pins of a cell that are read.
#[tactic(auto, unfolding(crate::specs::Faults::pins_faults), using(sta_text::proofs::FaultsLemmas::least_append))]
fn check_pins(
    alloc: Global,
    best: Option<Wrong>,
    basis: &Basis<'_, '_>,
    pins: &[Pin<'_>],
) -> Result<Option<Wrong>, Memory>
    ensures { IfOk result
        (λ least. least
        ≡ least_from best
        (pins_faults basis.now.extent basis.now.known (told basis.now.templates.now.trees)
        (pins_told pins.now))) }
{
    let doubles = check_pin_doubles(alloc, best, pins)?;
    let counted = check_pin_count(doubles, pins);
    let names = pin_names(alloc, pins)?;
    let least = check_each_pin(alloc, counted, basis, &names, pins);
    drop(names);
    least
}

/// Checks a cell.
#[tactic(auto, unfolding(crate::specs::Faults::cell_faults), using(sta_text::proofs::FaultsLemmas::least_append))]
fn check_cell(
    alloc: Global,
    best: Option<Wrong>,
    basis: &Basis<'_, '_>,
    cell: &Tree,
) -> Result<Option<Wrong>, Memory>
    ensures { IfOk result
        (λ least. least
        ≡ least_from best
        (cell_faults basis.now.extent basis.now.known (told basis.now.templates.now.trees)
        cell.now)) }
{
    let named = check_one_name(best, basis.extent, cell.args.as_slice());
    let found = groups(alloc, cell.items.as_slice(), b"pin")?;
    let directed = check_directions(alloc, named, found.as_slice());
    let pins = read_pins(alloc, found.as_slice());
    drop(found);
    let Pair {
        one: directed,
        other: pins,
    } = both(directed, pins)?;
    let least = check_pins(alloc, directed, basis, pins.as_slice());
    drop(pins);
    least
}

/// Checks the cells of a library.
#[tactic(auto, unfolding(sta_text::specs::Faults::least_from), using(std::proofs::lemmas::List::drop_more, sta_text::proofs::FaultsLemmas::least_append))]
pub(crate) fn check_cells(
    alloc: Global,
    best: Option<Wrong>,
    basis: &Basis<'_, '_>,
    cells: &[&Tree],
) -> Result<Option<Wrong>, Memory>
    ensures { IfOk result
        (λ least. least
        ≡ least_from best
        (flat_map
        (cell_faults basis.now.extent basis.now.known (told basis.now.templates.now.trees))
        (told cells.now))) }
{
    let mut least = best;
    for cell in cells {
        least = check_cell(alloc, least, basis, *cell)?;
    }
    Ok(least)
}
