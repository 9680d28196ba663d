//! The cells of a library.

ghost use Rattle.std.specs.Prelude.{◌≡◌, ◌++◌, ◌∷◌, [], map, option_map, IfOk, MatchOption};
ghost use Rattle.std.specs.List.{flat_map};
ghost use Rattle.liberty_cells.specs.Statements.{told};
ghost use Rattle.liberty_cells.specs.Cells.{pin_told, pins_told, pin_names, related, group_arcs, all_arcs, group_tests, all_tests, arcs_of, tests_of, pin_arcs, pin_tests, cap_in, cap_of_pin, cell_pin, cell_pins, first_name, cell_with, cell_in, names_in, texts_of, read_pins};

use crate::arcs::{add_arcs, group_arcs};
use crate::library_units::Known;
use crate::needs::{add_tests, group_tests};
use crate::numbers::number_or_zero;
use crate::pins::{Pin, pin_names, read_pins};
use crate::statements::{groups, text_of};
use crate::templates::Templates;
use crate::timing::{Timing, arg_names, names_in, related, timing_of};
use sta_text::Names;
use sta_units::{Af, Again, Memory, Pair, Unit, both};
use std::alloc::Global;
use timing_defs::{
    Cell, CellArc, CellPin, CellTest, Dir, Items, Kind, Lexeme, Library, Name, Tran, Tree,
};

/// What the groups of timing of a cell give.
#[derive(Drop)]
struct Given {
    arcs: Items<CellArc>,
    tests: Items<CellTest>,
}

/// The names of the related pins that are pins of the cell.
fn related_names(alloc: Global, names: &Names<'_>, group: &Tree) -> Result<Items<Name>, Memory>
    ensures { IfOk result (λ found. found ≡ names_in (related names.now group.now)) }
{
    let words = related(alloc, names, group)?;
    let found = names_in(alloc, words.as_slice());
    drop(words);
    found
}

/// Adds the arcs of a group.
fn add_group_arcs(
    alloc: Global,
    known: Known,
    templates: &Templates<'_>,
    names: &Names<'_>,
    args: &[Lexeme],
    group: &Tree,
    timing: Timing,
    arcs: &mut Items<CellArc>,
) -> Result<(), Memory>
    ensures { IfOk result
        (λ _. arcs.new
        ≡ arcs.old ++ all_arcs (group_arcs known (told templates.now.trees) group.now timing)
        (names_in (related names.now group.now)) (names_in (texts_of args.now))) }
{
    let ends = both(related_names(alloc, names, group), arg_names(alloc, args));
    let Pair {
        one: ends,
        other: read,
    } = both(ends, group_arcs(alloc, known, templates, group, timing))?;
    let added = add_arcs(
        alloc,
        arcs,
        &read,
        ends.one.as_slice(),
        ends.other.as_slice(),
    );
    drop(ends);
    drop(read);
    added
}

/// Adds the tests of a group.
fn add_group_tests(
    alloc: Global,
    known: Known,
    templates: &Templates<'_>,
    names: &Names<'_>,
    args: &[Lexeme],
    group: &Tree,
    edge: (Kind, Tran),
    tests: &mut Items<CellTest>,
) -> Result<(), Memory>
    ensures { IfOk result
        (λ _. tests.new
        ≡ tests.old ++ all_tests
        (group_tests known (told templates.now.trees) group.now edge.0 edge.1)
        (names_in (related names.now group.now)) (names_in (texts_of args.now))) }
{
    let ends = both(related_names(alloc, names, group), arg_names(alloc, args));
    let Pair {
        one: ends,
        other: needs,
    } = both(
        ends,
        group_tests(alloc, known, templates, group, edge.0, edge.1),
    )?;
    let added = add_tests(
        alloc,
        tests,
        &needs,
        ends.one.as_slice(),
        ends.other.as_slice(),
    );
    drop(ends);
    drop(needs);
    added
}

/// Adds what a group of timing of a pin gives.
fn add_group(
    alloc: Global,
    known: Known,
    templates: &Templates<'_>,
    names: &Names<'_>,
    pin: &Pin<'_>,
    group: &Tree,
    given: &mut Given,
) -> Result<(), Memory>
    ensures arcs { IfOk result
        (λ _. given.new.arcs
        ≡ given.old.arcs ++ arcs_of known (told templates.now.trees) names.now (pin_told pin.now)
        group.now) }
    ensures tests { IfOk result
        (λ _. given.new.tests
        ≡ given.old.tests ++ tests_of known (told templates.now.trees) names.now (pin_told pin.now)
        group.now) }
{
    let args = pin.tree.args.as_slice();
    match timing_of(alloc, pin.dir, group)? {
        None => Ok(()),
        Some(Timing::Test(kind, edge)) => {
            add_group_tests(
                alloc,
                known,
                templates,
                names,
                args,
                group,
                (kind, edge),
                &mut given.tests,
            )
        }
        Some(timing) => {
            add_group_arcs(
                alloc,
                known,
                templates,
                names,
                args,
                group,
                timing,
                &mut given.arcs,
            )
        }
    }
}

/// Adds what the groups of timing of a pin give.
#[tactic(auto, using(std::proofs::lemmas::List::drop_more))]
fn add_pin_groups(
    alloc: Global,
    known: Known,
    templates: &Templates<'_>,
    names: &Names<'_>,
    pin: &Pin<'_>,
    given: &mut Given,
) -> Result<(), Memory>
    ensures arcs { IfOk result
        (λ _. given.new.arcs
        ≡ given.old.arcs ++ pin_arcs known (told templates.now.trees) names.now
        (pin_told pin.now)) }
    ensures tests { IfOk result
        (λ _. given.new.tests
        ≡ given.old.tests ++ pin_tests known (told templates.now.trees) names.now
        (pin_told pin.now)) }
{
    let found = groups(alloc, pin.tree.items.as_slice(), b"timing")?;
    for group in found.as_slice() {
        match add_group(alloc, known, templates, names, pin, *group, given) {
            Ok(()) => {}
            Err(wanting) => {
                drop(found);
                return Err(wanting);
            }
        }
    }
    drop(found);
    Ok(())
}

/// What the groups of timing of a cell's pins give.
#[tactic(auto, using(std::proofs::lemmas::List::drop_more))]
fn given_of(
    alloc: Global,
    known: Known,
    templates: &Templates<'_>,
    pins: &[Pin<'_>],
) -> Result<Given, Memory>
    ensures arcs { IfOk result
        (λ given. given.arcs
        ≡ flat_map (pin_arcs known (told templates.now.trees) (pin_names (pins_told pins.now)))
        (pins_told pins.now)) }
    ensures tests { IfOk result
        (λ given. given.tests
        ≡ flat_map (pin_tests known (told templates.now.trees) (pin_names (pins_told pins.now)))
        (pins_told pins.now)) }
{
    let names = pin_names(alloc, pins)?;
    let mut given = Given {
        arcs: Items::new(alloc),
        tests: Items::new(alloc),
    };
    for pin in pins {
        match add_pin_groups(alloc, known, templates, &names, pin, &mut given) {
            Ok(()) => {}
            Err(wanting) => {
                drop(names);
                drop(given);
                return Err(wanting);
            }
        }
    }
    drop(names);
    Ok(given)
}

/// The capacitance in aF that a text writes, 0 where it is not written.
#[tactic(auto, unfolding(crate::specs::Cells::cap_in))]
fn cap_in(unit: Option<Unit>, text: Option<&[u8]>) -> i64
    ensures { result ≡ cap_in unit (option_map (λ t. t.now) text.entry) }
{
    match text {
        None => 0,
        Some(text) => number_or_zero(unit, text),
    }
}

fn cap_of_pin(alloc: Global, unit: Option<Unit>, pin: &Tree) -> Result<i64, Memory>
    ensures { IfOk result (λ cap. cap ≡ cap_of_pin unit pin.now) }
{
    let text = text_of(alloc, pin.items.as_slice(), b"capacitance")?;
    Ok(cap_in(unit, text))
}

/// Adds a pin for each of these names.
#[tactic(auto, using(std::proofs::lemmas::List::drop_more))]
fn add_named_pins(
    alloc: Global,
    pins: &mut Items<CellPin>,
    dir: Dir,
    cap: i64,
    names: &[Name],
) -> Result<(), Memory>
    ensures { IfOk result (λ _. pins.new ≡ pins.old ++ map (cell_pin dir cap) names.now) }
{
    for name in names {
        pins.push(CellPin {
            name: name.again(alloc)?,
            dir,
            cap: Af(cap),
        })?;
    }
    Ok(())
}

/// Adds the pins of a pin group.
fn add_pins(
    alloc: Global,
    unit: Option<Unit>,
    pins: &mut Items<CellPin>,
    pin: &Pin<'_>,
) -> Result<(), Memory>
    ensures { IfOk result (λ _. pins.new ≡ pins.old ++ cell_pins unit (pin_told pin.now)) }
{
    let cap = cap_of_pin(alloc, unit, pin.tree)?;
    let names = arg_names(alloc, pin.tree.args.as_slice())?;
    let added = add_named_pins(alloc, pins, pin.dir, cap, names.as_slice());
    drop(names);
    added
}

/// The pins of a cell.
#[tactic(auto, using(std::proofs::lemmas::List::drop_more))]
fn cell_pins(alloc: Global, unit: Option<Unit>, pins: &[Pin<'_>]) -> Result<Items<CellPin>, Memory>
    ensures { IfOk result (λ found. found ≡ flat_map (cell_pins unit) (pins_told pins.now)) }
{
    let mut found = Items::new(alloc);
    for pin in pins {
        match add_pins(alloc, unit, &mut found, pin) {
            Ok(()) => {}
            Err(wanting) => {
                drop(found);
                return Err(wanting);
            }
        }
    }
    Ok(found)
}

/// A cell of this name with these pins.
fn cell_with(
    alloc: Global,
    known: Known,
    templates: &Templates<'_>,
    pins: &[Pin<'_>],
    name: Name,
) -> Result<Cell, Memory>
    ensures { IfOk result
        (λ cell. cell ≡ cell_with known (told templates.now.trees) (pins_told pins.now) name) }
{
    let read = both(
        cell_pins(alloc, known.cap, pins),
        given_of(alloc, known, templates, pins),
    );
    match read {
        Ok(read) => {
            let Pair {
                one: pins,
                other: given,
            } = read;
            let Given { arcs, tests } = given;
            Ok(Cell {
                name,
                pins,
                arcs,
                tests,
            })
        }
        Err(wanting) => {
            drop(name);
            Err(wanting)
        }
    }
}

/// The name of a cell, where it has one.
fn first_name(alloc: Global, args: &[Lexeme]) -> Result<Option<Name>, Memory>
    ensures { IfOk result
        (λ found. MatchOption found (first_name args.now ≡ [])
        (λ name. first_name args.now ≡ name ∷ [])) }
{
    match args.split_first() {
        None => Ok(None),
        Some((first, _)) => Name::from_bytes(alloc, first.text.as_slice()),
    }
}

/// The pins of a cell that are read.
fn pins_in<'a>(alloc: Global, cell: &'a Tree) -> Result<Items<Pin<'a>>, Memory>
    ensures { IfOk result (λ pins. pins_told pins ≡ read_pins cell.entry.now) }
{
    let groups = groups(alloc, cell.items.as_slice(), b"pin")?;
    let pins = read_pins(alloc, groups.as_slice());
    drop(groups);
    pins
}

/// Adds a cell, where it has a name.
fn add_cell(
    alloc: Global,
    known: Known,
    templates: &Templates<'_>,
    cells: &mut Items<Cell>,
    cell: &Tree,
) -> Result<(), Memory>
    ensures { IfOk result
        (λ _. cells.new ≡ cells.old ++ cell_in known (told templates.now.trees) cell.now) }
{
    let Some(name) = first_name(alloc, cell.args.as_slice())? else {
        return Ok(());
    };
    match pins_in(alloc, cell) {
        Ok(pins) => {
            let read = cell_with(alloc, known, templates, pins.as_slice(), name);
            drop(pins);
            cells.push(read?)
        }
        Err(wanting) => {
            drop(name);
            Err(wanting)
        }
    }
}

/// The library of these cells.
#[tactic(auto, using(std::proofs::lemmas::List::drop_more))]
pub(crate) fn library_of(
    alloc: Global,
    known: Known,
    templates: &Templates<'_>,
    cells: &[&Tree],
) -> Result<Library, Memory>
    ensures { IfOk result
        (λ library. library.cells
        ≡ flat_map (cell_in known (told templates.now.trees)) (told cells.now)) }
{
    let mut found = Items::new(alloc);
    for cell in cells {
        match add_cell(alloc, known, templates, &mut found, *cell) {
            Ok(()) => {}
            Err(wanting) => {
                drop(found);
                return Err(wanting);
            }
        }
    }
    Ok(Library { cells: found })
}
