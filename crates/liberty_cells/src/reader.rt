//! The reader: the library of a text, or its least fault.

ghost use Rattle.std.specs.Prelude.{◌≡◌, ◌∷◌, [], List, true, false, MatchResult, IfOk};
ghost use Rattle.timing_defs.specs.Documents.{is_library};
ghost use Rattle.sta_text.specs.Faults.{least_from, Fails};
ghost use Rattle.sta_text.specs.declared.faults.Wrong.{Wrong};
ghost use Rattle.liberty_cells.specs.Statements.{told};
ghost use Rattle.liberty_cells.specs.Cells.{library_of, cells_of, templates_of};
ghost use Rattle.liberty_cells.specs.Units.{known};
ghost use Rattle.liberty_cells.specs.Faults.{group_faults, statement_faults, faults_of, library_of_text, units_of_text, unit_or_one, units_of};

use crate::cells::library_of;
use crate::checks::{Basis, check_cells};
use crate::headers::check_header;
use crate::library_units::{Known, known_units};
use crate::names::{check_cell_count, check_doubles};
use crate::pins::cells_of;
use crate::scope::Extent;
use crate::statements::groups;
use crate::templates::Templates;
use liberty_syntax::{Reading, read};
use sta_text::Wrong;
use sta_units::{Memory, Pair, Unit, both};
use std::alloc::Global;
use timing_defs::{Item, Items, Library, ReadFault, Tree, Units};

/// What a library's statements say: its units, its templates and its cells.
#[derive(Drop)]
struct Parts<'a> {
    known: Known,
    templates: Templates<'a>,
    cells: Items<&'a Tree>,
}

fn parts_of<'a>(alloc: Global, whole: bool, items: &'a [Item]) -> Result<Parts<'a>, Memory>
    ensures known { IfOk result (λ parts. parts.known ≡ known whole items.entry.now) }
    ensures templates { IfOk result
        (λ parts. told parts.templates.trees ≡ templates_of items.entry.now) }
    ensures cells { IfOk result (λ parts. told parts.cells ≡ cells_of items.entry.now) }
{
    let known = known_units(alloc, whole, items)?;
    let trees = groups(alloc, items, b"lu_table_template")?;
    let Pair {
        one: templates,
        other: cells,
    } = both(Templates::new(alloc, trees), cells_of(alloc, items))?;
    Ok(Parts {
        known,
        templates,
        cells,
    })
}

/// Checks templates and cells.
#[tactic(auto, unfolding(crate::specs::Faults::group_faults), using(sta_text::proofs::FaultsLemmas::least_append))]
fn check_groups(
    alloc: Global,
    best: Option<Wrong>,
    extent: Extent,
    parts: &Parts<'_>,
) -> Result<Option<Wrong>, Memory>
    ensures { IfOk result
        (λ least. least
        ≡ least_from best
        (group_faults extent parts.now.known (told parts.now.templates.trees)
        (told parts.now.cells))) }
{
    let basis = Basis {
        extent,
        known: parts.known,
        templates: &parts.templates,
    };
    let cells = parts.cells.as_slice();
    let forms = check_doubles(alloc, best, parts.templates.trees())?;
    let named = check_doubles(alloc, forms, cells)?;
    check_cells(alloc, check_cell_count(named, &parts.cells), &basis, cells)
}

/// The parts of a library's statements and their least fault.
#[derive(Drop)]
struct Checked<'a> {
    least: Option<Wrong>,
    parts: Parts<'a>,
}

/// Checks a library's statements.
#[tactic(auto, unfolding(crate::specs::Faults::statement_faults), using(sta_text::proofs::FaultsLemmas::least_append))]
fn check_statements<'a>(
    alloc: Global,
    best: Option<Wrong>,
    extent: Extent,
    items: &'a [Item],
) -> Result<Checked<'a>, Memory>
    ensures least { IfOk result
        (λ found. found.least ≡ least_from best (statement_faults extent items.entry.now)) }
    ensures known { IfOk result (λ found. found.parts.known ≡ known extent.whole items.entry.now) }
    ensures templates { IfOk result
        (λ found. told found.parts.templates.trees ≡ templates_of items.entry.now) }
    ensures cells { IfOk result (λ found. told found.parts.cells ≡ cells_of items.entry.now) }
{
    let header = check_header(alloc, best, extent, items)?;
    let parts = parts_of(alloc, extent.whole, items)?;
    match check_groups(alloc, header, extent, &parts) {
        Ok(least) => Ok(Checked { least, parts }),
        Err(wanting) => {
            drop(parts);
            Err(wanting)
        }
    }
}

/// The parts of a whole text without a fault.
#[tactic(auto, using(sta_text::proofs::FaultsLemmas::least_none))]
fn faultless<'a>(alloc: Global, size: usize, items: &'a [Item]) -> Result<Parts<'a>, ReadFault>
    ensures { MatchResult result
        (λ parts. (statement_faults (record { size = size; whole = true }) items.entry.now ≡ [])
        × (parts.known ≡ known true items.entry.now)
        × (told parts.templates.trees ≡ templates_of items.entry.now)
        × (told parts.cells ≡ cells_of items.entry.now))
        (λ e. Fails e (statement_faults (record { size = size; whole = true }) items.entry.now)) }
{
    let found = check_statements(alloc, None, Extent { size, whole: true }, items)?;
    let Checked { least, parts } = found;
    match least {
        Some(wrong) => {
            drop(parts);
            Err(wrong.told())
        }
        None => Ok(parts),
    }
}

/// The least fault, where one is known before the others.
#[tactic(auto, using(crate::proofs::ReaderLemmas::stands_still))]
fn known_least(least: Option<Wrong>, wrong: Wrong) -> Wrong
    ensures { (others : List Wrong) → least ≡ least_from (Some wrong) others
        → least_from None (wrong ∷ others) ≡ Some result }
{
    least.unwrap_or(wrong)
}

/// The least fault of a text that the grammar does not accept, with this fault and these statements
/// before it.
fn broken(alloc: Global, size: usize, items: &[Item], wrong: Wrong) -> Result<Wrong, Memory>
    ensures { IfOk result
        (λ least. least_from None
        (wrong ∷ statement_faults (record { size = size; whole = false }) items.now) ≡ Some least) }
{
    let extent = Extent { size, whole: false };
    let found = check_statements(alloc, Some(wrong), extent, items)?;
    let least = known_least(found.least, wrong);
    drop(found);
    Ok(least)
}

/// The fault of a text that the grammar does not accept.
fn broken_fault(alloc: Global, size: usize, items: &[Item], wrong: Wrong) -> ReadFault
    ensures { Fails result
        (wrong ∷ statement_faults (record { size = size; whole = false }) items.now) }
{
    match broken(alloc, size, items, wrong) {
        Ok(least) => least.told(),
        Err(_) => ReadFault::Memory,
    }
}

/// The library of a whole text.
fn whole_library(alloc: Global, size: usize, items: &[Item]) -> Result<Library, ReadFault>
    ensures { MatchResult result
        (λ library. (statement_faults (record { size = size; whole = true }) items.now ≡ [])
        × (library ≡ library_of true items.now))
        (λ e. Fails e (statement_faults (record { size = size; whole = true }) items.now)) }
{
    let parts = faultless(alloc, size, items)?;
    let read = library_of(alloc, parts.known, &parts.templates, parts.cells.as_slice());
    drop(parts);
    Ok(read?)
}

fn unit_or_one(unit: Option<Unit>) -> Unit
    ensures { result ≡ unit_or_one unit }
{
    unit.unwrap_or(Unit { ten: 0 })
}

/// The units of a whole text.
fn whole_units(alloc: Global, size: usize, items: &[Item]) -> Result<Units, ReadFault>
    ensures { MatchResult result
        (λ units. (statement_faults (record { size = size; whole = true }) items.now ≡ [])
        × (units ≡ units_of (known true items.now)))
        (λ e. Fails e (statement_faults (record { size = size; whole = true }) items.now)) }
{
    let parts = faultless(alloc, size, items)?;
    let known = parts.known;
    drop(parts);
    Ok(Units {
        time: unit_or_one(known.time),
        cap: unit_or_one(known.cap),
    })
}

/// The library of a text, or its least fault.
fn library_of_bytes(alloc: Global, bytes: &[u8]) -> Result<Library, ReadFault>
    ensures { MatchResult result
        (λ library. (faults_of bytes.now ≡ []) × (library ≡ library_of_text bytes.now))
        (λ e. Fails e (faults_of bytes.now)) }
{
    match read(alloc, bytes)? {
        Reading::Whole(tree) => {
            let read = whole_library(alloc, bytes.len(), tree.items.as_slice());
            drop(tree);
            read
        }
        Reading::Broken { items, wrong } => {
            let fault = broken_fault(alloc, bytes.len(), items.as_slice(), wrong);
            drop(items);
            Err(fault)
        }
    }
}

/// Reads a library (Liberty, non-linear delay model).
///
/// What is read: `time_unit` and `capacitive_load_unit`, the `lu_table_template` groups, and the
/// `cell` groups with their `pin` groups, of these `direction`, `capacitance` and the `timing`
/// groups with `related_pin`, `timing_type`, `timing_sense` and their tables of delays, slews, setup
/// and hold times. All else is passed over. A cell with a bus, a bundle, an inout pin or a pin name
/// with a colon is not in the library.
///
/// What is given has at most 10,000 cells of distinct names, and each at most 10,000 pins of distinct
/// names without a colon. Capacitances lie from 0 to 10^12 aF; tables are well formed. Arcs lead from
/// a pin of the cell to an output pin, tests stand between an input pin and a pin of the cell.
///
/// # Errors
///
/// The fault of least offset, and at one offset the one of lowest code:
/// - `L1`, `L2`, `L3`: those of [`liberty_syntax::read_tree`]; `L2` also a value of a read attribute
///   or a name of a cell or pin that is none;
/// - `L4`: a unit that is not read, or no unit of capacitance;
/// - `L5`: a template that is not there;
/// - `L6`: a table that has not the form of its template;
/// - `L7`: a cell, a pin of a cell or a template twice;
/// - `L8`: an index that does not rise;
/// - `L9`: another delay model than `table_lookup`;
/// - `L10`: more than 10,000 cells, or pins of a cell.
///
/// What is missing counts only where the grammar accepts the whole text. Want of memory may come at
/// any time. It reads the bytes once, in linear time.
pub fn read_library(alloc: Global, bytes: &[u8]) -> Result<Library, ReadFault>
    ensures value { MatchResult result
        (λ library. (faults_of bytes.now ≡ []) × (library ≡ library_of_text bytes.now))
        (λ e. Fails e (faults_of bytes.now)) }
    ensures kept { IfOk result (λ library. is_library library ≡ true) }
{
    library_of_bytes(alloc, bytes)
}

/// The units of a library: of its times and of its capacitances.
///
/// # Errors
///
/// Those of [`read_library`].
pub fn units(alloc: Global, bytes: &[u8]) -> Result<Units, ReadFault>
    ensures { MatchResult result
        (λ units. (faults_of bytes.now ≡ []) × (units ≡ units_of_text bytes.now))
        (λ e. Fails e (faults_of bytes.now)) }
{
    match read(alloc, bytes)? {
        Reading::Whole(tree) => {
            let read = whole_units(alloc, bytes.len(), tree.items.as_slice());
            drop(tree);
            read
        }
        Reading::Broken { items, wrong } => {
            let fault = broken_fault(alloc, bytes.len(), items.as_slice(), wrong);
            drop(items);
            Err(fault)
        }
    }
}
