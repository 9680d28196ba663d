//! The cells that can be used: those that are in both libraries, and alike there.

ghost use Rattle.std.specs.Prelude.{◌≡◌, ◌≤◌, ℕ, List, None, Some, map, length, slice_get, if◌then◌else◌, IfOk, OnOk};
ghost use Rattle.std.specs.Option.{option_copied, option_or};
ghost use Rattle.std.specs.Str.{bytes_eq};
ghost use Rattle.timing_defs.specs.declared.library.Cell.{Cell};
ghost use Rattle.timing_defs.specs.declared.library.Library.{Library};
ghost use Rattle.timing_defs.specs.Netlist.{cell_named};
ghost use Rattle.timing_defs.specs.Edits.{usable_cell};
ghost use Rattle.netlist_store.specs.Places.{place_under, ArePlaces};
ghost use Rattle.design_link.specs.Documents.{agrees_in};

use indexmap::IndexMap;
use netlist_store::cells_agree;
use sta_units::Memory;
use std::alloc::Global;
use timing_defs::{Cell, Items, Library, Name};

/// Adds the place of a cell, where none of its name is there.
fn add_place(
    alloc: Global,
    places: &mut IndexMap<Name, u32>,
    cell: &Cell,
    place: u32,
) -> Result<(), Memory>
    ensures { OnOk result
        ((name : List ℕ) → place_under places.new.entries name
        ≡ option_or (place_under places.old.entries name)
        (if bytes_eq cell.now.name name then Some place else None)) }
{
    if places.contains_key(&cell.name) {
        return Ok(());
    }
    match places.insert(cell.name.copied(alloc)?, place) {
        Ok(_) => Ok(()),
        Err(_) => Err(Memory),
    }
}

/// The places of the first cells of their names.
fn places_of(alloc: Global, cells: &[Cell]) -> Result<IndexMap<Name, u32>, Memory>
    requires { length cells.now ≤ 10000 }
    ensures { IfOk result (λ places. ArePlaces cells.now places.entries) }
{
    let mut places = IndexMap::new(alloc);
    for (place, cell) in cells.iter().enumerate() {
        add_place(alloc, &mut places, cell, place as u32)?;
    }
    Ok(places)
}

/// The cell of a name; none where there is none.
fn cell_under<'a>(
    library: &'a Library,
    places: &IndexMap<Name, u32>,
    name: &Name,
) -> Option<&'a Cell>
    requires { ArePlaces library.now.cells places.now.entries }
    ensures { option_copied result ≡ cell_named library.entry.now.cells name.now }
{
    let place = *places.get(name)?;
    library.cells.get(place as usize)
}

/// Whether a cell agrees with that of its name in a library.
fn agrees_in(library: &Library, places: &IndexMap<Name, u32>, cell: &Cell) -> bool
    requires { ArePlaces library.now.cells places.now.entries }
    ensures { result ≡ agrees_in library.now cell.now }
{
    match cell_under(library, places, &cell.name) {
        Some(other) => cells_agree(other, cell),
        None => false,
    }
}

/// For each cell of the late library whether it agrees with that of its name in the early one.
fn agreements(alloc: Global, early: &Library, late: &[Cell]) -> Result<Items<bool>, Memory>
    requires { length early.now.cells ≤ 10000 }
    ensures { IfOk result (λ all. all ≡ map (agrees_in early.now) late.now) }
{
    let places = places_of(alloc, early.cells.as_slice())?;
    let mut all = Items::with_room(alloc, late.len())?;
    for cell in late {
        all.push(agrees_in(early, &places, cell))?;
    }
    Ok(all)
}

/// The places of the cells of a late library, and which of them agree with the early one.
#[derive(Drop)]
pub(crate) struct CellTable {
    pub(crate) places: IndexMap<Name, u32>,
    pub(crate) agree: Items<bool>,
}

/// The table of two libraries. Each cell is compared once.
pub(crate) fn cell_table(
    alloc: Global,
    early: &Library,
    late: &Library,
) -> Result<CellTable, Memory>
    requires early { length early.now.cells ≤ 10000 }
    requires late { length late.now.cells ≤ 10000 }
    ensures places { IfOk result (λ table. ArePlaces late.now.cells table.places.entries) }
    ensures agree { IfOk result (λ table. table.agree ≡ map (agrees_in early.now) late.now.cells) }
{
    let agree = agreements(alloc, early, late.cells.as_slice())?;
    let places = places_of(alloc, late.cells.as_slice())?;
    Ok(CellTable { places, agree })
}

/// Whether the cell at a place of the late library agrees with the early one.
fn agree_at(table: &CellTable, place: u32) -> bool
    ensures { (early : Library) (late : List Cell) (cell : Cell) → table.now.agree
        ≡ map (agrees_in early) late → slice_get late place ≡ Some cell → result
        ≡ agrees_in early cell }
{
    match table.agree.get(place as usize) {
        Some(agree) => *agree,
        None => false,
    }
}

/// The cell at a place, where it can be used.
fn usable_at<'a>(late: &'a Library, table: &CellTable, place: u32) -> Option<&'a Cell>
    ensures { (early : Library) (name : List ℕ) → table.now.agree
        ≡ map (agrees_in early) late.entry.now.cells → slice_get late.entry.now.cells place
        ≡ cell_named late.entry.now.cells name → option_copied result
        ≡ usable_cell early late.entry.now name }
{
    if !agree_at(table, place) {
        return None;
    }
    late.cells.get(place as usize)
}

/// The place of the cell of a name.
fn place_of(table: &CellTable, name: &Name) -> Option<u32>
    ensures { result ≡ place_under table.now.places.entries name.now }
{
    table.places.get(name).copied()
}

/// The cell of a name that is in both libraries, and alike there; none where there is none.
pub(crate) fn usable_cell<'a>(late: &'a Library, table: &CellTable, name: &Name) -> Option<&'a Cell>
    requires { ArePlaces late.now.cells table.now.places.entries }
    ensures { (early : Library) → table.now.agree ≡ map (agrees_in early) late.entry.now.cells
        → option_copied result ≡ usable_cell early late.entry.now name.now }
{
    match place_of(table, name) {
        Some(place) => usable_at(late, table, place),
        None => None,
    }
}
