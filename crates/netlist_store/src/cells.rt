//! The cells of a library by their names.

ghost use Rattle.std.specs.Prelude.{◌≡◌, ◌≤◌, ℕ, List, None, Some, length, if◌then◌else◌, IfOk, OnOk};
ghost use Rattle.std.specs.Option.{option_copied, option_or};
ghost use Rattle.std.specs.Str.{bytes_eq};
ghost use Rattle.timing_defs.specs.Netlist.{cell_named};
ghost use Rattle.netlist_store.specs.Places.{place_under, ArePlaces};

use indexmap::IndexMap;
use sta_units::Memory;
use std::alloc::Global;
use std::marker::Model;
use timing_defs::{Cell, Library, Name};

/// A library in which cells are found by their names. Contracts see the library.
#[derive(Drop)]
pub(crate) struct Cells {
    library: Library,
    places: IndexMap<Name, u32>,
}

impl Model for Cells {
    ghost use Rattle.timing_defs.specs.declared.library.Library.{Library};
    ghost use Rattle.netlist_store.specs.Places.{ArePlaces};

    ghost Value = { Library };

    ghost view = { λ c. c.library };

    ghost invariant = { λ c. ArePlaces c.library.cells c.places.entries };
}

/// Adds the place of a cell, where none of its name is there.
fn add_place(
    alloc: Global,
    places: &mut IndexMap<Name, u32>,
    cell: &Cell,
    place: u32,
) -> Result<(), Memory>
    ensures { OnOk result
        ((name : List ℕ) → place_under places.new.entries name
        ≡ option_or (place_under places.old.entries name)
        (if bytes_eq cell.now.name name then Some place else None)) }
{
    if places.contains_key(&cell.name) {
        return Ok(());
    }
    match places.insert(cell.name.copied(alloc)?, place) {
        Ok(_) => Ok(()),
        Err(_) => Err(Memory),
    }
}

/// The places of the first cells of their names.
fn places_of(alloc: Global, cells: &[Cell]) -> Result<IndexMap<Name, u32>, Memory>
    requires { length cells.now ≤ 10000 }
    ensures { IfOk result (λ places. ArePlaces cells.now places.entries) }
{
    let mut places = IndexMap::new(alloc);
    for (place, cell) in cells.iter().enumerate() {
        add_place(alloc, &mut places, cell, place as u32)?;
    }
    Ok(places)
}

impl Cells {
    /// The table of a library.
    pub(crate) fn of(alloc: Global, library: Library) -> Result<Cells, Memory>
        requires { length library.cells ≤ 10000 }
        ensures { IfOk result (λ made. made ≡ library) }
    {
        let places = places_of(alloc, library.cells.as_slice())?;
        Ok(Cells { library, places })
    }

    /// Gives the table up.
    pub(crate) fn discard(self) {}

    /// The cell of a name; none where the library has none. Takes no memory.
    pub(crate) fn cell(&self, name: &Name) -> Option<&Cell>
        ensures { option_copied result ≡ cell_named self.now.cells name.now }
    {
        let place = *self.places.get(name)?;
        self.library.cells.get(place as usize)
    }

    /// The place of a name among those of the table, or a place past all of them.
    pub(crate) fn place(&self, name: &Name) -> usize {
        self.places.get_index_of(name).unwrap_or(usize::MAX)
    }

    /// The cell of a name, which is looked for at a place first; none where the library has none.
    /// The place may be any number. Takes no memory.
    pub(crate) fn cell_near(&self, name: &Name, place: usize) -> Option<&Cell>
        ensures { option_copied result ≡ cell_named self.now.cells name.now }
    {
        match self.places.get_index(place) {
            Some((own, place)) if own == name => self.library.cells.get(*place as usize),
            _ => self.cell(name),
        }
    }

    /// The library.
    pub(crate) fn library(&self) -> &Library
        ensures { result.now ≡ self.now }
    {
        &self.library
    }
}
