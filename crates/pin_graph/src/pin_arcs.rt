//! The arcs of cells between the numbers of pins.

ghost use Rattle.std.specs.Prelude.{◌≡◌, ◌++◌, ◌∷◌, ℕ, [], length, take, true, IsTrue, IfOk, OnOk};
ghost use Rattle.std.specs.List.{filter_map, position};
ghost use Rattle.std.specs.Option.{option_to_list};
ghost use Rattle.std.specs.Str.{bytes_eq};
ghost use Rattle.timing_defs.specs.Names.{is_name};
ghost use Rattle.netlist_store.specs.Numbering.{is_number};
ghost use Rattle.pin_graph.specs.Joins.{own_number, own_numbers, arc_between, numbered_arc, arcs_of, pin_arcs};

use netlist_store::Store;
use sta_units::Memory;
use std::alloc::Global;
use timing_defs::{ArcKind, Cell, CellArc, CellPin, Inst, Items, Name, Split, Tran};

/// The most pins of a cell whose numbers are kept while its arcs are numbered.
const FEW: usize = 16;

/// An arc of an instance's cell, between two of its pins by their numbers.
#[derive(Clone, Copy, Drop)]
pub(crate) struct PinArc {
    pub(crate) from: u32,
    pub(crate) from_tran: Tran,
    pub(crate) to: u32,
    pub(crate) to_tran: Tran,
    pub(crate) kind: ArcKind,
}

/// The bytes `instance:pin`.
#[tactic(auto, using(store_pins::proofs::PinNames::joined_name))]
fn full_name_bytes(alloc: Global, inst: &Name, own: &Name) -> Result<Vec<u8>, Memory>
    ensures bytes { IfOk result (λ bytes. bytes.items ≡ inst.now ++ 58 ∷ own.now) }
    ensures name { IfOk result (λ bytes. IsTrue (is_name bytes.items)) }
{
    let inst = inst.as_bytes();
    let own = own.as_bytes();
    let mut bytes = Vec::with_capacity(alloc, inst.len() + 1 + own.len())?;
    bytes.extend_from_slice(inst)?;
    bytes.extend_from_slice(b":")?;
    bytes.extend_from_slice(own)?;
    Ok(bytes)
}

/// The name of a pin of an instance, `instance:pin`.
fn full_name(alloc: Global, inst: &Name, own: &Name) -> Result<Name, Memory>
    ensures { IfOk result (λ name. name ≡ inst.now ++ 58 ∷ own.now) }
{
    let bytes = full_name_bytes(alloc, inst, own)?;
    Ok(Name::from_vec(bytes).unwrap())
}

/// The number of a pin of an instance, by its name in the cell.
pub(crate) fn own_number(
    alloc: Global,
    store: &Store,
    inst: &Inst,
    own: &Name,
) -> Result<Option<u32>, Memory>
    ensures { IfOk result (λ number. number ≡ own_number store.now inst.now own.now) }
{
    let name = full_name(alloc, &inst.name, own)?;
    Ok(store.pin(&name))
}

/// The first pins of a cell, all where it has few.
fn first_pins(cell: &Cell) -> &[CellPin]
    ensures { result.now ≡ take 16 cell.now.pins }
{
    let pins = cell.pins.as_slice();
    match pins.get(..FEW) {
        Some(first) => first,
        None => pins,
    }
}

/// The numbers of pins of an instance's cell, in their order.
fn own_numbers(
    alloc: Global,
    store: &Store,
    inst: &Inst,
    pins: &[CellPin],
) -> Result<Items<Option<u32>>, Memory>
    ensures { IfOk result (λ numbers. numbers ≡ own_numbers store.now inst.now pins.now) }
{
    let mut numbers = Items::with_room(alloc, pins.len())?;
    for pin in pins {
        numbers.push(own_number(alloc, store, inst, &pin.name)?)?;
    }
    Ok(numbers)
}

/// The place of the pin of that name among some pins of a cell.
fn place_among(pins: &[CellPin], own: &Name) -> Option<usize>
    ensures { result ≡ position (λ p. bytes_eq p.name own.now) pins.now }
{
    pins.iter().position(|pin| pin.name == *own)
}

/// The number of a pin of an instance, by its name in the cell; those of some pins are known.
#[tactic(auto, using(crate::proofs::OwnLaws::own_low, crate::proofs::OwnLaws::own_is))]
fn number_among(
    alloc: Global,
    store: &Store,
    inst: &Inst,
    pins: &[CellPin],
    numbers: &[Option<u32>],
    own: &Name,
) -> Result<Option<u32>, Memory>
    requires { numbers.now ≡ own_numbers store.now inst.now pins.now }
    ensures { IfOk result (λ number. number ≡ own_number store.now inst.now own.now) }
{
    match place_among(pins, own) {
        Some(place) => Ok(numbers[place]),
        None => own_number(alloc, store, inst, own),
    }
}

/// The arc between two numbers, where both are there.
fn arc_between(arc: &CellArc, from: Option<u32>, to: Option<u32>) -> Option<PinArc>
    ensures { result ≡ arc_between arc.now from to }
{
    Some(PinArc {
        from: from?,
        from_tran: arc.from_tran,
        to: to?,
        to_tran: arc.to_tran,
        kind: arc.kind,
    })
}

/// An arc of an instance's cell by the numbers of its pins, of which some are known.
fn numbered_arc(
    alloc: Global,
    store: &Store,
    inst: &Inst,
    pins: &[CellPin],
    numbers: &[Option<u32>],
    arc: &CellArc,
) -> Result<Option<PinArc>, Memory>
    requires { numbers.now ≡ own_numbers store.now inst.now pins.now }
    ensures { IfOk result (λ found. found ≡ numbered_arc store.now inst.now arc.now) }
{
    let from = number_among(alloc, store, inst, pins, numbers, &arc.from)?;
    let to = number_among(alloc, store, inst, pins, numbers, &arc.to)?;
    Ok(arc_between(arc, from, to))
}

/// Adds an arc, where it is there.
fn add_arc(arcs: &mut Items<PinArc>, arc: Option<PinArc>) -> Result<(), Memory>
    ensures { OnOk result (arcs.new ≡ arcs.old ++ option_to_list arc) }
{
    match arc {
        Some(arc) => arcs.push(arc),
        None => Ok(()),
    }
}

/// Adds the arcs of an instance's cell. The number of each of the cell's first pins is found once.
#[tactic(auto, using(crate::proofs::ArcLaws::mapped_more))]
fn add_cell_arcs(
    alloc: Global,
    store: &Store,
    arcs: &mut Items<PinArc>,
    inst: &Inst,
    cell: &Cell,
) -> Result<(), Memory>
    ensures { OnOk result
        (arcs.new ≡ arcs.old ++ filter_map (numbered_arc store.now inst.now) cell.now.arcs) }
{
    let pins = first_pins(cell);
    let numbers = own_numbers(alloc, store, inst, pins)?;
    for arc in cell.arcs.as_slice() {
        let arc = numbered_arc(alloc, store, inst, pins, numbers.as_slice(), arc)?;
        add_arc(arcs, arc)?;
    }
    Ok(())
}

/// Adds the arcs of the cell of the instance with a number; a gap has none.
#[tactic(auto, using(crate::proofs::ArcLaws::gap_arcs, crate::proofs::ArcLaws::arcs_put))]
pub(crate) fn add_inst_arcs(
    alloc: Global,
    store: &Store,
    arcs: &mut Items<PinArc>,
    inst: u32,
) -> Result<(), Memory>
    ensures { OnOk result (arcs.new ≡ arcs.old ++ arcs_of store.now inst) }
{
    if !store.has_inst(inst) {
        return Ok(());
    }
    let cell = store.cell_at(inst, Split::Late);
    add_cell_arcs(alloc, store, arcs, store.inst_at(inst), cell)
}

/// The arcs of the cells of all instances. Takes as many steps as there are pins and arcs.
#[tactic(auto, using(crate::proofs::ArcLaws::flat_numbers_more))]
pub(crate) fn pin_arcs(alloc: Global, store: &Store) -> Result<Items<PinArc>, Memory>
    ensures { IfOk result (λ arcs. arcs ≡ pin_arcs store.now) }
{
    let mut arcs = Items::new(alloc);
    for inst in 0..store.inst_bound() {
        add_inst_arcs(alloc, store, &mut arcs, inst)?;
    }
    Ok(arcs)
}
