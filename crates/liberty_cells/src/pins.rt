//! The pins of a cell, and which cells are in the library.

ghost use Rattle.std.specs.Prelude.{◌≡◌, ◌++◌, ◌∷◌, List, not, IfOk};
ghost use Rattle.std.specs.List.{list_any, flat_map, filter};
ghost use Rattle.sta_text.specs.Names.{stands};
ghost use Rattle.timing_defs.specs.declared.liberty_tree.Lexeme.{Lexeme};
ghost use Rattle.timing_defs.specs.declared.liberty_tree.Tree.{Tree};
ghost use Rattle.liberty_cells.specs.Statements.{told};
ghost use Rattle.liberty_cells.specs.Cells.{dir_named, dir_of, is_colon, has_colon, is_left_out_pin, has_group, is_kept, cells_of, pin_in, read_pins, pins_told, with_name, names_on, pin_names, pins_of};

use crate::statements::{groups, text_of};
use sta_text::Names;
use sta_units::Memory;
use std::alloc::Global;
use timing_defs::{Dir, Item, Items, Lexeme, Tree};

/// A pin group that is read, with its direction.
#[derive(Clone, Copy, Drop)]
pub(crate) struct Pin<'a> {
    pub(crate) tree: &'a Tree,
    pub(crate) dir: Dir,
}

fn dir_named(text: &[u8]) -> Option<Dir>
    ensures { result ≡ dir_named text.now }
{
    if text == b"input".as_slice() {
        Some(Dir::Input)
    } else if text == b"output".as_slice() {
        Some(Dir::Output)
    } else {
        None
    }
}

/// A pin's direction; none where it is another or is not written.
fn dir_of(alloc: Global, pin: &Tree) -> Result<Option<Dir>, Memory>
    ensures { IfOk result (λ dir. dir ≡ dir_of pin.now) }
{
    match text_of(alloc, pin.items.as_slice(), b"direction")? {
        None => Ok(None),
        Some(text) => Ok(dir_named(text)),
    }
}

fn is_colon(b: u8) -> bool
    ensures { result ≡ is_colon b }
{
    b == b':'
}

fn has_colon(arg: &Lexeme) -> bool
    ensures { result ≡ has_colon arg.now }
{
    arg.text.as_slice().iter().any(|b| is_colon(*b))
}

fn any_colon(args: &[Lexeme]) -> bool
    ensures { result ≡ list_any has_colon args.now }
{
    args.iter().any(|arg| has_colon(arg))
}

/// Whether a cell with this pin is not in the library.
fn is_left_out_pin(alloc: Global, pin: &Tree) -> Result<bool, Memory>
    ensures { IfOk result (λ out. out ≡ is_left_out_pin pin.now) }
{
    match text_of(alloc, pin.items.as_slice(), b"direction")? {
        None => Ok(any_colon(pin.args.as_slice())),
        Some(text) => Ok(text == b"inout".as_slice() || any_colon(pin.args.as_slice())),
    }
}

#[tactic(auto, using(std::proofs::lemmas::List::drop_more))]
fn any_left_out(alloc: Global, pins: &[&Tree]) -> Result<bool, Memory>
    ensures { IfOk result (λ out. out ≡ list_any is_left_out_pin (told pins.now)) }
{
    for pin in pins {
        if is_left_out_pin(alloc, *pin)? {
            return Ok(true);
        }
    }
    Ok(false)
}

fn has_group(alloc: Global, cell: &Tree, name: &[u8]) -> Result<bool, Memory>
    ensures { IfOk result (λ has. has ≡ has_group name.now cell.now) }
{
    let found = groups(alloc, cell.items.as_slice(), name)?;
    let has = !found.is_empty();
    drop(found);
    Ok(has)
}

/// Whether a cell has no bus, no bundle, no inout pin and no pin name with a colon.
fn is_kept(alloc: Global, cell: &Tree) -> Result<bool, Memory>
    ensures { IfOk result (λ kept. kept ≡ is_kept cell.now) }
{
    let has_bus = has_group(alloc, cell, b"bus")?;
    let has_bundle = has_group(alloc, cell, b"bundle")?;
    let pins = groups(alloc, cell.items.as_slice(), b"pin")?;
    let is_out = any_left_out(alloc, pins.as_slice());
    drop(pins);
    Ok(!(has_bus || has_bundle || is_out?))
}

/// Adds a cell where it is in the library.
fn add_kept<'a>(alloc: Global, found: &mut Items<&'a Tree>, cell: &'a Tree) -> Result<(), Memory>
    ensures { IfOk result
        (λ _. (rest : List Tree) → told found.new ++ filter is_kept rest
        ≡ told found.old ++ filter is_kept (cell.entry.now ∷ rest)) }
{
    if is_kept(alloc, cell)? {
        return found.push(cell);
    }
    Ok(())
}

/// The cells of a library.
#[tactic(auto, using(std::proofs::lemmas::List::drop_more))]
pub(crate) fn cells_of<'a>(alloc: Global, items: &'a [Item]) -> Result<Items<&'a Tree>, Memory>
    ensures { IfOk result (λ found. told found ≡ cells_of items.entry.now) }
{
    let all = groups(alloc, items, b"cell")?;
    let mut found = Items::new(alloc);
    for cell in all.as_slice() {
        match add_kept(alloc, &mut found, *cell) {
            Ok(()) => {}
            Err(wanting) => {
                drop(all);
                drop(found);
                return Err(wanting);
            }
        }
    }
    drop(all);
    Ok(found)
}

/// Adds a pin where it is read.
fn add_pin<'a>(alloc: Global, found: &mut Items<Pin<'a>>, tree: &'a Tree) -> Result<(), Memory>
    ensures { IfOk result
        (λ _. pins_told found.new ≡ pins_told found.old ++ pin_in tree.entry.now) }
{
    match dir_of(alloc, tree)? {
        None => Ok(()),
        Some(dir) => found.push(Pin { tree, dir }),
    }
}

/// The pins of a cell that are read.
#[tactic(auto, using(std::proofs::lemmas::List::drop_more))]
pub(crate) fn read_pins<'a>(alloc: Global, pins: &[&'a Tree]) -> Result<Items<Pin<'a>>, Memory>
    ensures { IfOk result (λ found. pins_told found ≡ flat_map pin_in (told pins.now)) }
{
    let mut found = Items::new(alloc);
    for pin in pins {
        match add_pin(alloc, &mut found, *pin) {
            Ok(()) => {}
            Err(wanting) => {
                drop(found);
                return Err(wanting);
            }
        }
    }
    Ok(found)
}

/// Adds a name; whether it is new.
pub(crate) fn is_new<'a>(names: &mut Names<'a>, arg: &'a Lexeme) -> Result<bool, Memory>
    ensures found { IfOk result (λ new. new ≡ not (stands names.old arg.entry.now.text)) }
    ensures list { IfOk result (λ new. names.new ≡ with_name names.old arg.entry.now.text) }
{
    names.add(arg.text.as_slice())
}

/// Adds the names of a list of arguments.
#[tactic(auto, unfolding(crate::specs::Cells::names_on), using(std::proofs::lemmas::List::drop_more))]
fn add_names<'a>(names: &mut Names<'a>, args: &'a [Lexeme]) -> Result<(), Memory>
    ensures { IfOk result (λ _. names.new ≡ names_on names.old args.entry.now) }
{
    for arg in args {
        let _ = is_new(names, arg)?;
    }
    Ok(())
}

/// Adds the names of a pin.
#[tactic(auto, using(crate::proofs::PinsLemmas::names_append))]
fn add_pin_names<'a>(names: &mut Names<'a>, pin: &Pin<'a>) -> Result<(), Memory>
    ensures { IfOk result
        (λ _. (rest : List Lexeme) → names_on names.new rest
        ≡ names_on names.old (pin.entry.now.tree.now.args ++ rest)) }
{
    add_names(names, pin.tree.args.as_slice())
}

/// The names of a cell's pins.
#[tactic(auto, unfolding(crate::specs::Cells::names_on), using(std::proofs::lemmas::List::drop_more))]
pub(crate) fn pin_names<'a>(alloc: Global, pins: &[Pin<'a>]) -> Result<Names<'a>, Memory>
    ensures { IfOk result (λ names. names ≡ pin_names (pins_told pins.now)) }
{
    let mut names = Names::new(alloc);
    for pin in pins {
        match add_pin_names(&mut names, pin) {
            Ok(()) => {}
            Err(wanting) => {
                drop(names);
                return Err(wanting);
            }
        }
    }
    Ok(names)
}
