//! The templates of a library, found by name.

ghost use Rattle.std.specs.Prelude.{◌≡◌, ◌+◌, ◌∷◌, List, ℕ, Option, option_map, IfOk, if◌then◌else◌};
ghost use Rattle.std.specs.Str.{bytes_eq};
ghost use Rattle.sta_text.specs.Names.{said};
ghost use Rattle.timing_defs.specs.declared.liberty_tree.Tree.{Tree};
ghost use Rattle.liberty_cells.specs.Statements.{told};
ghost use Rattle.liberty_cells.specs.Tables.{place_of, template_of, read_table};
ghost use Rattle.liberty_cells.specs.Places.{place_or, items_at, Finds};

use crate::axes::Form;
use crate::tables::{scalar_in, table_in};
use sta_text::Places;
use sta_units::Memory;
use std::alloc::Global;
use timing_defs::{Code, Item, Items, Table, Tree};

/// Sets the place of a name, where it has none yet.
fn set_first<'a>(places: &mut Places<'a>, name: &'a [u8], at: usize) -> Result<(), Memory>
    ensures { IfOk result
        (λ _. (q : List ℕ) (other : Option ℕ) → place_or (said places.new q) other
        ≡ place_or (said places.old q) (if bytes_eq q name.entry.now then Some at else other)) }
{
    match places.find(name) {
        Some(_) => Ok(()),
        None => {
            places.set(name, at)?;
            Ok(())
        }
    }
}

/// Adds the place of a template, where it is the first of its name.
#[tactic(auto, unfolding(crate::specs::Tables::place_of))]
fn add_place<'a>(places: &mut Places<'a>, tree: &'a Tree, at: usize) -> Result<(), Memory>
    ensures { IfOk result
        (λ _. (q : List ℕ) (rest : List Tree)
        → place_or (said places.new q) (place_of (at + 1) q rest)
        ≡ place_or (said places.old q) (place_of at q (tree.entry.now ∷ rest))) }
{
    match tree.args.as_slice().split_first() {
        None => Ok(()),
        Some((first, _)) => set_first(places, first.text.as_slice(), at),
    }
}

/// The places of the first templates of each name.
#[tactic(auto, using(std::proofs::lemmas::List::drop_more))]
fn places_of<'a>(alloc: Global, trees: &[&'a Tree]) -> Result<Places<'a>, Memory>
    ensures { IfOk result (λ places. Finds places (told trees.now)) }
{
    let mut places = Places::new(alloc);
    for (at, tree) in trees.iter().enumerate() {
        match add_place(&mut places, *tree, at) {
            Ok(()) => {}
            Err(wanting) => {
                drop(places);
                return Err(wanting);
            }
        }
    }
    Ok(places)
}

/// The statements of the group at a place.
fn items_at<'a>(trees: &Items<&'a Tree>, at: usize) -> Option<&'a [Item]>
    ensures { option_map (λ t. t.now) result ≡ items_at trees.now at }
{
    match trees.get(at) {
        None => None,
        Some(tree) => Some(tree.items.as_slice()),
    }
}

/// The statements of the template of a name, where these are the places of all.
fn found_at<'a>(trees: &Items<&'a Tree>, places: &Places<'_>, name: &[u8]) -> Option<&'a [Item]>
    requires { Finds places.now (told trees.now) }
    ensures { option_map (λ t. t.now) result ≡ template_of name.now (told trees.now) }
{
    match places.find(name) {
        None => None,
        Some(at) => items_at(trees, at),
    }
}

/// The templates of a library. A look-up takes constant time on average.
#[derive(Drop)]
pub(crate) struct Templates<'a> {
    pub(crate) trees: Items<&'a Tree>,
    places: Places<'a>,
    ghost finds: { Finds places (told trees) },
}

impl<'a> Templates<'a> {
    pub(crate) fn new(alloc: Global, trees: Items<&'a Tree>) -> Result<Templates<'a>, Memory>
        ensures { IfOk result (λ templates. told templates.trees ≡ told trees.entry) }
    {
        match places_of(alloc, trees.as_slice()) {
            Ok(places) => Ok(Templates { trees, places }),
            Err(wanting) => {
                drop(trees);
                Err(wanting)
            }
        }
    }

    /// The groups of the templates.
    pub(crate) fn trees(&self) -> &[&'a Tree]
        ensures { told result.now ≡ told self.now.trees }
    {
        self.trees.as_slice()
    }

    /// The statements of the first template of a name.
    pub(crate) fn find(&self, name: &[u8]) -> Option<&'a [Item]>
        ensures { option_map (λ t. t.now) result ≡ template_of name.now (told self.now.trees) }
    {
        found_at(&self.trees, &self.places, name)
    }
}

/// The table of a template's name, or the code of its fault; none where there is no such template.
pub(crate) fn read_table(
    alloc: Global,
    form: Form,
    templates: &Templates<'_>,
    name: &[u8],
    table: &[Item],
) -> Result<Option<Result<Table, Code>>, Memory>
    ensures { IfOk result
        (λ read. read ≡ read_table form (told templates.now.trees) name.now table.now) }
{
    if name == b"scalar".as_slice() {
        return Ok(Some(scalar_in(alloc, form, table)?));
    }
    match templates.find(name) {
        None => Ok(None),
        Some(template) => Ok(Some(table_in(alloc, form, table, template)?)),
    }
}
