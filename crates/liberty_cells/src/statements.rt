//! The statements of a group, by name.

ghost use Rattle.std.specs.Prelude.{◌≡◌, [], ◌++◌, List, option_map, IfOk};
ghost use Rattle.std.specs.Str.{bytes_eq};
ghost use Rattle.timing_defs.specs.declared.liberty_tree.Item.{Item};
ghost use Rattle.timing_defs.specs.declared.liberty_tree.Item.TheViews.{out-Item};
ghost use Rattle.liberty_cells.specs.Statements.{group_in, list_in, value_in, groups, lists, values, last, one_text, text_of, told};

use sta_units::Memory;
use std::alloc::Global;
use timing_defs::{Item, Items, Lexeme, Tree};

fn is_called(word: &Lexeme, name: &[u8]) -> bool
    ensures { result ≡ bytes_eq word.now.text name.now }
{
    word.text.as_slice() == name
}

/// Adds the item where it is a group of this name.
fn add_group<'a>(found: &mut Items<&'a Tree>, item: &'a Item, name: &[u8]) -> Result<(), Memory>
    ensures { IfOk result
        (λ _. told found.new ≡ told found.old ++ group_in name.now (out-Item item.entry.now)) }
{
    match item {
        Item::Group(tree) => {
            if is_called(&tree.word, name) {
                return found.push(tree);
            }
            Ok(())
        }
        _ => Ok(()),
    }
}

/// The groups of a name among statements, in order.
#[tactic(auto, unfolding(crate::specs::Statements::groups), using(std::proofs::lemmas::List::drop_more))]
pub(crate) fn groups<'a>(
    alloc: Global,
    items: &'a [Item],
    name: &[u8],
) -> Result<Items<&'a Tree>, Memory>
    ensures { IfOk result (λ found. told found ≡ groups name.now items.entry.now) }
{
    let mut found = Items::new(alloc);
    for item in items {
        match add_group(&mut found, item, name) {
            Ok(()) => {}
            Err(wanting) => {
                drop(found);
                return Err(wanting);
            }
        }
    }
    Ok(found)
}

/// Adds the item's list of arguments where it is a complex attribute of this name.
fn add_list<'a>(found: &mut Items<&'a [Lexeme]>, item: &'a Item, name: &[u8]) -> Result<(), Memory>
    ensures { IfOk result
        (λ _. told found.new ≡ told found.old ++ list_in name.now (out-Item item.entry.now)) }
{
    match item {
        Item::Complex { word, args } => {
            if is_called(word, name) {
                return found.push(args.as_slice());
            }
            Ok(())
        }
        _ => Ok(()),
    }
}

/// The lists of arguments of the complex attributes of a name.
#[tactic(auto, unfolding(crate::specs::Statements::lists), using(std::proofs::lemmas::List::drop_more))]
pub(crate) fn lists<'a>(
    alloc: Global,
    items: &'a [Item],
    name: &[u8],
) -> Result<Items<&'a [Lexeme]>, Memory>
    ensures { IfOk result (λ found. told found ≡ lists name.now items.entry.now) }
{
    let mut found = Items::new(alloc);
    for item in items {
        match add_list(&mut found, item, name) {
            Ok(()) => {}
            Err(wanting) => {
                drop(found);
                return Err(wanting);
            }
        }
    }
    Ok(found)
}

/// Adds the item's value where it is a simple attribute of this name.
fn add_value<'a>(found: &mut Items<&'a [Lexeme]>, item: &'a Item, name: &[u8]) -> Result<(), Memory>
    ensures { IfOk result
        (λ _. told found.new ≡ told found.old ++ value_in name.now (out-Item item.entry.now)) }
{
    match item {
        Item::Simple { word, value } => {
            if is_called(word, name) {
                return found.push(value.as_slice());
            }
            Ok(())
        }
        _ => Ok(()),
    }
}

/// The values of the simple attributes of a name.
#[tactic(auto, unfolding(crate::specs::Statements::values), using(std::proofs::lemmas::List::drop_more))]
pub(crate) fn values<'a>(
    alloc: Global,
    items: &'a [Item],
    name: &[u8],
) -> Result<Items<&'a [Lexeme]>, Memory>
    ensures { IfOk result (λ found. told found ≡ values name.now items.entry.now) }
{
    let mut found = Items::new(alloc);
    for item in items {
        match add_value(&mut found, item, name) {
            Ok(()) => {}
            Err(wanting) => {
                drop(found);
                return Err(wanting);
            }
        }
    }
    Ok(found)
}

/// The last of a list of values.
pub(crate) fn last<'a>(found: &[&'a [Lexeme]]) -> Option<&'a [Lexeme]>
    ensures { option_map (λ v. v.now) result ≡ last (told found.now) }
{
    let mut value = None;
    for next in found {
        value = Some(*next);
    }
    value
}

/// The bytes of a value of one token.
pub(crate) fn one_text<'a>(value: &'a [Lexeme]) -> Option<&'a [u8]>
    ensures { option_map (λ t. t.now) result ≡ one_text value.entry.now }
{
    match value.split_first() {
        None => None,
        Some((first, rest)) => {
            if rest.is_empty() {
                Some(first.text.as_slice())
            } else {
                None
            }
        }
    }
}

/// The last value of a simple attribute, where it is one token.
pub(crate) fn text_of<'a>(
    alloc: Global,
    items: &'a [Item],
    name: &[u8],
) -> Result<Option<&'a [u8]>, Memory>
    ensures { IfOk result
        (λ text. option_map (λ t. t.now) text ≡ text_of name.now items.entry.now) }
{
    let found = values(alloc, items, name)?;
    let value = last(found.as_slice());
    drop(found);
    match value {
        Some(value) => Ok(one_text(value)),
        None => Ok(None),
    }
}
