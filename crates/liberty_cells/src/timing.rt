//! Groups of timing.

ghost use Rattle.std.specs.Prelude.{◌≡◌, ◌++◌, ◌∷◌, List, ℕ, option_map, IfOk};
ghost use Rattle.std.specs.List.{filter};
ghost use Rattle.sta_text.specs.Names.{stands};
ghost use Rattle.liberty_cells.specs.Statements.{told};
ghost use Rattle.liberty_cells.specs.Tables.{words};
ghost use Rattle.liberty_cells.specs.Cells.{output_timing, input_timing, timing_named, timing_typed, timing_in, timing_of, related, sense_named, sense_of, names_in, texts_of};

use crate::statements::{last, one_text, text_of, values};
use crate::words::Words;
use sta_text::Names;
use sta_units::Memory;
use std::alloc::Global;
use timing_defs::{Dir, Item, Items, Kind, Lexeme, Name, Tran, Tree};

/// What a group of timing is: an arc between transitions, an arc from an edge of the related pin, or
/// a test against one.
#[derive(Clone, Copy, Drop)]
pub(crate) enum Timing {
    Between,
    From(Tran),
    Test(Kind, Tran),
}

/// Which transitions of its input an arc joins to one of its output: the same, the other, or both.
#[derive(Clone, Copy, Drop)]
pub(crate) enum Sense {
    Keeps,
    Inverts,
    Any,
}

fn output_timing(text: &[u8]) -> Option<Timing>
    ensures { result ≡ output_timing text.now }
{
    if text == b"combinational".as_slice() {
        Some(Timing::Between)
    } else if text == b"rising_edge".as_slice() {
        Some(Timing::From(Tran::Rise))
    } else if text == b"falling_edge".as_slice() {
        Some(Timing::From(Tran::Fall))
    } else {
        None
    }
}

fn input_timing(text: &[u8]) -> Option<Timing>
    ensures { result ≡ input_timing text.now }
{
    if text == b"setup_rising".as_slice() {
        Some(Timing::Test(Kind::Setup, Tran::Rise))
    } else if text == b"setup_falling".as_slice() {
        Some(Timing::Test(Kind::Setup, Tran::Fall))
    } else if text == b"hold_rising".as_slice() {
        Some(Timing::Test(Kind::Hold, Tran::Rise))
    } else if text == b"hold_falling".as_slice() {
        Some(Timing::Test(Kind::Hold, Tran::Fall))
    } else {
        None
    }
}

fn timing_named(dir: Dir, text: &[u8]) -> Option<Timing>
    ensures { result ≡ timing_named dir text.now }
{
    match dir {
        Dir::Output => output_timing(text),
        Dir::Input => input_timing(text),
    }
}

/// What a group of timing with this last type is.
#[tactic(auto, unfolding(crate::specs::Cells::timing_typed))]
fn timing_typed(dir: Dir, value: Option<&[Lexeme]>) -> Option<Timing>
    ensures { result ≡ timing_typed dir (option_map (λ v. v.now) value.entry) }
{
    let Some(value) = value else {
        return timing_named(dir, b"combinational");
    };
    match one_text(value) {
        None => None,
        Some(text) => timing_named(dir, text),
    }
}

/// What a group of timing with these statements is.
#[tactic(auto, unfolding(crate::specs::Cells::timing_in))]
fn timing_in(alloc: Global, dir: Dir, items: &[Item]) -> Result<Option<Timing>, Memory>
    ensures { IfOk result (λ timing. timing ≡ timing_in dir items.now) }
{
    let found = values(alloc, items, b"timing_type")?;
    let timing = timing_typed(dir, last(found.as_slice()));
    drop(found);
    Ok(timing)
}

/// What a group of timing of a pin is; none where it is passed over.
pub(crate) fn timing_of(alloc: Global, dir: Dir, group: &Tree) -> Result<Option<Timing>, Memory>
    ensures { IfOk result (λ timing. timing ≡ timing_of dir group.now) }
{
    timing_in(alloc, dir, group.items.as_slice())
}

/// Adds the words of a text that are among these names.
fn add_standing<'a>(
    names: &Names<'_>,
    text: &'a [u8],
    found: &mut Items<&'a [u8]>,
) -> Result<(), Memory>
    ensures { IfOk result
        (λ _. told found.new ≡ told found.old ++ filter (stands names.now) (words text.entry.now)) }
{
    let mut words = Words::new(text, false);
    while let Some(word) = words.next() {
        if names.has(word) {
            found.push(word)?;
        }
    }
    Ok(())
}

/// The related pins that are pins of the cell.
pub(crate) fn related<'a>(
    alloc: Global,
    names: &Names<'_>,
    group: &'a Tree,
) -> Result<Items<&'a [u8]>, Memory>
    ensures { IfOk result (λ found. told found ≡ related names.now group.entry.now) }
{
    let mut found = Items::new(alloc);
    if let Some(text) = text_of(alloc, group.items.as_slice(), b"related_pin")? {
        match add_standing(names, text, &mut found) {
            Ok(()) => {}
            Err(wanting) => {
                drop(found);
                return Err(wanting);
            }
        }
    }
    Ok(found)
}

fn sense_named(text: &[u8]) -> Sense
    ensures { result ≡ sense_named text.now }
{
    if text == b"positive_unate".as_slice() {
        Sense::Keeps
    } else if text == b"negative_unate".as_slice() {
        Sense::Inverts
    } else {
        Sense::Any
    }
}

/// The sense of a group's arcs.
pub(crate) fn sense_of(alloc: Global, group: &Tree) -> Result<Sense, Memory>
    ensures { IfOk result (λ sense. sense ≡ sense_of group.now) }
{
    match text_of(alloc, group.items.as_slice(), b"timing_sense")? {
        None => Ok(Sense::Any),
        Some(text) => Ok(sense_named(text)),
    }
}

/// Adds a text where it is a name.
fn add_name(alloc: Global, found: &mut Items<Name>, text: &[u8]) -> Result<(), Memory>
    ensures { IfOk result
        (λ _. (rest : List (List ℕ)) → found.new ++ names_in rest
        ≡ found.old ++ names_in (text.now ∷ rest)) }
{
    match Name::from_bytes(alloc, text)? {
        None => Ok(()),
        Some(name) => found.push(name),
    }
}

/// Those of the texts that are names.
#[tactic(auto, using(std::proofs::lemmas::List::drop_more))]
pub(crate) fn names_in(alloc: Global, texts: &[&[u8]]) -> Result<Items<Name>, Memory>
    ensures { IfOk result (λ found. found ≡ names_in (told texts.now)) }
{
    let mut found = Items::new(alloc);
    for text in texts {
        match add_name(alloc, &mut found, *text) {
            Ok(()) => {}
            Err(wanting) => {
                drop(found);
                return Err(wanting);
            }
        }
    }
    Ok(found)
}

/// The names in a list of arguments.
#[tactic(auto, using(std::proofs::lemmas::List::drop_more))]
pub(crate) fn arg_names(alloc: Global, args: &[Lexeme]) -> Result<Items<Name>, Memory>
    ensures { IfOk result (λ found. found ≡ names_in (texts_of args.now)) }
{
    let mut found = Items::new(alloc);
    for arg in args {
        match add_name(alloc, &mut found, arg.text.as_slice()) {
            Ok(()) => {}
            Err(wanting) => {
                drop(found);
                return Err(wanting);
            }
        }
    }
    Ok(found)
}
