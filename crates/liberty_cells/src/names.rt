//! The checks of names, and of how many there are.

ghost use Rattle.std.specs.Prelude.{◌≡◌, ◌++◌, ◌∷◌, ◌≤◌, [], List, map, IfOk, MatchOption};
ghost use Rattle.sta_text.specs.Faults.{least_from};
ghost use Rattle.timing_defs.specs.declared.liberty_tree.Lexeme.{Lexeme};
ghost use Rattle.timing_defs.specs.declared.liberty_tree.Tree.{Tree};
ghost use Rattle.liberty_cells.specs.Statements.{told};
ghost use Rattle.liberty_cells.specs.Cells.{pins_told, pin_args};
ghost use Rattle.liberty_cells.specs.Faults.{at, doubles, name_faults, one_name_faults, names_faults, too_many, first_arg, first_names, too_many_cells, pin_tree};

use crate::attributes::{note, note_first, note_missing};
use crate::pins::{Pin, is_new};
use crate::scope::Extent;
use sta_text::{Names, Wrong};
use sta_units::Memory;
use std::alloc::Global;
use timing_defs::{Code, Items, Lexeme, Tree, is_name};

/// At most so many cells in a library, and pins in a cell.
const LIMIT: usize = 10_000;

/// Notes a name that stands earlier.
#[tactic(auto, unfolding(crate::specs::Faults::doubles, sta_text::specs::Faults::least_from))]
fn note_double<'a>(
    best: Option<Wrong>,
    names: &mut Names<'a>,
    arg: &'a Lexeme,
) -> Result<Option<Wrong>, Memory>
    ensures { IfOk result
        (λ least. (rest : List Lexeme) → least_from least (doubles names.new rest)
        ≡ least_from best (doubles names.old (arg.entry.now ∷ rest))) }
{
    if is_new(names, arg)? {
        return Ok(best);
    }
    Ok(note(best, Code::LibertyDoubleName, arg))
}

/// Notes names of a list that stand earlier.
#[tactic(auto, using(std::proofs::lemmas::List::drop_more))]
fn note_doubles<'a>(
    best: Option<Wrong>,
    names: &mut Names<'a>,
    args: &'a [Lexeme],
) -> Result<Option<Wrong>, Memory>
    ensures { IfOk result
        (λ least. (rest : List Lexeme) → least_from least (doubles names.new rest)
        ≡ least_from best (doubles names.old (args.entry.now ++ rest))) }
{
    let mut least = best;
    for arg in args {
        least = note_double(least, names, arg)?;
    }
    Ok(least)
}

/// Checks that no name of the pins stands twice.
#[tactic(auto, unfolding(crate::specs::Faults::doubles, sta_text::specs::Faults::least_from), using(std::proofs::lemmas::List::drop_more))]
pub(crate) fn check_pin_doubles(
    alloc: Global,
    best: Option<Wrong>,
    pins: &[Pin<'_>],
) -> Result<Option<Wrong>, Memory>
    ensures { IfOk result
        (λ least. least ≡ least_from best (doubles [] (pin_args (pins_told pins.now)))) }
{
    let mut names = Names::new(alloc);
    let mut least = best;
    for pin in pins {
        match note_doubles(least, &mut names, pin.tree.args.as_slice()) {
            Ok(next) => least = next,
            Err(wanting) => {
                drop(names);
                return Err(wanting);
            }
        }
    }
    drop(names);
    Ok(least)
}

/// Notes that the first name of a group stands earlier.
#[tactic(auto, unfolding(crate::specs::Faults::doubles))]
fn note_first_double<'a>(
    best: Option<Wrong>,
    names: &mut Names<'a>,
    tree: &'a Tree,
) -> Result<Option<Wrong>, Memory>
    ensures { IfOk result
        (λ least. (rest : List Lexeme) → least_from least (doubles names.new rest)
        ≡ least_from best (doubles names.old (first_arg tree.entry.now ++ rest))) }
{
    match tree.args.as_slice().split_first() {
        None => Ok(best),
        Some((first, _)) => note_double(best, names, first),
    }
}

/// Checks that no first name of the groups stands twice.
#[tactic(auto, unfolding(crate::specs::Faults::doubles, sta_text::specs::Faults::least_from), using(std::proofs::lemmas::List::drop_more))]
pub(crate) fn check_doubles(
    alloc: Global,
    best: Option<Wrong>,
    trees: &[&Tree],
) -> Result<Option<Wrong>, Memory>
    ensures { IfOk result
        (λ least. least ≡ least_from best (doubles [] (first_names (told trees.now)))) }
{
    let mut names = Names::new(alloc);
    let mut least = best;
    for tree in trees {
        match note_first_double(least, &mut names, *tree) {
            Ok(next) => least = next,
            Err(wanting) => {
                drop(names);
                return Err(wanting);
            }
        }
    }
    drop(names);
    Ok(least)
}

#[tactic(auto, unfolding(sta_text::specs::Faults::least_from))]
fn check_name(best: Option<Wrong>, arg: &Lexeme) -> Option<Wrong>
    ensures { result ≡ least_from best (name_faults arg.now) }
{
    if is_name(arg.text.as_slice()) {
        return best;
    }
    note(best, Code::LibertyBadToken, arg)
}

/// Checks the list of a group that has one name.
#[tactic(auto, using(sta_text::proofs::FaultsLemmas::least_append))]
pub(crate) fn check_one_name(best: Option<Wrong>, extent: Extent, args: &[Lexeme]) -> Option<Wrong>
    ensures { result ≡ least_from best (one_name_faults extent args.now) }
{
    match args.split_first() {
        None => note_missing(best, Code::LibertyBadToken, extent),
        Some((first, rest)) => { note_first(check_name(best, first), Code::LibertyBadToken, rest) }
    }
}

/// Checks the list of a group that has one name or more.
#[tactic(auto, unfolding(crate::specs::Faults::names_faults, sta_text::specs::Faults::least_from), using(std::proofs::lemmas::List::drop_more, sta_text::proofs::FaultsLemmas::least_append))]
pub(crate) fn check_names(best: Option<Wrong>, extent: Extent, args: &[Lexeme]) -> Option<Wrong>
    ensures { result ≡ least_from best (names_faults extent args.now) }
{
    if args.is_empty() {
        return note_missing(best, Code::LibertyBadToken, extent);
    }
    let mut least = best;
    for arg in args {
        least = check_name(least, arg);
    }
    least
}

/// How many names there are with those of one more pin; none where they are too many.
#[tactic(auto, unfolding(crate::specs::Faults::too_many))]
fn counted(seen: usize, pin: &Pin<'_>) -> Option<usize>
    requires { seen ≤ 10000 }
    ensures { MatchOption result
        ((rest : List Tree) → too_many 10000 seen (pin.now.tree.now ∷ rest)
        ≡ at Code.LibertyTooMany pin.now.tree.now.word)
        (λ n. (n ≤ 10000)
        ×
        ((rest : List Tree) → too_many 10000 seen (pin.now.tree.now ∷ rest)
        ≡ too_many 10000 n rest)) }
{
    let room = LIMIT - seen;
    let more = pin.tree.args.len();
    if room < more {
        return None;
    }
    Some(seen + more)
}

/// Checks that a cell has not too many pins.
#[tactic(auto, unfolding(crate::specs::Faults::too_many, sta_text::specs::Faults::least_from), using(std::proofs::lemmas::List::drop_more))]
pub(crate) fn check_pin_count(best: Option<Wrong>, pins: &[Pin<'_>]) -> Option<Wrong>
    ensures { result ≡ least_from best (too_many 10000 0 (map pin_tree (pins_told pins.now))) }
{
    let mut seen = 0;
    for pin in pins {
        match counted(seen, pin) {
            None => return note(best, Code::LibertyTooMany, &pin.tree.word),
            Some(more) => seen = more,
        }
    }
    best
}

/// Checks that a library has not too many cells.
#[tactic(auto, unfolding(sta_text::specs::Faults::least_from), using(crate::proofs::NamesLemmas::get_told))]
pub(crate) fn check_cell_count(best: Option<Wrong>, cells: &Items<&Tree>) -> Option<Wrong>
    ensures { result ≡ least_from best (too_many_cells (told cells.now)) }
{
    match cells.get(LIMIT) {
        None => best,
        Some(cell) => note(best, Code::LibertyTooMany, &cell.word),
    }
}
