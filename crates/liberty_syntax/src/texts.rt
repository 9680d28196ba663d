//! Whole texts.

ghost use Rattle.std.specs.Prelude.{◌≡◌, ◌<◌, [], ◌∷◌, List, false, length, IfOk, MatchResult};
ghost use Rattle.timing_defs.specs.declared.liberty_tree.Lexeme.{Lexeme};
ghost use Rattle.timing_defs.specs.declared.liberty_tree.Tree.{Tree};
ghost use Rattle.liberty_syntax.specs.declared.reading.Reading.TheVariants.{Whole, Broken};
ghost use Rattle.liberty_syntax.specs.Grammar.{frame, body, named, closed, behind, grow, reading_of};
ghost use Rattle.liberty_syntax.specs.Parts.{Stops, Tells};

use crate::groups::group_items;
use crate::reading::{Reading, Stop};
use crate::statements::{after_name, arguments};
use crate::tokens::{cut_off, is_called, is_lexeme, is_line_end, is_mark, is_skip, lexeme, unfit};
use sta_text::{Cursor, Wrong};
use sta_units::Memory;
use std::alloc::Global;
use timing_defs::{Items, Lexeme, ReadFault, Style, Tree};

/// Takes the name of the text's group.
#[tactic(auto, unfolding(crate::specs::Grammar::grow))]
fn library_word(alloc: Global, cursor: &mut Cursor<'_>, size: usize) -> Result<Lexeme, Stop>
    ensures { MatchResult result
        (λ word. grow size [] body cursor.old ≡ grow size [] (named word) cursor.new)
        (λ e. Stops e [] (grow size [] body cursor.old)) }
{
    'each: loop {
        let Some(token) = cursor.next() else {
            return Err(Stop::Fault(cut_off(size, false)));
        };
        if !is_skip(token) {
            if !is_lexeme(token) {
                return Err(Stop::Fault(unfit(size, false, true, token)));
            }
            let word = lexeme(alloc, token)?;
            if is_called(&word, b"library") {
                return Ok(word);
            }
            return Err(Stop::Fault(unfit(size, false, true, token)));
        }
    }
}

/// Takes the begin of the text's group, behind its list of arguments.
#[tactic(auto, unfolding(crate::specs::Grammar::grow))]
fn library_begin(cursor: &mut Cursor<'_>, size: usize) -> Result<(), Stop>
    ensures { MatchResult result
        (λ _. (word : Lexeme) (args : List Lexeme)
        → grow size [] (closed word args false) cursor.old
        ≡ grow size (frame word args [] ∷ []) body cursor.new)
        (λ e. (word : Lexeme) (args : List Lexeme)
        → Stops e [] (grow size [] (closed word args false) cursor.old)) }
{
    'each: loop {
        let Some(token) = cursor.next() else {
            return Err(Stop::Fault(cut_off(size, false)));
        };
        if is_mark(token, b'{') {
            return Ok(());
        }
        if !is_line_end(token) {
            return Err(Stop::Fault(unfit(size, false, false, token)));
        }
    }
}

/// Takes the begin of the text up to the begin of its group.
fn head(
    alloc: Global,
    cursor: &mut Cursor<'_>,
    size: usize,
) -> Result<(Lexeme, Items<Lexeme>), Stop>
    ensures { MatchResult result
        (λ v. grow size [] body cursor.old ≡ grow size (frame v.0 v.1 [] ∷ []) body cursor.new)
        (λ e. Stops e [] (grow size [] body cursor.old)) }
{
    let word = library_word(alloc, cursor, size)?;
    if !after_name(cursor, size, false)? {
        unreachable!();
    }
    let args = arguments(alloc, cursor, size, false)?;
    library_begin(cursor, size)?;
    Ok((word, args))
}

/// Takes what follows the text's group, which is nothing but semicolons and line ends.
#[tactic(auto, unfolding(crate::specs::Grammar::grow))]
fn rest(cursor: &mut Cursor<'_>, size: usize) -> Result<(), Wrong>
    ensures { MatchResult result
        (λ _. (tree : Tree) → grow size [] (behind tree) cursor.old ≡ Whole tree)
        (λ w. (tree : Tree) → grow size [] (behind tree) cursor.old ≡ Broken tree.items w) }
{
    'each: loop {
        let Some(token) = cursor.next() else {
            return Ok(());
        };
        if !is_skip(token) {
            return Err(unfit(size, false, false, token));
        }
    }
}

/// Takes the statements of the text's group, its end, and the rest of the text.
fn library(
    alloc: Global,
    cursor: &mut Cursor<'_>,
    size: usize,
    word: Lexeme,
    args: Items<Lexeme>,
) -> Result<Reading, Memory>
    ensures { IfOk result
        (λ reading. reading ≡ grow size (frame word args [] ∷ []) body cursor.old) }
{
    let mut items = Items::new(alloc);
    match group_items(alloc, cursor, size, 1, &mut items) {
        Ok(()) => match rest(cursor, size) {
            Ok(()) => Ok(Reading::Whole(Tree { word, args, items })),
            Err(wrong) => Ok(Reading::Broken { items, wrong }),
        },
        Err(Stop::Memory) => Err(Memory),
        Err(Stop::Fault(wrong)) => Ok(Reading::Broken { items, wrong }),
    }
}

/// Reads a text. The answer is want of memory alone, or the tree, or the first fault with the
/// statements of the library that have ended before it.
pub fn read(alloc: Global, bytes: &[u8]) -> Result<Reading, Memory>
    ensures { IfOk result (λ reading. reading ≡ reading_of bytes.now) }
{
    let size = bytes.len();
    let mut cursor = Cursor::new(bytes, Style::Liberty);
    match head(alloc, &mut cursor, size) {
        Ok((word, args)) => library(alloc, &mut cursor, size, word, args),
        Err(Stop::Memory) => Err(Memory),
        Err(Stop::Fault(wrong)) => Ok(Reading::Broken {
            items: Items::new(alloc),
            wrong,
        }),
    }
}

/// Reads the tree of a Liberty text, of which the groups are nested up to 64 deep.
///
/// # Errors
/// The first of these faults. `L1`: a closing bracket without its opening, or an end inside a group,
/// list, string or comment, which is placed at the text's length. `L2`: another token that the
/// grammar does not allow, a text that is not one `library` group, a group within 64 others (placed
/// at its name), or `include_file`. `L3`: a byte outside strings and comments that no token may have.
pub fn read_tree(alloc: Global, bytes: &[u8]) -> Result<Tree, ReadFault>
    ensures { MatchResult result (λ tree. reading_of bytes.now ≡ Whole tree)
        (λ fault. Tells fault (reading_of bytes.now)) }
{
    match read(alloc, bytes)? {
        Reading::Whole(tree) => Ok(tree),
        Reading::Broken { items: _, wrong } => Err(wrong.told()),
    }
}
